// An accepted event with what memory has for it: the closed bounds of each slot, and the variables that its type fits.
use crate::row::Arrival;
use crate::wanted::Wanted;
use kinds::bound::Bound;

#[derive(Clone, Copy)]
pub struct Incoming<'a, K> {
    pub entries: &'a [Bound<K>],
    pub wanted: &'a Wanted,
    pub arrival: Arrival<K>,
}
