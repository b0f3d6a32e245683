// What the tests look at in a row: a choice of a loading by bits and stamps, with the closed bounds of the chronicle.
use crate::filled::Filled;
use kinds::bound::Bound;

// The stamps are those of the first `width` variables at least; an open variable's stamp is any.
#[derive(Clone, Copy)]
pub struct Portrait<'a, K> {
    pub table: &'a [Bound<K>],
    pub filled: Filled,
    pub stamps: &'a [K],
    pub width: usize,
}
