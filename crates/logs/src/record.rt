// A record of a log: that a gauge saw an event of a type, with the stamp of it.
use text::name::Name;

#[derive(Clone, Copy, Debug, PartialEq, Eq)]
pub struct Record<K> {
    pub name: Name,
    pub gauge: u32,
    pub stamp: K,
}
