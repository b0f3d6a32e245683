// Kinds of stamp: an ordered group's elements, how they are added, compared, read and written.
#![tactic(auto)]

pub mod behind;
pub mod bound;
mod fields;
pub mod kind;
pub mod pairs;
#[cfg(test)]
mod tests;
pub mod ticks;
