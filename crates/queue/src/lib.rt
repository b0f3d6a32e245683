// A priority queue over lent memory: a binary heap whose least element comes first.
#![tactic(auto)]

mod front;
pub mod heap;
pub mod ranked;
mod sifts;
#[cfg(test)]
mod tests;
