// Rows by tests: which variables are filled, what deadline that leaves, and what a new event makes of it.
#![tactic(auto)]

pub mod filled;
pub mod holding;
pub mod latest;
pub mod portrait;
#[cfg(test)]
mod tests;
