// The text layer: parts and lines of a text, whole numbers, names, and the faults that reading them can find.
#![tactic(auto)]

pub mod fault;
pub mod lines;
pub mod name;
pub mod number;
pub mod parts;
#[cfg(test)]
mod tests;
pub mod writing;
