// The deadlines of the rows that a watch holds, in a queue whose smallest comes first.
#![tactic(auto)]

pub mod due;
pub mod of_rows;
#[cfg(test)]
mod tests;
