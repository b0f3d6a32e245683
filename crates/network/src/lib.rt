// Networks of bounds: their tables, their closure, or the contradiction in them.
#![tactic(auto)]

mod cells;
pub mod closing;
pub mod table;
#[cfg(test)]
mod tests;
