// Reports: lines that tell of chronicles, and their text.
#![tactic(auto)]

mod head;
pub mod letter;
pub mod line;
mod pieces;
#[cfg(test)]
mod tests;
pub mod writing;
