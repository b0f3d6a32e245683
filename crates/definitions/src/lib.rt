// Definitions of chronicles: read from text, line by line, and closed.
#![tactic(auto)]

mod draft;
pub mod item;
pub mod loaded;
pub mod opening;
pub mod reader;
#[cfg(test)]
mod tests;
pub mod types;
pub mod words;
