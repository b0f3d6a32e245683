// The eight slots of a watch: which are loaded, with which variables, and how a definition is loaded.
#![tactic(auto)]

pub mod loading;
mod slot;
pub mod table;
#[cfg(test)]
mod tests;
