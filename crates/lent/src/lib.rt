// Lists in memory that the caller lends, and sinks that items are put into.
#![tactic(auto)]

pub mod front;
pub mod list;
pub mod room;
pub mod sink;
pub mod storing;
#[cfg(test)]
mod tests;
