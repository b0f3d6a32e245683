// What an event makes of rows: those that end, and those that it grows or ripens from others.
#![tactic(auto)]

pub mod ends;
pub mod fork;
pub mod incoming;
pub mod row;
pub mod spread;
pub mod tables;
#[cfg(test)]
mod tests;
pub mod wanted;
