// Log sources: records that wait, an ending, a log read from text, and the merge of two sources.
#![tactic(auto)]

pub mod ending;
mod line;
pub mod merge;
pub mod record;
pub mod source;
#[cfg(test)]
mod tests;
pub mod text_log;
