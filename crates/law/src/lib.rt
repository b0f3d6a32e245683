// The law of a watch: what its rows and lines are, and the theorems that lead there from single calls and tests.
#![tactic(auto)]

pub mod theorems;
