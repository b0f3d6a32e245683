// The watch: it holds partial chronicles, recognises them in events, and tells what it recognised and what can no longer be.
#![tactic(auto)]

pub mod watch;
