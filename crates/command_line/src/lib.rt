//! What the words of a command line of `hostd` ask for.
#![tactic(auto)]

pub mod line;
pub mod request;
