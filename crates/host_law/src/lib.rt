//! The law of one host, whoever its peers are, over definitions alone.
#![tactic(auto)]

pub mod laws;
