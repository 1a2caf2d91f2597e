//! The law of a round, over definitions alone: two hosts, each with one connection that lives, and an exchange between them that loses nothing.
//! Only proofs depend on it.
#![tactic(auto)]

pub mod laws;
