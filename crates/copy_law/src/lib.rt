//! The law of a copy, over definitions alone: two hosts, a link between them that may lose, repeat and reorder frames, and the octets that one
//! of them is given and the other gives. Only proofs depend on it.
#![tactic(auto)]

pub mod laws;
