//! The law of one connection's stream, over its definitions alone: a channel is one direction of it, and a pairing two
//! connections with a network between them that loses, repeats and reorders segments.
#![tactic(auto)]

pub mod laws;
