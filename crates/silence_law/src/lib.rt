//! The law that two ends of one connection fall silent, over definitions alone: without a call and without a tick only so many segments go out and come.
#![tactic(auto)]

pub mod laws;
