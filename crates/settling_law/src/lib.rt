//! Laws of two connections of a world that are left to themselves, over definitions alone: what goes out of them comes to an end.
#![tactic(auto)]

pub mod laws;
