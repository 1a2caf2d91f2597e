//! The law of two ends' windows, over definitions alone: of two connections, each of which sends what is due first, neither has more outstanding
//! than the other told, but for a number that only a probe took, and so each hears the other's acknowledgements.
#![tactic(auto)]

pub mod laws;
