//! Moments of a host's clock. There is no clock here: a caller hands in the moment at which a call is made.
#![tactic(auto)]

pub mod laws;
mod moment;

pub use moment::{HOP_WAIT, Moment, later, sooner};
