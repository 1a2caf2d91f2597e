//! The congestion window of a connection (RFC 5681, and by a host's set-up RFC 6582 and RFC 6675), with no clock and no memory of its own.
#![tactic(auto)]

mod control;
pub mod laws;
mod window;

pub use control::{Control, Recovery};
pub use window::Cwnd;
