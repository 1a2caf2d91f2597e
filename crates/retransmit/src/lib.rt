//! The retransmission timeout and the timers of a connection (RFC 6298), with no clock of their own.
#![tactic(auto)]

pub mod laws;
mod rto;
mod timers;

pub use rto::{Estimate, Rto};
pub use timers::{TimerKind, Timers};
