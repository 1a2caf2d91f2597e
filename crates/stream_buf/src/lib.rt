//! The buffers of a byte stream (RFC 9293 section 3.3.1): what was written and is not acknowledged, and what came, in order or
//! ahead of a gap.
#![tactic(auto)]

pub mod laws;
mod ranges;
mod receive;
pub mod reported;
mod ring;
mod scoreboard;
mod send;

pub use ranges::Range;
pub use receive::{MOST_RANGES, RecvBuf};
pub use scoreboard::{Scoreboard, Tolerance};
pub use send::SendBuf;
