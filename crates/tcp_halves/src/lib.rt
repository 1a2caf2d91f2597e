//! The two halves of a TCP connection and their memory (RFC 9293 section 3.3.1): what octets that are taken, sent, acknowledged, that come and are
//! read make of them, and which windows they advertise. Nothing here knows of states or timers.
#![tactic(auto)]

mod buffers;
pub mod laws;
mod receiver;
mod sender;

pub use buffers::{Buffers, CAPACITY, LARGEST_CAPACITY, Manner};
pub use receiver::Receiver;
pub use sender::Sender;
