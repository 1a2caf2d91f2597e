//! The Address Resolution Protocol (RFC 826): its packets, and the cache of what they tell.
#![tactic(auto)]

mod cache;
mod entry;
pub mod laws;
mod packet;

pub use cache::ArpCache;
pub use packet::{ArpFault, ArpPacket, LEN, Operation};
