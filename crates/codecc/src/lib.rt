//! The formats for programs in C: each header as a struct of numbers, read from octets and written into them, and nothing else. No call keeps
//! anything, takes memory or depends on an earlier one.
#![tactic(auto)]

mod control;
mod convert;
pub mod laws;
mod link;
mod network;
mod resolution;
mod sums;
mod transport;
mod types;
mod user;

pub use types::{
    CodecArp, CodecBlock, CodecEther, CodecIcmp, CodecIpv4, CodecQuote, CodecTcp, CodecUdp,
};
