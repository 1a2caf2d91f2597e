//! A copier: octets of a source go over a connection of two hosts, which a link joins, into a sink.
#![tactic(auto)]

mod ends;
mod fault;
mod feed;
mod turns;

pub use fault::CopyFault;
pub use turns::copy;
