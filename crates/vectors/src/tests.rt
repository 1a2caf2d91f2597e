//! Tables of vectors, a module for each format or part. Octets stand in them as byte strings.

mod buffers;
mod captures;
mod datagrams;
mod fragments;
mod heard;
mod hops;
mod lines;
mod link;
mod messages;
mod packets;
mod plain;
mod prefixes;
mod reports;
mod segments;
mod streams;
mod sums;
mod texts;
mod timeouts;
mod user_datagrams;
mod windows;

use ipv4::Addr;

/// The address of the one host.
const A: Addr = Addr([10, 0, 0, 1]);

/// The address of the other.
const B: Addr = Addr([10, 0, 0, 2]);
