//! How large a table is.

/// How many entries a table is made for at most.
pub const MOST_ENTRIES: usize = 16_384;

/// How many octets a connection's buffers hold each way at least.
pub const LEAST_BUFFER: usize = 2_048;

/// How large a table is.
#[derive(Clone, Copy, PartialEq, Eq, Debug)]
pub struct Sizes {
    /// How many entries it holds at most: sockets, and connections that no socket names, not yet or no longer.
    pub entries: usize,
    /// How many octets a connection's buffers hold each way; 65,535 at most where its windows aren't scaled (RFC 7323 section 2).
    pub buffer: usize,
}
