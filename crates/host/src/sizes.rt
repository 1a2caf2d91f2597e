//! How large a host is.

ghost use Rattle.std.specs.Prelude.{◌≡◌, ◌↔◌, ◌≤◌, true};
ghost use Rattle.host.specs.Sizes.{IsSizes};

use ipv4::MAX_PAYLOAD;
use reassembly::MOST_PLACES;
use sockets::{LEAST_BUFFER, MOST_ENTRIES};
use tcp_state::LARGEST_CAPACITY;

/// How large a host is: what it takes memory for once, as it is made, and what each of its connections takes.
#[derive(Clone, Copy, PartialEq, Eq, Debug)]
pub struct Sizes {
    /// How many sockets and connections its table holds: 1 to 16,384.
    pub entries: usize,
    /// How many octets the buffers of a connection hold each way: 2,048 to 1,048,576, and 65,535 at most where its windows aren't scaled (RFC 7323
    /// section 2).
    pub buffer: usize,
    /// How many datagrams are put together of their fragments at once: 0 to 16.
    pub reassemblies: usize,
    /// How many octets of payload each of these has room for: 1,480 to 65,515.
    pub reassembly_octets: usize,
    /// How many control replies wait: 1 to 64.
    pub replies: usize,
    /// How many neighbours are known: 8 to 4,096.
    pub neighbours: usize,
}

/// How many entries the table of a usual host has.
const ENTRIES: usize = 64;

/// How many datagrams a usual host puts together at once.
const REASSEMBLIES: usize = 4;

/// How many control replies wait at a usual host at most.
const REPLIES: usize = 16;

/// How many neighbours a usual host knows at most.
const NEIGHBOURS: usize = 64;

/// How many octets of payload a datagram that is put together has room for at least: those that a frame brings (RFC 894, RFC 791 section 3.1).
const LEAST_REASSEMBLY: usize = 1_480;

/// How many control replies wait at most.
const MOST_REPLIES: usize = 64;

/// How many neighbours are known at least.
const LEAST_NEIGHBOURS: usize = 8;

/// How many neighbours are known at most.
const MOST_NEIGHBOURS: usize = 4_096;

impl Sizes {
    /// The sizes of a host that asks for no other: 64 entries, buffers of 1,048,576 octets each way, four datagrams of 65,515 octets that are put together, 16 control
    /// replies and 64 neighbours.
    pub const USUAL: Sizes = Sizes {
        entries: ENTRIES,
        buffer: LARGEST_CAPACITY,
        reassemblies: REASSEMBLIES,
        reassembly_octets: MAX_PAYLOAD,
        replies: REPLIES,
        neighbours: NEIGHBOURS,
    };

    /// Whether each lies in its range.
    pub(crate) fn are_valid(&self) -> bool
        ensures { (result ≡ true) ↔ IsSizes self.now }
    {
        1 <= self.entries
            && self.entries <= MOST_ENTRIES
            && LEAST_BUFFER <= self.buffer
            && self.buffer <= LARGEST_CAPACITY
            && self.reassemblies <= MOST_PLACES
            && LEAST_REASSEMBLY <= self.reassembly_octets
            && self.reassembly_octets <= MAX_PAYLOAD
            && 1 <= self.replies
            && self.replies <= MOST_REPLIES
            && LEAST_NEIGHBOURS <= self.neighbours
            && self.neighbours <= MOST_NEIGHBOURS
    }
}
