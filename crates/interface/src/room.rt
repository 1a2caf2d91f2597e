//! Room for the octets of replies, made before they are owed.

ghost use Rattle.std.specs.Prelude.{◌≡◌, ◌≤◌, ◌+◌, ◌++◌, [], length, take, IfOk};
ghost use Rattle.ipv4.specs.declared.limits.TheConstants.{ERROR_QUOTE};
ghost use Rattle.interface.specs.declared.room.TheConstants.{ECHO_ROOM};

use icmp::QUOTED_LEN;
use ipv4::ERROR_QUOTE;
use std::alloc::{AllocError, Global};
use std::marker::Model;

/// The octets of data that the largest frame brings of an echo: its datagram's payload without the header of the message (RFC 791
/// section 3.1, RFC 792).
pub const ECHO_ROOM: usize = 1_472;

/// Octets of a reply, in memory that was taken before. A clause sees the octets.
#[derive(Drop)]
pub(crate) struct Room {
    octets: Vec<u8>,
}

impl Model for Room {
    ghost use Rattle.std.specs.Prelude.{ℕ, ◌≤◌, List};
    ghost use Rattle.std.specs.Vec.{vec_len, vec_capacity};
    ghost use Rattle.interface.specs.declared.room.TheConstants.{ECHO_ROOM};

    ghost Value = { List ℕ };

    ghost view = { λ r. r.octets.items };

    ghost invariant = { λ r. (vec_len r.octets ≤ ECHO_ROOM) × (ECHO_ROOM ≤ vec_capacity r.octets) };
}

impl Room {
    /// An empty room. Fails only where memory is refused.
    pub(crate) fn new(alloc: Global) -> Result<Room, AllocError>
        ensures { IfOk result (λ room. room ≡ []) }
    {
        let octets = Vec::with_capacity(alloc, ECHO_ROOM)?;
        Ok(Room { octets })
    }

    /// The octets in it.
    pub(crate) fn as_slice(&self) -> &[u8]
        ensures octets { result.now ≡ self.now }
        ensures most { length result.now ≤ ECHO_ROOM }
    {
        self.octets.as_slice()
    }

    /// The room with these octets in place of its own. It takes no memory.
    pub(crate) fn filled(mut self, octets: &[u8]) -> Room
        requires { length octets.now ≤ ECHO_ROOM }
        ensures { result ≡ octets.now }
    {
        self.octets.clear();
        let _ = self.octets.extend_from_slice(octets);
        self
    }

    /// The room with these octets behind its own. It takes no memory.
    fn extended(mut self, octets: &[u8]) -> Room
        requires { length self + length octets.now ≤ ECHO_ROOM }
        ensures { result ≡ self ++ octets.now }
    {
        let _ = self.octets.extend_from_slice(octets);
        self
    }
}

/// What an error quotes (RFC 792). A clause sees the octets.
#[derive(Drop)]
pub(crate) struct Quoted {
    room: Room,
}

impl Model for Quoted {
    ghost use Rattle.std.specs.Prelude.{ℕ, ◌≤◌, List, length};
    ghost use Rattle.ipv4.specs.declared.limits.TheConstants.{ERROR_QUOTE};

    ghost Value = { List ℕ };

    ghost view = { λ q. q.room };

    ghost invariant = { λ q. length q.room ≤ ERROR_QUOTE };
}

impl Quoted {
    /// The quote of a datagram with this header and this payload, in a room: the header and the first 8 octets of the payload, fewer where
    /// there are fewer. It takes no memory.
    pub(crate) fn new(room: Room, header: &[u8], payload: &[u8]) -> Quoted
        requires { length header.now ≤ 60 }
        ensures { result ≡ header.now ++ take 8 payload.now }
    {
        let beginning = &payload[..QUOTED_LEN.min(payload.len())];
        Quoted {
            room: room.filled(header).extended(beginning),
        }
    }

    /// A quote that was made before, in a room: its first 68 octets, fewer where there are fewer. It takes no memory.
    pub(crate) fn of(room: Room, quote: &[u8]) -> Quoted
        ensures { result ≡ take ERROR_QUOTE quote.now }
    {
        let first = &quote[..ERROR_QUOTE.min(quote.len())];
        Quoted {
            room: room.filled(first),
        }
    }

    /// The octets that are quoted.
    pub(crate) fn as_slice(&self) -> &[u8]
        ensures octets { result.now ≡ self.now }
        ensures most { length result.now ≤ ERROR_QUOTE }
    {
        self.room.as_slice()
    }

    /// The room that they stand in.
    pub(crate) fn into_room(self) -> Room
        ensures { result ≡ self }
    {
        self.room
    }
}
