//! What the fragments of one datagram have in common.

ghost use Rattle.std.specs.Prelude.{◌≡◌};
ghost use Rattle.reassembly.specs.Fragments.{key_of};
ghost use Rattle.reassembly.specs.Keys.{same_key};

use ipv4::{Addr, Ipv4View, Protocol};

/// What the fragments of one datagram have in common, and those of no other at that time (RFC 791 section 3.2).
#[derive(Clone, Copy, Debug, PartialEq, Eq)]
pub struct Key {
    /// The address that it comes from.
    pub source: Addr,
    /// The address that it is for.
    pub destination: Addr,
    /// What its payload is.
    pub protocol: Protocol,
    /// The number that the source gave it.
    pub identification: u16,
}

impl Key {
    /// That of a fragment (RFC 791 section 3.2).
    pub fn of(fragment: &Ipv4View) -> Key
        ensures { result ≡ key_of fragment.now }
    {
        Key {
            source: fragment.source(),
            destination: fragment.destination(),
            protocol: fragment.protocol(),
            identification: fragment.identification(),
        }
    }

    /// Whether two fragments are of one datagram.
    pub(crate) fn is(self, other: Key) -> bool
        ensures { result ≡ same_key self other }
    {
        self == other
    }
}

impl Default for Key {
    /// What stands in a place that is not in use.
    fn default() -> Key {
        Key {
            source: Addr([0; 4]),
            destination: Addr([0; 4]),
            protocol: Protocol(0),
            identification: 0,
        }
    }
}
