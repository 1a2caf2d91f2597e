//! Addresses, endpoints, and the pair of endpoints of a connection.

ghost use Rattle.std.specs.Prelude.{◌≡◌, ◌≤◌, ◌+◌, ◌↔◌, IsTrue, length, take, drop};
ghost use Rattle.ipv4.specs.Addresses.{IsUnicast, is_unicast, same_addr, same_end, pair_of};

use std::fmt::{Display, Error, Formatter, Write};

/// An IPv4 address: its four octets in network order (RFC 791 section 3.2).
#[derive(Clone, Copy, Debug, PartialEq, Eq, PartialOrd, Ord, Hash)]
pub struct Addr(pub [u8; 4]);

impl Addr {
    /// Whether one host may have this address: the first octet is 1 to 223, and not 127.
    pub fn is_unicast(self) -> bool
        ensures test { result ≡ is_unicast self }
        ensures host { IsTrue result ↔ IsUnicast self }
    {
        matches!(self.0[0], 1..=126 | 128..=223)
    }

    /// Whether both are one address, as by `==`. They are compared as numbers: so a processor compares once, not four times.
    pub fn is_same(self, other: Addr) -> bool
        ensures { result ≡ same_addr self other }
    {
        let [a0, a1, a2, a3] = self.0;
        let [b0, b1, b2, b3] = other.0;
        u32::from_le_bytes([a0, a1, a2, a3]) == u32::from_le_bytes([b0, b1, b2, b3])
    }

    /// The address in the four octets from a place on.
    pub fn at(octets: &[u8], place: usize) -> Addr
        requires { place + 4 ≤ length octets.now }
        ensures { result.0 ≡ take 4 (drop place octets.now) }
    {
        Addr([
            octets[place],
            octets[place + 1],
            octets[place + 2],
            octets[place + 3],
        ])
    }
}

impl Display for Addr {
    fn fmt<W: Write>(&self, f: &mut Formatter<W>) -> Result<(), Error> {
        let [a, b, c, d] = self.0;
        write!(f, "{a}.{b}.{c}.{d}")
    }
}

/// One end of a connection: an address and a port (RFC 9293 section 3.1).
#[derive(Clone, Copy, Debug, PartialEq, Eq, PartialOrd, Ord, Hash)]
pub struct Endpoint {
    /// The host's address.
    pub addr: Addr,
    /// The port at that host.
    pub port: u16,
}

impl Endpoint {
    /// Whether both are one end, as by `==`: their addresses are compared as numbers.
    pub fn is_same(self, other: Endpoint) -> bool
        ensures { result ≡ same_end self other }
    {
        self.addr.is_same(other.addr) && self.port == other.port
    }
}

/// The two endpoints of a connection, the lesser one first, by address and then by port.
#[derive(Clone, Copy, Debug, PartialEq, Eq, PartialOrd, Ord, Hash)]
pub struct Pair {
    /// The lesser endpoint.
    pub first: Endpoint,
    /// The greater endpoint.
    pub second: Endpoint,
}

impl Pair {
    /// The pair of two endpoints, in either order.
    pub fn new(a: Endpoint, b: Endpoint) -> Pair
        ensures { result ≡ pair_of a b }
    {
        if a.cmp(&b).is_le() {
            Pair {
                first: a,
                second: b,
            }
        } else {
            Pair {
                first: b,
                second: a,
            }
        }
    }

    /// The lesser endpoint.
    pub fn first(self) -> Endpoint
        ensures { result ≡ self.first }
    {
        self.first
    }

    /// The greater endpoint.
    pub fn second(self) -> Endpoint
        ensures { result ≡ self.second }
    {
        self.second
    }
}
