//! One route.

ghost use Rattle.std.specs.Prelude.{◌≡◌, ◌+◌, ◌-◌, ◌^◌, ◌≤◌, ◌&&◌, ◌↔◌, IsTrue};
ghost use Rattle.ipv4.specs.Prefixes.{number};
ghost use Rattle.routes.specs.Ends.{is_direct, is_end_of, last_number};

use ipv4::{Addr, Prefix};

/// The bits of an address.
const BITS: u8 = 32;

/// Where a packet goes next (RFC 1122 section 3.3.1.1).
#[derive(Clone, Copy, Debug, Default, PartialEq, Eq, Hash)]
pub enum Hop {
    /// To its destination, which is on the link.
    #[default]
    Direct,
    /// To this gateway on the link.
    Gateway(Addr),
}

/// The hop for the addresses of a prefix.
#[derive(Clone, Copy, Debug, Default, PartialEq, Eq, Hash)]
pub struct Route {
    /// The addresses that it is for.
    pub prefix: Prefix,
    /// Where what is for them goes next.
    pub hop: Hop,
}

impl Route {
    /// Whether it is the route for this prefix.
    pub(crate) fn is_for(&self, prefix: Prefix) -> bool
        ensures { IsTrue result ↔ (self.now.prefix ≡ prefix) }
    {
        self.prefix == prefix
    }

    /// Whether it is for a network on the link of which an address is that of the network itself, or of all its hosts.
    pub(crate) fn has_end(&self, addr: Addr) -> bool
        ensures { result ≡ (is_direct self.now.hop && is_end_of addr self.now.prefix) }
    {
        self.hop == Hop::Direct && is_end_of(addr, self.prefix)
    }
}

/// Whether an address is that of the network with a prefix, or of all its hosts.
fn is_end_of(addr: Addr, prefix: Prefix) -> bool
    ensures { result ≡ is_end_of addr prefix }
{
    let addr = u64::from(number(addr));
    prefix.length() < 31
        && (addr == u64::from(number(prefix.addr())) || addr == last_number(prefix))
}

/// The last address with a prefix, as a number.
fn last_number(prefix: Prefix) -> u64
    ensures { result ≡ last_number prefix }
{
    let past = BITS - prefix.length();
    u64::from(number(prefix.addr())) + ((1 << past) - 1)
}

/// An address as a number of 32 bits, its first octet the highest.
fn number(addr: Addr) -> u32
    ensures { result ≡ number addr }
{
    u32::from_be_bytes(addr.0)
}
