//! Prefixes: the addresses that begin with the same bits (RFC 4632 section 3.1).

ghost use Rattle.std.specs.Prelude.{◌≡◌, ◌-◌, ◌^◌, ◌<◌, ◌≤◌, ◌↔◌, All, IsTrue, IsOk, IfOk, bit_and};
ghost use Rattle.ipv4.specs.Prefixes.{IsPrefix, StartAlike, number};

use crate::addr::Addr;
use std::fmt::{Display, Error as FmtError, Formatter, Write};
use thiserror::Error;

/// The bits of an address.
const BITS: u8 = 32;

/// Why an address and a length are no prefix.
#[derive(Clone, Copy, PartialEq, Eq, Debug, Error)]
pub enum PrefixFault {
    /// The length is over 32, or a bit of the address is set past it.
    #[error("E2 EINVAL")]
    EINVAL,
}

/// The addresses whose first `length` bits are those of `addr`, in which no further bit is set (RFC 4632 section 3.1).
#[derive(Clone, Copy, Debug, PartialEq, Eq, Hash)]
pub struct Prefix {
    /// Its first address: its bits, and then zeros.
    pub addr: Addr,
    /// How many bits it has.
    pub length: u8,
    pub ghost form: { IsPrefix addr length },
}

impl Prefix {
    /// The prefix of the first `length` bits of `addr`. EINVAL where `length` is over 32, or a bit is set past it.
    pub fn new(addr: Addr, length: u8) -> Result<Prefix, PrefixFault>
        ensures value { IfOk result (λ prefix. (prefix.addr ≡ addr) × (prefix.length ≡ length)) }
        ensures valid { IsOk result ↔ IsPrefix addr length }
    {
        if length > BITS || first_bits(addr, length) != to_bits(addr) {
            return Err(PrefixFault::EINVAL);
        }
        Ok(Prefix { addr, length })
    }

    /// Its first address: its bits, and then zeros.
    pub fn addr(self) -> Addr
        ensures { result ≡ self.addr }
    {
        self.addr
    }

    /// How many bits it has, 0 to 32.
    pub fn length(self) -> u8
        ensures { result ≡ self.length }
    {
        self.length
    }

    /// Whether `addr` begins with the bits of this prefix.
    pub fn contains(self, addr: Addr) -> bool
        ensures { IsTrue result ↔ StartAlike self.length self.addr addr }
    {
        first_bits(addr, self.length) == to_bits(self.addr)
    }
}

impl Default for Prefix {
    ghost use Rattle.std.specs.Prelude.{◌≡◌, ◌∷◌, []};

    ghost is_default = { λ prefix. (prefix.addr.0 ≡ 0 ∷ 0 ∷ 0 ∷ 0 ∷ []) × (prefix.length ≡ 0) };

    /// The prefix of no bits, 0.0.0.0/0, which every address has: that of the default route (RFC 4632 section 3.1).
    fn default() -> Prefix {
        Prefix {
            addr: Addr([0; 4]),
            length: 0,
        }
    }
}

impl Display for Prefix {
    fn fmt<W: Write>(&self, f: &mut Formatter<W>) -> Result<(), FmtError> {
        write!(f, "{}/{}", self.addr, self.length)
    }
}

/// An address as a number of 32 bits, its first octet the highest.
fn to_bits(addr: Addr) -> u32
    ensures value { result ≡ number addr }
    ensures octets { All (λ octet. octet < 256) addr.0 }
{
    let [a, b, c, d] = addr.0;
    u32::from_be_bytes([a, b, c, d])
}

/// An address as a number, with its bits past the first `length` cleared.
fn first_bits(addr: Addr, length: u8) -> u32
    requires { length ≤ 32 }
    ensures { result ≡ bit_and (number addr) (2 ^ 32 - 2 ^ (32 - length)) }
{
    let past = u32::from(BITS - length);
    to_bits(addr) & u32::MAX.checked_shl(past).unwrap_or(0)
}
