//! Addresses of interfaces (RFC 894, IEEE 802).

ghost use Rattle.std.specs.Prelude.{◌≡◌, nat_eq, length};
ghost use Rattle.std.specs.Cmp.Lexicographic.{pointwise};

use std::fmt;

/// The address of an interface: six octets.
#[derive(Clone, Copy, PartialEq, Eq, PartialOrd, Ord, Hash, Debug)]
pub struct Mac(pub [u8; 6]);

impl Mac {
    /// The address of every interface on a link.
    pub const BROADCAST: Mac = Mac([0xff; 6]);

    /// Whether both are the address of one interface, as by `==`. Four octets are compared as one number and two as another: so a
    /// processor compares twice, not six times.
    pub fn is_same(self, other: Mac) -> bool
        ensures { result ≡ pointwise nat_eq self.0 other.0 }
    {
        let [a0, a1, a2, a3, a4, a5] = self.0;
        let [b0, b1, b2, b3, b4, b5] = other.0;
        u32::from_le_bytes([a0, a1, a2, a3]) == u32::from_le_bytes([b0, b1, b2, b3])
            && u16::from_le_bytes([a4, a5]) == u16::from_le_bytes([b4, b5])
    }
}

impl fmt::Display for Mac {
    fn fmt<W: fmt::Write>(&self, f: &mut fmt::Formatter<W>) -> fmt::Result {
        let [a, b, c, d, e, last] = self.0;
        write!(f, "{a:02x}:{b:02x}:{c:02x}:{d:02x}:{e:02x}:{last:02x}")
    }
}

/// A MAC has six octets. This is for the contracts of those that keep MACs; it changes nothing.
pub fn is_whole_mac(mac: Mac)
    ensures { length mac.0 ≡ 6 }
{
    let _ = mac;
}
