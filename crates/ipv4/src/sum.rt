//! What the checksums of the protocols above IPv4 cover.

ghost use Rattle.std.specs.Prelude.{◌≡◌, ◌<◌, ◌^◌, length};
ghost use Rattle.inet_sum.specs.Sum.{sum_of};
ghost use Rattle.ipv4.specs.Sums.{summed_for};

use crate::addr::Addr;
use crate::protocol::Protocol;
use inet_sum::Pseudo;

/// The one's complement sum of the pseudo header between these addresses and of all octets of a segment or datagram
/// of this protocol (RFC 9293 section 3.1, RFC 768).
pub fn sum_between(protocol: Protocol, src: Addr, dst: Addr, octets: &[u8]) -> u16
    requires { length octets.now < 2 ^ 16 }
    ensures sum { result ≡ sum_of (summed_for protocol.0 src dst octets.now) }
    ensures src_octets { length src.0 ≡ 4 }
    ensures dst_octets { length dst.0 ≡ 4 }
{
    pseudo_between(protocol, src, dst, octets.len() as u16).sum_with(octets)
}

/// The pseudo header of a segment or datagram of this protocol between these addresses, which has this length, in octets (RFC 9293
/// section 3.1, RFC 768).
pub fn pseudo_between(protocol: Protocol, src: Addr, dst: Addr, len: u16) -> Pseudo
    ensures value { result ≡ record { src = src.0; dst = dst.0; protocol = protocol.0; length = len } }
    ensures src_octets { length src.0 ≡ 4 }
    ensures dst_octets { length dst.0 ≡ 4 }
{
    let Addr(src) = src;
    let Addr(dst) = dst;
    let Protocol(protocol) = protocol;
    Pseudo {
        src,
        dst,
        protocol,
        length: len,
    }
}
