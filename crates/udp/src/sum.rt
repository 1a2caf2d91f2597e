//! What the checksum covers (RFC 768).

ghost use Rattle.std.specs.Prelude.{◌≡◌, ℕ, ◌+◌, ◌<◌, ◌^◌, List, ◌++◌, length};
ghost use Rattle.inet_sum.specs.Sum.{sum_of};
ghost use Rattle.udp.specs.Datagram.{summed};

use crate::head::HEADER_LEN;
use inet_sum::join;
use ipv4::{Addr, Protocol, pseudo_between};

/// The one's complement sum of the pseudo header between these addresses and of a datagram.
pub(crate) fn sum_between(src: Addr, dst: Addr, datagram: &[u8]) -> u16
    requires { length datagram.now < 2 ^ 16 }
    ensures sum { result ≡ sum_of (summed src dst datagram.now) }
    ensures src_octets { length src.0 ≡ 4 }
    ensures dst_octets { length dst.0 ≡ 4 }
{
    ipv4::sum_between(Protocol::UDP, src, dst, datagram)
}

/// The same sum where the payload isn't here: from the header, and from the payload's length, in octets, and sum.
pub(crate) fn sum_in_parts(
    src: Addr,
    dst: Addr,
    header: &[u8; HEADER_LEN],
    payload_len: usize,
    payload_sum: u16,
) -> u16
    requires { 8 + payload_len < 2 ^ 16 }
    ensures sum { (payload : List ℕ) → length payload ≡ payload_len → payload_sum ≡ sum_of payload
        → result ≡ sum_of (summed src dst (header.now ++ payload)) }
    ensures src_octets { length src.0 ≡ 4 }
    ensures dst_octets { length dst.0 ≡ 4 }
{
    let len = (HEADER_LEN + payload_len) as u16;
    let pseudo = pseudo_between(Protocol::UDP, src, dst, len);
    // 20 octets stand before the payload, an even number.
    join(pseudo.sum_with(header), payload_sum, false)
}
