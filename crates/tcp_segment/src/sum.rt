//! What the checksum covers (RFC 9293 section 3.1).

ghost use Rattle.std.specs.Prelude.{◌≡◌, ◌<◌, ◌^◌, ℕ, List, length};
ghost use Rattle.inet_sum.specs.Sum.{ones_complement, sum_of};
ghost use Rattle.tcp_segment.specs.Segment.{summed_octets};

use ipv4::{Addr, Protocol, pseudo_between};

/// The one's complement sum of the pseudo header between these addresses and of a segment.
pub(crate) fn sum_between(src: Addr, dst: Addr, segment: &[u8]) -> u16
    requires { length segment.now < 2 ^ 16 }
    ensures sum { result ≡ sum_of (summed_octets src dst segment.now) }
    ensures src_octets { length src.0 ≡ 4 }
    ensures dst_octets { length dst.0 ≡ 4 }
{
    ipv4::sum_between(Protocol::TCP, src, dst, segment)
}

/// The same sum of a segment that has this length, in octets, and whose words come to this number.
pub(crate) fn sum_of_words(src: Addr, dst: Addr, len: u16, words: u64) -> u16
    requires { words < 2 ^ 63 }
    ensures sum { (segment : List ℕ) → length segment ≡ len → ones_complement words ≡ sum_of segment → result ≡ sum_of (summed_octets src dst segment) }
    ensures src_octets { length src.0 ≡ 4 }
    ensures dst_octets { length dst.0 ≡ 4 }
{
    pseudo_between(Protocol::TCP, src, dst, len).sum_before(words)
}
