//! The Internet checksum: the one's complement sum of 16-bit words (RFC 791 section 3.1, RFC 1071).
#![tactic(auto)]

ghost use Rattle.std.specs.Prelude.{◌≡◌, ◌<◌, ◌^◌, ℕ, ◌+◌, ◌%◌, ◌==◌, List, ◌++◌, length};
ghost use Rattle.inet_sum.specs.Lanes.{wide_sum};
ghost use Rattle.inet_sum.specs.Sum.{ones_complement, sum_of, sum_behind, checksum_of, pseudo_octets};

mod lanes;
pub mod laws;

use lanes::words_of;

/// The pseudo header that TCP and UDP sum before their own octets (RFC 9293 section 3.1, RFC 768).
#[derive(Clone, Copy, Debug, PartialEq, Eq)]
pub struct Pseudo {
    /// The source address.
    pub src: [u8; 4],
    /// The destination address.
    pub dst: [u8; 4],
    /// The protocol's number: 6 for TCP, 17 for UDP.
    pub protocol: u8,
    /// The length of the segment or datagram, its header included, in octets.
    pub length: u16,
}

/// The most octets whose words are added with no look at the total.
const PART: usize = 1 << 17;

/// The one's complement sum of `octets`, an odd last one padded with zero.
pub fn sum(octets: &[u8]) -> u16
    ensures { result ≡ sum_of octets.now }
{
    let mut total = 0;
    let mut rest = octets;
    while rest.len() > PART {
        let (part, tail) = rest.split_at(PART);
        total = u64::from(fold(total + words_of(part)));
        rest = tail;
    }
    in_network_order(fold(total + words_of(rest)))
}

/// Copies `from` to `to`, which has as many octets, and answers the sum of what was copied.
pub fn copy_sum(from: &[u8], to: &mut [u8]) -> u16
    requires { length from.now ≡ length to.old }
    ensures copied { to.new ≡ from.now }
    ensures sum { result ≡ sum_of from.now }
{
    to.copy_from_slice(from);
    sum(to)
}

/// The checksum of `octets`: the complement of their sum.
pub fn checksum(octets: &[u8]) -> u16
    ensures { result ≡ checksum_of octets.now }
{
    u16::MAX - sum(octets)
}

/// The one's complement sum of two lists of octets, one behind the other, from the sum of each and whether the first has an
/// odd number of octets (RFC 1071 section 2, parallel summation).
pub fn join(left: u16, right: u16, left_odd: bool) -> u16
    ensures { (a b : List ℕ) → left ≡ sum_of a → right ≡ sum_of b → left_odd ≡ (length a % 2 == 1) → result ≡ sum_of (a ++ b) }
{
    fold(u64::from(left) + u64::from(shifted_by(left_odd, right)))
}

/// A total as a one's complement number of 16 bits: its carries are added at the end again, until there is none.
pub fn fold(total: u64) -> u16
    ensures { result ≡ ones_complement total }
{
    if total == 0 {
        0
    } else {
        ((total - 1) % 65_535 + 1) as u16
    }
}

impl Pseudo {
    /// The one's complement sum of this pseudo header followed by `octets`.
    pub fn sum_with(&self, octets: &[u8]) -> u16
        ensures { result ≡ sum_of (pseudo_octets self.now ++ octets.now) }
    {
        self.sum_before(u64::from(sum(octets)))
    }

    /// The same sum, from what the words of the octets come to.
    pub fn sum_before(&self, words: u64) -> u16
        requires { words < 2 ^ 63 }
        ensures { (octets : List ℕ) → ones_complement words ≡ sum_of octets → result ≡ sum_of (pseudo_octets self.now ++ octets) }
    {
        let addresses = u64::from(u32::from_be_bytes(self.src))
            + u64::from(u32::from_be_bytes(self.dst));
        let fields = u64::from(self.protocol) + u64::from(self.length);
        fold(addresses + fields + words)
    }
}

/// The sum of octets from that of their words read with the first octet low: its two octets are exchanged (RFC 1071 section 2,
/// byte order independence).
fn in_network_order(sum: u16) -> u16
    ensures { (octets : List ℕ) → sum ≡ ones_complement (wide_sum octets) → result ≡ sum_of octets }
{
    sum.swap_bytes()
}

/// What octets with this sum add behind an odd or an even number of others.
fn shifted_by(odd: bool, sum: u16) -> u16
    ensures { result ≡ sum_behind odd sum }
{
    if odd { sum.swap_bytes() } else { sum }
}
