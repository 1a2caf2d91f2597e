//! What this stack puts into a header.

ghost use Rattle.std.specs.Prelude.{◌≡◌, ℕ, List, ◌+◌, ◌<◌, ◌≤◌, ◌^◌, ◌++◌, length, drop, slice_range};
ghost use Rattle.inet_sum.specs.Sum.{ones_complement, sum_of};
ghost use Rattle.ipv4.specs.Datagram.{HasPlace, IsDatagram, header_octets, fragment_field, spelling};
ghost use Rattle.ipv4.specs.Sent.{sent, sent_with};

use crate::addr::Addr;
use crate::fragment::{DONT_FRAGMENT_SHIFT, MORE_FRAGMENTS_SHIFT};
use crate::protocol::Protocol;

/// The length of a header without options, in octets (RFC 791 section 3.1).
pub const HEADER_LEN: usize = 20;

/// Version 4, and a header of five words.
const VERSION_AND_WORDS: u8 = 0x45;

/// How many routers a datagram that is sent may pass (RFC 1122 section 3.2.1.7).
const TIME_TO_LIVE: u8 = 64;

/// The header of a datagram that is sent, but for what the stack determines: no options, a type of service of 0, a time to
/// live of 64, and the checksum (RFC 791 section 3.1).
#[derive(Clone, Copy, Debug, PartialEq, Eq)]
pub struct Head {
    /// The address that it comes from.
    pub source: Addr,
    /// The address that it is for.
    pub destination: Addr,
    /// What the payload is.
    pub protocol: Protocol,
    /// What the fragments of one datagram have in common.
    pub identification: u16,
    /// It may not be cut into fragments on its way.
    pub dont_fragment: bool,
    /// Fragments of the same datagram follow behind this one.
    pub more_fragments: bool,
    /// Where the payload stands in the payload of the whole datagram, in units of eight octets.
    pub offset: u16,
}

impl Head {
    /// Writes the header before a payload of so many octets, which stands at `out[20..]` already, and answers the total
    /// length, in octets. What stands behind it in `out` stays.
    pub fn emit(&self, payload_len: usize, out: &mut [u8]) -> usize
        requires room { 20 + payload_len ≤ length out.old }
        requires place { HasPlace self.now.more_fragments self.now.offset payload_len }
        ensures len { result ≡ 20 + payload_len }
        ensures octets { out.new ≡ spelling (sent self.now (slice_range out.old 20 result)) ++ drop result out.old }
        ensures fields { IsDatagram (sent self.now (slice_range out.old 20 result)) }
    {
        let total = HEADER_LEN + payload_len;
        let checksum = u16::MAX - inet_sum::fold(self.words(total as u16));
        out[..HEADER_LEN].copy_from_slice(&self.header(total as u16, checksum));
        total
    }

    /// What the words of the header of a datagram of this total length come to where the checksum is 0, in one's complement: an
    /// address of 32 bits counts as its two words.
    fn words(&self, total: u16) -> u64
        requires { self.now.offset < 2 ^ 13 }
        ensures { (payload : List ℕ) → 20 + length payload ≡ total → ones_complement result ≡ sum_of (header_octets (sent_with self.now payload 0)) }
    {
        let Head {
            source: Addr(source),
            destination: Addr(destination),
            protocol: Protocol(protocol),
            identification,
            ..
        } = *self;
        let addresses = u64::from(u32::from_be_bytes(source))
            + u64::from(u32::from_be_bytes(destination));
        let lengths = u64::from(u16::from_be_bytes([VERSION_AND_WORDS, 0])) + u64::from(total);
        let fragment = u64::from(identification) + u64::from(self.fragment_field());
        let control = u64::from(u16::from_be_bytes([TIME_TO_LIVE, protocol]));
        addresses + lengths + fragment + control
    }

    /// The header of a datagram of this total length, in octets, with this checksum.
    fn header(&self, total: u16, checksum: u16) -> [u8; HEADER_LEN]
        requires { self.now.offset < 2 ^ 13 }
        ensures { (payload : List ℕ) → 20 + length payload ≡ total → result ≡ header_octets (sent_with self.now payload checksum) }
    {
        let Head {
            source: Addr([s0, s1, s2, s3]),
            destination: Addr([d0, d1, d2, d3]),
            protocol: Protocol(protocol),
            ..
        } = *self;
        let [total_high, total_low] = total.to_be_bytes();
        let [identification_high, identification_low] = self.identification.to_be_bytes();
        let [fragment_high, fragment_low] = self.fragment_field().to_be_bytes();
        let [checksum_high, checksum_low] = checksum.to_be_bytes();
        [
            VERSION_AND_WORDS,
            0,
            total_high,
            total_low,
            identification_high,
            identification_low,
            fragment_high,
            fragment_low,
            TIME_TO_LIVE,
            protocol,
            checksum_high,
            checksum_low,
            s0,
            s1,
            s2,
            s3,
            d0,
            d1,
            d2,
            d3,
        ]
    }

    /// The flags and the offset.
    fn fragment_field(&self) -> u16
        requires { self.now.offset < 2 ^ 13 }
        ensures { (payload : List ℕ) (checksum : ℕ) → result ≡ fragment_field (sent_with self.now payload checksum) }
    {
        let dont_fragment = u16::from(self.dont_fragment) << DONT_FRAGMENT_SHIFT;
        let more_fragments = u16::from(self.more_fragments) << MORE_FRAGMENTS_SHIFT;
        dont_fragment + more_fragments + self.offset
    }
}
