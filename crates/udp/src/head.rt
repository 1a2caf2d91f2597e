//! What this stack puts into a header.

ghost use Rattle.std.specs.Prelude.{◌≡◌, ℕ, List, ◌+◌, ◌-◌, ◌<◌, ◌≤◌, ◌^◌, ◌++◌, length, drop, slice_range};
ghost use Rattle.inet_sum.specs.Sum.{sum_of};
ghost use Rattle.udp.specs.Datagram.{header_octets, spelling};
ghost use Rattle.udp.specs.Sent.{CanBeSent, sent, sent_with, checksum_field};

use crate::sum::sum_in_parts;
use ipv4::Addr;

/// The length of a header, in octets (RFC 768).
pub const HEADER_LEN: usize = 8;

/// The header of a UDP datagram that is sent, but for its length and the checksum (RFC 768).
#[derive(Clone, Copy, Debug, PartialEq, Eq)]
pub struct Head {
    /// The sender's port.
    pub source: u16,
    /// The receiver's port.
    pub destination: u16,
}

impl Head {
    /// Writes the header before a payload of so many octets, which stands at `out[8..]` already and whose one's complement sum is
    /// `payload_sum`, and answers the length of the UDP datagram, in octets. The payload isn't read again. There is always a
    /// checksum: one that is computed as 0 goes out as 0xFFFF. What stands behind it in `out` stays.
    pub fn emit(
        &self,
        src: Addr,
        dst: Addr,
        payload_len: usize,
        payload_sum: u16,
        out: &mut [u8],
    ) -> usize
        requires room { 8 + payload_len ≤ length out.old }
        requires len { 8 + payload_len < 2 ^ 16 }
        requires sum { payload_sum ≡ sum_of (slice_range out.old 8 (8 + payload_len)) }
        ensures len { result ≡ 8 + payload_len }
        ensures octets { out.new ≡ spelling (sent src dst self.now (slice_range out.old 8 result)) ++ drop result out.old }
        ensures sendable { CanBeSent src dst self.now (slice_range out.old 8 result) }
    {
        self.emit_summed(src, dst, payload_len, payload_sum, out);
        HEADER_LEN + payload_len
    }

    /// Writes the header before a payload that isn't here into the first 8 octets of `out`, from the payload's length, in octets,
    /// and its one's complement sum. So a datagram goes out in fragments straight from where it waits. There is always a checksum,
    /// as in `emit`. What stands behind the header in `out` stays.
    pub fn emit_summed(
        &self,
        src: Addr,
        dst: Addr,
        payload_len: usize,
        payload_sum: u16,
        out: &mut [u8],
    )
        requires room { 8 ≤ length out.old }
        requires len { 8 + payload_len < 2 ^ 16 }
        ensures octets { (payload : List ℕ) → length payload ≡ payload_len → payload_sum ≡ sum_of payload
            → out.new ≡ header_octets (sent src dst self.now payload) ++ drop 8 out.old }
        ensures sendable { (payload : List ℕ) → length payload ≡ payload_len → CanBeSent src dst self.now payload }
    {
        let len = (HEADER_LEN + payload_len) as u16;
        let unsummed = self.header(len, 0);
        let sum = sum_in_parts(src, dst, &unsummed, payload_len, payload_sum);
        let header = self.header(len, told(u16::MAX - sum));
        out[..HEADER_LEN].copy_from_slice(&header);
    }

    /// The header of a UDP datagram of this length, in octets, with this checksum.
    fn header(&self, len: u16, checksum: u16) -> [u8; HEADER_LEN]
        ensures { (payload : List ℕ) → 8 + length payload ≡ len → result ≡ header_octets (sent_with self.now payload checksum) }
    {
        let [source_high, source_low] = self.source.to_be_bytes();
        let [destination_high, destination_low] = self.destination.to_be_bytes();
        let [len_high, len_low] = len.to_be_bytes();
        let [checksum_high, checksum_low] = checksum.to_be_bytes();
        [
            source_high,
            source_low,
            destination_high,
            destination_low,
            len_high,
            len_low,
            checksum_high,
            checksum_low,
        ]
    }
}

/// A checksum as it goes out: 0 would say that there is none.
fn told(checksum: u16) -> u16
    ensures { result ≡ checksum_field checksum }
{
    if checksum == 0 { u16::MAX } else { checksum }
}
