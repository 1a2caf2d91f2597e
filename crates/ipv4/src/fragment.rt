//! The flags of a header and its fragment offset (RFC 791 section 3.1).

ghost use Rattle.std.specs.Prelude.{◌≡◌, ◌+◌, ◌*◌, ◌/◌, ◌%◌, ◌<◌, ◌≤◌, ◌^◌, ◌==◌, ◌↔◌, IsTrue, length};
ghost use Rattle.ipv4.specs.Datagram.{HasPlace};
ghost use Rattle.ipv4.specs.Reading.{word_at};

use crate::limits::MAX_PAYLOAD;
use byteorder::{BigEndian, ByteOrder};

/// The octets of a unit of the offset.
const UNIT: usize = 8;

/// How far left of the lowest bit the flag stands that forbids to cut the datagram.
pub(crate) const DONT_FRAGMENT_SHIFT: u32 = 14;

/// How far left of the lowest bit the flag stands that says that more fragments follow.
pub(crate) const MORE_FRAGMENTS_SHIFT: u32 = 13;

/// The bits of the offset.
const OFFSET_MASK: u16 = 0x1fff;

/// Whether a header has the flag at this place of the word of flags and offset.
pub(crate) fn has_flag(header: &[u8], place: u32) -> bool
    requires room { 20 ≤ length header.now }
    requires place { place < 16 }
    ensures { result ≡ (word_at header.now 6 / 2 ^ place % 2 == 1) }
{
    (BigEndian::read_u16(&header[6..]) >> place) & 1 == 1
}

/// The offset that a header tells, in units of eight octets.
pub(crate) fn offset(header: &[u8]) -> u16
    requires { 20 ≤ length header.now }
    ensures { result ≡ word_at header.now 6 % 2 ^ 13 }
{
    BigEndian::read_u16(&header[6..]) & OFFSET_MASK
}

/// Whether a payload of so many octets has a place where this header puts it.
pub(crate) fn has_place(header: &[u8], payload_len: usize) -> bool
    requires room { 20 ≤ length header.now }
    requires len { payload_len < 2 ^ 16 }
    ensures { IsTrue result ↔ HasPlace (word_at header.now 6 / 2 ^ 13 % 2 == 1) (word_at header.now 6 % 2 ^ 13) payload_len }
{
    let units = 0 < payload_len && payload_len.is_multiple_of(UNIT);
    (units || !has_flag(header, MORE_FRAGMENTS_SHIFT))
        && UNIT * usize::from(offset(header)) + payload_len <= MAX_PAYLOAD
}
