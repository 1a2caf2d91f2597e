//! How the numbers of a capture are written.

ghost use Rattle.std.specs.Prelude.{◌≡◌, ◌≤◌, ◌*◌, length};
ghost use Rattle.capture.specs.Capture.{number_in};
ghost use Rattle.capture.specs.Reading.{format_of, nanoseconds_of};

use byteorder::{BigEndian, ByteOrder, LittleEndian};

/// In which order the octets of a number stand.
#[derive(Clone, Copy, Debug, PartialEq, Eq)]
pub enum Order {
    /// The lowest octet first, as tcpdump writes it on x86 and ARM.
    Little,
    /// The highest octet first.
    Big,
}

impl Order {
    /// The number in the first two octets.
    pub(crate) fn u16_at(self, octets: &[u8]) -> u16
        requires { 2 ≤ length octets.now }
        ensures { result ≡ number_in self 2 octets.now }
    {
        match self {
            Order::Little => LittleEndian::read_u16(octets),
            Order::Big => BigEndian::read_u16(octets),
        }
    }

    /// The number in the first four octets.
    pub(crate) fn u32_at(self, octets: &[u8]) -> u32
        requires { 4 ≤ length octets.now }
        ensures { result ≡ number_in self 4 octets.now }
    {
        match self {
            Order::Little => LittleEndian::read_u32(octets),
            Order::Big => BigEndian::read_u32(octets),
        }
    }
}

/// What the fraction of a record's second counts.
#[derive(Clone, Copy, Debug, PartialEq, Eq)]
pub enum Fraction {
    /// Millionths of a second.
    Microseconds,
    /// Thousand-millionths of a second.
    Nanoseconds,
}

impl Fraction {
    /// So many of them, in nanoseconds.
    pub(crate) fn nanoseconds(self, fraction: u32) -> u64
        ensures { result ≡ nanoseconds_of self fraction }
    {
        match self {
            Fraction::Microseconds => u64::from(fraction) * 1_000,
            Fraction::Nanoseconds => u64::from(fraction),
        }
    }
}

/// What the magic number of a capture tells.
#[derive(Clone, Copy, Debug, PartialEq, Eq)]
pub struct Format {
    /// In which order the octets of its numbers stand.
    pub order: Order,
    /// What its fractions of a second count.
    pub fraction: Fraction,
}

impl Format {
    /// The format that a magic number tells, which was read with the lowest octet first.
    pub(crate) fn of_magic(magic: u32) -> Option<Format>
        ensures { result ≡ format_of magic }
    {
        let (order, fraction) = match magic {
            0xa1b2_c3d4 => (Order::Little, Fraction::Microseconds),
            0xd4c3_b2a1 => (Order::Big, Fraction::Microseconds),
            0xa1b2_3c4d => (Order::Little, Fraction::Nanoseconds),
            0x4d3c_b2a1 => (Order::Big, Fraction::Nanoseconds),
            _ => return None,
        };
        Some(Format { order, fraction })
    }
}
