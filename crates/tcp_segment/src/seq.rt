//! Sequence numbers (RFC 9293 section 3.4).

ghost use Rattle.std.specs.Prelude.{◌≡◌, ◌+◌, ◌%◌, ◌^◌, ◌↔◌, IsTrue};
ghost use Rattle.tcp_segment.specs.Wire.{past, difference, IsBefore, IsAtMost};

use std::ops::Add;

/// A sequence number. Numbers are counted and compared modulo 2^32 (RFC 9293 section 3.4).
#[derive(Clone, Copy, Debug, PartialEq, Eq, Hash)]
pub struct Seq(pub u32);

impl Seq {
    /// How far this number is past `from`, modulo 2^32.
    pub fn past(self, from: Seq) -> u32
        ensures { result ≡ past self.0 from.0 }
    {
        self.0.wrapping_sub(from.0)
    }

    /// How far this number is past `from`, below 0 where it is before it.
    pub fn difference(self, from: Seq) -> i32
        ensures { result ≡ difference self.0 from.0 }
    {
        self.past(from).cast_signed()
    }

    /// Whether this number is before `other`, by the sign of their difference.
    pub fn is_before(self, other: Seq) -> bool
        ensures { IsTrue result ↔ IsBefore self.0 other.0 }
    {
        self.difference(other) < 0
    }

    /// Whether this number is `other` or before it, by the sign of their difference.
    pub fn is_at_most(self, other: Seq) -> bool
        ensures { IsTrue result ↔ IsAtMost self.0 other.0 }
    {
        self.difference(other) <= 0
    }
}

impl Add<u32> for Seq {
    type Output = Seq;

    ghost add_gives = { λ seq length sum. sum.0 ≡ (seq.0 + length) % 2 ^ 32 };

    fn add(self, length: u32) -> Seq {
        Seq(self.0.wrapping_add(length))
    }
}
