//! The numbers of segments, as a ladder tells them (RFC 9293 section 3.4).

ghost use Rattle.std.specs.Prelude.{◌≡◌, ◌++◌, OnOk, string_bytes};
ghost use Rattle.ladder.specs.Numbers.{back, initial_in, number_text};

use ipv4::Endpoint;
use std::alloc::AllocError;
use tcp_segment::Seq;

/// One direction of a connection: where its segments come from, and where they go.
#[derive(Clone, Copy, Debug, PartialEq, Eq)]
pub struct Direction {
    /// The end that sends.
    pub source: Endpoint,
    /// The end that receives.
    pub destination: Endpoint,
}

impl Direction {
    /// The other direction of the same connection.
    pub(crate) fn back(self) -> Direction
        ensures { result ≡ back self }
    {
        Direction {
            source: self.destination,
            destination: self.source,
        }
    }
}

/// A SYN that was seen: the initial number of a direction (RFC 9293 section 3.4.1).
#[derive(Clone, Copy, Debug, PartialEq, Eq)]
pub struct Syn {
    /// The direction in which it went.
    pub direction: Direction,
    /// Its number.
    pub number: Seq,
}

/// How the numbers of segments are told.
#[derive(Clone, Copy, Debug, PartialEq, Eq)]
pub enum Numbering {
    /// Relative to the initial number of their direction: the SYN has 0, and the first octet 1.
    Relative,
    /// As they are in the segment.
    Absolute,
}

/// The initial number of a direction: that of the last SYN that was seen on it.
pub(crate) fn initial_in(direction: Direction, syns: &[Syn]) -> Option<Seq>
    ensures { result ≡ initial_in direction syns.now }
{
    let mut found = None;
    for syn in syns {
        if syn.direction == direction {
            found = Some(syn.number);
        }
    }
    found
}

/// Adds a number, relative to the initial one where that is asked for and was seen.
pub(crate) fn push_number(
    numbering: Numbering,
    initial: Option<Seq>,
    number: Seq,
    text: &mut String,
) -> Result<(), AllocError>
    ensures { OnOk result (string_bytes text.new ≡ string_bytes text.old ++ number_text numbering initial number.0) }
{
    match (numbering, initial) {
        (Numbering::Relative, Some(initial)) => write!(text, "{}", number.past(initial)),
        (Numbering::Relative, None) => write!(text, "={}", number.0),
        (Numbering::Absolute, _) => write!(text, "{}", number.0),
    }
}
