//! What a message is for.

ghost use Rattle.std.specs.Prelude.{◌↔◌, IsTrue};
ghost use Rattle.icmp.specs.Errors.{IsErrorKind};

use std::fmt;

/// The type of a message, by its number (RFC 792).
#[derive(Clone, Copy, Debug, PartialEq, Eq, PartialOrd, Ord, Hash)]
pub struct Kind(pub u8);

impl Kind {
    /// The answer to an echo request.
    pub const ECHO_REPLY: Kind = Kind(0);
    /// A datagram could not be delivered.
    pub const DESTINATION_UNREACHABLE: Kind = Kind(3);
    /// An echo request, which every host answers (RFC 1122 section 3.2.2.6).
    pub const ECHO: Kind = Kind(8);
    /// A datagram, or a part of one, was on its way for too long.
    pub const TIME_EXCEEDED: Kind = Kind(11);
    /// A header could not be understood.
    pub const PARAMETER_PROBLEM: Kind = Kind(12);

    /// Whether messages of this type report an error: destination unreachable, source quench, redirect, time exceeded,
    /// parameter problem (RFC 1122 section 3.2.2).
    pub fn is_error(self) -> bool
        ensures { IsTrue result ↔ IsErrorKind self.0 }
    {
        matches!(self.0, 3 | 4 | 5 | 11 | 12)
    }
}

impl fmt::Display for Kind {
    fn fmt<W: fmt::Write>(&self, f: &mut fmt::Formatter<W>) -> fmt::Result {
        let number = self.0;
        write!(f, "{number}")
    }
}
