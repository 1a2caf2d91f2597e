//! What a host's set-up says of the congestion control of its connections.

ghost use Rattle.std.specs.Prelude.{◌≡◌};
ghost use Rattle.congestion.specs.Control.{repairs, is_selective};

/// How losses are repaired.
#[derive(Clone, Copy, Debug, PartialEq, Eq)]
pub enum Recovery {
    /// Fast retransmit and fast recovery alone (RFC 5681 section 3.2): of several segments that a window loses, one comes without the timeout.
    Plain,
    /// A recovery goes on until all that was outstanding at its beginning is acknowledged (NewReno, RFC 6582), limited transmit (RFC 3042), and a window that
    /// grows by the octets that are acknowledged (RFC 3465).
    NewReno,
    /// What `NewReno` has where the peer takes no selective acknowledgements. Where it does, acknowledgements report which octets are kept ahead of a gap
    /// (RFC 2018), and what goes out again is ruled by the peer's reports (RFC 6675).
    Selective,
}

/// What a host's set-up says of the congestion control of its connections.
#[derive(Clone, Copy, Debug, PartialEq, Eq)]
pub struct Control {
    /// How losses are repaired.
    pub recovery: Recovery,
    /// The slow start threshold of a new connection, in octets: 65,535 at least and 2^30 at most (RFC 5681 section 3.1).
    pub first_threshold: u32,
    /// The first window in segments, ten at most (RFC 6928); 0 stands for the two to four of RFC 5681 section 3.1.
    pub first_segments: u8,
}

impl Control {
    /// RFC 5681 alone, with a slow start threshold of 65,535 octets at first.
    pub const PLAIN: Control = Control {
        recovery: Recovery::Plain,
        first_threshold: 65_535,
        first_segments: 0,
    };

    /// Whether losses are repaired by more than RFC 5681.
    pub(crate) fn repairs(self) -> bool
        ensures { result ≡ repairs self }
    {
        match self.recovery {
            Recovery::Plain => false,
            Recovery::NewReno | Recovery::Selective => true,
        }
    }

    /// Whether selective acknowledgements are taken, and offered to be sent (RFC 2018).
    pub fn is_selective(self) -> bool
        ensures { result ≡ is_selective self }
    {
        match self.recovery {
            Recovery::Plain | Recovery::NewReno => false,
            Recovery::Selective => true,
        }
    }
}
