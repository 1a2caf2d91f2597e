//! What can be done for what is to go to an address.

ghost use Rattle.std.specs.Prelude.{◌≡◌};
ghost use Rattle.interface.specs.Replies.{goes_out};

use ether::Mac;
use ipv4::Addr;

/// What can be done now for what is to go to an address (RFC 1122 section 2.3.2).
#[derive(Clone, Copy, PartialEq, Eq, Debug)]
pub enum Way {
    /// It can go out, to the interface with this MAC.
    To(Mac),
    /// The MAC of this neighbour isn't known, and a request for it can go out.
    Ask(Addr),
    /// Nothing can go out for it.
    Waits,
}

impl Way {
    /// Whether a frame goes out this way: what is to go, or a request.
    pub fn goes_out(self) -> bool
        ensures { result ≡ goes_out self }
    {
        match self {
            Way::To(_) | Way::Ask(_) => true,
            Way::Waits => false,
        }
    }
}
