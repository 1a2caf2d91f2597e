//! What a payload is.

use std::fmt;

/// The protocol of a payload, by its assigned number (RFC 791 section 3.1).
#[derive(Clone, Copy, Debug, PartialEq, Eq, PartialOrd, Ord, Hash)]
pub struct Protocol(pub u8);

impl Protocol {
    /// ICMP messages (RFC 792).
    pub const ICMP: Protocol = Protocol(1);
    /// TCP (RFC 9293 section 3.1).
    pub const TCP: Protocol = Protocol(6);
    /// UDP datagrams (RFC 768).
    pub const UDP: Protocol = Protocol(17);
}

impl fmt::Display for Protocol {
    fn fmt<W: fmt::Write>(&self, f: &mut fmt::Formatter<W>) -> fmt::Result {
        let number = self.0;
        write!(f, "{number}")
    }
}
