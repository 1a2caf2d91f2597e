//! What an error quotes.

ghost use Rattle.std.specs.Prelude.{◌≡◌, ◌+◌, ◌≤◌, length, take, drop, IfSome, IfNone};
ghost use Rattle.icmp.specs.declared.quote.Quote.{Quote};
ghost use Rattle.icmp.specs.Quotes.{Quotes};
ghost use Rattle.icmp.specs.Reading.{header_in, quote_in};

use byteorder::{BigEndian, ByteOrder};
use ipv4::{Addr, Endpoint, HEADER_LEN, Protocol, VERSION, WORD};

/// What an error quotes of the datagram that caused it: between whom that one went, and the number that its sender gave it
/// (RFC 792, RFC 1122 section 3.2.2).
#[derive(Clone, Copy, Debug, PartialEq, Eq)]
pub struct Quote {
    /// What its payload is.
    pub protocol: Protocol,
    /// The address that it came from, and the port in the first two octets of its payload.
    pub source: Endpoint,
    /// The address that it was for, and the port in the next two octets.
    pub destination: Endpoint,
    /// The four octets behind the ports: a TCP segment's sequence number.
    pub number: u32,
}

/// The octets behind the header that a quote has to have.
const BEHIND: usize = 8;

impl Quote {
    /// The quote that these octets begin with, where they begin with one.
    pub(crate) fn read(octets: &[u8]) -> Option<Quote>
        ensures value { result ≡ quote_in octets.now }
        ensures some { IfSome result (λ quote. Quotes quote octets.now) }
        ensures none { IfNone result ((quote : Quote) → Quotes quote octets.now → ⊥) }
    {
        let header = header_len(octets)?;
        Some(Quote {
            protocol: Protocol(octets[9]),
            source: Endpoint {
                addr: Addr::at(octets, 12),
                port: BigEndian::read_u16(&octets[header..]),
            },
            destination: Endpoint {
                addr: Addr::at(octets, 16),
                port: BigEndian::read_u16(&octets[header + 2..]),
            },
            number: BigEndian::read_u32(&octets[header + 4..]),
        })
    }
}

/// The length of the header that these octets begin with, in octets, where it is whole and 8 octets stand behind it.
fn header_len(octets: &[u8]) -> Option<usize>
    ensures { result ≡ header_in octets.now }
{
    if octets.len() < HEADER_LEN + BEHIND {
        return None;
    }
    let header = WORD * usize::from(octets[0] & 0x0f);
    if header < HEADER_LEN || octets.len() < header + BEHIND {
        return None;
    }
    (octets[0] >> 4 == VERSION).then_some(header)
}
