//! A datagram that was received (RFC 791 section 3.1).

ghost use Rattle.std.specs.Prelude.{◌≡◌, ◌*◌, ◌+◌, ◌≤◌, IfSome, IfNone, length};
ghost use Rattle.ipv4.specs.Datagram.{Datagram, HasForm, IsDatagram, IsParsed, header_octets, total_len};
ghost use Rattle.ipv4.specs.Reading.{lengths_in};

use crate::addr::Addr;
use crate::fault::Ipv4Fault;
use crate::fragment;
use crate::head::HEADER_LEN;
use crate::protocol::Protocol;
use byteorder::{BigEndian, ByteOrder};
use std::marker::Model;

/// The version in the first octet of a header (RFC 791 section 3.1).
pub const VERSION: u8 = 4;

/// The octets of a word of a header, in which its length is counted (RFC 791 section 3.1).
pub const WORD: usize = 4;

/// A datagram that was received and is well-formed, its octets lent from the frame.
#[derive(Drop)]
pub struct Ipv4View<'a> {
    header: &'a [u8],
    payload: &'a [u8],
}

impl<'a> Model for Ipv4View<'a> {
    ghost use Rattle.ipv4.specs.Datagram.{Datagram};
    ghost use Rattle.ipv4.specs.Reading.{datagram_of, AreParts};

    ghost Value = { Datagram };

    ghost view = { λ v. datagram_of v.header.now v.payload.now };

    ghost invariant = { λ v. AreParts v.header.now v.payload.now };
}

impl<'a> Ipv4View<'a> {
    /// The datagram that these octets spell; what stands behind its total length is padding. Refuses octets that spell none
    /// with the first fault: one of the form first, whatever the checksum is (RFC 791 section 3.1).
    pub fn parse(octets: &'a [u8]) -> Result<Ipv4View<'a>, Ipv4Fault>
        ensures { IsParsed octets.now result }
    {
        let Some(view) = Ipv4View::form(octets) else {
            return Err(Ipv4Fault::IpHeader);
        };
        if inet_sum::sum(view.header) == u16::MAX {
            Ok(view)
        } else {
            Err(Ipv4Fault::IpSum)
        }
    }

    /// The datagram whose form these octets have, whatever its checksum.
    fn form(octets: &'a [u8]) -> Option<Ipv4View<'a>>
        ensures some { IfSome result (λ view. HasForm view octets.now) }
        ensures none { IfNone result ((d : Datagram) → HasForm d octets.now → ⊥) }
    {
        let (header, total) = lengths(octets)?;
        if fragment::has_place(octets, total - header) {
            Some(Ipv4View {
                header: &octets[..header],
                payload: &octets[header..total],
            })
        } else {
            None
        }
    }

    /// The type of service.
    pub fn service(&self) -> u8
        ensures { result ≡ self.now.service }
    {
        self.header[1]
    }

    /// The length of header and payload, in octets.
    pub fn total_len(&self) -> u16
        ensures { result ≡ total_len self.now }
    {
        (self.header.len() + self.payload.len()) as u16
    }

    /// What the fragments of one datagram have in common.
    pub fn identification(&self) -> u16
        ensures { result ≡ self.now.identification }
    {
        BigEndian::read_u16(&self.header[4..])
    }

    /// Whether it may not be cut into fragments.
    pub fn dont_fragment(&self) -> bool
        ensures { result ≡ self.now.dont_fragment }
    {
        fragment::has_flag(self.header, fragment::DONT_FRAGMENT_SHIFT)
    }

    /// Whether fragments of the same datagram follow behind this one.
    pub fn more_fragments(&self) -> bool
        ensures { result ≡ self.now.more_fragments }
    {
        fragment::has_flag(self.header, fragment::MORE_FRAGMENTS_SHIFT)
    }

    /// Where the payload stands in the payload of the whole datagram, in units of eight octets.
    pub fn offset(&self) -> u16
        ensures { result ≡ self.now.offset }
    {
        fragment::offset(self.header)
    }

    /// How many routers it may still pass. A small one is no cause to drop it (RFC 1122 section 3.2.1.7).
    pub fn ttl(&self) -> u8
        ensures { result ≡ self.now.ttl }
    {
        self.header[8]
    }

    /// What the payload is.
    pub fn protocol(&self) -> Protocol
        ensures { result.0 ≡ self.now.protocol }
    {
        Protocol(self.header[9])
    }

    /// The checksum of the header.
    pub fn checksum(&self) -> u16
        ensures { result ≡ self.now.checksum }
    {
        BigEndian::read_u16(&self.header[10..])
    }

    /// The address that it comes from.
    pub fn source(&self) -> Addr
        ensures { result ≡ self.now.source }
    {
        Addr::at(self.header, 12)
    }

    /// The address that it is for.
    pub fn destination(&self) -> Addr
        ensures { result ≡ self.now.destination }
    {
        Addr::at(self.header, 16)
    }

    /// The options, which this stack skips, a part of the frame that was parsed.
    pub fn options(&self) -> &'a [u8]
        ensures { result.now ≡ self.now.options }
    {
        &self.header[HEADER_LEN..]
    }

    /// The header with its options, 20 to 60 octets, a part of the frame that was parsed.
    pub fn header(&self) -> &'a [u8]
        ensures octets { result.now ≡ header_octets self.now }
        ensures least { 20 ≤ length result.now }
        ensures most { length result.now ≤ 60 }
    {
        self.header
    }

    /// The payload without any padding, a part of the frame that was parsed.
    pub fn payload(&self) -> &'a [u8]
        ensures octets { result.now ≡ self.now.payload }
        ensures fields { IsDatagram self.now }
    {
        self.payload
    }
}

/// The lengths of the header and of the whole that these octets tell, where they have room for them.
fn lengths(octets: &[u8]) -> Option<(usize, usize)>
    ensures { result ≡ lengths_in octets.now }
{
    if octets.len() < HEADER_LEN {
        return None;
    }
    let header = WORD * usize::from(octets[0] & 0x0f);
    let total = usize::from(BigEndian::read_u16(&octets[2..]));
    if header < HEADER_LEN || total < header || octets.len() < total {
        return None;
    }
    (octets[0] >> 4 == VERSION).then_some((header, total))
}
