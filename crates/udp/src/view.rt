//! A UDP datagram that was received (RFC 768).

ghost use Rattle.std.specs.Prelude.{◌≡◌, ◌<◌, ◌≤◌, ◌^◌, ◌↔◌, IsTrue, IfSome, IfNone, length};
ghost use Rattle.udp.specs.Datagram.{UserDatagram, HasForm, IsParsed, SumIsRight, datagram_len};
ghost use Rattle.udp.specs.Reading.{len_in, datagram_or_fault};

use crate::fault::UdpFault;
use crate::head::HEADER_LEN;
use crate::sum::sum_between;
use byteorder::{BigEndian, ByteOrder};
use ipv4::Addr;
use std::marker::Model;

/// A UDP datagram that was received and is well-formed, its octets lent from the payload of IPv4.
#[derive(Drop)]
pub struct UdpView<'a> {
    octets: &'a [u8],
}

impl<'a> Model for UdpView<'a> {
    ghost use Rattle.udp.specs.Datagram.{UserDatagram};
    ghost use Rattle.udp.specs.Reading.{datagram_of, IsWhole};

    ghost Value = { UserDatagram };

    ghost view = { λ v. datagram_of v.octets.now };

    ghost invariant = { λ v. IsWhole v.octets.now };
}

impl<'a> UdpView<'a> {
    /// The UDP datagram that these octets spell, which came from `src` for `dst`; what stands behind its length is padding.
    /// Refuses octets that spell none with the first fault: one of the form first, whatever the checksum is. A checksum of 0
    /// is none, and is not tested (RFC 768).
    pub fn parse(src: Addr, dst: Addr, octets: &'a [u8]) -> Result<UdpView<'a>, UdpFault>
        ensures parsed { IsParsed src dst octets.now result }
        ensures read { result ≡ datagram_or_fault src dst octets.now }
    {
        let Some(view) = UdpView::form(octets) else {
            return Err(UdpFault::UpperHeader);
        };
        if view.has_right_sum(src, dst) {
            Ok(view)
        } else {
            Err(UdpFault::UpperSum)
        }
    }

    /// The UDP datagram whose form these octets have, whatever its checksum.
    fn form(octets: &'a [u8]) -> Option<UdpView<'a>>
        ensures some { IfSome result (λ view. HasForm view octets.now) }
        ensures none { IfNone result ((d : UserDatagram) → HasForm d octets.now → ⊥) }
    {
        let len = length_field(octets)?;
        Some(UdpView {
            octets: &octets[..len],
        })
    }

    /// Whether there is no checksum, or a right one between these addresses.
    fn has_right_sum(&self, src: Addr, dst: Addr) -> bool
        ensures { IsTrue result ↔ SumIsRight src dst self.now }
    {
        self.checksum() == 0 || sum_between(src, dst, self.octets) == u16::MAX
    }

    /// The port that it comes from (RFC 768).
    pub fn source(&self) -> u16
        ensures { result ≡ self.now.source }
    {
        BigEndian::read_u16(self.octets)
    }

    /// The port that it goes to (RFC 768).
    pub fn destination(&self) -> u16
        ensures { result ≡ self.now.destination }
    {
        BigEndian::read_u16(&self.octets[2..])
    }

    /// The length in octets, the header's eight and the payload's, without any padding (RFC 768).
    pub fn datagram_len(&self) -> u16
        ensures { result ≡ datagram_len self.now }
    {
        BigEndian::read_u16(&self.octets[4..])
    }

    /// The checksum, 0 where there is none (RFC 768).
    pub fn checksum(&self) -> u16
        ensures { result ≡ self.now.checksum }
    {
        BigEndian::read_u16(&self.octets[6..])
    }

    /// The payload without any padding, at most 65,527 octets, a part of the octets that were parsed (RFC 768).
    pub fn payload(&self) -> &'a [u8]
        ensures octets { result.now ≡ self.now.payload }
        ensures bound { length result.now ≤ 65527 }
    {
        &self.octets[HEADER_LEN..]
    }
}

/// The length that these octets tell, where they have room for it and it for a header.
fn length_field(octets: &[u8]) -> Option<usize>
    ensures { result ≡ len_in octets.now }
{
    if octets.len() < HEADER_LEN {
        return None;
    }
    let len = usize::from(BigEndian::read_u16(&octets[4..]));
    if len < HEADER_LEN || octets.len() < len {
        return None;
    }
    Some(len)
}
