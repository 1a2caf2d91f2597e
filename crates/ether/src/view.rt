//! A frame that was received.

ghost use Rattle.std.specs.Prelude.{◌≡◌, ◌<◌, length, IsErr, ◌↔◌};
ghost use Rattle.ether.specs.Frame.{IsParsed};

use crate::mac::Mac;
use byteorder::{BigEndian, ByteOrder};
use std::marker::Model;
use thiserror::Error;

/// Why octets are no frame.
#[derive(Clone, Copy, PartialEq, Eq, Debug, Error)]
pub enum FrameFault {
    /// There are fewer octets than a head has.
    #[error("F1 Short")]
    Short,
}

/// A frame that was received, its payload lent from its octets.
#[derive(Drop)]
pub struct EtherView<'a> {
    destination: Mac,
    source: Mac,
    kind: u16,
    payload: &'a [u8],
}

impl<'a> Model for EtherView<'a> {
    ghost use Rattle.ether.specs.Frame.{Frame};

    ghost Value = { Frame };

    ghost view = { λ v. record { destination = v.destination; source = v.source; kind = v.kind; payload = v.payload.now } };
}

impl<'a> EtherView<'a> {
    /// The frame that these octets spell (RFC 894). `Short` where they spell none: there are fewer than 14.
    pub fn parse(octets: &'a [u8]) -> Result<EtherView<'a>, FrameFault>
        ensures parsed { IsParsed octets.now result }
        ensures short { IsErr result ↔ (length octets.now < 14) }
    {
        let [
            d0,
            d1,
            d2,
            d3,
            d4,
            d5,
            s0,
            s1,
            s2,
            s3,
            s4,
            s5,
            high,
            low,
            payload @ ..,
        ] = octets
        else {
            return Err(FrameFault::Short);
        };
        Ok(EtherView {
            destination: Mac([*d0, *d1, *d2, *d3, *d4, *d5]),
            source: Mac([*s0, *s1, *s2, *s3, *s4, *s5]),
            kind: BigEndian::read_u16(&[*high, *low]),
            payload,
        })
    }

    /// The interface that it is for.
    pub fn destination(&self) -> Mac
        ensures { result ≡ self.now.destination }
    {
        self.destination
    }

    /// The interface that it comes from.
    pub fn source(&self) -> Mac
        ensures { result ≡ self.now.source }
    {
        self.source
    }

    /// What the payload is.
    pub fn kind(&self) -> u16
        ensures { result ≡ self.now.kind }
    {
        self.kind
    }

    /// The payload, a part of the frame that was parsed, with its padding.
    pub fn payload(&self) -> &'a [u8]
        ensures { result.now ≡ self.now.payload }
    {
        self.payload
    }
}
