//! Why a frame, or a part of it, can't be read.

ghost use Rattle.std.specs.Prelude.{◌≡◌};
ghost use Rattle.decode.specs.Layers.{number_of};

use thiserror::Error;

/// Why a frame, or a part of it, can't be read. Each has the name and the number by which a host drops it.
#[derive(Clone, Copy, PartialEq, Eq, Debug, Error)]
pub enum Unreadable {
    /// The frame has fewer octets than its head (RFC 894).
    #[error("F1 Short")]
    Short,
    /// It carries neither IPv4 nor ARP.
    #[error("F3 OtherType")]
    OtherType,
    /// The IPv4 header has not the form of one (RFC 791).
    #[error("F4 IpHeader")]
    IpHeader,
    /// The IPv4 header's checksum is wrong.
    #[error("F5 IpSum")]
    IpSum,
    /// The ARP packet, or the header of ICMP, UDP or TCP, has not the form of one.
    #[error("F7 UpperHeader")]
    UpperHeader,
    /// The checksum of ICMP, UDP or TCP is wrong.
    #[error("F8 UpperSum")]
    UpperSum,
}

impl Unreadable {
    /// Its number.
    pub fn number(self) -> u8
        ensures { result ≡ number_of self }
    {
        match self {
            Unreadable::Short => 1,
            Unreadable::OtherType => 3,
            Unreadable::IpHeader => 4,
            Unreadable::IpSum => 5,
            Unreadable::UpperHeader => 7,
            Unreadable::UpperSum => 8,
        }
    }
}
