//! Why a frame, or a part of it, isn't taken.

ghost use Rattle.std.specs.Prelude.{◌≡◌};
ghost use Rattle.frames.specs.Drops.{number_of};

use thiserror::Error;

/// Why a frame, or a part of it, isn't taken: the first cause from the lowest layer up.
#[derive(Clone, Copy, PartialEq, Eq, Debug, Error)]
pub enum DropCause {
    /// The frame has fewer octets than a head, or more than a frame may have (RFC 894).
    #[error("F1 Short")]
    Short,
    /// It is for another interface, or for all of the link and carries no ARP (RFC 894).
    #[error("F2 OtherMac")]
    OtherMac,
    /// It carries neither IPv4 nor ARP (RFC 894).
    #[error("F3 OtherType")]
    OtherType,
    /// The IPv4 header has not the form of one (RFC 791 section 3.1).
    #[error("F4 IpHeader")]
    IpHeader,
    /// The IPv4 header's checksum is wrong (RFC 791 section 3.1).
    #[error("F5 IpSum")]
    IpSum,
    /// The datagram is for another host, or it or the ARP packet comes from our own address or from none that a host may have
    /// (RFC 1122 section 3.2.1.3).
    #[error("F6 OtherAddress")]
    OtherAddress,
    /// The ARP packet, or the header of ICMP, UDP or TCP, has not the form of one.
    #[error("F7 UpperHeader")]
    UpperHeader,
    /// The checksum of ICMP, UDP or TCP is wrong.
    #[error("F8 UpperSum")]
    UpperSum,
    /// There is no place for what it carries, or no memory. What octets are to a host never tells this.
    #[error("F9 NoRoom")]
    NoRoom,
    /// It carries a fragment of anything but a UDP datagram.
    #[error("F10 Fragment")]
    Fragment,
}

impl DropCause {
    /// The number behind the F of its text.
    pub fn number(self) -> u8
        ensures { result ≡ number_of self }
    {
        match self {
            DropCause::Short => 1,
            DropCause::OtherMac => 2,
            DropCause::OtherType => 3,
            DropCause::IpHeader => 4,
            DropCause::IpSum => 5,
            DropCause::OtherAddress => 6,
            DropCause::UpperHeader => 7,
            DropCause::UpperSum => 8,
            DropCause::NoRoom => 9,
            DropCause::Fragment => 10,
        }
    }
}
