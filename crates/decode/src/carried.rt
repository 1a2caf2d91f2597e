//! What a layer carries, where that is read.

ghost use Rattle.std.specs.Prelude.{◌≡◌};
ghost use Rattle.decode.specs.Layers.{carried_by, upper_in};

use ether::{ETHERTYPE_ARP, ETHERTYPE_IPV4};
use ipv4::{Ipv4View, Protocol};

/// What a frame carries.
#[derive(Clone, Copy, PartialEq, Eq, Debug)]
pub(crate) enum Carried {
    Arp,
    Ipv4,
    Other,
}

/// What a frame of this type carries.
pub(crate) fn carried_by(kind: u16) -> Carried
    ensures { result ≡ carried_by kind }
{
    match kind {
        ETHERTYPE_IPV4 => Carried::Ipv4,
        ETHERTYPE_ARP => Carried::Arp,
        _ => Carried::Other,
    }
}

/// What a datagram carries.
#[derive(Clone, Copy, PartialEq, Eq, Debug)]
pub(crate) enum Upper {
    Icmp,
    Tcp,
    Udp,
    /// A part of a datagram, or another protocol.
    Unread,
}

/// What a datagram carries. A fragment is a part alone, whatever its protocol is.
pub(crate) fn upper_in(datagram: &Ipv4View<'_>) -> Upper
    ensures { result ≡ upper_in datagram.now }
{
    if datagram.more_fragments() || datagram.offset() != 0 {
        return Upper::Unread;
    }
    match datagram.protocol() {
        Protocol::ICMP => Upper::Icmp,
        Protocol::TCP => Upper::Tcp,
        Protocol::UDP => Upper::Udp,
        _ => Upper::Unread,
    }
}
