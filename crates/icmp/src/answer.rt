//! Which datagrams may be answered by an error.

ghost use Rattle.std.specs.Prelude.{◌↔◌, IsTrue};
ghost use Rattle.icmp.specs.MayAnswer.{MayAnswer, IsBroadcast, IsMulticast, IsError};

use crate::kind::Kind;
use ipv4::{Addr, Ipv4View, Protocol};

/// Whether an error may be sent to the source of this datagram, whose frame was a broadcast of the link or not. It may not
/// where the datagram carries an error itself, is for a broadcast or a multicast address, came in a link broadcast, is a
/// fragment other than the first, or has a source that isn't unicast (RFC 1122 section 3.2.2).
pub fn may_answer(datagram: &Ipv4View, link_broadcast: bool) -> bool
    ensures { IsTrue result ↔ MayAnswer datagram.now link_broadcast }
{
    !link_broadcast
        && datagram.offset() == 0
        && datagram.source().is_unicast()
        && !is_broadcast(datagram.destination())
        && !is_multicast(datagram.destination())
        && !is_error(datagram)
}

/// Whether it carries an error.
fn is_error(datagram: &Ipv4View) -> bool
    ensures { IsTrue result ↔ IsError datagram.now }
{
    match datagram.payload() {
        [kind, ..] => datagram.protocol() == Protocol::ICMP && Kind(*kind).is_error(),
        [] => false,
    }
}

/// Whether it is the address of every host of a link (RFC 919 section 7).
fn is_broadcast(addr: Addr) -> bool
    ensures { IsTrue result ↔ IsBroadcast addr }
{
    addr == Addr([255; 4])
}

/// Whether it is the address of a group of hosts (RFC 1112 section 4).
fn is_multicast(addr: Addr) -> bool
    ensures { IsTrue result ↔ IsMulticast addr }
{
    matches!(addr.0[0], 224..=239)
}
