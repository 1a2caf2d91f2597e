//! The control replies that wait to go out.

ghost use Rattle.std.specs.Prelude.{◌≡◌, true, is_some};
ghost use Rattle.interface.specs.Queue.{has_room};
ghost use Rattle.interface.specs.Timing.{sought, end_of, is_over};

use crate::room::{Quoted, Room};
use arp::ArpPacket;
use clock::{HOP_WAIT, Moment};
use ether::Mac;
use icmp::Reason;
use ipv4::Addr;
use std::marker::Model;
use tcp_segment::Head;
use thiserror::Error;

/// Why a control reply isn't queued.
#[derive(Clone, Copy, PartialEq, Eq, Debug, Error)]
pub enum QueueFault {
    /// As many wait already as may.
    #[error("F9 NoRoom")]
    NoRoom,
}

/// The header of a reset, which is a segment without octets (RFC 9293 section 3.5.2).
#[derive(Clone, Copy, PartialEq, Eq, Debug)]
pub(crate) struct ResetHead {
    head: Head,
}

impl Model for ResetHead {
    ghost use Rattle.std.specs.Prelude.{◌≡◌, true};
    ghost use Rattle.tcp_segment.specs.declared.head.Head.{Head};

    ghost Value = { Head };

    ghost view = { λ r. r.head };

    ghost inverse = { λ head. record { head = head } };

    ghost invariant = { λ r. r.head.flags.rst ≡ true };
}

impl ResetHead {
    /// The header of a segment with RST.
    pub(crate) fn new(head: Head) -> ResetHead
        requires { head.flags.rst ≡ true }
        ensures { result ≡ head }
    {
        ResetHead { head }
    }

    /// The header that goes out.
    pub(crate) fn head(&self) -> Head
        ensures value { result ≡ self.now }
        ensures reset { result.flags.rst ≡ true }
    {
        self.head
    }
}

/// What the stack answers by itself.
#[derive(Drop)]
pub(crate) enum Reply {
    /// An ARP reply (RFC 826).
    Arp(ArpPacket),
    /// A reset to an address, with this header (RFC 9293 section 3.5.2).
    Reset {
        to: Addr,
        head: ResetHead,
    },
    /// An echo reply to an address, with the identifier, number and data of a request (RFC 792).
    Echo {
        to: Addr,
        identifier: u16,
        number: u16,
        data: Room,
    },
    /// An error to an address: why a datagram came to nothing, and what is quoted of it (RFC 792).
    Error {
        to: Addr,
        reason: Reason,
        quoted: Quoted,
    },
}

impl Reply {
    /// The address whose next hop it needs; none where it names its MAC.
    pub(crate) fn sought(&self) -> Option<Addr>
        ensures { result ≡ sought self.now }
    {
        match *self {
            Reply::Arp(_) => None,
            Reply::Reset { to, .. } | Reply::Echo { to, .. } | Reply::Error { to, .. } => Some(to),
        }
    }

    /// The room that it holds; none where it is of a fixed size.
    pub(crate) fn into_room(self) -> Option<Room>
        ensures { is_some result ≡ has_room self }
    {
        match self {
            Reply::Arp(_) | Reply::Reset { .. } => None,
            Reply::Echo { data, .. } => Some(data),
            Reply::Error { quoted, .. } => Some(quoted.into_room()),
        }
    }
}

/// A reply, and the moment since when it waits.
#[derive(Drop)]
pub(crate) struct Waiting {
    pub(crate) since: Moment,
    pub(crate) reply: Reply,
}

impl Waiting {
    /// The moment until which it waits for a hop that isn't known.
    pub(crate) fn end(&self) -> Moment
        ensures { result ≡ end_of self.now }
    {
        self.since.after(HOP_WAIT)
    }

    /// Whether that moment has come.
    pub(crate) fn is_over(&self, now: Moment) -> bool
        ensures { result ≡ is_over now self.now }
    {
        self.end() <= now
    }
}
