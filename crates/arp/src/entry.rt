//! What a cache keeps.

ghost use Rattle.std.specs.Prelude.{◌≡◌};
ghost use Rattle.arp.specs.Cache.{is_live, is_live_pair, is_live_note, sender_of, after_sender};
ghost use Rattle.arp.specs.Waits.{last_of};

use crate::packet::ArpPacket;
use clock::Moment;
use ether::Mac;
use ipv4::Addr;

/// How long a pair is live after it was heard, in milliseconds. That a pair is flushed is RFC 1122 section 2.3.2.1; how
/// soon is this stack's own.
const PAIR_LIFE: u64 = 1_200_000;

/// How long no second request for an address goes out, in milliseconds (RFC 1122 section 2.3.2.1).
const NOTE_LIFE: u64 = 1_000;

/// An address, the MAC that was heard for it, and when it was heard last.
#[derive(Clone, Copy, Debug, PartialEq, Eq)]
pub(crate) struct Neighbour {
    pub(crate) addr: Addr,
    pub(crate) mac: Mac,
    pub(crate) heard: Moment,
}

impl Neighbour {
    /// The sender of a packet, heard now.
    pub(crate) fn sender_of(now: Moment, packet: &ArpPacket) -> Neighbour
        ensures { result ≡ sender_of now packet.now }
    {
        Neighbour {
            addr: packet.sender_addr,
            mac: packet.sender_mac,
            heard: now,
        }
    }

    /// Becomes the sender where it has the sender's address, and else stays.
    pub(crate) fn hear(&mut self, sender: Neighbour)
        ensures { self.new ≡ after_sender sender self.old }
    {
        if self.addr == sender.addr {
            *self = sender;
        }
    }

    /// Whether it was heard in the last 20 minutes.
    pub(crate) fn is_live(&self, now: Moment) -> bool
        ensures { result ≡ is_live_pair now self.now }
    {
        is_live(PAIR_LIFE, now, self.heard)
    }
}

/// An address that a request went out for, and when.
#[derive(Clone, Copy, Debug, PartialEq, Eq)]
pub(crate) struct Asked {
    pub(crate) addr: Addr,
    pub(crate) at: Moment,
}

impl Asked {
    /// Whether the request went out in the last second, or goes out now.
    pub(crate) fn is_live(&self, now: Moment) -> bool
        ensures { result ≡ is_live_note now self.now }
    {
        now <= self.at || is_live(NOTE_LIFE, now, self.at)
    }

    /// The last moment at which it is live.
    pub(crate) fn last(&self) -> Moment
        ensures { result ≡ last_of self.now }
    {
        Moment(self.at.0.max(self.at.after(NOTE_LIFE).0 - 1))
    }
}

/// Whether `now` lies less than so many milliseconds past a moment. It never does at the last moment of the clock.
fn is_live(milliseconds: u64, now: Moment, moment: Moment) -> bool
    ensures { result ≡ is_live milliseconds now moment }
{
    moment.after(milliseconds) > now
}
