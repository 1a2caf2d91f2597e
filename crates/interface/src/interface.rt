//! The interface itself.

ghost use Rattle.std.specs.Prelude.{◌≡◌, ◌<◌, ◌≤◌, ◌++◌, true, length, take, position, IfOk};
ghost use Rattle.ipv4.specs.declared.limits.TheConstants.{ERROR_QUOTE};
ghost use Rattle.interface.specs.declared.room.TheConstants.{ECHO_ROOM};
ghost use Rattle.interface.specs.Strangers.{is_of_group};

use crate::hop::{hop_mac, next_hop, way_over};
use crate::queue::Queue;
use crate::reply::{QueueFault, Reply, ResetHead, Waiting};
use crate::room::Quoted;
use crate::way::Way;
use arp::{ArpCache, ArpPacket, Operation};
use clock::Moment;
use ether::Mac;
use icmp::Reason;
use ipv4::Addr;
use routes::Routes;
use std::alloc::{AllocError, Global};
use std::marker::Model;
use tcp_segment::Head;

/// What a host has of its link: its MAC, its address and its routes, what it heard of its neighbours and asked for, and the
/// control replies that wait, at most so many as it was made for. Only the making takes memory.
pub struct Interface {
    pub(crate) mac: Mac,
    pub(crate) addr: Addr,
    pub(crate) routes: Routes,
    pub(crate) cache: ArpCache,
    pub(crate) replies: Queue,
}

impl Model for Interface {
    ghost use Rattle.interface.specs.InterfaceView.{InterfaceView};

    ghost Value = { InterfaceView };

    ghost view = { λ i. record {
      mac = i.mac;
      addr = i.addr;
      routes = i.routes;
      cache = i.cache;
      most_replies = i.replies.most;
      replies = i.replies.replies;
    } };
}

// Written out: the proof of what lets an interface go then has one call, and not each part of it.
impl Drop for Interface {
    fn drop(self) {
        let Interface {
            mac: _,
            addr: _,
            routes: _,
            cache: _,
            replies: _,
        } = self;
    }
}

impl Interface {
    ghost use Rattle.interface.specs.InterfaceView.{fresh};
    ghost use Rattle.interface.specs.Ways.{is_routed, knows_hop, way};
    ghost use Rattle.arp.specs.Cache.{is_request_for};
    ghost use Rattle.interface.specs.Strangers.{is_no_host, is_no_neighbours};
    ghost use Rattle.interface.specs.Replies.{after_heard, heard_answer, is_full, after_answer, after_echo, after_report, answer_result, way_of, is_due};

    /// An interface with this MAC, address and routes, that heard nothing. It keeps so many neighbours at most, and so many control
    /// replies may wait. Fails only where memory is refused.
    pub fn new(
        alloc: Global,
        mac: Mac,
        addr: Addr,
        routes: Routes,
        neighbours: usize,
        most_replies: usize,
    ) -> Result<Interface, AllocError>
        requires { 0 < neighbours }
        ensures { IfOk result (λ interface. interface ≡ fresh neighbours most_replies mac addr routes) }
    {
        Ok(Interface {
            mac,
            addr,
            routes,
            cache: ArpCache::new(alloc, neighbours)?,
            replies: Queue::new(alloc, most_replies)?,
        })
    }

    /// Its MAC.
    pub fn mac(&self) -> Mac
        ensures { result ≡ self.now.mac }
    {
        self.mac
    }

    /// Its address.
    pub fn addr(&self) -> Addr
        ensures { result ≡ self.now.addr }
    {
        self.addr
    }

    /// Whether a route leads to an address.
    pub fn is_routed(&self, to: Addr) -> bool
        ensures { result ≡ is_routed self.now to }
    {
        next_hop(&self.routes, to).is_some()
    }

    /// Whether an address is that of a network on the link, or of all its hosts, so that no host sends from it (RFC 1122 section 3.2.1.3).
    pub fn is_no_host(&self, source: Addr) -> bool
        ensures { result ≡ is_no_host self.now source }
    {
        self.routes.is_link_end(source)
    }

    /// Whether an ARP packet is of a MAC that no neighbour has, that of a group or our own, or of an address from which no host sends.
    pub fn is_no_neighbours(&self, packet: &ArpPacket) -> bool
        ensures { result ≡ is_no_neighbours self.now packet.now }
    {
        is_of_group(packet.sender_mac)
            || packet.sender_mac == self.mac
            || self.is_no_host(packet.sender_addr)
    }

    /// Whether the MAC of the next hop to an address is known: a route leads there, and the hop was heard in the last 20 minutes.
    pub fn knows_hop(&self, now: Moment, to: Addr) -> bool
        ensures { result ≡ knows_hop self.now now to }
    {
        hop_mac(&self.routes, &self.cache, now, to).is_some()
    }

    /// What can be done now for a datagram to an address: it can go out to the MAC of its next hop (RFC 1122 section 3.3.1.1), where that is
    /// known; else a request for the hop can, where `emit_request` may send one (RFC 1122 section 2.3.2.1); else it waits. Without a
    /// route it waits.
    pub fn way(&self, now: Moment, to: Addr) -> Way
        ensures { result ≡ way self.now now to }
    {
        way_over(&self.cache, now, next_hop(&self.routes, to))
    }

    /// Takes an ARP packet that was heard (RFC 826): what it tells is learnt, and where it is a request for our address the
    /// reply to it is queued. NoRoom where as many replies wait already as may, and then it is learnt all the same.
    pub fn hear(&mut self, now: Moment, packet: &ArpPacket) -> Result<(), QueueFault>
        ensures after { self.new ≡ after_heard self.old now packet.now }
        ensures answer { result ≡ heard_answer self.old packet.now }
    {
        let is_owed = self.cache.hear(now, packet, self.addr);
        if is_owed {
            self.replies.push(now, Reply::Arp(packet.reply(self.mac)))?;
        }
        Ok(())
    }

    /// Whether an ARP packet is a request for our address, to which a reply is owed (RFC 826).
    pub fn is_asked_by(&self, packet: &ArpPacket) -> bool
        ensures { result ≡ is_request_for self.now.addr packet.now }
    {
        packet.target_addr == self.addr && matches!(packet.operation, Operation::Request)
    }

    /// Whether as many control replies wait as may, so that none that is owed finds a place.
    pub fn is_full(&self) -> bool
        ensures { result ≡ is_full self.now }
    {
        self.replies.is_full()
    }

    /// Queues a reset to an address, a segment with this header, which has RST, and no octets (RFC 9293 section 3.5.2). Where no route
    /// leads there nothing is queued. NoRoom where as many replies wait already as may. A refusal changes nothing.
    pub fn answer(&mut self, now: Moment, to: Addr, head: Head) -> Result<(), QueueFault>
        requires { head.flags.rst ≡ true }
        ensures after { self.new ≡ after_answer self.old now to head }
        ensures answer { result ≡ answer_result self.old to }
    {
        if self.is_routed(to) {
            let head = ResetHead::new(head);
            self.replies.push(now, Reply::Reset { to, head })?;
        }
        Ok(())
    }

    /// Queues an echo reply to an address, with the identifier, number and data of a request, at most 1,472 octets of them (RFC 792, RFC
    /// 1122 section 3.2.2.6). Where no route leads there nothing is queued. NoRoom where as many replies wait already as may. A refusal
    /// changes nothing.
    pub fn answer_echo(
        &mut self,
        now: Moment,
        to: Addr,
        identifier: u16,
        number: u16,
        octets: &[u8],
    ) -> Result<(), QueueFault>
        requires { length octets.now ≤ ECHO_ROOM }
        ensures after { self.new ≡ after_echo self.old now to identifier number octets.now }
        ensures answer { result ≡ answer_result self.old to }
    {
        if self.is_routed(to) {
            self.replies.push_made(
                now,
                |room| Reply::Echo {
                    to,
                    identifier,
                    number,
                    data: room.filled(octets),
                },
            )?;
        }
        Ok(())
    }

    /// Queues an error to an address, which tells why the datagram with this header, at most 60 octets, and this payload came to nothing:
    /// it quotes the header and the first 8 octets of the payload, fewer where there are fewer (RFC 792, RFC 1122 section 3.2.2). Where no
    /// route leads there nothing is queued. NoRoom where as many replies wait already as may. A refusal changes nothing.
    pub fn report(
        &mut self,
        now: Moment,
        to: Addr,
        reason: Reason,
        header: &[u8],
        payload: &[u8],
    ) -> Result<(), QueueFault>
        requires { length header.now ≤ 60 }
        ensures after { self.new ≡ after_report self.old now to reason (header.now ++ take 8 payload.now) }
        ensures answer { result ≡ answer_result self.old to }
    {
        if self.is_routed(to) {
            self.replies.push_made(
                now,
                |room| Reply::Error {
                    to,
                    reason,
                    quoted: Quoted::new(room, header, payload),
                },
            )?;
        }
        Ok(())
    }

    /// Queues an error to an address, of a quote that was made before, of which it takes the first 68 octets, all that an error quotes of
    /// a datagram at most (RFC 792). Where no route leads there nothing is queued. NoRoom where as many replies wait already as may. A
    /// refusal changes nothing.
    pub fn report_quote(
        &mut self,
        now: Moment,
        to: Addr,
        reason: Reason,
        quote: &[u8],
    ) -> Result<(), QueueFault>
        ensures after { self.new ≡ after_report self.old now to reason (take ERROR_QUOTE quote.now) }
        ensures answer { result ≡ answer_result self.old to }
    {
        if self.is_routed(to) {
            self.replies.push_made(
                now,
                |room| Reply::Error {
                    to,
                    reason,
                    quoted: Quoted::of(room, quote),
                },
            )?;
        }
        Ok(())
    }

    /// The place of the first reply that waits and for which a frame can go out now, the reply or a request for its hop; none where every
    /// reply waits on.
    pub fn first_reply(&self, now: Moment) -> Option<usize>
        ensures { result ≡ position (is_due self.now now) self.now.replies }
    {
        self.replies
            .as_slice()
            .iter()
            .position(|waiting| self.is_due(now, waiting))
    }

    /// Whether a frame can go out for a reply now.
    fn is_due(&self, now: Moment, waiting: &Waiting) -> bool
        ensures { result ≡ is_due self.now now waiting.now }
    {
        self.way_of(now, &waiting.reply).goes_out()
    }

    /// What can be done now for a reply.
    pub(crate) fn way_of(&self, now: Moment, reply: &Reply) -> Way
        ensures { result ≡ way_of self.now now reply.now }
    {
        match *reply {
            Reply::Arp(packet) => Way::To(packet.target_mac),
            Reply::Reset { to, .. } | Reply::Echo { to, .. } | Reply::Error { to, .. } => {
                self.way(now, to)
            }
        }
    }
}

/// Whether a MAC is that of a group: the low bit of its first octet is set (IEEE 802).
fn is_of_group(mac: Mac) -> bool
    ensures { result ≡ is_of_group mac }
{
    mac.0[0] % 2 == 1
}
