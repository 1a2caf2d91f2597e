//! What a frame finds no room at. Nothing changes.

ghost use Rattle.std.specs.Prelude.{◌≡◌, Ok, is_some};
ghost use Rattle.frames.specs.declared.meaning.Meaning.TheVariants.{UdpFragment};
ghost use Rattle.reassembly.specs.Fragments.{key_of};
ghost use Rattle.reassembly.specs.Places.{place_for};
ghost use Rattle.sockets.specs.Datagrams.{reception};
ghost use Rattle.sockets.specs.Needs.{need};
ghost use Rattle.host.specs.Arrival.{pool_for};
ghost use Rattle.host.specs.Messages.{told_by};

use crate::host::Host;
use crate::layers::Layers;
use frames::{Control, Meaning, ReceivedDatagram, ReceivedSegment};
use ipv4::{Addr, Ipv4View};
use sockets::{Need, Reception};

/// What a frame that is dropped for want of room, NoRoom, finds no room at.
#[derive(Clone, Copy, PartialEq, Eq, Debug)]
pub enum Lack {
    /// As many connections wait at the listener as its backlog allows.
    Backlog,
    /// The table has as many sockets and connections as it may, or the last id is given.
    Table,
    /// Memory for the two buffers of the connection that a SYN opens.
    Memory,
    /// As many control replies wait as may, and a reset, an echo reply, an error or an ARP reply is owed.
    Replies,
    /// The queue of the UDP socket has no room for the datagram.
    Queue,
    /// Four datagrams are put together, none of them is that of the fragment, and the host isn't on its guard.
    Reassembly,
    /// No route leads to the source of a SYN.
    Route,
}

impl Host {
    ghost use Rattle.host.specs.Lack.{lack};

    /// What delivering this frame would find no room at: it would be dropped for that, NoRoom. `Lack::Memory` of a SYN that finds all else, which is
    /// dropped only where memory is refused. None of every other frame. Of a listener's places that in the backlog is asked for first, and the
    /// route last. A frame that was dropped for want of room finds the same after it, so a program may ask then.
    pub fn lack(&self, frame: &[u8]) -> Option<Lack>
        ensures { result ≡ lack self.now frame.now }
    {
        self.layers.lack(frame)
    }
}

impl Layers {
    ghost use Rattle.host.specs.Lack.{lack, lack_by_message, lack_by_need, lack_by_reception, lack_of, lack_of_answer, lack_of_reply};

    /// What a frame finds no room at, as `Host::lack`.
    fn lack(&self, frame: &[u8]) -> Option<Lack>
        ensures { result ≡ lack self.now frame.now }
    {
        match self.heard(frame) {
            Ok(Meaning::Arp(packet)) => self.lack_of_reply(self.interface.is_asked_by(&packet)),
            Ok(Meaning::Tcp(received)) => self.lack_of_segment(&received),
            Ok(Meaning::Icmp(control)) => self.lack_of_message(&control),
            Ok(Meaning::Udp(received)) => self.lack_of_datagram(&received),
            Ok(Meaning::UdpFragment(fragment)) => self.lack_of_fragment(&fragment),
            Ok(Meaning::Other(datagram)) => self.lack_of_answer(datagram.source()),
            Err(_) => None,
        }
    }

    /// What a segment finds no room at.
    fn lack_of_segment(&self, received: &ReceivedSegment<'_>) -> Option<Lack>
        ensures { result ≡ lack_by_need self.now received.now.source (need self.now.sockets received.now.source received.now.segment) }
    {
        let source = received.source;
        match self.sockets.need_of_segment(source, &received.segment)? {
            Need::Backlog => Some(Lack::Backlog),
            Need::Table => Some(Lack::Table),
            Need::Memory if self.interface.is_routed(source) => Some(Lack::Memory),
            Need::Memory => Some(Lack::Route),
            Need::Reply => self.lack_of_answer(source),
        }
    }

    /// What a message finds no room at.
    fn lack_of_message(&self, control: &Control<'_>) -> Option<Lack>
        ensures { result ≡ lack_by_message self.now control.now.source (told_by control.now.message) }
    {
        if control.message.is_echo_request() {
            self.lack_of_answer(control.source)
        } else {
            None
        }
    }

    /// What a UDP datagram that came whole finds no room at.
    fn lack_of_datagram(&self, received: &ReceivedDatagram<'_>) -> Option<Lack>
        ensures { result ≡ lack_by_reception self.now received.now.carrier.source (reception self.now.sockets received.now.datagram) }
    {
        match self.sockets.would_receive(&received.datagram) {
            Reception::Queued => None,
            Reception::NoRoom => Some(Lack::Queue),
            Reception::NoSocket => self.lack_of_answer(received.carrier.source()),
        }
    }

    /// What a fragment finds no room at: on guard the oldest datagram gives way to it.
    fn lack_of_fragment(&self, fragment: &Ipv4View<'_>) -> Option<Lack>
        ensures { result ≡ lack_of self.now (Ok (UdpFragment fragment.now)) }
    {
        if self.finds_place(fragment) {
            None
        } else {
            Some(Lack::Reassembly)
        }
    }

    /// Whether a fragment finds a place, as it does on guard wherever a place has room for it.
    pub(crate) fn finds_place(&self, fragment: &Ipv4View<'_>) -> bool
        ensures { result ≡ is_some (place_for fragment.now (pool_for self.now.sockets.manner.guards fragment.now self.now.pool)) }
    {
        self.pool.has_place(fragment)
            || self.sockets.is_guarded() && self.pool.has_room_for(fragment)
    }

    /// What a control reply to this address finds no room at: it is owed where a route leads there.
    fn lack_of_answer(&self, to: Addr) -> Option<Lack>
        ensures { result ≡ lack_of_answer self.now to }
    {
        self.lack_of_reply(self.interface.is_routed(to))
    }

    /// What a control reply finds no room at, where one is owed.
    fn lack_of_reply(&self, is_owed: bool) -> Option<Lack>
        ensures { result ≡ lack_of_reply is_owed self.now.interface }
    {
        (is_owed && self.interface.is_full()).then_some(Lack::Replies)
    }
}
