//! What gives way to another connection, where the host is on its guard (RFC 9293 section 3.6.1, RFC 1122 section 4.2.2.13).

ghost use Rattle.std.specs.Prelude.{◌≡◌, Ok};
ghost use Rattle.frames.specs.declared.meaning.Meaning.TheVariants.{Tcp};

use crate::host::Host;
use crate::layers::Layers;
use clock::Moment;
use frames::{DropCause, Meaning, ReceivedSegment};
use ipv4::Pair;
use sockets::SocketId;
use tcp_segment::Seq;

impl Host {
    ghost use Rattle.host.specs.Arrival.{IsDelivered, foreseen};
    ghost use Rattle.host.specs.GiveWay.{way_by, way_for, without, with_way, with_place};
    ghost use Rattle.host.specs.Heard.{heard_by};
    ghost use Rattle.host.specs.HostView.{with_sockets};
    ghost use Rattle.sockets.specs.GiveWay.{after_giving_way, way_for_socket};
    ghost use Rattle.sockets.specs.Ids.{has_id};

    /// `deliver`, once way was made for what the frame opens: what `way_for` names gives way. Where `deliver` then finds no memory, the frame is dropped, and
    /// what gave way is gone.
    pub fn deliver_by_way(&mut self, now: Moment, isn: Seq, frame: &[u8]) -> Result<(), DropCause>
        ensures { IsDelivered (with_way self.old frame.now) now isn.0 frame.now result self.new }
    {
        let meaning = self.layers.heard(frame);
        self.make_way(&meaning);
        self.meet(now, isn, frame, &meaning)
    }

    /// What gives way to this does.
    fn make_way(&mut self, meaning: &Result<Meaning<'_>, DropCause>)
        ensures { self.new ≡ without self.old (way_by self.old meaning.now) }
    {
        if let Some(id) = self.layers.way_by(meaning) {
            self.give_way(id);
        }
    }

    /// Takes a frame that is this to the host, as `deliver`.
    fn meet(
        &mut self,
        now: Moment,
        isn: Seq,
        frame: &[u8],
        meaning: &Result<Meaning<'_>, DropCause>,
    ) -> Result<(), DropCause>
        requires { meaning.now ≡ heard_by self.old frame.now }
        ensures { IsDelivered self.old now isn.0 frame.now result self.new }
    {
        self.sound();
        self.layers.meet(now, isn, meaning)
    }

    /// Makes a place for a socket, before it is made: what `way_for_socket` names gives way.
    pub fn make_place(&mut self)
        ensures { self.new ≡ with_place self.old }
    {
        if let Some(id) = self.way_for_socket() {
            self.give_way(id);
        }
    }

    /// The connection that gives way to what a frame would open, where the host is on its guard; None where it opens nothing, finds room, or nothing
    /// may give way. See `Sockets::way_for`.
    pub fn way_for(&self, frame: &[u8]) -> Option<SocketId>
        ensures { result ≡ way_for self.now frame.now }
    {
        self.layers.way_for(frame)
    }

    /// The connection that gives way to a socket, where the host is on its guard and its table is full. See `Sockets::way_for_socket`.
    pub fn way_for_socket(&self) -> Option<SocketId>
        ensures { result ≡ way_for_socket self.now.sockets }
    {
        self.layers.sockets.way_for_socket()
    }

    /// The pair that delivering this frame would open if memory were there, once way was made for it; None where it would open none.
    pub fn would_open_by_way(&self, frame: &[u8]) -> Option<Pair>
        ensures { result ≡ foreseen (with_way self.now frame.now) frame.now }
    {
        self.sound();
        self.layers.would_open_by_way(frame)
    }

    /// The connection that `id` names gives way, if it may. See `Sockets::give_way`.
    pub fn give_way(&mut self, id: SocketId)
        ensures { self.new ≡ with_sockets self.old (after_giving_way self.old.sockets (has_id id)) }
    {
        self.sound();
        self.layers.sockets.give_way(id);
    }
}

impl Layers {
    ghost use Rattle.host.specs.GiveWay.{way_by, way_for, foreseen_by_way, pair_seen};

    /// The connection that gives way to what a frame would open, as `Host::way_for`.
    fn way_for(&self, frame: &[u8]) -> Option<SocketId>
        ensures { result ≡ way_for self.now frame.now }
    {
        self.way_by(&self.heard(frame))
    }

    /// The connection that gives way to what this would open.
    fn way_by(&self, meaning: &Result<Meaning<'_>, DropCause>) -> Option<SocketId>
        ensures { result ≡ way_by self.now meaning.now }
    {
        match meaning {
            Ok(Meaning::Tcp(received)) => self.way_for_segment(received),
            _ => None,
        }
    }

    /// The connection that gives way to what a segment would open. Most segments have no SYN, so the route isn't looked up.
    fn way_for_segment(&self, received: &ReceivedSegment<'_>) -> Option<SocketId>
        ensures { result ≡ way_by self.now (Ok (Tcp received.now)) }
    {
        let way = self.sockets.way_for(received.source, &received.segment)?;
        self.interface.is_routed(received.source).then_some(way)
    }

    /// The pair that a frame would open, as `Host::would_open_by_way`, by the tests of what gives way.
    fn would_open_by_way(&self, frame: &[u8]) -> Option<Pair>
        ensures { result ≡ foreseen_by_way self.now frame.now }
    {
        match self.heard(frame) {
            Ok(Meaning::Tcp(received)) => self.pair_seen(&received),
            _ => None,
        }
    }

    /// The pair that a segment would open.
    fn pair_seen(&self, received: &ReceivedSegment<'_>) -> Option<Pair>
        ensures { result ≡ pair_seen self.now (Ok (Tcp received.now)) }
    {
        match self.way_for_segment(received) {
            Some(_) => Some(self.sockets.pair_with(received.source, &received.segment)),
            None => self.pair_opened(received),
        }
    }
}
