//! The host itself: what was made of it by the events so far, the frames, the clock, and the questions that change nothing.

ghost use Rattle.std.specs.Prelude.{◌≡◌, ◌≤◌, [], Ok, Err, IfOk, IfErr, IfSome, MatchResult};

use crate::config::Config;
use crate::layers::Layers;
use clock::Moment;
use ether::FRAME_MAX;
use frames::DropCause;
use interface::Interface;
use ipv4::Pair;
use reassembly::{Lately, Pool, PoolFault};
use sockets::{Refusal, Sizes as TableSizes, SocketId, Sockets};
use std::alloc::{AllocError, Global};
use std::marker::Model;
use tcp_segment::Seq;

/// A host with one interface and one address. Its frame side is the interface, its sockets are a table over the same address, and in its pool
/// fragments of datagrams are put together; on its guard it knows for a second which datagrams were whole. The making of a host takes memory, for what it will know of its neighbours, for the control replies
/// that will wait, for the places of its table and for the datagrams of its pool, as many as its set-up says, and so do sockets and the connections that frames open;
/// nothing else does.
pub struct Host {
    pub(crate) layers: Layers,
}

impl Model for Host {
    ghost use Rattle.host.specs.HostView.{HostView};
    ghost use Rattle.host.specs.Runs.{HasRunOnOctets};

    ghost Value = { HostView };

    ghost view = { λ h. h.layers };

    // There is no host but one that a list of events led to.
    ghost invariant = { λ h. HasRunOnOctets h.layers };
}

// Written out: the proof of what lets a host go then has one call, and not each part of it.
impl Drop for Host {
    fn drop(self) {
        let Host { layers: _ } = self;
    }
}

impl Host {
    ghost use Rattle.host.specs.HostView.{new_host};
    ghost use Rattle.host.specs.Arrival.{IsDelivered, foreseen};
    ghost use Rattle.host.specs.Emission.{emission_len, after_emission, emission_front};
    ghost use Rattle.host.specs.Runs.{HasRun, HasRunOnOctets};
    ghost use Rattle.host.specs.Sound.{IsSoundHost};
    ghost use Rattle.host.specs.Ticks.{after_tick, least_deadline};
    ghost use Rattle.sockets.specs.SocketsView.{holder_id};
    ghost use Rattle.sockets.specs.Offered.{IsReached};
    ghost use Rattle.sockets.specs.Order.{IsOrdered};
    ghost use Rattle.sockets.specs.Pairs.{socket_pair};
    ghost use Rattle.sockets.specs.Sound.{NoneIsOver};
    ghost use Rattle.sockets.specs.Timing.{EachKeepsTime};

    /// A host with no sockets, that has heard nothing, and whose kept moment is 0. ENOMEM.
    pub fn new(alloc: Global, config: Config) -> Result<Host, Refusal>
        ensures host { IfOk result (λ host. host ≡ new_host config) }
        ensures refusal { IfErr result (λ refusal. refusal ≡ Refusal.ENOMEM) }
    {
        config.sound();
        let (mac, addr, routes, manner, sizes) = config.into_parts();
        let interface = Interface::new(alloc, mac, addr, routes, sizes.neighbours, sizes.replies);
        let pool = Pool::new(alloc, sizes.reassemblies, sizes.reassembly_octets);
        let table = TableSizes {
            entries: sizes.entries,
            buffer: sizes.buffer,
        };
        let sockets = Sockets::new(alloc, addr, manner, table);
        Host::of(interface, sockets, pool)
    }

    /// The host of these layers. ENOMEM exactly where memory was refused the frame side, the table or the pool.
    fn of(
        interface: Result<Interface, AllocError>,
        sockets: Result<Sockets, AllocError>,
        pool: Result<Pool, PoolFault>,
    ) -> Result<Host, Refusal>
        requires { IfOk interface (λ frames. IfOk sockets (λ table. IfOk pool (λ places. HasRunOnOctets (record { interface = frames; sockets = table; pool = places; lately = [] })))) }
        ensures layers { MatchResult interface
            (λ frames. MatchResult sockets
            (λ table. MatchResult pool (λ places. result ≡ Ok (record { interface = frames; sockets = table; pool = places; lately = [] })) (λ refused. result ≡ Err Refusal.ENOMEM))
            (λ refused. result ≡ Err Refusal.ENOMEM))
            (λ refused. result ≡ Err Refusal.ENOMEM) }
        ensures refusal { IfErr result (λ refusal. refusal ≡ Refusal.ENOMEM) }
    {
        match (interface, sockets, pool) {
            (Ok(interface), Ok(sockets), Ok(pool)) => {
                let layers = Layers {
                    interface,
                    sockets,
                    pool,
                    lately: Lately::new(),
                };
                Ok(Host { layers })
            }
            _ => Err(Refusal::ENOMEM),
        }
    }

    /// Takes a frame, at the later of `now` and the kept moment. `isn` is used only where it opens a connection.
    ///
    /// The first cause to drop it from the lowest layer up, and then nothing has changed: Short under 14 octets or over 1,514; OtherMac
    /// where it isn't for us, and a broadcast is for us with ARP alone; OtherType with neither IPv4 nor ARP; IpHeader, IpSum where the header
    /// of the datagram isn't well; OtherAddress where the datagram is for another host, or it or the ARP packet comes from our own
    /// address or not from a unicast address; Fragment for one of any protocol but UDP; UpperHeader, UpperSum where the ARP packet, the
    /// segment, the message or the UDP datagram isn't well. NoRoom where it would open a connection and there is no place in the backlog or
    /// the table, no id, no memory or no route to its source, where its UDP datagram finds 64 others at the socket, where it is a fragment of
    /// a datagram that has no place in the pool of a host that isn't on its guard, where it is to be answered by a reset, an echo or an error and as many control replies wait as may, and where
    /// it asks for our MAC and as many wait: what that ARP packet says is learnt all the same.
    ///
    /// On guard the datagram of the pool that began first gives way to a fragment that would begin one more than the pool has places for; but of a datagram that was whole
    /// within the last second a fragment begins none, and nothing changes then.
    ///
    /// What answers a datagram isn't sent where no route leads to its source, and the frame is taken then. So is a fragment of UDP: what its
    /// datagram comes to once it is whole is no matter of this frame.
    pub fn deliver(&mut self, now: Moment, isn: Seq, frame: &[u8]) -> Result<(), DropCause>
        ensures { IsDelivered self.old now isn.0 frame.now result self.new }
    {
        self.sound();
        self.layers.deliver(now, isn, frame)
    }

    /// The pair that delivering this frame would open if memory were there (RFC 9293 section 3.10.7.2); None where it would open none.
    pub fn would_open(&self, frame: &[u8]) -> Option<Pair>
        ensures { result ≡ foreseen self.now frame.now }
    {
        self.layers.would_open(frame)
    }

    /// Writes the frame that goes out first, at the later of `now` and the kept moment, from `out[0]` on, and answers its length,
    /// 60 to 1,514 octets: that of the first control reply for which one can, in the order in which they wait, else that of the first
    /// segment or datagram that the entries have due, in order of id from behind the one that sent last, and of those of a UDP socket in order of `sendto`, for which one can, but that
    /// a datagram of which a part has gone out is before the others of its socket (RFC 894, RFC 9293 section 3.8, RFC 768). Where the MAC of the next hop
    /// isn't known, the ARP request for it goes out in that place, once a second an address, and what it is for waits as it is
    /// (RFC 1122 sections 2.3.2.1 and 2.3.2.2). None only where nothing can go out now, and then nothing has changed.
    pub fn next_frame(&mut self, now: Moment, out: &mut [u8; FRAME_MAX]) -> Option<usize>
        ensures answer { result ≡ emission_len self.old now }
        ensures bounds { IfSome result (λ len. (60 ≤ len) × (len ≤ FRAME_MAX)) }
        ensures after { self.new ≡ after_emission self.old now }
        ensures frame { out.new ≡ emission_front self.old now out.old }
    {
        self.sound();
        self.layers.next_frame(now, out)
    }

    /// Moves the kept moment forward to `now`, and lets each timer act whose moment has come. It never goes back. A connection
    /// that its caller closed is gone once its wait is over. Control replies, resets of aborts and datagrams that have waited for 3,000 ms or
    /// more are dropped where the MAC of their next hop isn't known then; all else waits on. Neighbours that were not heard in the last 20
    /// minutes are forgotten (RFC 1122 section 2.3.2.1). Fragments whose first came 60 seconds ago or earlier are dropped, and their source is
    /// told so where the fragment zero came (section 3.3.2) and fewer control replies wait than may.
    pub fn tick(&mut self, now: Moment)
        ensures { self.new ≡ after_tick self.old now }
    {
        self.sound();
        self.layers.tick(now);
    }

    /// The least moment at which a tick does something, or a request may go out that something waits for: of the entries' timers, of the
    /// 60 seconds of the pool's fragments, of the 3,000 ms of the control replies, the resets of aborts and the datagrams whose next hop isn't
    /// known at the kept moment, and of the moments from which the request for a hop may go out again.
    pub fn next_deadline(&self) -> Option<Moment>
        ensures { result ≡ least_deadline self.now }
    {
        self.layers.next_deadline()
    }

    /// The entry with a connection of this pair in any state but CLOSED.
    pub fn holds(&self, pair: Pair) -> Option<SocketId>
        ensures { result ≡ holder_id self.now.sockets pair }
    {
        self.layers.sockets.holds(pair)
    }

    /// The pair of the connection of the socket `id`.
    pub fn pair_of(&self, id: SocketId) -> Option<Pair>
        ensures { result ≡ socket_pair self.now.sockets id }
    {
        self.layers.sockets.pair_of(id)
    }

    /// What every host keeps of itself, for the contracts above: events led to it, and so its table is in order, nothing of it is over, and each
    /// of its connections keeps its time. It changes nothing, and nothing of it is left in the program that LLVM makes.
    pub fn sound(&self)
        ensures sound { IsSoundHost self.now }
        ensures run { HasRun self.now }
        ensures octets { HasRunOnOctets self.now }
        ensures reached { IsReached self.now.sockets }
        ensures ordered { IsOrdered self.now.sockets }
        ensures over { NoneIsOver self.now.sockets }
        ensures keeps_time { EachKeepsTime self.now.sockets }
    {
        self.layers.sound();
    }
}
