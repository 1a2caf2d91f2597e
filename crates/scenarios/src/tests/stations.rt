//! Two hosts on a link, what is done at each, and what that is to answer.

use super::octets::{REPLIED_BACK, REPLY};
use super::{
    calls, datagrams, drops, endpoints, fragments, gateways, guards, hops, messages, queues, scale,
    segments, ways,
};
use clock::Moment;
use ether::Mac;
use host::{Config, DropCause, Host, Kind, Refusal, SocketId, SocketState};
use ipv4::{Addr, Endpoint, Pair, Prefix};
use routes::{Hop, Routes};
use std::alloc::Global;
use std::process::Abort;
use tcp_segment::Seq;
use tcp_state::{Received, Refusal as Told};

const A: Addr = Addr([10, 0, 0, 1]);

const B: Addr = Addr([10, 0, 0, 2]);

const MAC_OF_A: Mac = Mac([2, 0, 0, 0, 0, 1]);

const MAC_OF_B: Mac = Mac([2, 0, 0, 0, 0, 2]);

/// What leads off the link.
const GATEWAY: Addr = Addr([10, 0, 0, 254]);

/// What leads to much of 10.0.0.0/8.
const NEIGHBOURING: Addr = Addr([10, 0, 0, 9]);

/// The first port that A's sockets are given.
pub(super) const CLIENT: Endpoint = Endpoint {
    addr: A,
    port: 49_152,
};

/// The port of B that calls are for.
pub(super) const SERVER: Endpoint = Endpoint { addr: B, port: 80 };

/// A port of a host behind the gateway.
pub(super) const FAR: Endpoint = Endpoint {
    addr: Addr([192, 0, 2, 9]),
    port: 80,
};

/// A connection between the two.
pub(super) const PAIR: Pair = Pair {
    first: CLIENT,
    second: SERVER,
};

pub(super) const ONE: SocketId = SocketId(1);

pub(super) const TWO: SocketId = SocketId(2);

pub(super) const THREE: SocketId = SocketId(3);

/// One of the two hosts.
#[derive(Clone, Copy)]
pub(super) enum Side {
    /// The host at 10.0.0.1.
    A,
    /// The host at 10.0.0.2.
    B,
}

/// Octets of a frame that are others, by place.
pub(super) type Changes = &'static [(usize, u8)];

/// What is done at a host, or asked of it, and the answer. All is done at moment 0, but for a tick and `ConnectAt`, and moments are in milliseconds.
#[derive(Clone, Copy)]
pub(super) enum Act {
    /// Makes a TCP socket, with this id.
    Socket(SocketId),
    /// Makes a UDP socket, with this id.
    DatagramSocket(SocketId),
    /// Binds a socket.
    Bind(SocketId, Endpoint, Result<(), Refusal>),
    /// Lets a socket take connections, of which so many may wait.
    Listen(SocketId, usize),
    /// Takes the connection that waits at a socket: its id, and its peer.
    Accept(SocketId, SocketId, Endpoint),
    /// Opens a connection with this initial number to a peer.
    Connect(u32, SocketId, Endpoint, Result<(), Refusal>),
    /// The same, at this moment.
    ConnectAt(u64, u32, SocketId, Endpoint, Result<(), Refusal>),
    /// Writes octets: how many are taken.
    Send(SocketId, &'static [u8], Result<usize, Refusal>),
    /// Writes octets until no more are taken: so many are.
    Fill(SocketId, usize),
    /// Reads four octets at most.
    Recv(SocketId, Result<Received, Refusal>),
    /// Reads 64 octets at most: these.
    Reads(SocketId, &'static [u8]),
    /// Sends octets to an endpoint as a datagram: how many are taken.
    SendTo(SocketId, Endpoint, &'static [u8], Result<usize, Refusal>),
    /// Reads 16 octets at most of a datagram: these, which came from this endpoint.
    RecvFrom(SocketId, &'static [u8], Result<Endpoint, Refusal>),
    /// Closes a socket.
    Close(SocketId),
    /// Aborts a socket, which is refused or not.
    Abort(SocketId, Result<(), Refusal>),
    /// The state of a socket.
    State(SocketId, Result<SocketState, Refusal>),
    /// The error and the octets that can be read, as what is told of a socket's connection has them.
    Info(SocketId, Result<(Option<Told>, usize), Refusal>),
    /// The local end of a socket.
    SockName(SocketId, Result<Endpoint, Refusal>),
    /// The peer of a socket's connection.
    PeerName(SocketId, Result<Endpoint, Refusal>),
    /// The pair of a socket's connection.
    Pair(SocketId, Option<Pair>),
    /// The entry that holds a pair.
    Holder(Pair, Option<SocketId>),
    /// The clock comes to this moment.
    Tick(u64),
    /// The frame that is due goes out: how many octets it has.
    Emit(Option<usize>),
    /// The frame that is due goes out, with these octets.
    Sends(&'static [u8]),
    /// On its way the last bit of this octet of the frame that went out last is turned.
    Damage(usize),
    /// The frame that went out last reaches the other host, with the initial number of what it may open.
    Arrive(u32, Result<(), DropCause>),
    /// The other host makes way for what the frame that went out last opens there: this connection gives way.
    WayTo(Option<SocketId>),
    /// The frame that is due goes out, and reaches the other host.
    Pass(u32),
    /// These octets reach the host, with the initial number of what they may open.
    Hear(u32, &'static [u8], Result<(), DropCause>),
    /// The same, with some octets in the place of others.
    HearChanged(&'static [u8], Changes, Result<(), DropCause>),
    /// When a tick would do something, or what waits could go out.
    Deadline(Option<Moment>),
}

/// Any buffer is full before so many kibibytes are written.
const MOST_WRITES: usize = 2_048;

/// What is done at a host.
pub(super) type Step = (Side, Act);

/// Where a host's routes lead.
type Ways = &'static [(Addr, u8, Hop)];

/// How the hosts are set up: the ways of A and of B, whether each uses the window scale option, whether small segments wait for small ones only, and whether
/// they are on their guard.
#[derive(Clone, Copy)]
pub(super) struct Hosts {
    ways: (Ways, Ways),
    scales: (bool, bool),
    minshall: bool,
    guards: bool,
}

/// To the link alone, 10.0.0.0/24.
const LINK: Ways = &[(Addr([10, 0, 0, 0]), 24, Hop::Direct)];

/// No other host is known beside those on the link, and neither uses an option.
pub(super) const FRESH: Hosts = Hosts {
    ways: (LINK, LINK),
    scales: (false, false),
    minshall: false,
    guards: false,
};

/// Small segments wait for small ones only.
pub(super) const PASSING: Hosts = Hosts {
    minshall: true,
    ..FRESH
};

/// Both are on their guard.
pub(super) const GUARDED: Hosts = Hosts {
    guards: true,
    ..FRESH
};

/// Both use window scale.
pub(super) const SCALED: Hosts = Hosts {
    scales: (true, true),
    ..FRESH
};

/// One of the two does.
pub(super) const SCALED_AT_A: Hosts = Hosts {
    scales: (true, false),
    ..FRESH
};

pub(super) const SCALED_AT_B: Hosts = Hosts {
    scales: (false, true),
    ..FRESH
};

/// A knows a gateway for all that isn't on its link.
pub(super) const ROUTED: Hosts = Hosts {
    ways: (
        &[
            (Addr([10, 0, 0, 0]), 24, Hop::Direct),
            (Addr([0, 0, 0, 0]), 0, Hop::Gateway(GATEWAY)),
        ],
        LINK,
    ),
    ..FRESH
};

/// One gateway leads B to 10.0.0.0/8, but for 10.1.0.0/16, which is on the link.
pub(super) const NEAR_GATEWAY: Hosts = Hosts {
    ways: (
        LINK,
        &[
            (Addr([10, 0, 0, 0]), 8, Hop::Gateway(NEIGHBOURING)),
            (Addr([10, 1, 0, 0]), 16, Hop::Direct),
        ],
    ),
    ..FRESH
};

/// The same on guard.
pub(super) const GUARDED_GATEWAY: Hosts = Hosts {
    guards: true,
    ..NEAR_GATEWAY
};

/// Another gateway leads to all else.
pub(super) const GATEWAYS: Hosts = Hosts {
    ways: (
        LINK,
        &[
            (Addr([10, 0, 0, 0]), 8, Hop::Gateway(NEIGHBOURING)),
            (Addr([10, 1, 0, 0]), 16, Hop::Direct),
            (Addr([0, 0, 0, 0]), 0, Hop::Gateway(A)),
        ],
    ),
    ..FRESH
};

/// Two hosts with no sockets that heard nothing, how they are set up, and what is done at them, part after part.
pub(super) struct Scenario {
    pub(super) name: &'static str,
    pub(super) hosts: Hosts,
    pub(super) parts: &'static [&'static [Step]],
}

/// One host, and the frame that went out last.
#[derive(Drop)]
pub(super) struct Station {
    pub(super) host: Host,
    frame: [u8; 1514],
    len: usize,
}

impl Station {
    /// A host with no sockets.
    pub(super) fn new(rt: &impl Abort, alloc: Global, config: Config) -> Station {
        Station {
            host: Host::new(alloc, config).expect(rt, "memory for a host"),
            frame: [0; 1514],
            len: 0,
        }
    }

    /// The frame that is due goes out: how many octets it has.
    pub(super) fn emit(&mut self) -> Option<usize> {
        let len = self.host.next_frame(Moment(0), &mut self.frame)?;
        self.len = len;
        Some(len)
    }

    /// The frame that went out last.
    pub(super) fn sent(&self) -> &[u8] {
        match self.frame.split_at_checked(self.len) {
            Some((frame, _)) => frame,
            None => &[],
        }
    }

    /// The last bit of an octet of the frame is turned.
    fn damage(&mut self, place: usize) -> bool {
        match self.frame.get_mut(place) {
            Some(octet) => {
                *octet ^= 1;
                true
            }
            None => false,
        }
    }

    /// Octets reach the host.
    pub(super) fn hear(&mut self, isn: u32, octets: &[u8]) -> Result<(), DropCause> {
        self.host.deliver(Moment(0), Seq(isn), octets)
    }

    /// Octets reach the host, some of them others.
    fn hear_changed(&mut self, octets: &[u8], changes: Changes) -> Result<(), DropCause> {
        let mut frame = [0; 1_515];
        for (octet, old) in frame.iter_mut().zip(octets.iter()) {
            *octet = *old;
        }
        for (place, new) in changes {
            if let Some(octet) = frame.get_mut(*place) {
                *octet = *new;
            }
        }
        self.hear(0, &frame[..octets.len().min(1_515)])
    }

    /// Makes a socket, with this id.
    fn makes(&mut self, kind: Kind, id: SocketId) -> bool {
        self.host.socket(kind) == Ok(id)
    }

    fn binds(&mut self, id: SocketId, local: Endpoint, want: Result<(), Refusal>) -> bool {
        self.host.bind(id, local) == want
    }

    fn listens(&mut self, id: SocketId, backlog: usize) -> bool {
        self.host.listen(id, backlog) == Ok(())
    }

    fn accepts(&mut self, id: SocketId, accepted: SocketId, peer: Endpoint) -> bool {
        self.host.accept(id) == Ok((accepted, peer))
    }

    fn connects(
        &mut self,
        now: u64,
        isn: u32,
        id: SocketId,
        peer: Endpoint,
        want: Result<(), Refusal>,
    ) -> bool {
        self.host.connect(Moment(now), Seq(isn), id, peer) == want
    }

    fn sends(&mut self, id: SocketId, octets: &[u8], want: Result<usize, Refusal>) -> bool {
        self.host.send(id, octets) == want
    }

    /// Writes octets until no more are taken: so many are.
    fn fills(&mut self, id: SocketId, want: usize) -> bool {
        let mut count: usize = 0;
        for _ in 0..MOST_WRITES {
            match self.host.send(id, &[0; 1_024]) {
                Ok(taken) => count = count.saturating_add(taken),
                Err(refusal) => return refusal == Refusal::EAGAIN && count == want,
            }
        }
        false
    }

    fn reads(&mut self, id: SocketId, want: Result<Received, Refusal>) -> bool {
        self.host.recv(id, &mut [0; 4]) == want
    }

    fn reads_octets(&mut self, id: SocketId, octets: &[u8]) -> bool {
        let mut buffer = [0; 64];
        match self.host.recv(id, &mut buffer) {
            Ok(Received::Octets(count)) => &buffer[..count.min(64)] == octets,
            _ => false,
        }
    }

    /// Sends octets to an endpoint as a datagram.
    fn sends_to(
        &mut self,
        id: SocketId,
        peer: Endpoint,
        octets: &[u8],
        want: Result<usize, Refusal>,
    ) -> bool {
        self.host.sendto(id, peer, octets) == want
    }

    /// Reads a datagram, which is to have these octets and to come from there, if it isn't refused so.
    fn receives(&mut self, id: SocketId, octets: &[u8], want: Result<Endpoint, Refusal>) -> bool {
        let mut buffer = [0; 16];
        match self.host.recvfrom(id, &mut buffer) {
            Ok((count, from)) => want == Ok(from) && &buffer[..count.min(16)] == octets,
            Err(refusal) => want == Err(refusal),
        }
    }

    fn closes(&mut self, id: SocketId) -> bool {
        self.host.close(id) == Ok(())
    }

    fn aborts(&mut self, id: SocketId, want: Result<(), Refusal>) -> bool {
        self.host.abort(id) == want
    }

    fn has_state(&self, id: SocketId, want: Result<SocketState, Refusal>) -> bool {
        self.host.state(id) == want
    }

    fn has_info(&self, id: SocketId, want: Result<(Option<Told>, usize), Refusal>) -> bool {
        self.host.info(id).map(|info| (info.error, info.readable)) == want
    }

    fn has_name(&self, id: SocketId, want: Result<Endpoint, Refusal>) -> bool {
        self.host.sockname(id) == want
    }

    fn has_peer(&self, id: SocketId, want: Result<Endpoint, Refusal>) -> bool {
        self.host.peername(id) == want
    }

    fn has_pair(&self, id: SocketId, want: Option<Pair>) -> bool {
        self.host.pair_of(id) == want
    }

    fn is_held(&self, pair: Pair, want: Option<SocketId>) -> bool {
        self.host.holds(pair) == want
    }

    fn ticks(&mut self, now: u64) -> bool {
        self.host.tick(Moment(now));
        true
    }

    pub(super) fn waits_until(&self, want: Option<Moment>) -> bool {
        self.host.next_deadline() == want
    }

    pub(super) fn emits(&mut self, want: Option<usize>) -> bool {
        self.emit() == want
    }

    /// The frame that is due goes out, with these octets.
    pub(super) fn emits_frame(&mut self, octets: &[u8]) -> bool {
        self.emit().is_some() && self.sent() == octets
    }

    fn hears(&mut self, isn: u32, octets: &[u8], want: Result<(), DropCause>) -> bool {
        self.hear(isn, octets) == want
    }

    fn hears_changed(
        &mut self,
        octets: &[u8],
        changes: Changes,
        want: Result<(), DropCause>,
    ) -> bool {
        self.hear_changed(octets, changes) == want
    }

    /// Way is made for a frame: this gives way, and the pair that it opens then is the one that would be opened.
    fn makes_way(&mut self, octets: &[u8], want: Option<SocketId>) -> bool {
        let found = self.host.way_for(octets);
        let opens = self.host.would_open_by_way(octets);
        if let Some(id) = found {
            self.host.give_way(id);
        }
        found == want && self.host.would_open(octets) == opens
    }

    /// The frame that is due goes out, and reaches the other host.
    fn passes(&mut self, other: &mut Station, isn: u32) -> bool {
        self.emit().is_some() && other.hears(isn, self.sent(), Ok(()))
    }
}

/// How the host at 10.0.0.1 or that at 10.0.0.2 is set up, with these ways.
fn routed(rt: &impl Abort, side: Side, ways: Ways) -> Config {
    let (mac, addr) = match side {
        Side::A => (MAC_OF_A, A),
        Side::B => (MAC_OF_B, B),
    };
    let mut routes = Routes::new();
    for (network, bits, hop) in ways {
        let prefix = Prefix::new(*network, *bits).expect(rt, "a prefix");
        routes.add(prefix, *hop).expect(rt, "a new route");
    }
    Config::new(mac, addr, routes).expect(rt, "a host's MAC and address")
}

/// How it is set up where its link is all that it knows.
pub(super) fn config(rt: &impl Abort, side: Side) -> Config {
    routed(rt, side, LINK)
}

/// Does what is done at `station`, and tells whether it is answered so.
pub(super) fn is_answered(station: &mut Station, other: &mut Station, act: Act) -> bool {
    match act {
        Act::Socket(id) => station.makes(Kind::Tcp, id),
        Act::DatagramSocket(id) => station.makes(Kind::Udp, id),
        Act::Bind(id, local, want) => station.binds(id, local, want),
        Act::Listen(id, backlog) => station.listens(id, backlog),
        Act::Accept(id, accepted, peer) => station.accepts(id, accepted, peer),
        Act::Connect(isn, id, peer, want) => station.connects(0, isn, id, peer, want),
        Act::ConnectAt(now, isn, id, peer, want) => station.connects(now, isn, id, peer, want),
        Act::Send(id, octets, want) => station.sends(id, octets, want),
        Act::Fill(id, want) => station.fills(id, want),
        Act::Recv(id, want) => station.reads(id, want),
        Act::Reads(id, octets) => station.reads_octets(id, octets),
        Act::SendTo(id, peer, octets, want) => station.sends_to(id, peer, octets, want),
        Act::RecvFrom(id, octets, want) => station.receives(id, octets, want),
        Act::Close(id) => station.closes(id),
        Act::Abort(id, want) => station.aborts(id, want),
        Act::State(id, want) => station.has_state(id, want),
        Act::Info(id, want) => station.has_info(id, want),
        Act::SockName(id, want) => station.has_name(id, want),
        Act::PeerName(id, want) => station.has_peer(id, want),
        Act::Pair(id, want) => station.has_pair(id, want),
        Act::Holder(pair, want) => station.is_held(pair, want),
        Act::Tick(now) => station.ticks(now),
        Act::Emit(want) => station.emits(want),
        Act::Sends(octets) => station.emits_frame(octets),
        Act::Damage(place) => station.damage(place),
        Act::Arrive(isn, want) => other.hears(isn, station.sent(), want),
        Act::WayTo(want) => other.makes_way(station.sent(), want),
        Act::Pass(isn) => station.passes(other, isn),
        Act::Hear(isn, octets, want) => station.hears(isn, octets, want),
        Act::HearChanged(octets, changes, want) => station.hears_changed(octets, changes, want),
        Act::Deadline(want) => station.waits_until(want),
    }
}

/// Each hears of the other's MAC.
pub(super) const NEIGHBOURS: &[Step] = &[
    (Side::A, Act::Hear(0, REPLY, Ok(()))),
    (Side::B, Act::Hear(0, REPLIED_BACK, Ok(()))),
];

/// B listens, and A has a socket.
pub(super) const LISTENING: &[Step] = &[
    (Side::B, Act::Socket(ONE)),
    (Side::B, Act::Bind(ONE, SERVER, Ok(()))),
    (Side::B, Act::Listen(ONE, 1)),
    (Side::A, Act::Socket(ONE)),
];

/// Plays a scenario with two hosts of its own.
fn plays(rt: &impl Abort, alloc: Global, scenario: &Scenario) {
    let Hosts { ways, scales, .. } = scenario.hosts;
    let mut a = set_up(rt, alloc, routed(rt, Side::A, ways.0), scales.0, scenario);
    let mut b = set_up(rt, alloc, routed(rt, Side::B, ways.1), scales.1, scenario);
    for (part, steps) in scenario.parts.iter().enumerate() {
        if let Some(step) = first_unanswered(&mut a, &mut b, steps) {
            panic!(rt; "{}: part {part}, step {step}", scenario.name);
        }
    }
}

/// One of the hosts of a scenario, with these ways, that uses the window scale option or doesn't.
fn set_up(
    rt: &impl Abort,
    alloc: Global,
    config: Config,
    scales: bool,
    scenario: &Scenario,
) -> Station {
    let Hosts {
        minshall,
        guards,
        ..
    } = scenario.hosts;
    let config = config
        .with_scale(scales)
        .with_minshall(minshall)
        .with_guards(guards);
    Station::new(rt, alloc, config)
}

/// Does the steps in turn, up to the first that isn't answered as it should be: which that is.
pub(super) fn first_unanswered(a: &mut Station, b: &mut Station, steps: &[Step]) -> Option<usize> {
    for (step, (side, act)) in steps.iter().enumerate() {
        let is_answered = match side {
            Side::A => is_answered(a, b, *act),
            Side::B => is_answered(b, a, *act),
        };
        if !is_answered {
            return Some(step);
        }
    }
    None
}

/// Plays scenarios, each with two hosts of its own.
fn play_all(rt: &impl Abort, alloc: Global, scenarios: &[Scenario]) {
    for scenario in scenarios {
        plays(rt, alloc, scenario);
    }
}

/// Scenarios of TCP sockets, of datagrams and fragments, and of what waits for a hop or is told by a message.
const OF_CONNECTIONS: [&[Scenario]; 4] = [
    calls::SCENARIOS,
    endpoints::SCENARIOS,
    scale::SCENARIOS,
    segments::SCENARIOS,
];

const OF_DATAGRAMS: [&[Scenario]; 2] = [datagrams::SCENARIOS, drops::SCENARIOS];

const OF_FRAGMENTS: [&[Scenario]; 1] = [fragments::SCENARIOS];

const OF_HOPS: [&[Scenario]; 3] = [gateways::SCENARIOS, hops::SCENARIOS, queues::SCENARIOS];

const OF_MESSAGES: [&[Scenario]; 1] = [messages::SCENARIOS];

const OF_GUARDS: [&[Scenario]; 1] = [guards::SCENARIOS];

const OF_WAYS: [&[Scenario]; 1] = [ways::SCENARIOS];

#[test]
fn hosts_answer_as_they_should(rt: HostRuntime) {
    for scenarios in &OF_CONNECTIONS {
        play_all(&rt, rt.alloc(), scenarios);
    }
    for scenarios in &OF_DATAGRAMS {
        play_all(&rt, rt.alloc(), scenarios);
    }
    for scenarios in &OF_FRAGMENTS {
        play_all(&rt, rt.alloc(), scenarios);
    }
    for scenarios in &OF_HOPS {
        play_all(&rt, rt.alloc(), scenarios);
    }
    for scenarios in &OF_MESSAGES {
        play_all(&rt, rt.alloc(), scenarios);
    }
    for scenarios in &OF_GUARDS {
        play_all(&rt, rt.alloc(), scenarios);
    }
    for scenarios in &OF_WAYS {
        play_all(&rt, rt.alloc(), scenarios);
    }
}
