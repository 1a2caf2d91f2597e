//! Many connections, sockets, hosts, frames, events and octets. A call may always be refused memory, and no contract says where it was: so these count past
//! each number at which a refusal could be meant, and all that is asked for is given.

use super::counted::fragment;
use super::losses::{Dialogue, Network};
use super::octets::ECHO;
use super::sizes::{LARGEST, LEAST, makes, station, takes};
use super::stations::Side::{A, B};
use super::stations::{
    Act, CLIENT, NEIGHBOURS, ONE, SERVER, Side, Station, THREE, TWO, config, first_unanswered,
};
use clock::Moment;
use ether::Mac;
use host::{Config, DropCause, Host, Kind, Lack, Recovery, Refusal, Sizes, SocketId};
use ipv4::{Addr, Endpoint};
use routes::Routes;
use std::alloc::{AllocError, Global};
use std::process::Abort;
use std::test::Fail;
use tcp_segment::Seq;
use wire_sim::{Answer, Call, Event, Unfair, World};

/// So many sockets are made and closed one after the other, with ids from this one on.
fn come_and_go(host: &mut Host, kind: Kind, first: u64, times: u64) -> bool {
    for count in 0..times {
        let id = SocketId(first.saturating_add(count));
        if host.socket(kind) != Ok(id) || host.close(id) != Ok(()) {
            return false;
        }
    }
    true
}

/// More than 16,384.
const SOCKETS: u64 = 17_000;

/// Fewer of these, which take more memory each: more than 64.
const DATAGRAM_SOCKETS: u64 = 100;

#[test]
fn sockets_come_and_go(rt: HostRuntime) {
    for guards in [false, true] {
        let config = sized(&rt, B, LEAST).with_guards(guards);
        let mut host = Host::new(rt.alloc(), config).expect(&rt, "memory for a host");
        assert!(rt; come_and_go(&mut host, Kind::Tcp, 1, SOCKETS));
        assert!(rt; come_and_go(&mut host, Kind::Udp, 17_001, DATAGRAM_SOCKETS));
    }
}

/// How a host of these sizes is set up.
fn sized(rt: &impl Abort, side: Side, sizes: Sizes) -> Config {
    config(rt, side)
        .with_sizes(sizes)
        .expect(rt, "sizes in their ranges")
}

/// As many entries as two sockets and a connection want.
const SMALL: Sizes = Sizes {
    entries: 3,
    ..LEAST
};

/// A large table with the smallest buffers.
const WIDE: Sizes = Sizes {
    entries: 1_101,
    ..LEAST
};

/// How many connections fill it, beside a listener. The client has a dynamic port for each.
const CONNECTIONS: u16 = 1_100;

/// The next socket of the client connects to the listener, which has been given so many ids before and so many connections, and the connection is accepted.
fn connects(a: &mut Station, b: &mut Station, before: u64, count: u16) -> bool {
    let id = SocketId(u64::from(count).saturating_add(1));
    let listener = SocketId(before.saturating_add(1));
    let accepted = SocketId(listener.0.saturating_add(id.0));
    let client = Endpoint {
        port: CLIENT.port.saturating_add(count),
        ..CLIENT
    };
    let steps = [
        (A, Act::Socket(id)),
        (A, Act::Connect(5, id, SERVER, Ok(()))),
        (A, Act::Pass(7)),
        (B, Act::Pass(7)),
        (A, Act::Pass(7)),
        (B, Act::Accept(listener, accepted, client)),
    ];
    first_unanswered(a, b, &steps).is_none()
}

/// One more finds no place.
fn one_more(a: &mut Station, b: &mut Station) -> bool {
    let id = SocketId(u64::from(CONNECTIONS).saturating_add(1));
    let steps = [
        (A, Act::Socket(id)),
        (A, Act::Connect(5, id, SERVER, Ok(()))),
        (A, Act::Emit(Some(60))),
        (A, Act::Arrive(7, Err(DropCause::NoRoom))),
    ];
    b.host.socket(Kind::Tcp) == Err(Refusal::EMFILE) && first_unanswered(a, b, &steps).is_none()
}

/// A listener takes as many connections as fill the table, once its host has made so many sockets.
fn fills_table(rt: &impl Abort, alloc: Global, guards: bool, before: u64) {
    let mut a = Station::new(rt, alloc, sized(rt, A, WIDE).with_scale(false));
    let mut b = Station::new(rt, alloc, sized(rt, B, WIDE).with_guards(guards));
    assert!(rt; first_unanswered(&mut a, &mut b, NEIGHBOURS).is_none());
    assert!(rt; come_and_go(&mut b.host, Kind::Tcp, 1, before));
    let listener = SocketId(before.saturating_add(1));
    assert!(rt; b.host.socket(Kind::Tcp) == Ok(listener));
    assert!(rt; b.host.bind(listener, SERVER) == Ok(()) && b.host.listen(listener, 1) == Ok(()));
    for count in 0..CONNECTIONS {
        assert!(rt; connects(&mut a, &mut b, before, count), "{count}");
    }
    assert!(rt; one_more(&mut a, &mut b));
}

#[test]
fn a_listener_takes_as_many_as_there_is_room_for(rt: HostRuntime) {
    fills_table(&rt, rt.alloc(), false, 0);
    fills_table(&rt, rt.alloc(), true, SOCKETS);
}

/// How many ways there are to set a host up, where each choice has two or three values.
const MANNERS: usize = 192;

/// The set-up with this number: each choice of one is met with each of the others.
fn in_manner(config: Config, number: usize) -> Config {
    let recovery = match number / 64 % 3 {
        0 => Recovery::Plain,
        1 => Recovery::NewReno,
        _ => Recovery::Selective,
    };
    config
        .with_guards(number % 2 == 1)
        .with_scale(number / 2 % 2 == 1)
        .with_minshall(number / 4 % 2 == 1)
        .with_least_timeout(if number / 8 % 2 == 1 { 200 } else { 1_000 })
        .with_first_segments(if number / 16 % 2 == 1 { 10 } else { 0 })
        .with_threshold(if number / 32 % 2 == 1 {
            1 << 30
        } else {
            65_535
        })
        .with_recovery(recovery)
}

/// Of two hosts one opens a connection to the second socket of the other, and octets go both ways.
fn talk(rt: &impl Abort, alloc: Global, first: Config, second: Config) -> bool {
    let mut a = Station::new(rt, alloc, first);
    let mut b = Station::new(rt, alloc, second);
    let steps = [
        (B, Act::DatagramSocket(ONE)),
        (B, Act::Socket(TWO)),
        (B, Act::Bind(TWO, SERVER, Ok(()))),
        (B, Act::Listen(TWO, 1)),
        (A, Act::Socket(ONE)),
        (A, Act::Connect(5, ONE, SERVER, Ok(()))),
        (A, Act::Pass(7)),
        (B, Act::Pass(7)),
        (A, Act::Pass(7)),
        (B, Act::Accept(TWO, THREE, CLIENT)),
        (A, Act::Send(ONE, b"hello", Ok(5))),
        (A, Act::Pass(7)),
        (B, Act::Reads(THREE, b"hello")),
        (B, Act::Send(THREE, b"world", Ok(5))),
        (B, Act::Pass(7)),
        (A, Act::Reads(ONE, b"world")),
    ];
    first_unanswered(&mut a, &mut b, NEIGHBOURS).is_none()
        && first_unanswered(&mut a, &mut b, &steps).is_none()
}

#[test]
fn hosts_of_each_manner_talk(rt: HostRuntime) {
    for number in 0..MANNERS {
        let (a, b) = (sized(&rt, A, SMALL), sized(&rt, B, SMALL));
        let a = in_manner(a, number);
        let b = in_manner(b, MANNERS.saturating_sub(number));
        assert!(rt; talk(&rt, rt.alloc(), a, b), "{number}");
    }
}

/// Sizes on both sides of the numbers that could be meant, the least and the largest of all among them.
const ENTRIES: [usize; 7] = [1, 2, 33, 65, 101, 1_025, 16_384];

const BUFFERS: [usize; 9] = [
    2_048, 2_049, 4_096, 16_384, 16_385, 65_535, 65_536, 65_537, 1_048_576,
];

const REASSEMBLY_OCTETS: [usize; 8] = [1_480, 1_481, 2_048, 16_384, 16_385, 32_768, 65_514, 65_515];

const NEIGHBOURHOODS: [usize; 6] = [8, 9, 65, 101, 1_025, 4_096];

#[test]
fn tables_of_each_size_are_filled(rt: HostRuntime) {
    for entries in ENTRIES {
        let sizes = Sizes { entries, ..LEAST };
        assert!(rt;
            makes(&mut station(&rt, rt.alloc(), sizes), entries),
            "{entries}"
        );
    }
}

#[test]
fn as_many_replies_wait_as_may(rt: HostRuntime) {
    for replies in 1..=LARGEST.replies {
        let mut host = station(&rt, rt.alloc(), Sizes { replies, ..LEAST });
        assert!(rt; takes(&mut host, ECHO, replies, Lack::Replies), "{replies}");
    }
}

/// So many datagrams begin, and no more.
fn begins(host: &mut Host, reassemblies: usize) -> bool {
    for identification in 0..reassemblies.min(100) as u8 {
        if host.deliver(Moment(0), Seq(7), &fragment(identification)) != Ok(()) {
            return false;
        }
    }
    takes(host, &fragment(100), 0, Lack::Reassembly)
}

#[test]
fn as_many_datagrams_begin_as_may(rt: HostRuntime) {
    for reassembly_octets in REASSEMBLY_OCTETS {
        let sizes = Sizes {
            reassemblies: 1,
            reassembly_octets,
            ..LEAST
        };
        let mut host = station(&rt, rt.alloc(), sizes);
        assert!(rt; begins(&mut host, 1), "{reassembly_octets}");
    }
    for reassemblies in 0..=LARGEST.reassemblies {
        let sizes = Sizes {
            reassemblies,
            ..LEAST
        };
        let mut host = station(&rt, rt.alloc(), sizes);
        assert!(rt; begins(&mut host, reassemblies), "{reassemblies}");
    }
}

/// Of addresses of these four forms: those are no host's whose first octet is 0, 127 or above 223 (RFC 1122 section 3.2.1.3).
const ADDRESSES: usize = 222 + 3 * 256;

/// Each octet of an address may have any value.
#[test]
fn hosts_have_any_address(rt: HostRuntime) {
    let mut count: usize = 0;
    for octet in 0..=255_u8 {
        for addr in [
            Addr([octet, 0, 0, 1]),
            Addr([10, octet, 0, 1]),
            Addr([10, 0, octet, 1]),
            Addr([10, 0, 0, octet]),
        ] {
            let mac = Mac([2, 0, 0, 0, octet, 1]);
            if let Ok(config) = Config::new(mac, addr, Routes::new()) {
                let config = config
                    .with_sizes(LEAST)
                    .expect(&rt, "sizes in their ranges");
                assert!(rt; Host::new(rt.alloc(), config).is_ok(), "{octet}");
                count = count.saturating_add(1);
            }
        }
    }
    assert!(rt; count == ADDRESSES, "{count}");
}

/// Two hosts of these sizes talk.
fn talk_at(rt: &impl Abort, alloc: Global, sizes: Sizes) -> bool {
    let (a, b) = (sized(rt, A, sizes), sized(rt, B, sizes));
    talk(rt, alloc, a, b)
}

#[test]
fn hosts_of_each_size_talk(rt: HostRuntime) {
    for buffer in BUFFERS {
        let sizes = Sizes { buffer, ..SMALL };
        assert!(rt; talk_at(&rt, rt.alloc(), sizes), "{buffer}");
    }
    for neighbours in NEIGHBOURHOODS {
        let sizes = Sizes {
            neighbours,
            ..SMALL
        };
        assert!(rt; talk_at(&rt, rt.alloc(), sizes), "{neighbours}");
    }
    assert!(rt; talk_at(&rt, rt.alloc(), LARGEST));
}

/// Turns go by in which frames go both ways, and b reads what has come: so many octets.
fn read_by_b(dialogue: &mut Dialogue, turns: usize) -> Result<usize, AllocError> {
    for _ in 0..turns {
        dialogue.turn()?;
    }
    let printed = dialogue.ask("b recv 2 1048576")?;
    Ok(printed.len().saturating_sub("octets ".len()))
}

/// As many octets as a connection of usual hosts holds go over it, and b reads them at last. A receiver need not tell of less room than a segment has octets
/// (RFC 9293 section 3.8.6.2.2), so that fewer may wait for its first reading.
#[test]
fn a_megabyte_is_read(rt: HostRuntime) -> Result<(), Fail> {
    let loses_none = Network { index: 0, times: 1 };
    let mut dialogue = Dialogue::new(rt.alloc(), 7, loses_none)?;
    dialogue.opens(&rt)?;
    for _ in 0..3 {
        dialogue.turn()?;
    }
    let given = [
        ("b accept 1", "id 2 10.0.0.1 49152"),
        ("a fill 1 1048576", "sent 1048576"),
    ];
    dialogue.goes(&rt, &given, 0)?;
    let first = read_by_b(&mut dialogue, 100)?;
    let others = read_by_b(&mut dialogue, 5)?;
    assert!(rt; first > 1_048_576 - 1_460, "{first}");
    assert!(rt;
        first.saturating_add(others) == 1_048_576,
        "{first} and {others}"
    );
    Ok(())
}

/// A world of the two hosts.
fn new_world(rt: &impl Abort, alloc: Global) -> World {
    let (a, b) = (config(rt, A), config(rt, B));
    World::new(alloc, a, b).expect(rt, "memory for a world")
}

/// More than 16,384.
const EVENTS: u64 = 17_000;

/// A clock is told one moment after the other, and that is all there is to it.
#[test]
fn a_run_has_many_events(rt: HostRuntime) -> Result<(), Fail> {
    let mut events = Vec::new(rt.alloc());
    for now in 0..EVENTS {
        events.push(Event::Tick(wire_sim::Side::A, Moment(now)))?;
    }
    let mut world = new_world(&rt, rt.alloc());
    let mut outcomes = Vec::new(rt.alloc());
    world.run(events.as_slice(), &mut outcomes)?;
    world.reserve(events.len())?;
    assert!(rt; outcomes.len() == events.len() && world.trace().len() == events.len());
    for outcome in outcomes.iter() {
        assert!(rt; *outcome == Ok(Answer::Done));
    }
    Ok(())
}

/// A call of the caller of a.
fn at_a(world: &mut World, call: Call) -> Result<Answer, Unfair> {
    world.step(Event::Call(wire_sim::Side::A, call))
}

/// The frame that is due at a side comes to the other.
fn passes(world: &mut World, from: wire_sim::Side) -> bool {
    match world.step(Event::Emit(from)) {
        Ok(Answer::Frame { index, .. }) => {
            let arrival = Event::Deliver(from.other(), index, Seq(7));
            world.step(arrival) == Ok(Answer::Taken)
        }
        _ => false,
    }
}

/// Where datagrams of a go.
const WAITING: Endpoint = Endpoint {
    port: 5_001,
    ..SERVER
};

/// a sends a datagram.
fn sends(alloc: Global, world: &mut World) -> Result<bool, AllocError> {
    let octets = Vec::from_slice(alloc, b"hello")?;
    let call = Call::SendTo {
        id: ONE,
        peer: WAITING,
        octets,
    };
    Ok(at_a(world, call) == Ok(Answer::Sent(5)))
}

/// b reads it.
fn reads(world: &mut World) -> bool {
    let call = Call::RecvFrom { id: ONE, len: 100 };
    match world.step(Event::Call(wire_sim::Side::B, call)) {
        Ok(Answer::Datagram { octets, .. }) => octets.as_slice() == b"hello".as_slice(),
        _ => false,
    }
}

/// More than 1,024.
const FRAMES: usize = 1_100;

/// A datagram after the other goes from a to b, which has told its MAC.
#[test]
fn many_frames_go_out_in_a_world(rt: HostRuntime) -> Result<(), Fail> {
    let alloc = rt.alloc();
    let mut world = new_world(&rt, alloc);
    for side in [wire_sim::Side::A, wire_sim::Side::B] {
        assert!(rt;
            world.step(Event::Call(side, Call::Socket(Kind::Udp))) == Ok(Answer::Socket(ONE))
        );
    }
    let bind = Call::Bind {
        id: ONE,
        local: WAITING,
    };
    assert!(rt; world.step(Event::Call(wire_sim::Side::B, bind)) == Ok(Answer::Done));
    assert!(rt; sends(alloc, &mut world)?);
    for from in [wire_sim::Side::A, wire_sim::Side::B, wire_sim::Side::A] {
        assert!(rt; passes(&mut world, from));
    }
    assert!(rt; reads(&mut world));
    for _ in 3..FRAMES {
        assert!(rt;
            sends(alloc, &mut world)? && passes(&mut world, wire_sim::Side::A) && reads(&mut world)
        );
    }
    assert!(rt; world.frame(FRAMES.saturating_sub(1)).is_some() && world.frame(FRAMES).is_none());
    Ok(())
}

/// Connections of a, one after the other, are begun and aborted.
#[test]
fn many_connections_open_in_a_world(rt: HostRuntime) {
    let mut world = new_world(&rt, rt.alloc());
    for id in 1..=1_100_u64 {
        let id = SocketId(id);
        let connect = Call::Connect {
            isn: Seq(5),
            id,
            peer: SERVER,
        };
        assert!(rt; at_a(&mut world, Call::Socket(Kind::Tcp)) == Ok(Answer::Socket(id)));
        assert!(rt; at_a(&mut world, connect) == Ok(Answer::Started));
        assert!(rt; at_a(&mut world, Call::Abort { id }) == Ok(Answer::Done));
    }
    assert!(rt; world.openings().len() == 1_100);
}

/// A frame that went out before so many octets were written is no longer taken.
#[test]
fn worlds_have_any_limit(rt: HostRuntime) {
    for limit in [1, 64, 65_535, 65_536, 1 << 20, 1 << 29, 1 << 30] {
        let (a, b) = (config(&rt, A), config(&rt, B));
        assert!(rt;
            World::with_limit(rt.alloc(), a, b, limit.max(1).min(1 << 30)).is_ok(),
            "{limit}"
        );
    }
}

/// So many octets are copied with an event that a run is given, and as many are read into, though there is no socket.
#[test]
fn a_run_has_many_octets(rt: HostRuntime) -> Result<(), Fail> {
    let len = LARGEST.buffer;
    let octets = vec![in rt.alloc(); 7; len]?;
    let send = Call::Send { id: ONE, octets };
    let mut events = Vec::new(rt.alloc());
    for call in [send, Call::Recv { id: ONE, len }] {
        events.push(Event::Call(wire_sim::Side::A, call))?;
    }
    let mut outcomes = Vec::new(rt.alloc());
    let mut world = new_world(&rt, rt.alloc());
    world.run(events.as_slice(), &mut outcomes)?;
    assert!(rt; outcomes.len() == 2);
    for outcome in outcomes.iter() {
        assert!(rt; *outcome == Ok(Answer::Refused(Refusal::EBADF)));
    }
    Ok(())
}
