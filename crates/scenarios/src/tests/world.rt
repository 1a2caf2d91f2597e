//! A run of a world beside its steps. Whole scripts are run by the tests of `transcripts`.

use super::stations::{self, ONE, SERVER, TWO, config};
use ether::Mac;
use host::{Config, Kind, SocketId};
use ipv4::{Addr, Endpoint};
use routes::Routes;
use std::alloc::{AllocError, Global};
use std::process::Abort;
use std::test::Fail;
use tcp_segment::Seq;
use wire_sim::Side::{A, B};
use wire_sim::{Answer, Call, Event, Side, Unfair, World, WorldFault};

/// What is done at a side.
#[derive(Clone, Copy)]
enum Act {
    /// Its caller makes a socket.
    Socket,
    /// Its caller binds a socket.
    Bind(SocketId, Endpoint),
    /// Its caller lets a socket take connections, of which one may wait.
    Listen(SocketId),
    /// Its caller takes a connection that waits at a socket.
    Accept(SocketId),
    /// Its caller opens a connection with this initial number to a peer.
    Connect(u32, SocketId, Endpoint),
    /// Its caller writes octets.
    Send(SocketId, &'static [u8]),
    /// Its caller reads so many octets at most.
    Recv(SocketId, usize),
    /// Its frame that is due goes out.
    Emit,
    /// The frame with this index reaches it, with the initial number of what it may open.
    Deliver(usize, u32),
}

/// A frame comes that nobody sent; then b listens at port 80, a connects, learns b's MAC, the three segments of the handshake are
/// exchanged, and b reads what a writes.
const ACTS: &[(Side, Act)] = &[
    (A, Act::Deliver(0, 0)),
    (B, Act::Socket),
    (B, Act::Bind(ONE, SERVER)),
    (B, Act::Listen(ONE)),
    (A, Act::Socket),
    (A, Act::Connect(4_294_967_295, ONE, SERVER)),
    (A, Act::Emit),
    (A, Act::Emit),
    (B, Act::Deliver(0, 7)),
    (B, Act::Emit),
    (B, Act::Emit),
    (A, Act::Deliver(1, 7)),
    (A, Act::Emit),
    (A, Act::Emit),
    (B, Act::Deliver(2, 7)),
    (B, Act::Emit),
    (A, Act::Deliver(3, 7)),
    (A, Act::Emit),
    (B, Act::Deliver(4, 7)),
    (B, Act::Accept(ONE)),
    (A, Act::Send(ONE, b"hello")),
    (A, Act::Emit),
    (B, Act::Deliver(5, 0)),
    (B, Act::Recv(TWO, 100)),
];

/// The event that an act is.
fn event(alloc: Global, side: Side, act: Act) -> Result<Event, AllocError> {
    let call = match act {
        Act::Socket => Call::Socket(Kind::Tcp),
        Act::Bind(id, local) => Call::Bind { id, local },
        Act::Listen(id) => Call::Listen { id, backlog: 1 },
        Act::Accept(id) => Call::Accept { id },
        Act::Connect(isn, id, peer) => Call::Connect {
            isn: Seq(isn),
            id,
            peer,
        },
        Act::Send(id, octets) => Call::Send {
            id,
            octets: Vec::from_slice(alloc, octets)?,
        },
        Act::Recv(id, len) => Call::Recv { id, len },
        Act::Emit => return Ok(Event::Emit(side)),
        Act::Deliver(index, isn) => return Ok(Event::Deliver(side, index, Seq(isn))),
    };
    Ok(Event::Call(side, call))
}

/// Adds the events of the table.
fn add_events(alloc: Global, events: &mut Vec<Event>) -> Result<(), AllocError> {
    for (side, act) in ACTS {
        events.push(event(alloc, *side, *act)?)?;
    }
    Ok(())
}

/// Gives each event of the table in turn to the world, whose outcome is to be the one beside it.
fn steps(
    rt: &impl Abort,
    alloc: Global,
    world: &mut World,
    outcomes: &[Result<Answer, Unfair>],
) -> Result<(), AllocError> {
    assert_eq!(rt; outcomes.len(), ACTS.len());
    for (index, ((side, act), outcome)) in ACTS.iter().zip(outcomes.iter()).enumerate() {
        let event = event(alloc, *side, *act)?;
        assert!(rt; world.step(event) == *outcome, "event {index}");
    }
    Ok(())
}

/// No frame of that index was there, and in the end five octets are read.
fn first_and_last(rt: &impl Abort, outcomes: &[Result<Answer, Unfair>]) {
    match outcomes {
        [Err(Unfair::NoSuchFrame), .., Ok(Answer::Octets(octets))] => {
            assert!(rt;
                octets.as_slice() == b"hello".as_slice(),
                "other octets are read"
            );
        }
        _ => panic!(rt; "the first or the last outcome is another"),
    }
}

/// A run in one world, in which room is made first, is what its steps are in another.
fn compare(
    rt: &impl Abort,
    alloc: Global,
    together: &mut World,
    single: &mut World,
) -> Result<(), Fail> {
    let mut events = Vec::new(alloc);
    add_events(alloc, &mut events)?;
    let mut outcomes = Vec::new(alloc);
    together.reserve(events.len())?;
    together.run(events.as_slice(), &mut outcomes)?;
    first_and_last(rt, outcomes.as_slice());
    steps(rt, alloc, single, outcomes.as_slice())?;
    assert!(rt; together.trace() == single.trace());
    assert!(rt; together.openings() == single.openings());
    Ok(())
}

#[test]
fn run_is_step_by_step(rt: HostRuntime) -> Result<(), Fail> {
    let alloc = rt.alloc();
    let (a, b) = (
        config(&rt, stations::Side::A),
        config(&rt, stations::Side::B),
    );
    let mut together = World::with_limit(alloc, a, b, 1 << 30).expect(&rt, "memory for a world");
    let (a, b) = (
        config(&rt, stations::Side::A),
        config(&rt, stations::Side::B),
    );
    let mut single = World::new(alloc, a, b).expect(&rt, "memory for a world");
    compare(&rt, alloc, &mut together, &mut single)
}

/// Two hosts with one MAC or one address are no world.
const ALIKE: [(Mac, Addr); 2] = [
    (Mac([2, 0, 0, 0, 0, 1]), Addr([10, 0, 0, 2])),
    (Mac([2, 0, 0, 0, 0, 2]), Addr([10, 0, 0, 1])),
];

#[test]
fn hosts_differ(rt: HostRuntime) -> Result<(), Fail> {
    for (mac, addr) in ALIKE {
        let b = Config::new(mac, addr, Routes::new())?;
        let world = World::new(rt.alloc(), config(&rt, stations::Side::A), b);
        assert!(rt; matches!(world, Err(WorldFault::SameAddress)));
    }
    Ok(())
}
