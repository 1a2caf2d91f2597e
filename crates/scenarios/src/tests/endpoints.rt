//! Where sockets are, and their peers.

use super::stations::Side::{A, B};
use super::stations::{Act, CLIENT, FRESH, LISTENING, ONE, SERVER, Scenario, Step, THREE, TWO};
use host::Refusal;
use ipv4::{Addr, Endpoint};
use tcp_state::Refusal as Told;

/// Where a socket is that is not bound.
const NOWHERE: Endpoint = Endpoint {
    addr: Addr([0, 0, 0, 0]),
    port: 0,
};

/// A's address, whatever port is free.
const ANY_PORT: Endpoint = Endpoint { port: 0, ..CLIENT };

/// The second port that A's sockets are given.
const SECOND: Endpoint = Endpoint {
    port: 49_153,
    ..CLIENT
};

/// The third one, at every address of A.
const THIRD: Endpoint = Endpoint {
    port: 49_154,
    ..NOWHERE
};

/// A UDP port of B.
const WAITING: Endpoint = Endpoint {
    port: 5_001,
    ..SERVER
};

/// What is asked of a socket that was made and not bound.
const UNBOUND: &[Step] = &[
    (A, Act::SockName(ONE, Ok(NOWHERE))),
    (A, Act::PeerName(ONE, Err(Refusal::ENOTCONN))),
    (A, Act::SockName(TWO, Err(Refusal::EBADF))),
    (A, Act::PeerName(TWO, Err(Refusal::EBADF))),
];

const STREAM: &[Step] = &[(A, Act::Socket(ONE))];

const DATAGRAMS: &[Step] = &[(A, Act::DatagramSocket(ONE))];

/// It is bound to port 0, and so is another one of the other kind; a third one is bound at every address.
const BOUND: &[Step] = &[
    (A, Act::Bind(ONE, ANY_PORT, Ok(()))),
    (A, Act::SockName(ONE, Ok(CLIENT))),
    (A, Act::PeerName(ONE, Err(Refusal::ENOTCONN))),
];

const ALSO_BOUND: &[Step] = &[
    (A, Act::Bind(TWO, ANY_PORT, Ok(()))),
    (A, Act::SockName(TWO, Ok(SECOND))),
    (A, Act::Socket(THREE)),
    (A, Act::Bind(THREE, NOWHERE, Ok(()))),
    (A, Act::SockName(THREE, Ok(THIRD))),
    (A, Act::SockName(ONE, Ok(CLIENT))),
    (A, Act::Close(ONE)),
    (A, Act::SockName(ONE, Err(Refusal::EBADF))),
    (A, Act::PeerName(ONE, Err(Refusal::EBADF))),
];

const ANOTHER_STREAM: &[Step] = &[(A, Act::Socket(TWO))];

const MORE_DATAGRAMS: &[Step] = &[(A, Act::DatagramSocket(TWO))];

/// A datagram is sent from a port that is given then, and has no lasting peer.
const SENT: &[Step] = &[
    (A, Act::SendTo(ONE, WAITING, b"hi", Ok(2))),
    (A, Act::SockName(ONE, Ok(CLIENT))),
    (A, Act::PeerName(ONE, Err(Refusal::ENOTCONN))),
];

/// A calls, and its call is under way. The connection that it opens at B has no socket yet.
const CALLED: &[Step] = &[
    (B, Act::SockName(ONE, Ok(SERVER))),
    (B, Act::PeerName(ONE, Err(Refusal::ENOTCONN))),
    (A, Act::Connect(5, ONE, SERVER, Ok(()))),
    (A, Act::SockName(ONE, Ok(CLIENT))),
    (A, Act::PeerName(ONE, Ok(SERVER))),
    (A, Act::Pass(0)),
    (B, Act::Pass(0)),
    (A, Act::Pass(7)),
    (B, Act::SockName(TWO, Err(Refusal::EBADF))),
    (B, Act::PeerName(TWO, Err(Refusal::EBADF))),
];

/// Each end of the connection is the other's peer, and the listener has none.
const ACCEPTED: &[Step] = &[
    (B, Act::Pass(0)),
    (A, Act::Pass(0)),
    (B, Act::Accept(ONE, TWO, CLIENT)),
    (A, Act::SockName(ONE, Ok(CLIENT))),
    (A, Act::PeerName(ONE, Ok(SERVER))),
    (B, Act::SockName(TWO, Ok(SERVER))),
    (B, Act::PeerName(TWO, Ok(CLIENT))),
    (B, Act::SockName(ONE, Ok(SERVER))),
    (B, Act::PeerName(ONE, Err(Refusal::ENOTCONN))),
];

/// B's caller leaves A's octets unread, so that A's connection is reset. It is CLOSED, and its ends are as they were.
const RESET: &[Step] = &[
    (A, Act::Send(ONE, b"hello", Ok(5))),
    (A, Act::Pass(0)),
    (B, Act::Close(TWO)),
    (B, Act::PeerName(TWO, Err(Refusal::EBADF))),
    (B, Act::Pass(0)),
    (A, Act::Recv(ONE, Err(Refusal::ECONNRESET))),
    (A, Act::SockName(ONE, Ok(CLIENT))),
    (A, Act::PeerName(ONE, Ok(SERVER))),
];

/// What is told of sockets without a connection, and of one that opens.
const NOTHING_TOLD: &[Step] = &[
    (A, Act::Info(TWO, Err(Refusal::EBADF))),
    (A, Act::Info(ONE, Err(Refusal::ENOTCONN))),
    (A, Act::DatagramSocket(TWO)),
    (A, Act::Info(TWO, Err(Refusal::EOPNOTSUPP))),
    (B, Act::Info(ONE, Err(Refusal::EOPNOTSUPP))),
];

/// .. and of one with octets that its caller hasn't read, and of one that is over.
const TOLD: &[Step] = &[
    (A, Act::Info(ONE, Ok((None, 0)))),
    (A, Act::Send(ONE, b"hello", Ok(5))),
    (A, Act::Pass(0)),
    (B, Act::Info(TWO, Ok((None, 5)))),
    (B, Act::Close(TWO)),
    (B, Act::Info(TWO, Err(Refusal::EBADF))),
    (B, Act::Pass(0)),
    (A, Act::Info(ONE, Ok((Some(Told::ECONNRESET), 0)))),
];

pub(super) const SCENARIOS: &[Scenario] = &[
    Scenario {
        name: "TCP sockets are where they are bound",
        hosts: FRESH,
        parts: &[STREAM, UNBOUND, BOUND, MORE_DATAGRAMS, ALSO_BOUND],
    },
    Scenario {
        name: "UDP sockets are where they are bound",
        hosts: FRESH,
        parts: &[DATAGRAMS, UNBOUND, BOUND, ANOTHER_STREAM, ALSO_BOUND],
    },
    Scenario {
        name: "datagrams give a socket a port and no peer",
        hosts: FRESH,
        parts: &[DATAGRAMS, SENT],
    },
    Scenario {
        name: "connections have two ends",
        hosts: FRESH,
        parts: &[LISTENING, CALLED, ACCEPTED, RESET],
    },
    Scenario {
        name: "what is told of connections",
        hosts: FRESH,
        parts: &[LISTENING, NOTHING_TOLD, CALLED, ACCEPTED, TOLD],
    },
];
