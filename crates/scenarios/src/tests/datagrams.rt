//! Datagrams that fit a frame (RFC 768): how they go out, for whom they come, and what is told where nobody waits for them.

use super::octets::{
    ECHO, FAR_HI, FIRST_SENT, HI, HI_WITHOUT_SUM, NO_PORT, REPLIED_BACK, REPLY, REQUEST,
    SECOND_SENT, SUM_OF_ZERO,
};
use super::stations::Side::{A, B};
use super::stations::{Act, CLIENT, FAR, FRESH, NEIGHBOURS, ONE, SERVER, Scenario, Step, TWO};
use clock::Moment;
use host::SocketState::{Datagram, Stream};
use host::{DropCause, Refusal};
use ipv4::{Addr, Endpoint};
use tcp_state::State;

/// The port of B at which datagrams are waited for.
pub(super) const WAITING: Endpoint = Endpoint {
    addr: Addr([10, 0, 0, 2]),
    port: 5_001,
};

/// The port of A that they come from.
pub(super) const SENDING: Endpoint = Endpoint {
    addr: Addr([10, 0, 0, 1]),
    port: 5_000,
};

/// All of the link.
const BROADCAST: Endpoint = Endpoint {
    addr: Addr([255, 255, 255, 255]),
    port: 80,
};

/// B waits for datagrams.
pub(super) const WAITS: &[Step] = &[
    (B, Act::DatagramSocket(ONE)),
    (B, Act::Bind(ONE, WAITING, Ok(()))),
    (B, Act::State(ONE, Ok(Datagram))),
];

/// Each datagram has an identification of its own, and each reaches the socket.
const SENT: &[Step] = &[
    (A, Act::DatagramSocket(ONE)),
    (A, Act::SendTo(ONE, WAITING, b"hi", Ok(2))),
    (A, Act::SendTo(ONE, WAITING, b"hi", Ok(2))),
    (A, Act::Sends(FIRST_SENT)),
    (A, Act::Arrive(0, Ok(()))),
    (A, Act::Sends(SECOND_SENT)),
    (A, Act::Arrive(0, Ok(()))),
    (A, Act::Emit(None)),
    (A, Act::Deadline(None)),
    (B, Act::RecvFrom(ONE, b"hi", Ok(CLIENT))),
    (B, Act::RecvFrom(ONE, b"hi", Ok(CLIENT))),
    (B, Act::RecvFrom(ONE, b"hi", Err(Refusal::EAGAIN))),
];

/// What comes without a checksum is as good as what comes with one.
const HEARD: &[Step] = &[
    (B, Act::Hear(0, HI, Ok(()))),
    (B, Act::Hear(0, HI_WITHOUT_SUM, Ok(()))),
    (B, Act::RecvFrom(ONE, b"hi", Ok(SENDING))),
    (B, Act::RecvFrom(ONE, b"hi", Ok(SENDING))),
    (B, Act::Emit(None)),
];

/// A sum of 0 would say that there is none.
const ZERO_SUM: &[Step] = &[
    (A, Act::DatagramSocket(ONE)),
    (A, Act::Bind(ONE, SENDING, Ok(()))),
    (A, Act::SendTo(ONE, WAITING, b"\xc4\xc6", Ok(2))),
    (A, Act::Sends(SUM_OF_ZERO)),
    (A, Act::Arrive(0, Ok(()))),
    (B, Act::RecvFrom(ONE, b"\xc4\xc6", Ok(SENDING))),
];

/// A TCP socket is bound to the port, which is of no use to a datagram.
const NOBODY: &[Step] = &[
    (B, Act::Socket(ONE)),
    (B, Act::Bind(ONE, WAITING, Ok(()))),
    (B, Act::Hear(0, HI, Ok(()))),
    (B, Act::Deadline(None)),
    (B, Act::Sends(NO_PORT)),
    (B, Act::Emit(None)),
    (B, Act::State(ONE, Ok(Stream(State::Closed)))),
];

/// Where no route leads back nobody is told.
const NO_WAY_BACK: &[Step] = &[
    (B, Act::Hear(0, FAR_HI, Ok(()))),
    (B, Act::Deadline(None)),
    (B, Act::Emit(None)),
];

const SIXTEEN_ASK: &[Step] = &[(B, Act::Hear(0, ECHO, Ok(()))); 16];

/// Sixteen replies wait. Nobody can be told any more that nobody waits, and who waits is given the datagram.
const NO_REPLY_HAS_ROOM: &[Step] = &[
    (B, Act::Hear(0, HI, Err(DropCause::NoRoom))),
    (B, Act::DatagramSocket(ONE)),
    (B, Act::Bind(ONE, WAITING, Ok(()))),
    (B, Act::Hear(0, HI, Ok(()))),
    (B, Act::RecvFrom(ONE, b"hi", Ok(SENDING))),
];

/// A datagram is for a unicast address that isn't ours, and to which a route leads. What is refused binds nothing.
const REFUSED: &[Step] = &[
    (A, Act::DatagramSocket(ONE)),
    (
        A,
        Act::SendTo(ONE, CLIENT, b"x", Err(Refusal::EADDRNOTAVAIL)),
    ),
    (
        A,
        Act::SendTo(ONE, BROADCAST, b"x", Err(Refusal::EADDRNOTAVAIL)),
    ),
    (A, Act::SendTo(ONE, FAR, b"x", Err(Refusal::ENETUNREACH))),
    (A, Act::Emit(None)),
    (A, Act::DatagramSocket(TWO)),
    (A, Act::SendTo(TWO, SERVER, b"x", Ok(1))),
    (A, Act::Bind(ONE, CLIENT, Err(Refusal::EADDRINUSE))),
    (A, Act::Bind(ONE, SENDING, Ok(()))),
];

/// A datagram waits for its hop, and so does a request that may go out again.
const HOP_IS_UNKNOWN: &[Step] = &[
    (A, Act::DatagramSocket(ONE)),
    (A, Act::SendTo(ONE, WAITING, b"hi", Ok(2))),
    (A, Act::Deadline(Some(Moment(3_000)))),
    (A, Act::Sends(REQUEST)),
    (A, Act::Emit(None)),
    (A, Act::Deadline(Some(Moment(1_000)))),
];

const GOES: &[Step] = &[
    (A, Act::Tick(2_999)),
    (A, Act::Deadline(Some(Moment(3_000)))),
    (A, Act::Hear(0, REPLY, Ok(()))),
    (A, Act::Deadline(None)),
    (A, Act::Sends(FIRST_SENT)),
    (A, Act::Emit(None)),
];

const IS_DROPPED: &[Step] = &[
    (A, Act::Tick(3_000)),
    (A, Act::Deadline(None)),
    (A, Act::Hear(0, REPLY, Ok(()))),
    (A, Act::Emit(None)),
];

/// The ports, the length and the checksum of a datagram are others. What isn't well is dropped whether anyone waits for it or
/// not, and what is for another port is told.
const FOR_THEIR_PORT: &[Step] = &[
    (B, Act::HearChanged(HI, &[], Ok(()))),
    (B, Act::RecvFrom(ONE, b"hi", Ok(SENDING))),
    (B, Act::HearChanged(HI, &[(40, 0), (41, 0)], Ok(()))),
    (B, Act::RecvFrom(ONE, b"hi", Ok(SENDING))),
    (
        B,
        Act::HearChanged(HI, &[(41, 0x5c)], Err(DropCause::UpperSum)),
    ),
    (
        B,
        Act::HearChanged(HI, &[(39, 11)], Err(DropCause::UpperHeader)),
    ),
    (
        B,
        Act::HearChanged(HI, &[(37, 0x8a)], Err(DropCause::UpperSum)),
    ),
    (B, Act::Emit(None)),
    (B, Act::HearChanged(HI, &[(37, 0x8a), (41, 0x5c)], Ok(()))),
    (B, Act::Emit(Some(70))),
    (B, Act::RecvFrom(ONE, b"hi", Err(Refusal::EAGAIN))),
];

pub(super) const SCENARIOS: &[Scenario] = &[
    Scenario {
        name: "datagrams are numbered",
        hosts: FRESH,
        parts: &[NEIGHBOURS, WAITS, SENT],
    },
    Scenario {
        name: "a checksum may be missing",
        hosts: FRESH,
        parts: &[NEIGHBOURS, WAITS, HEARD],
    },
    Scenario {
        name: "a sum of 0 is sent as ffff",
        hosts: FRESH,
        parts: &[NEIGHBOURS, WAITS, ZERO_SUM],
    },
    Scenario {
        name: "nobody waits",
        hosts: FRESH,
        parts: &[NEIGHBOURS, NOBODY],
    },
    Scenario {
        name: "nobody waits and no way leads back",
        hosts: FRESH,
        parts: &[NEIGHBOURS, NO_WAY_BACK],
    },
    Scenario {
        name: "an error needs room",
        hosts: FRESH,
        parts: &[NEIGHBOURS, SIXTEEN_ASK, NO_REPLY_HAS_ROOM],
    },
    Scenario {
        name: "peers are other hosts",
        hosts: FRESH,
        parts: &[REFUSED],
    },
    Scenario {
        name: "a datagram waits",
        hosts: FRESH,
        parts: &[HOP_IS_UNKNOWN, GOES],
    },
    Scenario {
        name: "a datagram waits for three seconds at most",
        hosts: FRESH,
        parts: &[HOP_IS_UNKNOWN, IS_DROPPED],
    },
    Scenario {
        name: "datagrams are for their port",
        hosts: FRESH,
        parts: &[NEIGHBOURS, WAITS, FOR_THEIR_PORT],
    },
];
