//! What waits for the MAC of its next hop.

use super::calls::CONNECTED;
use super::octets::{
    ASKED_BACK, FAR_SYN, GATEWAY_ASKED, GATEWAY_REPLY, REFUSAL, REPLIED_BACK, REPLY, REQUEST, SYN,
    THIRD_ASKED, THIRD_IS_ASKED_FOR, THIRD_SYN,
};
use super::stations::Side::{A, B};
use super::stations::{
    Act, CLIENT, FAR, FRESH, LISTENING, NEIGHBOURS, ONE, PAIR, ROUTED, SERVER, Scenario, Step, TWO,
};
use clock::Moment;
use host::SocketState::Stream;
use host::{DropCause, Refusal, SocketId};
use ipv4::{Addr, Endpoint, Pair};
use tcp_state::State;

/// One request a second goes out. The SYN is as it was when an answer comes, and its own second begins then.
const SYN_WAITS: &[Step] = &[
    (A, Act::Connect(4_294_967_295, ONE, SERVER, Ok(()))),
    (A, Act::Deadline(Some(Moment(483_000)))),
    (A, Act::Emit(Some(60))),
    (A, Act::Emit(None)),
    (A, Act::Deadline(Some(Moment(1_000)))),
    (A, Act::Tick(999)),
    (A, Act::Emit(None)),
    (A, Act::Tick(1_000)),
    (A, Act::Sends(REQUEST)),
    (A, Act::Tick(60_000)),
    (A, Act::State(ONE, Ok(Stream(State::SynSent)))),
    (A, Act::Hear(0, REPLY, Ok(()))),
    (A, Act::Sends(SYN)),
    (A, Act::Emit(None)),
    (A, Act::Deadline(Some(Moment(61_000)))),
];

/// A SYN for which no hop answers is given up in the time of one that goes out thirteen times in vain: 1, 2, 4, 8, 16 and 32 seconds, and seven
/// times a minute (RFC 1122 section 4.2.3.5). Its caller is told.
const SYN_IS_GIVEN_UP: &[Step] = &[
    (A, Act::Connect(5, ONE, SERVER, Ok(()))),
    (A, Act::Sends(REQUEST)),
    (A, Act::Deadline(Some(Moment(1_000)))),
    (A, Act::Tick(482_999)),
    (A, Act::Sends(REQUEST)),
    (A, Act::Deadline(Some(Moment(483_000)))),
    (A, Act::State(ONE, Ok(Stream(State::SynSent)))),
    (A, Act::Tick(483_000)),
    (A, Act::State(ONE, Ok(Stream(State::Closed)))),
    (A, Act::Recv(ONE, Err(Refusal::ETIMEDOUT))),
    (A, Act::Deadline(None)),
    (A, Act::Emit(None)),
    (A, Act::Hear(0, REPLY, Ok(()))),
    (A, Act::Emit(None)),
];

/// A host that was never ticked connects where its clock stands at a thousand seconds. The tick right after gives nothing up: the SYN waits for
/// its hop from then on, for as long as any, and goes out.
const CONNECTS_LATE: &[Step] = &[
    (
        A,
        Act::ConnectAt(1_000_000, 4_294_967_295, ONE, SERVER, Ok(())),
    ),
    (A, Act::Deadline(Some(Moment(1_483_000)))),
    (A, Act::Tick(1_000_000)),
    (A, Act::State(ONE, Ok(Stream(State::SynSent)))),
    (A, Act::Info(ONE, Ok((None, 0)))),
    (A, Act::Sends(REQUEST)),
    (A, Act::Hear(0, REPLY, Ok(()))),
    (A, Act::Sends(SYN)),
    (A, Act::Deadline(Some(Moment(1_001_000)))),
];

/// A tick that came before counts from its own moment, where that is later.
const CONNECTS_EARLY: &[Step] = &[
    (A, Act::Tick(1_000_000)),
    (A, Act::ConnectAt(1, 5, ONE, SERVER, Ok(()))),
    (A, Act::Deadline(Some(Moment(1_483_000)))),
    (A, Act::State(ONE, Ok(Stream(State::SynSent)))),
];

/// Eight SYNs from a host that answers no request leave a listener no place for three seconds.
const FLOOD: &[Step] = &[
    (B, Act::Socket(ONE)),
    (B, Act::Bind(ONE, SERVER, Ok(()))),
    (B, Act::Listen(ONE, 8)),
    (B, Act::Hear(0, REPLIED_BACK, Ok(()))),
    (B, Act::Hear(0, THIRD_SYN, Ok(()))),
    (
        B,
        Act::HearChanged(THIRD_SYN, &[(35, 1), (51, 0xcc)], Ok(())),
    ),
    (
        B,
        Act::HearChanged(THIRD_SYN, &[(35, 2), (51, 0xcb)], Ok(())),
    ),
    (
        B,
        Act::HearChanged(THIRD_SYN, &[(35, 3), (51, 0xca)], Ok(())),
    ),
    (
        B,
        Act::HearChanged(THIRD_SYN, &[(35, 4), (51, 0xc9)], Ok(())),
    ),
    (
        B,
        Act::HearChanged(THIRD_SYN, &[(35, 5), (51, 0xc8)], Ok(())),
    ),
    (
        B,
        Act::HearChanged(THIRD_SYN, &[(35, 6), (51, 0xc7)], Ok(())),
    ),
    (
        B,
        Act::HearChanged(THIRD_SYN, &[(35, 7), (51, 0xc6)], Ok(())),
    ),
    (B, Act::Hear(0, SYN, Err(DropCause::NoRoom))),
    (B, Act::Sends(THIRD_ASKED)),
    (B, Act::Emit(None)),
    (B, Act::Deadline(Some(Moment(1_000)))),
    (B, Act::Tick(2_999)),
    (B, Act::Deadline(Some(Moment(3_000)))),
    (B, Act::Hear(0, SYN, Err(DropCause::NoRoom))),
];

/// When they are over, a host that answers gets in.
const FLOOD_IS_OVER: &[Step] = &[
    (B, Act::Tick(3_000)),
    (B, Act::Holder(THIRD, None)),
    (B, Act::Deadline(None)),
    (B, Act::Emit(None)),
    (B, Act::Hear(0, SYN, Ok(()))),
    (B, Act::Holder(PAIR, Some(SocketId(10)))),
    (B, Act::Emit(Some(60))),
];

/// A's caller closes after more than twenty minutes in which nothing came from B. B answers no request: A keeps the pair for 483 seconds.
const FIN_IS_GIVEN_UP: &[Step] = &[
    (A, Act::Tick(1_300_000)),
    (A, Act::Close(ONE)),
    (A, Act::Deadline(Some(Moment(1_783_000)))),
    (A, Act::Sends(REQUEST)),
    (A, Act::Deadline(Some(Moment(1_301_000)))),
    (A, Act::Tick(1_782_999)),
    (A, Act::Holder(PAIR, Some(ONE))),
    (A, Act::Deadline(Some(Moment(1_783_000)))),
    (A, Act::Tick(1_783_000)),
    (A, Act::Holder(PAIR, None)),
    (A, Act::Deadline(None)),
    (A, Act::Emit(None)),
];

/// What is for a host that isn't on the link goes to the gateway, whose MAC is asked for.
const BY_THE_GATEWAY: &[Step] = &[
    (A, Act::Socket(ONE)),
    (A, Act::Connect(5, ONE, FAR, Ok(()))),
    (A, Act::Sends(GATEWAY_ASKED)),
    (A, Act::Hear(0, GATEWAY_REPLY, Ok(()))),
    (A, Act::Sends(FAR_SYN)),
];

/// Without a route nothing is begun, and no port is given.
const NO_ROUTE: &[Step] = &[
    (A, Act::Socket(ONE)),
    (A, Act::Connect(5, ONE, FAR, Err(Refusal::ENETUNREACH))),
    (A, Act::State(ONE, Ok(Stream(State::Closed)))),
    (A, Act::Connect(5, ONE, SERVER, Ok(()))),
    (A, Act::Pair(ONE, Some(PAIR))),
];

/// B's reset has no way to A, for which B asks once a second.
const RESET_WAITS: &[Step] = &[
    (B, Act::Hear(0, SYN, Ok(()))),
    (B, Act::Deadline(Some(Moment(3_000)))),
    (B, Act::Sends(ASKED_BACK)),
    (B, Act::Emit(None)),
    (B, Act::Deadline(Some(Moment(1_000)))),
];

/// It is there before three seconds are over, and goes out once the answer comes.
const RESET_GOES: &[Step] = &[
    (B, Act::Tick(2_999)),
    (B, Act::Deadline(Some(Moment(3_000)))),
    (B, Act::Hear(0, REPLIED_BACK, Ok(()))),
    (B, Act::Deadline(None)),
    (B, Act::Sends(REFUSAL)),
    (B, Act::Emit(None)),
];

/// When they are over it is dropped.
const RESET_IS_DROPPED: &[Step] = &[
    (B, Act::Tick(3_000)),
    (B, Act::Deadline(None)),
    (B, Act::Emit(None)),
    (B, Act::Hear(0, REPLIED_BACK, Ok(()))),
    (B, Act::Emit(None)),
];

/// A reset for a third host waits, and holds that for A back in nothing.
const PASSED_OVER: &[Step] = &[
    (B, Act::Hear(0, THIRD_SYN, Ok(()))),
    (B, Act::Hear(0, SYN, Ok(()))),
    (B, Act::Sends(THIRD_ASKED)),
    (B, Act::Sends(REFUSAL)),
    (B, Act::Emit(None)),
];

/// A third host, and B's connection with it.
const THIRD: Pair = Pair {
    first: SERVER,
    second: Endpoint {
        addr: Addr([10, 0, 0, 3]),
        port: 1024,
    },
};

/// A connection may be with any host.
const THIRD_HOST: &[Step] = &[
    (B, Act::Hear(7, THIRD_SYN, Ok(()))),
    (B, Act::Holder(THIRD, Some(TWO))),
    (B, Act::Sends(THIRD_ASKED)),
];

/// Sixteen resets wait for A's MAC.
const SIXTEEN_WAIT: &[Step] = &[(B, Act::Hear(0, SYN, Ok(()))); 16];

/// A's request finds no place for a reply, and B learns from it all the same. A packet for another host needs no place.
const LEARNT_WITHOUT_ROOM: &[Step] = &[
    (B, Act::Hear(0, THIRD_IS_ASKED_FOR, Ok(()))),
    (B, Act::Hear(0, REQUEST, Err(DropCause::NoRoom))),
    (B, Act::Sends(REFUSAL)),
    (B, Act::Hear(0, REQUEST, Ok(()))),
];

/// A host is no peer of its own, whatever its routes lead to.
const SELF: &[Step] = &[
    (A, Act::Socket(ONE)),
    (A, Act::Connect(5, ONE, CLIENT, Err(Refusal::EADDRNOTAVAIL))),
];

pub(super) const SCENARIOS: &[Scenario] = &[
    Scenario {
        name: "a SYN waits for its hop",
        hosts: FRESH,
        parts: &[LISTENING, SYN_WAITS],
    },
    Scenario {
        name: "a SYN waits for its hop for 483 seconds at most",
        hosts: FRESH,
        parts: &[LISTENING, SYN_IS_GIVEN_UP],
    },
    Scenario {
        name: "a connection opens at its own moment",
        hosts: FRESH,
        parts: &[LISTENING, CONNECTS_LATE],
    },
    Scenario {
        name: "a connection opens no earlier than the last tick",
        hosts: FRESH,
        parts: &[LISTENING, CONNECTS_EARLY],
    },
    Scenario {
        name: "silent hosts leave a listener no place for three seconds",
        hosts: FRESH,
        parts: &[FLOOD, FLOOD_IS_OVER],
    },
    Scenario {
        name: "a FIN waits for its hop for 483 seconds at most",
        hosts: FRESH,
        parts: &[LISTENING, CONNECTED, FIN_IS_GIVEN_UP],
    },
    Scenario {
        name: "a gateway is the hop",
        hosts: ROUTED,
        parts: &[BY_THE_GATEWAY],
    },
    Scenario {
        name: "without a route nothing is begun",
        hosts: FRESH,
        parts: &[NO_ROUTE],
    },
    Scenario {
        name: "a host doesn't speak to itself",
        hosts: ROUTED,
        parts: &[SELF],
    },
    Scenario {
        name: "a reset waits",
        hosts: FRESH,
        parts: &[RESET_WAITS, RESET_GOES],
    },
    Scenario {
        name: "a reset waits for three seconds at most",
        hosts: FRESH,
        parts: &[RESET_WAITS, RESET_IS_DROPPED],
    },
    Scenario {
        name: "what waits is passed over",
        hosts: FRESH,
        parts: &[NEIGHBOURS, PASSED_OVER],
    },
    Scenario {
        name: "a third host connects",
        hosts: FRESH,
        parts: &[LISTENING, THIRD_HOST],
    },
    Scenario {
        name: "a packet is learnt where a reply has no room",
        hosts: FRESH,
        parts: &[SIXTEEN_WAIT, LEARNT_WITHOUT_ROOM],
    },
];
