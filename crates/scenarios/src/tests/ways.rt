//! What gives way on a host on its guard, where what a SYN opens finds no room, and to a SYN past what is in TIME-WAIT (RFC 9293 section 3.6.1, RFC 1122
//! section 4.2.2.13); and to a fragment that finds no place.

use super::datagrams::{SENDING, WAITS};
use super::octets::{FRAGMENT_A, FRAGMENT_B};
use super::stations::Side::{A, B};
use super::stations::{
    Act, CLIENT, FRESH, GUARDED, LISTENING, NEIGHBOURS, ONE, SERVER, Scenario, Step, THREE, TWO,
};
use clock::Moment;
use host::{DropCause, Refusal};
use ipv4::{Addr, Endpoint};

/// The second of A's ends: its dynamic ports are given in turn.
const SECOND_CLIENT: Endpoint = Endpoint {
    addr: Addr([10, 0, 0, 1]),
    port: 49_153,
};

/// A's SYN takes the one place at B's listener, and the SYN-ACK is lost. A gives up, and begins anew from another port.
const HALF_OPEN: &[Step] = &[
    (A, Act::Connect(100, ONE, SERVER, Ok(()))),
    (A, Act::Pass(300)),
    (B, Act::Emit(Some(60))),
    (A, Act::Abort(ONE, Ok(()))),
    (A, Act::Socket(TWO)),
    (A, Act::Connect(200, TWO, SERVER, Ok(()))),
    (A, Act::Emit(Some(60))),
];

/// Before a second has passed nothing gives way to it.
const TOO_SOON: &[Step] = &[
    (B, Act::Tick(999)),
    (A, Act::WayTo(None)),
    (A, Act::Arrive(300, Err(DropCause::NoRoom))),
];

/// Then the first does.
const IN_TIME: &[Step] = &[
    (B, Act::Tick(1_000)),
    (A, Act::WayTo(Some(TWO))),
    (A, Act::Arrive(300, Ok(()))),
    (B, Act::Pass(0)),
    (A, Act::Pass(0)),
    (B, Act::Accept(ONE, THREE, SECOND_CLIENT)),
];

/// Without guards nothing does.
const NEVER: &[Step] = &[
    (B, Act::Tick(1_000)),
    (A, Act::WayTo(None)),
    (A, Act::Arrive(300, Err(DropCause::NoRoom))),
];

/// B closes first, and A has gone.
const LEFT: &[Step] = &[
    (A, Act::Connect(100, ONE, SERVER, Ok(()))),
    (A, Act::Pass(300)),
    (B, Act::Pass(0)),
    (A, Act::Pass(0)),
    (B, Act::Accept(ONE, TWO, CLIENT)),
    (B, Act::Close(TWO)),
    (B, Act::Pass(0)),
    (A, Act::Pass(0)),
    (A, Act::Close(ONE)),
    (A, Act::Pass(0)),
    (B, Act::Pass(0)),
];

/// A begins anew from the same port with a number that B heard, and then with the first that it didn't: its SYN had 100, its FIN 101.
const ANEW: &[Step] = &[
    (A, Act::Socket(TWO)),
    (A, Act::Bind(TWO, CLIENT, Ok(()))),
    (A, Act::Connect(101, TWO, SERVER, Ok(()))),
    (A, Act::Emit(Some(60))),
    (A, Act::WayTo(None)),
    (A, Act::Abort(TWO, Ok(()))),
    (A, Act::Socket(THREE)),
    (A, Act::Bind(THREE, CLIENT, Ok(()))),
    (A, Act::Connect(102, THREE, SERVER, Ok(()))),
    (A, Act::Emit(Some(60))),
    (A, Act::WayTo(Some(TWO))),
    (A, Act::Arrive(400, Ok(()))),
    (B, Act::Pass(0)),
    (A, Act::Pass(0)),
    (B, Act::Accept(ONE, THREE, CLIENT)),
];

/// Of five datagrams, whose identifications are 7 to 11, a millisecond apart, the first gives way to the fifth.
const FIVE_BEGIN: &[Step] = &[
    (B, Act::Hear(0, FRAGMENT_A, Ok(()))),
    (B, Act::Tick(1)),
    (
        B,
        Act::HearChanged(FRAGMENT_A, &[(19, 8), (25, 0xbf)], Ok(())),
    ),
    (B, Act::Tick(2)),
    (
        B,
        Act::HearChanged(FRAGMENT_A, &[(19, 9), (25, 0xbe)], Ok(())),
    ),
    (B, Act::Tick(3)),
    (
        B,
        Act::HearChanged(FRAGMENT_A, &[(19, 10), (25, 0xbd)], Ok(())),
    ),
    (B, Act::Deadline(Some(Moment(60_000)))),
    (B, Act::Tick(4)),
    (
        B,
        Act::HearChanged(FRAGMENT_A, &[(19, 11), (25, 0xbc)], Ok(())),
    ),
    (B, Act::Deadline(Some(Moment(60_001)))),
];

/// Its other half begins it anew, in the place of the second. That of the third makes it whole.
const OLDEST_GONE: &[Step] = &[
    (B, Act::Hear(0, FRAGMENT_B, Ok(()))),
    (B, Act::Deadline(Some(Moment(60_002)))),
    (B, Act::RecvFrom(ONE, b"", Err(Refusal::EAGAIN))),
    (
        B,
        Act::HearChanged(FRAGMENT_B, &[(19, 9), (25, 0xbd)], Ok(())),
    ),
    (B, Act::RecvFrom(ONE, b"BBBBBBBBCCCCCCCC", Ok(SENDING))),
    (B, Act::Deadline(Some(Moment(60_003)))),
];

const WHOLE: &[Step] = &[
    (B, Act::Hear(0, FRAGMENT_A, Ok(()))),
    (B, Act::Hear(0, FRAGMENT_B, Ok(()))),
    (B, Act::RecvFrom(ONE, b"BBBBBBBBCCCCCCCC", Ok(SENDING))),
    (B, Act::Deadline(None)),
];

/// A copy begins nothing until a second has passed.
const LATE_COPIES: &[Step] = &[
    (B, Act::Hear(0, FRAGMENT_B, Ok(()))),
    (B, Act::Deadline(None)),
    (B, Act::Tick(999)),
    (B, Act::Hear(0, FRAGMENT_A, Ok(()))),
    (B, Act::Deadline(None)),
    (B, Act::Tick(1_000)),
    (B, Act::Hear(0, FRAGMENT_B, Ok(()))),
    (B, Act::Deadline(Some(Moment(61_000)))),
];

/// Without guards one that comes at once does.
const LATE_COPY_TAKEN: &[Step] = &[
    (B, Act::Hear(0, FRAGMENT_B, Ok(()))),
    (B, Act::Deadline(Some(Moment(60_000)))),
];

pub(super) const SCENARIOS: &[Scenario] = &[
    Scenario {
        name: "a half-open connection gives way after a second on guard",
        hosts: GUARDED,
        parts: &[NEIGHBOURS, LISTENING, HALF_OPEN, TOO_SOON, IN_TIME],
    },
    Scenario {
        name: "without guards it keeps its place",
        hosts: FRESH,
        parts: &[NEIGHBOURS, LISTENING, HALF_OPEN, TOO_SOON, NEVER],
    },
    Scenario {
        name: "what is in TIME-WAIT gives way to a SYN past it on guard",
        hosts: GUARDED,
        parts: &[NEIGHBOURS, LISTENING, LEFT, ANEW],
    },
    Scenario {
        name: "the oldest datagram gives way to a fragment on guard",
        hosts: GUARDED,
        parts: &[NEIGHBOURS, WAITS, FIVE_BEGIN, OLDEST_GONE],
    },
    Scenario {
        name: "late copies begin none on guard",
        hosts: GUARDED,
        parts: &[NEIGHBOURS, WAITS, WHOLE, LATE_COPIES],
    },
    Scenario {
        name: "without guards they do",
        hosts: FRESH,
        parts: &[NEIGHBOURS, WAITS, WHOLE, LATE_COPY_TAKEN],
    },
];
