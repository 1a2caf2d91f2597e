//! Datagrams that come in fragments (RFC 791 section 3.2): four at a time, for a minute each (RFC 1122 section 3.3.2).

use super::datagrams::{SENDING, WAITS};
use super::octets::{ECHO, FRAGMENT_A, FRAGMENT_B, HI, NO_PORT_OF_A, REPLIED_BACK, TIME_EXCEEDED};
use super::stations::Side::B;
use super::stations::{Act, FRESH, NEIGHBOURS, ONE, Scenario, Step};
use clock::Moment;
use host::{DropCause, Refusal};

/// Where two fragments cover an octet, that of the later one stands.
const A_THEN_B: &[Step] = &[
    (B, Act::Hear(0, FRAGMENT_A, Ok(()))),
    (B, Act::Deadline(Some(Moment(60_000)))),
    (B, Act::Hear(0, FRAGMENT_B, Ok(()))),
    (B, Act::Deadline(None)),
    (B, Act::RecvFrom(ONE, b"BBBBBBBBCCCCCCCC", Ok(SENDING))),
    (B, Act::Emit(None)),
];

const B_THEN_A: &[Step] = &[
    (B, Act::Hear(0, FRAGMENT_B, Ok(()))),
    (B, Act::RecvFrom(ONE, b"", Err(Refusal::EAGAIN))),
    (B, Act::Hear(0, FRAGMENT_A, Ok(()))),
    (B, Act::Deadline(None)),
    (B, Act::RecvFrom(ONE, b"AAAAAAAACCCCCCCC", Ok(SENDING))),
    (B, Act::Emit(None)),
];

/// Nobody waits for what they make, and the error quotes the first.
const NOBODY: &[Step] = &[
    (B, Act::Hear(0, FRAGMENT_B, Ok(()))),
    (B, Act::Emit(None)),
    (B, Act::Hear(0, FRAGMENT_A, Ok(()))),
    (B, Act::Sends(NO_PORT_OF_A)),
    (B, Act::Emit(None)),
    (B, Act::Deadline(None)),
];

/// The time runs from the fragment that came first.
const TIME_IS_OVER: &[Step] = &[
    (B, Act::Hear(0, FRAGMENT_A, Ok(()))),
    (B, Act::Tick(59_999)),
    (B, Act::Hear(0, FRAGMENT_A, Ok(()))),
    (B, Act::Deadline(Some(Moment(60_000)))),
    (B, Act::Emit(None)),
    (B, Act::Tick(60_000)),
    (B, Act::Deadline(None)),
    (B, Act::Sends(TIME_EXCEEDED)),
    (B, Act::Emit(None)),
    (B, Act::Hear(0, FRAGMENT_B, Ok(()))),
    (B, Act::Deadline(Some(Moment(120_000)))),
];

/// Nothing is told where the first fragment didn't come.
const FIRST_IS_MISSING: &[Step] = &[
    (B, Act::Hear(0, FRAGMENT_B, Ok(()))),
    (B, Act::Tick(60_000)),
    (B, Act::Deadline(None)),
    (B, Act::Emit(None)),
];

/// The error waits for A's MAC as other replies do.
const EXCEEDED_WAITS: &[Step] = &[
    (B, Act::Hear(0, FRAGMENT_A, Ok(()))),
    (B, Act::Tick(60_000)),
    (B, Act::Deadline(Some(Moment(63_000)))),
    (B, Act::Tick(62_999)),
    (B, Act::Hear(0, REPLIED_BACK, Ok(()))),
    (B, Act::Sends(TIME_EXCEEDED)),
];

const SIXTEEN_ASK: &[Step] = &[(B, Act::Hear(0, ECHO, Ok(()))); 16];

/// Sixteen replies wait, and the seventeenth isn't told. The fragments are taken all the same.
const NO_REPLY_HAS_ROOM: &[Step] = &[
    (B, Act::Hear(0, FRAGMENT_B, Ok(()))),
    (B, Act::Hear(0, FRAGMENT_A, Ok(()))),
    (B, Act::Hear(0, HI, Err(DropCause::NoRoom))),
    (B, Act::Hear(0, FRAGMENT_A, Ok(()))),
    (B, Act::Deadline(Some(Moment(60_000)))),
    (B, Act::Tick(60_000)),
    (B, Act::Deadline(None)),
];

/// Five datagrams by their identifications. While four are put together a fifth has no place, and each of the four has.
const FIVE: &[Step] = &[
    (
        B,
        Act::HearChanged(FRAGMENT_A, &[(19, 0), (25, 0xc7)], Ok(())),
    ),
    (
        B,
        Act::HearChanged(FRAGMENT_A, &[(19, 1), (25, 0xc6)], Ok(())),
    ),
    (
        B,
        Act::HearChanged(FRAGMENT_A, &[(19, 2), (25, 0xc5)], Ok(())),
    ),
    (
        B,
        Act::HearChanged(FRAGMENT_A, &[(19, 3), (25, 0xc4)], Ok(())),
    ),
    (
        B,
        Act::HearChanged(FRAGMENT_A, &[(19, 4), (25, 0xc3)], Err(DropCause::NoRoom)),
    ),
    (
        B,
        Act::HearChanged(FRAGMENT_A, &[(19, 0), (25, 0xc7)], Ok(())),
    ),
    (B, Act::Tick(60_000)),
    (
        B,
        Act::HearChanged(FRAGMENT_A, &[(19, 4), (25, 0xc3)], Ok(())),
    ),
    (B, Act::Emit(Some(70))),
    (B, Act::Emit(Some(70))),
    (B, Act::Emit(Some(70))),
    (B, Act::Emit(Some(70))),
    (B, Act::Emit(None)),
];

/// A last fragment comes at another offset, or as one that others follow. Where it contradicts the first one, the datagram is given up.
const ENDS: &[Step] = &[
    (
        B,
        Act::HearChanged(FRAGMENT_B, &[(21, 2), (25, 0xbe)], Ok(())),
    ),
    (
        B,
        Act::HearChanged(FRAGMENT_B, &[(21, 2), (25, 0xbe)], Ok(())),
    ),
    (B, Act::Deadline(Some(Moment(60_000)))),
    (B, Act::Tick(60_000)),
    (
        B,
        Act::HearChanged(FRAGMENT_B, &[(21, 2), (25, 0xbe)], Ok(())),
    ),
    (
        B,
        Act::HearChanged(FRAGMENT_B, &[(21, 3), (25, 0xbd)], Ok(())),
    ),
    (B, Act::Deadline(None)),
    (
        B,
        Act::HearChanged(FRAGMENT_B, &[(21, 2), (25, 0xbe)], Ok(())),
    ),
    (
        B,
        Act::HearChanged(
            FRAGMENT_B,
            &[(20, 0x20), (21, 3), (24, 0x46), (25, 0xbd)],
            Ok(()),
        ),
    ),
    (B, Act::Deadline(None)),
];

pub(super) const SCENARIOS: &[Scenario] = &[
    Scenario {
        name: "A then B",
        hosts: FRESH,
        parts: &[NEIGHBOURS, WAITS, A_THEN_B],
    },
    Scenario {
        name: "B then A",
        hosts: FRESH,
        parts: &[NEIGHBOURS, WAITS, B_THEN_A],
    },
    Scenario {
        name: "nobody waits for fragments",
        hosts: FRESH,
        parts: &[NEIGHBOURS, NOBODY],
    },
    Scenario {
        name: "the time is over",
        hosts: FRESH,
        parts: &[NEIGHBOURS, TIME_IS_OVER],
    },
    Scenario {
        name: "the first is missing",
        hosts: FRESH,
        parts: &[NEIGHBOURS, FIRST_IS_MISSING],
    },
    Scenario {
        name: "an error waits for its hop",
        hosts: FRESH,
        parts: &[EXCEEDED_WAITS],
    },
    Scenario {
        name: "fragments need no room for replies",
        hosts: FRESH,
        parts: &[NEIGHBOURS, SIXTEEN_ASK, NO_REPLY_HAS_ROOM],
    },
    Scenario {
        name: "a fifth datagram has no place",
        hosts: FRESH,
        parts: &[NEIGHBOURS, FIVE],
    },
    Scenario {
        name: "contradictions give a datagram up",
        hosts: FRESH,
        parts: &[ENDS],
    },
];
