//! Resets, heard and sent.

use super::ends::Side::{A, B};
use super::ends::{Act, HANDSHAKE, RST, SYN, Scenario, Step};
use tcp_state::Fate::{Removed, Stays};
use tcp_state::{Due, Refusal, State};

/// A goes on, and acknowledges what it heard.
const ANSWERED: &[Step] = &[
    (A, Act::State(State::Established)),
    (A, Act::Due(Some(Due::Ack))),
    (A, Act::Emit(0, Some(20))),
];

/// A goes on, and has nothing to send.
const IGNORED: &[Step] = &[
    (A, Act::State(State::Established)),
    (A, Act::Due(None)),
    (A, Act::Emit(0, None)),
];

/// B's next number is 8, and A's window ends before 65543.
const OTHER_NUMBERS: &[&[Step]] = &[
    HANDSHAKE,
    &[(A, Act::Hear(9, 0, RST, 0, Stays))],
    ANSWERED,
    &[(A, Act::Hear(7, 0, RST, 0, Stays))],
    IGNORED,
    &[(A, Act::Hear(7, 0, RST, 2, Stays))],
    IGNORED,
    &[(A, Act::Hear(65_543, 0, RST, 0, Stays))],
    IGNORED,
    &[(A, Act::Hear(65_542, 0, RST, 2, Stays))],
    ANSWERED,
    &[(A, Act::Hear(8, 0, SYN, 0, Stays))],
    ANSWERED,
    NEXT_NUMBER,
];

/// A reset at the next number ends the connection.
const NEXT_NUMBER: &[Step] = &[
    (A, Act::Hear(8, 0, RST, 0, Stays)),
    (A, Act::State(State::Closed)),
    (A, Act::Recv(Err(Refusal::ECONNRESET))),
    (A, Act::Send(b"more", Err(Refusal::ECONNRESET))),
    (A, Act::Due(None)),
];

/// The steps in which one end owes a reset with this number and nothing else, which ends the other with an error.
macro_rules! reset {
    ($from:expr, $number:expr, $to:expr) => {
        &[
            ($from, Act::State(State::Closed)),
            ($from, Act::Due(Some(Due::Rst))),
            ($from, Act::Deadline(None)),
            ($from, Act::Emit(0, Some(20))),
            ($from, Act::Sent($number, 0, RST, 0)),
            ($from, Act::IsOver(true)),
            ($from, Act::Due(None)),
            ($from, Act::Arrive(0, Stays)),
            ($to, Act::State(State::Closed)),
            ($to, Act::Error(Refusal::ECONNRESET)),
            ($to, Act::Close(0, Removed)),
        ]
    };
}

/// B's caller leaves A's octets unread.
const UNREAD: &[Step] = &[
    (A, Act::Send(b"hello", Ok(5))),
    (A, Act::Pass(0, Stays)),
    (B, Act::Close(0, Stays)),
];

/// A's caller is gone when B's octets come.
const AFTER_CLOSE: &[Step] = &[
    (A, Act::Close(0, Stays)),
    (A, Act::Pass(0, Stays)),
    (B, Act::Pass(0, Stays)),
    (B, Act::Send(b"hello", Ok(5))),
    (B, Act::Pass(0, Stays)),
];

const ABORTED: &[Step] = &[
    (A, Act::Send(b"hello", Ok(5))),
    (A, Act::Pass(0, Stays)),
    (A, Act::Abort(Stays)),
];

const ABORTED_AGAIN: &[Step] = &[(A, Act::Abort(Removed))];

/// A's SYN has not gone out.
const CLOSED_UNHEARD: &[Step] = &[(A, Act::Close(0, Removed))];

pub(super) const SCENARIOS: &[Scenario] = &[
    Scenario {
        name: "a reset acts at the next number alone",
        parts: OTHER_NUMBERS,
    },
    Scenario {
        name: "unread octets reset",
        parts: &[HANDSHAKE, UNREAD, reset!(B, 8, A)],
    },
    Scenario {
        name: "octets after close reset",
        parts: &[HANDSHAKE, AFTER_CLOSE, reset!(A, 1, B)],
    },
    Scenario {
        name: "an abort resets at the next number",
        parts: &[HANDSHAKE, ABORTED, reset!(A, 5, B), ABORTED_AGAIN],
    },
    Scenario {
        name: "a close before the SYN is out is not heard of",
        parts: &[CLOSED_UNHEARD],
    },
];
