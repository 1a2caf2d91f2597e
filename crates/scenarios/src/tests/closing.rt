//! Connections that close, and the waits that end them.

use super::ends::Side::{A, B};
use super::ends::{Act, HANDSHAKE, Scenario, Step};
use clock::Moment;
use tcp_state::Fate::{Removed, Stays};
use tcp_state::{Received, Refusal, State};

/// A closes its side behind its octets. The FIN doesn't wait until they are acknowledged, and is acknowledged with them.
const FIRST_SIDE: &[Step] = &[
    (A, Act::Send(b"hello", Ok(5))),
    (A, Act::Shutdown),
    (A, Act::Shutdown),
    (A, Act::State(State::FinWait1)),
    (A, Act::Send(b"more", Err(Refusal::EPIPE))),
    (A, Act::Pass(0, Stays)),
    (B, Act::Due(None)),
    (B, Act::Recv(Ok(Received::Octets(5)))),
    (B, Act::Recv(Err(Refusal::EAGAIN))),
    (A, Act::Pass(0, Stays)),
    (B, Act::Pass(0, Stays)),
    (B, Act::Recv(Ok(Received::EndOfStream))),
    (B, Act::State(State::CloseWait)),
    (A, Act::State(State::FinWait2)),
];

/// Then B closes its own.
const SECOND_SIDE: &[Step] = &[
    (B, Act::Shutdown),
    (B, Act::State(State::LastAck)),
    (B, Act::Pass(0, Stays)),
    (A, Act::State(State::TimeWait)),
    (A, Act::Pass(0, Stays)),
    (B, Act::State(State::Closed)),
    (B, Act::Due(None)),
    (A, Act::Recv(Ok(Received::EndOfStream))),
];

/// The FINs cross.
const BOTH_SIDES: &[Step] = &[
    (A, Act::Shutdown),
    (B, Act::Shutdown),
    (A, Act::Emit(0, Some(20))),
    (B, Act::Pass(0, Stays)),
    (A, Act::Arrive(0, Stays)),
    (A, Act::State(State::Closing)),
    (B, Act::State(State::Closing)),
    (A, Act::Pass(0, Stays)),
    (B, Act::Pass(0, Stays)),
    (A, Act::State(State::TimeWait)),
    (B, Act::State(State::TimeWait)),
];

/// A's caller leaves, so that A waits a minute for B's FIN.
const FIRST_CALLER: &[Step] = &[
    (A, Act::Send(b"hello", Ok(5))),
    (A, Act::Close(0, Stays)),
    (A, Act::IsReleased(true)),
    (A, Act::Pass(0, Stays)),
    (A, Act::Pass(0, Stays)),
    (B, Act::Pass(0, Stays)),
    (A, Act::State(State::FinWait2)),
    (A, Act::Deadline(Some(Moment(60_000)))),
];

/// Then B's caller does. B's FIN comes twice, and A's wait begins anew with the second.
const SECOND_CALLER: &[Step] = &[
    (B, Act::Recv(Ok(Received::Octets(5)))),
    (B, Act::Close(10, Stays)),
    (B, Act::State(State::LastAck)),
    (B, Act::Pass(10, Stays)),
    (A, Act::State(State::TimeWait)),
    (A, Act::Deadline(Some(Moment(240_010)))),
    (B, Act::Tick(1_010, Stays)),
    (B, Act::Pass(1_010, Stays)),
    (A, Act::Deadline(Some(Moment(241_010)))),
    (A, Act::Pass(1_010, Removed)),
    (B, Act::IsOver(true)),
    (A, Act::Tick(241_009, Stays)),
    (A, Act::State(State::TimeWait)),
    (A, Act::Tick(241_010, Removed)),
    (A, Act::IsOver(true)),
];

const WAITS_A_MINUTE: &[Step] = &[
    (A, Act::Shutdown),
    (A, Act::Pass(0, Stays)),
    (B, Act::Pass(0, Stays)),
    (A, Act::State(State::FinWait2)),
    (A, Act::Deadline(None)),
    (A, Act::Close(500, Stays)),
    (A, Act::Deadline(Some(Moment(60_500)))),
    (A, Act::Tick(60_499, Stays)),
    (A, Act::State(State::FinWait2)),
    (A, Act::Tick(60_500, Removed)),
    (A, Act::Due(None)),
];

/// The acknowledgement of A's FIN comes at a later moment than the one at which A's caller then leaves.
const LATER_STATE: &[Step] = &[
    (A, Act::Shutdown),
    (A, Act::Pass(0, Stays)),
    (B, Act::Pass(700, Stays)),
    (A, Act::State(State::FinWait2)),
    (A, Act::Close(500, Stays)),
    (A, Act::Deadline(Some(Moment(60_700)))),
];

pub(super) const SCENARIOS: &[Scenario] = &[
    Scenario {
        name: "both sides close",
        parts: &[HANDSHAKE, FIRST_SIDE, SECOND_SIDE],
    },
    Scenario {
        name: "both sides close at once",
        parts: &[HANDSHAKE, BOTH_SIDES],
    },
    Scenario {
        name: "callers close both ends",
        parts: &[HANDSHAKE, FIRST_CALLER, SECOND_CALLER],
    },
    Scenario {
        name: "FIN-WAIT-2 ends by the clock after close alone",
        parts: &[HANDSHAKE, WAITS_A_MINUTE],
    },
    Scenario {
        name: "a wait begins with the later of close and state",
        parts: &[HANDSHAKE, LATER_STATE],
    },
];
