//! Sockets, and the connections that they open and close.

use super::octets::{ABORT, ABORT_BEHIND_OCTETS};
use super::stations::Side::{A, B};
use super::stations::{
    Act, CLIENT, FRESH, LISTENING, ONE, PAIR, PASSING, SERVER, Scenario, Step, THREE, TWO,
};
use host::Refusal;
use host::SocketState::Stream;
use tcp_state::{Received, State};

/// A calls and learns where B is, and the hands are shaken: each frame is the one that was due.
pub(super) const CONNECTED: &[Step] = &[
    (A, Act::Connect(5, ONE, SERVER, Ok(()))),
    (A, Act::Pass(7)),
    (A, Act::Emit(None)),
    (B, Act::Pass(7)),
    (B, Act::Emit(None)),
    (A, Act::Pass(7)),
    (A, Act::Emit(None)),
    (B, Act::Pass(7)),
    (B, Act::Emit(None)),
    (A, Act::Pass(7)),
    (A, Act::Emit(None)),
];

/// Both callers close. A, which closed first, holds the pair for four minutes.
const CLOSED: &[Step] = &[
    (A, Act::Pair(ONE, Some(PAIR))),
    (B, Act::Accept(ONE, TWO, CLIENT)),
    (A, Act::Close(ONE)),
    (A, Act::State(ONE, Err(Refusal::EBADF))),
    (A, Act::Pass(7)),
    (A, Act::Emit(None)),
    (B, Act::Recv(TWO, Ok(Received::EndOfStream))),
    (B, Act::State(TWO, Ok(Stream(State::CloseWait)))),
    (B, Act::Close(TWO)),
    (B, Act::Pass(7)),
    (B, Act::Emit(None)),
    (A, Act::Pass(7)),
    (A, Act::Emit(None)),
    (B, Act::Holder(PAIR, None)),
    (A, Act::Holder(PAIR, Some(ONE))),
    (A, Act::Tick(239_999)),
    (A, Act::Holder(PAIR, Some(ONE))),
    (A, Act::Tick(240_000)),
    (A, Act::Holder(PAIR, None)),
];

/// The port is free once the reset of the connection that nobody accepted is out.
const LISTENER_CLOSED: &[Step] = &[
    (B, Act::Close(ONE)),
    (B, Act::Socket(THREE)),
    (B, Act::Bind(THREE, SERVER, Err(Refusal::EADDRINUSE))),
    (B, Act::Sends(ABORT)),
    (B, Act::Bind(THREE, SERVER, Ok(()))),
    (B, Act::Arrive(0, Ok(()))),
    (A, Act::Recv(ONE, Err(Refusal::ECONNRESET))),
];

/// B aborts a connection with octets that A has and that aren't acknowledged: one reset goes out, behind them, and nothing else.
const ABORTED: &[Step] = &[
    (B, Act::Accept(ONE, TWO, CLIENT)),
    (B, Act::Send(TWO, b"data", Ok(4))),
    (B, Act::Pass(7)),
    (B, Act::Abort(TWO, Ok(()))),
    (B, Act::Abort(TWO, Err(Refusal::EBADF))),
    (B, Act::State(TWO, Err(Refusal::EBADF))),
    (B, Act::Sends(ABORT_BEHIND_OCTETS)),
    (B, Act::Emit(None)),
    (B, Act::Holder(PAIR, None)),
    (B, Act::Arrive(0, Ok(()))),
    (A, Act::Recv(ONE, Err(Refusal::ECONNRESET))),
    (A, Act::Abort(ONE, Ok(()))),
    (A, Act::Emit(None)),
    (B, Act::State(ONE, Ok(Stream(State::Listen)))),
];

/// The same with A's octets unread at B, and none on their way.
const ABORTED_UNREAD: &[Step] = &[
    (B, Act::Accept(ONE, TWO, CLIENT)),
    (A, Act::Send(ONE, b"data", Ok(4))),
    (A, Act::Pass(7)),
    (B, Act::Abort(TWO, Ok(()))),
    (B, Act::Sends(ABORT)),
    (B, Act::Emit(None)),
    (B, Act::Arrive(0, Ok(()))),
    (A, Act::Recv(ONE, Err(Refusal::ECONNRESET))),
];

/// The same with the listener, at which the connection waits.
const LISTENER_ABORTED: &[Step] = &[
    (B, Act::Abort(ONE, Ok(()))),
    (B, Act::Sends(ABORT)),
    (B, Act::Emit(None)),
    (B, Act::Arrive(0, Ok(()))),
    (A, Act::Recv(ONE, Err(Refusal::ECONNRESET))),
];

/// Octets of two segments are written and the side closes: the second goes at once too, and brings the FIN. From B, which a call opened, likewise.
const LAST_AT_ONCE: &[Step] = &[
    (B, Act::Accept(ONE, TWO, CLIENT)),
    (A, Act::Send(ONE, &[7; 1_461], Ok(1_461))),
    (A, Act::Close(ONE)),
    (B, Act::Send(TWO, &[8; 1_461], Ok(1_461))),
    (B, Act::Close(TWO)),
    (A, Act::Emit(Some(1_514))),
    (A, Act::Emit(Some(60))),
    (A, Act::Emit(None)),
    (B, Act::Emit(Some(1_514))),
    (B, Act::Emit(Some(60))),
    (B, Act::Emit(None)),
];

pub(super) const SCENARIOS: &[Scenario] = &[
    Scenario {
        name: "the last octets go with the FIN",
        hosts: PASSING,
        parts: &[LISTENING, CONNECTED, LAST_AT_ONCE],
    },
    Scenario {
        name: "both sides close",
        hosts: FRESH,
        parts: &[LISTENING, CONNECTED, CLOSED],
    },
    Scenario {
        name: "a closed listener aborts what waits",
        hosts: FRESH,
        parts: &[LISTENING, CONNECTED, LISTENER_CLOSED],
    },
    Scenario {
        name: "an abort resets",
        hosts: FRESH,
        parts: &[LISTENING, CONNECTED, ABORTED],
    },
    Scenario {
        name: "an abort resets, whatever is unread",
        hosts: FRESH,
        parts: &[LISTENING, CONNECTED, ABORTED_UNREAD],
    },
    Scenario {
        name: "an aborted listener aborts what waits",
        hosts: FRESH,
        parts: &[LISTENING, CONNECTED, LISTENER_ABORTED],
    },
];
