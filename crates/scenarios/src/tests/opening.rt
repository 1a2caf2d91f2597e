//! Connections that open, and what goes out again.

use super::ends::Side::{A, B};
use super::ends::{ACK, Act, HANDSHAKE, SYN_SEGMENT, Scenario, Step};
use clock::Moment;
use tcp_state::Fate::{Rejected, Stays};
use tcp_state::{Due, Received, Refusal, State, Stretch};

/// The segment that carries `hello` from A to B after the handshake.
const HELLO_SEGMENT: [u8; 25] = [
    0xc0, 0x00, 0x00, 0x50, 0, 0, 0, 0, 0, 0, 0, 0x08, 0x50, 0x18, 0xff, 0xff, 0x97, 0x9a, 0, 0,
    0x68, 0x65, 0x6c, 0x6c, 0x6f,
];

/// The octets arrive twice, and are read once.
const OCTETS: &[Step] = &[
    (A, Act::State(State::Established)),
    (B, Act::State(State::Established)),
    (A, Act::Send(b"hello", Ok(5))),
    (A, Act::Emit(0, Some(25))),
    (A, Act::HasSent(&HELLO_SEGMENT)),
    (B, Act::Recv(Err(Refusal::EAGAIN))),
    (A, Act::Arrive(0, Stays)),
    (A, Act::Arrive(0, Stays)),
    (B, Act::Recv(Ok(Received::Octets(5)))),
    (B, Act::Recv(Err(Refusal::EAGAIN))),
];

/// The timer begins anew at each tick at which it expires, with twice the timeout.
const SYN_AGAIN: &[Step] = &[
    (A, Act::Deadline(None)),
    (A, Act::Emit(500, Some(24))),
    (A, Act::Deadline(Some(Moment(1_500)))),
    (A, Act::Tick(1_499, Stays)),
    (A, Act::Emit(1_499, None)),
    (A, Act::Tick(1_500, Stays)),
    (A, Act::Deadline(Some(Moment(3_500)))),
    (A, Act::Emit(1_600, Some(24))),
    (A, Act::HasSent(&SYN_SEGMENT)),
    (A, Act::Deadline(Some(Moment(3_500)))),
    (A, Act::Tick(u64::MAX, Stays)),
    (A, Act::Deadline(Some(Moment(u64::MAX)))),
];

/// Before A's SYN is out nothing can acknowledge it, and then the number behind it does.
const WRONG_ACKNOWLEDGEMENTS: &[Step] = &[
    (A, Act::Hear(7, 0, ACK, 0, Rejected)),
    (A, Act::Emit(0, Some(24))),
    (A, Act::Hear(7, 0, ACK, 0, Stays)),
    (A, Act::Hear(7, 1, ACK, 0, Rejected)),
    (A, Act::State(State::SynSent)),
];

/// The octets that A's caller gave last.
const MORE: Due = Due::Text(Stretch {
    offset: 0,
    count: 4,
    fin: false,
});

/// The window of 0 in an acknowledgement from before the last one leaves B's window open.
const OLD_WINDOW: &[Step] = &[
    (A, Act::Send(b"hello", Ok(5))),
    (A, Act::Pass(0, Stays)),
    (B, Act::Tick(200, Stays)),
    (B, Act::Pass(200, Stays)),
    (A, Act::Send(b"more", Ok(4))),
    (A, Act::Hear(9, 4, ACK, 0, Stays)),
    (A, Act::Due(Some(MORE))),
    (A, Act::Hear(9, 5, ACK, 0, Stays)),
    (A, Act::Due(None)),
];

pub(super) const SCENARIOS: &[Scenario] = &[
    Scenario {
        name: "hands shake and octets arrive",
        parts: &[HANDSHAKE, OCTETS],
    },
    Scenario {
        name: "what is outstanding goes again after a second",
        parts: &[SYN_AGAIN],
    },
    Scenario {
        name: "a wrong acknowledgement of a SYN is refused",
        parts: &[WRONG_ACKNOWLEDGEMENTS],
    },
    Scenario {
        name: "an old acknowledgement tells no window",
        parts: &[HANDSHAKE, OLD_WINDOW],
    },
];
