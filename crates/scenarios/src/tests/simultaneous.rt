//! A connection that both ends open at once (RFC 9293 section 3.5, figure 7). A's initial number is the last one of 32 bits, and B's is 7.

use super::ends::Side::A;
use super::ends::{ACK, Act, RST, SYN, Scenario, Step};
use clock::Moment;
use tcp_segment::Flags;
use tcp_state::Fate::{Rejected, Removed, Stays};
use tcp_state::{Due, Refusal, State};

const SYN_ACK: Flags = Flags { ack: true, ..SYN };

/// What A answers to a SYN.
const ANSWER: Act = Act::Sent(4_294_967_295, 8, SYN_ACK, 65_535);

/// A's SYN has gone out when B's comes, and goes out once more with the acknowledgement of B's.
const CROSSED: &[Step] = &[
    (A, Act::Emit(0, Some(24))),
    (A, Act::Hear(7, 0, SYN, 0, Stays)),
    (A, Act::State(State::SynReceived)),
    (A, Act::Emit(300, Some(24))),
    (A, ANSWER),
    (A, Act::Due(None)),
    (A, Act::Deadline(Some(Moment(1_000)))),
];

/// B's SYN comes before A's is out. Until then nothing can acknowledge A's.
const HEARD_FIRST: &[Step] = &[
    (A, Act::Hear(7, 0, SYN, 0, Stays)),
    (A, Act::State(State::SynReceived)),
    (A, Act::Deadline(None)),
    (A, Act::Hear(8, 0, ACK, 0, Rejected)),
    (A, Act::Emit(300, Some(24))),
    (A, ANSWER),
    (A, Act::Due(None)),
];

/// B's SYN comes again, by itself and with the acknowledgement of A's: each draws an acknowledgement, and opens nothing.
const HEARD_AGAIN: &[Step] = &[
    (A, Act::Hear(7, 0, SYN, 0, Stays)),
    (A, Act::State(State::SynReceived)),
    (A, Act::Due(Some(Due::Ack))),
    (A, Act::Emit(300, Some(20))),
    (A, Act::Sent(0, 8, ACK, 65_535)),
    (A, Act::Hear(7, 0, SYN_ACK, 0, Stays)),
    (A, Act::State(State::SynReceived)),
    (A, Act::Due(Some(Due::Ack))),
    (A, Act::Emit(300, Some(20))),
    (A, Act::Sent(0, 8, ACK, 65_535)),
];

/// A number that A hasn't sent is acknowledged, which is refused; and then A's SYN.
const ACKNOWLEDGED: &[Step] = &[
    (A, Act::Hear(8, 1, ACK, 0, Rejected)),
    (A, Act::State(State::SynReceived)),
    (A, Act::Hear(8, 0, ACK, 0, Stays)),
    (A, Act::State(State::Established)),
    (A, Act::Due(None)),
    (A, Act::Deadline(None)),
];

/// A's answer is lost. The timer runs since A's SYN first went out.
const ANSWERED_AGAIN: &[Step] = &[
    (A, Act::Tick(999, Stays)),
    (A, Act::Emit(999, None)),
    (A, Act::Tick(1_000, Stays)),
    (A, Act::Emit(1_000, Some(24))),
    (A, ANSWER),
];

/// A reset and a SYN that lie further on in the window draw acknowledgements. A reset at the next number ends the connection, whose
/// caller keeps it.
const RESET: &[Step] = &[
    (A, Act::Hear(7, 0, RST, 0, Stays)),
    (A, Act::Due(None)),
    (A, Act::Hear(9, 0, RST, 0, Stays)),
    (A, Act::Due(Some(Due::Ack))),
    (A, Act::Emit(300, Some(20))),
    (A, Act::Hear(8, 0, SYN, 0, Stays)),
    (A, Act::Due(Some(Due::Ack))),
    (A, Act::State(State::SynReceived)),
    (A, Act::Hear(8, 0, RST, 0, Stays)),
    (A, Act::State(State::Closed)),
    (A, Act::Due(None)),
    (A, Act::Error(Refusal::ECONNREFUSED)),
    (A, Act::IsOver(false)),
    (A, Act::Close(0, Removed)),
];

pub(super) const SCENARIOS: &[Scenario] = &[
    Scenario {
        name: "SYNs that cross open a connection",
        parts: &[CROSSED, HEARD_AGAIN, ACKNOWLEDGED],
    },
    Scenario {
        name: "a SYN may come before ours is out",
        parts: &[HEARD_FIRST, HEARD_AGAIN, ACKNOWLEDGED],
    },
    Scenario {
        name: "a lost answer goes out again",
        parts: &[CROSSED, ANSWERED_AGAIN, ACKNOWLEDGED],
    },
    Scenario {
        name: "a reset ends what both ends open",
        parts: &[CROSSED, RESET],
    },
];
