//! The segments that hosts send and take, in their frames.

use super::octets::{
    ANSWER, CUT_SYN, HELLO, REFUSAL_OF_FIVE, REPLY, REQUEST, STRAY, STRAY_RESET, SYN,
    SYN_BEHIND_OPTIONS,
};
use super::stations::Side::{A, B};
use super::stations::{Act, FRESH, LISTENING, NEIGHBOURS, ONE, PAIR, SERVER, Scenario, Step, TWO};
use host::{DropCause, Refusal};

/// A asks for B's MAC, and B learns A's by that. Then a connection opens and carries octets.
const STANDARD: &[Step] = &[
    (A, Act::Connect(4_294_967_295, ONE, SERVER, Ok(()))),
    (A, Act::Sends(REQUEST)),
    (A, Act::Arrive(0, Ok(()))),
    (B, Act::Sends(REPLY)),
    (B, Act::Arrive(0, Ok(()))),
    (A, Act::Sends(SYN)),
    (A, Act::Arrive(7, Ok(()))),
    (B, Act::Pass(7)),
    (A, Act::Send(ONE, b"hello", Ok(5))),
    (A, Act::Sends(HELLO)),
    (B, Act::Hear(7, CUT_SYN, Err(DropCause::UpperHeader))),
];

/// Options of IPv4 are skipped.
const BEHIND_OPTIONS: &[Step] = &[
    (B, Act::Hear(7, SYN_BEHIND_OPTIONS, Ok(()))),
    (B, Act::Holder(PAIR, Some(TWO))),
];

/// A bit is turned and turned back: one of the IPv4 header, one of the segment, and one of the padding, which nobody reads.
const DAMAGED: &[Step] = &[
    (A, Act::Socket(ONE)),
    (A, Act::Connect(0, ONE, SERVER, Ok(()))),
    (A, Act::Emit(Some(60))),
    (A, Act::Damage(33)),
    (A, Act::Arrive(7, Err(DropCause::IpSum))),
    (A, Act::Damage(33)),
    (A, Act::Damage(57)),
    (A, Act::Arrive(7, Err(DropCause::UpperSum))),
    (A, Act::Damage(57)),
    (A, Act::Damage(59)),
    (A, Act::Arrive(7, Ok(()))),
];

const REFUSED: &[Step] = &[
    (A, Act::Socket(ONE)),
    (A, Act::Connect(5, ONE, SERVER, Ok(()))),
    (A, Act::Pass(7)),
    (A, Act::Emit(None)),
    (B, Act::Sends(REFUSAL_OF_FIVE)),
    (B, Act::Arrive(0, Ok(()))),
    (A, Act::Recv(ONE, Err(Refusal::ECONNREFUSED))),
];

/// There is room for 16 answers.
const HEARD: &[Step] = &[(B, Act::Hear(0, STRAY, Ok(()))); 16];

/// There is none for another. A reset needs none.
const UNHEARD: &[Step] = &[
    (B, Act::Hear(0, STRAY, Err(DropCause::NoRoom))),
    (B, Act::Hear(0, STRAY_RESET, Ok(()))),
    (B, Act::Sends(ANSWER)),
];

pub(super) const SCENARIOS: &[Scenario] = &[
    Scenario {
        name: "segments are those of the standard",
        hosts: FRESH,
        parts: &[LISTENING, STANDARD],
    },
    Scenario {
        name: "segments come behind options",
        hosts: FRESH,
        parts: &[LISTENING, BEHIND_OPTIONS],
    },
    Scenario {
        name: "damaged segments are dropped",
        hosts: FRESH,
        parts: &[NEIGHBOURS, DAMAGED],
    },
    Scenario {
        name: "strays are answered by resets",
        hosts: FRESH,
        parts: &[NEIGHBOURS, REFUSED, HEARD, UNHEARD],
    },
];
