//! ICMP messages (RFC 792): echo, what is told of a protocol that nothing takes, and errors that a host hears.

use super::octets::{
    ASKED_BACK, CUT_QUOTE, ECHO, ECHOED, NOT_TAKEN, OTHER_PROTOCOL, REPLIED_BACK, REPLY, SYN,
    UNREACHABLE,
};
use super::stations::Side::{A, B};
use super::stations::{
    Act, CLIENT, FRESH, LISTENING, NEIGHBOURS, ONE, SERVER, Scenario, Station, Step, TWO, config,
};
use clock::Moment;
use host::SocketState::Stream;
use host::{DropCause, Refusal};
use tcp_state::{Received, State};

/// Each reply goes out once, in the order of what it answers.
const ANSWERED: &[Step] = &[
    (B, Act::Hear(0, ECHO, Ok(()))),
    (B, Act::Hear(0, OTHER_PROTOCOL, Ok(()))),
    (B, Act::Hear(0, ECHO, Ok(()))),
    (B, Act::Deadline(None)),
    (B, Act::Sends(ECHOED)),
    (B, Act::Sends(NOT_TAKEN)),
    (B, Act::Sends(ECHOED)),
    (B, Act::Emit(None)),
];

/// The reply has no way to A, for which B asks.
const ECHO_WAITS: &[Step] = &[
    (B, Act::Hear(0, ECHO, Ok(()))),
    (B, Act::Deadline(Some(Moment(3_000)))),
    (B, Act::Sends(ASKED_BACK)),
    (B, Act::Emit(None)),
];

const ECHO_GOES: &[Step] = &[
    (B, Act::Tick(2_999)),
    (B, Act::Hear(0, REPLIED_BACK, Ok(()))),
    (B, Act::Sends(ECHOED)),
    (B, Act::Emit(None)),
];

const ECHO_IS_DROPPED: &[Step] = &[
    (B, Act::Tick(3_000)),
    (B, Act::Hear(0, REPLIED_BACK, Ok(()))),
    (B, Act::Emit(None)),
];

const SIXTEEN_ASK: &[Step] = &[(B, Act::Hear(0, ECHO, Ok(()))); 16];

/// The next has no room, nor has what nothing takes, until one is answered.
const SEVENTEENTH: &[Step] = &[
    (B, Act::Hear(0, ECHO, Err(DropCause::NoRoom))),
    (B, Act::Hear(0, OTHER_PROTOCOL, Err(DropCause::NoRoom))),
    (B, Act::Sends(ECHOED)),
    (B, Act::Hear(0, OTHER_PROTOCOL, Ok(()))),
    (B, Act::Hear(0, ECHO, Err(DropCause::NoRoom))),
];

/// A's SYN waits to go out, and none has gone out that an error could be about.
const BEFORE_THE_SYN: &[Step] = &[
    (A, Act::Hear(0, REPLY, Ok(()))),
    (A, Act::Connect(4_294_967_295, ONE, SERVER, Ok(()))),
    (A, Act::Hear(0, UNREACHABLE, Ok(()))),
    (A, Act::State(ONE, Ok(Stream(State::SynSent)))),
];

/// It goes out, and a quote that is cut short is about nothing.
const CUT_SHORT: &[Step] = &[
    (A, Act::Sends(SYN)),
    (A, Act::Hear(0, CUT_QUOTE, Ok(()))),
    (A, Act::State(ONE, Ok(Stream(State::SynSent)))),
    (A, Act::Recv(ONE, Err(Refusal::EAGAIN))),
];

/// The whole quote ends it, as each call is told from then on. Nothing more goes out.
const REFUSED: &[Step] = &[
    (A, Act::Hear(0, UNREACHABLE, Ok(()))),
    (A, Act::State(ONE, Ok(Stream(State::Closed)))),
    (A, Act::Recv(ONE, Err(Refusal::ECONNREFUSED))),
    (A, Act::Recv(ONE, Err(Refusal::ECONNREFUSED))),
    (A, Act::Send(ONE, b"hello", Err(Refusal::ECONNREFUSED))),
    (A, Act::Hear(0, UNREACHABLE, Ok(()))),
    (A, Act::Deadline(None)),
    (A, Act::Emit(None)),
    (A, Act::Close(ONE)),
    (A, Act::State(ONE, Err(Refusal::EBADF))),
];

/// Past SYN-SENT an error is only a hint: the connection that was begun goes on.
const ESTABLISHED: &[Step] = &[
    (A, Act::Hear(0, REPLY, Ok(()))),
    (B, Act::Hear(0, REPLIED_BACK, Ok(()))),
    (A, Act::Connect(4_294_967_295, ONE, SERVER, Ok(()))),
    (A, Act::Pass(7)),
    (B, Act::Pass(0)),
    (A, Act::Hear(0, UNREACHABLE, Ok(()))),
    (A, Act::State(ONE, Ok(Stream(State::Established)))),
    (A, Act::Pass(0)),
    (A, Act::Hear(0, UNREACHABLE, Ok(()))),
    (A, Act::State(ONE, Ok(Stream(State::Established)))),
    (A, Act::Deadline(None)),
    (A, Act::Emit(None)),
    (B, Act::Accept(ONE, TWO, CLIENT)),
    (A, Act::Send(ONE, b"more", Ok(4))),
    (A, Act::Pass(0)),
    (B, Act::Recv(TWO, Ok(Received::Octets(4)))),
];

/// A, which knows B's MAC, and whose SYN with the last number of 32 bits has gone out.
const CALLING: &[Step] = &[
    (A, Act::Hear(0, REPLY, Ok(()))),
    (A, Act::Socket(ONE)),
    (A, Act::Connect(4_294_967_295, ONE, SERVER, Ok(()))),
    (A, Act::Sends(SYN)),
];

/// Errors that end no opening: other types and codes, each with its checksum; then the quote, for another number, port, address or protocol.
const HINTS: &[Step] = &[
    (
        A,
        Act::HearChanged(UNREACHABLE, &[(35, 0), (37, 0xaf)], Ok(())),
    ),
    (
        A,
        Act::HearChanged(UNREACHABLE, &[(35, 1), (37, 0xae)], Ok(())),
    ),
    (
        A,
        Act::HearChanged(UNREACHABLE, &[(35, 5), (37, 0xaa)], Ok(())),
    ),
    (
        A,
        Act::HearChanged(
            UNREACHABLE,
            &[(34, 4), (35, 0), (36, 0x3b), (37, 0xaf)],
            Ok(()),
        ),
    ),
    (
        A,
        Act::HearChanged(
            UNREACHABLE,
            &[(34, 5), (35, 0), (36, 0x3a), (37, 0xaf)],
            Ok(()),
        ),
    ),
    (
        A,
        Act::HearChanged(
            UNREACHABLE,
            &[(34, 11), (35, 0), (36, 0x34), (37, 0xaf)],
            Ok(()),
        ),
    ),
    (
        A,
        Act::HearChanged(
            UNREACHABLE,
            &[(34, 12), (35, 0), (36, 0x33), (37, 0xaf)],
            Ok(()),
        ),
    ),
    (
        A,
        Act::HearChanged(
            UNREACHABLE,
            &[(66, 0), (67, 0), (68, 0), (69, 5), (37, 0xa7)],
            Ok(()),
        ),
    ),
    (
        A,
        Act::HearChanged(UNREACHABLE, &[(63, 1), (37, 0xab)], Ok(())),
    ),
    (
        A,
        Act::HearChanged(UNREACHABLE, &[(65, 81), (37, 0xab)], Ok(())),
    ),
    (
        A,
        Act::HearChanged(UNREACHABLE, &[(57, 3), (53, 0xc8)], Ok(())),
    ),
    (
        A,
        Act::HearChanged(UNREACHABLE, &[(61, 3), (53, 0xc9)], Ok(())),
    ),
    (
        A,
        Act::HearChanged(UNREACHABLE, &[(51, 17), (53, 0xbf)], Ok(())),
    ),
    (A, Act::State(ONE, Ok(Stream(State::SynSent)))),
    (A, Act::Recv(ONE, Err(Refusal::EAGAIN))),
    (A, Act::Emit(None)),
];

/// Those that end it: by their codes, and one whose quote has no sum.
const NO_PORT: &[Step] = &[(A, Act::HearChanged(UNREACHABLE, &[], Ok(())))];

const NO_PROTOCOL: &[Step] = &[(
    A,
    Act::HearChanged(UNREACHABLE, &[(35, 2), (37, 0xad)], Ok(())),
)];

const NO_FRAGMENTS: &[Step] = &[(
    A,
    Act::HearChanged(UNREACHABLE, &[(35, 4), (37, 0xab)], Ok(())),
)];

const NO_SUM: &[Step] = &[(
    A,
    Act::HearChanged(
        UNREACHABLE,
        &[(52, 0), (53, 0), (36, 0x63), (37, 0x76)],
        Ok(()),
    ),
)];

/// The opening has ended, and nothing goes out.
const ENDED: &[Step] = &[
    (A, Act::State(ONE, Ok(Stream(State::Closed)))),
    (A, Act::Recv(ONE, Err(Refusal::ECONNREFUSED))),
    (A, Act::Emit(None)),
];

pub(super) const SCENARIOS: &[Scenario] = &[
    Scenario {
        name: "messages are answered in order",
        hosts: FRESH,
        parts: &[NEIGHBOURS, ANSWERED],
    },
    Scenario {
        name: "an echo waits",
        hosts: FRESH,
        parts: &[ECHO_WAITS, ECHO_GOES],
    },
    Scenario {
        name: "an echo waits for three seconds at most",
        hosts: FRESH,
        parts: &[ECHO_WAITS, ECHO_IS_DROPPED],
    },
    Scenario {
        name: "sixteen replies have room",
        hosts: FRESH,
        parts: &[NEIGHBOURS, SIXTEEN_ASK, SEVENTEENTH],
    },
    Scenario {
        name: "an error ends an opening",
        hosts: FRESH,
        parts: &[LISTENING, BEFORE_THE_SYN, CUT_SHORT, REFUSED],
    },
    Scenario {
        name: "an error ends nothing that is open",
        hosts: FRESH,
        parts: &[LISTENING, ESTABLISHED],
    },
    Scenario {
        name: "other errors end no opening",
        hosts: FRESH,
        parts: &[CALLING, HINTS],
    },
    Scenario {
        name: "no port ends an opening",
        hosts: FRESH,
        parts: &[CALLING, NO_PORT, ENDED],
    },
    Scenario {
        name: "no protocol ends an opening",
        hosts: FRESH,
        parts: &[CALLING, NO_PROTOCOL, ENDED],
    },
    Scenario {
        name: "no fragments end an opening",
        hosts: FRESH,
        parts: &[CALLING, NO_FRAGMENTS, ENDED],
    },
    Scenario {
        name: "a quote without a sum ends an opening",
        hosts: FRESH,
        parts: &[CALLING, NO_SUM, ENDED],
    },
];

/// The heads of a request for an echo of 1,472 octets, which fill a frame, and of its reply; each of these octets is a5.
const LONG_ECHO: [u8; 42] = *b"\x02\0\0\0\0\x02\x02\0\0\0\0\x01\x08\0\
    \x45\0\x05\xdc\0\0\x40\0\x40\x01\x21\x1f\x0a\0\0\x01\x0a\0\0\x02\
    \x08\0\x53\x17\x12\x34\x56\x78";

const LONG_ECHOED: [u8; 42] = *b"\x02\0\0\0\0\x01\x02\0\0\0\0\x02\x08\0\
    \x45\0\x05\xdc\0\0\x40\0\x40\x01\x21\x1f\x0a\0\0\x02\x0a\0\0\x01\
    \0\0\x5b\x17\x12\x34\x56\x78";

/// The whole frame.
fn long(heads: [u8; 42]) -> [u8; 1_514] {
    let mut frame = [0xa5; 1_514];
    for (octet, head) in frame.iter_mut().zip(heads.iter()) {
        *octet = *head;
    }
    frame
}

#[test]
fn an_echo_that_fills_a_frame_is_answered_whole(rt: HostRuntime) {
    let mut station = Station::new(&rt, rt.alloc(), config(&rt, B));
    assert!(rt; station.hear(0, REPLIED_BACK) == Ok(()));
    assert!(rt; station.hear(0, &long(LONG_ECHO)) == Ok(()));
    assert!(rt; station.emit() == Some(1_514) && station.sent() == long(LONG_ECHOED).as_slice());
    assert!(rt; station.emit() == None);
}
