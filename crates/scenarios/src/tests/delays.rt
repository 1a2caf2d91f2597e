//! Small segments that wait for what is outstanding, or don't, and what is told of a connection meanwhile.

use super::ends::Side::{A, B};
use super::ends::{Act, HANDSHAKE, Scenario, Step};
use clock::Moment;
use retransmit::{Estimate, Timers};
use tcp_state::Fate::Stays;
use tcp_state::{Due, Info, State, Stretch};

/// The second of two octets that go out one by one.
const SECOND: Due = Due::Text(Stretch {
    offset: 1,
    count: 1,
    fin: false,
});

const NO_TIMERS: Timers = Timers {
    retransmission: None,
    probe: None,
    delayed_ack: None,
    overriding: None,
};

/// A once it is open. Its first measurement was of 0 ms, a timeout is 1,000 ms at least (RFC 6298 sections 2.2 and 2.4), and three segments of 1,460
/// octets may go out at first (RFC 5681 section 3.1).
const OPEN: Info = Info {
    state: State::Established,
    in_flight: 0,
    held: 0,
    unsent: 0,
    readable: 0,
    kept: 0,
    peer_window: 65_535,
    own_window: 65_535,
    smss: 1_460,
    cwnd: 4_380,
    ssthresh: 65_535,
    estimate: Some(Estimate { s8: 0, v4: 0 }),
    rto: 1_000,
    expiries: 0,
    resent: 0,
    error: None,
    timers: NO_TIMERS,
    ends_at: None,
};

/// .. and once one octet went out, and the second waits for it.
const WAITING: Info = Info {
    in_flight: 1,
    held: 2,
    unsent: 1,
    timers: Timers {
        retransmission: Some(Moment(1_000)),
        overriding: Some(Moment(500)),
        ..NO_TIMERS
    },
    ..OPEN
};

/// .. and once that went out too.
const GONE: Info = Info {
    in_flight: 2,
    unsent: 0,
    timers: Timers {
        retransmission: Some(Moment(1_000)),
        ..NO_TIMERS
    },
    ..WAITING
};

/// Two octets, of which the second is small and waits.
const ONE_BY_ONE: &[Step] = &[
    (A, Act::Info(OPEN)),
    (A, Act::Send(b"a", Ok(1))),
    (A, Act::Emit(0, Some(21))),
    (A, Act::Send(b"b", Ok(1))),
    (A, Act::Due(None)),
    (A, Act::Deadline(Some(Moment(500)))),
    (A, Act::Info(WAITING)),
];

/// Without delay it goes out at once, and its timer runs no more. Told otherwise before it has gone, it waits again, from that moment on.
const NO_DELAY: &[Step] = &[
    (A, Act::SetNoDelay(100, true)),
    (A, Act::Due(Some(SECOND))),
    (A, Act::Deadline(Some(Moment(1_000)))),
    (A, Act::SetNoDelay(200, false)),
    (A, Act::Due(None)),
    (A, Act::Deadline(Some(Moment(700)))),
    (A, Act::SetNoDelay(300, true)),
    (A, Act::Emit(300, Some(21))),
    (A, Act::Info(GONE)),
];

/// .. and each later one does.
const LATER: &[Step] = &[
    (A, Act::Send(b"c", Ok(1))),
    (A, Act::Emit(300, Some(21))),
    (A, Act::Due(None)),
];

/// What B wants is nothing to A.
const OTHER_END: &[Step] = &[
    (B, Act::SetNoDelay(0, true)),
    (A, Act::Due(None)),
    (A, Act::Info(WAITING)),
];

/// The octets are lost, and go out again together.
const LOST: &[Step] = &[
    (A, Act::Tick(1_000, Stays)),
    (A, Act::Emit(1_000, Some(22))),
    (
        A,
        Act::Info(Info {
            cwnd: 1_460,
            ssthresh: 2_920,
            rto: 2_000,
            expiries: 1,
            resent: 1,
            timers: Timers {
                retransmission: Some(Moment(3_000)),
                ..NO_TIMERS
            },
            ..GONE
        }),
    ),
];

/// A full segment and an octet.
const LONG: &[u8] = &[7; 1_461];

/// Where small segments wait for small ones only, the second of two waits until the first is acknowledged.
const SMALL_BEHIND_SMALL: &[Step] = &[
    (A, Act::Send(b"a", Ok(1))),
    (A, Act::Pass(0, Stays)),
    (A, Act::Send(b"b", Ok(1))),
    (A, Act::Due(None)),
    (A, Act::Deadline(Some(Moment(500)))),
    (B, Act::Tick(200, Stays)),
    (B, Act::Pass(200, Stays)),
    (A, Act::Due(Some(NEXT))),
    (A, Act::Emit(200, Some(21))),
];

/// The second, once the first is acknowledged.
const NEXT: Due = Due::Text(Stretch {
    offset: 0,
    count: 1,
    fin: false,
});

/// One behind a full segment goes out at once, and the next waits for it.
const SMALL_BEHIND_FULL: &[Step] = &[
    (A, Act::Send(LONG, Ok(1_461))),
    (A, Act::Emit(0, Some(1_480))),
    (A, Act::Due(Some(REST))),
    (A, Act::Emit(0, Some(21))),
    (A, Act::Send(b"c", Ok(1))),
    (A, Act::Due(None)),
];

/// The octet behind a full segment.
const REST: Due = Due::Text(Stretch {
    offset: 1_460,
    count: 1,
    fin: false,
});

/// The last octets of a closed side wait for nothing, and bring the FIN.
const LAST_WITH_FIN: &[Step] = &[
    (A, Act::Send(b"a", Ok(1))),
    (A, Act::Emit(0, Some(21))),
    (A, Act::Send(b"b", Ok(1))),
    (A, Act::Due(None)),
    (A, Act::Shutdown),
    (A, Act::Due(Some(LAST))),
    (A, Act::Emit(0, Some(21))),
    (A, Act::Due(None)),
    (A, Act::Arrive(0, Stays)),
];

/// The second octet, and the FIN.
const LAST: Due = Due::Text(Stretch {
    offset: 1,
    count: 1,
    fin: true,
});

/// Those of hosts whose small segments wait for small ones only.
pub(super) const PASSING: &[Scenario] = &[
    Scenario {
        name: "a small segment behind a small one",
        parts: &[HANDSHAKE, SMALL_BEHIND_SMALL],
    },
    Scenario {
        name: "a small segment behind a full one",
        parts: &[HANDSHAKE, SMALL_BEHIND_FULL],
    },
    Scenario {
        name: "the last octets with the FIN",
        parts: &[HANDSHAKE, LAST_WITH_FIN],
    },
];

pub(super) const SCENARIOS: &[Scenario] = &[
    Scenario {
        name: "small segments don't wait",
        parts: &[HANDSHAKE, ONE_BY_ONE, NO_DELAY, LATER],
    },
    Scenario {
        name: "small segments of the other end",
        parts: &[HANDSHAKE, ONE_BY_ONE, OTHER_END],
    },
    Scenario {
        name: "small segments that are lost",
        parts: &[HANDSHAKE, ONE_BY_ONE, NO_DELAY, LOST],
    },
];
