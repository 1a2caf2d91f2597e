//! Datagrams of one socket that wait for hops of their own (RFC 1122 section 2.3.2.2).

use super::datagrams::WAITING;
use super::octets::{REPLY, REQUEST, SECOND_SENT, THIRD_IS_ASKED_FOR};
use super::stations::Side::A;
use super::stations::{Act, FRESH, ONE, Scenario, Step};
use clock::Moment;
use ipv4::{Addr, Endpoint};

/// An address of the link that no host has.
const NOBODYS: Endpoint = Endpoint {
    addr: Addr([10, 0, 0, 3]),
    port: 5_001,
};

/// One behind the other they are given to a socket. The hop of each is asked for.
const BOTH_WAIT: &[Step] = &[
    (A, Act::DatagramSocket(ONE)),
    (A, Act::SendTo(ONE, NOBODYS, b"lo", Ok(2))),
    (A, Act::SendTo(ONE, WAITING, b"hi", Ok(2))),
    (A, Act::Sends(THIRD_IS_ASKED_FOR)),
    (A, Act::Sends(REQUEST)),
    (A, Act::Emit(None)),
    (A, Act::Deadline(Some(Moment(1_000)))),
];

/// Who answers is sent the second as soon as it is known where it goes.
const SECOND_GOES: &[Step] = &[
    (A, Act::Hear(0, REPLY, Ok(()))),
    (A, Act::Sends(SECOND_SENT)),
    (A, Act::Emit(None)),
    (A, Act::Deadline(Some(Moment(1_000)))),
];

/// The hop of the first is asked for once a second, and it is dropped when three are over.
const FIRST_IS_DROPPED: &[Step] = &[
    (A, Act::Tick(1_000)),
    (A, Act::Sends(THIRD_IS_ASKED_FOR)),
    (A, Act::Emit(None)),
    (A, Act::Deadline(Some(Moment(2_000)))),
    (A, Act::Tick(2_000)),
    (A, Act::Sends(THIRD_IS_ASKED_FOR)),
    (A, Act::Emit(None)),
    (A, Act::Deadline(Some(Moment(3_000)))),
    (A, Act::Tick(2_999)),
    (A, Act::Emit(None)),
    (A, Act::Deadline(Some(Moment(3_000)))),
    (A, Act::Tick(3_000)),
    (A, Act::Deadline(None)),
    (A, Act::Emit(None)),
];

/// Each has its own second from its request on, and its own three seconds from its `sendto` on.
const EACH_IN_ITS_TIME: &[Step] = &[
    (A, Act::DatagramSocket(ONE)),
    (A, Act::SendTo(ONE, NOBODYS, b"lo", Ok(2))),
    (A, Act::Sends(THIRD_IS_ASKED_FOR)),
    (A, Act::Tick(400)),
    (A, Act::SendTo(ONE, WAITING, b"hi", Ok(2))),
    (A, Act::Sends(REQUEST)),
    (A, Act::Deadline(Some(Moment(1_000)))),
    (A, Act::Tick(1_000)),
    (A, Act::Sends(THIRD_IS_ASKED_FOR)),
    (A, Act::Deadline(Some(Moment(1_400)))),
    (A, Act::Tick(1_400)),
    (A, Act::Sends(REQUEST)),
    (A, Act::Deadline(Some(Moment(2_000)))),
    (A, Act::Tick(3_000)),
    (A, Act::Sends(REQUEST)),
    (A, Act::Deadline(Some(Moment(3_400)))),
    (A, Act::Hear(0, REPLY, Ok(()))),
    (A, Act::Sends(SECOND_SENT)),
    (A, Act::Deadline(None)),
];

pub(super) const SCENARIOS: &[Scenario] = &[
    Scenario {
        name: "a datagram waits for its own hop",
        hosts: FRESH,
        parts: &[BOTH_WAIT, SECOND_GOES, FIRST_IS_DROPPED],
    },
    Scenario {
        name: "datagrams wait each for its time",
        hosts: FRESH,
        parts: &[EACH_IN_ITS_TIME],
    },
];
