//! Windows that are scaled where both sides' SYNs have the option (RFC 7323 section 2), octet by octet, and what the window of a peer counts as.

use super::ends::{ACK, CALLER, End, LISTENER};
use super::octets::{REPLY, REQUEST, SCALED_ACK, SCALED_HELLO, SCALED_SYN, SCALED_SYN_ACK};
use super::stations::Side::{A, B};
use super::stations::{
    Act, CLIENT, LISTENING, NEIGHBOURS, ONE, SCALED, SCALED_AT_A, SCALED_AT_B, SERVER, Scenario,
    Step, TWO,
};
use clock::Moment;
use std::alloc::Global;
use std::process::Abort;
use tcp_segment::Seq;
use tcp_state::Fate::Stays;
use tcp_state::{Buffers, Connection, Control, LARGEST_CAPACITY, Manner};

/// A asks for B's MAC, and a connection opens and carries octets.
const STANDARD: &[Step] = &[
    (A, Act::Connect(4_294_967_295, ONE, SERVER, Ok(()))),
    (A, Act::Sends(REQUEST)),
    (A, Act::Arrive(0, Ok(()))),
    (B, Act::Sends(REPLY)),
    (B, Act::Arrive(0, Ok(()))),
    (A, Act::Sends(SCALED_SYN)),
    (A, Act::Arrive(7, Ok(()))),
    (B, Act::Sends(SCALED_SYN_ACK)),
    (B, Act::Arrive(7, Ok(()))),
    (A, Act::Sends(SCALED_ACK)),
    (A, Act::Arrive(7, Ok(()))),
    (A, Act::Send(ONE, b"hello", Ok(5))),
    (A, Act::Sends(SCALED_HELLO)),
];

const CALLS: &[Step] = &[(A, Act::Connect(5, ONE, SERVER, Ok(())))];

/// Both SYNs have four octets more.
const OFFERED_BY_BOTH: &[Step] = &[
    (A, Act::Emit(Some(62))),
    (A, Act::Arrive(7, Ok(()))),
    (B, Act::Emit(Some(62))),
    (B, Act::Arrive(7, Ok(()))),
];

/// A's SYN has them, and B's SYN-ACK doesn't.
const OFFERED_BY_A: &[Step] = &[
    (A, Act::Emit(Some(62))),
    (A, Act::Arrive(7, Ok(()))),
    (B, Act::Emit(Some(60))),
    (B, Act::Arrive(7, Ok(()))),
];

/// B's SYN-ACK hasn't either, where A's SYN didn't.
const OFFERED_BY_NEITHER: &[Step] = &[
    (A, Act::Emit(Some(60))),
    (A, Act::Arrive(7, Ok(()))),
    (B, Act::Emit(Some(60))),
    (B, Act::Arrive(7, Ok(()))),
];

const LARGER: &[Step] = &[
    (A, Act::Pass(7)),
    (B, Act::Accept(ONE, TWO, CLIENT)),
    (A, Act::Fill(ONE, 1_048_576)),
    (B, Act::Fill(TWO, 1_048_576)),
];

const SMALLER: &[Step] = &[
    (A, Act::Pass(7)),
    (B, Act::Accept(ONE, TWO, CLIENT)),
    (A, Act::Fill(ONE, 65_535)),
    (B, Act::Fill(TWO, 65_535)),
];

pub(super) const SCENARIOS: &[Scenario] = &[
    Scenario {
        name: "SYNs have the option, and later windows are in units",
        hosts: SCALED,
        parts: &[LISTENING, STANDARD],
    },
    Scenario {
        name: "both use the option",
        hosts: SCALED,
        parts: &[NEIGHBOURS, LISTENING, CALLS, OFFERED_BY_BOTH, LARGER],
    },
    Scenario {
        name: "the caller alone uses the option",
        hosts: SCALED_AT_A,
        parts: &[NEIGHBOURS, LISTENING, CALLS, OFFERED_BY_A, SMALLER],
    },
    Scenario {
        name: "the listener alone uses the option",
        hosts: SCALED_AT_B,
        parts: &[NEIGHBOURS, LISTENING, CALLS, OFFERED_BY_NEITHER, SMALLER],
    },
];

/// SYN-ACKs with the number 7 that answer a SYN with the last number of 32 bits: their shifts are 0, 7, 14 and 15, two shifts, 2 and 7, and none.
const SHIFT_0: &[u8] =
    b"\0\x50\xc0\0\0\0\0\x07\0\0\0\0\x70\x12\xff\xff\xaf\xb5\0\0\x02\x04\x05\xb4\x01\x03\x03\0";

const SHIFT_7: &[u8] =
    b"\0\x50\xc0\0\0\0\0\x07\0\0\0\0\x70\x12\xff\xff\xaf\xae\0\0\x02\x04\x05\xb4\x01\x03\x03\x07";

const SHIFT_14: &[u8] =
    b"\0\x50\xc0\0\0\0\0\x07\0\0\0\0\x70\x12\xff\xff\xaf\xa7\0\0\x02\x04\x05\xb4\x01\x03\x03\x0e";

const SHIFT_15: &[u8] =
    b"\0\x50\xc0\0\0\0\0\x07\0\0\0\0\x70\x12\xff\xff\xaf\xa6\0\0\x02\x04\x05\xb4\x01\x03\x03\x0f";

const SHIFTS_2_AND_7: &[u8] =
    b"\0\x50\xc0\0\0\0\0\x07\0\0\0\0\x80\x12\xff\xff\x9b\xa7\0\0\x02\x04\x05\xb4\x03\x03\x02\x03\x03\x07\0\0";

pub(super) const NO_SHIFT: &[u8] =
    b"\0\x50\xc0\0\0\0\0\x07\0\0\0\0\x60\x12\xff\xff\xc3\xbc\0\0\x02\x04\x05\xb4";

/// So many segments of 1,460 octets are acknowledged one by one. Then the congestion window has grown from 4,380 to 49,640 octets (RFC 5681 section 3.1).
const GROWTHS: u32 = 31;

/// Acknowledgements of these 45,260 octets with a window of 3: the second has the option too, and no SYN.
const THREE: &[u8] = b"\0\x50\xc0\0\0\0\0\x08\0\0\xb0\xcc\x50\x10\0\x03\x2a\xaa\0\0";

const THREE_AND_SHIFT_2: &[u8] =
    b"\0\x50\xc0\0\0\0\0\x08\0\0\xb0\xcc\x60\x10\0\x03\x16\xa1\0\0\x01\x03\x03\x02";

/// What answers the SYN, what tells the window of 3, and how many octets that is.
const WINDOWS: [(&[u8], &[u8], usize); 8] = [
    (SHIFT_0, THREE, 3),
    (SHIFT_7, THREE, 384),
    (SHIFT_14, THREE, 49_152),
    (SHIFT_15, THREE, 49_152),
    (SHIFTS_2_AND_7, THREE, 384),
    (SHIFT_7, THREE_AND_SHIFT_2, 384),
    (NO_SHIFT, THREE, 3),
    (NO_SHIFT, THREE_AND_SHIFT_2, 3),
];

/// An end that offers the option calls, and is answered so.
fn answered(rt: &impl Abort, alloc: Global, answer: &[u8]) -> End {
    let manner = Manner {
        scales: true,
        minshall: false,
        control: Control::PLAIN,
        least_timeout: 1_000,
        guards: false,
    };
    let buffers = Buffers::new(alloc, LARGEST_CAPACITY, manner).expect(
        rt,
        "memory for two buffers",
    );
    let connection = Connection::active(buffers, CALLER, LISTENER, Seq(u32::MAX), Moment(0));
    let mut end = End::new(connection);
    assert!(rt; end.emit(0) == Some(28));
    assert!(rt; end.hear(0, answer) == Some(Stays));
    end
}

/// So many octets are written.
fn writes(end: &mut End, octets: &[u8]) -> bool {
    end.connection.send(Moment(0), octets) == Ok(octets.len())
}

/// A segment's octets are written, sent and acknowledged, again and again.
fn grows(rt: &impl Abort, end: &mut End) {
    for count in 1..=GROWTHS {
        assert!(rt; writes(end, &[0; 1_460]));
        assert!(rt; end.emit(0) == Some(1_480));
        assert!(rt; end.hear_forged(0, (8, count * 1_460), ACK, 65_535, 0) == Some(Stays));
    }
}

/// How many octets segments carry that go out until none is due.
fn octets_sent(end: &mut End, now: u64) -> usize {
    let mut count: usize = 0;
    for _ in 0..64 {
        match end.emit(now) {
            Some(len) => count = count.saturating_add(len.saturating_sub(20)),
            None => return count,
        }
    }
    count
}

/// The octets of a small segment go out when it has waited for half a second.
#[test]
fn windows_count_in_the_units_of_their_syn(rt: HostRuntime) {
    for (answer, last, want) in &WINDOWS {
        let mut end = answered(&rt, rt.alloc(), answer);
        grows(&rt, &mut end);
        assert!(rt; writes(&mut end, &[0; 60_000]));
        assert!(rt; end.hear(0, last) == Some(Stays));
        let at_once = octets_sent(&mut end, 0);
        assert!(rt; end.connection.tick(Moment(500)) == Stays);
        let waited = octets_sent(&mut end, 500);
        assert!(rt; at_once.saturating_add(waited) == *want);
    }
}
