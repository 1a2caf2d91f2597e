//! Losses that are repaired, or are not, segment by segment (RFC 5681 section 3.2, RFC 6582 section 3.2, RFC 3042), and what else a host's set-up says of
//! a connection's windows and timeout.

use super::ends::{ACK, CALLER, End, LISTENER};
use super::recovery::Event::{Acknowledged, Expires, Writes};
use super::scale::NO_SHIFT;
use clock::Moment;
use std::alloc::Global;
use std::process::Abort;
use tcp_segment::Seq;
use tcp_state::Fate::Stays;
use tcp_state::{Buffers, CAPACITY, Connection, Control, Manner, Recovery};

/// The octets of a full segment, and those with its header.
const SEGMENT: usize = 1_460;

const WITH_HEADER: usize = 1_480;

/// The largest window that is not scaled.
const WIDE: u16 = 65_535;

const PLAIN: Control = Control {
    first_segments: 10,
    ..Control::PLAIN
};

const REPAIRED: Control = Control {
    recovery: Recovery::NewReno,
    ..PLAIN
};

/// What happens at the end that sends.
enum Event {
    /// Its caller writes so many segments.
    Writes(usize),
    /// A segment came to the peer: so many in order are acknowledged.
    Acknowledged(u32),
    /// The clock comes to this moment, in milliseconds.
    Expires(u64),
}

/// What happens, the segments that go out then, each by how many stand before it in the stream, and the congestion window and the slow start threshold
/// after that, in octets.
type Row = (Event, &'static [u32], u32, u32);

/// What happens at an end with this set-up, whose peer acknowledges with this window.
struct Run {
    name: &'static str,
    control: Control,
    window: u16,
    rows: &'static [Row],
}

/// Segments 0 and 3 are lost. They, 1 and 2 come before 15 (RFC 6582 section 3.2).
const TWO_REPAIRED: &[Row] = &[
    (Writes(24), &[0, 1, 2, 3, 4, 5, 6, 7, 8, 9], 14_600, 65_535),
    // 1 and 2 come: a new segment for each (RFC 3042 section 2), of which the window knows nothing
    (Acknowledged(0), &[10], 14_600, 65_535),
    (Acknowledged(0), &[11], 14_600, 65_535),
    // 4: the threshold is half of the 14,600 octets in flight without those two, and the window that and three segments
    (Acknowledged(0), &[0], 11_680, 7_300),
    // 5 to 8: a segment more for each, and no more than the 17,520 octets in flight
    (Acknowledged(0), &[], 13_140, 7_300),
    (Acknowledged(0), &[], 14_600, 7_300),
    (Acknowledged(0), &[], 16_060, 7_300),
    (Acknowledged(0), &[], 17_520, 7_300),
    // 9 to 11
    (Acknowledged(0), &[12], 18_980, 7_300),
    (Acknowledged(0), &[13], 20_440, 7_300),
    (Acknowledged(0), &[14], 21_900, 7_300),
    // 0 again, and 3 not yet: less by 4,380 octets, and more by a segment; 17,520 are in flight
    (Acknowledged(3), &[3, 15], 18_980, 7_300),
    // 12 to 14
    (Acknowledged(3), &[16], 20_440, 7_300),
    (Acknowledged(3), &[17], 21_900, 7_300),
    (Acknowledged(3), &[18], 23_360, 7_300),
    // 3 again: past 11, the last in flight at the third duplicate; 5,840 octets are in flight, and a segment more
    (Acknowledged(15), &[19], 7_300, 7_300),
];

/// Segments 0 and 3 are lost (RFC 5681 section 3.2).
const TWO_LOST: &[Row] = &[
    (Writes(24), &[0, 1, 2, 3, 4, 5, 6, 7, 8, 9], 14_600, 65_535),
    // 1 and 2 come, and 4
    (Acknowledged(0), &[], 14_600, 65_535),
    (Acknowledged(0), &[], 14_600, 65_535),
    (Acknowledged(0), &[0], 11_680, 7_300),
    // 5 and 6: no more than the 14,600 octets in flight
    (Acknowledged(0), &[], 13_140, 7_300),
    (Acknowledged(0), &[], 14_600, 7_300),
    // 7 to 9
    (Acknowledged(0), &[10], 16_060, 7_300),
    (Acknowledged(0), &[11], 17_520, 7_300),
    (Acknowledged(0), &[12], 18_980, 7_300),
    // 0 again ends it: 14,600 octets are in flight
    (Acknowledged(3), &[], 7_300, 7_300),
    // 10 to 12: the next recovery
    (Acknowledged(3), &[], 7_300, 7_300),
    (Acknowledged(3), &[], 7_300, 7_300),
    (Acknowledged(3), &[3], 11_680, 7_300),
    // 3 again: nothing is in flight
    (Acknowledged(13), &[13, 14, 15, 16, 17], 7_300, 7_300),
];

/// Segment 0 of ten is lost, and no more are written. At the end of the recovery nothing is in flight, so that the window is two segments.
const ALL_IN_FLIGHT: &[Row] = &[
    (Writes(10), &[0, 1, 2, 3, 4, 5, 6, 7, 8, 9], 14_600, 65_535),
    // 1 to 3 come
    (Acknowledged(0), &[], 14_600, 65_535),
    (Acknowledged(0), &[], 14_600, 65_535),
    (Acknowledged(0), &[0], 11_680, 7_300),
    // 4 to 9
    (Acknowledged(0), &[], 13_140, 7_300),
    (Acknowledged(0), &[], 14_600, 7_300),
    (Acknowledged(0), &[], 16_060, 7_300),
    (Acknowledged(0), &[], 17_520, 7_300),
    (Acknowledged(0), &[], 18_980, 7_300),
    (Acknowledged(0), &[], 20_440, 7_300),
    // 0 again
    (Acknowledged(10), &[], 2_920, 7_300),
    (Writes(10), &[10, 11], 2_920, 7_300),
];

/// Segment 0 is lost, and the peer's window is ten segments.
const NARROW: &[Row] = &[
    (Writes(24), &[0, 1, 2, 3, 4, 5, 6, 7, 8, 9], 14_600, 65_535),
    // 1 comes: the window that is told is another, so that is no duplicate ACK (RFC 5681 section 2)
    (Acknowledged(0), &[], 14_600, 65_535),
    // 2 to 4
    (Acknowledged(0), &[], 14_600, 65_535),
    (Acknowledged(0), &[], 14_600, 65_535),
    (Acknowledged(0), &[0], 11_680, 7_300),
    // 5 to 9
    (Acknowledged(0), &[], 13_140, 7_300),
    (Acknowledged(0), &[], 14_600, 7_300),
    (Acknowledged(0), &[], 16_060, 7_300),
    (Acknowledged(0), &[], 17_520, 7_300),
    (Acknowledged(0), &[], 18_980, 7_300),
    // 0 again
    (Acknowledged(10), &[10, 11], 2_920, 7_300),
];

/// Segments 0 and 3 are lost, and the others come after the timer expired: no recovery begins until all ten are acknowledged (RFC 6582 section 3.2, steps 2
/// and 4). The window is a segment then, and grows by one at an ACK (RFC 5681 section 3.1, RFC 3465 section 2.3).
const EXPIRED: &[Row] = &[
    (Writes(24), &[0, 1, 2, 3, 4, 5, 6, 7, 8, 9], 14_600, 65_535),
    (Expires(1_000), &[0], 1_460, 7_300),
    // 1, 2, and 4 to 6 come
    (Acknowledged(0), &[], 1_460, 7_300),
    (Acknowledged(0), &[], 1_460, 7_300),
    (Acknowledged(0), &[], 1_460, 7_300),
    (Acknowledged(0), &[], 1_460, 7_300),
    (Acknowledged(0), &[], 1_460, 7_300),
    // 0 again
    (Acknowledged(3), &[3, 4], 2_920, 7_300),
    // 7 to 9
    (Acknowledged(3), &[], 2_920, 7_300),
    (Acknowledged(3), &[], 2_920, 7_300),
    (Acknowledged(3), &[], 2_920, 7_300),
    // 3 again
    (Acknowledged(10), &[10, 11, 12], 4_380, 7_300),
    // 4 again, 11 and 12, but not 10: half of the 4,380 octets in flight without two segments is less than two segments
    (Acknowledged(10), &[13], 4_380, 7_300),
    (Acknowledged(10), &[14], 4_380, 7_300),
    (Acknowledged(10), &[10], 7_300, 2_920),
];

const RUNS: [Run; 5] = [
    Run {
        name: "two losses are repaired",
        control: REPAIRED,
        window: WIDE,
        rows: TWO_REPAIRED,
    },
    Run {
        name: "two losses are repaired in two recoveries",
        control: PLAIN,
        window: WIDE,
        rows: TWO_LOST,
    },
    Run {
        name: "a recovery ends with nothing in flight",
        control: REPAIRED,
        window: WIDE,
        rows: ALL_IN_FLIGHT,
    },
    Run {
        name: "nothing goes past the peer's window",
        control: REPAIRED,
        window: 14_600,
        rows: NARROW,
    },
    Run {
        name: "no recovery begins below what was in flight at an expiry",
        control: REPAIRED,
        window: WIDE,
        rows: EXPIRED,
    },
];

/// An end with such a set-up calls, and is answered after so many milliseconds. Its first octet has the number 0.
fn opened(
    rt: &impl Abort,
    alloc: Global,
    control: Control,
    least_timeout: u16,
    round_trip: u64,
) -> End {
    let manner = Manner {
        scales: false,
        minshall: false,
        control,
        least_timeout,
        guards: false,
    };
    let buffers = Buffers::new(alloc, CAPACITY, manner).expect(rt, "memory for two buffers");
    let connection = Connection::active(buffers, CALLER, LISTENER, Seq(u32::MAX), Moment(0));
    let mut end = End::new(connection);
    assert!(rt; end.emit(0) == Some(24));
    assert!(rt; end.hear(round_trip, NO_SHIFT) == Some(Stays));
    assert!(rt; end.emit(round_trip) == Some(20));
    end
}

/// So many segments are written.
fn writes(end: &mut End, now: u64, count: usize) -> bool {
    for _ in 0..count {
        if end.connection.send(Moment(now), &[0; SEGMENT]) != Ok(SEGMENT) {
            return false;
        }
    }
    true
}

/// The peer acknowledges so many segments, with this window.
fn hears(end: &mut End, now: u64, count: u32, window: u16) -> bool {
    let acknowledgement = count.saturating_mul(SEGMENT as u32);
    end.hear_forged(now, (8, acknowledgement), ACK, window, 0) == Some(Stays)
}

/// The number of the full segment that goes out; None where none does.
fn number_sent(end: &mut End, now: u64) -> Option<u32> {
    if end.emit(now)? != WITH_HEADER {
        return None;
    }
    let (number, _, _, _) = end.header()?;
    Some(number)
}

/// These segments go out, and nothing else is due.
fn sends(end: &mut End, now: u64, segments: &[u32]) -> bool {
    for place in segments {
        if number_sent(end, now) != Some(place.saturating_mul(SEGMENT as u32)) {
            return false;
        }
    }
    end.connection.due().is_none()
}

/// The congestion window and the slow start threshold.
fn windows(end: &End) -> (u32, u32) {
    let info = end.connection.info();
    (info.cwnd, info.ssthresh)
}

/// Plays a run with an end of its own.
fn plays(rt: &impl Abort, alloc: Global, run: &Run) {
    let mut end = opened(rt, alloc, run.control, 1_000, 0);
    let mut now = 0;
    for (row, (event, segments, cwnd, ssthresh)) in run.rows.iter().enumerate() {
        let is_heard = match event {
            Writes(count) => writes(&mut end, now, *count),
            Acknowledged(count) => hears(&mut end, now, *count, run.window),
            Expires(moment) => {
                now = *moment;
                end.connection.tick(Moment(now)) == Stays
            }
        };
        assert!(rt; is_heard, "{}: row {row}", run.name);
        assert!(rt;
            sends(&mut end, now, segments),
            "{}: row {row}, segments",
            run.name
        );
        assert!(rt;
            windows(&end) == (*cwnd, *ssthresh),
            "{}: row {row}, windows",
            run.name
        );
    }
}

#[test]
fn losses_are_repaired_as_the_set_up_says(rt: HostRuntime) {
    for run in &RUNS {
        plays(&rt, rt.alloc(), run);
    }
}

/// How many segments the first window is to have and the first threshold in octets, and what they are. The window has ten segments at most (RFC 6928
/// section 2), and three where nothing is said (RFC 5681 section 3.1).
const FIRST_WINDOWS: [(u8, u32, u32, u32); 6] = [
    (0, 65_535, 3, 65_535),
    (1, 0, 1, 65_535),
    (2, 65_534, 2, 65_535),
    (10, 65_536, 10, 65_536),
    (11, 1_073_741_824, 10, 1_073_741_824),
    (255, 4_294_967_295, 10, 1_073_741_824),
];

#[test]
fn first_windows_are_those_of_the_set_up(rt: HostRuntime) {
    for (first_segments, first_threshold, want, threshold) in &FIRST_WINDOWS {
        let control = Control {
            recovery: Recovery::NewReno,
            first_threshold: *first_threshold,
            first_segments: *first_segments,
        };
        let mut end = opened(&rt, rt.alloc(), control, 1_000, 0);
        assert!(rt; writes(&mut end, 0, 24));
        let all: [u32; 10] = [0, 1, 2, 3, 4, 5, 6, 7, 8, 9];
        let segments = all
            .get(..*want as usize)
            .expect(&rt, "ten segments at most");
        assert!(rt; sends(&mut end, 0, segments));
        assert!(rt; windows(&end) == (want.saturating_mul(SEGMENT as u32), *threshold));
    }
}

/// The least timeout of a set-up, how long the round trip of the SYN took, and the timeout, in milliseconds. It is three round trips (RFC 6298 section 2.2:
/// SRTT is R, RTTVAR is R / 2, and RTO is SRTT + 4 * RTTVAR), or the least, which is 200 at least and 1,000 at most.
const TIMEOUTS: [(u16, u64, u32); 8] = [
    (1_000, 10, 1_000),
    (200, 10, 200),
    (250, 10, 250),
    (200, 100, 300),
    (1_000, 100, 1_000),
    (200, 500, 1_500),
    (0, 10, 200),
    (65_535, 10, 1_000),
];

/// A segment goes out a second after the SYN.
#[test]
fn timeouts_are_the_least_of_the_set_up_at_least(rt: HostRuntime) {
    for (least, round_trip, want) in &TIMEOUTS {
        let mut end = opened(&rt, rt.alloc(), REPAIRED, *least, *round_trip);
        assert!(rt; writes(&mut end, 1_000, 1) && sends(&mut end, 1_000, &[0]));
        let deadline = Moment(1_000).after(u64::from(*want));
        assert!(rt; end.connection.info().rto == *want);
        assert!(rt; end.connection.deadline() == Some(deadline));
    }
}

/// When the closed window is probed: after a timeout of a second, and then after twice as long each time (RFC 9293 section 3.8.6.1).
const PROBES: [u64; 4] = [1_000, 3_000, 7_000, 15_000];

/// A segment is acknowledged, by which the window of ten grows by one, and no more may go out. The answers to probes, which have an octet, are no duplicate ACKs.
#[test]
fn answers_to_probes_begin_no_recovery(rt: HostRuntime) {
    let mut end = opened(&rt, rt.alloc(), REPAIRED, 1_000, 0);
    assert!(rt; writes(&mut end, 0, 1) && sends(&mut end, 0, &[0]));
    assert!(rt; hears(&mut end, 0, 1, 0) && writes(&mut end, 0, 1));
    for now in PROBES {
        assert!(rt; end.connection.deadline() == Some(Moment(now)));
        assert!(rt; end.connection.tick(Moment(now)) == Stays);
        assert!(rt; end.emit(now) == Some(21));
        assert!(rt; hears(&mut end, now, 1, 0) && sends(&mut end, now, &[]));
        assert!(rt; windows(&end) == (16_060, 65_535));
    }
}

/// How losses are repaired, and which segments go out where the window opens behind a probe that was refused, each by its octets with its header.
const REOPENED: [(Recovery, &[usize]); 2] = [
    (Recovery::Plain, &[WITH_HEADER, WITH_HEADER]),
    (Recovery::NewReno, &[21, WITH_HEADER, WITH_HEADER]),
];

/// Segments of these lengths go out, and nothing else is due.
fn emits(end: &mut End, now: u64, lens: &[usize]) -> bool {
    for len in lens {
        if end.emit(now) != Some(*len) {
            return false;
        }
    }
    end.connection.due().is_none()
}

/// The window closes behind a segment, and the peer refuses the octet of the first probe. When it opens, that octet goes out again before those behind it, once, where losses are repaired. The last octets
/// wait by Nagle's rule, for 500 ms at most, and the congestion window has nothing to pay.
#[test]
fn what_a_closed_window_refused_goes_out_again(rt: HostRuntime) {
    for (recovery, segments) in &REOPENED {
        let control = Control {
            recovery: *recovery,
            ..PLAIN
        };
        let mut end = opened(&rt, rt.alloc(), control, 1_000, 0);
        assert!(rt; writes(&mut end, 0, 1) && sends(&mut end, 0, &[0]));
        assert!(rt; hears(&mut end, 0, 1, 0) && writes(&mut end, 0, 3));
        assert!(rt; end.connection.tick(Moment(1_000)) == Stays);
        assert!(rt; end.emit(1_000) == Some(21));
        assert!(rt; hears(&mut end, 1_000, 1, 0) && end.connection.due().is_none());
        assert!(rt; hears(&mut end, 1_500, 1, WIDE));
        assert!(rt; emits(&mut end, 1_500, segments));
        assert!(rt; end.connection.deadline() == Some(Moment(2_000)));
        assert!(rt; windows(&end) == (16_060, 65_535));
    }
}
