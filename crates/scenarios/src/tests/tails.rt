//! Probes of the tail: what goes out where nothing is heard of the last segments, or the peer's acknowledgement of them is lost (RFC 8985 section 7).

use super::courses::Event::{Acknowledged, Brings, Expires, Writes};
use super::courses::{
    FIRST_NUMBERS, Opening, Row, SEGMENT, WIDE, WITH_HEADER, begun, goes, number_at, sent,
};
use clock::Moment;
use tcp_segment::Seq;
use tcp_state::Recovery;

/// Both sides take reports, and the peer's SYN comes after 40 ms, by which the smoothed round trip is that long, and the timeout the least, 1,000 ms. A probe
/// goes out 80 ms after the timer began, as that does with the segments at 40 ms (section 7.2).
const SELECTIVE: Opening = Opening {
    recovery: Recovery::Selective,
    sacks: true,
    round: 40,
};

/// What happens at an end that begins so.
struct Run {
    name: &'static str,
    opening: Opening,
    rows: &'static [Row],
}

/// Ten segments are lost, and so is the probe.
const SILENT: &[Row] = &[
    (Writes(10), &[0, 1, 2, 3, 4, 5, 6, 7, 8, 9], 14_600, 65_535),
    (Expires(119), &[], 14_600, 65_535),
    (Expires(120), &[9], 14_600, 65_535),
    // not again, and the timer runs on (section 7.3)
    (Expires(200), &[], 14_600, 65_535),
    (Expires(1_039), &[], 14_600, 65_535),
    // a window of a segment, and half of the ten in flight (RFC 5681 section 3.1)
    (Expires(1_040), &[0], 1_460, 7_300),
    // all behind it: a segment more each time
    (Acknowledged(1, &[]), &[1, 2], 2_920, 7_300),
    (Acknowledged(3, &[]), &[3, 4, 5], 4_380, 7_300),
    // no probe before all is acknowledged that was in flight at the expiry
    (Expires(1_200), &[], 4_380, 7_300),
    (Acknowledged(6, &[]), &[6, 7, 8, 9], 5_840, 7_300),
    (Acknowledged(10, &[]), &[], 7_300, 7_300),
    // and then again after 80 ms
    (Writes(2), &[10, 11], 7_300, 7_300),
    (Expires(1_279), &[], 7_300, 7_300),
    (Expires(1_280), &[11], 7_300, 7_300),
];

/// The last of ten segments is lost, and the probe comes: the loss is paid for (section 7.4).
const REPAIRED: &[Row] = &[
    (Writes(24), &[0, 1, 2, 3, 4, 5, 6, 7, 8, 9], 14_600, 65_535),
    (Expires(120), &[9], 14_600, 65_535),
    // half of the ten in flight at the probe; and nothing is in flight, so that the window is two segments (RFC 6582 section 3.2, step 3)
    (Acknowledged(10, &[]), &[10, 11], 2_920, 7_300),
    // slow start: both count (RFC 3465 section 2.3)
    (Acknowledged(12, &[]), &[12, 13, 14, 15], 5_840, 7_300),
];

/// All ten come, and the ACK of them is lost: the peer tells that 9 came twice (RFC 2883 section 4). That is an ACK as any other, by which the window grows
/// by two segments (RFC 3465 section 2.3).
const ACK_LOST: &[Row] = &[
    (Writes(24), &[0, 1, 2, 3, 4, 5, 6, 7, 8, 9], 14_600, 65_535),
    (Expires(120), &[9], 14_600, 65_535),
    (
        Acknowledged(10, &[(9, 10)]),
        &[10, 11, 12, 13, 14, 15, 16, 17, 18, 19, 20, 21],
        17_520,
        65_535,
    ),
];

/// Segments 7 to 9 of ten are lost. The others are acknowledged at 80 ms, by which the timer begins anew; the round trip is 40 ms again.
const THREE_LOST: &[Row] = &[
    (Writes(10), &[0, 1, 2, 3, 4, 5, 6, 7, 8, 9], 14_600, 65_535),
    (Expires(80), &[], 14_600, 65_535),
    (Acknowledged(7, &[]), &[], 17_520, 65_535),
    (Expires(159), &[], 17_520, 65_535),
    (Expires(160), &[9], 17_520, 65_535),
    // 9: what stands before it is lost. Half of the three in flight is less than two segments; none is in the network, and then 7 and 8
    (Acknowledged(7, &[(9, 10)]), &[7, 8], 2_920, 2_920),
    (Acknowledged(8, &[(9, 10)]), &[], 2_920, 2_920),
    // paid for once
    (Acknowledged(10, &[]), &[], 2_920, 2_920),
];

/// Segments 4 to 9 of ten are lost.
const SIX_LOST: &[Row] = &[
    (Writes(10), &[0, 1, 2, 3, 4, 5, 6, 7, 8, 9], 14_600, 65_535),
    (Expires(80), &[], 14_600, 65_535),
    (Acknowledged(4, &[]), &[], 17_520, 65_535),
    (Expires(160), &[9], 17_520, 65_535),
    // half of the six in flight, 8,760 octets: 4 to 6 are in the network then
    (Acknowledged(4, &[(9, 10)]), &[4, 5, 6], 4_380, 4_380),
    // 4 to 8 again, in order
    (Acknowledged(5, &[(9, 10)]), &[7], 4_380, 4_380),
    (Acknowledged(6, &[(9, 10)]), &[8], 4_380, 4_380),
    (Acknowledged(7, &[(9, 10)]), &[], 4_380, 4_380),
    (Acknowledged(8, &[(9, 10)]), &[], 4_380, 4_380),
    // past 9: nothing is in flight
    (Acknowledged(10, &[]), &[], 2_920, 4_380),
];

/// Segments 8 and 9 of ten are lost, and the peer waited with the ACK of 7: that of the probe acknowledges it, too, and then reports 9.
const BEHIND_AN_ACK: &[Row] = &[
    (Writes(10), &[0, 1, 2, 3, 4, 5, 6, 7, 8, 9], 14_600, 65_535),
    (Expires(80), &[], 14_600, 65_535),
    (Acknowledged(7, &[]), &[], 17_520, 65_535),
    (Expires(160), &[9], 17_520, 65_535),
    // half of the two in flight behind the ACK is less than two segments
    (Acknowledged(8, &[(9, 10)]), &[8], 2_920, 2_920),
    (Acknowledged(10, &[]), &[], 2_920, 2_920),
];

/// An ACK comes of some of what was in flight at the probe, and no more: no further one goes out before the timer expires, which began anew with that ACK.
const ONCE: &[Row] = &[
    (Writes(10), &[0, 1, 2, 3, 4, 5, 6, 7, 8, 9], 14_600, 65_535),
    (Expires(120), &[9], 14_600, 65_535),
    (Expires(160), &[], 14_600, 65_535),
    (Acknowledged(5, &[]), &[], 17_520, 65_535),
    (Expires(240), &[], 17_520, 65_535),
    (Expires(1_159), &[], 17_520, 65_535),
    // half of the five in flight
    (Expires(1_160), &[5], 1_460, 3_650),
];

/// New segments go out after the probe. The loss is paid for by the eight that were in flight at it, and the next probe is counted from that ACK on.
const NEW_BEHIND: &[Row] = &[
    (Writes(8), &[0, 1, 2, 3, 4, 5, 6, 7], 14_600, 65_535),
    (Expires(120), &[7], 14_600, 65_535),
    (Writes(2), &[8, 9], 14_600, 65_535),
    (Expires(160), &[], 14_600, 65_535),
    // half of 11,680 octets; two are in flight behind the ACK
    (Acknowledged(8, &[]), &[], 4_380, 5_840),
    (Expires(239), &[], 4_380, 5_840),
    (Expires(240), &[9], 4_380, 5_840),
];

/// The window of the peer is five segments since, and then nine: none is waited for before it is ten again, and then its moment has passed.
const NARROWED: &[Row] = &[
    (Writes(10), &[0, 1, 2, 3, 4, 5, 6, 7, 8, 9], 14_600, 65_535),
    (Brings(7_300, 0, &[]), &[], 14_600, 65_535),
    (Expires(120), &[], 14_600, 65_535),
    (Brings(13_140, 0, &[]), &[], 14_600, 65_535),
    (Brings(14_600, 0, &[]), &[], 14_600, 65_535),
    (Expires(121), &[9], 14_600, 65_535),
];

/// The peer has its time for an ACK of a single segment, and half of a segment is less than two.
const ONE_SEGMENT: &[Row] = &[
    (Writes(1), &[0], 14_600, 65_535),
    (Expires(120), &[], 14_600, 65_535),
    (Expires(1_039), &[], 14_600, 65_535),
    (Expires(1_040), &[0], 1_460, 2_920),
];

const TWO_SEGMENTS: &[Row] = &[
    (Writes(2), &[0, 1], 14_600, 65_535),
    (Expires(119), &[], 14_600, 65_535),
    (Expires(120), &[1], 14_600, 65_535),
];

/// The timer alone brings a segment again.
const NO_PROBE: &[Row] = &[
    (Writes(10), &[0, 1, 2, 3, 4, 5, 6, 7, 8, 9], 14_600, 65_535),
    (Expires(120), &[], 14_600, 65_535),
    (Expires(1_039), &[], 14_600, 65_535),
    (Expires(1_040), &[0], 1_460, 7_300),
];

/// The peer answers in no time: 10 ms at least.
const SHORT: &[Row] = &[
    (Writes(10), &[0, 1, 2, 3, 4, 5, 6, 7, 8, 9], 14_600, 65_535),
    (Expires(9), &[], 14_600, 65_535),
    (Expires(10), &[9], 14_600, 65_535),
];

/// It answers after 2,000 ms. The timeout is 6,000 ms, and after each further round trip of that length less by a quarter of what it is longer: 5,000, 4,250
/// and 3,688 ms, which is less than two round trips (RFC 6298 section 2.3).
const LONG: &[Row] = &[
    (Writes(1), &[0], 14_600, 65_535),
    (Expires(4_000), &[], 14_600, 65_535),
    (Acknowledged(1, &[]), &[], 16_060, 65_535),
    (Writes(1), &[1], 16_060, 65_535),
    (Expires(6_000), &[], 16_060, 65_535),
    (Acknowledged(2, &[]), &[], 17_520, 65_535),
    (Writes(1), &[2], 17_520, 65_535),
    (Expires(8_000), &[], 17_520, 65_535),
    (Acknowledged(3, &[]), &[], 18_980, 65_535),
    (Writes(2), &[3, 4], 18_980, 65_535),
    (Expires(11_687), &[], 18_980, 65_535),
    // half of the two in flight is less than two segments
    (Expires(11_688), &[3], 1_460, 2_920),
];

const RUNS: [Run; 16] = [
    Run {
        name: "nothing is heard",
        opening: SELECTIVE,
        rows: SILENT,
    },
    Run {
        name: "the probe repairs the loss",
        opening: SELECTIVE,
        rows: REPAIRED,
    },
    Run {
        name: "the ACK was lost",
        opening: SELECTIVE,
        rows: ACK_LOST,
    },
    Run {
        name: "three are lost",
        opening: SELECTIVE,
        rows: THREE_LOST,
    },
    Run {
        name: "six are lost",
        opening: SELECTIVE,
        rows: SIX_LOST,
    },
    Run {
        name: "the report comes with an ACK of new octets",
        opening: SELECTIVE,
        rows: BEHIND_AN_ACK,
    },
    Run {
        name: "one probe goes out",
        opening: SELECTIVE,
        rows: ONCE,
    },
    Run {
        name: "new segments go out after the probe",
        opening: SELECTIVE,
        rows: NEW_BEHIND,
    },
    Run {
        name: "the peer's window is too narrow",
        opening: SELECTIVE,
        rows: NARROWED,
    },
    Run {
        name: "a single segment is waited for",
        opening: SELECTIVE,
        rows: ONE_SEGMENT,
    },
    Run {
        name: "two segments aren't",
        opening: SELECTIVE,
        rows: TWO_SEGMENTS,
    },
    Run {
        name: "the peer takes no reports",
        opening: Opening {
            sacks: false,
            ..SELECTIVE
        },
        rows: NO_PROBE,
    },
    Run {
        name: "our host takes none",
        opening: Opening {
            recovery: Recovery::NewReno,
            ..SELECTIVE
        },
        rows: NO_PROBE,
    },
    Run {
        name: "it repairs nothing",
        opening: Opening {
            recovery: Recovery::Plain,
            ..SELECTIVE
        },
        rows: NO_PROBE,
    },
    Run {
        name: "a short round trip",
        opening: Opening {
            round: 0,
            ..SELECTIVE
        },
        rows: SHORT,
    },
    Run {
        name: "a long round trip",
        opening: Opening {
            round: 2_000,
            ..SELECTIVE
        },
        rows: LONG,
    },
];

#[test]
fn silent_tails_go_out_again(rt: HostRuntime) {
    for run in &RUNS {
        for first in FIRST_NUMBERS {
            let mut course = begun(&rt, rt.alloc(), first, run.opening);
            goes(&rt, &mut course, run.name, WIDE, run.rows);
        }
    }
}

/// The moment of the probe is told, and then that of the timer. The last octets go out again that fill a segment, here 1,360 of the segment before the last
/// and the 100 of that.
#[test]
fn the_last_octets_go_out_again(rt: HostRuntime) {
    for first in FIRST_NUMBERS {
        let mut course = begun(&rt, rt.alloc(), first, SELECTIVE);
        let rows: [Row; 1] = [(Writes(2), &[0, 1], 14_600, 65_535)];
        goes(&rt, &mut course, "a small segment", WIDE, &rows);
        let end = &mut course.end;
        end.connection.set_nodelay(Moment(40), true);
        assert!(rt; end.connection.send(Moment(40), &[0; 100]) == Ok(100));
        let Seq(small) = number_at(first, 2, SEGMENT);
        assert!(rt; sent(end, 40) == Some((small, 120)));
        assert!(rt; end.connection.deadline() == Some(Moment(120)));
        assert!(rt; course.happens(&Expires(120), WIDE));
        let end = &mut course.end;
        let Seq(last) = number_at(first, 1_560, 1);
        assert!(rt; sent(end, 120) == Some((last, WITH_HEADER)));
        assert!(rt; end.connection.due().is_none());
        assert!(rt; end.connection.deadline() == Some(Moment(1_040)));
    }
}
