//! Losses that are repaired by what the peer's acknowledgements report (RFC 2018, RFC 6675), segment by segment.

use super::courses::Event::{Acknowledged, Brings, Expires, Reports, Writes};
use super::courses::{
    FIRST_NUMBERS, Opening, Ranges, Row, WIDE, begun, goes, number_at, sent, windows,
};
use tcp_segment::Seq;
use tcp_state::Recovery;

/// What happens at an end whose peer's SYN says that selective acknowledgements are taken, or doesn't, and which acknowledges with this window.
struct Run {
    name: &'static str,
    sacks: bool,
    window: u16,
    rows: &'static [Row],
}

/// Segments 0 and 3 are lost. They, 1 and 2 come before 15 (section 5).
const TWO_REPAIRED: &[Row] = &[
    (Writes(30), &[0, 1, 2, 3, 4, 5, 6, 7, 8, 9], 14_600, 65_535),
    // 1 and 2 come: nine are in the network, and a new one goes out for each (step 3.3)
    (Acknowledged(0, &[(1, 2)]), &[10], 14_600, 65_535),
    (Acknowledged(0, &[(1, 3)]), &[11], 14_600, 65_535),
    // 4: half of the 14,600 octets in flight without those two (step 4.2); nine are in the network, 0 once more among them
    (Acknowledged(0, &[(4, 5), (1, 3)]), &[0], 7_300, 7_300),
    // 5: eight
    (Acknowledged(0, &[(4, 6), (1, 3)]), &[], 7_300, 7_300),
    // 6: 3 is lost, too; six
    (Acknowledged(0, &[(4, 7), (1, 3)]), &[], 7_300, 7_300),
    // 7: five
    (Acknowledged(0, &[(4, 8), (1, 3)]), &[], 7_300, 7_300),
    // 8: four, which are 9 to 11 and 0, and then 3 once more (section 4, NextSeg, rule 1)
    (Acknowledged(0, &[(4, 9), (1, 3)]), &[3], 7_300, 7_300),
    // 9 to 11: four each time, and then a new one (rule 2)
    (Acknowledged(0, &[(4, 10), (1, 3)]), &[12], 7_300, 7_300),
    (Acknowledged(0, &[(4, 11), (1, 3)]), &[13], 7_300, 7_300),
    (Acknowledged(0, &[(4, 12), (1, 3)]), &[14], 7_300, 7_300),
    // 0 again: 3 and 12 to 14 are in the network
    (Acknowledged(3, &[(4, 12)]), &[15], 7_300, 7_300),
    // 3 again: past 11, the last in flight at the third report; 12 to 15 are in the network
    (Acknowledged(12, &[]), &[16], 7_300, 7_300),
];

/// Segment 0 comes late, behind 1 and 2; so twice as many octets are waited for behind 3, four segments, before that is lost.
const LATE: &[Row] = &[
    (Writes(30), &[0, 1, 2, 3, 4, 5, 6, 7, 8, 9], 14_600, 65_535),
    (Acknowledged(0, &[(1, 2)]), &[10], 14_600, 65_535),
    (Acknowledged(0, &[(1, 3)]), &[11], 14_600, 65_535),
    // nine are in flight, and the window grows by two segments (RFC 3465 section 2.3)
    (Acknowledged(3, &[]), &[12, 13, 14], 17_520, 65_535),
    // 4 to 7 come, and the third report tells no loss: eleven are in the network each time
    (Acknowledged(3, &[(4, 5)]), &[15], 17_520, 65_535),
    (Acknowledged(3, &[(4, 6)]), &[16], 17_520, 65_535),
    (Acknowledged(3, &[(4, 7)]), &[17], 17_520, 65_535),
    (Acknowledged(3, &[(4, 8)]), &[18], 17_520, 65_535),
    // 8: more than four segments; half of the 17,520 octets in flight without what reports let out
    (Acknowledged(3, &[(4, 9)]), &[3], 8_760, 8_760),
    // 9: ten are in the network
    (Acknowledged(3, &[(4, 10)]), &[], 8_760, 8_760),
];

/// Segment 0 comes late, and then each second segment behind 3 does first: ranges are waited for, too.
const LATE_RANGES: &[Row] = &[
    (Writes(30), &[0, 1, 2, 3, 4, 5, 6, 7, 8, 9], 14_600, 65_535),
    (Acknowledged(0, &[(1, 2)]), &[10], 14_600, 65_535),
    (Acknowledged(0, &[(1, 3)]), &[11], 14_600, 65_535),
    (Acknowledged(3, &[]), &[12, 13, 14], 17_520, 65_535),
    (Acknowledged(3, &[(4, 5)]), &[15], 17_520, 65_535),
    (Acknowledged(3, &[(6, 7), (4, 5)]), &[16], 17_520, 65_535),
    (
        Acknowledged(3, &[(8, 9), (6, 7), (4, 5)]),
        &[17],
        17_520,
        65_535,
    ),
    (
        Acknowledged(3, &[(10, 11), (8, 9), (6, 7), (4, 5)]),
        &[18],
        17_520,
        65_535,
    ),
    // the fifth segment, and 3 alone is lost
    (
        Acknowledged(3, &[(12, 13), (10, 11), (8, 9), (6, 7)]),
        &[3],
        8_760,
        8_760,
    ),
];

/// An octet is late by no more than a segment: three segments tell a loss.
const HARDLY_LATE: &[Row] = &[
    (Writes(30), &[0, 1, 2, 3, 4, 5, 6, 7, 8, 9], 14_600, 65_535),
    (Acknowledged(0, &[(1, 2)]), &[10], 14_600, 65_535),
    (Acknowledged(2, &[]), &[11, 12, 13], 17_520, 65_535),
    (Acknowledged(2, &[(3, 4)]), &[14], 17_520, 65_535),
    (Acknowledged(2, &[(3, 5)]), &[15], 17_520, 65_535),
    (Acknowledged(2, &[(3, 6)]), &[2], 8_760, 8_760),
];

/// The same losses, and nothing is reported: RFC 6582 has it.
const UNREPORTED: &[Row] = &[
    (Writes(30), &[0, 1, 2, 3, 4, 5, 6, 7, 8, 9], 14_600, 65_535),
    // 1 and 2 come: a new segment for each (RFC 3042 section 2), of which the window knows nothing
    (Acknowledged(0, &[]), &[10], 14_600, 65_535),
    (Acknowledged(0, &[]), &[11], 14_600, 65_535),
    // 4: the threshold is half of the 14,600 octets in flight without those two, and the window that and three segments
    (Acknowledged(0, &[]), &[0], 11_680, 7_300),
    // 5 to 8: a segment more for each, and no more than the 17,520 octets in flight
    (Acknowledged(0, &[]), &[], 13_140, 7_300),
    (Acknowledged(0, &[]), &[], 14_600, 7_300),
    (Acknowledged(0, &[]), &[], 16_060, 7_300),
    (Acknowledged(0, &[]), &[], 17_520, 7_300),
    // 9 to 11
    (Acknowledged(0, &[]), &[12], 18_980, 7_300),
    (Acknowledged(0, &[]), &[13], 20_440, 7_300),
    (Acknowledged(0, &[]), &[14], 21_900, 7_300),
    // 0 again, and 3 not yet: less by 4,380 octets, and more by a segment; 17,520 are in flight
    (Acknowledged(3, &[]), &[3, 15], 18_980, 7_300),
    // 12 to 14
    (Acknowledged(3, &[]), &[16], 20_440, 7_300),
    (Acknowledged(3, &[]), &[17], 21_900, 7_300),
    (Acknowledged(3, &[]), &[18], 23_360, 7_300),
    // 3 again: past 11, the last in flight at the third duplicate; 5,840 octets are in flight, and a segment more
    (Acknowledged(15, &[]), &[19], 7_300, 7_300),
];

/// Segments 0 and 3 are lost, and the first ACK that comes tells all of that.
const AT_ONCE: &[Row] = &[
    (Writes(30), &[0, 1, 2, 3, 4, 5, 6, 7, 8, 9], 14_600, 65_535),
    // both are lost (step 2), so that they are all that is in the network (step 4.5); half of the ten in flight
    (
        Acknowledged(0, &[(4, 10), (1, 3)]),
        &[0, 3, 10, 11, 12],
        7_300,
        7_300,
    ),
    // 0 again: 3 and 10 to 12 are in the network
    (Acknowledged(3, &[(4, 10)]), &[13], 7_300, 7_300),
    // 3 again: past 9; 10 to 13 are in the network
    (Acknowledged(10, &[]), &[14], 7_300, 7_300),
];

/// Segment 0 is lost, and so it is when it goes out again.
const LOST_AGAIN: &[Row] = &[
    (Writes(16), &[0, 1, 2, 3, 4, 5, 6, 7, 8, 9], 14_600, 65_535),
    // 1 to 3 come
    (Acknowledged(0, &[(1, 2)]), &[10], 14_600, 65_535),
    (Acknowledged(0, &[(1, 3)]), &[11], 14_600, 65_535),
    (Acknowledged(0, &[(1, 4)]), &[0], 7_300, 7_300),
    // 4 to 7: from eight in the network to five
    (Acknowledged(0, &[(1, 5)]), &[], 7_300, 7_300),
    (Acknowledged(0, &[(1, 6)]), &[], 7_300, 7_300),
    (Acknowledged(0, &[(1, 7)]), &[], 7_300, 7_300),
    (Acknowledged(0, &[(1, 8)]), &[], 7_300, 7_300),
    // 8 to 11: four each time
    (Acknowledged(0, &[(1, 9)]), &[12], 7_300, 7_300),
    (Acknowledged(0, &[(1, 10)]), &[13], 7_300, 7_300),
    (Acknowledged(0, &[(1, 11)]), &[14], 7_300, 7_300),
    (Acknowledged(0, &[(1, 12)]), &[15], 7_300, 7_300),
    // 12 to 15: 0 went out again, and nothing else is missing or held
    (Acknowledged(0, &[(1, 13)]), &[], 7_300, 7_300),
    (Acknowledged(0, &[(1, 14)]), &[], 7_300, 7_300),
    (Acknowledged(0, &[(1, 15)]), &[], 7_300, 7_300),
    (Acknowledged(0, &[(1, 16)]), &[], 7_300, 7_300),
    // a window of a segment, and half of the 16 in flight (RFC 5681 section 3.1)
    (Expires(1_000), &[0], 1_460, 11_680),
    // 0 again; and the peer let go what it kept, but for 4 and 5 (RFC 2018 section 8)
    (Acknowledged(1, &[(4, 6)]), &[1, 2], 2_920, 11_680),
    // 1 again, and 2
    (Acknowledged(2, &[(4, 6)]), &[3], 4_380, 11_680),
    (Acknowledged(3, &[(4, 6)]), &[6], 5_840, 11_680),
    // 3 again: a segment more in the slow start after an expiry, whatever is acknowledged (RFC 3465 section 2.3)
    (Acknowledged(6, &[]), &[7, 8, 9, 10], 7_300, 11_680),
    // 6 again
    (Acknowledged(7, &[]), &[11, 12], 8_760, 11_680),
];

/// Segments 0 and 3 are lost, and the others come after the timer expired: no recovery begins until all ten are acknowledged (section 5.1).
const EXPIRED: &[Row] = &[
    (Writes(24), &[0, 1, 2, 3, 4, 5, 6, 7, 8, 9], 14_600, 65_535),
    (Expires(1_000), &[0], 1_460, 7_300),
    // 1, 2, and 4 to 9 come
    (Acknowledged(0, &[(1, 2)]), &[], 1_460, 7_300),
    (Acknowledged(0, &[(1, 3)]), &[], 1_460, 7_300),
    (Acknowledged(0, &[(4, 5), (1, 3)]), &[], 1_460, 7_300),
    (Acknowledged(0, &[(4, 6), (1, 3)]), &[], 1_460, 7_300),
    (Acknowledged(0, &[(4, 7), (1, 3)]), &[], 1_460, 7_300),
    (Acknowledged(0, &[(4, 8), (1, 3)]), &[], 1_460, 7_300),
    (Acknowledged(0, &[(4, 9), (1, 3)]), &[], 1_460, 7_300),
    (Acknowledged(0, &[(4, 10), (1, 3)]), &[], 1_460, 7_300),
    // 0 again: 3, and not 4, which is reported since
    (Acknowledged(3, &[(4, 10)]), &[3], 2_920, 7_300),
    // 3 again
    (Acknowledged(10, &[]), &[10, 11, 12], 4_380, 7_300),
    // 11 to 13, but not 10: half of the three in flight without two is less than two segments
    (Acknowledged(10, &[(11, 12)]), &[13], 4_380, 7_300),
    (Acknowledged(10, &[(11, 13)]), &[14], 4_380, 7_300),
    (Acknowledged(10, &[(11, 14)]), &[10], 2_920, 2_920),
];

/// Segments 0, 3 and 8 of ten are lost, and no more are written. No more than 9 is reported past 8, so that it isn't lost.
const LAST_GAP: &[Row] = &[
    (Writes(10), &[0, 1, 2, 3, 4, 5, 6, 7, 8, 9], 14_600, 65_535),
    // 1, 2 and 4 come
    (Acknowledged(0, &[(1, 2)]), &[], 14_600, 65_535),
    (Acknowledged(0, &[(1, 3)]), &[], 14_600, 65_535),
    (Acknowledged(0, &[(4, 5), (1, 3)]), &[0], 7_300, 7_300),
    // 5: six in the network
    (Acknowledged(0, &[(4, 6), (1, 3)]), &[], 7_300, 7_300),
    // 6: 7 to 9 and 0
    (Acknowledged(0, &[(4, 7), (1, 3)]), &[3], 7_300, 7_300),
    // 7: 8, 9, 0 and 3, and nothing is reported past 8
    (Acknowledged(0, &[(4, 8), (1, 3)]), &[], 7_300, 7_300),
    // 9: 8, 0 and 3 (section 4, NextSeg, rule 3)
    (
        Acknowledged(0, &[(9, 10), (4, 8), (1, 3)]),
        &[8],
        7_300,
        7_300,
    ),
    // nothing more, as often as that is told
    (
        Acknowledged(0, &[(9, 10), (4, 8), (1, 3)]),
        &[],
        7_300,
        7_300,
    ),
];

/// The same, and the ACKs of 4 to 7 are lost: 0, what is lost, and what may be.
const LAST_GAP_AT_ONCE: &[Row] = &[
    (Writes(10), &[0, 1, 2, 3, 4, 5, 6, 7, 8, 9], 14_600, 65_535),
    (Acknowledged(0, &[(1, 2)]), &[], 14_600, 65_535),
    (Acknowledged(0, &[(1, 3)]), &[], 14_600, 65_535),
    (
        Acknowledged(0, &[(9, 10), (4, 8), (1, 3)]),
        &[0, 3, 8],
        7_300,
        7_300,
    ),
    (
        Acknowledged(0, &[(9, 10), (4, 8), (1, 3)]),
        &[],
        7_300,
        7_300,
    ),
];

/// The same, and more are written: new segments go out before what may be lost (rule 2), and behind what is.
const GAP_BEHIND_NEW: &[Row] = &[
    (Writes(24), &[0, 1, 2, 3, 4, 5, 6, 7, 8, 9], 14_600, 65_535),
    (Acknowledged(0, &[(1, 2)]), &[10], 14_600, 65_535),
    (Acknowledged(0, &[(1, 3)]), &[11], 14_600, 65_535),
    // 9: 8, 10, 11 and 0 are in the network, and then 3, too
    (
        Acknowledged(0, &[(9, 10), (4, 8), (1, 3)]),
        &[0, 3],
        7_300,
        7_300,
    ),
    // 10: 8, 11, 0 and 3
    (
        Acknowledged(0, &[(9, 11), (4, 8), (1, 3)]),
        &[12],
        7_300,
        7_300,
    ),
    // 11: 8 is lost; 12, 0 and 3 are in the network, and then 8, too
    (
        Acknowledged(0, &[(9, 12), (4, 8), (1, 3)]),
        &[8, 13],
        7_300,
        7_300,
    ),
    // 0 again, and 3: 12, 13, 3 and 8 are in the network; and then 12 to 14 and 8
    (Acknowledged(3, &[(9, 12), (4, 8)]), &[14], 7_300, 7_300),
    (Acknowledged(8, &[(9, 12)]), &[15], 7_300, 7_300),
    // 12: 13 to 15 and 8
    (Acknowledged(8, &[(9, 13)]), &[16], 7_300, 7_300),
    // 8 again: past 11, the last in flight at the third report; 13 to 16 are in the network
    (Acknowledged(13, &[]), &[17], 7_300, 7_300),
];

/// The same of more that are written, and the peer's window is ten segments: nothing new may go out.
const NARROW: &[Row] = &[
    (Writes(24), &[0, 1, 2, 3, 4, 5, 6, 7, 8, 9], 14_600, 65_535),
    (Acknowledged(0, &[(1, 2)]), &[], 14_600, 65_535),
    (Acknowledged(0, &[(1, 3)]), &[], 14_600, 65_535),
    (
        Acknowledged(0, &[(9, 10), (4, 8), (1, 3)]),
        &[0, 3, 8],
        7_300,
        7_300,
    ),
];

/// Octets of two segments and one more are reported, and two reports count (step 2).
const TWO_SEGMENTS_AND_MORE: &[Row] = &[
    (Writes(24), &[0, 1, 2, 3, 4, 5, 6, 7, 8, 9], 14_600, 65_535),
    // eight segments are in the network
    (Reports(0, &[(1_460, 4_380)]), &[10, 11], 14_600, 65_535),
    (Reports(0, &[(1_460, 4_381)]), &[0], 7_300, 7_300),
];

/// Three ranges are reported, of ten octets each (step 2).
const THREE_RANGES: &[Row] = &[
    (Writes(24), &[0, 1, 2, 3, 4, 5, 6, 7, 8, 9], 14_600, 65_535),
    (
        Reports(0, &[(2_920, 2_930), (1_460, 1_470)]),
        &[],
        14_600,
        65_535,
    ),
    (
        Reports(0, &[(4_380, 4_390), (2_920, 2_930), (1_460, 1_470)]),
        &[0],
        7_300,
        7_300,
    ),
];

/// Three reports count of ten octets each, by which nothing is lost yet (step 1).
const THREE_REPORTS: &[Row] = &[
    (Writes(24), &[0, 1, 2, 3, 4, 5, 6, 7, 8, 9], 14_600, 65_535),
    (Reports(0, &[(1_460, 1_470)]), &[], 14_600, 65_535),
    (Reports(0, &[(1_460, 1_480)]), &[], 14_600, 65_535),
    (Reports(0, &[(1_460, 1_490)]), &[0], 7_300, 7_300),
];

/// They count whatever else they bring (section 2): other windows, and an octet.
const WITH_MORE: &[Row] = &[
    (Writes(24), &[0, 1, 2, 3, 4, 5, 6, 7, 8, 9], 14_600, 65_535),
    (Brings(60_000, 0, &[(1_460, 1_470)]), &[], 14_600, 65_535),
    (Brings(50_000, 0, &[(1_460, 1_480)]), &[], 14_600, 65_535),
    (Brings(50_000, 1, &[(1_460, 1_490)]), &[0], 7_300, 7_300),
];

/// They do not where they repeat what was reported (section 2), in whole or in part.
const REPEATED: &[Row] = &[
    (Writes(24), &[0, 1, 2, 3, 4, 5, 6, 7, 8, 9], 14_600, 65_535),
    (Acknowledged(0, &[(1, 2)]), &[10], 14_600, 65_535),
    (Acknowledged(0, &[(1, 2)]), &[], 14_600, 65_535),
    (Acknowledged(0, &[(1, 2)]), &[], 14_600, 65_535),
    (Acknowledged(0, &[(1, 2)]), &[], 14_600, 65_535),
    (Acknowledged(0, &[(1, 3)]), &[11], 14_600, 65_535),
    // 2 came twice, and then 1 (RFC 2883 section 4)
    (Acknowledged(0, &[(2, 3), (1, 3)]), &[], 14_600, 65_535),
    (Acknowledged(0, &[(1, 2), (1, 3)]), &[], 14_600, 65_535),
    (Acknowledged(0, &[]), &[], 14_600, 65_535),
    (Acknowledged(0, &[(1, 4)]), &[0], 7_300, 7_300),
];

/// An ACK of new octets begins their count anew (section 5). In slow start it adds a segment to the window, half of which is the threshold.
const COUNTED_ANEW: &[Row] = &[
    (Writes(24), &[0, 1, 2, 3, 4, 5, 6, 7, 8, 9], 14_600, 65_535),
    (Reports(0, &[(2_920, 2_930)]), &[], 14_600, 65_535),
    (Reports(0, &[(2_920, 2_940)]), &[], 14_600, 65_535),
    (Acknowledged(1, &[]), &[10, 11], 16_060, 65_535),
    (Reports(1, &[(2_920, 2_950)]), &[], 16_060, 65_535),
    (Reports(1, &[(2_920, 2_960)]), &[], 16_060, 65_535),
    (Reports(1, &[(2_920, 2_970)]), &[1], 8_030, 8_030),
];

/// One that reports is the first of those behind it (section 2): the first of three by which nothing is lost yet.
const FIRST_OF_THREE: &[Row] = &[
    (Writes(24), &[0, 1, 2, 3, 4, 5, 6, 7, 8, 9], 14_600, 65_535),
    // a segment more in slow start; nine but for ten octets are in the network, and two new ones
    (Reports(1, &[(2_920, 2_930)]), &[10, 11], 16_060, 65_535),
    (Reports(1, &[(2_920, 2_940)]), &[], 16_060, 65_535),
    // half of the eleven in flight, 1 to 11
    (Reports(1, &[(2_920, 2_950)]), &[1], 8_030, 8_030),
];

/// Segment 2 is lost, and so are the ACKs of 0, 1 and 3 to 5: that of 6 acknowledges 0 and 1, and reports 3 to 6, by which 2 is lost (step 2).
const BEHIND_AN_ACK: &[Row] = &[
    (Writes(24), &[0, 1, 2, 3, 4, 5, 6, 7, 8, 9], 14_600, 65_535),
    // the window grows by the two to 17,520 octets first; then it is half of the eight in flight behind the ACK, 2 to 9, which are 11,680 octets
    // (step 4.2). 2 is lost and 3 to 6 are reported, so that 7 to 9 and 2 once more are in the network, as many as the window has
    (Acknowledged(2, &[(3, 7)]), &[2], 5_840, 5_840),
    // 7 and 8: three, which are 8, 9 and 2, and then 9, 10 and 2; a new one each time (rule 2)
    (Acknowledged(2, &[(3, 8)]), &[10], 5_840, 5_840),
    (Acknowledged(2, &[(3, 9)]), &[11], 5_840, 5_840),
    // 2 again, and 9 not yet: 9 to 11 are in the network
    (Acknowledged(9, &[]), &[12], 5_840, 5_840),
    // 9: the last in flight at the loss; 10 to 12 are in the network
    (Acknowledged(10, &[]), &[13], 5_840, 5_840),
];

/// What is reported past the end of a recovery stays after it (step A): segment 10 is lost by the third range of ten octets, of which the first two came before.
const KEPT: &[Row] = &[
    (Writes(24), &[0, 1, 2, 3, 4, 5, 6, 7, 8, 9], 14_600, 65_535),
    // 0 is lost: 4 to 9 and 0 are in the network
    (Acknowledged(0, &[(1, 4)]), &[0], 7_300, 7_300),
    // four each time
    (Acknowledged(0, &[(1, 7)]), &[10], 7_300, 7_300),
    (Acknowledged(0, &[(1, 8)]), &[11], 7_300, 7_300),
    (Acknowledged(0, &[(1, 9)]), &[12], 7_300, 7_300),
    (Acknowledged(0, &[(1, 10)]), &[13], 7_300, 7_300),
    // of 11 and 12: five, without some octets
    (Reports(0, &[(16_060, 16_070)]), &[], 7_300, 7_300),
    (Reports(0, &[(17_520, 17_530)]), &[], 7_300, 7_300),
    // 0 again: past 9, the last in flight at the loss
    (Acknowledged(10, &[]), &[14], 7_300, 7_300),
    // of 13: half of the five in flight
    (Reports(10, &[(18_980, 18_990)]), &[10], 3_650, 3_650),
];

/// Segment 0 is late, and goes out again: when it comes twice, what the loss took comes back (RFC 3708 section 3).
const NEEDLESS: &[Row] = &[
    (Writes(30), &[0, 1, 2, 3, 4, 5, 6, 7, 8, 9], 14_600, 65_535),
    (Acknowledged(0, &[(1, 2)]), &[10], 14_600, 65_535),
    (Acknowledged(0, &[(1, 3)]), &[11], 14_600, 65_535),
    (Acknowledged(0, &[(1, 4)]), &[0], 7_300, 7_300),
    // 0 comes late: 4 to 11 are in the network; and then 8 to 11
    (Acknowledged(4, &[]), &[], 7_300, 7_300),
    (Acknowledged(8, &[]), &[12], 7_300, 7_300),
    // past 11: 12 is in flight, and a segment more
    (Acknowledged(12, &[]), &[13], 2_920, 7_300),
    // 0 again (RFC 2883 section 4.1): ten are in flight
    (
        Acknowledged(12, &[(0, 1)]),
        &[14, 15, 16, 17, 18, 19, 20, 21],
        14_600,
        65_535,
    ),
];

/// Segments 0, 3 and 6 go out again; nothing comes back before all three came twice.
const ALL_NEEDLESS: &[Row] = &[
    (Writes(30), &[0, 1, 2, 3, 4, 5, 6, 7, 8, 9], 14_600, 65_535),
    (
        Acknowledged(0, &[(7, 10), (4, 6), (1, 3)]),
        &[0, 3, 6, 10, 11],
        7_300,
        7_300,
    ),
    // 0 comes late: 10, 11, and 3 and 6 once more are in the network
    (Acknowledged(3, &[(7, 10), (4, 6)]), &[12], 7_300, 7_300),
    // 6: 10 to 12 and 3
    (Acknowledged(3, &[(4, 10)]), &[13], 7_300, 7_300),
    // 6 again, ahead of the gap (RFC 2883 section 4.2); and 0 again
    (Acknowledged(3, &[(6, 7), (4, 10)]), &[], 7_300, 7_300),
    (Acknowledged(3, &[(0, 1), (4, 10)]), &[], 7_300, 7_300),
    // 3: past 9; 10 to 13 are in flight
    (Acknowledged(10, &[]), &[14], 7_300, 7_300),
    // 3 again
    (
        Acknowledged(10, &[(3, 4)]),
        &[15, 16, 17, 18, 19],
        14_600,
        65_535,
    ),
];

/// Segment 2 goes out again: what came twice of the octets before tells nothing of that.
const OLDER: &[Row] = &[
    (Writes(30), &[0, 1, 2, 3, 4, 5, 6, 7, 8, 9], 14_600, 65_535),
    (Acknowledged(2, &[]), &[10, 11, 12, 13], 17_520, 65_535),
    (Acknowledged(2, &[(3, 4)]), &[14], 17_520, 65_535),
    (Acknowledged(2, &[(3, 5)]), &[15], 17_520, 65_535),
    // half of the 17,520 octets in flight without what reports let out
    (Acknowledged(2, &[(3, 6)]), &[2], 8_760, 8_760),
    // 2 comes: 6 to 15 are in the network
    (Acknowledged(6, &[]), &[], 8_760, 8_760),
    // 1 again; and then 2, in the recovery
    (Acknowledged(6, &[(1, 2)]), &[], 8_760, 8_760),
    (Acknowledged(6, &[(2, 3)]), &[16, 17], 17_520, 65_535),
];

/// Segment 0 goes out again, and so it does when the timer expires: nothing comes back that was before that.
const EXPIRED_TWICE: &[Row] = &[
    (Writes(30), &[0, 1, 2, 3, 4, 5, 6, 7, 8, 9], 14_600, 65_535),
    (Acknowledged(0, &[(1, 2)]), &[10], 14_600, 65_535),
    (Acknowledged(0, &[(1, 3)]), &[11], 14_600, 65_535),
    (Acknowledged(0, &[(1, 4)]), &[0], 7_300, 7_300),
    // half of the 17,520 octets in flight
    (Expires(1_000), &[0], 1_460, 8_760),
    (Acknowledged(12, &[]), &[12, 13], 2_920, 8_760),
    // 0 again, and once more
    (Acknowledged(12, &[(0, 1)]), &[], 2_920, 8_760),
    (Acknowledged(12, &[(0, 1)]), &[], 2_920, 8_760),
];

const RUNS: [Run; 25] = [
    Run {
        name: "what comes twice gives back what the loss took",
        sacks: true,
        window: WIDE,
        rows: NEEDLESS,
    },
    Run {
        name: "all of it has to come twice",
        sacks: true,
        window: WIDE,
        rows: ALL_NEEDLESS,
    },
    Run {
        name: "what came twice before the loss gives nothing back",
        sacks: true,
        window: WIDE,
        rows: OLDER,
    },
    Run {
        name: "an expiry stands",
        sacks: true,
        window: WIDE,
        rows: EXPIRED_TWICE,
    },
    Run {
        name: "two losses are repaired",
        sacks: true,
        window: WIDE,
        rows: TWO_REPAIRED,
    },
    Run {
        name: "nothing is reported where the peer's SYN doesn't say so",
        sacks: false,
        window: WIDE,
        rows: UNREPORTED,
    },
    Run {
        name: "two losses are told at once",
        sacks: true,
        window: WIDE,
        rows: AT_ONCE,
    },
    Run {
        name: "what comes late is waited for",
        sacks: true,
        window: WIDE,
        rows: LATE,
    },
    Run {
        name: "ranges are waited for, too",
        sacks: true,
        window: WIDE,
        rows: LATE_RANGES,
    },
    Run {
        name: "three segments tell a loss where none came behind two",
        sacks: true,
        window: WIDE,
        rows: HARDLY_LATE,
    },
    Run {
        name: "what is lost again waits for the timer",
        sacks: true,
        window: WIDE,
        rows: LOST_AGAIN,
    },
    Run {
        name: "no recovery begins below what was in flight at an expiry",
        sacks: true,
        window: WIDE,
        rows: EXPIRED,
    },
    Run {
        name: "the last gap is filled",
        sacks: true,
        window: WIDE,
        rows: LAST_GAP,
    },
    Run {
        name: "the last gap is filled behind the others",
        sacks: true,
        window: WIDE,
        rows: LAST_GAP_AT_ONCE,
    },
    Run {
        name: "new segments go out before the last gap is filled",
        sacks: true,
        window: WIDE,
        rows: GAP_BEHIND_NEW,
    },
    Run {
        name: "the last gap is filled where the peer's window takes nothing new",
        sacks: true,
        window: 14_600,
        rows: NARROW,
    },
    Run {
        name: "more than two segments are reported",
        sacks: true,
        window: WIDE,
        rows: TWO_SEGMENTS_AND_MORE,
    },
    Run {
        name: "three ranges are reported",
        sacks: true,
        window: WIDE,
        rows: THREE_RANGES,
    },
    Run {
        name: "three reports count",
        sacks: true,
        window: WIDE,
        rows: THREE_REPORTS,
    },
    Run {
        name: "reports count whatever else they bring",
        sacks: true,
        window: WIDE,
        rows: WITH_MORE,
    },
    Run {
        name: "repeated reports don't count",
        sacks: true,
        window: WIDE,
        rows: REPEATED,
    },
    Run {
        name: "an ACK of new octets begins the count anew",
        sacks: true,
        window: WIDE,
        rows: COUNTED_ANEW,
    },
    Run {
        name: "an ACK of new octets that reports is the first of three",
        sacks: true,
        window: WIDE,
        rows: FIRST_OF_THREE,
    },
    Run {
        name: "a loss is told behind an ACK of new octets",
        sacks: true,
        window: WIDE,
        rows: BEHIND_AN_ACK,
    },
    Run {
        name: "what is reported past a recovery stays",
        sacks: true,
        window: WIDE,
        rows: KEPT,
    },
];

/// An end that takes reports calls, and has an answer in no time.
const fn reporting(sacks: bool) -> Opening {
    Opening {
        recovery: Recovery::Selective,
        sacks,
        round: 0,
    }
}

#[test]
fn losses_are_repaired_by_reports(rt: HostRuntime) {
    for run in &RUNS {
        for first in FIRST_NUMBERS {
            let mut course = begun(&rt, rt.alloc(), first, reporting(run.sacks));
            goes(&rt, &mut course, run.name, run.window, run.rows);
        }
    }
}

/// Ranges that are not outstanding past SND.UNA, where segments 2 to 13 are: nothing is reported by them (RFC 2018 section 3), and a report of a segment that
/// came twice is among them (RFC 2883 section 4).
const IGNORED: [(&str, Ranges); 14] = [
    ("none", &[]),
    ("below", &[(0, 1)]),
    ("up to SND.UNA", &[(0, 2)]),
    ("across SND.UNA", &[(1, 4)]),
    ("from SND.UNA on", &[(2, 4)]),
    ("all that is outstanding", &[(2, 14)]),
    ("from SND.NXT on", &[(14, 15)]),
    ("across SND.NXT", &[(12, 15)]),
    ("half of all numbers away", &[(1_471_000, 1_471_001)]),
    ("empty", &[(5, 5)]),
    ("empty at SND.UNA", &[(2, 2)]),
    ("empty at SND.NXT", &[(14, 14)]),
    ("reversed", &[(6, 4)]),
    ("four", &[(0, 1), (14, 15), (7, 6), (2, 3)]),
];

/// Two segments of ten are acknowledged, by which the window grows by two (RFC 3465 section 2.3).
const BEFORE: &[Row] = &[
    (Writes(24), &[0, 1, 2, 3, 4, 5, 6, 7, 8, 9], 14_600, 65_535),
    (Acknowledged(2, &[]), &[10, 11, 12, 13], 17_520, 65_535),
];

/// Three segments past SND.UNA are told. The recovery begins with the third, and with none before.
const BEHIND: &[Row] = &[
    (Acknowledged(2, &[(3, 4)]), &[14], 17_520, 65_535),
    (Acknowledged(2, &[(3, 5)]), &[15], 17_520, 65_535),
    (Acknowledged(2, &[(3, 6)]), &[2], 8_760, 8_760),
];

/// Each is told four times.
#[test]
fn what_is_not_outstanding_is_not_reported(rt: HostRuntime) {
    for (name, ranges) in IGNORED {
        for first in FIRST_NUMBERS {
            let mut course = begun(&rt, rt.alloc(), first, reporting(true));
            goes(&rt, &mut course, name, WIDE, BEFORE);
            let told: [Row; 4] = [
                (Acknowledged(2, ranges), &[], 17_520, 65_535),
                (Acknowledged(2, ranges), &[], 17_520, 65_535),
                (Acknowledged(2, ranges), &[], 17_520, 65_535),
                (Acknowledged(2, ranges), &[], 17_520, 65_535),
            ];
            goes(&rt, &mut course, name, WIDE, &told);
            goes(&rt, &mut course, name, WIDE, BEHIND);
        }
    }
}

/// The places and the lengths, with headers, of what goes out where all of ten segments is reported from 500 octets of segment 1 on: segment 0 and these, by
/// which 1,960 octets are in the network, and three new segments.
const PARTS: [(u32, usize); 5] = [
    (0, 1_480),
    (1_460, 520),
    (14_600, 1_480),
    (16_060, 1_480),
    (17_520, 1_480),
];

#[test]
fn what_is_reported_does_not_go_out_again(rt: HostRuntime) {
    for first in FIRST_NUMBERS {
        let mut course = begun(&rt, rt.alloc(), first, reporting(true));
        let rows: [Row; 1] = [(Writes(24), &[0, 1, 2, 3, 4, 5, 6, 7, 8, 9], 14_600, 65_535)];
        goes(&rt, &mut course, "a part of a segment", WIDE, &rows);
        assert!(rt; course.happens(&Reports(0, &[(1_960, 14_600)]), WIDE));
        for (place, len) in PARTS {
            let Seq(number) = number_at(first, place, 1);
            assert!(rt;
                sent(&mut course.end, 0) == Some((number, len)),
                "from {first}: {place}"
            );
        }
        assert!(rt; course.end.connection.due().is_none());
        assert!(rt; windows(&course.end) == (7_300, 7_300));
    }
}
