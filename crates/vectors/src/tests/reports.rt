//! What a peer reports that it keeps ahead of a gap, and what that tells (RFC 2018, RFC 6675), by hand.

use stream_buf::{Scoreboard, Tolerance};

/// What happens to what is reported.
enum Event {
    /// A block, by where it begins and ends, while so many octets are outstanding.
    Reported(u32, u32, u32),
    /// So many octets are acknowledged.
    Acked(u32),
    /// The retransmission timer expires.
    Forgotten,
}

/// An event, and then how many octets are reported, where the last of them ends, and below which distance what isn't reported is lost.
type Step = (Event, u32, u32, u32);

fn happens(board: &mut Scoreboard, event: &Event) {
    match event {
        Event::Reported(start, end, outstanding) => board.report(*start, *end, *outstanding),
        Event::Acked(count) => board.pass(*count),
        Event::Forgotten => board.clear(),
    }
}

/// What RFC 6675 tolerates, by the size of segments: two ranges, and the octets of two segments.
fn usual(smss: u16) -> Tolerance {
    Tolerance {
        ranges: 2,
        octets: 2 * u32::from(smss),
    }
}

/// The first of ten segments of 1,460 octets is lost: by one octet more than two segments have, and no longer once the peer has it.
const FIRST_LOST: [Step; 6] = [
    (Event::Reported(1_460, 2_920, 14_600), 1_460, 2_920, 0),
    (Event::Reported(2_920, 4_380, 14_600), 2_920, 4_380, 0),
    (Event::Reported(4_380, 4_381, 14_600), 2_921, 4_381, 1_460),
    (Event::Reported(1_460, 5_840, 14_600), 4_380, 5_840, 1_460),
    (Event::Acked(5_840), 0, 0, 0),
    (Event::Reported(4_380, 8_760, 8_760), 4_380, 8_760, 4_380),
];

/// Each second of ten segments of 1,460 octets is lost: by three ranges past it, which are fewer once two are joined.
const EACH_SECOND_LOST: [Step; 8] = [
    (Event::Reported(1_460, 2_920, 14_600), 1_460, 2_920, 0),
    (Event::Reported(7_300, 8_760, 14_600), 2_920, 8_760, 0),
    (Event::Reported(4_380, 5_840, 14_600), 4_380, 8_760, 1_460),
    (
        Event::Reported(10_220, 11_680, 14_600),
        5_840,
        11_680,
        4_380,
    ),
    (Event::Reported(2_920, 4_380, 14_600), 7_300, 11_680, 1_460),
    (Event::Acked(5_840), 2_920, 5_840, 0),
    (Event::Forgotten, 0, 0, 0),
    (Event::Reported(1, 2, 8_760), 1, 2, 0),
];

/// Blocks that report nothing: with the octet at SND.UNA, of no octets, from back to front, and past what is outstanding.
const REPORT_NOTHING: [Step; 6] = [
    (Event::Reported(0, 1_460, 5_840), 0, 0, 0),
    (Event::Reported(1_460, 1_460, 5_840), 0, 0, 0),
    (Event::Reported(2_920, 1_460, 5_840), 0, 0, 0),
    (Event::Reported(4_380, 5_841, 5_840), 0, 0, 0),
    (Event::Reported(4_380, 5_840, 5_840), 1_460, 5_840, 0),
    (Event::Reported(4_380, 7_300, 5_840), 1_460, 5_840, 0),
];

/// An acknowledgement before a range brings it nearer, and one from where it begins on forgets it.
const COME_NEARER: [Step; 5] = [
    (Event::Reported(1_460, 2_920, 14_600), 1_460, 2_920, 0),
    (Event::Acked(1_459), 1_460, 1_461, 0),
    (Event::Acked(1), 0, 0, 0),
    (Event::Reported(10, 4_000, 14_600), 3_990, 4_000, 10),
    (Event::Acked(11), 0, 0, 0),
];

/// The greatest distances.
const FAR: [Step; 2] = [
    (
        Event::Reported(4_294_967_294, 4_294_967_295, 4_294_967_295),
        1,
        4_294_967_295,
        0,
    ),
    (
        Event::Reported(1, 4_294_967_294, 4_294_967_295),
        4_294_967_294,
        4_294_967_295,
        1,
    ),
];

#[test]
fn reports_tell_losses(rt: HostRuntime) {
    let runs: [&[Step]; 5] = [
        &FIRST_LOST,
        &EACH_SECOND_LOST,
        &REPORT_NOTHING,
        &COME_NEARER,
        &FAR,
    ];
    for run in &runs {
        let mut board = Scoreboard::new();
        assert!(rt; board.is_empty());
        for (event, covered, end, lost_end) in *run {
            happens(&mut board, event);
            assert!(rt; board.covered() == *covered && board.reported_end() == *end);
            assert!(rt;
                board.lost_end(usual(1_460)) == *lost_end && board.is_empty() == (*covered == 0)
            );
        }
    }
}

/// Segments of other sizes, of which octets from 1,000 to 1,600 and from 2,000 to 2,600 tell losses, and where these end.
const BY_SIZE: [(u16, u32); 5] = [
    (64, 2_000),
    (299, 2_000),
    (300, 1_000),
    (599, 1_000),
    (600, 0),
];

#[test]
fn losses_go_by_the_size_of_segments(rt: HostRuntime) {
    let mut board = Scoreboard::new();
    board.report(1_000, 1_600, 3_000);
    board.report(2_000, 2_600, 3_000);
    for (smss, lost_end) in &BY_SIZE {
        assert!(rt; board.lost_end(usual(*smss)) == *lost_end);
    }
}

/// How many ranges and octets are tolerated of these two, and where losses end.
const BY_TOLERANCE: [(u32, u32, u32); 6] = [
    (0, 9_999, 2_000),
    (1, 9_999, 1_000),
    (2, 9_999, 0),
    (32, 1_200, 0),
    (32, 1_199, 1_000),
    (32, 599, 2_000),
];

#[test]
fn losses_go_by_what_is_tolerated(rt: HostRuntime) {
    let mut board = Scoreboard::new();
    board.report(1_000, 1_600, 3_000);
    board.report(2_000, 2_600, 3_000);
    for (ranges, octets, lost_end) in &BY_TOLERANCE {
        let tolerance = Tolerance {
            ranges: *ranges,
            octets: *octets,
        };
        assert!(rt; board.lost_end(tolerance) == *lost_end);
    }
}

/// Four ranges of a segment of 1,460 octets, with a gap of as many before each: from a distance on the first gap, how many of 1,460
/// octets it has from there, and how many octets below the distance are not reported.
const GAPS: [(u32, u32, usize, u32); 9] = [
    (0, 0, 1_460, 0),
    (1_459, 1_459, 1, 1_459),
    (1_460, 2_920, 1_460, 1_460),
    (2_000, 2_920, 1_460, 1_460),
    (2_920, 2_920, 1_460, 1_460),
    (3_000, 3_000, 1_380, 1_540),
    (11_679, 11_680, 1_460, 5_840),
    (11_680, 11_680, 1_460, 5_840),
    (14_000, 14_000, 1_460, 8_160),
];

#[test]
fn gaps_stand_between_ranges(rt: HostRuntime) {
    let mut board = Scoreboard::new();
    for i in 0..4 {
        board.report(2_920 * i + 1_460, 2_920 * i + 2_920, 14_600);
    }
    for (place, gap, len, unreported) in &GAPS {
        assert!(rt; board.first_gap(*place) == *gap && board.gap_len(*gap, 1_460) == *len);
        assert!(rt; board.gap_len(*gap, 1) == 1 && board.unreported(*place) == *unreported);
    }
}

/// Blocks behind 32 ranges of one octet with a gap before each, and how many octets are reported then: a 33rd range is not kept.
const MOST_RANGES: [(u32, u32, u32); 5] = [
    (65, 66, 32),
    (64, 65, 33),
    (66, 67, 33),
    (2, 3, 34),
    (66, 67, 35),
];

#[test]
fn reports_make_most_ranges(rt: HostRuntime) {
    let mut board = Scoreboard::new();
    for i in 0..32 {
        board.report(2 * i + 1, 2 * i + 2, 100);
    }
    assert!(rt; board.covered() == 32 && board.lost_end(usual(1_460)) == 59);
    for (start, end, covered) in &MOST_RANGES {
        board.report(*start, *end, 100);
        assert!(rt; board.covered() == *covered);
    }
}
