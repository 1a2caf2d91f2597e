//! The congestion window (RFC 5681; RFC 6582, RFC 6675, RFC 3042, RFC 3465 and RFC 6928 where a set-up says so).

use congestion::{Control, Cwnd, Recovery};

/// What happens to a window. The octets are those acknowledged and those in flight behind them, and else those in flight.
enum Event {
    Acked(u32, u32),
    /// An ACK of some of what was outstanding at the beginning of a recovery.
    Partly(u32, u32),
    Expired(u32),
    Duplicate(u32),
    /// The third duplicate, which says so.
    Third(u32),
    /// Reports tell a loss.
    Lost(u32),
    /// They tell that nothing was lost.
    Undone,
}

/// Whether the event answers what it says.
fn answers(cwnd: &mut Cwnd, event: &Event) -> bool {
    match event {
        Event::Acked(octets, flight) => {
            cwnd.acked(*octets, *flight);
            true
        }
        Event::Partly(octets, flight) => {
            if cwnd.goes_on() {
                cwnd.partly_acked(*octets);
            } else {
                cwnd.acked(*octets, *flight);
            }
            true
        }
        Event::Expired(flight) => {
            cwnd.timeout(*flight);
            true
        }
        Event::Duplicate(flight) => !cwnd.duplicate(*flight),
        Event::Third(flight) => cwnd.duplicate(*flight),
        Event::Lost(flight) => {
            cwnd.lost(*flight);
            true
        }
        Event::Undone => {
            cwnd.undo();
            true
        }
    }
}

/// Ten segments at first, and a threshold that nothing reaches.
const REPAIRS: Control = Control {
    recovery: Recovery::NewReno,
    first_threshold: 1 << 30,
    first_segments: 10,
};

/// The same, with selective acknowledgements.
const SELECTIVE: Control = Control {
    recovery: Recovery::Selective,
    first_threshold: 1 << 30,
    first_segments: 10,
};

/// A single segment at first, and a threshold between the bounds.
const ONE_SEGMENT: Control = Control {
    recovery: Recovery::Plain,
    first_threshold: 100_000,
    first_segments: 1,
};

/// More segments than ten, which count as ten, and a threshold under the least.
const TOO_MANY: Control = Control {
    recovery: Recovery::NewReno,
    first_threshold: 1,
    first_segments: 200,
};

/// The usual segments, and a threshold over the most.
const TOO_HIGH: Control = Control {
    recovery: Recovery::NewReno,
    first_threshold: 4_294_967_295,
    first_segments: 0,
};

/// First windows and thresholds by the set-up, the greatest segment and whether the SYN went out again: a single segment then (RFC 5681 section 3.1, RFC 6928
/// section 2).
const FIRST_WINDOWS: [(Control, u16, bool, u32, u32); 11] = [
    (Control::PLAIN, 536, false, 2_144, 65_535),
    (Control::PLAIN, 1_460, false, 4_380, 65_535),
    (Control::PLAIN, 1_460, true, 1_460, 65_535),
    (ONE_SEGMENT, 1_460, false, 1_460, 100_000),
    (REPAIRS, 536, false, 5_360, 1_073_741_824),
    (REPAIRS, 1_460, false, 14_600, 1_073_741_824),
    (REPAIRS, 1_460, true, 1_460, 1_073_741_824),
    (TOO_MANY, 1_460, false, 14_600, 65_535),
    (TOO_MANY, 1_460, true, 1_460, 65_535),
    (TOO_HIGH, 536, false, 2_144, 1_073_741_824),
    (TOO_HIGH, 1_460, false, 4_380, 1_073_741_824),
];

/// The first window and threshold, where segments may be so great.
fn first_window(control: Control, smss: u16, resent: bool) -> Option<(u32, u32)> {
    if 64 <= smss && smss <= 1_460 {
        let cwnd = Cwnd::new(control, smss, resent);
        Some((cwnd.window(), cwnd.ssthresh()))
    } else {
        None
    }
}

/// Events with segments of 1,460 octets, each with the window after it, in octets.
const RUNS: [&[(Event, u32)]; 3] = [
    // slow start
    &[(Event::Acked(1_460, 2_920), 5_840)],
    // a loss, slow start up to the threshold, congestion avoidance, and fast recovery
    &[
        (Event::Expired(4_380), 1_460),
        (Event::Acked(1_460, 2_920), 2_920),
        (Event::Acked(1_460, 1_460), 3_650),
        (Event::Acked(1_460, 2_190), 4_234),
        (Event::Duplicate(4_234), 4_234),
        (Event::Duplicate(4_234), 4_234),
        (Event::Third(4_234), 7_300),
        (Event::Duplicate(4_234), 8_760),
        (Event::Acked(1_460, 0), 2_920),
    ],
    // after a loss with 4,380 octets in flight the threshold is 2,920 and no other
    &[
        (Event::Expired(4_380), 1_460),
        (Event::Acked(1_459, 2_921), 2_919),
        (Event::Acked(1, 2_920), 2_920),
        (Event::Acked(1, 2_919), 3_650),
    ],
];

/// Events with segments of 1,460 octets where losses are repaired, from a window of 14,600: each with the window, what may be in flight, and the threshold
/// after it; and with the window after the same events where losses are not repaired, from one of 4,380.
const BESIDE_PLAIN: [&[(Event, u32, u32, u32, u32)]; 2] = [
    // Of ten segments in flight the first and the fourth are lost, and no more octets wait. Eight segments come, so there are eight duplicates.
    &[
        // limited transmit: 14,600 + 1,460, and 14,600 + 2 * 1,460
        (
            Event::Duplicate(14_600),
            14_600,
            16_060,
            1_073_741_824,
            4_380,
        ),
        (
            Event::Duplicate(14_600),
            14_600,
            17_520,
            1_073_741_824,
            4_380,
        ),
        // 14,600 / 2 = 7,300, and three segments more; the first segment goes out again
        (Event::Third(14_600), 11_680, 11_680, 7_300, 11_680),
        // a segment more each
        (Event::Duplicate(14_600), 13_140, 13_140, 7_300, 13_140),
        (Event::Duplicate(14_600), 14_600, 14_600, 7_300, 14_600),
        (Event::Duplicate(14_600), 16_060, 16_060, 7_300, 16_060),
        (Event::Duplicate(14_600), 17_520, 17_520, 7_300, 17_520),
        (Event::Duplicate(14_600), 18_980, 18_980, 7_300, 18_980),
        // The first came: three segments are acknowledged. 18,980 - 4,380 + 1,460; the fourth goes out again. In plain, the recovery ends at the threshold.
        (Event::Partly(4_380, 10_220), 16_060, 16_060, 7_300, 7_300),
        // The fourth came, and nothing is in flight: the lesser of 7,300 and 1,460 + 1,460. In plain, 1,460 * 1,460 / 7,300 = 292 more.
        (Event::Acked(10_220, 0), 2_920, 2_920, 7_300, 7_592),
        // Slow start by two segments an ACK, which no expiry began, up to the threshold. In plain, 2,131,600 / 7,592 = 280.7 and 2,131,600 / 7,872 = 270.7.
        (Event::Acked(2_920, 0), 5_840, 5_840, 7_300, 7_872),
        (Event::Acked(2_920, 2_920), 8_760, 8_760, 7_300, 8_142),
        // A third of the window is acknowledged: a third of a segment is 486.6. In plain, 2,131,600 / 8,142 = 261.8.
        (Event::Acked(2_920, 5_840), 9_246, 9_246, 7_300, 8_403),
    ],
    // slow start, an expiry, and slow start again
    &[
        // two segments; of three segments two; an octet; in plain a segment, a segment, and an octet
        (
            Event::Acked(2_920, 11_680),
            17_520,
            17_520,
            1_073_741_824,
            5_840,
        ),
        (
            Event::Acked(4_380, 13_140),
            20_440,
            20_440,
            1_073_741_824,
            7_300,
        ),
        (
            Event::Acked(1, 20_440),
            20_441,
            20_441,
            1_073_741_824,
            7_301,
        ),
        // half of 20,441, rounded down
        (Event::Expired(20_441), 1_460, 1_460, 10_220, 1_460),
        // a segment an ACK, of two that are acknowledged
        (Event::Acked(2_920, 0), 2_920, 2_920, 10_220, 2_920),
        (Event::Acked(2_920, 0), 4_380, 4_380, 10_220, 4_380),
        (Event::Acked(2_920, 1_460), 5_840, 5_840, 10_220, 5_840),
        (Event::Acked(2_920, 2_920), 7_300, 7_300, 10_220, 7_300),
        (Event::Acked(2_920, 4_380), 8_760, 8_760, 10_220, 8_760),
        (Event::Acked(2_920, 5_840), 10_220, 10_220, 10_220, 10_220),
        // Two sevenths of the window are acknowledged: two sevenths of a segment are 417.1. In plain, a seventh, 208.5.
        (Event::Acked(2_920, 7_300), 10_637, 10_637, 10_220, 10_428),
    ],
];

/// Events with segments of 1,460 octets where losses are repaired alone, with selective acknowledgements or without, from a window of 14,600: each with the
/// window, what may be in flight, and the threshold after it.
const REPAIRED: [&[(Event, u32, u32, u32)]; 4] = [
    // Of ten segments in flight the first and the fourth are lost, and octets always wait: what may go out does.
    &[
        // the eleventh segment goes out, and the twelfth
        (Event::Duplicate(14_600), 14_600, 16_060, 1_073_741_824),
        (Event::Duplicate(16_060), 14_600, 17_520, 1_073_741_824),
        // without these two 14,600 are in flight: half of it, and three segments more
        (Event::Third(17_520), 11_680, 11_680, 7_300),
        // the duplicates by the sixth segment to the tenth, at which the thirteenth goes out
        (Event::Duplicate(17_520), 13_140, 13_140, 7_300),
        (Event::Duplicate(17_520), 14_600, 14_600, 7_300),
        (Event::Duplicate(17_520), 16_060, 16_060, 7_300),
        (Event::Duplicate(17_520), 17_520, 17_520, 7_300),
        (Event::Duplicate(17_520), 18_980, 18_980, 7_300),
        // those by the eleventh and the twelfth: the fourteenth and the fifteenth go out
        (Event::Duplicate(18_980), 20_440, 20_440, 7_300),
        (Event::Duplicate(20_440), 21_900, 21_900, 7_300),
        // The first came: 21,900 - 4,380 + 1,460. The fourth goes out again, and then the sixteenth, so 18,980 are in flight.
        (Event::Partly(4_380, 17_520), 18_980, 18_980, 7_300),
        // those by the thirteenth to the fifteenth: three more go out, to the nineteenth
        (Event::Duplicate(18_980), 20_440, 20_440, 7_300),
        (Event::Duplicate(20_440), 21_900, 21_900, 7_300),
        (Event::Duplicate(21_900), 23_360, 23_360, 7_300),
        // The fourth came: twelve segments are acknowledged, and four are in flight. The lesser of 7,300 and 5,840 + 1,460, which are the same.
        (Event::Acked(17_520, 5_840), 7_300, 7_300, 7_300),
        // two fifths of the window, so two fifths of a segment
        (Event::Acked(2_920, 4_380), 7_884, 7_884, 7_300),
    ],
    // partial ACKs of less than a segment and of many, and an expiry
    &[
        (Event::Duplicate(14_600), 14_600, 16_060, 1_073_741_824),
        (Event::Duplicate(14_600), 14_600, 17_520, 1_073_741_824),
        (Event::Third(14_600), 11_680, 11_680, 7_300),
        // less than a segment: nothing is added back
        (Event::Partly(1_000, 13_600), 10_680, 10_680, 7_300),
        // a segment, which is added back
        (Event::Partly(1_460, 12_140), 10_680, 10_680, 7_300),
        // 10,680 - 10,140 + 1,460
        (Event::Partly(10_140, 2_000), 2_000, 2_000, 7_300),
        // 2,000 - 1,000 is less than a segment, which always stays
        (Event::Partly(1_000, 1_000), 1_460, 1_460, 7_300),
        // the expiry ends the recovery: the next duplicate is a first one again, for limited transmit
        (Event::Expired(1_000), 1_460, 1_460, 2_920),
        (Event::Duplicate(1_000), 1_460, 2_920, 2_920),
    ],
    // losses that reports tell
    &[
        // ten segments in flight: half of them, and nothing more
        (Event::Lost(14_600), 7_300, 7_300, 7_300),
        // the lesser of 7,300 and 7,300 + 1,460
        (Event::Acked(14_600, 7_300), 7_300, 7_300, 7_300),
        // limited transmit: a segment goes out, and another
        (Event::Duplicate(7_300), 7_300, 8_760, 7_300),
        (Event::Duplicate(8_760), 7_300, 10_220, 7_300),
        // without these two 7,300 are in flight; no third segment goes out past the window
        (Event::Lost(10_220), 3_650, 3_650, 3_650),
        // half of 3,650 is less than two segments
        (Event::Expired(3_650), 1_460, 1_460, 2_920),
        (Event::Lost(1_460), 2_920, 2_920, 2_920),
    ],
    // losses that were none
    &[
        (Event::Lost(14_600), 7_300, 7_300, 7_300),
        // the lesser of 7,300 and 2,920 + 1,460; and then what was before the loss
        (Event::Acked(11_680, 2_920), 4_380, 4_380, 7_300),
        (Event::Undone, 14_600, 14_600, 1 << 30),
        // a second time it changes nothing, nor where the window is larger by then
        (Event::Undone, 14_600, 14_600, 1 << 30),
        (Event::Acked(2_920, 14_600), 17_520, 17_520, 1 << 30),
        (Event::Undone, 17_520, 17_520, 1 << 30),
        // in a recovery, which goes on to its end: the lesser of 2^30 and 11,680 + 1,460
        (Event::Lost(17_520), 8_760, 8_760, 8_760),
        (Event::Undone, 17_520, 17_520, 1 << 30),
        (Event::Acked(1_460, 11_680), 13_140, 13_140, 1 << 30),
        // after an expiry nothing comes back
        (Event::Lost(13_140), 6_570, 6_570, 6_570),
        (Event::Expired(6_570), 1_460, 1_460, 3_285),
        (Event::Undone, 1_460, 1_460, 3_285),
    ],
];

#[test]
fn windows(rt: HostRuntime) {
    for (control, smss, resent, window, ssthresh) in &FIRST_WINDOWS {
        assert!(rt; first_window(*control, *smss, *resent) == Some((*window, *ssthresh)));
    }
    for run in &RUNS {
        let mut cwnd = Cwnd::new(Control::PLAIN, 1_460, false);
        for (event, want) in *run {
            assert!(rt; answers(&mut cwnd, event) && cwnd.window() == *want);
        }
    }
}

#[test]
fn repairs(rt: HostRuntime) {
    for run in &BESIDE_PLAIN {
        let mut cwnd = Cwnd::new(REPAIRS, 1_460, false);
        let mut plain = Cwnd::new(Control::PLAIN, 1_460, false);
        for (event, window, allowed, ssthresh, alone) in *run {
            assert!(rt; answers(&mut cwnd, event) && answers(&mut plain, event));
            assert!(rt;
                (cwnd.window(), cwnd.allowed(), cwnd.ssthresh()) == (*window, *allowed, *ssthresh)
            );
            assert!(rt; (plain.window(), plain.allowed()) == (*alone, *alone));
        }
    }
    for control in &[REPAIRS, SELECTIVE] {
        for run in &REPAIRED {
            let mut cwnd = Cwnd::new(*control, 1_460, false);
            for (event, window, allowed, ssthresh) in *run {
                assert!(rt; answers(&mut cwnd, event));
                assert!(rt;
                    (cwnd.window(), cwnd.allowed(), cwnd.ssthresh())
                        == (*window, *allowed, *ssthresh)
                );
            }
        }
    }
}

#[test]
fn recoveries(rt: HostRuntime) {
    let mut cwnd = Cwnd::new(Control::PLAIN, 1_460, false);
    assert!(rt; (cwnd.ssthresh(), cwnd.is_recovering()) == (65_535, false));
    for third in &[false, false, true] {
        assert!(rt; cwnd.duplicate(8_760) == *third && cwnd.is_recovering() == *third);
    }
    assert!(rt; cwnd.ssthresh() == 4_380 && !cwnd.goes_on());
    cwnd.acked(1_460, 7_300);
    assert!(rt; !cwnd.is_recovering());
}

/// A recovery goes on at a partial ACK, and ends at the next one that is not partial (RFC 6582 section 3.2, step 3).
#[test]
fn recoveries_go_on(rt: HostRuntime) {
    let mut cwnd = Cwnd::new(REPAIRS, 1_460, false);
    assert!(rt; cwnd.control() == REPAIRS && cwnd.repairs());
    for third in &[false, false, true] {
        assert!(rt; cwnd.duplicate(14_600) == *third && cwnd.goes_on() == *third);
    }
    cwnd.partly_acked(4_380);
    assert!(rt; cwnd.is_recovering() && cwnd.goes_on());
    cwnd.acked(10_220, 0);
    assert!(rt; !cwnd.is_recovering() && !cwnd.goes_on());
}
