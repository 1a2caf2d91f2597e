//! The retransmission timeout and the timers (RFC 6298).

use clock::Moment;
use retransmit::{Rto, TimerKind, Timers};

/// What happens to a timeout.
enum Event {
    Sample(u64),
    Expire,
    EstablishedAfterLostSyn,
}

fn take(rto: &mut Rto, event: &Event) {
    match event {
        Event::Sample(milliseconds) => rto.sample(*milliseconds),
        Event::Expire => rto.expire(),
        Event::EstablishedAfterLostSyn => rto.established_after_lost_syn(),
    }
}

/// Samples, a short sample, and expiries: each with the timeout after it, in milliseconds. The least is a second.
const RUNS: [&[(Event, u32)]; 3] = [
    &[(Event::Sample(800), 2_400), (Event::Sample(1_200), 2_450)],
    &[(Event::Sample(100), 1_000)],
    &[
        (Event::Expire, 2_000),
        (Event::Expire, 4_000),
        (Event::Expire, 8_000),
        (Event::Expire, 16_000),
        (Event::Expire, 32_000),
        (Event::Expire, 60_000),
        (Event::Expire, 60_000),
        (Event::EstablishedAfterLostSyn, 3_000),
    ],
];

/// The same where the least is 200 ms. By RFC 6298 sections 2.2 and 2.3, round trips of 10 ms ask for 30 ms, then 25; and
/// round trips of 100 ms for 100 + 200, then 100 + 150, 100 + 112.5 (here up to a whole number) and 100 + 84.4.
const SHORT_RUNS: [&[(Event, u32)]; 3] = [
    &[
        (Event::Sample(10), 200),
        (Event::Sample(10), 200),
        (Event::Expire, 400),
    ],
    &[
        (Event::Sample(100), 300),
        (Event::Sample(100), 250),
        (Event::Sample(100), 213),
        (Event::Sample(100), 200),
    ],
    &[
        (Event::Expire, 2_000),
        (Event::EstablishedAfterLostSyn, 3_000),
        (Event::Sample(10), 200),
    ],
];

/// Leasts that a set-up asks for, in milliseconds, and the timeout after a round trip of 10 ms.
const LEASTS: [(u32, u32); 6] = [
    (0, 200),
    (199, 200),
    (201, 201),
    (999, 999),
    (1_001, 1_000),
    (u32::MAX, 1_000),
];

#[test]
fn timeouts(rt: HostRuntime) {
    for (least, runs) in [(1_000, &RUNS), (200, &SHORT_RUNS)] {
        for run in runs {
            let mut rto = Rto::new(least);
            assert!(rt; rto.rto() == 1_000);
            for (event, want) in *run {
                take(&mut rto, event);
                assert!(rt; rto.rto() == *want);
            }
        }
    }
    for (least, want) in &LEASTS {
        let mut rto = Rto::new(*least);
        rto.sample(10);
        assert!(rt; rto.rto() == *want);
    }
}

/// Timers, moments, and whether they are due where one is for 1,500 and one for 900.
const DUE: [(TimerKind, u64, bool); 4] = [
    (TimerKind::DelayedAck, 899, false),
    (TimerKind::DelayedAck, 900, true),
    (TimerKind::Retransmission, 900, false),
    (TimerKind::Probe, 9_999, false),
];

#[test]
fn deadlines(rt: HostRuntime) {
    let mut timers = Timers::new();
    assert!(rt; timers.next() == None);
    timers.set(TimerKind::Retransmission, Moment(500).after(1_000));
    timers.set(TimerKind::DelayedAck, Moment(900));
    for (kind, now, want) in &DUE {
        assert!(rt; timers.due(*kind, Moment(*now)) == *want);
    }
    assert!(rt;
        (
            timers.deadline(TimerKind::Retransmission),
            timers.deadline(TimerKind::Override),
            timers.next()
        ) == (Some(Moment(1_500)), None, Some(Moment(900)))
    );
    timers.clear(TimerKind::DelayedAck);
    assert!(rt; timers.next() == Some(Moment(1_500)));
    assert!(rt; Moment(9).after(u64::MAX) == Moment(u64::MAX));
}
