//! Copies from memory to memory, over a link in memory.

use copier::{CopyFault, copy};
use devices::{Link, MemoryLink, MemorySink, MemorySource, Sink, Source, Treatment};
use std::alloc::Global;
use std::process::Abort;

/// The turns that each copy has.
const TURNS: u64 = 100_000;

/// How many of the first frames are treated, one in each copy.
const FRAMES: u64 = 60;

/// Each list of treatments does all of this to frames far apart.
const MIXED: [Treatment; 8] = [
    Treatment::HoldBack(2, 1),
    Treatment::Lose(3),
    Treatment::Repeat(5),
    Treatment::HoldBack(5, 40),
    Treatment::Lose(9),
    Treatment::HoldBack(11, 2),
    Treatment::Repeat(14),
    Treatment::HoldBack(17, 5),
];

/// So many octets, none like those beside it.
fn octets(rt: &impl Abort, alloc: Global, len: usize) -> Vec<u8> {
    let mut octets = Vec::new(alloc);
    for place in 0..len {
        octets.push((place % 251) as u8).expect(rt, "memory");
    }
    octets
}

/// So many octets are copied whole over a link that treats frames so.
fn copies(rt: &impl Abort, alloc: Global, len: usize, treatments: &[Treatment]) {
    let octets = octets(rt, alloc, len);
    let mut src = MemorySource::new(octets.as_slice());
    let mut dst = MemorySink::new(alloc);
    let mut link = MemoryLink::new(alloc, treatments);
    let copied = copy(alloc, &mut src, &mut dst, &mut link, TURNS);
    assert!(rt; copied == Ok(len as u64), "{len} octets");
    assert!(rt;
        dst.taken() == octets.as_slice() && dst.is_flushed(),
        "{len} octets"
    );
    assert!(rt; src.failures() == 0 && dst.failures() == 0 && link.failures() == 0);
}

#[test]
fn whole_files_are_copied(rt: HostRuntime) {
    for len in [0, 1, 1_460, 1_461, 4_096, 4_097, 70_000] {
        copies(&rt, rt.alloc(), len, &[]);
    }
}

#[test]
fn each_frame_is_lost_in_turn(rt: HostRuntime) {
    for n in 1..=FRAMES {
        copies(&rt, rt.alloc(), 20_000, &[Treatment::Lose(n)]);
    }
}

#[test]
fn frames_are_repeated_and_held_back(rt: HostRuntime) {
    for n in 1..=FRAMES {
        for treatment in [Treatment::Repeat(n), Treatment::HoldBack(n, 3)] {
            copies(&rt, rt.alloc(), 5_000, &[treatment]);
        }
    }
    copies(&rt, rt.alloc(), 30_000, &MIXED);
}

/// How often each of the devices of a copy of 10,000 octets is called. The source is read four times, the last time at its end; the sink is written to five
/// times and flushed; frames go into the link and come out of it, and it is asked once more each time that they end.
const CALLS: [(CopyFault, u64); 3] = [
    (CopyFault::Read, 4),
    (CopyFault::Write, 6),
    (CopyFault::Link, 52),
];

/// What came of a copy of 10,000 octets: its answer, how often source, sink and link failed, and whether what was written begins the source.
type Outcome = (Result<u64, CopyFault>, [u64; 3], bool);

/// A copy of 10,000 octets whose device fails at this call of it, where a fault is its.
fn copied_with(rt: &impl Abort, alloc: Global, fault: CopyFault, call: u64) -> Outcome {
    let (read, write, carry) = match fault {
        CopyFault::Read => (call, 0, 0),
        CopyFault::Write => (0, call, 0),
        _ => (0, 0, call),
    };
    let octets = octets(rt, alloc, 10_000);
    let mut src = MemorySource::new(octets.as_slice()).failing_at(read);
    let mut dst = MemorySink::new(alloc).failing_at(write);
    let mut link = MemoryLink::new(alloc, &[]).failing_at(carry);
    let copied = copy(alloc, &mut src, &mut dst, &mut link, TURNS);
    let failures = [src.failures(), dst.failures(), link.failures()];
    (copied, failures, octets.as_slice().starts_with(dst.taken()))
}

#[test]
fn devices_that_fail_are_reported(rt: HostRuntime) {
    for (fault, calls) in CALLS {
        let failures = match fault {
            CopyFault::Read => [1, 0, 0],
            CopyFault::Write => [0, 1, 0],
            _ => [0, 0, 1],
        };
        for call in 1..=calls {
            let came = copied_with(&rt, rt.alloc(), fault, call);
            assert!(rt;
                came == (Err(fault), failures, true),
                "{fault}, call {call}"
            );
        }
        let came = copied_with(&rt, rt.alloc(), fault, calls.saturating_add(1));
        assert!(rt; came == (Ok(10_000), [0, 0, 0], true), "{fault}, no call");
    }
}

/// How many octets a call of a source or a sink moves at most.
const PIECES: [usize; 4] = [1, 2, 7, 4_096];

#[test]
fn short_reads_and_writes_are_no_failures(rt: HostRuntime) {
    let alloc = rt.alloc();
    let octets = octets(&rt, alloc, 10_000);
    for most in PIECES {
        let mut src = MemorySource::new(octets.as_slice()).in_pieces(most.max(1));
        let mut dst = MemorySink::new(alloc).in_pieces(most);
        let mut link = MemoryLink::new(alloc, &[]);
        let copied = copy(alloc, &mut src, &mut dst, &mut link, TURNS);
        assert!(rt;
            copied == Ok(10_000) && dst.taken() == octets.as_slice(),
            "{most}"
        );
        assert!(rt; src.failures() == 0 && dst.failures() == 0 && link.failures() == 0);
    }
}

/// A sink that takes nothing of some octets fails, and a copy without a turn moves nothing.
#[test]
fn nothing_moves(rt: HostRuntime) {
    let alloc = rt.alloc();
    let octets = octets(&rt, alloc, 10_000);
    for (most, turns, fault, failures) in [
        (0, TURNS, CopyFault::Write, 1),
        (1, 0, CopyFault::Stalled, 0),
    ] {
        let mut src = MemorySource::new(octets.as_slice());
        let mut dst = MemorySink::new(alloc).in_pieces(most);
        let mut link = MemoryLink::new(alloc, &[]);
        let copied = copy(alloc, &mut src, &mut dst, &mut link, turns);
        assert!(rt; copied == Err(fault) && dst.taken().is_empty());
        assert!(rt; (src.failures(), dst.failures(), link.failures()) == (0, failures, 0));
        assert!(rt; turns > 0 || link.passages().is_empty());
    }
}
