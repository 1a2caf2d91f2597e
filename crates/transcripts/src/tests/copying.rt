//! Copies from memory to memory, over a link in memory and over two real sockets, and what is said of them.

use capture::Reader;
use clock::Moment;
use copier::CopyFault;
use copy_command::copying::{Broken, CopyEnds, Counting, copy_captured};
use copy_command::progress::Progress;
use devices::{Link, MemoryLink, MemorySink, MemorySource, Passage, Sink, Treatment};
use host::Refusal;
use recorder::{CaptureFault, RecordedLink};
use std::alloc::Global;
use std::process::Abort;
use std::test::Fail;
use udp_link::{Every, Losses, SocketLink, pair};

/// The turns that each copy has.
const TURNS: u64 = 100_000;

/// So many octets, none like those beside it.
fn octets(alloc: Global, len: usize) -> Result<Vec<u8>, Fail> {
    let mut octets = Vec::new(alloc);
    for place in 0..len {
        octets.push((place % 251) as u8)?;
    }
    Ok(octets)
}

/// How a copy of octets over a link with a capture ended, to a sink that fails at this call, from 1 on, if it isn't 0. What the sink took is the first of the octets,
/// and as many as are counted. That nothing can be said of it leaves it as it is.
fn copied<L: Link>(
    rt: &impl Abort,
    alloc: Global,
    octets: &[u8],
    fails_at: u64,
    link: &mut RecordedLink<L, MemorySink>,
) -> CopyEnds {
    let mut src = MemorySource::new(octets);
    let deaf = MemorySink::new(alloc).in_pieces(0);
    let progress = Progress::new(alloc, deaf, Some(octets.len() as u64));
    let sink = MemorySink::new(alloc).failing_at(fails_at);
    let mut dst = Counting::new(sink, Some(progress));
    let ends = copy_captured(alloc, &mut src, &mut dst, link, TURNS);
    dst.end();
    let taken = dst.sink().taken();
    assert!(rt; octets.starts_with(taken) && dst.written() == taken.len() as u64);
    let is_whole = taken.len() == octets.len() && dst.sink().is_flushed() && dst.failures() == 0;
    assert!(rt; ends.copy.is_err() || is_whole);
    ends
}

/// Frames are lost and sent twice on their way over two sockets of the machine.
#[test]
fn octets_are_copied_over_sockets(rt: HostRuntime) -> Result<(), Fail> {
    for len in [0, 1, 1_000_000] {
        let (a, b) = pair(&rt)?;
        let losses = Losses {
            lose: Every::new(7),
            repeat: Every::new(5),
        };
        let link = SocketLink::new(a, b, losses);
        let mut link = RecordedLink::new(link, MemorySink::new(rt.alloc()));
        let octets = octets(rt.alloc(), len)?;
        let ends = copied(&rt, rt.alloc(), octets.as_slice(), 0, &mut link);
        assert!(rt; ends.copy == Ok(len as u64) && ends.capture == Ok(()));
    }
    Ok(())
}

/// Each of these is done to one of the first frames.
const TREATED: [Treatment; 3] = [
    Treatment::Lose(4),
    Treatment::Repeat(6),
    Treatment::HoldBack(8, 2),
];

/// A link in memory, captured to a sink that fails at this call, if it isn't 0.
fn recorded(alloc: Global, fails_at: u64) -> RecordedLink<MemoryLink<'static>, MemorySink> {
    let sink = MemorySink::new(alloc).failing_at(fails_at);
    RecordedLink::new(MemoryLink::new(alloc, &TREATED), sink)
}

/// The capture of a copy has each frame that went out once, in order, whatever becomes of it; one that goes out again after a second has a later moment. Answers how
/// often its sink was written to: once for the header, and twice for each frame.
fn writes(rt: &impl Abort, link: &RecordedLink<MemoryLink<'static>, MemorySink>) -> u64 {
    let mut capture = Reader::new(link.capture().taken()).expect(rt, "a capture");
    let (mut last, mut writes) = (Moment(0), 1_u64);
    for passage in link.link().passages() {
        if let Passage::Taken(_, frame) = passage {
            let Some(Ok(record)) = capture.next_record() else {
                panic!(rt; "no record");
            };
            assert!(rt; record.octets() == frame.as_slice() && record.moment() >= last);
            last = record.moment();
            writes = writes.saturating_add(2);
        }
    }
    assert!(rt; capture.next_record().is_none() && last >= Moment(1_000));
    writes
}

/// A copy goes on where its capture fails, at whatever call, the flush too, and what was captured is a front of the whole capture.
#[test]
fn a_copy_goes_on_without_its_capture(rt: HostRuntime) -> Result<(), Fail> {
    let octets = octets(rt.alloc(), 3_000)?;
    let mut whole = recorded(rt.alloc(), 0);
    let ends = copied(&rt, rt.alloc(), octets.as_slice(), 0, &mut whole);
    assert!(rt; ends.copy == Ok(3_000) && ends.capture == Ok(()));
    assert!(rt; whole.capture().is_flushed());
    let writes = writes(&rt, &whole);
    for call in [1, 2, 3, 4, writes, writes.saturating_add(1)] {
        let mut link = recorded(rt.alloc(), call);
        let ends = copied(&rt, rt.alloc(), octets.as_slice(), 0, &mut link);
        assert!(rt; ends.copy == Ok(3_000) && ends.capture == Err(CaptureFault));
        assert!(rt; link.capture().failures() == 1);
        assert!(rt; whole.capture().taken().starts_with(link.capture().taken()));
    }
    Ok(())
}

/// A sink that fails at one of its first calls.
#[test]
fn what_was_written_before_a_fault_is_counted(rt: HostRuntime) -> Result<(), Fail> {
    let octets = octets(rt.alloc(), 10_000)?;
    for call in 1..=3 {
        let mut link = recorded(rt.alloc(), 0);
        let ends = copied(&rt, rt.alloc(), octets.as_slice(), call, &mut link);
        assert!(rt; ends.copy == Err(CopyFault::Write) && ends.capture == Ok(()));
    }
    Ok(())
}

/// Why a copy ended, how many octets were written, and what is said of that.
const BROKEN: [(CopyFault, u64, &str); 7] = [
    (CopyFault::Read, 4_096, "K1 Read, 4096 octets written"),
    (CopyFault::Write, 0, "K2 Write, 0 octets written"),
    (CopyFault::Link, 1, "K3 Link, 1 octets written"),
    (
        CopyFault::Host(Refusal::ECONNRESET),
        7,
        "K4 Host E10 ECONNRESET, 7 octets written",
    ),
    (CopyFault::Host(Refusal::ENOMEM), 0, "out of memory"),
    (CopyFault::NoMemory, 0, "out of memory"),
    (CopyFault::Stalled, 5, "K6 Stalled, 5 octets written"),
];

#[test]
fn faults_report_what_was_written(rt: HostRuntime) -> Result<(), Fail> {
    for (fault, written, text) in BROKEN {
        let said = format!(in rt.alloc(); "{}", Broken { fault, written })?;
        assert!(rt; said.as_str() == text);
    }
    Ok(())
}

/// How many octets the source has, if that is known, how many were written, one count after the other, and what is said of them.
const COUNTS: [(Option<u64>, &[u64], &str); 5] = [
    (
        Some(1_000_000),
        &[65_535, 65_536, 100_000, 131_072],
        "\rhostd: 65536 octets, 6 %\rhostd: 131072 octets, 13 %\rhostd: 131072 octets, 13 %\n",
    ),
    (
        None,
        &[70_000],
        "\rhostd: 70000 octets\rhostd: 70000 octets\n",
    ),
    (Some(1), &[1], "\rhostd: 1 octets, 100 %\n"),
    (Some(0), &[], "\rhostd: 0 octets\n"),
    (
        Some(u64::MAX),
        &[u64::MAX],
        "\rhostd: 18446744073709551615 octets, 100 %\rhostd: 18446744073709551615 octets, 100 %\n",
    ),
];

#[test]
fn progress_is_said_every_65536_octets(rt: HostRuntime) {
    for (whole, counts, text) in COUNTS {
        let out = MemorySink::new(rt.alloc());
        let mut progress = Progress::new(rt.alloc(), out, whole);
        for count in counts {
            progress.tell(*count);
        }
        progress.end(counts.last().copied().unwrap_or(0));
        assert!(rt; progress.out().taken() == text.as_bytes());
    }
}
