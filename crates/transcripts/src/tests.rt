//! Whole scripts, frames, captures and copies, from memory to memory. The expected texts are those that the documents of the project give.

mod aborts;
mod backlog;
mod captures;
mod closing;
mod command_words;
mod copying;
mod crossing;
mod datagrams;
mod drops;
mod examples;
mod failures;
mod hops;
mod info;
mod ladders;
mod lines;
mod ready;
mod recordings;
mod refusals;
mod resets;
mod rounds;
mod scale;
mod scripts;
mod simultaneous;
mod table;
mod timers;
mod turns;
mod windows;

use commands::fault::TextFault;
use commands::laddered::{sim_ladder, sim_ladder_captured};
use commands::sim::{Ends, sim, sim_captured};
use commands::{captured, frame};
use decode::Unreadable;
use devices::{MemorySink, MemorySource, Sink, Source};
use ladder::Numbering;
use std::alloc::Global;
use std::process::Abort;
use std::test::Fail;

/// The hosts don't use the window scale option, so a SYN's frame has 60 octets, and a connection holds 65,535 octets each way.
const UNSCALED: &str = "noscale -> ok
";

/// b listens at port 80 and a opens a connection, whose numbers at a begin with the last one of 32 bits. a asks for b's MAC first, by
/// frame 0, which frame 1 answers. The three frames of the handshake are those from 2 to 4.
const OPENING: &str = "b socket tcp -> id 1
b bind 1 80 -> ok
b listen 1 1 -> ok
a socket tcp -> id 1
a connect 1 80 4294967295 -> started
pass 7 -> a 1 b 1
pass 7 -> a 1 b 1
pass 7 -> a 1 b 0
";

/// b's caller takes the connection.
const ACCEPTED: &str = "b accept 1 -> id 2 10.0.0.1 49152\n";

/// 65,535 octets are 44 segments of 1,460, of which three go out at first: the congestion window is 4,380 (RFC 5681 section 3.1), and grows by 1,460 with the acknowledgement of each
/// pass. The 1,295 octets behind them wait until those are acknowledged: a small segment doesn't go out while others are in flight.
const SLOW_START: &str = "pass 0 -> a 3 b 1
pass 0 -> a 4 b 1
pass 0 -> a 5 b 1
pass 0 -> a 6 b 1
pass 0 -> a 7 b 1
pass 0 -> a 8 b 1
pass 0 -> a 9 b 1
pass 0 -> a 2 b 1
pass 0 -> a 1 b 0
";

/// All transcripts. Each is a list of parts, in whose lines an arrow parts a script's line from what it prints; a line without
/// one prints nothing. Where it prints several lines, each further one stands behind an arrow of its own.
const TRANSCRIPTS: [&[&[&str]]; 20] = [
    aborts::TRANSCRIPTS,
    backlog::TRANSCRIPTS,
    closing::TRANSCRIPTS,
    crossing::TRANSCRIPTS,
    datagrams::TRANSCRIPTS,
    drops::TRANSCRIPTS,
    examples::TRANSCRIPTS,
    hops::TRANSCRIPTS,
    info::TRANSCRIPTS,
    ready::TRANSCRIPTS,
    refusals::TRANSCRIPTS,
    resets::TRANSCRIPTS,
    rounds::TRANSCRIPTS,
    scale::TRANSCRIPTS,
    scripts::TRANSCRIPTS,
    simultaneous::TRANSCRIPTS,
    table::TRANSCRIPTS,
    timers::TRANSCRIPTS,
    turns::TRANSCRIPTS,
    windows::TRANSCRIPTS,
];

/// What is asked of the program: to run a text as a script and to print its lines or its ladder, with a capture or without one, or to print what the
/// frame says that it spells, or what those of a capture say.
#[derive(Clone, Copy)]
enum Asked {
    Sim,
    Captured,
    Ladder(Numbering),
    CapturedLadder(Numbering),
    Decode,
    DecodeAll,
}

/// A source or a sink that moves so many octets a call at most, and of which this call fails, counted from 1: at 0 none does.
#[derive(Clone, Copy)]
struct Device {
    most: usize,
    fails_at: u64,
}

const GOOD: Device = Device {
    most: usize::MAX,
    fails_at: 0,
};

/// The source of a command, the sink of what it prints, and that of its capture.
#[derive(Clone, Copy)]
struct Devices {
    source: Device,
    out: Device,
    capture: Device,
}

const ALL_GOOD: Devices = Devices {
    source: GOOD,
    out: GOOD,
    capture: GOOD,
};

/// How a command does, and how its capture does.
type Answers = (Result<Option<Unreadable>, TextFault>, Result<(), TextFault>);

/// How a command ended: its answers, how often each of its devices failed, and what its sinks took.
#[derive(Drop)]
struct End {
    answers: Answers,
    failures: (u64, u64, u64),
    out: MemorySink,
    capture: MemorySink,
}

/// What is told of that.
#[derive(Clone, Copy)]
struct Told<'a> {
    answers: Answers,
    failures: (u64, u64, u64),
    prints: &'a [u8],
    captures: &'a [u8],
}

/// What is asked of a text, how it ends, and what it prints and captures.
#[derive(Clone, Copy)]
struct Row {
    asked: Asked,
    text: &'static [u8],
    ends: Result<Option<Unreadable>, TextFault>,
    prints: &'static [u8],
    captures: &'static [u8],
}

impl Row {
    /// What is told of it on devices that are good.
    fn told(self) -> Told<'static> {
        Told {
            answers: (self.ends, Ok(())),
            failures: (0, 0, 0),
            prints: self.prints,
            captures: self.captures,
        }
    }
}

/// The answers of a command without a capture.
fn plain(answer: Result<(), TextFault>) -> Answers {
    match answer {
        Ok(()) => (Ok(None), Ok(())),
        Err(fault) => (Err(fault), Ok(())),
    }
}

/// Those of one with a capture. Where nothing was run there is none.
fn both(answer: Result<Ends, TextFault>) -> Answers {
    match answer {
        Ok(ends) => (plain(ends.run).0, ends.capture),
        Err(fault) => (Err(fault), Ok(())),
    }
}

/// A sink of that kind.
fn sink(alloc: Global, device: Device) -> MemorySink {
    MemorySink::new(alloc)
        .in_pieces(device.most)
        .failing_at(device.fails_at)
}

/// Does what is asked of a text.
fn ended(alloc: Global, asked: Asked, text: &[u8], devices: Devices) -> End {
    let mut source = MemorySource::new(text)
        .in_pieces(devices.source.most.max(1))
        .failing_at(devices.source.fails_at);
    let mut out = sink(alloc, devices.out);
    let mut capture = sink(alloc, devices.capture);
    let answers = match asked {
        Asked::Sim => plain(sim(alloc, &mut source, &mut out)),
        Asked::Captured => both(sim_captured(alloc, &mut source, &mut out, &mut capture)),
        Asked::Ladder(numbering) => plain(sim_ladder(alloc, &mut source, numbering, &mut out)),
        Asked::CapturedLadder(numbering) => both(sim_ladder_captured(
            alloc,
            &mut source,
            numbering,
            &mut out,
            &mut capture,
        )),
        Asked::Decode => (frame::decode(alloc, &mut source, &mut out), Ok(())),
        Asked::DecodeAll => plain(captured::decode(alloc, &mut source, &mut out)),
    };
    End {
        answers,
        failures: (source.failures(), out.failures(), capture.failures()),
        out,
        capture,
    }
}

/// Does what is asked of a text, and compares how it ends.
fn ends(
    rt: &impl Abort,
    alloc: Global,
    (asked, text): (Asked, &[u8]),
    devices: Devices,
    told: &Told<'_>,
) {
    let end = ended(alloc, asked, text, devices);
    let is_told = end.answers == told.answers
        && end.failures == told.failures
        && end.out.taken() == told.prints
        && end.capture.taken() == told.captures;
    assert!(rt;
        is_told,
        "{}",
        str::from_utf8(end.out.taken()).unwrap_or("no text")
    );
}

/// Does what is asked of a script that is good, and compares what is printed.
fn prints(rt: &impl Abort, alloc: Global, (asked, script): (Asked, &str), want: &str) {
    let told = Told {
        answers: (Ok(None), Ok(())),
        failures: (0, 0, 0),
        prints: want.as_bytes(),
        captures: b"",
    };
    ends(rt, alloc, (asked, script.as_bytes()), ALL_GOOD, &told);
}

/// Plays a transcript.
fn plays(rt: &impl Abort, alloc: Global, parts: &[&str]) -> Result<(), Fail> {
    let mut script = String::new(alloc);
    let mut want = String::new(alloc);
    for part in parts {
        for line in part.lines() {
            match line.split_once(" -> ") {
                Some((said, printed)) => {
                    write!(script, "{said}\n")?;
                    write!(want, "{printed}\n")?;
                }
                None => write!(script, "{line}\n")?,
            }
        }
    }
    prints(rt, alloc, (Asked::Sim, script.as_str()), want.as_str());
    Ok(())
}

#[test]
fn transcripts_print_what_they_say(rt: HostRuntime) -> Result<(), Fail> {
    for transcripts in TRANSCRIPTS {
        for parts in transcripts {
            plays(&rt, rt.alloc(), parts)?;
        }
    }
    Ok(())
}
