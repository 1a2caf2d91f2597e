//! `hostd`: runs a script of socket calls, ticks and frames on a world of two hosts, and prints what they answer; or prints what a frame says,
//! or what the frames of a capture say; or copies a file over two hosts.
#![tactic(auto)]

mod descriptors;
mod file;

use clap::error::ErrorKind;
use command_line::line;
use command_line::request::Line;
use commands::fault::TextFault;
use commands::sim::Ends;
use commands::{captured, frame, laddered, sim};
use copier::CopyFault;
use copy_command::copying::{Broken, Counting, TURNS, copy_captured};
use copy_command::progress::Progress;
use descriptors::stand_in;
use devices::{Reading, Sink, Source, Writing};
use file::StoredFile;
use ladder::Numbering;
use recorder::RecordedLink;
use std::alloc::Global;
use std::fs::{File, OpenFile};
use std::io::BufWriter;
use std::net::UdpSocket;
use std::os::unix::fs::MetadataExt;
use std::process::ExitCode;
use std::{env, fmt, fs, io};
use udp_link::{Losses, PeerSocket, SocketLink, pair};

/// A new file, whose octets are handed on many at a time.
type FileSink = Writing<BufWriter<StoredFile>>;

/// The status after a usage fault, and after help.
const USAGE: u8 = 2;

fn main(rt: HostRuntime) -> ExitCode {
    let _standing_in = stand_in(&rt);
    match words(&rt) {
        Ok(words) => run(&rt, words.as_slice()),
        Err(error) if error.kind() == io::ErrorKind::InvalidData => {
            let _ = eprintln!(rt; "hostd: a word of the command line is no text");
            ExitCode::from(USAGE)
        }
        Err(_) => report(&rt, TextFault::NoMemory),
    }
}

/// The words of the command line, the program's name first.
fn words(rt: &HostRuntime) -> io::Result<Vec<String>> {
    Ok(env::args(rt)?.collect(rt.alloc())?)
}

/// Does what the words of the command line ask for.
fn run(rt: &HostRuntime, words: &[String]) -> ExitCode {
    match line::line(rt.alloc(), words) {
        Ok(
            Line::Sim {
                script,
                capture,
                ladder,
            },
        ) => run_script(rt, script, capture, ladder),
        Ok(Line::Decode { hex }) => print_frame(rt, hex),
        Ok(Line::DecodeAll { capture }) => print_frames(rt, capture),
        Ok(
            Line::Copy {
                source,
                destination,
                capture,
                losses,
                progress,
            },
        ) => copy_file(rt, (source, destination, capture), losses, progress),
        Err(error) if error.kind() == ErrorKind::OutOfMemory => report(rt, TextFault::NoMemory),
        Err(error) => {
            let _ = eprint!(rt; "{error}");
            ExitCode::from(USAGE)
        }
    }
}

/// Runs the script in a file and prints what it prints, or the ladder of its run if its numbers are asked for, and writes a capture of its frames to
/// another file, if one is told.
fn run_script(
    rt: &HostRuntime,
    path: &str,
    capture: Option<&str>,
    ladder: Option<Numbering>,
) -> ExitCode {
    let Ok(file) = fs::open(rt, path) else {
        return report(rt, format_args!("cannot open {path}"));
    };
    let mut script = Reading::new(file);
    let mut out = Writing::new(io::writer(rt));
    let Some(capture) = capture else {
        return ended(rt, played(rt.alloc(), &mut script, ladder, &mut out));
    };
    if are_same_file(rt, path, capture) {
        return report(rt, format_args!("{path} and {capture} are the same file"));
    }
    let mut capture = match create(rt, capture) {
        Ok(capture) => capture,
        Err(fault) => return report(rt, fault),
    };
    match captured_too(rt.alloc(), &mut script, ladder, &mut out, &mut capture) {
        Ok(ends) => ended(rt, ends.whole()),
        Err(fault) => report(rt, fault),
    }
}

/// Runs a script and prints what it prints, or its ladder.
fn played<R: Source, W: Sink>(
    alloc: Global,
    script: &mut R,
    ladder: Option<Numbering>,
    out: &mut W,
) -> Result<(), TextFault> {
    match ladder {
        Some(numbering) => laddered::sim_ladder(alloc, script, numbering, out),
        None => sim::sim(alloc, script, out),
    }
}

/// The same, and writes a capture of its frames.
fn captured_too<R: Source, W: Sink, C: Sink>(
    alloc: Global,
    script: &mut R,
    ladder: Option<Numbering>,
    out: &mut W,
    capture: &mut C,
) -> Result<Ends, TextFault> {
    match ladder {
        Some(numbering) => { laddered::sim_ladder_captured(alloc, script, numbering, out, capture) }
        None => sim::sim_captured(alloc, script, out, capture),
    }
}

/// Prints what the frame in a file says.
fn print_frame(rt: &HostRuntime, path: &str) -> ExitCode {
    let Ok(file) = fs::open(rt, path) else {
        return report(rt, format_args!("cannot open {path}"));
    };
    let mut hex = Reading::new(file);
    let mut out = Writing::new(io::writer(rt));
    match frame::decode(rt.alloc(), &mut hex, &mut out) {
        Ok(None) => ExitCode::SUCCESS,
        Ok(Some(_)) => ExitCode::FAILURE,
        Err(fault) => report(rt, fault),
    }
}

/// Prints what the frames of the capture in a file say.
fn print_frames(rt: &HostRuntime, path: &str) -> ExitCode {
    let Ok(file) = fs::open(rt, path) else {
        return report(rt, format_args!("cannot open {path}"));
    };
    let mut capture = Reading::new(file);
    let mut out = Writing::new(io::writer(rt));
    ended(rt, captured::decode(rt.alloc(), &mut capture, &mut out))
}

/// The sink of a new file at this path. `Write` where the file can't be made, `NoMemory` where there is none for its buffer.
fn create(rt: &HostRuntime, path: &str) -> Result<FileSink, TextFault> {
    let Ok(file) = fs::create(rt, path) else {
        return Err(TextFault::Write);
    };
    match BufWriter::new(rt.alloc(), StoredFile(file)) {
        Ok(buffered) => Ok(Writing::new(buffered)),
        Err(_) => Err(TextFault::NoMemory),
    }
}

/// Copies a file to another, which is made anew, over two hosts that two UDP sockets join, and writes a capture of their frames to a third, if one
/// is told. No two of them may be the same file: making it anew would empty it.
fn copy_file(
    rt: &HostRuntime,
    paths: (&str, &str, Option<&str>),
    losses: Losses,
    progress: bool,
) -> ExitCode {
    let (source, destination, capture) = paths;
    let Ok(src) = fs::open(rt, source) else {
        return report(rt, format_args!("cannot open {source}"));
    };
    if let Some((one, other)) = twice_meant(rt, source, destination, capture) {
        return report(rt, format_args!("{one} and {other} are the same file"));
    }
    let Ok(dst) = fs::create(rt, destination) else {
        return report(rt, format_args!("cannot create {destination}"));
    };
    // Two names of a new file lead to one only now that it is there.
    if let Some((one, other)) = twice_meant(rt, source, destination, capture) {
        return report(rt, format_args!("{one} and {other} are the same file"));
    }
    let capture = match create_if_told(rt, capture) {
        Ok(capture) => capture,
        Err(fault) => return report(rt, fault),
    };
    let Ok((a, b)) = pair(rt) else {
        return report(rt, CopyFault::Link);
    };
    let progress = if progress {
        let out = Writing::new(rt.stderr());
        Some(Progress::new(rt.alloc(), out, length(&src)))
    } else {
        None
    };
    let dst = Counting::new(Writing::new(StoredFile(dst)), progress);
    copy(
        rt,
        Reading::new(src),
        dst,
        SocketLink::new(a, b, losses),
        capture,
    )
}

/// Two of the paths of a copy that lead to one file, if any do.
fn twice_meant<'a>(
    rt: &HostRuntime,
    source: &'a str,
    destination: &'a str,
    capture: Option<&'a str>,
) -> Option<(&'a str, &'a str)> {
    if are_same_file(rt, source, destination) {
        return Some((source, destination));
    }
    let capture = capture?;
    for path in [source, destination] {
        if are_same_file(rt, path, capture) {
            return Some((path, capture));
        }
    }
    None
}

/// Whether two paths lead to one file, under whatever names.
fn are_same_file(rt: &HostRuntime, one: &str, other: &str) -> bool {
    match (fs::metadata(rt, one), fs::metadata(rt, other)) {
        (Ok(one), Ok(other)) => {
            one.is_file() && (one.dev(), one.ino()) == (other.dev(), other.ino())
        }
        _ => one == other,
    }
}

/// The sink of a new file, if a path of one is told.
fn create_if_told(rt: &HostRuntime, path: Option<&str>) -> Result<Option<FileSink>, TextFault> {
    match path {
        Some(path) => Ok(Some(create(rt, path)?)),
        None => Ok(None),
    }
}

/// How many octets a file has, if it is no pipe or device.
fn length(file: &File) -> Option<u64> {
    match file.metadata() {
        Ok(metadata) if metadata.is_file() => Some(metadata.len()),
        _ => None,
    }
}

/// Copies what a file has to another, and prints how many octets that are. Where the capture's sink fails, the copy goes on, and the fault is told
/// behind what it printed.
fn copy(
    rt: &HostRuntime,
    mut src: Reading<File>,
    mut dst: Counting<Writing<StoredFile>, Writing<io::Stderr>>,
    mut link: SocketLink<PeerSocket<UdpSocket>>,
    capture: Option<FileSink>,
) -> ExitCode {
    let alloc = rt.alloc();
    let (outcome, captured) = match capture {
        None => (
            copier::copy(alloc, &mut src, &mut dst, &mut link, TURNS),
            Ok(()),
        ),
        Some(capture) => {
            let mut link = RecordedLink::new(link, capture);
            let ends = copy_captured(alloc, &mut src, &mut dst, &mut link, TURNS);
            (ends.copy, ends.capture)
        }
    };
    dst.end();
    let written = dst.written();
    match outcome {
        Ok(count) if println!(rt; "copied {count} octets").is_ok() => {
            ended(rt, captured.map_err(|_| TextFault::Write))
        }
        Ok(_) => report(rt, TextFault::Write),
        Err(fault) => report(rt, Broken { fault, written }),
    }
}

/// The status of a command that ended so, whose fault is printed.
fn ended(rt: &HostRuntime, outcome: Result<(), TextFault>) -> ExitCode {
    match outcome {
        Ok(()) => ExitCode::SUCCESS,
        Err(fault) => report(rt, fault),
    }
}

/// Prints a fault on standard error, and answers the status of a run that failed.
fn report(rt: &HostRuntime, fault: impl fmt::Display + Drop) -> ExitCode {
    let _ = eprintln!(rt; "hostd: {fault}");
    ExitCode::FAILURE
}
