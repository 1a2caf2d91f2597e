//! `hostd copy`: the sink of a copy, which counts its octets, and how a copy that failed is told.

ghost use Rattle.std.specs.Prelude.{◌≡◌, true, IfOk, OnOk, OnErr, is_err};
ghost use Rattle.std.specs.Io.{WritesAtMost};
ghost use Rattle.std.specs.Io.KnownBytes.{Keeps, WriteAppends};
ghost use Rattle.devices.specs.Streams.{counted, write_fails, written_on, handed_on};
ghost use Rattle.copier.specs.Faults.{read_fails, write_fails as write_fails_in, link_fails};
ghost use Rattle.copier.specs.Copying.{Copies};
ghost use Rattle.recorder.specs.Captured.{GoesOn};
ghost use Rattle.copy_command.specs.Progress.{more};

use crate::progress::Progress;
use copier::{CopyFault, copy};
use devices::{Link, Sink, Source};
use host::Refusal;
use recorder::{CaptureFault, RecordedLink};
use std::alloc::Global;
use std::{fmt, io};

/// The turns that a copy has.
pub const TURNS: u64 = 10_000_000;

/// How a copy with a capture ended.
#[derive(Clone, Copy, Debug, PartialEq, Eq)]
pub struct CopyEnds {
    /// How the copy itself did.
    pub copy: Result<u64, CopyFault>,
    /// How the capture did.
    pub capture: Result<(), CaptureFault>,
}

/// As `copy`, over a link whose frames are captured, and then has the capture's sink hand on what it took, also where a fault ended the copy. Behind
/// what the sink had taken before, it took the records of the frames that the link took meanwhile, or where it failed a front of these.
pub fn copy_captured<R: Source, W: Sink, L: Link, C: Sink>(
    alloc: Global,
    src: &mut R,
    dst: &mut W,
    link: &mut RecordedLink<L, C>,
    turns: u64,
) -> CopyEnds
    ensures read { R.failures src.new ≡ counted (read_fails result.copy) (R.failures src.old) }
    ensures written { W.failures dst.new ≡ counted (write_fails_in result.copy) (W.failures dst.old) }
    ensures carried { L.failures link.new.link ≡ counted (link_fails result.copy) (L.failures link.old.link) }
    ensures flushed { OnOk result.copy (W.is_flushed dst.new ≡ true) }
    ensures copies { Copies result.copy (R.given src.old) (R.given src.new) (R.remaining src.new) (W.taken dst.old) (W.taken dst.new) (L.told link.old.link) (L.told link.new.link) }
    ensures captures { GoesOn link.old.is_whole link.new.is_whole (C.taken link.old.capture) (C.taken link.new.capture) (L.told link.old.link) (L.told link.new.link) }
    ensures whole { OnOk result.capture ((link.new.is_whole ≡ true) × (C.is_flushed link.new.capture ≡ true)) }
{
    let copy = copy(alloc, src, dst, link, turns);
    let capture = link.finish();
    CopyEnds { copy, capture }
}

/// A sink that hands octets on to another and counts them, and says how far the copy is, if so asked.
#[derive(Debug, Drop)]
pub struct Counting<W, E> {
    sink: W,
    written: u64,
    progress: Option<Progress<E>>,
}

impl<W, E: Sink> Counting<W, E> {
    /// Nothing was written to `sink` yet.
    pub fn new(sink: W, progress: Option<Progress<E>>) -> Self
        ensures sink { (result.sink ≡ sink) × (result.progress ≡ progress) }
        ensures fresh { result.written ≡ 0 }
    {
        Counting {
            sink,
            written: 0,
            progress,
        }
    }

    /// How many octets were handed on. At its last value the count stays.
    pub fn written(&self) -> u64
        ensures { result ≡ self.now.written }
    {
        self.written
    }

    /// Where octets are handed on.
    pub fn sink(&self) -> &W
        ensures { result.now ≡ self.now.sink }
    {
        &self.sink
    }

    /// Counts so many octets more, and says so, if it is time to.
    fn count(&mut self, octets: usize)
        ensures sink { self.new.sink ≡ self.old.sink }
        ensures written { self.new.written ≡ more self.old.written octets }
    {
        self.written = self.written.saturating_add(octets as u64);
        if let Some(progress) = &mut self.progress {
            progress.tell(self.written);
        }
    }

    /// Says how many octets were written in all, if so asked.
    pub fn end(&mut self)
        ensures sink { self.new.sink ≡ self.old.sink }
        ensures written { self.new.written ≡ self.old.written }
    {
        if let Some(progress) = &mut self.progress {
            progress.end(self.written);
        }
    }
}

impl<W: Sink, E: Sink> Sink for Counting<W, E> {
    ghost failures = { λ counting. W.failures counting.sink };

    ghost taken = { λ counting. W.taken counting.sink };

    ghost is_flushed = { λ counting. W.is_flushed counting.sink };

    fn write(&mut self, octets: &[u8]) -> io::Result<usize>
        ensures bound { WritesAtMost result octets.now }
        ensures failures { W.failures self.new.sink ≡ counted (write_fails result octets.now) (W.failures self.old.sink) }
        ensures taken { WriteAppends (W.taken self.old.sink) (W.taken self.new.sink) result octets.now }
        ensures flushed { W.is_flushed self.new.sink ≡ written_on result (W.is_flushed self.old.sink) }
        ensures count { IfOk result (λ n. self.new.written ≡ more self.old.written n) }
        ensures none { OnErr result (self.new.written ≡ self.old.written) }
    {
        let outcome = self.sink.write(octets);
        if let Ok(count) = &outcome {
            self.count(*count);
        }
        outcome
    }

    fn flush(&mut self) -> io::Result<()>
        ensures failures { W.failures self.new.sink ≡ counted (is_err result) (W.failures self.old.sink) }
        ensures taken { Keeps (W.taken self.old.sink) (W.taken self.new.sink) }
        ensures flushed { W.is_flushed self.new.sink ≡ handed_on result (W.is_flushed self.old.sink) }
        ensures written { self.new.written ≡ self.old.written }
    {
        self.sink.flush()
    }

    fn failures(&self) -> u64 {
        self.sink.failures()
    }
}

/// Why a copy ended before its end, and how many octets were written by then.
#[derive(Clone, Copy, Debug, PartialEq, Eq)]
pub struct Broken {
    /// Why it ended.
    pub fault: CopyFault,
    /// How many octets were written.
    pub written: u64,
}

impl fmt::Display for Broken {
    fn fmt<W: fmt::Write>(&self, f: &mut fmt::Formatter<W>) -> fmt::Result {
        match self.fault {
            CopyFault::NoMemory | CopyFault::Host(Refusal::ENOMEM) => f.write_str("out of memory"),
            fault => write!(f, "{fault}, {} octets written", self.written),
        }
    }
}
