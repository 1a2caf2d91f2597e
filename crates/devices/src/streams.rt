//! Where octets come from and where they go: devices that count their failures.

ghost use Rattle.std.specs.Prelude.{◌≡◌, ℕ, ◌≤◌, Bool, true, List, Option, Some, None, is_err, OnOk, OnErr, take, drop, length};
ghost use Rattle.std.specs.Io.{ReadsAtMost, WritesAtMost};
ghost use Rattle.std.specs.Io.KnownBytes.{Appends, Keeps, ReadConsumes, WriteAppends};
ghost use Rattle.devices.specs.Streams.{counted, write_fails, written_on, handed_on, ReadGives, TakesFront};
ghost use Rattle.devices.specs.Calls.{end_of, IsMadeAgain};

pub mod memory;

use crate::calls::{self, Reader, Writer};
use std::io::{Error, ErrorKind, Result};

/// Gives octets, as std's `Read` does, and counts its failures.
pub trait Source {
    // How many calls have failed.
    ghost failures: { Self → ℕ };

    // The octets given so far, where the source makes them known.
    ghost given: { Self → Option (List ℕ) } = { λ _. None };

    // The octets still to come, where the source makes them known.
    ghost remaining: { Self → Option (List ℕ) } = { λ _. None };

    /// Puts octets at the front of `buffer` and answers how many; none of a buffer with room says that the source is at
    /// its end. An error is a failure, and gives nothing.
    fn read(&mut self, buffer: &mut [u8]) -> Result<usize>
        ensures bound { ReadsAtMost result buffer.new }
        ensures failures { failures self.new ≡ counted (is_err result) (failures self.old) }
        ensures given { ReadGives (given self.old) (given self.new) result buffer.new }
        ensures remaining { ReadConsumes (remaining self.old) (remaining self.new) result buffer.new };

    /// How many calls have failed. At its last value the count stays.
    fn failures(&self) -> u64
        ensures { result ≡ failures self.now };
}

/// Takes octets, as std's `Write` does, and counts its failures.
pub trait Sink {
    // How many calls have failed.
    ghost failures: { Self → ℕ };

    // The octets taken so far, where the sink makes them known.
    ghost taken: { Self → Option (List ℕ) } = { λ _. None };

    // Whether all that it took is handed on: whether a flush succeeded since octets were taken last.
    ghost is_flushed: { Self → Bool };

    /// Takes octets from the front of `octets` and answers how many. An error is a failure, and takes nothing; to take
    /// none of some octets is a failure too.
    fn write(&mut self, octets: &[u8]) -> Result<usize>
        ensures bound { WritesAtMost result octets.now }
        ensures failures { failures self.new ≡ counted (write_fails result octets.now) (failures self.old) }
        ensures taken { WriteAppends (taken self.old) (taken self.new) result octets.now }
        ensures flushed { is_flushed self.new ≡ written_on result (is_flushed self.old) };

    /// Hands on what was taken, where the sink holds any back. An error is a failure.
    fn flush(&mut self) -> Result<()>
        ensures failures { failures self.new ≡ counted (is_err result) (failures self.old) }
        ensures taken { Keeps (taken self.old) (taken self.new) }
        ensures flushed { is_flushed self.new ≡ handed_on result (is_flushed self.old) };

    /// How many calls have failed. At its last value the count stays.
    fn failures(&self) -> u64
        ensures { result ≡ failures self.now };
}

/// Writes all of these octets, in as many writes as it takes. An error is a failure of the sink, and then it took a front of them; where it took
/// nothing of some octets, the error is `WriteZero`.
pub fn write_all<W: Sink>(sink: &mut W, octets: &[u8]) -> Result<()>
    ensures failures { W.failures sink.new ≡ counted (is_err result) (W.failures sink.old) }
    ensures ok { OnOk result (Appends (W.taken sink.old) (W.taken sink.new) octets.now) }
    ensures err { OnErr result (TakesFront (W.taken sink.old) (W.taken sink.new) octets.now) }
{
    let mut rest = octets;
    while !rest.is_empty() {
        let count = sink.write(rest)?;
        if count == 0 {
            return Err(Error::from(ErrorKind::WriteZero));
        }
        (_, rest) = rest.split_at(count);
    }
    Ok(())
}

/// A reader of std, as an open file: of its octets it makes known what the reader does. A read that a signal interrupted is made again, 64 times in a
/// row at most; then it failed.
#[derive(Debug, Drop)]
pub struct Reading<R> {
    reader: R,
    failures: u64,
}

impl<R> Reading<R> {
    /// A source of what `reader` gives, with no failure so far.
    pub fn new(reader: R) -> Self
        ensures reader { result.reader ≡ reader }
        ensures failures { result.failures ≡ 0 }
    {
        Reading {
            reader,
            failures: 0,
        }
    }
}

impl<R: Reader> Source for Reading<R> {
    ghost failures = { λ source. source.failures };

    ghost remaining = { λ source. R.remaining source.reader };

    fn read(&mut self, buffer: &mut [u8]) -> Result<usize>
        ensures bound { ReadsAtMost result buffer.new }
        ensures failures { self.new.failures ≡ counted (is_err result) self.old.failures }
        ensures given { ReadGives None None result buffer.new }
        ensures remaining { ReadConsumes (R.remaining self.old.reader) (R.remaining self.new.reader) result buffer.new }
        ensures ends { IsMadeAgain (R.ends self.old.reader) (R.ends self.new.reader) (end_of result) }
    {
        let outcome = calls::read(&mut self.reader, buffer);
        if outcome.is_err() {
            self.failures = self.failures.saturating_add(1);
        }
        outcome
    }

    fn failures(&self) -> u64 {
        self.failures
    }
}

/// A writer of std, as standard output: of its octets it makes known what the writer does. A write or a flush that a signal interrupted is made again, 64
/// times in a row at most; then it failed.
#[derive(Debug, Drop)]
pub struct Writing<W> {
    writer: W,
    failures: u64,
    is_flushed: bool,
}

impl<W> Writing<W> {
    /// A sink that hands all to `writer`, with no failure so far.
    pub fn new(writer: W) -> Self
        ensures writer { result.writer ≡ writer }
        ensures failures { result.failures ≡ 0 }
        ensures flushed { result.is_flushed ≡ true }
    {
        Writing {
            writer,
            failures: 0,
            is_flushed: true,
        }
    }
}

impl<W: Writer> Sink for Writing<W> {
    ghost failures = { λ sink. sink.failures };

    ghost taken = { λ sink. W.contents sink.writer };

    ghost is_flushed = { λ sink. sink.is_flushed };

    fn write(&mut self, octets: &[u8]) -> Result<usize>
        ensures bound { WritesAtMost result octets.now }
        ensures failures { self.new.failures ≡ counted (write_fails result octets.now) self.old.failures }
        ensures taken { WriteAppends (W.contents self.old.writer) (W.contents self.new.writer) result octets.now }
        ensures flushed { self.new.is_flushed ≡ written_on result self.old.is_flushed }
        ensures ends { IsMadeAgain (W.ends self.old.writer) (W.ends self.new.writer) (end_of result) }
    {
        let outcome = calls::write(&mut self.writer, octets);
        match outcome {
            Ok(0) if octets.is_empty() => {}
            Ok(count) if count > 0 => self.is_flushed = false,
            _ => self.failures = self.failures.saturating_add(1),
        }
        outcome
    }

    fn flush(&mut self) -> Result<()>
        ensures failures { self.new.failures ≡ counted (is_err result) self.old.failures }
        ensures taken { Keeps (W.contents self.old.writer) (W.contents self.new.writer) }
        ensures flushed { self.new.is_flushed ≡ handed_on result self.old.is_flushed }
        ensures ends { IsMadeAgain (W.ends self.old.writer) (W.ends self.new.writer) (end_of result) }
    {
        let outcome = calls::flush(&mut self.writer);
        match outcome {
            Ok(()) => self.is_flushed = true,
            Err(_) => self.failures = self.failures.saturating_add(1),
        }
        outcome
    }

    fn failures(&self) -> u64 {
        self.failures
    }
}
