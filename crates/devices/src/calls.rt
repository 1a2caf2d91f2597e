//! Calls of a reader or a writer that a signal may interrupt. Such a call moved nothing, and is made again.

ghost use Rattle.std.specs.Prelude.{◌≡◌, ℕ, List, [], ◌∷◌, Option, None};
ghost use Rattle.std.specs.Io.{ReadsAtMost, WritesAtMost};
ghost use Rattle.std.specs.Io.KnownBytes.{Keeps, ReadConsumes, WriteAppends};
ghost use Rattle.std.specs.declared.io.ErrorKind.{ErrorKind};
ghost use Rattle.devices.specs.Calls.{end_of, Ends, IsMadeAgain};

use std::io::{ErrorKind, Read, Result, Write};

/// How often in a row a call is made again at most that a signal interrupted. Then it failed.
pub const MOST_AGAIN: u32 = 64;

/// What a source reads from: a reader of std, or one that makes known how each of its calls ended.
pub trait Reader {
    // The octets that reads give from here on, where the reader makes them known.
    ghost remaining: { Self → Option (List ℕ) };

    // How its calls so far ended, in order, where the reader makes it known.
    ghost ends: { Self → Option (List (Option ErrorKind)) } = { λ _. None };

    /// Reads as std's `Read::read` does, once.
    fn read_once(&mut self, buffer: &mut [u8]) -> Result<usize>
        ensures bound { ReadsAtMost result buffer.new }
        ensures remaining { ReadConsumes (remaining self.old) (remaining self.new) result buffer.new }
        ensures ends { Ends (ends self.old) (ends self.new) (end_of result ∷ []) };
}

impl<R: Read> Reader for R {
    ghost remaining = { λ reader. R.Read.remaining reader };

    fn read_once(&mut self, buffer: &mut [u8]) -> Result<usize> {
        self.read(buffer)
    }
}

/// What a sink writes to: a writer of std, or one that makes known how each of its calls ended.
pub trait Writer {
    // The octets that it holds, where the writer makes them known.
    ghost contents: { Self → Option (List ℕ) };

    // How its calls so far ended, in order, where the writer makes it known.
    ghost ends: { Self → Option (List (Option ErrorKind)) } = { λ _. None };

    /// Writes as std's `Write::write` does, once.
    fn write_once(&mut self, octets: &[u8]) -> Result<usize>
        ensures bound { WritesAtMost result octets.now }
        ensures contents { WriteAppends (contents self.old) (contents self.new) result octets.now }
        ensures ends { Ends (ends self.old) (ends self.new) (end_of result ∷ []) };

    /// Flushes as std's `Write::flush` does, once.
    fn flush_once(&mut self) -> Result<()>
        ensures contents { Keeps (contents self.old) (contents self.new) }
        ensures ends { Ends (ends self.old) (ends self.new) (end_of result ∷ []) };
}

impl<W: Write> Writer for W {
    ghost contents = { λ writer. W.Write.contents writer };

    fn write_once(&mut self, octets: &[u8]) -> Result<usize> {
        self.write(octets)
    }

    fn flush_once(&mut self) -> Result<()> {
        self.flush()
    }
}

/// Reads, and again while a signal interrupts it.
pub(crate) fn read<R: Reader>(reader: &mut R, buffer: &mut [u8]) -> Result<usize>
    ensures bound { ReadsAtMost result buffer.new }
    ensures remaining { ReadConsumes (R.remaining reader.old) (R.remaining reader.new) result buffer.new }
    ensures ends { IsMadeAgain (R.ends reader.old) (R.ends reader.new) (end_of result) }
{
    let mut again = 0;
    while again < MOST_AGAIN {
        match reader.read_once(buffer) {
            Err(error) if error.kind() == ErrorKind::Interrupted => again += 1,
            outcome => return outcome,
        }
    }
    reader.read_once(buffer)
}

/// Writes, and again while a signal interrupts it.
pub(crate) fn write<W: Writer>(writer: &mut W, octets: &[u8]) -> Result<usize>
    ensures bound { WritesAtMost result octets.now }
    ensures contents { WriteAppends (W.contents writer.old) (W.contents writer.new) result octets.now }
    ensures ends { IsMadeAgain (W.ends writer.old) (W.ends writer.new) (end_of result) }
{
    let mut again = 0;
    while again < MOST_AGAIN {
        match writer.write_once(octets) {
            Err(error) if error.kind() == ErrorKind::Interrupted => again += 1,
            outcome => return outcome,
        }
    }
    writer.write_once(octets)
}

/// Flushes, and again while a signal interrupts it.
pub(crate) fn flush<W: Writer>(writer: &mut W) -> Result<()>
    ensures contents { Keeps (W.contents writer.old) (W.contents writer.new) }
    ensures ends { IsMadeAgain (W.ends writer.old) (W.ends writer.new) (end_of result) }
{
    let mut again = 0;
    while again < MOST_AGAIN {
        match writer.flush_once() {
            Err(error) if error.kind() == ErrorKind::Interrupted => again += 1,
            outcome => return outcome,
        }
    }
    writer.flush_once()
}
