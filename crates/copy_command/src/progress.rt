//! How far a copy is, said while it runs.

ghost use Rattle.std.specs.Prelude.{◌≡◌, ◌⊎◌, ◌++◌, true, false, Ok, OnOk, IfErr, IfOk, codes, string_bytes};
ghost use Rattle.std.specs.Io.KnownBytes.{Appends};
ghost use Rattle.devices.specs.Streams.{TakesFront};
ghost use Rattle.copy_command.specs.Progress.{share_of, text_with, text_of, progress_text, is_due};

use devices::{Sink, write_all};
use std::alloc::{AllocError, Global};
use std::io;

/// It is said again once so many octets more were written.
const PROGRESS_STEP: u64 = 65_536;

/// Says how many octets were written, and which share of the whole they are where that is known, in a line that is written over itself.
#[derive(Debug, Drop)]
pub struct Progress<E> {
    alloc: Global,
    out: E,
    whole: Option<u64>,
    told: u64,
}

impl<E: Sink> Progress<E> {
    /// Nothing was said to `out` yet of a copy of so many octets in all, if that is known.
    pub fn new(alloc: Global, out: E, whole: Option<u64>) -> Self
        ensures out { (result.out ≡ out) × (result.whole ≡ whole) }
        ensures fresh { result.told ≡ 0 }
    {
        Progress {
            alloc,
            out,
            whole,
            told: 0,
        }
    }

    /// Where it is said.
    pub fn out(&self) -> &E
        ensures { result.now ≡ self.now.out }
    {
        &self.out
    }

    /// Says how many octets were written, if it is time to. What can't be said is left out.
    pub fn tell(&mut self, written: u64)
        ensures due { is_due self.old.told written ≡ true → TakesFront (E.taken self.old.out) (E.taken self.new.out) (progress_text written self.old.whole) }
        ensures told { is_due self.old.told written ≡ true → self.new.told ≡ written }
        ensures early { is_due self.old.told written ≡ false → self.new ≡ self.old }
        ensures whole { self.new.whole ≡ self.old.whole }
    {
        if written.saturating_sub(self.told) >= PROGRESS_STEP {
            self.told = written;
            let _ = self.say(written);
        }
    }

    /// Says how many octets were written in all, and ends the line. What can't be said is left out.
    pub fn end(&mut self, written: u64)
        ensures front { TakesFront (E.taken self.old.out) (E.taken self.new.out) (progress_text written self.old.whole ++ codes "\n") }
        ensures kept { (self.new.whole ≡ self.old.whole) × (self.new.told ≡ self.old.told) }
    {
        let _ = self.say_last(written);
    }

    /// Says how many octets were written in all, and ends the line.
    fn say_last(&mut self, written: u64) -> io::Result<()>
        ensures ok { OnOk result (Appends (E.taken self.old.out) (E.taken self.new.out) (progress_text written self.old.whole ++ codes "\n")) }
        ensures front { IfErr result (λ fault. TakesFront (E.taken self.old.out) (E.taken self.new.out) (progress_text written self.old.whole ++ codes "\n")) }
        ensures kept { (self.new.whole ≡ self.old.whole) × (self.new.told ≡ self.old.told) }
    {
        let mut text = line(self.alloc, written, share(written, self.whole))?;
        text.push('\n')?;
        write_all(&mut self.out, text.as_bytes())
    }

    /// Says how many octets were written.
    fn say(&mut self, written: u64) -> io::Result<()>
        ensures ok { OnOk result (Appends (E.taken self.old.out) (E.taken self.new.out) (progress_text written self.old.whole)) }
        ensures front { IfErr result (λ fault. TakesFront (E.taken self.old.out) (E.taken self.new.out) (progress_text written self.old.whole)) }
        ensures kept { (self.new.whole ≡ self.old.whole) × (self.new.told ≡ self.old.told) }
    {
        let text = line(self.alloc, written, share(written, self.whole))?;
        write_all(&mut self.out, text.as_bytes())
    }
}

/// What is said of so many octets, and of the share of the whole that they are, if it is known.
fn line(alloc: Global, written: u64, share: Option<u64>) -> Result<String, AllocError>
    ensures { IfOk result (λ text. string_bytes text ≡ text_of written share) }
{
    match share {
        Some(share) => line_with_share(alloc, written, share),
        None => format!(in alloc; "\rhostd: {written} octets"),
    }
}

/// What is said of so many octets, which are this share of the whole.
fn line_with_share(alloc: Global, written: u64, share: u64) -> Result<String, AllocError>
    ensures { IfOk result (λ text. string_bytes text ≡ text_with written share) }
{
    let mut text = String::new(alloc);
    write!(text, "\rhostd: {written} octets, {share}")?;
    text.push_str(" %")?;
    Ok(text)
}

/// Which share of the whole so many octets are, in hundredths and at most 100, where it is known and isn't nothing.
fn share(written: u64, whole: Option<u64>) -> Option<u64>
    ensures { result ≡ share_of written whole }
{
    match whole {
        Some(whole) if whole > 0 => {
            let share = u128::from(written) * 100 / u128::from(whole);
            Some(share.min(100) as u64)
        }
        _ => None,
    }
}
