//! The octets between a source and a connection.

ghost use Rattle.std.specs.Prelude.{◌≡◌, ◌≤◌, ◌↔◌, IsTrue, false, [], IfErr, OnOk, OnErr};
ghost use Rattle.devices.specs.Streams.{counted};

use crate::ends::Ends;
use crate::fault::CopyFault;
use devices::Source;

/// The most octets that are read at once.
const MOST_READ: usize = 4_096;

/// Octets that were read and are not sent yet, and whether the source is at its end and the connection was told so.
#[derive(Drop)]
pub(crate) struct Feed {
    octets: [u8; MOST_READ],
    from: usize,
    to: usize,
    at_end: bool,
    closed: bool,
    ghost ordered: { from ≤ to },
    ghost within: { to ≤ 4096 },
}

impl Feed {
    ghost use Rattle.std.specs.Prelude.{ℕ, List, Option};
    ghost use Rattle.std.specs.Io.KnownBytes.{Keeps};
    ghost use Rattle.copier.specs.declared.ends.Ends.{Ends};
    ghost use Rattle.copier.specs.Faults.{read_fails, IsOfHosts, IsOfSource};
    ghost use Rattle.copier.specs.Feeding.{pending, KeepsFed, LeavesBegun};

    /// Nothing was read.
    pub(crate) fn new() -> Feed
        ensures empty { pending result ≡ [] }
        ensures at_end { result.at_end ≡ false }
        ensures closed { result.closed ≡ false }
    {
        Feed {
            octets: [0; MOST_READ],
            from: 0,
            to: 0,
            at_end: false,
            closed: false,
        }
    }

    /// Whether all that was read is sent.
    fn is_empty(&self) -> bool
        ensures { IsTrue result ↔ (self.now.from ≡ self.now.to) }
    {
        self.from == self.to
    }

    /// Reads when all is sent, sends, and closes the connection's side at the end of the source. Answers whether anything moved.
    pub(crate) fn feed<R: Source>(
        &mut self,
        src: &mut R,
        ends: &mut Ends,
    ) -> Result<bool, CopyFault>
        ensures failed { R.failures src.new ≡ counted (read_fails result) (R.failures src.old) }
        ensures fault { IfErr result IsOfSource }
        ensures fed { OnOk result (KeepsFed (R.given src.old) (R.remaining src.old) (R.given src.new) (R.remaining src.new) self.old self.new ends.old ends.new) }
        ensures left { OnErr result (LeavesBegun (R.given src.old) (R.remaining src.old) (R.given src.new) self.old ends.old) }
    {
        let read = self.refill(src)?;
        let sent = self.send(ends)?;
        let closed = self.close(ends)?;
        Ok(read || sent || closed)
    }

    /// Reads when all is sent.
    fn refill<R: Source>(&mut self, src: &mut R) -> Result<bool, CopyFault>
        ensures failed { R.failures src.new ≡ counted (read_fails result) (R.failures src.old) }
        ensures fault { IfErr result (λ fault. fault ≡ CopyFault.Read) }
        ensures fed { OnOk result ((ends : Ends) → KeepsFed (R.given src.old) (R.remaining src.old) (R.given src.new) (R.remaining src.new) self.old self.new ends ends) }
        ensures kept { OnErr result (Keeps (R.given src.old) (R.given src.new)) }
    {
        if !self.is_empty() || self.at_end {
            return Ok(false);
        }
        let Ok(count) = src.read(&mut self.octets) else {
            return Err(CopyFault::Read);
        };
        self.from = 0;
        self.to = count;
        self.at_end = count == 0;
        Ok(true)
    }

    /// Sends what is not sent yet, as far as the connection takes it.
    fn send(&mut self, ends: &mut Ends) -> Result<bool, CopyFault>
        ensures fault { IfErr result IsOfHosts }
        ensures fed { OnOk result ((given remaining : Option (List ℕ)) → KeepsFed given remaining given remaining self.old self.new ends.old ends.new) }
    {
        if self.is_empty() {
            return Ok(false);
        }
        let count = ends.send(&self.octets[self.from..self.to])?;
        self.from += count;
        Ok(count > 0)
    }

    /// Closes the connection's side once all of the source is sent.
    fn close(&mut self, ends: &mut Ends) -> Result<bool, CopyFault>
        ensures fault { IfErr result IsOfHosts }
        ensures fed { OnOk result ((given remaining : Option (List ℕ)) → KeepsFed given remaining given remaining self.old self.new ends.old ends.new) }
    {
        if self.closed || !self.at_end {
            return Ok(false);
        }
        self.closed = ends.close()?;
        Ok(self.closed)
    }
}
