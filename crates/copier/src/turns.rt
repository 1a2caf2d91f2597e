//! The copy itself.

ghost use Rattle.std.specs.Prelude.{◌≡◌, ◌+◌, ◌≤◌, ◌<◌, [], true, false, length, Some, is_some, IfOk, IfErr, OnOk, OnErr};
ghost use Rattle.std.specs.Io.KnownBytes.{Appends, Keeps};
ghost use Rattle.devices.specs.Streams.{counted, TakesFront};
ghost use Rattle.copier.specs.Faults.{read_fails, write_fails, link_fails, IsOfBeginning, IsOfSink, WantsMemory};
ghost use Rattle.copier.specs.Moves.{copy_of, KeepsTold};
ghost use Rattle.copier.specs.Feeding.{pending};
ghost use Rattle.copier.specs.Copying.{Copies, Turns, DrainsTo, LeavesDrained, is_end};
ghost use Rattle.copy_law.specs.Course.{IsCourse};

use crate::ends::{Arrival, Ends};
use crate::fault::CopyFault;
use crate::feed::Feed;
use devices::{Link, Sink, Source};
use std::alloc::Global;

/// The most octets that are written in a turn.
const MOST_WRITTEN: usize = 4_096;

/// Copies all octets of `src` to `dst` over a connection of two hosts that `link` joins, and answers how many they were.
///
/// In a turn up to 4,096 octets are read once the last are sent, and sent; frames of the first host, then of the second, go into the link, and
/// then out of it to the second and to the first, at most 64 each; and what the second host received is written. A turn in which nothing moved
/// advances both clocks to the first moment that a host waits for. At the end of the stream the sink is flushed. The link hears which moment it
/// is before a turn's frames go into it.
///
/// Read, Write or Link where that device fails; Host where a host refuses a call; Stalled where `turns` are used up, or nothing moves and
/// neither host waits for a moment. What was written then begins what was read. Memory is wanted before the first turn alone: where it is
/// refused, source, sink and link are as they were.
pub fn copy<R: Source, W: Sink, L: Link>(
    alloc: Global,
    src: &mut R,
    dst: &mut W,
    link: &mut L,
    turns: u64,
) -> Result<u64, CopyFault>
    ensures read { R.failures src.new ≡ counted (read_fails result) (R.failures src.old) }
    ensures written { W.failures dst.new ≡ counted (write_fails result) (W.failures dst.old) }
    ensures carried { L.failures link.new ≡ counted (link_fails result) (L.failures link.old) }
    ensures flushed { OnOk result (W.is_flushed dst.new ≡ true) }
    ensures memory { IfErr result (λ fault. WantsMemory fault → (src.new ≡ src.old) × (dst.new ≡ dst.old) × (link.new ≡ link.old)) }
    ensures leads { L.leads_to link.old link.new }
    ensures copies { Copies result (R.given src.old) (R.given src.new) (R.remaining src.new) (W.taken dst.old) (W.taken dst.new) (L.told link.old) (L.told link.new) }
{
    let mut copier = Copier::new(alloc)?;
    for _ in 0..turns {
        match copier.turn(src, dst, link)? {
            Some(count) => return Ok(count),
            None => {}
        }
    }
    Err(CopyFault::Stalled)
}

/// What came of the second host's reading in a turn.
#[derive(Clone, Copy)]
enum Drained {
    /// Nothing.
    Still,
    /// The connection was accepted, or octets were written.
    Moved,
    /// The end came.
    End,
}

/// A copy under way.
#[derive(Drop)]
struct Copier {
    ends: Ends,
    feed: Feed,
    written: u64,
}

impl Copier {
    /// Nothing was read or written.
    fn new(alloc: Global) -> Result<Copier, CopyFault>
        ensures course { IfOk result (λ copier. IsCourse (copy_of copier.ends [] [] [] false false)) }
        ensures empty { IfOk result (λ copier. (pending copier.feed ≡ []) × (copier.feed.at_end ≡ false) × (copier.feed.closed ≡ false) × (copier.written ≡ 0)) }
        ensures fault { IfErr result IsOfBeginning }
    {
        Ok(Copier {
            ends: Ends::new(alloc)?,
            feed: Feed::new(),
            written: 0,
        })
    }

    /// One turn. Answers the number of octets at the end of the stream.
    fn turn<R: Source, W: Sink, L: Link>(
        &mut self,
        src: &mut R,
        dst: &mut W,
        link: &mut L,
    ) -> Result<Option<u64>, CopyFault>
        ensures read { R.failures src.new ≡ counted (read_fails result) (R.failures src.old) }
        ensures written { W.failures dst.new ≡ counted (write_fails result) (W.failures dst.old) }
        ensures carried { L.failures link.new ≡ counted (link_fails result) (L.failures link.old) }
        ensures memory { IfErr result (λ fault. ¬ WantsMemory fault) }
        ensures told { KeepsTold (L.told link.old) (L.told link.new) }
        ensures leads { L.leads_to link.old link.new }
        ensures flushed { IfOk result (λ ended. is_some ended ≡ true → W.is_flushed dst.new ≡ true) }
        ensures turns { Turns result (R.given src.old) (R.remaining src.old) (R.given src.new) (R.remaining src.new) (W.taken dst.old) (W.taken dst.new) (L.told link.old) (L.told link.new) self.old self.new }
    {
        let fed = self.feed.feed(src, &mut self.ends)?;
        let carried = self.ends.carry(link)?;
        match self.drain(dst)? {
            Drained::End => Ok(Some(self.written)),
            Drained::Still if !fed && !carried => {
                self.ends.advance()?;
                Ok(None)
            }
            _ => Ok(None),
        }
    }

    /// The second host accepts, receives, and what it received is written.
    fn drain<W: Sink>(&mut self, dst: &mut W) -> Result<Drained, CopyFault>
        ensures failed { W.failures dst.new ≡ counted (write_fails result) (W.failures dst.old) }
        ensures fault { IfErr result IsOfSink }
        ensures feed { self.new.feed ≡ self.old.feed }
        ensures flushed { IfOk result (λ drained. is_end drained ≡ true → W.is_flushed dst.new ≡ true) }
        ensures drains { IfOk result (λ drained. DrainsTo drained (W.taken dst.old) (W.taken dst.new) self.old self.new) }
        ensures left { OnErr result (LeavesDrained (W.taken dst.old) (W.taken dst.new) self.old) }
    {
        let accepted = self.ends.accept()?;
        let mut octets = [0; MOST_WRITTEN];
        match self.ends.receive(&mut octets)? {
            Arrival::Octets(count) => {
                write_all(dst, &octets[..count])?;
                self.written = self.written.saturating_add(count as u64);
                Ok(Drained::Moved)
            }
            Arrival::End => {
                flush(dst)?;
                Ok(Drained::End)
            }
            Arrival::Nothing if accepted => Ok(Drained::Moved),
            Arrival::Nothing => Ok(Drained::Still),
        }
    }
}

/// Writes all of these octets. Write where the sink fails, and then it took a front of them.
fn write_all<W: Sink>(dst: &mut W, octets: &[u8]) -> Result<(), CopyFault>
    ensures failed { W.failures dst.new ≡ counted (write_fails result) (W.failures dst.old) }
    ensures fault { IfErr result (λ fault. fault ≡ CopyFault.Write) }
    ensures ok { OnOk result (Appends (W.taken dst.old) (W.taken dst.new) octets.now) }
    ensures err { OnErr result (TakesFront (W.taken dst.old) (W.taken dst.new) octets.now) }
{
    match devices::write_all(dst, octets) {
        Ok(()) => Ok(()),
        Err(_) => Err(CopyFault::Write),
    }
}

/// Has the sink hand on all that it took. Write where it fails.
fn flush<W: Sink>(dst: &mut W) -> Result<(), CopyFault>
    ensures failed { W.failures dst.new ≡ counted (write_fails result) (W.failures dst.old) }
    ensures fault { IfErr result (λ fault. fault ≡ CopyFault.Write) }
    ensures taken { Keeps (W.taken dst.old) (W.taken dst.new) }
    ensures flushed { OnOk result (W.is_flushed dst.new ≡ true) }
{
    match dst.flush() {
        Ok(()) => Ok(()),
        Err(_) => Err(CopyFault::Write),
    }
}
