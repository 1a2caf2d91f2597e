//! A link that captures the frames that it takes.

ghost use Rattle.std.specs.Prelude.{◌≡◌, ◌≤◌, ◌&&◌, ℕ, List, [], Option, Some, true, not, is_err, IfOk, IfSome, OnOk};
ghost use Rattle.std.specs.Io.KnownBytes.{Keeps};
ghost use Rattle.devices.specs.Streams.{counted};
ghost use Rattle.devices.specs.Passages.{Takes, Gives};
ghost use Rattle.devices.specs.Time.{IsToldTime};
ghost use Rattle.capture.specs.Capture.{Frame};
ghost use Rattle.recorder.specs.Captured.{Captures, GoesOn, with_frame, with_taken};
ghost use Rattle.recorder.specs.Going.{goes_nowhere, goes_further};

use crate::write::{write_head, write_record};
use clock::Moment;
use devices::{Link, LinkFault, Sink};
use ether::FRAME_MAX;
use sides::Side;
use thiserror::Error;

/// The sink of a capture failed.
#[derive(Clone, Copy, Debug, PartialEq, Eq, Error)]
#[error("the capture could not be written")]
pub struct CaptureFault;

/// A link that leaves all to another, and writes a capture of the frames that this one takes: each once, in order, with the moment that it heard
/// last of the hosts' clocks. Once the capture's sink has failed, nothing more is written to it, and the link goes on.
#[derive(Debug, Drop)]
pub struct RecordedLink<L, C> {
    link: L,
    capture: C,
    clock: Moment,
    is_whole: bool,
}

impl<L: Link, C: Sink> RecordedLink<L, C> {
    /// A link whose capture has no frame yet. The clocks are at 0.
    pub fn new(link: L, mut capture: C) -> Self
        ensures link { result.link ≡ link }
        ensures captures { Captures result.is_whole (C.taken capture) (C.taken result.capture) [] }
        ensures failures { C.failures result.capture ≡ counted (not result.is_whole) (C.failures capture) }
    {
        let is_whole = write_head(&mut capture).is_ok();
        RecordedLink {
            link,
            capture,
            clock: Moment(0),
            is_whole,
        }
    }

    /// The other link.
    pub fn link(&self) -> &L
        ensures { result.now ≡ self.now.link }
    {
        &self.link
    }

    /// The capture's sink.
    pub fn capture(&self) -> &C
        ensures { result.now ≡ self.now.capture }
    {
        &self.capture
    }

    /// Hands on what was captured. An error where the capture's sink fails now, or failed before.
    pub fn finish(&mut self) -> Result<(), CaptureFault>
        ensures whole { OnOk result ((self.old.is_whole ≡ true) × (C.is_flushed self.new.capture ≡ true)) }
        ensures kept { (self.new.link ≡ self.old.link) × (self.new.is_whole ≡ self.old.is_whole) }
        ensures taken { Keeps (C.taken self.old.capture) (C.taken self.new.capture) }
        ensures leads { GoesOn self.old.is_whole self.new.is_whole (C.taken self.old.capture) (C.taken self.new.capture) (L.told self.old.link) (L.told self.new.link) }
        ensures failures { C.failures self.new.capture ≡ counted (self.old.is_whole && is_err result) (C.failures self.old.capture) }
    {
        if !self.is_whole {
            return Err(CaptureFault);
        }
        match self.capture.flush() {
            Ok(()) => Ok(()),
            Err(_) => Err(CaptureFault),
        }
    }

    /// Captures a frame that goes out now.
    fn record(&mut self, frame: &[u8])
        ensures kept { (self.new.link ≡ self.old.link) × (self.new.clock ≡ self.old.clock) }
        ensures captures { (before : Option (List ℕ)) (frames : List Frame) → Captures self.old.is_whole before (C.taken self.old.capture) frames
            → Captures self.new.is_whole before (C.taken self.new.capture) (with_frame frames self.old.clock frame.now) }
        ensures failures { C.failures self.new.capture ≡ counted (self.old.is_whole && not self.new.is_whole) (C.failures self.old.capture) }
    {
        if self.is_whole {
            self.is_whole = write_record(self.clock, frame, &mut self.capture).is_ok();
        }
    }
}

impl<L: Link, C: Sink> Link for RecordedLink<L, C> {
    ghost failures = { λ recorded. L.failures recorded.link };

    ghost told = { λ recorded. L.told recorded.link };

    ghost clock = { λ recorded. Some recorded.clock };

    ghost leads_to = { λ old new. GoesOn old.is_whole new.is_whole (C.taken old.capture) (C.taken new.capture) (L.told old.link) (L.told new.link) × L.leads_to old.link new.link };

    ghost leads_to_itself = { λ l. (goes_nowhere l.is_whole (C.taken l.capture) (L.told l.link), L.leads_to_itself l.link) };

    ghost leads_on = { λ l m n first second. (
      goes_further l.is_whole m.is_whole n.is_whole (C.taken l.capture) (C.taken m.capture) (C.taken n.capture) (L.told l.link) (L.told m.link) (L.told n.link) first.0 second.0,
      L.leads_on l.link m.link n.link first.1 second.1,
    ) };

    fn tick(&mut self, moment: Moment)
        ensures failures { L.failures self.new.link ≡ L.failures self.old.link }
        ensures told { L.told self.new.link ≡ L.told self.old.link }
        ensures clock { self.new.clock ≡ moment }
        ensures leads { GoesOn self.old.is_whole self.new.is_whole (C.taken self.old.capture) (C.taken self.new.capture) (L.told self.old.link) (L.told self.new.link) × L.leads_to self.old.link self.new.link }
        ensures passed_on { IsToldTime (L.clock self.new.link) moment }
        ensures capture { (self.new.capture ≡ self.old.capture) × (self.new.is_whole ≡ self.old.is_whole) }
    {
        self.clock = moment;
        self.link.tick(moment);
    }

    fn send(&mut self, from: Side, frame: &[u8]) -> Result<(), LinkFault>
        ensures failures { L.failures self.new.link ≡ counted (is_err result) (L.failures self.old.link) }
        ensures told { Takes (L.told self.old.link) (L.told self.new.link) result from frame.now }
        ensures clock { (self.new.clock ≡ self.old.clock) × (L.clock self.new.link ≡ L.clock self.old.link) }
        ensures leads { GoesOn self.old.is_whole self.new.is_whole (C.taken self.old.capture) (C.taken self.new.capture) (L.told self.old.link) (L.told self.new.link) × L.leads_to self.old.link self.new.link }
        ensures captures { (before : Option (List ℕ)) (frames : List Frame) → Captures self.old.is_whole before (C.taken self.old.capture) frames
            → Captures self.new.is_whole before (C.taken self.new.capture) (with_taken result frames self.old.clock frame.now) }
        ensures capture { C.failures self.new.capture ≡ counted (self.old.is_whole && not self.new.is_whole) (C.failures self.old.capture) }
    {
        self.link.send(from, frame)?;
        self.record(frame);
        Ok(())
    }

    fn recv(&mut self, to: Side, frame: &mut [u8; FRAME_MAX]) -> Result<Option<usize>, LinkFault>
        ensures bound { IfOk result (λ given. IfSome given (λ len. len ≤ FRAME_MAX)) }
        ensures failures { L.failures self.new.link ≡ counted (is_err result) (L.failures self.old.link) }
        ensures told { Gives (L.told self.old.link) (L.told self.new.link) result to frame.new }
        ensures clock { (self.new.clock ≡ self.old.clock) × (L.clock self.new.link ≡ L.clock self.old.link) }
        ensures leads { GoesOn self.old.is_whole self.new.is_whole (C.taken self.old.capture) (C.taken self.new.capture) (L.told self.old.link) (L.told self.new.link) × L.leads_to self.old.link self.new.link }
        ensures capture { (self.new.capture ≡ self.old.capture) × (self.new.is_whole ≡ self.old.is_whole) }
    {
        self.link.recv(to, frame)
    }

    fn failures(&self) -> u64 {
        self.link.failures()
    }
}
