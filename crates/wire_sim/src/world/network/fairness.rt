//! Which events a network may take: the premises of the law of the stream, but for memory.

ghost use Rattle.std.specs.Prelude.{◌≡◌};
ghost use Rattle.std.specs.Result.{result_err};

use super::Network;
use crate::event::{Call, Event, Unfair};
use crate::world::bag::Note;
use host::SocketId;
use ipv4::{Endpoint, Pair};
use sides::Side;
use tcp_segment::Seq;

impl Network {
    ghost use Rattle.host.specs.Arrival.{foreseen};
    ghost use Rattle.wire_sim.specs.Fairness.{unfair_counted, unfair_call, late_note, second_in, second_by_frame, second_by_connect, pair_to_connect, is_stale};
    ghost use Rattle.wire_sim.specs.WorldView.{network_view, host_of, written_at};

    /// Whether the host that an event names may take it.
    pub(in crate::world) fn admits(&self, event: &Event) -> Result<(), Unfair>
        ensures { result_err result ≡ unfair_counted (network_view self.now) event.now }
    {
        match event {
            Event::Call(side, call) => self.may_call(*side, call),
            Event::Deliver(side, index, isn) => self.may_deliver(*side, *index, *isn),
            Event::Tick(..) | Event::Emit(_) => Ok(()),
        }
    }

    /// Whether the host of `side` may take the call: a connect opens no pair a second time in one epoch.
    fn may_call(&self, side: Side, call: &Call) -> Result<(), Unfair>
        ensures { result_err result ≡ unfair_call (network_view self.now) side call.now }
    {
        match call {
            Call::Connect { id, peer, .. } => self.may_connect(side, *id, *peer),
            _ => Ok(()),
        }
    }

    /// Whether the host of `side` may open the pair that a connect of the socket `id` to `peer` would open.
    fn may_connect(&self, side: Side, id: SocketId, peer: Endpoint) -> Result<(), Unfair>
        ensures { result_err result ≡ second_by_connect (network_view self.now) side (pair_to_connect (host_of (network_view self.now) side) id peer) }
    {
        match self.station(side).would_connect(id, peer) {
            Some(pair) => self.may_open(side, pair, self.epoch_connected(side, pair)),
            None => Ok(()),
        }
    }

    /// Whether the host of `side` may open the pair that the frame would open.
    fn may_open_by(&self, side: Side, frame: &[u8]) -> Result<(), Unfair>
        ensures { result_err result ≡ second_by_frame (network_view self.now) side (foreseen (host_of (network_view self.now) side) frame.now) }
    {
        match self.station(side).would_open(frame) {
            Some(pair) => self.may_open(side, pair, self.ledger.epoch(pair)),
            None => Ok(()),
        }
    }

    /// Whether the host of `side` has not opened the pair in this epoch yet.
    fn may_open(&self, side: Side, pair: Pair, epoch: u64) -> Result<(), Unfair>
        ensures { result_err result ≡ second_in self.now.ledger.openings.items side pair epoch }
    {
        if self.ledger.has(side, pair, epoch) {
            return Err(Unfair::SecondOpening);
        }
        Ok(())
    }

    /// Whether the host of `side` may take the frame `index`.
    fn may_deliver(&self, side: Side, index: usize, isn: Seq) -> Result<(), Unfair>
        ensures { result_err result ≡ unfair_counted (network_view self.now) (Event.Deliver side index isn) }
    {
        if index >= self.bag.len() {
            return Err(Unfair::NoSuchFrame);
        }
        let frame = &self.bag[index];
        if frame.sender.is(side) {
            return Err(Unfair::NoSuchFrame);
        }
        self.is_timely(frame.note)?;
        self.may_open_by(side, frame.octets.as_slice())
    }

    /// Whether a frame's pair is still in its epoch, and the frame is not stale.
    fn is_timely(&self, note: Option<Note>) -> Result<(), Unfair>
        ensures { result_err result ≡ late_note (network_view self.now) (written_at (network_view self.now)) note }
    {
        let Some(note) = note else {
            return Ok(());
        };
        if self.ledger.epoch(note.pair) != note.epoch {
            return Err(Unfair::OtherEpoch);
        }
        if self.is_stale(note) {
            return Err(Unfair::Stale);
        }
        Ok(())
    }

    /// Whether an end of a frame's connection took the limit or more from its caller since the frame went out.
    fn is_stale(&self, note: Note) -> bool
        ensures { result ≡ is_stale (network_view self.now) note }
    {
        let limit = u128::from(self.limit);
        let at_a = self.ledger.written(Side::A, note.pair, note.epoch);
        let at_b = self.ledger.written(Side::B, note.pair, note.epoch);
        at_a.saturating_sub(note.at_a) >= limit || at_b.saturating_sub(note.at_b) >= limit
    }
}
