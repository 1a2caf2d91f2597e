//! Two hosts, the frames that they emitted, and the openings of their connections.

ghost use Rattle.std.specs.Prelude.{◌≡◌, ℕ, ◌<◌, ◌≤◌, ◌+◌, ◌^◌, true, None, take, vec_len, vec_capacity, slice_get, slice_index_or, option_map, option_and_then, OnOk, IsOk};
ghost use Rattle.std.specs.Result.{result_err};

mod fairness;

use super::bag::{Frame, Note};
use super::ledger::Ledger;
use super::station::Station;
use crate::event::{Answer, Call, Event, Opening, Unfair};
use crate::room::filled;
use clock::Moment;
use ether::FRAME_MAX;
use frames::pair_in;
use host::{Host, SocketId};
use ipv4::{Endpoint, Pair};
use sides::Side;
use std::alloc::{AllocError, Global};
use tcp_segment::Seq;

/// Two hosts, the frames that they emitted, and the openings.
#[derive(Drop)]
pub(super) struct Network {
    limit: u64,
    a: Station,
    b: Station,
    bag: Vec<Frame>,
    ledger: Ledger,
}

impl Network {
    ghost use Rattle.wire_sim.specs.Steps.{Steps, with_opening, note_of, call_recv_len, event_recv_len, is_emission};
    ghost use Rattle.sides.specs.Sides.{other_side};
    ghost use Rattle.sockets.specs.SocketsView.{holder_id};
    ghost use Rattle.wire_sim.specs.Runs.{IsNumbered, IsNumberedCall};
    ghost use Rattle.frames.specs.Pairs.{pair_in};
    ghost use Rattle.wire_sim.specs.Openings.{epoch_connected, opened_by_connect};
    ghost use Rattle.wire_sim.specs.WorldView.{network_view, station_of, clock_of, host_of, table_of, written_at, network_with, octets_len};
    ghost use Rattle.wire_sim.specs.Fairness.{unfair_counted};
    ghost use Rattle.wire_sim.specs.WorldRoom.{network_room, KeepsNetworkRoom};
    ghost use Rattle.host.specs.Sound.{IsSoundHost};

    /// These two hosts, with no frames between them.
    pub(super) fn new(alloc: Global, a: Host, b: Host, limit: u64) -> Network
        ensures { network_view result ≡ network_with a b limit }
    {
        Network {
            limit,
            a: Station::new(a),
            b: Station::new(b),
            bag: Vec::new(alloc),
            ledger: Ledger::new(alloc),
        }
    }

    /// The openings, in order.
    pub(super) fn openings(&self) -> &[Opening]
        ensures { result.now ≡ self.now.ledger.openings.items }
    {
        self.ledger.openings()
    }

    /// The octets of the frame with this index.
    pub(super) fn frame(&self, index: usize) -> Option<&[u8]>
        ensures { option_map (λ octets. octets.now) result ≡ option_map (λ f. f.octets.items) (slice_get self.now.bag.items index) }
    {
        Some(self.bag.get(index)?.octets.as_slice())
    }

    /// The host of a side, with its clock.
    fn station(&self, side: Side) -> &Station
        ensures { result.now ≡ station_of (network_view self.now) side }
    {
        match side {
            Side::A => &self.a,
            Side::B => &self.b,
        }
    }

    /// What the clock of a side's host shows.
    pub(super) fn clock(&self, side: Side) -> Moment
        ensures { result ≡ clock_of (network_view self.now) side }
    {
        self.station(side).clock()
    }

    /// How many frames went out so far.
    pub(super) fn frames(&self) -> usize
        ensures { result ≡ vec_len self.now.bag }
    {
        self.bag.len()
    }

    /// The epoch that a connect of a side's host opens a pair in: the next one, but where the other host holds the pair.
    fn epoch_connected(&self, side: Side, pair: Pair) -> u64
        ensures value { result ≡ epoch_connected self.now.ledger.openings.items (table_of (network_view self.now) (other_side side)) pair }
        ensures bound { result ≤ vec_len self.now.ledger.openings + 1 }
    {
        let epoch = self.ledger.epoch(pair);
        match self.station(side.other()).holder(pair) {
            Some(_) => epoch,
            None => epoch + 1,
        }
    }

    /// What each connection keeps of itself, for the contracts above; it changes nothing.
    pub(super) fn sound(&self)
        ensures a { IsSoundHost self.now.a.host }
        ensures b { IsSoundHost self.now.b.host }
    {
        self.a.sound();
        self.b.sound();
    }

    /// Makes room for `more` frames and `more` openings. It fails only where that room was missing.
    pub(super) fn reserve(&mut self, more: usize) -> Result<(), AllocError>
        ensures kept { network_view self.new ≡ network_view self.old }
        ensures bag { OnOk result (vec_len self.new.bag + more ≤ vec_capacity self.new.bag) }
        ensures openings { OnOk result (vec_len self.new.ledger.openings + more ≤ vec_capacity self.new.ledger.openings) }
        ensures written { OnOk result (vec_len self.new.ledger.written + more ≤ vec_capacity self.new.ledger.written) }
        ensures room { vec_len self.old.bag + more ≤ vec_capacity self.old.bag → vec_len self.old.ledger.openings + more ≤ vec_capacity self.old.ledger.openings
            → vec_len self.old.ledger.written + more ≤ vec_capacity self.old.ledger.written → IsOk result }
        ensures room_kept { KeepsNetworkRoom (network_room self.old) (network_room self.new) }
    {
        self.bag.reserve(more)?;
        self.ledger.reserve(more)
    }

    /// Gives an event, at this place in the trace, to its host. `octets` is what it reads into, or room for what it emits.
    pub(super) fn perform(&mut self, event: &Event, place: usize, octets: Vec<u8>) -> Answer
        requires fair { unfair_counted (network_view self.old) event.now ≡ None }
        requires bag { vec_len self.old.bag < vec_capacity self.old.bag }
        requires openings { vec_len self.old.ledger.openings < vec_capacity self.old.ledger.openings }
        requires written { vec_len self.old.ledger.written < vec_capacity self.old.ledger.written }
        requires counts { (i : ℕ) → slice_index_or self.old.ledger.written.items i 0 < 2 ^ 127 }
        requires read { vec_len octets ≡ event_recv_len event.now }
        requires room { is_emission event.now ≡ true → FRAME_MAX ≤ vec_capacity octets }
        ensures octets { octets_len result ≤ vec_len octets }
        ensures numbered { IsNumbered event.now }
        ensures step { Steps event.now place result (network_view self.old) (network_view self.new) }
        ensures room { network_room self.new ≡ network_room self.old }
    {
        match event {
            Event::Call(side, call) => self.call(*side, call, place, octets),
            Event::Tick(side, moment) => self.tick(*side, *moment),
            Event::Emit(side) => self.emit(*side, octets),
            Event::Deliver(side, index, isn) => self.deliver(*side, *index, *isn, place),
        }
    }

    /// Ticks a side's host.
    fn tick(&mut self, side: Side, moment: Moment) -> Answer
        ensures step { Steps (Event.Tick side moment) 0 result (network_view self.old) (network_view self.new) }
        ensures room { network_room self.new ≡ network_room self.old }
    {
        match side {
            Side::A => self.a.tick(moment),
            Side::B => self.b.tick(moment),
        }
    }

    /// Makes a socket call, and notes what it opened or wrote. A datagram belongs to no connection, so none is noted.
    fn call(&mut self, side: Side, call: &Call, place: usize, octets: Vec<u8>) -> Answer
        requires openings { vec_len self.old.ledger.openings < vec_capacity self.old.ledger.openings }
        requires written { vec_len self.old.ledger.written < vec_capacity self.old.ledger.written }
        requires counts { (i : ℕ) → slice_index_or self.old.ledger.written.items i 0 < 2 ^ 127 }
        requires read { vec_len octets ≡ call_recv_len call.now }
        ensures octets { octets_len result ≤ vec_len octets }
        ensures numbered { IsNumberedCall call.now }
        ensures step { Steps (Event.Call side call.now) place result (network_view self.old) (network_view self.new) }
        ensures room { network_room self.new ≡ network_room self.old }
    {
        let answer = match side {
            Side::A => self.a.call(call, octets),
            Side::B => self.b.call(call, octets),
        };
        match (call, &answer) {
            (Call::Connect { id, .. }, Answer::Started) => self.note_connect(side, *id, place),
            (Call::Send { id, .. }, Answer::Sent(taken)) => self.ledger.wrote(side, *id, *taken),
            _ => {}
        }
        answer
    }

    /// Notes the opening by a connect: the pair's epoch rises where the other host does not hold the pair.
    fn note_connect(&mut self, side: Side, id: SocketId, place: usize)
        requires openings { vec_len self.old.ledger.openings < vec_capacity self.old.ledger.openings }
        requires written { vec_len self.old.ledger.written < vec_capacity self.old.ledger.written }
        ensures opened { network_view self.new ≡ with_opening (network_view self.old)
            (opened_by_connect self.old.ledger.openings.items side id place (table_of (network_view self.old) side) (table_of (network_view self.old) (other_side side))) }
        ensures room { network_room self.new ≡ network_room self.old }
    {
        let Some(pair) = self.station(side).pair_of(id) else {
            return;
        };
        let epoch = self.epoch_connected(side, pair);
        self.ledger.open(Opening {
            side,
            pair,
            epoch,
            id,
            place,
        });
    }

    /// Takes the frame that is due at a host, if there is one, and puts it into the bag.
    fn emit(&mut self, side: Side, octets: Vec<u8>) -> Answer
        requires bag { vec_len self.old.bag < vec_capacity self.old.bag }
        requires empty { vec_len octets ≡ 0 }
        requires room { FRAME_MAX ≤ vec_capacity octets }
        ensures octets { octets_len result ≡ 0 }
        ensures step { Steps (Event.Emit side) 0 result (network_view self.old) (network_view self.new) }
        ensures room { network_room self.new ≡ network_room self.old }
    {
        let mut out = [0; FRAME_MAX];
        let emitted = match side {
            Side::A => self.a.next_frame(&mut out),
            Side::B => self.b.next_frame(&mut out),
        };
        let Some(len) = emitted else {
            return Answer::NoFrame;
        };
        let octets = front(octets, &out, len);
        let note = self.note_of(octets.as_slice());
        let index = self.bag.len();
        self.bag.push_reserved(Frame {
            sender: side,
            octets,
            note,
        });
        Answer::Frame { index, len }
    }

    /// What is noted of a frame that goes out now, where it carries a segment.
    fn note_of(&self, frame: &[u8]) -> Option<Note>
        ensures { result ≡ option_map (note_of (network_view self.now)) (pair_in frame.now) }
    {
        let pair = pair_in(frame)?;
        let epoch = self.ledger.epoch(pair);
        Some(Note {
            pair,
            epoch,
            at_a: self.ledger.written(Side::A, pair, epoch),
            at_b: self.ledger.written(Side::B, pair, epoch),
        })
    }

    /// Hands the frame `index` to the host of `side`, and notes the opening where the host then holds its pair anew.
    fn deliver(&mut self, side: Side, index: usize, isn: Seq, place: usize) -> Answer
        requires openings { vec_len self.old.ledger.openings < vec_capacity self.old.ledger.openings }
        requires written { vec_len self.old.ledger.written < vec_capacity self.old.ledger.written }
        requires frame { index < vec_len self.old.bag }
        ensures octets { octets_len result ≡ 0 }
        ensures numbered { isn.0 < 2 ^ 32 }
        ensures step { Steps (Event.Deliver side index isn) place result (network_view self.old) (network_view self.new) }
        ensures room { network_room self.new ≡ network_room self.old }
    {
        let note = self.bag[index].note;
        let held = self.holder(side, note);
        let octets = self.bag[index].octets.as_slice();
        let answer = match side {
            Side::A => self.a.deliver(isn, octets),
            Side::B => self.b.deliver(isn, octets),
        };
        let holder = self.holder(side, note);
        if let (Some(Note { pair, .. }), None, Some(id)) = (note, held, holder) {
            let epoch = self.ledger.epoch(pair);
            self.ledger.open(Opening {
                side,
                pair,
                epoch,
                id,
                place,
            });
        }
        answer
    }

    /// The entry by which a side's host holds the pair of a frame.
    fn holder(&self, side: Side, note: Option<Note>) -> Option<SocketId>
        ensures { result ≡ option_and_then (λ note. holder_id (table_of (network_view self.now) side) note.pair) note }
    {
        self.station(side).holder(note?.pair)
    }
}

/// The first `len` octets of a buffer, in `room`, which holds nothing yet and is then given back but for what they take.
fn front(room: Vec<u8>, out: &[u8; FRAME_MAX], len: usize) -> Vec<u8>
    requires empty { vec_len room ≡ 0 }
    requires fits { len ≤ vec_capacity room }
    requires within { len ≤ FRAME_MAX }
    ensures { result.items ≡ take len out.now }
{
    let mut octets = filled(room, &out[..len]);
    octets.shrink_to_fit();
    octets
}
