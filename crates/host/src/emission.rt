//! The frames that go out.

ghost use Rattle.std.specs.Prelude.{◌≡◌, ◌≤◌, ◌++◌, drop, find, IfSome, Some, slice_get};
ghost use Rattle.interface.specs.Ways.{way};
ghost use Rattle.sockets.specs.Emission.{IsNextAt};
ghost use Rattle.sockets.specs.Entries.{dues_of, due_to, IsDueAt};
ghost use Rattle.host.specs.Emission.{Sends};

use crate::layers::Layers;
use clock::Moment;
use ether::{FRAME_MAX, Mac};
use frames::HEADS;
use interface::Way;
use ipv4::Addr;
use sockets::{Emitted, Entry, NextDue, Outgoing};

/// What goes out for the first of what the entries have due, in the order of their turns, for which a frame can.
#[derive(Clone, Copy)]
pub(crate) enum Plan {
    /// This, of the entry in this place, to this MAC and for this address.
    Send {
        place: usize,
        outgoing: Outgoing,
        mac: Mac,
        to: Addr,
    },
    /// The request for this hop.
    Ask {
        hop: Addr,
    },
}

impl Layers {
    ghost use Rattle.host.specs.Emission.{emission_len, after_emission, emission_front, goes_out_from, len_of, octets_of, left_by, front_of, table_emission};
    ghost use Rattle.host.specs.Plans.{planned, planned_or_nothing, plan_by, plan_to, plan_from, IsFirst};

    /// Writes the frame that goes out first, as `Host::next_frame`.
    pub(crate) fn next_frame(&mut self, now: Moment, out: &mut [u8; FRAME_MAX]) -> Option<usize>
        ensures answer { result ≡ emission_len self.old now }
        ensures bounds { IfSome result (λ len. (60 ≤ len) × (len ≤ FRAME_MAX)) }
        ensures after { self.new ≡ after_emission self.old now }
        ensures frame { out.new ≡ emission_front self.old now out.old }
    {
        let now = self.sockets.later_moment(now);
        match self.interface.first_reply(now) {
            Some(place) => Some(self.interface.emit_reply(now, place, out)),
            None => self.emit_from_table(now, out),
        }
    }

    /// Writes the frame for the first of what the entries have due, in the order of their turns, for which one can go out now. Mostly that is the first of
    /// all, since the MAC of its hop is known.
    fn emit_from_table(&mut self, now: Moment, out: &mut [u8; FRAME_MAX]) -> Option<usize>
        ensures answer { result ≡ len_of self.old now (table_emission self.old now) }
        ensures bounds { IfSome result (λ len. (60 ≤ len) × (len ≤ FRAME_MAX)) }
        ensures after { self.new ≡ left_by self.old now (table_emission self.old now) }
        ensures frame { out.new ≡ front_of (octets_of self.old now (table_emission self.old now)) out.old result }
    {
        let due = self.sockets.next_in_turn()?;
        match self.interface.way(now, due.peer.addr) {
            Way::To(mac) => Some(self.emit_entry(
                due.place,
                due.outgoing,
                mac,
                due.peer.addr,
                now,
                out,
            )),
            _ => self.emit_by_plan(now, out),
        }
    }

    /// Writes the same by a plan, where the first of all can't go out as it is: the request for its hop goes out in its place, or it lets the others by.
    #[cold]
    #[inline(never)]
    fn emit_by_plan(&mut self, now: Moment, out: &mut [u8; FRAME_MAX]) -> Option<usize>
        ensures answer { result ≡ len_of self.old now (table_emission self.old now) }
        ensures bounds { IfSome result (λ len. (60 ≤ len) × (len ≤ FRAME_MAX)) }
        ensures after { self.new ≡ left_by self.old now (table_emission self.old now) }
        ensures frame { out.new ≡ front_of (octets_of self.old now (table_emission self.old now)) out.old result }
    {
        match self.plan(now) {
            Some(plan) => Some(self.emit_planned(plan, now, out)),
            None => None,
        }
    }

    /// Writes the frame that is planned, and answers its length, 60 to 1,514 octets.
    fn emit_planned(&mut self, plan: Plan, now: Moment, out: &mut [u8; FRAME_MAX]) -> usize
        requires first { IsFirst self.old now plan }
        ensures len { Some result ≡ len_of self.old now (planned plan) }
        ensures bounds { (60 ≤ result) × (result ≤ FRAME_MAX) }
        ensures after { self.new ≡ left_by self.old now (planned plan) }
        ensures frame { out.new ≡ octets_of self.old now (planned plan) ++ drop result out.old }
    {
        match plan {
            Plan::Send {
                place,
                outgoing,
                mac,
                to,
            } => self.emit_entry(place, outgoing, mac, to, now, out),
            Plan::Ask { hop } => self.interface.emit_request(now, hop, out),
        }
    }

    /// Writes the frame of what the entry in this place has to send, whose turn it is of those for which a frame can go out now, for an address and to the
    /// interface with this MAC, and answers its length, 60 to 1,514 octets.
    fn emit_entry(
        &mut self,
        place: usize,
        outgoing: Outgoing,
        mac: Mac,
        to: Addr,
        now: Moment,
        out: &mut [u8; FRAME_MAX],
    ) -> usize
        requires first { IsNextAt self.old.sockets (goes_out_from self.old now) place outgoing }
        requires due { IsDueAt self.old.sockets.entries place outgoing }
        ensures len { Some result ≡ len_of self.old now (Sends mac to) }
        ensures bounds { (60 ≤ result) × (result ≤ FRAME_MAX) }
        ensures after { self.new ≡ left_by self.old now (Sends mac to) }
        ensures frame { out.new ≡ octets_of self.old now (Sends mac to) ++ drop result out.old }
    {
        match self
            .sockets
            .emit_at(place, outgoing, now, &mut out[HEADS..])
        {
            Emitted::Segment(len) => self.interface.emit_segment(mac, to, len, out),
            Emitted::Datagram(part) => self.interface.emit_part(mac, to, part, out),
        }
    }

    /// What can go out for the table: for the first of what its entries have due, in the order of their turns, for which a frame can.
    fn plan(&self, now: Moment) -> Option<Plan>
        ensures what { table_emission self.now now ≡ planned_or_nothing result }
        ensures first { IfSome result (λ plan. IsFirst self.now now plan) }
    {
        match self.plan_from(now, self.sockets.turn_place()) {
            Some(plan) => Some(plan),
            None => self.plan_from(now, 0),
        }
    }

    /// What can go out for the first entry from the place `from` on for which a frame can.
    fn plan_from(&self, now: Moment, mut from: usize) -> Option<Plan>
        ensures { result ≡ plan_from self.now now from }
    {
        let entries = self.sockets.entries();
        while let Some(due) = self.sockets.next_due(from) {
            let plan = self.plan_for(now, due, &entries[due.place]);
            if plan.is_some() {
                return plan;
            }
            from = due.place + 1;
        }
        None
    }

    /// What can go out for an entry, of what it has due first `due`: for the first of all that it has due for which a frame can. For most entries that
    /// is the first of all.
    fn plan_for(&self, now: Moment, due: NextDue, entry: &Entry) -> Option<Plan>
        requires { slice_get (dues_of entry.now.role) 0 ≡ Some (due.peer, due.outgoing) }
        ensures { result ≡ plan_to self.now now due.place (due_to (goes_out_from self.now now) entry.now.role) }
    {
        let plan = self.plan_by(now, due.place, due.outgoing, due.peer.addr);
        if plan.is_some() {
            return plan;
        }
        self.plan_behind(now, due.place, entry)
    }

    /// What can go out for the entry in this place: for the first of what it has due behind the first for which a frame can.
    #[cold]
    fn plan_behind(&self, now: Moment, place: usize, entry: &Entry) -> Option<Plan>
        ensures { result ≡ plan_to self.now now place (find (λ due. goes_out_from self.now now due.0.addr) (drop 1 (dues_of entry.now.role))) }
    {
        for number in 1..entry.due_places() {
            let (peer, outgoing) = entry.due_at(number)?;
            let plan = self.plan_by(now, place, outgoing, peer.addr);
            if plan.is_some() {
                return plan;
            }
        }
        None
    }

    /// What can go out for the entry in this place, which has this due to this address.
    fn plan_by(&self, now: Moment, place: usize, outgoing: Outgoing, to: Addr) -> Option<Plan>
        ensures { result ≡ plan_by place outgoing to (way self.now.interface now to) }
    {
        match self.interface.way(now, to) {
            Way::To(mac) => Some(Plan::Send {
                place,
                outgoing,
                mac,
                to,
            }),
            Way::Ask(hop) => Some(Plan::Ask { hop }),
            Way::Waits => None,
        }
    }
}
