//! What the table sends: segments (RFC 9293 section 3.8), and datagrams in parts (RFC 791 section 3.2).

ghost use Rattle.std.specs.Prelude.{◌≡◌, ◌≤◌, length, position, Bool, Some, IfSome, option_map, slice_get};
ghost use Rattle.ipv4.specs.declared.addr.Addr.{Addr};
ghost use Rattle.clock.specs.declared.moment.Moment.{Moment};
ghost use Rattle.sockets.specs.Emission.{IsWithin, IsNextAt, in_turn};
ghost use Rattle.sockets.specs.Entries.{IsDueAt};
ghost use Rattle.sockets.specs.declared.emission.Outgoing.TheVariants.{Segment as SegmentOf, Datagram as DatagramAt};
ghost use Rattle.sockets.specs.declared.emission.Emitted.TheVariants.{Segment as SegmentOut, Datagram as PartOut};

use crate::sockets::Sockets;
use crate::table;
use clock::Moment;
use ipv4::Endpoint;
use tcp_state::{Due, MOST_SEGMENT};
use udp::{MOST_IN_FRAGMENT, Part};

/// What an entry has to send.
#[derive(Clone, Copy, PartialEq, Eq, Debug)]
pub enum Outgoing {
    /// This segment.
    Segment(Due),
    /// The next part of the datagram in this place, from 0 on, of those that wait to go out: it goes before the others from then on.
    Datagram(usize),
}

/// What was written of an entry.
#[derive(Clone, Copy, PartialEq, Eq, Debug)]
pub enum Emitted {
    /// A segment of this length in octets.
    Segment(usize),
    /// A part of a datagram: what the header of IPv4 has to tell of it.
    Datagram(Part),
}

/// The first of what an entry has to send.
#[derive(Clone, Copy)]
pub struct NextDue {
    /// The place of the entry in the table.
    pub place: usize,
    /// To whom it is.
    pub peer: Endpoint,
    /// What it is.
    pub outgoing: Outgoing,
}

#[tactic(auto, using(crate::proofs::Firsts::firsts))]
impl Sockets {
    ghost use Rattle.sockets.specs.Emission.{emitted, emitted_front, after_segment_sent};
    ghost use Rattle.sockets.specs.Turns.{IsTurnPlace};
    ghost use Rattle.sockets.specs.declared.entry.Entry.{Entry};
    ghost use Rattle.sockets.specs.Entries.{dues_of};
    ghost use Rattle.sockets.specs.Outlook.{has_due};
    ghost use Rattle.marks.specs.First.{first_from};

    /// The place of the first entry behind the one that sent last, or that of the end. Mostly the one that sent last is at hand.
    pub fn turn_place(&self) -> usize
        ensures { IsTurnPlace self.now result }
    {
        let turn = self.turn.0;
        match self.outlook.at_hand() {
            Some(place) if self.entries[place].id.0 == turn => place + 1,
            _ => self.entries.partition_point(|entry| entry.id.0 <= turn),
        }
    }

    /// What the entry to which the turn comes, of those that have something to send, sends first; None where none has. Where none is noted as busy only the
    /// entry at hand may have something.
    #[inline(always)]
    pub fn next_in_turn(&self) -> Option<NextDue>
        ensures place { option_map (λ due. due.place) result ≡ position (in_turn self.now has_due) self.now.entries }
        ensures due { IfSome result (λ due. (e : Entry) → slice_get self.now.entries due.place ≡ Some e → slice_get (dues_of e.role) 0 ≡ Some (due.peer, due.outgoing)) }
    {
        if self.outlook.is_calm() {
            let place = self.outlook.at_hand()?;
            let (peer, outgoing) = self.entries[place].due_at(0)?;
            return Some(NextDue {
                place,
                peer,
                outgoing,
            });
        }
        self.next_in_turn_among()
    }

    /// The same where some may be noted as busy: those behind the entry that sent last come first, and then the others.
    #[inline(never)]
    fn next_in_turn_among(&self) -> Option<NextDue>
        ensures place { option_map (λ due. due.place) result ≡ position (in_turn self.now has_due) self.now.entries }
        ensures due { IfSome result (λ due. (e : Entry) → slice_get self.now.entries due.place ≡ Some e → slice_get (dues_of e.role) 0 ≡ Some (due.peer, due.outgoing)) }
    {
        match self.next_due_among(self.turn_place()) {
            Some(due) => Some(due),
            None => self.next_due_among(0),
        }
    }

    /// What the first entry from the place `from` on that has something to send sends first; None where none has. Where none is noted as busy only the
    /// entry at hand may have something, and it is asked alone.
    #[inline(always)]
    pub fn next_due(&self, from: usize) -> Option<NextDue>
        ensures place { option_map (λ due. due.place) result ≡ first_from has_due from self.now.entries }
        ensures due { IfSome result (λ due. (e : Entry) → slice_get self.now.entries due.place ≡ Some e → slice_get (dues_of e.role) 0 ≡ Some (due.peer, due.outgoing)) }
    {
        if self.outlook.is_calm() {
            let place = self.outlook.at_hand()?;
            if place < from {
                return None;
            }
            let (peer, outgoing) = self.entries[place].due_at(0)?;
            return Some(NextDue {
                place,
                peer,
                outgoing,
            });
        }
        self.next_due_among(from)
    }

    /// The same where some may be noted as busy: these and the entry at hand are asked in turn, until one has something to send.
    #[inline(never)]
    fn next_due_among(&self, mut from: usize) -> Option<NextDue>
        ensures place { option_map (λ due. due.place) result ≡ first_from has_due from self.now.entries }
        ensures due { IfSome result (λ due. (e : Entry) → slice_get self.now.entries due.place ≡ Some e → slice_get (dues_of e.role) 0 ≡ Some (due.peer, due.outgoing)) }
    {
        let entries = self.entries();
        while let Some(place) = self.outlook.next_to_ask(from) {
            if let Some((peer, outgoing)) = entries[place].due_at(0) {
                return Some(NextDue {
                    place,
                    peer,
                    outgoing,
                });
            }
            from = place + 1;
        }
        None
    }

    /// Writes what the entry in this place has to send, a segment or a part of a datagram, from `out[0]` on, and answers what was written. The
    /// entry is taken out where it is over then. Whatever the test of those that may send by which its turn it is, this is the emission by that test.
    #[inline(always)]
    pub fn emit_at(
        &mut self,
        place: usize,
        outgoing: Outgoing,
        now: Moment,
        out: &mut [u8],
    ) -> Emitted
        requires due { IsDueAt self.old.entries place outgoing }
        requires segment { MOST_SEGMENT ≤ length out.old }
        requires part { MOST_IN_FRAGMENT ≤ length out.old }
        ensures what { (goes : Addr → Bool) → IsNextAt self.old goes place outgoing → Some result ≡ emitted self.old goes }
        ensures bound { IsWithin result }
        ensures after { (goes : Addr → Bool) → IsNextAt self.old goes place outgoing → self.new ≡ after_segment_sent self.old goes now }
        ensures frame { (goes : Addr → Bool) → IsNextAt self.old goes place outgoing → out.new ≡ emitted_front self.old goes out.old }
    {
        match outgoing {
            Outgoing::Segment(due) => {
                Emitted::Segment(self.emit_segment_at(place, due, now, out))
            }
            Outgoing::Datagram(number) => {
                Emitted::Datagram(self.emit_datagram_at(place, number, out))
            }
        }
    }

    /// Writes the segment that the connection in this place has to send, from `out[0]` on, and answers its length in octets.
    fn emit_segment_at(&mut self, place: usize, due: Due, now: Moment, out: &mut [u8]) -> usize
        requires due { IsDueAt self.old.entries place (SegmentOf due) }
        requires room { MOST_SEGMENT ≤ length out.old }
        ensures what { (goes : Addr → Bool) → IsNextAt self.old goes place (SegmentOf due) → Some (SegmentOut result) ≡ emitted self.old goes }
        ensures bound { result ≤ MOST_SEGMENT }
        ensures after { (goes : Addr → Bool) → IsNextAt self.old goes place (SegmentOf due) → self.new ≡ after_segment_sent self.old goes now }
        ensures frame { (goes : Addr → Bool) → IsNextAt self.old goes place (SegmentOf due) → out.new ≡ emitted_front self.old goes out.old }
    {
        let now = self.later_moment(now);
        self.outlook.turn_to(&self.entries, place);
        let entry = &mut self.entries[place];
        self.turn = entry.id;
        let len = entry.role.emit_segment(due, now, out);
        let fate = entry.role.emission_fate_of();
        table::settle(
            &mut self.entries,
            &mut self.ends,
            &mut self.outlook,
            place,
            fate,
        );
        len
    }

    /// Writes the next part of the datagram with this number, of those that the UDP socket in this place has to send, from `out[0]` on, and answers what the
    /// header of IPv4 has to tell of it.
    #[inline(never)]
    fn emit_datagram_at(&mut self, place: usize, number: usize, out: &mut [u8]) -> Part
        requires due { IsDueAt self.old.entries place (DatagramAt number) }
        requires room { MOST_IN_FRAGMENT ≤ length out.old }
        ensures what { (goes : Addr → Bool) → IsNextAt self.old goes place (DatagramAt number) → Some (PartOut result) ≡ emitted self.old goes }
        ensures bound { IsWithin (PartOut result) }
        ensures after { (goes : Addr → Bool) (now : Moment) → IsNextAt self.old goes place (DatagramAt number) → self.new ≡ after_segment_sent self.old goes now }
        ensures frame { (goes : Addr → Bool) → IsNextAt self.old goes place (DatagramAt number) → out.new ≡ emitted_front self.old goes out.old }
    {
        let own = self.addr;
        self.outlook.turn_to(&self.entries, place);
        let entry = &mut self.entries[place];
        self.turn = entry.id;
        let part = entry.role.emit_datagram(number, own, out);
        let fate = entry.role.emission_fate_of();
        table::settle(
            &mut self.entries,
            &mut self.ends,
            &mut self.outlook,
            place,
            fate,
        );
        part
    }
}
