//! What the table knows of its entries without a walk over them: which are busy, which nobody has accepted, and the least of their deadlines.

ghost use Rattle.std.specs.Prelude.{◌≡◌, ◌<◌, ◌≤◌, ◌++◌, [], ◌∷◌, ℕ, not, List, length, remove, fold, count_by, None, Some, IfOk, MatchOption};
ghost use Rattle.std.specs.List.{list_any};
ghost use Rattle.clock.specs.Moments.{has_come, sooner};
ghost use Rattle.marks.specs.First.{first_from};
ghost use Rattle.marks.specs.declared.TheConstants.{MOST};
ghost use Rattle.sockets.specs.Entries.{deadline_of, is_waiting_at};
ghost use Rattle.sockets.specs.GiveWay.{is_unanswered_at, first_id};
ghost use Rattle.sockets.specs.Outlook.{is_busy_entry, AreQuiet, is_pending_entry, first_of, at_without, IsOutlook};
ghost use Rattle.sockets.specs.declared.entry.Entry.{Entry};

use crate::entry::{Entry, SocketId};
use clock::{Moment, sooner};
use fixed_vec::FixedVec;
use marks::{Deadlines, Marks};
use std::alloc::{AllocError, Global};

/// Which of the entries are busy, which are connections that nobody has accepted, and their deadlines, by place. Of the entry at hand nothing is noted, and it
/// is asked itself: so what happens to one entry again and again costs nothing here.
#[derive(Drop)]
pub(crate) struct Outlook {
    at_hand: Option<usize>,
    busy: Marks,
    pending: Marks,
    deadlines: Deadlines,
}

impl Outlook {
    /// That of no entries, with room for `most`. Fails only where memory is refused.
    pub(crate) fn new(alloc: Global, most: usize) -> Result<Outlook, AllocError>
        requires { most ≤ MOST }
        ensures { IfOk result (λ outlook. IsOutlook outlook most []) }
    {
        Ok(Outlook {
            at_hand: None,
            busy: Marks::new(alloc, most)?,
            pending: Marks::new(alloc, most)?,
            deadlines: Deadlines::new(alloc, most)?,
        })
    }

    /// The place of the entry at hand, to which something happened last.
    pub(crate) fn at_hand(&self) -> Option<usize>
        ensures { result ≡ self.now.at_hand }
    {
        self.at_hand
    }

    /// Something is about to happen to the entry in this place, and to no other. Mostly something did last.
    #[inline(always)]
    pub(crate) fn turn_to(&mut self, entries: &FixedVec<Entry>, place: usize)
        requires known { (most : ℕ) × IsOutlook self.old most entries.now.items }
        requires within { place < length entries.now.items }
        ensures at_hand { self.new.at_hand ≡ Some place }
        ensures known { (most : ℕ) → IsOutlook self.old most entries.now.items → IsOutlook self.new most entries.now.items }
    {
        if self.at_hand != Some(place) {
            self.turn_over(entries, place);
        }
    }

    /// The same where something happened to another entry last.
    #[inline(never)]
    fn turn_over(&mut self, entries: &FixedVec<Entry>, place: usize)
        requires known { (most : ℕ) × IsOutlook self.old most entries.now.items }
        requires within { place < length entries.now.items }
        ensures at_hand { self.new.at_hand ≡ Some place }
        ensures known { (most : ℕ) → IsOutlook self.old most entries.now.items → IsOutlook self.new most entries.now.items }
    {
        self.turn_away(entries);
        self.busy.set(place, false);
        self.pending.set(place, false);
        self.deadlines.set(place, None);
        self.at_hand = Some(place);
    }

    /// Notes what is true of the entry at hand, and no entry is at hand.
    fn turn_away(&mut self, entries: &FixedVec<Entry>)
        requires known { (most : ℕ) × IsOutlook self.old most entries.now.items }
        ensures at_hand { self.new.at_hand ≡ None }
        ensures known { (most : ℕ) → IsOutlook self.old most entries.now.items → IsOutlook self.new most entries.now.items }
    {
        if let Some(place) = self.at_hand {
            let role = &entries[place].role;
            self.busy.set(place, role.is_busy());
            self.pending.set(place, role.is_pending());
            self.deadlines.set(place, role.deadline());
            self.at_hand = None;
        }
    }

    /// This entry is to stand behind the others. There must be room.
    pub(crate) fn push(&mut self, entry: &Entry)
        requires known { (most : ℕ) × (entries : List Entry) × (length entries < most) × IsOutlook self.old most entries }
        ensures { (most : ℕ) (entries : List Entry) → IsOutlook self.old most entries → IsOutlook self.new most (entries ++ entry.now ∷ []) }
    {
        self.busy.push(entry.role.is_busy());
        self.pending.push(entry.role.is_pending());
        self.deadlines.push(entry.role.deadline());
    }

    /// The entry in this place is taken out.
    pub(crate) fn remove(&mut self, place: usize)
        requires known { (most : ℕ) × (entries : List Entry) × (place < length entries) × IsOutlook self.old most entries }
        ensures { (most : ℕ) (entries : List Entry) → place < length entries → IsOutlook self.old most entries → IsOutlook self.new most (remove entries place) }
    {
        self.busy.remove(place);
        self.pending.remove(place);
        self.deadlines.remove(place);
        self.at_hand = at_without(self.at_hand, place);
    }

    /// Whether no entry is noted as busy: none is then, but perhaps the one at hand.
    #[inline(always)]
    pub(crate) fn is_calm(&self) -> bool
        ensures { result ≡ not (list_any (λ is_noted. is_noted) self.now.busy.items) }
    {
        self.busy.is_clear()
    }

    /// The place of the first entry from the place `from` on that is busy.
    pub(crate) fn next_busy(&self, entries: &FixedVec<Entry>, from: usize) -> Option<usize>
        requires known { (most : ℕ) × IsOutlook self.now most entries.now.items }
        ensures { result ≡ first_from is_busy_entry from entries.now.items }
    {
        let noted = self.busy.first_from(from);
        match self.at_hand {
            Some(place) => {
                let is_next = from <= place && entries[place].role.is_busy();
                first_of(is_next.then_some(place), noted)
            }
            None => noted,
        }
    }

    /// The place of the first entry from the place `from` on that may be busy: one that is noted so, or the one at hand, which isn't asked.
    pub(crate) fn next_to_ask(&self, from: usize) -> Option<usize>
        ensures { (most : ℕ) (entries : List Entry) → IsOutlook self.now most entries
            → MatchOption result (AreQuiet entries from (length entries)) (λ place. (from ≤ place) × (place < length entries) × AreQuiet entries from place) }
    {
        let noted = self.busy.first_from(from);
        match self.at_hand {
            Some(place) if from <= place => first_of(Some(place), noted),
            _ => noted,
        }
    }

    /// The place of the first connection from the place `from` on that nobody has accepted.
    fn next_pending(&self, entries: &FixedVec<Entry>, from: usize) -> Option<usize>
        requires known { (most : ℕ) × IsOutlook self.now most entries.now.items }
        ensures { result ≡ first_from is_pending_entry from entries.now.items }
    {
        let noted = self.pending.first_from(from);
        match self.at_hand {
            Some(place) => {
                let is_next = from <= place && entries[place].role.is_pending();
                first_of(is_next.then_some(place), noted)
            }
            None => noted,
        }
    }

    /// The place of the first connection from the place `from` on that waits at `listener`. What waits is one that nobody has accepted.
    pub(crate) fn next_waiting(
        &self,
        entries: &FixedVec<Entry>,
        mut from: usize,
        listener: SocketId,
    ) -> Option<usize>
        requires known { (most : ℕ) × IsOutlook self.now most entries.now.items }
        ensures { result ≡ first_from (is_waiting_at listener) from entries.now.items }
    {
        while let Some(place) = self.next_pending(entries, from) {
            if entries[place].role.waits_at(listener) {
                return Some(place);
            }
            from = place + 1;
        }
        None
    }

    /// How many connections wait at a listener, in SYN-RECEIVED or past it.
    pub(crate) fn waiting_at(&self, entries: &FixedVec<Entry>, listener: SocketId) -> usize
        requires known { (most : ℕ) × IsOutlook self.now most entries.now.items }
        ensures { result ≡ count_by (is_waiting_at listener) entries.now.items }
    {
        let _held = entries.len();
        let mut count = 0;
        let mut from = 0;
        while let Some(place) = self.next_waiting(entries, from, listener) {
            count += 1;
            from = place + 1;
        }
        count
    }

    /// The id of the first connection that waits at `listener`, and whose SYN-ACK went out a second ago or more and is not answered.
    pub(crate) fn unanswered_at(
        &self,
        entries: &FixedVec<Entry>,
        listener: SocketId,
    ) -> Option<SocketId>
        requires known { (most : ℕ) × IsOutlook self.now most entries.now.items }
        ensures { result ≡ first_id (is_unanswered_at listener) entries.now.items }
    {
        let mut from = 0;
        while let Some(place) = self.next_waiting(entries, from, listener) {
            let entry = &entries[place];
            if entry.role.is_unanswered_at(listener) {
                return Some(entry.id);
            }
            from = place + 1;
        }
        None
    }

    /// The place of the first entry from the place `from` on whose deadline has come at this moment.
    pub(crate) fn next_come(
        &self,
        entries: &FixedVec<Entry>,
        from: usize,
        now: Moment,
    ) -> Option<usize>
        requires known { (most : ℕ) × IsOutlook self.now most entries.now.items }
        ensures { result ≡ first_from (λ e. has_come (deadline_of e.role) now) from entries.now.items }
    {
        let noted = self.deadlines.first_come(from, now);
        match self.at_hand {
            Some(place) => {
                let is_next = from <= place && entries[place].role.has_come(now);
                first_of(is_next.then_some(place), noted)
            }
            None => noted,
        }
    }

    /// The least deadline of the entries.
    pub(crate) fn least_deadline(&self, entries: &FixedVec<Entry>) -> Option<Moment>
        requires known { (most : ℕ) × IsOutlook self.now most entries.now.items }
        ensures { result ≡ fold (λ least e. sooner least (deadline_of e.role)) None entries.now.items }
    {
        let noted = self.deadlines.least();
        match self.at_hand {
            Some(place) => sooner(noted, entries[place].role.deadline()),
            None => noted,
        }
    }
}

/// The first of two places, as far as there are any.
pub(crate) fn first_of(a: Option<usize>, b: Option<usize>) -> Option<usize>
    ensures { result ≡ first_of a b }
{
    match (a, b) {
        (None, place) | (place, None) => place,
        (Some(a), Some(b)) => Some(a.min(b)),
    }
}

/// Which place is at hand once the entry in this place is taken out, and those behind it moved down.
fn at_without(at_hand: Option<usize>, place: usize) -> Option<usize>
    ensures { result ≡ at_without at_hand place }
{
    match at_hand {
        Some(at) if at == place => None,
        Some(at) if at > place => Some(at - 1),
        other => other,
    }
}
