//! A place for one datagram at a time.

ghost use Rattle.std.specs.Prelude.{◌≡◌, ◌≤◌, ◌||◌, not, None, IfOk, IfSome, IsTrue, is_none, length, option_map, Some};
ghost use Rattle.std.specs.Bool.{OnTrue, OnFalse};
ghost use Rattle.std.specs.Borrow.{sem};
ghost use Rattle.std.specs.Io.BufRead.{Rests};
ghost use Rattle.ipv4.specs.declared.limits.TheConstants.{MAX_PAYLOAD};
ghost use Rattle.reassembly.specs.Fragments.{ends_within};
ghost use Rattle.reassembly.specs.contracts.place.Place.{the_row};
ghost use Rattle.reassembly.specs.Inside.{seen, place_seen};
ghost use Rattle.reassembly.specs.Octets.{whole_of, is_covered, filled};
ghost use Rattle.reassembly.specs.Places.{is_of, after_time, began_from, expired_of};
ghost use Rattle.reassembly.specs.Reassembly.{Answers, conflicts, continued, deadline_of, left, outcome_within};

use crate::assembled::{Assembled, Loss};
use crate::buffer::DataBuffer;
use crate::expired::Expired;
use crate::fragment;
use crate::gathered::Gathered;
use crate::key::Key;
use crate::pending::Pending;
use clock::Moment;
use ipv4::Ipv4View;
use std::alloc::{AllocError, Global};
use std::marker::Model;

/// A place for one datagram at a time. Where it is free, what was gathered is left from before.
#[derive(Drop)]
pub(crate) struct Place {
    pending: Option<Pending>,
    gathered: Gathered,
}

impl Model for Place {
    ghost use Rattle.reassembly.specs.Inside.{PlaceView, place_seen, EndsWithin};

    ghost Value = { PlaceView };

    ghost view = { λ p. place_seen p.pending p.gathered };

    ghost invariant = { λ p. EndsWithin (place_seen p.pending p.gathered).datagram };
}

impl Place {
    /// A free place with room for so many octets.
    pub(crate) fn new(alloc: Global, room: usize) -> Result<Place, AllocError>
        requires { room ≤ MAX_PAYLOAD }
        ensures { IfOk result (λ place. place ≡ record { room = room; datagram = None }) }
    {
        Ok(Place {
            pending: None,
            gathered: Gathered::new(alloc, room)?,
        })
    }

    /// Whether no datagram is put together there.
    pub(crate) fn is_free(&self) -> bool
        ensures { result ≡ is_none self.now.datagram }
    {
        self.pending.is_none()
    }

    /// Whether the datagram with this key is put together there.
    pub(crate) fn is_of(&self, key: Key) -> bool
        ensures { result ≡ is_of key self.now.datagram }
    {
        match &self.pending {
            None => false,
            Some(pending) => pending.key.is(key),
        }
    }

    /// When the first fragment of its datagram arrived.
    pub(crate) fn since(&self) -> Option<Moment>
        ensures { result ≡ option_map (λ r. r.since) self.now.datagram }
    {
        match &self.pending {
            None => None,
            Some(pending) => Some(pending.since),
        }
    }

    /// Whether nothing that is put together there began before this moment.
    pub(crate) fn began_from(&self, since: Moment) -> bool
        ensures { result ≡ began_from since self.now.datagram }
    {
        match &self.pending {
            None => true,
            Some(pending) => since <= pending.since,
        }
    }

    /// Ends its datagram, whatever became of it.
    pub(crate) fn empty(&mut self)
        ensures { self.new ≡ record self.old { datagram = None } }
    {
        self.pending = None;
    }

    /// When the time of its datagram runs out.
    pub(crate) fn deadline(&self) -> Option<Moment>
        ensures { result ≡ option_map deadline_of self.now.datagram }
    {
        match &self.pending {
            None => None,
            Some(pending) => Some(pending.deadline()),
        }
    }

    /// Lays a fragment over those of its datagram that came before, or begins with it.
    pub(crate) fn take(&mut self, now: Moment, fragment: &Ipv4View) -> Assembled<'_>
        ensures answer { Answers (outcome_within self.old.room fragment.now (continued now fragment.now self.old.datagram)) result }
        ensures* place { sem 𝓛 (Rests the_row self.entry (λ place. place ≡ record self.old { datagram = left (outcome_within self.old.room fragment.now (continued now fragment.now self.old.datagram)) })) }
    {
        let mut pending = resume(self.pending.take(), &mut self.gathered, now, fragment);
        if is_given_up(&pending, &self.gathered.octets, fragment) {
            return Assembled::Dropped(Loss::GivenUp);
        }
        self.gathered.add(fragment);
        pending.note_end(fragment);
        if is_whole(pending.end, &self.gathered.octets) {
            return Assembled::Whole(self.gathered.whole());
        }
        self.pending = Some(pending);
        Assembled::Waiting
    }

    /// Ends a datagram whose time ran out, and tells what an error message quotes where a fragment zero came.
    pub(crate) fn age(&mut self, now: Moment) -> Option<Expired>
        ensures place { self.new ≡ record self.old { datagram = after_time now self.old.datagram } }
        ensures expired { result ≡ expired_of now self.old.datagram }
    {
        let pending = self.pending.take()?;
        if !pending.is_over(now) {
            self.pending = Some(pending);
            return None;
        }
        let key = pending.key;
        self.gathered
            .take_quote()
            .map(|quote| Expired { key, quote })
    }
}

/// What is known of a datagram that goes on, or else of one that begins now, of which nothing was gathered.
fn resume(
    pending: Option<Pending>,
    gathered: &mut Gathered,
    now: Moment,
    fragment: &Ipv4View,
) -> Pending
    ensures datagram { seen gathered.new result ≡ continued now fragment.now (place_seen pending gathered.old).datagram }
    ensures room { gathered.new.octets.room ≡ gathered.old.octets.room }
{
    match pending {
        Some(pending) => pending,
        None => {
            gathered.clear();
            Pending::new(now, fragment)
        }
    }
}

/// Whether a datagram is given up with a fragment, which ends past the room or contradicts those that came before.
fn is_given_up(pending: &Pending, octets: &DataBuffer, fragment: &Ipv4View) -> bool
    ensures { result ≡ (not (ends_within octets.now.room fragment.now) || conflicts fragment.now pending.now.end (length octets.now.octets)) }
{
    !fragment::ends_within(fragment, octets.room())
        || fragment::conflicts(fragment, pending.end, octets.reach())
}

/// Whether the end is known and every octet below it came.
fn is_whole(end: Option<usize>, octets: &DataBuffer) -> bool
    requires { IfSome end (λ end. length octets.now.octets ≤ end) }
    ensures covered { OnTrue result (IsTrue (is_covered octets.now.octets)) }
    ensures whole { OnTrue result (whole_of end octets.now.octets ≡ Some (filled octets.now.octets)) }
    ensures waits { OnFalse result (whole_of end octets.now.octets ≡ None) }
{
    match end {
        None => false,
        Some(end) => octets.reach() == end && octets.is_covered(),
    }
}
