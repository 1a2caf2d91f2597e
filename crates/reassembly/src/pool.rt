//! The pool of the datagrams that are being put together.

ghost use Rattle.std.specs.Prelude.{◌≡◌, ◌≤◌, ◌<◌, None, IfOk, IfSome, is_none, is_some, length, position, replicate, slice_set};
ghost use Rattle.std.specs.Borrow.{sem};
ghost use Rattle.std.specs.Io.BufRead.{Rests};
ghost use Rattle.std.specs.List.{list_all, list_any};
ghost use Rattle.ipv4.specs.declared.limits.TheConstants.{MAX_PAYLOAD};
ghost use Rattle.reassembly.specs.contracts.pool.Pool.{the_row};
ghost use Rattle.reassembly.specs.Events.{has_place};
ghost use Rattle.reassembly.specs.Fragments.{ends_within};
ghost use Rattle.reassembly.specs.Inside.{datagrams};
ghost use Rattle.reassembly.specs.Places.{is_of, fits, place_for, after_take, AnswersTake, after_age, began_from, expired, is_oldest, next_deadline, oldest, without_oldest};
ghost use Rattle.reassembly.specs.Reassembly.{new_pool};

use crate::assembled::{Assembled, Loss};
use crate::expired::Expired;
use crate::fault::PoolFault;
use crate::fragment;
use crate::key::Key;
use crate::place::Place;
use arrayvec::ArrayVec;
use clock::{Moment, sooner};
use ipv4::Ipv4View;
use std::alloc::{AllocError, Global};
use std::marker::Model;

/// How many datagrams are put together at once at most. It is this stack's own.
pub const MOST_PLACES: usize = 16;

/// Places for the datagrams that are being put together (RFC 791 section 3.2), each with room for so many octets of payload. The memory
/// for all is taken where the pool is made; no other call takes any.
#[derive(Drop)]
pub struct Pool {
    places: Vec<Place>,
    /// How many octets of payload a place has room for.
    octets: usize,
}

impl Model for Pool {
    ghost use Rattle.reassembly.specs.Inside.{pool_seen, IsPool};
    ghost use Rattle.reassembly.specs.Reassembly.{PoolView};

    ghost Value = { PoolView };

    ghost view = { λ p. pool_seen p.octets p.places.items };

    ghost invariant = { λ p. IsPool p.octets p.places.items };
}

impl Pool {
    /// So many free places, with room for so many octets of payload each. ENOMEM where there is no memory for them.
    #[tactic(auto, using(crate::proofs::Views::all_free))]
    pub fn new(alloc: Global, places: usize, octets: usize) -> Result<Pool, PoolFault>
        requires most { places ≤ MOST_PLACES }
        requires octets { octets ≤ MAX_PAYLOAD }
        ensures { IfOk result (λ pool. pool ≡ new_pool places octets) }
    {
        Ok(Pool {
            places: free_places(alloc, places, octets).map_err(|_| PoolFault::ENOMEM)?,
            octets,
        })
    }

    /// Takes a fragment: its octets are laid over those of its datagram that came before, each at its place (RFC 791 section
    /// 3.2). The datagram is whole once its end is known and every octet below it came; its octets are then those that came
    /// last. The places of other datagrams stay as they are. A fragment that ends past the room of a place begins no datagram, and
    /// one that has a place already is given up. A datagram that was never cut is whole at once, where it has a place. The time is
    /// not looked at: `age` ends what has waited too long.
    pub fn take(&mut self, now: Moment, fragment: &Ipv4View) -> Assembled<'_>
        ensures answer { AnswersTake now fragment.now self.old result }
        ensures* pool { sem 𝓛 (Rests the_row self.entry (λ pool. pool ≡ after_take now fragment.now self.old)) }
    {
        match self.place_for(fragment) {
            None => Assembled::Dropped(Loss::NoRoom),
            Some(i) => {
                let place = &mut self.places[i];
                place.take(now, fragment)
            }
        }
    }

    /// Whether a fragment would have a place: its datagram has one, or one is free and has room for it.
    pub fn has_place(&self, fragment: &Ipv4View) -> bool
        ensures { result ≡ is_some (place_for fragment.now self.now) }
    {
        self.place_for(fragment).is_some()
    }

    /// Whether a place has room for a fragment, free or not: where none is, one more has a place once another datagram gave way.
    pub fn has_room_for(&self, fragment: &Ipv4View) -> bool
        ensures { result ≡ fits self.now fragment.now }
    {
        !self.places.is_empty() && self.reaches(fragment)
    }

    /// Whether the datagram with this key is put together.
    pub fn holds(&self, key: Key) -> bool
        ensures { result ≡ has_place key self.now }
    {
        is_held(&self.places, key)
    }

    /// What each pool keeps of itself, for the contracts above; it changes nothing.
    pub fn sound(&self)
        ensures places { length self.now.places ≤ MOST_PLACES }
        ensures octets { self.now.octets ≤ MAX_PAYLOAD }
    {
        let _ = &self.places;
    }

    /// Ends each datagram whose first fragment arrived sixty seconds ago or earlier (RFC 1122 section 3.3.2), and tells those of
    /// which a fragment zero came, in the order of their places.
    pub fn age(&mut self, now: Moment) -> ArrayVec<Expired, MOST_PLACES>
        ensures pool { self.new ≡ after_age now self.old }
        ensures expired { result.items ≡ expired now self.old }
    {
        let mut expired = ArrayVec::new();
        for place in self.places.iter_mut() {
            if let Some(datagram) = place.age(now) {
                expired.push(datagram);
            }
        }
        expired
    }

    /// Ends the datagram whose first fragment arrived before those of all others, and of several of one moment that in the first
    /// place, so that another may begin. Nothing changes where none is put together.
    pub fn give_way(&mut self)
        ensures { self.new ≡ without_oldest self.old }
    {
        if let Some(i) = self.oldest() {
            self.empty(i);
        }
    }

    /// When the time of a datagram runs out next (RFC 1122 section 3.3.2).
    pub fn next_deadline(&self) -> Option<Moment>
        ensures value { result ≡ next_deadline self.now }
        ensures places { length self.now.places ≤ MOST_PLACES }
    {
        let mut next = None;
        for place in &self.places {
            next = sooner(next, place.deadline());
        }
        next
    }

    /// Whether a place, free or not, has the room for a fragment.
    fn reaches(&self, fragment: &Ipv4View) -> bool
        ensures { result ≡ ends_within self.now.octets fragment.now }
    {
        fragment::ends_within(fragment, self.octets)
    }

    /// The place for a fragment.
    #[tactic(auto, using(crate::proofs::Views::free_place))]
    fn place_for(&self, fragment: &Ipv4View) -> Option<usize>
        ensures value { result ≡ place_for fragment.now self.now }
        ensures within { IfSome result (λ i. i < length self.now.places) }
    {
        match self.place_of(Key::of(fragment)) {
            Some(i) => Some(i),
            None if self.reaches(fragment) => self.free_place(),
            None => None,
        }
    }

    /// The place where the datagram with a key is put together.
    fn place_of(&self, key: Key) -> Option<usize>
        ensures value { result ≡ position (is_of key) self.now.places }
        ensures within { IfSome result (λ i. i < length self.now.places) }
    {
        index_of(&self.places, key)
    }

    /// The first free place.
    fn free_place(&self) -> Option<usize>
        ensures value { result ≡ position is_none self.now.places }
        ensures within { IfSome result (λ i. i < length self.now.places) }
    {
        index_of_free(&self.places)
    }

    /// The place of the datagram that began first.
    fn oldest(&self) -> Option<usize>
        ensures value { result ≡ oldest self.now.places }
        ensures within { IfSome result (λ i. i < length self.now.places) }
    {
        index_of_oldest(&self.places)
    }

    /// Ends the datagram in a place.
    fn empty(&mut self, i: usize)
        requires { i < length self.old.places }
        ensures { self.new ≡ record self.old { places = slice_set self.old.places i None } }
    {
        let place = &mut self.places[i];
        place.empty();
    }
}

/// So many free places, with room for so many octets each.
fn free_places(alloc: Global, places: usize, room: usize) -> Result<Vec<Place>, AllocError>
    requires { room ≤ MAX_PAYLOAD }
    ensures { IfOk result (λ free. free.items ≡ replicate places (record { room = room; datagram = None })) }
{
    let mut free = Vec::with_capacity(alloc, places)?;
    for _ in 0..places {
        free.push(Place::new(alloc, room)?)?;
    }
    Ok(free)
}

/// Whether the datagram with a key is put together.
fn is_held(places: &[Place], key: Key) -> bool
    ensures { result ≡ list_any (λ place. is_of key place.datagram) places.now }
{
    places.iter().any(|place| place.is_of(key))
}

/// The place where the datagram with a key is put together.
fn index_of(places: &[Place], key: Key) -> Option<usize>
    ensures value { result ≡ position (λ place. is_of key place.datagram) places.now }
    ensures within { IfSome result (λ i. i < length places.now) }
{
    places.iter().position(|place| place.is_of(key))
}

/// The first free place.
fn index_of_free(places: &[Place]) -> Option<usize>
    ensures value { result ≡ position (λ place. is_none place.datagram) places.now }
    ensures within { IfSome result (λ i. i < length places.now) }
{
    places.iter().position(|place| place.is_free())
}

/// The place of the datagram that began first.
fn index_of_oldest(places: &[Place]) -> Option<usize>
    ensures value { result ≡ position (λ place. is_oldest (datagrams places.now) place.datagram) places.now }
    ensures within { IfSome result (λ i. i < length places.now) }
{
    places.iter().position(|place| is_oldest(places, place))
}

/// Whether a datagram is put together in a place, and none of these began before it.
fn is_oldest(places: &[Place], place: &Place) -> bool
    ensures { result ≡ is_oldest (datagrams places.now) place.now.datagram }
{
    match place.since() {
        None => false,
        Some(since) => all_began_from(places, since),
    }
}

/// Whether none of these began before this moment.
fn all_began_from(places: &[Place], since: Moment) -> bool
    ensures { result ≡ list_all (began_from since) (datagrams places.now) }
{
    each_began_from(places, since)
}

/// Whether each of these began from this moment on, where it is taken.
fn each_began_from(places: &[Place], since: Moment) -> bool
    ensures { result ≡ list_all (λ place. began_from since place.datagram) places.now }
{
    places.iter().all(|place| place.began_from(since))
}
