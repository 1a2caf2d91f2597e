//! What a host knows of its neighbours.

ghost use Rattle.std.specs.Prelude.{◌≡◌, ◌<◌, ◌&&◌, length, IfOk};
ghost use Rattle.std.specs.List.{list_any, AllByRecursion};
ghost use Rattle.arp.specs.Cache.{empty, is_pair_of, is_note_of, updated, added, longest_unheard, pairs_after, is_request_for, after_hear, look, after_age, is_live_note, live_notes, after_ask, may_ask, has_place_for, IsNextAsk, HasWholeMacs};
ghost use Rattle.arp.specs.Waits.{own_last, first_last, room_last, following, next_ask};

use crate::entry::{Asked, Neighbour};
use crate::packet::{ArpPacket, Operation};
use clock::{Moment, later, sooner};
use ether::{Mac, is_whole_mac};
use fixed_vec::FixedVec;
use ipv4::Addr;
use std::alloc::{AllocError, Global};
use std::marker::Model;

/// How many requests go out in a second at most.
const REQUESTS: usize = 64;

/// The MACs that were heard for addresses, and the addresses that were asked for. Only the making takes memory.
#[derive(Drop)]
pub struct ArpCache {
    pairs: FixedVec<Neighbour>,
    asked: FixedVec<Asked>,
}

impl Model for ArpCache {
    ghost use Rattle.std.specs.Prelude.{◌≡◌, ◌<◌};
    ghost use Rattle.arp.specs.Cache.{Cache};

    ghost Value = { Cache };

    ghost view = { λ c. record { most = c.pairs.most; pairs = c.pairs.items; asked = c.asked.items } };

    ghost invariant = { λ c. (0 < c.pairs.most) × (c.asked.most ≡ 64) };
}

impl ArpCache {
    /// A cache of a host that heard nothing, and asked for nothing, which keeps so many pairs at most. Fails only where
    /// memory is refused.
    pub fn new(alloc: Global, most: usize) -> Result<ArpCache, AllocError>
        requires { 0 < most }
        ensures { IfOk result (λ cache. cache ≡ empty most) }
    {
        Ok(ArpCache {
            pairs: FixedVec::new(alloc, most)?,
            asked: FixedVec::new(alloc, REQUESTS)?,
        })
    }

    /// Learns from a packet (RFC 826): an address that is kept, live or not, takes the sender's MAC; one that
    /// is not is added where the packet is for `ours`. That where as many pairs are kept as the cache was made for
    /// the longest unheard of them, of equals the first added, gives way, is this stack's own. True where a reply is
    /// owed: the packet is a request for `ours`.
    pub fn hear(&mut self, now: Moment, packet: &ArpPacket, ours: Addr) -> bool
        ensures cache { self.new ≡ after_hear now packet.now ours self.old }
        ensures answer { result ≡ is_request_for ours packet.now }
    {
        let sender = Neighbour::sender_of(now, packet);
        let is_for_us = packet.target_addr == ours;
        learn(&mut self.pairs, sender, is_for_us);
        is_for_us && matches!(packet.operation, Operation::Request)
    }

    /// The MAC of an address, where it is kept and was heard in the last 20 minutes.
    pub fn look(&self, now: Moment, addr: Addr) -> Option<Mac>
        ensures { result ≡ look now addr self.now }
    {
        self.pairs
            .iter()
            .find(|pair| pair.addr.is_same(addr) && pair.is_live(now))
            .map(|pair| pair.mac)
    }

    /// Whether a request for an address may go out now; one that may is noted. In a second, and at the last moment of
    /// the clock, one may for each address (RFC 1122 section 2.3.2.1), and 64 in all, which is this stack's own limit.
    pub fn ask(&mut self, now: Moment, addr: Addr) -> bool
        ensures cache { self.new ≡ after_ask now addr self.old }
        ensures answer { result ≡ may_ask now addr self.old.asked }
    {
        self.asked.retain(|note| note.is_live(now));
        let may_go_out = has_place_for(&self.asked, addr);
        if may_go_out {
            self.asked.push(Asked { addr, at: now });
        }
        may_go_out
    }

    /// Whether `ask` would let a request for an address go out now. Nothing changes.
    pub fn may_ask(&self, now: Moment, addr: Addr) -> bool
        ensures { result ≡ may_ask now addr self.now.asked }
    {
        live_count(&self.asked, now) < REQUESTS && !was_asked_lately(&self.asked, now, addr)
    }

    /// From when on `ask` would let a request for an address go out, as long as it lets none out for any: a second after the
    /// last one for this address (RFC 1122 section 2.3.2.1), and where 64 are noted not before the first of them is a second
    /// old. None where it would let one out at every moment of the clock, or at none, since one of its last moment stands in
    /// the way: `may_ask` says which.
    pub fn next_ask(&self, addr: Addr) -> Option<Moment>
        ensures value { result ≡ next_ask addr self.now.asked }
        ensures next { IsNextAsk addr self.now.asked result }
    {
        following(later(room_last(&self.asked), own_last(&self.asked, addr)))
    }

    /// Forgets the pairs that were not heard in the last 20 minutes. That old pairs are flushed is RFC 1122
    /// section 2.3.2.1; the 20 minutes are this stack's own.
    pub fn age(&mut self, now: Moment)
        ensures { self.new ≡ after_age now self.old }
    {
        self.pairs.retain(|pair| pair.is_live(now));
    }

    /// What each pair keeps of itself, for the contracts above; it changes nothing.
    pub fn sound(&self)
        ensures { HasWholeMacs self.now }
    {
        whole_macs(&self.pairs);
    }
}

/// Each pair has a whole MAC.
fn whole_macs(pairs: &[Neighbour])
    ensures { AllByRecursion (λ pair. length pair.mac.0 ≡ 6) pairs.now }
{
    for pair in pairs {
        is_whole_mac(pair.mac);
    }
}

/// Learns the sender of a packet: a known address is updated, and another is added where the packet is for us.
#[tactic(auto, unfolding(crate::specs::Cache::pairs_after))]
fn learn(pairs: &mut FixedVec<Neighbour>, sender: Neighbour, is_for_us: bool)
    requires { 0 < pairs.old.most }
    ensures items { pairs.new.items ≡ pairs_after pairs.old.most sender is_for_us pairs.old.items }
    ensures most { pairs.new.most ≡ pairs.old.most }
{
    if is_known(pairs, sender.addr) {
        update(pairs, sender);
    } else if is_for_us {
        add(pairs, sender);
    }
}

/// Whether there is a pair of an address.
fn is_known(pairs: &[Neighbour], addr: Addr) -> bool
    ensures { result ≡ list_any (is_pair_of addr) pairs.now }
{
    pairs.iter().any(|pair| pair.addr == addr)
}

/// Puts the sender in the place of the pair with its address.
fn update(pairs: &mut [Neighbour], sender: Neighbour)
    ensures { pairs.new ≡ updated sender pairs.old }
{
    for pair in pairs.iter_mut() {
        pair.hear(sender);
    }
}

/// Adds the sender's pair. In a full table the longest unheard pair gives way.
fn add(pairs: &mut FixedVec<Neighbour>, sender: Neighbour)
    requires { 0 < pairs.old.most }
    ensures items { pairs.new.items ≡ added pairs.old.most sender pairs.old.items }
    ensures most { pairs.new.most ≡ pairs.old.most }
{
    if pairs.is_full() {
        pairs.remove(longest_unheard(pairs));
    }
    pairs.push(sender);
}

/// The place of the pair that was not heard for the longest time; of equals, of the one that was added first.
fn longest_unheard(pairs: &[Neighbour]) -> usize
    requires { 0 < length pairs.now }
    ensures place { result ≡ longest_unheard pairs.now }
    ensures within { result < length pairs.now }
{
    let mut longest = 0;
    for (place, pair) in pairs.iter().enumerate() {
        if pair.heard < pairs[longest].heard {
            longest = place;
        }
    }
    longest
}

/// Whether a request for an address may go out, where these went out in the last second.
fn has_place_for(asked: &[Asked], addr: Addr) -> bool
    ensures { result ≡ has_place_for addr asked.now }
{
    asked.len() < REQUESTS && !was_asked(asked, addr)
}

/// Whether one of these requests was for an address.
fn was_asked(asked: &[Asked], addr: Addr) -> bool
    ensures { result ≡ list_any (is_note_of addr) asked.now }
{
    asked.iter().any(|note| note.addr == addr)
}

/// How many of these requests went out in the last second.
#[tactic(auto, using(crate::proofs::WaitsOver::count_is))]
fn live_count(asked: &[Asked], now: Moment) -> usize
    ensures { result ≡ length (live_notes now asked.now) }
{
    asked.iter().filter(|note| note.is_live(now)).count()
}

/// Whether one of these requests was for an address and went out in the last second.
fn was_asked_lately(asked: &[Asked], now: Moment, addr: Addr) -> bool
    ensures { result ≡ list_any (λ note. is_note_of addr note && is_live_note now note) asked.now }
{
    asked
        .iter()
        .any(|note| note.addr == addr && note.is_live(now))
}

/// The last moment at which a note for an address is live.
fn own_last(asked: &[Asked], addr: Addr) -> Option<Moment>
    ensures { result ≡ own_last addr asked.now }
{
    asked
        .iter()
        .filter(|note| note.addr == addr)
        .fold(None, |latest, note| later(latest, Some(note.last())))
}

/// Where all places are taken, the last moment at which no note is over.
fn room_last(asked: &[Asked]) -> Option<Moment>
    ensures { result ≡ room_last asked.now }
{
    if asked.len() < REQUESTS {
        None
    } else {
        first_last(asked)
    }
}

/// The last moment at which no note is over.
fn first_last(asked: &[Asked]) -> Option<Moment>
    ensures { result ≡ first_last asked.now }
{
    asked
        .iter()
        .fold(None, |soonest, note| sooner(soonest, Some(note.last())))
}

/// The moment behind this one, which the last moment of the clock has not.
fn following(last: Option<Moment>) -> Option<Moment>
    ensures { result ≡ following last }
{
    match last {
        Some(Moment(last)) if last < u64::MAX => Some(Moment(last + 1)),
        _ => None,
    }
}
