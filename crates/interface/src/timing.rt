//! What time does to what waits.

ghost use Rattle.std.specs.Prelude.{◌≡◌, not, ◌&&◌, filter};
ghost use Rattle.interface.specs.declared.reply.Waiting.{Waiting as WaitingReply};
ghost use Rattle.interface.specs.Timing.{is_unknown, is_over, sought, asked_until_over};

use crate::hop::{hop_mac, next_hop};
use crate::interface::Interface;
use crate::queue::Queue;
use crate::reply::Waiting;
use arp::ArpCache;
use clock::{Moment, sooner};
use ipv4::Addr;
use routes::Routes;

impl Interface {
    ghost use Rattle.interface.specs.Timing.{after_tick, asked_until, deadline_of, least_deadline};

    /// Forgets the neighbours that were not heard in the last 20 minutes (RFC 1122 section 2.3.2.1), and drops each reply that has waited
    /// 3,000 ms or more for its next hop and whose next hop isn't known now. All else stays, in order.
    pub fn tick(&mut self, now: Moment)
        ensures { self.new ≡ after_tick self.old now }
    {
        drop_over(&self.routes, &self.cache, now, &mut self.replies);
        self.cache.age(now);
    }

    /// The least moment at which a tick may drop a reply, or a request that one waits for may go out. A reply counts while its next hop
    /// isn't known at `now`: with the end of its 3,000 ms, and, where no request may go out now, with the moment from which one may,
    /// where there is one.
    pub fn deadline(&self, now: Moment) -> Option<Moment>
        ensures { result ≡ least_deadline self.now now }
    {
        self.replies.as_slice().iter().fold(None, |least, waiting| {
            sooner(least, self.deadline_of(now, waiting))
        })
    }

    /// The moment from which a request for the next hop to an address may go out, where none may now and its MAC isn't known (RFC 1122
    /// section 2.3.2.1). It lies behind `now`; there is none where a request of the clock's last moment stands in the way.
    pub fn asked_until(&self, now: Moment, to: Addr) -> Option<Moment>
        ensures { result ≡ asked_until self.now now to }
    {
        asked_until_over(&self.cache, now, next_hop(&self.routes, to))
    }

    /// The deadline of one reply.
    fn deadline_of(&self, now: Moment, waiting: &Waiting) -> Option<Moment>
        ensures { result ≡ deadline_of self.now now waiting.now }
    {
        match waiting.reply.sought() {
            Some(to) if !self.knows_hop(now, to) => {
                sooner(Some(waiting.end()), self.asked_until(now, to))
            }
            _ => None,
        }
    }
}

/// The moment from which a request for a neighbour may go out, where none may now and its MAC isn't known.
fn asked_until_over(cache: &ArpCache, now: Moment, hop: Option<Addr>) -> Option<Moment>
    ensures { result ≡ asked_until_over cache.now now hop }
{
    match hop {
        Some(hop) if cache.look(now, hop).is_some() || cache.may_ask(now, hop) => None,
        Some(hop) => cache.next_ask(hop),
        None => None,
    }
}

/// Drops the replies whose time is over and whose next hop isn't known. The others stay, in order.
fn drop_over(routes: &Routes, cache: &ArpCache, now: Moment, replies: &mut Queue)
    ensures replies { replies.new.replies ≡ filter (λ (w : WaitingReply). not (is_unknown routes.now cache.now now (sought w.reply) && is_over now w)) replies.old.replies }
    ensures most { replies.new.most ≡ replies.old.most }
{
    for place in (0..replies.len()).rev() {
        if !stays(routes, cache, now, &replies.as_slice()[place]) {
            replies.remove(place);
        }
    }
}

/// Whether a reply stays in the queue: its time isn't over, or it has its hop.
fn stays(routes: &Routes, cache: &ArpCache, now: Moment, waiting: &Waiting) -> bool
    ensures { result ≡ not (is_unknown routes.now cache.now now (sought waiting.now.reply) && is_over now waiting.now) }
{
    !(is_unknown(routes, cache, now, waiting.reply.sought()) && waiting.is_over(now))
}

/// Whether the MAC of the next hop to an address isn't known, where there is an address.
fn is_unknown(routes: &Routes, cache: &ArpCache, now: Moment, to: Option<Addr>) -> bool
    ensures { result ≡ is_unknown routes.now cache.now now to }
{
    match to {
        Some(to) => hop_mac(routes, cache, now, to).is_none(),
        None => false,
    }
}
