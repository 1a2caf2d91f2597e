//! The next hop to an address.

ghost use Rattle.std.specs.Prelude.{◌≡◌};
ghost use Rattle.interface.specs.Routing.{next_hop, neighbour_by};
ghost use Rattle.interface.specs.Ways.{mac_of, way_over, way_by_mac};

use crate::way::Way;
use arp::ArpCache;
use clock::Moment;
use ether::Mac;
use ipv4::Addr;
use routes::{Hop, Routes};

/// The neighbour that what is for an address goes to next; none where no route leads there (RFC 1122 section 3.3.1.1).
#[tactic(auto, using(crate::proofs::BestRoute::picked))]
pub(crate) fn next_hop(routes: &Routes, to: Addr) -> Option<Addr>
    ensures { result ≡ next_hop routes.now to }
{
    let hop = routes.pick(to);
    hop.map(|hop| neighbour_by(to, hop))
}

/// The neighbour of a hop to an address.
fn neighbour_by(to: Addr, hop: Hop) -> Addr
    ensures { result ≡ neighbour_by to hop }
{
    match hop {
        Hop::Direct => to,
        Hop::Gateway(gateway) => gateway,
    }
}

/// The MAC of the next hop to an address, where it is known.
pub(crate) fn hop_mac(routes: &Routes, cache: &ArpCache, now: Moment, to: Addr) -> Option<Mac>
    ensures { result ≡ mac_of now cache.now (next_hop routes.now to) }
{
    match next_hop(routes, to) {
        Some(hop) => cache.look(now, hop),
        None => None,
    }
}

/// What can be done now for what is to go to a neighbour.
pub(crate) fn way_over(cache: &ArpCache, now: Moment, hop: Option<Addr>) -> Way
    ensures { result ≡ way_over now cache.now hop }
{
    match hop {
        Some(hop) => way_by_mac(cache, now, hop, cache.look(now, hop)),
        None => Way::Waits,
    }
}

/// The same where its MAC was looked up.
fn way_by_mac(cache: &ArpCache, now: Moment, hop: Addr, mac: Option<Mac>) -> Way
    ensures { result ≡ way_by_mac now cache.now.asked hop mac }
{
    match mac {
        Some(mac) => Way::To(mac),
        None if cache.may_ask(now, hop) => Way::Ask(hop),
        None => Way::Waits,
    }
}
