//! The table of routes.

ghost use Rattle.std.specs.Prelude.{◌≡◌, ◌<◌, ◌≤◌, ◌⊎◌, [], ◌∷◌, ◌++◌, ◌↔◌, List, length, IsTrue, IsOk, OnOk, OnErr, IfSome, MatchOption, Contains};
ghost use Rattle.std.specs.List.{HoldsAt};
ghost use Rattle.routes.specs.declared.route.Route.{Route};
ghost use Rattle.routes.specs.Ends.{is_link_end};
ghost use Rattle.routes.specs.Routes.{IsTable, HasPrefix, TakesOut, Matches, IsBest, Picks};

use crate::route::{Hop, Route};
use arrayvec::ArrayVec;
use ipv4::{Addr, Prefix};
use std::marker::Model;
use thiserror::Error;

/// The routes of a table at most.
pub const MOST: usize = 32;

/// Why a route is not added.
#[derive(Clone, Copy, PartialEq, Eq, Debug, Error)]
pub enum AddFault {
    /// There are 32 routes.
    #[error("G1 Full")]
    Full,
    /// There is a route for the same prefix.
    #[error("G2 SamePrefix")]
    SamePrefix,
}

/// Why a route is not removed.
#[derive(Clone, Copy, PartialEq, Eq, Debug, Error)]
pub enum RemoveFault {
    /// There is no route for the prefix.
    #[error("G3 NoSuch")]
    NoSuch,
}

/// The routes of a host, one for a prefix and 32 at most. No call takes memory.
#[derive(Drop)]
pub struct Routes {
    entries: ArrayVec<Route, MOST>,
}

impl Model for Routes {
    ghost use Rattle.std.specs.Prelude.{List};
    ghost use Rattle.routes.specs.declared.route.Route.{Route};
    ghost use Rattle.routes.specs.Routes.{IsTable};

    ghost Value = { List Route };

    ghost view = { λ routes. routes.entries.items };

    ghost invariant = { λ routes. IsTable routes.entries.items };
}

impl Routes {
    /// A table with no route.
    pub fn new() -> Routes
        ensures { result ≡ [] }
    {
        Routes {
            entries: ArrayVec::new(),
        }
    }

    /// Adds a route. SamePrefix where there is one for the prefix; else Full where there are 32. A refusal changes nothing.
    pub fn add(&mut self, prefix: Prefix, hop: Hop) -> Result<(), AddFault>
        ensures same_prefix { (result ≡ Err AddFault.SamePrefix) ↔ HasPrefix self.old prefix }
        ensures full { (result ≡ Err AddFault.Full) ↔ (¬ HasPrefix self.old prefix × (length self.old ≡ MOST)) }
        ensures ok { OnOk result (self.new ≡ self.old ++ record { prefix = prefix; hop = hop } ∷ []) }
        ensures err { OnErr result (self.new ≡ self.old) }
    {
        if has_prefix(self.entries.as_slice(), prefix) {
            return Err(AddFault::SamePrefix);
        }
        if self.entries.is_full() {
            return Err(AddFault::Full);
        }
        self.entries.push(Route { prefix, hop });
        Ok(())
    }

    /// Removes the route for the prefix. NoSuch where there is none, and then nothing has changed.
    pub fn remove(&mut self, prefix: Prefix) -> Result<(), RemoveFault>
        ensures known { IsOk result ↔ HasPrefix self.old prefix }
        ensures ok { OnOk result (TakesOut self.old self.new prefix) }
        ensures err { OnErr result (self.new ≡ self.old) }
    {
        let Some(place) = place_of(self.entries.as_slice(), prefix) else {
            return Err(RemoveFault::NoSuch);
        };
        self.entries.remove(place);
        Ok(())
    }

    /// The hop of the route for `addr` whose prefix is the longest (RFC 4632 section 5.1); none only where no prefix has the address.
    pub fn pick(&self, addr: Addr) -> Option<Hop>
        ensures best { Picks self.now addr result }
        ensures table { IsTable self.now }
    {
        best(self.entries.as_slice(), addr).map(|route| route.hop)
    }

    /// Whether an address is that of a network on the link, or of all its hosts (RFC 1122 section 3.2.1.3): the first or the last one with the prefix of a
    /// direct route. A prefix of 31 bits or more has neither (RFC 3021).
    pub fn is_link_end(&self, addr: Addr) -> bool
        ensures { result ≡ is_link_end self.now addr }
    {
        self.entries.iter().any(|route| route.has_end(addr))
    }
}

/// The place of the route for the prefix.
fn place_of(routes: &[Route], prefix: Prefix) -> Option<usize>
    ensures { MatchOption result (¬ HasPrefix routes.now prefix)
        (λ place. (place < length routes.now) × HoldsAt (λ route. route.prefix ≡ prefix) routes.now place) }
{
    routes.iter().position(|route| route.is_for(prefix))
}

/// Whether there is a route for the prefix.
fn has_prefix(routes: &[Route], prefix: Prefix) -> bool
    ensures { IsTrue result ↔ HasPrefix routes.now prefix }
{
    place_of(routes, prefix).is_some()
}

/// The matching route with the longest prefix.
fn best(routes: &[Route], addr: Addr) -> Option<Route>
    ensures { MatchOption result ((route : Route) → Contains routes.now route → ¬ Matches route addr) (IsBest routes.now addr) }
{
    let mut best = None;
    for route in routes {
        if route.prefix.contains(addr) {
            best = Some(longer(best, *route));
        }
    }
    best
}

/// The one with the longer prefix, of equals the earlier.
fn longer(earlier: Option<Route>, route: Route) -> Route
    ensures one_of_them { (earlier ≡ Some result) ⊎ (result ≡ route) }
    ensures than_this { route.prefix.length ≤ result.prefix.length }
    ensures than_earlier { IfSome earlier (λ earlier. earlier.prefix.length ≤ result.prefix.length) }
{
    match earlier {
        Some(earlier) if earlier.prefix.length() >= route.prefix.length() => earlier,
        _ => route,
    }
}
