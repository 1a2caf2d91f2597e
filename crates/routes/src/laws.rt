//! Laws of the definitions that the contracts of this crate cite: each is the contract of a function that does nothing.

ghost use Rattle.std.specs.Prelude.{◌≡◌, ◌⊎◌, ◌<◌, ◌≤◌, ◌↔◌, true, false, All, IsTrue, List, length, Option, None, Contains};
ghost use Rattle.ipv4.specs.Prefixes.{number};
ghost use Rattle.ipv4.specs.declared.addr.Addr.{Addr};
ghost use Rattle.ipv4.specs.declared.prefix.Prefix.{Prefix};
ghost use Rattle.routes.specs.declared.route.Route.{Route};
ghost use Rattle.routes.specs.declared.route.Hop.{Hop};
ghost use Rattle.routes.specs.declared.table.TheConstants.{MOST};
ghost use Rattle.routes.specs.Ends.{is_end_of, last_number, IsEndOf};
ghost use Rattle.routes.specs.Routes.{IsTable, HasPrefix, TakesOut, IsBest, Matches, Picks};

/// The longest prefix wins: a route that matches an address is not the best for it while another that matches has a longer prefix. An address that some route matches always has a hop
/// (RFC 4632 section 5.1).
pub fn the_longest_prefix_wins()
    ensures longest { (table : List Route) (addr : Addr) (shorter longer : Route) → Contains table longer → Matches longer addr
        → shorter.prefix.length < longer.prefix.length → IsBest table addr shorter → ⊥ }
    ensures matches { (table : List Route) (addr : Addr) (best : Route) → IsBest table addr best → Contains table best × Matches best addr }
    ensures some { (table : List Route) (addr : Addr) (route : Route) → Contains table route → Matches route addr → Picks table addr None → ⊥ }
{}

/// A network of 30 bits or fewer has two ends, its own address and the last one; one of two addresses or of a single one has none (RFC 1122 section 3.2.1.3, RFC 3021).
pub fn networks_have_two_ends()
    ensures ends { (addr : Addr) (prefix : Prefix) → prefix.length ≤ 30 → (number addr ≡ number prefix.addr) ⊎ (number addr ≡ last_number prefix) → is_end_of addr prefix ≡ true }
    ensures none { (addr : Addr) (prefix : Prefix) → 31 ≤ prefix.length → is_end_of addr prefix ≡ false }
{}

/// Of a table, in which no two entries have one prefix, one route at most is the best for an address.
pub fn one_best_route()
    ensures { (table : List Route) (addr : Addr) (first second : Route) → IsTable table → IsBest table addr first → IsBest table addr second
        → first ≡ second }
{}

/// So what `Routes::pick` answers is determined.
pub fn one_answer()
    ensures { (table : List Route) (addr : Addr) (first second : Option Hop) → IsTable table → Picks table addr first → Picks table addr second
        → first ≡ second }
{}

/// Nor does it depend on the order of the routes: tables with the same routes have the same answer (RFC 4632 section 5.1).
pub fn order_does_not_matter()
    ensures { (table other : List Route) (addr : Addr) (first second : Option Hop) → IsTable table
        → ((route : Route) → Contains table route ↔ Contains other route)
        → Picks table addr first → Picks other addr second → first ≡ second }
{}

/// What is left where the route of a prefix is taken out of a table is determined, and no route of it has that prefix.
pub fn one_rest()
    ensures one { (old first second : List Route) (prefix : Prefix) → IsTable old → TakesOut old first prefix → TakesOut old second prefix
        → first ≡ second }
    ensures gone { (old new : List Route) (prefix : Prefix) → IsTable old → TakesOut old new prefix → ¬ HasPrefix new prefix }
{}

/// An end of a network, bit by bit: an address that has its prefix, of 30 bits at most, and past that only zeros or only ones (RFC 1122 section 3.2.1.3, RFC 3021).
pub fn past_the_prefix_of_an_end_all_bits_are_alike()
    ensures { (addr : Addr) (prefix : Prefix) → length addr.0 ≡ 4 → All (λ octet. octet < 256) addr.0 → IsTrue (is_end_of addr prefix) ↔ IsEndOf addr prefix }
{}

/// What the public constant is: a table has 32 routes at most, which is this stack's own limit.
pub fn constants()
    ensures { MOST ≡ 32 }
{}
