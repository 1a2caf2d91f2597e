//! Dynamic ports (RFC 6335 section 6): 49152 to 65535, given in turn.

ghost use Rattle.std.specs.Prelude.{ℕ, Bool, ◌≡◌, ◌+◌, ◌-◌, ◌<◌, ◌≤◌, IfSome};
ghost use Rattle.sockets.specs.Ids.{AreInOrder};
ghost use Rattle.sockets.specs.Index.{index_of};
ghost use Rattle.sockets.specs.Ports.{port_after, first_port, is_free_port, is_bindable};

use crate::entry::{Entry, Kind};
use crate::found;
use crate::index::Filed;
use ipv4::{Addr, Endpoint};

/// The first dynamic port.
pub(crate) const FIRST: u16 = 49_152;

/// The last dynamic port, after which the first comes again.
pub(crate) const LAST: u16 = 65_535;

/// How many dynamic ports there are.
const COUNT: u16 = LAST - FIRST + 1;

/// The dynamic port that comes `steps` after the one after `last`, where the first comes after the last.
fn port_after(last: u16, steps: u16) -> u16
    requires from_first { FIRST ≤ last }
    requires in_turn { steps < COUNT }
    ensures within { FIRST ≤ result }
    ensures value { result ≡ port_after last steps }
{
    FIRST + (last - FIRST + 1 + steps) % COUNT
}

/// The first dynamic port after `last` that passes.
fn first_that<F: Fn(u16) -> bool>(last: u16, passes: F) -> Option<u16>
    requires from_first { FIRST ≤ last }
    requires callable { F.IsAlwaysCallable passes }
    ensures within { IfSome result (λ port. FIRST ≤ port) }
    ensures first { (test : ℕ → Bool) → ((port : ℕ) (answer : Bool) → F.post passes port answer → answer ≡ test port) → result ≡ first_port test last 0 COUNT }
{
    for steps in 0..COUNT {
        let port = port_after(last, steps);
        if passes(port) {
            return Some(port);
        }
    }
    None
}

/// The first dynamic port after `last` to which no TCP socket is bound and from which no entry holds a connection to `peer`.
pub(crate) fn first_free(
    entries: &[Entry],
    index: &[Filed],
    addr: Addr,
    last: u16,
    peer: Endpoint,
) -> Option<u16>
    requires from_first { FIRST ≤ last }
    requires order { AreInOrder entries.now }
    requires index { index.now ≡ index_of entries.now }
    ensures within { IfSome result (λ port. FIRST ≤ port) }
    ensures first { result ≡ first_port (is_free_port entries.now addr peer) last 0 COUNT }
{
    first_that(last, |port| is_free(entries, index, addr, port, peer))
}

/// The first dynamic port after `last` to which a socket of this kind may be bound.
pub(crate) fn first_bindable(
    entries: &[Entry],
    index: &[Filed],
    kind: Kind,
    last: u16,
) -> Option<u16>
    requires from_first { FIRST ≤ last }
    requires order { AreInOrder entries.now }
    requires index { index.now ≡ index_of entries.now }
    ensures within { IfSome result (λ port. FIRST ≤ port) }
    ensures first { result ≡ first_port (is_bindable kind entries.now) last 0 COUNT }
{
    first_that(last, |port| is_bindable(entries, index, kind, port))
}

/// Whether a socket of this kind may be bound to a port: no entry over TCP has it, or no UDP socket is bound to it.
pub(crate) fn is_bindable(entries: &[Entry], index: &[Filed], kind: Kind, port: u16) -> bool
    requires order { AreInOrder entries.now }
    requires index { index.now ≡ index_of entries.now }
    ensures { result ≡ is_bindable kind entries.now port }
{
    match kind {
        Kind::Tcp => !found::is_port_taken(entries, index, port),
        Kind::Udp => !found::is_datagram_port_taken(entries, index, port),
    }
}

/// Whether no TCP socket is bound to our port `port`, and no entry holds a connection from it to `peer`.
fn is_free(entries: &[Entry], index: &[Filed], addr: Addr, port: u16, peer: Endpoint) -> bool
    requires order { AreInOrder entries.now }
    requires index { index.now ≡ index_of entries.now }
    ensures { result ≡ is_free_port entries.now addr peer port }
{
    !found::is_port_bound(entries, index, port)
        && !found::is_pair_held(entries, index, Endpoint { addr, port }, peer)
}
