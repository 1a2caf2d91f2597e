//! The walk to the first deadline that has come, over the nodes of the tree that have.

ghost use Rattle.std.specs.Prelude.{◌≡◌, ℕ, ◌<◌, ◌≤◌, length, IfSome, MatchOption, position};
ghost use Rattle.std.specs.Int.{IsPowerOfTwo};
ghost use Rattle.clock.specs.Moments.{has_come};
ghost use Rattle.marks.specs.First.{first_from};
ghost use Rattle.marks.specs.Tree.{keys, IsTree};
ghost use Rattle.marks.specs.Walk.{ArePassed, IsFirst, LiesBelow};

use crate::tree::{LAST, at_place};
use clock::Moment;

/// The first place from `from` on whose deadline has come.
pub(crate) fn first_come(
    nodes: &[u64],
    moments: &[Option<Moment>],
    from: usize,
    now: Moment,
) -> Option<usize>
    requires even { IsPowerOfTwo (length nodes.now) }
    requires top { 1 < length nodes.now }
    requires held { length moments.now ≤ length nodes.now }
    requires tree { IsTree nodes.now (keys moments.now) }
    ensures { result ≡ first_from (λ deadline. has_come deadline now) from moments.now }
{
    let now_key = now.0;
    if now_key >= LAST {
        return first_without_keys(moments, from, now);
    }
    if nodes[1] > now_key {
        return None;
    }
    if from == 0 {
        return Some(first_leaf(nodes, moments, 1, now_key));
    }
    if from >= moments.len() {
        return None;
    }
    match first_node(nodes, moments, from, now_key) {
        Some(node) => Some(first_leaf(nodes, moments, node, now_key)),
        None => None,
    }
}

/// A node below which the first leaf from this one on lies that has come: the walk goes to the right, and up wherever that passes none by.
fn first_node(nodes: &[u64], moments: &[Option<Moment>], from: usize, now: u64) -> Option<usize>
    requires even { IsPowerOfTwo (length nodes.now) }
    requires within { from < length nodes.now }
    requires tree { IsTree nodes.now (keys moments.now) }
    ensures { MatchOption result (ArePassed (keys moments.now) now from (length nodes.now)) (λ node. LiesBelow nodes.now (keys moments.now) now from node) }
{
    let mut node = nodes.len() + from;
    let mut end = 2 * nodes.len();
    while node < end {
        if at_place(nodes, moments, node) <= now {
            return Some(node);
        }
        node += 1;
        if node % 2 == 0 {
            node /= 2;
            end /= 2;
        }
    }
    None
}

/// The first leaf below a node that has come, where the node has.
fn first_leaf(nodes: &[u64], moments: &[Option<Moment>], top: usize, now: u64) -> usize
    requires early { now < LAST }
    requires tree { IsTree nodes.now (keys moments.now) }
    requires come { (from : ℕ) × LiesBelow nodes.now (keys moments.now) now from top }
    ensures { (from : ℕ) → LiesBelow nodes.now (keys moments.now) now from top → IsFirst (keys moments.now) now from result }
{
    let mut node = top;
    while node < nodes.len() {
        node *= 2;
        if at_place(nodes, moments, node) > now {
            node += 1;
        }
    }
    node - nodes.len()
}

/// The first place from `from` on whose deadline has come, by a walk over all: it serves at the last two moments of the clock, which no key tells apart.
fn first_without_keys(moments: &[Option<Moment>], from: usize, now: Moment) -> Option<usize>
    ensures { result ≡ first_from (λ deadline. has_come deadline now) from moments.now }
{
    if from > moments.len() {
        return None;
    }
    first_among(&moments[from..], now).map(|ahead| from + ahead)
}

/// The first place of all these whose deadline has come.
fn first_among(moments: &[Option<Moment>], now: Moment) -> Option<usize>
    ensures value { result ≡ position (λ deadline. has_come deadline now) moments.now }
    ensures within { IfSome result (λ place. place < length moments.now) }
{
    moments.iter().position(|deadline| has_come(*deadline, now))
}

/// Whether a deadline has come at this moment.
fn has_come(deadline: Option<Moment>, now: Moment) -> bool
    ensures { result ≡ has_come deadline now }
{
    match deadline {
        Some(deadline) => deadline <= now,
        None => false,
    }
}
