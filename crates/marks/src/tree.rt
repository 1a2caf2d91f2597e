//! The tree of least moments over the deadlines: how it stays one.
//!
//! Its nodes are keys, numbers that stand for deadlines. Below the node at `i` stand what is at `2 * i` and at `2 * i + 1`: nodes, or behind the nodes the
//! keys of the moments, which are the leaves. The first node is at 1.

ghost use Rattle.std.specs.Prelude.{◌≡◌, ◌<◌, ◌≤◌, ◌/◌, length};
ghost use Rattle.marks.specs.Tree.{key, keys, at_place, least_below, IsTree, IsTreeBut};

use clock::Moment;

/// The key of no deadline, behind all others.
pub(crate) const NEVER: u64 = u64::MAX;

/// The key that the last two moments of the clock share, since the last number stands for no deadline: each moment before them is its own.
pub(crate) const LAST: u64 = u64::MAX - 1;

/// A deadline as a number.
fn key(deadline: Option<Moment>) -> u64
    ensures { result ≡ key deadline }
{
    match deadline {
        Some(deadline) => deadline.0.min(LAST),
        None => NEVER,
    }
}

/// What stands at this place: a node, behind the nodes a leaf, and behind all of them never.
pub(crate) fn at_place(nodes: &[u64], moments: &[Option<Moment>], place: usize) -> u64
    ensures { result ≡ at_place nodes.now (keys moments.now) place }
{
    if place < nodes.len() {
        return nodes[place];
    }
    let leaf = place - nodes.len();
    if leaf < moments.len() {
        key(moments[leaf])
    } else {
        NEVER
    }
}

/// The lesser of the two below a node.
fn least_below(nodes: &[u64], moments: &[Option<Moment>], node: usize) -> u64
    requires { node < length nodes.now }
    ensures { result ≡ least_below nodes.now (keys moments.now) node }
{
    let left = 2 * node;
    let right = left + 1;
    let width = nodes.len();
    if right < width {
        return nodes[left].min(nodes[right]);
    }
    if left >= width && right - width < moments.len() {
        return key(moments[left - width]).min(key(moments[right - width]));
    }
    at_place(nodes, moments, left).min(at_place(nodes, moments, right))
}

/// Puts a node right, and those above it as far as they change.
pub(crate) fn climb(nodes: &mut [u64], moments: &[Option<Moment>], lowest: usize)
    requires within { lowest < length nodes.old }
    requires tree { IsTreeBut lowest lowest nodes.old (keys moments.now) }
    ensures { IsTree nodes.new (keys moments.now) }
{
    let mut node = lowest;
    while node > 0 {
        let least = least_below(nodes, moments, node);
        if nodes[node] == least {
            return;
        }
        nodes[node] = least;
        node /= 2;
    }
}

/// Puts the nodes from one place to another of one level right, and all above them.
pub(crate) fn renew(nodes: &mut [u64], moments: &[Option<Moment>], first: usize, last: usize)
    requires order { first ≤ last }
    requires within { last < length nodes.old }
    requires tree { IsTreeBut first last nodes.old (keys moments.now) }
    ensures { IsTree nodes.new (keys moments.now) }
{
    let mut from = first;
    let mut to = last;
    while to > 0 {
        renew_level(nodes, moments, from, to);
        from /= 2;
        to /= 2;
    }
}

/// Puts the nodes from one place to another of one level right.
fn renew_level(nodes: &mut [u64], moments: &[Option<Moment>], from: usize, to: usize)
    requires order { from ≤ to }
    requires within { to < length nodes.old }
    requires tree { IsTreeBut from to nodes.old (keys moments.now) }
    ensures { IsTreeBut (from / 2) (to / 2) nodes.new (keys moments.now) }
{
    for node in from..to + 1 {
        nodes[node] = least_below(nodes, moments, node);
    }
}
