//! Octets in a ring, by their places from the front.

ghost use Rattle.std.specs.Prelude.{◌≡◌, ◌+◌, ◌<◌, ◌≤◌, ◌==◌, ◌-◌, ◌++◌, [], min, length, take, drop, slice_range, IfOk};
ghost use Rattle.std.specs.Vec.{vec_capacity};
ghost use Rattle.inet_sum.specs.Sum.{sum_of};
ghost use Rattle.stream_buf.specs.Ring.{buffer, turned, overlaid};
ghost use Rattle.stream_buf.specs.Stored.{filled_to, laid_at};

use inet_sum::{copy_sum, join};
use std::alloc::{AllocError, Global};
use std::marker::Model;

/// What stands at places for which nothing came.
const FILLER: [u8; 512] = [0; 512];

/// Octets that lie in a block from a place on, round its end. Whole parts of them are copied. Only the making takes memory, and it writes nothing there: a
/// place is written first when an octet comes to it, or to one behind it.
#[derive(Drop)]
pub(crate) struct Ring {
    // The places that were written, from the first one of the block on.
    block: Vec<u8>,
    capacity: usize,
    start: usize,
    len: usize,
}

impl Model for Ring {
    ghost use Rattle.std.specs.Prelude.{◌≤◌};
    ghost use Rattle.std.specs.Vec.{vec_capacity};
    ghost use Rattle.stream_buf.specs.Ring.{Buffer, ring_view, IsRing};

    ghost Value = { Buffer };

    ghost view = { λ r. ring_view r.block.items r.capacity r.start r.len };

    ghost invariant = { λ r. IsRing r.block.items r.capacity r.start r.len × (r.capacity ≤ vec_capacity r.block) };
}

impl Ring {
    /// An empty ring for so many octets.
    pub(crate) fn with_capacity(alloc: Global, capacity: usize) -> Result<Ring, AllocError>
        ensures { IfOk result (λ ring. ring ≡ buffer [] capacity) }
    {
        let block = Vec::with_capacity(alloc, capacity)?;
        Ok(Ring {
            block,
            capacity,
            start: 0,
            len: 0,
        })
    }

    /// How many octets there are.
    pub(crate) fn len(&self) -> usize
        ensures len { result ≡ length self.now.items }
        ensures within { result ≤ self.now.capacity }
    {
        self.len
    }

    /// Whether there is no octet.
    pub(crate) fn is_empty(&self) -> bool
        ensures { result ≡ (length self.now.items == 0) }
    {
        self.len() == 0
    }

    /// How many octets there are at most.
    pub(crate) fn capacity(&self) -> usize
        ensures capacity { result ≡ self.now.capacity }
        ensures within { length self.now.items ≤ result }
    {
        self.capacity
    }

    /// The octets, in two parts: those up to the end of the block, and those from its beginning on.
    pub(crate) fn as_slices(&self) -> (&[u8], &[u8])
        ensures { result.0.now ++ result.1.now ≡ self.now.items }
    {
        let (back, front) = self.block.as_slice().split_at(self.start);
        let in_front = self.len.min(front.len());
        (&front[..in_front], &back[..self.len - in_front])
    }

    /// Takes as many of these octets as there is room for behind the others, and says how many.
    pub(crate) fn fill_from_slice(&mut self, octets: &[u8]) -> usize
        ensures count { result ≡ min (length octets.now) (self.old.capacity - length self.old.items) }
        ensures items { self.new ≡ buffer (self.old.items ++ take result octets.now) self.old.capacity }
    {
        let count = octets.len().min(self.capacity - self.len);
        self.overlay(self.len, &octets[..count]);
        count
    }

    /// Lays octets from the place `at` on, over those that stand there; filler stands at free places before them.
    pub(crate) fn lay(&mut self, at: usize, octets: &[u8])
        requires { at + length octets.now ≤ self.old.capacity }
        ensures { self.new ≡ buffer (laid_at at octets.now self.old.items) self.old.capacity }
    {
        self.fill_to(at);
        self.overlay(at, octets);
    }

    /// Puts filler behind the octets up to the place `len`, where they don't reach it.
    fn fill_to(&mut self, len: usize)
        requires { len ≤ self.old.capacity }
        ensures { self.new ≡ buffer (filled_to len self.old.items) self.old.capacity }
    {
        while self.len() < len {
            let count = FILLER.len().min(len - self.len());
            self.fill_from_slice(&FILLER[..count]);
        }
    }

    /// Puts octets from the place `at` on, over those that stand there and behind them.
    fn overlay(&mut self, at: usize, octets: &[u8])
        requires there { at ≤ length self.old.items }
        requires within { at + length octets.now ≤ self.old.capacity }
        ensures { self.new ≡ buffer (overlaid at octets.now self.old.items) self.old.capacity }
    {
        let to_end = self.capacity - self.start;
        let end = at + octets.len();
        if self.block.len() < self.start + end.min(to_end) {
            return self.overlay_beyond(at, octets);
        }
        self.len = self.len.max(end);
        put(self.block.as_mut_slice(), self.start, at, octets);
    }

    /// The same where some of the places were not written. Each is so but once.
    #[cold]
    #[inline(never)]
    fn overlay_beyond(&mut self, at: usize, octets: &[u8])
        requires there { at ≤ length self.old.items }
        requires within { at + length octets.now ≤ self.old.capacity }
        ensures { self.new ≡ buffer (overlaid at octets.now self.old.items) self.old.capacity }
    {
        let to_end = self.capacity - self.start;
        let end = at + octets.len();
        write_before(&mut self.block, self.start + end.min(to_end));
        put(self.block.as_mut_slice(), self.start, at, octets);
        self.len = self.len.max(end);
    }

    /// Keeps the first `len` octets.
    pub(crate) fn truncate_back(&mut self, len: usize)
        ensures { self.new ≡ buffer (take len self.old.items) self.old.capacity }
    {
        self.len = self.len.min(len);
    }

    /// Drops the first `count` octets.
    pub(crate) fn drop_front(&mut self, count: usize)
        requires { count ≤ length self.old.items }
        ensures { self.new ≡ buffer (drop count self.old.items) self.old.capacity }
    {
        if count == self.len() {
            self.clear();
        } else {
            self.move_on(count);
        }
    }

    /// Drops all octets. The next ones take the first places again, so that a ring with few octets at a time uses few places.
    fn clear(&mut self)
        ensures { self.new ≡ buffer [] self.old.capacity }
    {
        self.start = 0;
        self.len = 0;
    }

    /// Drops the first `count` octets: the others begin at a later place.
    fn move_on(&mut self, count: usize)
        requires { count ≤ length self.old.items }
        ensures { self.new ≡ buffer (drop count self.old.items) self.old.capacity }
    {
        let to_end = self.block.len() - self.start;
        self.start = if count <= to_end {
            self.start + count
        } else {
            count - to_end
        };
        self.len -= count;
    }

    /// Moves the first octets into `out`, as many as it has room for.
    pub(crate) fn read_into(&mut self, out: &mut [u8])
        requires { length out.old ≤ length self.old.items }
        ensures out { out.new ≡ take (length out.old) self.old.items }
        ensures items { self.new ≡ buffer (drop (length out.old) self.old.items) self.old.capacity }
    {
        let (front, back) = self.as_slices();
        copy_first(front, back, out);
        self.drop_front(out.len());
    }
}

/// Puts filler at the places of a block before `end` that were not written. It takes no memory.
fn write_before(block: &mut Vec<u8>, end: usize)
    requires { end ≤ vec_capacity block.old }
    ensures items { block.new.items ≡ filled_to end block.old.items }
    ensures capacity { vec_capacity block.old ≤ vec_capacity block.new }
{
    if block.len() < end {
        let _ = block.resize(end, 0);
    }
}

/// Puts octets in the place of as many from the place `at` on, where the places of a block are counted from `start` on, round its end.
fn put(block: &mut [u8], start: usize, at: usize, octets: &[u8])
    requires start { start ≤ length block.old }
    requires within { at + length octets.now ≤ length block.old }
    ensures octets { turned start block.new ≡ overlaid at octets.now (turned start block.old) }
    ensures len { length block.new ≡ length block.old }
{
    let (back, front) = block.split_at_mut(start);
    put_in_parts(front, back, at, octets);
}

/// Puts octets in the place of as many from the place `at` on of two parts.
fn put_in_parts(front: &mut [u8], back: &mut [u8], at: usize, octets: &[u8])
    requires { at + length octets.now ≤ length (front.old ++ back.old) }
    ensures octets { front.new ++ back.new ≡ overlaid at octets.now (front.old ++ back.old) }
    ensures front { length front.new ≡ length front.old }
    ensures back { length back.new ≡ length back.old }
{
    if front.len() <= at {
        copy_to(back, at - front.len(), octets);
    } else if octets.len() <= front.len() - at {
        copy_to(front, at, octets);
    } else {
        put_across(front, back, at, octets);
    }
}

/// Puts octets in the place of those from the place `at` of the first part on, and of the first ones of the second.
#[inline(never)]
fn put_across(front: &mut [u8], back: &mut [u8], at: usize, octets: &[u8])
    requires at { at < length front.old }
    requires across { length front.old < at + length octets.now }
    requires within { at + length octets.now ≤ length (front.old ++ back.old) }
    ensures octets { front.new ++ back.new ≡ overlaid at octets.now (front.old ++ back.old) }
    ensures front { length front.new ≡ length front.old }
    ensures back { length back.new ≡ length back.old }
{
    let (first, second) = octets.split_at(front.len() - at);
    copy_to(front, at, first);
    copy_to(back, 0, second);
}

/// Copies octets to a place. It is apart, so that what calls it last saves no registers.
#[inline(never)]
fn copy_to(octets: &mut [u8], at: usize, new: &[u8])
    requires { at + length new.now ≤ length octets.old }
    ensures octets { octets.new ≡ overlaid at new.now octets.old }
    ensures len { length octets.new ≡ length octets.old }
{
    octets[at..at + new.len()].copy_from_slice(new);
}

/// Fills `out` with the first octets of two parts of a ring.
fn copy_first(front: &[u8], back: &[u8], out: &mut [u8])
    requires { length out.old ≤ length (front.now ++ back.now) }
    ensures { out.new ≡ take (length out.old) (front.now ++ back.now) }
{
    let in_front = out.len().min(front.len());
    let (first, second) = out.split_at_mut(in_front);
    first.copy_from_slice(&front[..in_front]);
    second.copy_from_slice(&back[..second.len()]);
}

/// Fills `out` with the octets from the place `at` on, and answers their one's complement sum.
pub(crate) fn copy_at(ring: &Ring, at: usize, out: &mut [u8]) -> u16
    requires { at + length out.old ≤ length ring.now.items }
    ensures octets { out.new ≡ slice_range ring.now.items at (at + length out.old) }
    ensures sum { result ≡ sum_of out.new }
{
    let (front, back) = ring.as_slices();
    copy_of_parts(front, back, at, out)
}

/// Fills `out` with the octets from the place `at` on of two parts of a ring, and answers their one's complement sum.
fn copy_of_parts(front: &[u8], back: &[u8], at: usize, out: &mut [u8]) -> u16
    requires { at + length out.old ≤ length (front.now ++ back.now) }
    ensures octets { out.new ≡ slice_range (front.now ++ back.now) at (at + length out.old) }
    ensures sum { result ≡ sum_of out.new }
{
    if front.len() <= at {
        let begin = at - front.len();
        copy_sum(&back[begin..begin + out.len()], out)
    } else if out.len() <= front.len() - at {
        copy_sum(&front[at..at + out.len()], out)
    } else {
        copy_across(&front[at..], back, out)
    }
}

/// Fills `out` with all octets of one part and the first ones of another, and answers their one's complement sum.
fn copy_across(front: &[u8], back: &[u8], out: &mut [u8]) -> u16
    requires front { length front.now ≤ length out.old }
    requires back { length out.old ≤ length (front.now ++ back.now) }
    ensures octets { out.new ≡ take (length out.old) (front.now ++ back.now) }
    ensures sum { result ≡ sum_of out.new }
{
    let (first, second) = out.split_at_mut(front.len());
    let left = copy_sum(front, first);
    let right = copy_sum(&back[..second.len()], second);
    join(left, right, front.len() % 2 == 1)
}
