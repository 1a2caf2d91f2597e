//! Datagrams that wait, for their reader or for their turn to go out.

ghost use Rattle.std.specs.Prelude.{◌≡◌, ℕ, ◌+◌, ◌<◌, ◌≤◌, ◌^◌, ◌↔◌, [], ◌∷◌, ◌++◌, length, take, drop, sum_by, IsOk, IfOk, OnOk, OnErr, IfSome, IfNone, slice_range};
ghost use Rattle.std.specs.List.{remove_range};
ghost use Rattle.inet_sum.specs.Sum.{sum_of};
ghost use Rattle.udp.specs.Waiting.{IsWithin, HasRoom, first_entry, first_octets, brought_forward};

use circular_buffer::HeapCircularBuffer;
use inet_sum::join;
use ipv4::Endpoint;
use std::alloc::Global;
use std::marker::Model;
use thiserror::Error;

/// The octets that the datagrams of a queue of a socket count at most.
pub const CAPACITY: usize = 65_535;

/// The datagrams of a queue at most.
pub const MOST_WAITING: usize = 64;

/// The octets that a datagram counts beside its own.
pub const COUNTED_BESIDE: usize = 8;

/// Why a datagram is not taken into a queue.
#[derive(Clone, Copy, Debug, PartialEq, Eq, Error)]
pub enum QueueFault {
    /// There are 64 datagrams, or it would count more octets than are left.
    #[error("F9 NoRoom")]
    NoRoom,
}

/// Why there is no queue.
#[derive(Clone, Copy, Debug, PartialEq, Eq, Error)]
pub enum MakingFault {
    /// There is no memory for it.
    #[error("E16 ENOMEM")]
    ENOMEM,
}

/// What is known of a datagram that waits, beside its octets.
#[derive(Clone, Copy, Debug, PartialEq, Eq)]
pub struct Entry {
    /// The endpoint that it comes from, or that it is for.
    pub endpoint: Endpoint,
    /// How many octets it has.
    pub len: usize,
}

/// Datagrams that wait, the first in first: 64 at most, which count no more octets than the capacity, where each counts 8
/// beside its own. Only the making takes memory.
#[derive(Drop)]
pub struct Queue {
    entries: HeapCircularBuffer<Entry>,
    octets: HeapCircularBuffer<u8>,
}

impl Model for Queue {
    ghost use Rattle.udp.specs.Waiting.{Line};
    ghost use Rattle.udp.specs.Stored.{items_of, IsStored};

    ghost Value = { Line };

    ghost view = { λ q. record { items = items_of q.entries.items q.octets.items; capacity = q.octets.capacity } };

    ghost invariant = { λ q. IsStored q.entries q.octets };
}

impl Queue {
    /// A queue in which nothing waits, for so many octets. It takes its whole memory here; ENOMEM where there is none.
    pub fn with_capacity(alloc: Global, capacity: usize) -> Result<Queue, MakingFault>
        ensures { IfOk result (λ queue. queue ≡ record { items = []; capacity = capacity }) }
    {
        let entries = HeapCircularBuffer::with_capacity(alloc, MOST_WAITING).map_err(
            |_| MakingFault::ENOMEM,
        )?;
        let octets = HeapCircularBuffer::with_capacity(alloc, capacity).map_err(
            |_| MakingFault::ENOMEM,
        )?;
        Ok(Queue { entries, octets })
    }

    /// Takes a datagram behind the others. NoRoom where it has none, and then nothing has changed. It takes no memory.
    pub fn push(&mut self, endpoint: Endpoint, octets: &[u8]) -> Result<(), QueueFault>
        ensures room { IsOk result ↔ HasRoom self.old (length octets.now) }
        ensures ok { OnOk result (self.new ≡ record self.old { items = self.old.items ++ record { endpoint = endpoint; octets = octets.now } ∷ [] }) }
        ensures err { OnErr result (self.new ≡ self.old) }
    {
        match self.room() {
            Some(room) if octets.len() <= room => {
                self.octets.fill_from_slice(octets);
                self.entries.push_back(Entry {
                    endpoint,
                    len: octets.len(),
                });
                Ok(())
            }
            _ => Err(QueueFault::NoRoom),
        }
    }

    /// The first datagram, which stays, beside its octets: its endpoint and how many octets it has. None where nothing waits.
    pub fn first(&self) -> Option<Entry>
        ensures first { result ≡ first_entry self.now.items }
        ensures limits { IsWithin self.now }
        ensures fits { IfSome result (λ entry. COUNTED_BESIDE + entry.len ≤ self.now.capacity) }
    {
        self.entries.front().copied()
    }

    /// Fills `out` with the octets of the first datagram from the place `at` on. The datagram stays.
    pub fn copy_at(&self, at: usize, out: &mut [u8])
        requires { at + length out.old ≤ length (first_octets self.now.items) }
        ensures { out.new ≡ slice_range (first_octets self.now.items) at (at + length out.old) }
    {
        let (front, back) = self.octets.as_slices();
        copy_of_two(front, back, at, out);
    }

    /// The one's complement sum of the octets of the first datagram, read where they lie (RFC 1071). 0, the sum of no octets,
    /// where nothing waits.
    pub fn sum(&self) -> u16
        ensures { result ≡ sum_of (first_octets self.now.items) }
    {
        let Some(first) = self.first() else {
            return 0;
        };
        let (front, back) = self.octets.as_slices();
        sum_of_two(front, back, first.len)
    }

    /// Takes the first datagram out, and answers what was known of it beside its octets. None where nothing waits, and then
    /// nothing has changed. The octets of the others stay where they are.
    pub fn pop(&mut self) -> Option<Entry>
        ensures first { result ≡ first_entry self.old.items }
        ensures items { self.new ≡ record self.old { items = drop 1 self.old.items } }
    {
        let entry = self.entries.pop_front()?;
        self.octets.truncate_front(self.octets.len() - entry.len);
        Some(entry)
    }

    /// Puts the first datagram behind the others, in place; nothing changes where nothing waits. It takes no memory.
    pub fn requeue(&mut self)
        ensures { self.new ≡ record self.old { items = drop 1 self.old.items ++ take 1 self.old.items } }
    {
        let Some(entry) = self.entries.pop_front() else {
            return;
        };
        move_behind(&mut self.octets, entry.len);
        self.entries.push_back(entry);
    }

    /// Puts the datagram in this place, the first in place 0, before the others, which stay in order; nothing is done where it is the first. In
    /// place: it takes no memory.
    pub fn bring_forward(&mut self, place: usize)
        requires { place < length self.old.items }
        ensures { self.new ≡ record self.old { items = brought_forward place self.old.items } }
    {
        if place == 0 {
            return;
        }
        // What all count is known to fit from here.
        let _held = self.octets.len();
        let before = octets_before(&self.entries, place);
        if let Some(entry) = self.entries.get(place).copied() {
            bring_range_forward(&mut self.octets, before, entry.len);
            bring_range_forward(&mut self.entries, place, 1);
        }
    }

    /// How many octets a further datagram may have. None where none has room, not even an empty one.
    pub fn room(&self) -> Option<usize>
        ensures some { IfSome result (λ most. (len : ℕ) → HasRoom self.now len ↔ (len ≤ most)) }
        ensures none { IfNone result ((len : ℕ) → HasRoom self.now len → ⊥) }
    {
        if self.entries.is_full() {
            return None;
        }
        let counted = COUNTED_BESIDE * self.entries.len() + self.octets.len();
        (self.octets.capacity() - counted).checked_sub(COUNTED_BESIDE)
    }
}

/// How many octets the datagrams of the entries before this place have.
fn octets_before(entries: &HeapCircularBuffer<Entry>, place: usize) -> usize
    requires place { place ≤ length entries.now.items }
    requires fits { sum_by (λ entry. entry.len) entries.now.items < 2 ^ 64 }
    ensures { result ≡ sum_by (λ entry. entry.len) (take place entries.now.items) }
{
    let mut octets = 0;
    for index in 0..place {
        if let Some(entry) = entries.get(index) {
            octets += entry.len;
        }
    }
    octets
}

/// Moves `count` items of a ring from the place `at` on before the others, which stay in order. In place: it takes no memory.
pub fn bring_range_forward<T>(ring: &mut HeapCircularBuffer<T>, at: usize, count: usize)
    requires { at + count ≤ length ring.old.items }
    ensures { ring.new ≡ record ring.old { items = slice_range ring.old.items at (at + count) ++ remove_range ring.old.items at (at + count) } }
{
    turn_forward(ring.make_contiguous(), at, count);
}

/// Moves `count` items from the place `at` on before the others.
#[tactic(auto, using(crate::proofs::Forward::turned_below))]
fn turn_forward<T>(items: &mut [T], at: usize, count: usize)
    requires { at + count ≤ length items.old }
    ensures after { items.new ≡ slice_range items.old at (at + count) ++ remove_range items.old at (at + count) }
    ensures len { length items.new ≡ length items.old }
{
    items[..at + count].rotate_right(count);
}

/// Moves the first `count` octets behind the others, which they have been among.
fn move_behind(octets: &mut HeapCircularBuffer<u8>, count: usize)
    requires count { count ≤ length octets.old.items }
    requires within { length octets.old.items ≤ octets.old.capacity }
    ensures { octets.new ≡ record octets.old { items = drop count octets.old.items ++ take count octets.old.items } }
{
    for _ in 0..count {
        if let Some(octet) = octets.pop_front() {
            octets.push_back(octet);
        }
    }
}

/// Fills `out` with the octets from the place `at` on of two parts of which one follows the other.
fn copy_of_two(front: &[u8], back: &[u8], at: usize, out: &mut [u8])
    requires { at + length out.old ≤ length front.now + length back.now }
    ensures { out.new ≡ slice_range (front.now ++ back.now) at (at + length out.old) }
{
    let skipped = at.min(front.len());
    let beginning = &front[skipped..];
    let from_front = beginning.len().min(out.len());
    let behind = at - skipped;
    let from_back = out.len() - from_front;
    out[..from_front].copy_from_slice(&beginning[..from_front]);
    out[from_front..].copy_from_slice(&back[behind..behind + from_back]);
}

/// The one's complement sum of the first `len` octets of two parts of which one follows the other.
fn sum_of_two(front: &[u8], back: &[u8], len: usize) -> u16
    requires { len ≤ length front.now + length back.now }
    ensures { result ≡ sum_of (take len (front.now ++ back.now)) }
{
    let from_front = len.min(front.len());
    let from_back = len - from_front;
    join(
        inet_sum::sum(&front[..from_front]),
        inet_sum::sum(&back[..from_back]),
        from_front % 2 == 1,
    )
}
