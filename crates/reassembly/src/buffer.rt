//! The octets of one datagram's payload, as far as fragments of it have come.

ghost use Rattle.std.specs.Prelude.{◌≡◌, ◌+◌, ◌-◌, ◌≤◌, [], IfOk, IsTrue, length, count_by, not, replicate};
ghost use Rattle.ipv4.specs.declared.limits.TheConstants.{MAX_PAYLOAD};
ghost use Rattle.reassembly.specs.Buffers.{over};
ghost use Rattle.reassembly.specs.Octets.{reaching, put, laid, is_covered, filled};

use std::alloc::{AllocError, Global};
use std::marker::Model;

/// The data buffer of a reassembly, with a flag for each octet (RFC 791 section 3.2). It takes memory where it is made alone, and as
/// many octets as it has room for then are its room.
#[derive(Drop)]
pub(crate) struct DataBuffer {
    octets: Vec<u8>,
    present: Vec<bool>,
    /// How many places are in use; what stands behind them is left from before.
    reach: usize,
    /// How many of them have their octet.
    covered: usize,
}

impl Model for DataBuffer {
    ghost use Rattle.std.specs.Prelude.{length, take};
    ghost use Rattle.reassembly.specs.Buffers.{BufferView, known, IsBuffer};

    ghost Value = { BufferView };

    ghost view = { λ b. record { room = length b.octets.items; octets = known (take b.reach b.octets.items) (take b.reach b.present.items) } };

    ghost invariant = { λ b. IsBuffer b.octets.items b.present.items b.reach b.covered };
}

impl DataBuffer {
    /// A buffer with room for so many octets, in which none stands.
    pub(crate) fn new(alloc: Global, room: usize) -> Result<DataBuffer, AllocError>
        requires { room ≤ MAX_PAYLOAD }
        ensures { IfOk result (λ buffer. buffer ≡ record { room = room; octets = [] }) }
    {
        Ok(DataBuffer {
            octets: vec![in alloc; 0; room]?,
            present: vec![in alloc; false; room]?,
            reach: 0,
            covered: 0,
        })
    }

    /// Forgets its octets.
    pub(crate) fn clear(&mut self)
        ensures { self.new ≡ record self.old { octets = [] } }
    {
        self.reach = 0;
        self.covered = 0;
    }

    /// Lays octets over those that stand there, from a place on.
    pub(crate) fn lay(&mut self, at: usize, new: &[u8])
        requires longest { at + length new.now ≤ MAX_PAYLOAD }
        requires room { at + length new.now ≤ self.old.room }
        ensures { self.new ≡ record self.old { octets = laid at new.now self.old.octets } }
    {
        self.widen(at + new.len());
        self.put(at, new);
    }

    /// Brings the places up to `end` into use, where they are not.
    fn widen(&mut self, end: usize)
        requires { end ≤ self.old.room }
        ensures { self.new ≡ record self.old { octets = reaching end self.old.octets } }
    {
        if self.reach < end {
            mark(&mut self.present, self.reach, end, false);
            self.reach = end;
        }
    }

    /// Puts octets at places that are in use.
    fn put(&mut self, at: usize, new: &[u8])
        requires longest { at + length new.now ≤ MAX_PAYLOAD }
        requires room { at + length new.now ≤ self.old.room }
        requires in_use { at + length new.now ≤ length self.old.octets }
        ensures { self.new ≡ record self.old { octets = put at new.now self.old.octets } }
    {
        let end = at + new.len();
        self.covered += missing(&self.present[at..end]);
        mark(&mut self.present, at, end, true);
        copy_to(&mut self.octets, at, new);
    }

    /// How many octets there is room for.
    pub(crate) fn room(&self) -> usize
        ensures { result ≡ self.now.room }
    {
        self.octets.len()
    }

    /// How many places are in use: up to the last octet that came.
    pub(crate) fn reach(&self) -> usize
        ensures value { result ≡ length self.now.octets }
        ensures bound { result ≤ MAX_PAYLOAD }
    {
        self.reach
    }

    /// Whether each of them has its octet.
    pub(crate) fn is_covered(&self) -> bool
        ensures { result ≡ is_covered self.now.octets }
    {
        self.covered == self.reach
    }

    /// The octets.
    pub(crate) fn octets(&self) -> &[u8]
        requires { IsTrue (is_covered self.now.octets) }
        ensures { result.now ≡ filled self.now.octets }
    {
        &self.octets[..self.reach]
    }
}

/// How many flags are not set.
fn missing(present: &[bool]) -> usize
    ensures { result ≡ count_by not present.now }
{
    present.iter().filter(|is_present| !**is_present).count()
}

/// Sets the flags of the places from `at` to `end`.
fn mark(present: &mut [bool], at: usize, end: usize, is_present: bool)
    requires order { at ≤ end }
    requires within { end ≤ length present.old }
    ensures { present.new ≡ over at (replicate (end - at) is_present) present.old }
{
    present[at..end].fill(is_present);
}

/// Copies octets to a place.
fn copy_to(octets: &mut [u8], at: usize, new: &[u8])
    requires { at + length new.now ≤ length octets.old }
    ensures { octets.new ≡ over at new.now octets.old }
{
    octets[at..at + new.len()].copy_from_slice(new);
}
