//! The octets that came.

ghost use Rattle.std.specs.Prelude.{◌≡◌, ◌+◌, ◌<◌, ◌≤◌, ◌++◌, true, length, drop, IfOk};
ghost use Rattle.stream_buf.specs.Receiving.{nothing_received, runs, ranges, kept_count, is_taken, joined, after_insert, read_count, read_octets, after_read, after_forgetting, IsReceiving};

use crate::ranges::{Range, Ranges};
use crate::ring::Ring;
use std::alloc::{AllocError, Global};
use std::marker::Model;

/// The ranges of octets ahead of a gap that a buffer keeps at most: longest runs without a gap of their own.
pub const MOST_RANGES: usize = 32;

/// The octets that came and are not read: those in order, and those ahead of a gap, by their distance from RCV.NXT. Only the making
/// takes memory.
#[derive(Drop)]
pub struct RecvBuf {
    // Those in order stand in front. Behind them each that is kept has its own place, and filler stands at the others.
    octets: Ring,
    readable: usize,
    ranges: Ranges,
}

impl Model for RecvBuf {
    ghost use Rattle.stream_buf.specs.Receiving.{ReceiveView};
    ghost use Rattle.stream_buf.specs.Stored.{receive_view, IsStored};

    ghost Value = { ReceiveView };

    ghost view = { λ b. receive_view b.octets b.readable b.ranges };

    ghost invariant = { λ b. IsStored b.octets b.readable b.ranges };
}

impl RecvBuf {
    /// A buffer for so many octets, to which nothing came. It takes its whole memory here, and fails only where that is refused.
    pub fn with_capacity(alloc: Global, capacity: usize) -> Result<RecvBuf, AllocError>
        ensures { IfOk result (λ buffer. buffer ≡ nothing_received capacity) }
    {
        let octets = Ring::with_capacity(alloc, capacity)?;
        Ok(RecvBuf {
            octets,
            readable: 0,
            ranges: Ranges::new(),
        })
    }

    /// Takes octets that came at a distance from RCV.NXT, for which there is room, and says how many octets joined what is readable: all
    /// that then stand without a gap from RCV.NXT on. The others are kept by their distance. Where a 33rd range would have to be kept,
    /// nothing changes. Of two octets for one place the later stands (RFC 9293 section 3.10.7.4).
    pub fn insert_at(&mut self, distance: usize, octets: &[u8]) -> usize
        requires { distance + length octets.now ≤ length self.old.kept }
        ensures count { result ≡ length (joined self.old distance octets.now) }
        ensures after { self.new ≡ after_insert self.old distance octets.now }
    {
        let _ = &self.ranges;
        if octets.is_empty() || !self.takes(distance, octets) {
            return 0;
        }
        if distance == 0 {
            self.append(octets)
        } else {
            self.keep(distance, octets);
            0
        }
    }

    /// Whether octets at a distance from RCV.NXT, for which there is room, are taken: no 33rd range would have to be kept.
    pub fn takes(&self, distance: usize, octets: &[u8]) -> bool
        requires { distance + length octets.now ≤ length self.now.kept }
        ensures { result ≡ is_taken self.now distance octets.now }
    {
        let _ = &self.ranges;
        if distance == 0 || octets.is_empty() {
            return true;
        }
        let new = Range {
            start: distance,
            end: distance + octets.len(),
        };
        self.ranges.len_with(new) <= MOST_RANGES
    }

    /// Moves as many readable octets into `out` as it has room for, from the first on, and says how many. What is kept stays at its
    /// places in the stream.
    pub fn read(&mut self, out: &mut [u8]) -> usize
        ensures count { result ≡ read_count self.old (length out.old) }
        ensures out { out.new ≡ read_octets self.old (length out.old) ++ drop result out.old }
        ensures after { self.new ≡ after_read self.old (length out.old) }
    {
        let count = out.len().min(self.readable);
        self.octets.read_into(&mut out[..count]);
        self.readable -= count;
        count
    }

    /// Keeps nothing any longer: the peer's FIN came, so no octet stands behind what is readable.
    pub fn forget_kept(&mut self)
        ensures { self.new ≡ after_forgetting self.old }
    {
        self.octets.truncate_back(self.readable);
        self.ranges.clear();
    }

    /// How many octets may still come: the distance from RCV.NXT that an octet stays below.
    pub fn room(&self) -> usize
        ensures room { result ≡ length self.now.kept }
        ensures limits { IsReceiving self.now }
    {
        self.octets.capacity() - self.readable
    }

    /// How many octets can be read.
    pub fn readable_len(&self) -> usize
        ensures { result ≡ length self.now.readable }
    {
        self.readable
    }

    /// How many ranges of octets are kept ahead of a gap.
    pub fn ranges(&self) -> usize
        ensures { result ≡ ranges self.now.kept }
    {
        self.ranges.len()
    }

    /// The ranges of octets that are kept ahead of a gap, in order, by their distances from RCV.NXT: the blocks that a selective
    /// acknowledgement can report (RFC 2018 section 3).
    #[tactic(auto, using(crate::proofs::Viewing::runs_viewed))]
    pub fn kept_ranges(&self) -> &[Range]
        ensures { result.now ≡ runs self.now.kept }
    {
        self.ranges.as_slice()
    }

    /// How many octets are kept ahead of a gap.
    pub fn kept_len(&self) -> usize
        ensures { result ≡ kept_count self.now.kept }
    {
        self.ranges.places()
    }

    /// How many octets it holds at most.
    pub fn capacity(&self) -> usize
        ensures { result ≡ self.now.capacity }
    {
        self.octets.capacity()
    }

    /// Takes octets at RCV.NXT, and says how many join what is readable: they, and what is kept up to the first gap behind them.
    fn append(&mut self, octets: &[u8]) -> usize
        requires within { length octets.now ≤ length self.old.kept }
        requires some { 0 < length octets.now }
        ensures count { result ≡ length (joined self.old 0 octets.now) }
        ensures after { self.new ≡ after_insert self.old 0 octets.now }
    {
        self.octets.lay(self.readable, octets);
        let count = self.ranges.join_front(octets.len());
        self.readable += count;
        count
    }

    /// Keeps octets ahead of a gap.
    fn keep(&mut self, distance: usize, octets: &[u8])
        requires ahead { 0 < distance }
        requires within { distance + length octets.now ≤ length self.old.kept }
        requires some { 0 < length octets.now }
        requires taken { is_taken self.old distance octets.now ≡ true }
        ensures count { length (joined self.old distance octets.now) ≡ 0 }
        ensures after { self.new ≡ after_insert self.old distance octets.now }
    {
        self.octets.lay(self.readable + distance, octets);
        self.ranges.add(Range {
            start: distance,
            end: distance + octets.len(),
        });
    }
}
