//! The octets on their way out.

ghost use Rattle.std.specs.Prelude.{◌≡◌, ◌+◌, ◌≤◌, ◌==◌, length, IfOk};
ghost use Rattle.inet_sum.specs.Sum.{sum_of};
ghost use Rattle.stream_buf.specs.Sending.{nothing_held, send_room, written_count, after_write, after_acked, copied};

use crate::ring::{self, Ring};
use std::alloc::{AllocError, Global};
use std::marker::Model;

/// The octets that were written and are not acknowledged, in order. Only the making takes memory.
#[derive(Drop)]
pub struct SendBuf {
    held: Ring,
}

impl Model for SendBuf {
    ghost use Rattle.stream_buf.specs.Sending.{SendView};

    ghost Value = { SendView };

    ghost view = { λ b. record { held = b.held.items; capacity = b.held.capacity } };
}

impl SendBuf {
    /// An empty buffer for so many octets. It takes its whole memory here, and fails only where that is refused.
    pub fn with_capacity(alloc: Global, capacity: usize) -> Result<SendBuf, AllocError>
        ensures { IfOk result (λ buffer. buffer ≡ nothing_held capacity) }
    {
        let held = Ring::with_capacity(alloc, capacity)?;
        Ok(SendBuf { held })
    }

    /// Takes as many of the octets as there is room for, from the first on, and says how many.
    pub fn write(&mut self, octets: &[u8]) -> usize
        ensures count { result ≡ written_count self.old octets.now }
        ensures after { self.new ≡ after_write self.old octets.now }
    {
        self.held.fill_from_slice(octets)
    }

    /// The first `count` octets are acknowledged, and held no longer.
    pub fn acked(&mut self, count: usize)
        requires { count ≤ length self.old.held }
        ensures { self.new ≡ after_acked self.old count }
    {
        self.held.drop_front(count);
    }

    /// Fills `out` with the octets that are held from the place `offset` on, and answers their one's complement sum (RFC 1071). They
    /// stay.
    pub fn copy_at(&self, offset: usize, out: &mut [u8]) -> u16
        requires { offset + length out.old ≤ length self.now.held }
        ensures octets { out.new ≡ copied self.now offset (length out.old) }
        ensures sum { result ≡ sum_of out.new }
    {
        ring::copy_at(&self.held, offset, out)
    }

    /// How many octets can still be taken.
    pub fn room(&self) -> usize
        ensures room { result ≡ send_room self.now }
        ensures all { length self.now.held + result ≡ self.now.capacity }
    {
        self.held.capacity() - self.held.len()
    }

    /// How many octets are held.
    pub fn len(&self) -> usize
        ensures { result ≡ length self.now.held }
    {
        self.held.len()
    }

    /// Whether no octet is held.
    pub fn is_empty(&self) -> bool
        ensures { result ≡ (length self.now.held == 0) }
    {
        self.held.is_empty()
    }

    /// How many octets it holds at most.
    pub fn capacity(&self) -> usize
        ensures { result ≡ self.now.capacity }
    {
        self.held.capacity()
    }
}
