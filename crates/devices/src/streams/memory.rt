//! A source and a sink in memory, whose octets are known and which can be made to fail.

ghost use Rattle.std.specs.Prelude.{◌≡◌, ◌≤◌, ◌++◌, [], true, Some, IfOk, OnErr, is_ok, if◌then◌else◌, take, drop, length, min};

use super::{Sink, Source};
use crate::plan::Plan;
use std::alloc::Global;
use std::io::{Error, Result};

/// A source that gives the octets of a slice, in order.
#[derive(Debug, Drop)]
pub struct MemorySource<'a> {
    octets: &'a [u8],
    given: usize,
    most: usize,
    plan: Plan,
    failures: u64,
    ghost in_range: { given ≤ length octets.now },
    ghost moves: { 1 ≤ most },
}

impl<'a> MemorySource<'a> {
    /// A source of `octets`, with no failure so far and none planned.
    pub fn new(octets: &'a [u8]) -> Self
        ensures octets { result.octets.now ≡ octets.entry.now }
        ensures given { result.given ≡ 0 }
        ensures failures { result.failures ≡ 0 }
    {
        MemorySource {
            octets,
            given: 0,
            most: usize::MAX,
            plan: Plan::none(),
            failures: 0,
        }
    }

    /// The same, whose call `n`, counted from 1, fails.
    pub fn failing_at(mut self, n: u64) -> Self
        ensures plan { result.plan ≡ record { fails_at = Some n; calls = 0 } }
        ensures octets { (result.octets ≡ self.entry.octets) × (result.given ≡ self.entry.given) }
        ensures rest { (result.most ≡ self.entry.most) × (result.failures ≡ self.entry.failures) }
    {
        self.plan = Plan::failing_at(n);
        self
    }

    /// The same, whose calls give at most `most` octets each.
    pub fn in_pieces(mut self, most: usize) -> Self
        requires { 1 ≤ most }
        ensures most { result.most ≡ most }
        ensures octets { (result.octets ≡ self.entry.octets) × (result.given ≡ self.entry.given) }
        ensures rest { (result.plan ≡ self.entry.plan) × (result.failures ≡ self.entry.failures) }
    {
        self.most = most;
        self
    }
}

impl Source for MemorySource<'_> {
    ghost failures = { λ source. source.failures };

    ghost given = { λ source. Some (take source.given source.octets.now) };

    ghost remaining = { λ source. Some (drop source.given source.octets.now) };

    fn read(&mut self, buffer: &mut [u8]) -> Result<usize> {
        if self.plan.fails_next() {
            self.failures = self.failures.saturating_add(1);
            return Err(Error::other("planned"));
        }
        let (_, rest) = self.octets.split_at(self.given);
        let count = copy_front(rest, buffer, self.most);
        self.given += count;
        Ok(count)
    }

    fn failures(&self) -> u64 {
        self.failures
    }
}

/// Copies at most `most` octets from the front of `from` to that of `to`, and answers how many.
fn copy_front(from: &[u8], to: &mut [u8], most: usize) -> usize
    ensures count { result ≡ min (min (length from.now) (length to.new)) most }
    ensures copied { take result to.new ≡ take result from.now }
{
    let count = from.len().min(to.len()).min(most);
    to[..count].copy_from_slice(&from[..count]);
    count
}

/// A sink that keeps the octets that it takes.
#[derive(Debug, Drop)]
pub struct MemorySink {
    taken: Vec<u8>,
    is_flushed: bool,
    most: usize,
    plan: Plan,
    failures: u64,
}

impl MemorySink {
    /// An empty sink, with no failure so far and none planned.
    pub fn new(alloc: Global) -> Self
        ensures taken { result.taken.items ≡ [] }
        ensures flushed { result.is_flushed ≡ true }
        ensures failures { result.failures ≡ 0 }
    {
        MemorySink {
            taken: Vec::new(alloc),
            is_flushed: true,
            most: usize::MAX,
            plan: Plan::none(),
            failures: 0,
        }
    }

    /// The same, whose call `n`, counted from 1 over writes and flushes, fails.
    pub fn failing_at(mut self, n: u64) -> Self
        ensures { result ≡ record self { plan = record { fails_at = Some n; calls = 0 } } }
    {
        self.plan = Plan::failing_at(n);
        self
    }

    /// The same, whose writes take at most `most` octets each; where that is 0, each write of some octets fails.
    pub fn in_pieces(mut self, most: usize) -> Self
        ensures { result ≡ record self { most = most } }
    {
        self.most = most;
        self
    }

    /// What the sink took, in order.
    pub fn taken(&self) -> &[u8]
        ensures { result.now ≡ self.now.taken.items }
    {
        self.taken.as_slice()
    }

    /// Whether a flush succeeded since octets were taken last.
    pub fn is_flushed(&self) -> bool
        ensures { result ≡ self.now.is_flushed }
    {
        self.is_flushed
    }

    /// Keeps all of `octets`, or none where there is no memory.
    fn keep(&mut self, octets: &[u8]) -> Result<usize>
        ensures ok { IfOk result (λ n. (n ≡ length octets.now) × (self.new ≡ record self.old { taken = self.new.taken })) }
        ensures err { OnErr result (self.new ≡ record self.old { taken = self.new.taken }) }
        ensures taken { self.new.taken.items ≡ (if is_ok result then self.old.taken.items ++ octets.now else self.old.taken.items) }
    {
        self.taken.extend_from_slice(octets)?;
        Ok(octets.len())
    }
}

impl Sink for MemorySink {
    ghost failures = { λ sink. sink.failures };

    ghost taken = { λ sink. Some sink.taken.items };

    ghost is_flushed = { λ sink. sink.is_flushed };

    fn write(&mut self, octets: &[u8]) -> Result<usize> {
        let count = octets.len().min(self.most);
        let outcome = if self.plan.fails_next() {
            Err(Error::other("planned"))
        } else {
            self.keep(&octets[..count])
        };
        match outcome {
            Ok(0) if octets.is_empty() => {}
            Ok(count) if count > 0 => self.is_flushed = false,
            _ => self.failures = self.failures.saturating_add(1),
        }
        outcome
    }

    fn flush(&mut self) -> Result<()> {
        if self.plan.fails_next() {
            self.failures = self.failures.saturating_add(1);
            return Err(Error::other("planned"));
        }
        self.is_flushed = true;
        Ok(())
    }

    fn failures(&self) -> u64 {
        self.failures
    }
}
