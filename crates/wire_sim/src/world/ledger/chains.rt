//! The places of a list, found by a number that each is filed under.

ghost use Rattle.std.specs.Prelude.{◌≡◌, ◌<◌, ◌≤◌, ◌%◌, ◌∷◌, [], ◌++◌, length, vec_len, vec_capacity, OnOk, OnErr, IfOk};
ghost use Rattle.wire_sim.specs.Filing.{IsChained, EndsAt, chain_at};

use std::alloc::{AllocError, Global};

/// A number for each place of a list. The places whose numbers leave the same rest are a chain, from the last to the first, and there are
/// about as many chains as places: so those of one number are found without a look at the others.
#[derive(Drop)]
pub(super) struct Chains {
    alloc: Global,
    heads: Vec<usize>,
    numbers: Vec<u64>,
    before: Vec<usize>,
    ghost chained: { IsChained heads.items numbers.items before.items },
    ghost headed: { 0 < vec_capacity numbers → 0 < vec_len heads },
    ghost even: { vec_capacity before ≡ vec_capacity numbers },
}

impl Chains {
    /// No numbers.
    pub(super) fn new(alloc: Global) -> Chains
        ensures { result.numbers.items ≡ [] }
    {
        Chains {
            alloc,
            heads: Vec::new(alloc),
            numbers: Vec::new(alloc),
            before: Vec::new(alloc),
        }
    }

    /// Makes room for `room` numbers in all, in as many chains. It fails only where that room was missing.
    pub(super) fn reserve(&mut self, room: usize) -> Result<(), AllocError>
        ensures numbers { self.new.numbers.items ≡ self.old.numbers.items }
        ensures ok { OnOk result (room ≤ vec_capacity self.new.numbers) }
        ensures full { OnErr result (vec_capacity self.old.numbers < room) }
        ensures kept { vec_capacity self.old.numbers ≤ vec_capacity self.new.numbers }
    {
        if room > self.numbers.capacity() {
            *self = self.larger(room)?;
        }
        Ok(())
    }

    /// The same numbers in `room` chains, with room for so many.
    fn larger(&self, room: usize) -> Result<Chains, AllocError>
        requires { vec_capacity self.now.numbers < room }
        ensures numbers { IfOk result (λ chains. chains.numbers.items ≡ self.now.numbers.items) }
        ensures room { IfOk result (λ chains. vec_capacity chains.numbers ≡ room) }
    {
        let mut larger = Chains::with_room(self.alloc, room)?;
        for number in self.numbers.as_slice() {
            larger.push(*number);
        }
        Ok(larger)
    }

    /// No numbers, with room for so many, and as many chains.
    fn with_room(alloc: Global, room: usize) -> Result<Chains, AllocError>
        requires { 0 < room }
        ensures numbers { IfOk result (λ chains. chains.numbers.items ≡ []) }
        ensures room { IfOk result (λ chains. vec_capacity chains.numbers ≡ room) }
    {
        Ok(Chains {
            alloc,
            heads: vec![in alloc; 0; room]?,
            numbers: Vec::with_capacity(alloc, room)?,
            before: Vec::with_capacity(alloc, room)?,
        })
    }

    /// Files the next place under a number, for which there is room.
    pub(super) fn push(&mut self, number: u64)
        requires { vec_len self.old.numbers < vec_capacity self.old.numbers }
        ensures numbers { self.new.numbers.items ≡ self.old.numbers.items ++ number ∷ [] }
        ensures room { vec_capacity self.new.numbers ≡ vec_capacity self.old.numbers }
    {
        let chain = self.chain(number);
        let place = self.numbers.len();
        self.before.push_reserved(self.heads[chain]);
        self.numbers.push_reserved(number);
        self.heads[chain] = place + 1;
    }

    /// The chain of a number.
    fn chain(&self, number: u64) -> usize
        requires { 0 < length self.now.heads.items }
        ensures chain { result ≡ number % length self.now.heads.items }
        ensures bound { result < length self.now.heads.items }
    {
        (number % self.heads.len() as u64) as usize
    }

    /// One above the last place of this number's chain; 0 where it has none.
    pub(super) fn front(&self, number: u64) -> usize
        ensures { EndsAt (chain_at (length self.now.heads.items) self.now.numbers.items) (number % length self.now.heads.items) (length self.now.numbers.items) result }
    {
        if self.heads.is_empty() {
            return 0;
        }
        self.heads[self.chain(number)]
    }

    /// One above the place before this one in its chain; 0 where there is none.
    pub(super) fn before(&self, place: usize) -> usize
        requires { place < length self.now.numbers.items }
        ensures { EndsAt (chain_at (length self.now.heads.items) self.now.numbers.items) (chain_at (length self.now.heads.items) self.now.numbers.items place) place result }
    {
        self.before[place]
    }
}
