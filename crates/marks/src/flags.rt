//! Marks by place.

ghost use Rattle.std.specs.Prelude.{Bool, not, if◌then◌else◌, ◌≡◌, ◌<◌, ◌≤◌, ◌++◌, [], ◌∷◌, length, set, IfOk, remove};
ghost use Rattle.std.specs.List.{list_any};
ghost use Rattle.marks.specs.First.{first_from};

use crate::words::has;
use crate::{MOST, levels};
use std::alloc::{AllocError, Global};
use std::marker::Model;

/// Which of the entries of a table are marked, by place: the first that is, from any place on, is found without a walk.
#[derive(Drop)]
pub struct Marks {
    len: usize,
    most: usize,
    /// How many of the places are marked.
    count: usize,
    /// Of each place one bit. All room is taken where the marks are made.
    words: Vec<u64>,
    /// Of each word one bit, which says whether it isn't 0.
    summary: Vec<u64>,
}

impl Model for Marks {
    ghost use Rattle.std.specs.Prelude.{◌≡◌, Bool, count_by};
    ghost use Rattle.fixed_vec.specs.FixedVec.{FixedVec as Items};
    ghost use Rattle.marks.specs.Marked.{marked, IsStored};

    ghost Value = { Items Bool };

    ghost view = { λ m. record { items = marked m.words.items m.len; most = m.most } };

    ghost invariant = { λ m. IsStored m.words.items m.summary.items m.len m.most × (m.count ≡ count_by (λ is_marked. is_marked) (marked m.words.items m.len)) };
}

/// How many marks this is: 1 or 0.
#[inline(always)]
fn count_of(is_marked: bool) -> usize
    ensures { result ≡ (if is_marked then 1 else 0) }
{
    usize::from(is_marked)
}

impl Marks {
    /// No marks, with room for those of `most` places. Fails only where memory is refused.
    pub fn new(alloc: Global, most: usize) -> Result<Marks, AllocError>
        requires { most ≤ MOST }
        ensures { IfOk result (λ marks. marks ≡ record { items = []; most = most }) }
    {
        let words = vec![in alloc; 0; most.div_ceil(64)]?;
        let summary = vec![in alloc; 0; words.len().div_ceil(64)]?;
        Ok(Marks {
            len: 0,
            most,
            count: 0,
            words,
            summary,
        })
    }

    /// Adds a place behind the others. There must be room.
    pub fn push(&mut self, is_marked: bool)
        requires { length self.old.items < self.old.most }
        ensures items { self.new.items ≡ self.old.items ++ is_marked ∷ [] }
        ensures most { self.new.most ≡ self.old.most }
    {
        let place = self.len;
        self.len += 1;
        self.count += count_of(is_marked);
        levels::put(
            self.words.as_mut_slice(),
            self.summary.as_mut_slice(),
            place,
            is_marked,
        );
    }

    /// Whether the entry in this place is marked from now on.
    pub fn set(&mut self, place: usize, is_marked: bool)
        requires { place < length self.old.items }
        ensures items { self.new.items ≡ set self.old.items place is_marked }
        ensures most { self.new.most ≡ self.old.most }
    {
        let was_marked = has(self.words.as_slice(), place);
        self.count = self.count + count_of(is_marked) - count_of(was_marked);
        levels::put(
            self.words.as_mut_slice(),
            self.summary.as_mut_slice(),
            place,
            is_marked,
        );
    }

    /// Takes out a place, and moves the later ones down.
    pub fn remove(&mut self, place: usize)
        requires { place < length self.old.items }
        ensures items { self.new.items ≡ remove self.old.items place }
        ensures most { self.new.most ≡ self.old.most }
    {
        let was_marked = has(self.words.as_slice(), place);
        self.count -= count_of(was_marked);
        let used = self.len.div_ceil(64);
        levels::take_out(
            self.words.as_mut_slice(),
            self.summary.as_mut_slice(),
            place,
            used,
        );
        self.len -= 1;
    }

    /// Whether no place is marked.
    #[inline(always)]
    pub fn is_clear(&self) -> bool
        ensures { result ≡ not (list_any (λ is_marked. is_marked) self.now.items) }
    {
        self.count == 0
    }

    /// The first marked place from `from` on.
    pub fn first_from(&self, from: usize) -> Option<usize>
        ensures { result ≡ first_from (λ is_marked. is_marked) from self.now.items }
    {
        levels::first_from(self.words.as_slice(), self.summary.as_slice(), from)
    }
}
