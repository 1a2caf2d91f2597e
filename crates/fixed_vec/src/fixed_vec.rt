//! `FixedVec` and its methods.

ghost use Rattle.std.specs.Prelude.{◌≡◌, ◌+◌, ◌<◌, ◌≤◌, ◌==◌, [], ◌∷◌, ◌++◌, length, take, IfOk, slice_index_or, insert, remove};
ghost use Rattle.std.specs.List.Retain.{RetainsInTurn};
ghost use Rattle.std.specs.Fn.{CalledAtMut};
ghost use Rattle.std.specs.Borrow.{sem};
ghost use Rattle.fixed_vec.specs.FixedVec.{fixed_vec_len};

use std::alloc::{AllocError, Global};
use std::marker::Model;

/// A vector of at most so many elements as it was made for, for which there is room from the first on: only the making takes memory.
#[derive(Drop)]
pub struct FixedVec<T> {
    room: Vec<T>,
    most: usize,
}

impl<T> Model for FixedVec<T> {
    ghost use Rattle.std.specs.Prelude.{◌≤◌};
    ghost use Rattle.std.specs.Vec.{vec_len, vec_capacity};
    ghost use Rattle.fixed_vec.specs.FixedVec.{FixedVec as Items, fixed_vec_code};

    ghost Value = { Items T };

    ghost coded = { fixed_vec_code T.code };

    ghost view = { λ v. record { items = v.room.items; most = v.most } };

    ghost invariant = { λ v. (vec_len v.room ≤ v.most) × (v.most ≤ vec_capacity v.room) };
}

impl<T> FixedVec<T> {
    ghost use Rattle.fixed_vec.specs.Lends.{lends_slice};

    /// An empty vector, with room for `most` elements. Fails only where memory is refused.
    pub fn new(alloc: Global, most: usize) -> Result<Self, AllocError>
        ensures { IfOk result (λ v. v ≡ record { items = []; most = most }) }
    {
        let room = Vec::with_capacity(alloc, most)?;
        Ok(FixedVec { room, most })
    }

    /// How many elements there may be.
    pub fn most(&self) -> usize
        ensures { result ≡ self.now.most }
    {
        self.most
    }

    /// How many elements there are.
    pub fn len(&self) -> usize
        ensures value { result ≡ fixed_vec_len self.now }
        ensures fits { result ≤ self.now.most }
    {
        self.room.len()
    }

    /// Whether as many are there as there may be.
    pub fn is_full(&self) -> bool
        ensures value { result ≡ (fixed_vec_len self.now == self.now.most) }
        ensures fits { fixed_vec_len self.now ≤ self.now.most }
    {
        self.room.len() == self.most
    }

    /// The elements.
    pub fn as_slice(&self) -> &[T]
        ensures value { result.now ≡ self.now.items }
        ensures fits { length result.now ≤ self.now.most }
    {
        self.room.as_slice()
    }

    /// The elements, for writing.
    pub fn as_mut_slice(&mut self) -> &mut [T]
        ensures* writes_back { sem 𝓛 (lends_slice T.row self.entry result) }
        ensures value { result.now ≡ self.old.items }
        ensures fits { length result.now ≤ self.old.most }
    {
        self.room.as_mut_slice()
    }

    /// Appends an element. There must be room.
    pub fn push(&mut self, element: T)
        requires { fixed_vec_len self.old < self.old.most }
        ensures items { self.new.items ≡ self.old.items ++ element ∷ [] }
        ensures most { self.new.most ≡ self.old.most }
        ensures len { fixed_vec_len self.new ≡ fixed_vec_len self.old + 1 }
    {
        self.room.push_reserved(element);
    }

    /// Puts an element at a place, and moves the later ones up. There must be room.
    pub fn insert(&mut self, index: usize, element: T)
        requires in_bounds { index ≤ fixed_vec_len self.old }
        requires room { fixed_vec_len self.old < self.old.most }
        ensures items { self.new.items ≡ insert self.old.items index element }
        ensures most { self.new.most ≡ self.old.most }
        ensures len { fixed_vec_len self.new ≡ fixed_vec_len self.old + 1 }
    {
        match self.room.insert(index, element) {
            Ok(()) => {}
            Err(_) => unreachable!(),
        }
    }

    /// Takes out the element at a place, and moves the later ones down.
    pub fn remove(&mut self, index: usize) -> T
        requires { index < fixed_vec_len self.old }
        ensures value { result ≡ slice_index_or self.old.items index result }
        ensures items { self.new.items ≡ remove self.old.items index }
        ensures most { self.new.most ≡ self.old.most }
        ensures len { fixed_vec_len self.new + 1 ≡ fixed_vec_len self.old }
    {
        self.room.remove(index)
    }
}

impl<T: Drop> FixedVec<T> {
    /// Keeps the elements at which `keeps` answers true, in their order.
    pub fn retain<F: FnMut(&mut T) -> bool>(&mut self, keeps: F)
        requires { F.IsAlwaysCallable keeps }
        ensures filtered { RetainsInTurn (CalledAtMut F.FnMut) keeps self.old.items self.new.items }
        ensures bound { fixed_vec_len self.new ≤ fixed_vec_len self.old }
        ensures most { self.new.most ≡ self.old.most }
    {
        let kept = retain_in_front(self.room.as_mut_slice(), keeps);
        self.room.truncate(kept);
    }
}

/// Moves the elements at which `keeps` answers true to the front, in their order, and counts them. `Vec::retain_mut` calls it in two loops, and so as a
/// function of its own, which takes half as long again.
fn retain_in_front<T, F: FnMut(&mut T) -> bool>(items: &mut [T], mut keeps: F) -> usize
    requires { F.IsAlwaysCallable keeps }
    ensures filtered { RetainsInTurn (CalledAtMut F.FnMut) keeps items.old (take result items.new) }
    ensures bound { result ≤ length items.old }
{
    let mut kept = 0;
    for at in 0..items.len() {
        if keeps(&mut items[at]) {
            items.swap(kept, at);
            kept += 1;
        }
    }
    kept
}
