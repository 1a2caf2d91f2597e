//! A `FixedVec` is read and written as the slice of its elements.

ghost use Rattle.std.specs.Prelude.{◌≡◌, ◌≤◌, length};
ghost use Rattle.std.specs.Borrow.{sem};
ghost use Rattle.fixed_vec.specs.Lends.{lends_slice};

use crate::fixed_vec::FixedVec;
use std::ops::{DerefSlice, DerefSliceMut};

impl<T> DerefSlice for FixedVec<T> {
    type Elem = T;

    ghost deref_gives = { λ v xs. (xs ≡ v.items) × (length xs ≤ v.most) };

    fn deref(&self) -> &[T] {
        self.as_slice()
    }
}

impl<T> DerefSliceMut for FixedVec<T> {
    fn deref_mut(&mut self) -> &mut [T]
        ensures* writes_back { sem 𝓛 (lends_slice T.row self.entry result) }
        ensures value { result.now ≡ self.old.items }
        ensures fits { length result.now ≤ self.old.most }
    {
        self.as_mut_slice()
    }
}
