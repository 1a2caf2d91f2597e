//! What a table knows of its entries by their places, so that no walk over them is needed: which are marked, and the least of their deadlines.
#![tactic(auto)]

mod bits;
mod deadlines;
mod flags;
mod levels;
mod tree;
mod walk;
mod words;

pub use deadlines::Deadlines;
pub use flags::Marks;

/// How many places there may be at most.
pub const MOST: usize = 65_536;
