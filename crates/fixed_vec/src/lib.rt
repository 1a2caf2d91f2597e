//! Vectors of a fixed capacity, whose room is taken once: no call but the making takes memory.
#![tactic(auto)]

mod fixed_vec;
mod slices;

pub use fixed_vec::FixedVec;
