//! The two sides of a link, one host on each.
#![tactic(auto)]

mod side;

pub use side::Side;
