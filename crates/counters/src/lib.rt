//! Counters of a host, kept beside it: what came and went out, what was dropped, by its cause, and what was given up. They change nothing of the host,
//! and no call of it reads them.
#![tactic(auto)]

mod counters;
mod drops;
mod given_up;
mod lacks;
pub mod laws;

pub use counters::Counters;
pub use drops::Drops;
pub use lacks::Lacks;
