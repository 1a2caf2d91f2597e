//! `hostd copy`: what a copy has beside its octets, the capture of its frames, the count of what was written, and its progress.
#![tactic(auto)]

pub mod copying;
pub mod progress;
