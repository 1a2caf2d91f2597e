//! Captures that are written while frames go out: their octets on the way to a sink, and a link that captures what it takes.
#![tactic(auto)]

mod link;
mod write;

pub use link::{CaptureFault, RecordedLink};
pub use write::{write_head, write_record};
