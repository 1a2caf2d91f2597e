//! Devices that a copy stands on, each of which counts its failures: where octets come from, where they go, and the link between two hosts.
#![tactic(auto)]

mod calls;
mod link;
mod plan;
mod streams;

pub use calls::{MOST_AGAIN, Reader, Writer};
pub use link::memory::{MemoryLink, Passage, Treatment};
pub use link::{Link, LinkFault};
pub use streams::memory::{MemorySink, MemorySource};
pub use streams::{Reading, Sink, Source, Writing, write_all};
