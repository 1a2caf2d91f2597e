//! How a replay fails.

use std::alloc::AllocError;
use std::io;
use thiserror::Error;
use wire_sim::WorldFault;

/// Why a replay ends before its end.
#[derive(Clone, Copy, Debug, PartialEq, Eq, Error)]
pub enum Failure {
    /// Memory was refused a second time.
    #[error("out of memory, twice")]
    NoMemory,
    /// A line of a row is none of a script.
    #[error("no line of a script: {0}")]
    Line(&'static str),
    /// The event of a line is answered otherwise.
    #[error("answered otherwise: {0}")]
    Answer(&'static str),
    /// A frame carries other octets.
    #[error("frame {0} carries other octets")]
    Frame(usize),
    /// A run that was refused, or that has ended, has done something else than its events.
    #[error("a run told other than its events")]
    Run,
    /// Both hosts have one address.
    #[error("the hosts have one address")]
    Hosts,
    /// Standard output took no more.
    #[error("standard output took no more")]
    Write,
}

impl From<AllocError> for Failure {
    fn from(_: AllocError) -> Self {
        Failure::NoMemory
    }
}

impl From<WorldFault> for Failure {
    fn from(fault: WorldFault) -> Self {
        match fault {
            WorldFault::NoMemory => Failure::NoMemory,
            WorldFault::SameAddress => Failure::Hosts,
        }
    }
}

impl From<io::Error> for Failure {
    fn from(_: io::Error) -> Self {
        Failure::Write
    }
}
