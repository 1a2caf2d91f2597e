//! The standard descriptors: a file of the command that took the number of one that is closed would be written what is for that one.

use std::fs::{self, File};
use std::os::fd::AsRawFd;

/// The number of standard error, the last of the three.
const LAST: i32 = 2;

/// Files in the places of those standard descriptors that are closed, for as long as they are held. They take nothing, so a write there still fails.
#[derive(Drop)]
pub struct StandIns {
    _files: [Option<File>; 3],
}

/// Takes the places of those standard descriptors that are closed.
pub fn stand_in(rt: &HostRuntime) -> StandIns {
    StandIns {
        _files: [one(rt), one(rt), one(rt)],
    }
}

/// A file in the first free place, if that is one of the three.
fn one(rt: &HostRuntime) -> Option<File> {
    let file = fs::open(rt, "/dev/null").ok()?;
    if file.as_raw_fd() <= LAST {
        Some(file)
    } else {
        None
    }
}
