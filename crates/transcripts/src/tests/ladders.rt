//! The ladder of each script of the folder `examples` and of `first.txt`, without its comments, and those of a round and of an answer of several lines. The numbers follow from the scripts (RFC 9293
//! section 3.4): a SYN, an octet and a FIN count one each. A window is that of 65,535 octets in a SYN, and else what is left of the room that the
//! peer was told of, of 1,048,576 octets at first, in units of 32 rounded down (RFC 7323 section 2.2): room that grows by less than 1,460 isn't told (RFC 9293
//! section 3.8.6.2.2). Behind `noscale` the room is 65,535 and the unit 1. The window of a reset is 0.

mod course;
mod ending;
mod info;
mod opening;
mod refused;
mod rounds;

use super::{Asked, prints};
use ladder::Numbering::{self, Absolute, Relative};
use std::alloc::{AllocError, Global};

/// All ladders, with their numbers.
const LADDERS: [(Numbering, &str); 12] = [
    (Relative, opening::FIRST),
    (Relative, opening::HANDSHAKE),
    (Relative, opening::SIMULTANEOUS_OPEN),
    (Relative, opening::BACKLOG),
    (Relative, course::LOSS_REPAIRED),
    (Relative, course::DATAGRAMS),
    (Relative, course::OLD_SEGMENT_REFUSED),
    (Relative, rounds::ROUND),
    (Relative, info::INFO),
    (Relative, ending::RESET),
    (Relative, ending::SIMULTANEOUS_CLOSE),
    (Absolute, opening::FIRST_ABSOLUTE),
];

/// The lines of the script of a ladder: those that are neither its first one, nor a rung, nor what was printed.
fn script_of(alloc: Global, ladder: &str) -> Result<String, AllocError> {
    let mut script = String::new(alloc);
    for line in ladder.lines() {
        if line.starts_with(|first: char| first.is_ascii_lowercase()) {
            write!(script, "{line}\n")?;
        }
    }
    Ok(script)
}

#[test]
fn ladders_are_drawn(rt: HostRuntime) -> Result<(), AllocError> {
    let alloc = rt.alloc();
    for (numbering, ladder) in LADDERS {
        let script = script_of(alloc, ladder)?;
        prints(
            &rt,
            alloc,
            (Asked::Ladder(numbering), script.as_str()),
            ladder,
        );
    }
    for (numbering, ladder) in refused::LADDERS {
        prints(
            &rt,
            alloc,
            (Asked::Ladder(numbering), refused::SCRIPT),
            ladder,
        );
    }
    Ok(())
}
