//! The datagrams that were whole lately.

ghost use Rattle.std.specs.Prelude.{◌≡◌, []};
ghost use Rattle.reassembly.specs.Lately.{noted, was_whole};

use crate::finished::Finished;
use crate::key::Key;
use arrayvec::ArrayVec;
use clock::Moment;
use std::marker::Model;

/// How many datagrams that were whole are known at most.
pub const MOST_LATELY: usize = 64;

/// The datagrams that were whole lately, the last one last. A copy of one of their fragments may come late, after the place of
/// its datagram is free again: by its key it is known, so that it begins none. It takes no memory.
#[derive(Drop)]
pub struct Lately {
    finished: ArrayVec<Finished, MOST_LATELY>,
}

impl Model for Lately {
    ghost use Rattle.std.specs.Prelude.{List};
    ghost use Rattle.reassembly.specs.declared.finished.Finished.{Finished};

    ghost Value = { List Finished };

    ghost view = { λ l. l.finished.items };
}

impl Lately {
    /// None.
    pub fn new() -> Lately
        ensures { result ≡ [] }
    {
        Lately {
            finished: ArrayVec::new(),
        }
    }

    /// Notes that a datagram with this key is whole at this moment. Where 64 are known the first of them is forgotten.
    pub fn note(&mut self, key: Key, now: Moment)
        ensures { self.new ≡ noted key now self.old }
    {
        if self.finished.is_full() {
            self.finished.remove(0);
        }
        self.finished.push(Finished { key, since: now });
    }

    /// Whether a datagram with this key was whole within the last second.
    pub fn was_whole(&self, key: Key, now: Moment) -> bool
        ensures { result ≡ was_whole key now self.now }
    {
        self.finished.iter().any(|one| one.is_recent(key, now))
    }
}
