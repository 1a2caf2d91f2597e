//! A datagram that was whole.

ghost use Rattle.std.specs.Prelude.{◌≡◌};
ghost use Rattle.reassembly.specs.Lately.{is_recent};

use crate::key::Key;
use clock::Moment;

/// For how long a datagram counts as whole lately, in milliseconds. It is this stack's own.
const LATELY: u64 = 1_000;

/// A datagram that was whole: what its fragments had in common, and when the last that it wanted arrived.
#[derive(Clone, Copy, Debug, PartialEq, Eq)]
pub struct Finished {
    /// What its fragments had in common.
    pub key: Key,
    /// When it was whole.
    pub since: Moment,
}

impl Finished {
    /// Whether it has this key and was whole within the last second.
    pub(crate) fn is_recent(&self, key: Key, now: Moment) -> bool
        ensures { result ≡ is_recent key now self.now }
    {
        self.key.is(key) && now < self.since.after(LATELY)
    }
}

impl Default for Finished {
    /// What stands in a place that is not in use.
    fn default() -> Finished {
        Finished {
            key: Key::default(),
            since: Moment(0),
        }
    }
}
