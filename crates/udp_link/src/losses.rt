//! Which frames are lost, and which are sent twice.

ghost use Rattle.std.specs.Prelude.{◌≡◌};
ghost use Rattle.udp_link.specs.Fates.{is_one_of};

use crate::every::Every;

/// What becomes of a frame.
#[derive(Clone, Copy, Debug, PartialEq, Eq)]
pub enum Fate {
    /// It is lost.
    Lost,
    /// It is sent.
    Once,
    /// It is sent twice.
    Twice,
}

/// Which frames are lost, and which are sent twice, by their numbers from 1 on.
#[derive(Clone, Copy, Debug, PartialEq, Eq)]
pub struct Losses {
    /// One of so many is lost, or none is.
    pub lose: Option<Every>,
    /// One of so many is sent twice, if it isn't lost, or none is.
    pub repeat: Option<Every>,
}

impl Losses {
    ghost use Rattle.udp_link.specs.Fates.{fate_by};

    /// What becomes of the frame of this number.
    pub fn fate(self, number: u64) -> Fate
        ensures { result ≡ fate_by self number }
    {
        if is_one(self.lose, number) {
            Fate::Lost
        } else if is_one(self.repeat, number) {
            Fate::Twice
        } else {
            Fate::Once
        }
    }
}

/// Whether the frame of this number is one of every so many, if any are.
fn is_one(every: Option<Every>, number: u64) -> bool
    ensures { result ≡ is_one_of every number }
{
    match every {
        Some(every) => every.has(number),
        None => false,
    }
}
