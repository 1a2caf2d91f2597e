//! One of every so many.

ghost use Rattle.std.specs.Prelude.{◌≤◌};

/// The least that a step may be.
pub const LEAST_STEP: u64 = 2;

/// The most that a step may be.
pub const MOST_STEP: u64 = 1_000_000;

/// One of every so many frames, from one of two to one of a million.
#[derive(Clone, Copy, Debug, PartialEq, Eq)]
pub struct Every {
    step: u64,
    ghost least: { 2 ≤ step },
}

impl Every {
    ghost use Rattle.std.specs.Prelude.{◌≡◌, option_map};
    ghost use Rattle.udp_link.specs.Steps.{step_in, is_multiple};

    /// One of every `step`, or None where that isn't from 2 to 1,000,000.
    pub fn new(step: u64) -> Option<Every>
        ensures { option_map (λ every. every.step) result ≡ step_in step }
    {
        if LEAST_STEP <= step && step <= MOST_STEP {
            Some(Every { step })
        } else {
            None
        }
    }

    /// Of how many it is one.
    pub fn step(self) -> u64
        ensures { result ≡ self.step }
    {
        self.step
    }

    /// Whether the frame of this number, counted from 1, is the last of so many.
    pub(crate) fn has(self, number: u64) -> bool
        ensures { result ≡ is_multiple self.step number }
    {
        number % self.step == 0
    }
}
