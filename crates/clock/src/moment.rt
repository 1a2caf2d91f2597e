//! Moments, and the sooner of two deadlines.

ghost use Rattle.std.specs.Prelude.{◌≡◌};
ghost use Rattle.clock.specs.Moments.{after, later, sooner};

/// How long what is to go out waits for a hop that isn't known, in milliseconds. It is this stack's own.
pub const HOP_WAIT: u64 = 3_000;

/// A moment of a host's clock, in milliseconds from an origin of the caller's choice.
#[derive(Clone, Copy, Debug, PartialEq, Eq, PartialOrd, Ord)]
pub struct Moment(pub u64);

impl Moment {
    /// The moment so many milliseconds later, or the last moment of the clock where that would lie past it.
    pub fn after(self, milliseconds: u64) -> Moment
        ensures { result ≡ after self milliseconds }
    {
        Moment(self.0.saturating_add(milliseconds))
    }
}

/// The sooner of two deadlines; where there is one alone, that one.
pub fn sooner(a: Option<Moment>, b: Option<Moment>) -> Option<Moment>
    ensures { result ≡ sooner a b }
{
    match (a, b) {
        (None, deadline) | (deadline, None) => deadline,
        (Some(a), Some(b)) => Some(a.min(b)),
    }
}

/// The later of two ends; where there is one alone, that one.
pub fn later(a: Option<Moment>, b: Option<Moment>) -> Option<Moment>
    ensures { result ≡ later a b }
{
    match (a, b) {
        (None, end) | (end, None) => end,
        (Some(a), Some(b)) => Some(a.max(b)),
    }
}
