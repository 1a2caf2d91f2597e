//! The counts of what ticks gave up for want of a hop.

ghost use Rattle.std.specs.Prelude.{◌≡◌};
ghost use Rattle.counters.specs.Counting.{after_giving_up};

use crate::counters::raise;
use host::GivenUp;

/// All at 0.
pub(crate) const NONE: GivenUp = GivenUp {
    replies: 0,
    resets: 0,
    datagrams: 0,
};

/// Counts what one more tick gives up.
pub(crate) fn count(counts: &mut GivenUp, more: GivenUp)
    ensures { counts.new ≡ after_giving_up more counts.old }
{
    raise(&mut counts.replies, more.replies);
    raise(&mut counts.resets, more.resets);
    raise(&mut counts.datagrams, more.datagrams);
}
