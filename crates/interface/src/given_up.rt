//! How many control replies a tick gives up. Nothing changes.

ghost use Rattle.std.specs.Prelude.{◌≡◌, not};
ghost use Rattle.interface.specs.Timing.{stays};

use crate::interface::Interface;
use crate::reply::Waiting;
use clock::Moment;

impl Interface {
    ghost use Rattle.interface.specs.GivenUp.{given_up};

    /// How many replies `tick` drops at this moment: those that have waited 3,000 ms or more for their next hop and whose next hop isn't known.
    pub fn given_up(&self, now: Moment) -> usize
        ensures { result ≡ given_up self.now now }
    {
        self.replies
            .as_slice()
            .iter()
            .filter(|waiting| self.is_given_up(now, waiting))
            .count()
    }

    /// Whether a reply is dropped.
    fn is_given_up(&self, now: Moment, waiting: &Waiting) -> bool
        ensures { result ≡ not (stays self.now now waiting.now) }
    {
        match waiting.reply.sought() {
            Some(to) => waiting.is_over(now) && !self.knows_hop(now, to),
            None => false,
        }
    }
}
