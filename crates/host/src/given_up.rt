//! What a tick gives up for want of a hop. Nothing changes.

ghost use Rattle.std.specs.Prelude.{◌≡◌};

use crate::host::Host;
use crate::layers::Layers;
use clock::Moment;

/// How much was given up, since it had waited for 3,000 ms and the MAC of its next hop wasn't known.
#[derive(Clone, Copy, Default, PartialEq, Eq, Debug)]
pub struct GivenUp {
    /// Control replies: echo replies, errors, and resets that answer a segment.
    pub replies: u64,
    /// Resets of aborts.
    pub resets: u64,
    /// UDP datagrams that wait to go out.
    pub datagrams: u64,
}

impl Host {
    ghost use Rattle.host.specs.GivenUp.{gives_up};

    /// What a tick at this moment gives up for want of a hop. A program may ask before the tick. A connection that ends since its hop's wait is
    /// over is no part of it: its caller is told ETIMEDOUT.
    pub fn gives_up(&self, now: Moment) -> GivenUp
        ensures { result ≡ gives_up self.now now }
    {
        self.layers.gives_up(now)
    }
}

impl Layers {
    ghost use Rattle.host.specs.GivenUp.{gives_up};

    /// What a tick gives up, as `Host::gives_up`.
    fn gives_up(&self, now: Moment) -> GivenUp
        ensures { result ≡ gives_up self.now now }
    {
        let now = self.sockets.later_moment(now);
        let table = self
            .sockets
            .given_up(now, &|addr| !self.interface.knows_hop(now, addr));
        GivenUp {
            replies: self.interface.given_up(now) as u64,
            resets: table.resets as u64,
            datagrams: table.datagrams as u64,
        }
    }
}
