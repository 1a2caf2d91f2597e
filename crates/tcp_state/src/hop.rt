//! What waits for the hop to its peer, which isn't known (RFC 1122 sections 2.4 and 4.2.3.5, RFC 9293 section 3.8.3).

ghost use Rattle.std.specs.Prelude.{◌≡◌};
ghost use Rattle.clock.specs.Moments.{has_come};
ghost use Rattle.tcp_state.specs.Hop.{hop_wait, unheard_until, after_hopless, hopless_fate};

use crate::calls::Refusal;
use crate::connection::{Connection, Fate};
use crate::state::State;
use clock::{HOP_WAIT, Moment};

/// How long a segment that takes numbers waits for a hop that isn't known while nothing is outstanding, in milliseconds: the time in
/// which a SYN that nobody answers is given up, 1 + 2 + 4 + 8 + 16 + 32 + 7 times 60 seconds (RFC 1122 section 4.2.3.5, RFC 9293
/// section 3.8.3).
pub const HOP_PATIENCE: u64 = 483_000;

impl Connection {
    /// How long this connection waits for a hop, in milliseconds: one that a listener opened and that is not established
    /// `clock::HOP_WAIT`, any other `HOP_PATIENCE`.
    fn hop_wait(&self) -> u64
        ensures { result ≡ hop_wait self.now }
    {
        if self.is_passive && self.state == State::SynReceived {
            HOP_WAIT
        } else {
            HOP_PATIENCE
        }
    }

    /// The moment up to which a segment that takes numbers waits for a hop that isn't known; None where none waits while nothing is
    /// outstanding.
    pub fn unheard_until(&self) -> Option<Moment>
        ensures { result ≡ unheard_until self.now }
    {
        match self.unheard {
            Some(since) => Some(since.after(self.hop_wait())),
            None => None,
        }
    }

    /// A tick at which the hop to the peer is not known. Where a segment that takes numbers has waited for it as long as it may, the
    /// connection is given up, as by the last expiry: it is CLOSED, and every call reports ETIMEDOUT from now on. Else nothing changes.
    ///
    /// `Removed` where that was the end of one that its caller closed, or that a listener opened and that was not established.
    pub fn lose_hop(&mut self, now: Moment) -> Fate
        ensures fate { result ≡ hopless_fate self.old now }
        ensures after { self.new ≡ after_hopless self.old now }
    {
        if !self.is_hop_lost(now) {
            return Fate::Stays;
        }
        let is_left = self.is_released || (self.is_passive && self.state == State::SynReceived);
        self.end_with(Some(Refusal::ETIMEDOUT));
        if is_left { Fate::Removed } else { Fate::Stays }
    }

    /// Whether a segment has waited for its hop as long as it may.
    fn is_hop_lost(&self, now: Moment) -> bool
        ensures { result ≡ has_come (unheard_until self.now) now }
    {
        match self.unheard_until() {
            Some(end) => end <= now,
            None => false,
        }
    }
}
