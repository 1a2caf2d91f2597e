//! The probe of the tail: the last segment goes out once more where nothing is heard of what is outstanding for two round trips (RFC 8985 section 7).

ghost use Rattle.std.specs.Prelude.{◌≡◌, ◌-◌, ◌≤◌, ◌<◌};
ghost use Rattle.tcp_halves.specs.Stream.{outstanding};
ghost use Rattle.tcp_state.specs.Tail.{awaits_tail, tail_wait, tail_at, is_tail_due, tail_after};

use crate::connection::Connection;
use clock::Moment;

/// The least time, in milliseconds, after which the last segment goes out once more.
const LEAST_TAIL_WAIT: u32 = 10;

impl Connection {
    /// Whether a probe of the tail is waited for.
    fn awaits_tail(&self) -> bool
        ensures { result ≡ awaits_tail self.now }
    {
        self.selects()
            && !self.state.is_opening()
            && !self.congestion.is_recovering()
            && self.resend.recover() == 0
            && self.resend.tail() == 0
            && self.resend.reported().is_empty()
            && self.resend.mark().is_none()
            && self.sender.outstanding() as usize > self.sender.smss()
            && self.last_place() < self.sender.open_window(self.congestion.window())
    }

    /// The distance past SND.UNA from which on the last segment goes out again.
    fn last_place(&self) -> u32
        ensures { result ≡ outstanding self.now.sending - self.now.sending.smss }
    {
        let outstanding = self.sender.outstanding();
        outstanding.saturating_sub(self.sender.smss() as u32)
    }

    /// How long it is waited for, in milliseconds.
    fn tail_wait(&self) -> u32
        ensures value { result ≡ tail_wait self.now.resend.timeout }
        ensures most { result ≤ self.now.resend.timeout.rto }
    {
        let timeout = self.resend.timeout();
        match self.resend.estimate() {
            Some(estimate) => (estimate.s8 / 4).max(LEAST_TAIL_WAIT).min(timeout),
            None => timeout,
        }
    }

    /// The moment at which a probe of the tail is due.
    pub(crate) fn tail_at(&self) -> Option<Moment>
        ensures { result ≡ tail_at self.now }
    {
        let deadline = self.timers.retransmission?;
        if !self.awaits_tail() {
            return None;
        }
        let sooner = u64::from(self.resend.timeout() - self.tail_wait());
        Some(Moment(deadline.0.saturating_sub(sooner)))
    }

    /// Whether a probe of the tail is due.
    fn is_tail_due(&self, now: Moment) -> bool
        ensures { result ≡ is_tail_due self.now now }
    {
        match self.tail_at() {
            Some(deadline) => deadline <= now,
            None => false,
        }
    }

    /// The last segment goes out again where a probe of the tail is due.
    #[tactic(auto, using(crate::proofs::TailProbes::marked_sound))]
    pub(crate) fn tick_tail(&mut self, now: Moment)
        ensures { self.new ≡ record self.old { resend = tail_after self.old now } }
    {
        if self.is_tail_due(now) {
            let (place, outstanding) = (self.last_place(), self.sender.outstanding());
            self.resend.mark_tail(place, outstanding);
        }
    }
}
