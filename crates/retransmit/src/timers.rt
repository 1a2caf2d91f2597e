//! The deadlines of a connection's timers.

ghost use Rattle.std.specs.Prelude.{◌≡◌, Some, None};
ghost use Rattle.retransmit.specs.Deadlines.{no_timers, deadline_of, with_deadline, is_due, next_of};

use clock::{Moment, sooner};

/// What a timer of a connection is for.
#[derive(Clone, Copy, Debug, PartialEq, Eq)]
pub enum TimerKind {
    /// What is outstanding goes out again (RFC 6298 section 5).
    Retransmission,
    /// A window of zero is probed (RFC 9293 section 3.8.6.1).
    Probe,
    /// An acknowledgement waits for another segment, or for octets that it may go out with (RFC 9293 section 3.8.6.3).
    DelayedAck,
    /// Octets that are too few for a segment wait for more (RFC 9293 section 3.8.6.2.1).
    Override,
}

/// A deadline for each kind of timer, or none where the timer does not run.
#[derive(Clone, Copy, Debug, PartialEq, Eq)]
pub struct Timers {
    /// When what is outstanding goes out again.
    pub retransmission: Option<Moment>,
    /// When a window of zero is probed.
    pub probe: Option<Moment>,
    /// When an acknowledgement waits no longer.
    pub delayed_ack: Option<Moment>,
    /// When octets that are too few for a segment wait no longer.
    pub overriding: Option<Moment>,
}

impl Timers {
    /// No timer runs.
    pub fn new() -> Timers
        ensures { result ≡ no_timers }
    {
        Timers {
            retransmission: None,
            probe: None,
            delayed_ack: None,
            overriding: None,
        }
    }

    /// Starts the timer of a kind, or starts it anew.
    pub fn set(&mut self, kind: TimerKind, deadline: Moment)
        ensures { self.new ≡ with_deadline self.old kind (Some deadline) }
    {
        self.put(kind, Some(deadline));
    }

    /// Stops the timer of a kind.
    pub fn clear(&mut self, kind: TimerKind)
        ensures { self.new ≡ with_deadline self.old kind None }
    {
        self.put(kind, None);
    }

    /// Until when the timer of a kind runs: its deadline, or none where it does not run.
    pub fn deadline(&self, kind: TimerKind) -> Option<Moment>
        ensures { result ≡ deadline_of self.now kind }
    {
        match kind {
            TimerKind::Retransmission => self.retransmission,
            TimerKind::Probe => self.probe,
            TimerKind::DelayedAck => self.delayed_ack,
            TimerKind::Override => self.overriding,
        }
    }

    /// Whether the deadline of a kind has come.
    pub fn due(&self, kind: TimerKind, now: Moment) -> bool
        ensures { result ≡ is_due self.now kind now }
    {
        match self.deadline(kind) {
            Some(deadline) => deadline <= now,
            None => false,
        }
    }

    /// The least deadline, where a timer runs.
    pub fn next(&self) -> Option<Moment>
        ensures { result ≡ next_of self.now }
    {
        sooner(
            sooner(self.retransmission, self.probe),
            sooner(self.delayed_ack, self.overriding),
        )
    }

    /// Puts a deadline, or none, in the place of a kind.
    fn put(&mut self, kind: TimerKind, deadline: Option<Moment>)
        ensures { self.new ≡ with_deadline self.old kind deadline }
    {
        match kind {
            TimerKind::Retransmission => self.retransmission = deadline,
            TimerKind::Probe => self.probe = deadline,
            TimerKind::DelayedAck => self.delayed_ack = deadline,
            TimerKind::Override => self.overriding = deadline,
        }
    }
}
