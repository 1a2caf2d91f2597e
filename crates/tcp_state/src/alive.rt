//! Whether the peer is still there, where nothing comes from it and nothing of ours waits for it (SO_KEEPALIVE, RFC 9293 section 3.8.4, RFC 1122 section 4.2.3.6).

ghost use Rattle.std.specs.Prelude.{◌≡◌, ◌||◌, None};
ghost use Rattle.tcp_state.specs.Alive.{asked, heard_now, wait_of, next_wait, unanswered_again, after_set_keepalive, may_rest, rests, alive_at, is_silent, alive_after, after_silence, is_alive_due};

use crate::connection::Connection;
use crate::resend::{MOST_EXPIRIES, MOST_INTERVAL};
use clock::Moment;

/// The longest time, in milliseconds, after which a silent peer is asked whether it is there: a day.
pub const MOST_KEEPALIVE: u64 = 86_400_000;

/// What is known of a peer that says nothing.
#[derive(Clone, Copy, Debug, PartialEq, Eq)]
pub struct KeepAlive {
    /// After how many milliseconds without a segment of the peer it is asked; None where its caller didn't want that.
    pub every: Option<u64>,
    /// The moment from which the wait is counted: that of the last segment, of the last probe, or of the call that wanted it.
    pub since: Moment,
    /// How long the answer to the last probe is waited for, in milliseconds.
    pub wait: u64,
    /// How many probes were due since the last segment, twelve at most.
    pub unanswered: u32,
    /// Whether one is due.
    pub owed: bool,
}

impl KeepAlive {
    /// A peer that is asked after so many milliseconds each without a segment of it, from this moment on.
    pub(crate) fn asked(every: Option<u64>, now: Moment) -> KeepAlive
        ensures { result ≡ asked every now }
    {
        KeepAlive {
            every,
            since: now,
            wait: 0,
            unanswered: 0,
            owed: false,
        }
    }

    /// How long the wait is that runs, where the peer is asked after so long.
    fn wait_of(self, every: u64) -> u64
        ensures { result ≡ wait_of self every }
    {
        if self.unanswered == 0 {
            MOST_KEEPALIVE.min(every)
        } else {
            u64::from(MOST_INTERVAL).min(self.wait)
        }
    }

    /// How long the answer to the next probe is waited for.
    fn next_wait(self, timeout: u32) -> u64
        ensures { result ≡ next_wait self timeout }
    {
        if self.unanswered == 0 {
            u64::from(timeout)
        } else {
            u64::from(MOST_INTERVAL).min(self.wait.saturating_mul(2))
        }
    }

    /// The wait is over: a probe is due, and its answer is waited for.
    fn note_silence(&mut self, timeout: u32, now: Moment)
        ensures { self.new ≡ unanswered_again self.old timeout now }
    {
        self.wait = self.next_wait(timeout);
        self.since = now;
        self.unanswered = MOST_EXPIRIES.min(self.unanswered.saturating_add(1));
        self.owed = true;
    }
}

impl Connection {
    /// Asks the peer whether it is there after so many milliseconds each without a segment of it, from this moment on, while nothing else would
    /// ask it; or no more (SO_KEEPALIVE). The thirteenth time ends the connection: every call reports ETIMEDOUT.
    pub fn set_keepalive(&mut self, now: Moment, every: Option<u64>)
        ensures { self.new ≡ after_set_keepalive self.old every now }
    {
        self.alive = KeepAlive::asked(every, now);
    }

    /// A segment of the peer came.
    pub(crate) fn note_peer(&mut self, now: Moment)
        ensures { self.new ≡ record self.old { alive = heard_now self.old.alive now } }
    {
        self.alive = KeepAlive::asked(self.alive.every, now);
    }

    /// Whether nothing of ours waits to go out or to be acknowledged.
    fn rests(&self) -> bool
        ensures { result ≡ rests self.now }
    {
        self.state.may_rest() && self.sender.is_empty()
    }

    /// Until when nothing may come from the peer.
    pub(crate) fn alive_at(&self) -> Option<Moment>
        ensures { result ≡ alive_at self.now }
    {
        match self.alive.every {
            Some(every) if self.rests() => {
                Some(self.alive.since.after(self.alive.wait_of(every)))
            }
            _ => None,
        }
    }

    /// Whether nothing came for as long as that.
    pub(crate) fn is_silent(&self, now: Moment) -> bool
        ensures { result ≡ is_silent self.now now }
    {
        match self.alive_at() {
            Some(end) => end <= now,
            None => false,
        }
    }

    /// A probe of the peer is due where nothing came for so long, and one of the tail of what is outstanding.
    pub(crate) fn tick_silence(&mut self, now: Moment)
        ensures { self.new ≡ after_silence self.old now }
    {
        self.tick_rest(now);
        self.tick_tail(now);
    }

    /// A probe of the peer is due where nothing came for so long while nothing of ours waits.
    fn tick_rest(&mut self, now: Moment)
        ensures { self.new ≡ record self.old { alive = alive_after self.old now } }
    {
        if self.is_silent(now) {
            self.alive.note_silence(self.resend.timeout(), now);
        }
    }

    /// Whether a probe of the peer is due.
    pub(crate) fn is_alive_due(&self) -> bool
        ensures { result ≡ is_alive_due self.now }
    {
        self.alive.owed && self.rests()
    }
}
