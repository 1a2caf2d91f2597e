//! How a connection ends: at the end of its wait, by an error, by an abort, and after its caller closed it (RFC 9293 sections 3.6, 3.9.2.2, 3.10.4 and 3.10.5).

ghost use Rattle.std.specs.Prelude.{◌≡◌, ◌&&◌, ◌||◌, ◌==◌, false, length, if◌then◌else◌};
ghost use Rattle.tcp_state.specs.View.{is_opening, is_fin_wait_2, ends_at, is_at_end, after_stop, after_reset};
ghost use Rattle.tcp_state.specs.Unreachable.{is_unreachable, after_unreachable, unreachable_fate};
ghost use Rattle.tcp_state.specs.Calls.{aborted, aborted_at, after_abort, abort_fate, latest, after_release, after_close, close_fate};

use crate::calls::Refusal;
use crate::connection::{Connection, Fate};
use crate::state::State;
use clock::Moment;
use retransmit::Timers;
use tcp_segment::Seq;

/// How long TIME-WAIT lasts, in milliseconds: twice the maximum segment lifetime (2 MSL, RFC 9293 section 3.4.2).
const TIME_WAIT: u64 = 240_000;

/// How long FIN-WAIT-2 lasts, in milliseconds, where no caller is left to read.
const FIN_WAIT_2: u64 = 60_000;

impl Connection {
    /// Whether the connection's wait is over.
    pub(crate) fn is_at_end(&self, now: Moment) -> bool
        ensures { result ≡ is_at_end self.now now }
    {
        match self.ends_at() {
            Some(end) => end <= now,
            None => false,
        }
    }

    /// When the wait of TIME-WAIT ends, or of FIN-WAIT-2 where the caller closed the connection.
    pub(crate) fn ends_at(&self) -> Option<Moment>
        ensures { result ≡ ends_at self.now }
    {
        match self.state {
            State::TimeWait => Some(self.since.after(TIME_WAIT)),
            State::FinWait2 if self.is_released => Some(self.since.after(FIN_WAIT_2)),
            _ => None,
        }
    }

    /// The connection is CLOSED: nothing is held, owed or due, no number is outstanding, and no timer runs.
    pub(crate) fn stop(&mut self)
        ensures { self.new ≡ after_stop self.old }
    {
        self.state = State::Closed;
        self.sender.abandon();
        self.owes_ack = false;
        self.delays_ack = false;
        self.resend.stop();
        self.timers = Timers::new();
        self.unheard = None;
    }

    /// An error ends the connection: it is CLOSED, and every call reports `error` from now on.
    pub(crate) fn end_with(&mut self, error: Option<Refusal>)
        ensures { self.new ≡ after_reset self.old error }
    {
        self.stop();
        self.pending_error = error;
    }

    /// Takes an error of the network: the segment whose number is `number` can't be delivered, now or later (RFC 1122 section 4.2.3.9).
    ///
    /// In SYN-SENT it ends the connection whose SYN that is, and which has gone out: every call reports ECONNREFUSED from now on. In any
    /// other state, and of any other segment, it changes nothing. `Removed` where the connection is over.
    pub fn unreachable(&mut self, number: Seq) -> Fate
        ensures fate { result ≡ unreachable_fate self.old number.0 }
        ensures after { self.new ≡ after_unreachable self.old number.0 }
    {
        if self.is_unreachable(number) {
            self.end_with(Some(Refusal::ECONNREFUSED));
        }
        if self.is_over() {
            Fate::Removed
        } else {
            Fate::Stays
        }
    }

    /// Whether the connection is in SYN-SENT, its SYN has gone out, and has this number.
    fn is_unreachable(&self, number: Seq) -> bool
        ensures { result ≡ is_unreachable self.now number.0 }
    {
        self.state == State::SynSent
            && self.sender.outstanding() != 0
            && self.sender.una() == number
    }

    /// Ends the connection by a reset (RFC 9293 section 3.10.5): it is CLOSED, no caller has it any more, and the reset is due, and
    /// waits from `now` on.
    ///
    /// `Removed` where it is CLOSED already, and then nothing changes.
    pub fn abort(&mut self, now: Moment) -> Fate
        ensures fate { result ≡ abort_fate self.old }
        ensures after { self.new ≡ after_abort self.old now }
    {
        if self.state == State::Closed {
            return Fate::Removed;
        }
        self.reset_peer_at(now);
        Fate::Stays
    }

    /// The connection is CLOSED, and the peer is owed a reset, which waits from `now` on.
    fn reset_peer_at(&mut self, now: Moment)
        ensures { self.new ≡ aborted_at self.old now }
    {
        self.reset_peer();
        self.since = now;
    }

    /// The connection is CLOSED, and the peer is owed a reset.
    pub(crate) fn reset_peer(&mut self)
        ensures { self.new ≡ aborted self.old }
    {
        self.stop();
        self.is_released = true;
        self.owes_reset = true;
    }

    /// The caller closes the connection (RFC 9293 section 3.10.4, POSIX `close`), and no socket names it any more.
    ///
    /// `Removed` where it is CLOSED or in SYN-SENT, and then nothing changes. In SYN-RECEIVED, and where octets are unread, it is
    /// aborted. Else our side closes, and the connection goes on until it ends by itself: in FIN-WAIT-2 after a minute.
    pub fn close(&mut self, now: Moment) -> Fate
        ensures fate { result ≡ close_fate self.old }
        ensures after { self.new ≡ after_close self.old now }
    {
        match self.state {
            State::Closed | State::SynSent => return Fate::Removed,
            State::SynReceived => self.reset_peer_at(now),
            _ => self.close_opened(now),
        }
        Fate::Stays
    }

    /// Closes what is past its opening: aborts it where octets are unread, else releases it.
    fn close_opened(&mut self, now: Moment)
        requires { is_opening self.old.state ≡ false }
        ensures { self.new ≡ (if length self.old.receiving.readable == 0 then after_release self.old now else aborted_at self.old now) }
    {
        if self.receiver.is_empty() {
            self.release(now);
        } else {
            self.reset_peer_at(now);
        }
    }

    /// Our side closes, and the caller leaves the connection.
    fn release(&mut self, now: Moment)
        requires { is_opening self.old.state ≡ false }
        ensures { self.new ≡ after_release self.old now }
    {
        self.since = self.since_left(now);
        self.state = self.state.beyond_shutdown();
        self.is_released = true;
        self.update_timers(false, now);
    }

    /// From when a wait is counted where its caller leaves the connection at this moment: in FIN-WAIT-2 from then on at the earliest.
    fn since_left(&self, now: Moment) -> Moment
        ensures { result ≡ (if is_fin_wait_2 self.now.state then latest self.now.since now else self.now.since) }
    {
        if self.state == State::FinWait2 && self.since < now {
            now
        } else {
            self.since
        }
    }
}
