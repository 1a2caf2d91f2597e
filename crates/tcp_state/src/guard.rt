//! What guards a connection against segments that aren't used (RFC 5961).

ghost use Rattle.std.specs.Prelude.{◌≡◌, ◌&&◌, ◌||◌, not, false, if◌then◌else◌};
ghost use Rattle.tcp_halves.specs.Stream.{outstanding};
ghost use Rattle.tcp_state.specs.View.{is_syn_sent, is_closed};
ghost use Rattle.tcp_state.specs.Arrival.{is_too_old, is_off, is_unused, draws_one, is_opening_syn, guarded};
ghost use Rattle.tcp_state.specs.Resend.{mark_past};
ghost use Rattle.tcp_state.specs.Guard.{first_guard, counting_at, is_spent, guard_after};

use crate::arrival::Before;
use crate::connection::Connection;
use crate::state::State;
use clock::Moment;
use tcp_segment::{Seq, TcpView};

/// How many acknowledgements go out in a second, at most, that answer segments which aren't used (RFC 5961 section 7).
pub const MOST_DRAWN: u8 = 10;

/// A second, in milliseconds.
pub(crate) const SECOND: u64 = 1_000;

/// What guards a connection against segments that aren't used.
#[derive(Clone, Copy, Debug, PartialEq, Eq)]
pub struct Guard {
    /// Whether its host is on its guard.
    pub on: bool,
    /// How many acknowledgements such segments drew, none of them a second after the one before.
    pub drawn: u8,
    /// When the last of these was drawn.
    pub latest: Moment,
}

impl Guard {
    /// Nothing was drawn.
    pub(crate) fn new(on: bool) -> Guard
        ensures { result ≡ first_guard on }
    {
        Guard {
            on,
            drawn: 0,
            latest: Moment(0),
        }
    }

    /// How many of the acknowledgements that were drawn count at a moment.
    fn counting_at(self, now: Moment) -> u8
        ensures { result ≡ counting_at self now }
    {
        if now.0.saturating_sub(self.latest.0) < SECOND {
            self.drawn
        } else {
            0
        }
    }

    /// Whether one more is held back.
    fn is_spent(self, now: Moment) -> bool
        ensures { result ≡ is_spent self now }
    {
        MOST_DRAWN <= self.counting_at(now)
    }

    /// A segment was heard: it drew one, or didn't.
    fn note(&mut self, drew: bool, now: Moment)
        ensures { self.new ≡ guard_after self.old drew now }
    {
        if drew && !self.is_spent(now) {
            self.drawn = self.counting_at(now).saturating_add(1);
            self.latest = now;
        }
    }
}

impl Connection {
    /// Whether an acknowledgement is of what was not sent, or too old (RFC 5961 section 5.2).
    pub(crate) fn is_off(&self, acknowledgement: Seq) -> bool
        ensures { result ≡ is_off self.now acknowledgement.0 }
    {
        self.sender.nxt().is_before(acknowledgement) || self.is_too_old(acknowledgement)
    }

    /// Whether an acknowledgement is older than the largest window that the peer ever told is wide (MAX.SND.WND).
    fn is_too_old(&self, acknowledgement: Seq) -> bool
        ensures { result ≡ is_too_old self.now acknowledgement.0 }
    {
        self.guard.on && self.sender.max_window() < self.sender.una().past(acknowledgement)
    }

    /// Whether a segment isn't used, and draws an acknowledgement.
    fn is_unused(&self, segment: &TcpView<'_>) -> bool
        ensures { result ≡ is_unused self.now segment.now }
    {
        let flags = segment.flags();
        if flags.rst {
            return !self.is_acting_reset(segment) && self.receiver.is_in_window(segment.number());
        }
        if !self.is_acceptable(segment) {
            return true;
        }
        if flags.syn {
            return !(self.is_passive && self.state == State::SynReceived);
        }
        flags.ack && self.state != State::SynReceived && !self.is_read_on(segment.acknowledgement())
    }

    /// Whether a segment that isn't used, or asks for one, draws an acknowledgement, on guard, that isn't owed already.
    pub(crate) fn draws_one(&self, segment: &TcpView<'_>) -> bool
        ensures { result ≡ draws_one self.now segment.now }
    {
        self.guard.on
            && !self.owes_ack
            && self.state != State::SynSent
            && (self.is_unused(segment) || self.asks(segment))
    }

    /// Whether a segment is the SYN that opened the connection at a listener, and comes again.
    pub(crate) fn is_opening_syn(&self, segment: &TcpView<'_>) -> bool
        ensures { result ≡ is_opening_syn self.now segment.now }
    {
        let flags = segment.flags();
        self.is_passive
            && self.state == State::SynReceived
            && flags.syn
            && !flags.ack
            && !flags.rst
            && !self.is_acceptable(segment)
            && segment.number() + 1 == self.receiver.rnext()
    }

    /// What a segment leaves that was heard: an acknowledgement is owed where it asks for one; on guard what it drew may be held back, and the SYN-ACK goes out again in place of one.
    pub(crate) fn note_guard(&mut self, before: &Before, now: Moment)
        ensures { self.new ≡ guarded before.now self.old now }
    {
        self.answer_asking(before.asks);
        if before.draws_one || before.asks_again {
            self.answer_unused(before.draws_one, before.asks_again, now);
        }
        self.guard.note(before.draws_one, now);
    }

    /// An acknowledgement is owed to a segment that asks for it, where any may be.
    fn answer_asking(&mut self, asks: bool)
        ensures { self.new ≡ record self.old { owes_ack = self.old.owes_ack || (asks && not (is_syn_sent self.old.state || is_closed self.old.state)) } }
    {
        if asks && self.state != State::SynSent && self.state != State::Closed {
            self.owes_ack = true;
        }
    }

    /// What such a segment draws is held back, or it draws the SYN-ACK again, or an acknowledgement as it is.
    #[cold]
    #[inline(never)]
    fn answer_unused(&mut self, draws_one: bool, asks_again: bool, now: Moment)
        ensures { self.new ≡ (let held_back = draws_one && is_spent self.old.guard now in record self.old {
          owes_ack = if held_back || asks_again then false else self.old.owes_ack;
          resend = record self.old.resend { mark = if asks_again && not held_back then mark_past 0 (outstanding self.old.sending) else self.old.resend.mark };
        }) }
    {
        let is_held_back = draws_one && self.guard.is_spent(now);
        if asks_again && !is_held_back {
            self.resend.mark_all(self.sender.outstanding());
        }
        if is_held_back || asks_again {
            self.owes_ack = false;
        }
    }
}
