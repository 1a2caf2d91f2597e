//! What an arriving segment is to the congestion window, and what goes out again by it (RFC 5681 sections 3.1 and 3.2, RFC 6582, RFC 6675).

ghost use Rattle.std.specs.Prelude.{◌≡◌, ◌-◌, true, false, ◌&&◌, if◌then◌else◌, ◌==◌};
ghost use Rattle.tcp_state.specs.View.{is_opening, is_closed};
ghost use Rattle.tcp_state.specs.Arrival.{is_moved, signal_of, tells_loss, report_signal, given_back, ends_tail, whole_signal, resend_signalled};
ghost use Rattle.congestion.specs.Events.{after_event};
ghost use Rattle.congestion.specs.Events.Event.{PartialAck, Duplicate};
ghost use Rattle.congestion.specs.Control.{is_selective};
ghost use Rattle.congestion.specs.Window.{is_recovering};
ghost use Rattle.tcp_state.specs.Resend.{resend_first, resend_ends, excused_by, gives_back};
ghost use Rattle.tcp_state.specs.Selective.{selects};
ghost use Rattle.tcp_state.specs.Congestion.{after_signal};
ghost use Rattle.tcp_state.specs.Congestion.Signal.{Counts};
ghost use Rattle.tcp_state.specs.declared.state.State.{State};
ghost use Rattle.tcp_halves.specs.Stream.{outstanding};

use crate::arrival::Before;
use crate::connection::Connection;
use crate::needless::came_twice;
use crate::state::State;
use congestion::Cwnd;

impl Connection {
    /// The congestion window takes what a segment is to it, and what it gives back.
    pub(crate) fn note_news(&mut self, before: &Before, moved: bool, reports_more: bool)
        requires { moved ≡ is_moved before.now self.old }
        ensures { self.new ≡ (
            let resend = excused_by before.now.needless (resend_signalled self.old.resend (signal_of before.now self.old reports_more) self.old.congestion (outstanding self.old.sending)) in record self.old {
              resend = resend;
              congestion = given_back (gives_back before.now.needless resend) (after_signal self.old.congestion (signal_of before.now self.old reports_more) self.old.sending.smss self.old.resend.syn_resent);
            }) }
    {
        self.note_signal(before, moved, reports_more);
        if before.needless {
            self.note_needless();
        }
    }

    /// The congestion window takes what a segment is to it; by the third duplicate ACK the segment at SND.UNA goes out again (fast retransmit, RFC 5681 section 3.2), by a partial ACK, too, and by reports that tell its loss.
    fn note_signal(&mut self, before: &Before, moved: bool, reports_more: bool)
        requires { moved ≡ is_moved before.now self.old }
        ensures { self.new ≡ record self.old {
          resend = resend_signalled self.old.resend (signal_of before.now self.old reports_more) self.old.congestion (outstanding self.old.sending);
          congestion = after_signal self.old.congestion (signal_of before.now self.old reports_more) self.old.sending.smss self.old.resend.syn_resent;
        } }
    {
        if self.state == State::Closed {
            return;
        }
        if moved {
            self.note_acknowledged(before, reports_more);
        } else if before.is_duplicate {
            self.note_duplicate();
        } else if reports_more {
            self.note_report();
        }
    }

    /// A duplicate ACK counts: the third tells the loss of the segment at SND.UNA.
    fn note_duplicate(&mut self)
        ensures { self.new ≡ record self.old {
          resend = resend_signalled self.old.resend (Counts (Duplicate (outstanding self.old.sending))) self.old.congestion (outstanding self.old.sending);
          congestion = after_event self.old.congestion (Duplicate (outstanding self.old.sending));
        } }
    {
        let outstanding = self.sender.outstanding();
        if self.congestion.duplicate(outstanding) {
            self.resend
                .mark_lost(self.congestion.repairs(), outstanding);
        }
    }

    /// A report counts: it tells the loss of the segment at SND.UNA, or is one before that.
    fn note_report(&mut self)
        ensures { self.new ≡ record self.old {
          resend = resend_signalled self.old.resend (report_signal self.old) self.old.congestion (outstanding self.old.sending);
          congestion = after_signal self.old.congestion (report_signal self.old) self.old.sending.smss self.old.resend.syn_resent;
        } }
    {
        if !self.tells_loss() {
            return self.note_early();
        }
        let outstanding = self.sender.outstanding();
        self.congestion.lost(outstanding);
        self.resend.mark_lost(true, outstanding);
    }

    /// A report counts that tells no loss: as a duplicate ACK, but for the third and those behind it.
    fn note_early(&mut self)
        requires { tells_loss self.old ≡ false }
        ensures { self.new ≡ record self.old {
          resend = resend_signalled self.old.resend (report_signal self.old) self.old.congestion (outstanding self.old.sending);
          congestion = after_signal self.old.congestion (report_signal self.old) self.old.sending.smss self.old.resend.syn_resent;
        } }
    {
        if !self.congestion.is_third_next() {
            self.note_duplicate();
        }
    }

    /// The congestion window begins where our SYN is acknowledged, and else takes the octets that are, and behind them what is reported.
    fn note_acknowledged(&mut self, before: &Before, reports_more: bool)
        requires moved { is_moved before.now self.old ≡ true }
        requires open { is_closed self.old.state ≡ false }
        ensures { self.new ≡ record self.old {
          resend = resend_signalled self.old.resend (signal_of before.now self.old reports_more) self.old.congestion (outstanding self.old.sending);
          congestion = after_signal self.old.congestion (signal_of before.now self.old reports_more) self.old.sending.smss self.old.resend.syn_resent;
        } }
    {
        if before.state.is_opening() {
            let (control, smss) = (self.congestion.control(), self.sender.smss() as u16);
            self.congestion = Cwnd::new(control, smss, self.resend.is_syn_resent());
            return;
        }
        let octets = before.held.saturating_sub(self.sender.held_len() as u32);
        if self.is_partial() {
            self.note_partial(octets);
        } else {
            self.note_whole(before, octets, reports_more);
        }
    }

    /// An ACK of so many new octets came in a recovery that goes on.
    fn note_partial(&mut self, octets: u32)
        ensures { self.new ≡ (if selects self.old then self.old else record self.old { resend = resend_first self.old.resend (outstanding self.old.sending); congestion = after_event self.old.congestion (PartialAck octets) }) }
    {
        if !self.selects() {
            self.congestion.partly_acked(octets);
            self.resend.mark_first(self.sender.outstanding());
        }
    }

    /// An ACK of so many new octets came that ends the recovery, if one runs; what it reports counts behind it.
    fn note_whole(&mut self, before: &Before, octets: u32, reports_more: bool)
        ensures { self.new ≡ record self.old {
          resend = resend_signalled self.old.resend (whole_signal before.now self.old octets reports_more) self.old.congestion (outstanding self.old.sending);
          congestion = after_signal self.old.congestion (whole_signal before.now self.old octets reports_more) self.old.sending.smss self.old.resend.syn_resent;
        } }
    {
        let outstanding = self.sender.outstanding();
        if !reports_more && self.ends_tail(before) {
            self.congestion.lost(before.tail);
            self.congestion.acked(octets, outstanding);
            return;
        }
        self.end_repair();
        self.congestion.acked(octets, outstanding);
        if reports_more {
            self.note_report();
        }
    }

    /// Whether an ACK tells that a probe of the tail brought what was lost.
    fn ends_tail(&self, before: &Before) -> bool
        ensures { result ≡ ends_tail before.now self.now }
    {
        self.selects()
            && before.tail > 0
            && self.resend.tail() == 0
            && !self.congestion.is_recovering()
            && !came_twice(self.sender.una(), &before.blocks)
    }

    /// A recovery is over, if one runs; where reports ruled it, nothing goes out again by its mark.
    fn end_repair(&mut self)
        ensures { self.new ≡ record self.old { resend = if is_selective self.old.congestion.control && is_recovering self.old.congestion then resend_ends self.old.resend else self.old.resend } }
    {
        if self.congestion.control().is_selective() && self.congestion.is_recovering() {
            self.resend.end_repair();
        }
    }
}
