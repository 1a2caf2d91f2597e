//! What an open connection hears most of the time, taken in few steps: octets that stand next in order, an acknowledgement of octets, or both, and nothing
//! beside them.

ghost use Rattle.std.specs.Prelude.{◌≡◌, ◌≤◌, ◌-◌, length, true, false};
ghost use Rattle.tcp_state.specs.View.{IsSound};
ghost use Rattle.tcp_state.specs.Arrival.{fate, after_segment_at};
ghost use Rattle.tcp_state.specs.Plain.{is_steady, has_ack_alone, reports_nothing, is_plain, brings_octets, acknowledges_octets};
ghost use Rattle.tcp_state.specs.Resend.{resend_acknowledged};
ghost use Rattle.tcp_halves.specs.Stream.{outstanding};
ghost use Rattle.tcp_halves.specs.declared.buffers.TheConstants.{LARGEST_CAPACITY};
ghost use Rattle.congestion.specs.Events.{after_event};
ghost use Rattle.congestion.specs.Events.Event.{NewAck};

use crate::connection::{Connection, Fate};
use crate::state::State;
use clock::Moment;
use tcp_segment::{Flags, TcpView};

/// Which segments are plain. What tells them from others at most connections is asked first.
impl Connection {
    /// Whether a segment comes at RCV.NXT with ACK alone and reports nothing, while the connection is open.
    pub(crate) fn is_plain(&self, segment: &TcpView<'_>) -> bool
        ensures value { result ≡ is_plain self.now segment.now }
        ensures sound { IsSound self.now }
    {
        self.is_steady()
            && has_ack_alone(segment.flags())
            && segment.number() == self.receiver.rnext()
            && self.reports_nothing(segment)
    }

    /// Whether both sides are open, and both windows.
    fn is_steady(&self) -> bool
        ensures { result ≡ is_steady self.now }
    {
        self.state == State::Established && self.sender.window() != 0 && self.receiver.window() > 0
    }

    /// Whether a segment reports no octets that are kept ahead of a gap, or isn't asked.
    fn reports_nothing(&self, segment: &TcpView<'_>) -> bool
        ensures { result ≡ reports_nothing self.now segment.now }
    {
        !self.selects() || segment.blocks().is_empty()
    }

    /// Whether a segment brings octets that stand next in order, and tells nothing else but the window.
    pub(crate) fn brings_octets(&self, segment: &TcpView<'_>) -> bool
        ensures { result ≡ brings_octets self.now segment.now }
    {
        !segment.payload().is_empty() && segment.acknowledgement() == self.sender.una()
    }

    /// Whether a segment acknowledges octets, in no recovery and behind no probe of the tail; it may bring some, too.
    pub(crate) fn acknowledges_octets(&self, segment: &TcpView<'_>) -> bool
        ensures { result ≡ acknowledges_octets self.now segment.now }
    {
        self.sender.is_new(segment.acknowledgement())
            && !self.congestion.is_recovering()
            && self.resend.tail() == 0
    }
}

/// What they leave. The other steps by which any segment is taken would change nothing.
impl Connection {
    /// Takes octets that stand next in order, and the window.
    pub(crate) fn take_octets(&mut self, now: Moment, segment: &TcpView<'_>) -> Fate
        requires plain { is_plain self.old segment.now ≡ true }
        requires octets { brings_octets self.old segment.now ≡ true }
        requires sound { IsSound self.old }
        ensures fate { result ≡ fate self.old segment.now }
        ensures after { self.new ≡ after_segment_at self.old segment.now now }
    {
        self.hear_window(segment);
        self.hear_octets(segment);
        self.note_peer(now);
        self.update_timers(false, now);
        Fate::Stays
    }

    /// Takes an acknowledgement of octets, the window, and octets that stand next in order, if there are any.
    pub(crate) fn take_ack(&mut self, now: Moment, segment: &TcpView<'_>) -> Fate
        requires plain { is_plain self.old segment.now ≡ true }
        requires octets { acknowledges_octets self.old segment.now ≡ true }
        requires sound { IsSound self.old }
        ensures fate { result ≡ fate self.old segment.now }
        ensures after { self.new ≡ after_segment_at self.old segment.now now }
    {
        let held = self.sender.held_len();
        self.move_una(segment.acknowledgement());
        self.hear_window(segment);
        self.hear_octets(segment);
        self.count_acknowledged(held, now);
        self.note_peer(now);
        self.update_timers(true, now);
        Fate::Stays
    }

    /// Octets are acknowledged of so many that were held: that is progress, and the congestion window takes them.
    fn count_acknowledged(&mut self, held: usize, now: Moment)
        requires { held ≤ LARGEST_CAPACITY }
        ensures { self.new ≡ record self.old {
          resend = resend_acknowledged self.old.resend self.old.sending.una false now;
          congestion = after_event self.old.congestion (NewAck (held - length self.old.sending.held) (outstanding self.old.sending));
        } }
    {
        let octets = held.saturating_sub(self.sender.held_len()) as u32;
        self.resend.acknowledge(self.sender.una(), false, now);
        self.congestion.acked(octets, self.sender.outstanding());
    }
}

/// Whether ACK is set, and of the other control bits none that acts.
fn has_ack_alone(flags: Flags) -> bool
    ensures { result ≡ has_ack_alone flags }
{
    flags.ack && !flags.syn && !flags.fin && !flags.rst
}
