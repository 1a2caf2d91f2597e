//! The timers: when each runs, and what a tick does (RFC 6298 section 5, RFC 9293 sections 3.8.1, 3.8.6 and 3.10.8).

ghost use Rattle.std.specs.Prelude.{◌≡◌, ◌==◌, ◌&&◌, ◌||◌, not, true, false, None, if◌then◌else◌};
ghost use Rattle.clock.specs.Moments.{has_come};
ghost use Rattle.tcp_halves.specs.Stream.{outstanding};
ghost use Rattle.tcp_halves.specs.Windows.{waits_for_more};
ghost use Rattle.tcp_state.specs.New.{waits_no_longer};
ghost use Rattle.tcp_state.specs.Selective.{allowance};
ghost use Rattle.retransmit.specs.Deadlines.{next_of};
ghost use Rattle.tcp_state.specs.View.{IsSound, is_opening};
ghost use Rattle.tcp_state.specs.Alive.{after_silence};
ghost use Rattle.tcp_state.specs.Timing.{has_unacknowledged, probes, awaits_more, running, retransmission_timer, probe_timer, override_timer, interval_of, awaits_first, unheard_since, clocked, expires_for_good, is_silent_for_good, gives_up, retransmission_expired, probe_expired, after_expiry, delayed_ack_expired, override_expired, after_timers, after_expiries, after_tick, tick_fate, deadline};

use crate::calls::Refusal;
use crate::connection::{Connection, Fate};
use crate::resend::MOST_EXPIRIES;
use crate::state::State;
use clock::{Moment, sooner};
use retransmit::{TimerKind, Timers};

/// How long an acknowledgement waits for a second segment, in milliseconds (RFC 9293 section 3.8.6.3 allows 500).
const DELAYED_ACK_WAIT: u64 = 200;

/// How long new octets wait for more, in milliseconds (RFC 9293 section 3.8.6.2.1: between 100 and 1,000).
const OVERRIDE_WAIT: u64 = 500;

impl Connection {
    /// Whether octets, or the FIN of a closed side, are unacknowledged or unsent.
    fn has_unacknowledged(&self) -> bool
        ensures { result ≡ has_unacknowledged self.now }
    {
        !self.sender.is_empty() || self.state.awaits_fin_ack()
    }

    /// Whether the peer's window is closed and probed.
    pub(crate) fn probes(&self) -> bool
        ensures { result ≡ probes self.now }
    {
        !self.state.is_opening() && self.sender.window() == 0 && self.has_unacknowledged()
    }

    /// Whether new octets wait for more.
    pub(crate) fn awaits_more(&self) -> bool
        ensures { result ≡ awaits_more self.now }
    {
        if self.state.is_opening() {
            return false;
        }
        let allowed = self.allowance();
        let sendable = self.sender.sendable(allowed);
        sendable > 0 && sendable < self.sender.smss() && self.awaits_full(allowed)
    }

    /// Whether new octets that are fewer than a segment has wait for more.
    #[inline(never)]
    fn awaits_full(&self, allowed: u32) -> bool
        requires { allowed ≡ allowance self.now }
        ensures { result ≡ waits_for_more self.now.sending (allowance self.now) (waits_no_longer self.now) }
    {
        self.sender
            .waits_for_more(allowed, self.waits_no_longer(allowed))
    }

    /// Whether nothing of ours waits to go out or to be acknowledged: the connection is open, and no octet is held and no FIN unacknowledged.
    pub(crate) fn is_idle(&self) -> bool
        ensures value { result ≡ not (is_opening self.now.state || has_unacknowledged self.now) }
        ensures sound { IsSound self.now }
    {
        self.sender.is_empty() && !self.state.is_opening() && !self.state.awaits_fin_ack()
    }

    /// At the end of an event: the timers run, stop or begin as the connection wants them. `moved` tells whether the event moved
    /// SND.UNA.
    pub(crate) fn update_timers(&mut self, moved: bool, now: Moment)
        ensures { self.new ≡ clocked moved self.old now }
    {
        let awaits_second = self.delays_ack && !self.owes_ack;
        run_while(
            awaits_second,
            &mut self.timers.delayed_ack,
            now,
            DELAYED_ACK_WAIT,
        );
        self.update_sending_timers(moved, now);
    }

    /// The timers for what is sent run, stop or begin. Most connections have nothing to send at most events.
    fn update_sending_timers(&mut self, moved: bool, now: Moment)
        ensures { self.new ≡ record self.old { resend = record self.old.resend { interval = interval_of self.old; owes_probe = self.old.resend.owes_probe && probes self.old }; timers = record self.old.timers { retransmission = retransmission_timer self.old moved now; probe = probe_timer self.old now; overriding = override_timer self.old now }; unheard = unheard_since self.old now } }
    {
        if self.is_idle() {
            self.stop_sending_timers();
        } else {
            self.run_sending_timers(moved, now);
        }
    }

    /// No timer runs for what is sent, since there is nothing; that of octets that waited for more stays as it is.
    fn stop_sending_timers(&mut self)
        ensures { self.new ≡ record self.old { resend = record self.old.resend { interval = self.old.resend.timeout.rto; owes_probe = false }; timers = record self.old.timers { retransmission = None; probe = None }; unheard = None } }
    {
        self.resend.update_probing(false, false);
        self.timers.retransmission = None;
        self.timers.probe = None;
        self.unheard = None;
    }

    /// The timers for what is sent run where it waits for something.
    #[inline(never)]
    fn run_sending_timers(&mut self, moved: bool, now: Moment)
        ensures { self.new ≡ record self.old { resend = record self.old.resend { interval = interval_of self.old; owes_probe = self.old.resend.owes_probe && probes self.old }; timers = record self.old.timers { retransmission = retransmission_timer self.old moved now; probe = probe_timer self.old now; overriding = override_timer self.old now }; unheard = unheard_since self.old now } }
    {
        if self.flows() {
            self.note_flow(now);
        } else {
            self.update_waits(now);
        }
        self.run_expiry_timers(moved, now);
    }

    /// Whether new octets fill a segment that may go out, or none may and an acknowledgement is awaited: then none of them wait for more, and a segment
    /// that takes numbers is due as long as nothing is outstanding.
    fn flows(&self) -> bool
        ensures more { result ≡ true → awaits_more self.now ≡ false }
        ensures first { result ≡ true → awaits_first self.now ≡ (outstanding self.now.sending == 0) }
    {
        if self.state.is_opening() {
            return false;
        }
        let sendable = self.sender.sendable(self.allowance());
        if sendable == 0 {
            self.sender.outstanding() > 0
        } else {
            self.sender.smss() <= sendable
        }
    }

    /// Since when such a segment has been due, where that is told by whether anything is outstanding, and no new octets wait for more.
    fn note_flow(&mut self, now: Moment)
        requires more { awaits_more self.old ≡ false }
        requires first { awaits_first self.old ≡ (outstanding self.old.sending == 0) }
        ensures { self.new ≡ record self.old { timers = record self.old.timers { overriding = override_timer self.old now }; unheard = unheard_since self.old now } }
    {
        let is_due = self.sender.outstanding() == 0;
        self.note_unheard(is_due, now);
    }

    /// Since when a segment that takes numbers has been due, and until when new octets wait for more.
    #[inline(never)]
    fn update_waits(&mut self, now: Moment)
        ensures { self.new ≡ record self.old { timers = record self.old.timers { overriding = override_timer self.old now }; unheard = unheard_since self.old now } }
    {
        self.update_unheard(now);
        self.start_override(now);
    }

    /// The timer of what is outstanding, and that of the probe.
    fn run_expiry_timers(&mut self, moved: bool, now: Moment)
        ensures { self.new ≡ record self.old { resend = record self.old.resend { interval = interval_of self.old; owes_probe = self.old.resend.owes_probe && probes self.old }; timers = record self.old.timers { retransmission = retransmission_timer self.old moved now; probe = probe_timer self.old now } } }
    {
        let is_probing = self.probes();
        let retransmits = self.sender.outstanding() > 0 && !is_probing;
        let timeout = u64::from(self.resend.timeout());
        self.resend
            .update_probing(is_probing, self.timers.probe.is_some());
        if moved {
            self.timers.clear(TimerKind::Retransmission);
        }
        run_while(retransmits, &mut self.timers.retransmission, now, timeout);
        run_while(is_probing, &mut self.timers.probe, now, timeout);
    }

    /// Whether a segment that takes numbers is due while nothing is outstanding.
    fn awaits_first(&self) -> bool
        ensures { result ≡ awaits_first self.now }
    {
        self.sender.outstanding() == 0
            && (self.state.is_opening()
                || self.sends_new(self.allowance())
                || self.sends_fin()
                || (self.resend.owes_probe() && self.probes()))
    }

    /// Since when such a segment has been due: that moment stays as long as one is, and is this one where the wait begins.
    fn update_unheard(&mut self, now: Moment)
        ensures { self.new ≡ record self.old { unheard = unheard_since self.old now } }
    {
        let is_due = self.awaits_first();
        self.note_unheard(is_due, now);
    }

    /// The same, where it is known whether one is due.
    fn note_unheard(&mut self, is_due: bool, now: Moment)
        requires { is_due ≡ awaits_first self.old }
        ensures { self.new ≡ record self.old { unheard = unheard_since self.old now } }
    {
        if !is_due {
            self.unheard = None;
        } else if self.unheard.is_none() {
            self.unheard = Some(now);
        }
    }

    /// New octets wait no longer than so long from now on. Once the timer runs, only their going out ends it.
    fn start_override(&mut self, now: Moment)
        ensures { self.new ≡ record self.old { timers = record self.old.timers { overriding = override_timer self.old now } } }
    {
        if self.timers.overriding.is_none() && self.awaits_more() {
            self.timers
                .set(TimerKind::Override, now.after(OVERRIDE_WAIT));
        }
    }

    /// Lets the timers act whose moment has come: what is outstanding goes out again, a closed window or a silent peer is probed, an
    /// acknowledgement or octets that waited are due; or the connection's wait is over, and it is CLOSED without an error; or it is
    /// given up, and every call reports ETIMEDOUT from now on.
    ///
    /// `Removed` where that was the end of one that its caller closed, or that a listener opened and that was not established.
    pub fn tick(&mut self, now: Moment) -> Fate
        ensures fate { result ≡ tick_fate self.old now }
        ensures after { self.new ≡ after_tick self.old now }
    {
        if self.is_at_end(now) {
            self.stop();
            return left_if(self.is_released);
        }
        if self.gives_up(now) {
            let is_left = self.is_released || (self.is_passive && self.state == State::SynReceived);
            self.end_with(Some(Refusal::ETIMEDOUT));
            return left_if(is_left);
        }
        self.tick_on(now);
        Fate::Stays
    }

    /// Asks a peer that said nothing for too long, sends the last segment again of which nothing was heard, and lets the timers act whose moment has come.
    fn tick_on(&mut self, now: Moment)
        requires { gives_up self.old now ≡ false }
        ensures { self.new ≡ after_expiries (after_silence self.old now) now }
    {
        self.tick_silence(now);
        self.tick_expiries(now);
    }

    /// Lets the timers act whose moment has come.
    fn tick_expiries(&mut self, now: Moment)
        requires { expires_for_good self.old now ≡ false }
        ensures { self.new ≡ after_expiries self.old now }
    {
        if self.has_come(now) {
            self.tick_timers(now);
            self.update_timers(false, now);
        }
    }

    /// Whether the moment of a timer has come.
    fn has_come(&self, now: Moment) -> bool
        ensures { result ≡ has_come (next_of self.now.timers) now }
    {
        match self.timers.next() {
            Some(deadline) => deadline <= now,
            None => false,
        }
    }

    /// Whether this would be one expiry without progress too many, or one silence.
    fn gives_up(&self, now: Moment) -> bool
        ensures { result ≡ gives_up self.now now }
    {
        self.expires_for_good(now) || self.is_silent_for_good(now)
    }

    /// Whether this would be one expiry without progress too many.
    fn expires_for_good(&self, now: Moment) -> bool
        ensures { result ≡ expires_for_good self.now now }
    {
        let expires = self.timers.due(TimerKind::Retransmission, now)
            || self.timers.due(TimerKind::Probe, now);
        expires && MOST_EXPIRIES <= self.resend.expiries()
    }

    /// Whether the peer would be asked once too often.
    fn is_silent_for_good(&self, now: Moment) -> bool
        ensures { result ≡ is_silent_for_good self.now now }
    {
        self.is_silent(now) && MOST_EXPIRIES <= self.alive.unanswered
    }

    /// Lets each timer act whose moment has come, once.
    fn tick_timers(&mut self, now: Moment)
        requires { expires_for_good self.old now ≡ false }
        ensures { self.new ≡ after_timers self.old now }
    {
        self.tick_expiry(now);
        self.tick_delayed_ack(now);
        self.tick_override(now);
    }

    /// The retransmission timer or the probe timer expires.
    fn tick_expiry(&mut self, now: Moment)
        requires { expires_for_good self.old now ≡ false }
        ensures { self.new ≡ after_expiry self.old now }
    {
        if self.timers.due(TimerKind::Retransmission, now) {
            let outstanding = self.sender.outstanding();
            self.resend.expire(self.congestion.repairs(), outstanding);
            self.timers.clear(TimerKind::Retransmission);
            self.congestion.timeout(outstanding);
        } else if self.timers.due(TimerKind::Probe, now) {
            self.resend.probe();
            let deadline = now.after(u64::from(self.resend.interval()));
            self.timers.set(TimerKind::Probe, deadline);
        }
    }

    /// An acknowledgement has waited long enough.
    fn tick_delayed_ack(&mut self, now: Moment)
        ensures { self.new ≡ delayed_ack_expired self.old now }
    {
        if self.timers.due(TimerKind::DelayedAck, now) && self.delays_ack {
            self.owes_ack = true;
        }
    }

    /// New octets have waited long enough.
    fn tick_override(&mut self, now: Moment)
        ensures { self.new ≡ override_expired self.old now }
    {
        if self.timers.due(TimerKind::Override, now) {
            self.resend.begin_override();
            self.timers.clear(TimerKind::Override);
        }
    }

    /// The moment at which a tick would do something.
    pub fn deadline(&self) -> Option<Moment>
        ensures { result ≡ deadline self.now }
    {
        sooner(
            sooner(self.timers.next(), self.ends_at()),
            sooner(self.alive_at(), self.tail_at()),
        )
    }
}

/// The place is free where nobody has the connection any more.
fn left_if(is_left: bool) -> Fate
    ensures { result ≡ (if is_left then Fate.Removed else Fate.Stays) }
{
    if is_left { Fate::Removed } else { Fate::Stays }
}

/// A timer runs where something waits for it: it goes on where it runs already, and else begins.
fn run_while(waits: bool, timer: &mut Option<Moment>, now: Moment, milliseconds: u64)
    ensures { timer.new ≡ (if waits then running timer.old now milliseconds else None) }
{
    if !waits {
        *timer = None;
    } else if timer.is_none() {
        *timer = Some(now.after(milliseconds));
    }
}
