//! What an arriving segment does (RFC 9293 section 3.10.7).

ghost use Rattle.std.specs.Prelude.{◌≡◌, ◌≤◌, ◌-◌, [], min, true, false, ◌&&◌, ◌||◌, not, if◌then◌else◌, ◌==◌};
ghost use Rattle.tcp_state.specs.View.{is_opening, is_syn_sent, is_syn_received, is_closed, awaits_fin_ack, after_reset};
ghost use Rattle.tcp_state.specs.Arrival.{after_segment, scales_with, after_first_syn, after_syn_ack, owing_ack, after_establishment, after_ack, is_off, is_read_on, after_window, after_text, after_acknowledging_segment, is_acceptable_to, fin_acknowledged, after_new_ack, after_fin, reset_error, after_rst_in_syn_sent, after_rst, is_acting_reset, ends_by_reset, is_right_syn_ack, is_simultaneous_syn, after_simultaneous_syn, fate, after_segment_at, after_heard, is_lost, is_read, brings_more, after_lost, repeats_fin, is_rejected, ends_opening, is_of_fin, may_delay, asks, answers_probe, octets_outstanding, is_duplicate, counts_duplicates, before, is_moved, reopens, resend_heard, timed_by, begins_wait};
ghost use Rattle.congestion.specs.Window.{is_recovering};
ghost use Rattle.tcp_halves.specs.Stream.{after_octets};
ghost use Rattle.tcp_state.specs.Reporting.{noted};
ghost use Rattle.tcp_state.specs.Selective.{selects};
ghost use Rattle.tcp_state.specs.declared.state.State.{State};
ghost use Rattle.tcp_segment.specs.Wire.{past};
ghost use Rattle.tcp_halves.specs.declared.buffers.TheConstants.{CAPACITY};
ghost use Rattle.tcp_halves.specs.Stream.{outstanding, is_new_ack};

use crate::connection::{Connection, Fate};
use crate::state::State;
use clock::Moment;
use retransmit::Timers;
use tcp_segment::{Blocks, Seq, TcpView};

/// What the clock and the congestion window have to know of a connection before a segment and of the segment.
#[derive(Drop)]
pub(crate) struct Before {
    /// The state that the connection was in.
    pub(crate) state: State,
    /// SND.UNA as it was.
    una: Seq,
    /// Whether the reset of an abort was owed.
    owes_reset: bool,
    /// Whether the segment brings the peer's FIN once more in TIME-WAIT.
    repeats_fin: bool,
    /// Whether the segment shows that a peer whose window is closed is there.
    answers_probe: bool,
    /// Whether the segment is a duplicate ACK that counts.
    pub(crate) is_duplicate: bool,
    /// Whether it counts as one where it reports what nothing reported before.
    pub(crate) counts_reports: bool,
    /// What it reports.
    pub(crate) blocks: Blocks,
    /// How many octets were held.
    pub(crate) held: u32,
    /// The number behind all that was outstanding when a probe of the tail went out, as a distance past SND.UNA as it was; 0 where none did, or all of it was acknowledged.
    pub(crate) tail: u32,
    /// Whether it tells that octets went out again which needn't have.
    pub(crate) needless: bool,
    /// Whether it asks for an acknowledgement, by the number before RCV.NXT.
    pub(crate) asks: bool,
    /// Whether it isn't used or asks for one, on guard, and draws an acknowledgement that isn't owed already.
    pub(crate) draws_one: bool,
    /// Whether it is, on guard, the SYN that opened the connection at a listener, and comes again.
    pub(crate) asks_again: bool,
}

impl Connection {
    /// Takes a segment from the peer, and answers what becomes of the connection's place.
    pub fn segment(&mut self, now: Moment, segment: &TcpView<'_>) -> Fate
        ensures fate { result ≡ fate self.old segment.now }
        ensures after { self.new ≡ after_segment_at self.old segment.now now }
    {
        if self.is_plain(segment) {
            if self.brings_octets(segment) {
                return self.take_octets(now, segment);
            }
            if self.acknowledges_octets(segment) {
                return self.take_ack(now, segment);
            }
        }
        self.take_any(now, segment)
    }

    /// Takes any segment, by all the steps that one may ask for.
    #[inline(never)]
    fn take_any(&mut self, now: Moment, segment: &TcpView<'_>) -> Fate
        ensures fate { result ≡ fate self.old segment.now }
        ensures after { self.new ≡ after_segment_at self.old segment.now now }
    {
        if self.state == State::Closed {
            return Fate::Stays;
        }
        let before = self.before(segment);
        let fate = self.hear(segment);
        if fate != Fate::Rejected {
            self.note_heard(&before, now);
        }
        fate
    }

    /// What the clock and the congestion window have to know before a segment is heard.
    fn before(&self, segment: &TcpView<'_>) -> Before
        ensures { result ≡ before self.now segment.now }
    {
        let blocks = self.blocks_told(segment);
        let needless = self.tells_needless(segment, &blocks);
        Before {
            state: self.state,
            una: self.sender.una(),
            owes_reset: self.owes_reset,
            repeats_fin: self.repeats_fin(segment),
            answers_probe: self.answers_probe(segment),
            is_duplicate: self.is_duplicate(segment) && self.counts_duplicates(),
            counts_reports: self.counts_reports(),
            blocks,
            held: self.sender.held_len() as u32,
            tail: self.resend.tail(),
            needless,
            asks: self.asks(segment),
            draws_one: self.draws_one(segment),
            asks_again: self.guard.on && self.is_opening_syn(segment),
        }
    }

    /// Whether a segment is a duplicate ACK (RFC 5681 section 2): octets are outstanding, and not only our FIN. What tells it from most segments is asked first.
    #[tactic(auto, using(crate::proofs::Repeated::brings_octets, crate::proofs::Repeated::moves_on))]
    fn is_duplicate(&self, segment: &TcpView<'_>) -> bool
        ensures { result ≡ is_duplicate self.now segment.now }
    {
        if !segment.payload().is_empty() {
            return false;
        }
        if segment.acknowledgement() != self.sender.una() {
            return false;
        }
        self.repeats(segment)
    }

    /// Whether it is one, by all that makes one.
    fn repeats(&self, segment: &TcpView<'_>) -> bool
        ensures { result ≡ is_duplicate self.now segment.now }
    {
        !self.state.is_opening()
            && self.is_read(segment)
            && self.octets_outstanding() > 0
            && segment.payload().is_empty()
            && !segment.flags().fin
            && segment.acknowledgement() == self.sender.una()
            && self.sender.window_in(segment.window()) == self.sender.window()
            && !self.receiver.stands_before(segment.number())
    }

    /// Whether a duplicate ACK counts: where losses are repaired, not below the end of the last recovery or of what was outstanding at an expiry
    /// (RFC 6582 section 3.2, steps 2 and 4), nor while the peer's closed window is probed, nor where reports count instead.
    fn counts_duplicates(&self) -> bool
        ensures { result ≡ counts_duplicates self.now }
    {
        !self.congestion.repairs()
            || (self.congestion.is_recovering() || self.resend.recover() == 0)
                && !self.probes()
                && !self.selects()
    }

    /// How many octets are outstanding, past the opening: our FIN, behind all that are held, is none.
    fn octets_outstanding(&self) -> usize
        ensures { result ≡ octets_outstanding self.now }
    {
        let outstanding = self.sender.outstanding() as usize;
        self.sender.held_len().min(outstanding)
    }

    /// Whether a segment that takes no number stands one before RCV.NXT, past the opening.
    pub(crate) fn asks(&self, segment: &TcpView<'_>) -> bool
        ensures { result ≡ asks self.now segment.now }
    {
        !segment.flags().rst
            && !self.state.is_opening()
            && segment.span() == 0
            && self.receiver.stands_before(segment.number())
    }

    /// Whether a segment shows that a peer whose window is closed is there.
    fn answers_probe(&self, segment: &TcpView<'_>) -> bool
        ensures { result ≡ answers_probe self.now segment.now }
    {
        !self.state.is_opening()
            && self.sender.window() == 0
            && self.is_acceptable(segment)
            && segment.flags().ack
            && !segment.flags().rst
    }

    /// A segment was heard at this moment.
    fn note_heard(&mut self, before: &Before, now: Moment)
        ensures { self.new ≡ timed_by before.now self.old now }
    {
        let moved = before.una != self.sender.una();
        self.note_progress(before, moved, now);
        let reports_more = self.note_reports(before);
        self.note_news(before, moved, reports_more);
        if before.starts_wait(self.state, self.owes_reset) {
            self.since = now;
        }
        self.note_peer(now);
        self.note_guard(before, now);
        self.update_timers(moved, now);
    }

    /// A segment that moved SND.UNA is progress, and so is one that answers a probe. Where it opens the window behind one, what the probe brought goes out again.
    fn note_progress(&mut self, before: &Before, moved: bool, now: Moment)
        requires { moved ≡ is_moved before.now self.old }
        ensures { self.new ≡ record self.old { resend = resend_heard before.now self.old now } }
    {
        if moved {
            self.resend
                .acknowledge(self.sender.una(), before.state.is_opening(), now);
        } else if before.answers_probe {
            self.resend.progress();
            if self.reopens() {
                self.resend.mark_first(self.sender.outstanding());
            }
        }
    }

    /// Whether the window is open behind a number that went out in probes of a closed one alone, and losses are repaired.
    fn reopens(&self) -> bool
        ensures { result ≡ reopens self.now }
    {
        self.sender.is_probed() && self.congestion.repairs() && self.sender.window() > 0
    }

    /// Takes a segment, without the clock.
    fn hear(&mut self, segment: &TcpView<'_>) -> Fate
        requires { is_closed self.old.state ≡ false }
        ensures fate { result ≡ fate self.old segment.now }
        ensures after { self.new ≡ after_heard self.old segment.now }
    {
        if self.is_lost(segment) {
            self.hear_lost(segment);
            return Fate::Stays;
        }
        let fate = self.hear_kept(segment);
        if self.is_over() { Fate::Removed } else { fate }
    }

    /// Takes a segment of which no octets are lost, step by step.
    fn hear_kept(&mut self, segment: &TcpView<'_>) -> Fate
        requires { is_closed self.old.state ≡ false }
        ensures fate { result ≡ (if is_rejected self.old segment.now then Fate.Rejected else if ends_opening self.old segment.now then Fate.Removed else Fate.Stays) }
        ensures after { self.new ≡ after_segment self.old segment.now }
    {
        let flags = segment.flags();
        if flags.rst {
            return self.hear_reset(segment);
        }
        if self.state == State::SynSent {
            return self.hear_first_syn(segment);
        }
        if !self.is_acceptable(segment) {
            self.owes_ack = true;
            return Fate::Stays;
        }
        if flags.syn {
            return self.hear_another_syn();
        }
        if flags.ack {
            return self.hear_acknowledging(segment);
        }
        Fate::Stays
    }

    /// Whether a segment is acceptable (RFC 9293 section 3.10.7.4, first).
    pub(crate) fn is_acceptable(&self, segment: &TcpView<'_>) -> bool
        ensures { result ≡ is_acceptable_to self.now segment.now }
    {
        let (number, span) = (segment.number(), segment.span());
        self.receiver.is_acceptable(number, span)
    }

    /// Whether octets of a segment would be lost: its caller closed the connection, and one stands at RCV.NXT or past it.
    fn is_lost(&self, segment: &TcpView<'_>) -> bool
        ensures { result ≡ is_lost self.now segment.now }
    {
        self.is_released
            && self.state.is_receiving()
            && self.is_read(segment)
            && self.brings_more(segment)
    }

    /// Whether a segment is read to its octets: acceptable, with an acknowledgement of what was sent, and without RST and SYN.
    pub(crate) fn is_read(&self, segment: &TcpView<'_>) -> bool
        ensures { result ≡ is_read self.now segment.now }
    {
        let flags = segment.flags();
        !flags.rst
            && self.is_acceptable(segment)
            && !flags.syn
            && flags.ack
            && self.is_read_on(segment.acknowledgement())
    }

    /// Whether what follows an acknowledgement is read: past SYN-RECEIVED where it is of what was sent.
    pub(crate) fn is_read_on(&self, acknowledgement: Seq) -> bool
        ensures { result ≡ is_read_on self.now acknowledgement.0 }
    {
        let is_new = self.sender.is_new(acknowledgement);
        if self.state == State::SynReceived {
            return is_new;
        }
        is_new || !self.is_off(acknowledgement)
    }

    /// Whether the last octet of a segment stands at RCV.NXT or past it.
    fn brings_more(&self, segment: &TcpView<'_>) -> bool
        ensures { result ≡ brings_more self.now segment.now }
    {
        let octets = segment.payload();
        let end = segment.number() + octets.len() as u32;
        !octets.is_empty() && self.receiver.rnext().is_before(end)
    }

    /// Octets come that no caller will read: the acknowledgement and the window are used, and the peer is reset.
    fn hear_lost(&mut self, segment: &TcpView<'_>)
        requires { (is_syn_sent self.old.state || is_closed self.old.state) ≡ false }
        ensures { self.new ≡ after_lost self.old segment.now }
    {
        self.hear_ack(segment.acknowledgement());
        self.hear_window(segment);
        self.reset_peer();
    }

    /// Whether a segment in TIME-WAIT brings the peer's FIN once more: the number behind it is RCV.NXT.
    fn repeats_fin(&self, segment: &TcpView<'_>) -> bool
        ensures { result ≡ repeats_fin self.now segment.now }
    {
        let flags = segment.flags();
        let end = segment.number() + segment.span();
        self.state == State::TimeWait
            && !flags.rst
            && !self.is_acceptable(segment)
            && flags.fin
            && end == self.receiver.rnext()
    }

    /// Takes a segment with RST.
    fn hear_reset(&mut self, segment: &TcpView<'_>) -> Fate
        requires { is_closed self.old.state ≡ false }
        ensures fate { result ≡ (if not (is_syn_sent self.old.state) && ends_by_reset self.old segment.now then Fate.Removed else Fate.Stays) }
        ensures after { self.new ≡ (if is_syn_sent self.old.state then after_rst_in_syn_sent self.old segment.now else after_rst self.old segment.now) }
    {
        if self.state == State::SynSent {
            if segment.flags().ack && self.sender.is_new(segment.acknowledgement()) {
                self.reset();
            }
            return Fate::Stays;
        }
        if !self.is_acting_reset(segment) {
            if self.receiver.is_in_window(segment.number()) {
                self.owes_ack = true;
            }
            return Fate::Stays;
        }
        if self.state == State::SynReceived && self.is_passive {
            return Fate::Removed;
        }
        self.reset();
        Fate::Stays
    }

    /// Whether an RST acts past SYN-SENT: it is acceptable, and its number is RCV.NXT.
    pub(crate) fn is_acting_reset(&self, segment: &TcpView<'_>) -> bool
        ensures { result ≡ is_acting_reset self.now segment.now }
    {
        self.is_acceptable(segment) && segment.number() == self.receiver.rnext()
    }

    /// The peer's reset ends the connection.
    fn reset(&mut self)
        ensures { self.new ≡ after_reset self.old (reset_error self.old.state) }
    {
        self.end_with(self.state.reset_error());
    }

    /// Takes an acceptable segment with ACK and without SYN.
    fn hear_acknowledging(&mut self, segment: &TcpView<'_>) -> Fate
        requires { (is_syn_sent self.old.state || is_closed self.old.state) ≡ false }
        ensures fate { result ≡ (if is_syn_received self.old.state && not (is_new_ack self.old.sending segment.now.acknowledgement) then Fate.Rejected else Fate.Stays) }
        ensures after { self.new ≡ after_acknowledging_segment self.old segment.now }
    {
        if self.hear_ack(segment.acknowledgement()) {
            self.hear_window(segment);
            self.hear_octets(segment);
            self.hear_fin(segment);
            return Fate::Stays;
        }
        if self.state == State::SynReceived {
            Fate::Rejected
        } else {
            Fate::Stays
        }
    }

    /// Takes the window of the segment, where it is no older than the one that is known.
    pub(crate) fn hear_window(&mut self, segment: &TcpView<'_>)
        ensures { self.new ≡ after_window self.old segment.now }
    {
        let window = self.sender.window_in(segment.window());
        self.sender
            .update_window(segment.number(), segment.acknowledgement(), window);
    }

    /// Takes a segment without RST in SYN-SENT: a SYN that acknowledges ours, or one without ACK (RFC 9293 section 3.10.7.3).
    fn hear_first_syn(&mut self, segment: &TcpView<'_>) -> Fate
        requires { is_syn_sent self.old.state ≡ true }
        ensures fate { result ≡ (if segment.now.flags.ack && not (is_new_ack self.old.sending segment.now.acknowledgement) then Fate.Rejected else Fate.Stays) }
        ensures after { self.new ≡ (if is_simultaneous_syn self.old segment.now then after_simultaneous_syn self.old segment.now else after_syn_ack self.old segment.now) }
    {
        let flags = segment.flags();
        if flags.ack && !self.sender.is_new(segment.acknowledgement()) {
            return Fate::Rejected;
        }
        if flags.syn {
            if flags.ack {
                self.establish_by(segment);
            } else {
                self.answer_syn(segment);
            }
        }
        Fate::Stays
    }

    /// The peer opens at the same time: a SYN-ACK is due, with the number of our SYN.
    fn answer_syn(&mut self, segment: &TcpView<'_>)
        requires { is_syn_sent self.old.state ≡ true }
        ensures { self.new ≡ after_simultaneous_syn self.old segment.now }
    {
        let was_sent = self.sender.outstanding() != 0;
        let told = self.receiver.syn_window();
        self.take_syn(segment, if was_sent { told } else { 0 });
        self.resend.mark_all(self.sender.outstanding());
    }

    /// Takes what the peer's SYN says, which leads to SYN-RECEIVED, and settles whether windows are scaled and what is kept is reported. Our SYN advertised a window of so many octets to it.
    pub(crate) fn take_syn(&mut self, syn: &TcpView<'_>, advertised: u32)
        requires waits { is_syn_sent self.old.state ≡ true }
        requires size { advertised ≤ min self.old.receiving.size CAPACITY }
        ensures { self.new ≡ after_first_syn self.old syn.now advertised }
    {
        let scales = self.scales_with(syn);
        self.scales = scales;
        self.sender.settle(scales, syn.shift());
        self.receiver.settle(scales);
        self.sender.hear_syn(syn.number(), syn.window(), syn.smss());
        self.receiver.hear_syn(syn.number(), advertised);
        self.reporting.settle(syn);
        self.state = State::SynReceived;
    }

    /// Whether both sides' SYNs have the window scale option: a peer's that ours doesn't offer is ignored (RFC 7323 section 2.2).
    fn scales_with(&self, syn: &TcpView<'_>) -> bool
        ensures { result ≡ scales_with self.now syn.now }
    {
        self.scales && syn.scale_option().is_some()
    }

    /// The peer's SYN acknowledges ours.
    fn establish_by(&mut self, segment: &TcpView<'_>)
        requires waits { is_syn_sent self.old.state ≡ true }
        requires right { is_right_syn_ack self.old segment.now ≡ true }
        ensures { self.new ≡ after_syn_ack self.old segment.now }
    {
        let told = self.receiver.syn_window();
        self.take_syn(segment, told);
        self.sender.acknowledge_syn();
        self.state = State::Established;
        self.resend.unmark();
        self.owes_ack = true;
    }

    /// An acceptable SYN removes what a listener opened and did not establish, and else draws an ACK.
    fn hear_another_syn(&mut self) -> Fate
        requires { (is_syn_sent self.old.state || is_closed self.old.state) ≡ false }
        ensures fate { result ≡ (if self.old.passive && is_syn_received self.old.state then Fate.Removed else Fate.Stays) }
        ensures after { self.new ≡ (if self.old.passive && is_syn_received self.old.state then self.old else owing_ack self.old) }
    {
        if self.is_passive && self.state == State::SynReceived {
            return Fate::Removed;
        }
        self.owes_ack = true;
        Fate::Stays
    }

    /// Takes an acknowledgement, and says whether the rest of the segment is read.
    fn hear_ack(&mut self, acknowledgement: Seq) -> bool
        requires { (is_syn_sent self.old.state || is_closed self.old.state) ≡ false }
        ensures read_on { result ≡ is_read_on self.old acknowledgement.0 }
        ensures opened { result ≡ true → is_opening self.new.state ≡ false }
        ensures after { self.new ≡ after_ack self.old acknowledgement.0 }
    {
        let is_read_on = self.is_read_on(acknowledgement);
        let is_new = self.sender.is_new(acknowledgement);
        if self.state == State::SynReceived {
            if is_new {
                self.establish();
            }
        } else if is_new {
            self.hear_new_ack(acknowledgement);
        } else {
            self.hear_old_ack(acknowledgement);
        }
        is_read_on
    }

    /// Nothing that is outstanding is acknowledged: what was not sent, or too long ago, draws an ACK.
    fn hear_old_ack(&mut self, acknowledgement: Seq)
        requires { (is_syn_sent self.old.state || is_closed self.old.state) ≡ false }
        ensures { self.new ≡ (if is_off self.old acknowledgement.0 then owing_ack self.old else self.old) }
    {
        if self.is_off(acknowledgement) {
            self.owes_ack = true;
        }
    }

    /// Numbers that were outstanding are acknowledged: octets, and the FIN behind them.
    fn hear_new_ack(&mut self, acknowledgement: Seq)
        requires opened { is_opening self.old.state ≡ false }
        requires new { is_new_ack self.old.sending acknowledgement.0 ≡ true }
        ensures { self.new ≡ (if is_of_fin self.old acknowledgement.0 then fin_acknowledged (after_new_ack self.old acknowledgement.0) else after_new_ack self.old acknowledgement.0) }
    {
        let is_of_fin = self.is_of_fin(acknowledgement);
        self.move_una(acknowledgement);
        if is_of_fin {
            self.finish();
        }
    }

    /// Whether an acknowledgement is past all that is held, which is of our FIN.
    fn is_of_fin(&self, acknowledgement: Seq) -> bool
        ensures value { result ≡ is_of_fin self.now acknowledgement.0 }
        ensures last { result ≡ true → outstanding self.now.sending ≤ past acknowledgement.0 self.now.sending.una }
    {
        let gained = acknowledgement.past(self.sender.una()) as usize;
        self.state.awaits_fin_ack() && self.sender.held_len() < gained
    }

    /// SND.UNA moves to an acknowledgement.
    pub(crate) fn move_una(&mut self, acknowledgement: Seq)
        requires opened { is_opening self.old.state ≡ false }
        requires new { is_new_ack self.old.sending acknowledgement.0 ≡ true }
        ensures after { self.new ≡ after_new_ack self.old acknowledgement.0 }
        ensures left { outstanding self.new.sending ≡ outstanding self.old.sending - past acknowledgement.0 self.old.sending.una }
    {
        let gained = acknowledgement.past(self.sender.una());
        self.sender.acknowledge(acknowledgement);
        self.resend.move_mark(gained, self.sender.outstanding());
    }

    /// Our FIN is acknowledged, and all octets before it.
    fn finish(&mut self)
        requires waits { awaits_fin_ack self.old.state ≡ true }
        requires held { self.old.sending.held ≡ [] }
        requires all { outstanding self.old.sending ≡ 0 }
        ensures { self.new ≡ fin_acknowledged self.old }
    {
        self.state = self.state.beyond_fin();
        if self.state == State::Closed {
            self.owes_ack = false;
            self.delays_ack = false;
            self.resend.stop();
            self.timers = Timers::new();
        }
    }

    /// Our SYN is acknowledged.
    fn establish(&mut self)
        requires { is_syn_received self.old.state ≡ true }
        ensures { self.new ≡ after_establishment self.old }
    {
        self.sender.acknowledge_syn();
        self.state = State::Established;
        self.resend.unmark();
    }

    /// Takes the octets, those ahead of a gap to be kept, and owes an ACK for any, at once or later.
    pub(crate) fn hear_octets(&mut self, segment: &TcpView<'_>)
        requires { is_opening self.old.state ≡ false }
        ensures { self.new ≡ after_text self.old segment.now }
    {
        let octets = segment.payload();
        if octets.is_empty() || !self.state.is_receiving() {
            return;
        }
        let is_second = self.delays_ack;
        if is_second || !self.may_delay(segment) {
            self.owes_ack = true;
        }
        self.delays_ack = true;
        self.keep(segment.number(), octets);
    }

    /// Takes octets with this number, those ahead of a gap to be kept and reported.
    fn keep(&mut self, number: Seq, octets: &[u8])
        requires { is_opening self.old.state ≡ false }
        ensures { self.new ≡ record self.old { receiving = after_octets self.old.receiving number.0 octets.now; reporting = noted self.old.reporting self.old.receiving.rnext number.0 } }
    {
        self.reporting.note(self.receiver.rnext(), number);
        self.receiver.take(number, octets);
    }

    /// Whether the acknowledgement of a segment's octets may wait for a second segment: they stand next, and nothing is kept ahead of a
    /// gap.
    fn may_delay(&self, segment: &TcpView<'_>) -> bool
        ensures { result ≡ may_delay self.now segment.now }
    {
        segment.number() == self.receiver.rnext() && self.receiver.is_gapless()
    }

    /// Takes a FIN that stands next behind the octets in place, and owes an ACK for it, and for one ahead of a gap too.
    fn hear_fin(&mut self, segment: &TcpView<'_>)
        requires { is_opening self.old.state ≡ false }
        ensures { self.new ≡ after_fin self.old segment.now }
    {
        if !segment.flags().fin || !self.state.is_receiving() {
            return;
        }
        self.owes_ack = true;
        let number = segment.number() + segment.payload().len() as u32;
        if self.receiver.stands_next(number) {
            self.receiver.hear_end();
            self.state = self.state.beyond_end();
        }
    }
}

/// What a segment would come to. Nothing changes.
impl Connection {
    ghost use Rattle.tcp_state.specs.Arrival.{acknowledges_unsent};
    ghost use Rattle.tcp_state.specs.Asking.{is_rejection};

    /// Whether `segment` would reject this segment, which is answered by a reset then (RFC 9293 sections 3.10.7.3, first, and 3.10.7.4, fifth).
    pub fn would_reject(&self, segment: &TcpView<'_>) -> bool
        ensures { result ≡ is_rejection (fate self.now segment.now) }
    {
        self.acknowledges_unsent(segment) && self.rejects_wrong_ack(segment)
    }

    /// Whether a segment acknowledges nothing that is outstanding.
    fn acknowledges_unsent(&self, segment: &TcpView<'_>) -> bool
        ensures { result ≡ acknowledges_unsent self.now segment.now }
    {
        let flags = segment.flags();
        !flags.rst && flags.ack && !self.sender.is_new(segment.acknowledgement())
    }

    /// Whether that is rejected: while the connection opens, once the peer's SYN came only of an acceptable segment without SYN.
    fn rejects_wrong_ack(&self, segment: &TcpView<'_>) -> bool
        ensures { result ≡ (is_syn_sent self.now.state || (is_syn_received self.now.state && is_acceptable_to self.now segment.now && not segment.now.flags.syn)) }
    {
        match self.state {
            State::SynSent => true,
            State::SynReceived => self.is_acceptable(segment) && !segment.flags().syn,
            _ => false,
        }
    }
}

impl Before {
    /// Whether a wait is counted from the segment that led to a state.
    fn starts_wait(&self, state: State, owes_reset: bool) -> bool
        ensures { result ≡ (self.now.repeats_fin || begins_wait self.now.state state || (owes_reset && not self.now.owes_reset)) }
    {
        self.repeats_fin || self.state.begins_wait(state) || owes_reset && !self.owes_reset
    }
}
