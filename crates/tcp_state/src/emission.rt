//! What is due, and how it goes out (RFC 9293 section 3.8).

ghost use Rattle.std.specs.Prelude.{◌≡◌, ◌+◌, ◌<◌, ◌≤◌, ◌++◌, length, drop, IfSome, is_some, if◌then◌else◌, ◌||◌, ◌==◌, ◌^◌, true, false, Some};
ghost use Rattle.inet_sum.specs.Sum.{sum_of};
ghost use Rattle.tcp_state.specs.View.{is_opening, is_syn_sent, most_outstanding};
ghost use Rattle.tcp_halves.specs.Stream.{outstanding, after_sent};
ghost use Rattle.tcp_halves.specs.Windows.{after_advertisement};
ghost use Rattle.tcp_segment.specs.declared.TheConstants.{MSS};
ghost use Rattle.tcp_state.specs.Selective.{allowance};
ghost use Rattle.tcp_state.specs.New.{takes_last, passes_full, waits_no_longer, sends_new, takes_fin, sends_fin};
ghost use Rattle.tcp_state.specs.Timing.{probes};
ghost use Rattle.tcp_state.specs.Due.{MayGoOut, IsHeld, first_due, ack_due, again, again_at, is_missing, goes_by_reports, goes_by_windows, goes_again, again_from, new_octets, fin_alone, new_due, probe_stretch, numbers_of, end_of, flags_of, flags_of_stretch, number_of, octets_of, window_of, head_of, segment_octets, emitted_len, after_emitted, after_going_out, after_syn_ack_paid, after_speaking, after_asking, after_numbers, after_resent, after_first_sent, after_new_octets, small_with, brings_new_octets, after_stretch, after_probe, after_syn_out};

use crate::connection::Connection;
use crate::state::State;
use clock::Moment;
use retransmit::TimerKind;
use tcp_segment::{Flags, Head, Seq};

/// The octets that a segment has at most: a header of 20 octets and `tcp_segment::MSS` of text. A SYN's header has up to 32, that of an
/// acknowledgement alone up to 56, and no text stands behind them.
pub const MOST_SEGMENT: usize = 1_480;

/// A segment that may go out.
#[derive(Clone, Copy, Debug, PartialEq, Eq)]
pub enum Due {
    /// The reset of an abort.
    Rst,
    /// The SYN, or the SYN-ACK where a SYN came first.
    Syn,
    /// A stretch of the stream, for the first time or again.
    Text(Stretch),
    /// The oldest octet that is not acknowledged, or the FIN, into a closed window.
    Probe,
    /// An acknowledgement alone.
    Ack,
    /// A probe of a peer that says nothing: an acknowledgement at the number before SND.NXT, which the peer answers.
    KeepAlive,
}

/// A stretch of the octets that are held and of the FIN behind them.
#[derive(Clone, Copy, Debug, PartialEq, Eq)]
pub struct Stretch {
    /// Where it begins: how many octets stand between SND.UNA and its first.
    pub offset: usize,
    /// How many octets it has.
    pub count: usize,
    /// Whether the FIN follows them.
    pub fin: bool,
}

impl Stretch {
    /// How many numbers it takes.
    fn numbers(self) -> usize
        requires { self.count < 2 ^ 32 }
        ensures { result ≡ numbers_of self }
    {
        self.count + usize::from(self.fin)
    }
}

impl Connection {
    /// The segment that is due first.
    #[inline(always)]
    pub fn due(&self) -> Option<Due>
        ensures first { result ≡ first_due self.now }
        ensures may { IfSome result (MayGoOut self.now) }
    {
        if self.owes_reset {
            return Some(Due::Rst);
        }
        if self.is_idle() {
            return self.ack_due();
        }
        self.due_with_more()
    }

    /// The segment that is due first, of a connection that owes no reset, and where more may be due than an acknowledgement.
    #[inline(never)]
    fn due_with_more(&self) -> Option<Due>
        requires { self.now.owes_reset ≡ false }
        ensures first { result ≡ first_due self.now }
        ensures may { IfSome result (MayGoOut self.now) }
    {
        if self.state.is_opening() {
            return self.opening_due();
        }
        match self.again_due() {
            Some(due) => Some(due),
            None => self.new_due(),
        }
    }

    /// What is due first while the connection opens.
    fn opening_due(&self) -> Option<Due>
        requires { is_opening self.now.state ≡ true }
        ensures first { result ≡ (if (outstanding self.now.sending == 0) || is_some self.now.resend.mark then Some Due.Syn else ack_due self.now) }
        ensures may { IfSome result (MayGoOut self.now) }
    {
        if self.sender.outstanding() == 0 || self.resend.mark().is_some() {
            return Some(Due::Syn);
        }
        self.ack_due()
    }

    /// An acknowledgement alone, where one is owed, or where the window to advertise has grown by enough and the connection has spoken; or
    /// else a probe of a silent peer.
    #[inline(always)]
    fn ack_due(&self) -> Option<Due>
        ensures first { result ≡ ack_due self.now }
        ensures may { IfSome result (MayGoOut self.now) }
    {
        let advertises_window = !self.state.is_opening()
            && self.state != State::Closed
            && self.has_spoken
            && self.receiver.has_grown();
        if self.owes_ack || advertises_window {
            return Some(Due::Ack);
        }
        self.is_alive_due().then_some(Due::KeepAlive)
    }

    /// What goes out again from the resend mark on, within both windows.
    fn again_due(&self) -> Option<Due>
        requires { is_opening self.now.state ≡ false }
        ensures first { result ≡ again_from self.now self.now.resend.mark }
        ensures may { IfSome result (MayGoOut self.now) }
    {
        let place = self.again_at(self.resend.mark()?);
        if self.goes_again(place) {
            Some(Due::Text(self.again(place)))
        } else {
            None
        }
    }

    /// The first place from the resend mark on that is not reported, as a distance past SND.UNA.
    fn again_at(&self, mark: u32) -> u32
        ensures { result ≡ again_at self.now mark }
    {
        self.resend.reported().first_gap(mark)
    }

    /// Whether what stands at a distance past SND.UNA goes out again.
    fn goes_again(&self, place: u32) -> bool
        ensures value { result ≡ goes_again self.now place }
        ensures within { result ≡ true → place < outstanding self.now.sending }
    {
        if place >= self.sender.outstanding() {
            return false;
        }
        if self.repairs_gaps() && !self.resend.once() {
            self.goes_by_reports(place)
        } else {
            self.goes_by_windows(place)
        }
    }

    /// Whether it does within the windows of the peer and the network.
    fn goes_by_windows(&self, place: u32) -> bool
        ensures { result ≡ goes_by_windows self.now place }
    {
        place == 0 || place < self.sender.open_window(self.congestion.window())
    }

    /// Whether it does since reports tell that it is missing, and the network takes a segment more (RFC 6675 section 5).
    #[cold]
    #[inline(never)]
    fn goes_by_reports(&self, place: u32) -> bool
        ensures { result ≡ goes_by_reports self.now place }
    {
        self.is_missing(place)
            && place < self.sender.window()
            && self.pipe() + self.sender.smss() as u64 <= u64::from(self.congestion.window())
    }

    /// Whether a place that isn't reported is lost, or nothing new may go out and one behind it is reported (RFC 6675 section 4, `NextSeg`, rules 1 and 3).
    fn is_missing(&self, place: u32) -> bool
        ensures { result ≡ is_missing self.now place }
    {
        place < self.loss_end()
            || place < self.resend.reported().reported_end()
                && !(self.sends_new(self.allowance()) || self.sends_fin())
    }

    /// What is outstanding from a distance past SND.UNA on, up to what is reported, as much as one segment has room for.
    fn again(&self, mark: u32) -> Stretch
        requires opened { is_opening self.now.state ≡ false }
        requires within { mark < outstanding self.now.sending }
        ensures value { result ≡ again self.now mark }
        ensures held { IsHeld self.now result }
    {
        let (held, outstanding) = (self.sender.held_len(), self.sender.outstanding() as usize);
        let offset = mark as usize;
        let most = held
            .min(outstanding)
            .saturating_sub(offset)
            .min(self.sender.smss());
        let count = self.resend.reported().gap_len(mark, most);
        Stretch {
            offset,
            count,
            fin: offset + count == held && held < outstanding,
        }
    }

    /// What is due first past the opening where nothing goes out again.
    fn new_due(&self) -> Option<Due>
        requires { is_opening self.now.state ≡ false }
        ensures first { result ≡ new_due self.now }
        ensures may { IfSome result (MayGoOut self.now) }
    {
        let allowed = self.allowance();
        if self.sends_new(allowed) {
            return Some(Due::Text(self.new_octets(allowed)));
        }
        if self.sends_fin() {
            return Some(Due::Text(self.fin_alone()));
        }
        if self.resend.owes_probe() && self.probes() {
            return Some(self.probe());
        }
        self.ack_due()
    }

    /// Whether new octets wait for no more: they did so as long as they may, or small segments don't wait for what is outstanding.
    pub(crate) fn waits_no_longer(&self, allowed: u32) -> bool
        requires { allowed ≡ allowance self.now }
        ensures { result ≡ waits_no_longer self.now }
    {
        self.is_undelayed && self.sender.takes_enough(allowed)
            || self.passes_full(allowed)
            || self.resend.is_overridden()
    }

    /// Whether a segment that isn't full waits for a small one only, and none is outstanding, or it has the last octets of a closed side.
    fn passes_full(&self, allowed: u32) -> bool
        requires { allowed ≡ allowance self.now }
        ensures { result ≡ passes_full self.now }
    {
        self.minshall
            && self.sender.takes_enough(allowed)
            && (self.resend.small() == 0 || self.takes_last(allowed))
    }

    /// Whether our side is closed, and both windows take all that has not gone out.
    fn takes_last(&self, allowed: u32) -> bool
        requires { allowed ≡ allowance self.now }
        ensures { result ≡ takes_last self.now }
    {
        self.state.awaits_fin_ack() && self.sender.takes_all(allowed)
    }

    /// Whether new octets go out.
    pub(crate) fn sends_new(&self, allowed: u32) -> bool
        requires { allowed ≡ allowance self.now }
        ensures { result ≡ sends_new self.now }
    {
        self.sender.sendable(allowed) > 0
            && self
                .sender
                .is_worth_sending(allowed, self.waits_no_longer(allowed))
    }

    /// The new octets of the next segment.
    fn new_octets(&self, allowed: u32) -> Stretch
        requires opened { is_opening self.now.state ≡ false }
        requires allowed { allowed ≡ allowance self.now }
        requires some { sends_new self.now ≡ true }
        ensures value { result ≡ new_octets self.now }
        ensures held { IsHeld self.now result }
    {
        let offset = self.sender.outstanding() as usize;
        let count = self.sender.next_count(allowed);
        Stretch {
            offset,
            count,
            fin: self.takes_fin(offset + count, allowed),
        }
    }

    /// Whether the FIN of a closed side goes with octets up to this distance past SND.UNA: with the last that are held.
    fn takes_fin(&self, end: usize, allowed: u32) -> bool
        requires { allowed ≡ allowance self.now }
        ensures { result ≡ takes_fin self.now end }
    {
        self.minshall
            && self.state.awaits_fin_ack()
            && end == self.sender.held_len()
            && end < self.sender.open_window(allowed) as usize
    }

    /// Whether the FIN of a closed side goes out alone, behind all octets.
    pub(crate) fn sends_fin(&self) -> bool
        ensures { result ≡ sends_fin self.now }
    {
        let outstanding = self.sender.outstanding();
        self.state.awaits_fin_ack()
            && outstanding as usize == self.sender.held_len()
            && outstanding < self.sender.window()
    }

    /// The FIN alone.
    fn fin_alone(&self) -> Stretch
        requires opened { is_opening self.now.state ≡ false }
        requires due { sends_fin self.now ≡ true }
        ensures value { result ≡ fin_alone self.now }
        ensures held { IsHeld self.now result }
    {
        Stretch {
            offset: self.sender.outstanding() as usize,
            count: 0,
            fin: true,
        }
    }

    /// The probe of a closed window.
    fn probe(&self) -> Due
        requires { probes self.now ≡ true }
        ensures value { result ≡ Due.Probe }
        ensures may { MayGoOut self.now result }
    {
        Due::Probe
    }

    /// Writes the segment that is due first, which `due` found, to the front of `out`, and answers its length in octets.
    pub fn emit(&mut self, due: Due, now: Moment, out: &mut [u8]) -> usize
        requires due { first_due self.old ≡ Some due }
        requires room { MOST_SEGMENT ≤ length out.old }
        ensures len { result ≡ emitted_len self.old due }
        ensures bound { result ≤ MOST_SEGMENT }
        ensures frame { out.new ≡ segment_octets self.old due ++ drop result out.old }
        ensures after { self.new ≡ after_emitted self.old due now }
    {
        match due {
            Due::Text(stretch) => self.emit_known(Due::Text(stretch), now, out),
            Due::Ack => self.emit_known(Due::Ack, now, out),
            _ => self.emit_seldom(due, now, out),
        }
    }

    /// The same of what is seldom due.
    #[cold]
    #[inline(never)]
    fn emit_seldom(&mut self, due: Due, now: Moment, out: &mut [u8]) -> usize
        requires due { first_due self.old ≡ Some due }
        requires room { MOST_SEGMENT ≤ length out.old }
        ensures len { result ≡ emitted_len self.old due }
        ensures bound { result ≤ MOST_SEGMENT }
        ensures frame { out.new ≡ segment_octets self.old due ++ drop result out.old }
        ensures after { self.new ≡ after_emitted self.old due now }
    {
        self.emit_known(due, now, out)
    }

    /// The same, as a part of each caller: one that knows which kind of segment is due lays out a header of that kind alone.
    #[inline(always)]
    fn emit_known(&mut self, due: Due, now: Moment, out: &mut [u8]) -> usize
        requires due { first_due self.old ≡ Some due }
        requires room { MOST_SEGMENT ≤ length out.old }
        ensures len { result ≡ emitted_len self.old due }
        ensures bound { result ≤ MOST_SEGMENT }
        ensures frame { out.new ≡ segment_octets self.old due ++ drop result out.old }
        ensures after { self.new ≡ after_emitted self.old due now }
    {
        let len = self.write(due, out);
        self.note_emitted(due, now);
        self.update_timers(false, now);
        len
    }

    /// Writes the segment that is due first to the front of `out`.
    #[inline(always)]
    fn write(&self, due: Due, out: &mut [u8]) -> usize
        requires due { first_due self.now ≡ Some due }
        requires room { MOST_SEGMENT ≤ length out.old }
        ensures may { MayGoOut self.now due }
        ensures len { result ≡ emitted_len self.now due }
        ensures bound { result ≤ MOST_SEGMENT }
        ensures frame { out.new ≡ segment_octets self.now due ++ drop result out.old }
    {
        let (local, peer) = (self.local.addr, self.peer.addr);
        let head = self.head(due);
        let (start, count) = (head.len(), self.octet_count(due));
        let sum = self.copy_octets(due, &mut out[start..start + count]);
        head.emit(local, peer, count, sum, out)
    }

    /// What a probe brings.
    fn probe_stretch(&self) -> Stretch
        ensures { result ≡ probe_stretch self.now }
    {
        let has_octets = !self.sender.is_empty();
        Stretch {
            offset: 0,
            count: usize::from(has_octets),
            fin: !has_octets,
        }
    }

    /// How many octets the segment for what is due brings.
    #[inline(always)]
    fn octet_count(&self, due: Due) -> usize
        requires { MayGoOut self.now due }
        ensures count { result ≡ length (octets_of self.now due) }
        ensures bound { result ≤ MSS }
    {
        match due {
            Due::Text(stretch) => stretch.count,
            Due::Probe => self.probe_stretch().count,
            Due::Rst | Due::Syn | Due::Ack | Due::KeepAlive => 0,
        }
    }

    /// Fills `out`, which has room for just them, with the octets of the segment for what is due, and answers their one's complement sum.
    #[inline(always)]
    fn copy_octets(&self, due: Due, out: &mut [u8]) -> u16
        requires may { MayGoOut self.now due }
        requires room { length out.old ≡ length (octets_of self.now due) }
        ensures octets { out.new ≡ octets_of self.now due }
        ensures sum { result ≡ sum_of out.new }
    {
        match due {
            Due::Text(stretch) => self.sender.copy_at(stretch.offset, out),
            Due::Probe => self.sender.copy_at(0, out),
            Due::Rst | Due::Syn | Due::Ack | Due::KeepAlive => 0,
        }
    }

    /// The header of the segment for what is due.
    #[inline(always)]
    fn head(&self, due: Due) -> Head
        requires { MayGoOut self.now due }
        ensures { result ≡ head_of self.now due }
    {
        let flags = self.flags(due);
        Head {
            source: self.local.port,
            destination: self.peer.port,
            number: self.number(due),
            acknowledgement: if flags.ack {
                self.receiver.rnext()
            } else {
                Seq(0)
            },
            flags,
            window: self.window(due),
            scales: self.scales,
            sacks: self.reporting.sacks,
            blocks: self.blocks(due),
        }
    }

    /// The number of the segment for what is due.
    #[inline(always)]
    fn number(&self, due: Due) -> Seq
        requires { MayGoOut self.now due }
        ensures { result.0 ≡ number_of self.now due }
    {
        match due {
            Due::Syn | Due::Probe => self.sender.una(),
            Due::Text(stretch) => self.sender.una() + stretch.offset as u32,
            Due::Rst | Due::Ack => self.sender.bare_number(),
            Due::KeepAlive => self.sender.nxt() + u32::MAX,
        }
    }

    /// The window that the segment for what is due advertises, as its header has it.
    #[inline(always)]
    fn window(&self, due: Due) -> u16
        ensures { result ≡ window_of self.now due }
    {
        match due {
            Due::Rst => 0,
            Due::Syn => self.receiver.next_syn_window(),
            Due::Text(_) | Due::Probe | Due::Ack | Due::KeepAlive => self.receiver.next_window(),
        }
    }

    /// The control bits of the segment for what is due.
    #[inline(always)]
    fn flags(&self, due: Due) -> Flags
        requires { MayGoOut self.now due }
        ensures { result ≡ flags_of self.now due }
    {
        let mut flags = Flags::default();
        match due {
            Due::Rst => flags.rst = true,
            Due::Syn => {
                flags.syn = true;
                flags.ack = self.state == State::SynReceived;
            }
            Due::Text(stretch) => return self.flags_of(stretch),
            Due::Probe => return self.flags_of(self.probe_stretch()),
            Due::Ack | Due::KeepAlive => flags.ack = true,
        }
        flags
    }

    /// The control bits of a segment that brings a stretch.
    fn flags_of(&self, stretch: Stretch) -> Flags
        requires { IsHeld self.now stretch }
        ensures { result ≡ flags_of_stretch self.now stretch }
    {
        let mut flags = Flags::default();
        flags.ack = true;
        flags.fin = stretch.fin;
        flags.psh = stretch.count > 0 && stretch.offset + stretch.count == self.sender.held_len();
        flags
    }

    /// The segment for what was due went out at this moment.
    #[inline(always)]
    fn note_emitted(&mut self, due: Due, now: Moment)
        requires { MayGoOut self.old due }
        ensures { self.new ≡ after_going_out self.old due now }
    {
        match due {
            Due::Rst => self.owes_reset = false,
            Due::Syn => {
                self.note_syn(now);
                if self.state == State::SynReceived {
                    self.pay_syn_ack();
                }
            }
            Due::Text(stretch) => {
                self.note_stretch(stretch, now);
                self.speak();
            }
            Due::Probe => {
                self.note_probe();
                self.speak();
            }
            Due::Ack => self.speak(),
            Due::KeepAlive => self.ask_peer(),
        }
    }

    /// Our SYN went out at this moment.
    fn note_syn(&mut self, now: Moment)
        requires { is_opening self.old.state ≡ true }
        ensures { self.new ≡ after_syn_out self.old now }
    {
        let is_again = self.sender.outstanding() > 0;
        self.note_numbers(0, 1, now);
        if is_again {
            self.resend.note_syn_again();
        }
    }

    /// A stretch went out at this moment.
    fn note_stretch(&mut self, stretch: Stretch, now: Moment)
        requires { IsHeld self.old stretch }
        ensures { self.new ≡ after_stretch self.old stretch now }
    {
        let is_new = self.brings_new_octets(stretch);
        let end = self.end_of(stretch);
        self.note_numbers(stretch.offset as u32, end, now);
        if is_new {
            self.end_override();
            self.note_small(stretch, end);
        }
    }

    /// New octets went out, up to this distance past SND.UNA: in a small segment, if these are fewer than a segment may have.
    fn note_small(&mut self, stretch: Stretch, end: u32)
        requires end { end ≡ end_of stretch }
        requires opened { is_opening self.old.state ≡ false }
        requires out { end ≤ outstanding self.old.sending }
        ensures { self.new ≡ record self.old { resend = record self.old.resend { small = small_with self.old stretch } } }
    {
        if stretch.count < self.sender.smss() {
            self.resend.note_small(end);
        }
    }

    /// The distance past SND.UNA of the number behind a stretch.
    fn end_of(&self, stretch: Stretch) -> u32
        requires { IsHeld self.now stretch }
        ensures value { result ≡ end_of stretch }
        ensures most { result ≤ most_outstanding self.now }
    {
        let held = self.sender.held_len();
        (stretch.offset + stretch.numbers()).min(held + 1) as u32
    }

    /// Whether a stretch brings octets that have not gone out.
    fn brings_new_octets(&self, stretch: Stretch) -> bool
        ensures { result ≡ brings_new_octets self.now stretch }
    {
        stretch.count > 0 && self.sender.outstanding() as usize <= stretch.offset
    }

    /// A probe went out.
    fn note_probe(&mut self)
        requires { IsHeld self.old (probe_stretch self.old) }
        ensures { self.new ≡ after_probe self.old }
    {
        let is_new = self.brings_new_octets(self.probe_stretch());
        self.sender.probe_sent(1);
        self.resend.note_probe();
        if is_new {
            self.end_override();
        }
    }

    /// New octets went out, and none wait for more any longer.
    fn end_override(&mut self)
        ensures { self.new ≡ after_new_octets self.old }
    {
        self.resend.end_override();
        self.timers.clear(TimerKind::Override);
    }

    /// The numbers between two distances past SND.UNA went out at this moment, the first of them again where it was outstanding.
    fn note_numbers(&mut self, offset: u32, end: u32, now: Moment)
        requires joined { offset ≤ outstanding self.old.sending }
        requires some { offset < end }
        requires fits { end ≤ most_outstanding self.old }
        ensures after { self.new ≡ after_numbers self.old offset end now }
        ensures reached { end ≤ outstanding self.new.sending }
    {
        let is_new = self.sender.outstanding() <= offset;
        self.send_numbers(end);
        if is_new {
            self.resend.note_sent(self.sender.nxt(), now);
        } else {
            self.resend.note_resent(end, self.sender.outstanding());
        }
    }

    /// The numbers up to a distance past SND.UNA went out.
    #[tactic(auto, using(crate::proofs::SentNumbers::still_probed))]
    fn send_numbers(&mut self, end: u32)
        requires { end ≤ most_outstanding self.old }
        ensures after { self.new ≡ record self.old { sending = after_sent self.old.sending end } }
        ensures reached { end ≤ outstanding self.new.sending }
    {
        self.sender.sent(end);
    }

    /// A segment with ACK and without SYN went out, and advertised the window.
    fn tell_window(&mut self)
        requires { is_syn_sent self.old.state ≡ false }
        ensures { self.new ≡ record self.old { receiving = after_advertisement self.old.receiving; spoke = true } }
    {
        self.receiver.advertise();
        self.has_spoken = true;
    }

    /// A SYN-ACK went out, and advertised its window.
    fn pay_syn_ack(&mut self)
        requires { is_syn_sent self.old.state ≡ false }
        ensures { self.new ≡ after_syn_ack_paid self.old }
    {
        self.receiver.advertise_syn();
        self.owe_no_ack();
    }

    /// No acknowledgement is owed any more, and none waits.
    fn owe_no_ack(&mut self)
        ensures { self.new ≡ record self.old { owes_ack = false; delays_ack = false } }
    {
        self.owes_ack = false;
        self.delays_ack = false;
    }

    /// A probe of a silent peer went out, and told the window. It pays no acknowledgement: the peer's window has its number no more.
    fn ask_peer(&mut self)
        requires { is_syn_sent self.old.state ≡ false }
        ensures { self.new ≡ after_asking self.old }
    {
        self.tell_window();
        self.alive.owed = false;
    }

    /// A segment with ACK and without SYN went out.
    fn speak(&mut self)
        requires { is_syn_sent self.old.state ≡ false }
        ensures { self.new ≡ after_speaking self.old }
    {
        self.tell_window();
        self.owe_no_ack();
    }
}
