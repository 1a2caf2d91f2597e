//! What goes out again, and what the clock measures of a round trip (RFC 6298, RFC 9293 sections 3.8.1 and 3.8.6.1).

ghost use Rattle.std.specs.Prelude.{◌≡◌, ◌<◌, ◌-◌, ◌*◌, ◌^◌, ◌&&◌, if◌then◌else◌, true, false, None, Some, ◌||◌, nat_lt, min};
ghost use Rattle.stream_buf.specs.Ranges.{range};
ghost use Rattle.stream_buf.specs.Scoreboard.{with_report};
ghost use Rattle.tcp_state.specs.Resend.{IsSoundResend, is_alone, resend_ends, first_resend, stopped, mark_past, reached, resend_again, resend_syn_again, resend_sent, resend_probed, resend_expired, resend_probes, mark_moved, recover_noted, resend_first, resend_lost, unmarked, is_timed_by, resend_acknowledged, excused_by, gives_back, counted_on};

use clock::Moment;
use retransmit::{Estimate, Rto};
use std::marker::Model;
use stream_buf::Scoreboard;
use tcp_segment::Seq;

/// How often the retransmission timer and the probe timer may expire without progress: the next expiry ends the connection (RFC 9293
/// section 3.8.3).
pub(crate) const MOST_EXPIRIES: u32 = 12;

/// The longest wait for a probe's answer, in milliseconds.
pub(crate) const MOST_INTERVAL: u32 = 60_000;

/// A segment whose round trip is measured.
#[derive(Clone, Copy, Debug, PartialEq, Eq)]
pub struct Timed {
    /// The number behind it.
    pub end: Seq,
    /// When it went out.
    pub since: Moment,
}

/// The retransmission state of a connection.
#[derive(Drop)]
pub(crate) struct Resend {
    /// The resend mark, as a distance past SND.UNA: what is outstanding from there on goes out again.
    mark: Option<u32>,
    /// Whether only one segment goes out again from the mark.
    once: bool,
    /// The retransmission timeout, in milliseconds, and what it is reckoned from.
    timeout: Rto,
    /// The segment whose round trip is measured.
    timed: Option<Timed>,
    /// How often the retransmission timer and the probe timer expired since the last progress.
    expiries: u32,
    /// How long the next wait of the probe timer is, in milliseconds.
    interval: u32,
    /// Whether a probe of the closed window is due.
    owes_probe: bool,
    /// Whether new octets waited for more as long as they may.
    overridden: bool,
    /// Whether our SYN expired, and went out again.
    syn_resent: bool,
    /// How many segments brought what went out before, each probe among them.
    resent: u64,
    /// The number behind the last small segment of new octets that is outstanding, as a distance past SND.UNA; 0 where none is.
    small: u32,
    /// The number behind all that was outstanding when a recovery began or the timer expired, as a distance past SND.UNA; 0 where all of it is acknowledged (RFC 6582 section 3.2).
    recover: u32,
    /// The number behind all that was outstanding when the last segment went out once more as a probe, as a distance past SND.UNA; 0 where none did, or all of it is acknowledged (RFC 8985 section 7).
    tail: u32,
    /// How many octets were reported at most past one that came late, and had gone out but once.
    reach: u32,
    /// How many numbers were acknowledged since a segment last counted as lost.
    since_loss: u32,
    /// How many segments had gone out again then, and one more for each that is told to have come twice since.
    excused: u64,
    /// What the peer reports that it keeps ahead of a gap, by distances past SND.UNA (RFC 6675 section 3).
    reported: Scoreboard,
}

impl Model for Resend {
    ghost use Rattle.tcp_state.specs.Resend.{Resend, IsSoundResend};
    ghost use Rattle.tcp_state.specs.ResendInside.{resend_view};

    ghost Value = { Resend };

    ghost view = { resend_view };

    ghost invariant = { λ p. IsSoundResend (resend_view p) };
}

impl Resend {
    /// Nothing has gone out; the timeout lasts so many milliseconds at least (RFC 6298 section 2.4).
    pub(crate) fn new(least: u32) -> Resend
        ensures value { result ≡ first_resend least }
        ensures resend_view { IsSoundResend result }
    {
        let timeout = Rto::new(least);
        let interval = timeout.rto();
        Resend {
            mark: None,
            once: false,
            timeout,
            timed: None,
            expiries: 0,
            interval,
            owes_probe: false,
            overridden: false,
            syn_resent: false,
            resent: 0,
            small: 0,
            recover: 0,
            tail: 0,
            reach: 0,
            since_loss: 0,
            excused: 0,
            reported: Scoreboard::new(),
        }
    }

    /// The resend mark, as a distance past SND.UNA.
    pub(crate) fn mark(&self) -> Option<u32>
        ensures { result ≡ self.now.mark }
    {
        self.mark
    }

    /// The retransmission timeout, in milliseconds.
    pub(crate) fn timeout(&self) -> u32
        ensures { result ≡ self.now.timeout.rto }
    {
        self.timeout.rto()
    }

    /// What the samples tell of the round-trip time; None before the first.
    pub(crate) fn estimate(&self) -> Option<Estimate>
        ensures { result ≡ self.now.timeout.estimate }
    {
        self.timeout.estimate()
    }

    /// How often the timers expired without progress.
    pub(crate) fn expiries(&self) -> u32
        ensures { result ≡ self.now.expiries }
    {
        self.expiries
    }

    /// How long the next wait of the probe timer is, in milliseconds.
    pub(crate) fn interval(&self) -> u32
        ensures { result ≡ self.now.interval }
    {
        self.interval
    }

    /// Whether a probe of the closed window is due.
    pub(crate) fn owes_probe(&self) -> bool
        ensures { result ≡ self.now.owes_probe }
    {
        self.owes_probe
    }

    /// Whether new octets waited for more as long as they may.
    pub(crate) fn is_overridden(&self) -> bool
        ensures { result ≡ self.now.overridden }
    {
        self.overridden
    }

    /// Whether our SYN expired, and went out again.
    pub(crate) fn is_syn_resent(&self) -> bool
        ensures { result ≡ self.now.syn_resent }
    {
        self.syn_resent
    }

    /// How many segments brought what went out before, each probe among them.
    pub(crate) fn resent(&self) -> u64
        ensures { result ≡ self.now.resent }
    {
        self.resent
    }

    /// The number behind the last small segment of new octets that is outstanding, as a distance past SND.UNA; 0 where none is.
    pub(crate) fn small(&self) -> u32
        ensures { result ≡ self.now.small }
    {
        self.small
    }

    /// The number behind all that was outstanding when a recovery began or the timer expired, as a distance past SND.UNA; 0 where all of it is acknowledged.
    pub(crate) fn recover(&self) -> u32
        ensures { result ≡ self.now.recover }
    {
        self.recover
    }

    /// The number behind all that was outstanding when the last segment went out once more as a probe, as a distance past SND.UNA; 0 where none did, or all of it is acknowledged.
    pub(crate) fn tail(&self) -> u32
        ensures { result ≡ self.now.tail }
    {
        self.tail
    }

    /// Whether no more than one segment goes out again from the mark, within whatever the network takes.
    pub(crate) fn once(&self) -> bool
        ensures { result ≡ self.now.once }
    {
        self.once
    }

    /// What the peer reports that it keeps ahead of a gap.
    pub(crate) fn reported(&self) -> &Scoreboard
        ensures { result.now ≡ self.now.reported }
    {
        &self.reported
    }

    /// The peer reports the places between two distances past SND.UNA, while so many numbers are outstanding.
    pub(crate) fn report(&mut self, start: u32, end: u32, outstanding: u32)
        ensures after { self.new ≡ record self.old { reported = with_report self.old.reported outstanding (range start end) } }
        ensures resend_view { IsSoundResend self.new }
    {
        self.reported.report(start, end, outstanding);
    }

    /// Nothing is outstanding or waits any longer.
    pub(crate) fn stop(&mut self)
        ensures after { self.new ≡ stopped self.old }
        ensures resend_view { IsSoundResend self.new }
    {
        self.mark = None;
        self.once = false;
        self.timed = None;
        self.interval = self.timeout.rto();
        self.owes_probe = false;
        self.overridden = false;
        self.small = 0;
        self.recover = 0;
        self.tail = 0;
        self.reach = 0;
        self.since_loss = 0;
        self.reported.clear();
    }

    /// All of so many numbers that are outstanding go out again.
    pub(crate) fn mark_all(&mut self, outstanding: u32)
        ensures after { self.new ≡ record self.old { mark = mark_past 0 outstanding } }
        ensures resend_view { IsSoundResend self.new }
    {
        self.mark = mark_past(0, outstanding);
    }

    /// So many numbers are acknowledged, and so many are outstanding still.
    pub(crate) fn move_mark(&mut self, gained: u32, outstanding: u32)
        ensures after { self.new ≡ mark_moved self.old gained outstanding }
        ensures resend_view { IsSoundResend self.new }
    {
        self.reach = self.reached();
        if let Some(distance) = self.mark {
            self.mark = mark_past(distance.saturating_sub(gained), outstanding);
        }
        self.small = self.small.saturating_sub(gained);
        self.recover = self.recover.saturating_sub(gained);
        self.tail = self.tail.saturating_sub(gained);
        self.since_loss = counted_on(self.since_loss, gained);
        self.reported.pass(gained);
    }

    /// How many octets were reported at most past one that came late, once what stands at SND.UNA came behind all that is reported: that
    /// was late, where nothing that is outstanding went out again.
    #[tactic(auto, using(crate::proofs::Lateness::reached_late, crate::proofs::Lateness::reached_still))]
    fn reached(&self) -> u32
        ensures { result ≡ reached self.now }
    {
        if self.recover == 0 && self.tail == 0 {
            self.reach.max(self.reported.covered())
        } else {
            self.reach
        }
    }

    /// How many octets may be reported past one that comes as late as another did: twice as many as past that.
    pub(crate) fn late(&self) -> u32
        ensures { result ≡ min (2 ^ 32 - 1) (2 * self.now.reach) }
    {
        self.reach.saturating_mul(2)
    }

    /// The segment at SND.UNA goes out again, that alone, of so many numbers that are outstanding (RFC 5681 section 3.2, RFC 6582 section
    /// 3.2, step 3).
    pub(crate) fn mark_first(&mut self, outstanding: u32)
        ensures after { self.new ≡ resend_first self.old outstanding }
        ensures resend_view { IsSoundResend self.new }
    {
        self.mark = mark_past(0, outstanding);
        self.once = true;
    }

    /// The segment at SND.UNA counts as lost (fast retransmit, RFC 5681 section 3.2). Where losses are repaired, a recovery goes on to the
    /// end of what is outstanding.
    pub(crate) fn mark_lost(&mut self, repairs: bool, outstanding: u32)
        ensures after { self.new ≡ resend_lost self.old repairs outstanding }
        ensures resend_view { IsSoundResend self.new }
    {
        self.mark_first(outstanding);
        self.note_recover(repairs, outstanding);
        self.since_loss = 0;
        self.excused = self.resent;
    }

    /// How many numbers were acknowledged since a segment last counted as lost.
    pub(crate) fn since_loss(&self) -> u32
        ensures { result ≡ self.now.since_loss }
    {
        self.since_loss
    }

    /// A segment that went out again since a segment last counted as lost came twice. The answer is whether as many came twice as went out again (RFC 3708 section 3).
    pub(crate) fn excuse(&mut self) -> bool
        ensures all { result ≡ gives_back true self.new }
        ensures after { self.new ≡ excused_by true self.old }
        ensures resend_view { IsSoundResend self.new }
    {
        if self.since_loss == 0 {
            return false;
        }
        self.excused = self.excused.saturating_add(1);
        self.resent <= self.excused
    }

    /// Where losses are repaired, the end of what is outstanding is remembered.
    fn note_recover(&mut self, repairs: bool, outstanding: u32)
        ensures after { self.new ≡ record self.old { recover = recover_noted self.old repairs outstanding } }
        ensures resend_view { IsSoundResend self.new }
    {
        if repairs {
            self.recover = outstanding;
        }
    }

    /// The last segment goes out again, that alone, of so many numbers that are outstanding: a probe of the tail (RFC 8985 section 7.3).
    pub(crate) fn mark_tail(&mut self, place: u32, outstanding: u32)
        ensures after { self.new ≡ record self.old { mark = Some place; once = true; tail = outstanding } }
        ensures resend_view { IsSoundResend self.new }
    {
        self.mark = Some(place);
        self.once = true;
        self.tail = outstanding;
    }

    /// Nothing is outstanding.
    pub(crate) fn unmark(&mut self)
        ensures after { self.new ≡ unmarked self.old }
        ensures resend_view { IsSoundResend self.new }
    {
        self.mark = None;
        self.small = 0;
        self.recover = 0;
        self.tail = 0;
        self.reported.clear();
    }

    /// A recovery that reports rule is over: nothing goes out again by its mark.
    pub(crate) fn end_repair(&mut self)
        ensures after { self.new ≡ resend_ends self.old }
        ensures resend_view { IsSoundResend self.new }
    {
        self.mark = None;
        self.once = false;
    }

    /// Whether the mark is for one segment, and no reports tell what else is lost.
    fn is_alone(&self) -> bool
        ensures { result ≡ is_alone self.now }
    {
        self.once && self.reported.is_empty()
    }

    /// What was outstanding went out again, up to this distance past SND.UNA.
    pub(crate) fn note_resent(&mut self, end: u32, outstanding: u32)
        ensures after { self.new ≡ resend_again self.old end outstanding }
        ensures resend_view { IsSoundResend self.new }
    {
        self.mark = if self.is_alone() {
            None
        } else {
            mark_past(end, outstanding)
        };
        self.once = false;
        self.timed = None;
        self.resent = self.resent.saturating_add(1);
    }

    /// Our SYN went out again.
    pub(crate) fn note_syn_again(&mut self)
        ensures after { self.new ≡ resend_syn_again self.old }
        ensures resend_view { IsSoundResend self.new }
    {
        self.syn_resent = self.syn_resent || self.expiries > 0;
    }

    /// New numbers went out, up to this one.
    pub(crate) fn note_sent(&mut self, end: Seq, now: Moment)
        ensures after { self.new ≡ resend_sent self.old end.0 now }
        ensures resend_view { IsSoundResend self.new }
    {
        if self.timed.is_none() {
            self.timed = Some(Timed { end, since: now });
        }
    }

    /// A small segment of new octets went out, up to this distance past SND.UNA.
    pub(crate) fn note_small(&mut self, end: u32)
        ensures after { self.new ≡ record self.old { small = end } }
        ensures resend_view { IsSoundResend self.new }
    {
        self.small = end;
    }

    /// New octets went out, so that none wait for more any longer.
    pub(crate) fn end_override(&mut self)
        ensures after { self.new ≡ record self.old { overridden = false } }
        ensures resend_view { IsSoundResend self.new }
    {
        self.overridden = false;
    }

    /// New octets waited for more as long as they may.
    pub(crate) fn begin_override(&mut self)
        ensures after { self.new ≡ record self.old { overridden = true } }
        ensures resend_view { IsSoundResend self.new }
    {
        self.overridden = true;
    }

    /// The probe that was due went out.
    pub(crate) fn note_probe(&mut self)
        ensures after { self.new ≡ resend_probed self.old }
        ensures resend_view { IsSoundResend self.new }
    {
        self.owes_probe = false;
        self.timed = None;
        self.resent = self.resent.saturating_add(1);
    }

    /// The retransmission timer expired, while so many numbers are outstanding.
    pub(crate) fn expire(&mut self, repairs: bool, outstanding: u32)
        requires { self.old.expiries < MOST_EXPIRIES }
        ensures after { self.new ≡ resend_expired self.old repairs outstanding }
        ensures resend_view { IsSoundResend self.new }
    {
        self.mark = mark_past(0, outstanding);
        self.once = false;
        self.timeout.expire();
        self.expiries += 1;
        self.note_recover(repairs, outstanding);
        self.reach = 0;
        self.tail = 0;
        self.reported.clear();
    }

    /// The probe timer expired.
    pub(crate) fn probe(&mut self)
        requires { self.old.expiries < MOST_EXPIRIES }
        ensures after { self.new ≡ resend_probes self.old }
        ensures resend_view { IsSoundResend self.new }
    {
        self.owes_probe = true;
        self.interval = (2 * self.interval).min(MOST_INTERVAL);
        self.expiries += 1;
    }

    /// Numbers that were outstanding are acknowledged, up to `una`; `opens` tells whether one was our SYN's.
    pub(crate) fn acknowledge(&mut self, una: Seq, opens: bool, now: Moment)
        ensures after { self.new ≡ resend_acknowledged self.old una.0 opens now }
        ensures resend_view { IsSoundResend self.new }
    {
        if let Some(timed) = self.timed
            && timed.is_by(una)
        {
            self.timeout.sample(now.0.saturating_sub(timed.since.0));
            self.timed = None;
        }
        if opens && self.expiries > 0 {
            self.timeout.established_after_lost_syn();
        }
        self.expiries = 0;
    }

    /// The peer is there.
    pub(crate) fn progress(&mut self)
        ensures after { self.new ≡ record self.old { expiries = 0 } }
        ensures resend_view { IsSoundResend self.new }
    {
        self.expiries = 0;
    }

    /// The end of an event, by which the probe timer runs or doesn't; `goes_on` tells whether it ran before.
    pub(crate) fn update_probing(&mut self, is_probing: bool, goes_on: bool)
        ensures after { self.new ≡ record self.old { interval = if is_probing && goes_on then self.old.interval else self.old.timeout.rto; owes_probe = self.old.owes_probe && is_probing } }
        ensures resend_view { IsSoundResend self.new }
    {
        if !(is_probing && goes_on) {
            self.interval = self.timeout.rto();
        }
        if !is_probing {
            self.owes_probe = false;
        }
    }
}

impl Timed {
    /// Whether SND.UNA is at its end or past it.
    fn is_by(self, una: Seq) -> bool
        ensures { result ≡ is_timed_by self una.0 }
    {
        !una.is_before(self.end)
    }
}

/// A count goes on, as far as 32 bits have room.
#[tactic(auto, unfolding(crate::specs::Resend::counted_on))]
fn counted_on(count: u32, gained: u32) -> u32
    ensures { result ≡ counted_on count gained }
{
    count.saturating_add(gained)
}

/// The mark behind what went out, where something that is outstanding lies behind it.
fn mark_past(end: u32, outstanding: u32) -> Option<u32>
    ensures { result ≡ mark_past end outstanding }
{
    (end < outstanding).then_some(end)
}
