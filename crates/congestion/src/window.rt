//! How many octets may be in flight (RFC 5681 sections 3.1 and 3.2; RFC 6582, RFC 6675, RFC 3042 and RFC 3465 where losses are repaired).

ghost use Rattle.std.specs.Prelude.{◌≡◌, ◌≤◌, ◌*◌};
ghost use Rattle.congestion.specs.Control.{repairs, usual_segments, initial_cwnd, initial_ssthresh};
ghost use Rattle.congestion.specs.Window.{IsSound, initial_window, is_recovering, goes_on, allowed, in_slow_start, growth, most_counted, half_of, flight_within, ending_cwnd, deflated, after_new_ack, after_partial_ack, after_expiry, third_is_next, after_duplicate, after_loss, after_undo};

use crate::control::Control;
use std::marker::Model;

/// The greatest congestion window, in octets.
const MOST_CWND: u32 = 1 << 30;

/// The least slow start threshold of a new connection, in octets.
const LEAST_THRESHOLD: u32 = 65_535;

/// The greatest slow start threshold of a new connection, in octets.
const MOST_THRESHOLD: u32 = 1 << 30;

/// The most segments of a first window (RFC 6928).
const MOST_SEGMENTS: u8 = 10;

/// The duplicate ACK at which a segment counts as lost (RFC 5681 section 3.2).
const DUPLICATE_THRESHOLD: u8 = 3;

/// The congestion window of a connection (RFC 5681 section 2).
#[derive(Debug, Drop)]
pub struct Cwnd {
    control: Control,
    smss: u16,
    cwnd: u32,
    ssthresh: u32,
    duplicates: u8,
    expired: bool,
    restarts: bool,
    prior_cwnd: u32,
    prior_ssthresh: u32,
}

impl Model for Cwnd {
    ghost use Rattle.congestion.specs.Window.{Window, IsSound};

    ghost Value = { Window };

    ghost use Rattle.congestion.specs.Inside.{view_of};

    ghost view = { view_of };

    ghost invariant = { λ c. IsSound (view_of c) };
}

impl Cwnd {
    /// The window of a new connection with segments of up to `smss` octets; `resent` says whether its
    /// SYN or SYN-ACK went out again (RFC 5681 section 3.1).
    pub fn new(control: Control, smss: u16, resent: bool) -> Cwnd
        requires least { 64 ≤ smss }
        requires most { smss ≤ 1460 }
        ensures { result ≡ initial_window control smss resent }
    {
        Cwnd {
            control,
            smss,
            cwnd: first_cwnd(control, smss, resent),
            ssthresh: first_threshold(control),
            duplicates: 0,
            expired: false,
            restarts: false,
            prior_cwnd: 0,
            prior_ssthresh: 0,
        }
    }

    /// The congestion window, in octets (RFC 5681 section 3.1).
    pub fn window(&self) -> u32
        ensures value { result ≡ self.now.cwnd }
        ensures sound { IsSound self.now }
    {
        self.cwnd
    }

    /// How many octets may be in flight: the window, and with limited transmit a segment more for each of the first two duplicate ACKs
    /// (RFC 3042 section 2).
    pub fn allowed(&self) -> u32
        ensures value { result ≡ allowed self.now }
        ensures sound { IsSound self.now }
    {
        if self.control.repairs() && !self.is_recovering() {
            self.cwnd + u32::from(self.duplicates) * u32::from(self.smss)
        } else {
            self.cwnd
        }
    }

    /// What the set-up says of it.
    pub fn control(&self) -> Control
        ensures { result ≡ self.now.control }
    {
        self.control
    }

    /// Whether losses are repaired by more than RFC 5681.
    pub fn repairs(&self) -> bool
        ensures { result ≡ repairs self.now.control }
    {
        self.control.repairs()
    }

    /// The slow start threshold, in octets: below it the window grows by slow start, and from it on by congestion avoidance
    /// (RFC 5681 section 3.1).
    pub fn ssthresh(&self) -> u32
        ensures { result ≡ self.now.ssthresh }
    {
        self.ssthresh
    }

    /// Whether a recovery runs: the third duplicate ACK came or reports told a loss, and since then neither the ACK nor the expiry that ends it (RFC 5681 section 3.2,
    /// RFC 6675 section 5).
    pub fn is_recovering(&self) -> bool
        ensures { result ≡ is_recovering self.now }
    {
        self.duplicates >= DUPLICATE_THRESHOLD
    }

    /// Whether the next duplicate ACK is the third (RFC 5681 section 3.2).
    pub fn is_third_next(&self) -> bool
        ensures { result ≡ third_is_next self.now }
    {
        self.duplicates + 1 == DUPLICATE_THRESHOLD
    }

    /// Whether an ACK of some of what was outstanding at the beginning of the recovery that runs doesn't end it (RFC 6582 section 3.2, step 3).
    pub fn goes_on(&self) -> bool
        ensures { result ≡ goes_on self.now }
    {
        self.control.repairs() && self.is_recovering()
    }

    /// Takes an ACK of so many new octets, behind which so many are in flight (RFC 5681 sections 3.1 and 3.2).
    pub fn acked(&mut self, octets: u32, flight: u32)
        ensures { self.new ≡ after_new_ack self.old octets flight }
    {
        let cwnd = if self.is_recovering() {
            self.ending_cwnd(flight)
        } else {
            self.cwnd + self.growth(octets)
        };
        self.restarts = self.restarts && self.in_slow_start();
        self.cwnd = cwnd.min(MOST_CWND);
        self.duplicates = 0;
        self.expired = false;
    }

    /// Takes an ACK of so many new octets, at which a recovery goes on (RFC 6582 section 3.2, step 3).
    pub fn partly_acked(&mut self, octets: u32)
        ensures { self.new ≡ after_partial_ack self.old octets }
    {
        self.cwnd = self.deflated(octets);
        self.expired = false;
    }

    /// The retransmission timer expired with so many octets in flight (RFC 5681 section 3.1).
    pub fn timeout(&mut self, flight: u32)
        ensures { self.new ≡ after_expiry self.old flight }
    {
        if !self.expired {
            self.ssthresh = half_of(flight, self.smss);
        }
        self.cwnd = u32::from(self.smss);
        self.duplicates = 0;
        self.expired = true;
        self.restarts = true;
        self.prior_cwnd = 0;
        self.prior_ssthresh = 0;
    }

    /// Takes a duplicate ACK with so many octets in flight (RFC 5681 section 3.2). The answer is
    /// whether it is the third, at which the oldest segment goes out again.
    pub fn duplicate(&mut self, flight: u32) -> bool
        ensures third { result ≡ third_is_next self.old }
        ensures after { self.new ≡ after_duplicate self.old flight }
    {
        let smss = u32::from(self.smss);
        if self.is_recovering() {
            self.cwnd = (self.cwnd + smss).min(MOST_CWND);
            return false;
        }
        self.duplicates += 1;
        let is_third = self.is_recovering();
        if is_third {
            self.lost(flight);
            self.cwnd = (self.cwnd + 3 * smss).min(MOST_CWND);
        }
        is_third
    }

    /// The peer's reports tell, with so many octets in flight, that the first of them is lost: a recovery begins, and the window becomes half of them (RFC 6675
    /// section 5, step 4.2). The caller takes no duplicate ACK in it, since each raises the window.
    pub fn lost(&mut self, flight: u32)
        ensures { self.new ≡ after_loss self.old flight }
    {
        self.prior_cwnd = self.cwnd;
        self.prior_ssthresh = self.ssthresh;
        self.ssthresh = half_of(self.flight_within(flight), self.smss);
        self.cwnd = self.ssthresh.min(MOST_CWND);
        self.duplicates = DUPLICATE_THRESHOLD;
        self.restarts = false;
    }

    /// Nothing was lost when a segment last counted so: the window and the threshold are no less than they were before (RFC 3708 section 3). After an expiry
    /// nothing comes back.
    pub fn undo(&mut self)
        ensures { self.new ≡ after_undo self.old }
    {
        self.cwnd = self.cwnd.max(self.prior_cwnd);
        self.ssthresh = self.ssthresh.max(self.prior_ssthresh);
    }

    fn in_slow_start(&self) -> bool
        ensures { result ≡ in_slow_start self.now }
    {
        self.cwnd < self.ssthresh
    }

    /// What an ACK of so many new octets adds: slow start below the threshold, then congestion avoidance. Where losses are repaired the
    /// octets are counted (RFC 3465), else the ACK.
    fn growth(&self, octets: u32) -> u32
        ensures value { result ≡ growth self.now octets }
        ensures segments { result ≤ 2 * self.now.smss }
    {
        let smss = u32::from(self.smss);
        let repairs = self.control.repairs();
        if self.in_slow_start() {
            let most = if repairs { self.most_counted() } else { smss };
            return octets.min(most);
        }
        let counted = if repairs {
            octets.min(self.most_counted())
        } else {
            smss
        };
        (smss * counted / self.cwnd).max(1)
    }

    /// How many octets of an ACK count at most (RFC 3465 sections 2.2 and 2.3).
    fn most_counted(&self) -> u32
        ensures value { result ≡ most_counted self.now }
        ensures segments { result ≤ 2 * self.now.smss }
    {
        let smss = u32::from(self.smss);
        if self.restarts && self.in_slow_start() {
            smss
        } else {
            2 * smss
        }
    }

    /// What is in flight without that which limited transmit sent past the window.
    fn flight_within(&self, flight: u32) -> u32
        ensures { result ≡ flight_within self.now flight }
    {
        if self.control.repairs() {
            flight.min(self.cwnd)
        } else {
            flight
        }
    }

    /// The window at the end of a recovery, behind which so many octets are in flight.
    fn ending_cwnd(&self, flight: u32) -> u32
        ensures value { result ≡ ending_cwnd self.now flight }
        ensures least { self.now.smss ≤ result }
    {
        if self.control.repairs() {
            let smss = u32::from(self.smss);
            self.ssthresh.min(flight.max(smss).saturating_add(smss))
        } else {
            self.ssthresh
        }
    }

    /// The window less by so many octets, and more by the segment that goes out again where these were one or more.
    fn deflated(&self, octets: u32) -> u32
        ensures value { result ≡ deflated self.now octets }
        ensures least { self.now.smss ≤ result }
        ensures most { result ≤ self.now.cwnd }
    {
        let smss = u32::from(self.smss);
        let regained = if octets >= smss { smss } else { 0 };
        (self.cwnd.saturating_sub(octets) + regained).max(smss)
    }
}

/// The first window: a single segment where a SYN or SYN-ACK went out again (RFC 5681 section 3.1); else as many as the set-up says.
fn first_cwnd(control: Control, smss: u16, resent: bool) -> u32
    requires { smss ≤ 1460 }
    ensures { result ≡ initial_cwnd control smss resent }
{
    let segments = if resent {
        1
    } else if control.first_segments == 0 {
        usual_segments(smss)
    } else {
        control.first_segments.min(MOST_SEGMENTS)
    };
    u32::from(segments) * u32::from(smss)
}

/// Two to four segments (RFC 5681 section 3.1).
fn usual_segments(smss: u16) -> u8
    ensures { result ≡ usual_segments smss }
{
    if smss > 2_190 {
        2
    } else if smss > 1_095 {
        3
    } else {
        4
    }
}

/// The first threshold.
fn first_threshold(control: Control) -> u32
    ensures { result ≡ initial_ssthresh control }
{
    control
        .first_threshold
        .clamp(LEAST_THRESHOLD, MOST_THRESHOLD)
}

/// Half of what is in flight, two segments at least (RFC 5681 section 3.1, equation 4).
fn half_of(flight: u32, smss: u16) -> u32
    ensures { result ≡ half_of flight smss }
{
    (flight / 2).max(2 * u32::from(smss))
}
