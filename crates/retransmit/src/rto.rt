//! How long to wait for an acknowledgement before a segment goes out again (RFC 6298).

ghost use Rattle.std.specs.Prelude.{◌≡◌, ◌≤◌};
ghost use Rattle.std.specs.Option.{ForSome};
ghost use Rattle.retransmit.specs.Timeout.{first_timeout, estimate_after, timeout_of, after_sample, after_expiry, after_lost_syn};

use std::marker::Model;

/// The timeout before the first sample, in milliseconds (RFC 6298 section 2.1).
const FIRST_RTO: u32 = 1_000;

/// The usual least timeout, in milliseconds (RFC 6298 section 2.4). That of a connection is no greater.
const LEAST_RTO: u32 = 1_000;

/// The lowest that the least timeout of a connection may be, in milliseconds.
const LOWEST_LEAST: u32 = 200;

/// The greatest timeout and the greatest sample, in milliseconds (RFC 6298 section 2.5).
const MOST_RTO: u32 = 60_000;

/// The timeout of a connection whose SYN was lost, in milliseconds (RFC 6298 section 5.7).
const AFTER_LOST_SYN: u32 = 3_000;

/// The granularity of the clock, in milliseconds (RFC 6298 section 2).
const CLOCK_GRANULARITY: u32 = 1;

/// What the samples tell of the round-trip time (RFC 6298 section 2).
#[derive(Clone, Copy, Debug, PartialEq, Eq)]
pub struct Estimate {
    /// Eight times the smoothed round-trip time SRTT, in milliseconds.
    pub s8: u32,
    /// Four times the variation RTTVAR, in milliseconds.
    pub v4: u32,
}

/// The retransmission timeout of a connection (RFC 6298).
#[derive(Debug, Drop)]
pub struct Rto {
    estimate: Option<Estimate>,
    rto: u32,
    least: u32,
}

impl Model for Rto {
    ghost use Rattle.retransmit.specs.Timeout.{Timeout, IsSound};

    ghost Value = { Timeout };

    ghost use Rattle.retransmit.specs.Inside.{view_of};

    ghost view = { view_of };

    ghost invariant = { λ r. IsSound (view_of r) };
}

impl Rto {
    /// The timeout before the first sample: a second (RFC 6298 section 2.1). `least` is the least timeout that samples
    /// make, in milliseconds, taken as 200 at least and 1,000 at most (section 2.4, which wants a second).
    pub fn new(least: u32) -> Rto
        ensures { result ≡ first_timeout least }
    {
        Rto {
            estimate: None,
            rto: FIRST_RTO,
            least: least.clamp(LOWEST_LEAST, LEAST_RTO),
        }
    }

    /// The timeout, in milliseconds (RFC 6298 section 2): the connection's least at least, a minute at most.
    pub fn rto(&self) -> u32
        ensures value { result ≡ self.now.rto }
        ensures least { self.now.least ≤ result }
        ensures most { result ≤ 60000 }
        ensures floor { 200 ≤ self.now.least }
        ensures ceiling { self.now.least ≤ 1000 }
    {
        self.rto
    }

    /// What the samples tell of the round-trip time; None before the first.
    pub fn estimate(&self) -> Option<Estimate>
        ensures { result ≡ self.now.estimate }
    {
        self.estimate
    }

    /// Takes a measured round-trip time, in milliseconds, of a segment that went out once
    /// (RFC 6298 sections 2.2, 2.3 and 3). One over a minute counts as a minute.
    pub fn sample(&mut self, milliseconds: u64)
        ensures { self.new ≡ after_sample self.old milliseconds }
    {
        let round_trip = milliseconds.min(u64::from(MOST_RTO)) as u32;
        let estimate = Estimate::after(self.estimate, round_trip);
        self.estimate = Some(estimate);
        self.rto = estimate.timeout(self.least);
    }

    /// Backs off: the retransmission timer expired (RFC 6298 section 5.5).
    pub fn expire(&mut self)
        ensures { self.new ≡ after_expiry self.old }
    {
        self.rto = (2 * self.rto).min(MOST_RTO);
    }

    /// The connection is established, and the timer of its SYN had expired (RFC 6298 section 5.7).
    pub fn established_after_lost_syn(&mut self)
        ensures { self.new ≡ after_lost_syn self.old }
    {
        self.rto = AFTER_LOST_SYN;
    }
}

impl Estimate {
    /// The estimate that a round-trip time makes of the earlier one.
    fn after(estimate: Option<Estimate>, round_trip: u32) -> Estimate
        requires sample { round_trip ≤ 60000 }
        requires mean { ForSome estimate (λ e. e.s8 ≤ 480000) }
        requires variation { ForSome estimate (λ e. e.v4 ≤ 240000) }
        ensures value { result ≡ estimate_after estimate round_trip }
        ensures mean { result.s8 ≤ 480000 }
        ensures variation { result.v4 ≤ 240000 }
    {
        match estimate {
            None => Estimate {
                s8: 8 * round_trip,
                v4: 2 * round_trip,
            },
            Some(Estimate { s8, v4 }) => Estimate {
                s8: s8 - s8 / 8 + round_trip,
                v4: v4 - v4 / 4 + (s8 / 8).abs_diff(round_trip),
            },
        }
    }

    /// The timeout that the estimate asks for, where the least is this many milliseconds (RFC 6298 sections 2.3 to 2.5).
    fn timeout(self, least: u32) -> u32
        requires mean { self.s8 ≤ 480000 }
        requires variation { self.v4 ≤ 240000 }
        ensures { result ≡ timeout_of least self }
    {
        let asked = self.s8 / 8 + self.v4.max(CLOCK_GRANULARITY);
        asked.min(MOST_RTO).max(least)
    }
}
