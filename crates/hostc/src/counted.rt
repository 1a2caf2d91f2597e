//! What a handle leads to: a host, with its counters beside it.

ghost use Rattle.std.specs.Prelude.{◌≡◌, ◌≤◌, length, IfSome};
ghost use Rattle.host.specs.Arrival.{IsDelivered};
ghost use Rattle.host.specs.Emission.{emission_len, emission_front, after_emission};
ghost use Rattle.host.specs.GivenUp.{gives_up};
ghost use Rattle.host.specs.GiveWay.{with_way};
ghost use Rattle.host.specs.Lack.{lack};
ghost use Rattle.host.specs.Ticks.{after_tick};
ghost use Rattle.counters.specs.Counting.{Came, Ticked, after_event, after_going, new_counters};

use clock::Moment;
use counters::Counters;
use ether::FRAME_MAX;
use host::{DropCause, Host};
use tcp_segment::Seq;

/// A host, and what came to it, went out of it and was given up.
#[derive(Drop)]
pub(crate) struct Counted {
    pub(crate) host: Host,
    pub(crate) counters: Counters,
}

impl Counted {
    /// A host of which nothing is counted yet.
    pub(crate) fn new(host: Host) -> Counted
        ensures host { result.host ≡ host }
        ensures counters { result.counters ≡ new_counters }
    {
        Counted {
            host,
            counters: Counters::new(),
        }
    }

    /// `Counters::deliver`.
    pub(crate) fn deliver(&mut self, now: Moment, isn: Seq, frame: &[u8]) -> Result<(), DropCause>
        ensures delivered { IsDelivered (with_way self.old.host frame.now) now isn.0 frame.now result self.new.host }
        ensures counted { self.new.counters ≡ after_event self.old.counters (Came (length frame.now) result (lack (with_way self.old.host frame.now) frame.now)) }
    {
        self.counters.deliver(&mut self.host, now, isn, frame)
    }

    /// `Counters::next_frame`.
    pub(crate) fn next_frame(&mut self, now: Moment, out: &mut [u8; FRAME_MAX]) -> Option<usize>
        ensures answer { result ≡ emission_len self.old.host now }
        ensures bounds { IfSome result (λ len. (60 ≤ len) × (len ≤ FRAME_MAX)) }
        ensures after { self.new.host ≡ after_emission self.old.host now }
        ensures frame { out.new ≡ emission_front self.old.host now out.old }
        ensures counted { self.new.counters ≡ after_going self.old.counters result }
    {
        self.counters.next_frame(&mut self.host, now, out)
    }

    /// `Counters::tick`.
    pub(crate) fn tick(&mut self, now: Moment)
        ensures after { self.new.host ≡ after_tick self.old.host now }
        ensures counted { self.new.counters ≡ after_event self.old.counters (Ticked (gives_up self.old.host now)) }
    {
        self.counters.tick(&mut self.host, now);
    }
}
