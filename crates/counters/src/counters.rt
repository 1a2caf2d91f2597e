//! The counters, and the three calls that count.

ghost use Rattle.std.specs.Prelude.{◌≡◌, ◌≤◌, length, IfSome};
ghost use Rattle.host.specs.Arrival.{IsDelivered};
ghost use Rattle.host.specs.Emission.{emission_len, after_emission, emission_front};
ghost use Rattle.host.specs.GivenUp.{gives_up};
ghost use Rattle.host.specs.GiveWay.{with_way};
ghost use Rattle.host.specs.Lack.{lack};
ghost use Rattle.host.specs.Ticks.{after_tick};
ghost use Rattle.counters.specs.Counting.{Came, Ticked, after_event, after_going, after_refusal, new_counters, raised};

use crate::drops::Drops;
use crate::given_up;
use crate::lacks::Lacks;
use clock::Moment;
use ether::FRAME_MAX;
use host::{DropCause, GivenUp, Host};
use tcp_segment::Seq;

/// What came to a host and went out of it, since these counters were made. Each count holds still at 2^64 - 1.
#[derive(Clone, Copy, Default, PartialEq, Eq, Debug)]
pub struct Counters {
    /// Frames that came, those that were dropped among them.
    pub frames_in: u64,
    /// Their octets.
    pub octets_in: u64,
    /// Frames that went out.
    pub frames_out: u64,
    /// Their octets.
    pub octets_out: u64,
    /// Frames that were dropped, by the cause, but for want of room.
    pub drops: Drops,
    /// Frames that were dropped for want of room, NoRoom, by what there was none of.
    pub lacks: Lacks,
    /// What ticks gave up for want of a hop.
    pub given_up: GivenUp,
}

impl Counters {
    /// Counters at 0.
    pub fn new() -> Counters
        ensures { result ≡ new_counters }
    {
        Counters {
            frames_in: 0,
            octets_in: 0,
            frames_out: 0,
            octets_out: 0,
            drops: Drops::new(),
            lacks: Lacks::new(),
            given_up: given_up::NONE,
        }
    }

    /// `Host::deliver_by_way`, counted: the frame, its octets, and where it is dropped the cause, and what it found no room at.
    #[tactic(auto, using(crate::proofs::Alike::refused_alike))]
    pub fn deliver(
        &mut self,
        host: &mut Host,
        now: Moment,
        isn: Seq,
        frame: &[u8],
    ) -> Result<(), DropCause>
        ensures delivered { IsDelivered (with_way host.old frame.now) now isn.0 frame.now result host.new }
        ensures counted { self.new ≡ after_event self.old (Came (length frame.now) result (lack (with_way host.old frame.now) frame.now)) }
    {
        let answer = host.deliver_by_way(now, isn, frame);
        raise(&mut self.frames_in, 1);
        raise(&mut self.octets_in, frame.len() as u64);
        if let Err(cause) = answer {
            self.count_refusal(cause, host, frame);
        }
        answer
    }

    /// `Host::next_frame`, counted: the frame that goes out, and its octets.
    pub fn next_frame(
        &mut self,
        host: &mut Host,
        now: Moment,
        out: &mut [u8; FRAME_MAX],
    ) -> Option<usize>
        ensures answer { result ≡ emission_len host.old now }
        ensures bounds { IfSome result (λ len. (60 ≤ len) × (len ≤ FRAME_MAX)) }
        ensures after { host.new ≡ after_emission host.old now }
        ensures frame { out.new ≡ emission_front host.old now out.old }
        ensures counted { self.new ≡ after_going self.old result }
    {
        let len = host.next_frame(now, out)?;
        raise(&mut self.frames_out, 1);
        raise(&mut self.octets_out, len as u64);
        Some(len)
    }

    /// `Host::tick`, counted: what it gives up for want of a hop, as `Host::gives_up` tells.
    pub fn tick(&mut self, host: &mut Host, now: Moment)
        ensures after { host.new ≡ after_tick host.old now }
        ensures counted { self.new ≡ after_event self.old (Ticked (gives_up host.old now)) }
    {
        given_up::count(&mut self.given_up, host.gives_up(now));
        host.tick(now);
    }

    /// Counts a frame that this host dropped for this cause. What it found no room at is asked for only where that is the cause.
    fn count_refusal(&mut self, cause: DropCause, host: &Host, frame: &[u8])
        ensures { self.new ≡ after_refusal cause (lack host.now frame.now) self.old }
    {
        match cause {
            DropCause::NoRoom => self.lacks.count(host.lack(frame)),
            cause => self.drops.count(cause),
        }
    }
}

/// Counts so many more.
pub(crate) fn raise(count: &mut u64, more: u64)
    ensures { count.new ≡ raised count.old more }
{
    *count = count.saturating_add(more);
}
