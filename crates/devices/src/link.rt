//! The link between two hosts.

ghost use Rattle.std.specs.Prelude.{◌≡◌, ℕ, ◌≤◌, List, Option, None, is_err, IfOk, IfSome};
ghost use Rattle.devices.specs.Streams.{counted};
ghost use Rattle.devices.specs.Passages.{Passage, Takes, Gives};
ghost use Rattle.devices.specs.Time.{IsToldTime};
ghost use Rattle.clock.specs.declared.moment.Moment.{Moment};

pub mod memory;

use clock::Moment;
use ether::FRAME_MAX;
use sides::Side;
use thiserror::Error;

/// A call of a link failed.
#[derive(Clone, Copy, Debug, PartialEq, Eq, Error)]
#[error("L1 LinkFault")]
pub struct LinkFault;

/// Takes frames from two hosts, and gives each host those of the other. It may lose frames, repeat them and hold them back.
pub trait Link {
    // How many calls have failed.
    ghost failures: { Self → ℕ };

    // The frames taken and given so far, in order, where the link makes them known.
    ghost told: { Self → Option (List Passage) } = { λ _. None };

    // The moment that it heard last of the hosts' clocks, where it keeps that.
    ghost clock: { Self → Option Moment } = { λ _. None };

    // What is so of the link before and behind any number of its calls, where it says more than what passed.
    ghost leads_to: { Self → Self → Type 0 } = { λ _ _. Unit {0} };

    /// Hears that the clocks of both hosts have come to this moment, at which the frames go out that it takes next. A link that keeps no time
    /// does nothing.
    fn tick(&mut self, moment: Moment)
        ensures failures { failures self.new ≡ failures self.old }
        ensures told { told self.new ≡ told self.old }
        ensures clock { IsToldTime (clock self.new) moment }
        ensures leads { leads_to self.old self.new };

    /// Takes a frame of the host of a side, for the other one. An error is a failure, and takes nothing.
    fn send(&mut self, from: Side, frame: &[u8]) -> Result<(), LinkFault>
        ensures failures { failures self.new ≡ counted (is_err result) (failures self.old) }
        ensures told { Takes (told self.old) (told self.new) result from frame.now }
        ensures clock { clock self.new ≡ clock self.old }
        ensures leads { leads_to self.old self.new };

    /// Puts a frame for the host of a side at the front of `frame` and answers its length, or None where there is none now. An error is a
    /// failure, and gives nothing.
    fn recv(&mut self, to: Side, frame: &mut [u8; FRAME_MAX]) -> Result<Option<usize>, LinkFault>
        ensures bound { IfOk result (λ given. IfSome given (λ len. len ≤ FRAME_MAX)) }
        ensures failures { failures self.new ≡ counted (is_err result) (failures self.old) }
        ensures told { Gives (told self.old) (told self.new) result to frame.new }
        ensures clock { clock self.new ≡ clock self.old }
        ensures leads { leads_to self.old self.new };

    /// How many calls have failed. At its last value the count stays.
    fn failures(&self) -> u64
        ensures { result ≡ failures self.now };

    // No call leads from a link to itself, and calls behind one another lead from before the first to behind the last.
    ghost leads_to_itself: { (l : Self) → leads_to l l };

    ghost leads_on: { (l m n : Self) → leads_to l m → leads_to m n → leads_to l n };
}
