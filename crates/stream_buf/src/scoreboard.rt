//! What the peer reports that it keeps ahead of a gap (RFC 2018, RFC 6675).

ghost use Rattle.std.specs.Prelude.{◌≡◌, ◌≤◌, ◌==◌, ◌||◌, nat_lt, [], length};
ghost use Rattle.stream_buf.specs.Ranges.{covered, range};
ghost use Rattle.stream_buf.specs.Scoreboard.{IsScoreboard, with_report, passed, first_gap, gap_len, unreported, lost_end, reported_end};

use crate::ranges::{Range, Ranges};
use crate::receive::MOST_RANGES;
use std::marker::Model;

/// How much may be reported past a place that isn't lost (RFC 6675 section 4, `IsLost`: one less than `DupThresh`).
#[derive(Clone, Copy, Debug, PartialEq, Eq)]
pub struct Tolerance {
    /// So many ranges.
    pub ranges: u32,
    /// So many octets.
    pub octets: u32,
}

/// What the peer reports that it keeps ahead of a gap, by distances past SND.UNA: at most [`MOST_RANGES`] ranges (RFC 6675 section 3).
#[derive(Drop)]
pub struct Scoreboard {
    ranges: Ranges,
}

impl Model for Scoreboard {
    ghost use Rattle.std.specs.Prelude.{List};
    ghost use Rattle.stream_buf.specs.declared.ranges.Range.{Range};
    ghost use Rattle.stream_buf.specs.Scoreboard.{IsScoreboard};

    ghost Value = { List Range };

    ghost view = { λ s. s.ranges };

    ghost invariant = { λ s. IsScoreboard s.ranges };
}

impl Scoreboard {
    /// Nothing is reported yet.
    pub fn new() -> Scoreboard
        ensures { result ≡ [] }
    {
        Scoreboard {
            ranges: Ranges::new(),
        }
    }

    /// Whether nothing is reported.
    pub fn is_empty(&self) -> bool
        ensures value { result ≡ (length self.now == 0) }
        ensures sound { IsScoreboard self.now }
    {
        self.ranges.len() == 0
    }

    /// A SACK block reports the octets from `start` up to `end`, by their distances past SND.UNA, while so many octets are outstanding
    /// (RFC 2018 section 3; RFC 6675 section 4, `Update`). Nothing changes where the block is empty, has the octet at SND.UNA or one that
    /// isn't outstanding, or would make more than [`MOST_RANGES`] ranges.
    #[tactic(auto, using(crate::proofs::Scoreboards::tested_is_scoreboard))]
    pub fn report(&mut self, start: u32, end: u32, outstanding: u32)
        ensures value { self.new ≡ with_report self.old outstanding (range start end) }
        ensures sound { IsScoreboard self.new }
    {
        let new = Range {
            start: start as usize,
            end: end as usize,
        };
        if 0 < start
            && start < end
            && end <= outstanding
            && self.ranges.len_with(new) <= MOST_RANGES
        {
            self.ranges.add(new);
        }
    }

    /// So many octets are acknowledged, and SND.UNA moves past them: a range that begins no further on is forgotten, and the others come
    /// nearer (RFC 6675 section 4, `Update`).
    #[tactic(auto, using(crate::proofs::Scoreboards::passed_is_scoreboard))]
    pub fn pass(&mut self, count: u32)
        ensures value { self.new ≡ passed count self.old }
        ensures sound { IsScoreboard self.new }
    {
        self.ranges.pass(count as usize);
    }

    /// Nothing is reported any longer, as once the retransmission timer expires (RFC 2018 section 8).
    pub fn clear(&mut self)
        ensures value { self.new ≡ [] }
        ensures sound { IsScoreboard self.new }
    {
        self.ranges.clear();
    }

    /// How many octets are reported.
    #[tactic(auto, using(crate::proofs::Kept::covered_within))]
    pub fn covered(&self) -> u32
        ensures value { result ≡ covered self.now }
        ensures sound { IsScoreboard self.now }
    {
        self.ranges.places() as u32
    }

    /// The first octet from a distance past SND.UNA on that is not reported, by its own distance (RFC 6675 section 4, `NextSeg`).
    #[tactic(auto, using(crate::proofs::Stepping::gap_stepped))]
    pub fn first_gap(&self, place: u32) -> u32
        ensures value { result ≡ first_gap self.now place }
        ensures from { place ≤ result }
        ensures sound { IsScoreboard self.now }
    {
        let mut gap = place as usize;
        for range in self.ranges.as_slice() {
            if gap < range.start {
                break;
            }
            gap = gap.max(range.end);
        }
        gap as u32
    }

    /// How many octets stand from a distance past SND.UNA up to the next range, `most` of them at most.
    pub fn gap_len(&self, place: u32, most: usize) -> usize
        ensures value { result ≡ gap_len self.now place most }
        ensures most { result ≤ most }
        ensures sound { IsScoreboard self.now }
    {
        let from = place as usize;
        for range in self.ranges.as_slice() {
            if from < range.start {
                return most.min(range.start - from);
            }
        }
        most
    }

    /// How many octets nearer than a distance past SND.UNA are not reported.
    #[tactic(auto, using(crate::proofs::Stepping::below_fits, crate::proofs::Gathering::apart_at, crate::proofs::Stepping::below_all, crate::proofs::Stepping::unreported_are))]
    pub fn unreported(&self, place: u32) -> u32
        ensures value { result ≡ unreported self.now place }
        ensures most { result ≤ place }
        ensures sound { IsScoreboard self.now }
    {
        let below = place as usize;
        let mut count = below;
        for range in self.ranges.as_slice() {
            count -= range.end.min(below) - range.start.min(below);
        }
        count as u32
    }

    /// The distance past SND.UNA below which each octet is lost that is not reported, where so much is tolerated (RFC 6675 section 4,
    /// `IsLost`); 0 where nothing is lost.
    pub fn lost_end(&self, tolerance: Tolerance) -> u32
        ensures value { result ≡ lost_end tolerance self.now }
        ensures sound { IsScoreboard self.now }
    {
        self.lost_past(tolerance.ranges, tolerance.octets)
    }

    /// The same where so many ranges and so many octets are tolerated.
    fn lost_past(&self, few: u32, most: u32) -> u32
        ensures value { result ≡ lost_end (record { ranges = few; octets = most }) self.now }
        ensures sound { IsScoreboard self.now }
    {
        let mut past: usize = 0;
        let mut octets: usize = 0;
        for range in self.ranges.as_slice().iter().rev() {
            past += 1;
            octets += range.end - range.start;
            if tells_loss(few, most, past, octets) {
                return range.start as u32;
            }
        }
        0
    }

    /// The distance past SND.UNA of the octet behind all that are reported; 0 where none is.
    #[tactic(auto, using(crate::proofs::Stepping::last_one))]
    pub fn reported_end(&self) -> u32
        ensures value { result ≡ reported_end self.now }
        ensures sound { IsScoreboard self.now }
    {
        match self.ranges.as_slice().last() {
            Some(range) => range.end as u32,
            None => 0,
        }
    }
}

/// Whether so many ranges, or so many octets in them, tell that what stands before them is lost, where `few` ranges and `most` octets
/// don't (RFC 6675 section 4, `IsLost`).
fn tells_loss(few: u32, most: u32, ranges: usize, octets: usize) -> bool
    ensures { result ≡ (nat_lt few ranges || nat_lt most octets) }
{
    ranges > few as usize || octets > most as usize
}
