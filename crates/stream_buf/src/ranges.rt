//! Ranges of octets that are kept ahead of a gap.

ghost use Rattle.std.specs.Prelude.{◌≡◌, ℕ, ◌+◌, ◌<◌, ◌≤◌, ◌^◌, [], ◌∷◌, length, insert, map, filter, nat_lt, count_by};
ghost use Rattle.stream_buf.specs.Ranges.{AreApart, range, covered, hull, touches, with_range, nearer, further};
ghost use Rattle.stream_buf.specs.Scoreboard.{passed};

use crate::receive::MOST_RANGES;
use arrayvec::ArrayVec;
use std::marker::Model;

/// Places without a gap, by their distances from RCV.NXT, in octets.
#[derive(Clone, Copy, Default, Debug, PartialEq, Eq)]
pub struct Range {
    /// The first of them.
    pub start: usize,
    /// The place behind the last one.
    pub end: usize,
}

impl Range {
    /// Whether the two have a place in common, or one begins where the other ends.
    fn touches(self, other: Range) -> bool
        ensures { result ≡ touches other self }
    {
        other.start <= self.end && self.start <= other.end
    }

    /// The places from the first to the last one of two ranges.
    fn hull(self, other: Range) -> Range
        ensures { result ≡ hull other self }
    {
        Range {
            start: other.start.min(self.start),
            end: other.end.max(self.end),
        }
    }

    /// Whether it begins further on than a place.
    fn begins_past(self, place: usize) -> bool
        ensures { result ≡ nat_lt place self.start }
    {
        place < self.start
    }

    /// As it is told from a place that is so much further on.
    fn nearer(self, count: usize) -> Range
        requires { (count ≤ self.start) × (self.start < self.end) }
        ensures { result ≡ nearer count self }
    {
        Range {
            start: self.start - count,
            end: self.end - count,
        }
    }
}

/// The ranges that are kept, in order and with gaps between them. None begins at RCV.NXT.
#[derive(Drop)]
pub(crate) struct Ranges {
    list: ArrayVec<Range, MOST_RANGES>,
}

impl Model for Ranges {
    ghost use Rattle.std.specs.Prelude.{List};
    ghost use Rattle.stream_buf.specs.declared.ranges.Range.{Range};
    ghost use Rattle.stream_buf.specs.Ranges.{AreApart};

    ghost Value = { List Range };

    ghost view = { λ r. r.list.items };

    ghost invariant = { λ r. AreApart 1 r.list.items };
}

impl Ranges {
    /// No ranges.
    pub(crate) fn new() -> Ranges
        ensures { result ≡ [] }
    {
        Ranges {
            list: ArrayVec::new(),
        }
    }

    /// They themselves.
    pub(crate) fn as_slice(&self) -> &[Range]
        ensures { result.now ≡ self.now }
    {
        self.list.as_slice()
    }

    /// How many there are.
    pub(crate) fn len(&self) -> usize
        ensures { result ≡ length self.now }
    {
        self.list.len()
    }

    /// How many places they have.
    pub(crate) fn places(&self) -> usize
        requires { covered self.now < 2 ^ 64 }
        ensures { result ≡ covered self.now }
    {
        self.list
            .iter()
            .map(|range| range.end.saturating_sub(range.start))
            .sum()
    }

    /// How many there would be with one more, which may join some of them.
    pub(crate) fn len_with(&self, new: Range) -> usize
        requires { new.start < new.end }
        ensures { result ≡ length (with_range self.now new) }
    {
        self.list.len() - touching(&self.list, new) + 1
    }

    /// Adds one, which joins those that it touches.
    pub(crate) fn add(&mut self, new: Range)
        requires places { (0 < new.start) × (new.start < new.end) }
        requires room { length (with_range self.old new) ≤ MOST_RANGES }
        ensures ranges { self.new ≡ with_range self.old new }
        ensures apart { AreApart 1 self.new }
    {
        let (place, joined) = gather(&mut self.list, new);
        self.list.insert(place, joined);
    }

    /// RCV.NXT moves, since the places from there up to `end` have their octets: behind them and all ranges that they join. Says by how
    /// much; the other ranges come nearer by as much.
    pub(crate) fn join_front(&mut self, end: usize) -> usize
        requires { 0 < end }
        ensures ranges { with_range self.old (range 0 end) ≡ range 0 result ∷ map (further result) self.new }
        ensures apart { AreApart 1 self.new }
        ensures few { length self.new ≤ MOST_RANGES }
    {
        let (_, joined) = gather(&mut self.list, Range { start: 0, end });
        move_nearer(&mut self.list, joined.end);
        joined.end
    }

    /// Forgets those that begin no further on than `count`; the others come nearer by as much.
    pub(crate) fn pass(&mut self, count: usize)
        ensures ranges { self.new ≡ passed count self.old }
        ensures apart { AreApart 1 self.new }
    {
        keep_past(&mut self.list, count);
        move_nearer(&mut self.list, count);
    }

    /// Forgets them.
    pub(crate) fn clear(&mut self)
        ensures { self.new ≡ [] }
    {
        self.list.clear();
    }
}

/// How many ranges `new` touches.
fn touching(ranges: &[Range], new: Range) -> usize
    ensures { result ≡ count_by (λ r. touches r new) ranges.now }
{
    ranges.iter().filter(|range| range.touches(new)).count()
}

/// Takes out the ranges that `new` touches, and answers the place in the list for what they cover together, and that.
fn gather(list: &mut ArrayVec<Range, MOST_RANGES>, new: Range) -> (usize, Range)
    ensures place { result.0 ≤ length list.new.items }
    ensures joined { with_range list.old.items new ≡ insert list.new.items result.0 result.1 }
    ensures first { new.start ≡ 0 → (result.0 ≡ 0) × (result.1.start ≡ 0) }
{
    let mut place = 0;
    let mut joined = new;
    for _ in 0..list.len() {
        let range = list[place];
        if range.end < joined.start {
            place += 1;
        } else if range.start <= joined.end {
            joined = joined.hull(range);
            list.remove(place);
        } else {
            return (place, joined);
        }
    }
    (place, joined)
}

/// Forgets those that begin no further on than a place.
fn keep_past(list: &mut ArrayVec<Range, MOST_RANGES>, place: usize)
    ensures { list.new.items ≡ filter (λ r. nat_lt place r.start) list.old.items }
{
    list.retain(|range| range.begins_past(place));
}

/// RCV.NXT moves by so much towards these ranges, none of which it passes.
fn move_nearer(ranges: &mut [Range], count: usize)
    requires { AreApart count ranges.old }
    ensures { ranges.new ≡ map (nearer count) ranges.old }
{
    for range in ranges.iter_mut() {
        *range = range.nearer(count);
    }
}
