//! Words summed with their carries, four words of 64 bits at a time.

ghost use Rattle.std.specs.Prelude.{◌≡◌, ℕ, ◌+◌, ◌*◌, ◌/◌, ◌%◌, ◌<◌, ◌≤◌, ◌^◌, List, [], ◌++◌, All, length};
ghost use Rattle.std.specs.Int.{from_bool};
ghost use Rattle.inet_sum.specs.Sum.{ones_complement};
ghost use Rattle.inet_sum.specs.Lanes.{AreTotals, total_of, wide_sum};

use crate::PART;
use std::simd::Simd;
use std::simd::prelude::*;

/// The octets that are summed at a time.
pub(crate) const BLOCK: usize = 32;

/// The octets of a stretch, whose fifteen blocks are summed with no look at how many are left: the 1,460 of a full segment are three stretches,
/// and 20 behind them.
const STRETCH: usize = 480;

/// The octets of a stretch that join the sum whose turn it is, eight blocks; those behind them join the other.
const FRONT: usize = 256;

/// The octets of most headers of a datagram, and of most segments without octets, whose words are added with no look at how many are left.
const HEADER: usize = 20;

/// Where the upper half of a word stands in it.
const UPPER: u64 = 1 << 32;

/// What 64-bit words sum to so far, and how many carries went into neither sum. The carry out of a word goes into the next one, so a processor takes one
/// instruction for a word; and blocks join two sums in turn, so it need not wait for the carries of one to go on with the other.
#[derive(Clone, Copy)]
struct Totals {
    next: u64,
    other: u64,
    carries: u64,
}

impl Totals {
    /// The totals of no octets.
    fn none() -> Totals
        ensures totals { AreTotals (total_of result) 0 [] }
        ensures carries { result.carries ≡ 0 }
    {
        Totals {
            next: 0,
            other: 0,
            carries: 0,
        }
    }

    /// The totals with these octets behind the others and with a carry, and whether there is one out of the last word.
    fn with(self, octets: Simd<u8, 32>, carry: bool) -> (Totals, bool)
        ensures totals { (count : ℕ) (before : List ℕ) → AreTotals (total_of self + from_bool carry) count before
            → AreTotals (total_of result.0 + from_bool result.1) (count + 4) (before ++ octets) }
        ensures carries { result.0.carries ≡ self.carries }
    {
        let [a, b, c, d] = Simd::<u64, 4>::from_le_bytes(octets).to_array();
        let (first, carry) = add(self.next, a, carry);
        let (second, carry) = add(first, b, carry);
        let (third, carry) = add(second, c, carry);
        let (next, carry) = add(third, d, carry);
        (Totals { next, ..self }, carry)
    }

    /// The totals with these blocks behind the others. It is the other sum's turn then.
    fn with_all(self, blocks: &[u8]) -> Totals
        requires whole { length blocks.now % BLOCK ≡ 0 }
        requires carries { self.carries < 2 ^ 62 }
        ensures totals { (count : ℕ) (before : List ℕ) → AreTotals (total_of self) count before
            → AreTotals (total_of result) (count + length blocks.now / 8) (before ++ blocks.now) }
        ensures carries { result.carries ≤ self.carries + 1 }
    {
        let mut totals = self;
        let mut carry = false;
        for i in 0..blocks.len() / BLOCK {
            (totals, carry) = totals.with(Simd::from_slice(&blocks[BLOCK * i..]), carry);
        }
        Totals {
            next: totals.other,
            other: totals.next,
            carries: totals.carries + u64::from(carry),
        }
    }

    /// The totals with a stretch behind the others.
    fn with_stretch(self, stretch: &[u8]) -> Totals
        requires whole { length stretch.now ≡ STRETCH }
        requires carries { self.carries + 1 < 2 ^ 62 }
        ensures totals { (count : ℕ) (before : List ℕ) → AreTotals (total_of self) count before
            → AreTotals (total_of result) (count + length stretch.now / 8) (before ++ stretch.now) }
        ensures carries { result.carries ≤ self.carries + 2 }
    {
        let (front, back) = stretch.split_at(FRONT);
        self.with_all(front).with_all(back)
    }

    /// What all words come to in one's complement, as a number of little more than 32 bits.
    fn sum(self) -> u64
        requires { self.carries < 2 ^ 62 }
        ensures sum { (count : ℕ) (octets : List ℕ) → AreTotals (total_of self) count octets → All (λ octet. octet < 256) octets
            → ones_complement result ≡ ones_complement (wide_sum octets) }
        ensures bound { result ≤ 2 ^ 33 + self.carries }
    {
        let (sum, carry) = add(self.next, self.other, false);
        sum / UPPER + sum % UPPER + self.carries + u64::from(carry)
    }
}

/// The sum of two words and of a carry into them, and whether there is one out of them.
fn add(left: u64, right: u64, carry: bool) -> (u64, bool)
    ensures { result.0 + 2 ^ 64 * from_bool result.1 ≡ left + right + from_bool carry }
{
    let sum = left.wrapping_add(right);
    let carried = sum.wrapping_add(u64::from(carry));
    (carried, (sum < left) | (carried < sum))
}

/// What the 32-bit words of one part come to in one's complement.
pub(crate) fn words_of(part: &[u8]) -> u64
    requires { length part.now ≤ PART }
    ensures sum { ones_complement result ≡ ones_complement (wide_sum part.now) }
    ensures bound { result < 2 ^ 62 }
{
    if part.len() == HEADER {
        return word_by_word(part);
    }
    if part.len() < BLOCK {
        return rest_of(part);
    }
    let stretches = part.len() / STRETCH;
    let mut totals = Totals::none();
    for i in 0..stretches {
        totals = totals.with_stretch(&part[STRETCH * i..STRETCH * i + STRETCH]);
    }
    let whole = part.len() / BLOCK * BLOCK;
    totals = totals.with_all(&part[STRETCH * stretches..whole]);
    totals.sum() + rest_of(&part[whole..])
}

/// The whole-number sum of the 32-bit words of octets that are fewer than a block.
fn rest_of(octets: &[u8]) -> u64
    requires { length octets.now < BLOCK }
    ensures sum { result ≡ wide_sum octets.now }
    ensures bound { result ≤ 2 ^ 32 * length octets.now }
{
    let (four, octets) = front_of(octets, 4);
    let (two, octets) = front_of(octets, 2);
    four + two + word_by_word(octets)
}

/// The whole-number sum of the first words, where there are so many, and the octets behind them.
fn front_of(octets: &[u8], words: usize) -> (u64, &[u8])
    requires bound { length octets.now < BLOCK }
    requires words { words ≤ 4 }
    ensures sum { result.0 + wide_sum result.1.now ≡ wide_sum octets.now }
    ensures bound { result.0 + 2 ^ 32 * length result.1.now ≤ 2 ^ 32 * length octets.now }
{
    if octets.len() < 4 * words {
        return (0, octets);
    }
    let (front, rest) = octets.split_at(4 * words);
    (word_by_word(front), rest)
}

/// The whole-number sum of a few words, one after the other.
fn word_by_word(octets: &[u8]) -> u64
    requires { length octets.now < BLOCK }
    ensures sum { result ≡ wide_sum octets.now }
    ensures bound { result ≤ 2 ^ 32 * length octets.now }
{
    let mut total = 0;
    let mut rest = octets;
    while let [a, b, c, d, tail @ ..] = rest {
        total += u64::from(u32::from_le_bytes([*a, *b, *c, *d]));
        rest = tail;
    }
    if rest.is_empty() {
        return total;
    }
    let last = match rest {
        [a, b, c] => [*a, *b, *c, 0],
        [a, b] => [*a, *b, 0, 0],
        [a] => [*a, 0, 0, 0],
        _ => [0; 4],
    };
    total + u64::from(u32::from_le_bytes(last))
}
