//! Bits by place, in words of 64.

ghost use Rattle.std.specs.Prelude.{◌≡◌, ◌≢◌, ℕ, ◌+◌, ◌*◌, ◌/◌, ◌%◌, ◌<◌, ◌≤◌, Bool, true, false, length, slice_index, MatchOption};
ghost use Rattle.marks.specs.Bits.{has, IsFirst};

use crate::MOST;
use crate::bits::{first_bit, is_bit_set, with_bit};

/// Whether the bit of a place is set.
pub(crate) fn has(words: &[u64], place: usize) -> bool
    requires { place / 64 < length words.now }
    ensures { result ≡ has words.now place }
{
    is_bit_set(words[place / 64], place % 64)
}

/// Sets the bit of a place, or clears it.
pub(crate) fn write(words: &mut [u64], place: usize, is_set: bool)
    requires { place / 64 < length words.old }
    ensures same { has words.new place ≡ is_set }
    ensures others { (k : ℕ) → k ≢ place → has words.new k ≡ has words.old k }
{
    let word = place / 64;
    words[word] = with_bit(words[word], place % 64, is_set);
}

/// The word at this index, and 0 past the last one.
pub(crate) fn word_at(words: &[u64], at: usize) -> u64
    ensures { result ≡ slice_index words.now at }
{
    if at < words.len() { words[at] } else { 0 }
}

/// The first place from this one on whose bit is set, of those in its word.
pub(crate) fn first_in_word(words: &[u64], from: usize) -> Option<usize>
    requires { from / 64 < length words.now }
    ensures { MatchOption result ((k : ℕ) → from ≤ k → k / 64 ≡ from / 64 → has words.now k ≡ false) (λ place. IsFirst words.now from place) }
{
    let word = from / 64;
    let at = first_bit(words[word], from % 64)?;
    Some(word * 64 + at)
}

/// The first place from this one on whose bit is set.
pub(crate) fn first(words: &[u64], mut from: usize) -> Option<usize>
    requires { length words.now ≤ MOST }
    ensures { MatchOption result ((k : ℕ) → from ≤ k → has words.now k ≡ false) (λ place. IsFirst words.now from place) }
{
    while from / 64 < words.len() {
        if let Some(place) = first_in_word(words, from) {
            return Some(place);
        }
        from = next_marked(words, from / 64 + 1) * 64;
    }
    None
}

/// The first word from this one on that isn't 0, or how many words there are where none is.
pub(crate) fn next_marked(words: &[u64], mut at: usize) -> usize
    requires { at ≤ length words.now }
    ensures behind { at ≤ result }
    ensures within { result ≤ length words.now }
    ensures passed { (word : ℕ) → at ≤ word → word < result → slice_index words.now word ≡ 0 }
{
    while at < words.len() && words[at] == 0 {
        at += 1;
    }
    at
}
