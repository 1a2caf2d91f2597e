//! Bits by place, in words of 64, and above these a summary: of each word one bit, which says whether any of its bits is set.

ghost use Rattle.std.specs.Prelude.{◌≡◌, ◌≢◌, ℕ, ◌+◌, ◌*◌, ◌/◌, ◌%◌, ◌<◌, ◌≤◌, Bool, true, false, length, slice_index, slice_set, MatchOption};
ghost use Rattle.marks.specs.Bits.{has, IsFirst, Summarizes};

use crate::MOST;
use crate::bits::{with_bit, without_bit};
use crate::words::{first, first_in_word, next_marked, word_at, write};

/// Sets the bit of a place, or clears it.
pub(crate) fn put(words: &mut [u64], summary: &mut [u64], place: usize, is_set: bool)
    requires within { place / 64 < length words.old }
    requires room { length words.old ≤ 64 * length summary.old }
    requires summary { Summarizes summary.old words.old }
    ensures same { has words.new place ≡ is_set }
    ensures others { (k : ℕ) → k ≢ place → has words.new k ≡ has words.old k }
    ensures summary { Summarizes summary.new words.new }
{
    let at = place / 64;
    let word = with_bit(words[at], place % 64, is_set);
    replace(words, summary, at, word);
}

/// Takes out the bit of a place, and moves the later ones down. No bit is set behind the first `used` words.
pub(crate) fn take_out(words: &mut [u64], summary: &mut [u64], place: usize, used: usize)
    requires within { place / 64 < used }
    requires used { used ≤ length words.old }
    requires clear { (k : ℕ) → 64 * used ≤ k → has words.old k ≡ false }
    requires most { length words.old ≤ MOST }
    requires room { length words.old ≤ 64 * length summary.old }
    requires summary { Summarizes summary.old words.old }
    ensures before { (k : ℕ) → k < place → has words.new k ≡ has words.old k }
    ensures behind { (k : ℕ) → place ≤ k → has words.new k ≡ has words.old (k + 1) }
    ensures summary { Summarizes summary.new words.new }
{
    move_down(words, summary, place);
    for at in place / 64 + 1..used {
        move_down(words, summary, at * 64);
    }
}

/// The first place from this one on whose bit is set. Where none is the summary alone tells it.
pub(crate) fn first_from(words: &[u64], summary: &[u64], from: usize) -> Option<usize>
    requires most { length words.now ≤ MOST }
    requires little { length summary.now ≤ MOST }
    requires summary { Summarizes summary.now words.now }
    ensures { MatchOption result ((k : ℕ) → from ≤ k → has words.now k ≡ false) (λ place. IsFirst words.now from place) }
{
    if next_marked(summary, 0) == summary.len() {
        return None;
    }
    let at = from / 64;
    if at >= words.len() {
        return None;
    }
    if let Some(place) = first_in_word(words, from) {
        return Some(place);
    }
    let further = first(summary, at + 1)?;
    first_in_word(words, further * 64)
}

/// Takes the bit of a place out of its word: those behind it move down, and the lowest of the next word comes last.
fn move_down(words: &mut [u64], summary: &mut [u64], place: usize)
    requires within { place / 64 < length words.old }
    requires room { length words.old ≤ 64 * length summary.old }
    requires summary { Summarizes summary.old words.old }
    ensures before { (k : ℕ) → k < place → has words.new k ≡ has words.old k }
    ensures behind { (k : ℕ) → place ≤ k → k / 64 ≡ place / 64 → has words.new k ≡ has words.old (k + 1) }
    ensures later { (k : ℕ) → place / 64 < k → slice_index words.new k ≡ slice_index words.old k }
    ensures summary { Summarizes summary.new words.new }
{
    let at = place / 64;
    let next = word_at(words, at + 1);
    let word = without_bit(words[at], place % 64, next);
    replace(words, summary, at, word);
}

/// Another word in place of one.
fn replace(words: &mut [u64], summary: &mut [u64], at: usize, word: u64)
    requires within { at < length words.old }
    requires room { length words.old ≤ 64 * length summary.old }
    requires summary { Summarizes summary.old words.old }
    ensures words { words.new ≡ slice_set words.old at word }
    ensures summary { Summarizes summary.new words.new }
{
    let old = words[at];
    if word == old {
        return;
    }
    words[at] = word;
    if word == 0 || old == 0 {
        write(summary, at, old == 0);
    }
}
