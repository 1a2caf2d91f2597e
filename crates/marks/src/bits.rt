//! Bits by place, in words of 64.

ghost use Rattle.std.specs.Prelude.{◌≡◌, ◌≢◌, ℕ, ◌+◌, ◌/◌, ◌%◌, ◌<◌, ◌≤◌, Bool, true, false, length, MatchOption};
ghost use Rattle.marks.specs.Bits.{has, has_bit};

/// Whether this bit of a word is set.
pub(crate) fn is_bit_set(word: u64, at: usize) -> bool
    requires { at < 64 }
    ensures { result ≡ has_bit word at }
{
    (word >> at) % 2 == 1
}

/// The word with this bit set or not, and the others as they are.
pub(crate) fn with_bit(word: u64, at: usize, is_set: bool) -> u64
    requires { at < 64 }
    ensures same { has_bit result at ≡ is_set }
    ensures others { (k : ℕ) → k < 64 → k ≢ at → has_bit result k ≡ has_bit word k }
{
    let bit = 1 << at;
    if is_set { word | bit } else { word & !bit }
}

/// The word without this bit: those behind it move down, and the lowest of the next word comes last.
pub(crate) fn without_bit(word: u64, at: usize, next: u64) -> u64
    requires { at < 64 }
    ensures before { (k : ℕ) → k < at → has_bit result k ≡ has_bit word k }
    ensures behind { (k : ℕ) → at ≤ k → k + 1 < 64 → has_bit result k ≡ has_bit word (k + 1) }
    ensures last { has_bit result 63 ≡ has_bit next 0 }
{
    let low = (1 << at) - 1;
    (word & low) | ((word >> 1) & !low) | ((next % 2) << 63)
}

/// The first bit from this one on that is set.
pub(crate) fn first_bit(word: u64, from: usize) -> Option<usize>
    requires { from < 64 }
    ensures { MatchOption result ((k : ℕ) → from ≤ k → has_bit word k ≡ false) (λ at. (from ≤ at) × (at < 64) × (has_bit word at ≡ true) × ((k : ℕ) → from ≤ k → k < at → has_bit word k ≡ false)) }
{
    let ahead = word >> from;
    if ahead == 0 {
        None
    } else {
        Some(from + ahead.trailing_zeros() as usize)
    }
}
