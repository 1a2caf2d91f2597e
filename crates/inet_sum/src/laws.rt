//! Laws of the definitions that the contracts of this crate cite: each is the contract of a function
//! that does nothing.

ghost use Rattle.std.specs.Prelude.{◌≡◌, ℕ, ◌+◌, ◌-◌, ◌*◌, ◌%◌, ◌<◌, ◌^◌, ◌==◌, nat_lt, if◌then◌else◌, List, ◌∷◌, ◌++◌, length, true};
ghost use Rattle.byteorder.specs.Endian.{big_bytes};
ghost use Rattle.inet_sum.specs.Sum.{ones_complement, sum_of, sum_behind, low_word_sum, checksum_of};

/// Octets into which their checksum is put, behind an even number of them and in the place of two zeros, have the sum
/// 0xFFFF: so a receiver checks them (RFC 1071 section 1).
pub fn checksums_check()
    ensures { (before after : List ℕ) (words : ℕ) → length before ≡ 2 * words
        → sum_of (before ++ big_bytes 2 (checksum_of (before ++ 0 ∷ 0 ∷ after)) ++ after) ≡ 65535 }
{}

/// Two numbers of 16 bits are added in one's complement by adding the carry at the end again: a sum of 65,536 or more loses
/// 65,536 and gains 1 (RFC 1071 section 1).
pub fn carries_come_back()
    ensures { (a b : ℕ) → a < 2 ^ 16 → b < 2 ^ 16
        → ones_complement (a + b) ≡ (if nat_lt (a + b) 65536 then a + b else a + b - 65535) }
{}

/// The sum of two lists of octets, one behind the other, is had from their sums: they are added in one's complement, that of the
/// second with its two octets exchanged where the first has an odd number of octets (RFC 1071 section 2).
pub fn sums_join()
    ensures { (a b : List ℕ) → sum_of (a ++ b) ≡ ones_complement (sum_of a + sum_behind (length a % 2 == 1) (sum_of b)) }
{}

/// The sum of words that are read with their first octet low is the sum with its two octets exchanged (RFC 1071 section 2, byte order
/// independence).
pub fn octets_are_exchanged()
    ensures { (octets : List ℕ) → ones_complement (low_word_sum octets) ≡ sum_behind true (sum_of octets) }
{}
