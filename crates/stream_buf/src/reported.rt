//! Laws of what the peer reports (RFC 6675), over every list of ranges: each is the contract of a function that does nothing.

ghost use Rattle.std.specs.Prelude.{◌≡◌, ℕ, suc, ◌+◌, ◌-◌, ◌<◌, ◌≤◌, ◌||◌, nat_lt, Bool, true, false, if◌then◌else◌, List, filter};
ghost use Rattle.stream_buf.specs.declared.ranges.Range.{Range};
ghost use Rattle.stream_buf.specs.declared.scoreboard.Tolerance.{Tolerance};
ghost use Rattle.stream_buf.specs.Ranges.{AreApart};
ghost use Rattle.stream_buf.specs.Scoreboard.{IsScoreboard, has_place, is_reported, is_taken, with_report, passed, first_gap, gap_len, unreported, is_lost, lost_end, reported_end};

/// A place that isn't reported is lost where more ranges are reported past it than are tolerated, or more octets; and these are the
/// places before one end (RFC 6675 section 4, `IsLost`).
pub fn what_stands_before_enough_is_lost()
    ensures { (t : Tolerance) (place : ℕ) (reported : List Range) → AreApart 1 reported → is_reported reported place ≡ false
        → nat_lt place (lost_end t reported) ≡ is_lost t reported place }
{}

/// The first gap from a place on is a place that isn't reported, and all those before it are (RFC 6675 section 4, `NextSeg`).
pub fn the_first_gap_is_the_first()
    ensures unreported { (place : ℕ) (reported : List Range) → AreApart 1 reported → is_reported reported (first_gap reported place) ≡ false }
    ensures from { (place : ℕ) (reported : List Range) → place ≤ first_gap reported place }
    ensures first { (place d : ℕ) (reported : List Range) → place ≤ d → d < first_gap reported place → is_reported reported d ≡ true }
{}

/// No place of a gap is reported, none is counted past the most, and where fewer are, the next one is reported.
pub fn gaps_are_unreported()
    ensures unreported { (place most i : ℕ) (reported : List Range) → AreApart 1 reported → is_reported reported place ≡ false
        → i < gap_len reported place most → is_reported reported (place + i) ≡ false }
    ensures some { (place most : ℕ) (reported : List Range) → 0 < most → 0 < gap_len reported place most }
    ensures most { (place most : ℕ) (reported : List Range) → gap_len reported place most ≤ most }
    ensures whole { (place most : ℕ) (reported : List Range) → AreApart 1 reported → gap_len reported place most < most
        → is_reported reported (place + gap_len reported place most) ≡ true }
{}

/// The places below one that aren't reported are counted one by one.
pub fn unreported_places_are_counted()
    ensures none { (reported : List Range) → unreported reported 0 ≡ 0 }
    ensures next { (place : ℕ) (reported : List Range) → AreApart 1 reported
        → unreported reported (suc place) ≡ unreported reported place + (if is_reported reported place then 0 else 1) }
{}

/// A report that is taken adds its places and no others, and one that isn't adds none (RFC 6675 section 4, `Update`).
pub fn what_is_reported_is_taken()
    ensures taken { (outstanding place : ℕ) (reported : List Range) (new : Range) → IsScoreboard reported → is_taken reported outstanding new ≡ true
        → is_reported (with_report reported outstanding new) place ≡ (is_reported reported place || has_place place new) }
    ensures refused { (outstanding : ℕ) (reported : List Range) (new : Range) → is_taken reported outstanding new ≡ false
        → with_report reported outstanding new ≡ reported }
{}

/// What is reported once places are acknowledged was so before, as far past them; and it stays where one from them on and before it
/// isn't reported. The ranges that stay are those that begin past what is acknowledged.
pub fn acknowledgements_bring_reports_nearer()
    ensures ranges { (count place : ℕ) (reported : List Range)
        → is_reported (passed count reported) place ≡ is_reported (filter (λ r. nat_lt count r.start) reported) (place + count) }
    ensures was { (count place : ℕ) (reported : List Range) → is_reported (passed count reported) place ≡ true → is_reported reported (place + count) ≡ true }
    ensures stays { (count gap place : ℕ) (reported : List Range) → count ≤ gap → gap < place → is_reported reported gap ≡ false
        → is_reported reported place ≡ true → is_reported (passed count reported) (place - count) ≡ true }
{}

/// All that is reported stands before one end, and the last of it just before.
pub fn reports_end()
    ensures before { (place : ℕ) (reported : List Range) → is_reported reported place ≡ true → place < reported_end reported }
    ensures last { (reported : List Range) → AreApart 1 reported → 0 < reported_end reported → is_reported reported (reported_end reported - 1) ≡ true }
{}
