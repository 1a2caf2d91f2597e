//! Laws over the definitions alone: functions with nothing to do, whose contracts are the laws.

ghost use Rattle.std.specs.Prelude.{ℕ, List, fold, Ok};
ghost use Rattle.counters.specs.Counting.{Event, after_event, new_counters};
ghost use Rattle.counters.specs.Tally.{IsTallyOf};

/// Whatever comes and goes out, and whatever ticks give up, from new counters on each count is the lesser of 2^64 - 1 and its number: of the frames that came or went out, of their octets, of the frames that were
/// dropped for its cause, or that found no room at what it counts, or of what was given up of it. So no count wraps, and at its last value it holds still.
pub fn counts_are_the_numbers()
    ensures { (events : List Event) → IsTallyOf events (fold after_event new_counters events) }
{}
