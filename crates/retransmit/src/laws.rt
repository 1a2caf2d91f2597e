//! Laws of the definitions that the contracts of this crate cite: each is the contract of a function
//! that does nothing.

ghost use Rattle.std.specs.Prelude.{◌≡◌, ◌≢◌, ◌||◌, ℕ, ◌+◌, ◌-◌, ◌*◌, ◌^◌, ◌≤◌, max, min, List, [], ◌∷◌, ◌++◌, map, replicate, Option, Some};
ghost use Rattle.clock.specs.declared.moment.Moment.{Moment};
ghost use Rattle.clock.specs.Moments.{has_come};
ghost use Rattle.retransmit.specs.declared.timers.Timers.{Timers};
ghost use Rattle.retransmit.specs.declared.timers.TimerKind.{TimerKind};
ghost use Rattle.retransmit.specs.declared.timers.TimerKind.TheVariants.{Retransmission, Probe, DelayedAck, Override};
ghost use Rattle.retransmit.specs.Deadlines.{deadline_of, with_deadline, is_due, next_of};
ghost use Rattle.retransmit.specs.Timeout.{least_of};
ghost use Rattle.retransmit.specs.Events.{Event, AreBetween, after_event, timeout_after};
ghost use Rattle.retransmit.specs.Events.Event.{Sample, Expiry, EstablishedAfterLostSyn};

/// What a call makes of the timeout is what one more event makes of it (RFC 6298 sections 2, 3 and 5).
pub fn one_more_event()
    ensures { (least : ℕ) (events : List Event) (event : Event)
        → timeout_after least (events ++ event ∷ []) ≡ after_event (timeout_after least events) event }
{}

/// Whatever happens to a connection, its timeout lies between the least of its set-up and a minute; with the usual least it
/// is a second at least (RFC 6298 sections 2.4 and 2.5).
pub fn timeout_in_range()
    ensures least { (least : ℕ) (events : List Event) → least_of least ≤ (timeout_after least events).rto }
    ensures most { (least : ℕ) (events : List Event) → (timeout_after least events).rto ≤ 60000 }
    ensures usual { (events : List Event) → 1000 ≤ (timeout_after 1000 events).rto }
{}

/// Until a round-trip time is measured the timeout is a second, whatever least one the set-up asks for (RFC 6298 section 2.1); and three seconds where the connection becomes established
/// after the timer of its SYN had expired (section 5.7).
pub fn the_timeout_before_a_sample()
    ensures first { (least : ℕ) → (timeout_after least []).rto ≡ 1000 }
    ensures lost_syn { (least : ℕ) (events : List Event) → (timeout_after least (events ++ EstablishedAfterLostSyn ∷ [])).rto ≡ 3000 }
{}

/// The timeout follows the round-trip times that were measured (RFC 6298 sections 2.2 and 2.3). The first one, R, leads to SRTT + 4 * RTTVAR = R + 4 * R / 2, three times as much. Of any that lie between two bounds
/// it is the lesser one at least, and the greater one and four variations at most: of half the greater one, as the first has it, or of what lies between both.
pub fn the_timeout_follows_the_samples()
    ensures first { (least r : ℕ) → 1 ≤ r → r ≤ 20000 → (timeout_after least (Sample r ∷ [])).rto ≡ max (least_of least) (3 * r) }
    ensures from { (least a b : ℕ) (samples : List ℕ) → samples ≢ [] → AreBetween a b samples → b ≤ 60000 → a ≤ (timeout_after least (map Sample samples)).rto }
    ensures to { (least a b : ℕ) (samples : List ℕ) → samples ≢ [] → 1 ≤ a → AreBetween a b samples → b ≤ 60000 → (timeout_after least (map Sample samples)).rto ≤ max (least_of least) (b + max (2 * b) (4 * (b - a) + 3)) }
{}

/// Whatever happens to a connection, its least timeout is that of its set-up (RFC 6298 section 2.4).
pub fn least_is_of_the_set_up()
    ensures { (least : ℕ) (events : List Event) → (timeout_after least events).least ≡ least_of least }
{}

/// Expiries in a row double the timeout, up to a minute (RFC 6298 section 5.5).
pub fn expiries_in_a_row()
    ensures { (least : ℕ) (events : List Event) (k : ℕ)
        → (timeout_after least (events ++ replicate k Expiry)).rto ≡ min 60000 (2 ^ k * (timeout_after least events).rto) }
{}

/// The next deadline is the least: it has come exactly where that of some kind has (RFC 6298 section 5).
pub fn next_is_least()
    ensures { (t : Timers) (now : Moment)
        → has_come (next_of t) now
        ≡ (is_due t Retransmission now || is_due t Probe now || is_due t DelayedAck now || is_due t Override now) }
{}

/// A bound that the deadline of each timer keeps, the next deadline keeps; and where a timer runs, there is a next one, no
/// later than that timer's. So who waits for the next deadline waits for no timer too long.
pub fn the_next_deadline_keeps_each_bound()
    ensures bounded { (t : Timers) (bound next : Moment)
        → ((kind : TimerKind) (deadline : Moment) → deadline_of t kind ≡ Some deadline → deadline.0 ≤ bound.0)
        → next_of t ≡ Some next → next.0 ≤ bound.0 }
    ensures runs { (t : Timers) (kind : TimerKind) (deadline : Moment) → deadline_of t kind ≡ Some deadline
        → (next : Moment) × (next_of t ≡ Some next) × (next.0 ≤ deadline.0) }
{}

/// Each kind has its own place: what is put there is told there, and no other kind sees it.
pub fn each_kind_has_its_place()
    ensures told { (t : Timers) (kind : TimerKind) (deadline : Option Moment)
        → deadline_of (with_deadline t kind deadline) kind ≡ deadline }
    ensures others { (t : Timers) (kind : TimerKind) (deadline : Option Moment) (other : TimerKind)
        → kind ≢ other → deadline_of (with_deadline t kind deadline) other ≡ deadline_of t other }
{}
