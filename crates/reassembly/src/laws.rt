//! Laws of the definitions that the contracts of this crate cite: each is the contract of a function that does nothing.

ghost use Rattle.std.specs.Prelude.{◌≡◌, ◌≢◌, ◌+◌, ◌*◌, ◌^◌, ◌-◌, ◌<◌, ◌≤◌, ◌↔◌, ◌⊎◌, ◌++◌, ◌∷◌, ◌||◌, [], ℕ, List, All, if◌then◌else◌, length, nat_lt, true, false, Some, None, IfSome, IsTrue, is_some, option_map, slice_index, slice_index_or};
ghost use Rattle.std.specs.List.{Any};
ghost use Rattle.ipv4.specs.Datagram.{Datagram, IsDatagram};
ghost use Rattle.clock.specs.declared.moment.Moment.{Moment};
ghost use Rattle.clock.specs.Moments.{after};
ghost use Rattle.reassembly.specs.declared.finished.Finished.{Finished};
ghost use Rattle.reassembly.specs.declared.key.Key.{Key};
ghost use Rattle.reassembly.specs.declared.lately.TheConstants.{MOST_LATELY};
ghost use Rattle.reassembly.specs.declared.pool.TheConstants.{MOST_PLACES};
ghost use Rattle.ipv4.specs.declared.limits.TheConstants.{MAX_PAYLOAD};
ghost use Rattle.reassembly.specs.declared.assembled.Loss.TheVariants.{GivenUp, NoRoom};
ghost use Rattle.reassembly.specs.declared.assembled.Assembled.{Assembled};
ghost use Rattle.reassembly.specs.declared.assembled.Assembled.TheVariants.{Dropped, Waiting};
ghost use Rattle.reassembly.specs.Events.{Event, after_events, gathered, has_place, IsRight, IsRightFor, LendsWithin};
ghost use Rattle.reassembly.specs.Fragments.{key_of, end_of, ends_within, latest, latest_quote, end_shown_by, is_contradictory, IsPayload};
ghost use Rattle.reassembly.specs.Keys.{same_key};
ghost use Rattle.reassembly.specs.Lately.{noted, was_whole, with_room};
ghost use Rattle.reassembly.specs.Octets.{whole_of};
ghost use Rattle.reassembly.specs.Parts.{ArePartsOf, CoverAll};
ghost use Rattle.reassembly.specs.Places.{AnswersTake, LosesOldest, after_age, after_take, after_time, expired, fits, next_deadline, place_for, without_oldest};
ghost use Rattle.reassembly.specs.Reassembly.{PoolView, Reassembly, begun, after_fragments, conflicts, deadline_of, outcome_within};
ghost use Rattle.reassembly.specs.Reassembly.Outcome.{Waits, Completes, GivesUp};

/// After some fragments the octet of each place is that of the last of them to arrive which covers it, and there is none where
/// none does (RFC 791 section 3.2).
pub fn latest_octets()
    ensures { (now : Moment) (first : Datagram) (fragments : List Datagram) (i : ℕ)
        → slice_index_or (after_fragments (begun now first) fragments).octets i None ≡ latest fragments i }
{}

/// Where fragments overlap, the one that arrives last counts: each place that it covers has its octet then, and every other is as it was (RFC 791 section 3.2).
pub fn the_last_to_arrive_counts()
    ensures covered { (fragments : List Datagram) (d : Datagram) (i : ℕ) → 8 * d.offset ≤ i → i < 8 * d.offset + length d.payload
        → latest (fragments ++ d ∷ []) i ≡ Some (slice_index d.payload (i - 8 * d.offset)) }
    ensures before { (fragments : List Datagram) (d : Datagram) (i : ℕ) → i < 8 * d.offset → latest (fragments ++ d ∷ []) i ≡ latest fragments i }
    ensures behind { (fragments : List Datagram) (d : Datagram) (i : ℕ) → 8 * d.offset + length d.payload ≤ i → latest (fragments ++ d ∷ []) i ≡ latest fragments i }
{}

/// The end of a payload is known once a last fragment is among them, and it is the one that this tells (RFC 791 section
/// 3.2).
pub fn known_end()
    ensures { (now : Moment) (first : Datagram) (fragments : List Datagram)
        → (after_fragments (begun now first) fragments).end ≡ end_shown_by fragments }
{}

/// A datagram is whole exactly where its end is known and every octet below it came; its octets are then the latest of each place
/// (RFC 791 section 3.2).
pub fn whole_payload()
    ensures whole { (now : Moment) (first : Datagram) (fragments : List Datagram) (payload : List ℕ)
        → whole_of (after_fragments (begun now first) fragments).end (after_fragments (begun now first) fragments).octets ≡ Some payload
        → IsPayload fragments payload }
    ensures known { (now : Moment) (first : Datagram) (fragments : List Datagram) (payload : List ℕ)
        → IsPayload fragments payload
        → whole_of (after_fragments (begun now first) fragments).end (after_fragments (begun now first) fragments).octets ≡ Some payload }
{}

/// While no two fragments contradict each other, one more is given up with them exactly where it ends past the room of its place or
/// contradicts one of them: it has an octet past an end that was told, or it tells another end, or one before an octet that came (RFC
/// 791 section 3.2).
pub fn given_up()
    ensures conflicts { (now : Moment) (first : Datagram) (fragments : List Datagram) (d : Datagram)
        → is_contradictory fragments ≡ false
        → conflicts d (after_fragments (begun now first) fragments).end (length (after_fragments (begun now first) fragments).octets)
        ≡ is_contradictory (fragments ++ d ∷ []) }
    ensures given_up { (octets : ℕ) (now : Moment) (first : Datagram) (fragments : List Datagram) (d : Datagram)
        → is_contradictory fragments ≡ false
        → (outcome_within octets d (after_fragments (begun now first) fragments) ≡ GivesUp)
        ↔ ((octets < end_of d) ⊎ (is_contradictory (fragments ++ d ∷ []) ≡ true)) }
{}

/// What becomes of a datagram with one fragment more, while no two of those before contradict each other: it is given up where this
/// one ends past the room of its place or contradicts one of them; else its payload is whole where all of them have one, and the last
/// fragment zero of them is quoted; else it waits, with this one among its fragments (RFC 791 section 3.2, RFC 792).
pub fn one_more_fragment()
    ensures too_long { (octets : ℕ) (now : Moment) (first : Datagram) (fragments : List Datagram) (d : Datagram)
        → octets < end_of d
        → outcome_within octets d (after_fragments (begun now first) fragments) ≡ GivesUp }
    ensures given_up { (octets : ℕ) (now : Moment) (first : Datagram) (fragments : List Datagram) (d : Datagram)
        → is_contradictory fragments ≡ false
        → is_contradictory (fragments ++ d ∷ []) ≡ true
        → outcome_within octets d (after_fragments (begun now first) fragments) ≡ GivesUp }
    ensures whole { (octets : ℕ) (now : Moment) (first : Datagram) (fragments : List Datagram) (d : Datagram) (payload : List ℕ) (quote : List ℕ)
        → end_of d ≤ octets
        → is_contradictory fragments ≡ false
        → is_contradictory (fragments ++ d ∷ []) ≡ false
        → IsPayload (fragments ++ d ∷ []) payload
        → latest_quote (fragments ++ d ∷ []) ≡ Some quote
        → outcome_within octets d (after_fragments (begun now first) fragments) ≡ Completes payload quote }
    ensures waits { (octets : ℕ) (now : Moment) (first : Datagram) (fragments : List Datagram) (d : Datagram)
        → end_of d ≤ octets
        → is_contradictory fragments ≡ false
        → is_contradictory (fragments ++ d ∷ []) ≡ false
        → ((payload : List ℕ) → IsPayload (fragments ++ d ∷ []) payload → ⊥)
        → outcome_within octets d (after_fragments (begun now first) fragments) ≡ Waits (after_fragments (begun now first) (fragments ++ d ∷ [])) }
{}

/// After some fragments an error message quotes the last fragment zero that arrived, and there is nothing to quote where none did
/// (RFC 792).
pub fn quoted_fragment()
    ensures { (now : Moment) (first : Datagram) (fragments : List Datagram)
        → (after_fragments (begun now first) fragments).quote ≡ latest_quote fragments }
{}

/// A fragment zero is among the fragments that make a payload, as they cover its beginning: so there always is something to quote
/// of a whole datagram (RFC 792, RFC 1122 section 3.2.2).
pub fn wholes_are_quoted()
    ensures { (fragments : List Datagram) (payload : List ℕ) → IsPayload fragments payload → IsTrue (is_some (latest_quote fragments)) }
{}

/// Parts of one payload, in any order, some of them repeated or missing, never contradict each other, and make no other payload than
/// that one; where none is missing they make it (RFC 791 section 3.2).
pub fn parts_of_one_payload()
    ensures agree { (payload : List ℕ) (fragments : List Datagram) → ArePartsOf payload fragments → is_contradictory fragments ≡ false }
    ensures made { (payload made : List ℕ) (fragments : List Datagram) → ArePartsOf payload fragments → IsPayload fragments made → made ≡ payload }
    ensures enough { (payload : List ℕ) (fragments : List Datagram)
        → ArePartsOf payload fragments
        → CoverAll payload fragments
        → IsPayload fragments payload }
{}

/// So a datagram whose fragments are parts of one payload is put together right or not at all: with one more of them, which ends within
/// the room of its place, it waits, or that payload is whole; and it is whole where no part is missing (RFC 791 section 3.2).
pub fn right_or_not_at_all()
    ensures kept { (octets : ℕ) (now : Moment) (first : Datagram) (fragments : List Datagram) (d : Datagram) (payload : List ℕ)
        → end_of d ≤ octets
        → ArePartsOf payload (fragments ++ d ∷ [])
        → outcome_within octets d (after_fragments (begun now first) fragments) ≢ GivesUp }
    ensures right { (octets : ℕ) (now : Moment) (first : Datagram) (fragments : List Datagram) (d : Datagram) (payload made quote : List ℕ)
        → ArePartsOf payload (fragments ++ d ∷ [])
        → outcome_within octets d (after_fragments (begun now first) fragments) ≡ Completes made quote
        → made ≡ payload }
    ensures whole { (octets : ℕ) (now : Moment) (first : Datagram) (fragments : List Datagram) (d : Datagram) (payload quote : List ℕ)
        → end_of d ≤ octets
        → ArePartsOf payload (fragments ++ d ∷ [])
        → CoverAll payload (fragments ++ d ∷ [])
        → latest_quote (fragments ++ d ∷ []) ≡ Some quote
        → outcome_within octets d (after_fragments (begun now first) fragments) ≡ Completes payload quote }
{}

/// Whatever fragments come, the time of a datagram runs from the arrival of the first one, whose source, destination, protocol and
/// identification it keeps (RFC 791 section 3.2, RFC 1122 section 3.3.2).
pub fn first_fragment_stays()
    ensures since { (now : Moment) (first : Datagram) (fragments : List Datagram) → (after_fragments (begun now first) fragments).since ≡ now }
    ensures key { (now : Moment) (first : Datagram) (fragments : List Datagram) → (after_fragments (begun now first) fragments).key ≡ key_of first }
{}

/// A datagram is put together for sixty seconds from the arrival of its first fragment on: as long as they are not over it stays as it is, and then it is gone. At the last moment of the clock
/// all are over (RFC 1122 section 3.3.2).
pub fn a_minute_is_given()
    ensures stays { (r : Reassembly) (now : Moment) → now.0 < 2 ^ 64 - 1 → now.0 < r.since.0 + 60000 → after_time now (Some r) ≡ Some r }
    ensures over { (r : Reassembly) (now : Moment) → r.since.0 + 60000 ≤ now.0 → after_time now (Some r) ≡ None }
    ensures last { (r : Reassembly) (now : Moment) → 2 ^ 64 - 1 ≤ now.0 → after_time now (Some r) ≡ None }
    ensures none { (now : Moment) → after_time now None ≡ None }
{}

/// The next deadline is the least: the time of some datagram runs out then, and that of none earlier; there is none exactly where no
/// place is taken. Before it `Pool::age` ends nothing and tells nothing, and from it on it ends some datagram (RFC 1122 section
/// 3.3.2).
pub fn next_is_least()
    ensures none { (pool : PoolView) → (next_deadline pool ≡ None) ↔ All (λ place. place ≡ None) pool.places }
    ensures some { (pool : PoolView) (next : Moment)
        → next_deadline pool ≡ Some next
        → Any (λ place. option_map deadline_of place ≡ Some next) pool.places }
    ensures least { (pool : PoolView) (next : Moment)
        → next_deadline pool ≡ Some next
        → All (λ place. IfSome place (λ r. next.0 ≤ (deadline_of r).0)) pool.places }
    ensures before { (pool : PoolView) (now : Moment)
        → IfSome (next_deadline pool) (λ next. now.0 < next.0)
        → (after_age now pool ≡ pool) × (expired now pool ≡ []) }
    ensures reached { (pool : PoolView) (now : Moment)
        → IfSome (next_deadline pool) (λ next. next.0 ≤ now.0 → after_age now pool ≢ pool) }
{}

/// Whatever fragments are taken and whatever moments are told, from a new pool on, no two places have one key.
pub fn one_place_a_key()
    ensures { (places octets : ℕ) (events : List Event) (i j : ℕ) (a b : Reassembly)
        → slice_index_or (after_events places octets events).places i None ≡ Some a
        → slice_index_or (after_events places octets events).places j None ≡ Some b
        → same_key a.key b.key ≡ true
        → i ≡ j }
{}

/// Whatever was taken and told, from a new pool on, a fragment that ends within the room of a place is answered by those that were taken
/// with its key since this had no place last: as whole by their payload, with the quote of the last fragment zero of them (RFC 791
/// section 3.2, RFC 792).
pub fn answers_over_events()
    ensures { (places octets : ℕ) (events : List Event) (now : Moment) (d : Datagram) (taken : Assembled)
        → end_of d ≤ octets
        → AnswersTake now d (after_events places octets events) taken
        → IsRight (gathered places octets (key_of d) events ++ d ∷ []) taken }
{}

/// So where all of these are parts of one payload, in any order, some of them repeated or missing, it is put together right or not at
/// all, where the one that is taken ends within the room of a place, whatever else is taken and told; and it no longer waits where no
/// part is missing (RFC 791 section 3.2).
pub fn parts_over_events()
    ensures right { (places octets : ℕ) (events : List Event) (now : Moment) (d : Datagram) (taken : Assembled) (payload : List ℕ)
        → end_of d ≤ octets
        → AnswersTake now d (after_events places octets events) taken
        → ArePartsOf payload (gathered places octets (key_of d) events ++ d ∷ [])
        → IsRightFor payload taken }
    ensures whole { (places octets : ℕ) (events : List Event) (now : Moment) (d : Datagram) (taken : Assembled) (payload : List ℕ)
        → AnswersTake now d (after_events places octets events) taken
        → ArePartsOf payload (gathered places octets (key_of d) events ++ d ∷ [])
        → CoverAll payload (gathered places octets (key_of d) events ++ d ∷ [])
        → taken ≢ Waiting }
{}

/// A fragment alone never makes a datagram whole: what does so was never cut. So the fragment that makes a datagram whole always finds
/// others of it in their place.
pub fn a_fragment_alone_is_not_whole()
    ensures { (octets : ℕ) (now : Moment) (d : Datagram) (payload quote : List ℕ) → outcome_within octets d (begun now d) ≡ Completes payload quote
        → (d.more_fragments ≡ false) × (d.offset ≡ 0) }
{}

/// What gives way is the oldest of them and none else: one place becomes free, of a datagram that began no later than any other, and of
/// several of one moment it is the first place. Where none is put together nothing changes. And then there is a place for each fragment
/// that a place has room for.
pub fn the_oldest_gives_way()
    ensures none { (pool : PoolView) → All (λ place. place ≡ None) pool.places → without_oldest pool ≡ pool }
    ensures oldest { (pool : PoolView) (i : ℕ) (r : Reassembly) → slice_index_or pool.places i None ≡ Some r
        → LosesOldest pool.places (without_oldest pool).places }
    ensures room { (pool : PoolView) (d : Datagram) → IsTrue (fits pool d) → IsTrue (is_some (place_for d (without_oldest pool))) }
{}

/// A datagram that reaches past the room of a place is never put together. A fragment that ends there is not kept: its datagram is given
/// up where it has a place, else it finds none. So its key has no place after it, and no whole datagram that is lent has more octets,
/// whatever was taken and told, from a new pool on.
pub fn none_past_the_room()
    ensures refused { (now : Moment) (d : Datagram) (pool : PoolView) (taken : Assembled)
        → pool.octets < end_of d
        → AnswersTake now d pool taken
        → taken ≡ Dropped (if has_place (key_of d) pool then GivenUp else NoRoom) }
    ensures leaves { (places octets : ℕ) (events : List Event) (now : Moment) (d : Datagram)
        → octets < end_of d
        → has_place (key_of d) (after_take now d (after_events places octets events)) ≡ false }
    ensures lent { (places octets : ℕ) (events : List Event) (now : Moment) (d : Datagram) (taken : Assembled)
        → AnswersTake now d (after_events places octets events) taken
        → LendsWithin octets taken }
{}

/// No fragment ends past the room of the largest places.
pub fn the_largest_places_hold_every_fragment()
    ensures { (d : Datagram) → IsDatagram d → IsTrue (ends_within MAX_PAYLOAD d) }
{}

/// A datagram counts as whole lately for a second from the moment on at which it was noted as whole, and not for longer; it is forgotten
/// before that only where 64 others are noted after it.
pub fn whole_within_the_last_second()
    ensures noted { (finished : List Finished) (key : Key) (since now : Moment)
        → was_whole key now (noted key since finished) ≡ (nat_lt now.0 (after since 1000).0 || was_whole key now (with_room finished)) }
    ensures others { (finished : List Finished) (key other : Key) (since now : Moment) → same_key other key ≡ false
        → was_whole key now (noted other since finished) ≡ was_whole key now (with_room finished) }
    ensures few { (finished : List Finished) (key : Key) (since : Moment) → length finished ≤ 64 → length (noted key since finished) ≤ 64 }
{}

/// What the public constants are: a pool has at most 16 places, and 64 datagrams that were whole are known, which are this stack's own
/// numbers.
pub fn constants()
    ensures places { MOST_PLACES ≡ 16 }
    ensures lately { MOST_LATELY ≡ 64 }
{}
