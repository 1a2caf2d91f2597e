//! Laws of the definitions that the contracts of this crate cite: each is the contract of a function
//! that does nothing.

ghost use Rattle.std.specs.Prelude.{◌≡◌, ◌⊎◌, ℕ, ◌+◌, ◌*◌, ◌/◌, ◌^◌, ◌≤◌, Bool, true, false, if◌then◌else◌, nat_lt, min, max, ◌<◌, List, [], ◌∷◌, ◌++◌};
ghost use Rattle.congestion.specs.declared.control.Control.{Control};
ghost use Rattle.std.specs.List.{AllByRecursion};
ghost use Rattle.congestion.specs.Control.{plain, repairs};
ghost use Rattle.congestion.specs.Window.{Window, is_recovering, goes_on, allowed, third_is_next};
ghost use Rattle.congestion.specs.Events.{Event, IsOfPlain, after_event, window_after};
ghost use Rattle.congestion.specs.Events.Event.{NewAck, PartialAck, Expiry, Duplicate, Loss, Undo};

/// What a call makes of the window is what one more event makes of it (RFC 5681 sections 3.1 and 3.2).
pub fn one_more_event()
    ensures { (control : Control) (smss : ℕ) (resent : Bool) (events : List Event) (event : Event)
        → window_after control smss resent (events ++ event ∷ []) ≡ after_event (window_after control smss resent events) event }
{}

/// Whatever happens to a connection, its congestion window holds a segment (RFC 5681 section 3.1), and 2^30
/// octets at most.
pub fn window_in_range()
    ensures least { (control : Control) (smss : ℕ) (resent : Bool) (events : List Event) → 64 ≤ smss → smss ≤ 1460
        → smss ≤ (window_after control smss resent events).cwnd }
    ensures most { (control : Control) (smss : ℕ) (resent : Bool) (events : List Event) → 64 ≤ smss → smss ≤ 1460
        → (window_after control smss resent events).cwnd ≤ 2 ^ 30 }
{}

/// A new ACK raises the congestion window by a segment at most (RFC 5681 section 3.1), where losses are not repaired and so neither a partial ACK comes nor a loss that reports tell. Where they are, by two at most (RFC 3465
/// section 2.3); and the one that ends a recovery leaves a window of the threshold, or of no more than a segment past what is in flight, of two segments at least (RFC 6582 section 3.2, step 3).
pub fn grows_by_a_segment()
    ensures plain { (control : Control) (smss : ℕ) (resent : Bool) (events : List Event) (octets flight : ℕ) → 64 ≤ smss → smss ≤ 1460
        → repairs control ≡ false → AllByRecursion IsOfPlain events
        → (window_after control smss resent (events ++ NewAck octets flight ∷ [])).cwnd ≤ (window_after control smss resent events).cwnd + smss }
    ensures counted { (control : Control) (smss : ℕ) (resent : Bool) (events : List Event) (octets flight : ℕ) → 64 ≤ smss → smss ≤ 1460
        → is_recovering (window_after control smss resent events) ≡ false
        → (window_after control smss resent (events ++ NewAck octets flight ∷ [])).cwnd ≤ (window_after control smss resent events).cwnd + 2 * smss }
    ensures ends { (w : Window) (octets flight : ℕ) → goes_on w ≡ true → (after_event w (NewAck octets flight)).cwnd ≡ min (2 ^ 30) (min w.ssthresh (max flight w.smss + w.smss)) }
{}

/// Where losses are repaired, slow start counts the octets that are acknowledged, of two segments at most, but of one where it follows an expiry, and congestion avoidance grows by the share of the window that they are (RFC 3465
/// sections 2.1 to 2.3): a peer that acknowledges every second segment doesn't halve the growth.
pub fn octets_are_counted()
    ensures slow_start { (w : Window) (octets flight : ℕ) → repairs w.control ≡ true → is_recovering w ≡ false → w.cwnd < w.ssthresh → w.restarts ≡ false
        → (after_event w (NewAck octets flight)).cwnd ≡ min (2 ^ 30) (w.cwnd + min octets (2 * w.smss)) }
    ensures restarted { (w : Window) (octets flight : ℕ) → repairs w.control ≡ true → is_recovering w ≡ false → w.cwnd < w.ssthresh → w.restarts ≡ true
        → (after_event w (NewAck octets flight)).cwnd ≡ min (2 ^ 30) (w.cwnd + min octets w.smss) }
    ensures avoidance { (w : Window) (octets flight : ℕ) → repairs w.control ≡ true → is_recovering w ≡ false → w.ssthresh ≤ w.cwnd
        → (after_event w (NewAck octets flight)).cwnd ≡ min (2 ^ 30) (w.cwnd + max 1 (w.smss * min octets (2 * w.smss) / w.cwnd)) }
    ensures expiry { (w : Window) (flight : ℕ) → (after_event w (Expiry flight)).restarts ≡ true }
    ensures goes_on { (w : Window) (octets flight : ℕ) → w.cwnd < w.ssthresh → (after_event w (NewAck octets flight)).restarts ≡ w.restarts }
    ensures over { (w : Window) (octets flight : ℕ) → w.ssthresh ≤ w.cwnd → (after_event w (NewAck octets flight)).restarts ≡ false }
{}

/// Where losses are not repaired, the window is that of RFC 5681 alone: it begins as section 3.1 says, an ACK of new octets ends each recovery, and nothing goes out past it.
pub fn plain_is_rfc_5681()
    ensures begins { (smss : ℕ) → (window_after plain smss false []).cwnd ≡ (if nat_lt 2190 smss then 2 * smss else if nat_lt 1095 smss then 3 * smss else 4 * smss) }
    ensures begins_resent { (smss : ℕ) → (window_after plain smss true []).cwnd ≡ smss }
    ensures threshold { (smss : ℕ) (resent : Bool) → (window_after plain smss resent []).ssthresh ≡ 65535 }
    ensures new_ack { (w : Window) (octets flight : ℕ) → repairs w.control ≡ false → is_recovering w ≡ false
        → (after_event w (NewAck octets flight)).cwnd ≡ min (2 ^ 30) (w.cwnd + (if nat_lt w.cwnd w.ssthresh then min octets w.smss else max 1 (w.smss * w.smss / w.cwnd))) }
    ensures ends { (w : Window) (octets flight : ℕ) → repairs w.control ≡ false → is_recovering w ≡ true
        → ((after_event w (NewAck octets flight)).cwnd ≡ min (2 ^ 30) w.ssthresh) × (is_recovering (after_event w (NewAck octets flight)) ≡ false) }
    ensures third { (w : Window) (flight : ℕ) → repairs w.control ≡ false → third_is_next w ≡ true → (after_event w (Duplicate flight)).ssthresh ≡ max (flight / 2) (2 * w.smss) }
    ensures alone { (w : Window) → repairs w.control ≡ false → allowed w ≡ w.cwnd }
{}

/// The window begins with a segment where a SYN or SYN-ACK went out again (RFC 5681 section 3.1), else with as many as the set-up says, ten at most (RFC 6928); and its threshold where the set-up says, but at 65,535 octets at least and at
/// 2^30 at most. No event changes what it says.
pub fn the_set_up_says_where_it_begins()
    ensures segments { (control : Control) (smss : ℕ) → 1 ≤ control.first_segments → control.first_segments ≤ 10 → (window_after control smss false []).cwnd ≡ control.first_segments * smss }
    ensures ten { (control : Control) (smss : ℕ) → 10 ≤ control.first_segments → (window_after control smss false []).cwnd ≡ 10 * smss }
    ensures resent { (control : Control) (smss : ℕ) → (window_after control smss true []).cwnd ≡ smss }
    ensures threshold { (control : Control) (smss : ℕ) (resent : Bool) → 65535 ≤ control.first_threshold → control.first_threshold ≤ 2 ^ 30 → (window_after control smss resent []).ssthresh ≡ control.first_threshold }
    ensures least { (control : Control) (smss : ℕ) (resent : Bool) → 65535 ≤ (window_after control smss resent []).ssthresh }
    ensures most { (control : Control) (smss : ℕ) (resent : Bool) → (window_after control smss resent []).ssthresh ≤ 2 ^ 30 }
    ensures stays { (w : Window) (e : Event) → (after_event w e).control ≡ w.control }
{}

/// An expiry begins again with a window of one segment, and halves the threshold: it is half of what is in flight, two segments at least. A segment that is lost again leaves it as it is, until
/// an ACK acknowledges new octets (RFC 5681 section 3.1, equation 4).
pub fn an_expiry_begins_with_a_segment()
    ensures window { (w : Window) (flight : ℕ) → (after_event w (Expiry flight)).cwnd ≡ w.smss }
    ensures threshold { (w : Window) (flight : ℕ) → w.expired ≡ false → (after_event w (Expiry flight)).ssthresh ≡ max (flight / 2) (2 * w.smss) }
    ensures again { (w : Window) (flight : ℕ) → w.expired ≡ true → (after_event w (Expiry flight)).ssthresh ≡ w.ssthresh }
    ensures noted { (w : Window) (flight : ℕ) → (after_event w (Expiry flight)).expired ≡ true }
    ensures over { (w : Window) (octets flight : ℕ) → (after_event w (NewAck octets flight)).expired ≡ false }
{}

/// The third duplicate ACK is a loss, and neither the first nor the second is, which leave window and threshold as they are. The threshold is half of what is in flight then, two segments at least,
/// and the window three segments more, which have left the network (RFC 5681 section 3.2, steps 2 and 3). Each further one adds a segment (step 4).
pub fn the_third_duplicate_is_a_loss()
    ensures first { (w : Window) (flight : ℕ) → w.duplicates < 2 → let after = after_event w (Duplicate flight) in
        (after.cwnd ≡ w.cwnd) × (after.ssthresh ≡ w.ssthresh) × (after.duplicates ≡ w.duplicates + 1) × (is_recovering after ≡ false) }
    ensures third { (w : Window) (flight : ℕ) → w.duplicates ≡ 2 → repairs w.control ≡ false → let after = after_event w (Duplicate flight) in
        (after.ssthresh ≡ max (flight / 2) (2 * w.smss)) × (after.cwnd ≡ min (2 ^ 30) (max (flight / 2) (2 * w.smss) + 3 * w.smss)) × (is_recovering after ≡ true) }
    ensures repaired { (w : Window) (flight : ℕ) → w.duplicates ≡ 2 → repairs w.control ≡ true → let after = after_event w (Duplicate flight) in
        (after.ssthresh ≡ max (min flight w.cwnd / 2) (2 * w.smss)) × (after.cwnd ≡ min (2 ^ 30) (max (min flight w.cwnd / 2) (2 * w.smss) + 3 * w.smss)) × (is_recovering after ≡ true) }
    ensures further { (w : Window) (flight : ℕ) → 3 ≤ w.duplicates → let after = after_event w (Duplicate flight) in
        (after.cwnd ≡ min (2 ^ 30) (w.cwnd + w.smss)) × (after.ssthresh ≡ w.ssthresh) × (is_recovering after ≡ true) }
{}

/// A recovery ends with an ACK that is not partial, or with an expiry, and with nothing else (RFC 6582 section 3.2, steps 3 and 4); it begins with a third duplicate ACK or with a loss that reports tell
/// (RFC 6675 section 5), and with nothing else.
pub fn a_recovery_ends()
    ensures new_ack { (w : Window) (octets flight : ℕ) → is_recovering (after_event w (NewAck octets flight)) ≡ false }
    ensures expiry { (w : Window) (flight : ℕ) → is_recovering (after_event w (Expiry flight)) ≡ false }
    ensures partial { (w : Window) (octets : ℕ) → is_recovering (after_event w (PartialAck octets)) ≡ is_recovering w }
    ensures duplicate { (w : Window) (flight : ℕ) → is_recovering w ≡ true → is_recovering (after_event w (Duplicate flight)) ≡ true }
    ensures undo { (w : Window) → is_recovering (after_event w Undo) ≡ is_recovering w }
    ensures begins { (w : Window) (e : Event) → is_recovering w ≡ false → is_recovering (after_event w e) ≡ true
        → (flight : ℕ) × (((e ≡ Duplicate flight) × (third_is_next w ≡ true)) ⊎ (e ≡ Loss flight)) }
{}

/// A loss that reports tell halves the window where losses are repaired: it is half of what is in flight without that which limited transmit sent, two segments at least, with nothing for segments that left the network. A recovery
/// begins, in which nothing goes out past the window (RFC 6675 section 5, step 4.2).
pub fn a_loss_halves_the_window()
    ensures threshold { (w : Window) (flight : ℕ) → repairs w.control ≡ true → (after_event w (Loss flight)).ssthresh ≡ max (min flight w.cwnd / 2) (2 * w.smss) }
    ensures window { (w : Window) (flight : ℕ) → repairs w.control ≡ true → (after_event w (Loss flight)).cwnd ≡ min (2 ^ 30) (max (min flight w.cwnd / 2) (2 * w.smss)) }
    ensures begins { (w : Window) (flight : ℕ) → is_recovering (after_event w (Loss flight)) ≡ true }
    ensures alone { (w : Window) (flight : ℕ) → let after = after_event w (Loss flight) in allowed after ≡ after.cwnd }
    ensures restarts { (w : Window) (flight : ℕ) → (after_event w (Loss flight)).restarts ≡ false }
    ensures stays { (w : Window) (flight : ℕ) → (after_event w (Loss flight)).control ≡ w.control }
{}

/// What a loss took from the window and the threshold comes back where it is undone (RFC 3708 section 3), whatever acknowledgements came since; a window that is larger by then stays. An expiry is not undone, nor what was before it. A recovery that runs
/// goes on.
pub fn an_undo_gives_back_what_a_loss_took()
    ensures loss { (w : Window) (flight : ℕ) → let lost = after_event w (Loss flight) in let after = after_event lost Undo in (after.cwnd ≡ max lost.cwnd w.cwnd) × (after.ssthresh ≡ max lost.ssthresh w.ssthresh) }
    ensures third { (w : Window) (flight : ℕ) → third_is_next w ≡ true → let lost = after_event w (Duplicate flight) in let after = after_event lost Undo in (w.cwnd ≤ after.cwnd) × (w.ssthresh ≤ after.ssthresh) }
    ensures whole { (w : Window) (octets flight : ℕ) → let after = after_event w (NewAck octets flight) in (after.prior_cwnd ≡ w.prior_cwnd) × (after.prior_ssthresh ≡ w.prior_ssthresh) }
    ensures partial { (w : Window) (octets : ℕ) → let after = after_event w (PartialAck octets) in (after.prior_cwnd ≡ w.prior_cwnd) × (after.prior_ssthresh ≡ w.prior_ssthresh) }
    ensures never { (w : Window) → w.prior_cwnd ≡ 0 → w.prior_ssthresh ≡ 0 → let after = after_event w Undo in (after.cwnd ≡ w.cwnd) × (after.ssthresh ≡ w.ssthresh) }
    ensures expiry { (w : Window) (flight : ℕ) → let after = after_event w (Expiry flight) in (after.prior_cwnd ≡ 0) × (after.prior_ssthresh ≡ 0) }
    ensures begins { (control : Control) (smss : ℕ) (resent : Bool) → let w = window_after control smss resent [] in (w.prior_cwnd ≡ 0) × (w.prior_ssthresh ≡ 0) }
    ensures counts { (w : Window) → let after = after_event w Undo in (after.duplicates ≡ w.duplicates) × (after.expired ≡ w.expired) × (after.restarts ≡ w.restarts) }
{}

/// A partial ACK of a segment or more takes what it acknowledges from the window, but for a segment, as long as a segment is left (RFC 6582 section 3.2, step 3); and none raises it.
pub fn a_partial_ack_deflates()
    ensures falls { (w : Window) (octets : ℕ) → w.smss ≤ octets → octets ≤ w.cwnd → (after_event w (PartialAck octets)).cwnd + octets ≡ w.cwnd + w.smss }
    ensures less { (w : Window) (octets : ℕ) → octets < w.smss → octets + w.smss ≤ w.cwnd → (after_event w (PartialAck octets)).cwnd + octets ≡ w.cwnd }
    ensures never { (w : Window) (octets : ℕ) → w.smss ≤ w.cwnd → (after_event w (PartialAck octets)).cwnd ≤ w.cwnd }
{}

/// Limited transmit lets two segments go out past the window at most, none in a recovery, and leaves the window as it is (RFC 3042 section 2). What is sent so doesn't count as in flight at the third duplicate ACK
/// (RFC 5681 section 3.2, step 2).
pub fn limited_transmit_is_two_segments()
    ensures first { (w : Window) (flight : ℕ) → repairs w.control ≡ true → w.duplicates ≡ 0 → let after = after_event w (Duplicate flight) in (after.cwnd ≡ w.cwnd) × (allowed after ≡ w.cwnd + w.smss) }
    ensures second { (w : Window) (flight : ℕ) → repairs w.control ≡ true → w.duplicates ≡ 1 → let after = after_event w (Duplicate flight) in (after.cwnd ≡ w.cwnd) × (allowed after ≡ w.cwnd + 2 * w.smss) }
    ensures third { (w : Window) (flight : ℕ) → repairs w.control ≡ true → third_is_next w ≡ true → (after_event w (Duplicate flight)).ssthresh ≡ max (min flight w.cwnd / 2) (2 * w.smss) }
    ensures recovery { (w : Window) → is_recovering w ≡ true → allowed w ≡ w.cwnd }
    ensures most { (w : Window) → allowed w ≤ w.cwnd + 2 * w.smss }
{}
