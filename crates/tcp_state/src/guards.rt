//! Laws of a connection of a host on its guard (RFC 5961): each is the contract of a function that does nothing.

ghost use Rattle.std.specs.Prelude.{◌≡◌, ◌≢◌, ◌⊎◌, ℕ, ◌+◌, ◌≤◌, true, false, List, Some};
ghost use Rattle.clock.specs.declared.moment.Moment.{Moment};
ghost use Rattle.tcp_segment.specs.Segment.{Segment};
ghost use Rattle.tcp_halves.specs.Stream.{outstanding};
ghost use Rattle.tcp_state.specs.declared.emission.Due.{Due};
ghost use Rattle.tcp_state.specs.View.{View, IsSound, is_syn_sent, is_closed};
ghost use Rattle.tcp_state.specs.Arrival.{is_too_old, draws_one, is_opening_syn, holds_back, is_silenced, after_segment_at};
ghost use Rattle.tcp_state.specs.Due.{first_due};
ghost use Rattle.tcp_state.specs.Duties.{Places, StandsAt};
ghost use Rattle.tcp_state.specs.Edges.{Event, after_event};
ghost use Rattle.tcp_state.specs.Drawn.{answered_among, EachWithin, unguarded};

/// On guard octets are taken, and a FIN counts, only with an acknowledgement of what was sent that isn't older than the largest window that the peer ever told is wide (RFC 5961 section 5.2).
pub fn octets_come_with_acknowledgements_in_reach()
    ensures { (at : Places) (v : View) (s : Segment) (now : Moment) → IsSound v → v.guard.on ≡ true → is_syn_sent v.state ≡ false → StandsAt at v s → is_closed (after_segment_at v s now).state ≡ false
        → (after_segment_at v s now).receiving ≢ v.receiving → (at.una ≤ at.ack + v.sending.max_window) × (at.ack ≤ at.una + outstanding v.sending) }
{}

/// What is kept to guard moves by segments alone.
pub fn guards_move_by_segments()
    ensures { (v : View) (e : Event) → ((after_event v e).guard ≡ v.guard) ⊎ ((s : Segment) × (now : Moment) × (e ≡ Event.Hears s now)) }
{}

/// Of what comes within a second, ten segments at most that aren't used, or ask for one, draw an acknowledgement (RFC 5961 section 7). One that is held back doesn't count; a second after the last that was drawn the next is drawn again, unless it ends
/// the connection.
pub fn ten_are_answered_in_a_second()
    ensures few { (v : View) (events : List Event) (from : Moment) → EachWithin from events → answered_among v events ≤ 10 }
    ensures held { (v : View) (s : Segment) (now : Moment) → is_closed v.state ≡ false → holds_back v s now ≡ true
        → (let w = after_segment_at v s now in (w.owes_ack ≡ false) × (w.guard.drawn ≡ v.guard.drawn) × (w.guard.latest ≡ v.guard.latest)) }
    ensures later { (v : View) (s : Segment) (now : Moment) → is_closed v.state ≡ false → draws_one v s ≡ true → v.guard.latest.0 + 1000 ≤ now.0 → is_opening_syn v s ≡ false
        → is_closed (after_segment_at v s now).state ≡ false → (after_segment_at v s now).owes_ack ≡ true }
{}

/// The SYN that opened a connection at a listener, and comes again while it opens, draws the SYN-ACK again on guard, and no acknowledgement alone.
pub fn a_syn_that_comes_again_draws_the_syn_ack()
    ensures { (v : View) (s : Segment) (now : Moment) → IsSound v → v.guard.on ≡ true → is_opening_syn v s ≡ true → holds_back v s now ≡ false
        → (let w = after_segment_at v s now in (w.owes_ack ≡ false) × (first_due w ≡ Some Due.Syn)) }
{}

/// A segment whose acknowledgement isn't too old, and which isn't answered otherwise, is on guard what it is without guards, but for what is kept to guard.
pub fn all_else_is_as_without_guards()
    ensures { (v : View) (s : Segment) (now : Moment) → is_too_old v s.acknowledgement ≡ false → is_silenced v s now ≡ false
        → (let w = after_segment_at (unguarded v) s now in record (after_segment_at v s now) { guard = w.guard } ≡ w) }
{}
