//! Laws of a probe of the tail (RFC 8985 section 7): each is the contract of a function that does nothing.

ghost use Rattle.std.specs.Prelude.{◌≡◌, ◌≢◌, ℕ, ◌+◌, ◌-◌, ◌/◌, ◌<◌, ◌≤◌, ◌⊎◌, min, max, true, false, List, [], ◌∷◌, length, Some, None};
ghost use Rattle.clock.specs.declared.moment.Moment.{Moment};
ghost use Rattle.clock.specs.Moments.{has_come};
ghost use Rattle.retransmit.specs.declared.rto.Estimate.{Estimate};
ghost use Rattle.congestion.specs.Window.{is_recovering, after_new_ack, after_loss};
ghost use Rattle.tcp_segment.specs.declared.blocks.Block.{Block};
ghost use Rattle.tcp_segment.specs.Segment.{Segment, blocks_of};
ghost use Rattle.tcp_segment.specs.Wire.{past};
ghost use Rattle.tcp_halves.specs.Numbers.{is_before};
ghost use Rattle.tcp_halves.specs.Stream.{outstanding};
ghost use Rattle.tcp_state.specs.declared.emission.Due.{Due};
ghost use Rattle.tcp_state.specs.View.{View, IsSound, is_opening, is_closed};
ghost use Rattle.tcp_state.specs.Selective.{selects};
ghost use Rattle.tcp_state.specs.Timing.{expires};
ghost use Rattle.tcp_state.specs.Tail.{tail_at, is_tail_due};
ghost use Rattle.tcp_state.specs.Arrival.{is_read, is_report};
ghost use Rattle.tcp_state.specs.Due.{first_due, again};
ghost use Rattle.tcp_state.specs.Edges.{Event, after_event};

/// Where the moment of a probe of the tail has come, and that of an expiry has not, a tick makes the last segment due again, that alone, within both windows; the congestion window stays (section 7.3). Without reports none comes, and
/// none before all is acknowledged that was outstanding at the last. It comes two smoothed round trips after the moment from which the retransmission timer runs, 10 ms at least, and no later than that expires (section 7.2).
pub fn a_silent_tail_goes_out_again()
    ensures goes { (v : View) (now : Moment) → IsSound v → is_tail_due v now ≡ true → expires v now ≡ false → is_closed (after_event v (Event.Ticks now)).state ≡ false
        → let w = after_event v (Event.Ticks now) in (first_due w ≡ Some (Due.Text (again w (outstanding v.sending - v.sending.smss)))) × (w.resend.once ≡ true) × (w.resend.tail ≡ outstanding v.sending) × (w.congestion ≡ v.congestion) }
    ensures unasked { (v : View) → selects v ≡ false → tail_at v ≡ None }
    ensures once { (v : View) → 0 < v.resend.tail → tail_at v ≡ None }
    ensures wait { (v : View) (deadline at : Moment) (estimate : Estimate) → IsSound v → v.timers.retransmission ≡ Some deadline → v.resend.timeout.estimate ≡ Some estimate → v.resend.timeout.rto ≤ deadline.0 → tail_at v ≡ Some at
        → at.0 + v.resend.timeout.rto ≡ deadline.0 + min v.resend.timeout.rto (max 10 (estimate.s8 / 4)) }
{}

/// The end of what was outstanding at a probe of the tail keeps its number: an acknowledgement that moves SND.UNA brings it as much nearer, an expiry forgets it, and nothing else moves it.
pub fn the_end_of_a_probe_is_known()
    ensures expiry { (v : View) (now : Moment) → has_come v.timers.retransmission now ≡ true → is_closed (after_event v (Event.Ticks now)).state ≡ false → (after_event v (Event.Ticks now)).resend.tail ≡ 0 }
    ensures all { (v : View) (e : Event) → IsSound v
        → ((after_event v e).resend.tail ≡ v.resend.tail - past (after_event v e).sending.una v.sending.una)
        ⊎ ((now : Moment) × (e ≡ Event.Ticks now) × (((is_tail_due v now ≡ true) × ((after_event v e).resend.tail ≡ outstanding v.sending)) ⊎ ((has_come v.timers.retransmission now ≡ true) × ((after_event v e).resend.tail ≡ 0)))) }
{}

/// An acknowledgement of all that was outstanding at a probe of the tail, in no recovery, tells that what this brought was lost, and the congestion window pays for that by what was outstanding then, as at any loss, before the acknowledgement counts (section 7.4.2). One whose first block
/// tells that octets came twice (RFC 2883) is free of that: nothing was lost but an acknowledgement.
pub fn a_probe_that_repairs_is_paid_for()
    ensures paid { (v : View) (s : Segment) (now : Moment) → is_opening v.state ≡ false → selects v ≡ true → 0 < v.resend.tail → is_recovering v.congestion ≡ false → (after_event v (Event.Hears s now)).sending.una ≢ v.sending.una
        → (after_event v (Event.Hears s now)).resend.tail ≡ 0 → is_closed (after_event v (Event.Hears s now)).state ≡ false → blocks_of s ≡ []
        → (after_event v (Event.Hears s now)).congestion ≡ after_new_ack (after_loss v.congestion v.resend.tail) (min (past (after_event v (Event.Hears s now)).sending.una v.sending.una) (length v.sending.held)) (outstanding (after_event v (Event.Hears s now)).sending) }
    ensures free { (v : View) (s : Segment) (now : Moment) (block : Block) (rest : List Block) → is_opening v.state ≡ false → selects v ≡ true → 0 < v.resend.tail → is_recovering v.congestion ≡ false → (after_event v (Event.Hears s now)).sending.una ≢ v.sending.una
        → (after_event v (Event.Hears s now)).resend.tail ≡ 0 → is_closed (after_event v (Event.Hears s now)).state ≡ false → is_report v s ≡ false → is_read v s ≡ true → blocks_of s ≡ block ∷ rest → is_before (after_event v (Event.Hears s now)).sending.una block.right.0 ≡ false
        → (after_event v (Event.Hears s now)).congestion ≡ after_new_ack v.congestion (min (past (after_event v (Event.Hears s now)).sending.una v.sending.una) (length v.sending.held)) (outstanding (after_event v (Event.Hears s now)).sending) }
{}
