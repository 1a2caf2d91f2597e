//! Laws of octets that come late: each is the contract of a function that does nothing.

ghost use Rattle.std.specs.Prelude.{◌≡◌, ◌≢◌, ℕ, ◌+◌, ◌-◌, ◌*◌, ◌^◌, ◌<◌, ◌≤◌, ◌||◌, ◌⊎◌, nat_lt, min, max, true, false, List, ◌∷◌, length, filter};
ghost use Rattle.stream_buf.specs.Ranges.{covered};
ghost use Rattle.stream_buf.specs.Scoreboard.{is_reported};
ghost use Rattle.clock.specs.declared.moment.Moment.{Moment};
ghost use Rattle.clock.specs.Moments.{has_come};
ghost use Rattle.congestion.specs.Window.{third_is_next};
ghost use Rattle.tcp_segment.specs.declared.blocks.Block.{Block};
ghost use Rattle.tcp_segment.specs.Segment.{Segment, blocks_of};
ghost use Rattle.tcp_segment.specs.Wire.{past};
ghost use Rattle.tcp_halves.specs.Numbers.{is_before};
ghost use Rattle.tcp_halves.specs.Stream.{is_new_ack};
ghost use Rattle.tcp_state.specs.View.{View, IsSound, is_opening, is_closed};
ghost use Rattle.tcp_state.specs.Timing.{probes};
ghost use Rattle.tcp_state.specs.Congestion.{after_signal};
ghost use Rattle.tcp_state.specs.Selective.{selects, loss_end};
ghost use Rattle.tcp_state.specs.Arrival.{is_read, is_rejected, is_counted_duplicate, reports_loss, lies_in_first, tells_needless};
ghost use Rattle.tcp_state.specs.Edges.{Event, after_event, congestion_event_by};

/// An acknowledgement of what stands at SND.UNA tells how late that came, where nothing that is outstanding went out again: all that was reported came before it. The most that was reported so is remembered until an expiry, and nothing else
/// moves it.
pub fn how_late_octets_came_is_known()
    ensures late { (v : View) (s : Segment) (now : Moment) → is_opening v.state ≡ false → v.resend.recover ≡ 0 → v.resend.tail ≡ 0 → (after_event v (Event.Hears s now)).sending.una ≢ v.sending.una → is_closed (after_event v (Event.Hears s now)).state ≡ false
        → (after_event v (Event.Hears s now)).resend.reach ≡ max v.resend.reach (covered v.resend.reported) }
    ensures expiry { (v : View) (now : Moment) → has_come v.timers.retransmission now ≡ true → is_closed (after_event v (Event.Ticks now)).state ≡ false → (after_event v (Event.Ticks now)).resend.reach ≡ 0 }
    ensures others { (v : View) (e : Event) → is_closed (after_event v e).state ≡ false → ((after_event v e).resend.reach ≡ v.resend.reach)
        ⊎ (((s : Segment) × (now : Moment) × (e ≡ Event.Hears s now) × (v.resend.recover ≡ 0) × (v.resend.tail ≡ 0))
        ⊎ ((now : Moment) × (e ≡ Event.Ticks now) × (has_come v.timers.retransmission now ≡ true))) }
{}

/// Octets that come late are waited for: where some came behind more than a segment's octets, nothing is lost but by a probe of the tail while no more than twice as much is reported as was past those. Elsewhere three ranges past a place tell that it is lost,
/// or more octets than two segments have (RFC 6675 section 4, `IsLost`).
pub fn late_octets_are_waited_for()
    ensures late { (v : View) → IsSound v → v.sending.smss < v.resend.reach → covered v.resend.reported ≤ 2 * v.resend.reach → loss_end v ≤ v.resend.tail }
    ensures usual { (v : View) (place : ℕ) → IsSound v → v.resend.reach ≤ v.sending.smss → is_reported v.resend.reported place ≡ false
        → ((2 < length (filter (λ r. nat_lt place r.start) v.resend.reported)) ⊎ (2 * v.sending.smss < covered (filter (λ r. nat_lt place r.start) v.resend.reported))) → place < loss_end v }
{}

/// The first block of a segment tells that octets came twice where it ends at what the segment acknowledges or before, or lies in the second (RFC 2883 section 4). Past what stood at SND.UNA when a segment last counted as lost, they went out again since, and
/// needn't have (RFC 3708 section 2); but for a probe's, of the tail or of a closed window. Else a block reports what is kept.
pub fn what_came_twice_was_needless()
    ensures twice { (v : View) (s : Segment) (block : Block) (rest : List Block) → selects v ≡ true → is_opening v.state ≡ false → is_read v s ≡ true → probes v ≡ false → v.resend.tail ≡ 0 → blocks_of s ≡ block ∷ rest
        → (is_before s.acknowledgement block.right.0 ≡ false) ⊎ (lies_in_first block rest ≡ true) → (is_before v.sending.una block.right.0 ≡ true) ⊎ (past v.sending.una block.right.0 < v.resend.since_loss) → tells_needless v s ≡ true }
    ensures kept { (v : View) (s : Segment) (block : Block) (rest : List Block) → blocks_of s ≡ block ∷ rest → is_before s.acknowledgement block.right.0 ≡ true → lies_in_first block rest ≡ false → tells_needless v s ≡ false }
    ensures older { (v : View) (s : Segment) (block : Block) (rest : List Block) → blocks_of s ≡ block ∷ rest → is_before v.sending.una block.right.0 ≡ false → v.resend.since_loss ≤ past v.sending.una block.right.0 → tells_needless v s ≡ false }
    ensures unasked { (v : View) (s : Segment) → selects v ≡ false → tells_needless v s ≡ false }
    ensures probed { (v : View) (s : Segment) → 0 < v.resend.tail → tells_needless v s ≡ false }
{}

/// What is acknowledged since a segment last counted as lost is counted, as far as 32 bits go: so it is known which octets stood at SND.UNA then, or past that. Nothing else moves the count but a loss.
pub fn what_was_acknowledged_since_a_loss_is_known()
    ensures acknowledged { (v : View) (s : Segment) (now : Moment) → is_opening v.state ≡ false → reports_loss v s ≡ false → (after_event v (Event.Hears s now)).sending.una ≢ v.sending.una → is_closed (after_event v (Event.Hears s now)).state ≡ false
        → let w = after_event v (Event.Hears s now) in w.resend.since_loss ≡ min (2 ^ 32 - 1) (v.resend.since_loss + past w.sending.una v.sending.una) }
    ensures others { (v : View) (e : Event) → is_closed (after_event v e).state ≡ false → ((after_event v e).resend.since_loss ≡ v.resend.since_loss)
        ⊎ ((s : Segment) × (now : Moment) × (e ≡ Event.Hears s now) × ((is_new_ack v.sending s.acknowledgement ≡ true) ⊎ (((is_counted_duplicate v s ≡ true) × (third_is_next v.congestion ≡ true)) ⊎ (reports_loss v s ≡ true)))) }
{}

/// Where as many segments came twice as went out again since one last counted as lost, none was: the congestion window gets back what that took, at the segment that tells it (RFC 3708 section 3). One segment counts at most, and where fewer
/// came twice, nothing is given back.
pub fn a_needless_recovery_is_undone()
    ensures all { (v : View) (s : Segment) (now : Moment) → (is_closed v.state || is_rejected v s) ≡ false → tells_needless v s ≡ true → let w = after_event v (Event.Hears s now) in 0 < w.resend.since_loss → w.resend.resent ≤ w.resend.excused
        → let c = after_signal v.congestion (congestion_event_by v (Event.Hears s now)) w.sending.smss w.resend.syn_resent in w.congestion ≡ record c { cwnd = max c.cwnd c.prior_cwnd; ssthresh = max c.ssthresh c.prior_ssthresh } }
    ensures fewer { (v : View) (s : Segment) (now : Moment) → let w = after_event v (Event.Hears s now) in w.resend.excused < w.resend.resent
        → w.congestion ≡ after_signal v.congestion (congestion_event_by v (Event.Hears s now)) w.sending.smss w.resend.syn_resent }
    ensures needed { (v : View) (s : Segment) (now : Moment) → tells_needless v s ≡ false
        → let w = after_event v (Event.Hears s now) in w.congestion ≡ after_signal v.congestion (congestion_event_by v (Event.Hears s now)) w.sending.smss w.resend.syn_resent }
    ensures counted { (v : View) (s : Segment) (now : Moment) → (is_closed v.state || is_rejected v s) ≡ false → tells_needless v s ≡ true → is_counted_duplicate v s ≡ false → reports_loss v s ≡ false
        → let w = after_event v (Event.Hears s now) in 0 < w.resend.since_loss → w.resend.excused ≡ min (2 ^ 64 - 1) (v.resend.excused + 1) }
    ensures lost { (v : View) (s : Segment) (now : Moment) → IsSound v → reports_loss v s ≡ true → is_counted_duplicate v s ≡ false → (is_closed v.state || is_rejected v s) ≡ false → is_closed (after_event v (Event.Hears s now)).state ≡ false
        → let w = after_event v (Event.Hears s now) in (w.resend.since_loss ≡ 0) × (w.resend.excused ≡ v.resend.resent) }
    ensures others { (v : View) (e : Event) → ((after_event v e).resend.excused ≡ v.resend.excused)
        ⊎ ((s : Segment) × (now : Moment) × (e ≡ Event.Hears s now) × ((tells_needless v s ≡ true) ⊎ (((is_counted_duplicate v s ≡ true) × (third_is_next v.congestion ≡ true)) ⊎ (reports_loss v s ≡ true)))) }
{}
