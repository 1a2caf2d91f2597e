//! Laws of a recovery where the set-up says that losses are repaired (RFC 6582, RFC 3042): each is the contract of a function that does nothing.

ghost use Rattle.std.specs.Prelude.{◌≡◌, ◌≢◌, ◌+◌, ◌-◌, ◌*◌, ◌^◌, ◌<◌, ◌≤◌, ◌⊎◌, ℕ, true, false, length, Some, None};
ghost use Rattle.ipv4.specs.declared.addr.Endpoint.{Endpoint};
ghost use Rattle.tcp_segment.specs.Segment.{Segment};
ghost use Rattle.tcp_segment.specs.Wire.{past};
ghost use Rattle.clock.specs.declared.moment.Moment.{Moment};
ghost use Rattle.clock.specs.Moments.{has_come};
ghost use Rattle.congestion.specs.Control.{repairs};
ghost use Rattle.congestion.specs.Window.{is_recovering, goes_on, third_is_next};
ghost use Rattle.congestion.specs.Events.Event.{PartialAck};
ghost use Rattle.retransmit.specs.Timeout.{least_of};
ghost use Rattle.tcp_halves.specs.Halves.{Room};
ghost use Rattle.tcp_halves.specs.Stream.{outstanding};
ghost use Rattle.tcp_state.specs.declared.emission.Due.{Due};
ghost use Rattle.tcp_state.specs.declared.emission.Stretch.{Stretch};
ghost use Rattle.tcp_state.specs.View.{View, IsSound, is_opening, is_closed, opened_actively};
ghost use Rattle.tcp_state.specs.Congestion.{KeepsCongestion};
ghost use Rattle.tcp_state.specs.Congestion.Signal.{Counts};
ghost use Rattle.tcp_state.specs.Timing.{probes};
ghost use Rattle.tcp_state.specs.New.{takes_fin};
ghost use Rattle.tcp_state.specs.Due.{first_due, again, end_of};
ghost use Rattle.tcp_state.specs.Arrival.{opened_passively, is_counted_duplicate, reports_loss, answers_probe, reopens_by, after_segment_at};
ghost use Rattle.tcp_state.specs.Selective.{selects, counts_pipe};
ghost use Rattle.tcp_state.specs.Counted.{IsDuplicate};
ghost use Rattle.tcp_state.specs.Edges.{Event, after_event, congestion_event_by};

/// A connection repairs losses, and begins its window and its timeout, as its host's set-up says, and as long as it lives.
pub fn the_set_up_stays()
    ensures opened { (room : Room) (local peer : Endpoint) (isn : ℕ) (now : Moment) → let v = opened_actively room local peer isn now in (v.congestion.control ≡ room.manner.control) × (v.resend.timeout.least ≡ least_of room.manner.least_timeout) }
    ensures accepted { (room : Room) (local peer : Endpoint) (isn : ℕ) (syn : Segment) (now : Moment) → let v = opened_passively room local peer isn syn now in (v.congestion.control ≡ room.manner.control) × (v.resend.timeout.least ≡ least_of room.manner.least_timeout) }
    ensures control { (v : View) (e : Event) → (after_event v e).congestion.control ≡ v.congestion.control }
    ensures least { (v : View) (e : Event) → (after_event v e).resend.timeout.least ≡ v.resend.timeout.least }
    ensures plain { (v : View) (e : Event) (octets : ℕ) → repairs v.congestion.control ≡ false → congestion_event_by v e ≢ Counts (PartialAck octets) }
{}

/// The end of a recovery is that of all that was outstanding at the third duplicate ACK that counts, or at the expiry (RFC 6582 section 3.2, steps 2 and 4). It keeps its number: an acknowledgement that moves SND.UNA brings it
/// as much nearer, and nothing else moves it.
pub fn the_end_of_a_recovery_is_known()
    ensures third { (v : View) (s : Segment) (now : Moment) → IsSound v → repairs v.congestion.control ≡ true → is_counted_duplicate v s ≡ true → third_is_next v.congestion ≡ true
        → (after_segment_at v s now).resend.recover ≡ outstanding v.sending }
    ensures expiry { (v : View) (now : Moment) → repairs v.congestion.control ≡ true → has_come v.timers.retransmission now ≡ true → is_closed (after_event v (Event.Ticks now)).state ≡ false
        → (after_event v (Event.Ticks now)).resend.recover ≡ outstanding v.sending }
    ensures others { (v : View) (e : Event) → IsSound v
        → ((after_event v e).resend.recover ≡ v.resend.recover - past (after_event v e).sending.una v.sending.una)
        ⊎ (((s : Segment) × (now : Moment) × (e ≡ Event.Hears s now) × (((is_counted_duplicate v s ≡ true) × (third_is_next v.congestion ≡ true)) ⊎ (reports_loss v s ≡ true)))
        ⊎ ((now : Moment) × (e ≡ Event.Ticks now) × (has_come v.timers.retransmission now ≡ true))) }
{}

/// Where reports don't rule, a partial ACK sends the segment at SND.UNA again, and that alone, and the recovery goes on (RFC 6582 section 3.2, step 3).
pub fn a_partial_ack_resends_one_segment()
    ensures { (v : View) (s : Segment) (now : Moment) → IsSound v → is_opening v.state ≡ false → goes_on v.congestion ≡ true → selects v ≡ false → s.acknowledgement < 2 ^ 32
        → let w = after_event v (Event.Hears s now) in w.sending.una ≢ v.sending.una → is_closed w.state ≡ false → 0 < w.resend.recover
        → (first_due w ≡ Some (Due.Text (again w 0))) × (w.resend.once ≡ true) × (is_recovering w.congestion ≡ true) }
{}

/// A recovery ends with an acknowledgement of all that was outstanding when it began, or with an expiry, and with nothing else (RFC 6582 section 3.2, steps 3 and 4).
pub fn a_recovery_ends_at_its_end()
    ensures { (v : View) (e : Event) → IsSound v → is_opening v.state ≡ false → goes_on v.congestion ≡ true → is_recovering (after_event v e).congestion ≡ false
        → ((s : Segment) × (now : Moment) × (e ≡ Event.Hears s now) × ((after_event v e).sending.una ≢ v.sending.una) × ((after_event v e).resend.recover ≡ 0))
        ⊎ ((now : Moment) × (e ≡ Event.Ticks now) × (has_come v.timers.retransmission now ≡ true)) }
{}

/// No recovery begins before all is acknowledged that was outstanding when the last one began or the timer expired (RFC 6582 section 3.2, step 2); and the answers to probes of a closed window count for nothing.
pub fn no_recovery_begins_below_the_last()
    ensures below { (v : View) (s : Segment) (now : Moment) → repairs v.congestion.control ≡ true → is_recovering v.congestion ≡ false → 0 < v.resend.recover → is_recovering (after_segment_at v s now).congestion ≡ false }
    ensures probing { (v : View) (s : Segment) (now : Moment) → IsSound v → repairs v.congestion.control ≡ true → probes v ≡ true → IsDuplicate v s → (after_segment_at v s now).congestion ≡ v.congestion }
{}

/// What went out in probes of a closed window alone, and isn't acknowledged, goes out again by the segment that opens the window, before anything new (RFC 9293 section 3.8.6.1): its peer may have refused it, and what is new stands behind it. It is all that is outstanding, and is no loss: the congestion window
/// stays as it is. Nothing goes out again by it where losses aren't repaired, where not only a probe took the number, or where the window was open.
pub fn what_a_closed_window_refused_goes_out_again()
    ensures sends { (v : View) (s : Segment) (now : Moment) → IsSound v → repairs v.congestion.control ≡ true → probes v ≡ true → v.sending.probed ≡ true → is_closed v.state ≡ false → answers_probe v s ≡ true
        → let w = after_segment_at v s now in is_closed w.state ≡ false → w.sending.una ≡ v.sending.una → 0 < w.sending.window
        → (first_due w ≡ Some (Due.Text (again w 0))) × (outstanding w.sending ≡ 1) × (w.congestion ≡ v.congestion) }
    ensures alone { (v : View) (s : Segment) → is_opening v.state ≡ false → (repairs v.congestion.control ≡ false) ⊎ ((v.sending.probed ≡ false) ⊎ (0 < v.sending.window)) → reopens_by v s ≡ false }
{}

/// Limited transmit (RFC 3042 section 2), where reports don't count what is in the network: new octets go past the congestion window by a segment for each of the first two duplicate ACKs at most, in no recovery, and never past the peer's window; and at the first two duplicate ACKs that
/// count a segment goes out, where as much is held and the peer's window takes it.
pub fn limited_transmit_keeps_the_peers_window()
    ensures within { (v : View) (stretch : Stretch) → IsSound v → counts_pipe v ≡ false → first_due v ≡ Some (Due.Text stretch) → outstanding v.sending ≤ stretch.offset → 0 < stretch.count → v.congestion.cwnd < end_of stretch
        → (end_of stretch ≤ v.congestion.cwnd + v.congestion.duplicates * v.congestion.smss) × (v.congestion.duplicates ≤ 2) × (end_of stretch ≤ v.sending.window) × (repairs v.congestion.control ≡ true) }
    ensures sends { (v : View) (s : Segment) (now : Moment) → IsSound v → KeepsCongestion v → is_closed v.state ≡ false → repairs v.congestion.control ≡ true → is_counted_duplicate v s ≡ true → reports_loss v s ≡ false → v.congestion.duplicates < 2 → v.resend.mark ≡ None
        → outstanding v.sending + v.sending.smss ≤ length v.sending.held → outstanding v.sending + v.sending.smss ≤ v.sending.window → outstanding v.sending ≤ v.congestion.cwnd + v.congestion.duplicates * v.congestion.smss
        → let w = after_segment_at v s now in first_due w ≡ Some (Due.Text (record { offset = outstanding v.sending; count = v.sending.smss; fin = takes_fin w (outstanding v.sending + v.sending.smss) })) }
{}
