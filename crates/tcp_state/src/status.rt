//! Laws of what is told of a connection as it stands, and of when it may give way to another one.

ghost use Rattle.std.specs.Prelude.{◌≡◌, ◌↔◌, ℕ, ◌<◌, ◌^◌, true, List, Some, Err};
ghost use Rattle.clock.specs.declared.moment.Moment.{Moment};
ghost use Rattle.tcp_segment.specs.Segment.{Segment};
ghost use Rattle.tcp_segment.specs.Wire.{past};
ghost use Rattle.tcp_halves.specs.Windows.{window_in, updates_window};
ghost use Rattle.tcp_state.specs.declared.calls.Refusal.{Refusal};
ghost use Rattle.tcp_state.specs.declared.state.State.{State};
ghost use Rattle.tcp_state.specs.Arrival.{after_window};
ghost use Rattle.tcp_state.specs.Calls.{send_answer};
ghost use Rattle.tcp_state.specs.Info.{info_of};
ghost use Rattle.tcp_state.specs.View.{View};
ghost use Rattle.tcp_state.specs.Way.{is_unanswered, left_since, lies_past};

/// What is told at once of a connection is so (RFC 9293 sections 3.3.1 and 3.10.5): an error is the one that each `send` is refused with; in flight are the numbers from SND.UNA to SND.NXT; and the peer's window is the one that the
/// segment told which was believed last.
pub fn what_is_told_is_so()
    ensures error { (v : View) (octets : List ℕ) (error : Refusal) → (info_of v).error ≡ Some error → send_answer v octets ≡ Err error }
    ensures in_flight { (v : View) → (info_of v).in_flight ≡ past v.sending.nxt v.sending.una }
    ensures window { (v : View) (s : Segment) → updates_window v.sending s.number s.acknowledgement ≡ true → (info_of (after_window v s)).peer_window ≡ window_in v.sending s.window }
{}

/// A connection gives way for nobody but in two states (RFC 9293 section 3.6.1, RFC 1122 section 4.2.2.13): half open, where a listener opened it and its SYN-ACK expired, or in TIME-WAIT, where its caller closed it, and then since it
/// came there. The number of a SYN lies past all that was heard where it isn't before RCV.NXT, as 32 bits tell it.
pub fn only_openings_and_time_wait_give_way()
    ensures unanswered { (v : View) → is_unanswered v ≡ true → (v.state ≡ State.SynReceived) × (v.passive ≡ true) × (0 < v.resend.expiries) }
    ensures left { (v : View) (since : Moment) → (left_since v ≡ Some since) ↔ ((v.state ≡ State.TimeWait) × (v.released ≡ true) × (v.since ≡ since)) }
    ensures past { (v : View) (s : Segment) → (lies_past v s ≡ true) ↔ (past s.number v.receiving.rnext < 2 ^ 31) }
{}
