//! Laws of what a connection says, to its peer by segments and to its caller by errors, and of what it sends.

ghost use Rattle.std.specs.Prelude.{◌≡◌, ◌↔◌, Some, is_some, min, ◌*◌, ◌≢◌, ℕ, None, ◌+◌, ◌<◌, ◌≤◌, ◌^◌, ◌⊎◌, ◌||◌, ◌&&◌, not, true, false, length, []};
ghost use Rattle.tcp_segment.specs.Segment.{Segment, Spells};
ghost use Rattle.tcp_segment.specs.Wire.{wire, past};
ghost use Rattle.clock.specs.declared.moment.Moment.{Moment};
ghost use Rattle.tcp_state.specs.declared.connection.Fate.{Fate};
ghost use Rattle.tcp_state.specs.declared.calls.Refusal.{Refusal};
ghost use Rattle.tcp_state.specs.declared.state.State.{State};
ghost use Rattle.tcp_state.specs.declared.emission.Due.{Due};
ghost use Rattle.tcp_state.specs.declared.emission.Stretch.{Stretch};
ghost use Rattle.tcp_state.specs.Selective.{repairs_gaps, counts_pipe, pipe, allowance};
ghost use Rattle.tcp_halves.specs.Stream.{outstanding};
ghost use Rattle.tcp_state.specs.View.{View, IsSound, is_opening, awaits_fin_ack};
ghost use Rattle.tcp_state.specs.Most.{most_due};
ghost use Rattle.tcp_state.specs.New.{takes_fin};
ghost use Rattle.tcp_state.specs.Due.{MayGoOut, again_at, is_missing, first_due, segment_octets, after_emitted};
ghost use Rattle.tcp_state.specs.Arrival.{is_acceptable_to, fate};
ghost use Rattle.tcp_state.specs.Edges.{Event, after_event, state_after};
ghost use Rattle.tcp_state.specs.Said.{segment_of, HasFlags, IsSo, IsResetAtNext, IsResetOfSyn, IsClosedBy, MayLose, AreBothShut, IsWrongAck, MayReject};

/// What each segment that goes out says is so of the connection that sends it (RFC 9293 sections 3.1, 3.4, 3.8.6 and 3.10.7.4): its octets are those that are held for their numbers; it acknowledges
/// RCV.NXT, and the window that it tells, in whole units, or in octets where SYN stands, ends at the right edge that the connection keeps from then on. Each control bit stands exactly where it is due. A stretch has its place, its octets and its FIN, a
/// probe the oldest octet, or the FIN where none is held; a SYN, a reset and an acknowledgement alone have no octets, and the last has the number SND.NXT, or the one before where only a
/// probe of a closed window took that; a probe of a silent peer has none either, and the number before SND.NXT (section 3.8.4). The octets that go out spell that segment.
pub fn segments_say_what_is_so()
    ensures says { (v : View) (due : Due) (now : Moment) → IsSound v → MayGoOut v due → IsSo v (after_emitted v due now).receiving.edge (segment_of v due) }
    ensures flags { (v : View) (due : Due) → MayGoOut v due → HasFlags v due (let s = segment_of v due in s.flags) }
    ensures stretches { (v : View) (stretch : Stretch) → MayGoOut v (Due.Text stretch)
        → (let s = segment_of v (Due.Text stretch) in (s.number ≡ wire v.sending.una stretch.offset) × (length s.octets ≡ stretch.count)) }
    ensures probes { (v : View) → MayGoOut v Due.Probe
        → (let s = segment_of v Due.Probe in (s.number ≡ v.sending.una) × ((length s.octets ≡ 1) ⊎ ((v.sending.held ≡ []) × (s.octets ≡ [])))) }
    ensures alone { (v : View) → IsSound v → (let s = segment_of v Due.Ack in (s.octets ≡ []) × (v.sending.probed ≡ false → s.number ≡ v.sending.nxt) × (v.sending.probed ≡ true → wire s.number 1 ≡ v.sending.nxt)) }
    ensures asks { (v : View) → IsSound v → (let s = segment_of v Due.KeepAlive in (s.octets ≡ []) × (wire s.number 1 ≡ v.sending.nxt)) }
    ensures spelled { (v : View) (due : Due) → IsSound v → MayGoOut v due → length v.local.addr.0 ≡ 4 → length v.peer.addr.0 ≡ 4 → v.local.port < 2 ^ 16 → v.peer.port < 2 ^ 16
        → Spells v.local.addr v.peer.addr (segment_of v due) (segment_octets v due) }
{}

/// A reset that acts tells the caller why its connection ended, by the state in which it came (RFC 9293 sections 3.10.7.3, second, and 3.10.7.4, second): refused while the connection opened, reset where octets
/// might still have come or gone, and no error where both sides were closed. What a listener opened, and is not established, goes back to LISTEN. No other segment tells an error.
pub fn resets_are_told()
    ensures refused { (v : View) (s : Segment) (now : Moment) → IsSound v → v.state ≡ State.SynSent → IsResetOfSyn v s → IsClosedBy Refusal.ECONNREFUSED (after_event v (Event.Hears s now)) }
    ensures opening { (v : View) (s : Segment) (now : Moment) → v.state ≡ State.SynReceived → v.passive ≡ false → IsResetAtNext v s
        → IsClosedBy Refusal.ECONNREFUSED (after_event v (Event.Hears s now)) }
    ensures listener { (v : View) (s : Segment) (now : Moment) → v.state ≡ State.SynReceived → v.passive ≡ true → IsResetAtNext v s → state_after v (Event.Hears s now) ≡ State.Listen }
    ensures lost { (v : View) (s : Segment) (now : Moment) → MayLose v.state → IsResetAtNext v s → IsClosedBy Refusal.ECONNRESET (after_event v (Event.Hears s now)) }
    ensures shut { (v : View) (s : Segment) (now : Moment) → AreBothShut v.state → IsResetAtNext v s
        → ((after_event v (Event.Hears s now)).state ≡ State.Closed) × ((after_event v (Event.Hears s now)).pending_error ≡ None) }
    ensures others { (v : View) (s : Segment) (now : Moment) → IsSound v → s.acknowledgement < 2 ^ 32 → (after_event v (Event.Hears s now)).pending_error ≢ v.pending_error
        → ((v.state ≡ State.SynSent) × IsResetOfSyn v s) ⊎ (((v.state ≡ State.SynReceived) ⊎ MayLose v.state) × IsResetAtNext v s) }
{}

/// While a connection opens, an acknowledgement of nothing that is outstanding is rejected, and answered by a reset: in SYN-SENT always, in SYN-RECEIVED where the segment is acceptable and no SYN; and no other segment is
/// (RFC 9293 sections 3.10.7.3, first, and 3.10.7.4, fifth).
pub fn wrong_acknowledgements_are_rejected()
    ensures { (v : View) (s : Segment) → (fate v s ≡ Fate.Rejected) ↔ (IsWrongAck v s × MayReject v s) }
{}

/// A SYN in the window ends what a listener opened and is not established: that goes back to LISTEN (RFC 9293 section 3.10.7.4, fourth).
pub fn second_syns_go_back_to_listen()
    ensures { (v : View) (s : Segment) (now : Moment) → v.state ≡ State.SynReceived → v.passive ≡ true → is_acceptable_to v s ≡ true → s.flags.syn ≡ true → s.flags.rst ≡ false
        → state_after v (Event.Hears s now) ≡ State.Listen }
{}

/// What is new goes out as soon as both windows take it, where nothing goes out again (RFC 9293 sections 3.8.6.1 and 3.8.6.2.1, RFC 1122 section 4.2.3.4): a full segment, whatever is outstanding; where nothing is, all that is
/// held, or what takes half of the largest window that the peer ever advertised, with the FIN where that goes with it; behind all octets the FIN, which wants one number of the peer's window; and into a closed window the probe
/// for which its timer has come.
pub fn what_is_new_goes_out()
    ensures full { (v : View) → IsSound v → v.resend.mark ≡ None → outstanding v.sending + v.sending.smss ≤ length v.sending.held → outstanding v.sending + v.sending.smss ≤ v.sending.window
        → outstanding v.sending + v.sending.smss ≤ allowance v → first_due v ≡ Some (Due.Text (record { offset = outstanding v.sending; count = v.sending.smss; fin = takes_fin v (outstanding v.sending + v.sending.smss) })) }
    ensures all { (v : View) → IsSound v → v.resend.mark ≡ None → v.sending.nxt ≡ v.sending.una → 0 < length v.sending.held → length v.sending.held ≤ v.sending.window → length v.sending.held ≤ allowance v
        → first_due v ≡ Some (Due.Text (record { offset = 0; count = min (length v.sending.held) v.sending.smss; fin = takes_fin v (min (length v.sending.held) v.sending.smss) })) }
    ensures half { (v : View) → IsSound v → v.resend.mark ≡ None → v.sending.nxt ≡ v.sending.una
        → (let n = min (length v.sending.held) (min v.sending.window (allowance v)) in 0 < n → v.sending.max_window ≤ 2 * n
        → first_due v ≡ Some (Due.Text (record { offset = 0; count = min n v.sending.smss; fin = takes_fin v (min n v.sending.smss) }))) }
    ensures fin { (v : View) → IsSound v → v.resend.mark ≡ None → awaits_fin_ack v.state ≡ true → outstanding v.sending ≡ length v.sending.held → outstanding v.sending < v.sending.window
        → first_due v ≡ Some (Due.Text (record { offset = length v.sending.held; count = 0; fin = true })) }
    ensures probe { (v : View) → IsSound v → v.resend.mark ≡ None → v.resend.owes_probe ≡ true → v.sending.window ≡ 0 → (0 < length v.sending.held) ⊎ (awaits_fin_ack v.state ≡ true) → first_due v ≡ Some Due.Probe }
{}

/// The congestion window may be filled (RFC 5681 section 3.1, RFC 6675 section 5): as many numbers as it has may be outstanding by what is new, and where reports tell what left the network, as many more as did.
pub fn the_congestion_window_may_be_filled()
    ensures plain { (v : View) → counts_pipe v ≡ false → v.congestion.cwnd ≤ allowance v }
    ensures counted { (v : View) → counts_pipe v ≡ true → v.congestion.cwnd + outstanding v.sending ≤ allowance v + pipe v }
{}

/// What was lost goes out again before anything new (RFC 6298 section 5.4, RFC 5681 sections 3.1 and 3.2): from the resend mark on, or from the next place that isn't reported, where that is at SND.UNA, or below both windows; and where reports rule
/// the recovery, what is missing, while the network takes a segment more (RFC 6675 section 5). While a connection opens that is its SYN,
/// which is due too as long as it has not gone out.
pub fn what_was_lost_goes_out_again()
    ensures opening { (v : View) → IsSound v → is_opening v.state ≡ true → (v.sending.nxt ≡ v.sending.una) ⊎ (is_some v.resend.mark ≡ true) → first_due v ≡ Some Due.Syn }
    ensures later { (v : View) (mark : ℕ) → IsSound v → is_opening v.state ≡ false → v.resend.mark ≡ Some mark → again_at v mark < outstanding v.sending → (repairs_gaps v && not v.resend.once) ≡ false
        → (again_at v mark ≡ 0) ⊎ ((again_at v mark < v.sending.window) × (again_at v mark < v.congestion.cwnd))
        → (stretch : Stretch) × (first_due v ≡ Some (Due.Text stretch)) × (stretch.offset ≡ again_at v mark) }
    ensures missing { (v : View) (mark : ℕ) → IsSound v → is_opening v.state ≡ false → v.resend.mark ≡ Some mark → again_at v mark < outstanding v.sending → repairs_gaps v ≡ true → v.resend.once ≡ false
        → is_missing v (again_at v mark) ≡ true → again_at v mark < v.sending.window → pipe v + v.sending.smss ≤ v.congestion.cwnd
        → (stretch : Stretch) × (first_due v ≡ Some (Due.Text stretch)) × (stretch.offset ≡ again_at v mark) }
    ensures unreported { (v : View) (mark : ℕ) → v.resend.reported ≡ [] → again_at v mark ≡ mark }
{}

/// What is due of a connection goes out in finitely many segments: each that goes out leaves fewer that may follow it while nothing else happens to the connection.
pub fn what_goes_out_runs_dry()
    ensures { (v : View) (due : Due) (now : Moment) → IsSound v → first_due v ≡ Some due → most_due (after_emitted v due now) < most_due v }
{}
