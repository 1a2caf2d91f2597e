//! Laws over the definitions alone: functions with nothing to do, whose contracts are the laws.

ghost use Rattle.std.specs.Prelude.{◌≡◌, ℕ, ◌+◌, ◌-◌, ◌*◌, ◌%◌, ◌<◌, ◌≤◌, ◌==◌, ◌≢◌, nat_lt, min, max, ◌^◌, ◌⊎◌, ◌↔◌, ◌||◌, ◌&&◌, Bool, List, ◌++◌, slice_index_or, length, drop, true, false, if◌then◌else◌, Some, None, is_some, []};
ghost use Rattle.ipv4.specs.declared.addr.Endpoint.{Endpoint};
ghost use Rattle.tcp_segment.specs.Segment.{Segment, scale_option_of, blocks_of, shift_of, span_of};
ghost use Rattle.tcp_segment.specs.Sent.{report};
ghost use Rattle.tcp_segment.specs.declared.TheConstants.{DEFAULT_MSS, LEAST_MSS, MSS, SHIFT};
ghost use Rattle.tcp_halves.specs.declared.buffers.TheConstants.{CAPACITY, LARGEST_CAPACITY};
ghost use Rattle.tcp_state.specs.declared.ending.TheConstants.{TIME_WAIT, FIN_WAIT_2};
ghost use Rattle.tcp_state.specs.declared.hop.TheConstants.{HOP_PATIENCE};
ghost use Rattle.tcp_state.specs.declared.timing.TheConstants.{DELAYED_ACK_WAIT};
ghost use Rattle.tcp_state.specs.declared.calls.Refusal.{Refusal};
ghost use Rattle.clock.specs.declared.moment.Moment.{Moment};
ghost use Rattle.clock.specs.Moments.{after, has_come};
ghost use Rattle.tcp_state.specs.declared.connection.Fate.{Fate};
ghost use Rattle.tcp_state.specs.declared.state.State.{State};
ghost use Rattle.tcp_state.specs.declared.emission.Due.{Due};
ghost use Rattle.tcp_state.specs.View.{View, IsSound, is_opening, is_closed, is_syn_sent, is_at_end, is_over, is_read_closed, awaits_fin_ack, reset_since, opened_actively};
ghost use Rattle.tcp_segment.specs.Wire.{wire, past, IsBefore};
ghost use Rattle.tcp_halves.specs.Numbers.{is_before};
ghost use Rattle.tcp_halves.specs.Halves.{Room, Sending, Receiving};
ghost use Rattle.std.specs.Option.{option_or};
ghost use Rattle.stream_buf.specs.Receiving.{ranges, IsReceiving};
ghost use Rattle.tcp_halves.specs.Stream.{size_in, size_of, peer_unit, outstanding, receive_window, is_acceptable, buffer_of, octets_gained, after_octets};
ghost use Rattle.tcp_halves.specs.Heard.{settled};
ghost use Rattle.tcp_halves.specs.Windows.{window_in, updates_window, receive_room, whole_units, syn_window};
ghost use Rattle.tcp_state.specs.Positions.{ReceivesAt, IsNear, MeetsWindow, AreNear, brought, known_at, places_after, takes_octets, kept_with, AreFree, NeverBack, LeavesWindow, HasNumber, HasToSend, takes_numbers};
ghost use Rattle.retransmit.specs.declared.timers.TimerKind.{TimerKind};
ghost use Rattle.retransmit.specs.Deadlines.{deadline_of};
ghost use Rattle.tcp_state.specs.declared.resend.Timed.{Timed};
ghost use Rattle.tcp_state.specs.declared.emission.Stretch.{Stretch};
ghost use Rattle.tcp_state.specs.New.{passes_full, takes_fin};
ghost use Rattle.tcp_state.specs.Alive.{is_silent};
ghost use Rattle.tcp_state.specs.Timing.{KeepsTime, probes, awaits_more, expires, wants_out, after_tick, deadline};
ghost use Rattle.congestion.specs.Window.{goes_on, most_growth, is_recovering, third_is_next};
ghost use Rattle.stream_buf.specs.Scoreboard.{is_reported};
ghost use Rattle.tcp_state.specs.Selective.{repairs_gaps, pipe, allowance};
ghost use Rattle.tcp_state.specs.Congestion.{KeepsCongestion, after_signal};
ghost use Rattle.tcp_state.specs.Resend.{is_alone};
ghost use Rattle.tcp_state.specs.Arrival.{opened_passively, fate, is_acceptable_to, is_receiving, is_read, is_counted_duplicate, reports_loss, reopens_by, after_ack, after_heard, after_segment_at, tells_needless, given_back};
ghost use Rattle.tcp_state.specs.Due.{MayGoOut, first_due, number_of, end_of, flags_of, octets_of, window_of, sends_again, again, rest_of, IsSmall, after_emitted};
ghost use Rattle.tcp_state.specs.Unreachable.{IsRefused};
ghost use Rattle.tcp_state.specs.Simultaneous.{crossed, AnswersSyn, CanBeMade, HasOpened, KnowsWindow};
ghost use Rattle.tcp_state.specs.Opening.{TellsShift, TakesSyn, HearsSyn, OpenedBy, Confirmed};
ghost use Rattle.tcp_state.specs.Said.{segment_of};
ghost use Rattle.tcp_state.specs.Edges.{Event, after_event, fate_by, moment_of, state_after, IsEdge, ends_by, is_cause, may_raise, congestion_event_by, gives_back_by};

/// The constants have their values: TIME-WAIT lasts 2 MSL, twice the two minutes that a segment may live (RFC 9293 section 3.4.2), a peer's segments are taken to have room for 536 octets where its SYN doesn't say for
/// how many (section 3.7.1), and an acknowledgement waits for less than half a second (RFC 1122 section 4.2.3.2), and a hop is given up after the time of a SYN that nobody answers (section 4.2.3.5); the others are this stack's own.
pub fn constants()
    ensures time_wait { TIME_WAIT ≡ 240000 }
    ensures fin_wait { FIN_WAIT_2 ≡ 60000 }
    ensures delayed_ack { DELAYED_ACK_WAIT ≡ 200 }
    ensures default_size { DEFAULT_MSS ≡ 536 }
    ensures least_size { LEAST_MSS ≡ 64 }
    ensures size { MSS ≡ 1460 }
    ensures capacity { CAPACITY ≡ 65535 }
    ensures largest_capacity { LARGEST_CAPACITY ≡ 1048576 }
    ensures hop_patience { HOP_PATIENCE ≡ 483000 }
{}

/// Windows are scaled exactly where both sides' SYNs have the option (RFC 7323 section 2.2), whichever side opens: for a listener from the SYN on, for a caller from the SYN-ACK on, and where SYNs cross from the
/// peer's SYN on, whether ours went out or not. In SYN-SENT nothing but a SYN that is taken changes what our SYN offers, and past it no event changes what was settled. Our SYN has the option where its caller's host uses it, a SYN-ACK where
/// windows are scaled, and none where the SYN had none; no other segment has any option but a report of blocks (RFC 2018 section 3).
pub fn windows_are_scaled_where_both_sides_say_so()
    ensures offered { (room : Room) (local peer : Endpoint) (isn : ℕ) (now : Moment) → (opened_actively room local peer isn now).scales ≡ room.manner.scales }
    ensures accepted { (room : Room) (local peer : Endpoint) (isn : ℕ) (syn : Segment) (now : Moment)
        → ((opened_passively room local peer isn syn now).scales ≡ true) ↔ ((room.manner.scales ≡ true) × TellsShift syn) }
    ensures answered { (v : View) (s : Segment) (now : Moment) → v.state ≡ State.SynSent → TakesSyn v s now
        → ((after_event v (Event.Hears s now)).scales ≡ true) ↔ ((v.scales ≡ true) × TellsShift s) }
    ensures stays { (v : View) (e : Event) → (is_syn_sent v.state ≡ false) ⊎ (is_syn_sent (after_event v e).state ≡ true) → (after_event v e).scales ≡ v.scales }
    ensures waits { (v : View) (e : Event) → v.state ≡ State.SynSent → ((after_event v e).scales ≡ v.scales) ⊎ HearsSyn v e }
    ensures told { (v : View) (due : Due) → scale_option_of (segment_of v due) ≡ (let f = flags_of v due in if f.syn && v.scales then Some SHIFT else None) }
    ensures unasked { (room : Room) (local peer : Endpoint) (isn : ℕ) (syn : Segment) (now : Moment) (due : Due) → scale_option_of syn ≡ None
        → scale_option_of (segment_of (opened_passively room local peer isn syn now) due) ≡ None }
    ensures crossing { (v : View) (s : Segment) (now : Moment) (due : Due) → v.state ≡ State.SynSent → TakesSyn v s now → scale_option_of s ≡ None
        → scale_option_of (segment_of (after_event v (Event.Hears s now)) due) ≡ None }
    ensures plain { (v : View) (due : Due) → (let f = flags_of v due in f.syn) ≡ false → (let s = segment_of v due in s.options ≡ report (blocks_of s)) }
{}

/// Each half holds at most as many octets as its buffer where windows are scaled, and else no more than 65,535: so of buffers of a mebibyte it uses all then, and only then. No event changes that but a SYN that is taken in
/// SYN-SENT, which settles whether windows are scaled, and none changes how many places were made for what comes.
pub fn sizes_stay()
    ensures opened { (room : Room) (local peer : Endpoint) (isn : ℕ) (now : Moment)
        → (let w = opened_actively room local peer isn now in (w.sending.size ≡ size_of room) × (w.receiving.size ≡ size_of room) × (w.receiving.capacity ≡ room.capacity)) }
    ensures accepted { (room : Room) (local peer : Endpoint) (isn : ℕ) (syn : Segment) (now : Moment)
        → (let w = opened_passively room local peer isn syn now in (w.sending.size ≡ size_in w.scales room.capacity) × (w.receiving.size ≡ size_in w.scales room.capacity) × (w.receiving.capacity ≡ room.capacity)) }
    ensures settled { (v : View) → IsSound v → (v.sending.size ≡ size_in v.scales v.receiving.capacity) × (v.receiving.size ≡ size_in v.scales v.receiving.capacity) }
    ensures largest { (v : View) → IsSound v → v.receiving.capacity ≡ LARGEST_CAPACITY → ((v.sending.size ≡ 1048576) ↔ (v.scales ≡ true)) × ((v.receiving.size ≡ 1048576) ↔ (v.scales ≡ true)) }
    ensures stays { (v : View) (e : Event) → is_syn_sent v.state ≡ false → ((after_event v e).sending.size ≡ v.sending.size) × ((after_event v e).receiving.size ≡ v.receiving.size) }
    ensures waits { (v : View) (e : Event) → v.state ≡ State.SynSent → (((after_event v e).sending.size ≡ v.sending.size) × ((after_event v e).receiving.size ≡ v.receiving.size)) ⊎ HearsSyn v e }
    ensures places { (v : View) (e : Event) → (after_event v e).receiving.capacity ≡ v.receiving.capacity }
{}

/// Where windows are scaled, a unit of ours has 32 octets, and one of the peer's as many as the shift in its SYN says; else a unit is an octet (RFC 7323 section 2.3). What a caller opens begins with our unit by what
/// its SYN offers, and with an octet for the peer's, as it stands in SYN-SENT. No event changes either but a SYN that is taken in SYN-SENT.
pub fn units_stay()
    ensures own { (v : View) → IsSound v → v.receiving.unit ≡ (if v.scales then 32 else 1) }
    ensures peer { (v : View) → IsSound v → v.scales ≡ false → v.sending.unit ≡ 1 }
    ensures unsettled { (v : View) → IsSound v → is_syn_sent v.state ≡ true → v.sending.unit ≡ 1 }
    ensures opened { (room : Room) (local peer : Endpoint) (isn : ℕ) (now : Moment)
        → (let w = opened_actively room local peer isn now in (w.sending.unit ≡ 1) × (w.receiving.unit ≡ (if room.manner.scales then 32 else 1))) }
    ensures accepted { (room : Room) (local peer : Endpoint) (isn : ℕ) (syn : Segment) (now : Moment)
        → (let w = opened_passively room local peer isn syn now in w.sending.unit ≡ peer_unit w.scales (shift_of syn)) }
    ensures answered { (v : View) (s : Segment) (now : Moment) → v.state ≡ State.SynSent → TakesSyn v s now
        → (let w = after_event v (Event.Hears s now) in w.sending.unit ≡ peer_unit w.scales (shift_of s)) }
    ensures stays { (v : View) (e : Event) → is_syn_sent v.state ≡ false → ((after_event v e).sending.unit ≡ v.sending.unit) × ((after_event v e).receiving.unit ≡ v.receiving.unit) }
    ensures waits { (v : View) (e : Event) → v.state ≡ State.SynSent → (((after_event v e).sending.unit ≡ v.sending.unit) × ((after_event v e).receiving.unit ≡ v.receiving.unit)) ⊎ HearsSyn v e }
{}

/// One event joins only states that the table of edges joins, or leaves the state.
pub fn events_follow_edges()
    ensures { (v : View) (e : Event) → IsEdge v.state (state_after v e) }
{}

/// A connection becomes CLOSED, or is taken out, only by a cause.
pub fn ends_have_causes()
    ensures { (v : View) (e : Event) → is_over v ≡ false → ends_by v e ≡ true → is_cause v e ≡ true }
{}

/// An error that is pending was pending before, or a reset raises it, or an error about its SYN, in a state that has it, or the clock at the last expiry or at the end of the wait for a hop.
pub fn errors_have_causes()
    ensures { (v : View) (e : Event) (error : Refusal) → (after_event v e).pending_error ≡ Some error → (v.pending_error ≡ Some error) ⊎ (may_raise v e error ≡ true) }
{}

/// An error that is pending stays so.
pub fn errors_stay()
    ensures { (v : View) (e : Event) → IsSound v → KeepsTime v → is_some v.pending_error ≡ true → (after_event v e).pending_error ≡ v.pending_error }
{}

/// Where the clock has not come to a connection's deadline, a tick changes nothing; where it has, something goes out again, a probe, also one of a silent peer, or an acknowledgement is due, new octets
/// wait no longer, or the connection is CLOSED.
pub fn deadlines_are_exact()
    ensures waits { (v : View) (now : Moment) → has_come (deadline v) now ≡ false → after_tick v now ≡ v }
    ensures acts { (v : View) (now : Moment) → KeepsTime v → has_come (deadline v) now ≡ true
        → (wants_out (after_tick v now) || is_closed (after_tick v now).state) ≡ true }
{}

/// A connection that becomes CLOSED without an error, and that its caller has not left, had seen the peer's end: `recv` answers an end of
/// stream for no other.
pub fn silent_ends_were_seen()
    ensures { (v : View) (e : Event) → IsSound v → is_closed v.state ≡ false → is_closed (after_event v e).state ≡ true
        → (after_event v e).pending_error ≡ None → (after_event v e).released ≡ false → is_read_closed v.state ≡ true }
{}

/// The order by which arriving numbers are tested is that of the positions they stand for, as long as these are less than 2^31 apart
/// (RFC 9293 section 3.4).
pub fn numbers_are_ordered()
    ensures sign { (a b : ℕ) → (is_before a b ≡ true) ↔ IsBefore a b }
    ensures positions { (initial p q : ℕ) → p < q + 2 ^ 31 → q < p + 2 ^ 31 → (is_before (wire initial p) (wire initial q) ≡ true) ↔ (p < q) }
{}

/// A segment that is answered by a reset changes nothing, with the clock or without.
pub fn rejected_changes_nothing()
    ensures timed { (v : View) (s : Segment) (now : Moment) → fate v s ≡ Fate.Rejected → after_segment_at v s now ≡ v }
    ensures heard { (v : View) (s : Segment) → fate v s ≡ Fate.Rejected → after_heard v s ≡ v }
{}

/// Of a connection that is CLOSED the reset of an abort alone is due.
pub fn closed_owes_a_reset_alone()
    ensures { (v : View) → IsSound v → is_closed v.state ≡ true → first_due v ≡ (if v.owes_reset then Some Due.Rst else None) }
{}

/// The reset of an abort waits from the moment of the event by which it is owed, and as long as it is owed no event moves that moment.
pub fn resets_wait_from_their_event()
    ensures begins { (v : View) (e : Event) (since : Moment) → IsSound v → reset_since v ≡ None → reset_since (after_event v e) ≡ Some since → moment_of e ≡ Some since }
    ensures stays { (v : View) (e : Event) (since : Moment) → IsSound v → reset_since v ≡ Some since → (reset_since (after_event v e) ≡ Some since) ⊎ (reset_since (after_event v e) ≡ None) }
{}

/// No segment gives octets to a connection that its caller closed.
pub fn released_takes_no_octets()
    ensures { (v : View) (s : Segment) (now : Moment) → IsSound v → v.released ≡ true → s.number < 2 ^ 32 → length s.octets < 2 ^ 16
        → (after_segment_at v s now).receiving.readable ≡ v.receiving.readable }
{}

/// Which segments are acceptable, by positions (RFC 9293 section 3.10.7.4, first): of those that take numbers the ones that meet the window advertised, from RCV.NXT
/// up to its edge; of the others those from the number before RCV.NXT on up to that edge, both included. What is not acceptable changes at most that an acknowledgement is owed, so that none is delayed, the wait of TIME-WAIT, and when the peer was last heard;
/// and on guard what is kept for that, and that our SYN goes out again.
pub fn acceptable_segments_meet_the_window()
    ensures filled { (initial next edge first : ℕ) (v : View) (s : Segment) → ReceivesAt initial next edge v.receiving → s.number ≡ wire initial first → IsNear next first (span_of s)
        → 0 < span_of s → (is_acceptable_to v s ≡ true) ↔ MeetsWindow next edge first (span_of s) }
    ensures empty { (initial next edge first : ℕ) (v : View) (s : Segment) → ReceivesAt initial next edge v.receiving → s.number ≡ wire initial first → IsNear next first 0
        → span_of s ≡ 0 → (is_acceptable_to v s ≡ true) ↔ ((next ≤ first + 1) × (first ≤ edge)) }
    ensures others { (v : View) (s : Segment) (now : Moment) → KeepsTime v → is_syn_sent v.state ≡ false → is_acceptable_to v s ≡ false
        → (let w = after_segment_at v s now in
        (w ≡ record v { owes_ack = w.owes_ack; since = w.since; resend = record v.resend { mark = w.resend.mark }; timers = record v.timers { delayed_ack = w.timers.delayed_ack }; alive = w.alive; guard = w.guard })
        × (v.guard.on ≡ false → w.resend.mark ≡ v.resend.mark)) }
{}

/// What the octets of a segment make known, by positions (RFC 9293 section 3.10.7.4, seventh): of each position from RCV.NXT on the segment's octet, where it has one that lies before the
/// edge, and else what was kept for it. What is known without a gap can be read, so that RCV.NXT is the first position of which nothing is known. A segment that begins at RCV.NXT or before it is
/// always taken; one that isn't would need a 33rd range, and changes nothing. No segment makes anything else readable or kept; one that is read to its octets makes all of that so, but behind a
/// FIN that counts nothing is kept.
pub fn octets_in_the_window_are_taken()
    ensures each { (initial next edge first position : ℕ) (r : Receiving) (octets : List ℕ) → ReceivesAt initial next edge r → edge ≤ next + length r.kept → AreNear first next
        → takes_octets r (wire initial first) octets ≡ true → next ≤ position
        → known_at next (places_after r (wire initial first) octets) position ≡ option_or (brought first edge octets position) (known_at next r.kept position) }
    ensures gap { (r : Receiving) (number : ℕ) (octets : List ℕ) → IsReceiving (buffer_of r) → slice_index_or (after_octets r number octets).kept 0 None ≡ None }
    ensures first { (initial next edge first : ℕ) (r : Receiving) (octets : List ℕ) → ReceivesAt initial next edge r → first ≤ next → next < first + 2 ^ 31
        → takes_octets r (wire initial first) octets ≡ true }
    ensures refused { (r : Receiving) (number : ℕ) (octets : List ℕ) → r.rnext < 2 ^ 32 → takes_octets r number octets ≡ false
        → (after_octets r number octets ≡ r) × (32 < ranges (kept_with r number octets)) }
    ensures alone { (v : View) (s : Segment) (now : Moment) → ((after_segment_at v s now).receiving.readable ≡ v.receiving.readable)
        ⊎ ((after_segment_at v s now).receiving.readable ≡ v.receiving.readable ++ octets_gained v.receiving s.number s.octets) }
    ensures all { (v : View) (s : Segment) (now : Moment) → IsSound v → v.released ≡ false → is_receiving v.state ≡ true → is_read v s ≡ true
        → (after_segment_at v s now).receiving.readable ≡ v.receiving.readable ++ octets_gained v.receiving s.number s.octets }
    ensures kept_alone { (v : View) (s : Segment) (now : Moment) → ((after_segment_at v s now).receiving.kept ≡ v.receiving.kept)
        ⊎ (((after_segment_at v s now).receiving.kept ≡ (after_octets v.receiving s.number s.octets).kept)
        ⊎ ((s.flags.fin ≡ true) × AreFree (after_segment_at v s now).receiving.kept)) }
    ensures kept_all { (v : View) (s : Segment) (now : Moment) → IsSound v → v.released ≡ false → is_receiving v.state ≡ true → is_read v s ≡ true
        → ((after_segment_at v s now).receiving.kept ≡ (after_octets v.receiving s.number s.octets).kept)
        ⊎ ((s.flags.fin ≡ true) × AreFree (after_segment_at v s now).receiving.kept) }
{}

/// A reset acts only in SYN-SENT where it acknowledges all that was sent, and later only at RCV.NXT exactly, where one without octets always acts; any
/// other changes at most that an acknowledgement is owed, so that none is delayed, when the peer was last heard, and what is kept to guard against
/// such ones (RFC 9293 sections 3.10.7.3, second, and 3.10.7.4, second).
pub fn resets_act_at_the_next_number()
    ensures opening { (v : View) (s : Segment) (now : Moment) → IsSound v → s.acknowledgement < 2 ^ 32 → is_syn_sent v.state ≡ true → s.flags.rst ≡ true → ends_by v (Event.Hears s now) ≡ true
        → (s.flags.ack ≡ true) × (s.acknowledgement ≡ v.sending.nxt) }
    ensures later { (v : View) (s : Segment) (now : Moment) → is_syn_sent v.state ≡ false → s.flags.rst ≡ true → ends_by v (Event.Hears s now) ≡ true
        → s.number ≡ v.receiving.rnext }
    ensures acts { (v : View) (s : Segment) (now : Moment) → IsSound v → is_syn_sent v.state ≡ false → is_closed v.state ≡ false → s.flags.rst ≡ true
        → s.number ≡ v.receiving.rnext → span_of s ≡ 0 → ends_by v (Event.Hears s now) ≡ true }
    ensures others { (v : View) (s : Segment) (now : Moment) → KeepsTime v → is_syn_sent v.state ≡ false → s.flags.rst ≡ true → (s.number == v.receiving.rnext) ≡ false
        → (let w = after_segment_at v s now in w ≡ record v { owes_ack = w.owes_ack; timers = record v.timers { delayed_ack = w.timers.delayed_ack }; alive = w.alive; guard = w.guard }) }
{}

/// A window is believed exactly from a segment that is no older than the one that updated it last, by the position of its first number and then by that of its
/// acknowledgement, and that acknowledges no less than is acknowledged (RFC 9293 section 3.10.7.4, fifth); but for the SYN that opens a connection, no segment
/// changes it otherwise, but that what it acknowledges past the opening comes off. The window of that SYN is in octets, and any other's in units of the peer's (RFC 7323 sections 2.2 and 2.3).
pub fn no_older_window_is_believed()
    ensures test { (peer own una last latest number ack : ℕ) (s : Sending) → s.una ≡ wire own una → s.wl1 ≡ wire peer last → s.wl2 ≡ wire own latest
        → AreNear ack una → AreNear last number → AreNear ack latest
        → (updates_window s (wire peer number) (wire own ack) ≡ true) ↔ ((una ≤ ack) × ((last < number) ⊎ ((last ≡ number) × (latest ≤ ack)))) }
    ensures alone { (v : View) (s : Segment) (now : Moment)
        → (((after_segment_at v s now).sending.wl1 ≡ v.sending.wl1) × LeavesWindow v s (after_segment_at v s now))
        ⊎ (((after_segment_at v s now).sending.wl1 ≡ s.number) × (((is_syn_sent v.state ≡ true) × ((after_segment_at v s now).sending.window ≡ s.window))
        ⊎ (((after_segment_at v s now).sending.window ≡ window_in v.sending s.window)
        × (updates_window (after_ack v s.acknowledgement).sending s.number s.acknowledgement ≡ true) × ((after_segment_at v s now).sending.wl2 ≡ s.acknowledgement)))) }
{}

/// An acknowledgement alone is heard, whatever windows the two ends have (RFC 9293 sections 3.4, 3.8.6.1 and 3.10.7.4). It stands behind all that went out, but for a number that only a probe of a closed window took, which the peer may have
/// refused. So where the peer's RCV.NXT stands at SND.UNA, at SND.NXT or between, and what went out, but for such a number, lies within what the peer told, the peer takes it for acceptable, and with it what it acknowledges and
/// the window that it tells; and the probe of a silent peer, too. It lies within the peer's window wherever what went out does so, but for that number.
pub fn acknowledgements_are_heard()
    ensures heard { (initial una next edge : ℕ) (v : View) (peer : Receiving) → IsSound v → is_closed v.state ≡ false → v.sending.una ≡ wire initial una → ReceivesAt initial next edge peer
        → una ≤ next → next ≤ una + outstanding v.sending → una + settled v.sending ≤ edge → is_acceptable peer (number_of v Due.Ack) 0 ≡ true }
    ensures asks { (v : View) (peer : Receiving) → IsSound v → peer.rnext ≡ v.sending.nxt → is_acceptable peer (number_of v Due.KeepAlive) 0 ≡ true }
    ensures within { (v : View) → IsSound v → is_closed v.state ≡ false → settled v.sending ≤ v.sending.window → past (number_of v Due.Ack) v.sending.una ≤ v.sending.window }
    ensures next { (v : View) → v.sending.probed ≡ false → number_of v Due.Ack ≡ v.sending.nxt }
    ensures probed { (v : View) → IsSound v → is_closed v.state ≡ false → v.sending.probed ≡ true → (number_of v Due.Ack ≡ v.sending.una) × (wire v.sending.una 1 ≡ v.sending.nxt) }
{}

/// SND.UNA, SND.NXT, the number of an acknowledgement alone, RCV.NXT and the right edge of the window advertised never go back (RFC 9293 sections 3.4 and 3.8.6), whatever happens to a connection.
pub fn numbers_never_go_back()
    ensures { (v : View) (e : Event) → IsSound v → HasNumber e → NeverBack v (after_event v e) }
{}

/// While our SYN is not acknowledged, octets are held, or our FIN is not acknowledged, a segment that takes numbers is due, or there is a deadline, whatever the peer's window.
pub fn what_waits_goes_out()
    ensures { (v : View) → IsSound v → KeepsTime v → KeepsCongestion v → HasToSend v → (takes_numbers (first_due v) || is_some (deadline v)) ≡ true }
{}

/// The timers run exactly where something waits for them: when a connection opens, and after each event (RFC 6298 section 5, RFC 9293 sections 3.8.1, 3.8.6.1 and 3.8.6.3).
pub fn timers_run_as_they_should()
    ensures opened { (room : Room) (local peer : Endpoint) (isn : ℕ) (now : Moment) → isn < 2 ^ 32 → KeepsTime (opened_actively room local peer isn now) }
    ensures accepted { (room : Room) (local peer : Endpoint) (isn : ℕ) (syn : Segment) (now : Moment) → isn < 2 ^ 32 → KeepsTime (opened_passively room local peer isn syn now) }
    ensures stays { (v : View) (e : Event) → IsSound v → KeepsTime v → KeepsTime (after_event v e) }
{}

/// No event sets a timer for later than a minute past its moment, and one without a moment sets none.
pub fn timers_are_set_soon()
    ensures soon { (v : View) (e : Event) (now deadline : Moment) (kind : TimerKind) → IsSound v → moment_of e ≡ Some now → deadline_of (after_event v e).timers kind ≡ Some deadline
        → (deadline_of v.timers kind ≡ Some deadline) ⊎ (deadline.0 ≤ now.0 + 60000) }
    ensures never { (v : View) (e : Event) (deadline : Moment) (kind : TimerKind) → moment_of e ≡ None → deadline_of (after_event v e).timers kind ≡ Some deadline
        → deadline_of v.timers kind ≡ Some deadline }
{}

/// New octets and the FIN go out within the window that the peer advertised (RFC 9293 section 3.8.6), and new octets within the congestion window too (RFC 5681 section 3.1).
pub fn new_numbers_keep_the_window()
    ensures window { (v : View) (stretch : Stretch) → IsSound v → first_due v ≡ Some (Due.Text stretch) → outstanding v.sending ≤ stretch.offset
        → (stretch.offset ≡ outstanding v.sending) × (end_of stretch ≤ v.sending.window) }
    ensures congestion { (v : View) (stretch : Stretch) → IsSound v → first_due v ≡ Some (Due.Text stretch) → outstanding v.sending ≤ stretch.offset
        → 0 < stretch.count → end_of stretch ≤ allowance v }
{}

/// The congestion window is one that events lead to, and counts in segments of the size that the peer takes: when a connection opens, and after each event. So it is never less than such a segment
/// once it is open (RFC 5681 section 3.1).
pub fn the_congestion_window_is_kept()
    ensures opened { (room : Room) (local peer : Endpoint) (isn : ℕ) (now : Moment) → KeepsCongestion (opened_actively room local peer isn now) }
    ensures accepted { (room : Room) (local peer : Endpoint) (isn : ℕ) (syn : Segment) (now : Moment) → KeepsCongestion (opened_passively room local peer isn syn now) }
    ensures stays { (v : View) (e : Event) → IsSound v → KeepsCongestion v → KeepsCongestion (after_event v e) }
    ensures least { (v : View) → KeepsCongestion v → (is_opening v.state || is_closed v.state) ≡ false → v.sending.smss ≤ v.congestion.cwnd }
{}

/// Each event of a connection is one event of its congestion window, two where an ACK of new octets also reports, or none (RFC 5681 sections 3.1 and 3.2, RFC 6675 section 2): an ACK of new octets, a duplicate one, or the expiry of the retransmission timer. The window begins
/// where our SYN is acknowledged: with one segment where that expired and went out again.
pub fn the_congestion_window_moves_by_events()
    ensures { (v : View) (e : Event) → (after_event v e).congestion ≡ given_back (gives_back_by v e (after_event v e)) (after_signal v.congestion (congestion_event_by v e) (after_event v e).sending.smss (after_event v e).resend.syn_resent) }
{}

/// A segment raises the congestion window by one segment at most, where it begins and ends no recovery (RFC 5681 section 3.1); by two where losses are repaired (RFC 3465 section 2.3). One that tells that octets went
/// out again which needn't have may give back what the last loss took.
pub fn one_segment_raises_the_window_by_one()
    ensures needed { (v : View) (s : Segment) (now : Moment) → KeepsCongestion v → is_opening v.state ≡ false → is_recovering v.congestion ≡ false → tells_needless v s ≡ false
        → is_recovering (after_segment_at v s now).congestion ≡ false → (after_segment_at v s now).congestion.cwnd ≤ v.congestion.cwnd + most_growth v.congestion }
    ensures back { (v : View) (s : Segment) (now : Moment) → KeepsCongestion v → is_opening v.state ≡ false → is_recovering v.congestion ≡ false
        → is_recovering (after_segment_at v s now).congestion ≡ false → (after_segment_at v s now).congestion.cwnd ≤ max (v.congestion.cwnd + most_growth v.congestion) v.congestion.prior_cwnd }
{}

/// The third duplicate ACK in a row, and but for partial ACKs, reports of a loss and the opening of a probed window no other segment, sends the segment at SND.UNA again, and that alone (RFC 5681 section 3.2).
pub fn the_third_duplicate_resends()
    ensures third { (v : View) (s : Segment) (now : Moment) → IsSound v → is_closed v.state ≡ false → is_counted_duplicate v s ≡ true → third_is_next v.congestion ≡ true
        → (first_due (after_segment_at v s now) ≡ Some (Due.Text (again (after_segment_at v s now) 0))) × ((after_segment_at v s now).resend.once ≡ true) }
    ensures others { (v : View) (s : Segment) (now : Moment) → IsSound v → v.resend.mark ≡ None → is_opening v.state ≡ false → goes_on v.congestion ≡ false → is_counted_duplicate v s && third_is_next v.congestion ≡ false → reports_loss v s ≡ false → reopens_by v s ≡ false
        → (after_segment_at v s now).resend.mark ≡ None }
    ensures alone { (v : View) (stretch : Stretch) (now : Moment) → is_alone v.resend ≡ true → nat_lt stretch.offset (outstanding v.sending) ≡ true
        → (after_emitted v (Due.Text stretch) now).resend.mark ≡ None }
{}

/// The resend mark keeps its number (RFC 6298 section 5.4): an acknowledgement that moves SND.UNA brings it as much nearer to that, or to it, and takes it away only where nothing is outstanding past it.
/// The third duplicate ACK alone puts it back, a partial one, a report of a loss, and the opening of a probed window.
pub fn the_mark_keeps_its_number()
    ensures stays { (v : View) (s : Segment) (now : Moment) (distance left : ℕ) → IsSound v → is_opening v.state ≡ false → goes_on v.congestion ≡ false → (is_counted_duplicate v s && third_is_next v.congestion) ≡ false → reports_loss v s ≡ false → reopens_by v s ≡ false → v.resend.mark ≡ Some distance
        → is_closed (after_segment_at v s now).state ≡ false → (after_segment_at v s now).resend.mark ≡ Some left → left ≡ distance - past (after_segment_at v s now).sending.una v.sending.una }
    ensures goes { (v : View) (s : Segment) (now : Moment) (distance : ℕ) → IsSound v → is_opening v.state ≡ false → goes_on v.congestion ≡ false → (is_counted_duplicate v s && third_is_next v.congestion) ≡ false → reports_loss v s ≡ false → reopens_by v s ≡ false → v.resend.mark ≡ Some distance
        → is_closed (after_segment_at v s now).state ≡ false → (after_segment_at v s now).resend.mark ≡ None → outstanding (after_segment_at v s now).sending ≤ distance - past (after_segment_at v s now).sending.una v.sending.una }
{}

/// What goes out again, or as a probe, is measured no longer (RFC 6298 section 3, Karn's algorithm).
pub fn resent_segments_are_not_timed()
    ensures { (v : View) (due : Due) (now : Moment) → MayGoOut v due → sends_again v due ≡ true → (after_emitted v due now).resend.timed ≡ None }
{}

/// One round trip is measured at a time, and each once: a sample is taken only of the segment that is measured, which then is measured no longer; and what is measured next is what goes out next with
/// new numbers (RFC 6298 section 3).
pub fn rounds_are_measured_once()
    ensures sampled { (v : View) (e : Event) → ((after_event v e).resend.timeout.estimate ≡ v.resend.timeout.estimate)
        ⊎ ((is_some v.resend.timed ≡ true) × ((after_event v e).resend.timed ≡ None)) }
    ensures begins { (v : View) (e : Event) (timed : Timed) → (after_event v e).resend.timed ≡ Some timed
        → (v.resend.timed ≡ Some timed) ⊎ ((v.resend.timed ≡ None) × (moment_of e ≡ Some timed.since) × (first_due v ≢ None) × (timed.end.0 ≡ (after_event v e).sending.nxt)) }
{}

/// An error that tells that a segment can't be delivered ends the connection in SYN-SENT whose SYN is that segment and has gone out, and no other (RFC 1122 section
/// 4.2.3.9): one past SYN-SENT stays as it is, and so does one whose SYN has not gone out, or has another number.
pub fn hard_errors_end_openings_alone()
    ensures others { (v : View) (number : ℕ) → v.state ≢ State.SynSent → after_event v (Event.Unreachable number) ≡ v }
    ensures unsent { (v : View) (number : ℕ) → IsSound v → v.sending.nxt ≡ v.sending.una → after_event v (Event.Unreachable number) ≡ v }
    ensures numbered { (v : View) (number : ℕ) → v.sending.una ≢ number → after_event v (Event.Unreachable number) ≡ v }
    ensures ends { (v : View) → IsSound v → v.state ≡ State.SynSent → v.sending.nxt ≢ v.sending.una
        → IsRefused (after_event v (Event.Unreachable v.sending.una)) × (fate_by v (Event.Unreachable v.sending.una) ≡ Fate.Stays) }
{}

/// Two connections that open to each other at the same time (RFC 9293 section 3.5, figure 7), whatever buffers they have and whether either would scale its windows: once their SYNs crossed, a SYN-ACK is due at
/// each, with the number of its SYN; once the SYN-ACKs crossed, and then what is due for them, both are open, and each expects the number behind the other's SYN. Windows are scaled at both where both
/// SYNs offered that, and else at neither (RFC 7323 section 2.2), and each end knows the window of the other.
pub fn simultaneous_openings_meet()
    ensures answers { (here there : Endpoint) (room facing : Room) (isn other : ℕ) (one two first : Moment) → CanBeMade room → CanBeMade facing → isn < 2 ^ 32 → other < 2 ^ 32
        → (let ends = crossed (record { one = opened_actively room here there isn one; other = opened_actively facing there here other two }) first in
        let both = room.manner.scales && facing.manner.scales in AnswersSyn isn other ends.one × (ends.one.scales ≡ both) × AnswersSyn other isn ends.other × (ends.other.scales ≡ both)) }
    ensures opens { (here there : Endpoint) (room facing : Room) (isn other : ℕ) (one two first second third : Moment) → CanBeMade room → CanBeMade facing → isn < 2 ^ 32 → other < 2 ^ 32
        → (let ends = crossed (crossed (crossed (record { one = opened_actively room here there isn one; other = opened_actively facing there here other two }) first) second) third in
        let both = room.manner.scales && facing.manner.scales in HasOpened both room.capacity isn other ends.one × HasOpened both facing.capacity other isn ends.other) }
    ensures windows { (here there : Endpoint) (room facing : Room) (isn other : ℕ) (one two first second third : Moment) → CanBeMade room → CanBeMade facing → isn < 2 ^ 32 → other < 2 ^ 32
        → (let ends = crossed (crossed (crossed (record { one = opened_actively room here there isn one; other = opened_actively facing there here other two }) first) second) third in KnowsWindow ends.one ends.other × KnowsWindow ends.other ends.one) }
{}

/// The three steps of an opening (RFC 9293 section 3.5, figure 6): what a SYN opens at a listener is to answer that by a SYN-ACK; a SYN-ACK that acknowledges our SYN opens the connection, and is to be
/// acknowledged; and the acknowledgement of our SYN-ACK opens the listener's.
pub fn openings_take_three_steps()
    ensures answers { (room : Room) (local peer : Endpoint) (isn : ℕ) (syn : Segment) (now : Moment) → isn < 2 ^ 32 → AnswersSyn isn syn.number (opened_passively room local peer isn syn now) }
    ensures opens { (v : View) (s : Segment) (now : Moment) → IsSound v → v.state ≡ State.SynSent → v.sending.nxt ≢ v.sending.una → s.flags.rst ≡ false → s.flags.syn ≡ true → s.flags.ack ≡ true
        → s.acknowledgement ≡ v.sending.nxt → OpenedBy s v (after_segment_at v s now) }
    ensures confirms { (v : View) (s : Segment) (now : Moment) → IsSound v → v.state ≡ State.SynReceived → v.sending.nxt ≢ v.sending.una → s.flags.rst ≡ false → s.flags.syn ≡ false → s.flags.fin ≡ false → s.flags.ack ≡ true
        → s.acknowledgement ≡ v.sending.nxt → s.octets ≡ [] → is_acceptable_to v s ≡ true → Confirmed v (after_segment_at v s now) }
{}

/// A SYN without ACK that comes to a connection in SYN-SENT draws a SYN-ACK with the number of its own SYN, whether that has gone out or not (RFC 9293 section
/// 3.10.7.3, fourth). A reset at RCV.NXT then ends it as refused, as in SYN-SENT, and leaves it its place (section 3.10.7.4, second).
pub fn simultaneous_syns_are_answered()
    ensures answered { (v : View) (s : Segment) (now : Moment) → IsSound v → v.state ≡ State.SynSent → s.flags.rst ≡ false → s.flags.syn ≡ true → s.flags.ack ≡ false
        → AnswersSyn v.sending.una s.number (after_segment_at v s now) × (fate v s ≡ Fate.Stays) }
    ensures reset { (v : View) (s : Segment) (now : Moment) → IsSound v → v.state ≡ State.SynReceived → v.passive ≡ false → s.flags.rst ≡ true → s.number ≡ v.receiving.rnext → span_of s ≡ 0
        → IsRefused (after_segment_at v s now) × (fate v s ≡ Fate.Stays) }
{}

/// What goes out again went out before (RFC 9293 section 3.8.1): it is one segment's octets at most and ends at SND.NXT, or before it where it is a full segment. SND.NXT stays. It begins within the peer's
/// window and the congestion window, or at SND.UNA (RFC 5681 section 3.1); the resend mark then moves on to its end, and is gone where that is SND.NXT.
pub fn what_goes_out_again_went_out_before()
    ensures ends { (v : View) (stretch : Stretch) → IsSound v → first_due v ≡ Some (Due.Text stretch) → stretch.offset < outstanding v.sending
        → (stretch.count ≤ v.sending.smss) × (end_of stretch ≤ outstanding v.sending) × ((end_of stretch ≡ outstanding v.sending) ⊎ ((stretch.count ≡ v.sending.smss) ⊎ (is_reported v.resend.reported (stretch.offset + stretch.count) ≡ true))) }
    ensures stays { (v : View) (stretch : Stretch) (now : Moment) → IsSound v → first_due v ≡ Some (Due.Text stretch) → stretch.offset < outstanding v.sending
        → (after_event v (Event.Emits now)).sending.nxt ≡ v.sending.nxt }
    ensures within { (v : View) (stretch : Stretch) → first_due v ≡ Some (Due.Text stretch) → stretch.offset < outstanding v.sending
        → (stretch.offset ≡ 0) ⊎ ((stretch.offset < v.sending.window) × ((stretch.offset < v.congestion.cwnd) ⊎ ((repairs_gaps v ≡ true) × (pipe v + v.sending.smss ≤ v.congestion.cwnd)))) }
    ensures moves_on { (v : View) (stretch : Stretch) (now : Moment) → IsSound v → v.resend.once ≡ false → first_due v ≡ Some (Due.Text stretch) → stretch.offset < outstanding v.sending
        → (after_event v (Event.Emits now)).resend.mark ≡ (if nat_lt (end_of stretch) (outstanding v.sending) then Some (end_of stretch) else None) }
{}

/// A segment of new octets that isn't full waits for what is outstanding (Nagle, RFC 1122 section 4.2.3.4), unless its caller wants no delay, or its host has it wait for small ones only. Where nothing is, it takes all that is held, or is half of the largest window that the peer ever
/// advertised (RFC 9293 section 3.8.6.2.1). The wait is over otherwise only by the clock, at the deadline of the override,
/// 500 ms after the event by which that began.
pub fn small_segments_wait()
    ensures waits { (v : View) (stretch : Stretch) → IsSound v → first_due v ≡ Some (Due.Text stretch) → outstanding v.sending ≤ stretch.offset → 0 < stretch.count → stretch.count < v.sending.smss → v.resend.overridden ≡ false → v.nodelay ≡ false
        → v.minshall ≡ false → (outstanding v.sending ≡ 0) × ((stretch.count ≡ length v.sending.held) ⊎ (v.sending.max_window ≤ 2 * stretch.count)) }
    ensures overridden { (v : View) (e : Event) → v.resend.overridden ≡ false → (after_event v e).resend.overridden ≡ true → (now : Moment) × (e ≡ Event.Ticks now) × (has_come v.timers.overriding now ≡ true) }
    ensures begins { (v : View) (e : Event) (deadline : Moment) → v.timers.overriding ≡ None → (after_event v e).timers.overriding ≡ Some deadline → (now : Moment) × (moment_of e ≡ Some now) × (deadline ≡ after now 500) }
{}

/// Where its caller wants no delay, small segments don't wait for what is outstanding (RFC 9293 section 3.7.4, RFC 1122 section 4.2.3.4): what is held and has not gone out is due at once, if it lies within the peer's window and the congestion
/// window, and nothing goes out again. No connection is so at first, and only its caller's word begins or ends it. That word moves no octet and no number, and after it the override's timer runs exactly where
/// new octets still wait.
pub fn no_delay_sends_at_once()
    ensures sends { (v : View) → IsSound v → v.nodelay ≡ true → v.resend.mark ≡ None → outstanding v.sending < length v.sending.held → length v.sending.held ≤ v.sending.window → length v.sending.held ≤ allowance v
        → first_due v ≡ Some (Due.Text (rest_of v)) }
    ensures opened { (room : Room) (local peer : Endpoint) (isn : ℕ) (now : Moment) → (opened_actively room local peer isn now).nodelay ≡ false }
    ensures accepted { (room : Room) (local peer : Endpoint) (isn : ℕ) (syn : Segment) (now : Moment) → (opened_passively room local peer isn syn now).nodelay ≡ false }
    ensures told { (v : View) (on : Bool) (now : Moment) → (after_event v (Event.SetsNoDelay on now)).nodelay ≡ on }
    ensures alone { (v : View) (e : Event) → ((after_event v e).nodelay ≡ v.nodelay) ⊎ ((on : Bool) × (now : Moment) × (e ≡ Event.SetsNoDelay on now)) }
    ensures streams { (v : View) (on : Bool) (now : Moment)
        → ((after_event v (Event.SetsNoDelay on now)).sending ≡ v.sending) × ((after_event v (Event.SetsNoDelay on now)).receiving ≡ v.receiving) × ((after_event v (Event.SetsNoDelay on now)).state ≡ v.state) }
    ensures timer { (v : View) (on : Bool) (now : Moment) → is_some (after_event v (Event.SetsNoDelay on now)).timers.overriding ≡ awaits_more (after_event v (Event.SetsNoDelay on now)) }
{}

/// Where its host says so, a segment of new octets that isn't full waits for a small one only (Minshall, RFC 9293 appendix A.3), unless its caller wants no delay or the override ran out: none is outstanding, and it takes all that is held, or is half of
/// the largest window that the peer ever advertised (section 3.8.6.2.1); or it has the last octets of a closed side. Where none is outstanding, or our side is closed, what is held goes out at once, if it lies within both windows and nothing goes
/// out again; and the FIN goes with the last octets, where both windows take its number. The set-up says so when a connection opens, and nothing later; without it nothing passes a full segment, and no FIN goes with new octets.
pub fn small_segments_wait_for_small_ones()
    ensures waits { (v : View) (stretch : Stretch) → IsSound v → first_due v ≡ Some (Due.Text stretch) → outstanding v.sending ≤ stretch.offset → 0 < stretch.count → stretch.count < v.sending.smss → v.resend.overridden ≡ false → v.nodelay ≡ false
        → ((v.resend.small ≡ 0) × ((outstanding v.sending + stretch.count ≡ length v.sending.held) ⊎ (v.sending.max_window ≤ 2 * stretch.count)))
        ⊎ ((awaits_fin_ack v.state ≡ true) × (outstanding v.sending + stretch.count ≡ length v.sending.held)) }
    ensures sends { (v : View) → IsSound v → v.minshall ≡ true → (v.resend.small ≡ 0) ⊎ (awaits_fin_ack v.state ≡ true) → v.resend.mark ≡ None → outstanding v.sending < length v.sending.held → length v.sending.held ≤ v.sending.window → length v.sending.held ≤ allowance v
        → first_due v ≡ Some (Due.Text (rest_of v)) }
    ensures last { (v : View) → IsSound v → v.minshall ≡ true → awaits_fin_ack v.state ≡ true → v.resend.mark ≡ None → outstanding v.sending < length v.sending.held → length v.sending.held - outstanding v.sending ≤ v.sending.smss → length v.sending.held < v.sending.window → length v.sending.held < allowance v
        → first_due v ≡ Some (Due.Text (record { offset = outstanding v.sending; count = length v.sending.held - outstanding v.sending; fin = true })) }
    ensures plain { (v : View) → v.minshall ≡ false → (passes_full v ≡ false) × ((end : ℕ) → takes_fin v end ≡ false) }
    ensures opened { (room : Room) (local peer : Endpoint) (isn : ℕ) (now : Moment) → (opened_actively room local peer isn now).minshall ≡ room.manner.minshall }
    ensures accepted { (room : Room) (local peer : Endpoint) (isn : ℕ) (syn : Segment) (now : Moment) → (opened_passively room local peer isn syn now).minshall ≡ room.manner.minshall }
    ensures stays { (v : View) (e : Event) → (after_event v e).minshall ≡ v.minshall }
{}

/// The end of the last small segment of new octets is known as long as it is outstanding (RFC 9293 appendix A.3): it stands where such a segment that goes out ends, an acknowledgement that moves SND.UNA brings it as much nearer to that, or to it, and
/// nothing else moves it.
pub fn the_last_small_segment_is_known()
    ensures opened { (room : Room) (local peer : Endpoint) (isn : ℕ) (now : Moment) → (opened_actively room local peer isn now).resend.small ≡ 0 }
    ensures accepted { (room : Room) (local peer : Endpoint) (isn : ℕ) (syn : Segment) (now : Moment) → (opened_passively room local peer isn syn now).resend.small ≡ 0 }
    ensures within { (v : View) → IsSound v → v.resend.small ≤ outstanding v.sending }
    ensures begins { (v : View) (stretch : Stretch) (now : Moment) → first_due v ≡ Some (Due.Text stretch) → IsSmall v stretch → (after_event v (Event.Emits now)).resend.small ≡ end_of stretch }
    ensures stays { (v : View) (e : Event) → IsSound v → ((after_event v e).resend.small ≡ v.resend.small - past (after_event v e).sending.una v.sending.una)
        ⊎ ((now : Moment) × (stretch : Stretch) × (e ≡ Event.Emits now) × (first_due v ≡ Some (Due.Text stretch)) × IsSmall v stretch) }
{}

/// PSH stands on each segment that brings octets and behind which nothing that is held is left, and on no other (RFC 9293 section 3.9.1.2).
pub fn the_last_octet_is_pushed()
    ensures last { (v : View) (stretch : Stretch) → MayGoOut v (Due.Text stretch) → 0 < stretch.count
        → ((let f = flags_of v (Due.Text stretch) in f.psh) ≡ true) ↔ (drop (stretch.offset + stretch.count) v.sending.held ≡ []) }
    ensures none { (v : View) (due : Due) → MayGoOut v due → octets_of v due ≡ [] → (let f = flags_of v due in f.psh) ≡ false }
{}

/// Octets that come are acknowledged at the second segment that brings some, and within half a second of the first (RFC 1122 section 4.2.3.2): where an acknowledgement waits already, another segment with
/// octets makes one owed at once, and one that is owed goes out with whatever is due first.
pub fn second_segments_are_acknowledged()
    ensures second { (v : View) (s : Segment) (now : Moment) → v.released ≡ false → is_receiving v.state ≡ true → is_read v s ≡ true → 0 < length s.octets → v.delays_ack ≡ true
        → (after_segment_at v s now).owes_ack ≡ true }
    ensures first { (v : View) (s : Segment) (now : Moment) → KeepsTime v → v.released ≡ false → is_receiving v.state ≡ true → is_read v s ≡ true → 0 < length s.octets
        → ((after_segment_at v s now).owes_ack ≡ true) ⊎ ((deadline : Moment) × ((after_segment_at v s now).timers.delayed_ack ≡ Some deadline) × (deadline.0 < now.0 + 500)) }
    ensures owed { (v : View) → IsSound v → v.owes_ack ≡ true → (due : Due) × (first_due v ≡ Some due) × ((let f = flags_of v due in f.ack) ≡ true) }
{}

/// The window is told in steps of a segment at least (RFC 1122 section 4.2.3.3, RFC 9293 section 3.8.6.2.2): its right edge stays, or moves on by 1,460 or more, less what rounding takes, up to the end of
/// the units that the free room fills (RFC 7323 section 2.3); or by 1,460 or more to that of the window of a SYN, in octets and as many of them as 16 bits hold (section 2.2). Such a step is told with what goes out next, and by an acknowledgement alone where nothing else does, once the connection has spoken.
pub fn windows_are_advertised_in_whole_steps()
    ensures steps { (v : View) (e : Event) → IsSound v → is_syn_sent v.state ≡ false → v.receiving.edge < 2 ^ 32 → ((after_event v e).receiving.edge ≡ v.receiving.edge)
        ⊎ (((MSS < past (after_event v e).receiving.edge v.receiving.edge + v.receiving.unit) × ((after_event v e).receiving.edge ≡ (v.receiving.rnext + whole_units v.receiving.unit (receive_room v.receiving)) % 2 ^ 32))
        ⊎ ((is_opening v.state ≡ true) × (MSS ≤ past (after_event v e).receiving.edge v.receiving.edge) × ((after_event v e).receiving.edge ≡ (v.receiving.rnext + syn_window v.receiving) % 2 ^ 32))) }
    ensures told { (v : View) (now : Moment) → IsSound v → (is_opening v.state || is_closed v.state) ≡ false → (v.spoke ≡ true) ⊎ (first_due v ≢ None)
        → past v.receiving.edge v.receiving.rnext + MSS + length v.receiving.readable ≤ v.receiving.size → (after_event v (Event.Emits now)).receiving.edge ≡ (v.receiving.rnext + whole_units v.receiving.unit (receive_room v.receiving)) % 2 ^ 32 }
{}

/// No window is overstated (RFC 7323 sections 2.2 and 2.3): what a peer makes of the field of a segment without SYN, by our unit, ends where the right edge is that the connection keeps from then on, or less than a unit before it;
/// the window of a SYN-ACK, which is in octets, ends at that edge or before it; and that of our SYN, told before the peer's numbers are known, ends at the edge that is kept once they are.
pub fn no_window_is_overstated()
    ensures units { (v : View) (due : Due) (now : Moment) (peer : Sending) → IsSound v → (let f = flags_of v due in f.ack) ≡ true → (let f = flags_of v due in f.syn) ≡ false → peer.unit ≡ v.receiving.unit
        → (window_in peer (window_of v due) ≤ receive_window (after_emitted v due now).receiving) × (receive_window (after_emitted v due now).receiving < window_in peer (window_of v due) + peer.unit) }
    ensures octets { (v : View) (due : Due) (now : Moment) → (let f = flags_of v due in f.ack) ≡ true → (let f = flags_of v due in f.syn) ≡ true
        → window_of v due ≤ receive_window (after_emitted v due now).receiving }
    ensures first { (v : View) (s : Segment) (now : Moment) → IsSound v → v.state ≡ State.SynSent → v.sending.nxt ≢ v.sending.una → TakesSyn v s now
        → receive_window (after_event v (Event.Hears s now)).receiving ≡ window_of v Due.Syn }
{}

/// What a peer sends within any window that it was ever told is acceptable, where some of it is new, also when a later segment told less of it by rounding (RFC 7323 section 2.4): it lies before the right edge, and no event takes that
/// to an earlier position.
pub fn told_windows_stay_open()
    ensures stays { (initial next edge later_next later_edge : ℕ) (v : View) (e : Event) → IsSound v → HasNumber e → is_syn_sent v.state ≡ false → ReceivesAt initial next edge v.receiving
        → ReceivesAt initial later_next later_edge (after_event v e).receiving → AreNear edge later_edge → edge ≤ later_edge }
    ensures acceptable { (initial next edge told first : ℕ) (v : View) (s : Segment) → ReceivesAt initial next edge v.receiving → told ≤ edge → s.number ≡ wire initial first → IsNear next first (span_of s)
        → 0 < span_of s → first + span_of s ≤ told → next < first + span_of s → is_acceptable_to v s ≡ true }
{}

/// A connection has spoken once a segment with ACK and without SYN went out. Before, no acknowledgement goes out to tell its window alone, as what a listener opened would answer its handshake by one: it
/// goes out alone only where it is owed, or where the connection has spoken and its window has grown by 1,460 or more. No octets stay unacknowledged by that: past the opening, an acknowledgement that
/// waits does so until the connection has spoken, or is CLOSED.
pub fn no_window_is_told_before_speaking()
    ensures silent { (room : Room) (local peer : Endpoint) (isn : ℕ) (syn : Segment) (now : Moment) → ((opened_actively room local peer isn now).spoke ≡ false) × ((opened_passively room local peer isn syn now).spoke ≡ false) }
    ensures speaks { (v : View) (e : Event) → ((after_event v e).spoke ≡ true)
        ↔ ((v.spoke ≡ true) ⊎ ((now : Moment) × (due : Due) × (e ≡ Event.Emits now) × (first_due v ≡ Some due) × ((let f = flags_of v due in f.ack) ≡ true) × ((let f = flags_of v due in f.syn) ≡ false))) }
    ensures alone { (v : View) → first_due v ≡ Some Due.Ack → (v.owes_ack ≡ true) ⊎ ((v.spoke ≡ true) × (past v.receiving.edge v.receiving.rnext + MSS + length v.receiving.readable ≤ v.receiving.size)) }
    ensures waits { (v : View) (e : Event) → is_opening v.state ≡ false → v.delays_ack ≡ true → is_closed (after_event v e).state ≡ false
        → ((after_event v e).delays_ack ≡ true) ⊎ ((after_event v e).spoke ≡ true) }
{}

/// The retransmission timer (RFC 6298 sections 5.1 and 5.3): an acknowledgement that moves SND.UNA starts it anew where something stays outstanding that isn't probed with, and so does any event by which it
/// begins: for the timeout, from that moment on. No other event moves it while it runs, but a tick that has come to it.
pub fn new_acknowledgements_restart_the_timer()
    ensures restarts { (v : View) (s : Segment) (now : Moment) → (after_event v (Event.Hears s now)).sending.una ≢ v.sending.una → 0 < outstanding (after_event v (Event.Hears s now)).sending
        → probes (after_event v (Event.Hears s now)) ≡ false → (after_event v (Event.Hears s now)).timers.retransmission ≡ Some (after now (after_event v (Event.Hears s now)).resend.timeout.rto) }
    ensures begins { (v : View) (e : Event) (deadline : Moment) → v.timers.retransmission ≡ None → (after_event v e).timers.retransmission ≡ Some deadline
        → (now : Moment) × (moment_of e ≡ Some now) × (deadline ≡ after now (after_event v e).resend.timeout.rto) }
    ensures runs_on { (v : View) (e : Event) (was is : Moment) → is_closed (after_event v e).state ≡ false → v.timers.retransmission ≡ Some was → (after_event v e).timers.retransmission ≡ Some is
        → (is ≡ was) ⊎ (((after_event v e).sending.una ≢ v.sending.una) ⊎ ((now : Moment) × (e ≡ Event.Ticks now) × (was.0 ≤ now.0))) }
{}

/// An expiry of the retransmission timer, unless it ends the connection, puts out again all that is outstanding, from SND.UNA on, wherever the resend mark stood; and it doubles the timeout, up to a minute,
/// and starts the timer anew for that (RFC 6298 sections 5.4 to 5.6).
pub fn expiries_resend_from_una()
    ensures resends { (v : View) (now : Moment) → IsSound v → KeepsTime v → has_come v.timers.retransmission now ≡ true → is_closed (after_tick v now).state ≡ false
        → ((after_tick v now).resend.mark ≡ Some 0) × ((after_tick v now).resend.once ≡ false) × ((first_due (after_tick v now) ≡ Some Due.Syn) ⊎ (first_due (after_tick v now) ≡ Some (Due.Text (again (after_tick v now) 0)))) }
    ensures backs_off { (v : View) (now : Moment) → KeepsTime v → has_come v.timers.retransmission now ≡ true → is_closed (after_tick v now).state ≡ false
        → (let timeout = min 60000 (2 * v.resend.timeout.rto) in ((after_tick v now).resend.timeout.rto ≡ timeout) × ((after_tick v now).timers.retransmission ≡ Some (after now timeout))) }
{}

/// The probe of a closed window (RFC 9293 section 3.8.6.1): the first waits for the timeout, and each further one twice as long as the one before, up to a minute. A probe leaves the timeout, the congestion
/// window and the resend mark as they are.
pub fn probes_wait_twice_as_long()
    ensures first { (v : View) (e : Event) (deadline : Moment) → v.timers.probe ≡ None → (after_event v e).timers.probe ≡ Some deadline
        → ((after_event v e).resend.interval ≡ (after_event v e).resend.timeout.rto) × ((now : Moment) × (moment_of e ≡ Some now) × (deadline ≡ after now (after_event v e).resend.timeout.rto)) }
    ensures next { (v : View) (now : Moment) → KeepsTime v → has_come v.timers.probe now ≡ true → is_closed (after_tick v now).state ≡ false
        → (let wait = min 60000 (2 * v.resend.interval) in ((after_tick v now).resend.interval ≡ wait) × ((after_tick v now).timers.probe ≡ Some (after now wait)) × ((after_tick v now).resend.owes_probe ≡ true)) }
    ensures alone { (v : View) (now : Moment) → KeepsTime v → has_come v.timers.probe now ≡ true → is_closed (after_tick v now).state ≡ false
        → ((after_tick v now).resend.timeout ≡ v.resend.timeout) × ((after_tick v now).congestion ≡ v.congestion) × ((after_tick v now).resend.mark ≡ v.resend.mark) }
    ensures runs_on { (v : View) (e : Event) (was is : Moment) → is_closed (after_event v e).state ≡ false → v.timers.probe ≡ Some was → (after_event v e).timers.probe ≡ Some is
        → ((is ≡ was) × ((after_event v e).resend.interval ≡ v.resend.interval)) ⊎ ((now : Moment) × (e ≡ Event.Ticks now) × (was.0 ≤ now.0)) }
{}

/// The clock ends a connection, but at the end of its wait, at the thirteenth expiry without progress and at no other (RFC 9293 section 3.8.3), or in the silence of a peer that was asked twelve times in vain whether it is there
/// (section 3.8.4), and then every call reports ETIMEDOUT. Each expiry counts, and only progress begins the count anew: SND.UNA moved, or a peer whose window is closed acknowledged. Either always does. So a peer that answers the probes of its closed window by what is acceptable is never given up, and that is the acknowledgement of a peer of this stack which stands between SND.UNA and SND.NXT, whatever its window, where what
/// the peer sent, but for a number that only a probe took, lies within what it was told.
pub fn the_thirteenth_expiry_ends()
    ensures ends { (v : View) (now : Moment) → IsSound v → is_closed v.state ≡ false → is_at_end v now ≡ false → is_closed (after_tick v now).state ≡ true
        → (((v.resend.expiries ≡ 12) × (expires v now ≡ true)) ⊎ ((12 ≤ v.alive.unanswered) × (is_silent v now ≡ true))) × ((after_tick v now).pending_error ≡ Some Refusal.ETIMEDOUT) }
    ensures thirteenth { (v : View) (now : Moment) → v.resend.expiries ≡ 12 → expires v now ≡ true → is_closed (after_tick v now).state ≡ true }
    ensures each { (v : View) (now : Moment) → expires v now ≡ true → is_closed (after_tick v now).state ≡ false → (after_tick v now).resend.expiries ≡ v.resend.expiries + 1 }
    ensures counted { (v : View) (e : Event) → ((after_event v e).resend.expiries ≡ v.resend.expiries)
        ⊎ ((((after_event v e).resend.expiries ≡ 0) × (((after_event v e).sending.una ≢ v.sending.una) ⊎ (v.sending.window ≡ 0)))
        ⊎ ((now : Moment) × (e ≡ Event.Ticks now) × (expires v now ≡ true) × ((after_event v e).resend.expiries ≡ v.resend.expiries + 1))) }
    ensures progress { (v : View) (s : Segment) (now : Moment) → (after_event v (Event.Hears s now)).sending.una ≢ v.sending.una → (after_event v (Event.Hears s now)).resend.expiries ≡ 0 }
    ensures answered { (v : View) (s : Segment) (now : Moment) → is_closed v.state ≡ false → is_opening v.state ≡ false → v.sending.window ≡ 0 → is_acceptable_to v s ≡ true
        → s.flags.ack ≡ true → s.flags.rst ≡ false → (after_event v (Event.Hears s now)).resend.expiries ≡ 0 }
    ensures peer { (initial una next edge : ℕ) (v peer : View) (now : Moment) → is_closed v.state ≡ false → is_opening v.state ≡ false → v.sending.window ≡ 0
        → IsSound peer → (is_syn_sent peer.state || is_closed peer.state) ≡ false → peer.sending.una ≡ wire initial una → ReceivesAt initial next edge v.receiving → una ≤ next → next ≤ una + outstanding peer.sending
        → una + settled peer.sending ≤ edge → (after_event v (Event.Hears (segment_of peer Due.Ack) now)).resend.expiries ≡ 0 }
{}
