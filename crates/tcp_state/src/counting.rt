//! Laws of what a connection counts from, of what it takes each event for, and of what the clock leaves.

ghost use Rattle.std.specs.Prelude.{◌≡◌, ◌≢◌, ◌+◌, ◌-◌, ◌*◌, ◌^◌, ◌<◌, ◌≤◌, ◌&&◌, ◌||◌, nat_lt, ◌⊎◌, ◌↔◌, ℕ, min, max, true, false, if◌then◌else◌, length, Some, None, is_some, []};
ghost use Rattle.ipv4.specs.declared.addr.Endpoint.{Endpoint};
ghost use Rattle.tcp_segment.specs.Options.{last_mss};
ghost use Rattle.tcp_segment.specs.Segment.{Segment, smss_of, span_of};
ghost use Rattle.tcp_segment.specs.Wire.{past};
ghost use Rattle.clock.specs.declared.moment.Moment.{Moment};
ghost use Rattle.clock.specs.Moments.{after, has_come};
ghost use Rattle.congestion.specs.Window.{initial_window, goes_on, after_new_ack, after_partial_ack, after_duplicate, after_loss, after_expiry, third_is_next};
ghost use Rattle.tcp_state.specs.Selective.{selects};
ghost use Rattle.retransmit.specs.Timeout.{estimate_after, after_sample};
ghost use Rattle.tcp_halves.specs.Numbers.{is_before};
ghost use Rattle.tcp_halves.specs.Halves.{Room};
ghost use Rattle.tcp_halves.specs.Stream.{outstanding};
ghost use Rattle.tcp_state.specs.declared.resend.Timed.{Timed};
ghost use Rattle.tcp_state.specs.declared.connection.Fate.{Fate};
ghost use Rattle.tcp_state.specs.declared.emission.Due.{Due};
ghost use Rattle.tcp_state.specs.declared.state.State.{State};
ghost use Rattle.tcp_state.specs.View.{View, IsSound, is_opening, is_syn_received, is_closed, opened_actively};
ghost use Rattle.tcp_state.specs.Alive.{IsPatient};
ghost use Rattle.tcp_state.specs.Timing.{KeepsTime};
ghost use Rattle.tcp_state.specs.Arrival.{opened_passively, is_duplicate, counts_duplicates, is_counted_duplicate, is_report, reports_loss, is_rejected, after_heard, repairs_tail, given_back};
ghost use Rattle.tcp_state.specs.Due.{first_due, octets_of};
ghost use Rattle.tcp_state.specs.Edges.{Event, after_event, gives_back_by, fate_by, moment_of, state_after};
ghost use Rattle.tcp_state.specs.Said.{segment_of};
ghost use Rattle.tcp_state.specs.Counted.{WaitsForEnd, BringsFinAgain, BringsSyn, IsDuplicate, IsGivenUp, BringsNew, BringsAgain};

/// The wait of a connection for its end is counted from the event that leads to TIME-WAIT or to FIN-WAIT-2 (RFC 9293 sections 3.4.2, 3.6.1 and 3.10.7.4). In TIME-WAIT a segment that brings the peer's FIN again,
/// and nothing else, begins it anew; in FIN-WAIT-2 nothing but the `close` of its caller does, so that it counts from the later of the two. A tick ends it exactly where it has lasted 240,000 ms in TIME-WAIT,
/// or 60,000 ms in FIN-WAIT-2 where its caller closed it, and tells no error; the clock ends no FIN-WAIT-2 of one that a caller still reads from. So it is where
/// the peer, if it is asked whether it is there, was asked fewer than twelve times since it last said something.
pub fn waits_are_counted_from_their_event()
    ensures begins { (v : View) (e : Event) → WaitsForEnd (after_event v e).state → v.state ≢ (after_event v e).state → moment_of e ≡ Some (after_event v e).since }
    ensures begins_anew { (v : View) (s : Segment) (now : Moment) → v.state ≡ State.TimeWait → BringsFinAgain v s → (after_event v (Event.Hears s now)).since ≡ now }
    ensures stays { (v : View) (e : Event) → v.state ≡ State.TimeWait → (after_event v e).state ≡ State.TimeWait
        → ((after_event v e).since ≡ v.since) ⊎ ((s : Segment) × (now : Moment) × (e ≡ Event.Hears s now) × BringsFinAgain v s) }
    ensures closed { (v : View) (now : Moment) → v.state ≡ State.FinWait2 → v.receiving.readable ≡ []
        → ((after_event v (Event.Closes now)).state ≡ State.FinWait2) × ((after_event v (Event.Closes now)).released ≡ true) × ((after_event v (Event.Closes now)).since.0 ≡ max v.since.0 now.0) }
    ensures open_yet { (v : View) (e : Event) → v.state ≡ State.FinWait2 → (after_event v e).state ≡ State.FinWait2
        → ((after_event v e).since ≡ v.since) ⊎ ((now : Moment) × (e ≡ Event.Closes now)) }
    ensures ends { (v : View) (now : Moment) → IsSound v → KeepsTime v → v.state ≡ State.TimeWait → ((after_event v (Event.Ticks now)).state ≡ State.Closed) ↔ ((after v.since 240000).0 ≤ now.0) }
    ensures left_ends { (v : View) (now : Moment) → IsSound v → KeepsTime v → v.state ≡ State.FinWait2 → v.released ≡ true → IsPatient v
        → ((after_event v (Event.Ticks now)).state ≡ State.Closed) ↔ ((after v.since 60000).0 ≤ now.0) }
    ensures goes_on { (v : View) (now : Moment) → IsSound v → KeepsTime v → v.state ≡ State.FinWait2 → v.released ≡ false → IsPatient v → (after_event v (Event.Ticks now)).state ≡ State.FinWait2 }
    ensures in_silence { (v : View) (now : Moment) → IsSound v → KeepsTime v → WaitsForEnd v.state → IsPatient v → (after_event v (Event.Ticks now)).pending_error ≡ None }
    ensures taken_out { (v : View) (now : Moment) → IsSound v → KeepsTime v → WaitsForEnd v.state → v.released ≡ true → (after_event v (Event.Ticks now)).state ≡ State.Closed
        → fate_by v (Event.Ticks now) ≡ Fate.Removed }
{}

/// The most octets that a connection sends in one segment are those of the SYN by which its peer opened (RFC 9293 section 3.7.1, RFC 5681 section 2): what its MSS option says, at least 64 and at most 1,460,
/// or 536 where it has none. So it is whether the SYN came to a listener, with the answer to our SYN, or across it; no other event moves the number, and what is due has no more octets.
pub fn sizes_are_the_peers()
    ensures listener { (room : Room) (local peer : Endpoint) (isn : ℕ) (syn : Segment) (now : Moment) → (opened_passively room local peer isn syn now).sending.smss ≡ smss_of syn }
    ensures opens { (v : View) (s : Segment) (now : Moment) → v.state ≡ State.SynSent
        → ((after_event v (Event.Hears s now)).state ≡ State.SynReceived) ⊎ ((after_event v (Event.Hears s now)).state ≡ State.Established) → (after_event v (Event.Hears s now)).sending.smss ≡ smss_of s }
    ensures others { (v : View) (e : Event) → ((after_event v e).sending.smss ≡ v.sending.smss) ⊎ ((s : Segment) × (now : Moment) × (e ≡ Event.Hears s now) × BringsSyn v s × ((after_event v e).sending.smss ≡ smss_of s)) }
    ensures told { (s : Segment) (size : ℕ) → s.flags.syn ≡ true → last_mss None s.options ≡ Some size → smss_of s ≡ min (max size 64) 1460 }
    ensures untold { (s : Segment) → last_mss None s.options ≡ None → smss_of s ≡ 536 }
    ensures kept { (v : View) (due : Due) → IsSound v → first_due v ≡ Some due → length (octets_of v due) ≤ v.sending.smss }
{}

/// What an event is to the congestion window (RFC 5681 sections 2, 3.1 and 3.2, RFC 6582 section 3.2). Where our SYN is acknowledged, the window begins; later an acknowledgement that moves SND.UNA counts for as many
/// octets as it acknowledges, so without our FIN, and is a partial one where a recovery goes on whose end it doesn't reach, and reports don't rule; a duplicate one, where it moves nothing and counts, or a report that counts, which counts behind the acknowledgement where it comes with one (RFC 6675 section 2); one that ends a probe of the tail pays before for the loss that this repaired (RFC 8985 section 7.4); and an expiry of the retransmission timer. No
/// other event moves the window, nor one that ends the connection. A segment that tells that the last of what went out again needn't have gives back, besides, what the loss took (RFC 3708).
pub fn the_congestion_window_counts_octets()
    ensures begins { (v : View) (s : Segment) (now : Moment) → is_opening v.state ≡ true → (after_event v (Event.Hears s now)).sending.una ≢ v.sending.una → is_closed (after_event v (Event.Hears s now)).state ≡ false
        → (after_event v (Event.Hears s now)).congestion ≡ initial_window v.congestion.control (after_event v (Event.Hears s now)).sending.smss (after_event v (Event.Hears s now)).resend.syn_resent }
    ensures acknowledged { (v : View) (s : Segment) (now : Moment) → is_opening v.state ≡ false → (after_event v (Event.Hears s now)).sending.una ≢ v.sending.una → is_closed (after_event v (Event.Hears s now)).state ≡ false
        → is_report v s ≡ false → repairs_tail v s ≡ false → (goes_on v.congestion && nat_lt 0 (after_event v (Event.Hears s now)).resend.recover) ≡ false
        → (after_event v (Event.Hears s now)).congestion ≡ given_back (gives_back_by v (Event.Hears s now) (after_event v (Event.Hears s now))) (after_new_ack v.congestion (min (past (after_event v (Event.Hears s now)).sending.una v.sending.una) (length v.sending.held)) (outstanding (after_event v (Event.Hears s now)).sending)) }
    ensures tail { (v : View) (s : Segment) (now : Moment) → is_opening v.state ≡ false → (after_event v (Event.Hears s now)).sending.una ≢ v.sending.una → is_closed (after_event v (Event.Hears s now)).state ≡ false
        → is_report v s ≡ false → repairs_tail v s ≡ true
        → (after_event v (Event.Hears s now)).congestion ≡ after_new_ack (after_loss v.congestion v.resend.tail) (min (past (after_event v (Event.Hears s now)).sending.una v.sending.una) (length v.sending.held)) (outstanding (after_event v (Event.Hears s now)).sending) }
    ensures partly { (v : View) (s : Segment) (now : Moment) → is_opening v.state ≡ false → (after_event v (Event.Hears s now)).sending.una ≢ v.sending.una → is_closed (after_event v (Event.Hears s now)).state ≡ false
        → (goes_on v.congestion && nat_lt 0 (after_event v (Event.Hears s now)).resend.recover) ≡ true → selects v ≡ false
        → (after_event v (Event.Hears s now)).congestion ≡ after_partial_ack v.congestion (min (past (after_event v (Event.Hears s now)).sending.una v.sending.una) (length v.sending.held)) }
    ensures ruled { (v : View) (s : Segment) (now : Moment) → is_opening v.state ≡ false → (after_event v (Event.Hears s now)).sending.una ≢ v.sending.una → is_closed (after_event v (Event.Hears s now)).state ≡ false
        → (goes_on v.congestion && nat_lt 0 (after_event v (Event.Hears s now)).resend.recover) ≡ true → selects v ≡ true → (after_event v (Event.Hears s now)).congestion ≡ given_back (gives_back_by v (Event.Hears s now) (after_event v (Event.Hears s now))) v.congestion }
    ensures reported { (v : View) (s : Segment) (now : Moment) → (after_event v (Event.Hears s now)).sending.una ≡ v.sending.una → is_closed (after_event v (Event.Hears s now)).state ≡ false → is_report v s ≡ true → is_counted_duplicate v s ≡ false → (is_closed v.state || is_rejected v s) ≡ false
        → (after_event v (Event.Hears s now)).congestion ≡ given_back (gives_back_by v (Event.Hears s now) (after_event v (Event.Hears s now))) (let flight = outstanding (after_heard v s).sending in if reports_loss v s then after_loss v.congestion flight else if third_is_next v.congestion then v.congestion else after_duplicate v.congestion flight) }
    ensures acknowledged_and_reported { (v : View) (s : Segment) (now : Moment) → (after_event v (Event.Hears s now)).sending.una ≢ v.sending.una → is_closed (after_event v (Event.Hears s now)).state ≡ false → is_report v s ≡ true
        → (after_event v (Event.Hears s now)).congestion ≡ given_back (gives_back_by v (Event.Hears s now) (after_event v (Event.Hears s now))) (let flight = outstanding (after_event v (Event.Hears s now)).sending in let c = after_new_ack v.congestion (min (past (after_event v (Event.Hears s now)).sending.una v.sending.una) (length v.sending.held)) flight in
        if reports_loss v s then after_loss c flight else after_duplicate c flight) }
    ensures duplicate { (v : View) (s : Segment) (now : Moment) → IsSound v → IsDuplicate v s → counts_duplicates v ≡ true → (after_event v (Event.Hears s now)).congestion ≡ after_duplicate v.congestion (past v.sending.nxt v.sending.una) }
    ensures expired { (v : View) (now : Moment) → has_come v.timers.retransmission now ≡ true → is_closed (after_event v (Event.Ticks now)).state ≡ false
        → (after_event v (Event.Ticks now)).congestion ≡ after_expiry v.congestion (past v.sending.nxt v.sending.una) }
    ensures others { (v : View) (e : Event) → ((after_event v e).congestion ≡ v.congestion)
        ⊎ (((s : Segment) × (now : Moment) × (e ≡ Event.Hears s now) × (is_closed (after_event v e).state ≡ false) × (((after_event v e).sending.una ≢ v.sending.una) ⊎ ((IsDuplicate v s × (counts_duplicates v ≡ true)) ⊎ (is_report v s ≡ true))))
        ⊎ (((now : Moment) × (e ≡ Event.Ticks now) × (has_come v.timers.retransmission now ≡ true)) ⊎ ((gives_back_by v e (after_event v e) ≡ true) × ((after_event v e).congestion ≡ given_back true v.congestion)))) }
    ensures same { (v : View) (s : Segment) → IsSound v → (is_duplicate v s ≡ true) ↔ IsDuplicate v s }
{}

/// What moves the retransmission timeout (RFC 6298 sections 2, 3, 5.5 and 5.7). Where SND.UNA comes to the end of the segment that is measured, the time since that went out is a sample; where our SYN is acknowledged
/// after an expiry, the timeout begins anew with three seconds; an expiry of the retransmission timer doubles it, up to a minute. Nothing else moves it.
pub fn the_timeout_moves_by_events()
    ensures sampled { (v : View) (s : Segment) (now : Moment) (timed : Timed) → v.resend.timed ≡ Some timed → (after_event v (Event.Hears s now)).sending.una ≢ v.sending.una
        → is_closed (after_event v (Event.Hears s now)).state ≡ false → is_before (after_event v (Event.Hears s now)).sending.una timed.end.0 ≡ false
        → ((after_event v (Event.Hears s now)).resend.timeout.estimate ≡ Some (estimate_after v.resend.timeout.estimate (min 60000 (now.0 - timed.since.0))))
        × ((is_opening v.state && nat_lt 0 v.resend.expiries) ≡ false → (after_event v (Event.Hears s now)).resend.timeout ≡ after_sample v.resend.timeout (now.0 - timed.since.0)) }
    ensures lost_syn { (v : View) (s : Segment) (now : Moment) → is_opening v.state ≡ true → 0 < v.resend.expiries → (after_event v (Event.Hears s now)).sending.una ≢ v.sending.una
        → is_closed (after_event v (Event.Hears s now)).state ≡ false
        → ((after_event v (Event.Hears s now)).resend.timeout.rto ≡ 3000)
        × (v.resend.timed ≡ None → (after_event v (Event.Hears s now)).resend.timeout.estimate ≡ v.resend.timeout.estimate) }
    ensures expired { (v : View) (now : Moment) → has_come v.timers.retransmission now ≡ true → is_closed (after_event v (Event.Ticks now)).state ≡ false
        → (after_event v (Event.Ticks now)).resend.timeout ≡ record v.resend.timeout { rto = min 60000 (2 * v.resend.timeout.rto) } }
    ensures others { (v : View) (e : Event) → ((after_event v e).resend.timeout ≡ v.resend.timeout)
        ⊎ (((s : Segment) × (now : Moment) × (e ≡ Event.Hears s now) × ((after_event v e).sending.una ≢ v.sending.una)
        × (((timed : Timed) × (v.resend.timed ≡ Some timed) × (is_before (after_event v e).sending.una timed.end.0 ≡ false)) ⊎ ((is_opening v.state ≡ true) × (0 < v.resend.expiries))))
        ⊎ ((now : Moment) × (e ≡ Event.Ticks now) × (has_come v.timers.retransmission now ≡ true))) }
{}

/// The clock and what goes out leave the streams as they are: the octets that are held to be sent and those that can be read or are kept ahead of a gap, and whether either side is closed. A segment that goes out moves
/// at most SND.NXT, with it whether only a probe took the number before, and the right edge of the window. Where a tick ends the connection, the receiving half stays so too, and nothing is held to be sent any longer.
pub fn ticks_leave_the_streams()
    ensures ticks { (v : View) (now : Moment) → is_closed (after_event v (Event.Ticks now)).state ≡ false
        → ((after_event v (Event.Ticks now)).sending ≡ v.sending) × ((after_event v (Event.Ticks now)).receiving ≡ v.receiving) × ((after_event v (Event.Ticks now)).state ≡ v.state) }
    ensures ends { (v : View) (now : Moment) → is_closed (after_event v (Event.Ticks now)).state ≡ true → is_closed v.state ≡ false
        → ((after_event v (Event.Ticks now)).receiving ≡ v.receiving) × ((after_event v (Event.Ticks now)).sending.held ≡ []) }
    ensures goes_out { (v : View) (now : Moment)
        → (let t = (after_event v (Event.Emits now)).sending in t ≡ record v.sending { nxt = t.nxt; probed = t.probed })
        × ((after_event v (Event.Emits now)).receiving ≡ record v.receiving { edge = (after_event v (Event.Emits now)).receiving.edge }) × ((after_event v (Event.Emits now)).state ≡ v.state) }
{}

/// One round trip after the other is measured (RFC 6298 section 3): where none is, that of the next numbers that go out for the first time, from the moment at which they do to the acknowledgement of all of
/// them. It is measured until SND.UNA comes to their end, unless something goes out again before, or a probe does, or the connection ends.
pub fn new_numbers_are_measured()
    ensures begins { (v : View) (due : Due) (now : Moment) → first_due v ≡ Some due → BringsNew v due → v.resend.timed ≡ None
        → (timed : Timed) × ((after_event v (Event.Emits now)).resend.timed ≡ Some timed) × (timed.end.0 ≡ (after_event v (Event.Emits now)).sending.nxt) × (timed.since ≡ now) }
    ensures goes_on { (v : View) (e : Event) (timed : Timed) → IsSound v → v.resend.timed ≡ Some timed → ((after_event v e).resend.timed ≡ Some timed)
        ⊎ (((after_event v e).resend.timed ≡ None) × ((is_closed (after_event v e).state ≡ true)
        ⊎ (((s : Segment) × (now : Moment) × (e ≡ Event.Hears s now) × ((after_event v e).sending.una ≢ v.sending.una) × (is_before (after_event v e).sending.una timed.end.0 ≡ false))
        ⊎ ((now : Moment) × (due : Due) × (e ≡ Event.Emits now) × (first_due v ≡ Some due) × BringsAgain v due)))) }
{}

/// A connection remembers that its SYN was lost, by which its congestion window begins with one segment (RFC 5681 section 3.1): from the going out of a SYN or SYN-ACK again after an expiry, and then for ever. One
/// that goes out again in answer to the peer's was not lost, and nothing else counts so.
pub fn lost_syns_are_remembered()
    ensures opened { (room : Room) (local peer : Endpoint) (isn : ℕ) (now : Moment) → (opened_actively room local peer isn now).resend.syn_resent ≡ false }
    ensures accepted { (room : Room) (local peer : Endpoint) (isn : ℕ) (syn : Segment) (now : Moment) → (opened_passively room local peer isn syn now).resend.syn_resent ≡ false }
    ensures resent { (v : View) (now : Moment) → first_due v ≡ Some Due.Syn → 0 < outstanding v.sending → 0 < v.resend.expiries → (after_event v (Event.Emits now)).resend.syn_resent ≡ true }
    ensures stays { (v : View) (e : Event) → v.resend.syn_resent ≡ true → (after_event v e).resend.syn_resent ≡ true }
    ensures others { (v : View) (e : Event) → v.resend.syn_resent ≡ false → (after_event v e).resend.syn_resent ≡ true
        → (now : Moment) × (e ≡ Event.Emits now) × (first_due v ≡ Some Due.Syn) × (0 < outstanding v.sending) × (0 < v.resend.expiries) }
{}

/// Each segment that goes out and brings what went out before counts once, a probe among them, and nothing else does; the count holds still at its last value, which 64 bits have.
pub fn resent_segments_are_counted()
    ensures opened { (room : Room) (local peer : Endpoint) (isn : ℕ) (now : Moment) → (opened_actively room local peer isn now).resend.resent ≡ 0 }
    ensures accepted { (room : Room) (local peer : Endpoint) (isn : ℕ) (syn : Segment) (now : Moment) → (opened_passively room local peer isn syn now).resend.resent ≡ 0 }
    ensures again { (v : View) (due : Due) (now : Moment) → first_due v ≡ Some due → BringsAgain v due → (after_event v (Event.Emits now)).resend.resent ≡ min (2 ^ 64 - 1) (v.resend.resent + 1) }
    ensures others { (v : View) (e : Event) → ((after_event v e).resend.resent ≡ v.resend.resent)
        ⊎ ((now : Moment) × (due : Due) × (e ≡ Event.Emits now) × (first_due v ≡ Some due) × BringsAgain v due) }
{}

/// Since when a connection waits for the hop to its peer. A moment stands exactly where a segment that takes numbers is due first and nothing is outstanding: the SYN, octets, the FIN, or a probe. It is that of the
/// event by which the wait began, as the opening is; and as long as it stands no event moves it.
pub fn first_segments_wait_from_their_event()
    ensures stands { (v : View) → IsSound v → KeepsTime v
        → (is_some v.unheard ≡ true) ↔ ((v.sending.nxt ≡ v.sending.una) × ((due : Due) × (first_due v ≡ Some due) × (0 < span_of (segment_of v due)))) }
    ensures opened { (room : Room) (local peer : Endpoint) (isn : ℕ) (now : Moment) → (opened_actively room local peer isn now).unheard ≡ Some now }
    ensures accepted { (room : Room) (local peer : Endpoint) (isn : ℕ) (syn : Segment) (now : Moment) → (opened_passively room local peer isn syn now).unheard ≡ Some now }
    ensures begins { (v : View) (e : Event) (since : Moment) → v.unheard ≡ None → (after_event v e).unheard ≡ Some since → moment_of e ≡ Some since }
    ensures stays { (v : View) (e : Event) (since : Moment) → v.unheard ≡ Some since → ((after_event v e).unheard ≡ Some since) ⊎ ((after_event v e).unheard ≡ None) }
{}

/// A connection whose hop is not known at a tick is given up where a first segment has waited for it for 483,000 ms, the time in which a SYN that nobody answers is given up (RFC 1122 section 4.2.3.5, RFC 9293
/// section 3.8.3): every call is told ETIMEDOUT, and what its caller closed is taken out. What a listener opened, and is not established, waits for 3,000 ms, and goes back to LISTEN. Before, and where nothing waits,
/// such a tick changes nothing.
pub fn lost_hops_give_up()
    ensures unneeded { (v : View) (now : Moment) → v.unheard ≡ None → (after_event v (Event.LosesHop now) ≡ v) × (fate_by v (Event.LosesHop now) ≡ Fate.Stays) }
    ensures awaited { (v : View) (since now : Moment) → (v.passive && is_syn_received v.state) ≡ false → v.unheard ≡ Some since → now.0 < (after since 483000).0
        → (after_event v (Event.LosesHop now) ≡ v) × (fate_by v (Event.LosesHop now) ≡ Fate.Stays) }
    ensures given_up { (v : View) (since now : Moment) → IsSound v → KeepsTime v → (v.passive && is_syn_received v.state) ≡ false → v.unheard ≡ Some since → (after since 483000).0 ≤ now.0
        → IsGivenUp (after_event v (Event.LosesHop now)) × (fate_by v (Event.LosesHop now) ≡ (if v.released then Fate.Removed else Fate.Stays)) }
    ensures listener_waits { (v : View) (since now : Moment) → (v.passive && is_syn_received v.state) ≡ true → v.unheard ≡ Some since → now.0 < (after since 3000).0
        → (after_event v (Event.LosesHop now) ≡ v) × (fate_by v (Event.LosesHop now) ≡ Fate.Stays) }
    ensures listener_ends { (v : View) (since now : Moment) → IsSound v → KeepsTime v → (v.passive && is_syn_received v.state) ≡ true → v.unheard ≡ Some since → (after since 3000).0 ≤ now.0
        → IsGivenUp (after_event v (Event.LosesHop now)) × (fate_by v (Event.LosesHop now) ≡ Fate.Removed) × (state_after v (Event.LosesHop now) ≡ State.Listen) }
{}
