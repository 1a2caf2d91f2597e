//! Laws of what a connection must do with a segment, and at a call: functions with nothing to do, whose contracts are the laws.

ghost use Rattle.std.specs.Prelude.{◌≡◌, ℕ, ◌+◌, ◌-◌, ◌<◌, ◌≤◌, ◌≢◌, ◌==◌, ◌^◌, ◌||◌, ◌&&◌, ◌⊎◌, not, length, true, false, if◌then◌else◌, List, take, drop, min, Some, None, [], Ok, Err};
ghost use Rattle.tcp_segment.specs.Segment.{Segment};
ghost use Rattle.tcp_segment.specs.Wire.{wire};
ghost use Rattle.clock.specs.declared.moment.Moment.{Moment};
ghost use Rattle.tcp_state.specs.declared.connection.Fate.{Fate};
ghost use Rattle.tcp_state.specs.declared.state.State.{State};
ghost use Rattle.tcp_halves.specs.Stream.{outstanding};
ghost use Rattle.tcp_state.specs.View.{View, IsSound, is_opening, is_syn_sent, is_write_closed, is_read_closed, is_closed, reset_since};
ghost use Rattle.tcp_state.specs.declared.calls.Refusal.{Refusal};
ghost use Rattle.tcp_state.specs.declared.calls.Received.{Received};
ghost use Rattle.tcp_state.specs.Calls.{send_answer, recv_answer, shutdown_refusal};
ghost use Rattle.tcp_state.specs.Edges.{Event, after_event, fate_by};
ghost use Rattle.tcp_state.specs.declared.emission.Due.{Due};
ghost use Rattle.tcp_state.specs.Due.{first_due};
ghost use Rattle.tcp_state.specs.Arrival.{after_segment_at, fate, is_silenced};
ghost use Rattle.tcp_state.specs.Duties.{acknowledges, NamesNone, HoldsFrom, Places, StandsAt, brings_text, draws, is_used, comes_too_late, acknowledges_end, ends_stream, state_beyond, IsShut, TakesBehind, ReadsFirst};

/// Past SYN-SENT an acknowledgement of what is outstanding moves SND.UNA to its number and frees exactly the octets before it, with our SYN before the first of them and our FIN behind the last, and SND.NXT stays (RFC 9293
/// sections 3.4 and 3.10.7.4, fifth); unless octets come with it after the caller closed the connection, which then owes a reset. Any other segment leaves all three as they were, unless it ends the connection.
pub fn acknowledgements_free_what_they_name()
    ensures frees { (v : View) (s : Segment) (now : Moment) (own una ack : ℕ) → IsSound v → (is_syn_sent v.state || is_closed v.state) ≡ false → acknowledges v s ≡ true
        → v.sending.una ≡ wire own una → s.acknowledgement ≡ wire own ack → una < ack → ack ≤ una + outstanding v.sending → (after_segment_at v s now).owes_reset ≡ false
        → HoldsFrom s.acknowledgement (drop (ack - una) v.sending.held) v (after_segment_at v s now) }
    ensures others { (v : View) (s : Segment) (now : Moment) (own una : ℕ) → IsSound v → is_syn_sent v.state ≡ false → v.sending.una ≡ wire own una → s.acknowledgement < 2 ^ 32
        → (acknowledges v s ≡ true → NamesNone own una v s) → is_closed (after_segment_at v s now).state ≡ false
        → HoldsFrom v.sending.una v.sending.held v (after_segment_at v s now) }
{}

/// Past SYN-SENT these segments, and no others, make an acknowledgement owed at once, where they don't end the connection (RFC 9293 sections 3.8.6.3 and 3.10.7.4, RFC 1122 section 4.2.3.2): one that is not
/// acceptable and no reset; a reset in the window behind RCV.NXT; an acceptable SYN; an acknowledgement of what was not sent; one that takes no number and, past the opening, has that before RCV.NXT; a FIN; and octets that don't stand next, come while some are kept ahead of a gap, or are
/// those of a second segment. So an acknowledgement alone draws none, but at the number before RCV.NXT. Octets, and nothing else, make one wait. On guard one that is too old draws one, too, and ten at most in a second go out
/// for segments that aren't used (RFC 5961 sections 5.2 and 7).
pub fn what_draws_an_acknowledgement()
    ensures owed { (at : Places) (v : View) (s : Segment) (now : Moment) → IsSound v → v.guard.on ≡ false → is_syn_sent v.state ≡ false → StandsAt at v s → is_closed (after_segment_at v s now).state ≡ false
        → (after_segment_at v s now).owes_ack ≡ (v.owes_ack || draws at v s) }
    ensures guarded { (at : Places) (v : View) (s : Segment) (now : Moment) → IsSound v → is_syn_sent v.state ≡ false → StandsAt at v s → is_closed (after_segment_at v s now).state ≡ false
        → (after_segment_at v s now).owes_ack ≡ ((v.owes_ack || draws at v s) && not (is_silenced v s now)) }
    ensures delayed { (at : Places) (v : View) (s : Segment) (now : Moment) → IsSound v → is_syn_sent v.state ≡ false → StandsAt at v s → is_closed (after_segment_at v s now).state ≡ false
        → (after_segment_at v s now).delays_ack ≡ (v.delays_ack || (brings_text at v s && not (length s.octets == 0))) }
{}

/// Octets at RCV.NXT or past it abort a connection that its caller closed: it is CLOSED, and from that moment on owes its peer a reset, for which it keeps its place (RFC 9293 section 3.6.1, RFC 1122 section
/// 4.2.2.13). No other segment makes a reset owed.
pub fn octets_after_close_abort()
    ensures aborts { (at : Places) (v : View) (s : Segment) (now : Moment) → IsSound v → StandsAt at v s → comes_too_late at v s ≡ true
        → ((after_segment_at v s now).state ≡ State.Closed) × (reset_since (after_segment_at v s now) ≡ Some now) × (fate v s ≡ Fate.Stays) }
    ensures alone { (at : Places) (v : View) (s : Segment) (now : Moment) → IsSound v → is_closed v.state ≡ false → StandsAt at v s → comes_too_late at v s ≡ false
        → (after_segment_at v s now).owes_reset ≡ false }
{}

/// A FIN counts exactly where every octet before it has come in order and the window has room for it: RCV.NXT moves over it, and the state moves on, as it does where our FIN is acknowledged (RFC 9293 section 3.3.2,
/// figure 5, and section 3.10.7.4, fifth and eighth). Any other FIN leaves both as they are without it. A segment that is not used changes neither the state nor anything of the peer's stream, unless it ends the connection.
pub fn the_end_counts_in_order()
    ensures used { (at : Places) (v : View) (s : Segment) (now : Moment) → IsSound v → (is_syn_sent v.state || is_closed v.state) ≡ false → StandsAt at v s → is_used at v s ≡ true → comes_too_late at v s ≡ false
        → (let w = after_segment_at v s now in let count = length w.receiving.readable - length v.receiving.readable in
        (w.state ≡ state_beyond v.state (acknowledges_end at v) (ends_stream at v s count)) × (w.receiving.rnext ≡ wire at.peer (at.next + count + (if ends_stream at v s count then 1 else 0)))) }
    ensures unused { (at : Places) (v : View) (s : Segment) (now : Moment) → IsSound v → is_syn_sent v.state ≡ false → StandsAt at v s → is_used at v s ≡ false → is_closed (after_segment_at v s now).state ≡ false
        → ((after_segment_at v s now).state ≡ v.state) × ((after_segment_at v s now).receiving ≡ v.receiving) }
{}

/// Closing our side (RFC 9293 sections 3.6 and 3.10.4): ESTABLISHED moves to FIN-WAIT-1, CLOSE-WAIT to LAST-ACK, and a side that is closed stays so; what is held and what is readable stay, and octets are taken no longer.
/// There is nothing to close while the connection opens. A `close` does the same, and its caller has left. But where the connection opens for a peer, or octets wait that nobody will read, a `close` aborts it, and it
/// owes a reset from that moment on (RFC 1122 section 4.2.2.13); and where it waits for the answer to its SYN, or is CLOSED, it is taken out.
pub fn closing_closes()
    ensures shuts { (v : View) (now : Moment) → IsSound v → (is_opening v.state || is_closed v.state) ≡ false
        → (shutdown_refusal v ≡ None) × IsShut v (after_event v (Event.Shuts now)) × ((after_event v (Event.Shuts now)).released ≡ v.released) × (fate_by v (Event.Shuts now) ≡ Fate.Stays) }
    ensures opening { (v : View) (now : Moment) → IsSound v → is_opening v.state ≡ true → (shutdown_refusal v ≡ Some Refusal.ENOTCONN) × (after_event v (Event.Shuts now) ≡ v) }
    ensures leaves { (v : View) (now : Moment) → IsSound v → (is_opening v.state || is_closed v.state) ≡ false → v.receiving.readable ≡ []
        → IsShut v (after_event v (Event.Closes now)) × ((after_event v (Event.Closes now)).released ≡ true) × ((after_event v (Event.Closes now)).owes_reset ≡ false) × (fate_by v (Event.Closes now) ≡ Fate.Stays) }
    ensures aborts { (v : View) (now : Moment) → (v.state ≡ State.SynReceived) ⊎ (((is_opening v.state || is_closed v.state) ≡ false) × (v.receiving.readable ≢ []))
        → ((after_event v (Event.Closes now)).state ≡ State.Closed) × (reset_since (after_event v (Event.Closes now)) ≡ Some now) × (fate_by v (Event.Closes now) ≡ Fate.Stays) }
    ensures removes { (v : View) (now : Moment) → (v.state ≡ State.SynSent) ⊎ (v.state ≡ State.Closed) → fate_by v (Event.Closes now) ≡ Fate.Removed }
{}

/// An abort (RFC 9293 section 3.10.5) leaves nothing of a connection but the reset that its peer is owed from that moment on: it is CLOSED, nothing is held, and its caller has left. Once that reset has gone out, it is taken
/// out, as what is CLOSED already is at once.
pub fn aborts_owe_a_reset()
    ensures owes { (v : View) (now : Moment) → is_closed v.state ≡ false
        → (let w = after_event v (Event.Aborts now) in (w.state ≡ State.Closed) × (w.sending.held ≡ []) × (w.released ≡ true) × (reset_since w ≡ Some now)) × (fate_by v (Event.Aborts now) ≡ Fate.Stays) }
    ensures goes { (v : View) (now : Moment) → IsSound v → v.owes_reset ≡ true
        → (first_due v ≡ Some Due.Rst) × ((after_event v (Event.Emits now)).owes_reset ≡ false) × (fate_by v (Event.Emits now) ≡ Fate.Removed) }
    ensures removes { (v : View) (now : Moment) → v.state ≡ State.Closed → fate_by v (Event.Aborts now) ≡ Fate.Removed }
{}

/// Once a connection is open, and while our side isn't closed, a `send` takes the first octets, as many as the sending half has room for, behind those that are held, and answers how many (RFC 9293 section 3.10.2). Where
/// there is room for none of them, it answers EAGAIN and changes nothing.
pub fn sends_take_what_fits()
    ensures takes { (v : View) (octets : List ℕ) (now : Moment) → IsSound v → (is_opening v.state || is_write_closed v.state) ≡ false → (0 < length octets → length v.sending.held < v.sending.size)
        → (let count = min (length octets) (v.sending.size - length v.sending.held) in (send_answer v octets ≡ Ok count) × TakesBehind (take count octets) v (after_event v (Event.Sends octets now))) }
    ensures full { (v : View) (octets : List ℕ) (now : Moment) → IsSound v → (is_opening v.state || is_write_closed v.state) ≡ false → 0 < length octets → length v.sending.held ≡ v.sending.size
        → (send_answer v octets ≡ Err Refusal.EAGAIN) × (after_event v (Event.Sends octets now) ≡ v) }
{}

/// Once a connection is open, a `recv` reads the first of the octets that are readable, as many as its buffer has room for, and answers how many (RFC 9293 section 3.10.3). Where none is readable it changes nothing, and answers
/// the end of the stream if the peer's FIN came or the connection is CLOSED, and else EAGAIN.
pub fn receives_read_what_came()
    ensures reads { (v : View) (len : ℕ) → v.pending_error ≡ None → is_opening v.state ≡ false → v.receiving.readable ≢ []
        → (let count = min len (length v.receiving.readable) in (recv_answer v len ≡ Ok (Received.Octets count)) × ReadsFirst count v (after_event v (Event.Receives len))) }
    ensures ended { (v : View) (len : ℕ) → v.pending_error ≡ None → is_opening v.state ≡ false → v.receiving.readable ≡ [] → is_read_closed v.state ≡ true
        → (recv_answer v len ≡ Ok Received.EndOfStream) × (after_event v (Event.Receives len) ≡ v) }
    ensures waits { (v : View) (len : ℕ) → v.pending_error ≡ None → is_opening v.state ≡ false → v.receiving.readable ≡ [] → is_read_closed v.state ≡ false
        → (recv_answer v len ≡ Err Refusal.EAGAIN) × (after_event v (Event.Receives len) ≡ v) }
{}
