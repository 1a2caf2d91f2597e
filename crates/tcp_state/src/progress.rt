//! Laws of progress: what waits is brought, what comes is taken or acknowledged, and what is acknowledged is freed. Functions with nothing to do, whose contracts are the laws.

ghost use Rattle.std.specs.Prelude.{◌≡◌, ℕ, ◌+◌, ◌*◌, ◌^◌, ◌<◌, ◌≤◌, ◌||◌, ◌⊎◌, List, ◌++◌, [], length, drop, true, false, Some, None};
ghost use Rattle.tcp_segment.specs.Segment.{Segment};
ghost use Rattle.tcp_segment.specs.Wire.{wire};
ghost use Rattle.tcp_segment.specs.declared.TheConstants.{MSS};
ghost use Rattle.clock.specs.declared.moment.Moment.{Moment};
ghost use Rattle.ipv4.specs.declared.addr.Endpoint.{Endpoint};
ghost use Rattle.tcp_halves.specs.Halves.{Room};
ghost use Rattle.tcp_halves.specs.Stream.{size_of, outstanding, receive_window};
ghost use Rattle.tcp_halves.specs.Windows.{receive_room};
ghost use Rattle.tcp_state.specs.declared.emission.Due.{Due};
ghost use Rattle.tcp_state.specs.View.{View, IsSound, opened_actively, is_opening, is_closed, is_time_wait, awaits_fin_ack};
ghost use Rattle.tcp_state.specs.Alive.{IsPatient};
ghost use Rattle.tcp_state.specs.Timing.{KeepsTime};
ghost use Rattle.tcp_state.specs.Congestion.{KeepsCongestion};
ghost use Rattle.tcp_state.specs.Arrival.{opened_passively, is_receiving, beyond_fin, holds_back};
ghost use Rattle.tcp_state.specs.Due.{MayGoOut, first_due};
ghost use Rattle.tcp_state.specs.Said.{segment_of};
ghost use Rattle.tcp_state.specs.Duties.{acknowledges, Places, StandsAt, is_aged};
ghost use Rattle.tcp_state.specs.Edges.{Event, after_event};
ghost use Rattle.tcp_state.specs.Progress.{AllCome, IsOrdinary, BringsOldest, IsAckAlone, IsSized, LeavesAWindow};

/// An open connection that has spoken, and of which nothing is due, has told its peer of its free room, but for less than a segment (RFC 1122 section 4.2.3.3, RFC 9293 section 3.8.6.2.2). So where all that came has been read, and
/// there is room for two segments, a window of one is left at least.
pub fn quiet_readers_have_told_their_room()
    ensures told { (v : View) → (is_opening v.state || is_closed v.state) ≡ false → v.spoke ≡ true → first_due v ≡ None → receive_room v.receiving < receive_window v.receiving + MSS }
    ensures whole { (v : View) → (is_opening v.state || is_closed v.state) ≡ false → v.spoke ≡ true → first_due v ≡ None → v.receiving.readable ≡ [] → v.receiving.size < receive_window v.receiving + MSS }
    ensures wide { (v : View) → (is_opening v.state || is_closed v.state) ≡ false → v.spoke ≡ true → first_due v ≡ None → v.receiving.readable ≡ [] → 2 * MSS ≤ v.receiving.size → MSS ≤ receive_window v.receiving }
{}

/// An open connection of which nothing is due, and that has nothing to be read, leaves its peer a window of a segment at least, whether it has spoken or not, where its buffer has room for three segments and none that it heard had more
/// octets than a segment may have. Before it speaks it has told its window by a SYN alone, and one segment with octets may come until an acknowledgement is owed (RFC 9293 section 3.8.6.3). So it is from its opening on, and over every event.
pub fn quiet_readers_leave_a_window()
    ensures active { (room : Room) (local peer : Endpoint) (isn : ℕ) (now : Moment) → 3 * MSS ≤ size_of room → LeavesAWindow (opened_actively room local peer isn now) }
    ensures passive { (room : Room) (local peer : Endpoint) (isn : ℕ) (syn : Segment) (now : Moment) → isn < 2 ^ 32 → 3 * MSS ≤ size_of room → LeavesAWindow (opened_passively room local peer isn syn now) }
    ensures event { (v : View) (e : Event) → IsSound v → IsSized e → LeavesAWindow v → LeavesAWindow (after_event v e) }
    ensures quiet { (v : View) → LeavesAWindow v → (is_opening v.state || is_closed v.state) ≡ false → first_due v ≡ None → v.receiving.readable ≡ [] → MSS ≤ receive_window v.receiving }
{}

/// What is due first is one of the segments that may go out (RFC 9293 section 3.8).
pub fn what_is_due_may_go_out()
    ensures { (v : View) (due : Due) → IsSound v → first_due v ≡ Some due → MayGoOut v due }
{}

/// The oldest octet that is held goes out again and again (RFC 6298 section 5.4, RFC 9293 sections 3.8.1, 3.8.6.1 and 3.8.6.2.1): at a tick by which every timer that runs has come, what is due first begins at SND.UNA and brings
/// it, whatever was due before. Where octets are outstanding they go out again from there on; a window that is closed is probed; and new ones wait for more no longer. So it is until the timers expired twelve times without
/// progress. The tick leaves both streams and the state as they are.
pub fn a_minute_brings_the_oldest_octet()
    ensures brings { (v : View) (now : Moment) → IsSound v → KeepsTime v → KeepsCongestion v → 0 < length v.sending.held → AllCome v.timers now → v.resend.expiries < 12
        → (due : Due) × (first_due (after_event v (Event.Ticks now)) ≡ Some due) × BringsOldest (after_event v (Event.Ticks now)) (segment_of (after_event v (Event.Ticks now)) due) }
    ensures stays { (v : View) (now : Moment) → IsSound v → 0 < length v.sending.held → v.resend.expiries < 12
        → ((after_event v (Event.Ticks now)).sending ≡ v.sending) × ((after_event v (Event.Ticks now)).receiving ≡ v.receiving) × ((after_event v (Event.Ticks now)).state ≡ v.state) }
{}

/// A tick ends nothing of an open connection that rests: none of its own stream waits to be acknowledged, neither octets nor its FIN, its caller has not left it, it is not in TIME-WAIT, and its peer, where it is asked whether
/// it is there, was asked fewer than twelve times since it last said something. Both streams and the state stay (RFC 9293 sections 3.8.3, 3.8.4 and 3.10.8).
pub fn ticks_end_nothing_at_rest()
    ensures { (v : View) (now : Moment) → IsSound v → KeepsTime v → is_opening v.state ≡ false → is_time_wait v.state ≡ false → awaits_fin_ack v.state ≡ false → v.sending.held ≡ [] → v.released ≡ false
        → IsPatient v
        → ((after_event v (Event.Ticks now)).sending ≡ v.sending) × ((after_event v (Event.Ticks now)).receiving ≡ v.receiving) × ((after_event v (Event.Ticks now)).state ≡ v.state) }
{}

/// A connection that receives hears a segment that begins at RCV.NXT or before it, acknowledges nothing that was not sent, and has no more octets than the window (RFC 9293 sections 3.8.6.3 and 3.10.7.4): where one of its octets
/// is new, more can be read afterwards, unless what it acknowledges is too old on guard; where all of them came before, an acknowledgement is owed at once, unless it is held back on guard.
pub fn what_comes_is_taken_or_acknowledged()
    ensures taken { (at : Places) (v : View) (s : Segment) (now : Moment) → IsSound v → StandsAt at v s → v.released ≡ false → is_receiving v.state ≡ true → IsOrdinary s → at.ack ≤ at.una + outstanding v.sending → is_aged at v ≡ false
        → at.first ≤ at.next → at.next + length s.octets ≤ at.edge → at.next < at.first + length s.octets
        → length v.receiving.readable < length (after_event v (Event.Hears s now)).receiving.readable }
    ensures acknowledged { (at : Places) (v : View) (s : Segment) (now : Moment) → IsSound v → StandsAt at v s → is_receiving v.state ≡ true → IsOrdinary s → at.ack ≤ at.una + outstanding v.sending
        → 0 < length s.octets → at.first + length s.octets ≤ at.next → holds_back v s now ≡ false → (after_event v (Event.Hears s now)).owes_ack ≡ true }
{}

/// Where a connection is open and nothing of its own stream waits to be acknowledged, neither octets nor its FIN, an acknowledgement that is owed is due first, alone, at SND.NXT (RFC 9293 sections 3.8.6.3 and 3.10.7.4).
pub fn an_owed_ack_goes_out_alone()
    ensures { (v : View) → IsSound v → is_opening v.state ≡ false → awaits_fin_ack v.state ≡ false → v.sending.held ≡ [] → v.owes_ack ≡ true
        → (first_due v ≡ Some Due.Ack) × IsAckAlone v (segment_of v Due.Ack) }
{}

/// Where octets are held, an acknowledgement of any that are outstanding leaves fewer (RFC 9293 sections 3.4 and 3.10.7.4, fifth).
pub fn acknowledgements_free_what_is_held()
    ensures { (v : View) (s : Segment) (now : Moment) (own una ack : ℕ) → IsSound v → 0 < length v.sending.held → acknowledges v s ≡ true → v.sending.una ≡ wire own una → s.acknowledgement ≡ wire own ack
        → una < ack → ack ≤ una + outstanding v.sending → length (after_event v (Event.Hears s now)).sending.held < length v.sending.held }
{}

/// A segment without RST and FIN ends nothing of an open connection whose caller has not left it (RFC 9293 section 3.10.7.4): it leaves the state, but where it acknowledges our FIN. Whatever a segment is, what is held afterwards
/// is the end of what was, and what can be read begins with what could be before.
pub fn ordinary_segments_end_nothing()
    ensures state { (v : View) (s : Segment) (now : Moment) → is_opening v.state ≡ false → v.released ≡ false → s.flags.rst ≡ false → s.flags.fin ≡ false
        → ((after_event v (Event.Hears s now)).state ≡ v.state) ⊎ ((awaits_fin_ack v.state ≡ true) × ((after_event v (Event.Hears s now)).state ≡ beyond_fin v.state)) }
    ensures held { (v : View) (s : Segment) (now : Moment) → (count : ℕ) × ((after_event v (Event.Hears s now)).sending.held ≡ drop count v.sending.held) }
    ensures readable { (v : View) (s : Segment) (now : Moment) → (more : List ℕ) × ((after_event v (Event.Hears s now)).receiving.readable ≡ v.receiving.readable ++ more) }
{}
