//! Laws over the definitions alone: functions with nothing to do, whose contracts are the laws.

ghost use Rattle.std.specs.Prelude.{◌≡◌, ◌⊎◌, ℕ, ◌+◌, ◌-◌, ◌*◌, ◌%◌, ◌^◌, ◌≤◌, ◌<◌, ◌==◌, ◌||◌, Bool, true, false, not, List, [], length, count_by, filter, find, Option, Some, None, Err, is_some, is_ok, option_map, Ok};
ghost use Rattle.std.specs.List.{AllByRecursion};
ghost use Rattle.ipv4.specs.declared.addr.Addr.{Addr};
ghost use Rattle.udp_socket.specs.SocketView.{SocketView, with_sent};
ghost use Rattle.ipv4.specs.declared.addr.Endpoint.{Endpoint};
ghost use Rattle.ipv4.specs.declared.addr.Pair.{Pair};
ghost use Rattle.ipv4.specs.Addresses.{pair_of, same_addr};
ghost use Rattle.tcp_segment.specs.declared.head.Head.{Head};
ghost use Rattle.tcp_segment.specs.Segment.{Segment, FieldsFit};
ghost use Rattle.tcp_segment.specs.Sent.{CanBeSent};
ghost use Rattle.clock.specs.declared.moment.Moment.{Moment};
ghost use Rattle.clock.specs.Moments.{after, has_come};
ghost use Rattle.tcp_segment.specs.declared.TheConstants.{MSS};
ghost use Rattle.tcp_halves.specs.declared.buffers.Manner.{Manner};
ghost use Rattle.tcp_halves.specs.Stream.{size_of, receive_window};
ghost use Rattle.tcp_state.specs.Due.{first_due};
ghost use Rattle.tcp_state.specs.Hop.{unheard_until};
ghost use Rattle.tcp_state.specs.View.{View, is_opening, is_closed};
ghost use Rattle.tcp_state.specs.declared.state.State.TheVariants.{SynSent};
ghost use Rattle.tcp_state.specs.declared.calls.Refusal.{Refusal as Error};
ghost use Rattle.sockets.specs.declared.entry.SocketId.{SocketId};
ghost use Rattle.sockets.specs.declared.entry.Entry.{Entry};
ghost use Rattle.sockets.specs.Entries.{is_listening_at, is_waiting_at, backlog_of};
ghost use Rattle.sockets.specs.SocketsView.{SocketsView, holder_id, new_sockets, later_moment, role_of, room_of};
ghost use Rattle.sockets.specs.Ticks.{after_tick, least_deadline, IsLeastDeadline, HasNoDeadline};
ghost use Rattle.sockets.specs.Lost.{role_after_giving_up, after_giving_up, waiting_resets, waits_still};
ghost use Rattle.sockets.specs.Arrival.{Opens, NoRoom, Answers, local_end, peer_end, arrival, opened_by, pair_opened};
ghost use Rattle.sockets.specs.Needs.{IsNeededBy, need};
ghost use Rattle.sockets.specs.declared.role.Role.{Role};
ghost use Rattle.sockets.specs.declared.role.Role.TheVariants.{Connected, Datagrams, Listener};
ghost use Rattle.sockets.specs.declared.refusal.Refusal.TheVariants.{ENOTCONN};
ghost use Rattle.sockets.specs.Datagrams.{sendto_answer, after_sendto, sending_end};
ghost use Rattle.sockets.specs.Calls.{refusal_of, connect_refusal, after_connect, send_answer, recv_answer, shutdown_refusal, pair_connected, peername_answer, sockname_answer};
ghost use Rattle.sockets.specs.Pairs.{socket_pair};
ghost use Rattle.sockets.specs.Sound.{IsSoundTable, NoneIsOver};
ghost use Rattle.sockets.specs.Timing.{EachKeepsTime, IsNumbered, AreSound, IsNear, AreNear, NoneAsks, IsUpTo};
ghost use Rattle.sockets.specs.Leaving.{EachLeavesAWindow, IsSized};
ghost use Rattle.sockets.specs.Ports.{first_port, IsDynamic, IsFirstBehind};
ghost use Rattle.sockets.specs.declared.calls.TheConstants.{MOST_BACKLOG};
ghost use Rattle.sockets.specs.declared.sizes.TheConstants.{LEAST_BUFFER, MOST_ENTRIES};
ghost use Rattle.sockets.specs.declared.sizes.Sizes.{Sizes};
ghost use Rattle.clock.specs.declared.moment.TheConstants.{HOP_WAIT};
ghost use Rattle.sockets.specs.Offered.{IsReached, AreAllowed};
ghost use Rattle.sockets.specs.Rooms.{KeepsToItsSize};
ghost use Rattle.sockets.specs.Order.{IsOrdered, IsAllowed};
ghost use Rattle.sockets.specs.Turns.{sender, IsPassedOver, KeepsStill};
ghost use Rattle.sockets.specs.Causes.{Event, Emits, after_event, IsAdded, IsStep, Follows, pending_error_in, TellsStill};
ghost use Rattle.sockets.specs.Steps.{IsOneEvent};
ghost use Rattle.sockets.specs.Traffic.{streams, is_of_datagrams, after_events, datagrams_taken_in};

/// What `would_open` foresees of a segment is the pair that it leads to the opening of, whatever the moment and the initial number.
/// Where a segment that doesn't come from our own address opens one, the new connection, of the next id, holds that pair.
pub fn openings_are_foreseen()
    ensures foreseen { (h : SocketsView) (now : Moment) (isn : ℕ) (source : Addr) (s : Segment) → pair_opened h source s ≡ opened_by h source s (arrival h now isn source s) }
    ensures opened { (h : SocketsView) (now : Moment) (isn : ℕ) (source : Addr) (s : Segment) (next : SocketsView) → IsOrdered h → same_addr source h.addr ≡ false
        → arrival h now isn source s ≡ Opens next → holder_id next (pair_of (local_end h s) (peer_end source s)) ≡ Some (record { 0 = h.last_id + 1 }) }
{}

/// What `need_of_segment` tells of a segment is needed by what it leads to, whatever the moment and the initial number: nothing where the table takes
/// it, memory where it opens a connection, a place at the listener or in the table where there is none, and a reply where it is answered.
pub fn needs_are_foreseen()
    ensures { (h : SocketsView) (now : Moment) (isn : ℕ) (source : Addr) (s : Segment) → IsNeededBy (arrival h now isn source s) (need h source s) }
{}

/// What answers a segment is a reset (RFC 9293 section 3.5.2), which can be sent where the segment's fields and the two addresses are of their width.
pub fn answers_are_resets()
    ensures reset { (h : SocketsView) (now : Moment) (isn : ℕ) (source : Addr) (s : Segment) (head : Head) → arrival h now isn source s ≡ Answers head → head.flags.rst ≡ true }
    ensures sendable { (h : SocketsView) (now : Moment) (isn : ℕ) (source : Addr) (s : Segment) (head : Head) → length h.addr.0 ≡ 4 → length source.0 ≡ 4 → FieldsFit s
        → arrival h now isn source s ≡ Answers head → CanBeSent h.addr source head [] }
{}

/// `would_connect` foresees a pair exactly where `connect` is not refused, and after the `connect` the socket has a connection of that pair.
pub fn connects_are_foreseen()
    ensures foreseen { (h : SocketsView) (id : SocketId) (peer : Endpoint) (routed : Bool) → is_some (pair_connected h id peer routed) ≡ not (is_some (connect_refusal h id peer routed)) }
    ensures opened { (h : SocketsView) (now : Moment) (isn : ℕ) (id : SocketId) (peer : Endpoint) (routed : Bool) (pair : Pair) → pair_connected h id peer routed ≡ Some pair
        → socket_pair (after_connect h now isn id peer routed) id ≡ Some pair }
{}

/// Where `connect` is not refused its connection opens, in SYN-SENT, at the call's own moment, or at the kept one where that is later: from then on its SYN waits for the hop to the peer,
/// and it does so for 483,000 ms (RFC 1122 section 4.2.3.5). So it is, whenever the table was ticked last.
pub fn a_connection_opens_at_its_moment()
    ensures { (h : SocketsView) (now : Moment) (isn : ℕ) (id : SocketId) (peer : Endpoint) (routed : Bool) → connect_refusal h id peer routed ≡ None
        → (c : View) × (role_of (after_connect h now isn id peer routed) id ≡ Some (Connected c None)) × (c.state ≡ SynSent) × (c.unheard ≡ Some (later_moment h now)) × (unheard_until c ≡ Some (after (later_moment h now) 483000)) }
{}

/// The state of an entry stays, or goes along an edge of the table of states. An entry becomes CLOSED, or is taken out of the table, only
/// by a cause: its close or abort or that of the listener that it waits at, an event of its connection that ends it, or that its reset is given up. Every other one keeps its
/// place. An error that its connection tells was told before, or a reset or a hard error tells it in a state that has it. Behind them a new entry stands only
/// where a socket was made, or a segment opened a connection at a listener.
pub fn ends_have_causes()
    ensures { (h : SocketsView) (e : Event) → IsSoundTable h → Follows (IsStep h e) (IsAdded h e) h.entries (let after = after_event h e in after.entries) }
{}

/// An event of the table is at most one event of each connection in it, the one that `event_of` names (RFC 9293 section 3.10). What is left of a connection is exactly what that one leaves of it, and
/// all of it where there is none: so a tick is a tick of each, and a call, a close or an abort, a segment or an error is one of its own connection alone. A socket has a connection then that it had not before
/// only by a `connect` of its own; any other that is new stands behind the entries, where a segment opened it.
pub fn an_event_is_one_of_each_connection()
    ensures { (h : SocketsView) (e : Event) → IsOrdered h → Follows (IsOneEvent h e) (IsAdded h e) h.entries (let after = after_event h e in after.entries) }
{}

/// What is over is taken out at once: no event leaves a connection in the table that its caller closed, that is CLOSED and owes no reset. A new
/// table has none, so none that is reached has one.
pub fn nothing_over_stays()
    ensures fresh { (addr : Addr) (manner : Manner) (sizes : Sizes) → NoneIsOver (new_sockets addr manner sizes) }
    ensures kept { (h : SocketsView) (e : Event) → NoneIsOver h → NoneIsOver (after_event h e) }
    ensures reached { (h : SocketsView) → IsReached h → NoneIsOver h }
{}

/// Every connection of the table keeps its time and its congestion window, from its opening on: a timer runs exactly where something waits for it, and the window is one that
/// events lead to, and counts in the peer's segments. So it is for one in a new table, and each event of the table leaves it so.
pub fn connections_keep_time()
    ensures fresh { (addr : Addr) (manner : Manner) (sizes : Sizes) → EachKeepsTime (new_sockets addr manner sizes) }
    ensures kept { (h : SocketsView) (e : Event) → IsSoundTable h → IsNumbered e → EachKeepsTime h → EachKeepsTime (after_event h e) }
{}

/// What every connection keeps of itself a tick leaves it, so what is given up behind the timers finds it in each.
pub fn ticks_leave_tables_sound()
    ensures { (h : SocketsView) (now : Moment) → IsSoundTable h → IsSoundTable (after_tick h now) }
{}

/// No timer of a connection runs until later than a minute past the latest moment that the table was told of, and no wait is counted from a later one: in a new table, over each event, and over a list
/// of them. So no deadline lies more than a day past it, and none more than 240,000 ms, the time that TIME-WAIT lasts (RFC 9293 section 3.4.2), where no silent peer is asked; and no wait for a hop ends more than 483,000 ms past it. A `connect`, a segment, an emission and what is given up are taken at a moment that the table
/// doesn't keep; where each names none but what the table keeps, since a tick told it, all this is said of the kept moment.
pub fn timers_lie_near()
    ensures fresh { (addr : Addr) (manner : Manner) (sizes : Sizes) (latest : Moment) → AreNear latest (new_sockets addr manner sizes) }
    ensures event { (h : SocketsView) (e : Event) (latest : Moment) → IsSoundTable h → IsUpTo latest e → AreNear latest h → AreNear latest (after_event h e) }
    ensures over { (h : SocketsView) (events : List Event) (latest : Moment) → AreSound h events → AllByRecursion (IsUpTo latest) events → AreNear latest h → AreNear latest (after_events h events) }
    ensures kept { (h : SocketsView) (e : Event) → IsSoundTable h → let after = after_event h e in IsUpTo after.kept e → AreNear h.kept h → AreNear after.kept after }
    ensures hop { (c : View) (latest until : Moment) → IsNear latest c → unheard_until c ≡ Some until → until.0 ≤ latest.0 + 483000 }
    ensures deadline { (h : SocketsView) (latest moment : Moment) → AreNear latest h → NoneAsks h → least_deadline h ≡ Some moment → moment.0 ≤ latest.0 + 240000 }
    ensures asking { (h : SocketsView) (latest moment : Moment) → AreNear latest h → least_deadline h ≡ Some moment → moment.0 ≤ latest.0 + 86400000 }
{}

/// An open connection of which nothing is due, and that has nothing to be read, leaves its peer a window of a segment at least, whether it has spoken or not: so it is in a new table, and over each event of one whose connections hold three segments each way, that makes no socket of less room
/// than a host's, and brings no segment of more octets than a segment may have (RFC 9293 sections 3.8.6.2.2 and 3.8.6.3).
pub fn quiet_readers_leave_a_window()
    ensures fresh { (addr : Addr) (manner : Manner) (sizes : Sizes) → EachLeavesAWindow (new_sockets addr manner sizes) }
    ensures room { (buffer : ℕ) (manner : Manner) → 3 * MSS ≤ buffer → 3 * MSS ≤ size_of (room_of buffer manner) }
    ensures event { (h : SocketsView) (e : Event) → IsSoundTable h → 3 * MSS ≤ h.sizes.buffer → IsNumbered e → IsSized e → EachLeavesAWindow h → EachLeavesAWindow (after_event h e) }
    ensures quiet { (h : SocketsView) (id : SocketId) (c : View) (listener : Option SocketId) → EachLeavesAWindow h → role_of h id ≡ Some (Connected c listener) → (is_opening c.state || is_closed c.state) ≡ false → first_due c ≡ None
        → c.receiving.readable ≡ [] → MSS ≤ receive_window c.receiving }
{}

/// No socket is given up with what can't go out: each id names what it named, a UDP socket without the datagrams that it gives up, and a connection that ended, in CLOSED. (What a listener opened is a
/// socket only from its `accept` on, past SYN-RECEIVED.)
pub fn sockets_are_not_given_up()
    ensures { (h : SocketsView) (lost : Addr → Bool) (now : Moment) (id : SocketId) → IsSoundTable h → IsReached h → role_of (after_giving_up h lost now) id ≡ option_map (role_after_giving_up lost (later_moment h now)) (role_of h id) }
{}

/// Of the dynamic ports (RFC 6335 section 6: 49152 to 65535) the first one that passes is given, in the turn that begins behind the last one
/// given; and none exactly where no dynamic port passes. (The port that a table gave last is always dynamic, by `tables_stay_ordered`.)
pub fn dynamic_ports()
    ensures given { (test : ℕ → Bool) (last port : ℕ) → IsDynamic last → first_port test last 0 16384 ≡ Some port → IsFirstBehind test last port }
    ensures none { (test : ℕ → Bool) (last : ℕ) → IsDynamic last → first_port test last 0 16384 ≡ None → (port : ℕ) → IsDynamic port → test port ≡ false }
{}

/// The moment that `next_deadline` answers is the deadline of an entry, and none has an earlier one; it answers none exactly where no entry has
/// one.
pub fn deadline_is_the_least()
    ensures some { (h : SocketsView) (moment : Moment) → least_deadline h ≡ Some moment → IsLeastDeadline h moment }
    ensures none { (h : SocketsView) → least_deadline h ≡ None → HasNoDeadline h }
{}

/// A tick before the deadline changes nothing but the kept moment, and so does any tick where there is no deadline.
pub fn ticks_wait()
    ensures { (h : SocketsView) (now : Moment) → has_come (least_deadline h) (later_moment h now) ≡ false → after_tick h now ≡ record h { kept = later_moment h now } }
{}

/// The two ends of a connection are told as they are, in any state: `getpeername` tells the peer's and `getsockname` the own (POSIX.1-2017).
/// A listener tells where it listens, and has no peer.
pub fn ends_are_told()
    ensures connection { (h : SocketsView) (id : SocketId) (c : View) (listener : Option SocketId) → role_of h id ≡ Some (Connected c listener) → (peername_answer h id ≡ Ok c.peer) × (sockname_answer h id ≡ Ok c.local) }
    ensures listening { (h : SocketsView) (id : SocketId) (local : Endpoint) (backlog : ℕ) → role_of h id ≡ Some (Listener local backlog) → (peername_answer h id ≡ Err ENOTCONN) × (sockname_answer h id ≡ Ok local) }
{}

/// Between two segments of one entry every other that had something to send all the while has sent: whatever happens behind an emission, where each emission finds an entry with something to send and
/// passes it over, the entry that sent first doesn't send again.
pub fn turns_go_round()
    ensures { (h : SocketsView) (goes : Addr → Bool) (now : Moment) (first waiting : SocketId) (events : List Event) → IsOrdered h → sender h goes ≡ Some first
        → let sent = after_event h (Emits goes now) in AreAllowed sent events → IsPassedOver waiting sent events → KeepsStill first sent events }
{}

/// The table stays in order, from the first on, whatever happens but a call that is refused and a segment from our own address, and so each that is reached is: ids ascend, no two connections but CLOSED
/// ones have the same two ends (RFC 9293 section 3.4.1), no two TCP sockets without a connection have the same port, and no
/// two UDP sockets.
/// The id given last never goes back, so none is given twice. The address stays, how connections behave, and how large it is.
pub fn tables_stay_ordered()
    ensures fresh { (addr : Addr) (manner : Manner) (sizes : Sizes) → IsOrdered (new_sockets addr manner sizes) }
    ensures kept { (h : SocketsView) (e : Event) → IsAllowed h e → IsOrdered h → IsOrdered (after_event h e) }
    ensures reached { (h : SocketsView) → IsReached h → IsOrdered h }
    ensures numbered { (h : SocketsView) (e : Event) → let after = after_event h e in h.last_id ≤ after.last_id }
    ensures address { (h : SocketsView) (e : Event) → let after = after_event h e in after.addr ≡ h.addr }
    ensures manner { (h : SocketsView) (e : Event) → let after = after_event h e in after.manner ≡ h.manner }
    ensures sizes { (h : SocketsView) (e : Event) → let after = after_event h e in after.sizes ≡ h.sizes }
{}

/// No connection of a table has buffers for more octets, either way, than the table's size says, and no socket that may open one: so it is of a new table, over each event that may be, and of each table that
/// is reached.
pub fn connections_keep_to_the_size()
    ensures fresh { (addr : Addr) (manner : Manner) (sizes : Sizes) → KeepsToItsSize (new_sockets addr manner sizes) }
    ensures kept { (h : SocketsView) (e : Event) → IsAllowed h e → KeepsToItsSize h → KeepsToItsSize (after_event h e) }
    ensures reached { (h : SocketsView) → IsReached h → KeepsToItsSize h }
{}

/// No datagram moves a connection: where a UDP socket is made, where a datagram is given to be sent, is read or comes, every TCP socket and
/// every connection stays as it was, in order.
pub fn datagrams_move_no_connection()
    ensures { (h : SocketsView) (e : Event) → is_of_datagrams e ≡ true → streams (after_event h e) ≡ streams h }
{}

/// The identifications of datagrams are drawn in turn, modulo 2^16 (RFC 791 section 3.2): a datagram that a socket takes stands behind the
/// others that it sends, with the table's identification, and whatever happens, that one counts the datagrams that were taken.
pub fn identifications_are_drawn_in_turn()
    ensures taken { (h : SocketsView) (id : SocketId) (peer : Endpoint) (octets : List ℕ) (routed : Bool) (bound : Option Endpoint) (socket : SocketView) → role_of h id ≡ Some (Datagrams bound socket)
        → is_ok (sendto_answer h id peer octets routed) ≡ true → role_of (after_sendto h id peer octets routed) id ≡ Some (Datagrams (sending_end h bound) (with_sent socket h.kept peer h.identification octets)) }
    ensures counted { (h : SocketsView) (events : List Event) → h.identification < 2 ^ 16 → let after = after_events h events in after.identification ≡ (h.identification + datagrams_taken_in h events) % 2 ^ 16 }
{}

/// A SYN finds no place only at a listener at which as many connections wait as its backlog allows, or where the table is full, or the last id is given.
pub fn places_are_given_while_there_are_any()
    ensures { (h : SocketsView) (now : Moment) (isn : ℕ) (source : Addr) (s : Segment) → arrival h now isn source s ≡ NoRoom → (listener : Entry) × (find (is_listening_at s.destination) h.entries ≡ Some listener)
        × ((backlog_of listener.role ≤ count_by (is_waiting_at listener.id) h.entries) ⊎ ((length h.entries ≡ h.sizes.entries) ⊎ (h.last_id + 1 ≡ 2 ^ 64))) }
{}

/// Of the resets that wait to go out those are given up that have waited for 3,000 ms for an address that is lost, and no other: those that are left wait as they did, in order.
pub fn resets_are_given_up_in_time()
    ensures { (h : SocketsView) (lost : Addr → Bool) (now : Moment) → (let later = later_moment h now in later.0 < 2 ^ 64 - 1)
        → waiting_resets (after_giving_up h lost now) ≡ filter (waits_still lost (later_moment h now)) (waiting_resets h) }
{}

/// The error that a connection tells, one that was refused, reset, or whose peer was silent, comes before all else that a call would tell of it: of its state, and of octets that are not read.
pub fn errors_are_reported_first()
    ensures connect { (h : SocketsView) (id : SocketId) (c : View) (listener : Option SocketId) (error : Error) (peer : Endpoint) (routed : Bool) → role_of h id ≡ Some (Connected c listener) → c.pending_error ≡ Some error
        → connect_refusal h id peer routed ≡ Some (refusal_of error) }
    ensures send { (h : SocketsView) (id : SocketId) (c : View) (listener : Option SocketId) (error : Error) (octets : List ℕ) → role_of h id ≡ Some (Connected c listener) → c.pending_error ≡ Some error
        → send_answer h id octets ≡ Err (refusal_of error) }
    ensures recv { (h : SocketsView) (id : SocketId) (c : View) (listener : Option SocketId) (error : Error) (len : ℕ) → role_of h id ≡ Some (Connected c listener) → c.pending_error ≡ Some error → (len == 0) ≡ false
        → recv_answer h id len ≡ Err (refusal_of error) }
    ensures shutdown { (h : SocketsView) (id : SocketId) (c : View) (listener : Option SocketId) (error : Error) → role_of h id ≡ Some (Connected c listener) → c.pending_error ≡ Some error
        → shutdown_refusal h id ≡ Some (refusal_of error) }
{}

/// The error that a connection tells it tells for good, over each event and over every list of them: whatever entry has its id then is one of a connection that tells it, whether a socket names the
/// connection or not, and none but its close, its abort or its removal ends that. So each call of its socket that is told the error (`errors_are_reported_first`) is told it again, as often as it is made.
pub fn errors_told_stay()
    ensures event { (h : SocketsView) (e : Event) (id : SocketId) (error : Error) → IsSoundTable h → EachKeepsTime h → id.0 ≤ h.last_id → TellsStill id error h → TellsStill id error (after_event h e) }
    ensures over { (h : SocketsView) (events : List Event) (id : SocketId) (error : Error) → AreSound h events → EachKeepsTime h → id.0 ≤ h.last_id → TellsStill id error h → TellsStill id error (after_events h events) }
    ensures socket { (h : SocketsView) (events : List Event) (id : SocketId) (c : View) (listener : Option SocketId) (error : Error) → IsOrdered h → AreSound h events → EachKeepsTime h → role_of h id ≡ Some (Connected c listener)
        → c.pending_error ≡ Some error → let later = after_events h events in (role : Role) → role_of later id ≡ Some role → pending_error_in role ≡ Some error }
{}

/// The kept moment never goes back, whatever happens, and a tick keeps its own unless that is earlier: timers and waits see moments in order.
pub fn moments_never_go_back()
    ensures kept { (h : SocketsView) (e : Event) → let after = after_event h e in h.kept.0 ≤ after.kept.0 }
    ensures told { (h : SocketsView) (now : Moment) → let after = after_tick h now in now.0 ≤ after.kept.0 }
{}

/// What the constants are that the definitions cite: a table has 16,384 places at most and a connection 2,048 octets each way at least, a backlog is 8 at most, and what can't go out since nobody answers at its hop waits for 3,000 ms.
pub fn constants()
    ensures entries { MOST_ENTRIES ≡ 16384 }
    ensures buffer { LEAST_BUFFER ≡ 2048 }
    ensures backlog { MOST_BACKLOG ≡ 8 }
    ensures wait { HOP_WAIT ≡ 3000 }
{}
