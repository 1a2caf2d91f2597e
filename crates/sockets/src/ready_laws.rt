//! Laws over what a socket is ready for: functions with nothing to do, whose contracts are the laws.

ghost use Rattle.std.specs.Prelude.{◌≡◌, ◌↔◌, ◌<◌, ◌≤◌, ◌+◌, ◌||◌, ◌⊎◌, ℕ, Bool, true, false, min, nat_le, List, [], ◌∷◌, length, Option, Some, None, Result, Ok, Err, IfErr, is_ok, is_some, find};
ghost use Rattle.ipv4.specs.declared.addr.Addr.{Addr};
ghost use Rattle.ipv4.specs.declared.addr.Endpoint.{Endpoint};
ghost use Rattle.ipv4.specs.declared.addr.Pair.{Pair};
ghost use Rattle.tcp_segment.specs.Segment.{Segment};
ghost use Rattle.tcp_state.specs.View.{View};
ghost use Rattle.udp.specs.Datagram.{UserDatagram};
ghost use Rattle.tcp_state.specs.declared.calls.Received.{Received};
ghost use Rattle.tcp_state.specs.declared.state.State.{State};
ghost use Rattle.udp_socket.specs.declared.socket.TheConstants.{MOST_OCTETS};
ghost use Rattle.udp_socket.specs.SocketView.{SocketView};
ghost use Rattle.sockets.specs.declared.datagrams.Reception.{Reception};
ghost use Rattle.sockets.specs.declared.entry.Entry.{Entry};
ghost use Rattle.sockets.specs.declared.entry.SocketId.{SocketId};
ghost use Rattle.sockets.specs.declared.ready.Ready.{Ready};
ghost use Rattle.sockets.specs.declared.refusal.Refusal.{Refusal};
ghost use Rattle.sockets.specs.declared.role.Role.TheVariants.{Connected, Datagrams};
ghost use Rattle.sockets.specs.Entries.{has_socket, is_between, is_listening_at};
ghost use Rattle.sockets.specs.Arrival.{arrival, local_end, pair_opened, peer_end};
ghost use Rattle.sockets.specs.Causes.{after_arrival};
ghost use Rattle.sockets.specs.Unreachable.{after_unreachable};
ghost use Rattle.clock.specs.declared.moment.Moment.{Moment};
ghost use Rattle.sockets.specs.declared.state.SocketState.{SocketState};
ghost use Rattle.sockets.specs.declared.state.SocketState.TheVariants.{Stream};
ghost use Rattle.sockets.specs.SocketsView.{SocketsView, role_of};
ghost use Rattle.sockets.specs.Order.{IsOrdered};
ghost use Rattle.sockets.specs.Calls.{accept_answer, connect_refusal, reach_refusal, recv_answer, send_answer, shutdown_refusal, state_answer};
ghost use Rattle.sockets.specs.Datagrams.{after_reception, reception, recvfrom_answer, sending_end, sendto_answer};
ghost use Rattle.sockets.specs.Ready.{IsNoError, is_any_of, is_end, is_octets, is_opening_state, next_ready, octets_from, octets_in, readiness, recv_len, send_room, socket_at_port, socket_between, socket_of_segment, taken_by};

/// What `ready` answers of a socket foretells its calls, both ways: `accept` holds exactly where a call of that name would answer a connection, `read` where a `recv` or a `recvfrom`
/// with room for an octet or more would answer octets, or a datagram, `write` where a `send` of an octet or more, or a `sendto` of one to a peer that may be reached, would take some, and `ended`
/// where a `recv` would answer the end of the stream. It is refused exactly where the id names no socket. Where an error is reported, `recv`, `send`, `shutdown_write` and `connect` are all
/// refused with it, and where none is, `recv` is refused with none.
pub fn readiness_foretells_the_calls()
    ensures named { (h : SocketsView) (id : SocketId) → is_ok (readiness h id) ≡ is_some (role_of h id) }
    ensures refused { (h : SocketsView) (id : SocketId) → IfErr (readiness h id) (λ refusal. refusal ≡ Refusal.EBADF) }
    ensures accept { (h : SocketsView) (id : SocketId) (ready : Ready) → readiness h id ≡ Ok ready → ready.accept ≡ is_ok (accept_answer h id) }
    ensures read { (h : SocketsView) (id : SocketId) (ready : Ready) (len : ℕ) → readiness h id ≡ Ok ready → 0 < len → ready.read ≡ (is_octets (recv_answer h id len) || is_ok (recvfrom_answer h id len)) }
    ensures write { (h : SocketsView) (id : SocketId) (ready : Ready) (octet : ℕ) (octets : List ℕ) (peer : Endpoint) (routed : Bool) → readiness h id ≡ Ok ready → reach_refusal h peer routed ≡ None
        → ready.write ≡ (is_ok (send_answer h id (octet ∷ octets)) || is_ok (sendto_answer h id peer (octet ∷ []) routed)) }
    ensures ended { (h : SocketsView) (id : SocketId) (ready : Ready) (len : ℕ) → readiness h id ≡ Ok ready → 0 < len → ready.ended ≡ is_end (recv_answer h id len) }
    ensures failed { (h : SocketsView) (id : SocketId) (ready : Ready) (len : ℕ) (octets : List ℕ) (peer : Endpoint) (routed : Bool) → readiness h id ≡ Ok ready → 0 < len → ready.failed ≡ true
        → (error : Refusal) × (recv_answer h id len ≡ Err error) × (send_answer h id octets ≡ Err error) × (shutdown_refusal h id ≡ Some error) × (connect_refusal h id peer routed ≡ Some error) }
    ensures well { (h : SocketsView) (id : SocketId) (ready : Ready) (len : ℕ) → readiness h id ≡ Ok ready → 0 < len → ready.failed ≡ false → IfErr (recv_answer h id len) IsNoError }
    ensures opening { (h : SocketsView) (id : SocketId) (ready : Ready) → readiness h id ≡ Ok ready → ready.opening ≡ is_opening_state (state_answer h id) }
    ensures octets { (answer : Result Received Refusal) → (is_octets answer ≡ true) ↔ ((count : ℕ) × (answer ≡ Ok (Received.Octets count))) }
    ensures end { (answer : Result Received Refusal) → (is_end answer ≡ true) ↔ (answer ≡ Ok Received.EndOfStream) }
    ensures state { (answer : Result SocketState Refusal) → (is_opening_state answer ≡ true) ↔ ((answer ≡ Ok (Stream State.SynSent)) ⊎ (answer ≡ Ok (Stream State.SynReceived))) }
{}

/// A receive gives as many octets as `recv_len` tells, or as many as fit; of the two calls that receive, the one that isn't for the socket gives none. A `send` takes as many as `send_room` tells, or as many as
/// there are, and a `sendto` a datagram of no more, all of it. Where these questions are refused, `recv` and `send` are, with the same.
pub fn rooms_foretell_the_calls()
    ensures given { (h : SocketsView) (id : SocketId) (most len : ℕ) → recv_len h id ≡ Ok most → 0 < len → octets_in (recv_answer h id len) + octets_from (recvfrom_answer h id len) ≡ min len most }
    ensures nothing_given { (h : SocketsView) (id : SocketId) (refusal : Refusal) (len : ℕ) → recv_len h id ≡ Err refusal → 0 < len → recv_answer h id len ≡ Err refusal }
    ensures taken { (h : SocketsView) (id : SocketId) (most : ℕ) (state : State) (octets : List ℕ) → send_room h id ≡ Ok most → state_answer h id ≡ Ok (Stream state) → taken_by (send_answer h id octets) ≡ min (length octets) most }
    ensures datagram { (h : SocketsView) (id : SocketId) (most : ℕ) (bound : Option Endpoint) (socket : SocketView) (from peer : Endpoint) (octets : List ℕ) (routed : Bool) → send_room h id ≡ Ok most → role_of h id ≡ Some (Datagrams bound socket)
        → sending_end h bound ≡ Some from → reach_refusal h peer routed ≡ None → 0 < length octets → length octets ≤ MOST_OCTETS → is_ok (sendto_answer h id peer octets routed) ≡ nat_le (length octets) most }
    ensures nothing_taken { (h : SocketsView) (id : SocketId) (refusal : Refusal) (octets : List ℕ) → send_room h id ≡ Err refusal → send_answer h id octets ≡ Err refusal }
{}

/// What `next_ready` answers is a later socket than the one that it is asked from, of which one of the mask's holds, with all that `ready` tells of it; and of none between the two does one hold. Where
/// it answers none, of no later socket does one.
pub fn next_ready_is_the_first()
    ensures ready { (h : SocketsView) (after : SocketId) (mask : Ready) (id : SocketId) (ready : Ready) → IsOrdered h → next_ready h after mask ≡ Some (id, ready)
        → (after.0 < id.0) × (readiness h id ≡ Ok ready) × (is_any_of ready mask ≡ true) }
    ensures between { (h : SocketsView) (after : SocketId) (mask : Ready) (id : SocketId) (ready : Ready) (other : SocketId) (its : Ready) → IsOrdered h → next_ready h after mask ≡ Some (id, ready)
        → after.0 < other.0 → other.0 < id.0 → readiness h other ≡ Ok its → is_any_of its mask ≡ false }
    ensures none { (h : SocketsView) (after : SocketId) (mask : Ready) (other : SocketId) (its : Ready) → IsOrdered h → next_ready h after mask ≡ None
        → after.0 < other.0 → readiness h other ≡ Ok its → is_any_of its mask ≡ false }
{}

/// A segment is for the socket of the connection of its two ends, where its caller has it, and for the listener where it waits to be accepted, whoever listens at its port; one that would open a
/// connection is for a listener at its port. An error is for whom the segments that come between the two ends are. A datagram is for a UDP socket exactly where one is at its port.
pub fn arrivals_find_their_socket()
    ensures connection { (h : SocketsView) (source : Addr) (s : Segment) (e : Entry) → find (is_between (local_end h s) (peer_end source s)) h.entries ≡ Some e → has_socket e.role ≡ true → socket_of_segment h source s ≡ Some e.id }
    ensures waits { (h : SocketsView) (source : Addr) (s : Segment) (e : Entry) (c : View) (listener : SocketId) → find (is_between (local_end h s) (peer_end source s)) h.entries ≡ Some e → e.role ≡ Connected c (Some listener)
        → socket_of_segment h source s ≡ Some listener }
    ensures opens { (h : SocketsView) (source : Addr) (s : Segment) (pair : Pair) → pair_opened h source s ≡ Some pair → (e : Entry) × (find (is_listening_at s.destination) h.entries ≡ Some e) × (socket_of_segment h source s ≡ Some e.id) }
    ensures error { (h : SocketsView) (source : Addr) (s : Segment) (id : SocketId) → socket_between h (local_end h s) (peer_end source s) ≡ Some id → socket_of_segment h source s ≡ Some id }
    ensures datagram { (h : SocketsView) (d : UserDatagram) → (socket_at_port h d.destination ≡ None) ↔ (reception h d ≡ Reception.NoSocket) }
{}

/// What arrives leaves each socket but the one that it is for as ready as it was, and where it is for none all of them: a segment, in a table whose ids ascend, a hard error about one, and a datagram. So who looks at that
/// one socket alone misses nothing.
pub fn arrivals_leave_the_others()
    ensures segment { (h : SocketsView) (now : Moment) (isn : ℕ) (source : Addr) (s : Segment) (id : SocketId) → IsOrdered h → (socket_of_segment h source s ≡ Some id → ⊥) → readiness (after_arrival h (arrival h now isn source s)) id ≡ readiness h id }
    ensures error { (h : SocketsView) (local peer : Endpoint) (number : ℕ) (id : SocketId) → IsOrdered h → (socket_between h local peer ≡ Some id → ⊥) → readiness (after_unreachable h local peer number) id ≡ readiness h id }
    ensures datagram { (h : SocketsView) (source : Addr) (d : UserDatagram) (id : SocketId) → (socket_at_port h d.destination ≡ Some id → ⊥) → readiness (after_reception h source d) id ≡ readiness h id }
{}
