//! Laws over what the table owes its callers and its peers: functions with nothing to do, whose contracts are the laws.

ghost use Rattle.std.specs.Prelude.{◌≡◌, ◌⊎◌, ℕ, ◌+◌, ◌-◌, ◌%◌, ◌^◌, ◌≤◌, ◌<◌, ◌==◌, ◌&&◌, ◌||◌, not, nat_lt, min, if◌then◌else◌, Bool, true, false, List, [], ◌∷◌, ◌++◌, length, take, drop, filter, count_by, find, Option, Some, None, Ok, Err};
ghost use Rattle.std.specs.List.{list_any};
ghost use Rattle.ipv4.specs.declared.addr.Addr.{Addr};
ghost use Rattle.ipv4.specs.declared.addr.Endpoint.{Endpoint};
ghost use Rattle.ipv4.specs.Addresses.{same_addr};
ghost use Rattle.udp_socket.specs.SocketView.{SocketView};
ghost use Rattle.tcp_halves.specs.declared.buffers.Buffers.{Buffers};
ghost use Rattle.tcp_state.specs.declared.calls.Received.TheVariants.{Octets};
ghost use Rattle.clock.specs.declared.moment.Moment.{Moment};
ghost use Rattle.clock.specs.Moments.{after};
ghost use Rattle.tcp_segment.specs.declared.head.Head.{Head};
ghost use Rattle.tcp_segment.specs.Segment.{Segment, span_of};
ghost use Rattle.tcp_state.specs.declared.connection.Fate.TheVariants.{Rejected};
ghost use Rattle.tcp_state.specs.Counted.{IsGivenUp};
ghost use Rattle.tcp_state.specs.View.{View, is_opening, is_closed, is_syn_sent, is_syn_received, is_write_closed};
ghost use Rattle.sockets.specs.declared.entry.SocketId.{SocketId};
ghost use Rattle.sockets.specs.declared.entry.Entry.{Entry};
ghost use Rattle.sockets.specs.declared.role.Leave.{Leave};
ghost use Rattle.sockets.specs.declared.role.Role.{Role};
ghost use Rattle.sockets.specs.declared.role.Role.TheVariants.{Idle, Listener, Connected, Datagrams};
ghost use Rattle.sockets.specs.declared.refusal.Refusal.TheVariants.{EINVAL, EADDRINUSE, EAGAIN};
ghost use Rattle.sockets.specs.Entries.{in_connection, is_socket, is_between, is_listening_at, backlog_of, is_waiting_at, is_waiting_id, fate_of};
ghost use Rattle.sockets.specs.Lost.{is_hopless, after_giving_up, give_up_at};
ghost use Rattle.sockets.specs.Ports.{tcp_port, udp_port, is_port};
ghost use Rattle.sockets.specs.Sound.{IsSoundTable};
ghost use Rattle.sockets.specs.SocketsView.{SocketsView, later_moment, role_of};
ghost use Rattle.sockets.specs.Timing.{EachKeepsTime};
ghost use Rattle.sockets.specs.Calls.{any_addr, bind_refusal, listen_refusal, after_listen, send_answer, after_send, recv_answer, recv_front, after_recv, after_shutdown, after_leaving, after_close, after_abort};
ghost use Rattle.sockets.specs.Arrival.{Becomes, Opens, NoRoom, Answers, local_end, peer_end, arrival};
ghost use Rattle.sockets.specs.Causes.{IsOpenedBy};
ghost use Rattle.sockets.specs.Closing.{entry_of, IsAborted, IsGoingOn};
ghost use Rattle.sockets.specs.Moved.{HoldsMore, HasRead, IsSameBesides};
ghost use Rattle.sockets.specs.Order.{IsOrdered};
ghost use Rattle.sockets.specs.Steps.{connected};
ghost use Rattle.sockets.specs.Strays.{IsResetOf};

/// What is left of a socket that its caller closes or aborts, by what the socket is. Of one that has no connection nothing is left, nor of one whose connection is CLOSED or in SYN-SENT. Each connection
/// that waits at a listener is aborted with it, and taken out where it is CLOSED already. Every other entry stays, and so do those offered, but for those that wait at it. The id names no socket any more.
pub fn sockets_are_left()
    ensures alone { (h : SocketsView) (how : Leave) (id : SocketId) (role : Role) → IsOrdered h → role_of h id ≡ Some role → in_connection None (λ c. Some c) role ≡ None → entry_of (after_leaving h how id) id ≡ None }
    ensures ended { (h : SocketsView) (how : Leave) (id : SocketId) (c : View) → IsOrdered h → role_of h id ≡ Some (Connected c None) → (is_closed c.state || is_syn_sent c.state) ≡ true → entry_of (after_leaving h how id) id ≡ None }
    ensures waiting_closed { (h : SocketsView) (how : Leave) (id waits : SocketId) (c : View) → IsOrdered h → entry_of h waits ≡ Some (connected waits c (Some id)) → is_closed c.state ≡ true → entry_of (after_leaving h how id) waits ≡ None }
    ensures waiting { (h : SocketsView) (how : Leave) (id waits : SocketId) (c : View) → IsOrdered h → entry_of h waits ≡ Some (connected waits c (Some id)) → is_closed c.state ≡ false
        → (d : View) × (entry_of (after_leaving h how id) waits ≡ Some (connected waits d (Some id))) × IsAborted h.kept c d }
    ensures others { (h : SocketsView) (how : Leave) (id other : SocketId) (x : Entry) → IsOrdered h → entry_of h other ≡ Some x → is_socket id x ≡ false → is_waiting_at id x ≡ false → entry_of (after_leaving h how id) other ≡ Some x }
    ensures offered { (h : SocketsView) (how : Leave) (id : SocketId) → let after = after_leaving h how id in after.offered ≡ filter (λ x. not (is_waiting_id h.entries id x)) h.offered }
    ensures nameless { (h : SocketsView) (how : Leave) (id : SocketId) (role : Role) → IsOrdered h → role_of h id ≡ Some role → role_of (after_leaving h how id) id ≡ None }
{}

/// What a close leaves of a connection past SYN-SENT (RFC 9293 section 3.10.4). One in SYN-RECEIVED, or with octets that its caller has not read (section 3.6.1), is aborted: its reset waits from the kept
/// moment on. Any other goes on: all that is held goes out, and a FIN behind it.
pub fn closes_leave()
    ensures aborted { (h : SocketsView) (id : SocketId) (c : View) → IsOrdered h → role_of h id ≡ Some (Connected c None) → (is_closed c.state || is_syn_sent c.state) ≡ false
        → (is_syn_received c.state || not (length c.receiving.readable == 0)) ≡ true → (d : View) × (entry_of (after_close h id) id ≡ Some (connected id d None)) × IsAborted h.kept c d }
    ensures going_on { (h : SocketsView) (id : SocketId) (c : View) → IsOrdered h → role_of h id ≡ Some (Connected c None) → (is_closed c.state || is_syn_sent c.state) ≡ false
        → (is_syn_received c.state || not (length c.receiving.readable == 0)) ≡ false → (d : View) × (entry_of (after_close h id) id ≡ Some (connected id d None)) × IsGoingOn c d }
{}

/// What an abort leaves of a connection past SYN-SENT (RFC 9293 section 3.10.5), whatever is unread or held: it is aborted, and its reset waits from the kept moment on.
pub fn aborts_leave()
    ensures { (h : SocketsView) (id : SocketId) (c : View) → IsOrdered h → role_of h id ≡ Some (Connected c None) → (is_closed c.state || is_syn_sent c.state) ≡ false
        → (d : View) × (entry_of (after_abort h id) id ≡ Some (connected id d None)) × IsAborted h.kept c d }
{}

/// What becomes of a connection whose peer's address is lost and that owes no reset (RFC 1122 section 4.2.3.5, RFC 9293 section 3.8.3). Where what takes numbers has been due for 483,000 ms, and nothing of
/// it is outstanding, it is given up: CLOSED, with ETIMEDOUT told at each call, and taken out where its caller closed it. What a listener opened is taken out of SYN-RECEIVED after 3,000 ms, and so frees its
/// place there. None is given up before, none of which nothing waits, and none whose peer's address is known. The deadline that its entry has of it is the end of that wait, or of the 3,000 ms for which its reset waits
/// that was aborted.
pub fn waits_for_hops_end()
    ensures told { (h : SocketsView) (lost : Addr → Bool) (now : Moment) (id : SocketId) (c : View) (listener : Option SocketId) → IsOrdered h → entry_of h id ≡ Some (connected id c listener) → IsSoundTable h → EachKeepsTime h
        → is_hopless lost c ≡ true → (since : Moment) → c.unheard ≡ Some since → (c.passive && is_syn_received c.state) ≡ false → c.released ≡ false
        → (let end = after since 483000 in end.0) ≤ (let later = later_moment h now in later.0) → (d : View) × (entry_of (after_giving_up h lost now) id ≡ Some (connected id d listener)) × IsGivenUp d }
    ensures left { (h : SocketsView) (lost : Addr → Bool) (now : Moment) (id : SocketId) (c : View) (listener : Option SocketId) → IsOrdered h → entry_of h id ≡ Some (connected id c listener) → IsSoundTable h → EachKeepsTime h
        → is_hopless lost c ≡ true → (since : Moment) → c.unheard ≡ Some since → (c.passive && is_syn_received c.state) ≡ false → c.released ≡ true
        → (let end = after since 483000 in end.0) ≤ (let later = later_moment h now in later.0) → entry_of (after_giving_up h lost now) id ≡ None }
    ensures half_open { (h : SocketsView) (lost : Addr → Bool) (now : Moment) (id : SocketId) (c : View) (listener : Option SocketId) → IsOrdered h → entry_of h id ≡ Some (connected id c listener) → IsSoundTable h → EachKeepsTime h
        → is_hopless lost c ≡ true → (since : Moment) → c.unheard ≡ Some since → (c.passive && is_syn_received c.state) ≡ true
        → (let end = after since 3000 in end.0) ≤ (let later = later_moment h now in later.0) → entry_of (after_giving_up h lost now) id ≡ None }
    ensures early { (h : SocketsView) (lost : Addr → Bool) (now : Moment) (id : SocketId) (c : View) (listener : Option SocketId) → IsOrdered h → entry_of h id ≡ Some (connected id c listener)
        → (since : Moment) → c.owes_reset ≡ false → c.unheard ≡ Some since → (c.passive && is_syn_received c.state) ≡ false
        → (let later = later_moment h now in later.0) < (let end = after since 483000 in end.0) → entry_of (after_giving_up h lost now) id ≡ Some (connected id c listener) }
    ensures half_open_early { (h : SocketsView) (lost : Addr → Bool) (now : Moment) (id : SocketId) (c : View) (listener : Option SocketId) → IsOrdered h → entry_of h id ≡ Some (connected id c listener)
        → (since : Moment) → c.owes_reset ≡ false → c.unheard ≡ Some since → (c.passive && is_syn_received c.state) ≡ true
        → (let later = later_moment h now in later.0) < (let end = after since 3000 in end.0) → entry_of (after_giving_up h lost now) id ≡ Some (connected id c listener) }
    ensures idle { (h : SocketsView) (lost : Addr → Bool) (now : Moment) (id : SocketId) (c : View) (listener : Option SocketId) → IsOrdered h → entry_of h id ≡ Some (connected id c listener)
        → c.owes_reset ≡ false → c.unheard ≡ None → entry_of (after_giving_up h lost now) id ≡ Some (connected id c listener) }
    ensures known { (h : SocketsView) (lost : Addr → Bool) (now : Moment) (id : SocketId) (c : View) (listener : Option SocketId) → IsOrdered h → entry_of h id ≡ Some (connected id c listener)
        → lost c.peer.addr ≡ false → entry_of (after_giving_up h lost now) id ≡ Some (connected id c listener) }
    ensures deadline { (lost : Addr → Bool) (c : View) (listener : Option SocketId) (since : Moment) → c.owes_reset ≡ false → c.unheard ≡ Some since → lost c.peer.addr ≡ true
        → give_up_at lost (Connected c listener) ≡ Some (after since (if c.passive && is_syn_received c.state then 3000 else 483000)) }
    ensures reset_deadline { (lost : Addr → Bool) (c : View) (listener : Option SocketId) → c.owes_reset ≡ true → lost c.peer.addr ≡ true
        → give_up_at lost (Connected c listener) ≡ Some (after c.since 3000) }
{}

/// A segment for which there is no connection (RFC 9293 sections 3.5.2, 3.10.7.1 and 3.10.7.2). One with RST changes nothing and draws no answer. One with ACK draws <SEQ=SEG.ACK><CTL=RST>, at a
/// listener too. One with neither draws <SEQ=0><ACK=SEG.SEQ+SEG.LEN><CTL=RST,ACK> where nobody listens, modulo 2^32, and its length counts its SYN and its FIN; at a listener it is dropped, but for a
/// SYN, which opens a connection in SYN-RECEIVED between the two ends behind all entries wherever fewer wait at the listener than its backlog allows, the table is not full, and the last
/// id is not given.
pub fn strays_are_answered()
    ensures reset { (h : SocketsView) (now : Moment) (isn : ℕ) (source : Addr) (s : Segment) → find (is_between (local_end h s) (peer_end source s)) h.entries ≡ None → s.flags.rst ≡ true → arrival h now isn source s ≡ Becomes h }
    ensures acknowledgement { (h : SocketsView) (now : Moment) (isn : ℕ) (source : Addr) (s : Segment) → find (is_between (local_end h s) (peer_end source s)) h.entries ≡ None → s.flags.rst ≡ false → s.flags.ack ≡ true
        → (head : Head) × (arrival h now isn source s ≡ Answers head) × IsResetOf s s.acknowledgement 0 false head }
    ensures stray { (h : SocketsView) (now : Moment) (isn : ℕ) (source : Addr) (s : Segment) → find (is_between (local_end h s) (peer_end source s)) h.entries ≡ None → find (is_listening_at s.destination) h.entries ≡ None
        → s.flags.rst ≡ false → s.flags.ack ≡ false → (head : Head) × (arrival h now isn source s ≡ Answers head) × IsResetOf s 0 ((s.number + span_of s) % 2 ^ 32) true head }
    ensures dropped { (h : SocketsView) (now : Moment) (isn : ℕ) (source : Addr) (s : Segment) (listener : Entry) → find (is_between (local_end h s) (peer_end source s)) h.entries ≡ None → find (is_listening_at s.destination) h.entries ≡ Some listener
        → s.flags.rst ≡ false → s.flags.ack ≡ false → s.flags.syn ≡ false → arrival h now isn source s ≡ Becomes h }
    ensures opens { (h : SocketsView) (now : Moment) (isn : ℕ) (source : Addr) (s : Segment) (listener : Entry) → find (is_between (local_end h s) (peer_end source s)) h.entries ≡ None → find (is_listening_at s.destination) h.entries ≡ Some listener
        → s.flags.rst ≡ false → s.flags.ack ≡ false → s.flags.syn ≡ true → count_by (is_waiting_at listener.id) h.entries < backlog_of listener.role → length h.entries < h.sizes.entries → h.last_id + 1 < 2 ^ 64
        → (next : SocketsView) × (arrival h now isn source s ≡ Opens next) × ((e : Entry) × (next.entries ≡ h.entries ++ e ∷ []) × IsOpenedBy h source s e) }
    ensures no_place { (h : SocketsView) (now : Moment) (isn : ℕ) (source : Addr) (s : Segment) (listener : Entry) → find (is_between (local_end h s) (peer_end source s)) h.entries ≡ None → find (is_listening_at s.destination) h.entries ≡ Some listener
        → s.flags.rst ≡ false → s.flags.ack ≡ false → s.flags.syn ≡ true
        → (backlog_of listener.role ≤ count_by (is_waiting_at listener.id) h.entries) ⊎ ((length h.entries ≡ h.sizes.entries) ⊎ (h.last_id + 1 ≡ 2 ^ 64)) → arrival h now isn source s ≡ NoRoom }
{}

/// A segment that its connection refuses, since it acknowledges what was not sent while the connection opens (RFC 9293 sections 3.10.7.3 and 3.10.7.4), draws <SEQ=SEG.ACK><CTL=RST> and changes nothing.
pub fn refused_segments_are_answered()
    ensures { (h : SocketsView) (now : Moment) (isn : ℕ) (source : Addr) (s : Segment) (e : Entry) → find (is_between (local_end h s) (peer_end source s)) h.entries ≡ Some e → fate_of s e.role ≡ Rejected
        → (head : Head) × (arrival h now isn source s ≡ Answers head) × IsResetOf s s.acknowledgement 0 false head }
{}

/// A port that is asked for, at our address or 0.0.0.0, is refused as EADDRINUSE exactly where an entry of the socket's kind has it: over TCP any socket, listener or connection, and over UDP a
/// socket. A backlog is taken from 1 to 8.
pub fn ports_and_backlogs_are_tested()
    ensures bind { (h : SocketsView) (id : SocketId) (local : Endpoint) (buffers : Buffers) → role_of h id ≡ Some (Idle buffers None) → (same_addr local.addr h.addr || same_addr local.addr any_addr) ≡ true → (local.port == 0) ≡ false
        → bind_refusal h id local ≡ (if list_any (λ e. is_port local.port (tcp_port e.role)) h.entries then Some EADDRINUSE else None) }
    ensures bind_datagrams { (h : SocketsView) (id : SocketId) (local : Endpoint) (socket : SocketView) → role_of h id ≡ Some (Datagrams None socket) → (same_addr local.addr h.addr || same_addr local.addr any_addr) ≡ true
        → (local.port == 0) ≡ false → bind_refusal h id local ≡ (if list_any (λ e. is_port local.port (udp_port e.role)) h.entries then Some EADDRINUSE else None) }
    ensures backlog { (h : SocketsView) (id : SocketId) (backlog : ℕ) (buffers : Buffers) (bound : Endpoint) → role_of h id ≡ Some (Idle buffers (Some bound)) → listen_refusal h id backlog ≡ (if (backlog == 0) || nat_lt 8 backlog then Some EINVAL else None) }
    ensures listens { (h : SocketsView) (id : SocketId) (backlog : ℕ) (buffers : Buffers) (bound : Endpoint) → role_of h id ≡ Some (Idle buffers (Some bound)) → role_of (after_listen h id backlog) id ≡ Some (Listener bound backlog) }
{}

/// What `send` and `recv` move, where the connection is past its opening and told no error. Of what is given to be sent the first octets are taken, as many as have room behind those that are
/// held; EAGAIN where some are given and none has. Into a buffer the first octets are read that came, as many as it takes; the rest of it stays.
pub fn calls_move_octets()
    ensures send { (h : SocketsView) (id : SocketId) (c : View) → role_of h id ≡ Some (Connected c None) → (octets : List ℕ) → c.pending_error ≡ None → is_opening c.state ≡ false → is_write_closed c.state ≡ false
        → let room = c.sending.size - length c.sending.held in send_answer h id octets ≡ (if (room == 0) && not (length octets == 0) then Err EAGAIN else Ok (min (length octets) room)) }
    ensures sent { (h : SocketsView) (id : SocketId) (c : View) → role_of h id ≡ Some (Connected c None) → (octets : List ℕ) → c.pending_error ≡ None → is_opening c.state ≡ false → is_write_closed c.state ≡ false
        → (d : View) × (role_of (after_send h id octets) id ≡ Some (Connected d None)) × HoldsMore (take (min (length octets) (c.sending.size - length c.sending.held)) octets) c d }
    ensures recv { (h : SocketsView) (id : SocketId) (c : View) → role_of h id ≡ Some (Connected c None) → (len : ℕ) → c.pending_error ≡ None → is_opening c.state ≡ false → (length c.receiving.readable == 0) ≡ false → (len == 0) ≡ false
        → recv_answer h id len ≡ Ok (Octets (min len (length c.receiving.readable))) }
    ensures read { (h : SocketsView) (id : SocketId) (c : View) → role_of h id ≡ Some (Connected c None) → (buffer : List ℕ) → c.pending_error ≡ None → is_opening c.state ≡ false → (length c.receiving.readable == 0) ≡ false
        → (length buffer == 0) ≡ false → let n = min (length buffer) (length c.receiving.readable) in recv_front h id buffer ≡ take n c.receiving.readable ++ drop n buffer }
    ensures left { (h : SocketsView) (id : SocketId) (c : View) → role_of h id ≡ Some (Connected c None) → (len : ℕ) → c.pending_error ≡ None → is_opening c.state ≡ false → (length c.receiving.readable == 0) ≡ false → (len == 0) ≡ false
        → (d : View) × (role_of (after_recv h id len) id ≡ Some (Connected d None)) × HasRead (min len (length c.receiving.readable)) c d }
{}

/// A call of a connection's socket, and `listen`, change that socket alone: every entry that the id doesn't name as a socket stays, and all else of the table.
pub fn calls_change_their_socket_alone()
    ensures listen { (h : SocketsView) (id other : SocketId) (backlog : ℕ) (x : Entry) → entry_of h other ≡ Some x → is_socket id x ≡ false → entry_of (after_listen h id backlog) other ≡ Some x }
    ensures send { (h : SocketsView) (id other : SocketId) (octets : List ℕ) (x : Entry) → entry_of h other ≡ Some x → is_socket id x ≡ false → entry_of (after_send h id octets) other ≡ Some x }
    ensures recv { (h : SocketsView) (id other : SocketId) (len : ℕ) (x : Entry) → entry_of h other ≡ Some x → is_socket id x ≡ false → entry_of (after_recv h id len) other ≡ Some x }
    ensures shutdown { (h : SocketsView) (id other : SocketId) (x : Entry) → entry_of h other ≡ Some x → is_socket id x ≡ false → entry_of (after_shutdown h id) other ≡ Some x }
    ensures table { (h : SocketsView) (id : SocketId) (backlog : ℕ) (octets : List ℕ) (len : ℕ) → IsSameBesides h (after_listen h id backlog) × IsSameBesides h (after_send h id octets) × IsSameBesides h (after_recv h id len) × IsSameBesides h (after_shutdown h id) }
{}
