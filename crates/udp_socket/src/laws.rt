//! Laws of the definitions that the contracts of this crate cite: each is the contract of a function that does nothing.

ghost use Rattle.std.specs.Prelude.{◌≡◌, ℕ, ◌+◌, ◌<◌, ◌≤◌, ◌↔◌, ◌&&◌, nat_le, not, Bool, false, IsTrue, if◌then◌else◌, List, [], ◌∷◌, ◌++◌, length, map, take, drop, filter, slice_get, Some, None};
ghost use Rattle.std.specs.List.{AllByRecursion, flat_map};
ghost use Rattle.std.specs.List.Sorted.{IsPermutation};
ghost use Rattle.clock.specs.declared.moment.Moment.{Moment};
ghost use Rattle.ipv4.specs.declared.addr.Addr.{Addr};
ghost use Rattle.ipv4.specs.declared.addr.Endpoint.{Endpoint};
ghost use Rattle.udp.specs.Datagram.{spelling};
ghost use Rattle.udp.specs.Waiting.{HasRoom, Waiting};
ghost use Rattle.udp_socket.specs.declared.socket.TheConstants.{MOST_OCTETS};
ghost use Rattle.udp_socket.specs.Asking.{room_out};
ghost use Rattle.udp_socket.specs.Emission.{brought, datagram_of, due_peer, due_peer_to, first_that, peer_at, waits_at};
ghost use Rattle.udp_socket.specs.Waits.{after_giving_up, is_given_up};
ghost use Rattle.udp_socket.specs.SocketView.{Outgoing, SocketView, new_socket, line_of, waiting_of, read_answer, read_buffer, has_room_in, has_room_out};
ghost use Rattle.udp_socket.specs.Events.{Event, GivesUp, Run, after_events, gathered, received, read, sent, finished, dropped, gone_out, left, begun, pieces_of, whole, is_to, EachTakesFirst, IsFrom, IsWithout};

/// What the public constant is: 65,535 octets of a datagram of IPv4 at most, less its header of 20 and the header of 8.
pub fn constants()
    ensures octets { MOST_OCTETS ≡ 65507 }
{}

/// A further datagram has room in a socket where its queue has room for it: with 64 datagrams at most, and 65,535 octets at most, where
/// each counts 8 beside its own.
pub fn room()
    ensures received { (s : SocketView) (len : ℕ) → IsTrue (has_room_in s len) ↔ HasRoom (line_of s.inbox) len }
    ensures sent { (s : SocketView) (len : ℕ) → IsTrue (has_room_out s len) ↔ HasRoom (line_of (map waiting_of s.outbox)) len }
{}

/// A datagram of an octet or more, and of no more than a datagram may have, has room to be sent exactly where it has no more than `room` tells.
pub fn room_is_the_most()
    ensures { (s : SocketView) (len : ℕ) → 0 < len → len ≤ MOST_OCTETS → has_room_out s len ≡ nat_le len (room_out s) }
{}

/// Whatever befalls a socket, what is read, and then what waits to be, is what was received, in the order in which it came: none is
/// displaced, given twice or left out.
pub fn read_in_order()
    ensures { (events : List Event) → gathered read new_socket events ++ (let after = after_events new_socket events in after.inbox) ≡ gathered received new_socket events }
{}

/// A reader is given the first octets of the first datagram, as many as the buffer has room for, and the endpoint that it is from; what
/// the buffer has behind them stays.
pub fn reads_are_cut()
    ensures { (items : List Waiting) (buffer : List ℕ) (n : ℕ) (from : Endpoint) → read_answer items (length buffer) ≡ Some (n, from)
        → (item : Waiting) × (take 1 items ≡ item ∷ []) × (from ≡ item.endpoint)
        × (take n (read_buffer items buffer) ≡ take (length buffer) item.octets) × (drop n (read_buffer items buffer) ≡ drop n buffer) }
{}

/// Where what goes out is each time of the first place whose address passes a test, which may be another each time, to each one address
/// datagrams go out in the order in which they were sent: what went out whole to it, and then what waits, is what was sent to it, in that
/// order, but for the datagrams that were given up.
pub fn sent_in_order()
    ensures { (events : List Event) (addr : Addr) → EachTakesFirst new_socket events
        → IsWithout (filter (is_to addr) (gathered finished new_socket events ++ (let after = after_events new_socket events in after.outbox))) (filter (is_to addr) (gathered sent new_socket events)) }
{}

/// Whatever befalls a socket, and whatever place what goes out is of: each datagram that was sent has gone out whole once, or was given up, or
/// waits, and nothing else has, was or does.
pub fn sent_once()
    ensures { (events : List Event) → IsPermutation (gathered sent new_socket events)
        (gathered finished new_socket events ++ (gathered dropped new_socket events ++ (let after = after_events new_socket events in after.outbox))) }
{}

/// The first place that passes a test on addresses is the first that does: the datagram in it is for an address that passes, and none before
/// it is; there is none exactly where none passes. The endpoint is that of this datagram.
pub fn first_that_passes()
    ensures some { (test : Addr → Bool) (outbox : List Outgoing) (place : ℕ) → (first_that test outbox ≡ Some place)
        ↔ ((o : Outgoing) × (slice_get outbox place ≡ Some o) × IsTrue (test o.peer.addr)
        × ((before : ℕ) (other : Outgoing) → before < place → slice_get outbox before ≡ Some other → test other.peer.addr ≡ false)) }
    ensures none { (test : Addr → Bool) (outbox : List Outgoing) → (first_that test outbox ≡ None)
        ↔ ((place : ℕ) (o : Outgoing) → slice_get outbox place ≡ Some o → test o.peer.addr ≡ false) }
    ensures within { (test : Addr → Bool) (s : SocketView) (place : ℕ) → first_that test s.outbox ≡ Some place → IsTrue (waits_at place s) }
    ensures peer { (test : Addr → Bool) (s : SocketView) (place : ℕ) → first_that test s.outbox ≡ Some place → due_peer_to test s ≡ peer_at place s.outbox }
    ensures nobody { (test : Addr → Bool) (s : SocketView) → first_that test s.outbox ≡ None → due_peer_to test s ≡ None }
{}

/// The datagram that goes out stands first, and the others in order behind it. As many fragments of it have gone out as before where it stood
/// first, and none where it did not. Its peer is that of its place.
pub fn others_stay_in_order()
    ensures first { (s : SocketView) → brought 0 s ≡ s }
    ensures later { (s : SocketView) (front back : List Outgoing) (o : Outgoing) → 0 < length front → s.outbox ≡ front ++ o ∷ back
        → brought (length front) s ≡ record s { outbox = o ∷ (front ++ back); parts = 0 } }
    ensures peer { (s : SocketView) (place : ℕ) (peer : Endpoint) → peer_at place s.outbox ≡ Some peer → due_peer (let b = brought place s in b.outbox) ≡ Some peer }
{}

/// Which datagrams are given up at a moment, but the last of the clock: those for lost addresses that have waited for 3,000 milliseconds or
/// more. The others stay, in order; as many fragments of the first have gone out as before, and none where the one before it was given up.
pub fn datagrams_are_given_up_in_time()
    ensures stay { (s : SocketView) (lost : Addr → Bool) (now : Moment) → now.0 < 18446744073709551615
        → (let after = after_giving_up s lost now in after.outbox) ≡ filter (λ o. not (nat_le (o.since.0 + 3000) now.0 && lost o.peer.addr)) s.outbox }
    ensures parts { (s : SocketView) (lost : Addr → Bool) (now : Moment) (o : Outgoing) (rest : List Outgoing) → now.0 < 18446744073709551615 → s.outbox ≡ o ∷ rest
        → (let after = after_giving_up s lost now in after.parts) ≡ (if nat_le (o.since.0 + 3000) now.0 && lost o.peer.addr then 0 else s.parts) }
    ensures received { (s : SocketView) (lost : Addr → Bool) (now : Moment) → (let after = after_giving_up s lost now in after.inbox) ≡ s.inbox }
{}

/// Whatever befalls a socket whose datagrams go out from one endpoint, what goes out is one datagram behind the other, never two mixed:
/// the fragments of one in order, all of them, before the first of the next, but where it was given up on its way, or overtaken by one to
/// another hop, and then it begins anew, or where it is the one that goes out now. All the fragments of a datagram carry its spelling
/// (RFC 768, RFC 791 section 3.2).
pub fn goes_out_whole()
    ensures runs { (source : Endpoint) (events : List Event) → AllByRecursion (IsFrom source) events
        → gathered gone_out new_socket events ≡ flat_map (pieces_of source) (gathered left new_socket events ++ begun (after_events new_socket events)) }
    ensures spelled { (source : Endpoint) (o : Outgoing) → flat_map (λ piece. piece.octets) (pieces_of source (whole o)) ≡ spelling (datagram_of source o) }
    ensures given_up { (s : SocketView) (lost : Addr → Bool) (now : Moment) → map (λ (run : Run). run.datagram) (left s (GivesUp lost now)) ≡ filter (is_given_up lost now) s.outbox }
{}
