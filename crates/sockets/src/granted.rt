//! Laws of what a socket's call comes to where nothing stands against it, in the words of POSIX.

ghost use Rattle.std.specs.Prelude.{◌≡◌, ◌≢◌, ◌≤◌, ◌↔◌, ℕ, Bool, true, false, List, length, Option, None, Some, Ok};
ghost use Rattle.ipv4.specs.declared.addr.Endpoint.{Endpoint};
ghost use Rattle.tcp_halves.specs.declared.buffers.Manner.{Manner};
ghost use Rattle.tcp_state.specs.View.{View};
ghost use Rattle.tcp_state.specs.declared.calls.Refusal.TheVariants as error;
ghost use Rattle.sockets.specs.declared.entry.Entry.{Entry};
ghost use Rattle.sockets.specs.declared.entry.SocketId.{SocketId};
ghost use Rattle.sockets.specs.declared.refusal.Refusal.TheVariants.{EAGAIN, ECONNREFUSED, ECONNRESET, ENOTCONN, EPIPE, ETIMEDOUT};
ghost use Rattle.sockets.specs.declared.role.Role.TheVariants.{Connected};
ghost use Rattle.sockets.specs.Calls.{after_bind, after_nodelay, bind_refusal, connect_refusal, listen_refusal, refusal_of, sockname_answer};
ghost use Rattle.sockets.specs.Datagrams.{sendto_answer};
ghost use Rattle.sockets.specs.GiveWay.{may_give_way};
ghost use Rattle.sockets.specs.Granted.{MayBeGiven, MayBind, MayConnect, MayListen, MaySendTo};
ghost use Rattle.sockets.specs.Order.{IsOrdered};
ghost use Rattle.sockets.specs.SocketsView.{SocketsView, role_of, room_of};

/// A `connect` is taken exactly where a connection can be opened (`MayConnect`; POSIX connect, RFC 9293 section 3.10.1): by an idle socket, to a port other than 0 of a single host that isn't this one and to which a route leads,
/// from the port that the socket is bound to, where no connection goes from it to the peer, or else from any dynamic port that is free.
pub fn connects_are_granted()
    ensures { (h : SocketsView) (id : SocketId) (peer : Endpoint) (routed : Bool) → IsOrdered h → (connect_refusal h id peer routed ≡ None) ↔ MayConnect h id peer routed }
{}

/// A `bind` is taken exactly where a socket that isn't bound may be at that address and port (`MayBind`; POSIX bind).
pub fn binds_are_granted()
    ensures { (h : SocketsView) (id : SocketId) (local : Endpoint) → IsOrdered h → (bind_refusal h id local ≡ None) ↔ MayBind h id local }
{}

/// A `listen` is taken exactly of an idle TCP socket that is bound, with a backlog of 1 to 8 (POSIX listen).
pub fn listens_are_granted()
    ensures { (h : SocketsView) (id : SocketId) (backlog : ℕ) → (listen_refusal h id backlog ≡ None) ↔ MayListen h id backlog }
{}

/// A `sendto` takes all its octets exactly where they can be sent (`MaySendTo`; POSIX sendto).
pub fn datagrams_are_granted()
    ensures { (h : SocketsView) (id : SocketId) (peer : Endpoint) (octets : List ℕ) (routed : Bool) → IsOrdered h → (sendto_answer h id peer octets routed ≡ Ok (length octets)) ↔ MaySendTo h id peer octets routed }
{}

/// After a `bind` that is taken the socket is bound to the address that was asked for, and to the port, or to one in place of port 0: `getsockname` tells so (POSIX bind).
pub fn binds_are_kept()
    ensures { (h : SocketsView) (id : SocketId) (local : Endpoint) → IsOrdered h → bind_refusal h id local ≡ None
        → (port : ℕ) × (sockname_answer (after_bind h id local) id ≡ Ok (record { addr = local.addr; port = port })) × (local.port ≢ 0 → port ≡ local.port) }
{}

/// TCP_NODELAY is on from a call on that switches it on, and off from one that switches it off (RFC 1122 section 4.2.3.4).
pub fn no_delay_is_as_asked()
    ensures { (h : SocketsView) (id : SocketId) (on : Bool) (c : View) (listener : Option SocketId) → IsOrdered h → role_of h id ≡ Some (Connected c listener)
        → (d : View) × (role_of (after_nodelay h id on) id ≡ Some (Connected d listener)) × (d.nodelay ≡ on) }
{}

/// Buffers are of the size that was asked for: where windows are scaled of any, and else of up to 65,535 octets, which is all that a window of 16 bits tells (RFC 7323 section 2.2).
pub fn buffers_are_as_asked()
    ensures scaled { (buffer : ℕ) (manner : Manner) → manner.scales ≡ true → (room_of buffer manner).capacity ≡ buffer }
    ensures plain { (buffer : ℕ) (manner : Manner) → manner.scales ≡ false → buffer ≤ 65535 → (room_of buffer manner).capacity ≡ buffer }
{}

/// Nothing gives way to another connection but one that is half open, which a listener opened, and one in TIME-WAIT, which its caller closed (RFC 9293 section 3.6.1, RFC 1122 section 4.2.2.13): none with octets that are still to be delivered.
pub fn only_openings_and_time_wait_are_given()
    ensures { (x : Entry) → may_give_way x ≡ true → MayBeGiven x.role }
{}

/// What a connection refuses its socket refuses by the same name.
pub fn errors_keep_their_names()
    ensures { (refusal_of error.ENOTCONN ≡ ENOTCONN) × (refusal_of error.EAGAIN ≡ EAGAIN) × (refusal_of error.ECONNREFUSED ≡ ECONNREFUSED) × (refusal_of error.ECONNRESET ≡ ECONNRESET) × (refusal_of error.EPIPE ≡ EPIPE) × (refusal_of error.ETIMEDOUT ≡ ETIMEDOUT) }
{}
