//! A law on want of memory: a function with nothing to do, whose contract is the law.

ghost use Rattle.std.specs.Prelude.{◌≡◌, ℕ, Bool, List, Option, Some, Err};
ghost use Rattle.ipv4.specs.declared.addr.Endpoint.{Endpoint};
ghost use Rattle.sockets.specs.declared.entry.SocketId.{SocketId};
ghost use Rattle.sockets.specs.declared.refusal.Refusal.TheVariants.{ENOMEM};
ghost use Rattle.sockets.specs.SocketsView.{SocketsView};
ghost use Rattle.sockets.specs.Calls.{bind_refusal, listen_refusal, accept_answer, connect_refusal, send_answer, recv_answer, shutdown_refusal, nodelay_refusal, keepalive_refusal, close_refusal, state_answer, sockname_answer, peername_answer};
ghost use Rattle.sockets.specs.Datagrams.{sendto_answer, recvfrom_answer};
ghost use Rattle.sockets.specs.Info.{info_answer};
ghost use Rattle.sockets.specs.Ready.{readiness, recv_len, send_room};

/// No call but `socket` is refused memory, and no question, whatever the table is and whatever is asked of it.
pub fn only_socket_is_refused_memory()
    ensures bind { (h : SocketsView) (id : SocketId) (local : Endpoint) → ¬ (bind_refusal h id local ≡ Some ENOMEM) }
    ensures listen { (h : SocketsView) (id : SocketId) (backlog : ℕ) → ¬ (listen_refusal h id backlog ≡ Some ENOMEM) }
    ensures accept { (h : SocketsView) (id : SocketId) → ¬ (accept_answer h id ≡ Err ENOMEM) }
    ensures connect { (h : SocketsView) (id : SocketId) (peer : Endpoint) (routed : Bool) → ¬ (connect_refusal h id peer routed ≡ Some ENOMEM) }
    ensures send { (h : SocketsView) (id : SocketId) (octets : List ℕ) → ¬ (send_answer h id octets ≡ Err ENOMEM) }
    ensures recv { (h : SocketsView) (id : SocketId) (len : ℕ) → ¬ (recv_answer h id len ≡ Err ENOMEM) }
    ensures sendto { (h : SocketsView) (id : SocketId) (peer : Endpoint) (octets : List ℕ) (routed : Bool) → ¬ (sendto_answer h id peer octets routed ≡ Err ENOMEM) }
    ensures recvfrom { (h : SocketsView) (id : SocketId) (len : ℕ) → ¬ (recvfrom_answer h id len ≡ Err ENOMEM) }
    ensures shutdown { (h : SocketsView) (id : SocketId) → ¬ (shutdown_refusal h id ≡ Some ENOMEM) }
    ensures nodelay { (h : SocketsView) (id : SocketId) → ¬ (nodelay_refusal h id ≡ Some ENOMEM) }
    ensures keepalive { (h : SocketsView) (id : SocketId) (every : Option ℕ) → ¬ (keepalive_refusal h id every ≡ Some ENOMEM) }
    ensures close { (h : SocketsView) (id : SocketId) → ¬ (close_refusal h id ≡ Some ENOMEM) }
    ensures state { (h : SocketsView) (id : SocketId) → ¬ (state_answer h id ≡ Err ENOMEM) }
    ensures sockname { (h : SocketsView) (id : SocketId) → ¬ (sockname_answer h id ≡ Err ENOMEM) }
    ensures peername { (h : SocketsView) (id : SocketId) → ¬ (peername_answer h id ≡ Err ENOMEM) }
    ensures info { (h : SocketsView) (id : SocketId) → ¬ (info_answer h id ≡ Err ENOMEM) }
    ensures ready { (h : SocketsView) (id : SocketId) → ¬ (readiness h id ≡ Err ENOMEM) }
    ensures readable { (h : SocketsView) (id : SocketId) → ¬ (recv_len h id ≡ Err ENOMEM) }
    ensures room { (h : SocketsView) (id : SocketId) → ¬ (send_room h id ≡ Err ENOMEM) }
{}
