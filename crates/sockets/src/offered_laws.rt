//! Laws over those that wait to be accepted: functions with nothing to do, whose contracts are the laws.

ghost use Rattle.std.specs.Prelude.{◌≡◌, ℕ, true, false, List, [], ◌∷◌, ◌++◌, filter, Some, Ok, is_ok};
ghost use Rattle.std.specs.List.{list_any};
ghost use Rattle.ipv4.specs.declared.addr.Endpoint.{Endpoint};
ghost use Rattle.sockets.specs.declared.entry.SocketId.{SocketId};
ghost use Rattle.sockets.specs.declared.role.Role.TheVariants.{Listener};
ghost use Rattle.sockets.specs.SocketsView.{SocketsView, role_of};
ghost use Rattle.sockets.specs.Calls.{accept_answer};
ghost use Rattle.sockets.specs.Causes.{Event, after_event};
ghost use Rattle.sockets.specs.Traffic.{after_events};
ghost use Rattle.sockets.specs.Order.{IsAllowed};
ghost use Rattle.sockets.specs.Offered.{IsReached, AreAllowed, KeepsBacklogs, OffersReady, is_ready_id, is_ready_at};

/// At every listener wait at most as many connections as its backlog allows, in SYN-RECEIVED or past it, at every moment.
pub fn backlogs_are_kept()
    ensures { (h : SocketsView) → IsReached h → KeepsBacklogs h }
{}

/// Those offered are at every moment exactly the connections that wait at a listener and have passed SYN-RECEIVED, each once. So there are no more of them
/// than entries.
pub fn ready_are_offered()
    ensures { (h : SocketsView) → IsReached h → OffersReady h }
{}

/// A connection that passes SYN-RECEIVED at its listener is then the last of those offered, who all stay: the list always has a place for it. And
/// whatever happens, those that were offered before and still are keep their order.
pub fn offers_join_at_the_end()
    ensures last { (h : SocketsView) (e : Event) (id : SocketId) → IsReached h → IsAllowed h e → is_ready_id h.entries id ≡ false → let after = after_event h e in is_ready_id after.entries id ≡ true → after.offered ≡ h.offered ++ id ∷ [] }
    ensures order { (h : SocketsView) (e : Event) → IsReached h → IsAllowed h e → let after = after_event h e in filter (is_ready_id h.entries) after.offered ≡ filter (is_ready_id after.entries) h.offered }
{}

/// A listener's connections are accepted in the order in which they passed SYN-RECEIVED: where `x` has passed it and `y` not yet, `accept` never
/// answers `y` while `x` still waits at that listener, whatever happens in between.
pub fn first_ready_is_accepted_first()
    ensures { (h : SocketsView) (events : List Event) (listener x y : SocketId) (peer : Endpoint) → IsReached h → AreAllowed h events → is_ready_id h.entries x ≡ true → is_ready_id h.entries y ≡ false
        → let later = after_events h events in accept_answer later listener ≡ Ok (y, peer) → list_any (is_ready_at listener x) later.entries ≡ false }
{}

/// `accept` answers a connection wherever one is ready that waits at the listener, and none but such a one: nobody is forgotten.
pub fn accept_answers_the_ready()
    ensures some { (h : SocketsView) (listener x : SocketId) (bound : Endpoint) (backlog : ℕ) → IsReached h → role_of h listener ≡ Some (Listener bound backlog) → list_any (is_ready_at listener x) h.entries ≡ true → is_ok (accept_answer h listener) ≡ true }
    ensures ready { (h : SocketsView) (listener y : SocketId) (peer : Endpoint) → IsReached h → accept_answer h listener ≡ Ok (y, peer) → list_any (is_ready_at listener y) h.entries ≡ true }
{}
