//! Laws over the definitions alone: functions with nothing to do, whose contracts are the laws.

ghost use Rattle.std.specs.Prelude.{◌≡◌, ◌⊎◌, ℕ, ◌≤◌, ◌<◌, ◌^◌, false, true, List, Contains, count_by, find, length, is_some, Some, Ok};
ghost use Rattle.clock.specs.declared.moment.Moment.{Moment};
ghost use Rattle.clock.specs.Moments.{has_come};
ghost use Rattle.frames.specs.declared.meaning.Meaning.TheVariants.{Tcp};
ghost use Rattle.frames.specs.declared.meaning.ReceivedSegment.{ReceivedSegment};
ghost use Rattle.interface.specs.Ways.{is_routed};
ghost use Rattle.ipv4.specs.declared.addr.Addr.{Addr};
ghost use Rattle.ipv4.specs.declared.addr.Endpoint.{Endpoint};
ghost use Rattle.tcp_segment.specs.Segment.{Segment};
ghost use Rattle.tcp_segment.specs.Wire.{past};
ghost use Rattle.tcp_halves.specs.Halves.{Room};
ghost use Rattle.tcp_state.specs.Arrival.{opened_passively};
ghost use Rattle.tcp_state.specs.Edges.{Event};
ghost use Rattle.tcp_state.specs.Timing.{after_tick};
ghost use Rattle.tcp_state.specs.View.{View, is_syn_received, is_time_wait};
ghost use Rattle.tcp_state.specs.Way.{is_unanswered, lies_past};
ghost use Rattle.tcp_state.specs.Way as of_connection;
ghost use Rattle.sockets.specs.declared.entry.Entry.{Entry};
ghost use Rattle.sockets.specs.Arrival.{is_opening};
ghost use Rattle.sockets.specs.Calls.{is_table_full};
ghost use Rattle.sockets.specs.Entries.{backlog_of, is_listening_at, is_waiting_at};
ghost use Rattle.sockets.specs.GiveWay.{is_unanswered_at, left_since, way_for, way_for_socket, IsOpenedAnew};
ghost use Rattle.sockets.specs.Order.{IsOrdered};
ghost use Rattle.sockets.specs.SocketsView.{SocketsView};
ghost use Rattle.host.specs.Heard.{heard_by};
ghost use Rattle.host.specs.HostView.{HostView};
ghost use Rattle.host.specs.GiveWay as of_host;
ghost use Rattle.guard_law.specs.Waited.{after_all, HasWaited};
ghost use Rattle.guard_law.specs.Wanting.{ComesTo, IsOnGuard};

/// A connection that a listener opened counts as unanswered, and may give way to another one (RFC 9293 section 3.6.1), only where what was due went out and a tick came a second or more after that: whatever
/// happened in between. For its retransmission timer begins as its SYN-ACK goes out, for a second, and only a tick that has come to it counts as an expiry.
pub fn a_syn_ack_has_a_second()
    ensures { (room : Room) (local peer : Endpoint) (isn : ℕ) (syn : Segment) (opened : Moment) (events : List Event) → isn < 2 ^ 32 → is_unanswered (after_all (opened_passively room local peer isn syn opened) events) ≡ true → HasWaited events }
{}

/// A connection that a listener opened does count as unanswered as soon as a tick comes to its retransmission timer, at each of its twelve expiries. One in TIME-WAIT counts as left from its
/// beginning where its caller closed it; and a SYN lies past all that was heard on it whose number stands at RCV.NXT, or less than 2^31 past it.
pub fn what_may_give_way_counts()
    ensures unanswered { (v : View) (now : Moment) → v.passive ≡ true → is_syn_received v.state ≡ true → has_come v.timers.retransmission now ≡ true → v.resend.expiries < 12 → is_unanswered (after_tick v now) ≡ true }
    ensures left { (v : View) → is_time_wait v.state ≡ true → v.released ≡ true → of_connection.left_since v ≡ Some v.since }
    ensures past { (v : View) (s : Segment) → past s.number v.receiving.rnext < 2 ^ 31 → lies_past v s ≡ true }
{}

/// On guard something gives way wherever room is wanting and something may. To a SYN whose listener's backlog is full, where one that waits there is unanswered; where the table is full, and the
/// backlog isn't, where such a one waits or one is in TIME-WAIT that no caller has; and so to a socket in a full table. To a SYN that opens anew between the ends of one in TIME-WAIT gives
/// way that one. Which one does say `the_oldest_gives_way` of `sockets` and, that it then finds room, `what_it_gave_way_to_finds_room`.
pub fn something_gives_way_where_room_is_wanting()
    ensures backlog { (h : SocketsView) (source : Addr) (s : Segment) (listener x : Entry) → IsOnGuard h → ComesTo h source s listener → backlog_of listener.role ≤ count_by (is_waiting_at listener.id) h.entries
        → Contains h.entries x → is_unanswered_at listener.id x ≡ true → is_some (way_for h source s) ≡ true }
    ensures table { (h : SocketsView) (source : Addr) (s : Segment) (listener x : Entry) → IsOnGuard h → ComesTo h source s listener → count_by (is_waiting_at listener.id) h.entries < backlog_of listener.role
        → length h.entries ≡ h.sizes.entries → Contains h.entries x → (is_unanswered_at listener.id x ≡ true) ⊎ (is_some (left_since x.role) ≡ true) → is_some (way_for h source s) ≡ true }
    ensures anew { (h : SocketsView) (source : Addr) (s : Segment) (listener x : Entry) → IsOnGuard h → is_opening s.flags ≡ true → find (is_listening_at s.destination) h.entries ≡ Some listener
        → IsOpenedAnew h source s listener x → way_for h source s ≡ Some x.id }
    ensures socket { (h : SocketsView) (x : Entry) → IsOnGuard h → length h.entries ≡ h.sizes.entries → Contains h.entries x → is_some (left_since x.role) ≡ true → is_some (way_for_socket h) ≡ true }
{}

/// A host on its guard makes way: to a segment that it hears, from an address that a route leads to, what gives way in its table; and before a socket is made a full table has room, where one of
/// its entries is in TIME-WAIT and no caller has it.
pub fn a_host_makes_way()
    ensures segment { (h : HostView) (octets : List ℕ) (r : ReceivedSegment) → heard_by h octets ≡ Ok (Tcp r) → is_routed h.interface r.source ≡ true → of_host.way_for h octets ≡ way_for h.sockets r.source r.segment }
    ensures socket { (h : HostView) (x : Entry) → IsOrdered h.sockets → IsOnGuard h.sockets → length h.sockets.entries ≡ h.sockets.sizes.entries → Contains h.sockets.entries x → is_some (left_since x.role) ≡ true
        → is_table_full (of_host.with_place h).sockets ≡ false }
{}
