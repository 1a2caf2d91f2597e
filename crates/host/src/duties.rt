//! What a host must do: laws of the definitions that the contracts of this crate cite, each the contract of a function that does nothing.

ghost use Rattle.std.specs.Prelude.{◌≡◌, ◌≢◌, ◌<◌, ◌≤◌, ◌+◌, ◌&&◌, ℕ, true, false, List, [], ◌∷◌, ◌++◌, Contains, find, length, take, IsTrue, Option, Some, None, Result, Ok};
ghost use Rattle.ipv4.specs.declared.addr.Endpoint.{Endpoint};
ghost use Rattle.ipv4.specs.Datagram.{Datagram};
ghost use Rattle.clock.specs.declared.moment.Moment.{Moment};
ghost use Rattle.clock.specs.Moments.{after};
ghost use Rattle.arp.specs.declared.packet.ArpPacket.{ArpPacket};
ghost use Rattle.arp.specs.declared.packet.Operation.TheVariants.{Request, Reply};
ghost use Rattle.icmp.specs.declared.error.Reason.TheVariants.{PortUnreachable, ReassemblyTimeExceeded};
ghost use Rattle.icmp.specs.declared.quote.Quote.{Quote};
ghost use Rattle.icmp.specs.Message.{IsEchoRequest};
ghost use Rattle.icmp.specs.Reading.{quote_in};
ghost use Rattle.udp.specs.Datagram.{UserDatagram};
ghost use Rattle.udp.specs.Reading.{datagram_or_fault};
ghost use Rattle.frames.specs.declared.drop.DropCause.{DropCause};
ghost use Rattle.frames.specs.declared.meaning.Control.{Control};
ghost use Rattle.frames.specs.declared.meaning.ReceivedDatagram.{ReceivedDatagram};
ghost use Rattle.frames.specs.declared.meaning.Meaning.TheVariants as meaning;
ghost use Rattle.interface.specs.declared.reply.Reply.TheVariants as reply;
ghost use Rattle.interface.specs.Ways.{is_routed};
ghost use Rattle.reassembly.specs.Reassembly.{Reassembly};
ghost use Rattle.reassembly.specs.Reassembly.Outcome.{Completes};
ghost use Rattle.tcp_state.specs.declared.state.State.TheVariants.{SynSent};
ghost use Rattle.tcp_state.specs.declared.calls.Refusal.TheVariants.{ETIMEDOUT};
ghost use Rattle.tcp_state.specs.Said.{IsClosedBy};
ghost use Rattle.tcp_state.specs.Timing.{gives_up};
ghost use Rattle.tcp_state.specs.Unreachable.{IsRefused};
ghost use Rattle.tcp_state.specs.View.{View, is_syn_received};
ghost use Rattle.udp_socket.specs.SocketView.{SocketView};
ghost use Rattle.sockets.specs.declared.entry.Entry.{Entry};
ghost use Rattle.sockets.specs.declared.entry.SocketId.{SocketId};
ghost use Rattle.sockets.specs.declared.role.Role.TheVariants.{Connected, Datagrams};
ghost use Rattle.sockets.specs.Entries.{is_between, is_datagrams_at, has_room_to_receive};
ghost use Rattle.sockets.specs.declared.refusal.Refusal.TheVariants.{ECONNREFUSED};
ghost use Rattle.sockets.specs.Causes as table;
ghost use Rattle.sockets.specs.Closing.{entry_of};
ghost use Rattle.sockets.specs.Lost.{waits_until};
ghost use Rattle.sockets.specs.Order.{IsOrdered};
ghost use Rattle.sockets.specs.Steps.{connected, connection_left};
ghost use Rattle.sockets.specs.SocketsView.{later_moment};
ghost use Rattle.host.specs.Arrival.{IsDelivered, fragment_outcome};
ghost use Rattle.host.specs.Heard.{heard_by};
ghost use Rattle.host.specs.ComesUp.{IsWokenBy};
ghost use Rattle.host.specs.Duties.{HasBehindOthers, IsHardError, IsToldByEachCall};
ghost use Rattle.host.specs.HostView.{HostView};
ghost use Rattle.host.specs.Runs.{HasRun};
ghost use Rattle.host.specs.Sound.{IsSoundHost};
ghost use Rattle.host.specs.Ticks.{after_tick, lacks_hop};

/// A request for our address is answered (RFC 826): where fewer control replies wait than may, it is taken, and the reply with our MAC, to the address
/// and the MAC that asked, stands behind all that wait.
pub fn requests_for_us_are_answered()
    ensures { (h : HostView) (now : Moment) (isn : ℕ) (octets : List ℕ) (packet : ArpPacket) (answer : Result (Unit {0}) DropCause) (new : HostView)
        → heard_by h octets ≡ Ok (meaning.Arp packet) → packet.operation ≡ Request → packet.target_addr ≡ h.interface.addr → length h.interface.replies < h.interface.most_replies
        → IsDelivered h now isn octets answer new
        → let reply = reply.Arp (record { operation = Reply; sender_mac = h.interface.mac; sender_addr = h.interface.addr; target_mac = packet.sender_mac; target_addr = packet.sender_addr }) in
        (answer ≡ Ok tt) × (new.interface.replies ≡ h.interface.replies ++ record { since = later_moment h.sockets now; reply = reply } ∷ []) }
{}

/// A UDP datagram for a port to which a socket with room is bound is taken, and stands behind the others that came for the socket, with its octets and
/// the endpoint that it is from (RFC 768), whether it came whole or a fragment completes it. One that a fragment completes and whose port no socket is bound
/// to is reported to its source by the quote of its last fragment zero, where a route leads there and fewer control replies wait than may.
pub fn datagrams_reach_their_sockets()
    ensures whole { (h : HostView) (now : Moment) (isn : ℕ) (octets : List ℕ) (r : ReceivedDatagram) (answer : Result (Unit {0}) DropCause) (new : HostView) (id : SocketId) (bound : Option Endpoint) (socket : SocketView)
        → heard_by h octets ≡ Ok (meaning.Udp r) → find (is_datagrams_at r.datagram.destination) h.sockets.entries ≡ Some (record { id = id; role = Datagrams bound socket })
        → IsTrue (has_room_to_receive (length r.datagram.payload) (Datagrams bound socket)) → IsDelivered h now isn octets answer new
        → (answer ≡ Ok tt) × HasBehindOthers id bound socket r.carrier.source r.datagram new }
    ensures completed { (h : HostView) (now : Moment) (isn : ℕ) (octets : List ℕ) (d : Datagram) (payload quote : List ℕ) (u : UserDatagram) (answer : Result (Unit {0}) DropCause) (new : HostView) (id : SocketId) (bound : Option Endpoint) (socket : SocketView)
        → heard_by h octets ≡ Ok (meaning.UdpFragment d) → fragment_outcome (later_moment h.sockets now) d h.pool ≡ Some (Completes payload quote) → datagram_or_fault d.source d.destination payload ≡ Ok u
        → find (is_datagrams_at u.destination) h.sockets.entries ≡ Some (record { id = id; role = Datagrams bound socket }) → IsTrue (has_room_to_receive (length u.payload) (Datagrams bound socket))
        → IsDelivered h now isn octets answer new → (answer ≡ Ok tt) × HasBehindOthers id bound socket d.source u new }
    ensures unbound { (h : HostView) (now : Moment) (isn : ℕ) (octets : List ℕ) (d : Datagram) (payload quote : List ℕ) (u : UserDatagram) (answer : Result (Unit {0}) DropCause) (new : HostView)
        → heard_by h octets ≡ Ok (meaning.UdpFragment d) → fragment_outcome (later_moment h.sockets now) d h.pool ≡ Some (Completes payload quote) → datagram_or_fault d.source d.destination payload ≡ Ok u
        → find (is_datagrams_at u.destination) h.sockets.entries ≡ None → IsTrue (is_routed h.interface d.source) → length h.interface.replies < h.interface.most_replies → IsDelivered h now isn octets answer new
        → let reply = reply.Error d.source PortUnreachable (take 68 quote) in
        (answer ≡ Ok tt) × (new.interface.replies ≡ h.interface.replies ++ record { since = later_moment h.sockets now; reply = reply } ∷ []) }
{}

/// A datagram whose fragments haven't all come within 60 seconds of the first is reported to its source, where its fragment zero came and a route leads there: a tick from then on
/// leaves an error, time exceeded in reassembly (type 11, code 1), among the control replies, where there is room for one of each place of the pool (RFC 792, RFC 1122
/// section 3.3.2).
pub fn late_datagrams_are_reported()
    ensures { (h : HostView) (now : Moment) (r : Reassembly) (quote : List ℕ) → Contains h.pool.places (Some r) → (let moment = later_moment h.sockets now in r.since.0 + 60000 ≤ moment.0) → r.quote ≡ Some quote
        → IsTrue (is_routed h.interface r.key.source) → length h.interface.replies + length h.pool.places ≤ h.interface.most_replies
        → let after = after_tick h now in
        Contains after.interface.replies (record { since = later_moment h.sockets now; reply = reply.Error r.key.source ReassemblyTimeExceeded (take 68 quote) }) }
{}

/// A hard error about our SYN ends the opening (RFC 1122 section 4.2.3.9): a message of type 3, code 2, 3 or 4, that quotes a segment of TCP with the two ends of a connection in
/// SYN-SENT and the number of its SYN, which has gone out, leaves its connection refused. The caller is told so at once: the next call of its socket, whichever it is, is
/// refused with ECONNREFUSED, and so is each call after it. Any other message but an echo request leaves the host as it was.
pub fn hard_errors_end_openings()
    ensures refused { (h : HostView) (now : Moment) (isn : ℕ) (octets : List ℕ) (c : Control) (quote : Quote) (answer : Result (Unit {0}) DropCause) (new : HostView) (id : SocketId) (v : View) (listener : Option SocketId) → IsSoundHost h
        → heard_by h octets ≡ Ok (meaning.Icmp c) → IsHardError c.message → quote_in c.message.payload ≡ Some quote → quote.protocol.0 ≡ 6
        → find (is_between quote.source quote.destination) h.sockets.entries ≡ Some (record { id = id; role = Connected v listener }) → v.state ≡ SynSent → v.sending.nxt ≢ v.sending.una → quote.number ≡ v.sending.una
        → IsDelivered h now isn octets answer new
        → (answer ≡ Ok tt) × (w : View) × IsRefused w × Contains new.sockets.entries (record { id = id; role = Connected w listener }) }
    ensures told { (h : HostView) (now : Moment) (isn : ℕ) (octets : List ℕ) (c : Control) (quote : Quote) (answer : Result (Unit {0}) DropCause) (new : HostView) (id : SocketId) (v : View) → IsSoundHost h → IsOrdered h.sockets
        → heard_by h octets ≡ Ok (meaning.Icmp c) → IsHardError c.message → quote_in c.message.payload ≡ Some quote → quote.protocol.0 ≡ 6
        → find (is_between quote.source quote.destination) h.sockets.entries ≡ Some (record { id = id; role = Connected v None }) → v.state ≡ SynSent → v.sending.nxt ≢ v.sending.una → quote.number ≡ v.sending.una
        → IsDelivered h now isn octets answer new → IsToldByEachCall new.sockets id ECONNREFUSED }
    ensures others { (h : HostView) (now : Moment) (isn : ℕ) (octets : List ℕ) (c : Control) (answer : Result (Unit {0}) DropCause) (new : HostView)
        → heard_by h octets ≡ Ok (meaning.Icmp c) → ¬ IsEchoRequest c.message → ¬ IsHardError c.message → IsDelivered h now isn octets answer new → (answer ≡ Ok tt) × (new ≡ h) }
{}

/// What a tick makes of a connection that has something with numbers to send and nothing outstanding, since when that was so: the SYN, octets, the FIN or a probe (RFC 1122 section 4.2.3.5, RFC 9293 section
/// 3.8.3). Where its hop isn't known at a tick from 483,000 ms after that moment on, it is CLOSED, and each call is told ETIMEDOUT, or it is out of the table where its caller closed it. What a listener opened is
/// out of the table, and so leaves its place at the listener, after 3,000 ms in SYN-RECEIVED. Else, where its hop is known or before that moment, the tick leaves of it what its timers do. While its hop isn't
/// known, the deadline is not after the end of that wait, nor after that of a reset that it owes: so at a host that ticks at its deadlines none waits longer.
pub fn waits_for_hops_end()
    ensures told { (h : HostView) (now : Moment) (id : SocketId) (c : View) (listener : Option SocketId) → IsSoundHost h → HasRun h → entry_of h.sockets id ≡ Some (connected id c listener) → (since : Moment) → c.unheard ≡ Some since
        → lacks_hop h (later_moment h.sockets now) c.peer.addr ≡ true → (c.passive && is_syn_received c.state) ≡ false → c.released ≡ false
        → (let end = after since 483000 in end.0) ≤ (let at = later_moment h.sockets now in at.0)
        → let left = after_tick h now in (d : View) × (entry_of left.sockets id ≡ Some (connected id d listener)) × IsClosedBy ETIMEDOUT d }
    ensures left { (h : HostView) (now : Moment) (id : SocketId) (c : View) (listener : Option SocketId) → IsSoundHost h → HasRun h → entry_of h.sockets id ≡ Some (connected id c listener) → (since : Moment) → c.unheard ≡ Some since
        → lacks_hop h (later_moment h.sockets now) c.peer.addr ≡ true → (c.passive && is_syn_received c.state) ≡ false → c.released ≡ true
        → (let end = after since 483000 in end.0) ≤ (let at = later_moment h.sockets now in at.0) → (let left = after_tick h now in entry_of left.sockets id) ≡ None }
    ensures half_open { (h : HostView) (now : Moment) (id : SocketId) (c : View) (listener : Option SocketId) → IsSoundHost h → HasRun h → entry_of h.sockets id ≡ Some (connected id c listener) → (since : Moment) → c.unheard ≡ Some since
        → lacks_hop h (later_moment h.sockets now) c.peer.addr ≡ true → (c.passive && is_syn_received c.state) ≡ true
        → (let end = after since 3000 in end.0) ≤ (let at = later_moment h.sockets now in at.0) → (let left = after_tick h now in entry_of left.sockets id) ≡ None }
    ensures early { (h : HostView) (now : Moment) (id : SocketId) (c : View) (listener : Option SocketId) → IsSoundHost h → HasRun h → entry_of h.sockets id ≡ Some (connected id c listener) → (since : Moment) → c.unheard ≡ Some since
        → (c.passive && is_syn_received c.state) ≡ false → gives_up c (later_moment h.sockets now) ≡ false → (let at = later_moment h.sockets now in at.0) < (let end = after since 483000 in end.0)
        → (let left = after_tick h now in entry_of left.sockets id) ≡ connection_left h.sockets (table.Ticks (later_moment h.sockets now)) id c listener }
    ensures half_open_early { (h : HostView) (now : Moment) (id : SocketId) (c : View) (listener : Option SocketId) → IsSoundHost h → HasRun h → entry_of h.sockets id ≡ Some (connected id c listener) → (since : Moment) → c.unheard ≡ Some since
        → (c.passive && is_syn_received c.state) ≡ true → gives_up c (later_moment h.sockets now) ≡ false → (let at = later_moment h.sockets now in at.0) < (let end = after since 3000 in end.0)
        → (let left = after_tick h now in entry_of left.sockets id) ≡ connection_left h.sockets (table.Ticks (later_moment h.sockets now)) id c listener }
    ensures known { (h : HostView) (now : Moment) (id : SocketId) (c : View) (listener : Option SocketId) → IsSoundHost h → HasRun h → entry_of h.sockets id ≡ Some (connected id c listener)
        → lacks_hop h (later_moment h.sockets now) c.peer.addr ≡ false
        → (let left = after_tick h now in entry_of left.sockets id) ≡ connection_left h.sockets (table.Ticks (later_moment h.sockets now)) id c listener }
    ensures wakes { (h : HostView) (e : Entry) (c : View) (listener : Option SocketId) (until : Moment) → Contains h.sockets.entries e → e.role ≡ Connected c listener → lacks_hop h h.sockets.kept c.peer.addr ≡ true
        → waits_until c ≡ Some until → IsWokenBy h until }
{}
