//! Laws over the definitions alone: functions with nothing to do, whose contracts are the laws.

ghost use Rattle.std.specs.Prelude.{◌≡◌, ℕ, ◌<◌, ◌^◌, true, false, List, [], Some, None, is_some, Result, Ok};
ghost use Rattle.clock.specs.declared.moment.Moment.{Moment};
ghost use Rattle.ether.specs.declared.mac.Mac.{Mac};
ghost use Rattle.ipv4.specs.declared.addr.Addr.{Addr};
ghost use Rattle.tcp_segment.specs.Segment.{Segment};
ghost use Rattle.frames.specs.declared.drop.DropCause.{DropCause};
ghost use Rattle.frames.specs.declared.meaning.Meaning.TheVariants.{Tcp};
ghost use Rattle.interface.specs.InterfaceView.{InterfaceView};
ghost use Rattle.interface.specs.declared.way.Way.TheVariants.{To};
ghost use Rattle.interface.specs.Ways.{knows_hop, hop_mac, way};
ghost use Rattle.tcp_state.specs.declared.emission.Due.{Due};
ghost use Rattle.tcp_state.specs.View.{View, is_opening, is_closed};
ghost use Rattle.tcp_state.specs.Due.{first_due};
ghost use Rattle.tcp_state.specs.Edges.{Event, after_event};
ghost use Rattle.tcp_state.specs.Said.{segment_of};
ghost use Rattle.sockets.specs.declared.entry.SocketId.{SocketId};
ghost use Rattle.sockets.specs.declared.role.Role.TheVariants.{Connected};
ghost use Rattle.sockets.specs.SocketsView.{later_moment, role_of};
ghost use Rattle.host.specs.HostView.{HostView};
ghost use Rattle.host.specs.Arrival.{IsDelivered};
ghost use Rattle.host.specs.Heard.{heard_by};
ghost use Rattle.host.specs.Carried.{carried};
ghost use Rattle.host.specs.Emission.{emission_len, after_emission};
ghost use Rattle.host.specs.Ticks.{after_tick};
ghost use Rattle.host.specs.Runs.{HasRun};
ghost use Rattle.host.specs.Sound.{IsSoundHost};
ghost use Rattle.round_law.specs.Alone.{IsKept, IsAlone, IsFor};
ghost use Rattle.round_law.specs.Exchange.{Hosts, IsExchange, minute_past};
ghost use Rattle.round_law.specs.Progress.{IsQuiet, IsHeardLately, MayMove, HasMoved};

/// An exchange without loss moves data: once a minute has passed at two quiet hosts, all that is due at the writer's has come to the reader's, and all that is due there has come back, both connections are in the states in which they
/// were, and there are octets to be read, or the writer holds fewer than before (RFC 9293 sections 3.4, 3.8.1, 3.8.6 and 3.10.7.4). For after the minute the oldest octet that is held goes out first; what comes of it is taken, or
/// acknowledged at once; and that goes out first and frees it.
pub fn an_exchange_moves_data()
    ensures { (old new : Hosts) (writer_id reader_id : SocketId) (v d : View) → MayMove old writer_id reader_id v d → IsExchange old new → HasMoved new writer_id reader_id v d }
{}

/// Every sound host that its own events led to keeps of itself what is asked of both hosts at every moment. (That every `Host` is one `Host::sound` says.)
pub fn hosts_keep_themselves()
    ensures { (h : HostView) → IsSoundHost h → HasRun h → IsKept h }
{}

/// At a quiet host the connection of the socket is alone; and one that is alone is that of its socket.
pub fn quiet_connections_are_alone()
    ensures alone { (h : HostView) (id : SocketId) (c : View) (mac : Mac) → IsQuiet h id c mac → IsAlone h id c }
    ensures named { (h : HostView) (id : SocketId) (c : View) → IsAlone h id c → role_of h.sockets id ≡ Some (Connected c None) }
{}

/// A neighbour that was heard less than 1,100,000 milliseconds ago is known a minute later (RFC 1122 section 2.3.2.1).
pub fn neighbours_heard_lately_are_known()
    ensures { (i : InterfaceView) (now : Moment) (to : Addr) (mac : Mac) → IsHeardLately i now to mac → now.0 < 2 ^ 63 → hop_mac i (minute_past now) to ≡ Some mac }
{}

/// A tick of a host where a connection is alone is a tick of that connection, which is alone afterwards, where it goes on and its hop is known: nothing else of the table changes.
pub fn a_tick_is_one_of_the_connection()
    ensures { (h : HostView) (id : SocketId) (c : View) (now : Moment) → IsKept h → IsAlone h id c → let moment = later_moment h.sockets now in knows_hop h.interface moment c.peer.addr ≡ true
        → is_closed (after_event c (Event.Ticks moment)).state ≡ false → IsAlone (after_tick h now) id (after_event c (Event.Ticks moment)) }
{}

/// Where no control reply waits, what is due first of a connection that is alone goes out of its host first, in a frame to the MAC of its hop, and the connection is alone afterwards; where nothing is due, nothing goes out.
pub fn what_is_due_goes_out()
    ensures due { (h : HostView) (id : SocketId) (c : View) (now : Moment) (due : Due) (mac : Mac) → IsAlone h id c → h.interface.replies ≡ [] → first_due c ≡ Some due → let moment = later_moment h.sockets now in way h.interface moment c.peer.addr ≡ To mac
        → (carried h now ≡ Some (record { mac = mac; to = c.peer.addr; segment = segment_of c due })) × (is_some (emission_len h now) ≡ true) × IsAlone (after_emission h now) id (after_event c (Event.Emits moment)) }
    ensures nothing { (h : HostView) (id : SocketId) (c : View) (now : Moment) → IsAlone h id c → h.interface.replies ≡ [] → first_due c ≡ None → emission_len h now ≡ None }
{}

/// A frame that is heard as a segment for a connection that is alone, past its opening, is taken, and that connection hears it; it is alone afterwards, where the segment doesn't end it.
pub fn what_comes_is_heard()
    ensures { (h : HostView) (id : SocketId) (c : View) (now : Moment) (isn : ℕ) (octets : List ℕ) (source : Addr) (s : Segment) (answer : Result (Unit {0}) DropCause) (new : HostView) → IsAlone h id c → IsFor h c source s
        → is_opening c.state ≡ false → heard_by h octets ≡ Ok (Tcp (record { source = source; segment = s })) → IsDelivered h now isn octets answer new
        → let w = after_event c (Event.Hears s (later_moment h.sockets now)) in is_closed w.state ≡ false → (answer ≡ Ok tt) × IsAlone new id w }
{}
