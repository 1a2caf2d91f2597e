//! Laws of the definitions that the contracts of this crate cite: each is the contract of a function that does nothing.

ghost use Rattle.std.specs.Prelude.{◌*◌, ◌≡◌, ◌≢◌, ◌⊎◌, ℕ, ◌+◌, ◌<◌, ◌≤◌, ◌||◌, false, true, IsTrue, List, [], ◌∷◌, ◌++◌, Contains, find, slice_get, length, take, Option, Some, None, option_map, Result, Ok, Err};
ghost use Rattle.std.specs.List.{list_any, AllByRecursion};
ghost use Rattle.ether.specs.declared.mac.Mac.{Mac};
ghost use Rattle.ether.specs.Frame.{Frame};
ghost use Rattle.ether.specs.Reading.{frame_in};
ghost use Rattle.ipv4.specs.declared.addr.Addr.{Addr};
ghost use Rattle.ipv4.specs.declared.addr.Endpoint.{Endpoint};
ghost use Rattle.ipv4.specs.Addresses.{IsUnicast};
ghost use Rattle.ipv4.specs.Datagram.{Datagram, header_octets};
ghost use Rattle.clock.specs.declared.moment.Moment.{Moment};
ghost use Rattle.clock.specs.Moments.{after, has_come};
ghost use Rattle.arp.specs.Cache.{after_age};
ghost use Rattle.icmp.specs.declared.error.Reason.{Reason};
ghost use Rattle.icmp.specs.declared.error.Reason.TheVariants.{ProtocolUnreachable, PortUnreachable};
ghost use Rattle.icmp.specs.MayAnswer.{MayAnswer};
ghost use Rattle.icmp.specs.Message.{Message, IsEchoRequest};
ghost use Rattle.icmp.specs.Sent.{RepliesTo, error_for};
ghost use Rattle.frames.specs.declared.drop.DropCause.{DropCause};
ghost use Rattle.frames.specs.declared.drop.DropCause.TheVariants.{NoRoom};
ghost use Rattle.frames.specs.declared.meaning.Control.{Control};
ghost use Rattle.frames.specs.declared.meaning.ReceivedSegment.{ReceivedSegment};
ghost use Rattle.frames.specs.declared.meaning.ReceivedDatagram.{ReceivedDatagram};
ghost use Rattle.frames.specs.declared.meaning.Meaning.{Meaning};
ghost use Rattle.frames.specs.declared.meaning.Meaning.TheVariants.{Tcp, Icmp, Udp, Other, UdpFragment};
ghost use Rattle.frames.specs.Meaning.{heard, broadcast};
ghost use Rattle.frames.specs.Pairs.{pair_in, pair_between};
ghost use Rattle.interface.specs.declared.reply.Reply.TheVariants.{Echo, Error};
ghost use Rattle.interface.specs.declared.reply.Waiting.{Waiting};
ghost use Rattle.interface.specs.Ways.{is_routed};
ghost use Rattle.interface.specs.Timing.{after_tick as interface_after_tick, least_deadline as reply_deadline};
ghost use Rattle.reassembly.specs.Places.{next_deadline as pool_deadline};
ghost use Rattle.tcp_segment.specs.declared.TheConstants.{MSS};
ghost use Rattle.tcp_state.specs.declared.calls.Refusal.{Refusal as SocketError};
ghost use Rattle.tcp_state.specs.Positions.{HasToSend};
ghost use Rattle.tcp_state.specs.View.{View};
ghost use Rattle.udp_socket.specs.Emission.{first_that};
ghost use Rattle.udp_socket.specs.SocketView.{Outgoing, SocketView};
ghost use Rattle.sockets.specs.declared.emission.Outgoing.{Outgoing as Due};
ghost use Rattle.sockets.specs.declared.emission.Outgoing.TheVariants as due;
ghost use Rattle.sockets.specs.declared.entry.Entry.{Entry};
ghost use Rattle.sockets.specs.declared.entry.SocketId.{SocketId};
ghost use Rattle.sockets.specs.declared.role.Role.{Role};
ghost use Rattle.sockets.specs.declared.role.Role.TheVariants.{Connected, Datagrams};
ghost use Rattle.sockets.specs.Causes.{Follows, pending_error_in, TellsStill};
ghost use Rattle.sockets.specs.Closing.{entry_of};
ghost use Rattle.sockets.specs.Emission.{in_turn};
ghost use Rattle.sockets.specs.Arrival.{local_end, peer_end};
ghost use Rattle.sockets.specs.Entries.{due_to, is_between, is_datagrams_at, is_listening_at, sends};
ghost use Rattle.sockets.specs.GivenUp.{waiting_datagrams};
ghost use Rattle.sockets.specs.Lost.{waiting_resets};
ghost use Rattle.sockets.specs.Offered.{IsReached};
ghost use Rattle.sockets.specs.Order.{IsOrdered};
ghost use Rattle.sockets.specs.Sound.{NoneIsOver};
ghost use Rattle.sockets.specs.Steps.{connected};
ghost use Rattle.sockets.specs.Timing.{EachKeepsTime, AreNear, NoneAsks};
ghost use Rattle.sockets.specs.Leaving.{EachLeavesAWindow};
ghost use Rattle.sockets.specs.SocketsView.{later_moment, role_of};
ghost use Rattle.sockets.specs.Ticks.{least_deadline as timer_deadline};
ghost use Rattle.sockets.specs.Traffic.{streams};
ghost use Rattle.host.specs.ConfigView.{ConfigView, IsConfig, IsOfOne};
ghost use Rattle.host.specs.HostView.{HostView, new_host, sizes_of, with_interface, with_sockets};
ghost use Rattle.host.specs.Arrival.{IsDelivered, MeetsSegment, segment_arrival};
ghost use Rattle.host.specs.Heard.{heard_by, shuts_out};
ghost use Rattle.host.specs.Carried.{Carried, carried};
ghost use Rattle.host.specs.Causes.{IsAbout};
ghost use Rattle.host.specs.ComesUp.{IsDueSoon, IsQuiet, ComesUp, ConnectionComesUp, HasEnded, WaitsSince, address_of, is_on_route, most_wait};
ghost use Rattle.host.specs.Emission.{Replies, Sends, Nothing, emission, emission_to, emission_len, after_emission, emission_octets, goes_out_from};
ghost use Rattle.host.specs.GivenUp.{gives_up};
ghost use Rattle.host.specs.declared.lack.Lack.{Lack};
ghost use Rattle.host.specs.declared.lack.Lack.TheVariants.{Memory};
ghost use Rattle.host.specs.Concerned.{concerned};
ghost use Rattle.host.specs.Lack.{IsLacking, lack};
ghost use Rattle.host.specs.Limits.{IsWithinLimits};
ghost use Rattle.host.specs.Messages.{errors_of};
ghost use Rattle.host.specs.Met.{IsLearntInVain, IsMetBy, IsNoEntry, IsOpenedAtMost, IsQuotedBy, StaysUnless};
ghost use Rattle.host.specs.Places.{Place, ReplyOf, EntryOf, places, places_in_turn, can_go_out};
ghost use Rattle.host.specs.Runs.{Event, HasRun, IsNumbered, IsUpTo, IsSized, LeadOn, Makes, Runs, WasHeard};
ghost use Rattle.host.specs.Turns.{sender, HasFrame, HasWaited};
ghost use Rattle.host.specs.Sound.{IsSoundHost};
ghost use Rattle.host.specs.Ticks.{after_tick, least_deadline, hop_deadline};

/// The layers compose. A frame that goes out with a segment is heard, where it is for, as the very segment that is meant, from our address, where
/// that isn't its own: so it is dropped there for nothing but lack of room, but by a host whose guards shut our address out, and the entry of its pair, or the rule for none, meets that segment. Whoever
/// else hears a segment in what goes out hears that one, at the address that it is for; and the pair that is read of the frame is that of
/// its two ends, or none where it carries none (RFC 9293 section 3.1). Every host is sound and its table in order, as `Host::sound` says.
pub fn layers_compose()
    ensures heard { (h : HostView) (now : Moment) (c : Carried) → IsSoundHost h → IsOrdered h.sockets → carried h now ≡ Some c → h.interface.addr ≢ c.to
        → heard c.mac c.to (emission_octets h now) ≡ Ok (Tcp (record { source = h.interface.addr; segment = c.segment })) }
    ensures met { (h g : HostView) (now then : Moment) (isn : ℕ) (c : Carried) (answer : Result (Unit {0}) DropCause) (new : HostView) → IsSoundHost h → IsOrdered h.sockets
        → carried h now ≡ Some c → h.interface.addr ≢ c.to → g.interface.mac ≡ c.mac → g.interface.addr ≡ c.to → shuts_out g h.interface.addr ≡ false → IsDelivered g then isn (emission_octets h now) answer new
        → let moment = later_moment g.sockets then in MeetsSegment (segment_arrival g moment isn h.interface.addr c.segment) g moment h.interface.addr answer new }
    ensures hearer { (h : HostView) (now : Moment) (mac : Mac) (ours : Addr) (received : ReceivedSegment) → IsSoundHost h → IsOrdered h.sockets
        → heard mac ours (emission_octets h now) ≡ Ok (Tcp received)
        → (c : Carried) × (carried h now ≡ Some c) × (ours ≡ c.to) × (received ≡ record { source = h.interface.addr; segment = c.segment }) }
    ensures pair { (h : HostView) (now : Moment) → IsSoundHost h → IsOrdered h.sockets
        → pair_in (emission_octets h now) ≡ option_map (λ c. pair_between h.interface.addr c.to c.segment) (carried h now) }
{}

/// What is due at a host is one list of places, and what goes out is for the first of them in turn for which a frame can: of the replies, and then of what the
/// entries have due, behind the one that sent last first. Nothing goes out only where one can for none of them.
pub fn the_first_place_goes_out()
    ensures reply { (h : HostView) (moment : Moment) (w : Waiting) → find (can_go_out h moment) (places_in_turn h) ≡ Some (ReplyOf w)
        → (place : ℕ) × (slice_get h.interface.replies place ≡ Some w) × (emission h moment ≡ Replies place) }
    ensures entry { (h : HostView) (moment : Moment) (e : Entry) (peer : Endpoint) (what : Due) → find (can_go_out h moment) (places_in_turn h) ≡ Some (EntryOf e peer what)
        → (find (in_turn h.sockets (sends (goes_out_from h moment))) h.sockets.entries ≡ Some e) × (due_to (goes_out_from h moment) e.role ≡ Some (peer, what)) × (emission h moment ≡ emission_to h moment (Some peer)) }
    ensures none { (h : HostView) (moment : Moment) → find (can_go_out h moment) (places h) ≡ None → emission h moment ≡ Nothing }
    ensures only { (h : HostView) (now : Moment) → emission_len h now ≡ None → find (can_go_out h (later_moment h.sockets now)) (places h) ≡ None }
{}

/// Between two frames of one entry every other for which a frame could go out all the while has sent: whatever happens behind a frame of the first, where each further emission passes over
/// an entry that waits, none is of the first. (Control replies and requests for hops are of no entry.)
pub fn turns_go_round()
    ensures { (h : HostView) (now : Moment) (first waiting : SocketId) → HasWaited first waiting h → HasRun h → waiting ≢ first → HasFrame waiting h now → sender h now ≢ Some first }
{}

/// The datagrams of a UDP socket to one address go out in the order of their `sendto`, as each stands behind those that were given before it: what goes
/// out of the socket is of the first datagram in it for whose address a frame can go out, so of none behind another to the same address, whether
/// it goes out itself or the request for its hop. (What stands first of those that are overtaken stays first of them: `udp_socket::laws::sent_in_order`.)
pub fn datagrams_to_one_address_go_out_in_order()
    ensures first { (h : HostView) (moment : Moment) (e : Entry) (peer : Endpoint) (place : ℕ) (bound : Option Endpoint) (socket : SocketView) → find (can_go_out h moment) (places_in_turn h) ≡ Some (EntryOf e peer (due.Datagram place))
        → e.role ≡ Datagrams bound socket → first_that (goes_out_from h moment) socket.outbox ≡ Some place }
    ensures others { (h : HostView) (moment : Moment) (e : Entry) (peer : Endpoint) (place before : ℕ) (bound : Option Endpoint) (socket : SocketView) (o : Outgoing) → find (can_go_out h moment) (places_in_turn h) ≡ Some (EntryOf e peer (due.Datagram place))
        → e.role ≡ Datagrams bound socket → before < place → slice_get socket.outbox before ≡ Some o → o.peer.addr ≢ peer.addr }
{}

/// Only a segment or a datagram that goes out itself changes the table: what a request goes out for waits as it is, and so does every entry while a control
/// reply goes out (RFC 1122 section 2.3.2.2).
pub fn requests_hold_nothing_back()
    ensures { (h : HostView) (now : Moment) → let moment = later_moment h.sockets now in ((mac : Mac) (to : Addr) → emission h moment ≢ Sends mac to)
        → (let after = after_emission h now in after.sockets) ≡ h.sockets }
{}

/// A frame that is dropped changes at most what is known of the neighbours (RFC 826), and that only where there was no room to answer its
/// request: it is an ARP packet that asks for our address, as many control replies wait as may, and its sender is learnt.
pub fn dropped_frames_change_the_cache_alone()
    ensures alone { (h : HostView) (now : Moment) (isn : ℕ) (octets : List ℕ) (cause : DropCause) (new : HostView) → IsDelivered h now isn octets (Err cause) new
        → new ≡ with_interface h (record h.interface { cache = (let after = new.interface in after.cache) }) }
    ensures unchanged { (h : HostView) (now : Moment) (isn : ℕ) (octets : List ℕ) (cause : DropCause) (new : HostView) → IsDelivered h now isn octets (Err cause) new
        → cause ≢ NoRoom → new ≡ h }
    ensures learnt { (h : HostView) (now : Moment) (isn : ℕ) (octets : List ℕ) (cause : DropCause) (new : HostView) → IsDelivered h now isn octets (Err cause) new
        → (new ≡ h) ⊎ IsLearntInVain h (later_moment h.sockets now) octets new }
{}

/// A frame is dropped for want of room exactly where there is something that it finds none at, as `Host::lack` tells it, but for memory, which may be refused or not. It finds the same after
/// that: so a program may ask once a frame was dropped, and then alone. What is named is lacking indeed.
pub fn want_of_room_has_its_reason()
    ensures only { (h : HostView) (now : Moment) (isn : ℕ) (octets : List ℕ) (new : HostView) → IsDelivered h now isn octets (Err NoRoom) new → (what : Lack) × (lack h octets ≡ Some what) }
    ensures always { (h : HostView) (now : Moment) (isn : ℕ) (octets : List ℕ) (answer : Result (Unit {0}) DropCause) (new : HostView) (what : Lack) → IsDelivered h now isn octets answer new
        → lack h octets ≡ Some what → what ≢ Memory → answer ≡ Err NoRoom }
    ensures still { (h : HostView) (now : Moment) (isn : ℕ) (octets : List ℕ) (new : HostView) → IsDelivered h now isn octets (Err NoRoom) new → lack new octets ≡ lack h octets }
    ensures named { (h : HostView) (octets : List ℕ) (what : Lack) → lack h octets ≡ Some what → IsLacking h what }
{}

/// Whatever octets come, they move one connection at most. A segment moves the one between its two ends alone (RFC 9293 section 3.10.7): every other entry of the table stays as it was, in order, that one
/// may leave, and behind all others one may join, which a SYN opens at a listener. An ICMP message moves the connection alone whose SYN it quotes, in SYN-SENT, where it says for good that the SYN can't be
/// delivered (RFC 1122 section 4.2.3.9). All else, whatever it is, leaves every TCP socket and every connection as it was, in order. (No two that aren't CLOSED lie between the same two ends,
/// and no two have one id: `IsOrdered`, which `Host::sound` says.)
pub fn segments_meet_one_connection()
    ensures segment { (h : HostView) (now : Moment) (isn : ℕ) (octets : List ℕ) (r : ReceivedSegment) (answer : Result (Unit {0}) DropCause) (new : HostView) → heard_by h octets ≡ Ok (Tcp r) → IsDelivered h now isn octets answer new
        → Follows (StaysUnless (IsMetBy h r)) (IsOpenedAtMost h r) h.sockets.entries new.sockets.entries }
    ensures message { (h : HostView) (now : Moment) (isn : ℕ) (octets : List ℕ) (c : Control) (answer : Result (Unit {0}) DropCause) (new : HostView) → heard_by h octets ≡ Ok (Icmp c) → IsDelivered h now isn octets answer new
        → Follows (StaysUnless (IsQuotedBy h c.message)) IsNoEntry h.sockets.entries new.sockets.entries }
    ensures others { (h : HostView) (now : Moment) (isn : ℕ) (octets : List ℕ) (answer : Result (Unit {0}) DropCause) (new : HostView)
        → ((r : ReceivedSegment) → heard_by h octets ≢ Ok (Tcp r)) → ((c : Control) → heard_by h octets ≢ Ok (Icmp c)) → IsDelivered h now isn octets answer new → streams new.sockets ≡ streams h.sockets }
{}

/// A host stays within its limits over every list of events, whatever is asked of it and whatever comes: as many sockets and connections at most as its set-up says, each with no more octets than its
/// buffers or its queues have room for, and no buffer larger than the set-up's; as many control replies of 1,472 octets at most, neighbours, and datagrams that are put together, of as many octets at most, as it
/// says; and 64 requests. But for a socket that is made and a connection
/// that is opened no call takes memory, so no frame makes a host grow past that.
pub fn hosts_stay_within_their_limits()
    ensures { (c : ConfigView) (events : List Event) (h : HostView) → IsConfig c → Runs c events h → IsSoundHost h → IsWithinLimits c.sizes h }
{}

/// The deadline is the least: it has come exactly where that of the timers has come, or that of the control replies, or that of the pool, or one of
/// those of the entries that wait for their hops.
pub fn deadline_is_the_least()
    ensures { (h : HostView) (now : Moment) → has_come (least_deadline h) now
        ≡ (has_come (timer_deadline h.sockets) now || has_come (reply_deadline h.interface h.sockets.kept) now || has_come (pool_deadline h.pool) now || list_any (λ e. has_come (hop_deadline h e) now) h.sockets.entries) }
{}

/// What is due comes up (RFC 1122 sections 2.3.2.1 and 2.3.2.2, RFC 9293 section 3.8). For each place that is due, to whose address a route leads, a frame can go out at
/// the kept moment, or the deadline is not after the moment from which its hop may be asked for again, which lies within a second of a request that was sent; or there is no such moment,
/// since a request of the clock's last moment stands in the way. Each control reply that waits is such a place, and so is each datagram that a UDP socket has to send. A connection with
/// something to send is one, or the deadline is not after that of its own timers. So where no frame can go out and there is no deadline, nothing waits for which there is a way, but for
/// an acknowledgement that is held at the end of the clock: who asks for frames until none goes out, and then sleeps until the deadline, leaves nothing behind.
///
/// No connection waits for its hop for ever (RFC 1122 section 4.2.3.5, RFC 9293 section 3.8.3): at a host that ticks at its deadlines none is in the table 483,000 ms after all of it that was to go out could not,
/// and none of those that a listener opened and that are not established after 3,000 ms. Until its deadline has come none has waited so long; a tick ends each that has: it is out of the table, or it is CLOSED and
/// each call is told ETIMEDOUT (`duties::waits_for_hops_end` says which); and so none is left by a tick that has.
pub fn what_is_due_comes_up()
    ensures place { (h : HostView) (place : Place) → HasRun h → Contains (places h) place → is_on_route h.interface.routes (address_of place) ≡ true → ComesUp h place }
    ensures reply { (h : HostView) (w : Waiting) → HasRun h → Contains h.interface.replies w → IsDueSoon h (ReplyOf w) }
    ensures datagram { (h : HostView) (e : Entry) (bound : Option Endpoint) (socket : SocketView) (place : ℕ) (o : Outgoing) → HasRun h → Contains h.sockets.entries e
        → e.role ≡ Datagrams bound socket → slice_get socket.outbox place ≡ Some o → IsTrue (is_routed h.interface o.peer.addr) → IsDueSoon h (EntryOf e o.peer (due.Datagram place)) }
    ensures connection { (h : HostView) (e : Entry) (c : View) (listener : Option SocketId) → IsSoundHost h → HasRun h → Contains h.sockets.entries e → e.role ≡ Connected c listener
        → IsTrue (is_routed h.interface c.peer.addr) → HasToSend c → ConnectionComesUp h e c }
    ensures in_time { (h : HostView) (now : Moment) (e : Entry) (c : View) (listener : Option SocketId) (since : Moment) → IsSoundHost h → HasRun h → Contains h.sockets.entries e → e.role ≡ Connected c listener
        → WaitsSince h h.sockets.kept c since → has_come (least_deadline h) now ≡ false → now.0 < (let end = after since (most_wait c) in end.0) }
    ensures ends { (h : HostView) (now : Moment) (id : SocketId) (c : View) (listener : Option SocketId) (since : Moment) → IsSoundHost h → HasRun h → entry_of h.sockets id ≡ Some (connected id c listener)
        → WaitsSince h (later_moment h.sockets now) c since → (let end = after since (most_wait c) in end.0) ≤ (let at = later_moment h.sockets now in at.0) → HasEnded (after_tick h now) id listener }
    ensures none_left { (h : HostView) (now : Moment) (e : Entry) (c : View) (listener : Option SocketId) (since : Moment) → IsSoundHost h → HasRun h → let left = after_tick h now in
        Contains left.sockets.entries e → e.role ≡ Connected c listener → WaitsSince left left.sockets.kept c since → left.sockets.kept.0 < (let end = after since (most_wait c) in end.0) }
    ensures never_silent { (h : HostView) → IsSoundHost h → HasRun h → find (can_go_out h h.sockets.kept) (places h) ≡ None → least_deadline h ≡ None → IsQuiet h }
{}

/// A tick before the deadline, at which no neighbour is forgotten, changes nothing but the kept moment. (One that forgets the hop of what waits,
/// since that was not heard for 20 minutes, may find the wait over at once.)
pub fn ticks_wait()
    ensures { (h : HostView) (now : Moment) → let moment = later_moment h.sockets now in has_come (least_deadline h) moment ≡ false → after_age moment h.interface.cache ≡ h.interface.cache
        → after_tick h now ≡ with_sockets h (record h.sockets { kept = moment }) }
{}

/// What a tick gives up, as `Host::gives_up` tells before it, is gone, and all else waits on: of the control replies, where errors about datagrams whose time ran out join them only then; of the resets of aborts;
/// and of the datagrams. The timers, which act first, make and take nothing of it. Every host is sound, and each of its connections keeps its time, as `Host::sound` says.
pub fn what_is_given_up_is_told()
    ensures replies { (h : HostView) (now : Moment) → let left = interface_after_tick h.interface (later_moment h.sockets now) in let given = gives_up h now in
        length h.interface.replies ≡ length left.replies + given.replies }
    ensures resets { (h : HostView) (now : Moment) → IsSoundHost h → EachKeepsTime h.sockets → let left = after_tick h now in let given = gives_up h now in
        length (waiting_resets h.sockets) ≡ length (waiting_resets left.sockets) + given.resets }
    ensures datagrams { (h : HostView) (now : Moment) → let left = after_tick h now in let given = gives_up h now in
        length (waiting_datagrams h.sockets) ≡ length (waiting_datagrams left.sockets) + given.datagrams }
{}

/// What is answered by an error may be (RFC 1122 section 3.2.2). A datagram that nothing takes, a whole UDP datagram and a fragment zero carry no
/// ICMP message, are for one host, are no later fragments and come from one host; and no frame for all of the link brings one. Nothing else
/// that is heard adds an error to the control replies: no segment does, and no message, which may be an error itself.
pub fn answered_datagrams_may_be()
    ensures may { (mac : Mac) (ours : Addr) (octets : List ℕ) (reason : Reason) (d : Datagram) (meaning : Meaning) → IsUnicast ours
        → heard mac ours octets ≡ Ok meaning → IsAbout reason d meaning → MayAnswer d false }
    ensures link { (mac : Mac) (ours : Addr) (octets : List ℕ) (reason : Reason) (d : Datagram) (meaning : Meaning) (f : Frame) → IsOfOne mac
        → heard mac ours octets ≡ Ok meaning → IsAbout reason d meaning → frame_in octets ≡ Some f → f.destination ≢ broadcast }
    ensures others { (h : HostView) (now : Moment) (isn : ℕ) (octets : List ℕ) (answer : Result (Unit {0}) DropCause) (new : HostView)
        → ((d : Datagram) → heard_by h octets ≢ Ok (Other d)) → ((r : ReceivedDatagram) → heard_by h octets ≢ Ok (Udp r)) → ((d : Datagram) → heard_by h octets ≢ Ok (UdpFragment d))
        → IsDelivered h now isn octets answer new → errors_of new ≡ errors_of h }
{}

/// Over every list of events of a host its table is one that events of the table lead to, none of them refused. So it is in order, nothing of it is over, and each law of
/// tables that are reached is one of it. And each of its connections keeps its time and its congestion window. There is such a list for every host, as
/// `Host::sound` says.
pub fn tables_are_reached()
    ensures event { (event : Event) (old new : HostView) → IsSoundHost old → IsNumbered event → Makes event old new → IsReached old.sockets → IsReached new.sockets }
    ensures timed { (event : Event) (old new : HostView) → IsSoundHost old → IsNumbered event → Makes event old new → EachKeepsTime old.sockets → EachKeepsTime new.sockets }
    ensures reached { (c : ConfigView) (events : List Event) (h : HostView) → Runs c events h → IsReached h.sockets }
    ensures ordered { (c : ConfigView) (events : List Event) (h : HostView) → Runs c events h → IsOrdered h.sockets }
    ensures over { (c : ConfigView) (events : List Event) (h : HostView) → Runs c events h → NoneIsOver h.sockets }
    ensures keeps_time { (c : ConfigView) (events : List Event) (h : HostView) → Runs c events h → EachKeepsTime h.sockets }
{}

/// No timer of a connection of a host runs until later than a minute past the latest moment that the host was told of, and no wait is counted from a later one: nothing happened to a new host, each event
/// keeps it, and so it is over every list of events. So none of the deadlines that they give lies more than a day past it, and none more than 240,000 ms, the time that TIME-WAIT lasts (RFC 9293 section 3.4.2), where no silent peer is asked. Where no event names a
/// moment but one that the host keeps by then, since a tick told it, that latest moment is the one that it keeps.
pub fn timers_lie_near()
    ensures fresh { (c : ConfigView) (latest : Moment) → let h = new_host c in AreNear latest h.sockets }
    ensures event { (event : Event) (old new : HostView) (latest : Moment) → IsSoundHost old → IsNumbered event → IsUpTo latest event → Makes event old new → AreNear latest old.sockets → AreNear latest new.sockets }
    ensures over { (c : ConfigView) (events : List Event) (h : HostView) (latest : Moment) → Runs c events h → AllByRecursion (IsUpTo latest) events → AreNear latest h.sockets }
    ensures deadline { (c : ConfigView) (events : List Event) (h : HostView) (latest moment : Moment) → Runs c events h → AllByRecursion (IsUpTo latest) events → NoneAsks h.sockets → timer_deadline h.sockets ≡ Some moment → moment.0 ≤ latest.0 + 240000 }
    ensures asking { (c : ConfigView) (events : List Event) (h : HostView) (latest moment : Moment) → Runs c events h → AllByRecursion (IsUpTo latest) events → timer_deadline h.sockets ≡ Some moment → moment.0 ≤ latest.0 + 86400000 }
{}

/// An open connection of a host of which nothing is due, and that has nothing to be read, leaves its peer a window of a segment at least, whether it has spoken or not (`sockets::laws::quiet_readers_leave_a_window`): so it is in a new host, over each event, and over every
/// list of them, where its buffers have room for three segments and none makes a socket of less room. For what is heard of a frame is a segment of 1,460 octets at most.
pub fn quiet_readers_leave_a_window()
    ensures fresh { (c : ConfigView) → let h = new_host c in EachLeavesAWindow h.sockets }
    ensures heard { (mac : Mac) (ours : Addr) (octets : List ℕ) (r : ReceivedSegment) → heard mac ours octets ≡ Ok (Tcp r) → length r.segment.octets ≤ MSS }
    ensures event { (event : Event) (old new : HostView) → IsSoundHost old → 3 * MSS ≤ old.sockets.sizes.buffer → IsNumbered event → IsSized event → Makes event old new → EachLeavesAWindow old.sockets → EachLeavesAWindow new.sockets }
    ensures over { (c : ConfigView) (events : List Event) (h : HostView) → 3 * MSS ≤ c.sizes.buffer → Runs c events h → AllByRecursion IsSized events → EachLeavesAWindow h.sockets }
{}

/// The error that a connection of a host tells, it tells for good: over each event, and over every list of events that leads on from the host, whatever entry has its id then is one of a connection that tells
/// it. So whatever socket the id names then tells it, and none but its close or its removal ends that. (`sockets::laws::errors_are_reported_first` has the calls that tell it.)
pub fn errors_told_stay()
    ensures event { (event : Event) (old new : HostView) (id : SocketId) (error : SocketError) → IsSoundHost old → IsNumbered event → Makes event old new → EachKeepsTime old.sockets → id.0 ≤ old.sockets.last_id
        → TellsStill id error old.sockets → TellsStill id error new.sockets }
    ensures given { (event : Event) (old new : HostView) → IsSoundHost old → IsNumbered event → Makes event old new → old.sockets.last_id ≤ new.sockets.last_id }
    ensures over { (h last : HostView) (events : List Event) (id : SocketId) (error : SocketError) → HasRun h → LeadOn h events last → id.0 ≤ h.sockets.last_id → TellsStill id error h.sockets → TellsStill id error last.sockets }
    ensures socket { (h last : HostView) (events : List Event) (id : SocketId) (c : View) (listener : Option SocketId) (error : SocketError) → HasRun h → LeadOn h events last → role_of h.sockets id ≡ Some (Connected c listener)
        → c.pending_error ≡ Some error → (role : Role) → role_of last.sockets id ≡ Some role → pending_error_in role ≡ Some error }
{}

/// A host keeps its set-up: over every list of events its MAC, the address on both of its sides, its routes, how its connections behave and how large it is are those that it was made with.
pub fn set_ups_stay()
    ensures { (c : ConfigView) (events : List Event) (h : HostView) → Runs c events h
        → (h.interface.mac ≡ c.mac) × (h.interface.addr ≡ c.addr) × (h.sockets.addr ≡ c.addr) × (h.interface.routes ≡ c.routes) × (h.sockets.manner ≡ c.manner) × (sizes_of h ≡ c.sizes) }
{}

/// An echo reply has its request, over every list of events of a host (RFC 792). Whoever hears one in what the host gives out is at an address
/// from which an echo request was delivered to the host, with the very identifier, number and data of the reply. And a request that is taken, to
/// whose source a route leads, has its reply behind all others that wait.
pub fn echo_replies_have_requests()
    ensures request { (c : ConfigView) (events : List Event) (h : HostView) (now : Moment) (mac : Mac) (ours : Addr) (reply : Control)
        → Runs c events h → IsSoundHost h → heard mac ours (emission_octets h now) ≡ Ok (Icmp reply) → reply.message.kind ≡ 0
        → (request : Message) × WasHeard c events (Icmp (record { source = ours; message = request })) × IsEchoRequest request × RepliesTo reply.message request }
    ensures reply { (h : HostView) (now : Moment) (isn : ℕ) (octets : List ℕ) (c : Control) (new : HostView) → heard_by h octets ≡ Ok (Icmp c)
        → IsEchoRequest c.message → IsTrue (is_routed h.interface c.source) → IsDelivered h now isn octets (Ok tt) new
        → let reply = Echo c.source c.message.identifier c.message.number c.message.payload in
        new.interface.replies ≡ h.interface.replies ++ record { since = later_moment h.sockets now; reply = reply } ∷ [] }
{}

/// An error has its cause, over every list of events of a host (RFC 792). Whoever hears another ICMP message than an echo reply in what the
/// host gives out is at an address from which a datagram was delivered to the host, and the message is the error about that datagram, for
/// its reason: nothing there takes the datagram; it is a whole UDP datagram, or the fragment zero of one, and its port is unreachable; or
/// the time for its other fragments ran out.
pub fn errors_have_causes()
    ensures { (c : ConfigView) (events : List Event) (h : HostView) (now : Moment) (mac : Mac) (ours : Addr) (error : Control)
        → Runs c events h → IsSoundHost h → heard mac ours (emission_octets h now) ≡ Ok (Icmp error) → error.message.kind ≢ 0
        → (reason : Reason) × (d : Datagram) × (meaning : Meaning) × IsAbout reason d meaning × WasHeard c events meaning × (d.source ≡ ours)
        × (error.message ≡ error_for reason (header_octets d) d.payload) }
{}

/// A datagram for which a host has no use is reported to its source, where a route leads there: one of a protocol that it hasn't, and a whole UDP datagram to whose port no socket is bound (RFC 1122
/// sections 3.2.2.1 and 4.1.3.1). Once it is taken, the error stands behind all other replies that wait, and quotes its header and 8 octets behind it.
pub fn unusable_datagrams_are_reported()
    ensures protocol { (h : HostView) (now : Moment) (isn : ℕ) (octets : List ℕ) (d : Datagram) (new : HostView) → heard_by h octets ≡ Ok (Other d)
        → IsTrue (is_routed h.interface d.source) → IsDelivered h now isn octets (Ok tt) new
        → let reply = Error d.source ProtocolUnreachable (header_octets d ++ take 8 d.payload) in
        new.interface.replies ≡ h.interface.replies ++ record { since = later_moment h.sockets now; reply = reply } ∷ [] }
    ensures port { (h : HostView) (now : Moment) (isn : ℕ) (octets : List ℕ) (u : ReceivedDatagram) (new : HostView) → heard_by h octets ≡ Ok (Udp u)
        → find (is_datagrams_at u.datagram.destination) h.sockets.entries ≡ None → IsTrue (is_routed h.interface u.carrier.source) → IsDelivered h now isn octets (Ok tt) new
        → let reply = Error u.carrier.source PortUnreachable (header_octets u.carrier ++ take 8 u.carrier.payload) in
        new.interface.replies ≡ h.interface.replies ++ record { since = later_moment h.sockets now; reply = reply } ∷ [] }
{}

/// `Host::concerns` names the socket that a frame may change: that of the connection between the segment's two ends, or the listener at which that waits, or at which the segment opens one; or the socket at the port of a UDP datagram.
pub fn frames_concern_their_socket()
    ensures socket { (h : HostView) (octets : List ℕ) (r : ReceivedSegment) (x : Entry) (c : View) → heard_by h octets ≡ Ok (Tcp r) → find (is_between (local_end h.sockets r.segment) (peer_end r.source r.segment)) h.sockets.entries ≡ Some x
        → x.role ≡ Connected c None → c.released ≡ false → concerned h octets ≡ Some x.id }
    ensures waiting { (h : HostView) (octets : List ℕ) (r : ReceivedSegment) (x : Entry) (c : View) (listener : SocketId) → heard_by h octets ≡ Ok (Tcp r) → find (is_between (local_end h.sockets r.segment) (peer_end r.source r.segment)) h.sockets.entries ≡ Some x
        → x.role ≡ Connected c (Some listener) → concerned h octets ≡ Some listener }
    ensures opening { (h : HostView) (octets : List ℕ) (r : ReceivedSegment) (x : Entry) → heard_by h octets ≡ Ok (Tcp r) → find (is_between (local_end h.sockets r.segment) (peer_end r.source r.segment)) h.sockets.entries ≡ None
        → r.segment.flags.syn ≡ true → r.segment.flags.rst ≡ false → r.segment.flags.ack ≡ false → find (is_listening_at r.segment.destination) h.sockets.entries ≡ Some x → concerned h octets ≡ Some x.id }
    ensures datagram { (h : HostView) (octets : List ℕ) (r : ReceivedDatagram) (x : Entry) → heard_by h octets ≡ Ok (Udp r) → find (is_datagrams_at r.datagram.destination) h.sockets.entries ≡ Some x → concerned h octets ≡ Some x.id }
{}
