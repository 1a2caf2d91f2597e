//! Laws of a host on its guard: each is the contract of a function that does nothing.

ghost use Rattle.std.specs.Prelude.{◌≡◌, ◌↔◌, ◌<◌, ℕ, true, false, length, List, Some, None, Result, Ok, Err};
ghost use Rattle.clock.specs.declared.moment.Moment.{Moment};
ghost use Rattle.clock.specs.Moments.{after};
ghost use Rattle.frames.specs.declared.drop.DropCause.{DropCause};
ghost use Rattle.frames.specs.declared.meaning.Meaning.{Meaning};
ghost use Rattle.frames.specs.declared.meaning.Meaning.TheVariants.{Tcp, UdpFragment};
ghost use Rattle.frames.specs.Meaning.{heard};
ghost use Rattle.frames.specs.declared.meaning.ReceivedSegment.{ReceivedSegment};
ghost use Rattle.interface.specs.Ways.{is_routed};
ghost use Rattle.ipv4.specs.Datagram.{Datagram};
ghost use Rattle.reassembly.specs.Fragments.{key_of};
ghost use Rattle.reassembly.specs.Lately.{was_whole};
ghost use Rattle.reassembly.specs.Places.{LosesOldest, fits, place_for};
ghost use Rattle.reassembly.specs.Reassembly.Outcome.{Completes};
ghost use Rattle.sockets.specs.GiveWay.{IsGivenFor};
ghost use Rattle.sockets.specs.Offered.{IsReached};
ghost use Rattle.sockets.specs.Order.{IsOrdered};
ghost use Rattle.sockets.specs.SocketsView.{later_moment};
ghost use Rattle.sockets.specs.declared.entry.Entry.{Entry};
ghost use Rattle.sockets.specs.declared.entry.SocketId.{SocketId};
ghost use Rattle.host.specs.Arrival.{IsDelivered, foreseen, IsLaid, MeetsHeard, fragment_outcome, is_late_copy, pool_for, with_noted};
ghost use Rattle.host.specs.GiveWay.{way_for, with_way, with_place, pair_of};
ghost use Rattle.host.specs.declared.lack.Lack.TheVariants.{Memory};
ghost use Rattle.host.specs.Heard.{heard_by, is_barred};
ghost use Rattle.host.specs.HostView.{HostView};
ghost use Rattle.host.specs.Lack.{lack};

/// On its guard a host drops, and learns nothing from, what comes from the address of a network on its link, or of all its hosts, and an ARP packet of a group's MAC or of its own, as what
/// comes from no single host (RFC 1122 section 3.2.1.3). All else is to it what it is to a host that isn't, and to that all is as it was.
pub fn what_comes_from_no_host_is_dropped()
    ensures barred { (h : HostView) (now : Moment) (isn : ℕ) (octets : List ℕ) (answer : Result (Unit {0}) DropCause) (new : HostView) → h.sockets.manner.guards ≡ true
        → is_barred h.interface (heard h.interface.mac h.interface.addr octets) ≡ true → IsDelivered h now isn octets answer new → (answer ≡ Err DropCause.OtherAddress) × (new ≡ h) }
    ensures others { (h : HostView) (octets : List ℕ) → is_barred h.interface (heard h.interface.mac h.interface.addr octets) ≡ false → heard_by h octets ≡ heard h.interface.mac h.interface.addr octets }
    ensures unguarded { (h : HostView) (octets : List ℕ) → h.sockets.manner.guards ≡ false → heard_by h octets ≡ heard h.interface.mac h.interface.addr octets }
{}

/// On guard one connection gives way to what a frame opens where that finds no room (RFC 9293 section 3.6.1, RFC 1122 section 4.2.2.13): the segment is a SYN from an address that a route
/// leads to, and what gives way is the oldest of its kind, that may. The SYN opens its pair then, if memory is there. Else nothing gives way, and without guards nothing does.
pub fn way_is_made_for_what_opens()
    ensures given { (h : HostView) (octets : List ℕ) (id : SocketId) → IsOrdered h.sockets → way_for h octets ≡ Some id
        → (r : ReceivedSegment) × (heard_by h octets ≡ Ok (Tcp r)) × (is_routed h.interface r.source ≡ true) × (x : Entry) × (x.id ≡ id) × IsGivenFor h.sockets r.source r.segment x }
    ensures opens { (h : HostView) (octets : List ℕ) (id : SocketId) → IsOrdered h.sockets → IsReached h.sockets → way_for h octets ≡ Some id
        → (foreseen (with_way h octets) octets ≡ pair_of h octets) × (lack (with_way h octets) octets ≡ Some Memory) }
    ensures none { (h : HostView) (octets : List ℕ) → way_for h octets ≡ None → with_way h octets ≡ h }
    ensures unguarded { (h : HostView) → h.sockets.manner.guards ≡ false → ((octets : List ℕ) → with_way h octets ≡ h) × (with_place h ≡ h) }
{}

/// On its guard a host finds a place for each fragment that a place has room for: where there is none the oldest of the datagrams that it puts together gives way, and none else; where there is one none
/// does, nor to one that reaches past that room. Of a datagram that a fragment made whole a late copy, within a second from then on, is taken and changes nothing. To a host that isn't on its guard all is as it was: a
/// fragment is laid into the pool where it has a place, and nothing gives way and nothing is noted. Each host's pool has as many places as its set-up says, as `laws::hosts_stay_within_their_limits` says; one without places takes no fragment.
pub fn an_old_reassembly_gives_way()
    ensures oldest { (h : HostView) (d : Datagram) → h.sockets.manner.guards ≡ true → fits h.pool d ≡ true → place_for d h.pool ≡ None → LosesOldest h.pool.places (let left = pool_for h.sockets.manner.guards d h.pool in left.places) }
    ensures none_else { (h : HostView) (d : Datagram) (place : ℕ) → place_for d h.pool ≡ Some place → pool_for h.sockets.manner.guards d h.pool ≡ h.pool }
    ensures too_long { (h : HostView) (d : Datagram) → fits h.pool d ≡ false → pool_for h.sockets.manner.guards d h.pool ≡ h.pool }
    ensures taken { (h : HostView) (now : Moment) (isn : ℕ) (octets : List ℕ) (d : Datagram) (answer : Result (Unit {0}) DropCause) (new : HostView) → h.sockets.manner.guards ≡ true → fits h.pool d ≡ true
        → heard_by h octets ≡ Ok (UdpFragment d) → IsDelivered h now isn octets answer new → (answer ≡ Ok tt) × (lack h octets ≡ None) }
    ensures late { (h : HostView) (now : Moment) (isn : ℕ) (octets : List ℕ) (d : Datagram) (answer : Result (Unit {0}) DropCause) (new : HostView) → is_late_copy h (later_moment h.sockets now) d ≡ true
        → heard_by h octets ≡ Ok (UdpFragment d) → IsDelivered h now isn octets answer new → new ≡ h }
    ensures known { (h : HostView) (now later : Moment) (isn : ℕ) (octets : List ℕ) (d : Datagram) (payload quote : List ℕ) (answer : Result (Unit {0}) DropCause) (new : HostView) → h.sockets.manner.guards ≡ true
        → heard_by h octets ≡ Ok (UdpFragment d) → fragment_outcome (later_moment h.sockets now) d h.pool ≡ Some (Completes payload quote) → IsDelivered h now isn octets answer new
        → (let end = after (later_moment h.sockets now) 1000 in later.0 < end.0) → was_whole (key_of d) later new.lately ≡ true }
    ensures unguarded { (h : HostView) (moment : Moment) (isn : ℕ) (d : Datagram) (answer : Result (Unit {0}) DropCause) (new : HostView) → h.sockets.manner.guards ≡ false
        → MeetsHeard (Ok (UdpFragment d)) h moment isn answer new ↔ IsLaid (fragment_outcome moment d h.pool) h moment d answer new }
    ensures unnoted { (h : HostView) (moment : Moment) (d : Datagram) → h.sockets.manner.guards ≡ false → with_noted h moment d ≡ h }
{}
