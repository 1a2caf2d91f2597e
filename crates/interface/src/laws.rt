//! Laws of the definitions that the contracts of this crate cite: each is the contract of a function that does nothing.

ghost use Rattle.std.specs.Prelude.{◌≡◌, ◌≢◌, ◌↔◌, ◌⊎◌, ℕ, ◌+◌, ◌*◌, ◌%◌, ◌^◌, ◌<◌, ◌≤◌, ◌++◌, [], ◌∷◌, List, length, position, fold, slice_index, All, Contains, IsTrue, IfSome, true, false, Option, Some, None, Ok};
ghost use Rattle.ether.specs.declared.mac.Mac.{Mac};
ghost use Rattle.ipv4.specs.declared.limits.TheConstants.{PAYLOAD_IN_FRAME};
ghost use Rattle.ipv4.specs.declared.addr.Addr.{Addr};
ghost use Rattle.icmp.specs.declared.error.Reason.{Reason};
ghost use Rattle.icmp.specs.Sent.{echo_reply, error_for};
ghost use Rattle.tcp_segment.specs.declared.head.Head.{Head};
ghost use Rattle.tcp_segment.specs.Sent.{CanBeSent, sent_segment, sent_octets, sent_offset};
ghost use Rattle.udp.specs.declared.cutting.Part.{Part};
ghost use Rattle.udp.specs.Datagram.{UserDatagram, Spells};
ghost use Rattle.clock.specs.declared.moment.Moment.{Moment};
ghost use Rattle.arp.specs.declared.packet.ArpPacket.{ArpPacket};
ghost use Rattle.arp.specs.declared.packet.Operation.TheVariants as operation;
ghost use Rattle.arp.specs.declared.entry.Asked.{Asked};
ghost use Rattle.arp.specs.Cache.{is_live, may_ask, after_age, after_ask, requests_left, IsNextAsk};
ghost use Rattle.arp.specs.Waits.{next_ask};
ghost use Rattle.arp.specs.Events.{Event, moment_of, after_event};
ghost use Rattle.arp.specs.Packet.{HasWidths, request_of};
ghost use Rattle.routes.specs.declared.route.Route.{Route};
ghost use Rattle.routes.specs.declared.route.Hop.{Hop};
ghost use Rattle.routes.specs.declared.route.Hop.TheVariants.{Direct, Gateway};
ghost use Rattle.routes.specs.Routes.{IsTable, Picks};
ghost use Rattle.frames.specs.declared.meaning.Meaning.TheVariants as meaning;
ghost use Rattle.frames.specs.Heard.{MaySend};
ghost use Rattle.frames.specs.Meaning.{heard};
ghost use Rattle.frames.specs.Sent.{IsPart, part_datagram};
ghost use Rattle.interface.specs.declared.room.TheConstants.{ECHO_ROOM};
ghost use Rattle.interface.specs.declared.reply.Reply.TheVariants.{Arp, Reset, Echo, Error};
ghost use Rattle.interface.specs.declared.reply.Waiting.{Waiting};
ghost use Rattle.interface.specs.declared.way.Way.TheVariants.{To, Ask, Waits};
ghost use Rattle.interface.specs.InterfaceView.{InterfaceView};
ghost use Rattle.interface.specs.Sound.{IsSound, IsSoundEcho, IsSoundError};
ghost use Rattle.interface.specs.Routing.{pick, next_hop};
ghost use Rattle.interface.specs.Ways.{hop_mac, knows_hop, way};
ghost use Rattle.interface.specs.Replies.{is_due};
ghost use Rattle.interface.specs.Emission.{asked, head_to, way_at, len_at, frame_at, after_emission, segment_frame_to, part_frame_to, request_frame, reply_frame, frames_left};
ghost use Rattle.interface.specs.Strangers.{IsLinkEnd, is_no_host, is_no_neighbours};
ghost use Rattle.interface.specs.Timing.{end_of, after_tick, asked_until, deadline_of, least_deadline};

/// The hop that a table of routes picks for an address is the one that `Routes::pick` answers (RFC 4632 section 5.1).
pub fn one_route()
    ensures { (table : List Route) (addr : Addr) (hop : Option Hop) → IsTable table → Picks table addr hop → pick table addr ≡ hop }
{}

/// What is for an address goes to that address itself where the best route is a direct one, else to the best route's gateway, and nowhere where no route leads to it (RFC 1122 section
/// 3.3.1.1).
pub fn gateways_lead_on()
    ensures direct { (table : List Route) (to : Addr) → IsTable table → Picks table to (Some Direct) → next_hop table to ≡ Some to }
    ensures gateway { (table : List Route) (to gateway : Addr) → IsTable table → Picks table to (Some (Gateway gateway)) → next_hop table to ≡ Some gateway }
    ensures none { (table : List Route) (to : Addr) → IsTable table → Picks table to None → next_hop table to ≡ None }
{}

/// An address is no host's exactly where a network on the link has it as its own, or as that of all its hosts: each bit past the network's prefix is 0, or each is 1, and the prefix has 30 bits at most (RFC 1122 section 3.2.1.3, RFC 3021).
pub fn only_link_ends_are_no_hosts()
    ensures { (h : InterfaceView) (addr : Addr) → length addr.0 ≡ 4 → All (λ octet. octet < 256) addr.0 → (is_no_host h addr ≡ true) ↔ IsLinkEnd h addr }
{}

/// An ARP packet is no neighbour's exactly where it comes from the MAC of a group, of which the lowest bit of the first octet is set (IEEE 802), from our own MAC, or from an address that is no host's.
pub fn only_strangers_are_no_neighbours()
    ensures { (h : InterfaceView) (packet : ArpPacket) → (is_no_neighbours h packet ≡ true)
        ↔ ((slice_index packet.sender_mac.0 0 % 2 ≡ 1) ⊎ (packet.sender_mac ≡ h.mac) ⊎ (is_no_host h packet.sender_addr ≡ true)) }
{}

/// The MAC of a next hop that is known is a whole one, as `Interface::sound` says of each that is kept.
pub fn known_macs_are_whole()
    ensures { (h : InterfaceView) (now : Moment) (to : Addr) (mac : Mac) → IsSound h → hop_mac h now to ≡ Some mac → length mac.0 ≡ 6 }
{}

/// Whether a hop is known doesn't depend on whether the cache was aged at that moment (RFC 1122 section 2.3.2.1).
pub fn aging_hides_no_hop()
    ensures { (h : InterfaceView) (now : Moment) (to : Addr) → knows_hop (record h { cache = after_age now h.cache }) now to ≡ knows_hop h now to }
{}

/// No tick drops a reply whose 3,000 ms aren't over, wherever it goes, nor an ARP reply at any time, nor another whose hop is known then.
pub fn nothing_is_lost_early()
    ensures early { (h : InterfaceView) (now : Moment) (w : Waiting) → Contains h.replies w → now.0 < (end_of w).0
        → Contains (after_tick h now).replies w }
    ensures packet { (h : InterfaceView) (now : Moment) (since : Moment) (packet : ArpPacket) → let w : Waiting = record { since = since; reply = Arp packet } in
        Contains h.replies w → Contains (after_tick h now).replies w }
    ensures known { (h : InterfaceView) (now : Moment) (since : Moment) (to : Addr) (head : Head) → let w : Waiting = record { since = since; reply = Reset to head } in
        Contains h.replies w → IsTrue (knows_hop h now to) → Contains (after_tick h now).replies w }
    ensures known_echo { (h : InterfaceView) (now : Moment) (since : Moment) (to : Addr) (identifier number : ℕ) (octets : List ℕ)
        → let w : Waiting = record { since = since; reply = Echo to identifier number octets } in
        Contains h.replies w → IsTrue (knows_hop h now to) → Contains (after_tick h now).replies w }
    ensures known_error { (h : InterfaceView) (now : Moment) (since : Moment) (to : Addr) (reason : Reason) (quoted : List ℕ)
        → let w : Waiting = record { since = since; reply = Error to reason quoted } in
        Contains h.replies w → IsTrue (knows_hop h now to) → Contains (after_tick h now).replies w }
{}

/// A reset, an echo reply or an error whose hop isn't known at a tick 3,000 ms after it was queued, or later, is gone then.
pub fn nothing_waits_for_ever()
    ensures reset { (h : InterfaceView) (now : Moment) (since : Moment) (to : Addr) (head : Head) → let w : Waiting = record { since = since; reply = Reset to head } in
        knows_hop h now to ≡ false → (end_of w).0 ≤ now.0 → ¬ Contains (after_tick h now).replies w }
    ensures echo { (h : InterfaceView) (now : Moment) (since : Moment) (to : Addr) (identifier number : ℕ) (octets : List ℕ)
        → let w : Waiting = record { since = since; reply = Echo to identifier number octets } in
        knows_hop h now to ≡ false → (end_of w).0 ≤ now.0 → ¬ Contains (after_tick h now).replies w }
    ensures error { (h : InterfaceView) (now : Moment) (since : Moment) (to : Addr) (reason : Reason) (quoted : List ℕ)
        → let w : Waiting = record { since = since; reply = Error to reason quoted } in
        knows_hop h now to ≡ false → (end_of w).0 ≤ now.0 → ¬ Contains (after_tick h now).replies w }
{}

/// What goes out is for the first reply for which anything can: each before it waits, and for it a frame of 60 octets or more goes out.
/// Where it goes out itself, what waited before it and behind it stays, in order.
pub fn replies_leave_in_order()
    ensures first { (h : InterfaceView) (now : Moment) (place k : ℕ) → position (is_due h now) h.replies ≡ Some place → k < place
        → way_at h now k ≡ Waits }
    ensures goes { (h : InterfaceView) (now : Moment) (place : ℕ) → position (is_due h now) h.replies ≡ Some place
        → (place < length h.replies) × (60 ≤ len_at h now place) }
    ensures none { (h : InterfaceView) (now : Moment) (k : ℕ) → position (is_due h now) h.replies ≡ None → way_at h now k ≡ Waits }
    ensures left { (h : InterfaceView) (now : Moment) (before after : List Waiting) (w : Waiting) (mac : Mac) → h.replies ≡ before ++ w ∷ after
        → way_at h now (length before) ≡ To mac → (after_emission h now (length before)).replies ≡ before ++ after }
{}

/// A request stands in the place of what it holds back: that stays as it is, in its place, and the note of the request is all that changes
/// (RFC 1122 section 2.3.2.2).
pub fn requests_hold_nothing_back()
    ensures frame { (h : InterfaceView) (now : Moment) (place : ℕ) (hop : Addr) → way_at h now place ≡ Ask hop → frame_at h now place ≡ request_frame h hop }
    ensures left { (h : InterfaceView) (now : Moment) (place : ℕ) (hop : Addr) → way_at h now place ≡ Ask hop
        → after_emission h now place ≡ record h { cache = record { most = h.cache.most; pairs = h.cache.pairs; asked = (after_ask now hop h.cache).asked } } }
{}

/// A neighbour is asked for only where a request for it may go out, and once it was asked for, not again within the second, nor, at any moment
/// of the clock, at the very moment of the request, whatever is heard, asked for or aged meanwhile (RFC 1122 section 2.3.2.1).
pub fn asked_once_a_second()
    ensures allowed { (h : InterfaceView) (now : Moment) (to hop : Addr) → way h now to ≡ Ask hop → IsTrue (may_ask now hop h.cache.asked) }
    ensures once { (h : InterfaceView) (now later : Moment) (to hop : Addr) (between : List Event)
        → IsTrue (may_ask now hop h.cache.asked) → IsTrue (is_live 1000 later now) → All (λ event. (moment_of event).0 ≤ later.0) between
        → way (record h { cache = fold after_event (after_ask now hop h.cache) between }) later to ≢ Ask hop }
    ensures moment { (h : InterfaceView) (now : Moment) (to hop : Addr) (between : List Event)
        → IsTrue (may_ask now hop h.cache.asked) → All (λ event. (moment_of event).0 ≤ now.0) between
        → way (record h { cache = fold after_event (after_ask now hop h.cache) between }) now to ≢ Ask hop }
{}

/// At any moment so many frames go out and no more, as `frames_left` counts: a reply that goes out leaves one reply fewer and as many requests, and
/// a request one request fewer and as many replies, also where it stands in for a segment or a part of a datagram.
pub fn frames_run_out()
    ensures reply { (h : InterfaceView) (now : Moment) (place : ℕ) (mac : Mac) → way_at h now place ≡ To mac
        → let left = after_emission h now place in (length left.replies + 1 ≡ length h.replies) × (requests_left now left.cache.asked ≡ requests_left now h.cache.asked) }
    ensures request { (h : InterfaceView) (now : Moment) (place : ℕ) (hop : Addr) → way_at h now place ≡ Ask hop
        → let left = after_emission h now place in (length left.replies ≡ length h.replies) × (requests_left now left.cache.asked + 1 ≡ requests_left now h.cache.asked) }
    ensures asked { (h : InterfaceView) (now : Moment) (to hop : Addr) → way h now to ≡ Ask hop
        → let left = asked h now hop in (length left.replies ≡ length h.replies) × (requests_left now left.cache.asked + 1 ≡ requests_left now h.cache.asked) }
    ensures fewer { (h : InterfaceView) (now : Moment) (place : ℕ) → way_at h now place ≢ Waits → frames_left (after_emission h now place) now + 1 ≡ frames_left h now }
{}

/// The deadline is one of those of the replies that wait, and none of theirs comes before it; there is none where none of them has one. From
/// the moment that `next_ask` names, and not before, a request for a hop may go out, as long as none goes out.
pub fn deadlines_are_the_least()
    ensures some { (h : InterfaceView) (now m : Moment) → least_deadline h now ≡ Some m
        → ((w : Waiting) × Contains h.replies w × (deadline_of h now w ≡ Some m)) × All (λ w. IfSome (deadline_of h now w) (λ other. m.0 ≤ other.0)) h.replies }
    ensures none { (h : InterfaceView) (now : Moment) → least_deadline h now ≡ None → All (λ w. deadline_of h now w ≡ None) h.replies }
    ensures asked { (hop : Addr) (asked : List Asked) → length asked ≤ 64 → IsNextAsk hop asked (next_ask hop asked) }
{}

/// The moment from which a hop may be asked for again lies ahead, and there is one only for what waits. For what waits there is one, as long as a
/// route leads on; or else no request may go out at any moment of the clock, since one of its last moment stands in the way.
pub fn requests_lie_ahead()
    ensures ahead { (h : InterfaceView) (now m : Moment) (to : Addr) → length h.cache.asked ≤ 64 → asked_until h now to ≡ Some m → (way h now to ≡ Waits) × (now.0 < m.0) }
    ensures never { (h : InterfaceView) (now later : Moment) (to hop : Addr) → length h.cache.asked ≤ 64 → later.0 < 2 ^ 64
        → way h now to ≡ Waits → next_hop h.routes to ≡ Some hop → asked_until h now to ≡ None → may_ask later hop h.cache.asked ≡ false }
{}

/// A frame that goes out is heard, where it is for, as the very packet, segment, message, UDP datagram or fragment of one that is meant (RFC
/// 826, RFC 9293 section 3.1, RFC 792, RFC 768, RFC 791 section 3.2), where its sender may send.
pub fn emitted_frames_are_heard()
    ensures packet { (h : InterfaceView) (mac : Mac) (ours : Addr) (packet : ArpPacket) → HasWidths packet → packet.operation ≡ operation.Reply
        → MaySend ours packet.sender_addr → heard packet.target_mac ours (reply_frame h mac (Arp packet)) ≡ Ok (meaning.Arp packet) }
    ensures reset { (h : InterfaceView) (mac : Mac) (to : Addr) (head : Head) → CanBeSent h.addr to head []
        → length mac.0 ≡ 6 → length h.mac.0 ≡ 6 → MaySend to h.addr
        → heard mac to (reply_frame h mac (Reset to head)) ≡ Ok (meaning.Tcp (record { source = h.addr; segment = sent_segment head [] })) }
    ensures echo { (h : InterfaceView) (mac : Mac) (to : Addr) (identifier number : ℕ) (octets : List ℕ) → IsSoundEcho to identifier number octets
        → length mac.0 ≡ 6 → length h.mac.0 ≡ 6 → length h.addr.0 ≡ 4 → MaySend to h.addr
        → heard mac to (reply_frame h mac (Echo to identifier number octets))
        ≡ Ok (meaning.Icmp (record { source = h.addr; message = echo_reply identifier number octets })) }
    ensures error { (h : InterfaceView) (mac : Mac) (to : Addr) (reason : Reason) (quoted : List ℕ) → IsSoundError to quoted
        → length mac.0 ≡ 6 → length h.mac.0 ≡ 6 → length h.addr.0 ≡ 4 → MaySend to h.addr
        → heard mac to (reply_frame h mac (Error to reason quoted))
        ≡ Ok (meaning.Icmp (record { source = h.addr; message = error_for reason quoted [] })) }
    ensures request { (h : InterfaceView) (hop : Addr) (mac : Mac) (ours : Addr) → HasWidths (request_of h.mac h.addr hop) → MaySend ours h.addr
        → heard mac ours (request_frame h hop) ≡ Ok (meaning.Arp (request_of h.mac h.addr hop)) }
    ensures segment { (h : InterfaceView) (mac : Mac) (to : Addr) (head : Head) (octets : List ℕ) → CanBeSent h.addr to head octets
        → length mac.0 ≡ 6 → length h.mac.0 ≡ 6 → MaySend to h.addr → 4 * sent_offset head + length octets ≤ PAYLOAD_IN_FRAME
        → heard mac to (segment_frame_to h mac to (sent_octets h.addr to head octets)) ≡ Ok (meaning.Tcp (record { source = h.addr; segment = sent_segment head octets })) }
    ensures user { (h : InterfaceView) (mac : Mac) (to : Addr) (part : Part) (octets : List ℕ) (d : UserDatagram) → IsPart part octets
        → length mac.0 ≡ 6 → length h.mac.0 ≡ 6 → length h.addr.0 ≡ 4 → length to.0 ≡ 4 → MaySend to h.addr
        → part.fragment.more_fragments ≡ false → part.fragment.offset ≡ 0 → Spells h.addr to d octets
        → heard mac to (part_frame_to h mac to part octets)
        ≡ Ok (meaning.Udp (record { carrier = part_datagram (head_to h mac to) part octets; datagram = d })) }
    ensures fragment { (h : InterfaceView) (mac : Mac) (to : Addr) (part : Part) (octets : List ℕ) → IsPart part octets
        → length mac.0 ≡ 6 → length h.mac.0 ≡ 6 → length h.addr.0 ≡ 4 → length to.0 ≡ 4 → MaySend to h.addr
        → (part.fragment.more_fragments ≡ false → part.fragment.offset ≡ 0 → ⊥)
        → heard mac to (part_frame_to h mac to part octets) ≡ Ok (meaning.UdpFragment (part_datagram (head_to h mac to) part octets)) }
{}

/// What the public constant is: the payload of a datagram in a frame, less the 8 octets of a message's header (RFC 792).
pub fn constants()
    ensures echo_room { ECHO_ROOM + 8 ≡ PAYLOAD_IN_FRAME }
{}
