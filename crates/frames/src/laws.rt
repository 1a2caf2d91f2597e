//! Laws of the definitions that the contracts of this crate cite: each is the contract of a function that does nothing.

ghost use Rattle.std.specs.Prelude.{◌≡◌, ◌≢◌, ◌↔◌, true, false, ℕ, ◌+◌, ◌*◌, ◌<◌, ◌≤◌, List, length, All, Some, None, Result, Ok};
ghost use Rattle.ether.specs.declared.mac.Mac.{Mac};
ghost use Rattle.arp.specs.declared.packet.ArpPacket.{ArpPacket};
ghost use Rattle.arp.specs.declared.packet.Operation.TheVariants.{Request, Reply};
ghost use Rattle.arp.specs.Packet.{HasWidths};
ghost use Rattle.ipv4.specs.declared.addr.Addr.{Addr};
ghost use Rattle.ipv4.specs.declared.addr.Pair.{Pair};
ghost use Rattle.ipv4.specs.declared.limits.TheConstants.{PAYLOAD_IN_FRAME};
ghost use Rattle.ipv4.specs.Datagram.{Datagram, header_octets};
ghost use Rattle.icmp.specs.Message.{Message, Spells, spelling};
ghost use Rattle.udp.specs.declared.cutting.Part.{Part};
ghost use Rattle.udp.specs.Datagram.{UserDatagram, Spells as SpellsUser};
ghost use Rattle.udp.specs.Reading.{datagram_or_fault};
ghost use Rattle.tcp_segment.specs.declared.head.Head.{Head};
ghost use Rattle.tcp_segment.specs.Sent.{CanBeSent, sent_segment, sent_octets, sent_offset};
ghost use Rattle.frames.specs.declared.drop.DropCause.{DropCause};
ghost use Rattle.frames.specs.declared.drop.DropCause.TheVariants.{Short, OtherMac, OtherType, IpHeader, IpSum, OtherAddress, UpperHeader, UpperSum, NoRoom, Fragment};
ghost use Rattle.frames.specs.Drops.{number_of};
ghost use Rattle.frames.specs.declared.emission.FrameHead.{FrameHead};
ghost use Rattle.frames.specs.declared.meaning.Control.{Control};
ghost use Rattle.frames.specs.declared.meaning.Meaning.{Meaning};
ghost use Rattle.frames.specs.declared.meaning.ReceivedSegment.{ReceivedSegment};
ghost use Rattle.frames.specs.declared.meaning.ReceivedDatagram.{ReceivedDatagram};
ghost use Rattle.frames.specs.declared.meaning.Meaning.TheVariants.{Arp, Tcp, Icmp, Udp, Other, UdpFragment};
ghost use Rattle.frames.specs.Heard.{IsHeard, IsWhole, MaySend};
ghost use Rattle.frames.specs.Meaning.{heard, may_send};
ghost use Rattle.frames.specs.Pairs.{CarryPair, pair_in, pair_between};
ghost use Rattle.frames.specs.Sent.{IsPart, datagram_of, segment_frame, message_frame, packet_frame, part_datagram, part_frame};

/// What octets are to a host is what they spell, layer by layer (RFC 894, RFC 826, RFC 791 section 3.1, RFC 9293 section 3.1, RFC 792,
/// RFC 768): the answer is determined for all octets, and is no other than the one whose records they spell.
pub fn one_meaning()
    ensures spelled { (mac : Mac) (ours : Addr) (octets : List ℕ) (answer : Result Meaning DropCause) → All (λ octet. octet < 256) octets
        → (IsHeard mac ours octets answer ↔ (heard mac ours octets ≡ answer)) }
    ensures one { (mac : Mac) (ours : Addr) (octets : List ℕ) (first second : Result Meaning DropCause) → All (λ octet. octet < 256) octets
        → IsHeard mac ours octets first → IsHeard mac ours octets second → first ≡ second }
{}

/// A frame that is heard as a segment carries the pair of the segment's two ends (RFC 9293 section 4).
pub fn heard_pairs()
    ensures { (mac : Mac) (ours : Addr) (octets : List ℕ) (received : ReceivedSegment) → heard mac ours octets ≡ Ok (Tcp received)
        → pair_in octets ≡ Some (pair_between received.source ours received.segment) }
{}

/// The pair that is read of octets, whoever they are for, is that of the segment that they carry, and none is read where they carry
/// none (RFC 9293 section 4).
pub fn carried_pairs()
    ensures { (octets : List ℕ) (pair : Pair) → All (λ octet. octet < 256) octets → (CarryPair octets pair ↔ (pair_in octets ≡ Some pair)) }
{}

/// A frame that `FrameHead::emit_tcp` writes is heard, where it is for, as the very segment that is meant, from the address that
/// sends it, padded or not. That address is one that may send, and the segment fits into a frame: with its header it has at most
/// 1,480 octets (RFC 9293 section 3.1).
pub fn emitted_segments_are_heard()
    ensures { (h : FrameHead) (head : Head) (octets : List ℕ) → CanBeSent h.from h.to head octets
        → length h.destination.0 ≡ 6 → length h.source.0 ≡ 6 → MaySend h.to h.from → 4 * sent_offset head + length octets ≤ PAYLOAD_IN_FRAME
        → heard h.destination h.to (segment_frame h (sent_octets h.from h.to head octets)) ≡ Ok (Tcp (record { source = h.from; segment = sent_segment head octets })) }
{}

/// A frame that `FrameHead::emit_icmp` writes is heard, where it is for, as the very ICMP message that is meant, from the address
/// that sends it, padded or not. That address is one that may send, and the message fits into a frame: its data are at most 1,472
/// octets (RFC 792).
pub fn emitted_messages_are_heard()
    ensures { (h : FrameHead) (m : Message) → Spells m (spelling m) → length h.from.0 ≡ 4 → length h.to.0 ≡ 4
        → length h.destination.0 ≡ 6 → length h.source.0 ≡ 6 → MaySend h.to h.from → length m.payload ≤ 1472
        → heard h.destination h.to (message_frame h (spelling m)) ≡ Ok (Icmp (record { source = h.from; message = m })) }
{}

/// A frame that `FrameHead::emit_udp` writes is heard where it is for, padded or not: a part that is the whole as the very UDP datagram
/// that its octets spell, any other as a fragment. Either stands in a datagram of IPv4 between the two addresses with the part's own
/// identification, place and octets, which may be cut further (RFC 791 section 3.2, RFC 768).
pub fn emitted_parts_are_heard()
    ensures whole { (h : FrameHead) (part : Part) (octets : List ℕ) (d : UserDatagram) → IsPart part octets → length h.from.0 ≡ 4 → length h.to.0 ≡ 4
        → length h.destination.0 ≡ 6 → length h.source.0 ≡ 6 → MaySend h.to h.from
        → part.fragment.more_fragments ≡ false → part.fragment.offset ≡ 0 → SpellsUser h.from h.to d octets
        → heard h.destination h.to (part_frame h part octets) ≡ Ok (Udp (record { carrier = part_datagram h part octets; datagram = d })) }
    ensures fragment { (h : FrameHead) (part : Part) (octets : List ℕ) → IsPart part octets → length h.from.0 ≡ 4 → length h.to.0 ≡ 4
        → length h.destination.0 ≡ 6 → length h.source.0 ≡ 6 → MaySend h.to h.from
        → (part.fragment.more_fragments ≡ false → part.fragment.offset ≡ 0 → ⊥)
        → heard h.destination h.to (part_frame h part octets) ≡ Ok (UdpFragment (part_datagram h part octets)) }
    ensures told { (h : FrameHead) (part : Part) (octets : List ℕ) → let d = part_datagram h part octets in
        (d.source ≡ h.from) × (d.destination ≡ h.to) × (d.protocol ≡ 17) × (d.identification ≡ part.identification) × (d.dont_fragment ≡ false)
        × (d.more_fragments ≡ part.fragment.more_fragments) × (d.offset ≡ part.fragment.offset) × (d.payload ≡ octets) }
{}

/// A segment or an ICMP message goes out in a datagram from the one address for the other that no router may cut: it is the whole, and since no part of it can be mixed with one of another, its
/// identification is 0 (RFC 791 section 3.1, RFC 6864 section 4.1).
pub fn wholes_are_not_cut()
    ensures told { (h : FrameHead) (protocol : ℕ) (payload : List ℕ) → let d = datagram_of h protocol payload in
        (d.source ≡ h.from) × (d.destination ≡ h.to) × (d.protocol ≡ protocol) × (d.identification ≡ 0) × (d.dont_fragment ≡ true)
        × (d.more_fragments ≡ false) × (d.offset ≡ 0) × (d.payload ≡ payload) }
{}

/// The causes to drop a frame have the numbers 1 to 10, from the lowest layer up; a want of room and a fragment come last.
pub fn causes_have_their_numbers()
    ensures link { (number_of Short ≡ 1) × (number_of OtherMac ≡ 2) × (number_of OtherType ≡ 3) }
    ensures datagram { (number_of IpHeader ≡ 4) × (number_of IpSum ≡ 5) × (number_of OtherAddress ≡ 6) }
    ensures upper { (number_of UpperHeader ≡ 7) × (number_of UpperSum ≡ 8) }
    ensures none { (number_of NoRoom ≡ 9) × (number_of Fragment ≡ 10) }
{}

/// A frame that `emit_arp` writes is heard as its packet, where its sender may send: a request by every interface, a reply by
/// that of its target (RFC 826).
pub fn emitted_packets_are_heard()
    ensures request { (packet : ArpPacket) (mac : Mac) (ours : Addr) → HasWidths packet → MaySend ours packet.sender_addr → packet.operation ≡ Request
        → heard mac ours (packet_frame packet) ≡ Ok (Arp packet) }
    ensures reply { (packet : ArpPacket) (ours : Addr) → HasWidths packet → MaySend ours packet.sender_addr → packet.operation ≡ Reply
        → heard packet.target_mac ours (packet_frame packet) ≡ Ok (Arp packet) }
{}

/// What is heard as a segment, an ICMP message, a UDP datagram, a fragment or a datagram of another protocol comes from another host,
/// from an address that a host may have (RFC 1122 section 3.2.1.3); such a datagram of IPv4 is for the host that hears it.
pub fn heard_from_others()
    ensures segment { (mac : Mac) (ours : Addr) (octets : List ℕ) (received : ReceivedSegment) → heard mac ours octets ≡ Ok (Tcp received) → may_send ours received.source ≡ true }
    ensures message { (mac : Mac) (ours : Addr) (octets : List ℕ) (c : Control) → heard mac ours octets ≡ Ok (Icmp c) → may_send ours c.source ≡ true }
    ensures user { (mac : Mac) (ours : Addr) (octets : List ℕ) (r : ReceivedDatagram) → heard mac ours octets ≡ Ok (Udp r)
        → (may_send ours r.carrier.source ≡ true) × (r.carrier.destination ≡ ours) }
    ensures fragment { (mac : Mac) (ours : Addr) (octets : List ℕ) (d : Datagram) → heard mac ours octets ≡ Ok (UdpFragment d)
        → (may_send ours d.source ≡ true) × (d.destination ≡ ours) }
    ensures other { (mac : Mac) (ours : Addr) (octets : List ℕ) (d : Datagram) → heard mac ours octets ≡ Ok (Other d)
        → (may_send ours d.source ≡ true) × (d.destination ≡ ours) }
{}

/// A datagram of another protocol that is heard is a whole one from an address that another host may have, and carries neither TCP nor
/// ICMP nor UDP (RFC 791 section 3.1, RFC 1122 section 3.2.1.3).
pub fn heard_others_are_whole()
    ensures { (mac : Mac) (ours : Addr) (octets : List ℕ) (d : Datagram) → heard mac ours octets ≡ Ok (Other d)
        → MaySend ours d.source × IsWhole d × (d.protocol ≢ 6) × (d.protocol ≢ 1) × (d.protocol ≢ 17) }
{}

/// A UDP datagram that is heard came in a whole datagram of UDP from an address that another host may have, and its payload is read as
/// this one. A fragment that is heard is one of UDP from such an address (RFC 768, RFC 791 section 3.2, RFC 1122 section 3.2.1.3).
pub fn heard_users_are_carried()
    ensures whole { (mac : Mac) (ours : Addr) (octets : List ℕ) (r : ReceivedDatagram) → heard mac ours octets ≡ Ok (Udp r)
        → MaySend ours r.carrier.source × IsWhole r.carrier × (r.carrier.protocol ≡ 17)
        × (datagram_or_fault r.carrier.source r.carrier.destination r.carrier.payload ≡ Ok r.datagram) }
    ensures fragment { (mac : Mac) (ours : Addr) (octets : List ℕ) (d : Datagram) → heard mac ours octets ≡ Ok (UdpFragment d)
        → MaySend ours d.source × (IsWhole d → ⊥) × (d.protocol ≡ 17) }
{}

/// An ICMP message that is heard has at most 1,472 octets of data. The header of a UDP datagram, of a fragment or of a datagram of
/// another protocol has at most 60, and the payload of either of the first two at most 1,480: each fits into the frame that it came in (RFC 894,
/// RFC 791 section 3.1).
pub fn heard_messages_fit()
    ensures message { (mac : Mac) (ours : Addr) (octets : List ℕ) (c : Control) → heard mac ours octets ≡ Ok (Icmp c)
        → length c.message.payload ≤ 1472 }
    ensures user { (mac : Mac) (ours : Addr) (octets : List ℕ) (r : ReceivedDatagram) → heard mac ours octets ≡ Ok (Udp r)
        → (length (header_octets r.carrier) ≤ 60) × (length r.carrier.payload ≤ PAYLOAD_IN_FRAME) }
    ensures fragment { (mac : Mac) (ours : Addr) (octets : List ℕ) (d : Datagram) → heard mac ours octets ≡ Ok (UdpFragment d)
        → (length (header_octets d) ≤ 60) × (length d.payload ≤ PAYLOAD_IN_FRAME) }
    ensures other { (mac : Mac) (ours : Addr) (octets : List ℕ) (d : Datagram) → heard mac ours octets ≡ Ok (Other d)
        → length (header_octets d) ≤ 60 }
{}

/// Whoever hears a segment, an ICMP message, a UDP datagram or a fragment in a frame that goes out is the host at the address that it is
/// for, and hears the very one that is meant, from the address that sends it. Nobody hears anything of the four in the frame of another kind:
/// a segment in that of an ICMP message, of a part of a UDP datagram or of an ARP packet, and so on.
pub fn heard_as_sent()
    ensures segment { (h : FrameHead) (head : Head) (octets : List ℕ) (mac : Mac) (ours : Addr) (received : ReceivedSegment) → CanBeSent h.from h.to head octets
        → length h.destination.0 ≡ 6 → length h.source.0 ≡ 6 → 4 * sent_offset head + length octets ≤ PAYLOAD_IN_FRAME
        → heard mac ours (segment_frame h (sent_octets h.from h.to head octets)) ≡ Ok (Tcp received)
        → (ours ≡ h.to) × (received ≡ record { source = h.from; segment = sent_segment head octets }) }
    ensures packet { (packet : ArpPacket) (mac : Mac) (ours : Addr) (received : ReceivedSegment) → length packet.sender_mac.0 ≡ 6 → length packet.target_mac.0 ≡ 6
        → heard mac ours (packet_frame packet) ≢ Ok (Tcp received) }
    ensures message { (h : FrameHead) (m : Message) (mac : Mac) (ours : Addr) (c : Control) → Spells m (spelling m) → length h.from.0 ≡ 4 → length h.to.0 ≡ 4
        → length h.destination.0 ≡ 6 → length h.source.0 ≡ 6 → length m.payload ≤ 1472
        → heard mac ours (message_frame h (spelling m)) ≡ Ok (Icmp c) → (ours ≡ h.to) × (c ≡ record { source = h.from; message = m }) }
    ensures user { (h : FrameHead) (part : Part) (octets : List ℕ) (mac : Mac) (ours : Addr) (r : ReceivedDatagram) → IsPart part octets → length h.from.0 ≡ 4
        → length h.to.0 ≡ 4 → length h.destination.0 ≡ 6 → length h.source.0 ≡ 6 → heard mac ours (part_frame h part octets) ≡ Ok (Udp r)
        → (ours ≡ h.to) × (r.carrier ≡ part_datagram h part octets) × (datagram_or_fault h.from h.to octets ≡ Ok r.datagram) }
    ensures fragment { (h : FrameHead) (part : Part) (octets : List ℕ) (mac : Mac) (ours : Addr) (d : Datagram) → IsPart part octets → length h.from.0 ≡ 4
        → length h.to.0 ≡ 4 → length h.destination.0 ≡ 6 → length h.source.0 ≡ 6 → heard mac ours (part_frame h part octets) ≡ Ok (UdpFragment d)
        → (ours ≡ h.to) × (d ≡ part_datagram h part octets) }
    ensures segment_in_message { (h : FrameHead) (octets : List ℕ) (mac : Mac) (ours : Addr) (received : ReceivedSegment) → length h.from.0 ≡ 4 → length h.to.0 ≡ 4
        → length h.destination.0 ≡ 6 → length h.source.0 ≡ 6 → length octets ≤ PAYLOAD_IN_FRAME → heard mac ours (message_frame h octets) ≢ Ok (Tcp received) }
    ensures segment_in_part { (h : FrameHead) (part : Part) (octets : List ℕ) (mac : Mac) (ours : Addr) (received : ReceivedSegment) → length h.destination.0 ≡ 6
        → length h.source.0 ≡ 6 → heard mac ours (part_frame h part octets) ≢ Ok (Tcp received) }
    ensures message_in_segment { (h : FrameHead) (octets : List ℕ) (mac : Mac) (ours : Addr) (c : Control) → length h.from.0 ≡ 4 → length h.to.0 ≡ 4
        → length h.destination.0 ≡ 6 → length h.source.0 ≡ 6 → length octets ≤ PAYLOAD_IN_FRAME → heard mac ours (segment_frame h octets) ≢ Ok (Icmp c) }
    ensures message_in_part { (h : FrameHead) (part : Part) (octets : List ℕ) (mac : Mac) (ours : Addr) (c : Control) → length h.destination.0 ≡ 6
        → length h.source.0 ≡ 6 → heard mac ours (part_frame h part octets) ≢ Ok (Icmp c) }
    ensures message_in_packet { (packet : ArpPacket) (mac : Mac) (ours : Addr) (c : Control) → length packet.sender_mac.0 ≡ 6 → length packet.target_mac.0 ≡ 6
        → heard mac ours (packet_frame packet) ≢ Ok (Icmp c) }
    ensures user_in_segment { (h : FrameHead) (octets : List ℕ) (mac : Mac) (ours : Addr) (r : ReceivedDatagram) (d : Datagram) → length h.destination.0 ≡ 6
        → length h.source.0 ≡ 6
        → (heard mac ours (segment_frame h octets) ≢ Ok (Udp r)) × (heard mac ours (segment_frame h octets) ≢ Ok (UdpFragment d)) }
    ensures user_in_message { (h : FrameHead) (octets : List ℕ) (mac : Mac) (ours : Addr) (r : ReceivedDatagram) (d : Datagram) → length h.destination.0 ≡ 6
        → length h.source.0 ≡ 6
        → (heard mac ours (message_frame h octets) ≢ Ok (Udp r)) × (heard mac ours (message_frame h octets) ≢ Ok (UdpFragment d)) }
    ensures user_in_packet { (packet : ArpPacket) (mac : Mac) (ours : Addr) (r : ReceivedDatagram) (d : Datagram) → length packet.sender_mac.0 ≡ 6
        → length packet.target_mac.0 ≡ 6 → (heard mac ours (packet_frame packet) ≢ Ok (Udp r)) × (heard mac ours (packet_frame packet) ≢ Ok (UdpFragment d)) }
{}

/// What goes out carries the pair of its two ends, whoever it is for, where it is a segment, and no pair where it is an ARP packet,
/// an ICMP message or a part of a UDP datagram (RFC 9293 section 4).
pub fn emitted_pairs()
    ensures segment { (h : FrameHead) (head : Head) (octets : List ℕ) → CanBeSent h.from h.to head octets
        → length h.destination.0 ≡ 6 → length h.source.0 ≡ 6 → 4 * sent_offset head + length octets ≤ PAYLOAD_IN_FRAME
        → pair_in (segment_frame h (sent_octets h.from h.to head octets)) ≡ Some (pair_between h.from h.to (sent_segment head octets)) }
    ensures packet { (packet : ArpPacket) → length packet.sender_mac.0 ≡ 6 → length packet.target_mac.0 ≡ 6 → pair_in (packet_frame packet) ≡ None }
    ensures message { (h : FrameHead) (octets : List ℕ) → length h.from.0 ≡ 4 → length h.to.0 ≡ 4
        → length h.destination.0 ≡ 6 → length h.source.0 ≡ 6 → length octets ≤ PAYLOAD_IN_FRAME → pair_in (message_frame h octets) ≡ None }
    ensures part { (h : FrameHead) (part : Part) (octets : List ℕ) → length h.destination.0 ≡ 6 → length h.source.0 ≡ 6 → pair_in (part_frame h part octets) ≡ None }
{}
