//! Laws of the definitions that the contracts of this crate cite: each is the contract of a function that does nothing.

ghost use Rattle.std.specs.Prelude.{◌≡◌, ◌≢◌, ℕ, ◌+◌, ◌-◌, ◌*◌, ◌<◌, ◌≤◌, ◌↔◌, true, false, IsTrue, List, [], ◌∷◌, ◌++◌, All, length, map, replicate, take, drop, sum_by, Some, Result, Ok, Err};
ghost use Rattle.std.specs.List.{flat_map, slice_get};
ghost use Rattle.byteorder.specs.Endian.{big_bytes};
ghost use Rattle.inet_sum.specs.Sum.{sum_of};
ghost use Rattle.ipv4.specs.Datagram.{HasPlace};
ghost use Rattle.ipv4.specs.declared.addr.Addr.{Addr};
ghost use Rattle.udp.specs.declared.cutting.Fragment.{Fragment};
ghost use Rattle.udp.specs.declared.cutting.TheConstants.{MOST_IN_FRAGMENT};
ghost use Rattle.udp.specs.declared.fault.UdpFault.{UdpFault};
ghost use Rattle.udp.specs.declared.head.TheConstants.{HEADER_LEN};
ghost use Rattle.udp.specs.declared.head.Head.{Head};
ghost use Rattle.udp.specs.declared.waiting.TheConstants.{CAPACITY, COUNTED_BESIDE, MOST_WAITING};
ghost use Rattle.udp.specs.Datagram.{UserDatagram, IsParsed, Spells, datagram_len, header_octets, spelling, summed};
ghost use Rattle.udp.specs.Fragments.{fragment, count_of, fragments_of, part_of};
ghost use Rattle.udp.specs.Reading.{datagram_or_fault};
ghost use Rattle.udp.specs.Sent.{CanBeSent, sent};

/// For all octets there is one answer that `UdpView::parse` may give (RFC 768).
pub fn one_answer()
    ensures { (src dst : Addr) (octets : List ℕ) (first second : Result UserDatagram UdpFault)
        → IsParsed src dst octets first → IsParsed src dst octets second → first ≡ second }
{}

/// The plain reading of octets from left to right answers what `UdpView::parse` does: the UDP datagram that they spell, or the same
/// fault (RFC 768).
pub fn read_plainly()
    ensures ok { (src dst : Addr) (octets : List ℕ) (d : UserDatagram) → Spells src dst d octets → datagram_or_fault src dst octets ≡ Ok d }
    ensures err { (src dst : Addr) (octets : List ℕ) (fault : UdpFault) → All (λ octet. octet < 256) octets
        → IsParsed src dst octets (Err fault) → datagram_or_fault src dst octets ≡ Err fault }
    ensures parsed { (src dst : Addr) (octets : List ℕ) → All (λ octet. octet < 256) octets → IsParsed src dst octets (datagram_or_fault src dst octets) }
{}

/// What is read as a UDP datagram that tells a checksum has a right one: the pseudo header, of the two addresses, a zero, the protocol 17 and the datagram's length, and the
/// datagram itself have the one's complement sum 0xFFFF (RFC 768). So has what the plain reading answers.
pub fn sums_are_tested()
    ensures parsed { (src dst : Addr) (octets : List ℕ) (d : UserDatagram) → IsParsed src dst octets (Ok d) → d.checksum ≢ 0
        → sum_of ((src.0 ++ dst.0 ++ 0 ∷ 17 ∷ [] ++ big_bytes 2 (8 + length d.payload)) ++ spelling d) ≡ 65535 }
    ensures read { (src dst : Addr) (octets : List ℕ) (d : UserDatagram) → All (λ octet. octet < 256) octets → datagram_or_fault src dst octets ≡ Ok d → d.checksum ≢ 0
        → sum_of ((src.0 ++ dst.0 ++ 0 ∷ 17 ∷ [] ++ big_bytes 2 (8 + length d.payload)) ++ spelling d) ≡ 65535 }
{}

/// Each field of a UDP datagram stands in its place: the ports of source and destination, the length, the checksum, each of two octets, and the payload from octet 8 on. What is
/// sent has the ports of its head, and the payload that is given (RFC 768).
pub fn fields_stand_in_their_places()
    ensures source { (d : UserDatagram) → take 2 (spelling d) ≡ big_bytes 2 d.source }
    ensures destination { (d : UserDatagram) → take 2 (drop 2 (spelling d)) ≡ big_bytes 2 d.destination }
    ensures len { (d : UserDatagram) → take 2 (drop 4 (spelling d)) ≡ big_bytes 2 (8 + length d.payload) }
    ensures checksum { (d : UserDatagram) → take 2 (drop 6 (spelling d)) ≡ big_bytes 2 d.checksum }
    ensures payload { (d : UserDatagram) → drop 8 (spelling d) ≡ d.payload }
    ensures ports { (src dst : Addr) (head : Head) (payload : List ℕ) → let d = sent src dst head payload in
        (d.source ≡ head.source) × (d.destination ≡ head.destination) × (d.payload ≡ payload) }
{}

/// A UDP datagram has one spelling, up to the padding behind it (RFC 768).
pub fn one_spelling()
    ensures { (src dst : Addr) (d : UserDatagram) (octets : List ℕ) → Spells src dst d octets → take (datagram_len d) octets ≡ spelling d }
{}

/// What `Head::emit` writes spells the UDP datagram that is meant, whatever padding stands behind it, and so parses to it. There
/// is always a checksum, and it is right: one that is computed as 0 goes out as 0xFFFF, since 0 says that there is none (RFC 768).
pub fn emitted_parses()
    ensures len { (src dst : Addr) (head : Head) (payload : List ℕ) → length (spelling (sent src dst head payload)) ≡ 8 + length payload }
    ensures spelled { (src dst : Addr) (head : Head) (payload padding : List ℕ) → CanBeSent src dst head payload
        → Spells src dst (sent src dst head payload) (spelling (sent src dst head payload) ++ padding) }
    ensures parsed { (src dst : Addr) (head : Head) (payload padding : List ℕ) (answer : Result UserDatagram UdpFault) → CanBeSent src dst head payload
        → IsParsed src dst (spelling (sent src dst head payload) ++ padding) answer → answer ≡ Ok (sent src dst head payload) }
    ensures told { (src dst : Addr) (head : Head) (payload : List ℕ) → (sent src dst head payload).checksum ≢ 0 }
    ensures right { (src dst : Addr) (head : Head) (payload : List ℕ) → CanBeSent src dst head payload
        → sum_of (summed src dst (spelling (sent src dst head payload))) ≡ 65535 }
{}

/// The fragments of a payload cover it once and in order: their parts, one behind the other, are the payload. Each but the last
/// has 1,480 octets, more are told exactly where its part ends before the payload does, and IPv4 has a place for each where
/// it has one for the whole, 65,515 octets at most. There is one last fragment, which stands last, and only that of an empty
/// payload is empty (RFC 791 section 3.2).
pub fn fragments_cover()
    ensures whole { (payload : List ℕ) → flat_map (part_of payload) (fragments_of (length payload)) ≡ payload }
    ensures more { (len : ℕ) → All (λ f. IsTrue f.more_fragments ↔ (8 * f.offset + f.len < len)) (fragments_of len) }
    ensures full { (len : ℕ) → All (λ f. IsTrue f.more_fragments → f.len ≡ 1480) (fragments_of len) }
    ensures rest { (len : ℕ) → All (λ f. f.len ≤ 1480) (fragments_of len) }
    ensures last { (len : ℕ) → map (λ f. f.more_fragments) (fragments_of len) ≡ replicate (length (fragments_of len) - 1) true ++ false ∷ [] }
    ensures filled { (len : ℕ) → 0 < len → All (λ f. 0 < f.len) (fragments_of len) }
    ensures places { (len : ℕ) → len ≤ 65515 → All (λ f. HasPlace f.more_fragments f.offset f.len) (fragments_of len) }
{}

/// What the fragments of a UDP datagram carry, told by their numbers, from 0 on: the first its header of 8 octets and the first
/// 1,472 of its payload, each later one the 1,480 octets of the payload, or the rest, from 8 before its own place on. Each begins
/// where those before it end (RFC 791 section 3.2).
pub fn fragments_carry()
    ensures numbered { (len number : ℕ) → number < count_of len → slice_get (fragments_of len) number ≡ Some (fragment len number) }
    ensures begin { (len : ℕ) (before after : List Fragment) (f : Fragment) → fragments_of len ≡ before ++ f ∷ after
        → 8 * f.offset ≡ sum_by (λ g. g.len) before }
    ensures first { (d : UserDatagram) → part_of (spelling d) (fragment (datagram_len d) 0) ≡ header_octets d ++ take 1472 d.payload }
    ensures later { (d : UserDatagram) (number : ℕ) → 0 < number
        → part_of (spelling d) (fragment (datagram_len d) number) ≡ take 1480 (drop (1480 * number - 8) d.payload) }
    ensures within { (d : UserDatagram) (number : ℕ) → 0 < number → number < count_of (datagram_len d)
        → 1480 * number - 8 + (fragment (datagram_len d) number).len ≤ length d.payload }
{}

/// What the public constants are: a header has 8 octets (RFC 768); a fragment in a frame of 1,500 octets (RFC 894) has room
/// for 1,480 behind its header of 20 (RFC 791 section 3.1), a number of units of 8. The limits of a queue are this stack's
/// own: 64 datagrams, and 65,535 octets, the most that a length of IPv4 says, where each datagram counts 8 beside its own.
pub fn constants()
    ensures header { HEADER_LEN ≡ 8 }
    ensures fragment { MOST_IN_FRAGMENT ≡ 1480 }
    ensures datagrams { MOST_WAITING ≡ 64 }
    ensures octets { CAPACITY ≡ 65535 }
    ensures beside { COUNTED_BESIDE ≡ 8 }
{}
