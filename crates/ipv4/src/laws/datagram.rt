//! Laws of datagrams and of the octets that spell them.

ghost use Rattle.std.specs.Prelude.{◌≡◌, ℕ, ◌+◌, ◌/◌, ◌<◌, ◌≤◌, List, [], ◌∷◌, ◌++◌, All, length, take, drop, if◌then◌else◌, Result, Ok, Err};
ghost use Rattle.byteorder.specs.Endian.{big_bytes};
ghost use Rattle.ipv4.specs.declared.fault.Ipv4Fault.{Ipv4Fault};
ghost use Rattle.ipv4.specs.declared.head.Head.{Head};
ghost use Rattle.ipv4.specs.Datagram.{Datagram, IsDatagram, IsParsed, Spells, header_octets, header_len, spelling, total_len};
ghost use Rattle.ipv4.specs.Reading.{datagram_in};
ghost use Rattle.ipv4.specs.Sent.{sent};
ghost use Rattle.inet_sum.specs.Sum.{sum_of};

/// For all octets there is one answer that `Ipv4View::parse` may give.
pub fn one_answer()
    ensures { (octets : List ℕ) (first second : Result Datagram Ipv4Fault) → IsParsed octets first → IsParsed octets second → first ≡ second }
{}

/// The plain reading of octets from left to right finds the datagram that `Ipv4View::parse` answers, or the same fault (RFC 791
/// section 3.1).
pub fn read_plainly()
    ensures ok { (octets : List ℕ) (d : Datagram) → IsParsed octets (Ok d) → datagram_in octets ≡ Ok d }
    ensures err { (octets : List ℕ) (fault : Ipv4Fault) → All (λ octet. octet < 256) octets → IsParsed octets (Err fault) → datagram_in octets ≡ Err fault }
    ensures parsed { (octets : List ℕ) → All (λ octet. octet < 256) octets → IsParsed octets (datagram_in octets) }
{}

/// What is read as a datagram has a right checksum: its header, the first 20 octets and the options behind them, has the one's complement sum 0xFFFF (RFC 791 section 3.1, RFC 1071).
pub fn sums_are_tested()
    ensures { (octets : List ℕ) (d : Datagram) → IsParsed octets (Ok d) → sum_of (take (20 + length d.options) octets) ≡ 65535 }
{}

/// Each field of a header stands in its place: version 4 with the header's length in words, type of service, total length, identification, the flags and the offset, of which "don't
/// fragment" counts 0x4000 and "more fragments" 0x2000, time to live, protocol, checksum, source, destination, options. The payload stands behind them (RFC 791 section 3.1).
pub fn fields_stand_in_their_places()
    ensures lengths { (d : Datagram) → take 4 (header_octets d) ≡ (64 + header_len d / 4) ∷ d.service ∷ big_bytes 2 (total_len d) }
    ensures identification { (d : Datagram) → take 2 (drop 4 (header_octets d)) ≡ big_bytes 2 d.identification }
    ensures flags { (d : Datagram) → take 2 (drop 6 (header_octets d))
        ≡ big_bytes 2 ((if d.reserved then 0x8000 else 0) + (if d.dont_fragment then 0x4000 else 0) + (if d.more_fragments then 0x2000 else 0) + d.offset) }
    ensures carried { (d : Datagram) → take 2 (drop 8 (header_octets d)) ≡ d.ttl ∷ d.protocol ∷ [] }
    ensures checksum { (d : Datagram) → take 2 (drop 10 (header_octets d)) ≡ big_bytes 2 d.checksum }
    ensures source { (d : Datagram) → IsDatagram d → take 4 (drop 12 (header_octets d)) ≡ d.source.0 }
    ensures destination { (d : Datagram) → IsDatagram d → take 4 (drop 16 (header_octets d)) ≡ d.destination.0 }
    ensures options { (d : Datagram) → IsDatagram d → drop 20 (header_octets d) ≡ d.options }
    ensures payload { (d : Datagram) → spelling d ≡ header_octets d ++ d.payload }
{}

/// A datagram has one spelling, up to the padding behind it.
pub fn one_spelling()
    ensures { (d : Datagram) (octets : List ℕ) → Spells d octets → take (total_len d) octets ≡ spelling d }
{}

/// What `Head::emit` writes spells the datagram that is meant, whatever padding stands behind it, and so parses to it.
pub fn emitted_parses()
    ensures len { (head : Head) (payload : List ℕ) → IsDatagram (sent head payload) → length (spelling (sent head payload)) ≡ 20 + length payload }
    ensures spelled { (head : Head) (payload padding : List ℕ) → IsDatagram (sent head payload)
        → Spells (sent head payload) (spelling (sent head payload) ++ padding) }
    ensures parsed { (head : Head) (payload padding : List ℕ) (answer : Result Datagram Ipv4Fault) → IsDatagram (sent head payload)
        → IsParsed (spelling (sent head payload) ++ padding) answer → answer ≡ Ok (sent head payload) }
{}
