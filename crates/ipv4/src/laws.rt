//! Laws of the definitions that the contracts of this crate cite: each is the contract of a function
//! that does nothing.

ghost use Rattle.std.specs.Prelude.{◌≡◌, ◌≢◌, ◌⊎◌, ◌↔◌, ◌<◌, ◌≤◌, ℕ, IsTrue, List, length, slice_index};
ghost use Rattle.std.specs.Ordering.{is_le};
ghost use Rattle.ipv4.specs.declared.addr.Endpoint.{Endpoint};
ghost use Rattle.ipv4.specs.declared.head.TheConstants.{HEADER_LEN};
ghost use Rattle.ipv4.specs.declared.limits.TheConstants.{ERROR_QUOTE, MAX_PAYLOAD, PAYLOAD_IN_FRAME};
ghost use Rattle.ipv4.specs.declared.protocol.TheConstants.Protocol.{ICMP, TCP, UDP};
ghost use Rattle.ipv4.specs.declared.view.TheConstants.{VERSION, WORD};
ghost use Rattle.ipv4.specs.Addresses.{IsUnicast, is_unicast, endpoint_cmp, pair_of};
ghost use Rattle.ipv4.specs.declared.addr.Addr.{Addr};
ghost use Rattle.ipv4.specs.declared.head.Head.{Head};
ghost use Rattle.ipv4.specs.Sent.{sent};

pub mod datagram;

/// The two endpoints of a connection, by which it is known (RFC 9293 section 4), have one pair, in whichever order they are
/// named; no others have that pair; and its first is the lesser of them, or they are one.
pub fn one_pair()
    ensures alike { (a b : Endpoint) → pair_of a b ≡ pair_of b a }
    ensures ends { (a b c d : Endpoint) → pair_of a b ≡ pair_of c d → ((a ≡ c) × (b ≡ d)) ⊎ ((a ≡ d) × (b ≡ c)) }
    ensures lesser { (a b : Endpoint) → IsTrue (is_le (endpoint_cmp (pair_of a b).first (pair_of a b).second)) }
{}

/// One host may have each address of the classes A, B and C, from 1.0.0.0 to 126.255.255.255 and from 128.0.0.0 to 223.255.255.255, and no other: none of network 0, of the loopback
/// network 127, of class D, which are groups', or of class E (RFC 1122 section 3.2.1.3). The test says so.
pub fn addresses_of_one_host()
    ensures class_a { (addr : Addr) → length addr.0 ≡ 4 → 1 ≤ slice_index addr.0 0 → slice_index addr.0 0 ≤ 126 → IsUnicast addr }
    ensures class_b { (addr : Addr) → length addr.0 ≡ 4 → 128 ≤ slice_index addr.0 0 → slice_index addr.0 0 ≤ 191 → IsUnicast addr }
    ensures class_c { (addr : Addr) → length addr.0 ≡ 4 → 192 ≤ slice_index addr.0 0 → slice_index addr.0 0 ≤ 223 → IsUnicast addr }
    ensures others { (addr : Addr) → IsUnicast addr → (slice_index addr.0 0 ≢ 0) × (slice_index addr.0 0 ≢ 127) × (slice_index addr.0 0 < 224) }
    ensures tested { (addr : Addr) → length addr.0 ≡ 4 → (IsTrue (is_unicast addr) ↔ IsUnicast addr) }
{}

/// What the public constants are: a header is of version 4 and counts its words of four octets; one without options has 20 octets, so the longest datagram's payload has 65,515 (RFC 791
/// section 3.1) and that of a frame 1,480 (RFC 894); an error quotes 68 octets at most (RFC 792); and the numbers of the protocols
/// (RFC 792, RFC 9293 section 3.1, RFC 768). What is sent lives for 64 hops (RFC 1122 section 3.2.1.7).
pub fn constants()
    ensures header { HEADER_LEN ≡ 20 }
    ensures version { (VERSION ≡ 4) × (WORD ≡ 4) }
    ensures payload { MAX_PAYLOAD ≡ 65515 }
    ensures in_frame { PAYLOAD_IN_FRAME ≡ 1480 }
    ensures quote { ERROR_QUOTE ≡ 68 }
    ensures icmp { ICMP ≡ record { 0 = 1 } }
    ensures tcp { TCP ≡ record { 0 = 6 } }
    ensures udp { UDP ≡ record { 0 = 17 } }
    ensures time_to_live { (head : Head) (payload : List ℕ) → (sent head payload).ttl ≡ 64 }
{}
