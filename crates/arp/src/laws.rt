//! Laws of the definitions that the contracts of this crate cite: each is the contract of a function
//! that does nothing.

ghost use Rattle.std.specs.Prelude.{◌≡◌, ◌≢◌, ◌↔◌, ℕ, List, [], ◌∷◌, ◌++◌, ◌+◌, ◌<◌, ◌≤◌, length, take, drop, filter, fold, All, true, false, IsTrue, Option, Some, None, Result, Ok, Err};
ghost use Rattle.std.specs.List.{list_any};
ghost use Rattle.ether.specs.declared.mac.Mac.{Mac};
ghost use Rattle.ipv4.specs.declared.addr.Addr.{Addr};
ghost use Rattle.arp.specs.declared.packet.ArpFault.{ArpFault};
ghost use Rattle.arp.specs.declared.packet.ArpFault.TheVariants.{UpperHeader};
ghost use Rattle.arp.specs.declared.packet.ArpPacket.{ArpPacket};
ghost use Rattle.arp.specs.declared.packet.Operation.TheVariants.{Request};
ghost use Rattle.arp.specs.declared.packet.TheConstants.{LEN};
ghost use Rattle.arp.specs.declared.entry.Asked.{Asked};
ghost use Rattle.arp.specs.declared.entry.Neighbour.{Neighbour};
ghost use Rattle.clock.specs.declared.moment.Moment.{Moment};
ghost use Rattle.arp.specs.Cache.{Cache, is_live, is_pair_of, is_request_for, after_hear, look, after_age, may_ask, asked_after, after_ask, requests_left, IsNextAsk};
ghost use Rattle.ipv4.specs.Addresses.{same_addr};
ghost use Rattle.arp.specs.Events.{Event, moment_of, after_event, cache_after, IsLastFrom};
ghost use Rattle.arp.specs.Packet.{spelling, request_of, reply_to, HasWidths, Spells, IsParsed};
ghost use Rattle.arp.specs.Reading.{packet_in};

/// A request names whom it seeks, and who seeks it: its target is the address whose MAC is wanted, and its sender's pair is that of the host that asks. On the wire
/// a request has the operation 1 and a reply 2 (RFC 826).
pub fn requests_name_whom_they_seek()
    ensures target { (mac : Mac) (own sought : Addr) → (request_of mac own sought).target_addr ≡ sought }
    ensures sender { (mac : Mac) (own sought : Addr) → ((request_of mac own sought).sender_addr ≡ own) × ((request_of mac own sought).sender_mac ≡ mac) }
    ensures request { (mac : Mac) (own sought : Addr) → take 2 (drop 6 (spelling (request_of mac own sought))) ≡ 0 ∷ 1 ∷ [] }
    ensures reply { (p : ArpPacket) (mac : Mac) → take 2 (drop 6 (spelling (reply_to p mac))) ≡ 0 ∷ 2 ∷ [] }
{}

/// Each field of a packet stands in its place: Ethernet's number 1, IPv4's 0x0800 and the lengths 6 and 4, the operation, and then MAC and address of the sender, and those of the target (RFC
/// 826).
pub fn fields_stand_in_their_places()
    ensures kinds { (p : ArpPacket) (octets : List ℕ) → Spells p octets → take 6 octets ≡ 0 ∷ 1 ∷ 8 ∷ 0 ∷ 6 ∷ 4 ∷ [] }
    ensures sender_mac { (p : ArpPacket) (octets : List ℕ) → Spells p octets → take 6 (drop 8 octets) ≡ p.sender_mac.0 }
    ensures sender_addr { (p : ArpPacket) (octets : List ℕ) → Spells p octets → take 4 (drop 14 octets) ≡ p.sender_addr.0 }
    ensures target_mac { (p : ArpPacket) (octets : List ℕ) → Spells p octets → take 6 (drop 18 octets) ≡ p.target_mac.0 }
    ensures target_addr { (p : ArpPacket) (octets : List ℕ) → Spells p octets → take 4 (drop 24 octets) ≡ p.target_addr.0 }
{}

/// A reply tells whoever asked the MAC of the address that was asked for (RFC 826).
pub fn replies_tell_what_was_asked()
    ensures told { (p : ArpPacket) (mac : Mac) → let reply = reply_to p mac in (reply.sender_addr ≡ p.target_addr) × (reply.sender_mac ≡ mac) }
    ensures whom { (p : ArpPacket) (mac : Mac) → let reply = reply_to p mac in (reply.target_addr ≡ p.sender_addr) × (reply.target_mac ≡ p.sender_mac) }
{}

/// A packet is to be answered exactly where it is a request for our address: for nobody else a host replies (RFC 826).
pub fn only_requests_for_us_are_answered()
    ensures { (ours : Addr) (p : ArpPacket) → (is_request_for ours p ≡ true) ↔ ((p.operation ≡ Request) × (p.target_addr ≡ ours)) }
{}

/// Octets spell at most one packet.
pub fn one_packet()
    ensures { (first second : ArpPacket) (octets : List ℕ) → Spells first octets → Spells second octets → first ≡ second }
{}

/// For all octets there is one answer that `ArpPacket::parse` may give.
pub fn one_answer()
    ensures { (octets : List ℕ) (first second : Result ArpPacket ArpFault)
        → IsParsed octets first → IsParsed octets second → first ≡ second }
{}

/// The plain reading of octets from left to right finds the packet that `ArpPacket::parse` answers, and none where it answers
/// `UpperHeader` (RFC 826).
pub fn read_plainly()
    ensures ok { (octets : List ℕ) (packet : ArpPacket) → IsParsed octets (Ok packet) → packet_in octets ≡ Some packet }
    ensures err { (octets : List ℕ) → All (λ octet. octet < 256) octets → IsParsed octets (Err UpperHeader) → packet_in octets ≡ None }
    ensures spelled { (octets : List ℕ) (packet : ArpPacket) → All (λ octet. octet < 256) octets → packet_in octets ≡ Some packet → Spells packet octets }
{}

/// What `ArpPacket::emit` writes parses to its packet, whatever stands behind it.
pub fn emitted_parses()
    ensures { (packet : ArpPacket) (padding : List ℕ) (answer : Result ArpPacket ArpFault)
        → HasWidths packet → IsParsed (spelling packet ++ padding) answer → answer ≡ Ok packet }
{}

/// A packet has one spelling, of 28 octets: octets that spell it begin with that, and the rest is padding.
pub fn one_spelling()
    ensures len { (packet : ArpPacket) → HasWidths packet → length (spelling packet) ≡ 28 }
    ensures spelled { (packet : ArpPacket) (octets : List ℕ) → Spells packet octets → take 28 octets ≡ spelling packet }
{}

/// Whatever a cache hears, no address has two pairs.
pub fn one_pair_an_address()
    ensures { (most : ℕ) (events : List Event) (addr : Addr) → length (filter (is_pair_of addr) (cache_after most events).pairs) ≤ 1 }
{}

/// Whatever happens to a cache, it keeps at most as many pairs as it was made for, and 64 notes.
pub fn few_are_kept()
    ensures most { (most : ℕ) (events : List Event) → (cache_after most events).most ≡ most }
    ensures pairs { (most : ℕ) (events : List Event) → 0 < most → length (cache_after most events).pairs ≤ most }
    ensures notes { (most : ℕ) (events : List Event) → length (cache_after most events).asked ≤ 64 }
{}

/// Where a packet for us comes from an address of which no pair is kept, and as many are kept as may be, one pair gives way: none was heard before it. The others stay, in order, and the
/// sender's stands behind them. That few are kept, and which of them gives way, is this stack's own.
pub fn the_longest_unheard_gives_way()
    ensures { (cache : Cache) (now : Moment) (packet : ArpPacket) (ours : Addr) → same_addr packet.target_addr ours ≡ true
        → list_any (is_pair_of packet.sender_addr) cache.pairs ≡ false → 0 < cache.most → length cache.pairs ≡ cache.most
        → let sender : Neighbour = record { addr = packet.sender_addr; mac = packet.sender_mac; heard = now } in
        (before : List Neighbour) × (gone : Neighbour) × (after : List Neighbour) × (cache.pairs ≡ before ++ gone ∷ after)
        × All (λ pair. gone.heard.0 ≤ pair.heard.0) cache.pairs × ((after_hear now packet ours cache).pairs ≡ (before ++ after) ++ sender ∷ []) }
{}

/// The sender of a packet for us is found as long as it is live, however full the table was.
pub fn heard_is_found()
    ensures { (cache : Cache) (now later : Moment) (packet : ArpPacket) (ours : Addr)
        → IsTrue (same_addr packet.target_addr ours) → IsTrue (is_live 1200000 later now)
        → look later packet.sender_addr (after_hear now packet ours cache) ≡ Some packet.sender_mac }
{}

/// No other request for an address may go out in the second after one did, nor, at any moment of the clock, at the very moment of that one
/// (RFC 1122 section 2.3.2.1).
pub fn asked_once_a_second()
    ensures second { (now later : Moment) (addr : Addr) (asked : List Asked)
        → IsTrue (may_ask now addr asked) → IsTrue (is_live 1000 later now)
        → may_ask later addr (asked_after now addr asked) ≡ false }
    ensures moment { (now : Moment) (addr : Addr) (asked : List Asked)
        → IsTrue (may_ask now addr asked) → may_ask now addr (asked_after now addr asked) ≡ false }
{}

/// Whatever happens to a cache, what is looked up of an address is the MAC that the last packet from it told (RFC 826), and
/// that packet is still live.
pub fn found_was_heard()
    ensures { (most : ℕ) (events : List Event) (now : Moment) (addr : Addr) (mac : Mac)
        → look now addr (cache_after most events) ≡ Some mac
        → (heard : Moment) × IsLastFrom events addr mac heard × IsTrue (is_live 1200000 now heard) }
{}

/// A packet hides no other address than its sender's: where there is a place more, or where the packet is for another, each other
/// address is looked up as before (RFC 826).
pub fn others_stay()
    ensures room { (cache : Cache) (now later : Moment) (packet : ArpPacket) (ours addr : Addr)
        → addr ≢ packet.sender_addr → length cache.pairs < cache.most
        → look later addr (after_hear now packet ours cache) ≡ look later addr cache }
    ensures not_ours { (cache : Cache) (now later : Moment) (packet : ArpPacket) (ours addr : Addr)
        → addr ≢ packet.sender_addr → packet.target_addr ≢ ours
        → look later addr (after_hear now packet ours cache) ≡ look later addr cache }
{}

/// What is looked up then or later doesn't depend on whether the cache was aged (RFC 1122 section 2.3.2.1).
pub fn aging_hides_nothing()
    ensures { (cache : Cache) (now later : Moment) (addr : Addr) → now.0 ≤ later.0
        → look later addr (after_age now cache) ≡ look later addr cache }
{}

/// Of what was aged, nothing is left that was not heard in the last 20 minutes (RFC 1122 section 2.3.2.1).
pub fn aging_forgets()
    ensures { (cache : Cache) (now : Moment) → All (λ pair. IsTrue (is_live 1200000 now pair.heard)) (after_age now cache).pairs }
{}

/// A request may go out where fewer than 64 are noted, and none of them for its address is of this moment or of the second before it.
pub fn asked_where_there_is_room()
    ensures { (now : Moment) (addr : Addr) (asked : List Asked) → length asked < 64
        → All (λ note. note.addr ≡ addr → (note.at.0 < now.0) × (is_live 1000 now note.at ≡ false)) asked
        → IsTrue (may_ask now addr asked) }
{}

/// Once a request for an address was let out, no other may go out in the second after it, nor at its very moment, whatever else happens to
/// the cache until then (RFC 1122 section 2.3.2.1).
pub fn noted_while_live()
    ensures second { (cache : Cache) (now later : Moment) (addr : Addr) (between : List Event)
        → IsTrue (may_ask now addr cache.asked) → IsTrue (is_live 1000 later now)
        → All (λ event. (moment_of event).0 ≤ later.0) between
        → may_ask later addr (fold after_event (after_ask now addr cache) between).asked ≡ false }
    ensures moment { (cache : Cache) (now : Moment) (addr : Addr) (between : List Event)
        → IsTrue (may_ask now addr cache.asked) → All (λ event. (moment_of event).0 ≤ now.0) between
        → may_ask now addr (fold after_event (after_ask now addr cache) between).asked ≡ false }
{}

/// So many requests may go out at a moment, whatever they are for, as `requests_left` counts: each leaves one fewer, and where none is left,
/// none may go out.
pub fn requests_run_out()
    ensures fewer { (now : Moment) (addr : Addr) (asked : List Asked) → IsTrue (may_ask now addr asked)
        → requests_left now (asked_after now addr asked) + 1 ≡ requests_left now asked }
    ensures none { (now : Moment) (addr : Addr) (asked : List Asked) → requests_left now asked ≡ 0 → may_ask now addr asked ≡ false }
{}

/// There is one moment at most from which a request for an address may go out, so what `ArpCache::next_ask` answers is
/// determined; and `ask` lets one out exactly where `may_ask` says so, by their contracts.
pub fn one_next_ask()
    ensures { (addr : Addr) (asked : List Asked) (first second : Option Moment)
        → IsNextAsk addr asked first → IsNextAsk addr asked second → first ≡ second }
{}

/// What the public constant is: a packet for IPv4 over Ethernet has 28 octets (RFC 826).
pub fn constants()
    ensures { LEN ≡ 28 }
{}
