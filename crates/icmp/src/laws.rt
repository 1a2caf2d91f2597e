//! Laws of the definitions that the contracts of this crate cite: each is the contract of a function that does nothing.

ghost use Rattle.std.specs.Prelude.{◌≡◌, ◌≢◌, ◌↔◌, ◌⊎◌, ℕ, ◌<◌, ◌≤◌, ◌^◌, List, [], ◌∷◌, length, take, drop, slice_index, All, Bool, false, Some, Result, Ok, Err};
ghost use Rattle.byteorder.specs.Endian.{big_bytes};
ghost use Rattle.inet_sum.specs.Sum.{sum_of};
ghost use Rattle.ipv4.specs.Datagram.{Datagram, IsDatagram, header_octets};
ghost use Rattle.ipv4.specs.Addresses.{IsUnicast};
ghost use Rattle.icmp.specs.declared.error.Reason.{Reason};
ghost use Rattle.icmp.specs.declared.error.Reason.TheVariants.{NetUnreachable, HostUnreachable, ProtocolUnreachable, PortUnreachable, FragmentationNeeded, SourceRouteFailed, TransitTimeExceeded, ReassemblyTimeExceeded};
ghost use Rattle.icmp.specs.declared.error.TheConstants.{QUOTED_LEN};
ghost use Rattle.icmp.specs.declared.fault.IcmpFault.{IcmpFault};
ghost use Rattle.icmp.specs.declared.fault.IcmpFault.TheVariants.{UpperHeader};
ghost use Rattle.icmp.specs.declared.head.TheConstants.{HEADER_LEN};
ghost use Rattle.icmp.specs.declared.kind.TheConstants.Kind.{ECHO_REPLY, DESTINATION_UNREACHABLE, ECHO, TIME_EXCEEDED, PARAMETER_PROBLEM};
ghost use Rattle.icmp.specs.declared.quote.Quote.{Quote};
ghost use Rattle.icmp.specs.MayAnswer.{MayAnswer};
ghost use Rattle.icmp.specs.Message.{Message, IsMessage, IsParsed, Spells, spelling};
ghost use Rattle.icmp.specs.Quotes.{Quotes, quote_of};
ghost use Rattle.icmp.specs.Reading.{message_or_fault, quote_in};
ghost use Rattle.icmp.specs.Sent.{echo_reply, reply_to, RepliesTo, error_for};

/// For all octets there is one answer that `IcmpView::parse` may give: the one that is read of them from left to right. It is
/// `UpperHeader` exactly for fewer than 8.
pub fn one_answer()
    ensures one { (octets : List ℕ) (first second : Result Message IcmpFault) → IsParsed octets first → IsParsed octets second → first ≡ second }
    ensures read { (octets : List ℕ) (answer : Result Message IcmpFault) → All (λ octet. octet < 256) octets
        → (IsParsed octets answer ↔ (message_or_fault octets ≡ answer)) }
    ensures short { (octets : List ℕ) → All (λ octet. octet < 256) octets → (IsParsed octets (Err UpperHeader) ↔ (length octets < 8)) }
{}

/// What is read as a message has a right checksum: all its octets have the one's complement sum 0xFFFF (RFC 792, RFC 1071). So has what the plain reading answers.
pub fn sums_are_tested()
    ensures parsed { (octets : List ℕ) (m : Message) → IsParsed octets (Ok m) → sum_of octets ≡ 65535 }
    ensures read { (octets : List ℕ) (m : Message) → All (λ octet. octet < 256) octets → message_or_fault octets ≡ Ok m → sum_of octets ≡ 65535 }
{}

/// What `IcmpView::emit_reply` writes has exactly the request's identifier, number and data, and parses to the reply.
pub fn reply_parses()
    ensures carries { (request : Message) → RepliesTo (reply_to request) request }
    ensures spelled { (request : Message) → IsMessage request → Spells (reply_to request) (spelling (reply_to request)) }
    ensures parsed { (request : Message) (answer : Result Message IcmpFault) → IsMessage request
        → IsParsed (spelling (reply_to request)) answer → answer ≡ Ok (reply_to request) }
{}

/// What `emit_echo_reply` writes parses to the reply that is meant.
pub fn echo_reply_parses()
    ensures spelled { (identifier number : ℕ) (octets : List ℕ) → identifier < 2 ^ 16 → number < 2 ^ 16
        → Spells (echo_reply identifier number octets) (spelling (echo_reply identifier number octets)) }
    ensures parsed { (identifier number : ℕ) (octets : List ℕ) (answer : Result Message IcmpFault) → identifier < 2 ^ 16 → number < 2 ^ 16
        → IsParsed (spelling (echo_reply identifier number octets)) answer → answer ≡ Ok (echo_reply identifier number octets) }
{}

/// What `emit_error` writes parses to the error that is meant.
pub fn error_parses()
    ensures spelled { (reason : Reason) (header payload : List ℕ)
        → Spells (error_for reason header payload) (spelling (error_for reason header payload)) }
    ensures parsed { (reason : Reason) (header payload : List ℕ) (answer : Result Message IcmpFault)
        → IsParsed (spelling (error_for reason header payload)) answer → answer ≡ Ok (error_for reason header payload) }
{}

/// Octets begin with one quote at most, the one that is read of them from left to right, and those of an error about a datagram with 8 octets of payload or more begin with that
/// datagram's: so its sender finds what it was about.
pub fn cause_is_quoted()
    ensures one { (first second : Quote) (octets : List ℕ) → Quotes first octets → Quotes second octets → first ≡ second }
    ensures read { (quote : Quote) (octets : List ℕ) → All (λ octet. octet < 256) octets → (Quotes quote octets ↔ (quote_in octets ≡ Some quote)) }
    ensures cause { (reason : Reason) (d : Datagram) → IsDatagram d → All (λ octet. octet < 256) d.payload → 8 ≤ length d.payload
        → Quotes (quote_of d) (error_for reason (header_octets d) d.payload).payload }
{}

/// Each field of a message stands in its place: type, code, checksum, the identifier and the number of an echo, and the data from octet 8 on (RFC 792).
pub fn fields_stand_in_their_places()
    ensures numbers { (m : Message) → take 2 (spelling m) ≡ m.kind ∷ m.code ∷ [] }
    ensures checksum { (m : Message) → take 2 (drop 2 (spelling m)) ≡ big_bytes 2 m.checksum }
    ensures identifier { (m : Message) → take 2 (drop 4 (spelling m)) ≡ big_bytes 2 m.identifier }
    ensures number { (m : Message) → take 2 (drop 6 (spelling m)) ≡ big_bytes 2 m.number }
    ensures payload { (m : Message) → drop 8 (spelling m) ≡ m.payload }
{}

/// An error tells its reason by type and code: a network, a host, a protocol and a port that can't be reached, fragmentation that is needed and forbidden, and a source route that
/// failed are type 3 with the codes 0 to 5; a time to live and a time for reassembly that ran out are type 11 with the codes 0 and 1 (RFC 792).
pub fn errors_tell_their_reasons()
    ensures net { (header payload : List ℕ) → take 2 (spelling (error_for NetUnreachable header payload)) ≡ 3 ∷ 0 ∷ [] }
    ensures host { (header payload : List ℕ) → take 2 (spelling (error_for HostUnreachable header payload)) ≡ 3 ∷ 1 ∷ [] }
    ensures protocol { (header payload : List ℕ) → take 2 (spelling (error_for ProtocolUnreachable header payload)) ≡ 3 ∷ 2 ∷ [] }
    ensures port { (header payload : List ℕ) → take 2 (spelling (error_for PortUnreachable header payload)) ≡ 3 ∷ 3 ∷ [] }
    ensures fragmentation { (header payload : List ℕ) → take 2 (spelling (error_for FragmentationNeeded header payload)) ≡ 3 ∷ 4 ∷ [] }
    ensures route { (header payload : List ℕ) → take 2 (spelling (error_for SourceRouteFailed header payload)) ≡ 3 ∷ 5 ∷ [] }
    ensures transit { (header payload : List ℕ) → take 2 (spelling (error_for TransitTimeExceeded header payload)) ≡ 11 ∷ 0 ∷ [] }
    ensures reassembly { (header payload : List ℕ) → take 2 (spelling (error_for ReassemblyTimeExceeded header payload)) ≡ 11 ∷ 1 ∷ [] }
{}

/// No error may answer an error, whoever sent it: a message of type 3 (destination unreachable), 4 (source quench), 5 (redirect), 11 (time exceeded) or 12 (parameter problem). None may
/// answer what was for all hosts of a link or for a group, a fragment but the first, or what names no single host as its source (RFC 1122 section 3.2.2).
pub fn what_is_never_answered()
    ensures error { (d : Datagram) (link_broadcast : Bool) (kind : ℕ) (rest : List ℕ) → d.protocol ≡ 1 → d.payload ≡ kind ∷ rest
        → (kind ≡ 3) ⊎ (kind ≡ 4) ⊎ (kind ≡ 5) ⊎ (kind ≡ 11) ⊎ (kind ≡ 12) → MayAnswer d link_broadcast → ⊥ }
    ensures broadcast { (d : Datagram) (link_broadcast : Bool) → MayAnswer d link_broadcast → (link_broadcast ≡ false) × (d.destination.0 ≢ 255 ∷ 255 ∷ 255 ∷ 255 ∷ []) }
    ensures group { (d : Datagram) (link_broadcast : Bool) → MayAnswer d link_broadcast → 224 ≤ slice_index d.destination.0 0 → slice_index d.destination.0 0 ≤ 239 → ⊥ }
    ensures fragment { (d : Datagram) (link_broadcast : Bool) → MayAnswer d link_broadcast → d.offset ≡ 0 }
    ensures source { (d : Datagram) (link_broadcast : Bool) → MayAnswer d link_broadcast → IsUnicast d.source }
{}

/// No datagram that carries an error of this stack may be answered by another error.
pub fn errors_are_unanswered()
    ensures { (reason : Reason) (header payload : List ℕ) (d : Datagram) (link_broadcast : Bool) → d.protocol ≡ 1
        → d.payload ≡ spelling (error_for reason header payload) → MayAnswer d link_broadcast → ⊥ }
{}

/// What the public constants are: the types of messages, a header of 8 octets, and the octets of a cause that an error quotes
/// behind the cause's header (RFC 792).
pub fn constants()
    ensures echo_reply { ECHO_REPLY ≡ record { 0 = 0 } }
    ensures unreachable { DESTINATION_UNREACHABLE ≡ record { 0 = 3 } }
    ensures echo { ECHO ≡ record { 0 = 8 } }
    ensures exceeded { TIME_EXCEEDED ≡ record { 0 = 11 } }
    ensures parameter { PARAMETER_PROBLEM ≡ record { 0 = 12 } }
    ensures header { HEADER_LEN ≡ 8 }
    ensures quoted { QUOTED_LEN ≡ 8 }
{}
