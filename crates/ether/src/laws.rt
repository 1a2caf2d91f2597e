//! Laws of the definitions that the contracts of this crate cite: each is the contract of a function that does nothing.

ghost use Rattle.std.specs.Prelude.{◌≡◌, ◌↔◌, List, ℕ, ◌+◌, ◌<◌, ◌^◌, length, take, drop, max, replicate, All, Some, None, Result, Ok, Err};
ghost use Rattle.byteorder.specs.Endian.{big_bytes};
ghost use Rattle.ether.specs.declared.head.Head.{Head};
ghost use Rattle.ether.specs.declared.head.TheConstants.{ETHERTYPE_ARP, ETHERTYPE_IPV4, FRAME_MAX, HEADER_LEN, LEAST_PAYLOAD, MOST_PAYLOAD};
ghost use Rattle.ether.specs.declared.mac.TheConstants.Mac.{BROADCAST};
ghost use Rattle.ether.specs.declared.view.FrameFault.{FrameFault};
ghost use Rattle.ether.specs.declared.view.FrameFault.TheVariants.{Short};
ghost use Rattle.ether.specs.Frame.{Frame, Spells, IsParsed, sent, spelling};
ghost use Rattle.ether.specs.Reading.{frame_in};

/// Octets spell at most one frame (RFC 894).
pub fn one_frame()
    ensures { (first second : Frame) (octets : List ℕ) → Spells first octets → Spells second octets → first ≡ second }
{}

/// Each field of a frame stands in its place: the first six octets are the destination, the next six the source, then come the two of the type, the
/// higher one first, and from octet 14 on stands the payload (RFC 894).
pub fn fields_stand_in_their_places()
    ensures destination { (f : Frame) (octets : List ℕ) → Spells f octets → take 6 octets ≡ f.destination.0 }
    ensures source { (f : Frame) (octets : List ℕ) → Spells f octets → take 6 (drop 6 octets) ≡ f.source.0 }
    ensures kind { (f : Frame) (octets : List ℕ) → Spells f octets → take 2 (drop 12 octets) ≡ big_bytes 2 f.kind }
    ensures payload { (f : Frame) (octets : List ℕ) → Spells f octets → drop 14 octets ≡ f.payload }
{}

/// For all octets there is one answer that `EtherView::parse` may give, and it is `Short` exactly for fewer than 14, the
/// octets of a head (RFC 894).
pub fn one_answer()
    ensures one { (octets : List ℕ) (first second : Result Frame FrameFault) → IsParsed octets first → IsParsed octets second → first ≡ second }
    ensures short { (octets : List ℕ) → All (λ octet. octet < 256) octets → (IsParsed octets (Err Short) ↔ (length octets < 14)) }
{}

/// The plain reading of octets from left to right finds the frame that `EtherView::parse` answers, and none where it answers
/// `Short` (RFC 894).
pub fn read_plainly()
    ensures ok { (octets : List ℕ) (frame : Frame) → IsParsed octets (Ok frame) → frame_in octets ≡ Some frame }
    ensures err { (octets : List ℕ) → All (λ octet. octet < 256) octets → IsParsed octets (Err Short) → frame_in octets ≡ None }
    ensures spelled { (octets : List ℕ) (frame : Frame) → All (λ octet. octet < 256) octets → frame_in octets ≡ Some frame → Spells frame octets }
{}

/// What `Head::emit` writes spells the frame that is meant, and so parses to it; its payload has 46 octets at least (RFC 894).
pub fn emitted_parses()
    ensures spelled { (head : Head) (payload : List ℕ) → length head.destination.0 ≡ 6 → length head.source.0 ≡ 6 → head.kind < 2 ^ 16
        → Spells (sent head payload) (spelling (sent head payload)) }
    ensures parsed { (head : Head) (payload : List ℕ) (answer : Result Frame FrameFault)
        → length head.destination.0 ≡ 6 → length head.source.0 ≡ 6 → head.kind < 2 ^ 16
        → IsParsed (spelling (sent head payload)) answer → answer ≡ Ok (sent head payload) }
    ensures len { (head : Head) (payload : List ℕ) → length head.destination.0 ≡ 6 → length head.source.0 ≡ 6
        → length (spelling (sent head payload)) ≡ 14 + max (length payload) LEAST_PAYLOAD }
{}

/// What the public constants are: a payload has 46 to 1,500 octets (RFC 894), so a frame with its head of 14 has 1,514 at most,
/// the types of IPv4 and of ARP (RFC 894, RFC 826), and the address of every interface has all bits set (RFC 894, IEEE 802).
pub fn constants()
    ensures least { LEAST_PAYLOAD ≡ 46 }
    ensures most { MOST_PAYLOAD ≡ 1500 }
    ensures header { HEADER_LEN ≡ 14 }
    ensures space { FRAME_MAX ≡ 14 + MOST_PAYLOAD }
    ensures types { (ETHERTYPE_IPV4 ≡ 0x0800) × (ETHERTYPE_ARP ≡ 0x0806) }
    ensures broadcast { BROADCAST ≡ record { 0 = replicate 6 255 } }
{}
