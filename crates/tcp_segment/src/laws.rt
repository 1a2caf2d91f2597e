//! Laws of the definitions that the contracts of this crate cite: each is the contract of a function
//! that does nothing.

ghost use Rattle.std.specs.Prelude.{◌≡◌, ℕ, ◌+◌, ◌-◌, ◌*◌, ◌<◌, ◌≤◌, ◌%◌, ◌^◌, ◌↔◌, true, false, ◌&&◌, if◌then◌else◌, pos, ◌-ℤ◌, List, [], ◌∷◌, ◌++◌, All, length, take, drop, get_or, Option, Some, None, Result, Ok, Err};
ghost use Rattle.byteorder.specs.Endian.{big_bytes};
ghost use Rattle.ipv4.specs.declared.addr.Addr.{Addr};
ghost use Rattle.tcp_segment.specs.declared.TheConstants.{FIXED_LEN, MOST_BLOCKS, MSS, DEFAULT_MSS, LEAST_MSS, SHIFT, MAX_SHIFT};
ghost use Rattle.tcp_segment.specs.declared.blocks.Block.{Block};
ghost use Rattle.tcp_segment.specs.declared.fault.SegmentFault.{SegmentFault};
ghost use Rattle.tcp_segment.specs.declared.head.Head.{Head};
ghost use Rattle.tcp_segment.specs.Blocks.{BlockFits};
ghost use Rattle.tcp_segment.specs.Options.{HeaderOption, EndOfOptions, NoOperation, MaximumSegmentSize, WindowScale, option_octets, sack_permitted, sack, TellsNoSize, TellsNoScale, ReportsNothing, last_mss, last_scale, last_blocks};
ghost use Rattle.tcp_segment.specs.Segment.{Segment, HasForm, IsParsed, SumIsRight, Spells, mss_option_of, scale_option_of, sack_permitted_of, blocks_of, smss_of, shift_of, span_of};
ghost use Rattle.tcp_segment.specs.Reading.{segment_in, segment_or_fault};
ghost use Rattle.tcp_segment.specs.Sent.{CanBeSent, sent_blocks, report, sent_segment, sent_offset, sent_octets};
ghost use Rattle.tcp_segment.specs.Wire.{wire, past, difference, IsBefore, IsAtMost};

/// The sequence numbers of stream positions (RFC 9293 section 3.4): how far one is past another, their
/// difference and their order are those of the positions, as long as these are near enough.
pub fn positions()
    ensures past { (initial p q : ℕ) → p ≤ q → q - p < 2 ^ 32 → past (wire initial q) (wire initial p) ≡ q - p }
    ensures reached { (initial p number : ℕ) → number < 2 ^ 32 → wire initial (p + past number (wire initial p)) ≡ number }
    ensures one_position { (initial p q : ℕ) → p ≤ q → q - p < 2 ^ 32 → wire initial p ≡ wire initial q → p ≡ q }
    ensures add { (initial p length : ℕ) → (wire initial p + length) % 2 ^ 32 ≡ wire initial (p + length) }
    ensures difference { (initial p q : ℕ) → p < q + 2 ^ 31 → q < p + 2 ^ 31
        → difference (wire initial q) (wire initial p) ≡ pos q -ℤ pos p }
    ensures before { (initial p q : ℕ) → p < q + 2 ^ 31 → q < p + 2 ^ 31
        → (IsBefore (wire initial p) (wire initial q) ↔ (p < q)) }
    ensures at_most { (initial p q : ℕ) → p < q + 2 ^ 31 → q < p + 2 ^ 31
        → (IsAtMost (wire initial p) (wire initial q) ↔ (p ≤ q)) }
{}

/// For all octets there is one answer that `TcpView::parse` may give (RFC 9293 section 3.1).
pub fn one_answer()
    ensures { (src dst : Addr) (octets : List ℕ) (first second : Result Segment SegmentFault)
        → IsParsed src dst octets first → IsParsed src dst octets second → first ≡ second }
{}

/// The plain reading of octets from left to right finds the segment that `TcpView::parse` answers, and none where it answers a
/// fault (RFC 9293 sections 3.1 and 3.2).
pub fn read_plainly()
    ensures ok { (src dst : Addr) (octets : List ℕ) (segment : Segment) → IsParsed src dst octets (Ok segment) → segment_in src dst octets ≡ Some segment }
    ensures err { (src dst : Addr) (octets : List ℕ) (fault : SegmentFault) → ((i : ℕ) → get_or octets i 0 < 256) → IsParsed src dst octets (Err fault) → segment_in src dst octets ≡ None }
{}

/// The plain reading of octets that finds a fault too answers what `TcpView::parse` answers, a segment or the same fault, and a
/// segment exactly where the reading above finds that one (RFC 9293 sections 3.1 and 3.2).
pub fn faults_read_plainly()
    ensures ok { (src dst : Addr) (octets : List ℕ) (segment : Segment) → IsParsed src dst octets (Ok segment) → segment_or_fault src dst octets ≡ Ok segment }
    ensures err { (src dst : Addr) (octets : List ℕ) (fault : SegmentFault) → All (λ octet. octet < 256) octets → IsParsed src dst octets (Err fault) → segment_or_fault src dst octets ≡ Err fault }
    ensures parsed { (src dst : Addr) (octets : List ℕ) → All (λ octet. octet < 256) octets → IsParsed src dst octets (segment_or_fault src dst octets) }
    ensures alike { (src dst : Addr) (octets : List ℕ) (segment : Segment) → (segment_or_fault src dst octets ≡ Ok segment) ↔ (segment_in src dst octets ≡ Some segment) }
{}

/// Each field of a header stands in its place: the two ports, the sequence number and the acknowledgement number of four octets each, the data offset and the control bits, the
/// window, the checksum and the urgent pointer. Of the control bits FIN counts 1, SYN 2, RST 4, PSH 8, ACK 16 and URG 32 (RFC 9293 section 3.1). What is sent says what its head does.
pub fn fields_stand_in_their_places()
    ensures ports { (segment : Segment) (octets : List ℕ) → HasForm segment octets → take 4 octets ≡ big_bytes 2 segment.source ++ big_bytes 2 segment.destination }
    ensures numbers { (segment : Segment) (octets : List ℕ) → HasForm segment octets
        → take 8 (drop 4 octets) ≡ big_bytes 4 segment.number ++ big_bytes 4 segment.acknowledgement }
    ensures control { (segment : Segment) (octets : List ℕ) (form : HasForm segment octets) → let flags = segment.flags in
        take 2 (drop 12 octets) ≡ big_bytes 2 (4096 * form.offset + 64 * form.reserved
        + ((if flags.fin then 1 else 0) + (if flags.syn then 2 else 0) + (if flags.rst then 4 else 0) + (if flags.psh then 8 else 0) + (if flags.ack then 16 else 0) + (if flags.urg then 32 else 0))) }
    ensures window { (segment : Segment) (octets : List ℕ) → HasForm segment octets → take 2 (drop 14 octets) ≡ big_bytes 2 segment.window }
    ensures checksum { (segment : Segment) (octets : List ℕ) (form : HasForm segment octets) → take 2 (drop 16 octets) ≡ big_bytes 2 form.checksum }
    ensures urgent { (segment : Segment) (octets : List ℕ) → HasForm segment octets → take 2 (drop 18 octets) ≡ big_bytes 2 segment.urgent }
    ensures sent { (head : Head) (octets : List ℕ) → let segment = sent_segment head octets in
        (segment.source ≡ head.source) × (segment.destination ≡ head.destination) × (segment.number ≡ head.number.0) × (segment.acknowledgement ≡ head.acknowledgement.0)
        × (segment.flags ≡ head.flags) × (segment.window ≡ head.window) × (segment.octets ≡ octets) }
{}

/// The options by their octets: the end of the list is kind 0 and no operation kind 1, of one octet each; the maximum segment size is kind 2 with four octets (RFC 9293 section 3.2),
/// the window's shift kind 3 with three (RFC 7323 section 2.2), the permission of selective acknowledgements kind 4 with two, and a report of them kind 5, with the first number of each
/// block before the one behind its last (RFC 2018 sections 2 and 3).
pub fn options_have_their_kinds()
    ensures single { (option_octets EndOfOptions ≡ 0 ∷ []) × (option_octets NoOperation ≡ 1 ∷ []) }
    ensures size { (size : ℕ) → option_octets (MaximumSegmentSize size) ≡ 2 ∷ 4 ∷ big_bytes 2 size }
    ensures scale { (shift : ℕ) → option_octets (WindowScale shift) ≡ 3 ∷ 3 ∷ shift ∷ [] }
    ensures permission { option_octets sack_permitted ≡ 4 ∷ 2 ∷ [] }
    ensures report { (block : Block) → option_octets (sack (block ∷ [])) ≡ 5 ∷ 10 ∷ big_bytes 4 block.left.0 ++ big_bytes 4 block.right.0 }
{}

/// Of several MSS options the last one stands, whatever stands before it, and without one there is no such size (RFC 9293
/// section 3.7.1).
pub fn last_size_stands()
    ensures last { (before after : List HeaderOption) (size : ℕ) → All TellsNoSize after
        → last_mss None (before ++ MaximumSegmentSize size ∷ after) ≡ Some size }
    ensures none { (options : List HeaderOption) → All TellsNoSize options → last_mss None options ≡ None }
{}

/// Of several window scale options the last one stands too, and without one there is no shift (RFC 7323 section 2.2).
pub fn last_scale_stands()
    ensures last { (before after : List HeaderOption) (shift : ℕ) → All TellsNoScale after
        → last_scale None (before ++ WindowScale shift ∷ after) ≡ Some shift }
    ensures none { (options : List HeaderOption) → All TellsNoScale options → last_scale None options ≡ None }
{}

/// Of several options that report blocks the last one stands, and without one there are no blocks (RFC 2018 section 3).
pub fn last_report_stands()
    ensures last { (before after : List HeaderOption) (blocks : List Block) → 0 < length blocks → length blocks ≤ MOST_BLOCKS → All BlockFits blocks → All ReportsNothing after
        → last_blocks [] (before ++ sack blocks ∷ after) ≡ blocks }
    ensures none { (options : List HeaderOption) → All ReportsNothing options → last_blocks [] options ≡ [] }
{}

/// What a SYN tells of its sender is believed: segments go to it with as many octets as its MSS option says, but 1,460 at most, which a frame has room for, 64 at least, which is this stack's own limit,
/// and 536 where it has no such option (RFC 9293 section 3.7.1); and its windows are shifted as it says, by 14 at most, and not at all where it doesn't (RFC 7323 section 2.3). A segment has a number for
/// each of its octets, and one each for SYN and FIN (RFC 9293 section 3.4).
pub fn what_a_syn_tells_is_believed()
    ensures size { (segment : Segment) (size : ℕ) → mss_option_of segment ≡ Some size → 64 ≤ size → size ≤ 1460 → smss_of segment ≡ size }
    ensures most { (segment : Segment) (size : ℕ) → mss_option_of segment ≡ Some size → 1460 ≤ size → smss_of segment ≡ 1460 }
    ensures least { (segment : Segment) (size : ℕ) → mss_option_of segment ≡ Some size → size ≤ 64 → smss_of segment ≡ 64 }
    ensures usual { (segment : Segment) → mss_option_of segment ≡ None → smss_of segment ≡ 536 }
    ensures shift { (segment : Segment) (shift : ℕ) → scale_option_of segment ≡ Some shift → shift ≤ 14 → shift_of segment ≡ shift }
    ensures most_shift { (segment : Segment) (shift : ℕ) → scale_option_of segment ≡ Some shift → 14 ≤ shift → shift_of segment ≡ 14 }
    ensures no_shift { (segment : Segment) → scale_option_of segment ≡ None → shift_of segment ≡ 0 }
    ensures span { (segment : Segment) → span_of segment ≡ length segment.octets + (if segment.flags.syn then 1 else 0) + (if segment.flags.fin then 1 else 0) }
{}

/// Without SYN the blocks that the head reports go out, and no option where it reports none. With SYN the size of this stack always does,
/// its shift exactly where the head offers to scale windows, and the permission exactly where it offers to take selective acknowledgements
/// (RFC 9293 section 3.7.1, RFC 7323 section 2.2, RFC 2018 sections 2 and 3).
pub fn options_go_with_syn()
    ensures without { (head : Head) (octets : List ℕ) → head.flags.syn ≡ false → head.blocks ≡ [] → (sent_segment head octets).options ≡ [] }
    ensures reports { (head : Head) (octets : List ℕ) → head.flags.syn ≡ false → (sent_segment head octets).options ≡ report (sent_blocks head) }
    ensures size { (head : Head) (octets : List ℕ) → head.flags.syn ≡ true → mss_option_of (sent_segment head octets) ≡ Some MSS }
    ensures scale { (head : Head) (octets : List ℕ) → head.flags.syn ≡ true
        → scale_option_of (sent_segment head octets) ≡ (if head.scales then Some SHIFT else None) }
    ensures permission { (head : Head) (octets : List ℕ) → sack_permitted_of (sent_segment head octets) ≡ (head.flags.syn && head.sacks) }
    ensures blocks { (head : Head) (octets : List ℕ) → All BlockFits head.blocks → blocks_of (sent_segment head octets) ≡ (if head.flags.syn then [] else sent_blocks head) }
{}

/// What this stack sends has one spelling: no other octets have its form, reserved bits of zero and a right checksum. A
/// checksum of 0xFFFF is set apart, which is right too where 0 is (RFC 9293 section 3.1).
pub fn one_spelling()
    ensures { (src dst : Addr) (head : Head) (octets xs : List ℕ) (form : HasForm (sent_segment head octets) xs) → CanBeSent src dst head octets
        → SumIsRight src dst xs → form.reserved ≡ 0 → form.checksum < 65535 → xs ≡ sent_octets src dst head octets }
{}

/// What `Head::emit` writes spells the segment that is meant, and so parses to it (RFC 9293 section 3.1).
pub fn emitted_parses()
    ensures len { (src dst : Addr) (head : Head) (octets : List ℕ)
        → length (sent_octets src dst head octets) ≡ 4 * sent_offset head + length octets }
    ensures spelled { (src dst : Addr) (head : Head) (octets : List ℕ) → CanBeSent src dst head octets
        → Spells src dst (sent_segment head octets) (sent_octets src dst head octets) }
    ensures parsed { (src dst : Addr) (head : Head) (octets : List ℕ) (answer : Result Segment SegmentFault)
        → CanBeSent src dst head octets → IsParsed src dst (sent_octets src dst head octets) answer
        → answer ≡ Ok (sent_segment head octets) }
{}

/// A header has from 20 to 56 octets: with four blocks it is the longest (RFC 2018 section 3).
pub fn headers_are_short()
    ensures { (head : Head) → (FIXED_LEN ≤ 4 * sent_offset head) × (4 * sent_offset head ≤ 56) }
{}

/// What the shifts are (RFC 7323 sections 2.2 and 2.3), and the segment sizes: our own, which a frame of Ethernet has room for (RFC 894), that of a peer that tells none (RFC 9293
/// section 3.7.1), and the least that is believed, which is this stack's own. A header has 20 octets without options (RFC 9293 section 3.1), and a report four blocks at most (RFC 2018 section 3).
pub fn constants()
    ensures shifts { (SHIFT ≡ 5) × (MAX_SHIFT ≡ 14) }
    ensures sizes { (MSS ≡ 1460) × (DEFAULT_MSS ≡ 536) × (LEAST_MSS ≡ 64) }
    ensures header { FIXED_LEN ≡ 20 }
    ensures blocks { MOST_BLOCKS ≡ 4 }
{}
