//! Laws of the definitions that the contracts of this crate cite: each is the contract of a function that does nothing.

ghost use Rattle.std.specs.Prelude.{◌≡◌, ◌≢◌, ℕ, ◌+◌, ◌-◌, ◌*◌, ◌/◌, ◌%◌, ◌<◌, ◌≤◌, ◌^◌, List, [], ◌∷◌, ◌++◌, length, take, drop, map, All, Option, Some, None, Result, Ok, Err};
ghost use Rattle.std.specs.List.{flat_map};
ghost use Rattle.capture.specs.declared.fault.HeaderFault.TheVariants.{LinkType, NotACapture, Short, Version};
ghost use Rattle.capture.specs.declared.fault.RecordFault.{RecordFault};
ghost use Rattle.capture.specs.declared.format.Format.{Format};
ghost use Rattle.byteorder.specs.Endian.{little_bytes};
ghost use Rattle.capture.specs.declared.format.Fraction.TheVariants.{Microseconds, Nanoseconds};
ghost use Rattle.capture.specs.declared.format.Order.TheVariants.{Little, Big};
ghost use Rattle.capture.specs.declared.header.Header.{Header};
ghost use Rattle.capture.specs.declared.header.TheConstants.{HEADER_LEN};
ghost use Rattle.capture.specs.declared.record.TheConstants.{MOST_OCTETS, RECORD_HEAD_LEN};
ghost use Rattle.capture.specs.Capture.{Entry, Frame, IsEntry, IsToldWhole, capture_of, entry_head, entry_octets, entry_of, header_octets, magic_octets, number_in, number_octets, our_header, our_header_octets, version_octets};
ghost use Rattle.capture.specs.Cutting.{lack_in, whole_count};
ghost use Rattle.capture.specs.Reading.{AreRead, Record, Unread, answer_in, moment_of, opened, read_as, record_of, rest_in};

/// A capture is written in turn: the header, and then for each frame what stands before its octets, and these.
pub fn written_in_turn()
    ensures none { capture_of [] ≡ our_header_octets }
    ensures more { (frames : List Frame) (frame : Frame)
        → capture_of (frames ++ frame ∷ []) ≡ capture_of frames ++ (entry_head Little (entry_of frame) ++ frame.octets) }
{}

/// What a capture begins with, octet by octet, as other programs read it: the magic number of microseconds, the lowest octet first, version 2.4, no correction of the time and no accuracy, 262,144
/// octets of a frame at most, and link type 1, Ethernet. The record of a frame has the second and the microseconds of its moment, and twice the frame's length. The magic numbers of the four formats
/// are those of libpcap.
pub fn other_programs_read_it()
    ensures header { our_header_octets ≡ 0xd4 ∷ 0xc3 ∷ 0xb2 ∷ 0xa1 ∷ 2 ∷ 0 ∷ 4 ∷ 0 ∷ 0 ∷ 0 ∷ 0 ∷ 0 ∷ 0 ∷ 0 ∷ 0 ∷ 0 ∷ 0 ∷ 0 ∷ 4 ∷ 0 ∷ 1 ∷ 0 ∷ 0 ∷ 0 ∷ [] }
    ensures record_head { (frame : Frame) → entry_head Little (entry_of frame)
        ≡ little_bytes 4 (frame.moment.0 / 1000 % 2 ^ 32) ++ little_bytes 4 (frame.moment.0 % 1000 * 1000) ++ little_bytes 4 (length frame.octets) ++ little_bytes 4 (length frame.octets) }
    ensures microseconds { (magic_octets (record { order = Little; fraction = Microseconds }) ≡ 0xd4 ∷ 0xc3 ∷ 0xb2 ∷ 0xa1 ∷ [])
        × (magic_octets (record { order = Big; fraction = Microseconds }) ≡ 0xa1 ∷ 0xb2 ∷ 0xc3 ∷ 0xd4 ∷ []) }
    ensures nanoseconds { (magic_octets (record { order = Little; fraction = Nanoseconds }) ≡ 0x4d ∷ 0x3c ∷ 0xb2 ∷ 0xa1 ∷ [])
        × (magic_octets (record { order = Big; fraction = Nanoseconds }) ≡ 0xa1 ∷ 0xb2 ∷ 0x3c ∷ 0x4d ∷ []) }
{}

/// A capture that was written is read as its frames, in order, and then the end: each with its moment and all of its octets, where
/// the moment lies below 2^32 seconds, and the frame has 262,144 octets at most.
pub fn written_is_read()
    ensures opened { (frames : List Frame)
        → opened (capture_of frames) ≡ Ok (record { header = our_header; octets = flat_map (entry_octets Little) (map entry_of frames) }) }
    ensures read { (frames : List Frame) → All IsToldWhole frames
        → AreRead our_header (flat_map (entry_octets Little) (map entry_of frames)) (map record_of frames) None }
    ensures moment { (frame : Frame) → moment_of (record_of frame) ≡ frame.moment }
{}

/// A capture that was written and then cut after any number of octets is read up to the last frame whose record it has whole, and
/// then it is told what the next record lacks, or the end, where it is cut between two records. Cut within its header, it is told
/// how many octets of that are missing.
pub fn cut_is_read()
    ensures header { (frames : List Frame) (n : ℕ) → n < 24 → opened (take n (capture_of frames)) ≡ Err (Short (24 - n)) }
    ensures opened { (frames : List Frame) (n : ℕ) → opened (take (24 + n) (capture_of frames))
        ≡ Ok (record { header = our_header; octets = take n (flat_map (entry_octets Little) (map entry_of frames)) }) }
    ensures read { (frames : List Frame) (n : ℕ) → All IsToldWhole frames
        → AreRead our_header (take n (flat_map (entry_octets Little) (map entry_of frames)))
        (map record_of (take (whole_count n (map entry_of frames)) frames)) (lack_in n (map entry_of frames)) }
{}

/// A header is read as it is spelled, in either order and with either kind of fractions, and what stands behind it is left. Cut,
/// it is told how many octets are missing.
pub fn header_is_read()
    ensures whole { (header : Header) (zone accuracy : ℕ) (behind : List ℕ) → header.snaplen < 2 ^ 32
        → opened (header_octets header zone accuracy ++ behind) ≡ Ok (record { header = header; octets = behind }) }
    ensures cut { (header : Header) (zone accuracy : ℕ) (behind : List ℕ) (n : ℕ) → header.snaplen < 2 ^ 32 → n < 24
        → opened (take n (header_octets header zone accuracy ++ behind)) ≡ Err (Short (24 - n)) }
{}

/// Octets that begin with no header are refused by the first of its faults, from left to right: they end within the magic number, it is none
/// of the four, they end within the header, the version isn't 2.4, the link type isn't Ethernet's.
pub fn the_first_fault_is_told()
    ensures cut_in_magic { (octets : List ℕ) → length octets < 4 → opened octets ≡ Err (Short (24 - length octets)) }
    ensures no_magic { (octets : List ℕ) → All (λ octet. octet < 256) octets → 4 ≤ length octets → ((f : Format) → take 4 octets ≢ magic_octets f)
        → opened octets ≡ Err (NotACapture (number_in Little 4 octets)) }
    ensures cut { (f : Format) (rest : List ℕ) → length rest < 20 → opened (magic_octets f ++ rest) ≡ Err (Short (20 - length rest)) }
    ensures version { (f : Format) (major minor : ℕ) (rest : List ℕ) → major < 2 ^ 16 → minor < 2 ^ 16 → 16 ≤ length rest → ((major ≡ 2) × (minor ≡ 4) → ⊥)
        → opened (magic_octets f ++ version_octets f major minor ++ rest) ≡ Err (Version major minor) }
    ensures link_type { (f : Format) (passed_over rest : List ℕ) (link : ℕ) → length passed_over ≡ 12 → link < 2 ^ 32 → link ≢ 1
        → opened (magic_octets f ++ version_octets f 2 4 ++ passed_over ++ number_octets f.order 4 link ++ rest) ≡ Err (LinkType link) }
{}

/// All octets are read in one way: records, and then the end of the capture, or a fault.
pub fn one_reading()
    ensures some { (header : Header) (octets : List ℕ) → (rs : List Record) × (end : Option RecordFault) × AreRead header octets rs end }
    ensures one { (header : Header) (octets : List ℕ) (rs ss : List Record) (a b : Option RecordFault)
        → AreRead header octets rs a → AreRead header octets ss b → (rs ≡ ss) × (a ≡ b) }
{}

/// The octets of records are read as these records, in order, and then the end, whatever the header tells of byte order and
/// fractions. Cut after any number of octets, they are read up to the last whole record, and then it is told what the next one
/// lacks, or the end, where they are cut between two records.
pub fn records_are_read()
    ensures whole { (header : Header) (entries : List Entry) → All IsEntry entries
        → AreRead header (flat_map (entry_octets header.format.order) entries) (map (read_as header) entries) None }
    ensures cut { (header : Header) (entries : List Entry) (n : ℕ) → All IsEntry entries
        → AreRead header (take n (flat_map (entry_octets header.format.order) entries)) (map (read_as header) (take (whole_count n entries) entries)) (lack_in n entries) }
{}

/// The same records read the same in either order of octets, whole or cut after any number of octets.
pub fn either_order()
    ensures { (first second : Header) (entries : List Entry) (n : ℕ) (rs : List Record) (end : Option RecordFault)
        → first.format.fraction ≡ second.format.fraction → first.snaplen ≡ second.snaplen → All IsEntry entries
        → AreRead first (take n (flat_map (entry_octets first.format.order) entries)) rs end
        → AreRead second (take n (flat_map (entry_octets second.format.order) entries)) rs end }
{}

/// What is read as a header, or as a record, is spelled so: nothing is read of octets that spell none.
pub fn read_is_spelled()
    ensures header { (octets : List ℕ) (u : Unread) → All (λ octet. octet < 256) octets → opened octets ≡ Ok u
        → (zone : ℕ) × (accuracy : ℕ) × (octets ≡ header_octets u.header zone accuracy ++ u.octets) }
    ensures one_record { (header : Header) (octets : List ℕ) (r : Record) → All (λ octet. octet < 256) octets → answer_in header octets ≡ Some (Ok r)
        → (e : Entry) × IsEntry e × (octets ≡ entry_octets header.format.order e ++ rest_in header octets) × (r ≡ read_as header e) }
{}

/// What the public constants are: the lengths of both heads, and libpcap's greatest snapshot length, in octets.
pub fn constants()
    ensures header { HEADER_LEN ≡ 24 }
    ensures record_head { RECORD_HEAD_LEN ≡ 16 }
    ensures most { MOST_OCTETS ≡ 262144 }
{}
