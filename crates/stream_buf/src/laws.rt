//! Laws of the definitions that the contracts of this crate cite, over every list of calls: each is the contract of a function that
//! does nothing.

ghost use Rattle.std.specs.Prelude.{◌≡◌, ◌↔◌, ℕ, ◌+◌, ◌<◌, ◌≤◌, ◌++◌, List, [], length, take, drop, Option, Some, None, IsSome, Any, EachIndex, slice_index, slice_index_or, slice_range};
ghost use Rattle.stream_buf.specs.Sending.{SendView, send_room, written_count, copied};
ghost use Rattle.stream_buf.specs.Receiving.{ReceiveView, front, runs, ranges, kept_count, read_count};
ghost use Rattle.stream_buf.specs.Ranges.{AreApart, covered};
ghost use Rattle.stream_buf.specs.Written.{SendEvent, written, AreSendCalls};
ghost use Rattle.stream_buf.specs.Received.{ReceiveEvent, Received, after_receive_event, received, in_order, by_place, AreReceiveCalls, Carry, ForgetNothing, IsInserted, Touches, beginnings};
ghost use Rattle.stream_buf.specs.Received.ReceiveEvent.{Inserts, Reads, Forgets};

/// What a send buffer holds is what it took without what was acknowledged, in order; and this with its room is its capacity, always
/// (RFC 9293 section 3.3.1).
pub fn held_is_unacknowledged()
    ensures held { (capacity : ℕ) (events : List SendEvent) → AreSendCalls capacity events
        → let w = written capacity events in w.buffer.held ≡ drop w.acknowledged w.taken }
    ensures acknowledged { (capacity : ℕ) (events : List SendEvent) → AreSendCalls capacity events
        → let w = written capacity events in w.acknowledged ≤ length w.taken }
    ensures room { (capacity : ℕ) (events : List SendEvent) → AreSendCalls capacity events
        → let w = written capacity events in (w.buffer.capacity ≡ capacity) × (length w.buffer.held + send_room w.buffer ≡ capacity) }
{}

/// A write takes all of its octets where there is room for them, and else as many as fill the buffer.
pub fn writes_fill()
    ensures all { (b : SendView) (octets : List ℕ) → length b.held + length octets ≤ b.capacity → written_count b octets ≡ length octets }
    ensures full { (b : SendView) (octets : List ℕ) → length b.held ≤ b.capacity → b.capacity ≤ length b.held + length octets
        → length b.held + written_count b octets ≡ b.capacity }
{}

/// What is copied from a place on are the octets that were taken for that place of the stream, behind those that were acknowledged.
pub fn copies_are_what_was_taken()
    ensures { (capacity : ℕ) (events : List SendEvent) (offset len : ℕ) → AreSendCalls capacity events
        → let w = written capacity events in offset + len ≤ length w.buffer.held
        → copied w.buffer offset len ≡ slice_range w.taken (w.acknowledged + offset) (w.acknowledged + offset + len) }
{}

/// Where each insertion carries octets of one stream, at their places, what became readable are the first octets of that stream, as
/// many as RCV.NXT counts, and what is kept ahead of a gap are its octets too (RFC 9293 section 3.4).
pub fn every_octet_is_of_the_stream()
    ensures counted { (capacity : ℕ) (events : List ReceiveEvent) → AreReceiveCalls capacity events
        → let r = received capacity events in length (in_order r) ≡ r.next }
    ensures readable { (stream : ℕ → ℕ) (capacity : ℕ) (events : List ReceiveEvent) → AreReceiveCalls capacity events → Carry stream capacity events
        → let r = received capacity events in EachIndex (in_order r) (λ k. slice_index (in_order r) k ≡ stream k) }
    ensures kept { (stream : ℕ → ℕ) (capacity : ℕ) (events : List ReceiveEvent) → AreReceiveCalls capacity events → Carry stream capacity events
        → let r = received capacity events in (distance octet : ℕ) → slice_index_or r.buffer.kept distance None ≡ Some octet → octet ≡ stream (r.next + distance) }
{}

/// What became readable stays so, and in its order: RCV.NXT never goes back, also where what is kept is forgotten.
pub fn readable_octets_stay()
    ensures stays { (capacity : ℕ) (events more : List ReceiveEvent)
        → let r = received capacity events in take (length (in_order r)) (in_order (received capacity (events ++ more))) ≡ in_order r }
    ensures forward { (capacity : ℕ) (events more : List ReceiveEvent)
        → let r = received capacity events in let later = received capacity (events ++ more) in r.next ≤ later.next }
{}

/// What came for a place of the stream stays there, kept or readable, where each insertion carries octets of one stream, until what is
/// kept is forgotten. What is in order stays at its place even then, whatever the insertions carry.
pub fn nothing_is_lost()
    ensures kept { (stream : ℕ → ℕ) (capacity : ℕ) (events more : List ReceiveEvent) → AreReceiveCalls capacity (events ++ more) → Carry stream capacity (events ++ more)
        → ForgetNothing more → (place octet : ℕ) → slice_index_or (by_place (received capacity events)) place None ≡ Some octet
        → slice_index_or (by_place (received capacity (events ++ more))) place None ≡ Some octet }
    ensures readable { (capacity : ℕ) (events more : List ReceiveEvent) (place : ℕ) → place < length (in_order (received capacity events))
        → slice_index_or (by_place (received capacity (events ++ more))) place None ≡ slice_index_or (by_place (received capacity events)) place None }
{}

/// Once what is kept is forgotten, no place keeps an octet, and RCV.NXT, what was read, what is readable and the room are as before.
pub fn nothing_is_kept_once_forgotten()
    ensures kept { (r : Received) (place : ℕ) → slice_index_or (after_receive_event r Forgets).buffer.kept place None ≡ None }
    ensures ranges { (r : Received) → ranges (after_receive_event r Forgets).buffer.kept ≡ 0 }
    ensures room { (r : Received) → length (after_receive_event r Forgets).buffer.kept ≡ length r.buffer.kept }
    ensures readable { (r : Received) → (after_receive_event r Forgets).buffer.readable ≡ r.buffer.readable }
    ensures read { (r : Received) → (after_receive_event r Forgets).read ≡ r.read }
    ensures next { (r : Received) → (after_receive_event r Forgets).next ≡ r.next }
{}

/// RCV.NXT is the first place for which no octet came: nothing is kept there, since it would be readable.
pub fn nothing_waits_at_next()
    ensures { (capacity : ℕ) (events : List ReceiveEvent) → AreReceiveCalls capacity events
        → let r = received capacity events in slice_index_or r.buffer.kept 0 None ≡ None }
{}

/// What can be read and the room are the capacity together, always; so the edge of the window never moves back, and moves by what is
/// read alone (RFC 9293 section 3.8.6).
pub fn the_edge_moves_by_reads()
    ensures room { (capacity : ℕ) (events : List ReceiveEvent) → AreReceiveCalls capacity events
        → let r = received capacity events in (r.buffer.capacity ≡ capacity) × (length r.buffer.readable + length r.buffer.kept ≡ capacity) }
    ensures edge { (capacity : ℕ) (events : List ReceiveEvent) → AreReceiveCalls capacity events
        → let r = received capacity events in r.next + length r.buffer.kept ≡ length r.read + capacity }
{}

/// There are as many ranges as places at which one begins, and at most 32.
pub fn few_ranges()
    ensures counted { (kept : List (Option ℕ)) → ranges kept ≡ beginnings kept (length kept) }
    ensures most { (capacity : ℕ) (events : List ReceiveEvent) → AreReceiveCalls capacity events
        → let r = received capacity events in ranges r.buffer.kept ≤ 32 }
{}

/// The ranges that are kept have the places that keep an octet, and no others. They are in order, none is empty, and a place without an
/// octet lies between each two and, where none stands at RCV.NXT, before the first (RFC 2018 section 3). There are as many as are
/// counted, and they have as many places as octets are kept.
pub fn kept_ranges_are_what_is_kept()
    ensures kept { (kept : List (Option ℕ)) (place : ℕ) → IsSome (slice_index_or kept place None)
        ↔ Any (λ r. (r.start ≤ place) × (place < r.end)) (runs kept) }
    ensures apart { (kept : List (Option ℕ)) → AreApart 0 (runs kept) }
    ensures ahead { (kept : List (Option ℕ)) → front kept ≡ [] → AreApart 1 (runs kept) }
    ensures counted { (kept : List (Option ℕ)) → length (runs kept) ≡ ranges kept }
    ensures octets { (kept : List (Option ℕ)) → covered (runs kept) ≡ kept_count kept }
{}

/// Octets that have room are taken whole where they begin at RCV.NXT, or touch what is kept, or there are fewer than 32 ranges. Others
/// would begin a 33rd: they change nothing.
pub fn insertions_are_taken()
    ensures first { (capacity : ℕ) (events : List ReceiveEvent) (octets : List ℕ) → AreReceiveCalls capacity events
        → let r = received capacity events in length octets ≤ length r.buffer.kept
        → IsInserted r 0 octets (after_receive_event r (Inserts 0 octets)) }
    ensures touching { (capacity : ℕ) (events : List ReceiveEvent) (distance : ℕ) (octets : List ℕ) → AreReceiveCalls capacity events
        → let r = received capacity events in distance + length octets ≤ length r.buffer.kept → Touches r.buffer.kept distance octets
        → IsInserted r distance octets (after_receive_event r (Inserts distance octets)) }
    ensures few { (capacity : ℕ) (events : List ReceiveEvent) (distance : ℕ) (octets : List ℕ) → AreReceiveCalls capacity events
        → let r = received capacity events in distance + length octets ≤ length r.buffer.kept → ranges r.buffer.kept < 32
        → IsInserted r distance octets (after_receive_event r (Inserts distance octets)) }
    ensures refused { (capacity : ℕ) (events : List ReceiveEvent) (distance : ℕ) (octets : List ℕ) → AreReceiveCalls capacity events
        → let r = received capacity events in distance + length octets ≤ length r.buffer.kept → 0 < distance → ranges r.buffer.kept ≡ 32
        → (Touches r.buffer.kept distance octets → ⊥) → after_receive_event r (Inserts distance octets) ≡ r }
{}

/// Octets at RCV.NXT that have room become readable at once, all of them.
pub fn octets_at_next_are_readable()
    ensures { (capacity : ℕ) (events : List ReceiveEvent) (octets : List ℕ) → AreReceiveCalls capacity events
        → let r = received capacity events in length octets ≤ length r.buffer.kept
        → let after = after_receive_event r (Inserts 0 octets) in r.next + length octets ≤ after.next }
{}

/// A read takes as many octets as are asked for, or all that can be read; what is kept stays at its place in the stream.
pub fn reads_take_what_there_is()
    ensures some { (b : ReceiveView) (len : ℕ) → len ≤ length b.readable → read_count b len ≡ len }
    ensures all { (b : ReceiveView) (len : ℕ) → length b.readable ≤ len → read_count b len ≡ length b.readable }
    ensures places { (capacity : ℕ) (events : List ReceiveEvent) (len place : ℕ)
        → let r = received capacity events in slice_index_or (by_place (after_receive_event r (Reads len))) place None ≡ slice_index_or (by_place r) place None }
{}
