//! Laws of what acknowledgements report of octets that are kept ahead of a gap (RFC 2018).

ghost use Rattle.std.specs.Prelude.{◌≡◌, ◌≢◌, ℕ, ◌<◌, ◌≤◌, ◌^◌, ◌⊎◌, ◌↔◌, ◌&&◌, true, false, List, [], ◌∷◌, length};
ghost use Rattle.ipv4.specs.declared.addr.Endpoint.{Endpoint};
ghost use Rattle.clock.specs.declared.moment.Moment.{Moment};
ghost use Rattle.stream_buf.specs.Receiving.{ranges};
ghost use Rattle.congestion.specs.Control.{is_selective};
ghost use Rattle.tcp_segment.specs.declared.TheConstants.{MOST_BLOCKS};
ghost use Rattle.tcp_segment.specs.declared.blocks.Block.{Block};
ghost use Rattle.tcp_segment.specs.Segment.{Segment, sack_permitted_of, blocks_of};
ghost use Rattle.tcp_halves.specs.Halves.{Room};
ghost use Rattle.tcp_halves.specs.Numbers.{is_before};
ghost use Rattle.tcp_halves.specs.Reports.{IsKept, IsOf, IsOfOne};
ghost use Rattle.tcp_state.specs.declared.state.State.{State};
ghost use Rattle.tcp_state.specs.declared.emission.Due.{Due};
ghost use Rattle.tcp_state.specs.View.{View, IsSound, is_syn_sent, opened_actively};
ghost use Rattle.tcp_state.specs.Arrival.{opened_passively, is_receiving, is_read, after_segment_at};
ghost use Rattle.tcp_state.specs.Due.{flags_of};
ghost use Rattle.tcp_state.specs.Edges.{Event, after_event};
ghost use Rattle.tcp_state.specs.Opening.{TakesSyn, HearsSyn};
ghost use Rattle.tcp_state.specs.Said.{segment_of};

/// What an acknowledgement alone reports is kept ahead of a gap: no octet that was read, and none that never came. Its first block has the first octet of the last segment that began ahead of a gap, where that is kept, and
/// where there are no more ranges than an option has room for, it reports all that is kept. No other segment reports anything: none with octets, SYN, FIN or RST, and no probe (RFC 2018 sections 3 and 4).
pub fn acknowledgements_report_what_is_kept()
    ensures kept { (v : View) (due : Due) (number : ℕ) → IsSound v → number < 2 ^ 32 → IsOfOne (blocks_of (segment_of v due)) number → IsKept v.receiving number }
    ensures all { (v : View) (number : ℕ) → IsSound v → v.reporting.sacks ≡ true → number < 2 ^ 32 → ranges v.receiving.kept ≤ MOST_BLOCKS → IsKept v.receiving number → IsOfOne (blocks_of (segment_of v Due.Ack)) number }
    ensures first { (v : View) → IsSound v → v.reporting.sacks ≡ true → v.reporting.latest.0 < 2 ^ 32 → IsKept v.receiving v.reporting.latest.0
        → (first : Block) × (others : List Block) × (blocks_of (segment_of v Due.Ack) ≡ first ∷ others) × IsOf first v.reporting.latest.0 }
    ensures latest { (v : View) (s : Segment) (now : Moment) → v.released ≡ false → is_receiving v.state ≡ true → is_read v s ≡ true → 0 < length s.octets
        → is_before v.receiving.rnext s.number ≡ true → (after_segment_at v s now).reporting.latest.0 ≡ s.number }
    ensures alone { (v : View) (due : Due) → due ≢ Due.Ack → blocks_of (segment_of v due) ≡ [] }
    ensures unasked { (v : View) (due : Due) → v.reporting.sacks ≡ false → blocks_of (segment_of v due) ≡ [] }
{}

/// Reports are made exactly where both sides' SYNs say that they are taken (RFC 2018 section 2), whichever side opens. Our SYN says so where its caller's host takes them, a SYN-ACK where the SYN said so too, and no other
/// segment does. In SYN-SENT nothing but a SYN that is taken changes what our SYN says, and past it no event changes what was settled.
pub fn reports_are_made_where_both_sides_say_so()
    ensures offered { (room : Room) (local peer : Endpoint) (isn : ℕ) (now : Moment) → (opened_actively room local peer isn now).reporting.sacks ≡ is_selective room.manner.control }
    ensures accepted { (room : Room) (local peer : Endpoint) (isn : ℕ) (syn : Segment) (now : Moment)
        → (opened_passively room local peer isn syn now).reporting.sacks ≡ (is_selective room.manner.control && sack_permitted_of syn) }
    ensures answered { (v : View) (s : Segment) (now : Moment) → v.state ≡ State.SynSent → TakesSyn v s now
        → (after_event v (Event.Hears s now)).reporting.sacks ≡ (v.reporting.sacks && sack_permitted_of s) }
    ensures stays { (v : View) (e : Event) → (is_syn_sent v.state ≡ false) ⊎ (is_syn_sent (after_event v e).state ≡ true) → (after_event v e).reporting.sacks ≡ v.reporting.sacks }
    ensures waits { (v : View) (e : Event) → v.state ≡ State.SynSent → ((after_event v e).reporting.sacks ≡ v.reporting.sacks) ⊎ HearsSyn v e }
    ensures told { (v : View) (due : Due) → sack_permitted_of (segment_of v due) ≡ (let f = flags_of v due in f.syn && v.reporting.sacks) }
{}
