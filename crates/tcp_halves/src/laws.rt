//! Laws of the definitions that the contracts of this crate cite: each is the contract of a function that does nothing.

ghost use Rattle.std.specs.Prelude.{◌≡◌, ◌⊎◌, ℕ, ◌+◌, ◌<◌, ◌≤◌, ◌^◌, true, List, ◌∷◌, length};
ghost use Rattle.stream_buf.specs.Receiving.{ranges, IsReceiving};
ghost use Rattle.tcp_segment.specs.declared.TheConstants.{MOST_BLOCKS};
ghost use Rattle.tcp_segment.specs.declared.blocks.Block.{Block};
ghost use Rattle.tcp_segment.specs.Wire.{past};
ghost use Rattle.tcp_halves.specs.Halves.{Sending, Receiving};
ghost use Rattle.tcp_halves.specs.Stream.{bare_number, receive_window, is_acceptable, buffer_of};
ghost use Rattle.tcp_halves.specs.Heard.{HaveMet, settled};
ghost use Rattle.tcp_halves.specs.Windows.{updates_window, after_syn_heard, after_window_update};
ghost use Rattle.tcp_halves.specs.Blocks.{reported};
ghost use Rattle.tcp_halves.specs.Reports.{IsKept, IsOf, IsOfOne};

/// Reports name octets that are kept ahead of a gap, and no others: none that was read, nor one that never came. The first block has the octet of the
/// latest segment, where that is kept; and where no more ranges are kept than an option has room for, all that is kept is reported (RFC 2018 sections 3
/// and 4).
pub fn reports_are_of_what_is_kept()
    ensures kept { (r : Receiving) (latest number : ℕ) → IsReceiving (buffer_of r) → length r.kept ≤ 2 ^ 30 → r.rnext < 2 ^ 32 → number < 2 ^ 32 → IsOfOne (reported r latest) number → IsKept r number }
    ensures first { (r : Receiving) (latest : ℕ) → length r.kept ≤ 2 ^ 30 → r.rnext < 2 ^ 32 → latest < 2 ^ 32 → IsKept r latest
        → (first : Block) × (others : List Block) × (reported r latest ≡ first ∷ others) × IsOf first latest }
    ensures all { (r : Receiving) (latest number : ℕ) → length r.kept ≤ 2 ^ 30 → r.rnext < 2 ^ 32 → number < 2 ^ 32 → ranges r.kept ≤ MOST_BLOCKS → IsKept r number → IsOfOne (reported r latest) number }
    ensures few { (r : Receiving) (latest : ℕ) → length (reported r latest) ≤ MOST_BLOCKS }
{}

/// What brings nothing is heard, whatever windows the two ends have (RFC 9293 sections 3.8.6.1 and 3.10.7.4): where the peer's RCV.NXT stands at SND.UNA, at SND.NXT or between, and what went out, but for a number that only a probe of its
/// closed window took, lies within what the peer told, an acknowledgement alone is acceptable there.
pub fn what_brings_nothing_is_heard()
    ensures { (s : Sending) (r : Receiving) → HaveMet s r → settled s ≤ past r.rnext s.una + receive_window r → is_acceptable r (bare_number s) 0 ≡ true }
{}

/// The largest window that the peer advertised is kept (RFC 9293 section 3.8.6.2.1): none that is believed is larger, it never gets less, and nothing raises it but a window that is told.
pub fn the_largest_window_is_kept()
    ensures syn { (s : Sending) (number window smss : ℕ) → let t = after_syn_heard s number window smss in (window ≤ t.max_window) × (s.max_window ≤ t.max_window) × ((t.max_window ≡ window) ⊎ (t.max_window ≡ s.max_window)) }
    ensures told { (s : Sending) (number ack window : ℕ) → updates_window s number ack ≡ true
        → let t = after_window_update s number ack window in (window ≤ t.max_window) × (s.max_window ≤ t.max_window) × ((t.max_window ≡ window) ⊎ (t.max_window ≡ s.max_window)) }
{}
