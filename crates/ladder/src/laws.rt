//! Laws of the definitions that the contracts of this crate cite: each is the contract of a function that does nothing.

ghost use Rattle.std.specs.Prelude.{◌≡◌, ◌<◌, ◌^◌, ℕ, Some};
ghost use Rattle.std.specs.Fmt.{decimal};
ghost use Rattle.tcp_segment.specs.declared.seq.Seq.{Seq};
ghost use Rattle.tcp_segment.specs.Wire.{wire};
ghost use Rattle.ladder.specs.declared.numbers.Numbering.TheVariants.{Relative};
ghost use Rattle.ladder.specs.Numbers.{number_text};
ghost use Rattle.ladder.specs.Ladder.{EveryLineFits};

/// No line of a ladder is wider than 80 columns.
pub fn every_line_fits()
    ensures { EveryLineFits }
{}

/// A relative number is a position in the stream: 0 for the SYN, and 1 for the first octet (RFC 9293 section 3.4).
pub fn numbers_are_positions()
    ensures { (initial : Seq) (position : ℕ) → initial.0 < 2 ^ 32 → position < 2 ^ 32
        → number_text Relative (Some initial) (wire initial.0 position) ≡ decimal position }
{}
