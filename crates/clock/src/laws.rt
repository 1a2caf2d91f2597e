//! Laws of the definitions that the contracts of this crate cite: each is the contract of a function
//! that does nothing.

ghost use Rattle.std.specs.Prelude.{◌≡◌, ◌&&◌, ◌||◌, Option};
ghost use Rattle.clock.specs.declared.moment.Moment.{Moment};
ghost use Rattle.clock.specs.declared.moment.TheConstants.{HOP_WAIT};
ghost use Rattle.clock.specs.Moments.{has_come, is_over, later, sooner};

/// The sooner of two deadlines has come exactly where either has.
pub fn sooner_comes_with_either()
    ensures { (a : Option Moment) (b : Option Moment) (now : Moment) → has_come (sooner a b) now ≡ (has_come a now || has_come b now) }
{}

/// A wait to the later of two ends is over exactly where the waits to both are.
pub fn later_ends_with_both()
    ensures { (a : Option Moment) (b : Option Moment) (now : Moment) → is_over (later a b) now ≡ (is_over a now && is_over b now) }
{}

/// What the public constant is: three seconds, which are this stack's own.
pub fn constants()
    ensures hop_wait { HOP_WAIT ≡ 3000 }
{}
