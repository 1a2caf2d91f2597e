//! Which of the two hosts of a link.

ghost use Rattle.std.specs.Prelude.{◌≡◌};
ghost use Rattle.sides.specs.Sides.{same_side, other_side};

/// One of the two hosts.
#[derive(Clone, Copy, PartialEq, Eq, Debug)]
pub enum Side {
    /// The first host.
    A,
    /// The second host.
    B,
}

impl Side {
    /// Whether this is that side.
    pub fn is(self, other: Side) -> bool
        ensures { result ≡ same_side self other }
    {
        matches!((self, other), (Side::A, Side::A) | (Side::B, Side::B))
    }

    /// The other host.
    pub fn other(self) -> Side
        ensures { result ≡ other_side self }
    {
        match self {
            Side::A => Side::B,
            Side::B => Side::A,
        }
    }
}
