//! The two hosts of a run, as its frames name them.

ghost use Rattle.std.specs.Prelude.{◌≡◌};
ghost use Rattle.ladder.specs.Ladder.{node_of};

use ether::Mac;
use ipv4::Addr;
use wire_sim::Side;

/// A host on the link, as frames name it.
#[derive(Clone, Copy, Debug, PartialEq, Eq)]
pub struct Node {
    /// The MAC of its interface (RFC 894).
    pub mac: Mac,
    /// Its address (RFC 791 section 3.2).
    pub addr: Addr,
}

/// The two hosts of a run.
#[derive(Clone, Copy, Debug, PartialEq, Eq)]
pub struct Nodes {
    /// The host of side A, on the left.
    pub a: Node,
    /// The host of side B, on the right.
    pub b: Node,
}

impl Nodes {
    /// The host of a side.
    pub(crate) fn of(self, side: Side) -> Node
        ensures { result ≡ node_of self side }
    {
        match side {
            Side::A => self.a,
            Side::B => self.b,
        }
    }
}
