//! The frames that were emitted, and what is noted of each as it goes out.

ghost use Rattle.std.specs.Prelude.{◌≡◌};

use ipv4::Pair;
use sides::Side;

/// A frame that a host emitted.
#[derive(Drop)]
pub(super) struct Frame {
    /// Who emitted it.
    pub(super) sender: Side,
    /// The frame itself.
    pub(super) octets: Vec<u8>,
    /// The connection that it belongs to; none where it carries no TCP.
    pub(super) note: Option<Note>,
}

/// The connection that a frame belongs to, and how many octets its two ends had taken from their callers as the frame went out.
#[derive(Clone, Copy)]
pub(super) struct Note {
    pub(super) pair: Pair,
    pub(super) epoch: u64,
    pub(super) at_a: u128,
    pub(super) at_b: u128,
}
