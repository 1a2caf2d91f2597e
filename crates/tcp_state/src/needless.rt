//! What went out again and needn't have (RFC 2883, RFC 3708).

ghost use Rattle.std.specs.Prelude.{◌≡◌, true};
ghost use Rattle.tcp_state.specs.Arrival.{blocks_told, lies_in_first, came_twice, is_since_loss, tells_needless, given_back};
ghost use Rattle.tcp_state.specs.Resend.{excused_by, gives_back};

use crate::connection::Connection;
use tcp_segment::{Block, Blocks, Seq, TcpView};

impl Connection {
    /// Whether a segment that reports this tells that octets went out again which needn't have, since a segment last counted as lost, and not by a
    /// probe (RFC 3708 section 2).
    #[tactic(auto, unfolding(crate::specs::Arrival::tells_needless))]
    pub(crate) fn tells_needless(&self, segment: &TcpView<'_>, blocks: &Blocks) -> bool
        requires { blocks.now ≡ blocks_told self.now segment.now }
        ensures { result ≡ tells_needless self.now segment.now }
    {
        came_twice(segment.acknowledgement(), blocks)
            && self.is_since_loss(blocks)
            && self.resend.tail() == 0
            && !self.probes()
    }

    /// Whether the first block stands past what stood at SND.UNA when a segment last counted as lost.
    fn is_since_loss(&self, blocks: &Blocks) -> bool
        ensures { result ≡ is_since_loss self.now blocks.now }
    {
        let una = self.sender.una();
        match blocks.as_slice() {
            [block, ..] => {
                una.is_before(block.right) || una.past(block.right) < self.resend.since_loss()
            }
            [] => false,
        }
    }

    /// Octets went out again that needn't have. Where all that did so came twice, the window gets back what the loss took (RFC 3708
    /// section 3).
    #[cold]
    #[inline(never)]
    pub(crate) fn note_needless(&mut self)
        ensures { self.new ≡ (let resend = excused_by true self.old.resend in record self.old { resend = resend; congestion = given_back (gives_back true resend) self.old.congestion }) }
    {
        if self.resend.excuse() {
            self.congestion.undo();
        }
    }
}

/// Whether the first block of a segment with this acknowledgement tells that octets came twice (RFC 2883 section 4).
pub(crate) fn came_twice(acknowledgement: Seq, blocks: &Blocks) -> bool
    ensures { result ≡ came_twice acknowledgement.0 blocks.now }
{
    match blocks.as_slice() {
        [block, rest @ ..] => {
            !acknowledgement.is_before(block.right) || lies_in_first(*block, rest)
        }
        [] => false,
    }
}

/// Whether a block lies in the first of others.
fn lies_in_first(block: Block, others: &[Block]) -> bool
    ensures { result ≡ lies_in_first block others.now }
{
    match others {
        [other, ..] => !block.left.is_before(other.left) && !other.right.is_before(block.right),
        [] => false,
    }
}
