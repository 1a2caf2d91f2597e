//! The blocks of an option of selective acknowledgement (RFC 2018 section 3).

ghost use Rattle.std.specs.Prelude.{◌≡◌, ◌+◌, ◌*◌, ◌<◌, ◌≤◌, ◌^◌, ◌==◌, ℕ, [], ◌∷◌, ◌++◌, length, take, drop, All};
ghost use Rattle.byteorder.specs.Endian.{big_bytes};
ghost use Rattle.inet_sum.specs.Sum.{word_sum, ones_complement};
ghost use Rattle.tcp_segment.specs.Blocks.{BlockFits};
ghost use Rattle.tcp_segment.specs.Options.{block_octets};

use crate::MOST_BLOCKS;
use crate::seq::Seq;
use std::marker::Model;

/// Octets without a gap that the sender of a segment holds ahead of one (RFC 2018 section 3).
#[derive(Clone, Copy, Debug, PartialEq, Eq)]
pub struct Block {
    /// The number of the first of them.
    pub left: Seq,
    /// The number behind the last of them.
    pub right: Seq,
}

/// The length of a block, in octets.
pub(crate) const BLOCK_LEN: usize = 8;

impl Block {
    /// Its octets, in network order.
    fn octets(self) -> [u8; BLOCK_LEN]
        ensures { result ≡ big_bytes 4 self.left.0 ++ big_bytes 4 self.right.0 }
    {
        let [l0, l1, l2, l3] = self.left.0.to_be_bytes();
        let [r0, r1, r2, r3] = self.right.0.to_be_bytes();
        [l0, l1, l2, l3, r0, r1, r2, r3]
    }
}

/// What a place without a block holds.
const NOTHING: Block = Block {
    left: Seq(0),
    right: Seq(0),
};

/// At most `MOST_BLOCKS` blocks, in order: as many as an option has room for (RFC 2018 section 3).
#[derive(Clone, Copy, Debug, PartialEq, Eq)]
pub struct Blocks {
    items: [Block; MOST_BLOCKS],
    len: usize,
}

impl Model for Blocks {
    ghost use Rattle.std.specs.Prelude.{◌≡◌, ◌≤◌, List, length, take, All};
    ghost use Rattle.tcp_segment.specs.declared.blocks.Block.{Block};
    ghost use Rattle.tcp_segment.specs.Blocks.{BlockFits, filled, alike};

    ghost Value = { List Block };

    ghost view = { λ b. take b.len b.items };

    ghost inverse = { λ blocks. record { items = filled blocks; len = length blocks } };

    ghost inverse_ok = { λ b is. alike (λ xs n. record { items = xs; len = n }) _ _ _ _ is.2 is.1 };

    ghost invariant = { λ b. (b.len ≤ 4) × (length (take b.len b.items) ≡ b.len) × (filled (take b.len b.items) ≡ b.items) × All BlockFits (take b.len b.items) };
}

impl Blocks {
    /// No blocks.
    pub const NONE: Blocks = Blocks {
        items: [NOTHING; MOST_BLOCKS],
        len: 0,
    };

    /// How many there are.
    pub fn len(&self) -> usize
        ensures value { result ≡ length self.now }
        ensures bound { result ≤ MOST_BLOCKS }
    {
        self.len
    }

    /// Whether there are none.
    pub fn is_empty(&self) -> bool
        ensures { result ≡ (length self.now == 0) }
    {
        self.len == 0
    }

    /// Puts one behind the others. Where there are `MOST_BLOCKS` already it does nothing.
    pub fn push(&mut self, block: Block)
        ensures { self.new ≡ take MOST_BLOCKS (self.old ++ block ∷ []) }
    {
        if self.len < MOST_BLOCKS {
            self.items[self.len] = block;
            self.len += 1;
        }
    }

    /// All of them, in order.
    pub fn as_slice(&self) -> &[Block]
        ensures value { result.now ≡ self.now }
        ensures bound { length result.now ≤ MOST_BLOCKS }
        ensures fit { All BlockFits self.now }
    {
        &self.items[..self.len]
    }

    /// Their numbers are of their width, wherever they come from.
    pub(crate) fn numbers_fit(&self)
        ensures { All BlockFits self.now }
    {
        let _ = &self.items;
    }

    /// What the words of their octets come to, in one's complement: a number of 32 bits counts as its two words.
    #[cold]
    #[inline(never)]
    pub(crate) fn words(&self) -> u64
        ensures value { (more : ℕ) → ones_complement (result + more) ≡ ones_complement (word_sum (block_octets self.now) + more) }
        ensures bound { result < 2 ^ 36 }
        ensures few { length self.now ≤ MOST_BLOCKS }
    {
        let mut words = 0;
        for block in self.as_slice() {
            words += u64::from(block.left.0) + u64::from(block.right.0);
        }
        words
    }

    /// Writes their octets to the front of `out`.
    pub(crate) fn write(&self, out: &mut [u8])
        requires { BLOCK_LEN * length self.now ≤ length out.old }
        ensures { out.new ≡ block_octets self.now ++ drop (BLOCK_LEN * length self.now) out.old }
    {
        let mut at = 0;
        for block in self.as_slice() {
            out[at..at + BLOCK_LEN].copy_from_slice(&block.octets());
            at += BLOCK_LEN;
        }
    }
}
