//! The frames that reached a host.

ghost use Rattle.std.specs.Prelude.{◌≡◌, ◌||◌, ℕ, false, OnOk};
ghost use Rattle.ladder.specs.Passages.{brings};
ghost use Rattle.ladder.specs.Arrivals.{has_number};

use crate::passage::Passage;
use std::alloc::{AllocError, Global};
use std::collections::BTreeSet;

/// The frames that reached a host, by number.
#[derive(Drop)]
pub(crate) struct Arrivals {
    numbers: BTreeSet<usize>,
}

impl Arrivals {
    /// None.
    pub(crate) fn new(alloc: Global) -> Arrivals
        ensures { (index : ℕ) → has_number result index ≡ false }
    {
        Arrivals {
            numbers: BTreeSet::new(alloc),
        }
    }

    /// Whether the frame with this number is one of them.
    pub(crate) fn has(&self, index: usize) -> bool
        ensures { result ≡ has_number self.now index }
    {
        self.numbers.contains(&index)
    }

    /// Adds the frame that reaches a host by this, if one does.
    pub(crate) fn note(&mut self, passage: Passage) -> Result<(), AllocError>
        ensures { OnOk result ((index : ℕ) → has_number self.new index ≡ (has_number self.old index || brings index passage)) }
    {
        match passage {
            Passage::Brought(_, index, fate) if fate.reaches() => {
                self.numbers.insert(index)?;
                Ok(())
            }
            _ => Ok(()),
        }
    }
}
