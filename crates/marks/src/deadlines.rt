//! Deadlines by place.

ghost use Rattle.std.specs.Prelude.{◌≡◌, ◌<◌, ◌≤◌, ◌++◌, [], ◌∷◌, length, set, IfOk, remove, fold, None};
ghost use Rattle.clock.specs.Moments.{has_come, sooner};
ghost use Rattle.marks.specs.First.{first_from};

use crate::MOST;
use crate::tree::{LAST, NEVER, climb, renew};
use crate::walk::first_come;
use clock::{Moment, sooner};
use fixed_vec::FixedVec;
use std::alloc::{AllocError, Global};
use std::marker::Model;

/// The deadlines of the entries of a table, by place: the least of them, and the next that has come, are found without a walk.
#[derive(Drop)]
pub struct Deadlines {
    nodes: Vec<u64>,
    moments: FixedVec<Option<Moment>>,
}

impl Model for Deadlines {
    ghost use Rattle.std.specs.Prelude.{Option, ◌≤◌};
    ghost use Rattle.marks.specs.Tree.{IsTreeOf};
    ghost use Rattle.clock.specs.declared.moment.Moment.{Moment};
    ghost use Rattle.fixed_vec.specs.FixedVec.{FixedVec as Items};
    ghost use Rattle.marks.specs.declared.TheConstants.{MOST};

    ghost Value = { Items (Option Moment) };

    ghost view = { λ d. d.moments };

    ghost invariant = { λ d. (d.moments.most ≤ MOST) × IsTreeOf d.moments.most d.nodes.items d.moments.items };
}

impl Deadlines {
    /// No deadlines, with room for those of `most` places. Fails only where memory is refused.
    pub fn new(alloc: Global, most: usize) -> Result<Deadlines, AllocError>
        requires { most ≤ MOST }
        ensures { IfOk result (λ deadlines. deadlines ≡ record { items = []; most = most }) }
    {
        let width = most.max(2).next_power_of_two();
        let nodes = vec![in alloc; NEVER; width]?;
        let moments = FixedVec::new(alloc, most)?;
        Ok(Deadlines { nodes, moments })
    }

    /// Adds a place behind the others, with its deadline. There must be room.
    pub fn push(&mut self, deadline: Option<Moment>)
        requires { length self.old.items < self.old.most }
        ensures items { self.new.items ≡ self.old.items ++ deadline ∷ [] }
        ensures most { self.new.most ≡ self.old.most }
    {
        let leaf = self.nodes.len() + self.moments.len();
        self.moments.push(deadline);
        climb(&mut self.nodes, &self.moments, leaf / 2);
    }

    /// What the deadline in this place is from now on.
    pub fn set(&mut self, place: usize, deadline: Option<Moment>)
        requires { place < length self.old.items }
        ensures items { self.new.items ≡ set self.old.items place deadline }
        ensures most { self.new.most ≡ self.old.most }
    {
        if self.moments[place] == deadline {
            return;
        }
        self.moments[place] = deadline;
        let leaf = self.nodes.len() + place;
        climb(&mut self.nodes, &self.moments, leaf / 2);
    }

    /// Takes out a place, and moves the later ones down.
    pub fn remove(&mut self, place: usize)
        requires { place < length self.old.items }
        ensures items { self.new.items ≡ remove self.old.items place }
        ensures most { self.new.most ≡ self.old.most }
    {
        let first = self.nodes.len() + place;
        let last = self.nodes.len() + (self.moments.len() - 1);
        self.moments.remove(place);
        renew(&mut self.nodes, &self.moments, first / 2, last / 2);
    }

    /// The least deadline.
    pub fn least(&self) -> Option<Moment>
        ensures { result ≡ fold sooner None self.now.items }
    {
        let least = self.nodes[1];
        if least < LAST {
            return Some(Moment(least));
        }
        if least == NEVER {
            return None;
        }
        // Only the last two moments of the clock share a key, and so want a walk over all.
        self.moments
            .iter()
            .fold(None, |least, deadline| sooner(least, *deadline))
    }

    /// The first place from `from` on whose deadline has come at this moment.
    pub fn first_come(&self, from: usize, now: Moment) -> Option<usize>
        ensures { result ≡ first_from (λ deadline. has_come deadline now) from self.now.items }
    {
        first_come(&self.nodes, &self.moments, from, now)
    }
}
