//! A link in memory, which keeps what passed and tells it, and which loses, repeats and holds back frames by a list.

ghost use Rattle.std.specs.Prelude.{◌≡◌, ◌≤◌, ◌<◌, ◌++◌, [], ◌∷◌, Some, take, length, min, vec_len, vec_capacity, IfOk, IfSome, OnOk, OnErr, is_err};
ghost use Rattle.devices.specs.Streams.{counted};

use super::{Link, LinkFault};
use crate::plan::Plan;
use clock::Moment;
use ether::FRAME_MAX;
use sides::Side;
use std::alloc::{AllocError, Global};

/// A frame that passed into a link or out of it.
#[derive(Debug, PartialEq, Eq, Drop)]
pub enum Passage {
    /// It was taken from the host of this side.
    Taken(Side, Vec<u8>),
    /// It was given to the host of this side.
    Given(Side, Vec<u8>),
}

/// What a link does to one of the frames that it takes, by its number, counted from 1 over both sides.
#[derive(Clone, Copy, Debug, PartialEq, Eq)]
pub enum Treatment {
    /// It is lost.
    Lose(u64),
    /// It is given twice.
    Repeat(u64),
    /// It is held back until so many later frames were taken.
    HoldBack(u64, u64),
}

/// A frame on its way.
#[derive(Debug, Drop)]
struct Waiting {
    to: Side,
    octets: Vec<u8>,
    due: u64,
    copies: u64,
}

/// A link in memory. Without a list of treatments it gives each frame once, in the order in which it took them.
#[derive(Debug, Drop)]
pub struct MemoryLink<'a> {
    alloc: Global,
    treatments: &'a [Treatment],
    passages: Vec<Passage>,
    waiting: Vec<Waiting>,
    taken: u64,
    plan: Plan,
    failures: u64,
}

impl<'a> MemoryLink<'a> {
    ghost use Rattle.devices.specs.Passages.{taken, Gives};
    ghost use Rattle.devices.specs.Told.{told_of};

    /// A link that took nothing yet and treats frames by this list, with no failure so far and none planned.
    pub fn new(alloc: Global, treatments: &'a [Treatment]) -> Self
        ensures passages { result.passages.items ≡ [] }
        ensures failures { result.failures ≡ 0 }
    {
        MemoryLink {
            alloc,
            treatments,
            passages: Vec::new(alloc),
            waiting: Vec::new(alloc),
            taken: 0,
            plan: Plan::none(),
            failures: 0,
        }
    }

    /// The same, whose call `n`, counted from 1 over both kinds, fails.
    pub fn failing_at(mut self, n: u64) -> Self
        ensures passages { result.passages ≡ self.entry.passages }
        ensures failures { result.failures ≡ self.entry.failures }
    {
        self.plan = Plan::failing_at(n);
        self
    }

    /// The frames that passed, in order.
    pub fn passages(&self) -> &[Passage]
        ensures { result.now ≡ self.now.passages.items }
    {
        self.passages.as_slice()
    }

    /// Takes a frame, or nothing where there is no memory.
    #[tactic(auto, using(crate::proofs::TellLemmas::told_more))]
    fn take(&mut self, from: Side, frame: &[u8]) -> Result<(), AllocError>
        ensures failures { self.new.failures ≡ self.old.failures }
        ensures ok { OnOk result (told_of self.new.passages.items ≡ told_of self.old.passages.items ++ taken from frame.now ∷ []) }
        ensures err { OnErr result (self.new.passages.items ≡ self.old.passages.items) }
    {
        let number = self.taken.saturating_add(1);
        let (copies, delay) = fate(self.treatments, number);
        let octets = copied(self.alloc, frame)?;
        self.passages.reserve(1)?;
        if copies > 0 {
            self.waiting.push(Waiting {
                to: from.other(),
                octets: copied(self.alloc, frame)?,
                due: number.saturating_add(delay),
                copies,
            })?;
        }
        self.passages.push_reserved(Passage::Taken(from, octets));
        self.taken = number;
        Ok(())
    }

    /// Gives the first frame that is due to a side, or nothing where there is no memory.
    #[tactic(auto, using(crate::proofs::TellLemmas::told_more, crate::proofs::TellLemmas::told_same))]
    fn give(&mut self, to: Side, frame: &mut [u8; FRAME_MAX]) -> Result<Option<usize>, AllocError>
        ensures bound { IfOk result (λ given. IfSome given (λ len. len ≤ FRAME_MAX)) }
        ensures failures { self.new.failures ≡ self.old.failures }
        ensures told { Gives (Some (told_of self.old.passages.items)) (Some (told_of self.new.passages.items)) result to frame.new }
    {
        let taken = self.taken;
        let due = |waiting: &Waiting| waiting.to == to && waiting.due <= taken;
        let Some(place) = self.waiting.iter().position(due) else {
            return Ok(None);
        };
        let octets = front(self.alloc, self.waiting[place].octets.as_slice())?;
        self.passages.reserve(1)?;
        let len = octets.len();
        frame[..len].copy_from_slice(octets.as_slice());
        self.passages.push_reserved(Passage::Given(to, octets));
        self.count_down(place);
        Ok(Some(len))
    }

    /// One copy less of a frame that waits.
    fn count_down(&mut self, place: usize)
        requires { place < vec_len self.old.waiting }
        ensures passages { self.new.passages ≡ self.old.passages }
        ensures failures { self.new.failures ≡ self.old.failures }
    {
        if self.waiting[place].copies > 1 {
            self.waiting[place].copies -= 1;
        } else {
            self.waiting.remove(place);
        }
    }
}

/// How often a frame is given, and how many later ones are taken before.
fn fate(treatments: &[Treatment], number: u64) -> (u64, u64) {
    let (mut copies, mut delay) = (1, 0);
    for treatment in treatments {
        match *treatment {
            Treatment::Lose(n) if n == number => copies = 0,
            Treatment::Repeat(n) if n == number && copies > 0 => copies = 2,
            Treatment::HoldBack(n, later) if n == number => delay = later,
            _ => {}
        }
    }
    (copies, delay)
}

/// These octets again.
fn copied(alloc: Global, octets: &[u8]) -> Result<Vec<u8>, AllocError>
    ensures { IfOk result (λ copy. copy.items ≡ octets.now) }
{
    let mut copy = Vec::with_capacity(alloc, octets.len())?;
    copy.extend_from_slice(octets)?;
    Ok(copy)
}

/// The octets of a frame: the first of these, as many as a frame has at most.
fn front(alloc: Global, octets: &[u8]) -> Result<Vec<u8>, AllocError>
    ensures { IfOk result (λ copy. (copy.items ≡ take (min (length octets.now) FRAME_MAX) octets.now) × (vec_len copy ≤ FRAME_MAX)) }
{
    let len = octets.len().min(FRAME_MAX);
    copied(alloc, &octets[..len])
}

impl Link for MemoryLink<'_> {
    ghost use Rattle.devices.specs.Told.{told_of};

    ghost failures = { λ link. link.failures };

    ghost told = { λ link. Some (told_of link.passages.items) };

    ghost leads_to_itself = { λ l. tt };

    ghost leads_on = { λ l m n first second. tt };

    fn tick(&mut self, _moment: Moment) {}

    fn send(&mut self, from: Side, frame: &[u8]) -> Result<(), LinkFault> {
        if self.plan.fails_next() || self.take(from, frame).is_err() {
            self.failures = self.failures.saturating_add(1);
            return Err(LinkFault);
        }
        Ok(())
    }

    fn recv(&mut self, to: Side, frame: &mut [u8; FRAME_MAX]) -> Result<Option<usize>, LinkFault> {
        if self.plan.fails_next() {
            self.failures = self.failures.saturating_add(1);
            return Err(LinkFault);
        }
        match self.give(to, frame) {
            Ok(given) => Ok(given),
            Err(_) => {
                self.failures = self.failures.saturating_add(1);
                Err(LinkFault)
            }
        }
    }

    fn failures(&self) -> u64 {
        self.failures
    }
}
