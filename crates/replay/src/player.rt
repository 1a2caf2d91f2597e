//! Who plays rows, and has patience once.

use crate::failure::Failure;
use crate::rows::{Line, Row};
use host::{Config, DropCause, Refusal};
use script::{Action, Command, Item, Style, event, show, show_unfair};
use std::alloc::{AllocError, Global};
use wire_sim::{Answer, Event, Side, Unfair, World, config};

/// What the world answers to an event, or why it refuses it.
type Outcome = Result<Answer, Unfair>;

/// Plays rows in worlds of the two hosts of a script. Memory may be refused it once in all.
#[derive(Drop)]
pub struct Player {
    alloc: Global,
    was_refused: bool,
}

impl Player {
    /// A player whom nothing was refused.
    pub fn new(alloc: Global) -> Self {
        Player {
            alloc,
            was_refused: false,
        }
    }

    /// Notes that memory was refused; `NoMemory` the second time.
    fn forgive(&mut self) -> Result<(), Failure> {
        if self.was_refused {
            return Err(Failure::NoMemory);
        }
        self.was_refused = true;
        Ok(())
    }

    /// A world in which nothing happened yet. It stands on the heap, since every function that had it on the stack would want room for two hosts there.
    pub fn world(&mut self) -> Result<Box<World>, Failure> {
        match new_world(self.alloc) {
            Err(Failure::NoMemory) => {
                self.forgive()?;
                new_world(self.alloc)
            }
            made => made,
        }
    }

    /// Gives the event of a line to the world, whose answer must be the line's.
    pub fn step(&mut self, world: &mut World, line: &Line) -> Result<(), Failure> {
        let mut outcome = world.step(self.event(line)?);
        if wants_memory(&outcome) {
            self.forgive()?;
            outcome = world.step(self.event(line)?);
        }
        self.compare(line, &outcome)
    }

    /// Gives the events of a row to a new world at once. Answers whether memory was there for all; if not, those before the first to which it was refused
    /// are answered as the row says, as else all are.
    pub fn run(&mut self, row: &Row) -> Result<bool, Failure> {
        let events = self.events(row)?;
        let mut outcomes = Vec::new(self.alloc);
        let mut world = self.world()?;
        if world.run(events.as_slice(), &mut outcomes).is_err() {
            if !world.trace().is_empty() || !outcomes.is_empty() {
                return Err(Failure::Run);
            }
            self.forgive()?;
            world.run(events.as_slice(), &mut outcomes)?;
        }
        self.compare_all(row, outcomes.as_slice())
    }

    /// Compares outcomes with a row's answers, up to the first that wants memory. Answers whether none does.
    fn compare_all(&mut self, row: &Row, outcomes: &[Outcome]) -> Result<bool, Failure> {
        if outcomes.len() != row.lines.len() {
            return Err(Failure::Run);
        }
        for (line, outcome) in row.lines.iter().zip(outcomes.iter()) {
            if wants_memory(outcome) {
                self.forgive()?;
                return Ok(false);
            }
            self.compare(line, outcome)?;
        }
        Ok(true)
    }

    /// Looks whether an outcome is a line's answer.
    fn compare(&mut self, line: &Line, outcome: &Outcome) -> Result<(), Failure> {
        let style = style(line);
        let shown = match shown(self.alloc, outcome, style) {
            Ok(shown) => shown,
            Err(AllocError) => {
                self.forgive()?;
                shown(self.alloc, outcome, style)?
            }
        };
        if shown.as_str() == line.1 {
            Ok(())
        } else {
            Err(Failure::Answer(line.0))
        }
    }

    /// The event of a line.
    fn event(&mut self, line: &Line) -> Result<Event, Failure> {
        match event_of(self.alloc, line) {
            Err(Failure::NoMemory) => {
                self.forgive()?;
                event_of(self.alloc, line)
            }
            made => made,
        }
    }

    /// The events of a row.
    fn events(&mut self, row: &Row) -> Result<Vec<Event>, Failure> {
        match events_of(self.alloc, row) {
            Err(Failure::NoMemory) => {
                self.forgive()?;
                events_of(self.alloc, row)
            }
            made => made,
        }
    }
}

/// A world of the two hosts of a script.
fn new_world(alloc: Global) -> Result<Box<World>, Failure> {
    let world = World::new(alloc, set_up(Side::A), set_up(Side::B))?;
    Box::new(alloc, world).map_err(|_| Failure::NoMemory)
}

/// How a side's host is set up: without the window scale option, so that a connection has two buffers of 65,535 octets.
fn set_up(side: Side) -> Config {
    config(side).with_scale(false)
}

/// The events of a row.
fn events_of(alloc: Global, row: &Row) -> Result<Vec<Event>, Failure> {
    let mut events = Vec::new(alloc);
    for line in row.lines {
        let event = event_of(alloc, line)?;
        if events.push(event).is_err() {
            return Err(Failure::NoMemory);
        }
    }
    Ok(events)
}

/// The event of a line.
fn event_of(alloc: Global, line: &Line) -> Result<Event, Failure> {
    match Item::parse(alloc, line.0.as_bytes())? {
        Some(Item::Do(Command::At(side, action))) => Ok(event(alloc, side, &action)?),
        _ => Err(Failure::Line(line.0)),
    }
}

/// Whether memory was refused to an event. It is given again then.
fn wants_memory(outcome: &Outcome) -> bool {
    matches!(
        outcome,
        Err(Unfair::NoMemory)
            | Ok(Answer::Refused(Refusal::ENOMEM))
            | Ok(Answer::Dropped(DropCause::NoRoom))
    )
}

/// What is printed of an outcome.
fn shown(alloc: Global, outcome: &Outcome, style: Style) -> Result<String, AllocError> {
    let mut text = String::new(alloc);
    match outcome {
        Ok(answer) => show(answer, style, &mut text)?,
        Err(unfair) => show_unfair(*unfair, &mut text)?,
    }
    Ok(text)
}

/// How the octets that a line reads are printed.
fn style(line: &Line) -> Style {
    if line.0.contains(" countfrom ") {
        Style::Count
    } else {
        Style::Text
    }
}
