//! What happens to the frames of a run.

ghost use Rattle.std.specs.Prelude.{◌≡◌, Ok, Err};
ghost use Rattle.ladder.specs.Passages.{errand_of, passage_on, reaches};

use frames::DropCause;
use wire_sim::{Answer, Event, Side, Unfair};

/// What a frame came to that was brought to a host.
#[derive(Clone, Copy, Debug, PartialEq, Eq)]
pub enum Fate {
    /// The host took it.
    Taken,
    /// The host dropped it.
    Dropped(DropCause),
    /// The world didn't let the host have it.
    Refused(Unfair),
}

impl Fate {
    /// Whether the frame reached the host.
    pub(crate) fn reaches(self) -> bool
        ensures { result ≡ reaches self }
    {
        match self {
            Fate::Taken => true,
            Fate::Dropped(_) => true,
            Fate::Refused(_) => false,
        }
    }
}

/// What happened to a frame.
#[derive(Clone, Copy, Debug, PartialEq, Eq)]
pub enum Passage {
    /// A side's host sent the frame with this number in the bag.
    Sent(Side, usize),
    /// The frame with this number was brought to a side's host.
    Brought(Side, usize, Fate),
}

/// What an event is about, as far as frames go.
#[derive(Clone, Copy, Debug, PartialEq, Eq)]
pub enum Errand {
    /// A side's host may send a frame.
    ToSend(Side),
    /// The frame with this number is brought to a side's host.
    ToBring(Side, usize),
    /// Neither.
    Neither,
}

impl Errand {
    /// What this event is about.
    pub fn of(event: &Event) -> Errand
        ensures { result ≡ errand_of event.now }
    {
        match event {
            Event::Emit(side) => Errand::ToSend(*side),
            Event::Deliver(side, index, _) => Errand::ToBring(*side, *index),
            _ => Errand::Neither,
        }
    }

    /// What happened to a frame by an event about this, which had this outcome; nothing where no frame went out, or none was brought.
    pub fn passage(self, outcome: &Result<Answer, Unfair>) -> Option<Passage>
        ensures { result ≡ passage_on self outcome.now }
    {
        match outcome {
            Ok(answer) => self.answered(answer),
            Err(refusal) => self.refused(*refusal),
        }
    }

    /// The same of an event that was taken, with this answer.
    pub fn answered(self, answer: &Answer) -> Option<Passage>
        ensures { result ≡ passage_on self (Ok answer.now) }
    {
        match (self, answer) {
            (Errand::ToSend(side), Answer::Frame { index, .. }) => {
                Some(Passage::Sent(side, *index))
            }
            (Errand::ToBring(side, index), Answer::Taken) => {
                Some(Passage::Brought(side, index, Fate::Taken))
            }
            (Errand::ToBring(side, index), Answer::Dropped(cause)) => {
                Some(Passage::Brought(side, index, Fate::Dropped(*cause)))
            }
            _ => None,
        }
    }

    /// The same of an event that the world refused.
    fn refused(self, refusal: Unfair) -> Option<Passage>
        ensures { result ≡ passage_on self (Err refusal) }
    {
        match self {
            Errand::ToBring(side, index) => {
                Some(Passage::Brought(side, index, Fate::Refused(refusal)))
            }
            _ => None,
        }
    }
}
