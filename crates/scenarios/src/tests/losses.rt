//! Connections over a network that loses a frame or gives one twice: all octets are read all the same, and then the end.

use clock::Moment;
use script::{Command, Item, Style, event, show, show_unfair};
use std::alloc::{AllocError, Global};
use std::process::Abort;
use std::test::Fail;
use tcp_segment::Seq;
use wire_sim::Side::{self, A, B};
use wire_sim::{Answer, Event, World, config};

/// What becomes of the frames of a dialogue: the one with this index arrives so many times, and all others once.
#[derive(Clone, Copy)]
pub(super) struct Network {
    pub(super) index: usize,
    pub(super) times: usize,
}

/// What two callers say to their hosts, over such a network, and the world that it has led to. What opens a connection begins with this number.
#[derive(Drop)]
pub(super) struct Dialogue {
    alloc: Global,
    world: World,
    network: Network,
    isn: Seq,
    now: Moment,
}

/// How often a side is asked for a frame at once. What is due beyond that goes out in the next crossing.
const EMISSIONS: usize = 2;

/// How often frames go both ways in a turn at most.
const CROSSINGS: usize = 8;

/// How often a call is made that isn't answered yet, and how many turns follow the last one.
const TRIES: usize = 5;

/// b listens, and a has a socket.
const LISTENING: [(&str, &str); 4] = [
    ("b socket tcp", "id 1"),
    ("b bind 1 80", "ok"),
    ("b listen 1 1", "ok"),
    ("a socket tcp", "id 1"),
];

/// What the two callers do once a connection is asked for, each call with its answer, and what they are answered some seconds
/// after the last of these. A frame that comes late may end a wait in TIME-WAIT, so a's state isn't asked.
struct Course {
    rows: &'static [(&'static str, &'static str)],
    ends: &'static [(&'static str, &'static str)],
}

/// One side closes, then the other.
const IN_TURN: Course = Course {
    rows: &[
        ("b accept 1", "id 2 10.0.0.1 49152"),
        ("a send 1 hello", "sent 5"),
        ("b send 2 world!", "sent 6"),
        ("a shutdown 1", "ok"),
        ("b recv 2 100", "octets hello"),
        ("b recv 2 100", "end"),
        ("b state 2", "CLOSE-WAIT"),
        ("a recv 1 100", "octets world!"),
        ("b shutdown 2", "ok"),
        ("a recv 1 100", "end"),
    ],
    ends: &[
        ("b state 2", "CLOSED"),
        ("a recv 1 100", "end"),
        ("b recv 2 100", "end"),
    ],
};

/// Both sides close before either hears of it.
const AT_ONCE: Course = Course {
    rows: &[
        ("b accept 1", "id 2 10.0.0.1 49152"),
        ("a send 1 hello", "sent 5"),
        ("b send 2 world!", "sent 6"),
        ("a shutdown 1", "ok"),
        ("b shutdown 2", "ok"),
        ("b recv 2 100", "octets hello"),
        ("a recv 1 100", "octets world!"),
        ("b recv 2 100", "end"),
        ("a recv 1 100", "end"),
    ],
    ends: &[
        ("b state 2", "TIME-WAIT"),
        ("a recv 1 100", "end"),
        ("b recv 2 100", "end"),
    ],
};

/// Both callers give their sockets back, and a's port is free once its connection has waited.
const SOCKETS_BACK: Course = Course {
    rows: &[
        ("b accept 1", "id 2 10.0.0.1 49152"),
        ("a send 1 hello", "sent 5"),
        ("a close 1", "ok"),
        ("b recv 2 100", "octets hello"),
        ("b recv 2 100", "end"),
        ("b close 2", "ok"),
    ],
    ends: &[
        ("a state 1", "E1 EBADF"),
        ("b state 2", "E1 EBADF"),
        ("a tick 300000", "ok"),
        ("a socket tcp", "id 2"),
        ("a bind 2 49152", "ok"),
    ],
};

impl Dialogue {
    /// Two hosts that heard nothing.
    pub(super) fn new(alloc: Global, isn: u32, network: Network) -> Result<Dialogue, Fail> {
        Ok(Dialogue {
            alloc,
            world: World::new(alloc, config(A), config(B))?,
            network,
            isn: Seq(isn),
            now: Moment(0),
        })
    }

    /// A caller says a line of a script. Answers what that prints.
    pub(super) fn ask(&mut self, line: &str) -> Result<String, AllocError> {
        let mut printed = String::new(self.alloc);
        let item = Item::parse(self.alloc, line.as_bytes())?;
        if let Some(Item::Do(Command::At(side, action))) = item {
            match self.world.step(event(self.alloc, side, &action)?) {
                Ok(answer) => show(&answer, Style::Text, &mut printed)?,
                Err(unfair) => show_unfair(unfair, &mut printed)?,
            }
        }
        Ok(printed)
    }

    /// A side emits what it has due. Answers the indices of its frames.
    fn emissions(&mut self, from: Side) -> Result<Vec<usize>, AllocError> {
        let mut frames = Vec::new(self.alloc);
        for _ in 0..EMISSIONS {
            if let Ok(Answer::Frame { index, .. }) = self.world.step(Event::Emit(from)) {
                frames.push(index)?;
            }
        }
        Ok(frames)
    }

    /// A side takes each of these frames as often as the network gives it.
    fn deliver(&mut self, to: Side, frames: &[usize]) {
        for index in frames {
            let times = if *index == self.network.index {
                self.network.times
            } else {
                1
            };
            for _ in 0..times {
                let _ = self.world.step(Event::Deliver(to, *index, self.isn));
            }
        }
    }

    /// Each side emits what it has due, and then each takes what the network gives it, as long as there are frames; and then a second goes by.
    pub(super) fn turn(&mut self) -> Result<(), AllocError> {
        for _ in 0..CROSSINGS {
            let (from_a, from_b) = (self.emissions(A)?, self.emissions(B)?);
            if from_a.is_empty() && from_b.is_empty() {
                break;
            }
            self.deliver(B, from_a.as_slice());
            self.deliver(A, from_b.as_slice());
        }
        self.now = Moment(self.now.0.saturating_add(1_000));
        let _ = self.world.step(Event::Tick(A, self.now));
        let _ = self.world.step(Event::Tick(B, self.now));
        Ok(())
    }

    /// A caller says a line until it is answered, a second apart, and so many times more at most.
    fn insist(&mut self, line: &str, more: usize) -> Result<String, AllocError> {
        for _ in 0..more {
            let printed = self.ask(line)?;
            if printed.as_str() != "E8 EAGAIN" {
                return Ok(printed);
            }
            self.turn()?;
        }
        self.ask(line)
    }

    /// The callers say these lines one after another, and each is answered as is said beside it.
    pub(super) fn goes(
        &mut self,
        rt: &impl Abort,
        rows: &[(&str, &str)],
        more: usize,
    ) -> Result<(), AllocError> {
        for (line, want) in rows {
            let printed = self.insist(line, more)?;
            let Network { index, times } = self.network;
            assert!(rt;
                printed.as_str() == *want,
                "{line}: {printed} where frame {index} comes {times} times"
            );
        }
        Ok(())
    }

    /// a asks for a connection.
    pub(super) fn opens(&mut self, rt: &impl Abort) -> Result<(), AllocError> {
        let Seq(isn) = self.isn;
        let connect = format!(in self.alloc; "a connect 1 80 {isn}")?;
        self.goes(rt, &LISTENING, 0)?;
        self.goes(rt, &[(connect.as_str(), "started")], 0)
    }

    /// The callers say the lines of a course, and its last ones some seconds after the others.
    fn runs(&mut self, rt: &impl Abort, course: &Course) -> Result<(), AllocError> {
        self.goes(rt, course.rows, TRIES)?;
        for _ in 0..TRIES {
            self.turn()?;
        }
        self.goes(rt, course.ends, 0)
    }
}

/// Plays a course: whatever the network does, each line has its answer, and both sides end.
fn plays(
    rt: &impl Abort,
    alloc: Global,
    course: &Course,
    isn: u32,
    network: Network,
) -> Result<(), Fail> {
    let mut dialogue = Dialogue::new(alloc, isn, network)?;
    dialogue.opens(rt)?;
    dialogue.runs(rt, course)?;
    Ok(())
}

/// Numbers that pass the last one of 32 bits at each place of a dialogue.
const NUMBERS: [u32; 11] = [
    4_294_967_288,
    4_294_967_289,
    4_294_967_290,
    4_294_967_291,
    4_294_967_292,
    4_294_967_293,
    4_294_967_294,
    4_294_967_295,
    0,
    1,
    2,
];

/// With this one, `hello` goes past the last number.
const MID_TEXT: u32 = 4_294_967_292;

/// More than the frames of a course on a network that loses none, the two that tell a of b's MAC first.
const FRAMES: usize = 14;

/// Plays a course from each of the numbers, and then with each of its frames lost or repeated.
fn plays_everywhere(rt: &impl Abort, alloc: Global, course: &Course) -> Result<(), Fail> {
    for isn in &NUMBERS {
        let loses_none = Network {
            index: FRAMES,
            times: 0,
        };
        plays(rt, alloc, course, *isn, loses_none)?;
    }
    for index in 0..FRAMES {
        plays(rt, alloc, course, MID_TEXT, Network { index, times: 0 })?;
        plays(rt, alloc, course, MID_TEXT, Network { index, times: 2 })?;
    }
    Ok(())
}

#[test]
fn courses_end_whatever_the_network_does(rt: HostRuntime) -> Result<(), Fail> {
    plays_everywhere(&rt, rt.alloc(), &IN_TURN)?;
    plays_everywhere(&rt, rt.alloc(), &AT_ONCE)?;
    plays_everywhere(&rt, rt.alloc(), &SOCKETS_BACK)
}
