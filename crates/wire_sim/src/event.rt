//! What happens in a world: events, and what the hosts answer to them.

ghost use Rattle.std.specs.Prelude.{◌≡◌, ◌<◌, ◌≤◌, ◌==◌, ◌&&◌, vec_len, vec_capacity};

use crate::room::filled;
use clock::Moment;
use host::{DropCause, Info, Kind, Ready, Refusal, SocketId, SocketState};
use ipv4::{Endpoint, Pair};
use sides::Side;
use std::fmt;
use tcp_segment::Seq;
use thiserror::Error;

/// A socket call with its arguments, but for the moment, which is the side's clock.
#[derive(Clone, PartialEq, Eq, Debug, Drop)]
pub enum Call {
    /// Makes a socket.
    Socket(Kind),
    /// Binds a socket to a local endpoint.
    Bind {
        id: SocketId,
        local: Endpoint,
    },
    /// Lets a bound socket take connections.
    Listen {
        id: SocketId,
        backlog: usize,
    },
    /// Takes a connection that waits at a listener.
    Accept {
        id: SocketId,
    },
    /// Opens a connection with this initial sequence number.
    Connect {
        isn: Seq,
        id: SocketId,
        peer: Endpoint,
    },
    /// Gives octets to a connection.
    Send {
        id: SocketId,
        octets: Vec<u8>,
    },
    /// Reads octets of a connection into a buffer of `len` octets.
    Recv {
        id: SocketId,
        len: usize,
    },
    /// Sends octets to an endpoint as one datagram.
    SendTo {
        id: SocketId,
        peer: Endpoint,
        octets: Vec<u8>,
    },
    /// Reads the first datagram that came to a socket into a buffer of `len` octets.
    RecvFrom {
        id: SocketId,
        len: usize,
    },
    /// Closes our side of a connection.
    Shutdown {
        id: SocketId,
    },
    /// Lets small segments of a connection go out at once from now on, or wait.
    SetNoDelay {
        id: SocketId,
        on: bool,
    },
    /// Has a silent peer of a connection asked whether it is there from now on, after so many milliseconds each, or no more.
    SetKeepAlive {
        id: SocketId,
        every: Option<u64>,
    },
    /// Closes a socket.
    Close {
        id: SocketId,
    },
    /// Aborts a socket.
    Abort {
        id: SocketId,
    },
    /// Lets a connection give way to another, as a host on its guard does before it takes a frame or makes a socket.
    GiveWay {
        id: SocketId,
    },
    /// Asks for a socket's state.
    State {
        id: SocketId,
    },
    /// Asks what a socket is ready for.
    Ready {
        id: SocketId,
    },
    /// Asks how a socket's connection stands.
    Info {
        id: SocketId,
    },
    /// Asks where a socket is bound, or for the local end of its connection.
    SockName(SocketId),
    /// Asks for the peer of a socket's connection.
    PeerName(SocketId),
}

/// One event: one call on one host.
#[derive(Clone, PartialEq, Eq, Debug, Drop)]
pub enum Event {
    /// A socket call on a side's host.
    Call(Side, Call),
    /// A tick of a side's host at this moment.
    Tick(Side, Moment),
    /// A side's host may put a frame into the bag.
    Emit(Side),
    /// The host of a side takes the frame with this index in the bag, and the initial sequence number in case it opens a connection.
    Deliver(Side, usize, Seq),
}

/// What a host answered to an event.
#[derive(Clone, PartialEq, Eq, Debug, Drop)]
pub enum Answer {
    /// A socket was made.
    Socket(SocketId),
    /// The call or the tick is done.
    Done,
    /// A connection was accepted, with this peer.
    Accepted(SocketId, Endpoint),
    /// A connection is being opened.
    Started,
    /// So many octets were taken.
    Sent(usize),
    /// These octets were read.
    Octets(Vec<u8>),
    /// These octets of a datagram were read, which came from this endpoint.
    Datagram { octets: Vec<u8>, from: Endpoint },
    /// The peer has closed its side, and all that it wrote was read.
    EndOfStream,
    /// The state of a socket.
    State(SocketState),
    /// What a socket is ready for.
    Ready(Ready),
    /// How a socket's connection stands.
    Info(Info),
    /// An end of a socket: its own, or its peer.
    Endpoint(Endpoint),
    /// A frame went into the bag: its index there, and its length in octets.
    Frame { index: usize, len: usize },
    /// No frame is due.
    NoFrame,
    /// The frame was taken.
    Taken,
    /// The frame was dropped.
    Dropped(DropCause),
    /// The call was refused.
    Refused(Refusal),
}

impl Answer {
    ghost use Rattle.wire_sim.specs.WorldView.{SameAnswer, octets_len};

    /// A copy of the answer, whose octets go into `room`.
    pub(crate) fn copied(&self, room: Vec<u8>) -> Answer
        requires empty { vec_len room ≡ 0 }
        requires fits { octets_len self.now ≤ vec_capacity room }
        ensures { SameAnswer result self.now }
    {
        match self {
            Answer::Socket(id) => Answer::Socket(*id),
            Answer::Done => Answer::Done,
            Answer::Accepted(id, peer) => Answer::Accepted(*id, *peer),
            Answer::Started => Answer::Started,
            Answer::Sent(taken) => Answer::Sent(*taken),
            Answer::Octets(octets) => Answer::Octets(filled(room, octets.as_slice())),
            Answer::Datagram { octets, from } => Answer::Datagram {
                octets: filled(room, octets.as_slice()),
                from: *from,
            },
            Answer::EndOfStream => Answer::EndOfStream,
            Answer::State(state) => Answer::State(*state),
            Answer::Ready(ready) => Answer::Ready(*ready),
            Answer::Info(info) => Answer::Info(*info),
            Answer::Endpoint(endpoint) => Answer::Endpoint(*endpoint),
            Answer::Frame { index, len } => Answer::Frame {
                index: *index,
                len: *len,
            },
            Answer::NoFrame => Answer::NoFrame,
            Answer::Taken => Answer::Taken,
            Answer::Dropped(cause) => Answer::Dropped(*cause),
            Answer::Refused(refusal) => Answer::Refused(*refusal),
        }
    }
}

/// Why `step` refuses an event. The world is then as it was.
#[derive(Clone, Copy, PartialEq, Eq, Debug)]
pub enum Unfair {
    /// There is no frame with this index, or the same side emitted it.
    NoSuchFrame,
    /// The frame's pair has been opened anew, in another epoch, since it was emitted.
    OtherEpoch,
    /// Since the frame was emitted, an end of its pair took the limit or more from its caller.
    Stale,
    /// The event would make the host open a pair a second time in one epoch.
    SecondOpening,
    /// Memory ran out before a host was touched.
    NoMemory,
}

impl fmt::Display for Unfair {
    ghost use Rattle.std.specs.Prelude.{Some};
    ghost use Rattle.wire_sim.specs.Names.{unfair_text};

    ghost output = { λ unfair. Some (unfair_text unfair) };

    fn fmt<W: fmt::Write>(&self, f: &mut fmt::Formatter<W>) -> fmt::Result {
        let text = match self {
            Unfair::NoSuchFrame => "U1 NoSuchFrame",
            Unfair::Stale => "U2 Stale",
            Unfair::OtherEpoch => "U3 OtherEpoch",
            Unfair::SecondOpening => "U4 SecondOpening",
            Unfair::NoMemory => "U5 NoMemory",
        };
        f.write_str(text)
    }
}

impl std::error::Error for Unfair {}

/// Why a world is not made, or a run not begun.
#[derive(Clone, Copy, PartialEq, Eq, Debug, Error)]
pub enum WorldFault {
    /// Memory ran out.
    #[error("N1 NoMemory")]
    NoMemory,
    /// Both hosts have the same address, or the same MAC.
    #[error("N2 SameAddress")]
    SameAddress,
}

/// A host came to hold a pair.
#[derive(Clone, Copy, PartialEq, Eq, Debug)]
pub struct Opening {
    /// Whose host.
    pub side: Side,
    /// The pair that it came to hold.
    pub pair: Pair,
    /// Which of the pair's connections in turn, counted from 1.
    pub epoch: u64,
    /// The id of the entry that it made.
    pub id: SocketId,
    /// The place in the trace of the event at which it did.
    pub place: usize,
}

impl Opening {
    ghost use Rattle.wire_sim.specs.Tallies.{is_opening_of, is_opening_at};

    /// Whether the host of `side` came to hold `pair` in `epoch` by this opening.
    pub(crate) fn is_of(&self, side: Side, pair: Pair, epoch: u64) -> bool
        ensures { result ≡ is_opening_of side pair epoch self.now }
    {
        self.side.is(side) && self.pair == pair && self.epoch == epoch
    }

    /// Whether the host of `side` made the entry `id` by this opening.
    pub(crate) fn is_at(&self, side: Side, id: SocketId) -> bool
        ensures { result ≡ is_opening_at side id self.now }
    {
        self.side.is(side) && self.id == id
    }
}

/// An event that a world took, with its answer.
#[derive(Clone, PartialEq, Eq, Debug, Drop)]
pub struct Happening {
    /// The event.
    pub event: Event,
    /// What the host answered.
    pub answer: Answer,
}
