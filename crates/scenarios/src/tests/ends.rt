//! The two ends of a connection, what is done at each, and what that is to answer.

use super::{closing, delays, opening, resets, simultaneous};
use clock::Moment;
use inet_sum::sum;
use ipv4::{Addr, Endpoint};
use std::alloc::Global;
use std::process::Abort;
use tcp_segment::{Blocks, Flags, Head, Seq, TcpView};
use tcp_state::Fate::{self, Stays};
use tcp_state::{
    Buffers, CAPACITY, Connection, Control, Due, Info, MOST_SEGMENT, Manner, Received, Refusal,
    State,
};

pub(super) const CALLER: Endpoint = Endpoint {
    addr: Addr([10, 0, 0, 1]),
    port: 49_152,
};

pub(super) const LISTENER: Endpoint = Endpoint {
    addr: Addr([10, 0, 0, 2]),
    port: 80,
};

/// The SYN of the connection, whose initial number is 4294967295.
pub(super) const SYN_SEGMENT: [u8; 24] = [
    0xc0, 0x00, 0x00, 0x50, 0xff, 0xff, 0xff, 0xff, 0, 0, 0, 0, 0x60, 0x02, 0xff, 0xff, 0xc3, 0xd3,
    0, 0, 0x02, 0x04, 0x05, 0xb4,
];

/// An end of the connection.
#[derive(Clone, Copy)]
pub(super) enum Side {
    /// The end that calls.
    A,
    /// The end that the call reaches, where the initial number is 7.
    B,
}

/// What is done at an end, or asked of it, and the answer. Moments are in milliseconds.
#[derive(Clone, Copy)]
pub(super) enum Act {
    /// Its caller writes these octets: how many are taken.
    Send(&'static [u8], Result<usize, Refusal>),
    /// Its caller reads nine octets at most.
    Recv(Result<Received, Refusal>),
    /// Its caller closes its side.
    Shutdown,
    /// Its caller wants no delay, or does not, from this moment on.
    SetNoDelay(u64, bool),
    /// Its caller closes the connection at this moment.
    Close(u64, Fate),
    /// Its caller aborts the connection.
    Abort(Fate),
    /// The clock comes to this moment.
    Tick(u64, Fate),
    /// Its segment that is due goes out at this moment: how many octets it has.
    Emit(u64, Option<usize>),
    /// The segment that it sent last reaches the other end at this moment.
    Arrive(u64, Fate),
    /// Its segment that is due goes out at this moment, and reaches the other end.
    Pass(u64, Fate),
    /// It hears a segment with this number, this acknowledgement, these control bits, so many octets (at most two) and a window of 0.
    Hear(u32, u32, Flags, usize, Fate),
    /// The number, the acknowledgement, the control bits and the window of the segment that it sent last.
    Sent(u32, u32, Flags, u16),
    /// These are the octets of the segment that it sent last.
    HasSent(&'static [u8]),
    /// Its state.
    State(State),
    /// What is told of it.
    Info(Info),
    /// The segment that it has due.
    Due(Option<Due>),
    /// When a tick would do something.
    Deadline(Option<Moment>),
    /// The error that its caller is told.
    Error(Refusal),
    /// Whether its caller left it.
    IsReleased(bool),
    /// Whether nothing is left of it.
    IsOver(bool),
}

/// No control bit.
const NONE: Flags = Flags {
    fin: false,
    syn: false,
    rst: false,
    psh: false,
    ack: false,
    urg: false,
};

pub(super) const ACK: Flags = Flags { ack: true, ..NONE };

pub(super) const RST: Flags = Flags { rst: true, ..NONE };

pub(super) const SYN: Flags = Flags { syn: true, ..NONE };

/// What is done at an end.
pub(super) type Step = (Side, Act);

/// What is done at the two ends, part after part. A calls, and B has its SYN before it ever went out.
pub(super) struct Scenario {
    pub(super) name: &'static str,
    pub(super) parts: &'static [&'static [Step]],
}

/// One end, and the segment that it sent last.
#[derive(Drop)]
pub(super) struct End {
    pub(super) connection: Connection,
    frame: [u8; MOST_SEGMENT],
    len: usize,
}

impl End {
    /// An end that has sent nothing.
    pub(super) fn new(connection: Connection) -> End {
        End {
            connection,
            frame: [0; MOST_SEGMENT],
            len: 0,
        }
    }

    /// Its segment that is due goes out: how many octets it has.
    pub(super) fn emit(&mut self, now: u64) -> Option<usize> {
        let due = self.connection.due()?;
        let len = self.connection.emit(due, Moment(now), &mut self.frame);
        self.len = len;
        Some(len)
    }

    /// Takes a segment from the other end, if the octets are one.
    pub(super) fn hear(&mut self, now: u64, segment: &[u8]) -> Option<Fate> {
        let (peer, local) = (self.connection.peer(), self.connection.local());
        let view = TcpView::parse(peer.addr, local.addr, segment).ok()?;
        Some(self.connection.segment(Moment(now), &view))
    }

    /// Takes a segment that the other end did not send.
    pub(super) fn hear_forged(
        &mut self,
        now: u64,
        (number, acknowledgement): (u32, u32),
        flags: Flags,
        window: u16,
        count: usize,
    ) -> Option<Fate> {
        let (peer, local) = (self.connection.peer(), self.connection.local());
        let head = Head {
            source: peer.port,
            destination: local.port,
            number: Seq(number),
            acknowledgement: Seq(acknowledgement),
            flags,
            window,
            scales: false,
            sacks: false,
            blocks: Blocks::NONE,
        };
        let mut frame = [0; MOST_SEGMENT];
        let (begin, count) = (head.len(), count.min(2));
        let payload_sum = sum(&frame[begin..begin + count]);
        let len = head.emit(peer.addr, local.addr, count, payload_sum, &mut frame);
        self.hear(now, &frame[..len])
    }

    /// The segment that it sent last.
    fn sent(&self) -> &[u8] {
        match self.frame.split_at_checked(self.len) {
            Some((segment, _)) => segment,
            None => &[],
        }
    }

    /// The octets of the options of the segment that it sent last, where that has no others behind them.
    pub(super) fn options(&self) -> &[u8] {
        match self.sent().split_at_checked(20) {
            Some((_, options)) => options,
            None => &[],
        }
    }

    /// The number, the acknowledgement, the control bits and the window of the segment that it sent last.
    pub(super) fn header(&self) -> Option<(u32, u32, Flags, u16)> {
        let (local, peer) = (self.connection.local(), self.connection.peer());
        let view = TcpView::parse(local.addr, peer.addr, self.sent()).ok()?;
        Some((
            view.number().0,
            view.acknowledgement().0,
            view.flags(),
            view.window(),
        ))
    }
}

/// Does what is done at `end`, and tells whether it is answered so.
fn is_answered(end: &mut End, other: &mut End, act: Act) -> bool {
    let connection = &mut end.connection;
    match act {
        Act::Send(octets, want) => connection.send(Moment(0), octets) == want,
        Act::Recv(want) => connection.recv(&mut [0; 9]) == want,
        Act::Shutdown => connection.shutdown(Moment(0)) == Ok(()),
        Act::SetNoDelay(now, on) => {
            connection.set_nodelay(Moment(now), on);
            true
        }
        Act::Close(now, want) => connection.close(Moment(now)) == want,
        Act::Abort(want) => connection.abort(Moment(0)) == want,
        Act::Tick(now, want) => connection.tick(Moment(now)) == want,
        Act::Emit(now, want) => end.emit(now) == want,
        Act::Arrive(now, want) => other.hear(now, end.sent()) == Some(want),
        Act::Pass(now, want) => {
            end.emit(now).is_some() && other.hear(now, end.sent()) == Some(want)
        }
        Act::Hear(number, acknowledgement, flags, count, want) => {
            end.hear_forged(0, (number, acknowledgement), flags, 0, count) == Some(want)
        }
        Act::Sent(number, acknowledgement, flags, window) => {
            end.header() == Some((number, acknowledgement, flags, window))
        }
        Act::HasSent(octets) => end.sent() == octets,
        Act::State(want) => connection.state() == want,
        Act::Info(want) => connection.info() == want,
        Act::Due(want) => connection.due() == want,
        Act::Deadline(want) => connection.deadline() == want,
        Act::Error(want) => connection.error() == Some(want),
        Act::IsReleased(want) => connection.is_released() == want,
        Act::IsOver(want) => connection.is_over() == want,
    }
}

/// A's SYN goes out, and B's SYN and A's acknowledgement pass.
pub(super) const HANDSHAKE: &[Step] = &[
    (Side::A, Act::Emit(0, Some(24))),
    (Side::A, Act::HasSent(&SYN_SEGMENT)),
    (Side::B, Act::Pass(0, Stays)),
    (Side::A, Act::Pass(0, Stays)),
];

/// Plays a scenario with two ends of its own, of hosts whose small segments wait for small ones only, or for all that is outstanding.
fn plays(rt: &impl Abort, alloc: Global, scenario: &Scenario, minshall: bool) {
    let manner = Manner {
        scales: false,
        minshall,
        control: Control::PLAIN,
        least_timeout: 1_000,
        guards: false,
    };
    let ours = Buffers::new(alloc, CAPACITY, manner).expect(rt, "memory for two buffers");
    let theirs = Buffers::new(alloc, CAPACITY, manner).expect(rt, "memory for two buffers");
    let syn = TcpView::parse(CALLER.addr, LISTENER.addr, &SYN_SEGMENT).expect(rt, "a segment");
    let mut a = End::new(Connection::active(ours, CALLER, LISTENER, Seq(4_294_967_295), Moment(0)));
    let mut b = End::new(Connection::passive(theirs, LISTENER, CALLER, Seq(7), &syn, Moment(0)));
    for (part, steps) in scenario.parts.iter().enumerate() {
        for (step, (side, act)) in steps.iter().enumerate() {
            let is_answered = match side {
                Side::A => is_answered(&mut a, &mut b, *act),
                Side::B => is_answered(&mut b, &mut a, *act),
            };
            assert!(rt; is_answered, "{}: part {part}, step {step}", scenario.name);
        }
    }
}

/// All scenarios.
const SCENARIOS: [&[Scenario]; 5] = [
    opening::SCENARIOS,
    closing::SCENARIOS,
    resets::SCENARIOS,
    simultaneous::SCENARIOS,
    delays::SCENARIOS,
];

#[test]
fn ends_answer_as_they_should(rt: HostRuntime) {
    for scenarios in SCENARIOS {
        for scenario in scenarios {
            plays(&rt, rt.alloc(), scenario, false);
        }
    }
    for scenario in delays::PASSING {
        plays(&rt, rt.alloc(), scenario, true);
    }
}
