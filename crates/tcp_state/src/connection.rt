//! A connection: what it is made of, how it is opened, and what can be asked of it (RFC 9293 section 3.3).

ghost use Rattle.std.specs.Prelude.{◌≡◌};
ghost use Rattle.tcp_state.specs.View.{View, IsSound, opened_actively, is_over, reset_since};
ghost use Rattle.tcp_state.specs.Arrival.{opened_passively};

use crate::alive::KeepAlive;
use crate::calls::Refusal;
use crate::guard::Guard;
use crate::reporting::Reporting;
use crate::resend::Resend;
use crate::state::State;
use clock::Moment;
use congestion::Cwnd;
use ipv4::Endpoint;
use retransmit::Timers;
use std::marker::Model;
use tcp_halves::{Buffers, Receiver, Sender};
use tcp_segment::{DEFAULT_MSS, Seq, TcpView};

/// What becomes of a connection's place in the table.
#[derive(Clone, Copy, Debug, PartialEq, Eq)]
pub enum Fate {
    /// The connection keeps its place.
    Stays,
    /// The connection is taken out of the table: one that a listener opened and that was not established (RFC 9293 section
    /// 3.10.7.4), or one that its caller closed and that is over.
    Removed,
    /// The connection keeps its place and is as it was. The segment is answered by a reset at its acknowledgement (RFC 9293 sections
    /// 3.10.7.3 and 3.10.7.4).
    Rejected,
}

/// One TCP connection.
#[derive(Drop)]
pub struct Connection {
    /// Our end.
    pub(crate) local: Endpoint,
    /// The other end.
    pub(crate) peer: Endpoint,
    /// Where it stands in the diagram of states.
    pub(crate) state: State,
    /// Whether a listener opened it, and not its caller.
    pub(crate) is_passive: bool,
    /// Whether windows are scaled (RFC 7323 section 2): in SYN-SENT the SYN offers that, and from the peer's SYN on both sides do it.
    pub(crate) scales: bool,
    /// What the caller gave and the peer has not acknowledged, with the peer's window.
    pub(crate) sender: Sender,
    /// What came and the caller has not read, with our window.
    pub(crate) receiver: Receiver,
    /// Whether an acknowledgement is due.
    pub(crate) owes_ack: bool,
    /// Whether octets came since the last acknowledgement went out, so that one is due at a second segment or after a while.
    pub(crate) delays_ack: bool,
    /// Whether a segment with ACK and without SYN went out.
    pub(crate) has_spoken: bool,
    /// What goes out again, and what is measured of a round trip.
    pub(crate) resend: Resend,
    /// When each of its timers expires.
    pub(crate) timers: Timers,
    /// How many octets the network takes at once.
    pub(crate) congestion: Cwnd,
    /// The error that every call reports from now on.
    pub(crate) pending_error: Option<Refusal>,
    /// Whether its caller closed or aborted it, so that no socket names it any more.
    pub(crate) is_released: bool,
    /// Whether it was aborted, and its reset has not gone out.
    pub(crate) owes_reset: bool,
    /// The moment from which TIME-WAIT, FIN-WAIT-2 without a caller, or the wait of an owed reset is counted.
    pub(crate) since: Moment,
    /// Since when a segment that takes numbers has been due while nothing is outstanding.
    pub(crate) unheard: Option<Moment>,
    /// Whether small segments don't wait for what is outstanding.
    pub(crate) is_undelayed: bool,
    /// Whether they wait for small ones only, and the FIN goes with the last octets (Minshall, RFC 9293 appendix A.3).
    pub(crate) minshall: bool,
    /// What is known of a peer that says nothing.
    pub(crate) alive: KeepAlive,
    /// What acknowledgements report of octets that are kept ahead of a gap.
    pub(crate) reporting: Reporting,
    /// What guards it against segments that aren't used.
    pub(crate) guard: Guard,
}

impl Model for Connection {
    ghost use Rattle.tcp_state.specs.View.{View, IsSound};

    ghost Value = { View };

    ghost use Rattle.tcp_state.specs.Inside.{view_of};

    ghost view = { view_of };

    ghost invariant = { λ c. IsSound (view_of c) };
}

impl Connection {
    /// A connection that its caller opens at this moment: a SYN with the number `isn` is due (RFC 9293 section 3.5).
    pub fn active(
        buffers: Buffers,
        local: Endpoint,
        peer: Endpoint,
        isn: Seq,
        now: Moment,
    ) -> Connection
        ensures { result ≡ opened_actively buffers local peer isn.0 now }
    {
        let manner = buffers.manner();
        let (sender, receiver) = buffers.into_halves(isn);
        Connection {
            local,
            peer,
            state: State::SynSent,
            is_passive: false,
            scales: manner.scales,
            sender,
            receiver,
            owes_ack: false,
            delays_ack: false,
            has_spoken: false,
            resend: Resend::new(u32::from(manner.least_timeout)),
            timers: Timers::new(),
            congestion: Cwnd::new(manner.control, DEFAULT_MSS, false),
            pending_error: None,
            is_released: false,
            owes_reset: false,
            since: Moment(0),
            unheard: Some(now),
            is_undelayed: false,
            minshall: manner.minshall,
            alive: KeepAlive::asked(None, Moment(0)),
            reporting: Reporting::offered(manner.control),
            guard: Guard::new(manner.guards),
        }
    }

    /// A connection that the peer's `syn` opens at a listener at this moment: a SYN-ACK with the number `isn` is due.
    pub fn passive(
        buffers: Buffers,
        local: Endpoint,
        peer: Endpoint,
        isn: Seq,
        syn: &TcpView<'_>,
        now: Moment,
    ) -> Connection
        ensures { result ≡ opened_passively buffers local peer isn.0 syn.now now }
    {
        let mut connection = Connection::active(buffers, local, peer, isn, now);
        connection.take_syn(syn, 0);
        connection.is_passive = true;
        connection
    }

    /// The state that the connection is in.
    pub fn state(&self) -> State
        ensures value { result ≡ self.now.state }
        ensures sound { IsSound self.now }
    {
        self.state
    }

    /// Our end.
    pub fn local(&self) -> Endpoint
        ensures { result ≡ self.now.local }
    {
        self.local
    }

    /// The other end.
    pub fn peer(&self) -> Endpoint
        ensures { result ≡ self.now.peer }
    {
        self.peer
    }

    /// Whether its caller closed or aborted it, so that no socket names it any more.
    pub fn is_released(&self) -> bool
        ensures { result ≡ self.now.released }
    {
        self.is_released
    }

    /// Since when the reset of an abort waits to go out; None where none is owed.
    pub fn reset_since(&self) -> Option<Moment>
        ensures { result ≡ reset_since self.now }
    {
        self.owes_reset.then_some(self.since)
    }

    /// Whether nothing is left of a connection that its caller closed: it is CLOSED and owes no reset.
    pub fn is_over(&self) -> bool
        ensures { result ≡ is_over self.now }
    {
        self.state == State::Closed && self.is_released && !self.owes_reset
    }
}
