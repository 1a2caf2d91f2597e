//! The states of a connection, and where its closing leads from each (RFC 9293 section 3.3.2).

ghost use Rattle.std.specs.Prelude.{◌≡◌};

use crate::calls::Refusal;
use std::fmt;

/// The state of a connection (RFC 9293 section 3.3.2).
#[derive(Clone, Copy, Debug, PartialEq, Eq)]
pub enum State {
    /// No connection.
    Closed,
    /// A listener waits for a SYN.
    Listen,
    /// A SYN goes out, and none has come.
    SynSent,
    /// A SYN has come, and ours is not acknowledged.
    SynReceived,
    /// Octets flow both ways.
    Established,
    /// Our side is closed.
    FinWait1,
    /// Our side is closed, and our FIN is acknowledged.
    FinWait2,
    /// The peer's side is closed.
    CloseWait,
    /// Both sides are closed, and our FIN is not acknowledged.
    Closing,
    /// Our side is closed after the peer's.
    LastAck,
    /// Both sides are closed and acknowledged, and old segments die out.
    TimeWait,
}

impl State {
    ghost use Rattle.tcp_state.specs.View.{is_opening, awaits_fin_ack, is_write_closed, is_read_closed};
    ghost use Rattle.tcp_state.specs.Alive.{may_rest};
    ghost use Rattle.tcp_state.specs.Calls.{beyond_shutdown};
    ghost use Rattle.tcp_state.specs.Arrival.{beyond_fin, beyond_end, begins_wait, is_receiving, reset_error};

    /// Whether the two ends have not agreed on a connection yet.
    pub fn is_opening(self) -> bool
        ensures { result ≡ is_opening self }
    {
        matches!(self, State::SynSent | State::SynReceived)
    }

    /// Whether a connection may wait for its peer as long as that likes: it is open, and our side is too, or our FIN is acknowledged.
    pub(crate) fn may_rest(self) -> bool
        ensures { result ≡ may_rest self }
    {
        matches!(
            self,
            State::Established | State::CloseWait | State::FinWait2
        )
    }

    /// Whether our side is closed and our FIN is not acknowledged.
    pub(crate) fn awaits_fin_ack(self) -> bool
        ensures { result ≡ awaits_fin_ack self }
    {
        matches!(self, State::FinWait1 | State::Closing | State::LastAck)
    }

    /// Whether our side is closed.
    pub(crate) fn is_write_closed(self) -> bool
        ensures { result ≡ is_write_closed self }
    {
        self.awaits_fin_ack() || matches!(self, State::FinWait2 | State::TimeWait | State::Closed)
    }

    /// Whether nothing more comes from the peer: its FIN has come, behind all its octets, or the connection is CLOSED.
    pub(crate) fn is_read_closed(self) -> bool
        ensures { result ≡ is_read_closed self }
    {
        matches!(
            self,
            State::CloseWait | State::Closing | State::LastAck | State::TimeWait | State::Closed
        )
    }

    /// Whether octets of the peer are taken.
    pub(crate) fn is_receiving(self) -> bool
        ensures { result ≡ is_receiving self }
    {
        matches!(self, State::Established | State::FinWait1 | State::FinWait2)
    }

    /// Whether a wait is counted from the moment of coming to `after` from this state.
    pub(crate) fn begins_wait(self, after: State) -> bool
        ensures { result ≡ begins_wait self after }
    {
        match after {
            State::TimeWait => self != State::TimeWait,
            State::FinWait2 => self != State::FinWait2,
            _ => false,
        }
    }

    /// The error that a reset in this state raises (RFC 9293 section 3.10.7.4).
    pub(crate) fn reset_error(self) -> Option<Refusal>
        ensures { result ≡ reset_error self }
    {
        match self {
            State::SynSent | State::SynReceived => Some(Refusal::ECONNREFUSED),
            State::Established | State::FinWait1 | State::FinWait2 | State::CloseWait => {
                Some(Refusal::ECONNRESET)
            }
            _ => None,
        }
    }

    /// The state once our side is closed (RFC 9293 section 3.10.4).
    pub(crate) fn beyond_shutdown(self) -> State
        ensures { result ≡ beyond_shutdown self }
    {
        match self {
            State::Established => State::FinWait1,
            State::CloseWait => State::LastAck,
            other => other,
        }
    }

    /// The state once our FIN is acknowledged (RFC 9293 section 3.10.7.4).
    pub(crate) fn beyond_fin(self) -> State
        ensures { result ≡ beyond_fin self }
    {
        match self {
            State::FinWait1 => State::FinWait2,
            State::Closing => State::TimeWait,
            State::LastAck => State::Closed,
            other => other,
        }
    }

    /// The state once the peer's FIN counts (RFC 9293 section 3.10.7.4).
    pub(crate) fn beyond_end(self) -> State
        ensures { result ≡ beyond_end self }
    {
        match self {
            State::Established => State::CloseWait,
            State::FinWait1 => State::Closing,
            State::FinWait2 => State::TimeWait,
            other => other,
        }
    }
}

impl fmt::Display for State {
    ghost use Rattle.std.specs.Prelude.{Some};
    ghost use Rattle.tcp_state.specs.Names.{state_text};

    ghost output = { λ state. Some (state_text state) };

    fn fmt<W: fmt::Write>(&self, f: &mut fmt::Formatter<W>) -> fmt::Result {
        let name = match self {
            State::Closed => "CLOSED",
            State::Listen => "LISTEN",
            State::SynSent => "SYN-SENT",
            State::SynReceived => "SYN-RECEIVED",
            State::Established => "ESTABLISHED",
            State::FinWait1 => "FIN-WAIT-1",
            State::FinWait2 => "FIN-WAIT-2",
            State::CloseWait => "CLOSE-WAIT",
            State::Closing => "CLOSING",
            State::LastAck => "LAST-ACK",
            State::TimeWait => "TIME-WAIT",
        };
        f.write_str(name)
    }
}
