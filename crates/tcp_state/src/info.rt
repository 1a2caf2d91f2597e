//! What is told of a connection at once: how much waits, the windows, the timeout and the timers (RFC 9293 section 3.3.1, RFC 5681, RFC 6298).

ghost use Rattle.std.specs.Prelude.{◌≡◌};
ghost use Rattle.tcp_state.specs.Info.{info_of};

use crate::calls::Refusal;
use crate::connection::Connection;
use crate::state::State;
use clock::Moment;
use retransmit::{Estimate, Timers};

/// A connection as it stands.
#[derive(Clone, Copy, Debug, PartialEq, Eq)]
pub struct Info {
    /// Where it stands in the diagram of states.
    pub state: State,
    /// How many numbers are sent and not acknowledged: octets, with the SYN or the FIN where that is outstanding.
    pub in_flight: u32,
    /// How many octets the caller gave that are not acknowledged, sent or not.
    pub held: usize,
    /// How many of them have not gone out.
    pub unsent: usize,
    /// How many octets came in order that the caller has not read.
    pub readable: usize,
    /// How many octets are kept ahead of a gap.
    pub kept: usize,
    /// SND.WND, the peer's window, in octets from SND.UNA on.
    pub peer_window: u32,
    /// RCV.WND, our window as it was advertised and not used up, in octets.
    pub own_window: u32,
    /// The octets that a segment of ours takes at most.
    pub smss: usize,
    /// The congestion window, in octets (RFC 5681 section 2).
    pub cwnd: u32,
    /// The slow start threshold, in octets (RFC 5681 section 3.1).
    pub ssthresh: u32,
    /// Eight times SRTT and four times RTTVAR, each in milliseconds (RFC 6298 section 2); None before the first measurement.
    pub estimate: Option<Estimate>,
    /// The retransmission timeout, in milliseconds (RFC 6298 section 2).
    pub rto: u32,
    /// How often the retransmission timer and that of probes expired since the last progress.
    pub expiries: u32,
    /// How many segments brought what went out before, each probe among them; it holds still at its last value.
    pub resent: u64,
    /// The error that every call reports from now on.
    pub error: Option<Refusal>,
    /// When each of its timers expires, where that runs.
    pub timers: Timers,
    /// When the wait of TIME-WAIT ends, or of FIN-WAIT-2 where the caller closed the connection.
    pub ends_at: Option<Moment>,
}

impl Connection {
    /// What is so of the connection. Nothing changes.
    pub fn info(&self) -> Info
        ensures { result ≡ info_of self.now }
    {
        Info {
            state: self.state,
            in_flight: self.sender.outstanding(),
            held: self.sender.held_len(),
            unsent: self.sender.unsent(),
            readable: self.receiver.readable_len(),
            kept: self.receiver.kept_len(),
            peer_window: self.sender.window(),
            own_window: self.receiver.window(),
            smss: self.sender.smss(),
            cwnd: self.congestion.window(),
            ssthresh: self.congestion.ssthresh(),
            estimate: self.resend.estimate(),
            rto: self.resend.timeout(),
            expiries: self.resend.expiries(),
            resent: self.resend.resent(),
            error: self.pending_error,
            timers: self.timers,
            ends_at: self.ends_at(),
        }
    }
}
