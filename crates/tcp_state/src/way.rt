//! When a connection may give way to another one (RFC 9293 section 3.6.1, RFC 1122 section 4.2.2.13).

ghost use Rattle.std.specs.Prelude.{◌≡◌, ◌&&◌};
ghost use Rattle.tcp_state.specs.View.{is_syn_received};
ghost use Rattle.tcp_state.specs.Way.{is_unanswered, left_since, lies_past};

use crate::connection::Connection;
use crate::state::State;
use clock::Moment;
use tcp_segment::TcpView;

impl Connection {
    /// Whether a listener opened it, and its opening isn't over.
    pub fn is_half_open(&self) -> bool
        ensures { result ≡ (self.now.passive && is_syn_received self.now.state) }
    {
        self.is_passive && self.state == State::SynReceived
    }

    /// Whether a listener opened it, and its SYN-ACK is not answered, and expired: it went out the first timeout ago or more, a second.
    pub fn is_unanswered(&self) -> bool
        ensures { result ≡ is_unanswered self.now }
    {
        self.is_half_open() && self.resend.expiries() > 0
    }

    /// Since when it is in TIME-WAIT, where its caller closed it.
    pub fn left_since(&self) -> Option<Moment>
        ensures { result ≡ left_since self.now }
    {
        (self.state == State::TimeWait && self.is_released).then_some(self.since)
    }

    /// Whether the number of a segment lies past all that was heard on it.
    pub fn lies_past(&self, segment: &TcpView<'_>) -> bool
        ensures { result ≡ lies_past self.now segment.now }
    {
        !segment.number().is_before(self.receiver.rnext())
    }
}
