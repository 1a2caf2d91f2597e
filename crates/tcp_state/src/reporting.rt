//! What acknowledgements report of octets that are kept ahead of a gap (RFC 2018).

ghost use Rattle.std.specs.Prelude.{◌≡◌};
ghost use Rattle.tcp_state.specs.View.{offered};
ghost use Rattle.tcp_state.specs.Reporting.{settled, noted, report_of, blocks_of};

use crate::connection::Connection;
use crate::emission::Due;
use congestion::Control;
use tcp_halves::Receiver;
use tcp_segment::{Blocks, Seq, TcpView};

/// What acknowledgements report of octets that are kept ahead of a gap.
#[derive(Clone, Copy, Debug, PartialEq, Eq)]
pub struct Reporting {
    /// Whether they report it: in SYN-SENT the SYN says that this side takes it, and from the peer's SYN on both sides said so (RFC 2018 section 2).
    pub sacks: bool,
    /// The number of the last segment whose octets began ahead of a gap.
    pub latest: Seq,
}

impl Reporting {
    /// Before the peer's SYN: by the set-up.
    pub(crate) fn offered(control: Control) -> Reporting
        ensures { result ≡ offered control }
    {
        Reporting {
            sacks: control.is_selective(),
            latest: Seq(0),
        }
    }

    /// The peer's SYN says whether it takes reports.
    pub(crate) fn settle(&mut self, syn: &TcpView<'_>)
        ensures { self.new ≡ settled self.old syn.now }
    {
        self.sacks = self.sacks && syn.is_sack_permitted();
    }

    /// Octets of a segment with this number come, while `rnext` is expected.
    pub(crate) fn note(&mut self, rnext: Seq, number: Seq)
        ensures { self.new ≡ noted self.old rnext.0 number.0 }
    {
        if rnext.is_before(number) {
            self.latest = number;
        }
    }

    /// What an acknowledgement reports.
    fn report(self, receiver: &Receiver) -> Blocks
        ensures { result ≡ report_of self receiver.now }
    {
        if self.sacks {
            receiver.blocks(self.latest)
        } else {
            Blocks::NONE
        }
    }
}

impl Connection {
    /// The blocks of the segment for what is due: an acknowledgement alone has them.
    pub(crate) fn blocks(&self, due: Due) -> Blocks
        ensures { result ≡ blocks_of self.now due }
    {
        match due {
            Due::Ack => self.reporting.report(&self.receiver),
            Due::Rst | Due::Syn | Due::Text(_) | Due::Probe | Due::KeepAlive => Blocks::NONE,
        }
    }
}
