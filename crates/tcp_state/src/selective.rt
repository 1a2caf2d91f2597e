//! What the peer reports that it keeps ahead of a gap, and what that tells of what is in the network (RFC 2018, RFC 6675).

ghost use Rattle.std.specs.Prelude.{◌≡◌, ◌≤◌, ◌<◌, ◌+◌, ◌*◌, ◌^◌, ◌==◌, ◌&&◌, not, nat_lt, length, true};
ghost use Rattle.stream_buf.specs.Ranges.{covered};
ghost use Rattle.stream_buf.specs.Scoreboard.{with_report};
ghost use Rattle.congestion.specs.Window.{is_recovering};
ghost use Rattle.tcp_halves.specs.Stream.{outstanding};
ghost use Rattle.tcp_state.specs.Selective.{with_blocks, selects, repairs_gaps, counts_pipe, place_of, is_usual, tolerance, loss_end, repaired_end, pipe, allowance};
ghost use Rattle.tcp_state.specs.Arrival.{blocks_told, counts_reports, told, reports_more, is_partial, tells_loss};

use crate::arrival::Before;
use crate::connection::Connection;
use stream_buf::{MOST_RANGES, Tolerance};
use tcp_segment::{Block, Blocks, TcpView};

/// How many segments are reported past one that is lost, where none came late (RFC 6675 section 2, `DupThresh`).
const DUP_THRESH: u32 = 3;

/// What the peer's reports tell.
impl Connection {
    /// Whether reports are taken: the set-up wants them, and both sides' SYNs said so (RFC 2018 section 2).
    pub(crate) fn selects(&self) -> bool
        ensures { result ≡ selects self.now }
    {
        self.congestion.control().is_selective() && self.reporting.sacks
    }

    /// Whether they rule the recovery that runs.
    pub(crate) fn repairs_gaps(&self) -> bool
        ensures { result ≡ repairs_gaps self.now }
    {
        self.selects() && self.congestion.is_recovering()
    }

    /// Whether they say what is in the network.
    fn counts_pipe(&self) -> bool
        ensures { result ≡ counts_pipe self.now }
    {
        self.selects() && (self.congestion.is_recovering() || self.resend.recover() == 0)
    }

    /// The distance past SND.UNA before which all is lost that isn't reported.
    pub(crate) fn loss_end(&self) -> u32
        ensures { result ≡ loss_end self.now }
    {
        let reported = self.resend.reported();
        let probed = self.resend.tail().min(reported.reported_end());
        reported.lost_end(self.tolerance()).max(probed)
    }

    /// How much may be reported past what isn't lost: where others came late, twice as many octets as were past those.
    #[tactic(auto, unfolding(crate::specs::Selective::tolerance_of))]
    fn tolerance(&self) -> Tolerance
        ensures { result ≡ tolerance self.now }
    {
        let usual = (DUP_THRESH - 1) * self.sender.smss() as u32;
        let octets = self.resend.late().max(usual);
        let ranges = if octets <= usual {
            DUP_THRESH - 1
        } else {
            MOST_RANGES as u32
        };
        Tolerance { ranges, octets }
    }

    /// Whether no more than usual is tolerated.
    fn is_usual(&self) -> bool
        ensures { result ≡ is_usual self.now }
    {
        self.tolerance().ranges == DUP_THRESH - 1
    }

    /// The distance past SND.UNA behind what went out again in the recovery that runs (`HighRxt`).
    fn repaired_end(&self) -> u32
        ensures { result ≡ repaired_end self.now }
    {
        if self.congestion.is_recovering() {
            self.resend.mark().unwrap_or(0)
        } else {
            0
        }
    }

    /// How many octets are in the network (RFC 6675 section 4, `SetPipe`).
    pub(crate) fn pipe(&self) -> u64
        ensures value { result ≡ pipe self.now }
        ensures most { result < 2 ^ 33 }
    {
        let reported = self.resend.reported();
        let left = reported.unreported(self.sender.outstanding());
        let lost = reported.unreported(self.loss_end());
        let again = reported.unreported(self.repaired_end());
        u64::from(left.saturating_sub(lost)) + u64::from(again)
    }

    /// How many octets may be outstanding by new ones: with those in the network no more than the congestion window has room for.
    pub(crate) fn allowance(&self) -> u32
        ensures { result ≡ allowance self.now }
    {
        if !self.counts_pipe() {
            self.congestion.allowed()
        } else if self.is_whole() {
            self.congestion.window()
        } else {
            self.allowance_by_pipe()
        }
    }

    /// The same where octets are reported or a recovery runs: what is in the network has to be counted.
    #[cold]
    #[inline(never)]
    fn allowance_by_pipe(&self) -> u32
        requires { counts_pipe self.now ≡ true }
        ensures { result ≡ allowance self.now }
    {
        let window = self.congestion.window();
        u64::from(window + self.sender.outstanding()).saturating_sub(self.pipe()) as u32
    }

    /// Whether what is outstanding is in the network, once: nothing is reported, and no recovery runs.
    fn is_whole(&self) -> bool
        ensures { result ≡ (length self.now.resend.reported == 0 && not (is_recovering self.now.congestion)) }
    {
        self.resend.reported().is_empty() && !self.congestion.is_recovering()
    }
}

/// What a segment that reports is.
impl Connection {
    /// What a segment reports that is read, past the opening.
    pub(crate) fn blocks_told(&self, segment: &TcpView<'_>) -> Blocks
        ensures { result ≡ blocks_told self.now segment.now }
    {
        if self.selects() && !self.state.is_opening() && self.is_read(segment) {
            segment.blocks()
        } else {
            Blocks::NONE
        }
    }

    /// Whether a report counts as a duplicate ACK.
    pub(crate) fn counts_reports(&self) -> bool
        ensures { result ≡ counts_reports self.now }
    {
        !self.congestion.is_recovering() && self.resend.recover() == 0 && !self.probes()
    }

    /// What a segment reports joins what was reported. The answer is whether it counts, and tells of what nothing reported before.
    pub(crate) fn note_reports(&mut self, before: &Before) -> bool
        ensures more { result ≡ reports_more before.now self.old }
        ensures after { self.new ≡ told before.now self.old }
    {
        if before.blocks.is_empty() {
            return false;
        }
        let blocks = before.blocks;
        self.note_blocks(before.counts_reports, &blocks)
    }

    /// Blocks join what was reported. The answer is whether they count, and tell of what nothing reported before.
    #[cold]
    #[inline(never)]
    fn note_blocks(&mut self, counts: bool, blocks: &Blocks) -> bool
        ensures more { result ≡ (counts && nat_lt (covered self.old.resend.reported) (covered (with_blocks self.old.resend.reported self.old.sending blocks.now))) }
        ensures after { self.new ≡ record self.old { resend = record self.old.resend { reported = with_blocks self.old.resend.reported self.old.sending blocks.now } } }
    {
        let known = self.resend.reported().covered();
        for block in blocks.as_slice() {
            self.note_block(*block);
        }
        counts && known < self.resend.reported().covered()
    }

    /// A block joins what was reported.
    fn note_block(&mut self, block: Block)
        ensures { self.new ≡ record self.old { resend = record self.old.resend { reported = with_report self.old.resend.reported (outstanding self.old.sending) (place_of self.old.sending block) } } }
    {
        let una = self.sender.una();
        let (start, end) = (block.left.past(una), block.right.past(una));
        self.resend.report(start, end, self.sender.outstanding());
    }

    /// Whether an acknowledgement of some of what was outstanding at the beginning of the recovery that runs doesn't end it.
    pub(crate) fn is_partial(&self) -> bool
        ensures { result ≡ is_partial self.now }
    {
        self.congestion.goes_on() && self.resend.recover() > 0
    }

    /// Whether a report that counts tells the loss of what is at SND.UNA.
    pub(crate) fn tells_loss(&self) -> bool
        ensures { result ≡ tells_loss self.now }
    {
        self.congestion.is_third_next() && self.is_usual() || self.loss_end() > 0
    }
}
