//! The sending half: what the caller gave and the peer has not acknowledged (RFC 9293 section 3.3.1).

ghost use Rattle.std.specs.Prelude.{◌≡◌, ◌+◌, ◌≤◌, ◌<◌, ◌^◌, ◌==◌, ◌++◌, [], length, take, drop, max};
ghost use Rattle.inet_sum.specs.Sum.{sum_of};
ghost use Rattle.stream_buf.specs.Sending.{nothing_held};
ghost use Rattle.tcp_segment.specs.declared.TheConstants.{MAX_SHIFT};
ghost use Rattle.tcp_segment.specs.Wire.{past};
ghost use Rattle.tcp_halves.specs.declared.buffers.TheConstants.{LARGEST_CAPACITY};
ghost use Rattle.tcp_halves.specs.Halves.{Sending};
ghost use Rattle.tcp_halves.specs.Stream.{size_in, peer_unit, send_room, outstanding, is_new_ack, sending_from, sending_settled, after_syn_acknowledged, after_acknowledged, after_sent, after_probed, bare_number};
ghost use Rattle.tcp_halves.specs.Windows.{window_in, after_syn_heard, after_window_update, open_window, unsent, usable, sendable, next_count, takes_all, takes_enough, is_worth_sending, waits_for_more};

use crate::buffers::size_in;
use std::marker::Model;
use stream_buf::SendBuf;
use tcp_segment::{DEFAULT_MSS, Seq};

/// The sending half of a connection.
#[derive(Drop)]
pub struct Sender {
    /// The octets that the caller gave, from SND.UNA on.
    buffer: SendBuf,
    /// SND.UNA, the oldest number that is not acknowledged.
    una: Seq,
    /// SND.NXT, the number after the highest that was sent.
    nxt: Seq,
    /// SND.WND, the peer's window in octets from SND.UNA on.
    window: u32,
    /// The largest window that the peer ever advertised, in octets.
    max_window: u32,
    /// SND.WL1, the number of the segment that gave the window.
    wl1: Seq,
    /// SND.WL2, the acknowledgement of the segment that gave the window.
    wl2: Seq,
    /// The octets that a segment takes at most.
    smss: u16,
    /// How many octets are held at most.
    size: usize,
    /// How many octets a unit of the peer's windows has (RFC 7323 section 2.3).
    unit: u32,
    /// Whether a window's probe took the number before SND.NXT, and it is the only one that is outstanding.
    probed: bool,
}

impl Model for Sender {
    ghost use Rattle.std.specs.Prelude.{◌≡◌, ◌≤◌, ◌<◌, ◌^◌, length};
    ghost use Rattle.tcp_segment.specs.declared.TheConstants.{MAX_SHIFT};
    ghost use Rattle.tcp_halves.specs.Halves.{Sending};
    ghost use Rattle.tcp_halves.specs.declared.buffers.TheConstants.{LARGEST_CAPACITY};

    ghost Value = { Sending };

    ghost view = { λ s. record { held = s.buffer.held; una = s.una.0; nxt = s.nxt.0; window = s.window; max_window = s.max_window; wl1 = s.wl1.0; wl2 = s.wl2.0; smss = s.smss; size = s.size; unit = s.unit; probed = s.probed } };

    ghost invariant = { λ s. (length s.buffer.held ≤ s.size) × (s.size ≤ s.buffer.capacity) × (s.size ≤ LARGEST_CAPACITY) × (0 < s.unit) × (s.unit ≤ 2 ^ MAX_SHIFT) };
}

impl Sender {
    /// Nothing is sent, and the SYN will have the number `isn`.
    pub(crate) fn new(buffer: SendBuf, isn: Seq, scales: bool) -> Sender
        requires empty { buffer ≡ nothing_held buffer.capacity }
        requires most { buffer.capacity ≤ LARGEST_CAPACITY }
        ensures { result ≡ sending_from (size_in scales buffer.capacity) isn.0 }
    {
        let size = size_in(scales, buffer.capacity());
        Sender {
            buffer,
            una: isn,
            nxt: isn,
            window: 0,
            max_window: 0,
            wl1: isn,
            wl2: isn,
            smss: DEFAULT_MSS,
            size,
            unit: 1,
            probed: false,
        }
    }

    /// How many octets are taken and not acknowledged.
    pub fn held_len(&self) -> usize
        ensures value { result ≡ length self.now.held }
        ensures bound { result ≤ self.now.size }
        ensures most { result ≤ LARGEST_CAPACITY }
    {
        self.buffer.len()
    }

    /// Fills `out` with those from a place on, and answers their one's complement sum.
    pub fn copy_at(&self, offset: usize, out: &mut [u8]) -> u16
        requires { offset + length out.old ≤ length self.now.held }
        ensures octets { out.new ≡ take (length out.old) (drop offset self.now.held) }
        ensures sum { result ≡ sum_of out.new }
    {
        self.buffer.copy_at(offset, out)
    }

    /// Whether all octets that were taken are acknowledged.
    pub fn is_empty(&self) -> bool
        ensures { result ≡ (length self.now.held == 0) }
    {
        self.buffer.is_empty()
    }

    /// SND.UNA, the oldest number that is not acknowledged.
    pub fn una(&self) -> Seq
        ensures { result.0 ≡ self.now.una }
    {
        self.una
    }

    /// SND.NXT, the number after the highest that was sent.
    pub fn nxt(&self) -> Seq
        ensures { result.0 ≡ self.now.nxt }
    {
        self.nxt
    }

    /// How many octets can still be taken.
    pub fn room(&self) -> usize
        ensures { result ≡ send_room self.now }
    {
        self.size - self.buffer.len()
    }

    /// How many numbers are sent and not acknowledged.
    pub fn outstanding(&self) -> u32
        ensures { result ≡ outstanding self.now }
    {
        self.nxt.past(self.una)
    }

    /// Takes octets, for which there is room.
    pub fn append(&mut self, octets: &[u8])
        requires { length octets.now ≤ send_room self.old }
        ensures { self.new ≡ record self.old { held = self.old.held ++ octets.now } }
    {
        self.buffer.write(octets);
    }

    /// The peer's SYN settles whether windows are scaled, and by which shift its own are. Nothing is held yet.
    pub fn settle(&mut self, scales: bool, shift: u8)
        requires empty { length self.old.held ≡ 0 }
        requires shift { shift ≤ MAX_SHIFT }
        ensures { self.new ≡ sending_settled self.old scales shift }
    {
        self.size = size_in(scales, self.size);
        self.unit = peer_unit(scales, shift);
    }

    /// Takes what the peer's SYN says of it: its window and the segments that it takes.
    pub fn hear_syn(&mut self, number: Seq, window: u16, smss: u16)
        ensures { self.new ≡ after_syn_heard self.old number.0 window smss }
    {
        self.note_window(u32::from(window));
        self.wl1 = number;
        self.smss = smss;
    }

    /// Whether an acknowledgement is of numbers that are outstanding.
    pub fn is_new(&self, acknowledgement: Seq) -> bool
        ensures { result ≡ is_new_ack self.now acknowledgement.0 }
    {
        let gained = acknowledgement.past(self.una);
        0 < gained && gained <= self.outstanding()
    }

    /// Our SYN is acknowledged, and with it all that is outstanding.
    pub fn acknowledge_syn(&mut self)
        ensures { self.new ≡ after_syn_acknowledged self.old }
    {
        self.una = self.nxt;
        self.wl2 = self.nxt;
        self.probed = false;
    }

    /// What is held goes out no more, and nothing is outstanding.
    pub fn abandon(&mut self)
        ensures { self.new ≡ record self.old { held = []; una = self.old.nxt } }
    {
        self.buffer.acked(self.buffer.len());
        self.una = self.nxt;
    }

    /// Octets are acknowledged, which are held no longer, or the FIN behind them all. They come off the window, whose end stays where it was told.
    pub fn acknowledge(&mut self, acknowledgement: Seq)
        ensures { self.new ≡ after_acknowledged self.old acknowledgement.0 }
    {
        let gained = acknowledgement.past(self.una);
        self.buffer.acked((gained as usize).min(self.buffer.len()));
        self.una = acknowledgement;
        self.window = self.window.saturating_sub(gained);
        self.probed = false;
    }

    /// Whether the number before SND.NXT went out in probes of a closed window alone.
    pub fn is_probed(&self) -> bool
        ensures { result ≡ self.now.probed }
    {
        self.probed
    }

    /// The number of a segment that brings nothing: SND.NXT, or the one before where only a probe took that.
    pub fn bare_number(&self) -> Seq
        ensures { result.0 ≡ bare_number self.now }
    {
        if self.probed {
            self.nxt + u32::MAX
        } else {
            self.nxt
        }
    }

    /// The window of a segment without SYN in octets, by its header's field (RFC 7323 section 2.3).
    pub fn window_in(&self, field: u16) -> u32
        ensures { result ≡ window_in self.now field }
    {
        u32::from(field) * self.unit
    }

    /// Takes the window, in octets, of a segment whose acknowledgement is not below SND.UNA, and that is no older than the one that gave the
    /// present window (RFC 9293 section 3.10.7.4).
    pub fn update_window(&mut self, number: Seq, acknowledgement: Seq, window: u32)
        ensures { self.new ≡ after_window_update self.old number.0 acknowledgement.0 window }
    {
        let is_newer = self.wl1.is_before(number)
            || self.wl1 == number && !acknowledgement.is_before(self.wl2);
        if is_newer && !acknowledgement.is_before(self.una) {
            self.note_window(window);
            self.wl1 = number;
            self.wl2 = acknowledgement;
        }
    }

    /// The peer's window is this one from now on.
    fn note_window(&mut self, window: u32)
        ensures { self.new ≡ record self.old { window = window; max_window = max self.old.max_window window } }
    {
        self.window = window;
        self.max_window = self.max_window.max(window);
    }

    /// SND.WND, the peer's window.
    pub fn window(&self) -> u32
        ensures { result ≡ self.now.window }
    {
        self.window
    }

    /// MAX.SND.WND, the largest window that the peer ever told, in octets.
    pub fn max_window(&self) -> u32
        ensures { result ≡ self.now.max_window }
    {
        self.max_window
    }

    /// The octets that a segment takes at most.
    pub fn smss(&self) -> usize
        ensures { result ≡ self.now.smss }
    {
        usize::from(self.smss)
    }

    /// How many octets are held that have not gone out.
    pub fn unsent(&self) -> usize
        ensures { result ≡ unsent self.now }
    {
        self.held_len().saturating_sub(self.outstanding() as usize)
    }

    /// The lesser of the peer's window and the congestion window: how many numbers may be outstanding by new octets.
    pub fn open_window(&self, cwnd: u32) -> u32
        ensures { result ≡ open_window self.now cwnd }
    {
        self.window.min(cwnd)
    }

    /// How many numbers both windows take beside those that are outstanding.
    fn usable(&self, cwnd: u32) -> usize
        ensures { result ≡ usable self.now cwnd }
    {
        self.open_window(cwnd).saturating_sub(self.outstanding()) as usize
    }

    /// How many new octets may go out.
    pub fn sendable(&self, cwnd: u32) -> usize
        ensures { result ≡ sendable self.now cwnd }
    {
        self.unsent().min(self.usable(cwnd))
    }

    /// How many new octets the next segment has.
    pub fn next_count(&self, cwnd: u32) -> usize
        ensures { result ≡ next_count self.now cwnd }
    {
        self.sendable(cwnd).min(self.smss())
    }

    /// Whether the new octets that may go out are all that is held, or half the largest window that the peer ever advertised.
    pub fn takes_enough(&self, cwnd: u32) -> bool
        ensures { result ≡ takes_enough self.now cwnd }
    {
        self.takes_all(cwnd) || self.max_window as usize <= 2 * self.sendable(cwnd)
    }

    /// Whether the new octets that may go out are all that is held.
    pub fn takes_all(&self, cwnd: u32) -> bool
        ensures { result ≡ takes_all self.now cwnd }
    {
        self.unsent() <= self.usable(cwnd)
    }

    /// Whether a segment of new octets is worth its way (RFC 9293 section 3.8.6.2.1), where they need not wait for more or need to: the
    /// sender's silly window avoidance, with the Nagle algorithm (section 3.7.4).
    pub fn is_worth_sending(&self, cwnd: u32, is_overridden: bool) -> bool
        ensures { result ≡ is_worth_sending self.now cwnd is_overridden }
    {
        let is_idle = self.outstanding() == 0;
        self.smss() <= self.sendable(cwnd) || is_idle && self.takes_enough(cwnd) || is_overridden
    }

    /// Whether new octets that may go out wait for more.
    pub fn waits_for_more(&self, cwnd: u32, is_overridden: bool) -> bool
        ensures { result ≡ waits_for_more self.now cwnd is_overridden }
    {
        self.unsent() > 0
            && !is_overridden
            && self.sendable(cwnd) > 0
            && !self.is_worth_sending(cwnd, false)
    }

    /// So many numbers from the oldest unacknowledged one on went out: SND.NXT is the later of what it was and the number after them.
    pub fn sent(&mut self, count: u32)
        ensures { self.new ≡ after_sent self.old count }
    {
        let end = self.una + count;
        let (was_out, goes_out) = (self.outstanding(), end.past(self.una));
        self.probed = self.probed && goes_out <= was_out;
        if was_out <= goes_out {
            self.nxt = end;
        }
    }

    /// So many numbers went out as a probe of the peer's window.
    pub fn probe_sent(&mut self, count: u32)
        ensures { self.new ≡ after_probed self.old count }
    {
        let is_first = self.outstanding() == 0;
        self.sent(count);
        self.probed = self.probed || is_first;
    }
}

/// How many octets a unit has of the windows of a peer that tells this shift.
fn peer_unit(scales: bool, shift: u8) -> u32
    requires { shift ≤ MAX_SHIFT }
    ensures value { result ≡ peer_unit scales shift }
    ensures some { 0 < result }
    ensures bound { result ≤ 2 ^ MAX_SHIFT }
{
    if scales { 1 << shift } else { 1 }
}
