//! The receiving half: what came in order and the caller has not read, and what came ahead of a gap (RFC 9293 section 3.3.1).

ghost use Rattle.std.specs.Prelude.{◌≡◌, ◌+◌, ◌%◌, ◌^◌, ◌≤◌, ◌<◌, ◌++◌, ◌==◌, ◌*◌, length, take, drop, min};
ghost use Rattle.stream_buf.specs.Receiving.{nothing_received, ranges, kept_count, IsReceiving};
ghost use Rattle.tcp_halves.specs.Halves.{Receiving};
ghost use Rattle.tcp_halves.specs.Stream.{receive_window, is_in_window, stands_before, is_acceptable, receiving_nothing, receiving_settled, buffer_of, after_syn, distance_of, octets_within, after_octets, after_read, stands_next, after_end, ReceivingFits, KeptInWindow};
ghost use Rattle.tcp_segment.specs.Wire.{past};
ghost use Rattle.tcp_halves.specs.Blocks.{block_of, has_place, reported};
ghost use Rattle.tcp_halves.specs.declared.buffers.TheConstants.{CAPACITY, LARGEST_CAPACITY};
ghost use Rattle.tcp_halves.specs.Windows.{receive_room, has_grown, whole_units, after_advertisement, window_field, syn_window, after_syn_advertisement};

use crate::buffers::{CAPACITY, Manner, own_unit, size_in};
use std::marker::Model;
use stream_buf::{Range, RecvBuf};
use tcp_segment::{Block, Blocks, MSS, Seq};

/// The receiving half of a connection.
#[derive(Drop)]
pub struct Receiver {
    /// The octets in order that the caller has not read, and those kept ahead of a gap.
    buffer: RecvBuf,
    /// RCV.NXT, the number that is expected next.
    rnext: Seq,
    /// The number behind the last that an advertised window has room for.
    edge: Seq,
    /// How many octets it holds at most.
    size: u32,
    /// How many octets a unit of the windows has that are told (RFC 7323 section 2.3).
    unit: u32,
}

impl Model for Receiver {
    ghost use Rattle.std.specs.Prelude.{◌≡◌, ◌≤◌, ◌<◌, ◌*◌};
    ghost use Rattle.tcp_segment.specs.declared.TheConstants.{MSS};
    ghost use Rattle.stream_buf.specs.Receiving.{IsReceiving};
    ghost use Rattle.tcp_halves.specs.Halves.{Receiving};
    ghost use Rattle.tcp_halves.specs.Received.{received_by};
    ghost use Rattle.tcp_halves.specs.Stream.{buffer_of, ReceivingFits, KeptInWindow};
    ghost use Rattle.tcp_halves.specs.declared.buffers.TheConstants.{CAPACITY, LARGEST_CAPACITY};

    ghost Value = { Receiving };

    ghost view = { received_by };

    ghost invariant = { λ r. (r.size ≤ r.buffer.capacity) × (r.buffer.capacity ≤ LARGEST_CAPACITY) × ReceivingFits (received_by r) × IsReceiving (buffer_of (received_by r)) × KeptInWindow (received_by r) × (0 < r.unit) × (r.unit ≤ MSS) × (r.size ≤ CAPACITY * r.unit) };
}

impl Receiver {
    /// Nothing has come, and no window is advertised.
    pub(crate) fn new(buffer: RecvBuf, manner: Manner) -> Receiver
        requires empty { buffer ≡ nothing_received buffer.capacity }
        requires most { buffer.capacity ≤ LARGEST_CAPACITY }
        ensures value { result ≡ receiving_nothing (record { capacity = buffer.capacity; manner = manner }) }
        ensures fits { ReceivingFits result }
        ensures buffer { IsReceiving (buffer_of result) }
        ensures kept { KeptInWindow result }
    {
        let size = size_in(manner.scales, buffer.capacity()) as u32;
        Receiver {
            buffer,
            rnext: Seq(0),
            edge: Seq(0),
            size,
            unit: own_unit(manner.scales),
        }
    }

    /// How many octets it holds at most.
    pub fn size(&self) -> u32
        ensures { result ≡ self.now.size }
    {
        self.size
    }

    /// How many octets the caller may read: those that came in order and were not read.
    pub fn readable_len(&self) -> usize
        ensures { result ≡ length self.now.readable }
    {
        self.buffer.readable_len()
    }

    /// Whether the caller has read all that came in order.
    pub fn is_empty(&self) -> bool
        ensures { result ≡ (length self.now.readable == 0) }
    {
        self.buffer.readable_len() == 0
    }

    /// How many octets are kept ahead of a gap.
    pub fn kept_len(&self) -> usize
        ensures { result ≡ kept_count self.now.kept }
    {
        self.buffer.kept_len()
    }

    /// RCV.NXT, the number that is expected next.
    pub fn rnext(&self) -> Seq
        ensures { result.0 ≡ self.now.rnext }
    {
        self.rnext
    }

    /// Whether no octet is kept ahead of a gap.
    pub fn is_gapless(&self) -> bool
        ensures { result ≡ (ranges self.now.kept == 0) }
    {
        self.buffer.ranges() == 0
    }

    /// Whether the window to advertise is larger by a segment than the one that is known: the receiver's silly window avoidance (RFC 9293 section 3.8.6.2.2).
    pub fn has_grown(&self) -> bool
        ensures { result ≡ has_grown self.now }
    {
        u64::from(self.window()) + u64::from(MSS) <= u64::from(self.room())
    }

    /// The window to advertise, as the header of a segment without SYN has it, in units: the whole room where it has grown by enough, else
    /// what is left of the one that is known.
    pub fn next_window(&self) -> u16
        ensures { result ≡ window_field (after_advertisement self.now) }
    {
        (self.next_edge().past(self.rnext) / self.unit) as u16
    }

    /// The right edge of the window to advertise.
    fn next_edge(&self) -> Seq
        ensures edge { result.0 ≡ (after_advertisement self.now).edge }
        ensures near { past result.0 self.now.rnext ≤ self.now.size }
    {
        if self.has_grown() {
            edge_of(self.rnext, self.in_units(self.room()))
        } else {
            self.edge
        }
    }

    /// Those of so many octets that fill units of the windows that are told.
    fn in_units(&self, octets: u32) -> u32
        ensures value { result ≡ whole_units self.now.unit octets }
        ensures bound { result ≤ octets }
        ensures near { octets < result + self.now.unit }
    {
        octets / self.unit * self.unit
    }

    /// The window of a segment with SYN, which is told in octets (RFC 7323 section 2.2): that of the room, but no more than 16 bits hold.
    pub fn next_syn_window(&self) -> u16
        ensures { result ≡ min (receive_window (after_syn_advertisement self.now)) CAPACITY }
    {
        self.next_syn_edge().past(self.rnext).min(CAPACITY as u32) as u16
    }

    /// The right edge of the window of a segment with SYN: where that is a step further than what was advertised.
    fn next_syn_edge(&self) -> Seq
        ensures { result.0 ≡ (after_syn_advertisement self.now).edge }
    {
        let window = self.syn_window();
        if u64::from(self.window()) + u64::from(MSS) <= u64::from(window) {
            edge_of(self.rnext, window)
        } else {
            self.edge
        }
    }

    /// As much of the room as a segment with SYN can tell.
    pub fn syn_window(&self) -> u32
        ensures value { result ≡ syn_window self.now }
        ensures bound { result ≤ receive_room self.now }
    {
        self.room().min(CAPACITY as u32)
    }

    /// How many octets can still come.
    fn room(&self) -> u32
        ensures { result ≡ receive_room self.now }
    {
        self.size - self.buffer.readable_len() as u32
    }

    /// RCV.WND, the window that is advertised and not used up.
    pub fn window(&self) -> u32
        ensures { result ≡ receive_window self.now }
    {
        self.edge.past(self.rnext)
    }

    /// The peer's SYN settles whether windows are scaled. Nothing can be read yet, and no window is advertised.
    pub fn settle(&mut self, scales: bool)
        requires empty { length self.old.readable ≡ 0 }
        requires first { receive_window self.old ≡ 0 }
        ensures after { self.new ≡ receiving_settled self.old scales }
        ensures told { min self.old.size CAPACITY ≤ self.new.size }
    {
        self.size = size_in(scales, self.size as usize) as u32;
        self.unit = own_unit(scales);
    }

    /// The peer's SYN has this number. `advertised` is the window that it knows; none was advertised before.
    pub fn hear_syn(&mut self, number: Seq, advertised: u32)
        requires room { length self.old.readable + advertised ≤ self.old.size }
        requires first { receive_window self.old ≡ 0 }
        ensures after { self.new ≡ after_syn self.old number.0 advertised }
        ensures fits { ReceivingFits self.new }
        ensures buffer { IsReceiving (buffer_of self.new) }
        ensures kept { KeptInWindow self.new }
    {
        self.rnext = number + 1;
        self.edge = self.rnext + advertised;
    }

    /// Whether a number lies in the window that is advertised.
    pub fn is_in_window(&self, number: Seq) -> bool
        ensures { result ≡ is_in_window self.now number.0 }
    {
        number.past(self.rnext) < self.window()
    }

    /// Whether a number is the one before RCV.NXT.
    pub fn stands_before(&self, number: Seq) -> bool
        ensures { result ≡ stands_before self.now number.0 }
    {
        self.rnext.past(number) == 1
    }

    /// Whether a segment is acceptable, by its number and how many numbers it takes (RFC 9293 section 3.10.7.4); one that takes none
    /// also at the end of the window, and one before RCV.NXT.
    pub fn is_acceptable(&self, number: Seq, span: u32) -> bool
        ensures { result ≡ is_acceptable self.now number.0 span }
    {
        if span > 0 {
            self.is_in_window(number) || self.is_in_window(number + (span - 1))
        } else {
            number.past(self.rnext) <= self.window() || self.stands_before(number)
        }
    }

    /// Takes those octets that lie in the window that is advertised. Those in order can be read, with all that was kept and follows them
    /// without a gap, and those ahead of a gap are kept.
    pub fn take(&mut self, number: Seq, octets: &[u8])
        ensures after { self.new ≡ after_octets self.old number.0 octets.now }
        ensures fits { ReceivingFits self.new }
        ensures buffer { IsReceiving (buffer_of self.new) }
        ensures kept { KeptInWindow self.new }
    {
        let distance = self.distance(number);
        let within = self.within(number, octets);
        if within.is_empty() {
            return;
        }
        let count = self.buffer.insert_at(distance, within);
        self.rnext = self.rnext + count as u32;
    }

    /// How far past RCV.NXT the octets of a segment begin that are new.
    fn distance(&self, number: Seq) -> usize
        ensures { result ≡ distance_of self.now number.0 }
    {
        if self.rnext.is_before(number) {
            number.past(self.rnext) as usize
        } else {
            0
        }
    }

    /// Those of a segment's octets that lie in the window: what lies before RCV.NXT and past the edge is cut.
    fn within<'a>(&self, number: Seq, octets: &'a [u8]) -> &'a [u8]
        ensures { result.now ≡ octets_within self.now number.0 octets.now }
    {
        let window = self.window() as usize;
        if self.rnext.is_before(number) {
            let room = window.saturating_sub(number.past(self.rnext) as usize);
            return &octets[..octets.len().min(room)];
        }
        let known = (self.rnext.past(number) as usize).min(octets.len());
        let fresh = &octets[known..];
        &fresh[..fresh.len().min(window)]
    }

    /// Whether the number of a FIN stands next in order, within the window that is advertised.
    pub fn stands_next(&self, number: Seq) -> bool
        ensures { result ≡ stands_next self.now number.0 }
    {
        number == self.rnext && self.window() > 0
    }

    /// Takes the peer's FIN, which stands next and for which the window has room. No octet stands behind it, so nothing is kept any
    /// longer.
    pub fn hear_end(&mut self)
        requires { 0 < receive_window self.old }
        ensures after { self.new ≡ after_end self.old }
        ensures fits { ReceivingFits self.new }
        ensures buffer { IsReceiving (buffer_of self.new) }
        ensures kept { KeptInWindow self.new }
    {
        self.buffer.forget_kept();
        self.rnext = self.rnext + 1;
    }

    /// Moves the first octets into `buffer`, as many as it holds, and says how many.
    pub fn read(&mut self, buffer: &mut [u8]) -> usize
        ensures count { result ≡ min (length buffer.old) (length self.old.readable) }
        ensures octets { buffer.new ≡ take result self.old.readable ++ drop result buffer.old }
        ensures after { self.new ≡ after_read self.old result }
        ensures fits { ReceivingFits self.new }
        ensures buffer { IsReceiving (buffer_of self.new) }
        ensures kept { KeptInWindow self.new }
    {
        self.buffer.read(buffer)
    }

    /// What an acknowledgement reports of the octets that are kept ahead of a gap, where the last segment that began ahead of one had this number: first
    /// the range with its octet, then the others, the furthest first (RFC 2018 sections 3 and 4).
    pub fn blocks(&self, latest: Seq) -> Blocks
        ensures { result ≡ reported self.now latest.0 }
    {
        let place = latest.past(self.rnext) as usize;
        let ranges = self.buffer.kept_ranges();
        let mut blocks = Blocks::NONE;
        for range in ranges {
            if has_place(place, *range) {
                blocks.push(block_of(self.rnext, *range));
            }
        }
        for index in (0..ranges.len()).rev() {
            let range = ranges[index];
            if !has_place(place, range) {
                blocks.push(block_of(self.rnext, range));
            }
        }
        blocks
    }

    /// The window is advertised.
    pub fn advertise(&mut self)
        ensures after { self.new ≡ after_advertisement self.old }
        ensures fits { ReceivingFits self.new }
        ensures buffer { IsReceiving (buffer_of self.new) }
        ensures kept { KeptInWindow self.new }
    {
        self.edge = self.next_edge();
    }

    /// The window of a segment with SYN is advertised.
    pub fn advertise_syn(&mut self)
        ensures after { self.new ≡ after_syn_advertisement self.old }
        ensures fits { ReceivingFits self.new }
        ensures buffer { IsReceiving (buffer_of self.new) }
        ensures kept { KeptInWindow self.new }
    {
        self.edge = self.next_syn_edge();
    }
}

/// Whether a range has this place.
fn has_place(place: usize, range: Range) -> bool
    ensures { result ≡ has_place place range }
{
    range.start <= place && place < range.end
}

/// The numbers of a range whose places are counted from `rnext` on.
fn block_of(rnext: Seq, range: Range) -> Block
    requires { (range.start < 2 ^ 32) × (range.end < 2 ^ 32) }
    ensures { result ≡ block_of rnext.0 range }
{
    Block {
        left: rnext + range.start as u32,
        right: rnext + range.end as u32,
    }
}

/// The number behind a window of so many octets.
fn edge_of(rnext: Seq, window: u32) -> Seq
    ensures edge { result.0 ≡ (rnext.0 + window) % 2 ^ 32 }
    ensures reach { past result.0 rnext.0 ≡ window }
{
    rnext + window
}
