//! One end of a connection, which writes, and what its peer acknowledges and reports, segment by segment.

use super::courses::Event::{Acknowledged, Brings, Expires, Reports, Writes};
use super::ends::{ACK, CALLER, End, LISTENER, SYN};
use clock::Moment;
use inet_sum::sum;
use std::alloc::Global;
use std::process::Abort;
use tcp_segment::{Block, Blocks, Flags, Head, Seq};
use tcp_state::Fate::Stays;
use tcp_state::{Buffers, CAPACITY, Connection, Control, MOST_SEGMENT, Manner, Recovery};

/// The octets of a full segment, and those with its header.
pub(super) const SEGMENT: u32 = 1_460;

pub(super) const WITH_HEADER: usize = 1_480;

/// The largest window that is not scaled.
pub(super) const WIDE: u16 = 65_535;

/// The initial number of the peer.
const PEER: u32 = 7;

/// Places in the stream: the first of a range, and the one behind its last.
pub(super) type Ranges = &'static [(u32, u32)];

/// What happens at the end that sends.
#[derive(Clone, Copy)]
pub(super) enum Event {
    /// Its caller writes so many segments.
    Writes(usize),
    /// An ACK comes of so many segments in order, with a block of each of these ranges, which count in segments.
    Acknowledged(u32, Ranges),
    /// An ACK comes of so many segments in order, with a block of each of these ranges, which count in octets.
    Reports(u32, Ranges),
    /// The same of no segment, which has this window and brings so many octets, two at most.
    Brings(u16, usize, Ranges),
    /// The clock comes to this moment, in milliseconds.
    Expires(u64),
}

/// What happens, the segments that go out then, each by how many stand before it in the stream, and the congestion window and the slow start threshold
/// after that, in octets.
pub(super) type Row = (Event, &'static [u32], u32, u32);

/// The number of the first octet: the numbers go on behind 4294967295 with 0 nowhere, or in segment 0; before, in and behind segment 3; in segment 5; behind
/// segment 11; or in segment 12.
pub(super) const FIRST_NUMBERS: [u32; 8] = [
    0,
    4_294_966_566,
    4_294_962_916,
    4_294_962_186,
    4_294_961_456,
    4_294_959_995,
    4_294_949_776,
    4_294_949_775,
];

/// The number at a place that counts in units of so many octets.
pub(super) fn number_at(first: u32, place: u32, unit: u32) -> Seq {
    Seq(first.wrapping_add(place.saturating_mul(unit)))
}

/// A block of each of these ranges, which count in units of so many octets.
fn blocks_of(first: u32, ranges: &[(u32, u32)], unit: u32) -> Blocks {
    let mut blocks = Blocks::NONE;
    for (left, right) in ranges {
        blocks.push(Block {
            left: number_at(first, *left, unit),
            right: number_at(first, *right, unit),
        });
    }
    blocks
}

/// A header of the peer's.
fn peers_head(number: u32, acknowledgement: Seq, flags: Flags, window: u16) -> Head {
    Head {
        source: LISTENER.port,
        destination: CALLER.port,
        number: Seq(number),
        acknowledgement,
        flags,
        window,
        scales: false,
        sacks: false,
        blocks: Blocks::NONE,
    }
}

/// A segment of the peer comes with so many octets, two at most.
fn hears(end: &mut End, now: u64, head: &Head, count: usize) -> bool {
    let mut frame = [0; MOST_SEGMENT];
    let (begin, count) = (head.len(), count.min(2));
    let payload_sum = sum(&frame[begin..begin + count]);
    let len = head.emit(LISTENER.addr, CALLER.addr, count, payload_sum, &mut frame);
    end.hear(now, &frame[..len]) == Some(Stays)
}

/// How losses are repaired by an end's host, whether the SYN of its peer says that selective acknowledgements are taken, and how long that SYN is waited for,
/// in milliseconds.
#[derive(Clone, Copy)]
pub(super) struct Opening {
    pub(super) recovery: Recovery,
    pub(super) sacks: bool,
    pub(super) round: u64,
}

/// An end of this host calls, and is answered by a SYN of this peer. Its first octet has this number.
fn opened(rt: &impl Abort, alloc: Global, first: u32, opening: Opening) -> End {
    let Opening {
        recovery,
        sacks,
        round,
    } = opening;
    let manner = Manner {
        scales: false,
        minshall: false,
        control: Control {
            recovery,
            first_segments: 10,
            ..Control::PLAIN
        },
        least_timeout: 1_000,
        guards: false,
    };
    let buffers = Buffers::new(alloc, CAPACITY, manner).expect(rt, "memory for two buffers");
    let isn = Seq(first.wrapping_sub(1));
    let mut end = End::new(Connection::active(buffers, CALLER, LISTENER, isn, Moment(0)));
    let syn = if recovery == Recovery::Selective {
        28
    } else {
        24
    };
    assert!(rt; end.emit(0) == Some(syn));
    let syn_ack = Head {
        sacks,
        ..peers_head(PEER, Seq(first), Flags { ack: true, ..SYN }, WIDE)
    };
    assert!(rt; hears(&mut end, round, &syn_ack, 0));
    assert!(rt; end.emit(round) == Some(20));
    end
}

/// So many segments are written.
fn writes(end: &mut End, now: u64, count: usize) -> bool {
    for _ in 0..count {
        if end.connection.send(Moment(now), &[0; SEGMENT as usize]) != Ok(SEGMENT as usize) {
            return false;
        }
    }
    true
}

/// The peer acknowledges so far, with these blocks and this window, and so many octets come with that.
fn acknowledges(
    end: &mut End,
    now: u64,
    acknowledgement: Seq,
    blocks: Blocks,
    window: u16,
    count: usize,
) -> bool {
    let head = Head {
        blocks,
        ..peers_head(PEER.wrapping_add(1), acknowledgement, ACK, window)
    };
    hears(end, now, &head, count)
}

/// The number and the length of what goes out; None where nothing does.
pub(super) fn sent(end: &mut End, now: u64) -> Option<(u32, usize)> {
    let len = end.emit(now)?;
    let (number, _, _, _) = end.header()?;
    Some((number, len))
}

/// These segments go out, each of them full, and nothing else is due.
fn sends(end: &mut End, now: u64, first: u32, segments: &[u32]) -> bool {
    for place in segments {
        let Seq(number) = number_at(first, *place, SEGMENT);
        if sent(end, now) != Some((number, WITH_HEADER)) {
            return false;
        }
    }
    end.connection.due().is_none()
}

/// The congestion window and the slow start threshold.
pub(super) fn windows(end: &End) -> (u32, u32) {
    let info = end.connection.info();
    (info.cwnd, info.ssthresh)
}

/// An end, the number of its first octet, and the moment.
#[derive(Drop)]
pub(super) struct Course {
    pub(super) end: End,
    first: u32,
    pub(super) now: u64,
}

impl Course {
    /// Something happens at an end whose peer acknowledges with this window.
    pub(super) fn happens(&mut self, event: &Event, window: u16) -> bool {
        let (first, now) = (self.first, self.now);
        match event {
            Writes(count) => writes(&mut self.end, now, *count),
            Acknowledged(count, ranges) => {
                let acknowledgement = number_at(first, *count, SEGMENT);
                let blocks = blocks_of(first, ranges, SEGMENT);
                acknowledges(&mut self.end, now, acknowledgement, blocks, window, 0)
            }
            Reports(count, ranges) => {
                let acknowledgement = number_at(first, *count, SEGMENT);
                let blocks = blocks_of(first, ranges, 1);
                acknowledges(&mut self.end, now, acknowledgement, blocks, window, 0)
            }
            Brings(window, count, ranges) => {
                let blocks = blocks_of(first, ranges, 1);
                acknowledges(&mut self.end, now, Seq(first), blocks, *window, *count)
            }
            Expires(moment) => {
                self.now = *moment;
                self.end.connection.tick(Moment(*moment)) == Stays
            }
        }
    }
}

/// Plays some rows.
pub(super) fn goes(rt: &impl Abort, course: &mut Course, name: &str, window: u16, rows: &[Row]) {
    let first = course.first;
    for (row, (event, segments, cwnd, ssthresh)) in rows.iter().enumerate() {
        assert!(rt;
            course.happens(event, window),
            "{name} from {first}: row {row}"
        );
        assert!(rt;
            sends(&mut course.end, course.now, first, segments),
            "{name} from {first}: row {row}, segments"
        );
        assert!(rt;
            windows(&course.end) == (*cwnd, *ssthresh),
            "{name} from {first}: row {row}, windows"
        );
    }
}

/// An end of its own is played with, whose first octet has this number.
pub(super) fn begun(rt: &impl Abort, alloc: Global, first: u32, opening: Opening) -> Course {
    let end = opened(rt, alloc, first, opening);
    Course {
        end,
        first,
        now: opening.round,
    }
}
