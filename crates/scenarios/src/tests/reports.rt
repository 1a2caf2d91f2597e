//! What acknowledgements report of octets that are kept ahead of a gap (RFC 2018 sections 2 and 7).

use super::ends::{ACK, CALLER, End, LISTENER, SYN};
use clock::Moment;
use inet_sum::sum;
use ipv4::Addr;
use std::alloc::Global;
use std::process::Abort;
use tcp_segment::{Blocks, Flags, Head, Seq};
use tcp_state::Fate::Stays;
use tcp_state::{Buffers, CAPACITY, Connection, Control, MOST_SEGMENT, Manner, Recovery};

/// How many octets each segment of the peer has.
const COUNT: usize = 500;

/// Longer than an acknowledgement is delayed, in milliseconds.
const DELAY: u64 = 500;

/// The number of a segment that comes; the acknowledgement that answers it, and the blocks that this reports, by their edges.
type Row = (u32, u32, &'static [(u32, u32)]);

/// What comes of the peer's segments, the first of which has this number.
struct Case {
    name: &'static str,
    first: u32,
    rows: &'static [Row],
}

const CASES: [Case; 5] = [
    // The first four of eight segments come, and the others are lost.
    Case {
        name: "nothing is kept",
        first: 5_000,
        rows: &[
            (5_000, 5_500, &[]),
            (5_500, 6_000, &[]),
            (6_000, 6_500, &[]),
            (6_500, 7_000, &[]),
        ],
    },
    // The first is lost, and the other seven come.
    Case {
        name: "one block grows",
        first: 5_000,
        rows: &[
            (5_500, 5_000, &[(5_500, 6_000)]),
            (6_000, 5_000, &[(5_500, 6_500)]),
            (6_500, 5_000, &[(5_500, 7_000)]),
            (7_000, 5_000, &[(5_500, 7_500)]),
            (7_500, 5_000, &[(5_500, 8_000)]),
            (8_000, 5_000, &[(5_500, 8_500)]),
            (8_500, 5_000, &[(5_500, 9_000)]),
        ],
    },
    // The second, the fourth, the sixth and the eighth are lost; then the fourth comes, and then the second.
    Case {
        name: "the latest block comes first",
        first: 5_000,
        rows: &[
            (5_000, 5_500, &[]),
            (6_000, 5_500, &[(6_000, 6_500)]),
            (7_000, 5_500, &[(7_000, 7_500), (6_000, 6_500)]),
            (
                8_000,
                5_500,
                &[(8_000, 8_500), (7_000, 7_500), (6_000, 6_500)],
            ),
            (6_500, 5_500, &[(6_000, 7_500), (8_000, 8_500)]),
            (5_500, 7_500, &[(8_000, 8_500)]),
        ],
    },
    // Of six blocks four are told: the latest, and those that are furthest. Octets that come again are the latest too.
    Case {
        name: "four blocks at most",
        first: 5_000,
        rows: &[
            (6_000, 5_000, &[(6_000, 6_500)]),
            (7_000, 5_000, &[(7_000, 7_500), (6_000, 6_500)]),
            (
                8_000,
                5_000,
                &[(8_000, 8_500), (7_000, 7_500), (6_000, 6_500)],
            ),
            (
                9_000,
                5_000,
                &[
                    (9_000, 9_500),
                    (8_000, 8_500),
                    (7_000, 7_500),
                    (6_000, 6_500),
                ],
            ),
            (
                10_000,
                5_000,
                &[
                    (10_000, 10_500),
                    (9_000, 9_500),
                    (8_000, 8_500),
                    (7_000, 7_500),
                ],
            ),
            (
                11_000,
                5_000,
                &[
                    (11_000, 11_500),
                    (10_000, 10_500),
                    (9_000, 9_500),
                    (8_000, 8_500),
                ],
            ),
            (
                6_000,
                5_000,
                &[
                    (6_000, 6_500),
                    (11_000, 11_500),
                    (10_000, 10_500),
                    (9_000, 9_500),
                ],
            ),
            (
                5_000,
                5_500,
                &[
                    (6_000, 6_500),
                    (11_000, 11_500),
                    (10_000, 10_500),
                    (9_000, 9_500),
                ],
            ),
        ],
    },
    // The numbers of a block go on behind 4294967295 with 0.
    Case {
        name: "numbers wrap",
        first: 4_294_966_296,
        rows: &[
            (4_294_966_796, 4_294_966_296, &[(4_294_966_796, 0)]),
            (500, 4_294_966_296, &[(500, 1_000), (4_294_966_796, 0)]),
            (0, 4_294_966_296, &[(4_294_966_796, 1_000)]),
            (4_294_966_296, 1_000, &[]),
        ],
    },
];

/// The octets of a peer's segment, and how many these are.
type Octets = ([u8; MOST_SEGMENT], usize);

/// A segment of the peer with so many octets, whose SYN says that selective acknowledgements are taken or doesn't.
fn segment(number: u32, flags: Flags, sacks: bool, count: usize) -> Octets {
    let head = Head {
        source: LISTENER.port,
        destination: CALLER.port,
        number: Seq(number),
        acknowledgement: Seq(1),
        flags,
        window: 65_535,
        scales: false,
        sacks,
        blocks: Blocks::NONE,
    };
    let (Addr(from), Addr(to)) = (LISTENER.addr, CALLER.addr);
    let mut frame = [0; MOST_SEGMENT];
    let (begin, count) = (head.len(), count.min(COUNT));
    let payload_sum = sum(&frame[begin..begin + count]);
    let len = head.emit(Addr(from), Addr(to), count, payload_sum, &mut frame);
    (frame, len)
}

/// The end takes this segment.
fn hears(end: &mut End, now: u64, (octets, len): Octets) -> bool {
    end.hear(now, &octets[..len.min(MOST_SEGMENT)]) == Some(Stays)
}

/// An end with such a set-up calls, its SYN has so many octets, and the peer's says that selective acknowledgements are taken, or doesn't.
fn opened(
    rt: &impl Abort,
    alloc: Global,
    recovery: Recovery,
    syn_len: usize,
    first: u32,
    sacks: bool,
) -> End {
    let manner = Manner {
        scales: false,
        minshall: false,
        control: Control {
            recovery,
            ..Control::PLAIN
        },
        least_timeout: 1_000,
        guards: false,
    };
    let buffers = Buffers::new(alloc, CAPACITY, manner).expect(rt, "memory for two buffers");
    let mut end = End::new(Connection::active(buffers, CALLER, LISTENER, Seq(0), Moment(0)));
    assert!(rt; end.emit(0) == Some(syn_len));
    let syn_ack = Flags { ack: true, ..SYN };
    assert!(rt;
        hears(
            &mut end,
            0,
            segment(first.wrapping_sub(1), syn_ack, sacks, 0)
        )
    );
    assert!(rt; end.emit(0) == Some(20));
    end
}

/// The length of the option that reports these blocks, four at most: eight octets of each, and two before them.
fn report_len(blocks: &[(u32, u32)]) -> u8 {
    8 * blocks.len().min(4) as u8 + 2
}

/// The octets of the options that report these blocks (RFC 2018 section 3): two of no operation, the kind 5, the length, and the edges of each.
fn is_report(options: &[u8], blocks: &[(u32, u32)]) -> bool {
    if blocks.is_empty() {
        return options.is_empty();
    }
    let Some((front, mut rest)) = options.split_at_checked(4) else {
        return false;
    };
    if front != [1, 1, 5, report_len(blocks)].as_slice() {
        return false;
    }
    for (left, right) in blocks {
        let Some((edges, behind)) = rest.split_at_checked(8) else {
            return false;
        };
        let (first, last) = edges.split_at(4);
        if first != left.to_be_bytes().as_slice() || last != right.to_be_bytes().as_slice() {
            return false;
        }
        rest = behind;
    }
    rest.is_empty()
}

/// A segment comes, and what answers it once no acknowledgement is delayed any more has this acknowledgement and these blocks.
fn is_answered(end: &mut End, now: u64, (number, acknowledgement, blocks): Row) -> bool {
    let later = now.saturating_add(DELAY);
    if !hears(end, now, segment(number, ACK, false, COUNT))
        || end.connection.tick(Moment(later)) != Stays
    {
        return false;
    }
    let want = if blocks.is_empty() {
        20
    } else {
        22 + usize::from(report_len(blocks))
    };
    if end.emit(later) != Some(want) || end.connection.due().is_some() {
        return false;
    }
    let Some((_, told, flags, _)) = end.header() else {
        return false;
    };
    told == acknowledgement && flags == ACK && is_report(end.options(), blocks)
}

#[test]
fn what_is_kept_is_reported(rt: HostRuntime) {
    for case in &CASES {
        let mut end = opened(&rt, rt.alloc(), Recovery::Selective, 28, case.first, true);
        for (row, told) in case.rows.iter().enumerate() {
            let now = (row as u64).saturating_mul(2 * DELAY);
            assert!(rt;
                is_answered(&mut end, now, *told),
                "{}: row {row}",
                case.name
            );
        }
    }
}

/// How losses are repaired here, how many octets the SYN has, and whether the peer's SYN says that selective acknowledgements are taken: nothing is
/// reported unless both SYNs say so (RFC 2018 section 2).
const UNREPORTED: [(Recovery, usize, bool); 4] = [
    (Recovery::Plain, 24, true),
    (Recovery::NewReno, 24, true),
    (Recovery::Selective, 28, false),
    (Recovery::NewReno, 24, false),
];

#[test]
fn nothing_is_reported_unless_both_syns_say_so(rt: HostRuntime) {
    for (recovery, syn_len, sacks) in UNREPORTED {
        let mut end = opened(&rt, rt.alloc(), recovery, syn_len, 5_000, sacks);
        assert!(rt; is_answered(&mut end, 0, (5_500, 5_000, &[])));
    }
}
