//! Segments of TCP and its sequence numbers (RFC 9293 sections 3.1 and 3.4).

use super::{A, B};
use inet_sum::sum;
use tcp_segment::{Block, Blocks, Flags, Head, SegmentFault, Seq, TcpView};

/// The told, the counted and the used maximum segment size, the told and the counted shift, and the length in sequence numbers.
type Sizes = (Option<u16>, u16, u16, Option<u8>, u8, u32);

/// A SYN, one that offers to scale windows, one that permits selective acknowledgements, and a segment with `hello`: header, payload, octets with some more of 7, the segment's
/// length, and its sizes.
const SEGMENTS: [(Head, &[u8], [u8; 30], usize, Sizes); 4] = [
    (
        Head {
            source: 49_152,
            destination: 80,
            number: Seq(u32::MAX),
            acknowledgement: Seq(0),
            flags: Flags {
                fin: false,
                syn: true,
                rst: false,
                psh: false,
                ack: false,
                urg: false,
            },
            window: 65_535,
            scales: false,
            sacks: false,
            blocks: Blocks::NONE,
        },
        b"",
        *b"\xc0\0\0\x50\xff\xff\xff\xff\0\0\0\0\x60\x02\xff\xff\xc3\xd3\0\0\x02\x04\x05\xb4\x07\x07\x07\x07\x07\x07",
        24,
        (Some(1_460), 1_460, 1_460, None, 0, 1),
    ),
    (
        Head {
            source: 49_152,
            destination: 80,
            number: Seq(u32::MAX),
            acknowledgement: Seq(0),
            flags: Flags {
                fin: false,
                syn: true,
                rst: false,
                psh: false,
                ack: false,
                urg: false,
            },
            window: 65_535,
            scales: true,
            sacks: false,
            blocks: Blocks::NONE,
        },
        b"",
        *b"\xc0\0\0\x50\xff\xff\xff\xff\0\0\0\0\x70\x02\xff\xff\xaf\xc7\0\0\x02\x04\x05\xb4\x01\x03\x03\x05\x07\x07",
        28,
        (Some(1_460), 1_460, 1_460, Some(5), 5, 1),
    ),
    (
        Head {
            source: 49_152,
            destination: 80,
            number: Seq(0xffff_ffff),
            acknowledgement: Seq(0),
            flags: Flags {
                fin: false,
                syn: true,
                rst: false,
                psh: false,
                ack: false,
                urg: false,
            },
            window: 65_535,
            scales: false,
            sacks: true,
            blocks: Blocks::NONE,
        },
        b"",
        *b"\xc0\0\0\x50\xff\xff\xff\xff\0\0\0\0\x70\x02\xff\xff\xae\xcc\0\0\x02\x04\x05\xb4\x01\x01\x04\x02\x07\x07",
        28,
        (Some(1460), 1460, 1460, None, 0, 1),
    ),
    (
        Head {
            source: 49_152,
            destination: 80,
            number: Seq(0),
            acknowledgement: Seq(8),
            flags: Flags {
                fin: false,
                syn: false,
                rst: false,
                psh: true,
                ack: true,
                urg: false,
            },
            window: 65_535,
            scales: false,
            sacks: false,
            blocks: Blocks::NONE,
        },
        b"hello",
        *b"\xc0\0\0\x50\0\0\0\0\0\0\0\x08\x50\x18\xff\xff\x97\x9a\0\0\x68\x65\x6c\x6c\x6f\x07\x07\x07\x07\x07",
        25,
        (None, 536, 536, None, 0, 5),
    ),
];

/// What a segment says, but for its payload, its sizes and its urgent pointer.
fn head_of(view: &TcpView) -> Head {
    Head {
        source: view.source(),
        destination: view.destination(),
        number: view.number(),
        acknowledgement: view.acknowledgement(),
        flags: view.flags(),
        window: view.window(),
        scales: view.scale_option().is_some(),
        sacks: view.is_sack_permitted(),
        blocks: view.blocks(),
    }
}

/// What its options and its flags tell of sizes.
fn sizes_of(view: &TcpView) -> Sizes {
    (
        view.mss_option(),
        view.send_mss(),
        view.smss(),
        view.scale_option(),
        view.shift(),
        view.span(),
    )
}

/// Writes a segment to `out`, and answers its length, where that is the header's and the payload's and `out` has room for them.
fn written(head: &Head, payload: &[u8], out: &mut [u8]) -> Option<usize> {
    let begin = head.len();
    if out.len() > 60 || out.len() < begin || payload.len() > out.len() - begin {
        return None;
    }
    let end = begin + payload.len();
    out[begin..end].copy_from_slice(payload);
    let payload_sum = sum(&out[begin..end]);
    let len = head.emit(A, B, payload.len(), payload_sum, out);
    (len == end).then_some(len)
}

/// Whether a segment says this.
fn says(octets: &[u8], head: &Head, payload: &[u8], sizes: &Sizes) -> bool {
    let Ok(view) = TcpView::parse(A, B, octets) else {
        return false;
    };
    (head_of(&view), view.urgent(), view.payload()) == (*head, 0, payload)
        && sizes_of(&view) == *sizes
}

#[test]
fn segments_are_written_and_read_again(rt: HostRuntime) {
    for (head, payload, want, want_len, sizes) in &SEGMENTS {
        let mut out = [7; 30];
        assert!(rt; written(head, payload, &mut out) == Some(*want_len));
        assert!(rt; out == *want);
        assert!(rt; says(&want[..*want_len], head, payload, sizes));
    }
}

/// An acknowledgement that reports two blocks, of which the second goes on over the number 0 (RFC 2018 section 3).
const REPORT: [u8; 40] =
    *b"\xc0\0\0\x50\0\0\0\0\0\0\0\x08\xa0\x10\xff\xff\x74\x33\0\0\x01\x01\x05\x12\0\0\x05\xb5\0\0\x0b\x69\xff\xff\xff\0\0\0\x01\0";

#[test]
fn blocks_are_written_and_read_again(rt: HostRuntime) {
    let mut blocks = Blocks::NONE;
    for (left, right) in [(1_461, 2_921), (0xffff_ff00, 0x100)] {
        blocks.push(Block {
            left: Seq(left),
            right: Seq(right),
        });
    }
    let head = Head {
        source: 49_152,
        destination: 80,
        number: Seq(0),
        acknowledgement: Seq(8),
        flags: Flags {
            ack: true,
            ..Flags::default()
        },
        window: 65_535,
        scales: false,
        sacks: false,
        blocks,
    };
    let mut out = [7; 40];
    assert!(rt; written(&head, b"", &mut out) == Some(40));
    assert!(rt; out == REPORT);
    assert!(rt; says(&REPORT, &head, b"", &(None, 536, 536, None, 0, 0)));
}

/// Octets, and why they are no segment. Malformed ones are so with a right checksum and with a wrong one.
const FAULTS: [(&[u8], Option<SegmentFault>); 28] = [
    // a data offset of four words, and one past the segment
    (
        b"\xc0\0\0\x50\xff\xff\xff\xff\0\0\0\0\x40\x02\xff\xff\xe3\xd3\0\0\x02\x04\x05\xb4",
        Some(SegmentFault::UpperHeader),
    ),
    (
        b"\xc0\0\0\x50\xff\xff\xff\xff\0\0\0\0\x40\x02\xff\xff\xe2\xd3\0\0\x02\x04\x05\xb4",
        Some(SegmentFault::UpperHeader),
    ),
    (
        b"\xc0\0\0\x50\xff\xff\xff\xff\0\0\0\0\xf0\x02\xff\xff\x33\xd3\0\0\x02\x04\x05\xb4",
        Some(SegmentFault::UpperHeader),
    ),
    (
        b"\xc0\0\0\x50\xff\xff\xff\xff\0\0\0\0\xf0\x02\xff\xff\x32\xd3\0\0\x02\x04\x05\xb4",
        Some(SegmentFault::UpperHeader),
    ),
    // other options: their lengths are 0, 1 and past the header, or not there
    (
        b"\xc0\0\0\x50\xff\xff\xff\xff\0\0\0\0\x60\x02\xff\xff\xc6\x8b\0\0\x05\0\0\0",
        Some(SegmentFault::UpperHeader),
    ),
    (
        b"\xc0\0\0\x50\xff\xff\xff\xff\0\0\0\0\x60\x02\xff\xff\xc7\x8b\0\0\x05\0\0\0",
        Some(SegmentFault::UpperHeader),
    ),
    (
        b"\xc0\0\0\x50\xff\xff\xff\xff\0\0\0\0\x60\x02\xff\xff\xc6\x8a\0\0\x05\x01\0\0",
        Some(SegmentFault::UpperHeader),
    ),
    (
        b"\xc0\0\0\x50\xff\xff\xff\xff\0\0\0\0\x60\x02\xff\xff\xc7\x8a\0\0\x05\x01\0\0",
        Some(SegmentFault::UpperHeader),
    ),
    (
        b"\xc0\0\0\x50\xff\xff\xff\xff\0\0\0\0\x60\x02\xff\xff\xc6\x86\0\0\x05\x05\0\0",
        Some(SegmentFault::UpperHeader),
    ),
    (
        b"\xc0\0\0\x50\xff\xff\xff\xff\0\0\0\0\x60\x02\xff\xff\xc7\x86\0\0\x05\x05\0\0",
        Some(SegmentFault::UpperHeader),
    ),
    (
        b"\xc0\0\0\x50\xff\xff\xff\xff\0\0\0\0\x60\x02\xff\xff\xc9\x85\0\0\x01\x01\x01\x05",
        Some(SegmentFault::UpperHeader),
    ),
    (
        b"\xc0\0\0\x50\xff\xff\xff\xff\0\0\0\0\x60\x02\xff\xff\xc8\x85\0\0\x01\x01\x01\x05",
        Some(SegmentFault::UpperHeader),
    ),
    // maximum segment sizes of other lengths
    (
        b"\xc0\0\0\x50\xff\xff\xff\xff\0\0\0\0\x60\x02\xff\xff\xc3\xd7\0\0\x02\0\x05\xb4",
        Some(SegmentFault::UpperHeader),
    ),
    (
        b"\xc0\0\0\x50\xff\xff\xff\xff\0\0\0\0\x60\x02\xff\xff\xc2\xd7\0\0\x02\0\x05\xb4",
        Some(SegmentFault::UpperHeader),
    ),
    (
        b"\xc0\0\0\x50\xff\xff\xff\xff\0\0\0\0\x60\x02\xff\xff\xc4\x88\0\0\x02\x03\x05\0",
        Some(SegmentFault::UpperHeader),
    ),
    (
        b"\xc0\0\0\x50\xff\xff\xff\xff\0\0\0\0\x60\x02\xff\xff\xc5\x88\0\0\x02\x03\x05\0",
        Some(SegmentFault::UpperHeader),
    ),
    // window scale options of other lengths, with SYN and with ACK alone
    (
        b"\xc0\0\0\x50\xff\xff\xff\xff\0\0\0\0\x60\x02\xff\xff\xc8\x89\0\0\x03\x02\0\0",
        Some(SegmentFault::UpperHeader),
    ),
    (
        b"\xc0\0\0\x50\xff\xff\xff\xff\0\0\0\0\x60\x02\xff\xff\xc7\x89\0\0\x03\x02\0\0",
        Some(SegmentFault::UpperHeader),
    ),
    (
        b"\xc0\0\0\x50\xff\xff\xff\xff\0\0\0\0\x60\x02\xff\xff\xc8\x87\0\0\x03\x04\0\0",
        Some(SegmentFault::UpperHeader),
    ),
    (
        b"\xc0\0\0\x50\xff\xff\xff\xff\0\0\0\0\x60\x02\xff\xff\xc7\x87\0\0\x03\x04\0\0",
        Some(SegmentFault::UpperHeader),
    ),
    (
        b"\xc0\0\0\x50\xff\xff\xff\xff\0\0\0\0\x60\x10\xff\xff\xc8\x7b\0\0\x03\x02\0\0",
        Some(SegmentFault::UpperHeader),
    ),
    (
        b"\xc0\0\0\x50\xff\xff\xff\xff\0\0\0\0\x60\x10\xff\xff\xc7\x7b\0\0\x03\x02\0\0",
        Some(SegmentFault::UpperHeader),
    ),
    (
        b"\xc0\0\0\x50\xff\xff\xff\xff\0\0\0\0\x60\x10\xff\xff\xc8\x79\0\0\x03\x04\0\0",
        Some(SegmentFault::UpperHeader),
    ),
    (
        b"\xc0\0\0\x50\xff\xff\xff\xff\0\0\0\0\x60\x10\xff\xff\xc7\x79\0\0\x03\x04\0\0",
        Some(SegmentFault::UpperHeader),
    ),
    // an octet less than a header, and no octets
    (
        b"\xc0\0\0\x50\xff\xff\xff\xff\0\0\0\0\x60\x02\xff\xff\xc3\xd3\0",
        Some(SegmentFault::UpperHeader),
    ),
    (b"", Some(SegmentFault::UpperHeader)),
    // a wrong checksum, and the end of the options
    (
        b"\xc0\0\0\x50\xff\xff\xff\xff\0\0\0\0\x60\x02\xff\xff\xc3\xd3\0\0\x02\x04\x05\xb5",
        Some(SegmentFault::UpperSum),
    ),
    (
        b"\xc0\0\0\x50\xff\xff\xff\xff\0\0\0\0\x60\x02\xff\xff\xc9\x8a\0\0\x01\x01\x01\0",
        None,
    ),
];

#[test]
fn faults(rt: HostRuntime) {
    for (octets, want) in &FAULTS {
        assert!(rt; TcpView::parse(A, B, octets).err() == *want);
    }
}

/// Segments with window scale options, the shift that is told, and the one that counts.
const SCALES: [(&[u8], Option<u8>, u8); 8] = [
    (
        b"\xc0\0\0\x50\xff\xff\xff\xff\0\0\0\0\x60\x02\xff\xff\xc7\x88\0\0\x01\x03\x03\0",
        Some(0),
        0,
    ),
    (
        b"\xc0\0\0\x50\xff\xff\xff\xff\0\0\0\0\x60\x02\xff\xff\xc7\x81\0\0\x01\x03\x03\x07",
        Some(7),
        7,
    ),
    (
        b"\xc0\0\0\x50\xff\xff\xff\xff\0\0\0\0\x60\x02\xff\xff\xc7\x7a\0\0\x01\x03\x03\x0e",
        Some(14),
        14,
    ),
    (
        b"\xc0\0\0\x50\xff\xff\xff\xff\0\0\0\0\x60\x02\xff\xff\xc7\x79\0\0\x01\x03\x03\x0f",
        Some(15),
        14,
    ),
    (
        b"\xc0\0\0\x50\xff\xff\xff\xff\0\0\0\0\x60\x02\xff\xff\xc6\x89\0\0\x01\x03\x03\xff",
        Some(255),
        14,
    ),
    // of two the last one
    (
        b"\xc0\0\0\x50\xff\xff\xff\xff\0\0\0\0\x70\x02\xff\xff\xb3\x7a\0\0\x03\x03\x02\x03\x03\x07\0\0",
        Some(7),
        7,
    ),
    // behind the end of the options, and without SYN
    (
        b"\xc0\0\0\x50\xff\xff\xff\xff\0\0\0\0\x70\x02\xff\xff\xb6\x7b\0\0\0\x03\x03\x07\x01\x01\x01\x01",
        None,
        0,
    ),
    (
        b"\xc0\0\0\x50\xff\xff\xff\xff\0\0\0\0\x60\x10\xff\xff\xc7\x73\0\0\x01\x03\x03\x07",
        None,
        0,
    ),
];

#[test]
fn shifts(rt: HostRuntime) {
    for (octets, told, counted) in &SCALES {
        let view = TcpView::parse(A, B, octets).expect(&rt, "a segment");
        assert!(rt; (view.scale_option(), view.shift()) == (*told, *counted));
    }
}

const LAST: Seq = Seq(u32::MAX);

const FIRST: Seq = Seq(0);

/// Two numbers; how far the one is past the other, their difference, and whether it is before it, and at most it.
const NUMBERS: [(Seq, Seq, (u32, i32, bool, bool)); 2] = [
    (FIRST, LAST, (1, 1, false, false)),
    (LAST, FIRST, (u32::MAX, -1, true, true)),
];

#[test]
fn numbers(rt: HostRuntime) {
    assert!(rt; LAST + 1 == FIRST);
    for (one, other, want) in &NUMBERS {
        let (one, other) = (*one, *other);
        assert!(rt;
            (
                one.past(other),
                one.difference(other),
                one.is_before(other),
                one.is_at_most(other)
            ) == *want
        );
    }
}
