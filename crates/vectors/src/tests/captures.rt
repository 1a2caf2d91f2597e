//! Captures that tcpdump 4.99.3 with libpcap 1.10.3 wrote, and others whose octets follow draft-ietf-opsawg-pcap by hand. What is
//! expected of them is what tcpdump printed.

use capture::{
    Format, Fraction, Header, HeaderFault, Order, Reader, RecordFault, RecordView, file_head,
    record_head,
};
use clock::Moment;
use std::alloc::AllocError;

/// One datagram on the loopback interface, which tcpdump printed as of 1795518449.188674.
const LOOPBACK: &[u8] = b"\xd4\xc3\xb2\xa1\x02\0\x04\0\0\0\0\0\0\0\0\0\0\0\x04\0\x01\0\0\0\
    \xf1\x6f\x05\x6b\x02\xe1\x02\0\x2c\0\0\0\x2c\0\0\0\
    \0\0\0\0\0\0\0\0\0\0\0\0\x08\0\
    \x45\0\0\x1e\x8b\xfb\x40\0\x40\x11\xb0\xd1\x7f\0\0\x01\x7f\0\0\x01\
    \xad\xed\x13\x89\0\x0a\xfe\x1dhi";

/// The same with `-s 20` and in nanoseconds, printed as of 1795518503.599194288.
const NANOSECONDS: &[u8] = b"\x4d\x3c\xb2\xa1\x02\0\x04\0\0\0\0\0\0\0\0\0\x14\0\0\0\x01\0\0\0\
    \x27\x70\x05\x6b\xb0\xfa\xb6\x23\x14\0\0\0\x2c\0\0\0\
    \0\0\0\0\0\0\0\0\0\0\0\0\x08\0\
    \x45\0\0\x1e\xb3\x9b";

/// Two records of four and two octets, the lowest octet of each number first.
const LITTLE: &[u8] = b"\xd4\xc3\xb2\xa1\x02\0\x04\0\0\0\0\0\0\0\0\0\0\0\x04\0\x01\0\0\0\
    \x01\0\0\0\x02\0\0\0\x04\0\0\0\x04\0\0\0abcd\
    \x03\0\0\0\x3f\x42\x0f\0\x02\0\0\0\x05\0\0\0ef";

/// The same, the highest octet of each number first.
const BIG: &[u8] = b"\xa1\xb2\xc3\xd4\0\x02\0\x04\0\0\0\0\0\0\0\0\0\x04\0\0\0\0\0\x01\
    \0\0\0\x01\0\0\0\x02\0\0\0\x04\0\0\0\x04abcd\
    \0\0\0\x03\0\x0f\x42\x3f\0\0\0\x02\0\0\0\x05ef";

const ORDERS: [&[u8]; 2] = [LITTLE, BIG];

/// A record that was read: its second, the nanoseconds of it, the frame's length, and the octets.
type Told<'a> = (u32, u64, u32, &'a [u8]);

/// What the two records tell.
const RECORDS: [Told; 2] = [(1, 2_000, 4, b"abcd"), (3, 999_999_000, 5, b"ef")];

fn told<'a>(view: RecordView<'a>) -> Told<'a> {
    (
        view.seconds(),
        view.nanoseconds(),
        view.original(),
        view.octets(),
    )
}

/// A capture of one record, and what it is read as. The frame's octets stand from the 40th on.
struct Sample {
    capture: &'static [u8],
    header: Header,
    moment: Moment,
    seconds: u32,
    nanoseconds: u64,
    original: u32,
}

const SAMPLES: [Sample; 2] = [
    Sample {
        capture: LOOPBACK,
        header: Header {
            format: Format {
                order: Order::Little,
                fraction: Fraction::Microseconds,
            },
            snaplen: 262_144,
        },
        moment: Moment(1_795_518_449_188),
        seconds: 1_795_518_449,
        nanoseconds: 188_674_000,
        original: 44,
    },
    Sample {
        capture: NANOSECONDS,
        header: Header {
            format: Format {
                order: Order::Little,
                fraction: Fraction::Nanoseconds,
            },
            snaplen: 20,
        },
        moment: Moment(1_795_518_503_599),
        seconds: 1_795_518_503,
        nanoseconds: 599_194_288,
        original: 44,
    },
];

/// Whether a capture's header and its one record are read so, and nothing behind them, however often.
fn is_read_so(sample: &Sample) -> bool {
    let Ok(mut reader) = Reader::new(sample.capture) else {
        return false;
    };
    let Some(Ok(record)) = reader.next_record() else {
        return false;
    };
    (reader.header(), record.moment()) == (sample.header, sample.moment)
        && (record.seconds(), record.nanoseconds(), record.original())
            == (sample.seconds, sample.nanoseconds, sample.original)
        && Some(record.octets()) == sample.capture.get(40..)
        && reader.next_record().is_none()
        && reader.next_record().is_none()
}

#[test]
fn captures_of_tcpdump(rt: HostRuntime) {
    assert!(rt; LOOPBACK.starts_with(&file_head()));
    for sample in &SAMPLES {
        assert!(rt; is_read_so(sample));
    }
}

/// What stands before a frame's octets, by its moment in milliseconds and its length.
const HEADS: [(u64, usize, &[u8; 16]); 4] = [
    (
        1_795_518_449_188,
        44,
        b"\xf1\x6f\x05\x6b\x60\xde\x02\0\x2c\0\0\0\x2c\0\0\0",
    ),
    (0, 0, b"\0\0\0\0\0\0\0\0\0\0\0\0\0\0\0\0"),
    (999, 262_144, b"\0\0\0\0\x58\x3e\x0f\0\0\0\x04\0\0\0\x04\0"),
    // the second of 2^32 begins again at 0
    (
        4_294_967_296_001,
        60,
        b"\0\0\0\0\xe8\x03\0\0\x3c\0\0\0\x3c\0\0\0",
    ),
];

#[test]
fn heads_of_records(rt: HostRuntime) {
    for (moment, len, octets) in &HEADS {
        assert!(rt; record_head(Moment(*moment), *len) == **octets);
    }
}

/// Of so many octets of the two captures, how many whole records are read, and the fault then, if any. The records have 20 and 18
/// octets.
const CUTS: [(usize, usize, Option<RecordFault>); 39] = [
    (24, 0, None),
    (25, 0, Some(RecordFault::CutHead(15))),
    (26, 0, Some(RecordFault::CutHead(14))),
    (27, 0, Some(RecordFault::CutHead(13))),
    (28, 0, Some(RecordFault::CutHead(12))),
    (29, 0, Some(RecordFault::CutHead(11))),
    (30, 0, Some(RecordFault::CutHead(10))),
    (31, 0, Some(RecordFault::CutHead(9))),
    (32, 0, Some(RecordFault::CutHead(8))),
    (33, 0, Some(RecordFault::CutHead(7))),
    (34, 0, Some(RecordFault::CutHead(6))),
    (35, 0, Some(RecordFault::CutHead(5))),
    (36, 0, Some(RecordFault::CutHead(4))),
    (37, 0, Some(RecordFault::CutHead(3))),
    (38, 0, Some(RecordFault::CutHead(2))),
    (39, 0, Some(RecordFault::CutHead(1))),
    (40, 0, Some(RecordFault::CutOctets(4))),
    (41, 0, Some(RecordFault::CutOctets(3))),
    (42, 0, Some(RecordFault::CutOctets(2))),
    (43, 0, Some(RecordFault::CutOctets(1))),
    (44, 1, None),
    (45, 1, Some(RecordFault::CutHead(15))),
    (46, 1, Some(RecordFault::CutHead(14))),
    (47, 1, Some(RecordFault::CutHead(13))),
    (48, 1, Some(RecordFault::CutHead(12))),
    (49, 1, Some(RecordFault::CutHead(11))),
    (50, 1, Some(RecordFault::CutHead(10))),
    (51, 1, Some(RecordFault::CutHead(9))),
    (52, 1, Some(RecordFault::CutHead(8))),
    (53, 1, Some(RecordFault::CutHead(7))),
    (54, 1, Some(RecordFault::CutHead(6))),
    (55, 1, Some(RecordFault::CutHead(5))),
    (56, 1, Some(RecordFault::CutHead(4))),
    (57, 1, Some(RecordFault::CutHead(3))),
    (58, 1, Some(RecordFault::CutHead(2))),
    (59, 1, Some(RecordFault::CutHead(1))),
    (60, 1, Some(RecordFault::CutOctets(2))),
    (61, 1, Some(RecordFault::CutOctets(1))),
    (62, 2, None),
];

/// Whether octets of the two captures are read as so many of the records, then the fault, if any, and nothing behind it.
fn is_cut_so(octets: &[u8], count: usize, last: Option<RecordFault>) -> bool {
    let Ok(mut reader) = Reader::new(octets) else {
        return false;
    };
    for want in RECORDS.iter().take(count) {
        match reader.next_record() {
            Some(Ok(record)) => {
                if told(record) != *want {
                    return false;
                }
            }
            _ => return false,
        }
    }
    let is_last = match reader.next_record() {
        Some(Ok(_)) => false,
        Some(Err(fault)) => last == Some(fault),
        None => last.is_none(),
    };
    is_last && reader.next_record().is_none()
}

/// The first so many octets, as far as there are any.
fn front(octets: &[u8], len: usize) -> &[u8] {
    octets.get(..len).unwrap_or(octets)
}

/// Whether a capture is refused where its header is cut, at whichever octet.
fn is_short_in_its_header(capture: &[u8]) -> bool {
    for len in 0..24 {
        if Reader::new(front(capture, len)).err() != Some(HeaderFault::Short(24 - len)) {
            return false;
        }
    }
    true
}

/// Whether a capture is read as the rows say where it is cut behind its header.
fn is_cut_as_told(capture: &[u8]) -> bool {
    for (len, count, last) in &CUTS {
        if !is_cut_so(front(capture, *len), *count, *last) {
            return false;
        }
    }
    true
}

#[test]
fn a_capture_cut_at_every_octet(rt: HostRuntime) {
    for capture in &ORDERS {
        assert!(rt; is_short_in_its_header(capture));
        assert!(rt; is_cut_as_told(capture));
    }
}

/// Octets that are no capture of Ethernet frames, and the first fault.
const REFUSED: [(&[u8], HeaderFault); 8] = [
    (b"", HeaderFault::Short(24)),
    (b"hello, world", HeaderFault::NotACapture(0x6c6c_6568)),
    // the magic number of Kuznetzov's captures
    (
        b"\x34\xcd\xb2\xa1\x02\0\x04\0\0\0\0\0\0\0\0\0\0\0\x04\0\x01\0\0\0",
        HeaderFault::NotACapture(0xa1b2_cd34),
    ),
    (
        b"\xd4\xc3\xb2\xa1\x02\0\x03\0\0\0\0\0\0\0\0\0\0\0\x04\0\x01\0\0\0",
        HeaderFault::Version(2, 3),
    ),
    (
        b"\xa1\xb2\xc3\xd4\0\x03\0\x04\0\0\0\0\0\0\0\0\0\x04\0\0\0\0\0\x65",
        HeaderFault::Version(3, 4),
    ),
    // raw datagrams
    (
        b"\xa1\xb2\xc3\xd4\0\x02\0\x04\0\0\0\0\0\0\0\0\0\x04\0\0\0\0\0\x65",
        HeaderFault::LinkType(101),
    ),
    // Ethernet with the frame check sequence
    (
        b"\xd4\xc3\xb2\xa1\x02\0\x04\0\0\0\0\0\0\0\0\0\0\0\x04\0\x01\0\0\x44",
        HeaderFault::LinkType(0x4400_0001),
    ),
    (
        b"\x4d\x3c\xb2\xa1\x02\0\x04\0\0\0\0\0\0\0\0\0\0\0\x04\0\x71\0\0",
        HeaderFault::Short(1),
    ),
];

#[test]
fn what_is_no_capture(rt: HostRuntime) {
    for (octets, fault) in &REFUSED {
        assert!(rt; Reader::new(octets).err() == Some(*fault));
    }
}

/// Captures of one record, by the snapshot length, what the record tells of its length and of the frame's, and what is read:
/// how many octets, or the fault. `abcdef` stands behind its head.
const LENGTHS: [(u32, u32, u32, Result<usize, RecordFault>); 7] = [
    (262_144, 6, 6, Ok(6)),
    // longer than the snapshot length: cut to it
    (4, 6, 6, Ok(4)),
    // no snapshot length that is taken
    (0, 6, 6, Ok(6)),
    (0x8000_0000, 6, 6, Ok(6)),
    // more octets than the frame had
    (262_144, 6, 3, Ok(6)),
    (
        262_144,
        262_144,
        262_144,
        Err(RecordFault::CutOctets(262_138)),
    ),
    (
        0x7fff_ffff,
        262_145,
        262_145,
        Err(RecordFault::TooLong(262_145)),
    ),
];

/// What is read of a capture of one record whose lengths are these. Nothing is read behind it.
fn length_read(snaplen: u32, included: u32, original: u32) -> Option<Result<usize, RecordFault>> {
    let mut capture = [0; 46];
    capture[..24].copy_from_slice(&file_head());
    capture[16..20].copy_from_slice(&snaplen.to_le_bytes());
    capture[32..36].copy_from_slice(&included.to_le_bytes());
    capture[36..40].copy_from_slice(&original.to_le_bytes());
    capture[40..].copy_from_slice(b"abcdef");
    let mut reader = Reader::new(&capture).ok()?;
    let read = match reader.next_record()? {
        Ok(record) => Ok(record.octets().len()),
        Err(fault) => Err(fault),
    };
    match reader.next_record() {
        None => Some(read),
        Some(_) => None,
    }
}

#[test]
fn lengths_of_records(rt: HostRuntime) {
    for (snaplen, included, original, want) in &LENGTHS {
        assert!(rt; length_read(*snaplen, *included, *original) == Some(*want));
    }
}

/// Why octets are no capture, and what is printed of it.
const HEADER_TEXTS: [(HeaderFault, &str); 4] = [
    (HeaderFault::Short(5), "the capture's header lacks 5 octets"),
    (
        HeaderFault::NotACapture(0x6c6c_6568),
        "no capture begins with 0x6c6c6568",
    ),
    (
        HeaderFault::Version(3, 4),
        "version 3.4 of the format is not read",
    ),
    (HeaderFault::LinkType(101), "link type 101 is not Ethernet"),
];

/// Why a record is none, and what is printed of it.
const RECORD_TEXTS: [(RecordFault, &str); 3] = [
    (
        RecordFault::CutHead(6),
        "the capture is cut: 6 octets of a record's head are missing",
    ),
    (
        RecordFault::CutOctets(30),
        "the capture is cut: 30 octets of a record are missing",
    ),
    (
        RecordFault::TooLong(262_145),
        "a record of 262145 octets is too long",
    ),
];

#[test]
fn texts_of_faults(rt: HostRuntime) -> Result<(), AllocError> {
    for (fault, text) in &HEADER_TEXTS {
        assert!(rt; fault.to_string(rt.alloc())?.as_str() == *text);
    }
    for (fault, text) in &RECORD_TEXTS {
        assert!(rt; fault.to_string(rt.alloc())?.as_str() == *text);
    }
    Ok(())
}
