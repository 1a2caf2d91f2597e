//! What the frames of captures print. Their octets are written by hand from draft-ietf-opsawg-pcap, around the frame of `examples/syn.hex`. The tests of `vectors`
//! cut captures at each octet.

use super::{Asked, Row};
use capture::{HeaderFault, RecordFault};
use commands::fault::TextFault;
use std::test::Fail;

/// Two frames, the lowest octet of each number first, with microseconds: a SYN at 1.002 s, and of one of 60 octets at 3.999999 s the first 14.
const LITTLE: &[u8] = b"\xd4\xc3\xb2\xa1\x02\0\x04\0\0\0\0\0\0\0\0\0\0\0\x04\0\x01\0\0\0\
    \x01\0\0\0\xd0\x07\0\0\x3c\0\0\0\x3c\0\0\0\
    \x02\0\0\0\0\x02\x02\0\0\0\0\x01\x08\0\
    \x45\0\0\x2c\0\0\x40\0\x40\x06\x26\xca\x0a\0\0\x01\x0a\0\0\x02\
    \xc0\0\0\x50\xff\xff\xff\xff\0\0\0\0\x60\x02\xff\xff\xc3\xd3\0\0\x02\x04\x05\xb4\
    \0\0\
    \x03\0\0\0\x3f\x42\x0f\0\x0e\0\0\0\x3c\0\0\0\
    \x02\0\0\0\0\x02\x02\0\0\0\0\x01\x08\0";

/// The same, the highest octet of each number first, with nanoseconds.
const BIG: &[u8] = b"\xa1\xb2\x3c\x4d\0\x02\0\x04\0\0\0\0\0\0\0\0\0\x04\0\0\0\0\0\x01\
    \0\0\0\x01\0\x1e\x84\x80\0\0\0\x3c\0\0\0\x3c\
    \x02\0\0\0\0\x02\x02\0\0\0\0\x01\x08\0\
    \x45\0\0\x2c\0\0\x40\0\x40\x06\x26\xca\x0a\0\0\x01\x0a\0\0\x02\
    \xc0\0\0\x50\xff\xff\xff\xff\0\0\0\0\x60\x02\xff\xff\xc3\xd3\0\0\x02\x04\x05\xb4\
    \0\0\
    \0\0\0\x03\x3b\x9a\xc6\x18\0\0\0\x0e\0\0\0\x3c\
    \x02\0\0\0\0\x02\x02\0\0\0\0\x01\x08\0";

const FIRST: &[u8] = b"frame 0 1002
ether 02:00:00:00:00:02 02:00:00:00:00:01 0800
ipv4 10.0.0.1 10.0.0.2 proto 6 ttl 64 id 0 off 0 flags DF payload 24
tcp 49152 80 seq 4294967295 ack 0 flags S win 65535 mss 1460 data 0
";

const BOTH: &[u8] = b"frame 0 1002
ether 02:00:00:00:00:02 02:00:00:00:00:01 0800
ipv4 10.0.0.1 10.0.0.2 proto 6 ttl 64 id 0 off 0 flags DF payload 24
tcp 49152 80 seq 4294967295 ack 0 flags S win 65535 mss 1460 data 0
frame 1 3999 cut 14 of 60
ether 02:00:00:00:00:02 02:00:00:00:00:01 0800
drop F4
";

/// The head of the first capture.
pub(super) const HEADER: &[u8] =
    b"\xd4\xc3\xb2\xa1\x02\0\x04\0\0\0\0\0\0\0\0\0\0\0\x04\0\x01\0\0\0";

/// It lacks an octet.
const CUT_HEADER: &[u8] = b"\xd4\xc3\xb2\xa1\x02\0\x04\0\0\0\0\0\0\0\0\0\0\0\x04\0\x01\0\0";

/// Its first record lacks an octet of its head, and then of its frame.
const CUT_HEAD: &[u8] = b"\xd4\xc3\xb2\xa1\x02\0\x04\0\0\0\0\0\0\0\0\0\0\0\x04\0\x01\0\0\0\
    \x01\0\0\0\xd0\x07\0\0\x3c\0\0\0\x3c\0\0";

const CUT_FRAME: &[u8] = b"\xd4\xc3\xb2\xa1\x02\0\x04\0\0\0\0\0\0\0\0\0\0\0\x04\0\x01\0\0\0\
    \x01\0\0\0\xd0\x07\0\0\x3c\0\0\0\x3c\0\0\0\
    \x02\0\0\0\0\x02\x02\0\0\0\0\x01\x08\0\
    \x45\0\0\x2c\0\0\x40\0\x40\x06\x26\xca\x0a\0\0\x01\x0a\0\0\x02\
    \xc0\0\0\x50\xff\xff\xff\xff\0\0\0\0\x60\x02\xff\xff\xc3\xd3\0\0\x02\x04\x05\xb4\
    \0";

/// Its second record lacks the same.
const CUT_SECOND_HEAD: &[u8] = b"\xd4\xc3\xb2\xa1\x02\0\x04\0\0\0\0\0\0\0\0\0\0\0\x04\0\x01\0\0\0\
    \x01\0\0\0\xd0\x07\0\0\x3c\0\0\0\x3c\0\0\0\
    \x02\0\0\0\0\x02\x02\0\0\0\0\x01\x08\0\
    \x45\0\0\x2c\0\0\x40\0\x40\x06\x26\xca\x0a\0\0\x01\x0a\0\0\x02\
    \xc0\0\0\x50\xff\xff\xff\xff\0\0\0\0\x60\x02\xff\xff\xc3\xd3\0\0\x02\x04\x05\xb4\
    \0\0\
    \x03\0\0\0\x3f\x42\x0f\0\x0e\0\0\0\x3c\0\0";

const CUT_SECOND_FRAME: &[u8] = b"\xd4\xc3\xb2\xa1\x02\0\x04\0\0\0\0\0\0\0\0\0\0\0\x04\0\x01\0\0\0\
    \x01\0\0\0\xd0\x07\0\0\x3c\0\0\0\x3c\0\0\0\
    \x02\0\0\0\0\x02\x02\0\0\0\0\x01\x08\0\
    \x45\0\0\x2c\0\0\x40\0\x40\x06\x26\xca\x0a\0\0\x01\x0a\0\0\x02\
    \xc0\0\0\x50\xff\xff\xff\xff\0\0\0\0\x60\x02\xff\xff\xc3\xd3\0\0\x02\x04\x05\xb4\
    \0\0\
    \x03\0\0\0\x3f\x42\x0f\0\x0e\0\0\0\x3c\0\0\0\
    \x02\0\0\0\0\x02\x02\0\0\0\0\x01\x08";

/// Another magic number, version and link type, and a record that is too long.
const OTHER_MAGIC: &[u8] = b"\x34\xcd\xb2\xa1\x02\0\x04\0\0\0\0\0\0\0\0\0\0\0\x04\0\x01\0\0\0";

const OTHER_VERSION: &[u8] = b"\xd4\xc3\xb2\xa1\x03\0\x04\0\0\0\0\0\0\0\0\0\0\0\x04\0\x01\0\0\0";

const OTHER_LINK: &[u8] = b"\xd4\xc3\xb2\xa1\x02\0\x04\0\0\0\0\0\0\0\0\0\0\0\x04\0\x65\0\0\0";

const TOO_LONG: &[u8] = b"\xd4\xc3\xb2\xa1\x02\0\x04\0\0\0\0\0\0\0\0\0\0\0\x04\0\x01\0\0\0\
    \x01\0\0\0\xd0\x07\0\0\x3c\0\x05\0\x3c\0\0\0";

/// Whole captures, then those that are cut, and what is none.
pub(super) const ROWS: &[Row] = &[
    Row {
        asked: Asked::DecodeAll,
        text: LITTLE,
        ends: Ok(None),
        prints: BOTH,
        captures: b"",
    },
    Row {
        asked: Asked::DecodeAll,
        text: BIG,
        ends: Ok(None),
        prints: BOTH,
        captures: b"",
    },
    Row {
        asked: Asked::DecodeAll,
        text: HEADER,
        ends: Ok(None),
        prints: b"",
        captures: b"",
    },
    Row {
        asked: Asked::DecodeAll,
        text: b"",
        ends: Err(TextFault::Header(HeaderFault::Short(24))),
        prints: b"",
        captures: b"",
    },
    Row {
        asked: Asked::DecodeAll,
        text: CUT_HEADER,
        ends: Err(TextFault::Header(HeaderFault::Short(1))),
        prints: b"",
        captures: b"",
    },
    Row {
        asked: Asked::DecodeAll,
        text: CUT_HEAD,
        ends: Err(TextFault::Record(RecordFault::CutHead(1))),
        prints: b"",
        captures: b"",
    },
    Row {
        asked: Asked::DecodeAll,
        text: CUT_FRAME,
        ends: Err(TextFault::Record(RecordFault::CutOctets(1))),
        prints: b"",
        captures: b"",
    },
    Row {
        asked: Asked::DecodeAll,
        text: CUT_SECOND_HEAD,
        ends: Err(TextFault::Record(RecordFault::CutHead(1))),
        prints: FIRST,
        captures: b"",
    },
    Row {
        asked: Asked::DecodeAll,
        text: CUT_SECOND_FRAME,
        ends: Err(TextFault::Record(RecordFault::CutOctets(1))),
        prints: FIRST,
        captures: b"",
    },
    Row {
        asked: Asked::DecodeAll,
        text: OTHER_MAGIC,
        ends: Err(TextFault::Header(HeaderFault::NotACapture(0xa1b2_cd34))),
        prints: b"",
        captures: b"",
    },
    Row {
        asked: Asked::DecodeAll,
        text: OTHER_VERSION,
        ends: Err(TextFault::Header(HeaderFault::Version(3, 4))),
        prints: b"",
        captures: b"",
    },
    Row {
        asked: Asked::DecodeAll,
        text: OTHER_LINK,
        ends: Err(TextFault::Header(HeaderFault::LinkType(101))),
        prints: b"",
        captures: b"",
    },
    Row {
        asked: Asked::DecodeAll,
        text: TOO_LONG,
        ends: Err(TextFault::Record(RecordFault::TooLong(327_740))),
        prints: b"",
        captures: b"",
    },
];

/// Faults of captures, with the texts of their crate.
const FAULTS: [(TextFault, &str); 2] = [
    (
        TextFault::Header(HeaderFault::LinkType(101)),
        "link type 101 is not Ethernet",
    ),
    (
        TextFault::Record(RecordFault::CutHead(6)),
        "the capture is cut: 6 octets of a record's head are missing",
    ),
];

#[test]
fn faults_of_captures_have_the_texts_of_their_crate(rt: HostRuntime) -> Result<(), Fail> {
    for (fault, text) in FAULTS {
        assert!(rt; format!(in rt.alloc(); "{fault}")?.as_str() == text);
    }
    Ok(())
}
