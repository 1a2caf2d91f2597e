//! What commands print of texts on sources and sinks that fail or move a few octets at a time, and of texts that are long.

use super::{
    ALL_GOOD, Asked, Device, Devices, GOOD, Row, Told, captures, ended, ends, lines, recordings,
};
use commands::fault::TextFault;
use decode::Unreadable;
use std::alloc::{AllocError, Global};
use std::process::Abort;

const SCRIPT: &[u8] = b"a socket tcp
a state 1
a emit
";

const SCRIPT_PRINTS: &[u8] = b"id 1
CLOSED
none
";

/// The SYN of a connection, as two lines and a half.
const SYN: &[u8] = b"02 00 00 00 00 02  02 00 00 00 00 01  08 00
4500002c 00004000 400626ca 0a000001 0a000002
c0000050 FFFFFFFF 00000000 6002FFFF c3d30000 020405b4
0000";

const SYN_SAYS: &[u8] = b"ether 02:00:00:00:00:02 02:00:00:00:00:01 0800
ipv4 10.0.0.1 10.0.0.2 proto 6 ttl 64 id 0 off 0 flags DF payload 24
tcp 49152 80 seq 4294967295 ack 0 flags S win 65535 mss 1460 data 0
";

/// A request of ARP, with the zeros that pad its frame.
const ARP: &[u8] =
    b"ffffffffffff020000000001080600010800060400010200000000010a0000010000000000000a000002
000000000000000000000000000000000000";

const ARP_SAYS: &[u8] = b"ether ff:ff:ff:ff:ff:ff 02:00:00:00:00:01 0806
arp request 02:00:00:00:00:01 10.0.0.1 00:00:00:00:00:00 10.0.0.2
";

/// The head of the SYN's frame, its parts behind a vertical tab and a form feed, and nothing behind it.
const BARE: &[u8] = b"020000000002\x0b020000000001\x0c0800";

const BARE_SAYS: &[u8] = b"ether 02:00:00:00:00:02 02:00:00:00:00:01 0800\ndrop F4\n";

/// Scripts and frames that are printed, and texts that spell no frame.
const ROWS: &[Row] = &[
    Row {
        asked: Asked::Sim,
        text: SCRIPT,
        ends: Ok(None),
        prints: SCRIPT_PRINTS,
        captures: b"",
    },
    Row {
        asked: Asked::Decode,
        text: SYN,
        ends: Ok(None),
        prints: SYN_SAYS,
        captures: b"",
    },
    Row {
        asked: Asked::Decode,
        text: ARP,
        ends: Ok(None),
        prints: ARP_SAYS,
        captures: b"",
    },
    Row {
        asked: Asked::Decode,
        text: BARE,
        ends: Ok(Some(Unreadable::IpHeader)),
        prints: BARE_SAYS,
        captures: b"",
    },
    Row {
        asked: Asked::Decode,
        text: b"",
        ends: Ok(Some(Unreadable::Short)),
        prints: b"drop F1\n",
        captures: b"",
    },
    Row {
        asked: Asked::Decode,
        text: b"0200000",
        ends: Err(TextFault::NotHex),
        prints: b"",
        captures: b"",
    },
    Row {
        asked: Asked::Decode,
        text: b"0 2",
        ends: Err(TextFault::NotHex),
        prints: b"",
        captures: b"",
    },
    Row {
        asked: Asked::Decode,
        text: b"02:00",
        ends: Err(TextFault::NotHex),
        prints: b"",
        captures: b"",
    },
];

/// The most octets that a call of a device moves.
const PIECES: [usize; 5] = [1, 2, 7, 4096, usize::MAX];

/// A device that moves an octet a call and fails at this one, counted from 1.
fn failing(call: usize) -> Device {
    Device {
        most: 1,
        fails_at: call as u64,
    }
}

/// Whether a device is to fail at this call of so many, counted from 0: at each where they are few, and else at some, the last among them.
fn is_tried(call: usize, last: usize) -> bool {
    last <= 250 || call % 90 == 10 || call == last
}

/// Devices that move a few octets at a time change nothing.
fn moves_in_pieces(rt: &impl Abort, alloc: Global, row: Row) {
    for most in PIECES {
        let device = Device { most, fails_at: 0 };
        let devices = Devices {
            source: device,
            out: device,
            capture: device,
        };
        ends(rt, alloc, (row.asked, row.text), devices, &row.told());
    }
}

/// A source fails at a call, that for the end too: then nothing is run.
fn reads_fail(rt: &impl Abort, alloc: Global, row: Row) {
    for call in 0..=row.text.len() {
        if !is_tried(call, row.text.len()) {
            continue;
        }
        let devices = Devices {
            source: failing(call + 1),
            ..ALL_GOOD
        };
        let told = Told {
            answers: (Err(TextFault::Read), Ok(())),
            failures: (1, 0, 0),
            prints: b"",
            captures: b"",
        };
        ends(rt, alloc, (row.asked, row.text), devices, &told);
    }
}

/// The sink of what is printed fails at a call, the flush too, and keeps what it took before. The capture of what was run is there.
fn writes_fail(rt: &impl Abort, alloc: Global, row: Row) {
    for call in 0..=row.prints.len() {
        if !is_tried(call, row.prints.len()) {
            continue;
        }
        let devices = Devices {
            out: failing(call + 1),
            ..ALL_GOOD
        };
        let (taken, _) = row.prints.split_at(call);
        let told = Told {
            answers: (Err(TextFault::Write), Ok(())),
            failures: (0, 1, 0),
            prints: taken,
            ..row.told()
        };
        ends(rt, alloc, (row.asked, row.text), devices, &told);
    }
}

/// The sink of the capture fails at a call, the flush too, and keeps what it took before. All is printed.
fn captures_fail(rt: &impl Abort, alloc: Global, row: Row) {
    for call in 0..=row.captures.len() {
        if !is_tried(call, row.captures.len()) {
            continue;
        }
        let devices = Devices {
            capture: failing(call + 1),
            ..ALL_GOOD
        };
        let (taken, _) = row.captures.split_at(call);
        let told = Told {
            answers: (row.ends, Err(TextFault::Write)),
            failures: (0, 0, 1),
            captures: taken,
            ..row.told()
        };
        ends(rt, alloc, (row.asked, row.text), devices, &told);
    }
}

/// To take nothing of some octets is a failure.
fn takes_nothing(rt: &impl Abort, alloc: Global, row: Row) {
    let none = Device {
        most: 0,
        fails_at: 0,
    };
    let devices = Devices {
        out: none,
        ..ALL_GOOD
    };
    let told = Told {
        answers: (Err(TextFault::Write), Ok(())),
        failures: (0, 1, 0),
        prints: b"",
        ..row.told()
    };
    ends(rt, alloc, (row.asked, row.text), devices, &told);
}

#[test]
fn devices_change_nothing_unless_they_fail(rt: HostRuntime) {
    let alloc = rt.alloc();
    for rows in [ROWS, lines::ROWS, captures::ROWS, recordings::ROWS] {
        for row in rows {
            moves_in_pieces(&rt, alloc, *row);
            if row.ends.is_ok() && !row.prints.is_empty() {
                reads_fail(&rt, alloc, *row);
                writes_fail(&rt, alloc, *row);
                takes_nothing(&rt, alloc, *row);
            }
            if !row.captures.is_empty() {
                captures_fail(&rt, alloc, *row);
            }
        }
    }
}

/// What is asked of a text that has one thing many times behind its head, and then its end; at which call its sink fails, if not at 0; how it ends; how what is
/// printed begins; how it ends where it is whole; and how many octets that are.
struct Many {
    asked: Asked,
    head: &'static [u8],
    each: &'static [u8],
    count: usize,
    end: &'static [u8],
    fails_at: u64,
    ends: Result<Option<Unreadable>, TextFault>,
    begins: &'static [u8],
    last: &'static [u8],
    len: usize,
}

/// A script of a million octets that is one comment.
const COMMENT: Many = Many {
    asked: Asked::Sim,
    head: b"",
    each: b"#",
    count: 1_000_000,
    end: b"",
    fails_at: 0,
    ends: Ok(None),
    begins: b"",
    last: b"",
    len: 0,
};

/// More lines than the program holds back.
const LINES: Many = Many {
    each: b"a emit\n",
    count: 5_000,
    end: b"a socket tcp\n",
    begins: b"none\nnone\n",
    last: b"none\nid 1\n",
    len: 25_005,
    ..COMMENT
};

/// More frames than the program holds back, none of which has any octets.
const FRAMES: Many = Many {
    asked: Asked::DecodeAll,
    head: captures::HEADER,
    each: &[0; 16],
    count: 1_000,
    begins: b"frame 0 0\ndrop F1\nframe 1 0\ndrop F1\n",
    last: b"frame 999 0\ndrop F1\n",
    len: 19_890,
    ..COMMENT
};

/// They are handed on in turn, and a failure in mid-stream leaves those before it. A script has a million octets at most, and one of more is too long whatever
/// they are; a text of a frame may have any length.
const MANY: [Many; 8] = [
    LINES,
    Many {
        fails_at: 2,
        ends: Err(TextFault::Write),
        ..LINES
    },
    FRAMES,
    Many {
        fails_at: 2,
        ends: Err(TextFault::Write),
        ..FRAMES
    },
    COMMENT,
    Many {
        count: 1_000_001,
        ends: Err(TextFault::TooLong),
        ..COMMENT
    },
    Many {
        each: b"x",
        count: 1_000_001,
        ends: Err(TextFault::TooLong),
        ..COMMENT
    },
    Many {
        asked: Asked::Decode,
        each: b" ",
        count: 1_000_001,
        ends: Ok(Some(Unreadable::Short)),
        begins: b"drop F1\n",
        last: b"drop F1\n",
        len: 8,
        ..COMMENT
    },
];

/// The text of a row.
fn text(alloc: Global, many: &Many) -> Result<Vec<u8>, AllocError> {
    let mut text = Vec::from_slice(alloc, many.head)?;
    for _ in 0..many.count {
        text.extend_from_slice(many.each)?;
    }
    text.extend_from_slice(many.end)?;
    Ok(text)
}

#[test]
fn long_texts_are_printed_in_turn(rt: HostRuntime) -> Result<(), AllocError> {
    for (index, many) in MANY.iter().enumerate() {
        let text = text(rt.alloc(), many)?;
        let out = Device {
            fails_at: many.fails_at,
            ..GOOD
        };
        let devices = Devices { out, ..ALL_GOOD };
        let end = ended(rt.alloc(), many.asked, text.as_slice(), devices);
        let printed = end.out.taken();
        assert!(rt; end.answers.0 == many.ends, "row {index}");
        assert!(rt; printed.starts_with(many.begins), "row {index}");
        if many.ends.is_ok() {
            assert!(rt;
                printed.ends_with(many.last) && printed.len() == many.len,
                "row {index}"
            );
        } else {
            assert!(rt;
                printed.len() < many.len || printed.is_empty(),
                "row {index}"
            );
        }
    }
    Ok(())
}
