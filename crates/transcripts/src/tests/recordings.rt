//! The capture of a run, and its ladder. The octets of the capture are written by hand from draft-ietf-opsawg-pcap around two packets of RFC 826 and the frame of
//! `examples/syn.hex`.

use super::{Asked, Row};
use commands::fault::TextFault;
use ladder::Numbering::Relative;

/// a asks for b's MAC at 1.002 s, b replies at 0.005 s, and a's SYN goes out at 3.999 s, behind a tick that moves no clock back. The frames are delivered twice or
/// never. The SYN has the MSS option alone.
const SCRIPT: &[u8] = b"noscale
limit 100
a tick 1002
b tick 5
a socket tcp
a connect 1 80 4294967295
a emit
b deliver 0 0
b deliver 0 0
b emit
a deliver 1 0
a tick 3999
a tick 10
a emit
a emit
";

const PRINTED: &[u8] = b"ok
ok
ok
ok
id 1
started
frame 0 60
taken
taken
frame 1 60
taken
ok
ok
frame 2 60
none
";

const CAPTURE: &[u8] = b"\xd4\xc3\xb2\xa1\x02\0\x04\0\0\0\0\0\0\0\0\0\0\0\x04\0\x01\0\0\0\
    \x01\0\0\0\xd0\x07\0\0\x3c\0\0\0\x3c\0\0\0\
    \xff\xff\xff\xff\xff\xff\x02\0\0\0\0\x01\x08\x06\
    \0\x01\x08\0\x06\x04\0\x01\x02\0\0\0\0\x01\x0a\0\0\x01\0\0\0\0\0\0\x0a\0\0\x02\
    \0\0\0\0\0\0\0\0\0\0\0\0\0\0\0\0\0\0\
    \0\0\0\0\x88\x13\0\0\x3c\0\0\0\x3c\0\0\0\
    \x02\0\0\0\0\x01\x02\0\0\0\0\x02\x08\x06\
    \0\x01\x08\0\x06\x04\0\x02\x02\0\0\0\0\x02\x0a\0\0\x02\x02\0\0\0\0\x01\x0a\0\0\x01\
    \0\0\0\0\0\0\0\0\0\0\0\0\0\0\0\0\0\0\
    \x03\0\0\0\x58\x3e\x0f\0\x3c\0\0\0\x3c\0\0\0\
    \x02\0\0\0\0\x02\x02\0\0\0\0\x01\x08\0\
    \x45\0\0\x2c\0\0\x40\0\x40\x06\x26\xca\x0a\0\0\x01\x0a\0\0\x02\
    \xc0\0\0\x50\xff\xff\xff\xff\0\0\0\0\x60\x02\xff\xff\xc3\xd3\0\0\x02\x04\x05\xb4\
    \0\0";

/// Its ladder. Nobody takes the SYN, and it is lost.
const LADDER: &[u8] =
    b"      a                                                                        b
noscale
  ok
limit 100
  ok
a tick 1002
  ok
b tick 5
  ok
a socket tcp
  id 1
a connect 1 80 4294967295
  started
a emit
0     |- arp request 02:00:00:00:00:01 10.0.0.1 00:00:00:00:00:00 10.0.0.2 --->|
  frame 0 60
b deliver 0 0
0     |                                                                > taken |
  taken
b deliver 0 0
0     |                                                          > taken again |
  taken
b emit
1     |<----- arp reply 02:00:00:00:00:02 10.0.0.2 02:00:00:00:00:01 10.0.0.1 -|
  frame 1 60
a deliver 1 0
1     | taken <                                                                |
  taken
a tick 3999
  ok
a tick 10
  ok
a emit
2     |- tcp 49152 80 S seq 0 win 65535 data 0 -------------------------------x|
  frame 2 60
a emit
  none
";

/// What is said of the frames of that capture.
const SAID: &[u8] = b"frame 0 1002
ether ff:ff:ff:ff:ff:ff 02:00:00:00:00:01 0806
arp request 02:00:00:00:00:01 10.0.0.1 00:00:00:00:00:00 10.0.0.2
frame 1 5
ether 02:00:00:00:00:01 02:00:00:00:00:02 0806
arp reply 02:00:00:00:00:02 10.0.0.2 02:00:00:00:00:01 10.0.0.1
frame 2 3999
ether 02:00:00:00:00:02 02:00:00:00:00:01 0800
ipv4 10.0.0.1 10.0.0.2 proto 6 ttl 64 id 0 off 0 flags DF payload 24
tcp 49152 80 seq 4294967295 ack 0 flags S win 65535 mss 1460 data 0
";

/// A script whose second line is bad.
const BAD: &[u8] = b"a socket tcp\na sockets\n";

/// The head of a capture alone.
const NO_FRAMES: &[u8] = b"\xd4\xc3\xb2\xa1\x02\0\x04\0\0\0\0\0\0\0\0\0\0\0\x04\0\x01\0\0\0";

/// Each frame is captured once with its moment, and what is captured is read; a bad script takes nothing to any sink, and no frame makes a capture of none.
pub(super) const ROWS: &[Row] = &[
    Row {
        asked: Asked::Sim,
        text: SCRIPT,
        ends: Ok(None),
        prints: PRINTED,
        captures: b"",
    },
    Row {
        asked: Asked::Captured,
        text: SCRIPT,
        ends: Ok(None),
        prints: PRINTED,
        captures: CAPTURE,
    },
    Row {
        asked: Asked::Ladder(Relative),
        text: SCRIPT,
        ends: Ok(None),
        prints: LADDER,
        captures: b"",
    },
    Row {
        asked: Asked::CapturedLadder(Relative),
        text: SCRIPT,
        ends: Ok(None),
        prints: LADDER,
        captures: CAPTURE,
    },
    Row {
        asked: Asked::DecodeAll,
        text: CAPTURE,
        ends: Ok(None),
        prints: SAID,
        captures: b"",
    },
    Row {
        asked: Asked::Captured,
        text: b"a emit\n",
        ends: Ok(None),
        prints: b"none\n",
        captures: NO_FRAMES,
    },
    Row {
        asked: Asked::Sim,
        text: BAD,
        ends: Err(TextFault::Line(2)),
        prints: b"",
        captures: b"",
    },
    Row {
        asked: Asked::Captured,
        text: BAD,
        ends: Err(TextFault::Line(2)),
        prints: b"",
        captures: b"",
    },
    Row {
        asked: Asked::Ladder(Relative),
        text: BAD,
        ends: Err(TextFault::Line(2)),
        prints: b"",
        captures: b"",
    },
    Row {
        asked: Asked::CapturedLadder(Relative),
        text: BAD,
        ends: Err(TextFault::Line(2)),
        prints: b"",
        captures: b"",
    },
];
