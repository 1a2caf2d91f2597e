//! The ladder of a connection that is refused. Its numbers are those of RFC 9293 section 3.10.7.1: a port where nobody listens answers a SYN by a reset that
//! acknowledges it.

use ladder::Numbering::{self, Absolute, Relative};

/// A line of 81 columns has no place in a ladder. a learns b's MAC, and its SYN reaches b twice, but not a. Of the two resets that b answers one is lost. No frame
/// has the number 9.
pub const SCRIPT: &str =
    "a send 1 aaaaaaaaaabbbbbbbbbbccccccccccddddddddddeeeeeeeeeeffffffffffgggggggggghh
a socket tcp
a connect 1 80 4294967295
a emit
b deliver 0 0
b emit
a deliver 1 0
a emit
a deliver 2 0
b deliver 2 0
b deliver 2 0
b emit
b emit
a deliver 3 0
b deliver 9 0
";

/// The ladder of that run, its numbers relative. No SYN of b was seen, so the number of its resets is told as it is. With absolute numbers, the SYN has the last
/// one of 32 bits, so that the one behind it is 0.
pub const LADDERS: [(Numbering, &str); 2] = [(Relative, IN_RELATION), (Absolute, AS_THEY_ARE)];

const IN_RELATION: &str =
    "      a                                                                        b
a send 1 aaaaaaaaaabbbbbbbbbbccccccccccddddddddddeeeeeeeeeeffffffffffggggggggg..
  E1 EBADF
a socket tcp
  id 1
a connect 1 80 4294967295
  started
a emit
0     |- arp request 02:00:00:00:00:01 10.0.0.1 00:00:00:00:00:00 10.0.0.2 --->|
  frame 0 60
b deliver 0 0
0     |                                                                > taken |
  taken
b emit
1     |<----- arp reply 02:00:00:00:00:02 10.0.0.2 02:00:00:00:00:01 10.0.0.1 -|
  frame 1 60
a deliver 1 0
1     | taken <                                                                |
  taken
a emit
2     |- tcp 49152 80 S seq 0 win 65535 data 0 ------------------------------->|
  frame 2 62
a deliver 2 0
2     | U1 NoSuchFrame x                                                       |
  U1 NoSuchFrame
b deliver 2 0
2     |                                                                > taken |
  taken
b deliver 2 0
2     |                                                          > taken again |
  taken
b emit
3     |<--------------------------- tcp 80 49152 RA seq =0 ack 1 win 0 data 0 -|
  frame 3 60
b emit
4     |x--------------------------- tcp 80 49152 RA seq =0 ack 1 win 0 data 0 -|
  frame 4 60
a deliver 3 0
3     | taken <                                                                |
  taken
b deliver 9 0
9     |                                                       x U1 NoSuchFrame |
  U1 NoSuchFrame
";

const AS_THEY_ARE: &str =
    "      a                                                                        b
a send 1 aaaaaaaaaabbbbbbbbbbccccccccccddddddddddeeeeeeeeeeffffffffffggggggggg..
  E1 EBADF
a socket tcp
  id 1
a connect 1 80 4294967295
  started
a emit
0     |- arp request 02:00:00:00:00:01 10.0.0.1 00:00:00:00:00:00 10.0.0.2 --->|
  frame 0 60
b deliver 0 0
0     |                                                                > taken |
  taken
b emit
1     |<----- arp reply 02:00:00:00:00:02 10.0.0.2 02:00:00:00:00:01 10.0.0.1 -|
  frame 1 60
a deliver 1 0
1     | taken <                                                                |
  taken
a emit
2     |- tcp 49152 80 S seq 4294967295 win 65535 data 0 ---------------------->|
  frame 2 62
a deliver 2 0
2     | U1 NoSuchFrame x                                                       |
  U1 NoSuchFrame
b deliver 2 0
2     |                                                                > taken |
  taken
b deliver 2 0
2     |                                                          > taken again |
  taken
b emit
3     |<---------------------------- tcp 80 49152 RA seq 0 ack 0 win 0 data 0 -|
  frame 3 60
b emit
4     |x---------------------------- tcp 80 49152 RA seq 0 ack 0 win 0 data 0 -|
  frame 4 60
a deliver 3 0
3     | taken <                                                                |
  taken
b deliver 9 0
9     |                                                       x U1 NoSuchFrame |
  U1 NoSuchFrame
";
