//! The ladder of a round.

/// A minute passes, and then both segments of a go out and come to b, whose acknowledgement of the second comes back (RFC 9293 section 3.8.6.3).
pub const ROUND: &str =
    "      a                                                                        b
b socket tcp
  id 1
b bind 1 80
  ok
b listen 1 1
  ok
a socket tcp
  id 1
a connect 1 80 4294967295
  started
pass 7
0     |- arp request 02:00:00:00:00:01 10.0.0.1 00:00:00:00:00:00 10.0.0.2 --->|
0     |                                                                > taken |
1     |<----- arp reply 02:00:00:00:00:02 10.0.0.2 02:00:00:00:00:01 10.0.0.1 -|
1     | taken <                                                                |
  a 1 b 1
pass 7
2     |- tcp 49152 80 S seq 0 win 65535 data 0 ------------------------------->|
2     |                                                                > taken |
3     |<------------------------ tcp 80 49152 SA seq 0 ack 1 win 65535 data 0 -|
3     | taken <                                                                |
  a 1 b 1
pass 7
4     |- tcp 49152 80 A seq 1 ack 1 win 32768 data 0 ------------------------->|
4     |                                                                > taken |
  a 1 b 0
b accept 1
  id 2 10.0.0.1 49152
a fill 1 2920
  sent 2920
a round 2
5     |- tcp 49152 80 A seq 1 ack 1 win 32768 data 1460 ---------------------->|
6     |- tcp 49152 80 PA seq 1461 ack 1 win 32768 data 1460 ------------------>|
5     |                                                                > taken |
6     |                                                                > taken |
7     |<---------------------- tcp 80 49152 A seq 1 ack 2921 win 32676 data 0 -|
7     | taken <                                                                |
  octets 2920
";
