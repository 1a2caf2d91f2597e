//! The ladders of the scripts that open connections.

/// first.txt
pub const FIRST: &str =
    "      a                                                                        b
b socket tcp
  id 1
b bind 1 80
  ok
b listen 1 1
  ok
a socket tcp
  id 1
a connect 1 80 4294967295
  started
pass 7
0     |- arp request 02:00:00:00:00:01 10.0.0.1 00:00:00:00:00:00 10.0.0.2 --->|
0     |                                                                > taken |
1     |<----- arp reply 02:00:00:00:00:02 10.0.0.2 02:00:00:00:00:01 10.0.0.1 -|
1     | taken <                                                                |
  a 1 b 1
pass 7
2     |- tcp 49152 80 S seq 0 win 65535 data 0 ------------------------------->|
2     |                                                                > taken |
3     |<------------------------ tcp 80 49152 SA seq 0 ack 1 win 65535 data 0 -|
3     | taken <                                                                |
  a 1 b 1
pass 7
4     |- tcp 49152 80 A seq 1 ack 1 win 32768 data 0 ------------------------->|
4     |                                                                > taken |
  a 1 b 0
b accept 1
  id 2 10.0.0.1 49152
a send 1 hello
  sent 5
a emit
5     |- tcp 49152 80 PA seq 1 ack 1 win 32768 data 5 ------------------------>|
  frame 5 60
b deliver 5 0
5     |                                                                > taken |
  taken
b deliver 5 0
5     |                                                          > taken again |
  taken
b recv 2 100
  octets hello
b recv 2 100
  E8 EAGAIN
";

/// The same with absolute numbers. a's SYN has the last number of 32 bits, so that its first octet has 0, and b's SYN has 7.
pub const FIRST_ABSOLUTE: &str =
    "      a                                                                        b
b socket tcp
  id 1
b bind 1 80
  ok
b listen 1 1
  ok
a socket tcp
  id 1
a connect 1 80 4294967295
  started
pass 7
0     |- arp request 02:00:00:00:00:01 10.0.0.1 00:00:00:00:00:00 10.0.0.2 --->|
0     |                                                                > taken |
1     |<----- arp reply 02:00:00:00:00:02 10.0.0.2 02:00:00:00:00:01 10.0.0.1 -|
1     | taken <                                                                |
  a 1 b 1
pass 7
2     |- tcp 49152 80 S seq 4294967295 win 65535 data 0 ---------------------->|
2     |                                                                > taken |
3     |<------------------------ tcp 80 49152 SA seq 7 ack 0 win 65535 data 0 -|
3     | taken <                                                                |
  a 1 b 1
pass 7
4     |- tcp 49152 80 A seq 0 ack 8 win 32768 data 0 ------------------------->|
4     |                                                                > taken |
  a 1 b 0
b accept 1
  id 2 10.0.0.1 49152
a send 1 hello
  sent 5
a emit
5     |- tcp 49152 80 PA seq 0 ack 8 win 32768 data 5 ------------------------>|
  frame 5 60
b deliver 5 0
5     |                                                                > taken |
  taken
b deliver 5 0
5     |                                                          > taken again |
  taken
b recv 2 100
  octets hello
b recv 2 100
  E8 EAGAIN
";

/// examples/handshake.txt
pub const HANDSHAKE: &str =
    "      a                                                                        b
b socket tcp
  id 1
b bind 1 80
  ok
b listen 1 1
  ok
a socket tcp
  id 1
a connect 1 80 100
  started
a state 1
  SYN-SENT
a emit
0     |- arp request 02:00:00:00:00:01 10.0.0.1 00:00:00:00:00:00 10.0.0.2 --->|
  frame 0 60
a emit
  none
b deliver 0 0
0     |                                                                > taken |
  taken
b emit
1     |<----- arp reply 02:00:00:00:00:02 10.0.0.2 02:00:00:00:00:01 10.0.0.1 -|
  frame 1 60
a deliver 1 0
1     | taken <                                                                |
  taken
a emit
2     |- tcp 49152 80 S seq 0 win 65535 data 0 ------------------------------->|
  frame 2 62
b deliver 2 300
2     |                                                                > taken |
  taken
b accept 1
  E8 EAGAIN
b emit
3     |<------------------------ tcp 80 49152 SA seq 0 ack 1 win 65535 data 0 -|
  frame 3 62
a deliver 3 0
3     | taken <                                                                |
  taken
a state 1
  ESTABLISHED
a emit
4     |- tcp 49152 80 A seq 1 ack 1 win 32768 data 0 ------------------------->|
  frame 4 60
b deliver 4 0
4     |                                                                > taken |
  taken
b accept 1
  id 2 10.0.0.1 49152
b state 2
  ESTABLISHED
a send 1 hello
  sent 5
a emit
5     |- tcp 49152 80 PA seq 1 ack 1 win 32768 data 5 ------------------------>|
  frame 5 60
b deliver 5 0
5     |                                                                > taken |
  taken
b recv 2 100
  octets hello
b recv 2 100
  E8 EAGAIN
b emit
  none
b tick 200
  ok
b emit
6     |<------------------------- tcp 80 49152 A seq 1 ack 6 win 32768 data 0 -|
  frame 6 60
a deliver 6 0
6     | taken <                                                                |
  taken
a emit
  none
b emit
  none
";

/// examples/simultaneous_open.txt
pub const SIMULTANEOUS_OPEN: &str =
    "      a                                                                        b
a socket tcp
  id 1
a bind 1 4000
  ok
a connect 1 5000 100
  started
b socket tcp
  id 1
b bind 1 5000
  ok
b connect 1 4000 200
  started
a emit
0     |- arp request 02:00:00:00:00:01 10.0.0.1 00:00:00:00:00:00 10.0.0.2 --->|
  frame 0 60
b deliver 0 0
0     |                                                                > taken |
  taken
b emit
1     |<----- arp reply 02:00:00:00:00:02 10.0.0.2 02:00:00:00:00:01 10.0.0.1 -|
  frame 1 60
a deliver 1 0
1     | taken <                                                                |
  taken
a emit
2     |- tcp 4000 5000 S seq 0 win 65535 data 0 ------------------------------>|
  frame 2 62
b emit
3     |<------------------------------ tcp 5000 4000 S seq 0 win 65535 data 0 -|
  frame 3 62
b deliver 2 0
2     |                                                                > taken |
  taken
a deliver 3 0
3     | taken <                                                                |
  taken
a state 1
  SYN-RECEIVED
b state 1
  SYN-RECEIVED
a send 1 hello
  E8 EAGAIN
a emit
4     |- tcp 4000 5000 SA seq 0 ack 1 win 65535 data 0 ----------------------->|
  frame 4 62
b emit
5     |<----------------------- tcp 5000 4000 SA seq 0 ack 1 win 65535 data 0 -|
  frame 5 62
b deliver 4 0
4     |                                                                > taken |
  taken
a deliver 5 0
5     | taken <                                                                |
  taken
a emit
6     |- tcp 4000 5000 A seq 1 ack 1 win 32768 data 0 ------------------------>|
  frame 6 60
b emit
7     |<------------------------ tcp 5000 4000 A seq 1 ack 1 win 32768 data 0 -|
  frame 7 60
b deliver 6 0
6     |                                                                > taken |
  taken
a deliver 7 0
7     | taken <                                                                |
  taken
a state 1
  ESTABLISHED
b state 1
  ESTABLISHED
b send 1 hello
  sent 5
b emit
8     |<----------------------- tcp 5000 4000 PA seq 1 ack 1 win 32768 data 5 -|
  frame 8 60
a deliver 8 0
8     | taken <                                                                |
  taken
a recv 1 100
  octets hello
";

/// examples/backlog.txt
pub const BACKLOG: &str =
    "      a                                                                        b
noscale
  ok
b socket tcp
  id 1
b bind 1 80
  ok
b listen 1 2
  ok
a socket tcp
  id 1
a socket tcp
  id 2
a socket tcp
  id 3
a connect 1 80 100
  started
a connect 2 80 200
  started
a connect 3 80 300
  started
pass 300
0     |- arp request 02:00:00:00:00:01 10.0.0.1 00:00:00:00:00:00 10.0.0.2 --->|
0     |                                                                > taken |
1     |<----- arp reply 02:00:00:00:00:02 10.0.0.2 02:00:00:00:00:01 10.0.0.1 -|
1     | taken <                                                                |
  a 1 b 1
a emit
2     |- tcp 49152 80 S seq 0 win 65535 data 0 ------------------------------->|
  frame 2 60
a emit
3     |- tcp 49153 80 S seq 0 win 65535 data 0 ------------------------------->|
  frame 3 60
a emit
4     |- tcp 49154 80 S seq 0 win 65535 data 0 ------------------------------->|
  frame 4 60
b deliver 2 300
2     |                                                                > taken |
  taken
b deliver 3 300
3     |                                                                > taken |
  taken
b deliver 4 300
4     |                                                              > drop F9 |
  drop F9
b emit
5     |<------------------------ tcp 80 49152 SA seq 0 ack 1 win 65535 data 0 -|
  frame 5 60
b emit
6     |<------------------------ tcp 80 49153 SA seq 0 ack 1 win 65535 data 0 -|
  frame 6 60
a deliver 6 0
6     | taken <                                                                |
  taken
a emit
7     |- tcp 49153 80 A seq 1 ack 1 win 65535 data 0 ------------------------->|
  frame 7 60
b deliver 7 0
7     |                                                                > taken |
  taken
a deliver 5 0
5     | taken <                                                                |
  taken
a emit
8     |- tcp 49152 80 A seq 1 ack 1 win 65535 data 0 ------------------------->|
  frame 8 60
b deliver 8 0
8     |                                                                > taken |
  taken
b accept 1
  id 3 10.0.0.1 49153
a tick 1000
  ok
a emit
9     |- tcp 49154 80 S seq 0 win 65535 data 0 ------------------------------->|
  frame 9 60
b deliver 9 300
9     |                                                                > taken |
  taken
b emit
10    |<------------------------ tcp 80 49154 SA seq 0 ack 1 win 65535 data 0 -|
  frame 10 60
a deliver 10 0
10    | taken <                                                                |
  taken
a emit
11    |- tcp 49154 80 A seq 1 ack 1 win 65535 data 0 ------------------------->|
  frame 11 60
b deliver 11 0
11    |                                                                > taken |
  taken
b accept 1
  id 2 10.0.0.1 49152
b close 1
  ok
b emit
12    |<----------------------------------- tcp 80 49154 R seq 1 win 0 data 0 -|
  frame 12 60
a deliver 12 0
12    | taken <                                                                |
  taken
a recv 3 100
  E10 ECONNRESET
b state 2
  ESTABLISHED
b state 3
  ESTABLISHED
";
