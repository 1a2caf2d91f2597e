//! The ladders of the scripts that end connections.

/// examples/reset.txt
pub const RESET: &str =
    "      a                                                                        b
a socket tcp
  id 1
a connect 1 81 100
  started
pass 0
0     |- arp request 02:00:00:00:00:01 10.0.0.1 00:00:00:00:00:00 10.0.0.2 --->|
0     |                                                                > taken |
1     |<----- arp reply 02:00:00:00:00:02 10.0.0.2 02:00:00:00:00:01 10.0.0.1 -|
1     | taken <                                                                |
  a 1 b 1
pass 0
2     |- tcp 49152 81 S seq 0 win 65535 data 0 ------------------------------->|
2     |                                                                > taken |
3     |<--------------------------- tcp 81 49152 RA seq =0 ack 1 win 0 data 0 -|
3     | taken <                                                                |
  a 1 b 1
a state 1
  CLOSED
a recv 1 100
  E9 ECONNREFUSED
a send 1 x
  E9 ECONNREFUSED
a recv 1 100
  E9 ECONNREFUSED
a close 1
  ok
a recv 1 100
  E1 EBADF
b socket tcp
  id 1
b bind 1 80
  ok
b listen 1 1
  ok
a socket tcp
  id 2
a connect 2 80 100
  started
pass 300
4     |- tcp 49153 80 S seq 0 win 65535 data 0 ------------------------------->|
4     |                                                                > taken |
5     |<------------------------ tcp 80 49153 SA seq 0 ack 1 win 65535 data 0 -|
5     | taken <                                                                |
  a 1 b 1
pass 300
6     |- tcp 49153 80 A seq 1 ack 1 win 32768 data 0 ------------------------->|
6     |                                                                > taken |
  a 1 b 0
b accept 1
  id 2 10.0.0.1 49153
a send 2 hello
  sent 5
pass 0
7     |- tcp 49153 80 PA seq 1 ack 1 win 32768 data 5 ------------------------>|
7     |                                                                > taken |
  a 1 b 0
b tick 200
  ok
pass 0
8     |<------------------------- tcp 80 49153 A seq 1 ack 6 win 32767 data 0 -|
8     | taken <                                                                |
  a 0 b 1
a state 2
  ESTABLISHED
b close 2
  ok
b emit
9     |<----------------------------------- tcp 80 49153 R seq 1 win 0 data 0 -|
  frame 9 60
a deliver 9 0
9     | taken <                                                                |
  taken
a state 2
  CLOSED
a recv 2 100
  E10 ECONNRESET
a send 2 x
  E10 ECONNRESET
a shutdown 2
  E10 ECONNRESET
a connect 2 80 100
  E10 ECONNRESET
a close 2
  ok
a recv 2 100
  E1 EBADF
";

/// examples/simultaneous_close.txt
pub const SIMULTANEOUS_CLOSE: &str =
    "      a                                                                        b
b socket tcp
  id 1
b bind 1 80
  ok
b listen 1 1
  ok
a socket tcp
  id 1
a connect 1 80 100
  started
pass 300
0     |- arp request 02:00:00:00:00:01 10.0.0.1 00:00:00:00:00:00 10.0.0.2 --->|
0     |                                                                > taken |
1     |<----- arp reply 02:00:00:00:00:02 10.0.0.2 02:00:00:00:00:01 10.0.0.1 -|
1     | taken <                                                                |
  a 1 b 1
pass 300
2     |- tcp 49152 80 S seq 0 win 65535 data 0 ------------------------------->|
2     |                                                                > taken |
3     |<------------------------ tcp 80 49152 SA seq 0 ack 1 win 65535 data 0 -|
3     | taken <                                                                |
  a 1 b 1
pass 300
4     |- tcp 49152 80 A seq 1 ack 1 win 32768 data 0 ------------------------->|
4     |                                                                > taken |
  a 1 b 0
b accept 1
  id 2 10.0.0.1 49152
a shutdown 1
  ok
b shutdown 2
  ok
a send 1 x
  E12 EPIPE
a state 1
  FIN-WAIT-1
b state 2
  FIN-WAIT-1
a emit
5     |- tcp 49152 80 FA seq 1 ack 1 win 32768 data 0 ------------------------>|
  frame 5 60
b emit
6     |<------------------------ tcp 80 49152 FA seq 1 ack 1 win 32768 data 0 -|
  frame 6 60
b deliver 5 0
5     |                                                                > taken |
  taken
a deliver 6 0
6     | taken <                                                                |
  taken
a state 1
  CLOSING
b state 2
  CLOSING
a recv 1 100
  end
b recv 2 100
  end
a emit
7     |- tcp 49152 80 A seq 2 ack 2 win 32767 data 0 ------------------------->|
  frame 7 60
b emit
8     |<------------------------- tcp 80 49152 A seq 2 ack 2 win 32767 data 0 -|
  frame 8 60
b deliver 7 0
7     |                                                                > taken |
  taken
a deliver 8 0
8     | taken <                                                                |
  taken
a state 1
  TIME-WAIT
b state 2
  TIME-WAIT
a tick 239999
  ok
a state 1
  TIME-WAIT
a tick 240000
  ok
b tick 240000
  ok
a state 1
  CLOSED
b state 2
  CLOSED
a recv 1 100
  end
b recv 2 100
  end
pass 0
  a 0 b 0
";
