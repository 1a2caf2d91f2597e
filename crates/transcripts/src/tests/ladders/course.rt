//! The ladders of scripts whose frames are lost, late or in parts.

/// examples/loss_repaired.txt
pub const LOSS_REPAIRED: &str =
    "      a                                                                        b
b socket tcp
  id 1
b bind 1 80
  ok
b listen 1 1
  ok
a socket tcp
  id 1
a connect 1 80 100
  started
pass 300
0     |- arp request 02:00:00:00:00:01 10.0.0.1 00:00:00:00:00:00 10.0.0.2 --->|
0     |                                                                > taken |
1     |<----- arp reply 02:00:00:00:00:02 10.0.0.2 02:00:00:00:00:01 10.0.0.1 -|
1     | taken <                                                                |
  a 1 b 1
pass 300
2     |- tcp 49152 80 S seq 0 win 65535 data 0 ------------------------------->|
2     |                                                                > taken |
3     |<------------------------ tcp 80 49152 SA seq 0 ack 1 win 65535 data 0 -|
3     | taken <                                                                |
  a 1 b 1
pass 300
4     |- tcp 49152 80 A seq 1 ack 1 win 32768 data 0 ------------------------->|
4     |                                                                > taken |
  a 1 b 0
b accept 1
  id 2 10.0.0.1 49152
a send 1 hello
  sent 5
a emit
5     |- tcp 49152 80 PA seq 1 ack 1 win 32768 data 5 ------------------------>|
  frame 5 60
b recv 2 100
  E8 EAGAIN
a emit
  none
a tick 999
  ok
a emit
  none
a tick 1000
  ok
a emit
6     |- tcp 49152 80 PA seq 1 ack 1 win 32768 data 5 ------------------------>|
  frame 6 60
b deliver 6 0
6     |                                                                > taken |
  taken
b recv 2 100
  octets hello
b tick 200
  ok
b emit
7     |<------------------------- tcp 80 49152 A seq 1 ack 6 win 32768 data 0 -|
  frame 7 60
a deliver 7 0
7     | taken <                                                                |
  taken
a tick 9000
  ok
a emit
  none
b deliver 5 0
5     |                                                                > taken |
  taken
b recv 2 100
  E8 EAGAIN
b emit
8     |<------------------------- tcp 80 49152 A seq 1 ack 6 win 32768 data 0 -|
  frame 8 60
a deliver 8 0
8     | taken <                                                                |
  taken
a emit
  none
";

/// examples/datagrams.txt
pub const DATAGRAMS: &str =
    "      a                                                                        b
b socket udp
  id 1
b bind 1 5001
  ok
b state 1
  DATAGRAM
a socket udp
  id 1
a sendto 1 5001 hello
  sent 5
pass 0
0     |- arp request 02:00:00:00:00:01 10.0.0.1 00:00:00:00:00:00 10.0.0.2 --->|
0     |                                                                > taken |
1     |<----- arp reply 02:00:00:00:00:02 10.0.0.2 02:00:00:00:00:01 10.0.0.1 -|
1     | taken <                                                                |
  a 1 b 1
a emit
2     |- udp 49152 5001 data 5 ----------------------------------------------->|
  frame 2 60
b deliver 2 0
2     |                                                                > taken |
  taken
b recvfrom 1 4
  octets hell from 10.0.0.1 49152
b recvfrom 1 100
  E8 EAGAIN
b sendto 1 49152 welcome
  sent 7
b emit
3     |<----------------------------------------------- udp 5001 49152 data 7 -|
  frame 3 60
a deliver 3 0
3     | taken <                                                                |
  taken
a recvfrom 1 100
  octets welcome from 10.0.0.2 5001
a fillto 1 5001 3000
  sent 3000
a emit
4     |- ipv4 proto 17 id 1 off 0 flags MF payload 1480 ---------------------->|
  frame 4 1514
a emit
5     |- ipv4 proto 17 id 1 off 1480 flags MF payload 1480 ------------------->|
  frame 5 1514
a emit
6     |- ipv4 proto 17 id 1 off 2960 flags - payload 48 ---------------------->|
  frame 6 82
a emit
  none
b deliver 6 0
6     |                                                                > taken |
  taken
b deliver 4 0
4     |                                                                > taken |
  taken
b deliver 4 0
4     |                                                          > taken again |
  taken
b countfrom 1 4000
  E8 EAGAIN
b deliver 5 0
5     |                                                                > taken |
  taken
b countfrom 1 4000
  octets 3000 from 10.0.0.1 49152
a fillto 1 5001 3000
  sent 3000
a emit
7     |- ipv4 proto 17 id 2 off 0 flags MF payload 1480 ---------------------->|
  frame 7 1514
a emit
8     |- ipv4 proto 17 id 2 off 1480 flags MF payload 1480 -------------------x|
  frame 8 1514
a emit
9     |- ipv4 proto 17 id 2 off 2960 flags - payload 48 ----------------------x|
  frame 9 82
b deliver 7 0
7     |                                                                > taken |
  taken
b tick 59999
  ok
b emit
  none
b tick 60000
  ok
b emit
10    |<----------------------------------------- icmp type 11 code 1 data 28 -|
  frame 10 70
a deliver 10 0
10    | taken <                                                                |
  taken
a socket udp
  id 2
a sendto 2 9 hi
  sent 2
pass 0
11    |- udp 49153 9 data 2 -------------------------------------------------->|
11    |                                                                > taken |
12    |<------------------------------------------ icmp type 3 code 3 data 28 -|
12    | taken <                                                                |
  a 1 b 1
a recvfrom 2 100
  E8 EAGAIN
a fillto 2 9 65508
  E13 EMSGSIZE
a send 2 hi
  E18 EDESTADDRREQ
a connect 2 80 100
  E17 EOPNOTSUPP
";

/// examples/old_segment_refused.txt
pub const OLD_SEGMENT_REFUSED: &str =
    "      a                                                                        b
limit 16
  ok
b socket tcp
  id 1
b bind 1 80
  ok
b listen 1 1
  ok
a socket tcp
  id 1
a connect 1 80 100
  started
pass 300
0     |- arp request 02:00:00:00:00:01 10.0.0.1 00:00:00:00:00:00 10.0.0.2 --->|
0     |                                                                > taken |
1     |<----- arp reply 02:00:00:00:00:02 10.0.0.2 02:00:00:00:00:01 10.0.0.1 -|
1     | taken <                                                                |
  a 1 b 1
pass 300
2     |- tcp 49152 80 S seq 0 win 65535 data 0 ------------------------------->|
2     |                                                                > taken |
3     |<------------------------ tcp 80 49152 SA seq 0 ack 1 win 65535 data 0 -|
3     | taken <                                                                |
  a 1 b 1
pass 300
4     |- tcp 49152 80 A seq 1 ack 1 win 32768 data 0 ------------------------->|
4     |                                                                > taken |
  a 1 b 0
b accept 1
  id 2 10.0.0.1 49152
a close 1
  ok
pass 0
5     |- tcp 49152 80 FA seq 1 ack 1 win 32768 data 0 ------------------------>|
5     |                                                                > taken |
6     |<------------------------- tcp 80 49152 A seq 1 ack 2 win 32768 data 0 -|
6     | taken <                                                                |
  a 1 b 1
b close 2
  ok
pass 0
7     |<------------------------ tcp 80 49152 FA seq 1 ack 2 win 32768 data 0 -|
7     | taken <                                                                |
  a 0 b 1
pass 0
8     |- tcp 49152 80 A seq 2 ack 2 win 32767 data 0 ------------------------->|
8     |                                                                > taken |
  a 1 b 0
b deliver 2 900
2     |                                               x U4 SecondOpening again |
  U4 SecondOpening
a tick 240000
  ok
a socket tcp
  id 2
a bind 2 49152
  ok
a connect 2 80 5000
  started
b deliver 2 900
2     |                                                  x U3 OtherEpoch again |
  U3 OtherEpoch
b deliver 4 900
4     |                                                  x U3 OtherEpoch again |
  U3 OtherEpoch
pass 700
9     |- tcp 49152 80 S seq 0 win 65535 data 0 ------------------------------->|
9     |                                                                > taken |
10    |<------------------------ tcp 80 49152 SA seq 0 ack 1 win 65535 data 0 -|
10    | taken <                                                                |
  a 1 b 1
pass 700
11    |- tcp 49152 80 A seq 1 ack 1 win 32768 data 0 ------------------------->|
11    |                                                                > taken |
  a 1 b 0
b accept 1
  id 3 10.0.0.1 49152
b deliver 2 900
2     |                                                  x U3 OtherEpoch again |
  U3 OtherEpoch
a send 2 hello
  sent 5
a emit
12    |- tcp 49152 80 PA seq 1 ack 1 win 32768 data 5 ------------------------>|
  frame 12 60
b deliver 12 0
12    |                                                                > taken |
  taken
b recv 3 100
  octets hello
a fill 2 15
  sent 15
b deliver 12 0
12    |                                                          > taken again |
  taken
b recv 3 100
  E8 EAGAIN
a fill 2 1
  sent 1
b deliver 12 0
12    |                                                       x U2 Stale again |
  U2 Stale
pass 0
13    |<------------------------- tcp 80 49152 A seq 1 ack 6 win 32768 data 0 -|
13    | taken <                                                                |
  a 0 b 1
pass 0
14    |- tcp 49152 80 PA seq 6 ack 1 win 32768 data 16 ----------------------->|
14    |                                                                > taken |
  a 1 b 0
b recv 3 100
  octets xxxxxxxxxxxxxxxx
";
