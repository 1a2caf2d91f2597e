//! UDP sockets: datagrams that go whole and in fragments, what becomes of those that nobody waits for, and how long each thing waits.

use super::{ACCEPTED, OPENING, UNSCALED};

/// b waits for datagrams at port 5001, and a has a socket.
const SOCKETS: &str = "b socket udp -> id 1
b bind 1 5001 -> ok
a socket udp -> id 1
";

/// a asks for b's MAC, and is told it.
const ASKED: &str = "pass 0 -> a 1 b 1\n";

/// A datagram of 3,000 octets goes out in three fragments.
const IN_FRAGMENTS: &str = "a fillto 1 5001 3000 -> sent 3000
pass 0 -> a 1 b 1
a emit -> frame 2 1514
a emit -> frame 3 1514
a emit -> frame 4 82
a emit -> none
";

/// They come in the other order.
const TURNED_ROUND: &str = "b deliver 4 0 -> taken
b deliver 3 0 -> taken
b countfrom 1 4000 -> E8 EAGAIN
b deliver 2 0 -> taken
b countfrom 1 4000 -> octets 3000 from 10.0.0.1 49152
b countfrom 1 4000 -> E8 EAGAIN
";

/// Fragments that come again begin the datagram anew, and what was read comes once more: no datagram is told from its copy.
const COME_AGAIN: &str = "b deliver 2 0 -> taken
b deliver 2 0 -> taken
b deliver 4 0 -> taken
b countfrom 1 4000 -> E8 EAGAIN
b deliver 3 0 -> taken
b countfrom 1 4000 -> octets 3000 from 10.0.0.1 49152
";

/// The first fragment alone comes. After a minute b tells a that the others are missing.
const FIRST_ALONE: &str = "b deliver 2 0 -> taken
b tick 59999 -> ok
b emit -> none
b tick 60000 -> ok
b emit -> frame 5 70
b emit -> none
a deliver 5 0 -> taken
b deliver 3 0 -> taken
b deliver 4 0 -> taken
b countfrom 1 4000 -> E8 EAGAIN
";

/// Without the first fragment nothing is told.
const LAST_ALONE: &str = "b deliver 4 0 -> taken
b tick 59999 -> ok
b emit -> none
b tick 60000 -> ok
b emit -> none
";

/// Five datagrams go out in three fragments each.
const FIVE_IN_FRAGMENTS: &str = "a fillto 1 5001 3000 -> sent 3000
a fillto 1 5001 3000 -> sent 3000
a fillto 1 5001 3000 -> sent 3000
a fillto 1 5001 3000 -> sent 3000
a fillto 1 5001 3000 -> sent 3000
pass 0 -> a 1 b 1
a emit -> frame 2 1514
a emit -> frame 3 1514
a emit -> frame 4 82
a emit -> frame 5 1514
a emit -> frame 6 1514
a emit -> frame 7 82
a emit -> frame 8 1514
a emit -> frame 9 1514
a emit -> frame 10 82
a emit -> frame 11 1514
a emit -> frame 12 1514
a emit -> frame 13 82
a emit -> frame 14 1514
a emit -> frame 15 1514
a emit -> frame 16 82
a emit -> none
";

/// The first fragments of four come, and that of the fifth finds no place, until one of the four is whole. After a minute b tells a of the three others.
const FIFTH_WAITS: &str = "b deliver 2 0 -> taken
b deliver 5 0 -> taken
b deliver 8 0 -> taken
b deliver 11 0 -> taken
b deliver 14 0 -> drop F9
b countfrom 1 4000 -> E8 EAGAIN
b deliver 4 0 -> taken
b deliver 3 0 -> taken
b deliver 14 0 -> taken
b countfrom 1 4000 -> octets 3000 from 10.0.0.1 49152
b countfrom 1 4000 -> E8 EAGAIN
b deliver 16 0 -> taken
b deliver 15 0 -> taken
b countfrom 1 4000 -> octets 3000 from 10.0.0.1 49152
b tick 59999 -> ok
b emit -> none
b tick 60000 -> ok
b emit -> frame 17 70
b emit -> frame 18 70
b emit -> frame 19 70
b emit -> none
";

/// The longest datagram, and one of an octet more. What it leaves of the room of a's socket is 20 octets, of which each datagram takes
/// eight beside its own.
const LONGEST: &str = "a fillto 1 5001 65508 -> E13 EMSGSIZE
a fillto 1 5001 65507 -> sent 65507
a fillto 1 5001 13 -> E8 EAGAIN
pass 0 -> a 1 b 1
pass 0 -> a 45 b 0
a fillto 1 5001 13 -> sent 13
a fillto 1 5001 12 -> sent 12
a emit -> frame 47 60
a emit -> frame 48 60
a emit -> none
";

/// b's socket has no more room than a's. What comes in fragments and has none is lost, and the frame is taken.
const NO_ROOM_BESIDE: &str = "b deliver 47 0 -> drop F9
b deliver 48 0 -> taken
b deliver 48 0 -> drop F9
a fillto 1 5001 1473 -> sent 1473
a emit -> frame 49 1514
a emit -> frame 50 60
b deliver 49 0 -> taken
b deliver 50 0 -> taken
b countfrom 1 2000000 -> octets 65507 from 10.0.0.1 49152
b countfrom 1 2000000 -> octets 12 from 10.0.0.1 49152
b countfrom 1 2000000 -> E8 EAGAIN
b deliver 49 0 -> taken
b deliver 50 0 -> taken
b countfrom 1 2000000 -> octets 1473 from 10.0.0.1 49152
";

/// What fills a frame goes out whole.
const FILLS_A_FRAME: &str = "a fillto 1 5001 1472 -> sent 1472
pass 0 -> a 1 b 1
a emit -> frame 2 1514
a emit -> none
b deliver 2 0 -> taken
b countfrom 1 2000 -> octets 1472 from 10.0.0.1 49152
";

const SIXTEEN_EMPTY: &str = "a fillto 1 5001 0 -> sent 0
a fillto 1 5001 0 -> sent 0
a fillto 1 5001 0 -> sent 0
a fillto 1 5001 0 -> sent 0
a fillto 1 5001 0 -> sent 0
a fillto 1 5001 0 -> sent 0
a fillto 1 5001 0 -> sent 0
a fillto 1 5001 0 -> sent 0
a fillto 1 5001 0 -> sent 0
a fillto 1 5001 0 -> sent 0
a fillto 1 5001 0 -> sent 0
a fillto 1 5001 0 -> sent 0
a fillto 1 5001 0 -> sent 0
a fillto 1 5001 0 -> sent 0
a fillto 1 5001 0 -> sent 0
a fillto 1 5001 0 -> sent 0
";

/// A socket holds 64 datagrams each way. The next one displaces none of them.
const SIXTY_FIFTH: &str = "a sendto 1 5001 x -> E8 EAGAIN
pass 0 -> a 1 b 1
pass 0 -> a 64 b 0
a sendto 1 5001 x -> sent 1
a emit -> frame 66 60
b deliver 66 0 -> drop F9
b countfrom 1 9 -> octets 0 from 10.0.0.1 49152
b deliver 66 0 -> taken
b deliver 66 0 -> drop F9
b countfrom 1 9 -> octets 0 from 10.0.0.1 49152
";

/// Datagrams are read in the order in which they came. What a buffer has no room for is lost, and nothing of the next one.
const READ_IN_ORDER: &str = "a sendto 1 5001 hello -> sent 5
a sendto 1 5001 C:\\x -> sent 4
a sendto 1 5001 bye -> sent 3
pass 0 -> a 1 b 1
pass 0 -> a 3 b 0
b recvfrom 1 2 -> octets he from 10.0.0.1 49152
b recvfrom 1 100 -> octets C:\\x5cx from 10.0.0.1 49152
b countfrom 1 1 -> octets 1 from 10.0.0.1 49152
b recvfrom 1 100 -> E8 EAGAIN
";

/// b's caller sends to where the first came from.
const ANSWERED: &str = "a bind 1 6000 -> ok
a sendto 1 5001 ping -> sent 4
pass 0 -> a 1 b 1
pass 0 -> a 1 b 0
b recvfrom 1 100 -> octets ping from 10.0.0.1 6000
b sendto 1 6000 pong -> sent 4
pass 0 -> a 0 b 1
a recvfrom 1 100 -> octets pong from 10.0.0.2 5001
";

/// Nobody waits at port 9. a is told, and its caller isn't.
const NO_SOCKET: &str = "a socket udp -> id 1
a sendto 1 9 hi -> sent 2
pass 0 -> a 1 b 1
a emit -> frame 2 60
b deliver 2 0 -> taken
b emit -> frame 3 70
b emit -> none
a deliver 3 0 -> taken
a recvfrom 1 10 -> E8 EAGAIN
a state 1 -> DATAGRAM
";

/// Nor is it of use that another socket is bound to the port it came from.
const NO_SOCKET_EITHER: &str = "b socket udp -> id 1
b bind 1 49152 -> ok
b deliver 2 0 -> taken
b emit -> frame 4 70
b recvfrom 1 10 -> E8 EAGAIN
";

/// The last of three fragments completes a datagram for nobody, and the error quotes the first.
const NOBODY_IN_FRAGMENTS: &str = "a socket udp -> id 1
a fillto 1 9 3000 -> sent 3000
pass 0 -> a 1 b 1
pass 0 -> a 3 b 1
a recvfrom 1 10 -> E8 EAGAIN
";

/// What a socket holds is gone with it, and its port is free.
const CLOSED: &str = "a sendto 1 5001 one -> sent 3
pass 0 -> a 1 b 1
pass 0 -> a 1 b 0
a sendto 1 5001 two -> sent 3
a close 1 -> ok
a emit -> none
a sendto 1 5001 x -> E1 EBADF
b close 1 -> ok
b recvfrom 1 9 -> E1 EBADF
b socket udp -> id 2
b bind 2 5001 -> ok
b recvfrom 2 9 -> E8 EAGAIN
b deliver 2 0 -> taken
b recvfrom 2 9 -> octets one from 10.0.0.1 49152
";

/// A datagram waits for its hop, for which a asks once a second.
const WAITS: &str = "a socket udp -> id 1
a tick 500 -> ok
a sendto 1 5001 hi -> sent 2
a emit -> frame 0 60
a emit -> none
a tick 1499 -> ok
a emit -> none
a tick 1500 -> ok
a emit -> frame 1 60
a emit -> none
";

/// It goes out before three seconds are over.
const GOES: &str = "a tick 3499 -> ok
b deliver 1 0 -> taken
b emit -> frame 2 60
a deliver 2 0 -> taken
a emit -> frame 3 60
a emit -> none
";

/// When they are over it is dropped, and the one that was given later waits on.
const IS_DROPPED: &str = "a fillto 1 5001 100 -> sent 100
a tick 3500 -> ok
b deliver 1 0 -> taken
b emit -> frame 2 60
a deliver 2 0 -> taken
a emit -> frame 3 142
a emit -> none
";

/// All of a datagram in fragments is dropped.
const DROPPED_WHOLE: &str = "a socket udp -> id 1
a fillto 1 5001 3000 -> sent 3000
a tick 3000 -> ok
a emit -> none
a fillto 1 5001 3 -> sent 3
a emit -> frame 0 60
";

/// Where the hop is known a datagram waits as long as nobody asks for frames.
const KNOWN_HOP: &str = "a sendto 1 5001 one -> sent 3
pass 0 -> a 1 b 1
a tick 60000 -> ok
a emit -> frame 2 60
b deliver 2 0 -> taken
b recvfrom 1 9 -> octets one from 10.0.0.1 49152
";

/// The sockets are asked for frames in the order of their ids.
const IN_ORDER_OF_ID: &str = "a socket udp -> id 2
a fillto 2 5001 200 -> sent 200
a fillto 1 5001 100 -> sent 100
pass 0 -> a 1 b 1
a emit -> frame 2 142
a emit -> frame 3 242
b deliver 2 0 -> taken
b deliver 3 0 -> taken
b countfrom 1 999 -> octets 100 from 10.0.0.1 49153
b countfrom 1 999 -> octets 200 from 10.0.0.1 49152
";

/// Each kind has ports of its own, and one count of those that are given: a's connection has the first of them. What was refused got
/// none.
const PORTS: &str = "a socket udp -> id 2
a sendto 2 0 x -> E4 EADDRNOTAVAIL
a bind 2 49152 -> ok
a socket udp -> id 3
a bind 3 49152 -> E3 EADDRINUSE
a fillto 3 80 65508 -> E13 EMSGSIZE
a sendto 3 80 x -> sent 1
b socket udp -> id 3
b bind 3 80 -> ok
pass 0 -> a 1 b 0
b recvfrom 3 9 -> octets x from 10.0.0.1 49153
a bind 3 49153 -> E2 EINVAL
a socket tcp -> id 4
a bind 4 49153 -> ok
";

/// A datagram is never too old, and moves no connection.
const BESIDE_A_CONNECTION: &str = "a socket udp -> id 2
b socket udp -> id 3
b bind 3 80 -> ok
a sendto 2 80 hi -> sent 2
a emit -> frame 5 60
a send 1 hello -> sent 5
b deliver 5 0 -> taken
b recv 2 9 -> E8 EAGAIN
b recvfrom 3 9 -> octets hi from 10.0.0.1 49153
b deliver 5 0 -> taken
pass 0 -> a 1 b 0
b recv 2 9 -> octets hello
b recvfrom 3 9 -> octets hi from 10.0.0.1 49153
a state 1 -> ESTABLISHED
a state 2 -> DATAGRAM
";

/// Datagrams go whole and in fragments, come for a socket or for none, and wait for their hops.
pub const TRANSCRIPTS: &[&[&str]] = &[
    &[SOCKETS, IN_FRAGMENTS, TURNED_ROUND, COME_AGAIN],
    &[SOCKETS, IN_FRAGMENTS, FIRST_ALONE],
    &[SOCKETS, IN_FRAGMENTS, LAST_ALONE],
    &[UNSCALED, SOCKETS, FIVE_IN_FRAGMENTS, FIFTH_WAITS],
    &[SOCKETS, LONGEST, NO_ROOM_BESIDE],
    &[SOCKETS, FILLS_A_FRAME],
    &[
        SOCKETS,
        SIXTEEN_EMPTY,
        SIXTEEN_EMPTY,
        SIXTEEN_EMPTY,
        SIXTEEN_EMPTY,
        SIXTY_FIFTH,
    ],
    &[SOCKETS, READ_IN_ORDER],
    &[SOCKETS, ANSWERED],
    &[NO_SOCKET, NO_SOCKET_EITHER],
    &[NOBODY_IN_FRAGMENTS],
    &[SOCKETS, CLOSED],
    &[WAITS, GOES],
    &[WAITS, IS_DROPPED],
    &[DROPPED_WHOLE],
    &[SOCKETS, KNOWN_HOP],
    &[SOCKETS, IN_ORDER_OF_ID],
    &[OPENING, PORTS],
    &["limit 1 -> ok\n", OPENING, ACCEPTED, BESIDE_A_CONNECTION],
];
