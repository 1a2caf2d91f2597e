//! What sockets are ready for: of each word what its call answers then, as it would be if it were asked now.

use super::{ACCEPTED, UNSCALED};

/// A socket without a connection, a listener, and one that opens a connection to it. The listener offers a connection once its handshake has ended; until it is
/// accepted no socket is that connection.
const OPENED: &str = "b socket tcp -> id 1
b ready 1 -> none
b bind 1 80 -> ok
b ready 1 -> none
b listen 1 1 -> ok
b ready 1 -> none
a socket tcp -> id 1
a ready 1 -> none
a connect 1 80 5 -> started
a ready 1 -> OPENING
pass 7 -> a 1 b 1
a emit -> frame 2 60
a ready 1 -> OPENING
b deliver 2 7 -> taken
b ready 1 -> none
b ready 2 -> E1 EBADF
pass 0 -> a 0 b 1
a ready 1 -> WRITE
b accept 1 -> E8 EAGAIN
pass 0 -> a 1 b 0
b ready 1 -> ACCEPT
b ready 2 -> E1 EBADF
";

/// The connection was accepted.
const TAKEN: &str = "b ready 1 -> none
b ready 2 -> WRITE
";

/// Octets come, are read in two parts, and more of them in front of the end.
const READ: &str = "a send 1 hello -> sent 5
b ready 2 -> WRITE
pass 0 -> a 1 b 0
b ready 2 -> READ WRITE
b recv 2 2 -> octets he
b ready 2 -> READ WRITE
b recv 2 9 -> octets llo
b ready 2 -> WRITE
b recv 2 9 -> E8 EAGAIN
b tick 200 -> ok
pass 0 -> a 0 b 1
a send 1 bye -> sent 3
a shutdown 1 -> ok
a ready 1 -> none
a send 1 x -> E12 EPIPE
a recv 1 1 -> E8 EAGAIN
pass 0 -> a 2 b 1
b ready 2 -> READ WRITE
b recv 2 9 -> octets bye
b ready 2 -> WRITE ENDED
b recv 2 9 -> end
b ready 2 -> WRITE ENDED
b shutdown 2 -> ok
b ready 2 -> ENDED
";

/// A connection has no room for more, and then it has again.
const FULL: &str = "a fill 1 65534 -> sent 65534
a ready 1 -> WRITE
a fill 1 1 -> sent 1
a ready 1 -> none
a fill 1 1 -> E8 EAGAIN
pass 0 -> a 3 b 1
a ready 1 -> WRITE
";

/// b's caller leaves octets unread, so that a's connection is reset.
const RESET: &str = "a send 1 hello -> sent 5
pass 0 -> a 1 b 0
b close 2 -> ok
b ready 2 -> E1 EBADF
a ready 1 -> WRITE
pass 0 -> a 0 b 1
a ready 1 -> FAILED
a recv 1 1 -> E10 ECONNRESET
a ready 1 -> FAILED
";

/// Nobody listens at the port.
const REFUSED: &str = "a socket tcp -> id 1
a connect 1 81 5 -> started
a ready 1 -> OPENING
pass 0 -> a 1 b 1
pass 0 -> a 1 b 1
a ready 1 -> FAILED
";

/// UDP sockets, bound or not: one reads where a datagram waits, also one of no octets, and writes where it has room.
const DATAGRAMS: &str = "a ready 1 -> E1 EBADF
a socket udp -> id 1
a ready 1 -> WRITE
b socket udp -> id 1
b bind 1 5001 -> ok
b ready 1 -> WRITE
a sendto 1 5001 hi -> sent 2
a fillto 1 5001 0 -> sent 0
a ready 1 -> WRITE
pass 0 -> a 1 b 1
a emit -> frame 2 60
b deliver 2 0 -> taken
b ready 1 -> READ WRITE
b recvfrom 1 9 -> octets hi from 10.0.0.1 49152
b ready 1 -> WRITE
a emit -> frame 3 60
b deliver 3 0 -> taken
b ready 1 -> READ WRITE
b countfrom 1 9 -> octets 0 from 10.0.0.1 49152
b ready 1 -> WRITE
a close 1 -> ok
a ready 1 -> E1 EBADF
";

/// A UDP socket that takes no octet more until what waits has gone out.
const FULL_QUEUE: &str = "a socket udp -> id 1
a fillto 1 80 65507 -> sent 65507
a ready 1 -> WRITE
a fillto 1 80 12 -> sent 12
a ready 1 -> none
a sendto 1 80 x -> E8 EAGAIN
";

/// Sockets of each kind, in states of a connection.
pub const TRANSCRIPTS: &[&[&str]] = &[
    &[UNSCALED, OPENED, ACCEPTED, TAKEN, READ],
    &[UNSCALED, OPENED, ACCEPTED, FULL],
    &[UNSCALED, OPENED, ACCEPTED, RESET],
    &[REFUSED],
    &[DATAGRAMS],
    &[FULL_QUEUE],
];
