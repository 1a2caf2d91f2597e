//! What good scripts print.

use super::{ACCEPTED, OPENING, SLOW_START, UNSCALED};

/// A frame that comes twice is read once.
const TWICE: &str = "a send 1 hello -> sent 5
a emit -> frame 5 60
b deliver 5 0 -> taken
b deliver 5 0 -> taken
b recv 2 100 -> octets hello
b recv 2 100 -> E8 EAGAIN
";

/// The limit counts what was written since the frame went out, and no side takes a frame of its own.
const STALE: &str = "a send 1 hello -> sent 5
a emit -> frame 5 60
a send 1 123456789012345 -> sent 15
b deliver 5 0 -> taken
a send 1 1 -> sent 1
b deliver 5 0 -> U2 Stale
a deliver 5 0 -> U1 NoSuchFrame
b deliver 99 0 -> U1 NoSuchFrame
";

/// A socket that was only made.
const IDLE: &str = "a recv 1 10 -> E1 EBADF
a state 1 -> E1 EBADF
a shutdown 1 -> E1 EBADF
a socket tcp -> id 1
a recv 1 10 -> E6 ENOTCONN
a recv 1 0 -> E2 EINVAL
a send 1 x -> E6 ENOTCONN
a shutdown 1 -> E6 ENOTCONN
a listen 1 1 -> E18 EDESTADDRREQ
a listen 1 9 -> E2 EINVAL
a accept 1 -> E2 EINVAL
a state 1 -> CLOSED
a connect 1 0 1 -> E4 EADDRNOTAVAIL
a emit -> none
";

/// Sockets that are bound, listening and opening.
const BUSY: &str = "a socket tcp -> id 1
a bind 1 5 -> ok
a bind 1 5 -> E2 EINVAL
a socket tcp -> id 2
a bind 2 5 -> E3 EADDRINUSE
a listen 1 1 -> ok
a listen 1 1 -> E2 EINVAL
a accept 1 -> E8 EAGAIN
a state 1 -> LISTEN
a recv 1 0 -> E17 EOPNOTSUPP
a send 1 x -> E17 EOPNOTSUPP
a shutdown 1 -> E17 EOPNOTSUPP
a connect 1 80 1 -> E17 EOPNOTSUPP
a connect 2 80 1 -> started
a connect 2 80 1 -> E7 EALREADY
a recv 2 1 -> E8 EAGAIN
a send 2 x -> E8 EAGAIN
a shutdown 2 -> E6 ENOTCONN
a bind 2 5 -> E2 EINVAL
";

/// A backlog of one takes one connection, and a side takes no frame of its own.
const BACKLOG: &str = "b socket tcp -> id 1
b bind 1 00080 -> ok
b listen 1 1 -> ok
a socket tcp -> id 1
a state 1 -> CLOSED
a connect 1 80 5 -> started
a state 1 -> SYN-SENT
a emit -> frame 0 60
a emit -> none
a deliver 0 7 -> U1 NoSuchFrame
b deliver 0 7 -> taken
b emit -> frame 1 60
a deliver 1 7 -> taken
a emit -> frame 2 60
a emit -> none
a deliver 2 7 -> U1 NoSuchFrame
b deliver 2 7 -> taken
a socket tcp -> id 2
a connect 2 80 9 -> started
a emit -> frame 3 60
b deliver 3 7 -> drop F9
b tick 18446744073709551615 -> ok
b state 1 -> LISTEN
";

/// Ports are given in turn, but for those that are bound.
const PORTS: &str = "b socket tcp -> id 1
b bind 1 80 -> ok
b listen 1 1 -> ok
a socket tcp -> id 1
a socket tcp -> id 2
a socket tcp -> id 3
a bind 2 49153 -> ok
a connect 1 80 1 -> started
a connect 3 0 1 -> E4 EADDRNOTAVAIL
pass 7 -> a 1 b 1
pass 7 -> a 1 b 1
pass 7 -> a 1 b 0
b accept 1 -> id 2 10.0.0.1 49152
a connect 3 80 1 -> started
pass 7 -> a 1 b 1
pass 7 -> a 1 b 0
b accept 1 -> id 3 10.0.0.1 49154
a connect 2 80 1 -> started
pass 7 -> a 1 b 1
pass 7 -> a 1 b 0
b accept 1 -> id 4 10.0.0.1 49153
b accept 1 -> E8 EAGAIN
";

/// The acknowledgement of octets waits, and rides on those that go the other way.
const PARTS: &str = "a send 1 hello -> sent 5
pass 0 -> a 1 b 0
b recv 2 2 -> octets he
b recv 2 2 -> octets ll
b recv 2 2 -> octets o
b recv 2 2 -> E8 EAGAIN
b send 2 C:\\x -> sent 4
pass 0 -> a 0 b 1
a recv 1 2000000 -> octets C:\\x5cx
a fill 1 1000 -> sent 1000
pass 0 -> a 1 b 0
b count 2 600 -> octets 600
b count 2 600 -> octets 400
";

/// A second after it went out, what isn't acknowledged goes out again; the clock goes forward alone. An acknowledgement waits for 200 ms.
const RESENT: &str = "a send 1 hello -> sent 5
a tick 50 -> ok
a emit -> frame 5 60
a emit -> none
a tick 1049 -> ok
a emit -> none
a tick 1050 -> ok
a tick 3 -> ok
a emit -> frame 6 60
b deliver 6 0 -> taken
b emit -> none
b tick 199 -> ok
b emit -> none
b tick 200 -> ok
b emit -> frame 7 60
a deliver 7 0 -> taken
a tick 9000 -> ok
a emit -> none
";

const FULL: &str = "a fill 1 70000 -> sent 65535
a fill 1 1 -> E8 EAGAIN
";

const OPENED_AGAIN: &str = "pass 0 -> a 0 b 0
a send 1 y -> sent 1
pass 0 -> a 0 b 0
b count 2 2000000 -> octets 65535
pass 0 -> a 0 b 1
pass 0 -> a 1 b 0
b recv 2 2000000 -> octets y
";

/// Octets are carried; calls are answered; a closed window opens.
pub const TRANSCRIPTS: &[&[&str]] = &[
    &[OPENING, ACCEPTED, TWICE],
    &["# stale\n\nlimit 16 -> ok\n", OPENING, ACCEPTED, STALE],
    &[OPENING, ACCEPTED, PARTS],
    &[OPENING, ACCEPTED, RESENT],
    &[IDLE],
    &[BUSY],
    &[UNSCALED, BACKLOG],
    &[PORTS],
    &[UNSCALED, OPENING, ACCEPTED, FULL, SLOW_START, OPENED_AGAIN],
];
