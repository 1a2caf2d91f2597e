//! Connections that close.

use super::{ACCEPTED, OPENING};

/// a closes its side: its octets go out, and right behind them the end, which is acknowledged at once.
const ONE_SIDE: &str = "a send 1 hello -> sent 5
a shutdown 1 -> ok
a state 1 -> FIN-WAIT-1
pass 0 -> a 2 b 1
b recv 2 100 -> octets hello
b recv 2 100 -> end
b state 2 -> CLOSE-WAIT
a state 1 -> FIN-WAIT-2
";

/// Then b writes on, and closes its side before its octets are acknowledged.
const OTHER_SIDE: &str = "a shutdown 1 -> ok
a send 1 x -> E12 EPIPE
b send 2 world -> sent 5
pass 0 -> a 0 b 1
pass 0 -> a 0 b 0
b shutdown 2 -> ok
b state 2 -> LAST-ACK
a recv 1 100 -> octets world
a recv 1 100 -> E8 EAGAIN
pass 0 -> a 0 b 1
a state 1 -> TIME-WAIT
a recv 1 100 -> end
pass 0 -> a 1 b 0
b state 2 -> CLOSED
b recv 2 100 -> end
b send 2 x -> E12 EPIPE
a recv 1 100 -> end
";

/// Each side's end is under way to the other.
const AT_ONCE: &str = "a shutdown 1 -> ok
b shutdown 2 -> ok
a emit -> frame 5 60
b emit -> frame 6 60
b deliver 5 0 -> taken
a deliver 6 0 -> taken
a state 1 -> CLOSING
b state 2 -> CLOSING
a recv 1 100 -> end
b recv 2 100 -> end
pass 0 -> a 1 b 1
a state 1 -> TIME-WAIT
b state 2 -> TIME-WAIT
";

/// Or b's caller gives its socket back, and a waits twice the time that a segment may live.
const OTHER_SOCKET: &str = "b close 2 -> ok
pass 0 -> a 0 b 1
a state 1 -> TIME-WAIT
pass 0 -> a 1 b 0
a tick 239999 -> ok
a state 1 -> TIME-WAIT
a tick 240000 -> ok
a state 1 -> CLOSED
a recv 1 10 -> end
";

/// A pair is used again: frames of its first connection open nothing and reach nothing of its second.
const SECOND_OPENING: &str = "a close 1 -> ok
a state 1 -> E1 EBADF
pass 0 -> a 1 b 1
b close 2 -> ok
pass 0 -> a 0 b 1
pass 0 -> a 1 b 0
b deliver 2 9 -> U4 SecondOpening
a state 1 -> E1 EBADF
a tick 240000 -> ok
a socket tcp -> id 2
a bind 2 49152 -> ok
a connect 2 80 5 -> started
b deliver 2 9 -> U3 OtherEpoch
";

/// No socket has the port.
const REFUSED: &str = "a socket tcp -> id 1
a connect 1 81 5 -> started
pass 0 -> a 1 b 1
pass 0 -> a 1 b 1
a state 1 -> CLOSED
a recv 1 10 -> E9 ECONNREFUSED
a recv 1 10 -> E9 ECONNREFUSED
a send 1 x -> E9 ECONNREFUSED
a shutdown 1 -> E9 ECONNREFUSED
a connect 1 80 5 -> E9 ECONNREFUSED
a close 1 -> ok
a recv 1 10 -> E1 EBADF
";

/// Who gives a socket back with octets unread resets the connection.
const UNREAD: &str = "a send 1 hello -> sent 5
pass 0 -> a 1 b 0
b close 2 -> ok
b recv 2 1 -> E1 EBADF
pass 0 -> a 0 b 1
a recv 1 100 -> E10 ECONNRESET
a recv 1 100 -> E10 ECONNRESET
";

/// And so does who is given octets after that.
const UNWANTED: &str = "a close 1 -> ok
pass 0 -> a 1 b 1
b recv 2 1 -> end
b send 2 x -> sent 1
pass 0 -> a 0 b 1
pass 0 -> a 1 b 0
b recv 2 1 -> E10 ECONNRESET
";

/// A connection that nobody reads waits a minute for the other side's end.
const UNENDED: &str = "a close 1 -> ok
pass 0 -> a 1 b 1
a socket tcp -> id 2
a tick 59999 -> ok
a bind 2 49152 -> E3 EADDRINUSE
a tick 60000 -> ok
a bind 2 49152 -> ok
b send 2 x -> sent 1
pass 0 -> a 0 b 1
pass 0 -> a 1 b 0
b recv 2 1 -> E10 ECONNRESET
";

/// Octets that were given go out before the end, whoever gave the socket back.
const GIVEN: &str = "a send 1 hello -> sent 5
a close 1 -> ok
a send 1 x -> E1 EBADF
pass 0 -> a 2 b 1
b recv 2 100 -> octets hello
b recv 2 100 -> end
";

/// A listener takes the connections with it that nobody accepted.
const LISTENER: &str = "b close 1 -> ok
b accept 1 -> E1 EBADF
pass 0 -> a 0 b 1
a recv 1 5 -> E10 ECONNRESET
";

/// Before the other host hears of it, a connection is just gone.
const UNHEARD: &str = "a socket tcp -> id 1
a connect 1 80 5 -> started
a close 1 -> ok
a emit -> none
a socket tcp -> id 2
a close 2 -> ok
a close 2 -> E1 EBADF
a socket tcp -> id 3
";

/// Both sides close, and then connections are reset.
pub const TRANSCRIPTS: &[&[&str]] = &[
    &[OPENING, ACCEPTED, ONE_SIDE, OTHER_SIDE],
    &[OPENING, ACCEPTED, ONE_SIDE, OTHER_SOCKET],
    &[OPENING, ACCEPTED, AT_ONCE],
    &[OPENING, ACCEPTED, GIVEN],
    &[OPENING, ACCEPTED, SECOND_OPENING],
    &[UNHEARD],
    &[REFUSED],
    &[OPENING, ACCEPTED, UNREAD],
    &[OPENING, ACCEPTED, UNWANTED],
    &[OPENING, ACCEPTED, UNENDED],
    &[OPENING, LISTENER],
];
