//! Sockets that are aborted (RFC 9293 section 3.10.5).

use super::resets::{ALSO_UNREAD, CLOSE_WAIT, FIN_WAIT_2, TOLD_NOTHING, TOLD_RESET, UNREAD};
use super::{ACCEPTED, OPENING, UNSCALED};

/// b's connection is aborted, and its id is gone. Its reset goes out, and nothing behind it.
const B_ABORTS: &str = "b abort 2 -> ok
b abort 2 -> E1 EBADF
b state 2 -> E1 EBADF
b recv 2 1 -> E1 EBADF
pass 0 -> a 0 b 1
b emit -> none
";

/// Octets wait to go out: they never do.
const HELD: &str = "b send 2 world -> sent 5
";

/// Octets are on their way and not acknowledged: the reset stands behind them, where a expects the next one.
const UNACKNOWLEDGED: &str = "b send 2 world -> sent 5
b emit -> frame 5 60
a deliver 5 0 -> taken
";

/// The ends cross, and each is acknowledged.
const TIME_WAIT: &str = "a shutdown 1 -> ok
b shutdown 2 -> ok
a emit -> frame 5 60
b emit -> frame 6 60
b deliver 5 0 -> taken
a deliver 6 0 -> taken
pass 0 -> a 1 b 1
a state 1 -> TIME-WAIT
b state 2 -> TIME-WAIT
";

/// Nobody answered a's SYN yet, so nobody is told.
const SYN_SENT: &str = "a socket tcp -> id 1
a connect 1 80 5 -> started
pass 0 -> a 1 b 1
a emit -> frame 2 60
a abort 1 -> ok
a state 1 -> E1 EBADF
a emit -> none
a tick 1000 -> ok
a emit -> none
a socket tcp -> id 2
a bind 2 49152 -> ok
";

/// A connection that was reset owes nothing.
const RESET_BEFORE: &str = "b abort 2 -> ok
pass 0 -> a 0 b 1
a recv 1 1 -> E10 ECONNRESET
a abort 1 -> ok
a recv 1 1 -> E1 EBADF
a emit -> none
";

/// What waits at a listener is aborted with it.
const LISTENER: &str = "b abort 1 -> ok
b accept 1 -> E1 EBADF
b state 1 -> E1 EBADF
pass 0 -> a 0 b 1
b emit -> none
b socket tcp -> id 3
b bind 3 80 -> ok
";

/// A second connection waits at the listener that took the one which is aborted: it stays.
const ANOTHER_WAITS: &str = "a socket tcp -> id 2
a connect 2 80 9 -> started
pass 7 -> a 1 b 1
pass 7 -> a 1 b 0
b abort 2 -> ok
pass 0 -> a 0 b 1
b emit -> none
a recv 1 1 -> E10 ECONNRESET
a state 2 -> ESTABLISHED
b state 1 -> LISTEN
b accept 1 -> id 3 10.0.0.1 49153
b state 3 -> ESTABLISHED
";

/// Sockets without a connection.
const OTHERS: &str = "a abort 1 -> E1 EBADF
a socket tcp -> id 1
a bind 1 80 -> ok
a abort 1 -> ok
a listen 1 1 -> E1 EBADF
a socket udp -> id 2
a bind 2 80 -> ok
a sendto 2 80 x -> sent 1
a abort 2 -> ok
a recvfrom 2 1 -> E1 EBADF
a emit -> none
a socket udp -> id 3
a bind 3 80 -> ok
";

/// An abort of each kind of socket, and in states of a connection.
pub const TRANSCRIPTS: &[&[&str]] = &[
    &[OPENING, ACCEPTED, B_ABORTS, TOLD_RESET],
    &[OPENING, ACCEPTED, UNREAD, B_ABORTS, TOLD_RESET],
    &[OPENING, ACCEPTED, UNREAD, ALSO_UNREAD, B_ABORTS, TOLD_RESET],
    &[OPENING, ACCEPTED, HELD, B_ABORTS, TOLD_RESET],
    &[OPENING, ACCEPTED, UNACKNOWLEDGED, B_ABORTS, TOLD_RESET],
    &[OPENING, ACCEPTED, FIN_WAIT_2, B_ABORTS, TOLD_RESET],
    &[OPENING, ACCEPTED, CLOSE_WAIT, B_ABORTS, TOLD_RESET],
    &[OPENING, ACCEPTED, TIME_WAIT, B_ABORTS, TOLD_NOTHING],
    &[UNSCALED, SYN_SENT],
    &[OPENING, ACCEPTED, RESET_BEFORE],
    &[OPENING, LISTENER, TOLD_RESET],
    &[OPENING, ACCEPTED, ANOTHER_WAITS],
    &[OTHERS],
];
