//! A reset in each state that a connection goes through. The one that hears it is mostly a's, with the id 1.

use super::{ACCEPTED, OPENING, UNSCALED};

/// What a is answered where an error is reported to it, and that nothing is left to go out.
pub(super) const TOLD_RESET: &str = "a state 1 -> CLOSED
a recv 1 100 -> E10 ECONNRESET
a count 1 100 -> E10 ECONNRESET
a send 1 x -> E10 ECONNRESET
a fill 1 0 -> E10 ECONNRESET
a shutdown 1 -> E10 ECONNRESET
a connect 1 80 5 -> E10 ECONNRESET
a recv 1 100 -> E10 ECONNRESET
a emit -> none
a tick 1000000 -> ok
a emit -> none
a state 1 -> CLOSED
";

const TOLD_REFUSED: &str = "a state 1 -> CLOSED
a recv 1 100 -> E9 ECONNREFUSED
a count 1 100 -> E9 ECONNREFUSED
a send 1 x -> E9 ECONNREFUSED
a fill 1 0 -> E9 ECONNREFUSED
a shutdown 1 -> E9 ECONNREFUSED
a connect 1 80 5 -> E9 ECONNREFUSED
a recv 1 100 -> E9 ECONNREFUSED
a emit -> none
a tick 1000000 -> ok
a emit -> none
a state 1 -> CLOSED
";

/// What it is answered where both sides were closed.
pub(super) const TOLD_NOTHING: &str = "a state 1 -> CLOSED
a recv 1 100 -> end
a count 1 100 -> end
a send 1 x -> E12 EPIPE
a fill 1 0 -> E12 EPIPE
a shutdown 1 -> ok
a connect 1 80 5 -> E5 EISCONN
a recv 1 100 -> end
a emit -> none
a tick 1000000 -> ok
a emit -> none
a state 1 -> CLOSED
";

/// a's octets lie unread at b, so that b's close is a reset. b acknowledges them 200 ms after they came.
pub(super) const UNREAD: &str = "a send 1 hello -> sent 5
pass 0 -> a 1 b 0
b tick 200 -> ok
pass 0 -> a 0 b 1
";

/// b's caller gives its socket back, and the reset arrives before a says anything more.
const B_RESETS: &str = "b close 2 -> ok
b state 2 -> E1 EBADF
pass 0 -> a 0 b 1
b emit -> none
";

/// b's octets lie unread at a.
pub(super) const ALSO_UNREAD: &str = "b send 2 world -> sent 5
pass 0 -> a 0 b 1
a tick 200 -> ok
pass 0 -> a 1 b 0
";

/// Nobody listens at b's port any more. A reset that doesn't acknowledge a's SYN says nothing to it; the next one does.
const SYN_SENT: &str = "b socket tcp -> id 1
b bind 1 80 -> ok
b listen 1 1 -> ok
a socket tcp -> id 1
a connect 1 80 5 -> started
pass 0 -> a 1 b 1
a emit -> frame 2 60
b deliver 2 7 -> taken
b close 1 -> ok
b emit -> frame 3 60
b emit -> none
a deliver 3 0 -> taken
a state 1 -> SYN-SENT
a recv 1 1 -> E8 EAGAIN
a tick 1000 -> ok
a emit -> frame 4 60
b deliver 4 9 -> taken
b emit -> frame 5 60
a deliver 5 0 -> taken
";

/// A port takes no connection while its socket is only bound, nor once that was given back.
const NOBODY_LISTENS: &str = "b socket tcp -> id 1
b bind 1 80 -> ok
a socket tcp -> id 1
a connect 1 80 5 -> started
pass 0 -> a 1 b 1
pass 0 -> a 1 b 1
a recv 1 1 -> E9 ECONNREFUSED
b state 1 -> CLOSED
b listen 1 1 -> ok
b close 1 -> ok
a socket tcp -> id 2
a connect 2 80 5 -> started
pass 0 -> a 1 b 1
a recv 2 1 -> E9 ECONNREFUSED
b socket tcp -> id 2
b bind 2 80 -> ok
b listen 2 1 -> ok
a socket tcp -> id 3
a connect 3 80 5 -> started
pass 7 -> a 1 b 1
pass 7 -> a 1 b 0
b accept 2 -> id 3 10.0.0.1 49154
";

/// a's caller gives up, so that b's SYN is answered by a reset. It removes b's connection, and the backlog has room again.
const SYN_RECEIVED: &str = "b socket tcp -> id 1
b bind 1 80 -> ok
b listen 1 1 -> ok
a socket tcp -> id 1
a connect 1 80 5 -> started
pass 0 -> a 1 b 1
a emit -> frame 2 60
b deliver 2 7 -> taken
a socket tcp -> id 2
a connect 2 80 9 -> started
a emit -> frame 3 60
b deliver 3 7 -> drop F9
a close 1 -> ok
b emit -> frame 4 60
a deliver 4 0 -> taken
a emit -> frame 5 60
b deliver 5 0 -> taken
b tick 1000 -> ok
b emit -> none
b accept 1 -> E8 EAGAIN
b deliver 3 7 -> taken
b emit -> frame 6 60
a deliver 6 0 -> taken
a emit -> frame 7 60
b deliver 7 0 -> taken
b accept 1 -> id 3 10.0.0.1 49153
b state 3 -> ESTABLISHED
";

/// b's connection waits to be accepted while a's ends; what b says then is answered by a reset. It goes on waiting as it is.
const NOT_ACCEPTED: &str = "a close 1 -> ok
pass 0 -> a 1 b 1
a tick 60000 -> ok
a deliver 6 0 -> taken
a emit -> frame 7 60
b deliver 7 0 -> taken
a socket tcp -> id 2
a connect 2 80 9 -> started
a emit -> frame 8 60
b deliver 8 8 -> drop F9
b accept 1 -> id 2 10.0.0.1 49152
b state 2 -> CLOSED
b recv 2 1 -> E10 ECONNRESET
b send 2 x -> E10 ECONNRESET
b shutdown 2 -> E10 ECONNRESET
b deliver 8 8 -> taken
";

/// Its side is closed, and the end has not gone out.
const FIN_WAIT_1: &str = "a shutdown 1 -> ok
a state 1 -> FIN-WAIT-1
b close 2 -> ok
b emit -> frame 7 60
a deliver 7 0 -> taken
";

/// The end has gone out and is lost.
const FIN_WAIT_1_SENT: &str = "a shutdown 1 -> ok
a emit -> frame 7 60
a state 1 -> FIN-WAIT-1
b close 2 -> ok
b emit -> frame 8 60
a deliver 8 0 -> taken
";

pub(super) const FIN_WAIT_2: &str = "a shutdown 1 -> ok
pass 0 -> a 1 b 1
a state 1 -> FIN-WAIT-2
b state 2 -> CLOSE-WAIT
";

pub(super) const CLOSE_WAIT: &str = "b shutdown 2 -> ok
pass 0 -> a 0 b 1
pass 0 -> a 1 b 0
a state 1 -> CLOSE-WAIT
b state 2 -> FIN-WAIT-2
";

/// The ends cross, and a's is lost.
const CLOSING: &str = "a shutdown 1 -> ok
b shutdown 2 -> ok
a emit -> frame 7 60
b emit -> frame 8 60
a deliver 8 0 -> taken
a state 1 -> CLOSING
b state 2 -> FIN-WAIT-1
b close 2 -> ok
b emit -> frame 9 60
a deliver 9 0 -> taken
";

/// From CLOSE-WAIT.
const LAST_ACK: &str = "a shutdown 1 -> ok
a state 1 -> LAST-ACK
b close 2 -> ok
b emit -> frame 9 60
a deliver 9 0 -> taken
";

/// The same where a has octets that are unread: they are read still, and then the end.
const LAST_ACK_UNREAD: &str = "a shutdown 1 -> ok
a state 1 -> LAST-ACK
b close 2 -> ok
b emit -> frame 11 60
a deliver 11 0 -> taken
a state 1 -> CLOSED
a recv 1 3 -> octets wor
a recv 1 3 -> octets ld
";

const TIME_WAIT: &str = "a shutdown 1 -> ok
b shutdown 2 -> ok
a emit -> frame 7 60
b emit -> frame 8 60
b deliver 7 0 -> taken
a deliver 8 0 -> taken
pass 0 -> a 1 b 1
a state 1 -> TIME-WAIT
b state 2 -> TIME-WAIT
";

/// a's last acknowledgement arrives twice. At the second, b's connection is gone.
const LATE_COPY: &str = "a shutdown 1 -> ok
pass 0 -> a 1 b 1
b shutdown 2 -> ok
pass 0 -> a 0 b 1
a state 1 -> TIME-WAIT
a emit -> frame 8 60
b deliver 8 0 -> taken
b state 2 -> CLOSED
b emit -> none
b deliver 8 0 -> taken
b emit -> frame 9 60
a deliver 9 0 -> taken
";

/// The same with a's socket given back: its port is free at once.
const LATE_COPY_OF_NOBODY: &str = "a close 1 -> ok
pass 0 -> a 1 b 1
b shutdown 2 -> ok
pass 0 -> a 0 b 1
a emit -> frame 8 60
b deliver 8 0 -> taken
b deliver 8 0 -> taken
b emit -> frame 9 60
a socket tcp -> id 2
a bind 2 49152 -> E3 EADDRINUSE
a deliver 9 0 -> taken
a bind 2 49152 -> ok
";

/// Octets of b are lost, so its reset comes from further on: a says how far it has come, and is reset there.
const PAST_A_GAP: &str = "b send 2 xyz -> sent 3
b emit -> frame 7 60
b close 2 -> ok
b emit -> frame 8 60
a deliver 8 0 -> taken
a state 1 -> ESTABLISHED
a recv 1 1 -> E8 EAGAIN
a emit -> frame 9 60
a emit -> none
b deliver 9 0 -> taken
b emit -> frame 10 60
a deliver 10 0 -> taken
";

/// The reset that answers an old frame of a lies outside of a's window and says nothing.
const BEFORE_THE_WINDOW: &str = "b close 2 -> ok
b emit -> frame 9 60
b deliver 4 0 -> taken
b emit -> frame 10 60
a deliver 10 0 -> taken
a state 1 -> ESTABLISHED
a emit -> none
a recv 1 100 -> octets world
a deliver 9 0 -> taken
";

/// Resets while a connection is opening, some that are reported, and some after both ends.
pub const TRANSCRIPTS: &[&[&str]] = &[
    &[UNSCALED, SYN_SENT, TOLD_REFUSED],
    &[NOBODY_LISTENS],
    &[UNSCALED, SYN_RECEIVED],
    &[UNSCALED, OPENING, NOT_ACCEPTED],
    &[OPENING, ACCEPTED, UNREAD, B_RESETS, TOLD_RESET],
    &[OPENING, ACCEPTED, UNREAD, ALSO_UNREAD, B_RESETS, TOLD_RESET],
    &[OPENING, ACCEPTED, UNREAD, FIN_WAIT_1, TOLD_RESET],
    &[OPENING, ACCEPTED, UNREAD, FIN_WAIT_1_SENT, TOLD_RESET],
    &[OPENING, ACCEPTED, UNREAD, FIN_WAIT_2, B_RESETS, TOLD_RESET],
    &[OPENING, ACCEPTED, UNREAD, CLOSE_WAIT, B_RESETS, TOLD_RESET],
    &[OPENING, ACCEPTED, UNREAD, PAST_A_GAP, TOLD_RESET],
    &[
        OPENING,
        ACCEPTED,
        UNREAD,
        ALSO_UNREAD,
        BEFORE_THE_WINDOW,
        TOLD_RESET,
    ],
    &[OPENING, ACCEPTED, UNREAD, CLOSING, TOLD_NOTHING],
    &[
        OPENING,
        ACCEPTED,
        UNREAD,
        CLOSE_WAIT,
        LAST_ACK,
        TOLD_NOTHING,
    ],
    &[
        OPENING,
        ACCEPTED,
        UNREAD,
        ALSO_UNREAD,
        CLOSE_WAIT,
        LAST_ACK_UNREAD,
        TOLD_NOTHING,
    ],
    &[OPENING, ACCEPTED, UNREAD, TIME_WAIT, B_RESETS, TOLD_NOTHING],
    &[OPENING, ACCEPTED, LATE_COPY, TOLD_NOTHING],
    &[OPENING, ACCEPTED, LATE_COPY_OF_NOBODY],
];
