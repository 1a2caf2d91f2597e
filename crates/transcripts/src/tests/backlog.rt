//! Connections that wait at a listener: how many may, in which order they are accepted, and what becomes of them with it.

use super::{OPENING, UNSCALED};

/// One connection waits, so another finds no room until it is accepted.
const ONE_WAITS: &str = "a socket tcp -> id 2
a connect 2 80 50 -> started
a emit -> frame 5 60
b deliver 5 3 -> drop F9
b accept 1 -> id 2 10.0.0.1 49152
b deliver 5 3 -> taken
pass 0 -> a 0 b 1
pass 0 -> a 1 b 0
b accept 1 -> id 3 10.0.0.1 49153
";

/// The connection that waits is reset with its listener.
const LISTENER_GIVEN_BACK: &str = "b close 1 -> ok
pass 0 -> a 0 b 1
a recv 1 5 -> E10 ECONNRESET
";

/// The same, and b's port is free once the reset has gone out.
const PORT_FREED: &str = "b close 1 -> ok
b socket tcp -> id 3
b bind 3 80 -> E3 EADDRINUSE
pass 0 -> a 0 b 1
b bind 3 80 -> ok
a recv 1 5 -> E10 ECONNRESET
";

/// Nine connections are opened at once, and at b eight may wait.
const NINE_CALLS: &str = "b socket tcp -> id 1
b bind 1 80 -> ok
b listen 1 8 -> ok
a socket tcp -> id 1
a socket tcp -> id 2
a socket tcp -> id 3
a socket tcp -> id 4
a socket tcp -> id 5
a socket tcp -> id 6
a socket tcp -> id 7
a socket tcp -> id 8
a socket tcp -> id 9
a connect 1 80 100 -> started
a connect 2 80 200 -> started
a connect 3 80 300 -> started
a connect 4 80 400 -> started
a connect 5 80 500 -> started
a connect 6 80 600 -> started
a connect 7 80 700 -> started
a connect 8 80 800 -> started
a connect 9 80 900 -> started
pass 7 -> a 1 b 1
";

/// The ninth finds no room: neither while the others are opened, nor while they wait to be accepted. What is dropped draws no id.
const EIGHT_WAIT: &str = "a emit -> frame 2 60
a emit -> frame 3 60
a emit -> frame 4 60
a emit -> frame 5 60
a emit -> frame 6 60
a emit -> frame 7 60
a emit -> frame 8 60
a emit -> frame 9 60
a emit -> frame 10 60
a emit -> none
b deliver 2 7 -> taken
b deliver 3 7 -> taken
b deliver 4 7 -> taken
b deliver 5 7 -> taken
b deliver 6 7 -> taken
b deliver 7 7 -> taken
b deliver 8 7 -> taken
b deliver 9 7 -> taken
b deliver 10 7 -> drop F9
b accept 1 -> E8 EAGAIN
pass 7 -> a 0 b 8
b deliver 10 7 -> drop F9
pass 7 -> a 8 b 0
b deliver 10 7 -> drop F9
b accept 1 -> id 2 10.0.0.1 49152
b deliver 10 7 -> taken
b deliver 10 7 -> taken
b accept 1 -> id 3 10.0.0.1 49153
b accept 1 -> id 4 10.0.0.1 49154
b accept 1 -> id 5 10.0.0.1 49155
b accept 1 -> id 6 10.0.0.1 49156
b accept 1 -> id 7 10.0.0.1 49157
b accept 1 -> id 8 10.0.0.1 49158
b accept 1 -> id 9 10.0.0.1 49159
b accept 1 -> E8 EAGAIN
pass 7 -> a 0 b 1
pass 7 -> a 1 b 0
b accept 1 -> id 10 10.0.0.1 49160
b accept 1 -> E8 EAGAIN
";

/// Three connections are asked for, one after the other, and b answers in this order.
const THREE_CALLS: &str = "b socket tcp -> id 1
b bind 1 80 -> ok
b listen 1 3 -> ok
a socket tcp -> id 1
a socket tcp -> id 2
a socket tcp -> id 3
a connect 1 80 100 -> started
a connect 2 80 200 -> started
a connect 3 80 300 -> started
pass 7 -> a 1 b 1
a emit -> frame 2 60
a emit -> frame 3 60
a emit -> frame 4 60
b deliver 2 7 -> taken
b deliver 3 8 -> taken
b deliver 4 9 -> taken
b emit -> frame 5 60
b emit -> frame 6 60
b emit -> frame 7 60
b emit -> none
";

/// The answers arrive in another order, and so do the acknowledgements of b's SYNs. That is the order of accept.
const OTHER_ORDER: &str = "a deliver 7 0 -> taken
a emit -> frame 8 60
a deliver 5 0 -> taken
a emit -> frame 9 60
a deliver 6 0 -> taken
a emit -> frame 10 60
b deliver 8 0 -> taken
b deliver 10 0 -> taken
b deliver 9 0 -> taken
b accept 1 -> id 4 10.0.0.1 49154
b accept 1 -> id 3 10.0.0.1 49153
b accept 1 -> id 2 10.0.0.1 49152
b accept 1 -> E8 EAGAIN
";

/// What acknowledges b's SYN may bring octets, or the end. Where it comes once more, nothing changes.
const BY_OCTETS_AND_END: &str = "a deliver 5 0 -> taken
a deliver 6 0 -> taken
a deliver 7 0 -> taken
a emit -> frame 8 60
a emit -> frame 9 60
a emit -> frame 10 60
a send 2 hello -> sent 5
a emit -> frame 11 60
a shutdown 3 -> ok
a emit -> frame 12 60
b deliver 12 0 -> taken
b deliver 11 0 -> taken
b deliver 10 0 -> taken
b accept 1 -> id 4 10.0.0.1 49154
b deliver 10 0 -> taken
b deliver 12 0 -> taken
b deliver 9 0 -> taken
b deliver 8 0 -> taken
b accept 1 -> id 3 10.0.0.1 49153
b accept 1 -> id 2 10.0.0.1 49152
b accept 1 -> E8 EAGAIN
b state 4 -> CLOSE-WAIT
b recv 4 9 -> end
b state 3 -> ESTABLISHED
b recv 3 9 -> octets hello
b state 2 -> ESTABLISHED
";

/// Two connections are accepted at two listeners, each in its own order.
const TWO_LISTENERS: &str = "b socket tcp -> id 1
b bind 1 80 -> ok
b listen 1 2 -> ok
b socket tcp -> id 2
b bind 2 81 -> ok
b listen 2 2 -> ok
a socket tcp -> id 1
a socket tcp -> id 2
a socket tcp -> id 3
a connect 1 80 100 -> started
a connect 2 81 200 -> started
a connect 3 80 300 -> started
pass 7 -> a 1 b 1
pass 7 -> a 3 b 3
a emit -> frame 8 60
a emit -> frame 9 60
a emit -> frame 10 60
b deliver 10 0 -> taken
b deliver 9 0 -> taken
b deliver 8 0 -> taken
b accept 2 -> id 4 10.0.0.1 49153
b accept 2 -> E8 EAGAIN
b accept 1 -> id 5 10.0.0.1 49154
b accept 1 -> id 3 10.0.0.1 49152
b accept 1 -> E8 EAGAIN
";

/// Two connections wait. a's end of the first is given back and is gone after a minute, so that what b says then is answered by a reset.
const FIRST_IS_RESET: &str = "b socket tcp -> id 1
b bind 1 80 -> ok
b listen 1 2 -> ok
a socket tcp -> id 1
a socket tcp -> id 2
a socket tcp -> id 3
a connect 1 80 100 -> started
a connect 2 80 200 -> started
pass 7 -> a 1 b 1
pass 7 -> a 2 b 2
pass 7 -> a 2 b 0
a close 1 -> ok
pass 0 -> a 1 b 1
a tick 60000 -> ok
a deliver 9 0 -> taken
a emit -> frame 10 60
b deliver 10 0 -> taken
b emit -> none
";

/// It goes on counting, and is accepted in its turn.
const COUNTS_ON: &str = "a connect 3 80 300 -> started
a emit -> frame 11 60
b deliver 11 7 -> drop F9
b accept 1 -> id 2 10.0.0.1 49152
b state 2 -> CLOSED
b recv 2 10 -> E10 ECONNRESET
b send 2 x -> E10 ECONNRESET
b deliver 11 7 -> taken
pass 0 -> a 0 b 1
pass 0 -> a 1 b 0
b accept 1 -> id 3 10.0.0.1 49153
b state 3 -> ESTABLISHED
b accept 1 -> id 4 10.0.0.1 49154
b accept 1 -> E8 EAGAIN
b recv 2 10 -> E10 ECONNRESET
b close 2 -> ok
b state 2 -> E1 EBADF
";

/// A connection that is reset before it has passed SYN-RECEIVED is gone, and counts no more.
const RESET_BEFORE: &str = "a close 1 -> ok
a deliver 5 0 -> taken
a emit -> frame 8 60
b deliver 8 0 -> taken
a deliver 7 0 -> taken
a emit -> frame 9 60
a deliver 6 0 -> taken
a emit -> frame 10 60
b deliver 9 0 -> taken
a socket tcp -> id 4
a connect 4 80 400 -> started
a emit -> frame 11 60
b deliver 11 7 -> taken
b emit -> frame 12 60
a deliver 12 0 -> taken
a emit -> frame 13 60
b deliver 13 0 -> taken
b deliver 10 0 -> taken
b accept 1 -> id 4 10.0.0.1 49154
b accept 1 -> id 5 10.0.0.1 49155
b accept 1 -> id 3 10.0.0.1 49153
b accept 1 -> E8 EAGAIN
";

/// Of three connections that wait one is CLOSED, one is open and one is opening still.
const ONE_OF_EACH: &str = "a deliver 5 0 -> taken
a deliver 6 0 -> taken
a emit -> frame 8 60
a emit -> frame 9 60
b deliver 8 0 -> taken
b deliver 9 0 -> taken
a close 1 -> ok
a emit -> frame 10 60
b deliver 10 0 -> taken
b emit -> frame 11 60
a deliver 11 0 -> taken
a tick 60000 -> ok
a deliver 11 0 -> taken
a emit -> frame 12 60
b deliver 12 0 -> taken
a emit -> frame 13 60
a emit -> none
b emit -> none
";

/// The listener is given back: the closed one is gone without a word, and the others are reset.
const ALL_GIVEN_BACK: &str = "b close 1 -> ok
b accept 1 -> E1 EBADF
b emit -> frame 14 60
b emit -> frame 15 60
b emit -> none
a deliver 14 0 -> taken
a recv 2 5 -> E10 ECONNRESET
a deliver 15 0 -> taken
a state 3 -> SYN-SENT
b deliver 13 0 -> taken
b emit -> frame 16 60
b emit -> none
a deliver 16 0 -> taken
a recv 3 5 -> E9 ECONNREFUSED
b socket tcp -> id 5
b bind 5 80 -> ok
b listen 5 8 -> ok
b accept 5 -> E8 EAGAIN
";

/// What was accepted already stays when the listener is given back.
const ACCEPTED_STAYS: &str = "a deliver 6 0 -> taken
a emit -> frame 8 60
b deliver 8 0 -> taken
b accept 1 -> id 3 10.0.0.1 49153
b close 1 -> ok
b emit -> frame 9 60
b emit -> frame 10 60
b emit -> none
b state 3 -> ESTABLISHED
a send 2 hello -> sent 5
a emit -> frame 11 60
b deliver 11 0 -> taken
b recv 3 9 -> octets hello
";

/// A backlog of one and one of eight, the order of accept, resets of what waits, and listeners that are given back.
pub const TRANSCRIPTS: &[&[&str]] = &[
    &[UNSCALED, OPENING, ONE_WAITS],
    &[UNSCALED, OPENING, LISTENER_GIVEN_BACK],
    &[OPENING, PORT_FREED],
    &[UNSCALED, NINE_CALLS, EIGHT_WAIT],
    &[UNSCALED, THREE_CALLS, OTHER_ORDER],
    &[UNSCALED, THREE_CALLS, BY_OCTETS_AND_END],
    &[TWO_LISTENERS],
    &[UNSCALED, FIRST_IS_RESET, COUNTS_ON],
    &[UNSCALED, THREE_CALLS, RESET_BEFORE],
    &[UNSCALED, THREE_CALLS, ONE_OF_EACH, ALL_GIVEN_BACK],
    &[UNSCALED, THREE_CALLS, ACCEPTED_STAYS],
];
