//! Simultaneous opens: both callers ask for the same connection, and neither listens (RFC 9293 section 3.5, figure 7).

use super::UNSCALED;

/// Each asks for a connection between the same two ports. By the first two frames each learns where the other is.
const BOTH_CALL: &str = "a socket tcp -> id 1
a bind 1 4000 -> ok
a connect 1 5000 100 -> started
b socket tcp -> id 1
b bind 1 5000 -> ok
b connect 1 4000 200 -> started
a emit -> frame 0 60
b deliver 0 0 -> taken
b emit -> frame 1 60
a deliver 1 0 -> taken
";

/// The two SYNs are under way at once.
const SYNS_CROSS: &str = "a emit -> frame 2 60
b emit -> frame 3 60
b deliver 2 0 -> taken
a deliver 3 0 -> taken
a state 1 -> SYN-RECEIVED
b state 1 -> SYN-RECEIVED
";

/// And so are their answers.
const ANSWERS_CROSS: &str = "a emit -> frame 4 60
b emit -> frame 5 60
a emit -> none
b emit -> none
b deliver 4 0 -> taken
a deliver 5 0 -> taken
a state 1 -> SYN-RECEIVED
b state 1 -> SYN-RECEIVED
";

/// Each is acknowledged, and nothing is left to say.
const OPENED: &str = "a emit -> frame 6 60
b emit -> frame 7 60
a emit -> none
b emit -> none
b deliver 6 0 -> taken
a deliver 7 0 -> taken
a state 1 -> ESTABLISHED
b state 1 -> ESTABLISHED
a emit -> none
b emit -> none
a tick 1000000 -> ok
b tick 1000000 -> ok
a emit -> none
b emit -> none
";

/// Octets go both ways, and then the ends.
const USED: &str = "a send 1 hello -> sent 5
b send 1 world -> sent 5
a emit -> frame 8 60
b emit -> frame 9 60
b deliver 8 0 -> taken
a deliver 9 0 -> taken
b recv 1 100 -> octets hello
a recv 1 100 -> octets world
pass 0 -> a 0 b 0
a tick 1000200 -> ok
b tick 1000200 -> ok
pass 0 -> a 1 b 1
a shutdown 1 -> ok
pass 0 -> a 1 b 1
b recv 1 100 -> end
b close 1 -> ok
pass 0 -> a 0 b 1
pass 0 -> a 1 b 0
a recv 1 100 -> end
a state 1 -> TIME-WAIT
";

/// While it opens, every call is refused as that of a socket that opens a connection.
const OPENING_STILL: &str = "a send 1 x -> E8 EAGAIN
a fill 1 0 -> E8 EAGAIN
a recv 1 1 -> E8 EAGAIN
a recv 1 0 -> E2 EINVAL
a shutdown 1 -> E6 ENOTCONN
a connect 1 5000 9 -> E7 EALREADY
a bind 1 0 -> E2 EINVAL
a listen 1 1 -> E2 EINVAL
a accept 1 -> E2 EINVAL
a socket tcp -> id 2
a bind 2 4000 -> E3 EADDRINUSE
a connect 2 5000 9 -> started
a close 2 -> ok
";

/// A SYN that comes again is answered once, by the SYN-ACK that is due.
const SYN_AGAIN: &str = "a deliver 3 0 -> taken
a deliver 3 0 -> taken
a state 1 -> SYN-RECEIVED
a emit -> frame 4 60
a emit -> none
a deliver 3 0 -> taken
a emit -> frame 5 60
a emit -> none
b deliver 5 0 -> taken
b state 1 -> ESTABLISHED
b emit -> none
b deliver 4 0 -> taken
b emit -> frame 6 60
a deliver 6 0 -> taken
a state 1 -> ESTABLISHED
a emit -> none
";

/// a's SYN is lost. It goes out again with the acknowledgement of b's, and b takes that as an answer.
const SYN_LOST: &str = "a emit -> frame 2 60
b emit -> frame 3 60
a deliver 3 0 -> taken
a state 1 -> SYN-RECEIVED
b state 1 -> SYN-SENT
a emit -> frame 4 60
a emit -> none
b deliver 4 0 -> taken
b state 1 -> ESTABLISHED
b emit -> frame 5 60
b emit -> none
a deliver 5 0 -> taken
a state 1 -> ESTABLISHED
a emit -> none
";

/// The lost SYN turns up after all.
const LATE_SYN: &str = "b deliver 2 0 -> taken
b state 1 -> ESTABLISHED
b emit -> frame 6 60
b emit -> none
a deliver 6 0 -> taken
a emit -> none
a send 1 hello -> sent 5
pass 0 -> a 1 b 0
b recv 1 100 -> octets hello
";

/// a hears b's SYN before its own has gone out, which then goes with the answer.
const SYN_UNSENT: &str = "a socket tcp -> id 1
a bind 1 4000 -> ok
a connect 1 5000 100 -> started
b socket tcp -> id 1
b bind 1 5000 -> ok
b connect 1 4000 200 -> started
b emit -> frame 0 60
a deliver 0 0 -> taken
a emit -> frame 1 60
b deliver 1 0 -> taken
b emit -> frame 2 60
a deliver 2 0 -> taken
a state 1 -> SYN-RECEIVED
a emit -> frame 3 60
a emit -> none
b deliver 3 0 -> taken
b state 1 -> ESTABLISHED
b emit -> frame 4 60
a deliver 4 0 -> taken
a state 1 -> ESTABLISHED
b emit -> none
a emit -> none
b send 1 world -> sent 5
pass 0 -> a 0 b 1
a recv 1 100 -> octets world
";

/// Both answers are lost. A second later each goes out again, and is acknowledged.
const ANSWERS_LOST: &str = "a emit -> frame 4 60
b emit -> frame 5 60
a tick 999 -> ok
a emit -> none
a tick 1000 -> ok
a emit -> frame 6 60
a emit -> none
b deliver 6 0 -> taken
b state 1 -> SYN-RECEIVED
b emit -> frame 7 60
b emit -> none
a deliver 7 0 -> taken
a state 1 -> ESTABLISHED
a emit -> none
b tick 1000 -> ok
b emit -> frame 8 60
a deliver 8 0 -> taken
a state 1 -> ESTABLISHED
a emit -> frame 9 60
b deliver 9 0 -> taken
b state 1 -> ESTABLISHED
b emit -> none
";

/// a's acknowledgement is lost, and a's octets bring another one.
const ACKNOWLEDGED_BY_OCTETS: &str = "a emit -> frame 6 60
b emit -> frame 7 60
a deliver 7 0 -> taken
a state 1 -> ESTABLISHED
a send 1 hello -> sent 5
a emit -> frame 8 60
b deliver 8 0 -> taken
b state 1 -> ESTABLISHED
b recv 1 100 -> octets hello
b deliver 6 0 -> taken
b send 1 world -> sent 5
pass 0 -> a 0 b 1
a recv 1 100 -> octets world
";

/// b gives its socket back while both open, and a's caller is told so. a's socket stays.
const RESET: &str = "b close 1 -> ok
b state 1 -> E1 EBADF
b emit -> frame 4 60
b emit -> none
a deliver 4 0 -> taken
a state 1 -> CLOSED
a recv 1 5 -> E9 ECONNREFUSED
a send 1 x -> E9 ECONNREFUSED
a shutdown 1 -> E9 ECONNREFUSED
a connect 1 5000 9 -> E9 ECONNREFUSED
a recv 1 5 -> E9 ECONNREFUSED
a emit -> none
a tick 1000000 -> ok
a emit -> none
a socket tcp -> id 2
a bind 2 4000 -> E3 EADDRINUSE
a close 1 -> ok
a bind 2 4000 -> ok
";

/// b gives its socket back before it hears of a's SYN, which then is for nobody. What answers that says nothing to a any more, which has
/// heard b's SYN by then; what answers a's answer does.
const GONE: &str = "a emit -> frame 2 60
b emit -> frame 3 60
b close 1 -> ok
b deliver 2 0 -> taken
b emit -> frame 4 60
a deliver 3 0 -> taken
a state 1 -> SYN-RECEIVED
a emit -> frame 5 60
a deliver 4 0 -> taken
a state 1 -> SYN-RECEIVED
a emit -> none
b deliver 5 0 -> taken
b emit -> frame 6 60
a deliver 6 0 -> taken
a state 1 -> CLOSED
a recv 1 5 -> E9 ECONNREFUSED
";

/// The same where the answer comes before b's SYN, which then is for nobody too.
const GONE_AT_BOTH: &str = "a emit -> frame 2 60
b emit -> frame 3 60
b close 1 -> ok
b deliver 2 0 -> taken
b emit -> frame 4 60
a deliver 4 0 -> taken
a state 1 -> CLOSED
a recv 1 5 -> E9 ECONNREFUSED
a deliver 3 0 -> taken
a emit -> frame 5 60
b deliver 5 0 -> taken
b emit -> none
";

/// SYNs that cross, that are lost and that come again; octets and ends after them; and a socket that is given back.
pub const TRANSCRIPTS: &[&[&str]] = &[
    &[UNSCALED, BOTH_CALL, SYNS_CROSS, ANSWERS_CROSS, OPENED, USED],
    &[UNSCALED, BOTH_CALL, SYNS_CROSS, OPENING_STILL],
    &[UNSCALED, BOTH_CALL, SYNS_CROSS, SYN_AGAIN],
    &[UNSCALED, BOTH_CALL, SYN_LOST, LATE_SYN],
    &[UNSCALED, SYN_UNSENT],
    &[UNSCALED, BOTH_CALL, SYNS_CROSS, ANSWERS_LOST],
    &[
        UNSCALED,
        BOTH_CALL,
        SYNS_CROSS,
        ANSWERS_CROSS,
        ACKNOWLEDGED_BY_OCTETS,
    ],
    &[UNSCALED, BOTH_CALL, SYNS_CROSS, RESET],
    &[UNSCALED, BOTH_CALL, GONE],
    &[UNSCALED, BOTH_CALL, GONE_AT_BOTH],
];
