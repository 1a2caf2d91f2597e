//! The frames of a link: what waits until the MAC of its neighbour is known, and what becomes of it then.

use super::{ACCEPTED, OPENING, UNSCALED};

/// b listens, and a has heard from b where it is.
const ASKED: &str = "b socket tcp -> id 1
b bind 1 80 -> ok
b listen 1 1 -> ok
a socket tcp -> id 1
a connect 1 80 4294967295 -> started
pass 7 -> a 1 b 1
";

/// A SYN that comes twice opens one connection.
const ONE_OPENING: &str = "a emit -> frame 2 60
b deliver 2 7 -> taken
b deliver 2 9 -> taken
b emit -> frame 3 60
b emit -> none
a deliver 3 0 -> taken
a emit -> frame 4 60
b deliver 4 0 -> taken
b accept 1 -> id 2 10.0.0.1 49152
b accept 1 -> E8 EAGAIN
";

/// Requests are lost: one a second goes out. Half a minute later the SYN is as it was, and its second begins when it goes out.
const SYN_WAITS: &str = "a socket tcp -> id 1
a connect 1 80 5 -> started
a emit -> frame 0 60
a emit -> none
a tick 999 -> ok
a emit -> none
a tick 1000 -> ok
a emit -> frame 1 60
a emit -> none
a tick 30000 -> ok
a state 1 -> SYN-SENT
a emit -> frame 2 60
b deliver 2 0 -> taken
b emit -> frame 3 60
b emit -> none
a deliver 3 0 -> taken
a emit -> frame 4 60
a emit -> none
a tick 30999 -> ok
a emit -> none
a tick 31000 -> ok
a emit -> frame 5 60
a emit -> none
";

/// A request that comes again is answered again, and what a reply says twice changes nothing.
const TWICE: &str = "a socket tcp -> id 1
a connect 1 81 5 -> started
a emit -> frame 0 60
b deliver 0 0 -> taken
b deliver 0 0 -> taken
b emit -> frame 1 60
b emit -> frame 2 60
b emit -> none
a deliver 1 0 -> taken
a deliver 2 0 -> taken
a emit -> frame 3 60
a emit -> none
";

/// What was heard is forgotten after twenty minutes, whatever other frames came since.
const FORGOTTEN: &str = "a fill 1 20 -> sent 20
a tick 1199999 -> ok
a emit -> frame 5 74
b deliver 5 0 -> taken
b tick 200 -> ok
b emit -> frame 6 60
a deliver 6 0 -> taken
a fill 1 20 -> sent 20
a tick 1200000 -> ok
a emit -> frame 7 60
a emit -> none
b deliver 7 0 -> taken
b count 2 100 -> octets 20
b emit -> frame 8 60
a deliver 8 0 -> taken
a emit -> frame 9 74
b deliver 9 0 -> taken
b count 2 100 -> octets 20
";

/// b has forgotten a when a's SYN comes, which nobody waits for.
const SYN_OF_A_STRANGER: &str = "a socket tcp -> id 1
a connect 1 81 5 -> started
pass 0 -> a 1 b 1
a emit -> frame 2 60
b tick 1200000 -> ok
b deliver 2 0 -> taken
";

/// The reset waits until b hears from a.
const RESET_WAITS: &str = "b emit -> frame 3 60
b emit -> none
b tick 1202999 -> ok
b emit -> frame 4 60
a deliver 4 0 -> taken
a emit -> frame 5 60
b deliver 5 0 -> taken
b emit -> frame 6 60
b emit -> none
a deliver 6 0 -> taken
a recv 1 10 -> E9 ECONNREFUSED
";

/// It waits for three seconds, and is gone then.
const RESET_IS_DROPPED: &str = "b emit -> frame 3 60
b tick 1203000 -> ok
b emit -> none
a deliver 3 0 -> taken
a emit -> frame 4 60
b deliver 4 0 -> taken
b emit -> none
a state 1 -> SYN-SENT
";

/// Fifteen more wait with it. A request then finds no place for a reply, and tells b all the same where a is.
const SIXTEEN_WAIT: &str = "b deliver 2 0 -> taken
b deliver 2 0 -> taken
b deliver 2 0 -> taken
b deliver 2 0 -> taken
b deliver 2 0 -> taken
b deliver 2 0 -> taken
b deliver 2 0 -> taken
b deliver 2 0 -> taken
b deliver 2 0 -> taken
b deliver 2 0 -> taken
b deliver 2 0 -> taken
b deliver 2 0 -> taken
b deliver 2 0 -> taken
b deliver 2 0 -> taken
b deliver 2 0 -> taken
b deliver 2 0 -> drop F9
b deliver 0 0 -> drop F9
b emit -> frame 3 60
a deliver 3 0 -> taken
a recv 1 10 -> E9 ECONNREFUSED
b deliver 0 0 -> taken
";

/// b has forgotten a when its caller gives the socket back with octets unread. The connection owes a reset, and holds its place until
/// that is gone too.
const RESET_OF_A_CONNECTION: &str = "a send 1 hello -> sent 5
pass 0 -> a 1 b 0
b tick 200 -> ok
pass 0 -> a 0 b 1
b close 1 -> ok
b tick 1200000 -> ok
b close 2 -> ok
b emit -> frame 7 60
b tick 1202999 -> ok
b socket tcp -> id 3
b bind 3 80 -> E3 EADDRINUSE
b tick 1203000 -> ok
b emit -> none
b bind 3 80 -> ok
a state 1 -> ESTABLISHED
";

/// Nobody answers a's requests, one a second: after 483 seconds its connection is given up.
const NEVER_HEARD: &str = "b socket tcp -> id 1
b bind 1 80 -> ok
b listen 1 1 -> ok
a socket tcp -> id 1
a connect 1 80 5 -> started
a emit -> frame 0 60
a emit -> none
a tick 1000 -> ok
a emit -> frame 1 60
a tick 482999 -> ok
a state 1 -> SYN-SENT
a recv 1 1 -> E8 EAGAIN
a tick 483000 -> ok
a state 1 -> CLOSED
a recv 1 1 -> E11 ETIMEDOUT
a recv 1 1 -> E11 ETIMEDOUT
a emit -> none
";

/// b has forgotten a when a's SYN takes its only place. For three seconds it asks for a, and then another SYN finds the place free.
const CALLER_IS_SILENT: &str = "a emit -> frame 2 60
b tick 1200000 -> ok
b deliver 2 7 -> taken
b emit -> frame 3 60
b emit -> none
a socket tcp -> id 2
a connect 2 80 6 -> started
a emit -> frame 4 60
b tick 1202999 -> ok
b deliver 4 0 -> drop F9
b tick 1203000 -> ok
b deliver 4 0 -> taken
";

/// a has forgotten b when its caller gives the socket back. The connection holds its port until the wait for its hop is over.
const END_IS_NEVER_HEARD: &str = "a tick 1200000 -> ok
a close 1 -> ok
a emit -> frame 5 60
a socket tcp -> id 2
a tick 1682999 -> ok
a bind 2 49152 -> E3 EADDRINUSE
a tick 1683000 -> ok
a bind 2 49152 -> ok
a emit -> none
";

/// No moment comes after the last one of the clock, and one request goes out at it.
const LAST_MOMENT: &str = "a socket tcp -> id 1
a tick 18446744073709551615 -> ok
a connect 1 80 5 -> started
a emit -> frame 0 60
a emit -> none
";

/// Neighbours are asked for, heard of and forgotten; what waits for one goes out, or is dropped.
pub const TRANSCRIPTS: &[&[&str]] = &[
    &[UNSCALED, ASKED, ONE_OPENING],
    &[UNSCALED, SYN_WAITS],
    &[UNSCALED, TWICE],
    &[OPENING, ACCEPTED, FORGOTTEN],
    &[UNSCALED, SYN_OF_A_STRANGER, RESET_WAITS],
    &[UNSCALED, SYN_OF_A_STRANGER, RESET_IS_DROPPED],
    &[UNSCALED, SYN_OF_A_STRANGER, SIXTEEN_WAIT],
    &[OPENING, ACCEPTED, RESET_OF_A_CONNECTION],
    &[NEVER_HEARD],
    &[UNSCALED, ASKED, CALLER_IS_SILENT],
    &[OPENING, ACCEPTED, END_IS_NEVER_HEARD],
    &[LAST_MOMENT],
];
