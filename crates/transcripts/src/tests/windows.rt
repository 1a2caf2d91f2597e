//! A reader that doesn't read: the window closes, and the writer waits.

use super::{ACCEPTED, OPENING, SLOW_START, UNSCALED};

const FILLED: &str = "a fill 1 70000 -> sent 65535
a fill 1 1 -> E8 EAGAIN
";

/// The last acknowledgement waits for 200 ms. Then the window is closed.
const CLOSED_WINDOW: &str = "b tick 200 -> ok
pass 0 -> a 0 b 1
";

/// As many are given again. The end that a's caller asks for waits behind them.
const WAITING: &str = "a fill 1 70000 -> sent 65535
a fill 1 1 -> E8 EAGAIN
a shutdown 1 -> ok
pass 0 -> a 0 b 0
";

/// Room for less than a segment is not told. With one octet more it is, and is filled again by one segment.
const READ_IN_PART: &str = "b count 2 1459 -> octets 1459
pass 0 -> a 0 b 0
b count 2 1 -> octets 1
pass 0 -> a 0 b 1
pass 0 -> a 1 b 0
pass 0 -> a 0 b 0
b count 2 2000000 -> octets 65535
b count 2 2000000 -> E8 EAGAIN
pass 0 -> a 0 b 1
";

/// The congestion window has grown to 18,815 octets: by 1,460 for each of nine acknowledgements, and by 1,295 for the last of those that filled the window. So the other 64,075
/// octets go out in 12, 13, 14 and 4 segments of 1,460 and one of 1,295. Right behind that the end goes out.
const READ_AT_LAST: &str = "pass 0 -> a 12 b 1
pass 0 -> a 13 b 1
pass 0 -> a 14 b 1
pass 0 -> a 4 b 1
pass 0 -> a 2 b 1
b count 2 2000000 -> octets 64075
b count 2 2000000 -> end
a state 1 -> FIN-WAIT-2
b state 2 -> CLOSE-WAIT
";

/// With nothing held, the end waits for the window all the same, and goes out as a probe a second later. There it finds no place. Once the
/// window is open, it goes out again after the timeout.
const END_FINDS_NO_PLACE: &str = "a shutdown 1 -> ok
a emit -> none
a tick 1000 -> ok
a emit -> frame 59 60
a emit -> none
b deliver 59 0 -> taken
b state 2 -> ESTABLISHED
b emit -> frame 60 60
a deliver 60 0 -> taken
a state 1 -> FIN-WAIT-1
b count 2 2000000 -> octets 65535
b count 2 2000000 -> E8 EAGAIN
b emit -> frame 61 60
a deliver 61 0 -> taken
a emit -> none
a tick 1999 -> ok
a emit -> none
a tick 2000 -> ok
a emit -> frame 62 60
b deliver 62 0 -> taken
b state 2 -> CLOSE-WAIT
b count 2 2000000 -> end
";

/// A probe finds no place, and its number is past the window that b advertised. Still b hears what a acknowledges then (RFC 9293 section 3.4), sends none of it
/// again, and keeps the connection: a's next ACK draws no other.
const HEARD_BEHIND_A_PROBE: &str = "a send 1 y -> sent 1
a tick 1000 -> ok
a emit -> frame 59 60
b deliver 59 0 -> taken
b emit -> frame 60 60
a deliver 60 0 -> taken
b send 2 hi -> sent 2
b emit -> frame 61 60
a deliver 61 0 -> taken
a recv 1 9 -> octets hi
a tick 1200 -> ok
a emit -> frame 62 60
b deliver 62 0 -> taken
b emit -> none
b tick 1200 -> ok
b emit -> none
b tick 600000 -> ok
b emit -> none
b state 2 -> ESTABLISHED
b count 2 2000000 -> octets 65535
b emit -> frame 63 60
a deliver 63 0 -> taken
a tick 2200 -> ok
a emit -> frame 64 60
b deliver 64 0 -> taken
b recv 2 9 -> octets y
";

/// A closed window holds octets and the end back; an end at a closed window comes later; and what is acknowledged at a closed window is heard.
pub const TRANSCRIPTS: &[&[&str]] = &[
    &[
        UNSCALED,
        OPENING,
        ACCEPTED,
        FILLED,
        SLOW_START,
        CLOSED_WINDOW,
        WAITING,
        READ_IN_PART,
        READ_AT_LAST,
    ],
    &[
        UNSCALED,
        OPENING,
        ACCEPTED,
        FILLED,
        SLOW_START,
        CLOSED_WINDOW,
        END_FINDS_NO_PLACE,
    ],
    &[
        UNSCALED,
        OPENING,
        ACCEPTED,
        FILLED,
        SLOW_START,
        CLOSED_WINDOW,
        HEARD_BEHIND_A_PROBE,
    ],
];
