//! Rounds without loss. A round lets a minute pass, so what was lost goes out again and every delayed ACK does. Where nothing was to be done, it reads what
//! goes out next.

use super::{ACCEPTED, OPENING, UNSCALED};

/// What was lost comes in the next round, once.
const LOST: &str = "a send 1 hello -> sent 5
a emit -> frame 5 60
a round 2 -> octets 5
a round 2 -> octets 0
";

/// 65,535 octets by the congestion window: 4,380 at first (RFC 5681 section 3.1), and 1,460 more for each round's acknowledgement. The last 1,295 of 44 segments wait
/// until those before them are acknowledged.
const SLOWLY: &str = "a fill 1 65535 -> sent 65535
a round 2 -> octets 4380
a round 2 -> octets 5840
a round 2 -> octets 7300
a round 2 -> octets 8760
a round 2 -> octets 10220
a round 2 -> octets 11680
a round 2 -> octets 13140
a round 2 -> octets 2920
a round 2 -> octets 1295
a round 2 -> octets 0
";

/// The other side writes. A socket that isn't there reads nothing.
const TURNED: &str = "b send 2 hello -> sent 5
b round 1 -> octets 5
a round 9 -> octets 0
b round 2 -> octets 0
";

/// The reader has closed its side, and reads on.
const READER_CLOSED: &str = "b shutdown 2 -> ok
pass 0 -> a 0 b 1
pass 0 -> a 1 b 0
a send 1 hello -> sent 5
a emit -> frame 7 60
a round 2 -> octets 5
a recv 1 10 -> end
";

/// The writer has: its end goes out behind the octets, and ends the reading.
const WRITER_CLOSED: &str = "a send 1 hello -> sent 5
a shutdown 1 -> ok
a round 2 -> octets 5
b state 2 -> CLOSE-WAIT
";

/// The reader has all that came, but its ACK was lost, and what goes out again in the round is what it has. It is acknowledged, so the
/// writer's buffer has room again.
const LESS_HELD: &str = "a fill 1 4380 -> sent 4380
a emit -> frame 5 1514
a emit -> frame 6 1514
a emit -> frame 7 1514
b deliver 5 0 -> taken
b deliver 6 0 -> taken
b deliver 7 0 -> taken
b count 2 65535 -> octets 4380
b emit -> frame 8 60
a fill 1 65535 -> sent 61155
a fill 1 1 -> E8 EAGAIN
a round 2 -> octets 0
a fill 1 65535 -> sent 4380
";

/// A window that all the octets of a buffer close.
const CLOSED_WINDOW: &str = "a fill 1 65535 -> sent 65535
pass 0 -> a 3 b 1
pass 0 -> a 4 b 1
pass 0 -> a 5 b 1
pass 0 -> a 6 b 1
pass 0 -> a 7 b 1
pass 0 -> a 8 b 1
pass 0 -> a 9 b 1
pass 0 -> a 2 b 1
pass 0 -> a 1 b 0
pass 0 -> a 0 b 0
b tick 200 -> ok
pass 0 -> a 0 b 1
a fill 1 1 -> sent 1
b count 2 65535 -> octets 65535
";

/// The ACK that told of the room was lost: the probe brings an octet.
const UPDATE_LOST: &str = "b emit -> frame 59 60
a round 2 -> octets 1
";

/// That ACK is still due: it goes out in the round, behind the probe that finds no place.
const UPDATE_DUE: &str = "a round 2 -> octets 0
a round 2 -> octets 1
";

/// After 20 minutes the other's MAC is forgotten, and a round is spent on asking for it.
const MAC_FORGOTTEN: &str = "a send 1 hello -> sent 5
a emit -> frame 5 60
a tick 1200000 -> ok
a round 2 -> octets 0
a round 2 -> octets 5
";

/// The timer runs out twelve times, and at the round's tick once more: the connection is over.
const GIVEN_UP: &str = "a send 1 hello -> sent 5
a emit -> frame 5 60
a tick 1000 -> ok
a emit -> frame 6 60
a tick 3000 -> ok
a emit -> frame 7 60
a tick 7000 -> ok
a emit -> frame 8 60
a tick 15000 -> ok
a emit -> frame 9 60
a tick 31000 -> ok
a emit -> frame 10 60
a tick 63000 -> ok
a emit -> frame 11 60
a tick 123000 -> ok
a emit -> frame 12 60
a tick 183000 -> ok
a emit -> frame 13 60
a tick 243000 -> ok
a emit -> frame 14 60
a tick 303000 -> ok
a emit -> frame 15 60
a tick 363000 -> ok
a emit -> frame 16 60
a tick 423000 -> ok
a emit -> frame 17 60
a round 2 -> octets 0
a recv 1 1 -> E11 ETIMEDOUT
";

/// Each side holds octets that the other has, whose ACKs were lost. Each sends them again, with the ACK that it owes; such a segment is old, so its ACK
/// isn't used, and between two expiries a round has one exchange.
const BOTH_HOLD: &str = "a fill 1 4380 -> sent 4380
b send 2 world -> sent 5
a emit -> frame 5 1514
a emit -> frame 6 1514
a emit -> frame 7 1514
b emit -> frame 8 60
a deliver 8 0 -> taken
b deliver 5 0 -> taken
b deliver 6 0 -> taken
b deliver 7 0 -> taken
b count 2 65535 -> octets 4380
a recv 1 100 -> octets world
a tick 200 -> ok
b tick 200 -> ok
a emit -> frame 9 60
b emit -> frame 10 60
a fill 1 100 -> sent 100
";

const THIRTEEN_ROUNDS: &str = "a round 2 -> octets 0
a round 2 -> octets 0
a round 2 -> octets 0
a round 2 -> octets 0
a round 2 -> octets 0
a round 2 -> octets 0
a round 2 -> octets 0
a round 2 -> octets 0
a round 2 -> octets 0
a round 2 -> octets 0
a round 2 -> octets 0
a round 2 -> octets 0
a round 2 -> octets 0
b recv 2 10 -> E11 ETIMEDOUT
";

/// A pass between two rounds sets both free: a's bare ACK, which is owed to what b sent again, stands at SND.NXT and frees b's octets, so that b answers what
/// comes again by a bare ACK too, and that frees a's.
const SET_FREE: &str = "a round 2 -> octets 0
pass 0 -> a 1 b 0
a round 2 -> octets 0
a round 2 -> octets 100
";

/// A round may open a connection: the first asks for b's MAC, the second brings the SYN and its answer, and the third the ACK of that.
const OPENED: &str = "b socket tcp -> id 1
b bind 1 80 -> ok
b listen 1 1 -> ok
a socket tcp -> id 1
a connect 1 80 5 -> started
a round 1 -> octets 0
a round 1 -> octets 0
b accept 1 -> E8 EAGAIN
a round 1 -> octets 0
b accept 1 -> id 2 10.0.0.1 49152
";

/// A frame of a round that would open a pair a second time is passed over. The listener at which its SYN came the first time is gone, and the reset that told so
/// was lost.
const PASSED_OVER: &str = "b socket tcp -> id 1
b bind 1 80 -> ok
b listen 1 1 -> ok
a socket tcp -> id 1
a connect 1 80 5 -> started
pass 0 -> a 1 b 1
a emit -> frame 2 60
b deliver 2 7 -> taken
b close 1 -> ok
b emit -> frame 3 60
b socket tcp -> id 3
b bind 3 80 -> ok
b listen 3 1 -> ok
a round 3 -> octets 0
a state 1 -> SYN-SENT
b accept 3 -> E8 EAGAIN
b deliver 4 0 -> U4 SecondOpening
";

/// Those in which no buffer and no window is full print the same with the window scale option and without it.
pub(super) const TRANSCRIPTS: &[&[&str]] = &[
    &[OPENING, ACCEPTED, LOST],
    &[UNSCALED, OPENING, ACCEPTED, LOST],
    &[OPENING, ACCEPTED, SLOWLY],
    &[UNSCALED, OPENING, ACCEPTED, SLOWLY],
    &[OPENING, ACCEPTED, TURNED],
    &[UNSCALED, OPENING, ACCEPTED, TURNED],
    &[OPENING, ACCEPTED, READER_CLOSED],
    &[UNSCALED, OPENING, ACCEPTED, READER_CLOSED],
    &[OPENING, ACCEPTED, WRITER_CLOSED],
    &[UNSCALED, OPENING, ACCEPTED, WRITER_CLOSED],
    &[UNSCALED, OPENING, ACCEPTED, LESS_HELD],
    &[UNSCALED, OPENING, ACCEPTED, CLOSED_WINDOW, UPDATE_LOST],
    &[UNSCALED, OPENING, ACCEPTED, CLOSED_WINDOW, UPDATE_DUE],
    &[OPENING, ACCEPTED, MAC_FORGOTTEN],
    &[UNSCALED, OPENING, ACCEPTED, MAC_FORGOTTEN],
    &[OPENING, ACCEPTED, GIVEN_UP],
    &[UNSCALED, OPENING, ACCEPTED, GIVEN_UP],
    &[OPENING, ACCEPTED, BOTH_HOLD, THIRTEEN_ROUNDS],
    &[UNSCALED, OPENING, ACCEPTED, BOTH_HOLD, THIRTEEN_ROUNDS],
    &[OPENING, ACCEPTED, BOTH_HOLD, SET_FREE],
    &[UNSCALED, OPENING, ACCEPTED, BOTH_HOLD, SET_FREE],
    &[OPENED],
    &[UNSCALED, PASSED_OVER],
];
