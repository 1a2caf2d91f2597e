//! What the clock and the congestion window do: small segments wait for more, acknowledgements wait for octets to ride on, what is lost goes out again, and a peer
//! that doesn't answer is given up.

use super::{ACCEPTED, OPENING, SLOW_START, UNSCALED};

/// Octets go out at once where nothing is in flight, and are read.
const HELLO: &str = "a send 1 hello -> sent 5
pass 0 -> a 1 b 0
b recv 2 100 -> octets hello
";

/// A second small segment waits for half a second (Nagle), and goes out then. It comes first, and is kept until the other has come, which
/// comes twice.
const OVERRIDDEN: &str = "a send 1 0123456789 -> sent 10
a emit -> frame 5 64
a send 1 abcdefghij -> sent 10
a emit -> none
a tick 499 -> ok
a emit -> none
a tick 500 -> ok
a emit -> frame 6 64
b deliver 6 0 -> taken
b recv 2 100 -> E8 EAGAIN
b deliver 5 0 -> taken
b deliver 5 0 -> taken
b recv 2 100 -> octets 0123456789abcdefghij
";

/// With no delay a second small segment goes out at once, and so does one that waits. Without it a third one waits again, for half a second.
const UNDELAYED: &str = "a nodelay 1 on -> ok
a send 1 0123456789 -> sent 10
a emit -> frame 5 64
a send 1 abcdefghij -> sent 10
a emit -> frame 6 64
a emit -> none
a nodelay 1 off -> ok
a send 1 klmnopqrst -> sent 10
a emit -> none
a tick 499 -> ok
a emit -> none
a tick 500 -> ok
a emit -> frame 7 64
b deliver 5 0 -> taken
b deliver 6 0 -> taken
b deliver 7 0 -> taken
b recv 2 100 -> octets 0123456789abcdefghijklmnopqrst
";

/// Octets that wait already go out at once where no delay is wanted from then on.
const UNDELAYED_LATER: &str = "a send 1 0123456789 -> sent 10
a emit -> frame 5 64
a send 1 abcdefghij -> sent 10
a emit -> none
a nodelay 1 on -> ok
a emit -> frame 6 64
a emit -> none
a tick 500 -> ok
a emit -> none
b deliver 5 0 -> taken
b deliver 6 0 -> taken
b recv 2 100 -> octets 0123456789abcdefghij
";

/// The wish is of one connection: that of its peer, which is the other end of it, goes on waiting.
const UNDELAYED_ALONE: &str = "a nodelay 1 on -> ok
b send 2 0123456789 -> sent 10
b emit -> frame 5 64
b send 2 abcdefghij -> sent 10
b emit -> none
b nodelay 2 off -> ok
b emit -> none
";

/// An end that comes ahead of its octets isn't kept. It goes out again with them.
const END_AHEAD: &str = "a send 1 hello -> sent 5
a emit -> frame 5 60
a shutdown 1 -> ok
a emit -> frame 6 60
b deliver 6 0 -> taken
b recv 2 100 -> E8 EAGAIN
b deliver 5 0 -> taken
b recv 2 100 -> octets hello
b recv 2 100 -> E8 EAGAIN
a tick 1000 -> ok
a emit -> frame 7 60
b deliver 7 0 -> taken
b recv 2 100 -> end
";

/// Octets that aren't read are lost with the socket, and a is told so by a reset.
const UNREAD: &str = "a send 1 hello -> sent 5
pass 0 -> a 1 b 0
b close 2 -> ok
pass 0 -> a 0 b 1
a recv 1 100 -> E10 ECONNRESET
a recv 1 100 -> E10 ECONNRESET
";

/// An acknowledgement waits for 200 ms.
const DELAYED: &str = "a send 1 hello -> sent 5
pass 0 -> a 1 b 0
b tick 199 -> ok
b emit -> none
b tick 200 -> ok
b emit -> frame 6 60
";

/// The second segment with octets draws it at once.
const SECOND_SEGMENT: &str = "a fill 1 2920 -> sent 2920
a emit -> frame 5 1514
a emit -> frame 6 1514
b deliver 5 0 -> taken
b emit -> none
b deliver 6 0 -> taken
b emit -> frame 7 60
b emit -> none
";

/// b has sent nothing but its SYN-ACK. So it doesn't tell the window that opens as a full segment is read: the acknowledgement waits for 200 ms.
pub(super) const SILENT_READER: &str = "a fill 1 1460 -> sent 1460
a emit -> frame 5 1514
b deliver 5 0 -> taken
b count 2 2000 -> octets 1460
b emit -> none
b tick 200 -> ok
b emit -> frame 6 60
";

/// Now b has spoken, and tells at once that its window opens by a segment.
const READER_THAT_SPOKE: &str = "a deliver 6 0 -> taken
a fill 1 1460 -> sent 1460
a emit -> frame 7 1514
b deliver 7 0 -> taken
b count 2 2000 -> octets 1460
b emit -> frame 8 60
b emit -> none
";

/// The timeout doubles up to a minute, and the thirteenth expiry ends the connection.
const GIVEN_UP: &str = "a socket tcp -> id 1
a connect 1 80 5 -> started
pass 0 -> a 1 b 1
a emit -> frame 2 60
a tick 1000 -> ok
a tick 3000 -> ok
a tick 7000 -> ok
a tick 15000 -> ok
a tick 31000 -> ok
a tick 63000 -> ok
a tick 123000 -> ok
a tick 183000 -> ok
a tick 243000 -> ok
a tick 303000 -> ok
a tick 363000 -> ok
a tick 423000 -> ok
a state 1 -> SYN-SENT
a tick 483000 -> ok
a state 1 -> CLOSED
a recv 1 10 -> E11 ETIMEDOUT
a recv 1 10 -> E11 ETIMEDOUT
";

/// Three segments are lost. At the expiry the first goes out again, for which alone the congestion window has room. Its acknowledgement makes room for the others.
const ALL_AGAIN: &str = "a fill 1 3000 -> sent 3000
a emit -> frame 5 1514
a emit -> frame 6 1514
a emit -> none
a tick 500 -> ok
a emit -> frame 7 134
a emit -> none
a tick 1000 -> ok
a emit -> frame 8 1514
a emit -> none
b deliver 8 0 -> taken
b emit -> none
b tick 200 -> ok
b emit -> frame 9 60
a deliver 9 0 -> taken
a emit -> frame 10 1514
a emit -> frame 11 134
a emit -> none
b deliver 11 0 -> taken
b count 2 9000 -> octets 1460
b deliver 10 0 -> taken
b count 2 9000 -> octets 1540
";

const FILLED: &str = "a fill 1 65535 -> sent 65535
";

/// The window is closed. It opens when all is read, but the segment that tells so is lost. A probe goes out after a second, and is taken.
const UPDATE_LOST: &str = "pass 0 -> a 0 b 0
b tick 200 -> ok
pass 0 -> a 0 b 1
a fill 1 1 -> sent 1
a emit -> none
b count 2 65535 -> octets 65535
b emit -> frame 59 60
a tick 1000 -> ok
a emit -> frame 60 60
b deliver 60 0 -> taken
b recv 2 10 -> octets x
";

/// The window is closed, and a probes it with one octet, at first after the timeout and then after twice the time each. b answers with
/// the window that it has. The one that opens it is lost, and the next probe finds it open.
const PROBED: &str = "b tick 200 -> ok
pass 0 -> a 0 b 1
a send 1 y -> sent 1
a emit -> none
a tick 999 -> ok
a emit -> none
a tick 1000 -> ok
a emit -> frame 59 60
a emit -> none
b deliver 59 0 -> taken
b emit -> frame 60 60
a deliver 60 0 -> taken
a tick 2999 -> ok
a emit -> none
a tick 3000 -> ok
a emit -> frame 61 60
b count 2 65535 -> octets 65535
b emit -> frame 62 60
b deliver 61 0 -> taken
b count 2 9 -> octets 1
";

/// The first of three segments is lost. Those behind it, one of them twice, draw the same acknowledgement three times, and the third sends the first again, and it alone. The congestion window is then
/// 2,920, half of what was in flight or two segments, and three segments more; so a new segment goes out too. Once the first has come, the window is 2,920.
const FAST_RESEND: &str = "a fill 1 5840 -> sent 5840
a emit -> frame 5 1514
a emit -> frame 6 1514
a emit -> frame 7 1514
a emit -> none
b deliver 6 0 -> taken
b emit -> frame 8 60
b deliver 7 0 -> taken
b emit -> frame 9 60
b deliver 7 0 -> taken
b emit -> frame 10 60
a deliver 8 0 -> taken
a deliver 9 0 -> taken
a emit -> none
a deliver 10 0 -> taken
a emit -> frame 11 1514
a emit -> frame 12 1514
a emit -> none
b deliver 12 0 -> taken
b emit -> frame 13 60
a deliver 13 0 -> taken
a emit -> none
b deliver 11 0 -> taken
b count 2 9000 -> octets 5840
b emit -> frame 14 60
a deliver 14 0 -> taken
a fill 1 5840 -> sent 5840
a emit -> frame 15 1514
a emit -> frame 16 1514
a emit -> none
";

/// Segments with octets of their own acknowledge nothing new, and are no duplicate acknowledgements all the same.
const NO_DUPLICATES: &str = "a fill 1 100 -> sent 100
a emit -> frame 5 154
b fill 2 4380 -> sent 4380
b emit -> frame 6 1514
b emit -> frame 7 1514
b emit -> frame 8 1514
a deliver 6 0 -> taken
a deliver 7 0 -> taken
a deliver 8 0 -> taken
a emit -> frame 9 60
a emit -> none
";

/// The clock moves what waits, and nothing else.
pub const TRANSCRIPTS: &[&[&str]] = &[
    &[OPENING, ACCEPTED, HELLO],
    &[OPENING, ACCEPTED, OVERRIDDEN],
    &[OPENING, ACCEPTED, UNDELAYED],
    &[OPENING, ACCEPTED, UNDELAYED_LATER],
    &[OPENING, ACCEPTED, UNDELAYED_ALONE],
    &[OPENING, ACCEPTED, END_AHEAD],
    &[OPENING, ACCEPTED, UNREAD],
    &[UNSCALED, OPENING, ACCEPTED, DELAYED],
    &[OPENING, ACCEPTED, SECOND_SEGMENT],
    &[OPENING, ACCEPTED, SILENT_READER, READER_THAT_SPOKE],
    &[UNSCALED, GIVEN_UP],
    &[OPENING, ACCEPTED, ALL_AGAIN],
    &[UNSCALED, OPENING, ACCEPTED, FILLED, SLOW_START, PROBED],
    &[UNSCALED, OPENING, ACCEPTED, FILLED, SLOW_START, UPDATE_LOST],
    &[UNSCALED, OPENING, ACCEPTED, FAST_RESEND],
    &[OPENING, ACCEPTED, NO_DUPLICATES],
];
