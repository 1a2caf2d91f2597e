//! Frames that find no room, and frames that the world refuses.

use super::{ACCEPTED, OPENING, UNSCALED};

/// A backlog of one holds one connection until that is accepted.
const BACKLOG: &str = "b socket tcp -> id 1
b bind 1 80 -> ok
b listen 1 1 -> ok
a socket tcp -> id 1
a socket tcp -> id 2
a connect 1 80 5 -> started
a connect 2 80 9 -> started
pass 7 -> a 1 b 1
a emit -> frame 2 60
a emit -> frame 3 60
b deliver 2 7 -> taken
b deliver 3 7 -> drop F9
b emit -> frame 4 60
b emit -> none
a deliver 4 0 -> taken
a emit -> frame 5 60
b deliver 5 0 -> taken
b deliver 3 7 -> drop F9
b emit -> none
b accept 1 -> id 2 10.0.0.1 49152
b deliver 3 7 -> taken
b emit -> frame 6 60
a deliver 6 0 -> taken
a emit -> frame 7 60
b deliver 7 0 -> taken
b accept 1 -> id 3 10.0.0.1 49153
";

/// Nobody listens at port 81.
const NOBODY: &str = "a socket tcp -> id 1
a connect 1 81 5 -> started
pass 0 -> a 1 b 1
a emit -> frame 2 60
";

/// At most 16 resets wait to answer segments for no connection.
const SIXTEEN_TAKEN: &str = "b deliver 2 0 -> taken
b deliver 2 0 -> taken
b deliver 2 0 -> taken
b deliver 2 0 -> taken
b deliver 2 0 -> taken
b deliver 2 0 -> taken
b deliver 2 0 -> taken
b deliver 2 0 -> taken
b deliver 2 0 -> taken
b deliver 2 0 -> taken
b deliver 2 0 -> taken
b deliver 2 0 -> taken
b deliver 2 0 -> taken
b deliver 2 0 -> taken
b deliver 2 0 -> taken
b deliver 2 0 -> taken
";

const ONE_REPLY_GOES: &str = "b deliver 2 0 -> drop F9
b emit -> frame 3 60
b deliver 2 0 -> taken
b deliver 2 0 -> drop F9
a deliver 3 0 -> taken
a state 1 -> CLOSED
a recv 1 1 -> E9 ECONNREFUSED
";

/// On a connection of its own, a asks for another one at port 81 of b.
const ANOTHER: &str = "a socket tcp -> id 2
a connect 2 81 5 -> started
a emit -> frame 5 60
";

/// The same number of resets that answer this one.
const SIXTEEN_MORE: &str = "b deliver 5 0 -> taken
b deliver 5 0 -> taken
b deliver 5 0 -> taken
b deliver 5 0 -> taken
b deliver 5 0 -> taken
b deliver 5 0 -> taken
b deliver 5 0 -> taken
b deliver 5 0 -> taken
b deliver 5 0 -> taken
b deliver 5 0 -> taken
b deliver 5 0 -> taken
b deliver 5 0 -> taken
b deliver 5 0 -> taken
b deliver 5 0 -> taken
b deliver 5 0 -> taken
b deliver 5 0 -> taken
";

/// Where no reply has room, what needs none is taken: octets and a reset.
const NEEDS_NO_REPLY: &str = "b deliver 5 0 -> drop F9
a send 1 hello -> sent 5
a emit -> frame 6 60
b deliver 6 0 -> taken
b recv 2 100 -> octets hello
b send 2 world -> sent 5
b emit -> frame 7 60
b deliver 5 0 -> taken
b deliver 5 0 -> drop F9
";

/// The replies go out before all else.
const SIXTEEN_GO: &str = "b emit -> frame 8 60
b emit -> frame 9 60
b emit -> frame 10 60
b emit -> frame 11 60
b emit -> frame 12 60
b emit -> frame 13 60
b emit -> frame 14 60
b emit -> frame 15 60
b emit -> frame 16 60
b emit -> frame 17 60
b emit -> frame 18 60
b emit -> frame 19 60
b emit -> frame 20 60
b emit -> frame 21 60
b emit -> frame 22 60
b emit -> frame 23 60
";

const WORLD_LAST: &str = "b emit -> frame 24 60
b emit -> none
a deliver 24 0 -> taken
a close 1 -> ok
a emit -> frame 25 60
";

const RESET_TAKEN: &str = "b deliver 5 0 -> drop F9
b deliver 25 0 -> taken
b state 2 -> CLOSED
b recv 2 1 -> E10 ECONNRESET
b deliver 25 0 -> taken
b deliver 6 0 -> drop F9
b deliver 5 0 -> drop F9
";

/// No host opens a pair a second time while the other one holds it: not by a frame, and not by a connect.
const SECOND_OPENING: &str = "b socket tcp -> id 1
b bind 1 80 -> ok
b listen 1 1 -> ok
a socket tcp -> id 1
a connect 1 80 5 -> started
pass 0 -> a 1 b 1
a emit -> frame 2 60
b deliver 2 7 -> taken
b emit -> frame 3 60
a close 1 -> ok
a socket tcp -> id 2
a bind 2 49152 -> ok
a connect 2 80 9 -> U4 SecondOpening
a state 2 -> CLOSED
a deliver 3 0 -> taken
a emit -> frame 4 60
b deliver 4 0 -> taken
b deliver 2 7 -> U4 SecondOpening
a connect 2 80 9 -> started
a state 2 -> SYN-SENT
b deliver 2 7 -> U3 OtherEpoch
a deliver 3 0 -> U3 OtherEpoch
pass 7 -> a 1 b 1
pass 7 -> a 1 b 0
b accept 1 -> id 3 10.0.0.1 49152
";

/// A frame is none of the bag, was emitted by this side, or is too old by what either side's caller gave since.
const UNFAIR: &str = "a send 1 hello -> sent 5
a emit -> frame 5 60
b deliver 6 0 -> U1 NoSuchFrame
b deliver 18446744073709551615 0 -> U1 NoSuchFrame
a deliver 5 0 -> U1 NoSuchFrame
b fill 2 9 -> sent 9
b deliver 5 0 -> taken
b fill 2 0 -> sent 0
b deliver 5 0 -> taken
b fill 2 1 -> sent 1
b deliver 5 0 -> U2 Stale
a deliver 5 0 -> U1 NoSuchFrame
b recv 2 100 -> octets hello
";

/// Where an event breaks several rules, the first of them is reported: a stale frame that would open a pair a second time, and one
/// of an earlier epoch that is stale too. Frames with ARP packets are never stale, and of no epoch.
const FIRST_RULE: &str = "a send 1 x -> sent 1
b deliver 2 9 -> U2 Stale
a close 1 -> ok
pass 0 -> a 2 b 1
b recv 2 9 -> octets x
b close 2 -> ok
pass 0 -> a 0 b 1
pass 0 -> a 1 b 0
b deliver 2 9 -> U2 Stale
a tick 240000 -> ok
a socket tcp -> id 2
a bind 2 49152 -> ok
a connect 2 80 5 -> started
b deliver 2 9 -> U3 OtherEpoch
a deliver 2 9 -> U1 NoSuchFrame
b deliver 0 9 -> taken
a deliver 1 9 -> taken
b emit -> frame 10 60
";

/// A second connection finds no room, nor does a seventeenth reply; the world refuses events.
pub const TRANSCRIPTS: &[&[&str]] = &[
    &[UNSCALED, BACKLOG],
    &[UNSCALED, NOBODY, SIXTEEN_TAKEN, ONE_REPLY_GOES],
    &[
        UNSCALED,
        OPENING,
        ACCEPTED,
        ANOTHER,
        SIXTEEN_MORE,
        NEEDS_NO_REPLY,
        SIXTEEN_GO,
        WORLD_LAST,
        SIXTEEN_MORE,
        RESET_TAKEN,
    ],
    &[UNSCALED, SECOND_OPENING],
    &["limit 10 -> ok\n", OPENING, ACCEPTED, UNFAIR],
    &["limit 1 -> ok\n", OPENING, ACCEPTED, FIRST_RULE],
];
