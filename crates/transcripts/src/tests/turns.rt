//! Several connections of one host have something to send: the turn goes round in order of id, from the one that sent last on, so none waits for all that another
//! has.

use super::UNSCALED;

/// a opens three connections. Two frames are for b's MAC, and three for each handshake, of which the last are the ACKs of a, in order: so the third sent last.
const THREE: &str = "b socket tcp -> id 1
b bind 1 80 -> ok
b listen 1 3 -> ok
a socket tcp -> id 1
a connect 1 80 1000 -> started
a socket tcp -> id 2
a connect 2 80 2000 -> started
a socket tcp -> id 3
a connect 3 80 3000 -> started
pass 7 -> a 1 b 1
pass 7 -> a 3 b 3
pass 7 -> a 3 b 0
b accept 1 -> id 2 10.0.0.1 49152
b accept 1 -> id 3 10.0.0.1 49153
b accept 1 -> id 4 10.0.0.1 49154
";

/// The congestion window of each lets three segments out (RFC 5681 section 3.1). Those of the first and the second go by turns, and that of the third goes third.
const ROUND: &str = "a fill 1 8760 -> sent 8760
a fill 2 8760 -> sent 8760
a send 3 hello -> sent 5
a emit -> frame 11 1514
a emit -> frame 12 1514
a emit -> frame 13 60
a emit -> frame 14 1514
a emit -> frame 15 1514
a emit -> frame 16 1514
a emit -> frame 17 1514
a emit -> none
";

/// b takes eight connections at a time.
const LISTENING: &str = "b socket tcp -> id 1
b bind 1 80 -> ok
b listen 1 8 -> ok
";

/// The first that a opens asks for b's MAC.
const FIRST_EIGHT: &str = "a socket tcp -> id 1
a connect 1 80 1000 -> started
a socket tcp -> id 2
a connect 2 80 2000 -> started
a socket tcp -> id 3
a connect 3 80 3000 -> started
a socket tcp -> id 4
a connect 4 80 4000 -> started
a socket tcp -> id 5
a connect 5 80 5000 -> started
a socket tcp -> id 6
a connect 6 80 6000 -> started
a socket tcp -> id 7
a connect 7 80 7000 -> started
a socket tcp -> id 8
a connect 8 80 8000 -> started
pass 7 -> a 1 b 1
pass 7 -> a 8 b 8
pass 7 -> a 8 b 0
b accept 1 -> id 2 10.0.0.1 49152
b accept 1 -> id 3 10.0.0.1 49153
b accept 1 -> id 4 10.0.0.1 49154
b accept 1 -> id 5 10.0.0.1 49155
b accept 1 -> id 6 10.0.0.1 49156
b accept 1 -> id 7 10.0.0.1 49157
b accept 1 -> id 8 10.0.0.1 49158
b accept 1 -> id 9 10.0.0.1 49159
";

/// Eight more.
const NEXT_EIGHT: &str = "a socket tcp -> id 9
a connect 9 80 9000 -> started
a socket tcp -> id 10
a connect 10 80 10000 -> started
a socket tcp -> id 11
a connect 11 80 11000 -> started
a socket tcp -> id 12
a connect 12 80 12000 -> started
a socket tcp -> id 13
a connect 13 80 13000 -> started
a socket tcp -> id 14
a connect 14 80 14000 -> started
a socket tcp -> id 15
a connect 15 80 15000 -> started
a socket tcp -> id 16
a connect 16 80 16000 -> started
pass 7 -> a 8 b 8
pass 7 -> a 8 b 0
b accept 1 -> id 10 10.0.0.1 49160
b accept 1 -> id 11 10.0.0.1 49161
b accept 1 -> id 12 10.0.0.1 49162
b accept 1 -> id 13 10.0.0.1 49163
b accept 1 -> id 14 10.0.0.1 49164
b accept 1 -> id 15 10.0.0.1 49165
b accept 1 -> id 16 10.0.0.1 49166
b accept 1 -> id 17 10.0.0.1 49167
";

/// And seven. Two frames were for the MACs, and 69 for 23 handshakes.
const LAST_SEVEN: &str = "a socket tcp -> id 17
a connect 17 80 17000 -> started
a socket tcp -> id 18
a connect 18 80 18000 -> started
a socket tcp -> id 19
a connect 19 80 19000 -> started
a socket tcp -> id 20
a connect 20 80 20000 -> started
a socket tcp -> id 21
a connect 21 80 21000 -> started
a socket tcp -> id 22
a connect 22 80 22000 -> started
a socket tcp -> id 23
a connect 23 80 23000 -> started
pass 7 -> a 7 b 7
pass 7 -> a 7 b 0
b accept 1 -> id 18 10.0.0.1 49168
b accept 1 -> id 19 10.0.0.1 49169
b accept 1 -> id 20 10.0.0.1 49170
b accept 1 -> id 21 10.0.0.1 49171
b accept 1 -> id 22 10.0.0.1 49172
b accept 1 -> id 23 10.0.0.1 49173
b accept 1 -> id 24 10.0.0.1 49174
";

/// The only segment of the last of the 23 is lost.
const LAST_LOST: &str = "a send 23 hello -> sent 5
a emit -> frame 71 60
";

/// The 22 others have more to send than a round lets out: three segments each at first, and a host sends 64 frames in a round.
const CROWD: &str = "a fill 1 65535 -> sent 65535
a fill 2 65535 -> sent 65535
a fill 3 65535 -> sent 65535
a fill 4 65535 -> sent 65535
a fill 5 65535 -> sent 65535
a fill 6 65535 -> sent 65535
a fill 7 65535 -> sent 65535
a fill 8 65535 -> sent 65535
a fill 9 65535 -> sent 65535
a fill 10 65535 -> sent 65535
a fill 11 65535 -> sent 65535
a fill 12 65535 -> sent 65535
a fill 13 65535 -> sent 65535
a fill 14 65535 -> sent 65535
a fill 15 65535 -> sent 65535
a fill 16 65535 -> sent 65535
a fill 17 65535 -> sent 65535
a fill 18 65535 -> sent 65535
a fill 19 65535 -> sent 65535
a fill 20 65535 -> sent 65535
a fill 21 65535 -> sent 65535
a fill 22 65535 -> sent 65535
";

/// The lost segment has its turn among the first 23, whatever the others have.
const ITS_TURN: &str = "a round 24 -> octets 5
a round 24 -> octets 0
a round 24 -> octets 0
";

pub const TRANSCRIPTS: &[&[&str]] = &[
    &[UNSCALED, THREE, ROUND],
    &[
        UNSCALED,
        LISTENING,
        FIRST_EIGHT,
        NEXT_EIGHT,
        LAST_SEVEN,
        LAST_LOST,
        CROWD,
        ITS_TURN,
    ],
];
