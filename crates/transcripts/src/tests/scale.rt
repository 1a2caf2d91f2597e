//! Windows that are scaled, and buffers of 1,048,576 octets (RFC 7323 section 2).

use super::timers::SILENT_READER;
use super::{ACCEPTED, OPENING, UNSCALED};

/// What the opening of a connection has before its SYN.
const SYN_IS_DUE: &str = "b socket tcp -> id 1
b bind 1 80 -> ok
b listen 1 1 -> ok
a socket tcp -> id 1
a connect 1 80 4294967295 -> started
pass 7 -> a 1 b 1
";

/// SYN and SYN-ACK have four octets more than without the option, the last of which pad the header.
const IN_STEPS: &str = "a emit -> frame 2 62
b deliver 2 7 -> taken
b emit -> frame 3 62
a deliver 3 0 -> taken
a emit -> frame 4 60
b deliver 4 0 -> taken
b emit -> none
";

const FILLED: &str = "a fill 1 1048577 -> sent 1048576
a fill 1 1 -> E8 EAGAIN
";

const FILLED_UNSCALED: &str = "a fill 1 1048577 -> sent 65535
a fill 1 1 -> E8 EAGAIN
";

/// All of a buffer by the congestion window, which grows by 1,460 octets with each pass. 718 segments of 1,460 are 296 octets less than it has.
const GROWN: &str = "a fill 1 1048576 -> sent 1048576
pass 0 -> a 3 b 1
pass 0 -> a 4 b 1
pass 0 -> a 5 b 1
pass 0 -> a 6 b 1
pass 0 -> a 7 b 1
pass 0 -> a 8 b 1
pass 0 -> a 9 b 1
pass 0 -> a 10 b 1
pass 0 -> a 11 b 1
pass 0 -> a 12 b 1
pass 0 -> a 13 b 1
pass 0 -> a 14 b 1
pass 0 -> a 15 b 1
pass 0 -> a 16 b 1
pass 0 -> a 17 b 1
pass 0 -> a 18 b 1
pass 0 -> a 19 b 1
pass 0 -> a 20 b 1
pass 0 -> a 21 b 1
pass 0 -> a 22 b 1
pass 0 -> a 23 b 1
pass 0 -> a 24 b 1
pass 0 -> a 25 b 1
pass 0 -> a 26 b 1
pass 0 -> a 27 b 1
pass 0 -> a 28 b 1
pass 0 -> a 29 b 1
pass 0 -> a 30 b 1
pass 0 -> a 31 b 1
pass 0 -> a 32 b 1
pass 0 -> a 33 b 1
pass 0 -> a 34 b 1
pass 0 -> a 35 b 1
pass 0 -> a 36 b 1
pass 0 -> a 37 b 1
pass 0 -> a 18 b 1
";

/// The last 296 octets wait for the override, and b's window of 288 takes no more of them: it is told in units of 32. What b tells next is closed, though 8
/// octets are still taken. The probe brings one of these.
const ROUNDED: &str = "pass 0 -> a 0 b 0
a tick 500 -> ok
a emit -> frame 759 342
b deliver 759 0 -> taken
b emit -> none
b tick 200 -> ok
b emit -> frame 760 60
a deliver 760 0 -> taken
a tick 1499 -> ok
a emit -> none
a tick 1500 -> ok
a emit -> frame 761 60
b deliver 761 0 -> taken
b count 2 2000000 -> octets 1048569
";

/// What is outstanding passes a's window by less than a unit, for what b told last was rounded down. a's acknowledgement of `hello` has the number behind all that a sent
/// all the same: less than that would be old to b, which would send `hello` again.
const WITHIN_A_UNIT: &str = "b count 2 20000 -> octets 20000
pass 0 -> a 0 b 1
a fill 1 20000 -> sent 20000
a emit -> frame 760 1514
a emit -> frame 761 1514
a emit -> frame 762 1514
a emit -> frame 763 1514
a emit -> frame 764 1514
a emit -> frame 765 1514
a emit -> frame 766 1514
a emit -> frame 767 1514
a emit -> frame 768 1514
a emit -> frame 769 1514
a emit -> frame 770 1514
a emit -> frame 771 1514
a emit -> frame 772 1514
a emit -> none
a tick 500 -> ok
a emit -> frame 773 1362
b deliver 760 0 -> taken
b deliver 761 0 -> taken
b emit -> frame 774 60
a deliver 774 0 -> taken
b send 2 hello -> sent 5
b emit -> frame 775 60
a deliver 775 0 -> taken
b deliver 762 0 -> taken
b deliver 763 0 -> taken
b deliver 764 0 -> taken
b deliver 765 0 -> taken
b deliver 766 0 -> taken
b deliver 767 0 -> taken
b deliver 768 0 -> taken
b deliver 769 0 -> taken
b deliver 770 0 -> taken
b deliver 771 0 -> taken
b deliver 772 0 -> taken
b deliver 773 0 -> taken
a tick 700 -> ok
a emit -> frame 776 60
b deliver 776 0 -> taken
b emit -> frame 777 60
b tick 1000 -> ok
b emit -> none
";

/// The first of three segments is lost. What b answers first tells more room than its SYN-ACK could, so it is no duplicate acknowledgement (RFC 5681 section
/// 2): the fourth one is the third duplicate.
const DUPLICATES: &str = "a fill 1 5840 -> sent 5840
a emit -> frame 5 1514
a emit -> frame 6 1514
a emit -> frame 7 1514
b deliver 6 0 -> taken
b emit -> frame 8 60
b deliver 7 0 -> taken
b emit -> frame 9 60
b deliver 7 0 -> taken
b emit -> frame 10 60
a deliver 8 0 -> taken
a deliver 9 0 -> taken
a deliver 10 0 -> taken
a emit -> none
b deliver 7 0 -> taken
b emit -> frame 11 60
a deliver 11 0 -> taken
a emit -> frame 12 1514
a emit -> frame 13 1514
a emit -> none
";

/// Each asks for a connection between the same two ports. By the first two frames each learns where the other is.
const BOTH_CALL: &str = "a socket tcp -> id 1
a bind 1 4000 -> ok
a connect 1 5000 100 -> started
b socket tcp -> id 1
b bind 1 5000 -> ok
b connect 1 4000 200 -> started
a emit -> frame 0 60
b deliver 0 0 -> taken
b emit -> frame 1 60
a deliver 1 0 -> taken
";

/// SYNs that cross, and their answers, have the option, and the acknowledgements have none.
const CROSSED: &str = "a emit -> frame 2 62
b emit -> frame 3 62
b deliver 2 0 -> taken
a deliver 3 0 -> taken
a emit -> frame 4 62
b emit -> frame 5 62
b deliver 4 0 -> taken
a deliver 5 0 -> taken
a emit -> frame 6 60
b emit -> frame 7 60
b deliver 6 0 -> taken
a deliver 7 0 -> taken
a emit -> none
b emit -> none
a fill 1 1048577 -> sent 1048576
b fill 1 1048577 -> sent 1048576
";

/// The opening; buffers with and without the option; a window that is rounded; duplicates; both ends at once; and a reader that is silent.
pub const TRANSCRIPTS: &[&[&str]] = &[
    &[SYN_IS_DUE, IN_STEPS, ACCEPTED],
    &[OPENING, ACCEPTED, FILLED],
    &[UNSCALED, OPENING, ACCEPTED, FILLED_UNSCALED],
    &[
        UNSCALED,
        "limit 16 -> ok\n",
        OPENING,
        ACCEPTED,
        FILLED_UNSCALED,
    ],
    &[OPENING, ACCEPTED, GROWN, ROUNDED],
    &[OPENING, ACCEPTED, GROWN, WITHIN_A_UNIT],
    &[OPENING, ACCEPTED, DUPLICATES],
    &[BOTH_CALL, CROSSED],
    &[UNSCALED, OPENING, ACCEPTED, SILENT_READER],
];
