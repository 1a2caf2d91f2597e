//! Both windows close, both are probed, and both readers read: each probe is taken, or each refused. Nothing is lost on the way, so all that was written is
//! read, and both hosts fall silent (RFC 9293 sections 3.8.6.1 and 3.10.7.4).

use super::{ACCEPTED, OPENING, UNSCALED};

/// 65,535 octets go each way at once, as in `SLOW_START`: what one side sends acknowledges what the other sent. The acknowledgement of the last octets of b waits.
const EXCHANGED: &str = "a fill 1 65535 -> sent 65535
b fill 2 65535 -> sent 65535
pass 0 -> a 3 b 3
pass 0 -> a 4 b 4
pass 0 -> a 5 b 5
pass 0 -> a 6 b 6
pass 0 -> a 7 b 7
pass 0 -> a 8 b 8
pass 0 -> a 9 b 9
pass 0 -> a 2 b 2
pass 0 -> a 1 b 1
pass 0 -> a 0 b 0
";

/// It goes out after 200 ms. Nobody reads, so both windows are closed. As much is given to both sides again, and a second later both probe, by frames 96 and 97: two for the
/// MACs, three of the handshake, 45 of each side and that acknowledgement went before.
const PROBED: &str = "a tick 200 -> ok
b tick 200 -> ok
pass 0 -> a 1 b 0
a fill 1 65535 -> sent 65535
b fill 2 65535 -> sent 65535
pass 0 -> a 0 b 0
a tick 1200 -> ok
b tick 1200 -> ok
a emit -> frame 96 60
b emit -> frame 97 60
";

/// Both read all and tell their window before the probes come: each finds its place. Then neither knows that its own was taken, and each stands before the number
/// that the other waits for. The congestion windows have grown to 17,355 octets: by 1,460 with each of eight acknowledgements, and by 1,295. The octet of the probe adds one, and
/// each pass 1,460. So the other 65,534 go out in 11, 12, 13 and 8 segments and one of 1,294.
const TAKEN: &str = "a count 1 65535 -> octets 65535
b count 2 65535 -> octets 65535
a emit -> frame 98 60
b emit -> frame 99 60
b deliver 96 0 -> taken
a deliver 97 0 -> taken
b deliver 98 0 -> taken
a deliver 99 0 -> taken
pass 0 -> a 11 b 11
pass 0 -> a 12 b 12
pass 0 -> a 13 b 13
pass 0 -> a 8 b 8
pass 0 -> a 1 b 1
pass 0 -> a 0 b 0
a count 1 2000000 -> octets 65535
b count 2 2000000 -> octets 65535
pass 0 -> a 1 b 1
pass 0 -> a 0 b 0
";

/// Nothing waits any longer, at either side.
const SILENT: &str = "a tick 61200 -> ok
b tick 61200 -> ok
pass 0 -> a 0 b 0
a state 1 -> ESTABLISHED
b state 2 -> ESTABLISHED
";

/// Both read, and tell their window.
const READ: &str = "a count 1 2000000 -> octets 65535
b count 2 2000000 -> octets 65535
pass 0 -> a 1 b 1
";

/// More and more go out at once, until the congestion windows hold 44 segments.
const GROWN: &str = "a fill 1 65535 -> sent 65535
b fill 2 65535 -> sent 65535
pass 0 -> a 11 b 11
pass 0 -> a 12 b 12
pass 0 -> a 13 b 13
pass 0 -> a 8 b 8
pass 0 -> a 1 b 1
a count 1 2000000 -> octets 65535
b count 2 2000000 -> octets 65535
pass 0 -> a 1 b 1
a fill 1 65535 -> sent 65535
b fill 2 65535 -> sent 65535
pass 0 -> a 16 b 16
pass 0 -> a 17 b 17
pass 0 -> a 11 b 11
pass 0 -> a 1 b 1
a count 1 2000000 -> octets 65535
b count 2 2000000 -> octets 65535
pass 0 -> a 1 b 1
a fill 1 65535 -> sent 65535
b fill 2 65535 -> sent 65535
pass 0 -> a 20 b 20
pass 0 -> a 21 b 21
pass 0 -> a 3 b 3
pass 0 -> a 1 b 1
a count 1 2000000 -> octets 65535
b count 2 2000000 -> octets 65535
pass 0 -> a 1 b 1
a fill 1 65535 -> sent 65535
b fill 2 65535 -> sent 65535
pass 0 -> a 24 b 24
pass 0 -> a 20 b 20
pass 0 -> a 1 b 1
a count 1 2000000 -> octets 65535
b count 2 2000000 -> octets 65535
pass 0 -> a 1 b 1
a fill 1 65535 -> sent 65535
b fill 2 65535 -> sent 65535
pass 0 -> a 27 b 27
pass 0 -> a 17 b 17
pass 0 -> a 1 b 1
a count 1 2000000 -> octets 65535
b count 2 2000000 -> octets 65535
pass 0 -> a 1 b 1
a fill 1 65535 -> sent 65535
b fill 2 65535 -> sent 65535
pass 0 -> a 30 b 30
pass 0 -> a 14 b 14
pass 0 -> a 1 b 1
a count 1 2000000 -> octets 65535
b count 2 2000000 -> octets 65535
pass 0 -> a 1 b 1
a fill 1 65535 -> sent 65535
b fill 2 65535 -> sent 65535
pass 0 -> a 33 b 33
pass 0 -> a 11 b 11
pass 0 -> a 1 b 1
a count 1 2000000 -> octets 65535
b count 2 2000000 -> octets 65535
pass 0 -> a 1 b 1
a fill 1 65535 -> sent 65535
b fill 2 65535 -> sent 65535
pass 0 -> a 36 b 36
pass 0 -> a 8 b 8
pass 0 -> a 1 b 1
a count 1 2000000 -> octets 65535
b count 2 2000000 -> octets 65535
pass 0 -> a 1 b 1
a fill 1 65535 -> sent 65535
b fill 2 65535 -> sent 65535
pass 0 -> a 38 b 38
pass 0 -> a 6 b 6
pass 0 -> a 1 b 1
a count 1 2000000 -> octets 65535
b count 2 2000000 -> octets 65535
pass 0 -> a 1 b 1
a fill 1 65535 -> sent 65535
b fill 2 65535 -> sent 65535
pass 0 -> a 41 b 41
pass 0 -> a 3 b 3
pass 0 -> a 1 b 1
a count 1 2000000 -> octets 65535
b count 2 2000000 -> octets 65535
pass 0 -> a 1 b 1
a fill 1 65535 -> sent 65535
b fill 2 65535 -> sent 65535
pass 0 -> a 44 b 44
pass 0 -> a 1 b 1
a tick 200 -> ok
b tick 200 -> ok
pass 0 -> a 1 b 0
";

/// Both windows are closed. The probes of a second later find no place, and draw an acknowledgement. Then both read: b hears of it first, and 44 segments go out behind its probe,
/// then those of a. 1,294 octets more wait for half a second, and with them both windows are full, but for the one octet before them. Their acknowledgement stands right at the end of
/// the window, where b hears it and says nothing. The probed octets go out again after the timeout, each with those behind it, and all is there.
const REFUSED: &str = "a fill 1 65535 -> sent 65535
b fill 2 65535 -> sent 65535
pass 0 -> a 0 b 0
a tick 1200 -> ok
b tick 1200 -> ok
pass 0 -> a 1 b 1
pass 0 -> a 1 b 0
pass 0 -> a 0 b 0
a count 1 2000000 -> octets 65535
b count 2 2000000 -> octets 65535
pass 0 -> a 1 b 44
pass 0 -> a 44 b 1
pass 0 -> a 0 b 0
a tick 1700 -> ok
b tick 1700 -> ok
pass 0 -> a 1 b 1
pass 0 -> a 1 b 0
pass 0 -> a 0 b 0
a tick 2200 -> ok
b tick 2200 -> ok
pass 0 -> a 1 b 1
pass 0 -> a 1 b 0
pass 0 -> a 0 b 0
a count 1 2000000 -> octets 65535
b count 2 2000000 -> octets 65535
pass 0 -> a 1 b 1
pass 0 -> a 0 b 0
";

pub const TRANSCRIPTS: &[&[&str]] = &[
    &[
        UNSCALED, OPENING, ACCEPTED, EXCHANGED, PROBED, TAKEN, SILENT,
    ],
    &[
        UNSCALED, OPENING, ACCEPTED, EXCHANGED, READ, GROWN, REFUSED, SILENT,
    ],
];
