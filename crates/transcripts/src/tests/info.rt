//! How connections stand. Behind `noscale` a window has 65,535 octets, less what waits to be read (RFC 9293 section 3.8.6). The congestion window is three segments of
//! 1,460 octets at first (RFC 5681 section 3.1), and the timeout a second at least (RFC 6298 section 2.4). No tick has come, so it is the moment 0.

use super::{ACCEPTED, OPENING, SLOW_START, UNSCALED};

/// Both ends of a connection that is open. Each measured its SYN, which was acknowledged at the moment at which it went out: a mean of 0 ms and a
/// variation of 0 (RFC 6298 section 2.2).
const OPENED: &str = "a info 1 -> state ESTABLISHED
 -> in_flight 0
 -> held 0
 -> unsent 0
 -> readable 0
 -> kept 0
 -> peer_window 65535
 -> own_window 65535
 -> smss 1460
 -> cwnd 4380
 -> ssthresh 65535
 -> srtt_8 0
 -> rttvar_4 0
 -> rto 1000
 -> expiries 0
 -> resent 0
 -> error none
 -> retransmission none
 -> probe none
 -> delayed_ack none
 -> override none
 -> ends none
b info 2 -> state ESTABLISHED
 -> in_flight 0
 -> held 0
 -> unsent 0
 -> readable 0
 -> kept 0
 -> peer_window 65535
 -> own_window 65535
 -> smss 1460
 -> cwnd 4380
 -> ssthresh 65535
 -> srtt_8 0
 -> rttvar_4 0
 -> rto 1000
 -> expiries 0
 -> resent 0
 -> error none
 -> retransmission none
 -> probe none
 -> delayed_ack none
 -> override none
 -> ends none
";

/// Octets are given to it.
const GIVEN: &str = "a send 1 hello -> sent 5
a info 1 -> state ESTABLISHED
 -> in_flight 0
 -> held 5
 -> unsent 5
 -> readable 0
 -> kept 0
 -> peer_window 65535
 -> own_window 65535
 -> smss 1460
 -> cwnd 4380
 -> ssthresh 65535
 -> srtt_8 0
 -> rttvar_4 0
 -> rto 1000
 -> expiries 0
 -> resent 0
 -> error none
 -> retransmission none
 -> probe none
 -> delayed_ack none
 -> override none
 -> ends none
";

/// They go out, and go out again after a second.
const SENT: &str = "a emit -> frame 5 60
a info 1 -> state ESTABLISHED
 -> in_flight 5
 -> held 5
 -> unsent 0
 -> readable 0
 -> kept 0
 -> peer_window 65535
 -> own_window 65535
 -> smss 1460
 -> cwnd 4380
 -> ssthresh 65535
 -> srtt_8 0
 -> rttvar_4 0
 -> rto 1000
 -> expiries 0
 -> resent 0
 -> error none
 -> retransmission 1000
 -> probe none
 -> delayed_ack none
 -> override none
 -> ends none
";

/// More octets wait for these, half a second at most (RFC 9293 section 3.8.6.2.1).
const WAITING: &str = "a send 1 world -> sent 5
a info 1 -> state ESTABLISHED
 -> in_flight 5
 -> held 10
 -> unsent 5
 -> readable 0
 -> kept 0
 -> peer_window 65535
 -> own_window 65535
 -> smss 1460
 -> cwnd 4380
 -> ssthresh 65535
 -> srtt_8 0
 -> rttvar_4 0
 -> rto 1000
 -> expiries 0
 -> resent 0
 -> error none
 -> retransmission 1000
 -> probe none
 -> delayed_ack none
 -> override 500
 -> ends none
";

/// The timeout doubles (RFC 6298 section 5.5). The congestion window is one segment and its threshold two (RFC 5681 section 3.1, equation 4), since
/// half of what is in flight is less. Then the octets go out again.
const LOST: &str = "a tick 1000 -> ok
a info 1 -> state ESTABLISHED
 -> in_flight 5
 -> held 5
 -> unsent 0
 -> readable 0
 -> kept 0
 -> peer_window 65535
 -> own_window 65535
 -> smss 1460
 -> cwnd 1460
 -> ssthresh 2920
 -> srtt_8 0
 -> rttvar_4 0
 -> rto 2000
 -> expiries 1
 -> resent 0
 -> error none
 -> retransmission 3000
 -> probe none
 -> delayed_ack none
 -> override none
 -> ends none
a emit -> frame 6 60
a info 1 -> state ESTABLISHED
 -> in_flight 5
 -> held 5
 -> unsent 0
 -> readable 0
 -> kept 0
 -> peer_window 65535
 -> own_window 65535
 -> smss 1460
 -> cwnd 1460
 -> ssthresh 2920
 -> srtt_8 0
 -> rttvar_4 0
 -> rto 2000
 -> expiries 1
 -> resent 1
 -> error none
 -> retransmission 3000
 -> probe none
 -> delayed_ack none
 -> override none
 -> ends none
";

/// They come, and the acknowledgement waits for 200 ms. The window that b told has room for so many less.
const ARRIVED: &str = "b deliver 6 0 -> taken
b info 2 -> state ESTABLISHED
 -> in_flight 0
 -> held 0
 -> unsent 0
 -> readable 5
 -> kept 0
 -> peer_window 65535
 -> own_window 65530
 -> smss 1460
 -> cwnd 4380
 -> ssthresh 65535
 -> srtt_8 0
 -> rttvar_4 0
 -> rto 1000
 -> expiries 0
 -> resent 0
 -> error none
 -> retransmission none
 -> probe none
 -> delayed_ack 200
 -> override none
 -> ends none
";

/// The congestion window grows by what is acknowledged (RFC 5681 section 3.1, equation 2). What went out twice is not measured, and leaves the
/// timeout doubled (RFC 6298 section 3).
const ACKNOWLEDGED: &str = "b tick 200 -> ok
b emit -> frame 7 60
a deliver 7 0 -> taken
a info 1 -> state ESTABLISHED
 -> in_flight 0
 -> held 0
 -> unsent 0
 -> readable 0
 -> kept 0
 -> peer_window 65530
 -> own_window 65535
 -> smss 1460
 -> cwnd 1465
 -> ssthresh 2920
 -> srtt_8 0
 -> rttvar_4 0
 -> rto 2000
 -> expiries 0
 -> resent 1
 -> error none
 -> retransmission none
 -> probe none
 -> delayed_ack none
 -> override none
 -> ends none
";

/// Of two segments the second comes first. It is kept until the other has come, and so the acknowledgement of neither waits.
const GAP: &str = "a fill 1 2920 -> sent 2920
a emit -> frame 5 1514
a emit -> frame 6 1514
b deliver 6 0 -> taken
b info 2 -> state ESTABLISHED
 -> in_flight 0
 -> held 0
 -> unsent 0
 -> readable 0
 -> kept 1460
 -> peer_window 65535
 -> own_window 65535
 -> smss 1460
 -> cwnd 4380
 -> ssthresh 65535
 -> srtt_8 0
 -> rttvar_4 0
 -> rto 1000
 -> expiries 0
 -> resent 0
 -> error none
 -> retransmission none
 -> probe none
 -> delayed_ack none
 -> override none
 -> ends none
b deliver 5 0 -> taken
b info 2 -> state ESTABLISHED
 -> in_flight 0
 -> held 0
 -> unsent 0
 -> readable 2920
 -> kept 0
 -> peer_window 65535
 -> own_window 62615
 -> smss 1460
 -> cwnd 4380
 -> ssthresh 65535
 -> srtt_8 0
 -> rttvar_4 0
 -> rto 1000
 -> expiries 0
 -> resent 0
 -> error none
 -> retransmission none
 -> probe none
 -> delayed_ack none
 -> override none
 -> ends none
";

/// b's caller doesn't read.
const FILLED: &str = "a fill 1 65535 -> sent 65535
";

/// The window is closed, and one octet more waits for it. The congestion window has grown by 1,460 octets for each of eight acknowledgements, and by
/// 1,295 for the last one. A second later a probe with that octet goes out, which finds no place; the next one goes out two seconds after that (RFC
/// 9293 section 3.8.6.1). A probe leaves the timeout as it is.
const CLOSED_WINDOW: &str = "b tick 200 -> ok
pass 0 -> a 0 b 1
b info 2 -> state ESTABLISHED
 -> in_flight 0
 -> held 0
 -> unsent 0
 -> readable 65535
 -> kept 0
 -> peer_window 65535
 -> own_window 0
 -> smss 1460
 -> cwnd 4380
 -> ssthresh 65535
 -> srtt_8 0
 -> rttvar_4 0
 -> rto 1000
 -> expiries 0
 -> resent 0
 -> error none
 -> retransmission none
 -> probe none
 -> delayed_ack none
 -> override none
 -> ends none
a send 1 x -> sent 1
a info 1 -> state ESTABLISHED
 -> in_flight 0
 -> held 1
 -> unsent 1
 -> readable 0
 -> kept 0
 -> peer_window 0
 -> own_window 65535
 -> smss 1460
 -> cwnd 17355
 -> ssthresh 65535
 -> srtt_8 0
 -> rttvar_4 0
 -> rto 1000
 -> expiries 0
 -> resent 0
 -> error none
 -> retransmission none
 -> probe 1000
 -> delayed_ack none
 -> override none
 -> ends none
a tick 1000 -> ok
a emit -> frame 59 60
a info 1 -> state ESTABLISHED
 -> in_flight 1
 -> held 1
 -> unsent 0
 -> readable 0
 -> kept 0
 -> peer_window 0
 -> own_window 65535
 -> smss 1460
 -> cwnd 17355
 -> ssthresh 65535
 -> srtt_8 0
 -> rttvar_4 0
 -> rto 1000
 -> expiries 1
 -> resent 1
 -> error none
 -> retransmission none
 -> probe 3000
 -> delayed_ack none
 -> override none
 -> ends none
";

/// b's caller closes with octets unread. The reset leaves nothing held or in flight, and no timer; its window is none that counts.
const RESET: &str = "b deliver 5 0 -> taken
b close 2 -> ok
b emit -> frame 6 60
a deliver 6 0 -> taken
a info 1 -> state CLOSED
 -> in_flight 0
 -> held 0
 -> unsent 0
 -> readable 0
 -> kept 0
 -> peer_window 65535
 -> own_window 65535
 -> smss 1460
 -> cwnd 4380
 -> ssthresh 65535
 -> srtt_8 0
 -> rttvar_4 0
 -> rto 1000
 -> expiries 0
 -> resent 0
 -> error E10 ECONNRESET
 -> retransmission none
 -> probe none
 -> delayed_ack none
 -> override none
 -> ends none
";

/// Both sides are closed. An end takes a number of the window, and no octet of the congestion window. TIME-WAIT lasts for twice the two minutes that
/// a segment may live (RFC 9293 section 3.4.2).
const ENDS: &str = "a shutdown 1 -> ok
pass 0 -> a 1 b 1
b shutdown 2 -> ok
pass 0 -> a 0 b 1
a info 1 -> state TIME-WAIT
 -> in_flight 0
 -> held 0
 -> unsent 0
 -> readable 0
 -> kept 0
 -> peer_window 65534
 -> own_window 65534
 -> smss 1460
 -> cwnd 4380
 -> ssthresh 65535
 -> srtt_8 0
 -> rttvar_4 0
 -> rto 1000
 -> expiries 0
 -> resent 0
 -> error none
 -> retransmission none
 -> probe none
 -> delayed_ack none
 -> override none
 -> ends 240000
";

/// A SYN that is in flight. Until the peer's SYN comes no window is known and none of ours counts, a segment has 536 octets (RFC 9293 section 3.7.1),
/// and four of them are the congestion window.
const OPENING_SLOWLY: &str = "b socket tcp -> id 1
b bind 1 80 -> ok
b listen 1 1 -> ok
a socket tcp -> id 1
a info 1 -> E6 ENOTCONN
a connect 1 80 4294967295 -> started
pass 7 -> a 1 b 1
a emit -> frame 2 60
a info 1 -> state SYN-SENT
 -> in_flight 1
 -> held 0
 -> unsent 0
 -> readable 0
 -> kept 0
 -> peer_window 0
 -> own_window 0
 -> smss 536
 -> cwnd 2144
 -> ssthresh 65535
 -> srtt_8 none
 -> rttvar_4 none
 -> rto 1000
 -> expiries 0
 -> resent 0
 -> error none
 -> retransmission 1000
 -> probe none
 -> delayed_ack none
 -> override none
 -> ends none
";

/// A first round trip of 800 ms: that is the mean, and half of it the variation. The timeout is the mean and four times the variation (RFC 6298
/// section 2.2).
const MEASURED: &str = "a tick 800 -> ok
b deliver 2 7 -> taken
b info 1 -> E17 EOPNOTSUPP
b emit -> frame 3 60
a deliver 3 0 -> taken
a info 1 -> state ESTABLISHED
 -> in_flight 0
 -> held 0
 -> unsent 0
 -> readable 0
 -> kept 0
 -> peer_window 65535
 -> own_window 65535
 -> smss 1460
 -> cwnd 4380
 -> ssthresh 65535
 -> srtt_8 6400
 -> rttvar_4 1600
 -> rto 2400
 -> expiries 0
 -> resent 0
 -> error none
 -> retransmission none
 -> probe none
 -> delayed_ack none
 -> override none
 -> ends none
";

/// One of 200 ms: the variation is three quarters of 400 and a quarter of 600, which is 450, and the mean seven eighths of 800 and an eighth of 200,
/// which is 725 (RFC 6298 section 2.3).
const MEASURED_AGAIN: &str = "a send 1 hello -> sent 5
a emit -> frame 4 60
a info 1 -> state ESTABLISHED
 -> in_flight 5
 -> held 5
 -> unsent 0
 -> readable 0
 -> kept 0
 -> peer_window 65535
 -> own_window 65535
 -> smss 1460
 -> cwnd 4380
 -> ssthresh 65535
 -> srtt_8 6400
 -> rttvar_4 1600
 -> rto 2400
 -> expiries 0
 -> resent 0
 -> error none
 -> retransmission 3200
 -> probe none
 -> delayed_ack none
 -> override none
 -> ends none
b deliver 4 0 -> taken
b tick 200 -> ok
b emit -> frame 5 60
a tick 1000 -> ok
a deliver 5 0 -> taken
a info 1 -> state ESTABLISHED
 -> in_flight 0
 -> held 0
 -> unsent 0
 -> readable 0
 -> kept 0
 -> peer_window 65530
 -> own_window 65535
 -> smss 1460
 -> cwnd 4385
 -> ssthresh 65535
 -> srtt_8 5800
 -> rttvar_4 1800
 -> rto 2525
 -> expiries 0
 -> resent 0
 -> error none
 -> retransmission none
 -> probe none
 -> delayed_ack none
 -> override none
 -> ends none
";

/// Connections at rest and in each kind of wait.
pub const TRANSCRIPTS: &[&[&str]] = &[
    &[UNSCALED, OPENING, ACCEPTED, OPENED, GIVEN, SENT, WAITING],
    &[
        UNSCALED,
        OPENING,
        ACCEPTED,
        GIVEN,
        SENT,
        LOST,
        ARRIVED,
        ACKNOWLEDGED,
    ],
    &[UNSCALED, OPENING, ACCEPTED, GAP],
    &[
        UNSCALED,
        OPENING,
        ACCEPTED,
        FILLED,
        SLOW_START,
        CLOSED_WINDOW,
    ],
    &[UNSCALED, OPENING, ACCEPTED, GIVEN, SENT, RESET],
    &[UNSCALED, OPENING, ACCEPTED, ENDS],
    &[UNSCALED, OPENING_SLOWLY, MEASURED, MEASURED_AGAIN],
];
