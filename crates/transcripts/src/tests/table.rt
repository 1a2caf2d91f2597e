//! The table of sockets and its 64 places, and the ports that it gives.

use super::UNSCALED;

/// a's table has all the sockets that find room.
const ALL_SOCKETS: &str = "a socket udp -> id 1
a socket udp -> id 2
a socket udp -> id 3
a socket udp -> id 4
a socket udp -> id 5
a socket udp -> id 6
a socket udp -> id 7
a socket udp -> id 8
a socket udp -> id 9
a socket udp -> id 10
a socket udp -> id 11
a socket udp -> id 12
a socket udp -> id 13
a socket udp -> id 14
a socket udp -> id 15
a socket udp -> id 16
a socket udp -> id 17
a socket udp -> id 18
a socket udp -> id 19
a socket udp -> id 20
a socket udp -> id 21
a socket udp -> id 22
a socket udp -> id 23
a socket udp -> id 24
a socket udp -> id 25
a socket udp -> id 26
a socket udp -> id 27
a socket udp -> id 28
a socket udp -> id 29
a socket udp -> id 30
a socket udp -> id 31
a socket udp -> id 32
a socket udp -> id 33
a socket udp -> id 34
a socket udp -> id 35
a socket udp -> id 36
a socket udp -> id 37
a socket udp -> id 38
a socket udp -> id 39
a socket udp -> id 40
a socket udp -> id 41
a socket udp -> id 42
a socket udp -> id 43
a socket udp -> id 44
a socket udp -> id 45
a socket udp -> id 46
a socket udp -> id 47
a socket udp -> id 48
a socket udp -> id 49
a socket udp -> id 50
a socket udp -> id 51
a socket udp -> id 52
a socket udp -> id 53
a socket udp -> id 54
a socket udp -> id 55
a socket udp -> id 56
a socket udp -> id 57
a socket udp -> id 58
a socket udp -> id 59
a socket udp -> id 60
a socket udp -> id 61
a socket udp -> id 62
a socket udp -> id 63
a socket udp -> id 64
";

/// Another one finds none, of either kind. An id is given once.
const ONE_GIVES_WAY: &str = "a socket udp -> E15 EMFILE
a socket tcp -> E15 EMFILE
a close 1 -> ok
a socket udp -> id 65
a socket udp -> E15 EMFILE
a state 1 -> E1 EBADF
a close 65 -> ok
a close 30 -> ok
a socket tcp -> id 66
a socket udp -> id 67
a state 30 -> E1 EBADF
a state 64 -> DATAGRAM
a state 66 -> CLOSED
a socket tcp -> E15 EMFILE
";

/// b's table has eight places left.
const FIFTY_SIX_SOCKETS: &str = "b socket tcp -> id 1
b socket tcp -> id 2
b socket tcp -> id 3
b socket tcp -> id 4
b socket tcp -> id 5
b socket tcp -> id 6
b socket tcp -> id 7
b socket tcp -> id 8
b socket tcp -> id 9
b socket tcp -> id 10
b socket tcp -> id 11
b socket tcp -> id 12
b socket tcp -> id 13
b socket tcp -> id 14
b socket tcp -> id 15
b socket tcp -> id 16
b socket tcp -> id 17
b socket tcp -> id 18
b socket tcp -> id 19
b socket tcp -> id 20
b socket tcp -> id 21
b socket tcp -> id 22
b socket tcp -> id 23
b socket tcp -> id 24
b socket tcp -> id 25
b socket tcp -> id 26
b socket tcp -> id 27
b socket tcp -> id 28
b socket tcp -> id 29
b socket tcp -> id 30
b socket tcp -> id 31
b socket tcp -> id 32
b socket tcp -> id 33
b socket tcp -> id 34
b socket tcp -> id 35
b socket tcp -> id 36
b socket tcp -> id 37
b socket tcp -> id 38
b socket tcp -> id 39
b socket tcp -> id 40
b socket tcp -> id 41
b socket tcp -> id 42
b socket tcp -> id 43
b socket tcp -> id 44
b socket tcp -> id 45
b socket tcp -> id 46
b socket tcp -> id 47
b socket tcp -> id 48
b socket tcp -> id 49
b socket tcp -> id 50
b socket tcp -> id 51
b socket tcp -> id 52
b socket tcp -> id 53
b socket tcp -> id 54
b socket tcp -> id 55
b socket tcp -> id 56
";

/// A connection has its place before it is accepted, and keeps it after its socket was given back.
const LAST_PLACE: &str = "b socket tcp -> id 57
b bind 57 80 -> ok
b listen 57 1 -> ok
b socket tcp -> id 58
b socket tcp -> id 59
b socket tcp -> id 60
b socket tcp -> id 61
b socket tcp -> id 62
b socket tcp -> id 63
a socket tcp -> id 1
a connect 1 80 5 -> started
pass 7 -> a 1 b 1
pass 7 -> a 1 b 1
b socket tcp -> E15 EMFILE
pass 7 -> a 1 b 0
b accept 57 -> id 64 10.0.0.1 49152
b socket tcp -> E15 EMFILE
b close 64 -> ok
b socket tcp -> E15 EMFILE
pass 0 -> a 0 b 1
pass 0 -> a 1 b 0
b tick 59999 -> ok
b socket tcp -> E15 EMFILE
b tick 60000 -> ok
b socket tcp -> id 65
";

/// b's table is full, and its listener has a place in its backlog still. What is dropped draws no id, and a SYN that comes again later finds a place.
const NO_PLACE: &str = "b socket tcp -> id 57
b bind 57 80 -> ok
b listen 57 8 -> ok
b socket tcp -> id 58
b socket tcp -> id 59
b socket tcp -> id 60
b socket tcp -> id 61
b socket tcp -> id 62
b socket tcp -> id 63
b socket tcp -> id 64
a socket tcp -> id 1
a connect 1 80 5 -> started
pass 7 -> a 1 b 1
a emit -> frame 2 60
b deliver 2 7 -> drop F9
b emit -> none
a tick 1000 -> ok
pass 7 -> a 1 b 0
b close 64 -> ok
b deliver 2 7 -> taken
b emit -> frame 4 60
a deliver 4 0 -> taken
a emit -> frame 5 60
b deliver 5 0 -> taken
b accept 57 -> id 65 10.0.0.1 49152
";

/// Sockets of both kinds share the count of the ports that they are given, and each kind has its ports for itself.
const PORTS_IN_TURN: &str = "a socket tcp -> id 1
a socket udp -> id 2
a bind 1 0 -> ok
a bind 2 0 -> ok
a bind 1 0 -> E2 EINVAL
a bind 2 0 -> E2 EINVAL
a socket tcp -> id 3
a bind 3 49152 -> E3 EADDRINUSE
a bind 3 49153 -> ok
a socket udp -> id 4
a bind 4 49153 -> E3 EADDRINUSE
a bind 4 49152 -> ok
a state 1 -> CLOSED
a state 2 -> DATAGRAM
";

/// A port that a socket of the kind has is passed over, and a port that was asked for leaves the count as it is.
const TAKEN_PORTS: &str = "a socket tcp -> id 5
a bind 5 49154 -> ok
a socket udp -> id 6
a bind 6 49155 -> ok
a socket tcp -> id 7
a bind 7 0 -> ok
a socket tcp -> id 8
a bind 8 49155 -> E3 EADDRINUSE
a socket udp -> id 9
a bind 9 0 -> ok
a socket udp -> id 10
a bind 10 49154 -> ok
a bind 10 49156 -> E2 EINVAL
a socket udp -> id 11
a bind 11 49156 -> E3 EADDRINUSE
a close 7 -> ok
a socket tcp -> id 12
a bind 12 0 -> ok
a socket tcp -> id 13
a bind 13 49155 -> ok
a socket tcp -> id 14
a bind 14 49157 -> E3 EADDRINUSE
";

/// What a bound socket sends comes from the port that it was given: datagrams, and a connection.
const SENT_FROM: &str = "b socket udp -> id 1
b bind 1 7 -> ok
b socket tcp -> id 2
b bind 2 80 -> ok
b listen 2 2 -> ok
a socket udp -> id 1
a bind 1 0 -> ok
a socket tcp -> id 2
a bind 2 0 -> ok
a sendto 1 7 hi -> sent 2
a connect 2 80 100 -> started
a socket tcp -> id 3
a connect 3 80 200 -> started
pass 7 -> a 1 b 1
pass 7 -> a 3 b 2
pass 7 -> a 2 b 0
b recvfrom 1 9 -> octets hi from 10.0.0.1 49152
b accept 2 -> id 3 10.0.0.1 49153
b accept 2 -> id 4 10.0.0.1 49154
";

/// A listener takes connections at the port that it was given.
const CALLED_AT: &str = "b socket tcp -> id 1
b bind 1 0 -> ok
b listen 1 1 -> ok
a socket tcp -> id 1
a connect 1 49152 5 -> started
pass 7 -> a 1 b 1
pass 7 -> a 1 b 1
pass 7 -> a 1 b 0
b accept 1 -> id 2 10.0.0.1 49152
";

/// The port of a connection without a socket can't be bound, and the count passes it over.
const LEFT_PORT: &str = "b socket tcp -> id 1
b bind 1 80 -> ok
b listen 1 1 -> ok
a socket tcp -> id 1
a bind 1 49152 -> ok
a connect 1 80 5 -> started
pass 7 -> a 1 b 1
pass 7 -> a 1 b 1
pass 7 -> a 1 b 0
a close 1 -> ok
a socket tcp -> id 2
a bind 2 49152 -> E3 EADDRINUSE
a bind 2 0 -> ok
a socket tcp -> id 3
a bind 3 49153 -> E3 EADDRINUSE
a bind 3 49154 -> ok
";

/// A socket more than the table has places; connections in a table that is full; and the ports that `bind` gives.
pub const TRANSCRIPTS: &[&[&str]] = &[
    &[UNSCALED, ALL_SOCKETS, ONE_GIVES_WAY],
    &[UNSCALED, FIFTY_SIX_SOCKETS, LAST_PLACE],
    &[UNSCALED, FIFTY_SIX_SOCKETS, NO_PLACE],
    &[PORTS_IN_TURN, TAKEN_PORTS],
    &[SENT_FROM],
    &[CALLED_AT],
    &[LEFT_PORT],
];
