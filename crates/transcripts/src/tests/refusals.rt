//! Every refusal of a call that a script can bring about, at each call that may answer it.

use super::{ACCEPTED, OPENING, UNSCALED};

/// The id 1 names no socket of a. No other fault of a call is reported before that.
const NO_SOCKET: &str = "a bind 1 5 -> E1 EBADF
a bind 1 0 -> E1 EBADF
a listen 1 1 -> E1 EBADF
a listen 1 9 -> E1 EBADF
a accept 1 -> E1 EBADF
a connect 1 80 5 -> E1 EBADF
a connect 1 0 5 -> E1 EBADF
a send 1 x -> E1 EBADF
a fill 1 1 -> E1 EBADF
a recv 1 1 -> E1 EBADF
a recv 1 0 -> E1 EBADF
a count 1 1 -> E1 EBADF
a count 1 0 -> E1 EBADF
a sendto 1 80 x -> E1 EBADF
a fillto 1 0 65508 -> E1 EBADF
a recvfrom 1 1 -> E1 EBADF
a recvfrom 1 0 -> E1 EBADF
a countfrom 1 0 -> E1 EBADF
a shutdown 1 -> E1 EBADF
a nodelay 1 on -> E1 EBADF
a nodelay 1 off -> E1 EBADF
a close 1 -> E1 EBADF
a abort 1 -> E1 EBADF
a state 1 -> E1 EBADF
a info 1 -> E1 EBADF
";

const GIVEN_BACK: &str = "a socket tcp -> id 1
a close 1 -> ok
";

/// Nor does an id that was never given, and a connection that nobody has accepted has none.
const OTHER_IDS: &str = "a state 0 -> E1 EBADF
a state 2 -> E1 EBADF
a close 18446744073709551615 -> E1 EBADF
b state 2 -> E1 EBADF
b send 2 x -> E1 EBADF
b recv 2 1 -> E1 EBADF
b shutdown 2 -> E1 EBADF
b nodelay 2 on -> E1 EBADF
b close 2 -> E1 EBADF
b abort 2 -> E1 EBADF
b info 2 -> E1 EBADF
b accept 1 -> id 2 10.0.0.1 49152
b state 2 -> ESTABLISHED
";

/// A socket that was made, and then one that is bound.
const IDLE: &str = "a socket tcp -> id 1
a listen 1 0 -> E2 EINVAL
a listen 1 9 -> E2 EINVAL
a listen 1 18446744073709551615 -> E2 EINVAL
a listen 1 1 -> E18 EDESTADDRREQ
a listen 1 8 -> E18 EDESTADDRREQ
a accept 1 -> E2 EINVAL
a connect 1 0 5 -> E4 EADDRNOTAVAIL
a send 1 x -> E6 ENOTCONN
a fill 1 0 -> E6 ENOTCONN
a recv 1 0 -> E2 EINVAL
a recv 1 1 -> E6 ENOTCONN
a count 1 0 -> E2 EINVAL
a count 1 1 -> E6 ENOTCONN
a shutdown 1 -> E6 ENOTCONN
a nodelay 1 on -> E6 ENOTCONN
a info 1 -> E6 ENOTCONN
a bind 1 5 -> ok
a bind 1 0 -> E2 EINVAL
a bind 1 6 -> E2 EINVAL
a listen 1 0 -> E2 EINVAL
a listen 1 9 -> E2 EINVAL
a accept 1 -> E2 EINVAL
a connect 1 0 5 -> E4 EADDRNOTAVAIL
a send 1 x -> E6 ENOTCONN
a recv 1 1 -> E6 ENOTCONN
a shutdown 1 -> E6 ENOTCONN
a nodelay 1 off -> E6 ENOTCONN
a info 1 -> E6 ENOTCONN
a sendto 1 80 x -> E17 EOPNOTSUPP
a fillto 1 0 65508 -> E17 EOPNOTSUPP
a recvfrom 1 1 -> E17 EOPNOTSUPP
a countfrom 1 0 -> E17 EOPNOTSUPP
a state 1 -> CLOSED
";

const LISTENING: &str = "a socket tcp -> id 1
a bind 1 5 -> ok
a listen 1 1 -> ok
a bind 1 0 -> E2 EINVAL
a bind 1 6 -> E2 EINVAL
a listen 1 1 -> E2 EINVAL
a listen 1 8 -> E2 EINVAL
a listen 1 9 -> E2 EINVAL
a accept 1 -> E8 EAGAIN
a connect 1 80 5 -> E17 EOPNOTSUPP
a connect 1 0 5 -> E17 EOPNOTSUPP
a send 1 x -> E17 EOPNOTSUPP
a fill 1 0 -> E17 EOPNOTSUPP
a recv 1 0 -> E17 EOPNOTSUPP
a recv 1 1 -> E17 EOPNOTSUPP
a count 1 0 -> E17 EOPNOTSUPP
a count 1 1 -> E17 EOPNOTSUPP
a shutdown 1 -> E17 EOPNOTSUPP
a nodelay 1 on -> E17 EOPNOTSUPP
a info 1 -> E17 EOPNOTSUPP
a sendto 1 80 x -> E17 EOPNOTSUPP
a fillto 1 0 65508 -> E17 EOPNOTSUPP
a recvfrom 1 1 -> E17 EOPNOTSUPP
a countfrom 1 0 -> E17 EOPNOTSUPP
a state 1 -> LISTEN
";

const CONNECTING: &str = "a socket tcp -> id 1
a connect 1 80 9 -> started
a bind 1 0 -> E2 EINVAL
a bind 1 6 -> E2 EINVAL
a listen 1 1 -> E2 EINVAL
a accept 1 -> E2 EINVAL
a connect 1 80 9 -> E7 EALREADY
a connect 1 0 9 -> E7 EALREADY
a send 1 x -> E8 EAGAIN
a fill 1 0 -> E8 EAGAIN
a recv 1 0 -> E2 EINVAL
a recv 1 1 -> E8 EAGAIN
a count 1 0 -> E2 EINVAL
a count 1 1 -> E8 EAGAIN
a shutdown 1 -> E6 ENOTCONN
a nodelay 1 on -> ok
a nodelay 1 off -> ok
a sendto 1 80 x -> E17 EOPNOTSUPP
a fillto 1 0 65508 -> E17 EOPNOTSUPP
a recvfrom 1 1 -> E17 EOPNOTSUPP
a countfrom 1 0 -> E17 EOPNOTSUPP
a state 1 -> SYN-SENT
";

/// A UDP socket that was made, one that is bound, and one that has no room.
const DATAGRAMS: &str = "a socket udp -> id 1
a listen 1 0 -> E17 EOPNOTSUPP
a accept 1 -> E17 EOPNOTSUPP
a connect 1 0 5 -> E17 EOPNOTSUPP
a send 1 x -> E18 EDESTADDRREQ
a fill 1 0 -> E18 EDESTADDRREQ
a recv 1 0 -> E17 EOPNOTSUPP
a recv 1 1 -> E17 EOPNOTSUPP
a count 1 0 -> E17 EOPNOTSUPP
a shutdown 1 -> E17 EOPNOTSUPP
a nodelay 1 on -> E17 EOPNOTSUPP
a info 1 -> E17 EOPNOTSUPP
a recvfrom 1 0 -> E2 EINVAL
a recvfrom 1 1 -> E8 EAGAIN
a countfrom 1 0 -> E2 EINVAL
a countfrom 1 1 -> E8 EAGAIN
a fillto 1 0 65508 -> E13 EMSGSIZE
a fillto 1 0 65507 -> E4 EADDRNOTAVAIL
a fillto 1 80 65508 -> E13 EMSGSIZE
a state 1 -> DATAGRAM
a bind 1 5 -> ok
a bind 1 0 -> E2 EINVAL
a bind 1 6 -> E2 EINVAL
a listen 1 1 -> E17 EOPNOTSUPP
a connect 1 80 5 -> E17 EOPNOTSUPP
a send 1 x -> E18 EDESTADDRREQ
a fillto 1 80 65507 -> sent 65507
a fillto 1 80 12 -> sent 12
a fillto 1 80 0 -> E8 EAGAIN
a sendto 1 80 x -> E8 EAGAIN
a fillto 1 0 0 -> E4 EADDRNOTAVAIL
a fillto 1 80 65508 -> E13 EMSGSIZE
a state 1 -> DATAGRAM
a close 1 -> ok
a state 1 -> E1 EBADF
";

/// Both ends of a connection, and then one whose caller has no room and closes its side.
const CONNECTED: &str = "a bind 1 6 -> E2 EINVAL
a listen 1 1 -> E2 EINVAL
a accept 1 -> E2 EINVAL
a connect 1 80 9 -> E5 EISCONN
a connect 1 0 9 -> E5 EISCONN
a recv 1 0 -> E2 EINVAL
a recv 1 1 -> E8 EAGAIN
a count 1 0 -> E2 EINVAL
a count 1 1 -> E8 EAGAIN
a fill 1 0 -> sent 0
b bind 2 6 -> E2 EINVAL
b listen 2 1 -> E2 EINVAL
b accept 2 -> E2 EINVAL
b connect 2 80 9 -> E5 EISCONN
b recv 2 1 -> E8 EAGAIN
a fill 1 70000 -> sent 65535
a fill 1 1 -> E8 EAGAIN
a send 1 x -> E8 EAGAIN
a fill 1 0 -> sent 0
a shutdown 1 -> ok
a send 1 x -> E12 EPIPE
a fill 1 1 -> E12 EPIPE
a fill 1 0 -> E12 EPIPE
a connect 1 80 9 -> E5 EISCONN
a recv 1 1 -> E8 EAGAIN
a shutdown 1 -> ok
a nodelay 1 on -> ok
a sendto 1 80 x -> E17 EOPNOTSUPP
a fillto 1 0 65508 -> E17 EOPNOTSUPP
a recvfrom 1 1 -> E17 EOPNOTSUPP
a countfrom 1 0 -> E17 EOPNOTSUPP
a state 1 -> FIN-WAIT-1
";

/// Both sides closed, and b's connection has ended.
const ENDED: &str = "a shutdown 1 -> ok
pass 0 -> a 1 b 1
b shutdown 2 -> ok
pass 0 -> a 0 b 1
pass 0 -> a 1 b 0
b state 2 -> CLOSED
b bind 2 6 -> E2 EINVAL
b listen 2 1 -> E2 EINVAL
b accept 2 -> E2 EINVAL
b connect 2 80 9 -> E5 EISCONN
b send 2 x -> E12 EPIPE
b fill 2 0 -> E12 EPIPE
b recv 2 0 -> E2 EINVAL
b recv 2 1 -> end
b count 2 0 -> E2 EINVAL
b count 2 1 -> end
b shutdown 2 -> ok
b nodelay 2 on -> ok
b close 2 -> ok
b close 2 -> E1 EBADF
";

/// Nobody listens at the port.
const TOLD_REFUSED: &str = "a socket tcp -> id 1
a connect 1 81 5 -> started
pass 0 -> a 1 b 1
pass 0 -> a 1 b 1
a state 1 -> CLOSED
a bind 1 5 -> E2 EINVAL
a listen 1 1 -> E2 EINVAL
a accept 1 -> E2 EINVAL
a connect 1 80 5 -> E9 ECONNREFUSED
a connect 1 0 5 -> E9 ECONNREFUSED
a send 1 x -> E9 ECONNREFUSED
a fill 1 0 -> E9 ECONNREFUSED
a recv 1 0 -> E2 EINVAL
a recv 1 1 -> E9 ECONNREFUSED
a count 1 0 -> E2 EINVAL
a count 1 1 -> E9 ECONNREFUSED
a shutdown 1 -> E9 ECONNREFUSED
a close 1 -> ok
a close 1 -> E1 EBADF
";

/// b's caller gives its socket back with octets unread.
const TOLD_RESET: &str = "a send 1 hello -> sent 5
pass 0 -> a 1 b 0
b close 2 -> ok
pass 0 -> a 0 b 1
a state 1 -> CLOSED
a bind 1 5 -> E2 EINVAL
a listen 1 1 -> E2 EINVAL
a accept 1 -> E2 EINVAL
a connect 1 80 5 -> E10 ECONNRESET
a connect 1 0 5 -> E10 ECONNRESET
a send 1 x -> E10 ECONNRESET
a fill 1 0 -> E10 ECONNRESET
a recv 1 0 -> E2 EINVAL
a recv 1 1 -> E10 ECONNRESET
a count 1 0 -> E2 EINVAL
a count 1 1 -> E10 ECONNRESET
a shutdown 1 -> E10 ECONNRESET
a nodelay 1 on -> ok
a close 1 -> ok
a close 1 -> E1 EBADF
";

/// A port is in use by a socket that is bound, by a connection whose listener is gone, and by one that no socket names.
const PORT_IN_USE: &str = "a socket tcp -> id 2
a bind 2 49152 -> E3 EADDRINUSE
a bind 2 80 -> ok
a socket tcp -> id 3
a bind 3 80 -> E3 EADDRINUSE
b socket tcp -> id 3
b bind 3 80 -> E3 EADDRINUSE
b close 1 -> ok
b bind 3 80 -> E3 EADDRINUSE
b close 2 -> ok
b bind 3 80 -> E3 EADDRINUSE
pass 0 -> a 0 b 1
pass 0 -> a 1 b 0
b bind 3 80 -> E3 EADDRINUSE
b tick 60000 -> ok
b bind 3 80 -> ok
";

/// Ids name sockets; calls are refused by state; the errors of a connection stay; ports are taken.
pub const TRANSCRIPTS: &[&[&str]] = &[
    &[NO_SOCKET, GIVEN_BACK, NO_SOCKET],
    &[OPENING, OTHER_IDS],
    &[IDLE],
    &[LISTENING],
    &[CONNECTING],
    &[DATAGRAMS],
    &[UNSCALED, OPENING, ACCEPTED, CONNECTED],
    &[OPENING, ACCEPTED, ENDED],
    &[TOLD_REFUSED],
    &[OPENING, ACCEPTED, TOLD_RESET],
    &[OPENING, ACCEPTED, PORT_IN_USE],
];
