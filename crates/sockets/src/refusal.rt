//! Why a socket call is refused.

use std::fmt;

/// Why a socket call is refused, by the names of POSIX.1-2017 (System Interfaces, section 2.3). A refused call changes nothing. Its text is a number
/// and the name, as `E8 EAGAIN`.
#[derive(Clone, Copy, PartialEq, Eq, Debug)]
pub enum Refusal {
    /// The id names no socket.
    EBADF,
    /// The arguments or the socket's state do not allow the call.
    EINVAL,
    /// The port or the pair of endpoints is in use.
    EADDRINUSE,
    /// The address is not ours to bind to, or none that a peer may have.
    EADDRNOTAVAIL,
    /// The socket has had a connection.
    EISCONN,
    /// The socket has no connection.
    ENOTCONN,
    /// The socket's connection is being opened.
    EALREADY,
    /// Nothing to do now; the same call may succeed later.
    EAGAIN,
    /// The peer refused the connection, or an error told that its SYN can't be delivered.
    ECONNREFUSED,
    /// The peer reset the connection.
    ECONNRESET,
    /// The peer did not answer for too long.
    ETIMEDOUT,
    /// Our side of the connection is closed.
    EPIPE,
    /// The datagram is longer than one can be.
    EMSGSIZE,
    /// No route leads to the address.
    ENETUNREACH,
    /// The table is full, or the last id is given.
    EMFILE,
    /// Memory ran out.
    ENOMEM,
    /// The socket is listening, or of the other kind.
    EOPNOTSUPP,
    /// The socket is not bound, or a UDP socket, which has no peer.
    EDESTADDRREQ,
}

impl fmt::Display for Refusal {
    ghost use Rattle.std.specs.Prelude.{Some};
    ghost use Rattle.sockets.specs.Names.{refusal_text};

    ghost output = { λ refusal. Some (refusal_text refusal) };

    fn fmt<W: fmt::Write>(&self, f: &mut fmt::Formatter<W>) -> fmt::Result {
        let text = match self {
            Refusal::EBADF => "E1 EBADF",
            Refusal::EINVAL => "E2 EINVAL",
            Refusal::EADDRINUSE => "E3 EADDRINUSE",
            Refusal::EADDRNOTAVAIL => "E4 EADDRNOTAVAIL",
            Refusal::EISCONN => "E5 EISCONN",
            Refusal::ENOTCONN => "E6 ENOTCONN",
            Refusal::EALREADY => "E7 EALREADY",
            Refusal::EAGAIN => "E8 EAGAIN",
            Refusal::ECONNREFUSED => "E9 ECONNREFUSED",
            Refusal::ECONNRESET => "E10 ECONNRESET",
            Refusal::ETIMEDOUT => "E11 ETIMEDOUT",
            Refusal::EPIPE => "E12 EPIPE",
            Refusal::EMSGSIZE => "E13 EMSGSIZE",
            Refusal::ENETUNREACH => "E14 ENETUNREACH",
            Refusal::EMFILE => "E15 EMFILE",
            Refusal::ENOMEM => "E16 ENOMEM",
            Refusal::EOPNOTSUPP => "E17 EOPNOTSUPP",
            Refusal::EDESTADDRREQ => "E18 EDESTADDRREQ",
        };
        f.write_str(text)
    }
}

impl std::error::Error for Refusal {}

impl From<tcp_state::Refusal> for Refusal {
    ghost use Rattle.std.specs.Prelude.{◌≡◌};
    ghost use Rattle.sockets.specs.Calls.{refusal_of};

    ghost from_gives = { λ told refusal. refusal ≡ refusal_of told };

    fn from(refusal: tcp_state::Refusal) -> Refusal {
        match refusal {
            tcp_state::Refusal::ENOTCONN => Refusal::ENOTCONN,
            tcp_state::Refusal::EAGAIN => Refusal::EAGAIN,
            tcp_state::Refusal::ECONNREFUSED => Refusal::ECONNREFUSED,
            tcp_state::Refusal::ECONNRESET => Refusal::ECONNRESET,
            tcp_state::Refusal::EPIPE => Refusal::EPIPE,
            tcp_state::Refusal::ETIMEDOUT => Refusal::ETIMEDOUT,
        }
    }
}
