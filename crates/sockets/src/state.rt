//! The state that a socket shows.

use std::fmt;
use tcp_state::State;

/// The state that a socket shows.
#[derive(Clone, Copy, PartialEq, Eq, Debug)]
pub enum SocketState {
    /// A UDP socket, which has no connection.
    Datagram,
    /// The state of a TCP socket's connection (RFC 9293 section 3.3.2); CLOSED where it has had none.
    Stream(State),
}

impl fmt::Display for SocketState {
    ghost use Rattle.std.specs.Prelude.{Some};
    ghost use Rattle.sockets.specs.Names.{socket_state_text};

    ghost output = { λ state. Some (socket_state_text state) };

    fn fmt<W: fmt::Write>(&self, f: &mut fmt::Formatter<W>) -> fmt::Result {
        match self {
            SocketState::Datagram => f.write_str("DATAGRAM"),
            SocketState::Stream(state) => state.fmt(f),
        }
    }
}
