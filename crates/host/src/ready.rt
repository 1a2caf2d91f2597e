//! What the host's sockets are ready for, and the socket that a frame is for. Nothing changes.

ghost use Rattle.std.specs.Prelude.{◌≡◌};
ghost use Rattle.host.specs.Messages.{told_by};

use crate::arrival::refused_quote;
use crate::host::Host;
use crate::layers::Layers;
use frames::{Control, Meaning};
use sockets::{Ready, Refusal, SocketId};

impl Host {
    ghost use Rattle.host.specs.Concerned.{concerned};
    ghost use Rattle.sockets.specs.Ready.{next_ready, readiness, recv_len, send_room};

    /// What holds of a socket, each by what its calls would answer now. EBADF. See `Sockets::ready`.
    pub fn ready(&self, id: SocketId) -> Result<Ready, Refusal>
        ensures { result ≡ readiness self.now.sockets id }
    {
        self.layers.sockets.ready(id)
    }

    /// The first socket in order of id behind the id `after` of which one of those of `mask` holds, and all that holds of it. See
    /// `Sockets::next_ready`.
    pub fn next_ready(&self, after: SocketId, mask: Ready) -> Option<(SocketId, Ready)>
        ensures { result ≡ next_ready self.now.sockets after mask }
    {
        self.layers.sockets.next_ready(after, mask)
    }

    /// How many octets could be read of a socket at once. EBADF, EOPNOTSUPP, ENOTCONN, ECONNREFUSED, ECONNRESET, ETIMEDOUT. See
    /// `Sockets::recv_len`.
    pub fn recv_len(&self, id: SocketId) -> Result<usize, Refusal>
        ensures { result ≡ recv_len self.now.sockets id }
    {
        self.layers.sockets.recv_len(id)
    }

    /// How many octets could be given to a socket at once. EBADF, EOPNOTSUPP, ENOTCONN, ECONNREFUSED, ECONNRESET, ETIMEDOUT, EPIPE. See
    /// `Sockets::send_room`.
    pub fn send_room(&self, id: SocketId) -> Result<usize, Refusal>
        ensures { result ≡ send_room self.now.sockets id }
    {
        self.layers.sockets.send_room(id)
    }

    /// The socket that a frame is for: that of the connection of a segment's two ends, or the listener at which that waits to be accepted, or at
    /// which the segment opens one; the socket at the port of a UDP datagram; that of the connection which a hard error is about (RFC 1122
    /// section 4.2.3.9). None of any other frame, and of what would be dropped before it finds a socket; also of a fragment, by which a datagram
    /// may be whole: `next_ready` tells for whom. Whether the frame finds room is not asked.
    pub fn concerns(&self, frame: &[u8]) -> Option<SocketId>
        ensures { result ≡ concerned self.now frame.now }
    {
        self.layers.concerns(frame)
    }
}

impl Layers {
    ghost use Rattle.host.specs.Concerned.{concerned, concerned_by};

    /// The socket that a frame is for, as `Host::concerns`.
    fn concerns(&self, frame: &[u8]) -> Option<SocketId>
        ensures { result ≡ concerned self.now frame.now }
    {
        match self.heard(frame) {
            Ok(Meaning::Tcp(received)) => {
                self.sockets
                    .socket_of_segment(received.source, &received.segment)
            }
            Ok(Meaning::Udp(received)) => {
                self.sockets.socket_at_port(received.datagram.destination())
            }
            Ok(Meaning::Icmp(control)) => self.concerned_by(&control),
            _ => None,
        }
    }

    /// The socket of the connection that a message tells an error of.
    fn concerned_by(&self, control: &Control<'_>) -> Option<SocketId>
        ensures { result ≡ concerned_by self.now (told_by control.now.message) }
    {
        let message = &control.message;
        if message.is_echo_request() {
            return None;
        }
        let quote = refused_quote(message)?;
        self.sockets.socket_between(quote.source, quote.destination)
    }
}
