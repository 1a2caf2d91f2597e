//! What a socket is ready for: questions whose answers foretell those of the calls. A question waits for nothing and changes nothing.

ghost use Rattle.std.specs.Prelude.{◌≡◌, [], ◌∷◌, is_ok, is_some, position};
ghost use Rattle.sockets.specs.Calls.{next_offered, role_recv_answer, role_send_answer};
ghost use Rattle.sockets.specs.Datagrams.{role_recvfrom_answer};
ghost use Rattle.sockets.specs.Ready.{error_of, is_any_of, is_end, is_octets, opens, role_recv_len, role_send_room};

use crate::entry::{Entry, SocketId};
use crate::refusal::Refusal;
use crate::role::Role;
use crate::sockets::Sockets;
use crate::table;
use tcp_state::Received;

/// What holds of a socket, each by what its calls would answer now.
#[derive(Clone, Copy, Default, PartialEq, Eq, Debug)]
pub struct Ready {
    /// `accept` would answer a connection.
    pub accept: bool,
    /// `recv` would answer octets, or `recvfrom` of a UDP socket a datagram.
    pub read: bool,
    /// `send` would take an octet, or `sendto` of a UDP socket a datagram of one octet for a peer that may be reached.
    pub write: bool,
    /// `recv` would answer the end of the stream.
    pub ended: bool,
    /// Its connection reports an error: each call is refused with it.
    pub failed: bool,
    /// Its connection is being opened: it is in SYN-SENT or SYN-RECEIVED.
    pub opening: bool,
}

impl Ready {
    /// Whether one of those that hold is among those of `mask`.
    pub fn is_any_of(self, mask: Ready) -> bool
        ensures { result ≡ is_any_of self mask }
    {
        (self.accept && mask.accept)
            || (self.read && mask.read)
            || (self.write && mask.write)
            || (self.ended && mask.ended)
            || (self.failed && mask.failed)
            || (self.opening && mask.opening)
    }
}

#[tactic(auto, using(crate::proofs::Firsts::firsts))]
impl Sockets {
    ghost use Rattle.sockets.specs.Ready.{is_ready_after, next_ready, offers, readiness, ready_of, recv_len, send_room, takes_datagram};

    /// What holds of a socket. EBADF.
    pub fn ready(&self, id: SocketId) -> Result<Ready, Refusal>
        ensures { result ≡ readiness self.now id }
    {
        let place = self.socket_place(id)?;
        Ok(self.ready_of(id, &self.entries[place].role))
    }

    /// The first socket in order of id behind the id `after`, which need name none, of which one of those of `mask` holds, and all that holds of it.
    /// `SocketId(0)` stands before all. None where there is none.
    pub fn next_ready(&self, after: SocketId, mask: Ready) -> Option<(SocketId, Ready)>
        ensures { result ≡ next_ready self.now after mask }
    {
        let place = self.next_place(after, mask)?;
        let entry = &self.entries[place];
        Some((entry.id, self.ready_of(entry.id, &entry.role)))
    }

    /// How many octets could be read at once: of a connection as many as `recv` would give of any number, 0 where it would be EAGAIN or answer the
    /// end of the stream; of a UDP socket as many as the first datagram has, 0 where none waits.
    ///
    /// EBADF; EOPNOTSUPP where the socket listens; ENOTCONN where it has no connection; the error that its connection reports.
    pub fn recv_len(&self, id: SocketId) -> Result<usize, Refusal>
        ensures { result ≡ recv_len self.now id }
    {
        let place = self.socket_place(id)?;
        self.entries[place].role.recv_len()
    }

    /// How many octets could be given: to a connection as many as `send` would take of any number, 0 where it would be EAGAIN; to a UDP socket as
    /// many as a further datagram may have, 0 where one of a single octet has no room.
    ///
    /// EBADF; EOPNOTSUPP where the socket listens; ENOTCONN where it has no connection; the error that its connection reports; EPIPE once our
    /// side is closed.
    pub fn send_room(&self, id: SocketId) -> Result<usize, Refusal>
        ensures { result ≡ send_room self.now id }
    {
        let place = self.socket_place(id)?;
        self.entries[place].role.send_room()
    }

    /// What holds of an entry of this id and role.
    fn ready_of(&self, id: SocketId, role: &Role) -> Ready
        ensures { result ≡ ready_of self.now id role.now }
    {
        Ready {
            accept: self.offers(id, role),
            read: role.would_read() || role.would_read_datagram(),
            write: role.would_take() || self.takes_datagram(role),
            ended: role.is_at_end(),
            failed: role.has_failed(),
            opening: role.is_opening(),
        }
    }

    /// The place of the first socket in order of id behind the id `after`, of which one of those of `mask` holds.
    fn next_place(&self, after: SocketId, mask: Ready) -> Option<usize>
        ensures { result ≡ position (is_ready_after self.now after mask) self.now.entries }
    {
        self.entries
            .iter()
            .position(|entry| self.is_ready_after(after, mask, entry))
    }

    /// Whether an entry is a socket behind the id `after`, of which one of those of `mask` holds.
    fn is_ready_after(&self, after: SocketId, mask: Ready, entry: &Entry) -> bool
        ensures { result ≡ is_ready_after self.now after mask entry.now }
    {
        entry.id.0 > after.0
            && entry.role.has_socket()
            && self.ready_of(entry.id, &entry.role).is_any_of(mask)
    }

    /// Whether this is a listener at which a connection waits that may be accepted.
    fn offers(&self, id: SocketId, role: &Role) -> bool
        ensures { result ≡ offers self.now id role.now }
    {
        match role {
            Role::Listener { .. } => self.has_offered(id),
            _ => false,
        }
    }

    /// Whether one of the connections that are offered waits at the listener `id`.
    fn has_offered(&self, id: SocketId) -> bool
        ensures { result ≡ is_some (next_offered self.now id) }
    {
        table::next_offered(&self.offered, &self.entries, self.outlook.at_hand(), id).is_some()
    }

    /// Whether this is a UDP socket with room for a datagram of one octet, and a port to send it from.
    fn takes_datagram(&self, role: &Role) -> bool
        ensures { result ≡ takes_datagram self.now role.now }
    {
        match role {
            Role::Datagrams { bound, socket } => {
                socket.room() > 0 && self.sending_end(*bound).is_ok()
            }
            _ => false,
        }
    }
}

/// What the calls of a role would answer.
impl Role {
    /// Whether a receive of one octet would answer it.
    fn would_read(&self) -> bool
        ensures { result ≡ is_octets (role_recv_answer self.now 1) }
    {
        match self {
            Role::Connected { connection, .. } => {
                matches!(connection.would_recv(1), Ok(Received::Octets(_)))
            }
            _ => false,
        }
    }

    /// Whether a receive would answer the end of the stream.
    fn is_at_end(&self) -> bool
        ensures { result ≡ is_end (role_recv_answer self.now 1) }
    {
        match self {
            Role::Connected { connection, .. } => {
                matches!(connection.would_recv(1), Ok(Received::EndOfStream))
            }
            _ => false,
        }
    }

    /// Whether a datagram waits for its reader.
    fn would_read_datagram(&self) -> bool
        ensures { result ≡ is_ok (role_recvfrom_answer self.now 1) }
    {
        match self {
            Role::Datagrams { socket, .. } => socket.first_len().is_some(),
            _ => false,
        }
    }

    /// Whether a send of one octet would take it.
    fn would_take(&self) -> bool
        ensures { result ≡ is_ok (role_send_answer self.now (0 ∷ [])) }
    {
        match self {
            Role::Connected { connection, .. } => {
                matches!(connection.send_room(), Ok(room) if room > 0)
            }
            _ => false,
        }
    }

    /// Whether its connection reports an error.
    fn has_failed(&self) -> bool
        ensures { result ≡ is_some (error_of self.now) }
    {
        match self {
            Role::Connected { connection, .. } => connection.error().is_some(),
            _ => false,
        }
    }

    /// Whether its connection is being opened.
    fn is_opening(&self) -> bool
        ensures { result ≡ opens self.now }
    {
        match self {
            Role::Connected { connection, .. } => connection.state().is_opening(),
            _ => false,
        }
    }

    /// How many octets could be read at once.
    fn recv_len(&self) -> Result<usize, Refusal>
        ensures { result ≡ role_recv_len self.now }
    {
        match self {
            Role::Idle { .. } => Err(Refusal::ENOTCONN),
            Role::Listener { .. } => Err(Refusal::EOPNOTSUPP),
            Role::Datagrams { socket, .. } => Ok(socket.first_len().unwrap_or(0)),
            Role::Connected { connection, .. } => match connection.recv_len() {
                Ok(len) => Ok(len),
                Err(refusal) => Err(Refusal::from(refusal)),
            },
        }
    }

    /// How many octets could be given.
    fn send_room(&self) -> Result<usize, Refusal>
        ensures { result ≡ role_send_room self.now }
    {
        match self {
            Role::Idle { .. } => Err(Refusal::ENOTCONN),
            Role::Listener { .. } => Err(Refusal::EOPNOTSUPP),
            Role::Datagrams { socket, .. } => Ok(socket.room()),
            Role::Connected { connection, .. } => match connection.send_room() {
                Ok(room) => Ok(room),
                Err(refusal) => Err(Refusal::from(refusal)),
            },
        }
    }
}
