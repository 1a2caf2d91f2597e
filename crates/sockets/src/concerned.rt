//! The socket that what arrives is for, found as its arrival finds it. Nothing changes.

ghost use Rattle.std.specs.Prelude.{◌≡◌};
ghost use Rattle.sockets.specs.Ready.{listener_of, socket_named};

use crate::arrival::is_opening;
use crate::entry::{Entry, SocketId};
use crate::role::Role;
use crate::sockets::Sockets;
use ipv4::{Addr, Endpoint};
use tcp_segment::TcpView;

#[tactic(auto, using(crate::proofs::Firsts::firsts))]
impl Sockets {
    ghost use Rattle.sockets.specs.Ready.{listener_for, socket_at_port, socket_between, socket_of_segment};

    /// The socket that a segment from this address is for: that of the connection of its two ends, or the listener at which that waits to be
    /// accepted; where there is none, the listener at its port, if it opens a connection. None where it is for a connection that its caller
    /// closed, or for nobody.
    pub fn socket_of_segment(&self, source: Addr, segment: &TcpView<'_>) -> Option<SocketId>
        ensures { result ≡ socket_of_segment self.now source segment.now }
    {
        let (local, peer) = self.ends(source, segment);
        match self.connection_between(local, peer) {
            Some(place) => self.entries[place].socket_named(),
            None => self.listener_for(segment),
        }
    }

    /// The socket of the connection between two ends, in any state but CLOSED, or the listener at which it waits to be accepted. None where its
    /// caller closed it, or there is none.
    pub fn socket_between(&self, local: Endpoint, peer: Endpoint) -> Option<SocketId>
        ensures { result ≡ socket_between self.now local peer }
    {
        let place = self.connection_between(local, peer)?;
        self.entries[place].socket_named()
    }

    /// The UDP socket at a port, whether it has room or not.
    pub fn socket_at_port(&self, port: u16) -> Option<SocketId>
        ensures { result ≡ socket_at_port self.now port }
    {
        let place = self.datagrams_at(port)?;
        Some(self.entries[place].id)
    }

    /// The listener at the port of a segment that opens a connection.
    fn listener_for(&self, segment: &TcpView<'_>) -> Option<SocketId>
        ensures { result ≡ listener_for self.now segment.now }
    {
        if !is_opening(segment) {
            return None;
        }
        let place = self.listener_at(segment.destination())?;
        Some(self.entries[place].id)
    }
}

impl Entry {
    /// The socket that this is, or the listener at which it waits. None of a connection that its caller closed.
    fn socket_named(&self) -> Option<SocketId>
        ensures { result ≡ socket_named self.now }
    {
        if self.role.has_socket() {
            Some(self.id)
        } else {
            self.role.listener()
        }
    }
}

impl Role {
    /// The listener at which a connection waits.
    fn listener(&self) -> Option<SocketId>
        ensures { result ≡ listener_of self.now }
    {
        match self {
            Role::Connected { listener, .. } => *listener,
            _ => None,
        }
    }
}
