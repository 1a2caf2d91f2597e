//! The calls of UDP sockets (POSIX.1-2017), each with its refusals in the order in which they are tested, and the datagrams that come (RFC 768).

ghost use Rattle.std.specs.Prelude.{◌≡◌, ◌≤◌, length, IfOk, OnOk, OnErr, None, Some};
ghost use Rattle.std.specs.Option.{ok_or};
ghost use Rattle.sockets.specs.Datagrams.{datagrams_bound};

use crate::entry::{Kind, SocketId};
use crate::refusal::Refusal;
use crate::role::Role;
use crate::sockets::Sockets;
use crate::{index, ports};
use ipv4::{Addr, Endpoint};
use udp::UdpView;
use udp_socket::MOST_OCTETS;

/// What becomes of a datagram that comes.
#[derive(Clone, Copy, PartialEq, Eq, Debug)]
pub enum Reception {
    /// It waits for its reader.
    Queued,
    /// The socket at its port has no room for it.
    NoRoom,
    /// No socket is at its port.
    NoSocket,
}

#[tactic(auto, using(crate::proofs::Firsts::firsts))]
impl Sockets {
    ghost use Rattle.sockets.specs.Datagrams.{sending_end, sendto_answer, after_sendto, recvfrom_answer, recvfrom_front, after_recvfrom, reception, after_reception};

    /// Gives a datagram for `peer` to a UDP socket, which sends it behind the others, and answers its length in octets. It has the next
    /// identification, and waits since the kept moment. A socket that is not bound is bound to our address and a dynamic port.
    ///
    /// EBADF; EOPNOTSUPP of a TCP socket; EMSGSIZE over 65,507 octets; EADDRNOTAVAIL for port 0, an address that isn't unicast or our own;
    /// ENETUNREACH where no route leads to the peer, which `is_routed` says; EADDRINUSE where no dynamic port is free; EAGAIN where the socket
    /// has no room.
    pub fn sendto(
        &mut self,
        id: SocketId,
        peer: Endpoint,
        octets: &[u8],
        is_routed: bool,
    ) -> Result<usize, Refusal>
        ensures answer { result ≡ sendto_answer self.old id peer octets.now is_routed }
        ensures ok { OnOk result (self.new ≡ after_sendto self.old id peer octets.now is_routed) }
        ensures err { OnErr result (self.new ≡ self.old) }
    {
        let place = self.socket_place(id)?;
        let bound = datagrams_bound(&self.entries[place].role)?;
        if octets.len() > MOST_OCTETS {
            return Err(Refusal::EMSGSIZE);
        }
        self.may_reach(peer, is_routed)?;
        let local = self.sending_end(bound)?;
        let last_port = self.last_port_after(bound, local.port);
        let now = self.kept;
        let identification = self.identification;
        self.outlook.turn_to(&self.entries, place);
        let entry = &mut self.entries[place];
        let before = index::filing(entry);
        if !entry.role.send_to(now, local, peer, identification, octets) {
            return Err(Refusal::EAGAIN);
        }
        index::refile(&mut self.ends, self.filed, before, entry);
        self.last_port = last_port;
        self.identification = identification.wrapping_add(1);
        Ok(octets.len())
    }

    /// Where a socket sends from: where it is bound, else our address and a dynamic port. EADDRINUSE where none is free.
    pub(crate) fn sending_end(&self, bound: Option<Endpoint>) -> Result<Endpoint, Refusal>
        ensures dynamic { bound ≡ None → IfOk result (λ local. 49152 ≤ local.port) }
        ensures value { result ≡ ok_or (sending_end self.now bound) Refusal.EADDRINUSE }
    {
        if let Some(local) = bound {
            return Ok(local);
        }
        let port = ports::first_bindable(
            &self.entries,
            &self.ends,
            Kind::Udp,
            self.last_port,
        ).ok_or(Refusal::EADDRINUSE)?;
        let addr = self.addr;
        Ok(Endpoint { addr, port })
    }

    /// Takes out the first datagram that came for a UDP socket. Its octets go into `buffer` as far as this has room, and the rest of a longer
    /// one is lost. Answers how many octets were written, and the endpoint that the datagram is from.
    ///
    /// EBADF; EOPNOTSUPP of a TCP socket; EINVAL for an empty buffer; EAGAIN where none waits.
    pub fn recvfrom(
        &mut self,
        id: SocketId,
        buffer: &mut [u8],
    ) -> Result<(usize, Endpoint), Refusal>
        ensures answer { result ≡ recvfrom_answer self.old id (length buffer.old) }
        ensures octets { buffer.new ≡ recvfrom_front self.old id buffer.old }
        ensures ok { OnOk result (self.new ≡ after_recvfrom self.old id) }
        ensures err { OnErr result (self.new ≡ self.old) }
    {
        let place = self.socket_place(id)?;
        self.outlook.turn_to(&self.entries, place);
        self.entries[place].role.recv_from(buffer)
    }

    /// Takes a datagram that came from this address: it waits behind the others for the reader of the UDP socket at its destination port,
    /// where there is one, and that one has room.
    pub fn receive(&mut self, source: Addr, datagram: &UdpView<'_>) -> Reception
        ensures answer { result ≡ reception self.old datagram.now }
        ensures after { self.new ≡ after_reception self.old source datagram.now }
    {
        let Some(place) = self.datagrams_at(datagram.destination()) else {
            return Reception::NoSocket;
        };
        let from = Endpoint {
            addr: source,
            port: datagram.source(),
        };
        self.outlook.turn_to(&self.entries, place);
        if self.entries[place].role.receive(from, datagram.payload()) {
            Reception::Queued
        } else {
            Reception::NoRoom
        }
    }
}

/// Where a UDP socket is bound; EOPNOTSUPP of any other.
fn datagrams_bound(role: &Role) -> Result<Option<Endpoint>, Refusal>
    ensures { result ≡ datagrams_bound role.now }
{
    match role {
        Role::Datagrams { bound, .. } => Ok(*bound),
        _ => Err(Refusal::EOPNOTSUPP),
    }
}
