//! The socket calls (POSIX.1-2017), each with its refusals in the order in which they are tested.

ghost use Rattle.std.specs.Prelude.{◌≡◌, ◌^◌, ◌<◌, ◌≤◌, ◌↔◌, length, IfOk, IfErr, OnOk, OnErr, IfSome, IsTrue, MatchResult, Ok, Err, ◌⊎◌, ◌+◌, ◌++◌, [], ◌∷◌, find, position, Some, None};
ghost use Rattle.tcp_halves.specs.declared.buffers.Buffers.{Buffers};
ghost use Rattle.std.specs.Result.{result_err};
ghost use Rattle.std.specs.Option.{ok_or};
ghost use Rattle.sockets.specs.Calls.{open_answer, may_ask_after};
ghost use Rattle.sockets.specs.SocketsView.{room_of};

use crate::entry::{Entry, Kind, SocketId};
use crate::refusal::Refusal;
use crate::role::Role;
use crate::sizes::LEAST_BUFFER;
use crate::sockets::Sockets;
use crate::state::SocketState;
use crate::{found, index, ports, table};
use clock::Moment;
use ipv4::{Addr, Endpoint, Pair};
use std::alloc::{AllocError, Global};
use tcp_segment::Seq;
use tcp_state::{Buffers, CAPACITY, LARGEST_CAPACITY, MOST_KEEPALIVE, Manner, Received, State};
use udp_socket::UdpSocket;

/// The address that stands for every address of ours.
const ANY: Addr = Addr([0; 4]);

/// How many connections may wait at a listener at most.
pub const MOST_BACKLOG: usize = 8;

/// The least time, in milliseconds, after which a silent peer may be asked whether it is there: ten seconds.
pub const LEAST_KEEPALIVE: u64 = 10_000;

#[tactic(auto, using(crate::proofs::Firsts::firsts))]
impl Sockets {
    ghost use Rattle.sockets.specs.SocketsView.{SocketsView, later_moment};
    ghost use Rattle.sockets.specs.Entries.{is_socket, is_waiting_id};
    ghost use Rattle.sockets.specs.Index.{filed};
    ghost use Rattle.sockets.specs.Ports.{is_bindable};
    ghost use Rattle.udp_socket.specs.SocketView.{new_socket as new_udp_socket};
    ghost use Rattle.sockets.specs.Calls.{after_socket, after_datagram_socket, bind_refusal, after_bind, port_at, port_bound, last_port_bound, sockname_answer, peername_answer, listen_refusal, after_listen, state_answer, is_table_full, IsMade, is_next_at, accept_answer, after_accept, send_answer, after_send, recv_answer, recv_front, after_recv, connect_refusal, after_connect, reach_refusal, port_for, last_port_after, pair_connected, shutdown_refusal, after_shutdown, nodelay_refusal, after_nodelay, keepalive_refusal, after_keepalive};

    /// Makes a socket, with the room for one connection, or with the two queues of a UDP socket. EMFILE where the table is full or the last id
    /// is given, ENOMEM.
    pub fn socket(&mut self, kind: Kind) -> Result<SocketId, Refusal>
        ensures full { (result ≡ Err Refusal.EMFILE) ↔ IsTrue (is_table_full self.old) }
        ensures other { IfErr result (λ e. (e ≡ Refusal.EMFILE) ⊎ (e ≡ Refusal.ENOMEM)) }
        ensures ok { IfOk result (λ id. (id.0 ≡ self.old.last_id + 1) × IsMade kind self.old self.new) }
        ensures err { OnErr result (self.new ≡ self.old) }
    {
        if self.entries.is_full() || self.last_id == u64::MAX {
            return Err(Refusal::EMFILE);
        }
        match kind {
            Kind::Tcp => {
                let buffers = new_buffers(self.alloc, self.sizes.buffer, self.manner);
                self.stream_with(buffers)
            }
            Kind::Udp => {
                let socket = UdpSocket::new(self.alloc);
                self.datagrams_with(socket)
            }
        }
    }

    /// Makes a TCP socket in these buffers. ENOMEM exactly where memory was refused them.
    fn stream_with(&mut self, buffers: Result<Buffers, AllocError>) -> Result<SocketId, Refusal>
        requires place { length self.old.entries < self.old.sizes.entries }
        requires id { self.old.last_id < u64.MAX }
        ensures answer { MatchResult buffers (λ given. result ≡ Ok (record { 0 = self.old.last_id + 1 })) (λ refused. result ≡ Err Refusal.ENOMEM) }
        ensures table { MatchResult buffers (λ given. self.new ≡ after_socket self.old given) (λ refused. self.new ≡ self.old) }
    {
        let Ok(buffers) = buffers else {
            return Err(Refusal::ENOMEM);
        };
        let id = self.next_id();
        self.add(Entry::socket(id, buffers));
        Ok(id)
    }

    /// Makes a UDP socket of this one, whose two queues it owns. ENOMEM exactly where memory was refused it.
    fn datagrams_with(&mut self, socket: Result<UdpSocket, AllocError>) -> Result<SocketId, Refusal>
        requires place { length self.old.entries < self.old.sizes.entries }
        requires id { self.old.last_id < u64.MAX }
        requires empty { IfOk socket (λ given. given ≡ new_udp_socket) }
        ensures answer { MatchResult socket (λ given. result ≡ Ok (record { 0 = self.old.last_id + 1 })) (λ refused. result ≡ Err Refusal.ENOMEM) }
        ensures table { MatchResult socket (λ given. self.new ≡ after_datagram_socket self.old) (λ refused. self.new ≡ self.old) }
    {
        let Ok(socket) = socket else {
            return Err(Refusal::ENOMEM);
        };
        let id = self.next_id();
        self.add(Entry::datagrams(id, socket));
        Ok(id)
    }

    /// The id that the next entry has.
    fn next_id(&self) -> SocketId
        requires { self.now.last_id < u64.MAX }
        ensures { result ≡ record { 0 = self.now.last_id + 1 } }
    {
        SocketId(self.last_id + 1)
    }

    /// Puts an entry that has no connection at the end of the table, under the next id.
    fn add(&mut self, entry: Entry)
        requires place { length self.old.entries < self.old.sizes.entries }
        requires id { entry.id.0 ≡ self.old.last_id + 1 }
        requires unfiled { filed entry ≡ None }
        ensures { self.new ≡ record self.old { last_id = entry.id.0; entries = self.old.entries ++ entry ∷ [] } }
    {
        self.last_id = entry.id.0;
        self.outlook.push(&entry);
        self.entries.push(entry);
    }

    /// Binds a socket to a local endpoint, at our address or 0.0.0.0, which stands for it. In place of port 0 it is given a dynamic port
    /// (RFC 6335 section 6): the first behind the last one given that no entry of its kind has. `sockname` tells which.
    ///
    /// EBADF; EINVAL where it is bound already or has had a connection; EADDRNOTAVAIL at another address; EADDRINUSE where an entry of its
    /// kind has the port, or port 0 is asked for and no dynamic port is free.
    pub fn bind(&mut self, id: SocketId, local: Endpoint) -> Result<(), Refusal>
        ensures refused { result_err result ≡ bind_refusal self.old id local }
        ensures ok { OnOk result (self.new ≡ after_bind self.old id local) }
        ensures err { OnErr result (self.new ≡ self.old) }
    {
        let (place, port) = self.may_bind(id, local)?;
        let addr = local.addr;
        self.last_port = self.last_port_bound(local, port);
        self.outlook.turn_to(&self.entries, place);
        let entry = &mut self.entries[place];
        let before = index::filing(entry);
        entry.role.bind(Endpoint { addr, port });
        index::refile(&mut self.ends, self.filed, before, entry);
        Ok(())
    }

    /// The dynamic port given last, once a socket is bound at `local` to this port: one that was given in place of port 0 counts.
    fn last_port_bound(&self, local: Endpoint, port: u16) -> u16
        requires { local.port ≡ 0 → 49152 ≤ port }
        ensures value { result ≡ last_port_bound self.now local port }
        ensures dynamic { 49152 ≤ result }
    {
        if local.port == 0 {
            port
        } else {
            self.last_port
        }
    }

    /// The place of the socket that may be bound, and the port that it is given.
    fn may_bind(&self, id: SocketId, local: Endpoint) -> Result<(usize, u16), Refusal>
        ensures dynamic { local.port ≡ 0 → IfOk result (λ given. 49152 ≤ given.1) }
        ensures place { IfOk result (λ given. position (is_socket id) self.now.entries ≡ Some given.0) }
        ensures port { IfOk result (λ given. port_bound self.now id local ≡ Ok given.1) }
        ensures refused { IfErr result (λ refusal. port_bound self.now id local ≡ Err refusal) }
    {
        let place = self.socket_place(id)?;
        let port = match &self.entries[place].role {
            Role::Idle { bound: None, .. } => self.port_at(Kind::Tcp, local)?,
            Role::Datagrams { bound: None, .. } => self.port_at(Kind::Udp, local)?,
            _ => return Err(Refusal::EINVAL),
        };
        Ok((place, port))
    }

    /// The port to which a socket of this kind may be bound at this endpoint.
    fn port_at(&self, kind: Kind, local: Endpoint) -> Result<u16, Refusal>
        ensures dynamic { local.port ≡ 0 → IfOk result (λ port. 49152 ≤ port) }
        ensures value { result ≡ port_at self.now (is_bindable kind self.now.entries) local }
    {
        if local.addr != self.addr && local.addr != ANY {
            return Err(Refusal::EADDRNOTAVAIL);
        }
        if local.port == 0 {
            return ports::first_bindable(&self.entries, &self.ends, kind, self.last_port).ok_or(
                Refusal::EADDRINUSE,
            );
        }
        if !ports::is_bindable(&self.entries, &self.ends, kind, local.port) {
            return Err(Refusal::EADDRINUSE);
        }
        Ok(local.port)
    }

    /// Where a socket is: the local end of its connection, else the endpoint that it is bound to, with the port that it was given; 0.0.0.0 and
    /// port 0 where it is not bound. EBADF.
    pub fn sockname(&self, id: SocketId) -> Result<Endpoint, Refusal>
        ensures { result ≡ sockname_answer self.now id }
    {
        let place = self.socket_place(id)?;
        Ok(self.entries[place].role.own_end())
    }

    /// The peer of a socket's connection, in any state, CLOSED too.
    ///
    /// EBADF; ENOTCONN where the socket has had no connection, or is a UDP socket.
    pub fn peername(&self, id: SocketId) -> Result<Endpoint, Refusal>
        ensures { result ≡ peername_answer self.now id }
    {
        let place = self.socket_place(id)?;
        self.entries[place].role.peer().ok_or(Refusal::ENOTCONN)
    }

    /// Lets a bound socket take connections, of which `backlog` may wait, 1 to 8: those in SYN-RECEIVED and those that are not accepted count,
    /// reset since or not.
    ///
    /// EBADF; EOPNOTSUPP of a UDP socket; EINVAL where the backlog is not 1 to 8, or the socket listens already or has had a connection; EDESTADDRREQ
    /// where it is not bound.
    pub fn listen(&mut self, id: SocketId, backlog: usize) -> Result<(), Refusal>
        ensures refused { result_err result ≡ listen_refusal self.old id backlog }
        ensures ok { OnOk result (self.new ≡ after_listen self.old id backlog) }
        ensures err { OnErr result (self.new ≡ self.old) }
    {
        let place = self.may_listen(id, backlog)?;
        self.outlook.turn_to(&self.entries, place);
        self.entries[place].role.listen(backlog);
        Ok(())
    }

    /// The place of the socket that may listen.
    fn may_listen(&self, id: SocketId, backlog: usize) -> Result<usize, Refusal>
        ensures refused { result_err result ≡ listen_refusal self.now id backlog }
        ensures place { IfOk result (λ place. position (is_socket id) self.now.entries ≡ Some place) }
    {
        let place = self.socket_place(id)?;
        match &self.entries[place].role {
            Role::Datagrams { .. } => Err(Refusal::EOPNOTSUPP),
            _ if backlog == 0 || backlog > MOST_BACKLOG => Err(Refusal::EINVAL),
            Role::Idle { bound: Some(_), .. } => Ok(place),
            Role::Idle { bound: None, .. } => Err(Refusal::EDESTADDRREQ),
            _ => Err(Refusal::EINVAL),
        }
    }

    /// Takes the connection that first passed SYN-RECEIVED of those that wait at a listener, reset since or not: its id from now on, and its peer.
    ///
    /// EBADF; EOPNOTSUPP of a UDP socket; EINVAL where the socket does not listen; EAGAIN where no connection waits.
    pub fn accept(&mut self, id: SocketId) -> Result<(SocketId, Endpoint), Refusal>
        ensures answer { result ≡ accept_answer self.old id }
        ensures ok { OnOk result (self.new ≡ after_accept self.old id) }
        ensures err { OnErr result (self.new ≡ self.old) }
    {
        let listener = self.socket_place(id)?;
        match &self.entries[listener].role {
            Role::Listener { .. } => {}
            Role::Datagrams { .. } => return Err(Refusal::EOPNOTSUPP),
            _ => return Err(Refusal::EINVAL),
        }
        let Some((turn, place)) = self.next_accepted(id) else {
            return Err(Refusal::EAGAIN);
        };
        self.outlook.turn_to(&self.entries, place);
        let entry = &mut self.entries[place];
        let accepted = entry.id;
        let Some(peer) = entry.role.peer() else {
            return Err(Refusal::EAGAIN);
        };
        entry.role.accept();
        self.offered.remove(turn);
        Ok((accepted, peer))
    }

    /// The connection that the listener `id` accepts next: its place among those offered, and in the table.
    fn next_accepted(&self, id: SocketId) -> Option<(usize, usize)>
        ensures none { result ≡ None → find (is_next_at self.now id) self.now.entries ≡ None }
        ensures turn { IfSome result (λ at. position (is_waiting_id self.now.entries id) self.now.offered ≡ Some at.0) }
        ensures place { IfSome result (λ at. position (is_next_at self.now id) self.now.entries ≡ Some at.1) }
    {
        let near = self.outlook.at_hand();
        let Some(turn) = table::next_offered(&self.offered, &self.entries, near, id) else {
            return None;
        };
        let accepted = self.offered[turn];
        let Some(place) = table::waiting_as(&self.entries, near, id, accepted) else {
            return None;
        };
        Some((turn, place))
    }

    /// Opens a connection to `peer`, whose initial sequence number here is `isn` (RFC 9293 section 3.10.1), at this moment, or at the kept one where that is later:
    /// its wait for the hop to the peer is counted from then on.
    ///
    /// EBADF; EOPNOTSUPP of a UDP socket and where the socket listens; the error that its connection reports; EALREADY while it opens a
    /// connection; EISCONN where it has had one; EADDRNOTAVAIL for port 0, an address that isn't unicast or our own; ENETUNREACH where no route leads
    /// to the peer's address, which `is_routed` says (RFC 1122 section 3.3.1.1); EADDRINUSE where the pair is held or no dynamic port is free.
    pub fn connect(
        &mut self,
        now: Moment,
        isn: Seq,
        id: SocketId,
        peer: Endpoint,
        is_routed: bool,
    ) -> Result<(), Refusal>
        ensures refused { result_err result ≡ connect_refusal self.old id peer is_routed }
        ensures ok { OnOk result (self.new ≡ after_connect self.old now isn.0 id peer is_routed) }
        ensures numbered { isn.0 < 2 ^ 32 }
        ensures err { OnErr result (self.new ≡ self.old) }
    {
        let now = self.later_moment(now);
        let place = self.socket_place(id)?;
        let bound = may_open(&self.entries[place].role)?;
        self.may_reach(peer, is_routed)?;
        let port = self.local_port(bound, peer)?;
        let addr = self.addr;
        self.last_port = self.last_port_after(bound, port);
        let local = Endpoint { addr, port };
        self.outlook.turn_to(&self.entries, place);
        let entry = &mut self.entries[place];
        let before = index::filing(entry);
        entry.role.connect(now, local, peer, isn);
        index::refile(&mut self.ends, self.filed, before, entry);
        Ok(())
    }

    /// The pair that `connect` would open; None where it would be refused.
    pub fn would_connect(&self, id: SocketId, peer: Endpoint, is_routed: bool) -> Option<Pair>
        ensures { result ≡ pair_connected self.now id peer is_routed }
    {
        let place = table::socket_of(&self.entries, self.outlook.at_hand(), id)?;
        let bound = may_open(&self.entries[place].role).ok()?;
        self.may_reach(peer, is_routed).ok()?;
        let addr = self.addr;
        let port = self.local_port(bound, peer).ok()?;
        Some(Pair::new(Endpoint { addr, port }, peer))
    }

    /// Whether this is a peer that a connection or a datagram may have, and a route leads to it, which `is_routed` says.
    pub(crate) fn may_reach(&self, peer: Endpoint, is_routed: bool) -> Result<(), Refusal>
        ensures { result_err result ≡ reach_refusal self.now peer is_routed }
    {
        if peer.port == 0 || !peer.addr.is_unicast() || peer.addr == self.addr {
            return Err(Refusal::EADDRNOTAVAIL);
        }
        if !is_routed {
            return Err(Refusal::ENETUNREACH);
        }
        Ok(())
    }

    /// The local port of a new connection to `peer`: that of a bound socket, else a dynamic one.
    fn local_port(&self, bound: Option<Endpoint>, peer: Endpoint) -> Result<u16, Refusal>
        ensures dynamic { bound ≡ None → IfOk result (λ port. 49152 ≤ port) }
        ensures value { result ≡ ok_or (port_for self.now bound peer) Refusal.EADDRINUSE }
    {
        let addr = self.addr;
        match bound {
            Some(Endpoint { port, .. }) => {
                if found::is_pair_held(&self.entries, &self.ends, Endpoint { addr, port }, peer) {
                    return Err(Refusal::EADDRINUSE);
                }
                Ok(port)
            }
            None => ports::first_free(&self.entries, &self.ends, addr, self.last_port, peer).ok_or(
                Refusal::EADDRINUSE,
            ),
        }
    }

    /// The dynamic port given last, once a socket has this port: that of a bound socket does not count.
    pub(crate) fn last_port_after(&self, bound: Option<Endpoint>, port: u16) -> u16
        requires { bound ≡ None → 49152 ≤ port }
        ensures value { result ≡ last_port_after self.now bound port }
        ensures dynamic { 49152 ≤ result }
    {
        match bound {
            Some(_) => self.last_port,
            None => port,
        }
    }

    /// Gives octets to a connection (RFC 9293 section 3.10.2), and answers how many it took: the first that find room.
    ///
    /// EBADF; EDESTADDRREQ of a UDP socket; EOPNOTSUPP where the socket listens; ENOTCONN where it has no connection; the error that its
    /// connection reports; EAGAIN while the connection is opened; EPIPE once our side is closed; EAGAIN where octets are given and there is
    /// no room.
    pub fn send(&mut self, id: SocketId, octets: &[u8]) -> Result<usize, Refusal>
        ensures answer { result ≡ send_answer self.old id octets.now }
        ensures ok { OnOk result (self.new ≡ after_send self.old id octets.now) }
        ensures err { OnErr result (self.new ≡ self.old) }
    {
        let place = self.socket_place(id)?;
        let kept = self.kept;
        self.outlook.turn_to(&self.entries, place);
        self.entries[place].role.send(kept, octets)
    }

    /// Reads octets of a connection into `buffer` (RFC 9293 section 3.10.3), in order, as many as there are or as fit. The end of the stream
    /// is answered where nothing is readable and the peer's FIN has come behind all its octets, and where the connection is CLOSED and reports
    /// no error.
    ///
    /// EBADF; EOPNOTSUPP of a UDP socket and where the socket listens; EINVAL for an empty buffer; ENOTCONN where it has no connection; the
    /// error that its connection reports; EAGAIN while the connection is opened, or where nothing is readable before the end.
    pub fn recv(&mut self, id: SocketId, buffer: &mut [u8]) -> Result<Received, Refusal>
        ensures answer { result ≡ recv_answer self.old id (length buffer.old) }
        ensures octets { buffer.new ≡ recv_front self.old id buffer.old }
        ensures ok { OnOk result (self.new ≡ after_recv self.old id (length buffer.old)) }
        ensures err { OnErr result (self.new ≡ self.old) }
    {
        let place = self.socket_place(id)?;
        self.outlook.turn_to(&self.entries, place);
        self.entries[place].role.recv(buffer)
    }

    /// Closes our side of a connection (RFC 9293 section 3.10.4): a FIN follows the octets that were given. Closed again, it stays so.
    ///
    /// EBADF; EOPNOTSUPP of a UDP socket and where the socket listens; the error that its connection reports; ENOTCONN where it has no
    /// connection or is opening one.
    pub fn shutdown_write(&mut self, id: SocketId) -> Result<(), Refusal>
        ensures refused { result_err result ≡ shutdown_refusal self.old id }
        ensures ok { OnOk result (self.new ≡ after_shutdown self.old id) }
        ensures err { OnErr result (self.new ≡ self.old) }
    {
        let place = self.socket_place(id)?;
        let kept = self.kept;
        self.outlook.turn_to(&self.entries, place);
        self.entries[place].role.shutdown(kept)
    }

    /// Whether small segments of a connection go out without waiting for what is outstanding, from now on (TCP_NODELAY, RFC 9293 section
    /// 3.7.4); at first they wait.
    ///
    /// EBADF; EOPNOTSUPP of a UDP socket and where the socket listens; ENOTCONN where it has had no connection.
    pub fn set_nodelay(&mut self, id: SocketId, on: bool) -> Result<(), Refusal>
        ensures refused { result_err result ≡ nodelay_refusal self.old id }
        ensures ok { OnOk result (self.new ≡ after_nodelay self.old id on) }
        ensures err { OnErr result (self.new ≡ self.old) }
    {
        let place = self.socket_place(id)?;
        let kept = self.kept;
        self.outlook.turn_to(&self.entries, place);
        self.entries[place].role.set_nodelay(kept, on)
    }

    /// Whether the peer of a connection is asked whether it is there, from now on: after so many milliseconds each without a segment of it, while
    /// nothing of ours waits for it (SO_KEEPALIVE, RFC 9293 section 3.8.4, RFC 1122 section 4.2.3.6). At first it isn't. A peer that doesn't answer
    /// is asked again after the retransmission timeout, and then each time after twice as long, a minute at most; the thirteenth time ends the
    /// connection, and every call reports ETIMEDOUT.
    ///
    /// EBADF; EINVAL of less than `LEAST_KEEPALIVE` or more than `MOST_KEEPALIVE`; EOPNOTSUPP of a UDP socket and where the socket listens;
    /// ENOTCONN where it has had no connection.
    pub fn set_keepalive(&mut self, id: SocketId, every: Option<u64>) -> Result<(), Refusal>
        ensures refused { result_err result ≡ keepalive_refusal self.old id every }
        ensures ok { OnOk result (self.new ≡ after_keepalive self.old id every) }
        ensures err { OnErr result (self.new ≡ self.old) }
    {
        let place = self.socket_place(id)?;
        if !may_ask_after(every) {
            return Err(Refusal::EINVAL);
        }
        let kept = self.kept;
        self.outlook.turn_to(&self.entries, place);
        self.entries[place].role.set_keepalive(kept, every)
    }

    /// The state of a socket (RFC 9293 section 3.3.2), CLOSED where it has had no connection, or that it is a UDP socket. EBADF.
    pub fn state(&self, id: SocketId) -> Result<SocketState, Refusal>
        ensures { result ≡ state_answer self.now id }
    {
        let place = self.socket_place(id)?;
        Ok(self.entries[place].role.state())
    }

    /// The place of the socket `id`; EBADF where there is none.
    pub(crate) fn socket_place(&self, id: SocketId) -> Result<usize, Refusal>
        ensures absent { IfErr result (λ e. (e ≡ Refusal.EBADF) × (find (is_socket id) self.now.entries ≡ None)) }
        ensures place { IfOk result (λ place. position (is_socket id) self.now.entries ≡ Some place) }
    {
        table::socket_of(&self.entries, self.outlook.at_hand(), id).ok_or(Refusal::EBADF)
    }
}

/// The endpoint to which an idle socket is bound, which may open a connection; why any other may not.
fn may_open(role: &Role) -> Result<Option<Endpoint>, Refusal>
    ensures { result ≡ open_answer role.now }
{
    match role {
        Role::Idle { bound, .. } => Ok(*bound),
        Role::Listener { .. } | Role::Datagrams { .. } => Err(Refusal::EOPNOTSUPP),
        Role::Connected { connection, .. } => match (connection.error(), connection.state()) {
            (Some(error), _) => Err(Refusal::from(error)),
            (None, State::SynSent | State::SynReceived) => Err(Refusal::EALREADY),
            (None, _) => Err(Refusal::EISCONN),
        },
    }
}

/// The buffers of a connection that behaves so, in a table whose connections hold so many octets each way.
pub(crate) fn new_buffers(
    alloc: Global,
    buffer: usize,
    manner: Manner,
) -> Result<Buffers, AllocError>
    requires least { LEAST_BUFFER ≤ buffer }
    requires most { buffer ≤ LARGEST_CAPACITY }
    ensures { IfOk result (λ buffers. buffers ≡ room_of buffer manner) }
{
    let capacity = if manner.scales {
        buffer
    } else {
        buffer.min(CAPACITY)
    };
    Buffers::new(alloc, capacity, manner)
}

/// Whether a silent peer may be asked after so many milliseconds, or not at all.
fn may_ask_after(every: Option<u64>) -> bool
    ensures { result ≡ may_ask_after every }
{
    match every {
        None => true,
        Some(every) => LEAST_KEEPALIVE <= every && every <= MOST_KEEPALIVE,
    }
}
