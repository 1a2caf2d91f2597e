//! The socket calls (POSIX.1-2017): each is the table's, over the host's address, and `connect` asks the routes.

ghost use Rattle.std.specs.Prelude.{◌≡◌, ◌^◌, ◌<◌, ◌↔◌, ◌+◌, ◌⊎◌, length, IfOk, IfErr, OnOk, OnErr, IsTrue};
ghost use Rattle.std.specs.Result.{result_err};
ghost use Rattle.interface.specs.Ways.{is_routed};

use crate::host::Host;
use clock::Moment;
use ipv4::{Endpoint, Pair};
use sockets::{Kind, Refusal, SocketId, SocketState};
use tcp_segment::Seq;
use tcp_state::Received;

impl Host {
    ghost use Rattle.host.specs.HostView.{with_sockets};
    ghost use Rattle.sockets.specs.Calls.{is_table_full, IsMade, bind_refusal, after_bind, listen_refusal, after_listen, accept_answer, after_accept, connect_refusal, after_connect, pair_connected, send_answer, after_send, recv_answer, recv_front, after_recv, shutdown_refusal, after_shutdown, nodelay_refusal, after_nodelay, keepalive_refusal, after_keepalive, close_refusal, after_close, after_abort, state_answer, sockname_answer, peername_answer};
    ghost use Rattle.sockets.specs.Datagrams.{sendto_answer, after_sendto, recvfrom_answer, recvfrom_front, after_recvfrom};

    /// Makes a socket of this kind. EMFILE, ENOMEM. See `Sockets::socket`.
    pub fn socket(&mut self, kind: Kind) -> Result<SocketId, Refusal>
        ensures full { (result ≡ Err Refusal.EMFILE) ↔ IsTrue (is_table_full self.old.sockets) }
        ensures other { IfErr result (λ e. (e ≡ Refusal.EMFILE) ⊎ (e ≡ Refusal.ENOMEM)) }
        ensures ok { IfOk result (λ id. (id.0 ≡ self.old.sockets.last_id + 1) × IsMade kind self.old.sockets self.new.sockets × (self.new ≡ with_sockets self.old self.new.sockets)) }
        ensures err { OnErr result (self.new ≡ self.old) }
    {
        self.sound();
        self.layers.sockets.socket(kind)
    }

    /// Binds a socket to a local endpoint; port 0 asks for a dynamic port, which `sockname` tells. EBADF, EINVAL, EADDRNOTAVAIL, EADDRINUSE.
    /// See `Sockets::bind`.
    pub fn bind(&mut self, id: SocketId, local: Endpoint) -> Result<(), Refusal>
        ensures refused { result_err result ≡ bind_refusal self.old.sockets id local }
        ensures ok { OnOk result (self.new ≡ with_sockets self.old (after_bind self.old.sockets id local)) }
        ensures err { OnErr result (self.new ≡ self.old) }
    {
        self.sound();
        self.layers.sockets.bind(id, local)
    }

    /// Lets a bound socket take connections, of which 1 to 8 may wait. EBADF, EOPNOTSUPP, EINVAL, EDESTADDRREQ. See `Sockets::listen`.
    pub fn listen(&mut self, id: SocketId, backlog: usize) -> Result<(), Refusal>
        ensures refused { result_err result ≡ listen_refusal self.old.sockets id backlog }
        ensures ok { OnOk result (self.new ≡ with_sockets self.old (after_listen self.old.sockets id backlog)) }
        ensures err { OnErr result (self.new ≡ self.old) }
    {
        self.sound();
        self.layers.sockets.listen(id, backlog)
    }

    /// Takes the connection that waits longest at a listener past its opening. EBADF, EOPNOTSUPP, EINVAL, EAGAIN. See `Sockets::accept`.
    pub fn accept(&mut self, id: SocketId) -> Result<(SocketId, Endpoint), Refusal>
        ensures answer { result ≡ accept_answer self.old.sockets id }
        ensures ok { OnOk result (self.new ≡ with_sockets self.old (after_accept self.old.sockets id)) }
        ensures err { OnErr result (self.new ≡ self.old) }
    {
        self.sound();
        self.layers.sockets.accept(id)
    }

    /// Opens a connection to `peer`, whose initial sequence number here is `isn`, at this moment, or at that of the last tick where that is later, where one
    /// of the host's routes leads to the peer (RFC 1122 section 3.3.1.1). EBADF, EOPNOTSUPP, ECONNREFUSED, ECONNRESET, ETIMEDOUT, EALREADY, EISCONN,
    /// EADDRNOTAVAIL, ENETUNREACH, EADDRINUSE. See `Sockets::connect`.
    pub fn connect(
        &mut self,
        now: Moment,
        isn: Seq,
        id: SocketId,
        peer: Endpoint,
    ) -> Result<(), Refusal>
        ensures refused { result_err result ≡ connect_refusal self.old.sockets id peer (is_routed self.old.interface peer.addr) }
        ensures ok { OnOk result (self.new ≡ with_sockets self.old (after_connect self.old.sockets now isn.0 id peer (is_routed self.old.interface peer.addr))) }
        ensures numbered { isn.0 < 2 ^ 32 }
        ensures err { OnErr result (self.new ≡ self.old) }
    {
        self.sound();
        let is_routed = self.layers.interface.is_routed(peer.addr);
        self.layers.sockets.connect(now, isn, id, peer, is_routed)
    }

    /// The pair that `connect` would open; None where it would be refused.
    pub fn would_connect(&self, id: SocketId, peer: Endpoint) -> Option<Pair>
        ensures { result ≡ pair_connected self.now.sockets id peer (is_routed self.now.interface peer.addr) }
    {
        self.layers
            .sockets
            .would_connect(id, peer, self.layers.interface.is_routed(peer.addr))
    }

    /// Gives octets to a connection, and answers how many it took. EBADF, EDESTADDRREQ, EOPNOTSUPP, ENOTCONN, ECONNREFUSED, ECONNRESET,
    /// ETIMEDOUT, EAGAIN, EPIPE. See `Sockets::send`.
    pub fn send(&mut self, id: SocketId, octets: &[u8]) -> Result<usize, Refusal>
        ensures answer { result ≡ send_answer self.old.sockets id octets.now }
        ensures ok { OnOk result (self.new ≡ with_sockets self.old (after_send self.old.sockets id octets.now)) }
        ensures err { OnErr result (self.new ≡ self.old) }
    {
        self.sound();
        self.layers.sockets.send(id, octets)
    }

    /// Reads octets of a connection into `buffer`, or the end of the stream. EBADF, EOPNOTSUPP, EINVAL, ENOTCONN, ECONNREFUSED, ECONNRESET,
    /// ETIMEDOUT, EAGAIN. See `Sockets::recv`.
    pub fn recv(&mut self, id: SocketId, buffer: &mut [u8]) -> Result<Received, Refusal>
        ensures answer { result ≡ recv_answer self.old.sockets id (length buffer.old) }
        ensures octets { buffer.new ≡ recv_front self.old.sockets id buffer.old }
        ensures ok { OnOk result (self.new ≡ with_sockets self.old (after_recv self.old.sockets id (length buffer.old))) }
        ensures err { OnErr result (self.new ≡ self.old) }
    {
        self.sound();
        self.layers.sockets.recv(id, buffer)
    }

    /// Closes our side of a connection: a FIN follows the octets that were given. EBADF, EOPNOTSUPP, ECONNREFUSED, ECONNRESET, ETIMEDOUT,
    /// ENOTCONN. See `Sockets::shutdown_write`.
    pub fn shutdown_write(&mut self, id: SocketId) -> Result<(), Refusal>
        ensures refused { result_err result ≡ shutdown_refusal self.old.sockets id }
        ensures ok { OnOk result (self.new ≡ with_sockets self.old (after_shutdown self.old.sockets id)) }
        ensures err { OnErr result (self.new ≡ self.old) }
    {
        self.sound();
        self.layers.sockets.shutdown_write(id)
    }

    /// Whether small segments of a connection go out at once. EBADF, EOPNOTSUPP, ENOTCONN. See `Sockets::set_nodelay`.
    pub fn set_nodelay(&mut self, id: SocketId, on: bool) -> Result<(), Refusal>
        ensures refused { result_err result ≡ nodelay_refusal self.old.sockets id }
        ensures ok { OnOk result (self.new ≡ with_sockets self.old (after_nodelay self.old.sockets id on)) }
        ensures err { OnErr result (self.new ≡ self.old) }
    {
        self.sound();
        self.layers.sockets.set_nodelay(id, on)
    }

    /// Whether a silent peer of a connection is asked whether it is there, after so many milliseconds each. EBADF, EINVAL, EOPNOTSUPP, ENOTCONN. See
    /// `Sockets::set_keepalive`.
    pub fn set_keepalive(&mut self, id: SocketId, every: Option<u64>) -> Result<(), Refusal>
        ensures refused { result_err result ≡ keepalive_refusal self.old.sockets id every }
        ensures ok { OnOk result (self.new ≡ with_sockets self.old (after_keepalive self.old.sockets id every)) }
        ensures err { OnErr result (self.new ≡ self.old) }
    {
        self.sound();
        self.layers.sockets.set_keepalive(id, every)
    }

    /// Gives a UDP datagram for `peer` to a socket, where one of the host's routes leads to it (RFC 1122 section 3.3.1.1). EBADF, EOPNOTSUPP,
    /// EMSGSIZE, EADDRNOTAVAIL, ENETUNREACH, EADDRINUSE, EAGAIN. See `Sockets::sendto`.
    pub fn sendto(&mut self, id: SocketId, peer: Endpoint, octets: &[u8]) -> Result<usize, Refusal>
        ensures answer { result ≡ sendto_answer self.old.sockets id peer octets.now (is_routed self.old.interface peer.addr) }
        ensures ok { OnOk result (self.new ≡ with_sockets self.old (after_sendto self.old.sockets id peer octets.now (is_routed self.old.interface peer.addr))) }
        ensures err { OnErr result (self.new ≡ self.old) }
    {
        self.sound();
        self.layers.sockets.sendto(id, peer, octets, self.layers.interface.is_routed(peer.addr))
    }

    /// Reads the first UDP datagram that came to a socket into `buffer`, as far as it fits. EBADF, EOPNOTSUPP, EINVAL, EAGAIN. See
    /// `Sockets::recvfrom`.
    pub fn recvfrom(
        &mut self,
        id: SocketId,
        buffer: &mut [u8],
    ) -> Result<(usize, Endpoint), Refusal>
        ensures answer { result ≡ recvfrom_answer self.old.sockets id (length buffer.old) }
        ensures octets { buffer.new ≡ recvfrom_front self.old.sockets id buffer.old }
        ensures ok { OnOk result (self.new ≡ with_sockets self.old (after_recvfrom self.old.sockets id)) }
        ensures err { OnErr result (self.new ≡ self.old) }
    {
        self.sound();
        self.layers.sockets.recvfrom(id, buffer)
    }

    /// Closes a socket: its id names none any more. EBADF. See `Sockets::close`.
    pub fn close(&mut self, id: SocketId) -> Result<(), Refusal>
        ensures refused { result_err result ≡ close_refusal self.old.sockets id }
        ensures ok { OnOk result (self.new ≡ with_sockets self.old (after_close self.old.sockets id)) }
        ensures err { OnErr result (self.new ≡ self.old) }
    {
        self.sound();
        self.layers.sockets.close(id)
    }

    /// Aborts a socket: its id names none any more, and the peer of its connection is owed a reset. EBADF. See `Sockets::abort`.
    pub fn abort(&mut self, id: SocketId) -> Result<(), Refusal>
        ensures refused { result_err result ≡ close_refusal self.old.sockets id }
        ensures ok { OnOk result (self.new ≡ with_sockets self.old (after_abort self.old.sockets id)) }
        ensures err { OnErr result (self.new ≡ self.old) }
    {
        self.sound();
        self.layers.sockets.abort(id)
    }

    /// The state of a socket. EBADF. See `Sockets::state`.
    pub fn state(&self, id: SocketId) -> Result<SocketState, Refusal>
        ensures { result ≡ state_answer self.now.sockets id }
    {
        self.layers.sockets.state(id)
    }

    /// Where a socket is. EBADF. See `Sockets::sockname`.
    pub fn sockname(&self, id: SocketId) -> Result<Endpoint, Refusal>
        ensures { result ≡ sockname_answer self.now.sockets id }
    {
        self.layers.sockets.sockname(id)
    }

    /// The peer of a socket's connection. EBADF, ENOTCONN. See `Sockets::peername`.
    pub fn peername(&self, id: SocketId) -> Result<Endpoint, Refusal>
        ensures { result ≡ peername_answer self.now.sockets id }
    {
        self.layers.sockets.peername(id)
    }
}
