//! What an entry of the table is: a TCP socket without a connection, a listener, a connection, or a UDP socket.

ghost use Rattle.std.specs.Prelude.{◌≡◌, ◌≤◌, Bool, if◌then◌else◌, length, slice_get, Some, OnOk, OnErr};
ghost use Rattle.std.specs.Result.{result_err};
ghost use Rattle.ipv4.specs.declared.addr.Addr.{Addr};
ghost use Rattle.sockets.specs.Calls.{own_end};
ghost use Rattle.sockets.specs.Emission.{IsWithin};
ghost use Rattle.clock.specs.declared.moment.Moment.{Moment};
ghost use Rattle.sockets.specs.declared.emission.Outgoing.TheVariants.{Segment as SegmentOf, Datagram as DatagramAt};
ghost use Rattle.sockets.specs.declared.emission.Emitted.TheVariants.{Segment as SegmentOut, Datagram as PartOut};
ghost use Rattle.sockets.specs.Lost.{is_hopless, waits_until};
ghost use Rattle.sockets.specs.Entries.{is_closed_by, is_pending, is_left, has_socket, is_live_between, uses_port, uses_datagram_port, waits_at, is_in_syn_received, peer_of, shown_state, deadline_of, dues_of, HasOutgoing, reset_wait, backlog_of, listens_at, is_kept, source_of};

use crate::emission::Outgoing;
use crate::entry::SocketId;
use crate::refusal::Refusal;
use crate::state::SocketState;
use clock::{HOP_WAIT, Moment};
use ipv4::{Addr, Endpoint, Pair};
use std::mem;
use tcp_segment::{Seq, TcpView};
use tcp_state::{Buffers, Connection, Due, Fate, MOST_SEGMENT, Received, State};
use udp::{MOST_IN_FRAGMENT, Part};
use udp_socket::{MOST_OCTETS, UdpSocket};

/// Where a socket is that is not bound: at 0.0.0.0 and port 0.
const UNBOUND: Endpoint = Endpoint {
    addr: Addr([0; 4]),
    port: 0,
};

/// How its caller leaves a socket: which call an event of the table is.
#[derive(Clone, Copy, PartialEq, Eq, Debug)]
pub enum Leave {
    /// By `close` (RFC 9293 section 3.10.4).
    Close,
    /// By `abort` (section 3.10.5).
    Abort,
}

/// What an entry is.
#[derive(Drop)]
pub(crate) enum Role {
    /// A TCP socket that has had no connection, with the room of one, bound or not.
    Idle {
        buffers: Buffers,
        bound: Option<Endpoint>,
    },
    /// A listening socket, and how many connections may wait to be accepted.
    Listener {
        local: Endpoint,
        backlog: usize,
    },
    /// A connection, and the listener that it waits at while it is not accepted.
    Connected {
        connection: Connection,
        listener: Option<SocketId>,
    },
    /// A UDP socket, bound or not.
    Datagrams {
        bound: Option<Endpoint>,
        socket: UdpSocket,
    },
}

impl Default for Role {
    /// What stands for a moment where a role was taken out: it holds no memory.
    fn default() -> Role {
        Role::Listener {
            local: UNBOUND,
            backlog: 0,
        }
    }
}

/// The endpoint that the datagrams of a socket come from: our address, and the port that it is bound to.
fn source_of(own: Addr, bound: Option<Endpoint>) -> Endpoint
    ensures { result ≡ source_of own bound }
{
    Endpoint {
        addr: own,
        port: bound.map_or(0, |local| local.port),
    }
}

/// Whether an entry keeps its place.
pub(crate) fn is_kept(fate: Fate) -> bool
    ensures { result ≡ is_kept fate }
{
    fate != Fate::Removed
}

/// Until when a connection waits for its hop: with the reset that it owes, or else with what takes numbers.
fn waits_until(connection: &Connection) -> Option<Moment>
    ensures { result ≡ waits_until connection.now }
{
    match connection.reset_since() {
        Some(since) => Some(since.after(HOP_WAIT)),
        None => connection.unheard_until(),
    }
}

/// Whether the address of the connection's peer is lost, and it owes no reset.
fn is_hopless<F: Fn(Addr) -> bool>(connection: &Connection, lost: &F) -> bool
    requires { F.IsAlwaysCallable lost.now }
    ensures { (test : Addr → Bool) → ((addr : Addr) (answer : Bool) → F.post lost.now addr answer → answer ≡ test addr) → result ≡ is_hopless test connection.now }
{
    connection.reset_since().is_none() && lost(connection.peer().addr)
}

/// Whether its caller, who leaves it so, closes the connection: else it is aborted.
fn is_closed_by(connection: &Connection, how: Leave) -> bool
    ensures { result ≡ is_closed_by how connection.now }
{
    match how {
        Leave::Close => true,
        Leave::Abort => matches!(connection.state(), State::SynSent),
    }
}

/// What a role shows.
impl Role {
    ghost use Rattle.sockets.specs.Pairs.{pair_in};
    ghost use Rattle.std.specs.Prelude.{◌&&◌, ◌||◌, false, is_some};
    ghost use Rattle.tcp_state.specs.Way.{is_unanswered, lies_past};
    ghost use Rattle.sockets.specs.Entries.{in_connection, is_pending, is_half_open};
    ghost use Rattle.sockets.specs.GiveWay.{left_since, is_left_since};
    ghost use Rattle.sockets.specs.Lost.{is_given_up, give_up_at};
    ghost use Rattle.sockets.specs.Sound.{IsSoundRole};
    ghost use Rattle.clock.specs.Moments.{has_come};
    ghost use Rattle.sockets.specs.Outlook.{is_busy};

    /// Whether this is a socket: a connection is none while it is not accepted, and once its caller closed it.
    pub(crate) fn has_socket(&self) -> bool
        ensures { result ≡ has_socket self.now }
    {
        !(self.is_pending() || self.is_left())
    }

    /// Whether this is a connection that its caller closed.
    fn is_left(&self) -> bool
        ensures { result ≡ is_left self.now }
    {
        match self {
            Role::Connected { connection, .. } => connection.is_released(),
            _ => false,
        }
    }

    /// Whether this is a connection that is not accepted.
    pub(crate) fn is_pending(&self) -> bool
        ensures { result ≡ is_pending self.now }
    {
        matches!(
            self,
            Role::Connected {
                listener: Some(_),
                ..
            }
        )
    }

    /// Whether this is a connection that waits at `listener`, in SYN-RECEIVED or past it.
    pub(crate) fn waits_at(&self, listener: SocketId) -> bool
        ensures { result ≡ waits_at listener self.now }
    {
        match self {
            Role::Connected {
                listener: Some(id),
                ..
            } => *id == listener,
            _ => false,
        }
    }

    /// Whether this is a connection that waits at `listener`, and whose SYN-ACK went out a second ago or more and is not answered.
    pub(crate) fn is_unanswered_at(&self, listener: SocketId) -> bool
        ensures { result ≡ (waits_at listener self.now && in_connection false is_unanswered self.now) }
    {
        match self {
            Role::Connected {
                connection,
                listener: Some(id),
            } => *id == listener && connection.is_unanswered(),
            _ => false,
        }
    }

    /// Since when this is a connection in TIME-WAIT that its caller closed.
    pub(crate) fn left_since(&self) -> Option<Moment>
        ensures { result ≡ left_since self.now }
    {
        match self {
            Role::Connected {
                connection,
                listener: None,
            } => connection.left_since(),
            _ => None,
        }
    }

    /// Whether it is so since this moment.
    pub(crate) fn is_left_since(&self, moment: Moment) -> bool
        ensures { result ≡ is_left_since moment self.now }
    {
        match self.left_since() {
            Some(since) => since == moment,
            None => false,
        }
    }

    /// Whether this may give way to another connection: it waits half open at a listener, or in TIME-WAIT where no caller has it.
    pub(crate) fn may_give_way(&self) -> bool
        ensures { result ≡ ((is_pending self.now && is_half_open self.now) || is_some (left_since self.now)) }
    {
        match self {
            Role::Connected {
                connection,
                listener: Some(_),
            } => connection.is_half_open(),
            Role::Connected {
                connection,
                listener: None,
            } => connection.left_since().is_some(),
            _ => false,
        }
    }

    /// Whether this is a connection past whose last number that was heard this segment's lies.
    pub(crate) fn lies_past(&self, segment: &TcpView<'_>) -> bool
        ensures { result ≡ in_connection false (λ c. lies_past c segment.now) self.now }
    {
        match self {
            Role::Connected { connection, .. } => connection.lies_past(segment),
            _ => false,
        }
    }

    /// Whether this is a connection in SYN-RECEIVED.
    pub(crate) fn is_in_syn_received(&self) -> bool
        ensures { result ≡ is_in_syn_received self.now }
    {
        match self {
            Role::Connected { connection, .. } => matches!(connection.state(), State::SynReceived),
            _ => false,
        }
    }

    /// The local end of a connection, or where a socket is bound; 0.0.0.0 and port 0 where it is not bound.
    pub(crate) fn own_end(&self) -> Endpoint
        ensures { result ≡ own_end self.now }
    {
        match self {
            Role::Idle { bound, .. } | Role::Datagrams { bound, .. } => bound.unwrap_or(UNBOUND),
            Role::Listener { local, .. } => *local,
            Role::Connected { connection, .. } => connection.local(),
        }
    }

    /// The peer of a connection, in any state.
    pub(crate) fn peer(&self) -> Option<Endpoint>
        ensures { result ≡ peer_of self.now }
    {
        match self {
            Role::Connected { connection, .. } => Some(connection.peer()),
            _ => None,
        }
    }

    /// Whether this is the local port of a bound TCP socket, a listener or a connection.
    pub(crate) fn uses_port(&self, port: u16) -> bool
        ensures { result ≡ uses_port port self.now }
    {
        match self {
            Role::Idle {
                bound: Some(local),
                ..
            } => local.port == port,
            Role::Idle { bound: None, .. } => false,
            Role::Listener { local, .. } => local.port == port,
            Role::Connected { connection, .. } => connection.local().port == port,
            Role::Datagrams { .. } => false,
        }
    }

    /// Whether this is a UDP socket bound to the local port `port`.
    pub(crate) fn uses_datagram_port(&self, port: u16) -> bool
        ensures { result ≡ uses_datagram_port port self.now }
    {
        match self {
            Role::Datagrams {
                bound: Some(local),
                ..
            } => local.port == port,
            _ => false,
        }
    }

    /// Whether this is a listener at the local port `port`.
    pub(crate) fn listens_at(&self, port: u16) -> bool
        ensures { result ≡ listens_at port self.now }
    {
        match self {
            Role::Listener { local, .. } => local.port == port,
            _ => false,
        }
    }

    /// How many connections may wait at a listener; 0 where this is none.
    pub(crate) fn backlog(&self) -> usize
        ensures { result ≡ backlog_of self.now }
    {
        match self {
            Role::Listener { backlog, .. } => *backlog,
            _ => 0,
        }
    }

    /// Whether this is a connection from `local` to `peer`, in any state but CLOSED.
    pub(crate) fn is_live_between(&self, local: Endpoint, peer: Endpoint) -> bool
        ensures { result ≡ is_live_between local peer self.now }
    {
        match self {
            Role::Connected { connection, .. } => {
                !matches!(connection.state(), State::Closed)
                    && connection.local().is_same(local)
                    && connection.peer().is_same(peer)
            }
            _ => false,
        }
    }

    /// The pair of a connection.
    pub(crate) fn pair(&self) -> Option<Pair>
        ensures { result ≡ pair_in self.now }
    {
        match self {
            Role::Connected { connection, .. } => {
                Some(Pair::new(connection.local(), connection.peer()))
            }
            _ => None,
        }
    }

    /// The state that the entry shows: that of RFC 9293 section 3.3.2, CLOSED without a connection, or that it is a UDP socket.
    pub(crate) fn state(&self) -> SocketState
        ensures { result ≡ shown_state self.now }
    {
        match self {
            Role::Idle { .. } => SocketState::Stream(State::Closed),
            Role::Listener { .. } => SocketState::Stream(State::Listen),
            Role::Connected { connection, .. } => SocketState::Stream(connection.state()),
            Role::Datagrams { .. } => SocketState::Datagram,
        }
    }

    /// The moment from which a tick does something to the entry.
    pub(crate) fn deadline(&self) -> Option<Moment>
        ensures { result ≡ deadline_of self.now }
    {
        match self {
            Role::Connected { connection, .. } => connection.deadline(),
            _ => None,
        }
    }

    /// Whether that moment has come.
    pub(crate) fn has_come(&self, now: Moment) -> bool
        ensures { result ≡ has_come (deadline_of self.now) now }
    {
        match self.deadline() {
            Some(deadline) => deadline <= now,
            None => false,
        }
    }

    /// Whether it has something to send, or waits for the hop to its peer.
    pub(crate) fn is_busy(&self) -> bool
        ensures { result ≡ is_busy self.now }
    {
        match self {
            Role::Connected { connection, .. } => {
                connection.due().is_some() || waits_until(connection).is_some()
            }
            Role::Datagrams { socket, .. } => socket.waiting() > 0,
            _ => false,
        }
    }

    /// What it has to send in this place, and to whom: the segment of a connection in place 0, a datagram of a UDP socket in its own.
    #[inline(always)]
    pub(crate) fn due_at(&self, place: usize) -> Option<(Endpoint, Outgoing)>
        ensures { result ≡ slice_get (dues_of self.now) place }
    {
        match self {
            Role::Connected { connection, .. } => {
                if place > 0 {
                    return None;
                }
                let due = connection.due()?;
                Some((connection.peer(), Outgoing::Segment(due)))
            }
            Role::Datagrams { socket, .. } => {
                let peer = socket.peer_at(place)?;
                Some((peer, Outgoing::Datagram(place)))
            }
            _ => None,
        }
    }

    /// A number of places that holds all that it has to send.
    pub(crate) fn due_places(&self) -> usize
        ensures { length (dues_of self.now) ≤ result }
    {
        match self {
            Role::Connected { .. } => 1,
            Role::Datagrams { socket, .. } => socket.waiting(),
            _ => 0,
        }
    }

    /// To whom the reset of an abort is owed, and since when it waits to go out.
    fn reset_wait(&self) -> Option<(Endpoint, Moment)>
        ensures { result ≡ reset_wait self.now }
    {
        let Role::Connected { connection, .. } = self else {
            return None;
        };
        let since = connection.reset_since()?;
        Some((connection.peer(), since))
    }

    /// Whether its reset is given up: it has waited for `HOP_WAIT`, and its peer's address is lost.
    pub(crate) fn is_given_up<F: Fn(Addr) -> bool>(&self, now: Moment, lost: &F) -> bool
        requires { F.IsAlwaysCallable lost.now }
        ensures { (test : Addr → Bool) → ((addr : Addr) (answer : Bool) → F.post lost.now addr answer → answer ≡ test addr) → result ≡ is_given_up test now self.now }
    {
        match self.reset_wait() {
            Some((peer, since)) => since.after(HOP_WAIT) <= now && lost(peer.addr),
            None => false,
        }
    }

    /// The moment from which something of it is given up: its reset or what takes numbers, where its peer's address is lost, or one of its
    /// datagrams to a lost address.
    pub(crate) fn give_up_at<F: Fn(Addr) -> bool>(&self, lost: &F) -> Option<Moment>
        requires { F.IsAlwaysCallable lost.now }
        ensures { (test : Addr → Bool) → ((addr : Addr) (answer : Bool) → F.post lost.now addr answer → answer ≡ test addr) → result ≡ give_up_at test self.now }
    {
        match self {
            Role::Connected { connection, .. } if lost(connection.peer().addr) => {
                waits_until(connection)
            }
            Role::Datagrams { socket, .. } => socket.deadline(lost),
            _ => None,
        }
    }

    /// What a connection keeps of itself, for the contracts above; it changes nothing.
    pub(crate) fn sound(&self)
        ensures { IsSoundRole self.now }
    {
        if let Role::Connected { connection, .. } = self {
            let _ = connection.state();
            let _ = connection.local();
            let _ = connection.peer();
        }
    }
}

/// What the calls, a segment, an error, the clock and an emission make of a role. Each names the role that it is for, and leaves any other.
impl Role {
    ghost use Rattle.sockets.specs.Index.{filed_as};
    ghost use Rattle.sockets.specs.Entries.{role_after_bind, role_after_listen, role_after_connect, role_after_accept, role_after_send, role_after_recv, role_after_shutdown, role_after_nodelay, role_after_keepalive, role_after_segment, fate_of, role_after_unreachable, unreachable_fate_of, role_after_tick, tick_fate_of, role_after_emission, emission_fate_of, due_emitted, due_front, has_room_to_send, role_after_sendto, role_after_recvfrom, has_room_to_receive, role_after_reception, role_after_leaving, leaving_fate_of, role_after_abort, abort_fate_of, role_after_listener_close, listener_close_fate_of};
    ghost use Rattle.sockets.specs.Calls.{role_send_answer, role_recv_answer, role_shutdown_refusal, role_nodelay_refusal, read_front};
    ghost use Rattle.sockets.specs.Datagrams.{role_recvfrom_answer, datagram_front};
    ghost use Rattle.sockets.specs.Lost.{give_up_fate_of, role_after_giving_up};

    /// Binds a socket without a connection to `to`.
    pub(crate) fn bind(&mut self, to: Endpoint)
        ensures { self.new ≡ role_after_bind to self.old }
    {
        match self {
            Role::Idle { bound, .. } => *bound = Some(to),
            Role::Datagrams { bound, .. } => *bound = Some(to),
            _ => {}
        }
    }

    /// Lets a bound idle socket listen, and frees its buffers.
    pub(crate) fn listen(&mut self, backlog: usize)
        ensures { self.new ≡ role_after_listen backlog self.old }
    {
        if let Role::Idle {
            bound: Some(local),
            ..
        } = self
        {
            let local = *local;
            *self = Role::Listener { local, backlog };
        }
    }

    /// Lets an idle socket open a connection at this moment (RFC 9293 section 3.10.1).
    pub(crate) fn connect(&mut self, now: Moment, local: Endpoint, peer: Endpoint, isn: Seq)
        ensures { self.new ≡ role_after_connect local peer isn.0 now self.old }
    {
        *self = match mem::take(self) {
            Role::Idle { buffers, .. } => Role::Connected {
                connection: Connection::active(buffers, local, peer, isn, now),
                listener: None,
            },
            other => other,
        };
    }

    /// Lets a connection leave its listener.
    pub(crate) fn accept(&mut self)
        ensures { self.new ≡ role_after_accept self.old }
    {
        if let Role::Connected { listener, .. } = self {
            *listener = None;
        }
    }

    /// Gives octets to the connection at this moment, and answers how many it took.
    pub(crate) fn send(&mut self, now: Moment, octets: &[u8]) -> Result<usize, Refusal>
        ensures answer { result ≡ role_send_answer self.old octets.now }
        ensures after { self.new ≡ role_after_send now octets.now self.old }
    {
        match self {
            Role::Idle { .. } => Err(Refusal::ENOTCONN),
            Role::Listener { .. } => Err(Refusal::EOPNOTSUPP),
            Role::Datagrams { .. } => Err(Refusal::EDESTADDRREQ),
            Role::Connected { connection, .. } => match connection.send(now, octets) {
                Ok(taken) => Ok(taken),
                Err(refusal) => Err(Refusal::from(refusal)),
            },
        }
    }

    /// Reads octets of the connection into `buffer`, as many as there are or as fit.
    pub(crate) fn recv(&mut self, buffer: &mut [u8]) -> Result<Received, Refusal>
        ensures answer { result ≡ role_recv_answer self.old (length buffer.old) }
        ensures after { self.new ≡ role_after_recv (length buffer.old) self.old }
        ensures octets { buffer.new ≡ read_front self.old buffer.old }
    {
        match self {
            Role::Listener { .. } | Role::Datagrams { .. } => Err(Refusal::EOPNOTSUPP),
            _ if buffer.is_empty() => Err(Refusal::EINVAL),
            Role::Idle { .. } => Err(Refusal::ENOTCONN),
            Role::Connected { connection, .. } => match connection.recv(buffer) {
                Ok(received) => Ok(received),
                Err(refusal) => Err(Refusal::from(refusal)),
            },
        }
    }

    /// Closes our side of the connection at this moment, where it is past its opening.
    pub(crate) fn shutdown(&mut self, now: Moment) -> Result<(), Refusal>
        ensures refused { result_err result ≡ role_shutdown_refusal self.old }
        ensures after { self.new ≡ role_after_shutdown now self.old }
    {
        match self {
            Role::Idle { .. } => Err(Refusal::ENOTCONN),
            Role::Listener { .. } | Role::Datagrams { .. } => Err(Refusal::EOPNOTSUPP),
            Role::Connected { connection, .. } => match connection.shutdown(now) {
                Ok(()) => Ok(()),
                Err(refusal) => Err(Refusal::from(refusal)),
            },
        }
    }

    /// Whether small segments of the connection go out without waiting for what is outstanding, from this moment on.
    pub(crate) fn set_nodelay(&mut self, now: Moment, on: bool) -> Result<(), Refusal>
        ensures refused { result_err result ≡ role_nodelay_refusal self.old }
        ensures after { self.new ≡ role_after_nodelay on now self.old }
    {
        match self {
            Role::Idle { .. } => Err(Refusal::ENOTCONN),
            Role::Listener { .. } | Role::Datagrams { .. } => Err(Refusal::EOPNOTSUPP),
            Role::Connected { connection, .. } => {
                connection.set_nodelay(now, on);
                Ok(())
            }
        }
    }

    /// Whether the peer is asked whether it is there, from this moment on, after so many milliseconds each without a segment of it.
    pub(crate) fn set_keepalive(&mut self, now: Moment, every: Option<u64>) -> Result<(), Refusal>
        ensures refused { result_err result ≡ role_nodelay_refusal self.old }
        ensures after { self.new ≡ role_after_keepalive every now self.old }
    {
        match self {
            Role::Idle { .. } => Err(Refusal::ENOTCONN),
            Role::Listener { .. } | Role::Datagrams { .. } => Err(Refusal::EOPNOTSUPP),
            Role::Connected { connection, .. } => {
                connection.set_keepalive(now, every);
                Ok(())
            }
        }
    }

    /// Takes a datagram to be sent from `local`, where the UDP socket is bound then, and answers whether it did: not where it has no room.
    pub(crate) fn send_to(
        &mut self,
        now: Moment,
        local: Endpoint,
        peer: Endpoint,
        identification: u16,
        octets: &[u8],
    ) -> bool
        requires { length octets.now ≤ MOST_OCTETS }
        ensures room { result ≡ has_room_to_send (length octets.now) self.old }
        ensures after { self.new ≡ (if result then role_after_sendto local now peer identification octets.now self.old else self.old) }
    {
        let Role::Datagrams { bound, socket } = self else {
            return false;
        };
        if socket.send(now, peer, identification, octets).is_err() {
            return false;
        }
        *bound = Some(local);
        true
    }

    /// Reads the first datagram that came into `buffer`, as far as this has room, and answers how many octets these are, and where it is from.
    pub(crate) fn recv_from(&mut self, buffer: &mut [u8]) -> Result<(usize, Endpoint), Refusal>
        ensures answer { result ≡ role_recvfrom_answer self.old (length buffer.old) }
        ensures ok { OnOk result (self.new ≡ role_after_recvfrom self.old) }
        ensures err { OnErr result (self.new ≡ self.old) }
        ensures octets { buffer.new ≡ datagram_front self.old buffer.old }
    {
        let Role::Datagrams { socket, .. } = self else {
            return Err(Refusal::EOPNOTSUPP);
        };
        if buffer.is_empty() {
            return Err(Refusal::EINVAL);
        }
        socket.recv(buffer).ok_or(Refusal::EAGAIN)
    }

    /// Takes a datagram that came from this endpoint, and answers whether it did: not where it has no room.
    pub(crate) fn receive(&mut self, from: Endpoint, octets: &[u8]) -> bool
        ensures room { result ≡ has_room_to_receive (length octets.now) self.old }
        ensures after { self.new ≡ (if result then role_after_reception from octets.now self.old else self.old) }
    {
        match self {
            Role::Datagrams { socket, .. } => socket.receive(from, octets),
            _ => false,
        }
    }

    /// The caller leaves the socket. Answers what becomes of the entry: nothing is left of a socket without a connection.
    pub(crate) fn leave(&mut self, how: Leave, now: Moment) -> Fate
        ensures fate { result ≡ leaving_fate_of how now self.old }
        ensures after { self.new ≡ role_after_leaving how now self.old }
    {
        match self {
            Role::Connected { connection, .. } if is_closed_by(connection, how) => {
                connection.close(now)
            }
            Role::Connected { connection, .. } => connection.abort(now),
            _ => Fate::Removed,
        }
    }

    /// The listener `id` is closed: a connection that waits at it is aborted. Answers what becomes of the entry.
    pub(crate) fn forsake(&mut self, now: Moment, id: SocketId) -> Fate
        ensures fate { result ≡ listener_close_fate_of id self.old }
        ensures after { self.new ≡ role_after_listener_close now id self.old }
    {
        if self.waits_at(id) {
            self.abort(now)
        } else {
            Fate::Stays
        }
    }

    /// Aborts the connection, and answers what becomes of the entry.
    fn abort(&mut self, now: Moment) -> Fate
        ensures fate { result ≡ abort_fate_of self.old }
        ensures after { self.new ≡ role_after_abort now self.old }
    {
        match self {
            Role::Connected { connection, .. } => connection.abort(now),
            _ => Fate::Stays,
        }
    }

    /// Hands a segment to the connection, and answers what becomes of the entry.
    pub(crate) fn segment(&mut self, now: Moment, segment: &TcpView<'_>) -> Fate
        ensures fate { result ≡ fate_of segment.now self.old }
        ensures after { self.new ≡ role_after_segment now segment.now self.old }
    {
        match self {
            Role::Connected { connection, .. } => connection.segment(now, segment),
            _ => Fate::Stays,
        }
    }

    /// Tells the connection that the segment of this number can't be delivered, and answers what becomes of the entry.
    pub(crate) fn unreachable(&mut self, number: Seq) -> Fate
        ensures fate { result ≡ unreachable_fate_of number.0 self.old }
        ensures after { self.new ≡ role_after_unreachable number.0 self.old }
    {
        match self {
            Role::Connected { connection, .. } => connection.unreachable(number),
            _ => Fate::Stays,
        }
    }

    /// Lets the timers whose moment has come act, and answers what becomes of the entry.
    pub(crate) fn tick(&mut self, now: Moment) -> Fate
        ensures fate { result ≡ tick_fate_of now self.old }
        ensures after { self.new ≡ role_after_tick now self.old }
    {
        match self {
            Role::Connected { connection, .. } => connection.tick(now),
            _ => Fate::Stays,
        }
    }

    /// Gives up what has waited too long for a lost address, and answers what becomes of the entry.
    pub(crate) fn give_up<F: Fn(Addr) -> bool>(&mut self, now: Moment, lost: &F) -> Fate
        requires { F.IsAlwaysCallable lost.now }
        ensures fate { (test : Addr → Bool) → ((addr : Addr) (answer : Bool) → F.post lost.now addr answer → answer ≡ test addr) → result ≡ give_up_fate_of test now self.old }
        ensures after { (test : Addr → Bool) → ((addr : Addr) (answer : Bool) → F.post lost.now addr answer → answer ≡ test addr) → self.new ≡ role_after_giving_up test now self.old }
        ensures filed { (id : SocketId) → filed_as id self.new ≡ filed_as id self.old }
    {
        if self.is_given_up(now, lost) {
            return Fate::Removed;
        }
        match self {
            Role::Connected { connection, .. } if is_hopless(connection, lost) => {
                connection.lose_hop(now)
            }
            Role::Datagrams { socket, .. } => {
                socket.give_up(now, lost);
                Fate::Stays
            }
            _ => Fate::Stays,
        }
    }

    /// Writes the segment that a connection has to send, from `out[0]` on, and answers its length in octets.
    #[inline(always)]
    pub(crate) fn emit_segment(&mut self, due: Due, now: Moment, out: &mut [u8]) -> usize
        requires due { HasOutgoing self.old (SegmentOf due) }
        requires room { MOST_SEGMENT ≤ length out.old }
        ensures what { Some (SegmentOut result) ≡ due_emitted (SegmentOf due) self.old }
        ensures bound { result ≤ MOST_SEGMENT }
        ensures after { self.new ≡ role_after_emission now (SegmentOf due) self.old }
        ensures frame { (own : Addr) → out.new ≡ due_front own (SegmentOf due) self.old out.old }
    {
        match self {
            Role::Connected { connection, .. } => connection.emit(due, now, out),
            _ => unreachable!(),
        }
    }

    /// Writes the next part of the datagram with this number, of those that a UDP socket has to send, from our address, from `out[0]` on, and answers what the
    /// header of IPv4 has to tell of it.
    pub(crate) fn emit_datagram(&mut self, number: usize, own: Addr, out: &mut [u8]) -> Part
        requires due { HasOutgoing self.old (DatagramAt number) }
        requires room { MOST_IN_FRAGMENT ≤ length out.old }
        ensures what { Some (PartOut result) ≡ due_emitted (DatagramAt number) self.old }
        ensures bound { IsWithin (PartOut result) }
        ensures after { (now : Moment) → self.new ≡ role_after_emission now (DatagramAt number) self.old }
        ensures frame { out.new ≡ due_front own (DatagramAt number) self.old out.old }
    {
        match self {
            Role::Datagrams { bound, socket } => socket.emit(number, source_of(own, *bound), out),
            _ => unreachable!(),
        }
    }

    /// What becomes of the entry once its segment went out: an abort is over then.
    pub(crate) fn emission_fate_of(&self) -> Fate
        ensures { result ≡ emission_fate_of self.now }
    {
        match self {
            Role::Connected { connection, .. } if connection.is_over() => Fate::Removed,
            _ => Fate::Stays,
        }
    }
}
