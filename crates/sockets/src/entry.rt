//! An entry of the table: a socket, or a connection that no socket names, not yet or no longer.

ghost use Rattle.std.specs.Prelude.{◌≡◌, ◌≤◌, Bool, length, slice_get};
ghost use Rattle.ipv4.specs.declared.addr.Addr.{Addr};
ghost use Rattle.sockets.specs.Entries.{is_kept, dues_of, deadline_of, with_role};
ghost use Rattle.sockets.specs.Lost.{give_up_at, give_up_fate_of, role_after_giving_up};
ghost use Rattle.sockets.specs.Index.{filed};

use crate::emission::Outgoing;
use crate::role::{Role, is_kept};
use clock::Moment;
use ipv4::{Addr, Endpoint};
use tcp_segment::TcpView;
use tcp_state::{Buffers, Connection, Fate};
use udp_socket::UdpSocket;

/// The kind of a socket.
#[derive(Clone, Copy, PartialEq, Eq, Debug)]
pub enum Kind {
    /// A stream socket over TCP (RFC 9293).
    Tcp,
    /// A datagram socket over UDP (RFC 768).
    Udp,
}

/// Names a socket of one table. Ids count from 1, and none is given twice.
#[derive(Clone, Copy, Default, PartialEq, Eq, PartialOrd, Ord, Debug)]
pub struct SocketId(pub u64);

/// An entry of the table: a socket, or a connection that no socket names, not yet or no longer.
#[derive(Drop)]
pub struct Entry {
    pub(crate) id: SocketId,
    pub(crate) role: Role,
}

impl Entry {
    ghost use Rattle.udp_socket.specs.SocketView.{new_socket as new_udp_socket};
    ghost use Rattle.sockets.specs.Entries.{new_socket, new_datagram_socket, new_waiting};

    /// A new TCP socket.
    pub(crate) fn socket(id: SocketId, buffers: Buffers) -> Entry
        ensures { result ≡ new_socket id buffers }
    {
        Entry {
            id,
            role: Role::Idle {
                buffers,
                bound: None,
            },
        }
    }

    /// A new UDP socket, in whose queues nothing waits.
    pub(crate) fn datagrams(id: SocketId, socket: UdpSocket) -> Entry
        requires { socket ≡ new_udp_socket }
        ensures { result ≡ new_datagram_socket id }
    {
        Entry {
            id,
            role: Role::Datagrams {
                bound: None,
                socket,
            },
        }
    }

    /// A connection that the segment `syn` opens at `listener`.
    pub(crate) fn passive(id: SocketId, listener: SocketId, connection: Connection) -> Entry
        ensures { result ≡ new_waiting id listener connection }
    {
        Entry {
            id,
            role: Role::Connected {
                connection,
                listener: Some(listener),
            },
        }
    }
}

/// What the layer above asks of an entry.
impl Entry {
    /// Its id, which names it while it is a socket.
    pub fn id(&self) -> SocketId
        ensures { result ≡ self.now.id }
    {
        self.id
    }

    /// The first of what it has to send in place 0, what follows in the places behind it, and to whom each is; None where nothing more is due.
    #[inline(always)]
    pub fn due_at(&self, place: usize) -> Option<(Endpoint, Outgoing)>
        ensures { result ≡ slice_get (dues_of self.now.role) place }
    {
        self.role.due_at(place)
    }

    /// A number of places that holds all that it has to send: that of the datagrams of a UDP socket, and 1 of a connection, also where it has
    /// nothing due.
    pub fn due_places(&self) -> usize
        ensures { length (dues_of self.now.role) ≤ result }
    {
        self.role.due_places()
    }

    /// The moment from which something of it is given up, since it is for a lost address, which `lost` says: the reset of an abort, what takes
    /// numbers of a connection of which nothing is outstanding, or the first of a UDP socket's datagrams that is.
    pub fn give_up_at<F: Fn(Addr) -> bool>(&self, lost: &F) -> Option<Moment>
        requires { F.IsAlwaysCallable lost.now }
        ensures { (test : Addr → Bool) → ((addr : Addr) (answer : Bool) → F.post lost.now addr answer → answer ≡ test addr) → result ≡ give_up_at test self.now.role }
    {
        self.role.give_up_at(lost)
    }

    /// The moment from which a tick does something to it.
    pub fn deadline(&self) -> Option<Moment>
        ensures { result ≡ deadline_of self.now.role }
    {
        self.role.deadline()
    }
}

/// What happens to the role of an entry; its id stays.
impl Entry {
    ghost use Rattle.sockets.specs.Entries.{role_after_segment, fate_of, is_offered_by, role_after_tick, tick_fate_of, role_after_listener_close, listener_close_fate_of};

    /// The listener `id` is closed. Answers whether the entry keeps its place.
    pub(crate) fn forsake(&mut self, now: Moment, id: SocketId) -> bool
        ensures kept { result ≡ is_kept (listener_close_fate_of id self.old.role) }
        ensures after { self.new ≡ with_role (role_after_listener_close now id) self.old }
    {
        is_kept(self.role.forsake(now, id))
    }

    /// Hands a segment to the connection, and answers what becomes of the entry, and whether the connection is offered to its listener's
    /// caller from now on.
    pub(crate) fn segment(&mut self, now: Moment, segment: &TcpView<'_>) -> (Fate, bool)
        ensures fate { result.0 ≡ fate_of segment.now self.old.role }
        ensures offered { result.1 ≡ is_offered_by now segment.now self.old.role }
        ensures after { self.new ≡ with_role (role_after_segment now segment.now) self.old }
    {
        let waits = self.role.is_pending() && self.role.is_in_syn_received();
        let fate = self.role.segment(now, segment);
        (
            fate,
            waits && is_kept(fate) && !self.role.is_in_syn_received(),
        )
    }

    /// Lets the timers act whose moment has come, and answers whether the entry keeps its place.
    pub(crate) fn tick(&mut self, now: Moment) -> bool
        ensures kept { result ≡ is_kept (tick_fate_of now self.old.role) }
        ensures after { self.new ≡ with_role (role_after_tick now) self.old }
    {
        is_kept(self.role.tick(now))
    }

    /// Gives up what has waited too long for a lost address, and answers whether the entry keeps its place.
    pub(crate) fn give_up<F: Fn(Addr) -> bool>(&mut self, now: Moment, lost: &F) -> bool
        requires { F.IsAlwaysCallable lost.now }
        ensures id { self.new.id ≡ self.old.id }
        ensures filed { filed self.new ≡ filed self.old }
        ensures kept { (test : Addr → Bool) → ((addr : Addr) (answer : Bool) → F.post lost.now addr answer → answer ≡ test addr) → result ≡ is_kept (give_up_fate_of test now self.old.role) }
        ensures after { (test : Addr → Bool) → ((addr : Addr) (answer : Bool) → F.post lost.now addr answer → answer ≡ test addr) → self.new ≡ with_role (role_after_giving_up test now) self.old }
    {
        is_kept(self.role.give_up(now, lost))
    }
}
