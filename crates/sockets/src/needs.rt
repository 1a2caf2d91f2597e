//! What arrives needs, told before it is taken. Nothing changes.

ghost use Rattle.std.specs.Prelude.{◌≡◌, length};
ghost use Rattle.tcp_state.specs.Asking.{is_rejection};
ghost use Rattle.sockets.specs.Entries.{fate_of, has_room_to_receive};
ghost use Rattle.sockets.specs.Needs.{need_of_answer};

use crate::arrival::is_opening;
use crate::datagrams::Reception;
use crate::entry::Entry;
use crate::replies;
use crate::role::Role;
use crate::sockets::Sockets;
use ipv4::Addr;
use tcp_segment::{Head, TcpView};
use udp::UdpView;

/// What a segment needs, and is dropped where there is none.
#[derive(Clone, Copy, PartialEq, Eq, Debug)]
pub enum Need {
    /// A place at its listener, where as many connections wait as the backlog allows.
    Backlog,
    /// A place in the table, which is full, or an id, the last of which is given.
    Table,
    /// Memory for the two buffers of the connection that it opens, which has its place.
    Memory,
    /// Room for the reset that answers it (RFC 9293 section 3.5.2).
    Reply,
}

#[tactic(auto, using(crate::proofs::Firsts::firsts))]
impl Sockets {
    ghost use Rattle.sockets.specs.Datagrams.{reception};
    ghost use Rattle.sockets.specs.Needs.{is_backlog_full, need, need_alone, need_at};

    /// What a segment from this address needs, to be taken by `take`: none where its connection takes it, or nothing answers it. Of what a new
    /// connection needs it is the first that there is none of, in the order of `Need`, and memory where all else is there.
    pub fn need_of_segment(&self, source: Addr, segment: &TcpView<'_>) -> Option<Need>
        ensures { result ≡ need self.now source segment.now }
    {
        let (local, peer) = self.ends(source, segment);
        match self.connection_between(local, peer) {
            Some(place) if self.entries[place].role.would_reject(segment) => Some(Need::Reply),
            Some(_) => None,
            None => self.need_alone(segment),
        }
    }

    /// What becomes of a datagram that comes, as `receive` would answer.
    pub fn would_receive(&self, datagram: &UdpView<'_>) -> Reception
        ensures { result ≡ reception self.now datagram.now }
    {
        let Some(place) = self.datagrams_at(datagram.destination()) else {
            return Reception::NoSocket;
        };
        if self.entries[place]
            .role
            .would_receive(datagram.payload().len())
        {
            Reception::Queued
        } else {
            Reception::NoRoom
        }
    }

    /// What a segment for no connection needs.
    fn need_alone(&self, segment: &TcpView<'_>) -> Option<Need>
        ensures { result ≡ need_alone self.now segment.now }
    {
        match self.listener_at(segment.destination()) {
            None => need_of_answer(replies::answer_to(segment)),
            Some(place) if is_opening(segment) => Some(self.need_at(&self.entries[place])),
            Some(_) => need_of_answer(replies::answer_at_listener(segment)),
        }
    }

    /// What a further connection at this listener needs.
    fn need_at(&self, listener: &Entry) -> Need
        ensures { result ≡ need_at self.now listener.now }
    {
        if self.is_backlog_full(listener) {
            Need::Backlog
        } else if self.entries.is_full() || self.last_id == u64::MAX {
            Need::Table
        } else {
            Need::Memory
        }
    }

    /// Whether as many connections wait at this listener as its backlog allows.
    pub(crate) fn is_backlog_full(&self, listener: &Entry) -> bool
        ensures { result ≡ is_backlog_full self.now listener.now }
    {
        self.outlook.waiting_at(&self.entries, listener.id) >= listener.role.backlog()
    }
}

impl Role {
    /// Whether this is a connection that would reject the segment.
    fn would_reject(&self, segment: &TcpView<'_>) -> bool
        ensures { result ≡ is_rejection (fate_of segment.now self.now) }
    {
        match self {
            Role::Connected { connection, .. } => connection.would_reject(segment),
            _ => false,
        }
    }

    /// Whether this is a UDP socket with room for a further datagram of so many octets that comes.
    fn would_receive(&self, len: usize) -> bool
        ensures { result ≡ has_room_to_receive len self.now }
    {
        match self {
            Role::Datagrams { socket, .. } => socket.would_receive(len),
            _ => false,
        }
    }
}

/// What an answer needs, if there is one.
fn need_of_answer(answer: Option<Head>) -> Option<Need>
    ensures { result ≡ need_of_answer answer }
{
    answer.map(|_| Need::Reply)
}
