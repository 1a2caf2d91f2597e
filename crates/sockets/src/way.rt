//! What gives way to another connection where the host is on its guard (RFC 9293 section 3.6.1, RFC 1122 section 4.2.2.13).

ghost use Rattle.std.specs.Prelude.{◌≡◌};

use crate::arrival::is_opening;
use crate::entry::{Entry, SocketId};
use crate::role::Role;
use crate::sockets::Sockets;
use crate::table;
use ipv4::{Addr, Pair};
use tcp_segment::TcpView;
use tcp_state::Fate;

#[tactic(auto, using(crate::proofs::Firsts::firsts))]
impl Sockets {
    ghost use Rattle.sockets.specs.GiveWay.{after_giving_way, id_in_table, id_at, id_at_port, has_backlog_at, opens_anew, id_for, gives_places, way_for, way_for_socket};
    ghost use Rattle.sockets.specs.Ids.{has_id};
    ghost use Rattle.sockets.specs.Arrival.{local_end, peer_end};
    ghost use Rattle.ipv4.specs.Addresses.{pair_of};

    /// What gives way to what a segment from this address opens, where the host is on its guard. Where the backlog of its listener or the table is
    /// full: the oldest of the listener's connections whose SYN-ACK went out a second ago or more and is not answered; or else, where the table
    /// alone is full, what has been longest in TIME-WAIT of the connections that no caller has. Where one of these stands in TIME-WAIT between
    /// the ends of the segment, and the segment's number lies past all that was heard on it, and the backlog has a place: that one (RFC 1122 section 4.2.2.13).
    pub fn way_for(&self, source: Addr, segment: &TcpView<'_>) -> Option<SocketId>
        ensures { result ≡ way_for self.now source segment.now }
    {
        if self.gives_places() {
            self.id_for(source, segment)
        } else {
            None
        }
    }

    /// What gives way to a socket, where the host is on its guard and the table is full: what has been longest in TIME-WAIT of the connections that
    /// no caller has.
    pub fn way_for_socket(&self) -> Option<SocketId>
        ensures { result ≡ way_for_socket self.now }
    {
        if self.gives_places() {
            self.id_in_table()
        } else {
            None
        }
    }

    /// The connection that `id` names gives way, and goes without a reset: one that waits half open at a listener, or in TIME-WAIT where no caller
    /// has it. Any other stays.
    pub fn give_way(&mut self, id: SocketId)
        ensures { self.new ≡ after_giving_way self.old (has_id id) }
    {
        match table::giving_way(&self.entries, id) {
            Some(place) => {
                table::settle(
                    &mut self.entries,
                    &mut self.ends,
                    &mut self.outlook,
                    place,
                    Fate::Removed,
                );
            }
            None => {}
        }
    }

    /// The pair of the two ends of a segment that came from this address.
    pub fn pair_with(&self, source: Addr, segment: &TcpView<'_>) -> Pair
        ensures { result ≡ pair_of (local_end self.now segment.now) (peer_end source segment.now) }
    {
        let (local, peer) = self.ends(source, segment);
        Pair::new(local, peer)
    }

    /// Whether anything gives way: the host is on its guard, and an id is left for another.
    fn gives_places(&self) -> bool
        ensures { result ≡ gives_places self.now }
    {
        self.manner.guards && self.last_id != u64::MAX
    }

    /// What gives way to what a segment opens, on guard.
    fn id_for(&self, source: Addr, segment: &TcpView<'_>) -> Option<SocketId>
        ensures { result ≡ id_for self.now source segment.now }
    {
        if !is_opening(segment) {
            return None;
        }
        let (local, peer) = self.ends(source, segment);
        match self.connection_between(local, peer) {
            Some(place) => {
                let entry = &self.entries[place];
                self.opens_anew(segment, &entry.role).then_some(entry.id)
            }
            None => self.id_at_port(segment.destination()),
        }
    }

    /// Whether a segment opens anew between the ends of a connection in TIME-WAIT that no caller has.
    fn opens_anew(&self, segment: &TcpView<'_>, role: &Role) -> bool
        ensures { result ≡ opens_anew self.now segment.now role.now }
    {
        role.left_since().is_some()
            && role.lies_past(segment)
            && self.has_backlog_at(segment.destination())
    }

    /// Whether a listener at this port has a place in its backlog.
    fn has_backlog_at(&self, port: u16) -> bool
        ensures { result ≡ has_backlog_at self.now port }
    {
        match self.listener_at(port) {
            Some(place) => !self.is_backlog_full(&self.entries[place]),
            None => false,
        }
    }

    /// What gives way to a connection that would open at this port.
    fn id_at_port(&self, port: u16) -> Option<SocketId>
        ensures { result ≡ id_at_port self.now port }
    {
        let place = self.listener_at(port)?;
        self.id_at(&self.entries[place])
    }

    /// What gives way to a connection that would open at a listener.
    fn id_at(&self, listener: &Entry) -> Option<SocketId>
        ensures { result ≡ id_at self.now listener.now }
    {
        if self.is_backlog_full(listener) {
            self.outlook.unanswered_at(&self.entries, listener.id)
        } else if self.entries.is_full() {
            self.outlook
                .unanswered_at(&self.entries, listener.id)
                .or(table::longest_left(&self.entries))
        } else {
            None
        }
    }

    /// What gives way in a table that is full.
    fn id_in_table(&self) -> Option<SocketId>
        ensures { result ≡ id_in_table self.now }
    {
        if self.entries.is_full() {
            table::longest_left(&self.entries)
        } else {
            None
        }
    }
}
