//! What a segment that arrived makes of the table (RFC 9293 section 3.10.7).

ghost use Rattle.std.specs.Prelude.{ℕ, ◌≡◌, ◌≤◌, ◌<◌, true, length, position, IfOk, MatchResult, Some};
ghost use Rattle.tcp_state.specs.Arrival.{opened_passively};
ghost use Rattle.sockets.specs.Arrival.{is_opening, arrival_with_reply, Meets};
ghost use Rattle.sockets.specs.Entries.{is_between, is_listening_at};
ghost use Rattle.sockets.specs.SocketsView.{SocketsView, room_of};

use crate::calls::new_buffers;
use crate::entry::{Entry, SocketId};
use crate::sockets::Sockets;
use crate::taken::Taken;
use crate::{index, replies, table};
use clock::Moment;
use ipv4::{Addr, Endpoint, Pair};
use std::alloc::AllocError;
use tcp_segment::{Head, Seq, TcpView};
use tcp_state::{Buffers, Connection, Fate, Manner};

#[tactic(auto, using(crate::proofs::Firsts::firsts))]
impl Sockets {
    ghost use Rattle.sockets.specs.Arrival.{manner_with, room_for, after_opening, local_end, peer_end, arrival, arrival_alone, Meets, pair_opened, pair_at_listener, has_no_room};

    /// Takes a segment that came from this address, at the later of `now` and the kept moment: it goes to the connection of its two ends,
    /// where there is one, else to the listener at its destination port. `isn` is used only where it opens a connection.
    ///
    /// NoRoom where it would open one and there is no place in the backlog or the table, no id or no memory. The table stays as it was
    /// then, and where the segment is to be answered.
    pub fn take(&mut self, now: Moment, isn: Seq, source: Addr, segment: &TcpView<'_>) -> Taken
        ensures { Meets (arrival self.old now isn.0 source segment.now) self.old result self.new }
    {
        let (local, peer) = self.ends(source, segment);
        match self.find_connection(local, peer) {
            Some(place) => self.take_at(now, place, source, segment),
            None => self.take_alone(self.later_moment(now), isn, source, segment),
        }
    }

    /// Takes a segment for the connection in this place. One that it refuses is answered by a reset.
    fn take_at(&mut self, now: Moment, place: usize, source: Addr, segment: &TcpView<'_>) -> Taken
        requires { position (is_between (local_end self.old segment.now) (peer_end source segment.now)) self.old.entries ≡ Some place }
        ensures { (isn : ℕ) → Meets (arrival self.old now isn source segment.now) self.old result self.new }
    {
        let now = self.later_moment(now);
        self.outlook.turn_to(&self.entries, place);
        let entry = &mut self.entries[place];
        let id = entry.id;
        let (fate, is_offered) = entry.segment(now, segment);
        match fate {
            Fate::Rejected => Taken::Answer(replies::reset_at_ack(segment)),
            fate => {
                table::settle(
                    &mut self.entries,
                    &mut self.ends,
                    &mut self.outlook,
                    place,
                    fate,
                );
                table::offer(&mut self.offered, id, is_offered);
                Taken::Done
            }
        }
    }

    /// Takes a segment for no connection: it goes to the listener at its destination port, or is answered where there is none.
    fn take_alone(&mut self, now: Moment, isn: Seq, source: Addr, segment: &TcpView<'_>) -> Taken
        ensures { Meets (arrival_alone self.old now isn.0 source segment.now) self.old result self.new }
    {
        match self.listener_at(segment.destination()) {
            None => answered(replies::answer_to(segment)),
            Some(place) if is_opening(segment) => self.open(now, isn, place, source, segment),
            Some(_) => answered(replies::answer_at_listener(segment)),
        }
    }

    /// Opens a connection for `syn` at the listener in this place (RFC 9293 section 3.10.7.2), where that has a place for it.
    fn open(
        &mut self,
        now: Moment,
        isn: Seq,
        place: usize,
        source: Addr,
        syn: &TcpView<'_>,
    ) -> Taken
        requires place { position (is_listening_at syn.now.destination) self.old.entries ≡ Some place }
        requires opens { is_opening syn.now.flags ≡ true }
        ensures { Meets (arrival_alone self.old now isn.0 source syn.now) self.old result self.new }
    {
        let listener = &self.entries[place];
        if self.has_no_room(listener) {
            return Taken::NoRoom;
        }
        let listener = listener.id;
        let buffers = new_buffers(self.alloc, self.sizes.buffer, self.manner_with(syn));
        self.open_with(buffers, now, isn, listener, source, syn)
    }

    /// Opens a connection for `syn` in these buffers, where the listener at its port has a place for it. NoRoom exactly where memory was
    /// refused them.
    fn open_with(
        &mut self,
        buffers: Result<Buffers, AllocError>,
        now: Moment,
        isn: Seq,
        listener: SocketId,
        source: Addr,
        syn: &TcpView<'_>,
    ) -> Taken
        requires place { length self.old.entries < self.old.sizes.entries }
        requires id { self.old.last_id < u64.MAX }
        requires size { IfOk buffers (λ given. given ≡ room_for self.old syn.now) }
        ensures answer { MatchResult buffers (λ given. result ≡ Taken.Done) (λ refused. result ≡ Taken.NoRoom) }
        ensures table { MatchResult buffers (λ given. (entry : Entry) → entry.id ≡ listener → self.new ≡ after_opening self.old now isn.0 entry source syn.now) (λ refused. self.new ≡ self.old) }
    {
        let Ok(buffers) = buffers else {
            return Taken::NoRoom;
        };
        let (local, peer) = self.ends(source, syn);
        let connection = Connection::passive(buffers, local, peer, isn, syn, now);
        self.last_id += 1;
        let id = SocketId(self.last_id);
        let entry = Entry::passive(id, listener, connection);
        index::refile(&mut self.ends, self.filed, None, &entry);
        self.outlook.push(&entry);
        self.entries.push(entry);
        Taken::Done
    }

    /// How a connection behaves that `syn` opens: windows are scaled only where that has the option too (RFC 7323 section 2.2).
    fn manner_with(&self, syn: &TcpView<'_>) -> Manner
        ensures { result ≡ manner_with self.now syn.now }
    {
        Manner {
            scales: self.manner.scales && syn.scale_option().is_some(),
            ..self.manner
        }
    }

    /// The pair that this segment from this address would open if memory were there (RFC 9293 section 3.10.7.2); None where it would open
    /// none.
    pub fn would_open(&self, source: Addr, segment: &TcpView<'_>) -> Option<Pair>
        ensures { result ≡ pair_opened self.now source segment.now }
    {
        let (local, peer) = self.ends(source, segment);
        match self.connection_between(local, peer) {
            Some(_) => None,
            None if is_opening(segment) => self.pair_at_listener(source, segment),
            None => None,
        }
    }

    /// The pair that this segment would open, where a listener at its port has a place for the connection.
    fn pair_at_listener(&self, source: Addr, segment: &TcpView<'_>) -> Option<Pair>
        ensures { result ≡ pair_at_listener self.now source segment.now }
    {
        let place = self.listener_at(segment.destination())?;
        if self.has_no_room(&self.entries[place]) {
            return None;
        }
        let (local, peer) = self.ends(source, segment);
        Some(Pair::new(local, peer))
    }

    /// Whether a further connection has no place at this listener.
    fn has_no_room(&self, listener: &Entry) -> bool
        ensures value { result ≡ has_no_room self.now listener.now }
        ensures bound { length self.now.entries ≤ self.now.sizes.entries }
    {
        let _held = self.entries.len();
        self.is_backlog_full(listener) || self.entries.is_full() || self.last_id == u64::MAX
    }

    /// The local and the foreign end of a segment that came from this address.
    pub(crate) fn ends(&self, source: Addr, segment: &TcpView<'_>) -> (Endpoint, Endpoint)
        ensures local { result.0 ≡ local_end self.now segment.now }
        ensures peer { result.1 ≡ peer_end source segment.now }
    {
        let local = Endpoint {
            addr: self.addr,
            port: segment.destination(),
        };
        let peer = Endpoint {
            addr: source,
            port: segment.source(),
        };
        (local, peer)
    }
}

/// The answer to a segment that changes nothing: what answers it, if anything does.
fn answered(reply: Option<Head>) -> Taken
    ensures { (h : SocketsView) → Meets (arrival_with_reply h reply) h result h }
{
    match reply {
        Some(head) => Taken::Answer(head),
        None => Taken::Done,
    }
}

/// Whether a segment opens a connection at a listener (RFC 9293 section 3.10.7.2): SYN with neither RST nor ACK.
pub(crate) fn is_opening(segment: &TcpView<'_>) -> bool
    ensures { result ≡ is_opening segment.now.flags }
{
    let flags = segment.flags();
    flags.syn && !flags.rst && !flags.ack
}
