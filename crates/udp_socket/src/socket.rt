//! The socket itself.

ghost use Rattle.std.specs.Prelude.{◌≡◌, ℕ, ◌+◌, ◌<◌, ◌≤◌, ◌++◌, length, take, drop, filter, not, Bool, is_ok, IsOk, IfOk, OnOk, OnErr, ◌↔◌, [], if◌then◌else◌, Some};
ghost use Rattle.std.specs.List.{list_any};
ghost use Rattle.ipv4.specs.declared.addr.Addr.{Addr};

use crate::part::fill_first;
use crate::tag::Tag;
use circular_buffer::HeapCircularBuffer;
use clock::{Moment, sooner};
use ipv4::{Addr, Endpoint};
use std::alloc::{AllocError, Global};
use std::marker::Model;
use udp::{
    CAPACITY, Fragment, HEADER_LEN, Head, MOST_IN_FRAGMENT, MOST_WAITING, MakingFault, Part, Queue,
    QueueFault, bring_range_forward,
};

/// The octets of data of a datagram at most: the payload of IPv4 has room for no more behind a header of 8 octets, where the header of
/// IPv4 has 20 (RFC 768, RFC 791 section 3.1).
pub const MOST_OCTETS: usize = 65_507;

/// One UDP socket: what came and was not read, and what is to go out. Each of the two queues has room for 64 datagrams, and for 65,535
/// octets, where each datagram counts 8 beside its data. Only the making takes memory.
#[derive(Drop)]
pub struct UdpSocket {
    inbox: Queue,
    datagrams: Queue,
    pub(crate) tags: HeapCircularBuffer<Tag>,
    parts: u16,
}

impl Model for UdpSocket {
    ghost use Rattle.udp_socket.specs.SocketView.{SocketView};
    ghost use Rattle.udp_socket.specs.Stored.{outgoing_of, IsStored};

    ghost Value = { SocketView };

    ghost view = { λ s. record { inbox = s.inbox.items; outbox = outgoing_of s.tags.items s.datagrams.items; parts = s.parts } };

    ghost invariant = { λ s. IsStored s.inbox s.datagrams s.tags s.parts };
}

impl UdpSocket {
    ghost use Rattle.ipv4.specs.Datagram.{HasPlace};
    ghost use Rattle.circular_buffer.specs.Buffer.{buffer};
    ghost use Rattle.udp_socket.specs.SocketView.{line_of, has_room_in, has_room_out, new_socket, with_received, with_sent, read_answer, read_buffer, after_read};
    ghost use Rattle.udp_socket.specs.Asking.{first_len, room_out};
    ghost use Rattle.udp_socket.specs.Emission.{peer_at, brought, due_part, due_octets, has_more, after_part};
    ghost use Rattle.udp_socket.specs.Stored.{first_if};
    ghost use Rattle.udp_socket.specs.Waits.{is_given_up, after_giving_up, deadline};

    /// A socket in whose queues nothing waits. It takes its whole memory here, and refuses where there is none.
    pub fn new(alloc: Global) -> Result<UdpSocket, AllocError>
        ensures { IfOk result (λ socket. socket ≡ new_socket) }
    {
        let inbox = Queue::with_capacity(alloc, CAPACITY);
        let datagrams = Queue::with_capacity(alloc, CAPACITY);
        let tags = HeapCircularBuffer::with_capacity(alloc, MOST_WAITING);
        UdpSocket::of(inbox, datagrams, tags)
    }

    /// The socket of these rings, which are empty. A refusal exactly where memory was refused one.
    fn of(
        inbox: Result<Queue, MakingFault>,
        datagrams: Result<Queue, MakingFault>,
        tags: Result<HeapCircularBuffer<Tag>, AllocError>,
    ) -> Result<UdpSocket, AllocError>
        requires inbox { IfOk inbox (λ queue. queue ≡ line_of []) }
        requires datagrams { IfOk datagrams (λ queue. queue ≡ line_of []) }
        requires tags { IfOk tags (λ ring. ring ≡ buffer [] MOST_WAITING) }
        ensures had { IsOk result ↔ (IsOk inbox × IsOk datagrams × IsOk tags) }
        ensures empty { IfOk result (λ socket. socket ≡ new_socket) }
    {
        match (inbox, datagrams, tags) {
            (Ok(inbox), Ok(datagrams), Ok(tags)) => Ok(UdpSocket {
                inbox,
                datagrams,
                tags,
                parts: 0,
            }),
            _ => Err(AllocError),
        }
    }

    /// Takes a datagram to be sent behind the others, with the identification of its fragments. NoRoom where it has none, and then
    /// nothing has changed. It takes no memory.
    pub fn send(
        &mut self,
        now: Moment,
        peer: Endpoint,
        identification: u16,
        octets: &[u8],
    ) -> Result<(), QueueFault>
        requires { length octets.now ≤ MOST_OCTETS }
        ensures room { is_ok result ≡ has_room_out self.old (length octets.now) }
        ensures ok { OnOk result (self.new ≡ with_sent self.old now peer identification octets.now) }
        ensures err { OnErr result (self.new ≡ self.old) }
    {
        self.datagrams.push(peer, octets)?;
        self.tags.push_back(Tag {
            peer,
            identification,
            since: now,
        });
        Ok(())
    }

    /// Takes a datagram that came from this endpoint behind the others, and answers whether it did: not where it has no room, and then
    /// nothing has changed. It takes no memory.
    pub fn receive(&mut self, from: Endpoint, octets: &[u8]) -> bool
        ensures room { result ≡ has_room_in self.old (length octets.now) }
        ensures after { self.new ≡ (if result then with_received self.old from octets.now else self.old) }
    {
        self.inbox.push(from, octets).is_ok()
    }

    /// Takes out the first datagram that came. Its octets go into the buffer as far as this has room, what it has behind them stays, and
    /// the rest of a longer one is lost. Answers how many octets were written, and the endpoint that the datagram is from. None where nothing waits.
    pub fn recv(&mut self, buffer: &mut [u8]) -> Option<(usize, Endpoint)>
        ensures answer { result ≡ read_answer self.old.inbox (length buffer.old) }
        ensures buffer { buffer.new ≡ read_buffer self.old.inbox buffer.old }
        ensures after { self.new ≡ after_read self.old }
    {
        let first = self.inbox.first()?;
        let len = first.len.min(buffer.len());
        self.inbox.copy_at(0, &mut buffer[..len]);
        self.inbox.pop();
        Some((len, first.endpoint))
    }

    /// How many octets the first datagram has that came and was not read. None where none waits.
    pub fn first_len(&self) -> Option<usize>
        ensures { result ≡ first_len self.now.inbox }
    {
        let first = self.inbox.first()?;
        Some(first.len)
    }

    /// How many octets a further datagram to be sent may have at most, 65,507 in an empty socket: 0 where one of a single octet has no room.
    pub fn room(&self) -> usize
        ensures { result ≡ room_out self.now }
    {
        match self.datagrams.room() {
            Some(room) => room.min(MOST_OCTETS),
            None => 0,
        }
    }

    /// Whether a further datagram that comes would have room, of so many octets: whether `receive` would take it.
    #[tactic(auto, using(crate::proofs::Rooms::room_by_most, crate::proofs::Rooms::room_by_none))]
    pub fn would_receive(&self, len: usize) -> bool
        ensures { result ≡ has_room_in self.now len }
    {
        match self.inbox.room() {
            Some(room) => len <= room,
            None => false,
        }
    }

    /// How many datagrams wait to go out.
    pub fn waiting(&self) -> usize
        ensures { result ≡ length self.now.outbox }
    {
        self.tags.len()
    }

    /// The endpoint that the outgoing datagram in this place is for: the first has place 0, and the others stand behind it in order. None
    /// where fewer are to go out.
    #[tactic(auto, using(crate::proofs::Places::peer_stored))]
    pub fn peer_at(&self, place: usize) -> Option<Endpoint>
        ensures { result ≡ peer_at place self.now.outbox }
    {
        let tag = self.tags.get(place).copied()?;
        Some(tag.peer)
    }

    /// Writes the next fragment of the outgoing datagram in this place, as a payload of IPv4 from this endpoint, from `out[0]` on, and answers
    /// what its header has to tell. The datagram stands before the others then, which stay in order, and is gone after its last fragment; one
    /// that it overtakes begins anew. What stands behind the fragment in `out` stays. The checksum is that of the whole datagram (RFC 768,
    /// RFC 791 section 3.2). It takes no memory.
    pub fn emit(&mut self, place: usize, source: Endpoint, out: &mut [u8]) -> Part
        requires due { place < length self.old.outbox }
        requires room { MOST_IN_FRAGMENT ≤ length out.old }
        ensures part { Some result ≡ due_part (brought place self.old) }
        ensures octets { out.new ≡ due_octets source (brought place self.old) ++ drop result.fragment.len out.old }
        ensures after { self.new ≡ after_part (brought place self.old) }
        ensures place { HasPlace result.fragment.more_fragments result.fragment.offset result.fragment.len }
    {
        self.bring_forward(place);
        self.emit_first(source, out)
    }

    /// Puts the outgoing datagram in this place before the others. Of one that it overtakes no fragment counts as gone out any more.
    fn bring_forward(&mut self, place: usize)
        requires { place < length self.old.outbox }
        ensures { self.new ≡ brought place self.old }
    {
        if place == 0 {
            return;
        }
        self.datagrams.bring_forward(place);
        bring_range_forward(&mut self.tags, place, 1);
        self.parts = 0;
    }

    /// Writes the next fragment of the first outgoing datagram.
    fn emit_first(&mut self, source: Endpoint, out: &mut [u8]) -> Part
        requires due { 0 < length self.old.outbox }
        requires room { MOST_IN_FRAGMENT ≤ length out.old }
        ensures part { Some result ≡ due_part self.old }
        ensures octets { out.new ≡ due_octets source self.old ++ drop result.fragment.len out.old }
        ensures after { self.new ≡ after_part self.old }
        ensures place { HasPlace result.fragment.more_fragments result.fragment.offset result.fragment.len }
    {
        let Some(tag) = self.tags.front().copied() else {
            unreachable!();
        };
        let Some(first) = self.datagrams.first() else {
            unreachable!();
        };
        let fragment = Fragment::at((HEADER_LEN + first.len) as u16, self.parts);
        let payload = &mut out[..usize::from(fragment.len)];
        if self.parts == 0 {
            let head = Head {
                source: source.port,
                destination: tag.peer.port,
            };
            fill_first(
                &self.datagrams,
                head,
                source.addr,
                tag.peer.addr,
                first.len,
                payload,
            );
        } else {
            let at = usize::from(MOST_IN_FRAGMENT * self.parts) - HEADER_LEN;
            self.datagrams.copy_at(at, payload);
        }
        self.advance(fragment.more_fragments);
        Part {
            identification: tag.identification,
            fragment,
        }
    }

    /// One more fragment of the first outgoing datagram has gone out, or the datagram is gone.
    fn advance(&mut self, more_fragments: bool)
        requires due { 0 < length self.old.outbox }
        requires more { has_more self.old ≡ more_fragments }
        ensures { self.new ≡ after_part self.old }
    {
        if more_fragments {
            self.parts += 1;
        } else {
            self.datagrams.pop();
            self.tags.pop_front();
            self.parts = 0;
        }
    }

    /// Gives up each outgoing datagram for a lost address, which `lost` says, that has waited for 3,000 ms or more at `now`: it goes out no
    /// more, nor does what is left of it where some of its fragments have gone out. The others stay, in order. It takes no memory.
    pub fn give_up<F: Fn(Addr) -> bool>(&mut self, now: Moment, lost: &F)
        requires { F.IsAlwaysCallable lost.now }
        ensures { (test : Addr → Bool) → ((addr : Addr) (answer : Bool) → F.post lost.now addr answer → answer ≡ test addr) → self.new ≡ after_giving_up self.old test now }
    {
        if !self.gives_up(now, lost) {
            return;
        }
        let waiting = self.tags.len();
        let parts = self.parts;
        let first_stays = self.pass_first(now, lost);
        for _ in 1..waiting {
            self.pass_first(now, lost);
        }
        if first_stays {
            self.parts = parts;
        }
    }

    /// The least moment from which an outgoing datagram for a lost address, which `lost` says, is given up. None where there is none.
    pub fn deadline<F: Fn(Addr) -> bool>(&self, lost: &F) -> Option<Moment>
        requires { F.IsAlwaysCallable lost.now }
        ensures { (test : Addr → Bool) → ((addr : Addr) (answer : Bool) → F.post lost.now addr answer → answer ≡ test addr) → result ≡ deadline test self.now }
    {
        if self.tags.is_empty() {
            return None;
        }
        self.tags
            .iter()
            .fold(None, |least, tag| sooner(least, tag.deadline(lost)))
    }

    /// Whether some outgoing datagram is given up.
    fn gives_up<F: Fn(Addr) -> bool>(&self, now: Moment, lost: &F) -> bool
        requires { F.IsAlwaysCallable lost.now }
        ensures { (test : Addr → Bool) → ((addr : Addr) (answer : Bool) → F.post lost.now addr answer → answer ≡ test addr) → result ≡ list_any (is_given_up test now) self.now.outbox }
    {
        if self.tags.is_empty() {
            return false;
        }
        self.tags.iter().any(|tag| tag.is_given_up(now, lost))
    }

    /// Puts the first outgoing datagram behind the others, or takes it out where it is given up, and answers whether it stays. None of its
    /// fragments counts as gone out then.
    fn pass_first<F: Fn(Addr) -> bool>(&mut self, now: Moment, lost: &F) -> bool
        requires { F.IsAlwaysCallable lost.now }
        ensures after { self.new ≡ record self.old { outbox = drop 1 self.old.outbox ++ first_if result self.old.outbox; parts = 0 } }
        ensures stays { (test : Addr → Bool) → ((addr : Addr) (answer : Bool) → F.post lost.now addr answer → answer ≡ test addr)
            → first_if result self.old.outbox ≡ filter (λ o. not (is_given_up test now o)) (take 1 self.old.outbox) }
    {
        self.parts = 0;
        let Some(tag) = self.tags.pop_front() else {
            return false;
        };
        if tag.is_given_up(now, lost) {
            self.datagrams.pop();
            return false;
        }
        self.datagrams.requeue();
        self.tags.push_back(tag);
        true
    }
}
