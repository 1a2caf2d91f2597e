//! The frames that come in.

ghost use Rattle.std.specs.Prelude.{◌≡◌, ◌≤◌, ◌&&◌, not, length, is_some, Ok, IfOk};
ghost use Rattle.frames.specs.declared.meaning.Control.{Control};
ghost use Rattle.frames.specs.declared.meaning.Meaning.TheVariants.{Icmp, Tcp};
ghost use Rattle.interface.specs.declared.room.TheConstants.{ECHO_ROOM};
ghost use Rattle.interface.specs.Ways.{is_routed};
ghost use Rattle.sockets.specs.Arrival.{pair_opened};
ghost use Rattle.sockets.specs.SocketsView.{later_moment};
ghost use Rattle.host.specs.Arrival.{queue_answer};
ghost use Rattle.host.specs.Messages.{is_hard, refused_quote, told_by};

use crate::layers::Layers;
use clock::Moment;
use frames::{Control, DropCause, Meaning, ReceivedSegment};
use icmp::{IcmpView, Quote, Reason};
use interface::QueueFault;
use ipv4::{Ipv4View, Pair, Protocol};
use sockets::Taken;
use tcp_segment::Seq;

impl Layers {
    ghost use Rattle.host.specs.Arrival.{IsDelivered, MeetsDatagram, MeetsHeard, MeetsMessage, foreseen, foreseen_of};

    /// Takes a frame, as `Host::deliver`.
    pub(crate) fn deliver(&mut self, now: Moment, isn: Seq, frame: &[u8]) -> Result<(), DropCause>
        ensures { IsDelivered self.old now isn.0 frame.now result self.new }
    {
        self.meet(now, isn, &self.heard(frame))
    }

    /// Takes what a frame is to the host, at the later of `now` and the kept moment, or drops it with its cause.
    pub(crate) fn meet(
        &mut self,
        now: Moment,
        isn: Seq,
        meaning: &Result<Meaning<'_>, DropCause>,
    ) -> Result<(), DropCause>
        requires { IfOk meaning.now (λ m. (control : Control) → m ≡ Icmp control → length control.message.payload ≤ ECHO_ROOM) }
        ensures { MeetsHeard meaning.now self.old (later_moment self.old.sockets now) isn.0 result self.new }
    {
        let now = self.sockets.later_moment(now);
        match meaning {
            Ok(Meaning::Arp(packet)) => room(self.interface.hear(now, packet)),
            Ok(Meaning::Tcp(received)) => self.take(now, isn, received),
            Ok(Meaning::Icmp(control)) => self.hear(now, control),
            Ok(Meaning::Udp(received)) => self.receive(now, received),
            Ok(Meaning::UdpFragment(fragment)) => self.gather(now, fragment),
            Ok(Meaning::Other(datagram)) => self.report(now, Reason::ProtocolUnreachable, datagram),
            Err(cause) => Err(*cause),
        }
    }

    /// Takes a segment for us, at this moment.
    #[tactic(auto, using(crate::proofs::Answered::answered, crate::proofs::Answered::met_answer))]
    fn take(
        &mut self,
        now: Moment,
        isn: Seq,
        received: &ReceivedSegment<'_>,
    ) -> Result<(), DropCause>
        ensures { MeetsHeard (Ok (Tcp received.now)) self.old now isn.0 result self.new }
    {
        let (source, segment) = (received.source, &received.segment);
        if self.lacks_route_to_open(received) {
            return Err(DropCause::NoRoom);
        }
        match self.sockets.take(now, isn, source, segment) {
            Taken::Done => Ok(()),
            Taken::NoRoom => Err(DropCause::NoRoom),
            Taken::Answer(head) => room(self.interface.answer(now, source, head)),
        }
    }

    /// Takes an ICMP message for us, at this moment: an echo request is answered (RFC 1122 section 3.2.2.6), and a hard error that quotes a
    /// segment of ours is told to the connection of its two ends (section 4.2.3.9). All others change nothing.
    fn hear(&mut self, now: Moment, control: &Control<'_>) -> Result<(), DropCause>
        requires { length control.now.message.payload ≤ ECHO_ROOM }
        ensures { MeetsMessage (told_by control.now.message) self.old now control.now result self.new }
    {
        let message = &control.message;
        if message.is_echo_request() {
            let (identifier, number) = (message.identifier(), message.number());
            return room(
                self.interface
                    .answer_echo(now, control.source, identifier, number, message.payload()),
            );
        }
        if let Some(quote) = refused_quote(message) {
            self.sockets
                .unreachable(quote.source, quote.destination, Seq(quote.number));
        }
        Ok(())
    }

    /// Answers a datagram that can't be delivered here by the error that says why, at this moment (RFC 1122 section 3.2.2.1).
    pub(crate) fn report(
        &mut self,
        now: Moment,
        reason: Reason,
        datagram: &Ipv4View<'_>,
    ) -> Result<(), DropCause>
        ensures { MeetsDatagram reason self.old now datagram.now result self.new }
    {
        room(
            self.interface.report(
                now,
                datagram.source(),
                reason,
                datagram.header(),
                datagram.payload(),
            ),
        )
    }

    /// The pair that delivering this frame would open, as `Host::would_open`.
    pub(crate) fn would_open(&self, frame: &[u8]) -> Option<Pair>
        ensures { result ≡ foreseen self.now frame.now }
    {
        match self.heard(frame) {
            Ok(Meaning::Tcp(received)) => self.pair_opened(&received),
            _ => None,
        }
    }

    /// The pair that a segment for us would open.
    pub(crate) fn pair_opened(&self, received: &ReceivedSegment<'_>) -> Option<Pair>
        ensures { result ≡ foreseen_of self.now (Ok (Tcp received.now)) }
    {
        if self.interface.is_routed(received.source) {
            self.sockets.would_open(received.source, &received.segment)
        } else {
            None
        }
    }

    /// Whether a segment would open a connection to an address that no route leads to. Most segments have no SYN, so the route isn't looked up.
    #[tactic(auto, using(crate::proofs::Unopened::opens_by_syn))]
    fn lacks_route_to_open(&self, received: &ReceivedSegment<'_>) -> bool
        ensures { result ≡ (not (is_routed self.now.interface received.now.source) && is_some (pair_opened self.now.sockets received.now.source received.now.segment)) }
    {
        received.segment.flags().syn
            && !self.interface.is_routed(received.source)
            && self
                .sockets
                .would_open(received.source, &received.segment)
                .is_some()
    }
}

/// What a hard error quotes of a segment; none where the message is another one, or quotes something else.
pub(crate) fn refused_quote(message: &IcmpView<'_>) -> Option<Quote>
    ensures { result ≡ refused_quote message.now }
{
    if is_hard(message) {
        message
            .quote()
            .filter(|quote| quote.protocol == Protocol::TCP)
    } else {
        None
    }
}

/// Whether a message is an error that won't pass by itself (RFC 1122 section 4.2.3.9).
fn is_hard(message: &IcmpView<'_>) -> bool
    ensures { result ≡ is_hard message.now }
{
    matches!(
        message.reason(),
        Some(Reason::ProtocolUnreachable | Reason::PortUnreachable | Reason::FragmentationNeeded)
    )
}

/// A full queue of replies by its name as a cause.
fn room(answer: Result<(), QueueFault>) -> Result<(), DropCause>
    ensures { result ≡ queue_answer answer }
{
    match answer {
        Ok(()) => Ok(()),
        Err(QueueFault::NoRoom) => Err(DropCause::NoRoom),
    }
}
