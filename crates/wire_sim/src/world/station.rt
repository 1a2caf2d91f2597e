//! A host with its clock.

ghost use Rattle.std.specs.Prelude.{◌≡◌, ◌<◌, ◌≤◌, IfSome, OnSome, IfNone, vec_len, MatchResult};
ghost use Rattle.wire_sim.specs.WorldView.{octets_len};
ghost use Rattle.std.specs.Result.{ForOk};
ghost use Rattle.sockets.specs.Calls.{recv_answer};
ghost use Rattle.sockets.specs.Datagrams.{recvfrom_answer};
ghost use Rattle.sockets.specs.Sound.{IsEndpoint};
ghost use Rattle.wire_sim.specs.Steps.{MeetsReceived, MeetsReceivedFrom};

use crate::event::{Answer, Call};
use clock::Moment;
use ether::FRAME_MAX;
use host::{Host, Refusal, SocketId};
use ipv4::{Endpoint, Pair};
use tcp_segment::Seq;
use tcp_state::Received;

/// A host, and the greatest moment of its ticks.
#[derive(Drop)]
pub(super) struct Station {
    host: Host,
    clock: Moment,
}

impl Station {
    ghost use Rattle.sockets.specs.SocketsView.{holder_id};
    ghost use Rattle.host.specs.Emission.{emission_len, emission_front, after_emission};
    ghost use Rattle.wire_sim.specs.WorldView.{station_with};
    ghost use Rattle.wire_sim.specs.Steps.{station_after_tick, call_recv_len, HostMeetsCall, MeetsFrame};
    ghost use Rattle.sockets.specs.Pairs.{socket_pair};
    ghost use Rattle.host.specs.Arrival.{foreseen};
    ghost use Rattle.wire_sim.specs.Fairness.{pair_to_connect};
    ghost use Rattle.host.specs.Sound.{IsSoundHost};
    ghost use Rattle.wire_sim.specs.Runs.{IsNumberedCall};

    /// This host, with a clock that stands at 0.
    pub(super) fn new(host: Host) -> Station
        ensures { result ≡ station_with host }
    {
        Station {
            host,
            clock: Moment(0),
        }
    }

    /// The greatest moment of its ticks.
    pub(super) fn clock(&self) -> Moment
        ensures { result ≡ self.now.clock }
    {
        self.clock
    }

    /// Makes a socket call at the clock's moment, which reads octets into `buffer`.
    pub(super) fn call(&mut self, call: &Call, buffer: Vec<u8>) -> Answer
        requires { vec_len buffer ≡ call_recv_len call.now }
        ensures octets { octets_len result ≤ vec_len buffer }
        ensures answer { HostMeetsCall self.old.clock call.now self.old.host result self.new.host }
        ensures numbered { IsNumberedCall call.now }
        ensures clock { self.new.clock ≡ self.old.clock }
    {
        let host = &mut self.host;
        match call {
            Call::Socket(kind) => answered(host.socket(*kind), Answer::Socket),
            Call::Bind { id, local } => {
                sized(*local);
                answered(host.bind(*id, *local), |()| Answer::Done)
            }
            Call::Listen { id, backlog } => answered(host.listen(*id, *backlog), |()| Answer::Done),
            Call::Accept { id } => {
                answered(host.accept(*id), |(id, peer)| Answer::Accepted(id, peer))
            }
            Call::Connect { isn, id, peer } => {
                answered(host.connect(self.clock, *isn, *id, *peer), |()| {
                    Answer::Started
                })
            }
            Call::Send { id, octets } => {
                answered(host.send(*id, octets.as_slice()), Answer::Sent)
            }
            Call::Recv { id, .. } => received(host, *id, buffer),
            Call::SendTo { id, peer, octets } => {
                sized(*peer);
                answered(host.sendto(*id, *peer, octets.as_slice()), Answer::Sent)
            }
            Call::RecvFrom { id, .. } => received_from(host, *id, buffer),
            Call::Shutdown { id } => answered(host.shutdown_write(*id), |()| Answer::Done),
            Call::SetNoDelay { id, on } => answered(host.set_nodelay(*id, *on), |()| Answer::Done),
            Call::SetKeepAlive { id, every } => {
                answered(host.set_keepalive(*id, *every), |()| Answer::Done)
            }
            Call::Close { id } => answered(host.close(*id), |()| Answer::Done),
            Call::Abort { id } => answered(host.abort(*id), |()| Answer::Done),
            Call::GiveWay { id } => {
                host.give_way(*id);
                Answer::Done
            }
            Call::State { id } => answered(host.state(*id), Answer::State),
            Call::Ready { id } => answered(host.ready(*id), Answer::Ready),
            Call::Info { id } => answered(host.info(*id), Answer::Info),
            Call::SockName(id) => answered(host.sockname(*id), Answer::Endpoint),
            Call::PeerName(id) => answered(host.peername(*id), Answer::Endpoint),
        }
    }

    /// Moves the clock forward to `moment`, and ticks the host.
    pub(super) fn tick(&mut self, moment: Moment) -> Answer
        ensures answer { result ≡ Answer.Done }
        ensures after { self.new ≡ station_after_tick self.old moment }
    {
        if moment > self.clock {
            self.clock = moment;
        }
        self.host.tick(moment);
        Answer::Done
    }

    /// Writes the frame that is due into `out`, and answers its length.
    pub(super) fn next_frame(&mut self, out: &mut [u8; FRAME_MAX]) -> Option<usize>
        ensures answer { result ≡ emission_len self.old.host self.old.clock }
        ensures bound { IfSome result (λ len. len ≤ FRAME_MAX) }
        ensures front { out.new ≡ emission_front self.old.host self.old.clock out.old }
        ensures after { OnSome result (self.new ≡ record self.old { host = after_emission self.old.host self.old.clock }) }
        ensures none { IfNone result (self.new ≡ self.old) }
    {
        self.host.next_frame(self.clock, out)
    }

    /// The entry that holds a pair.
    pub(super) fn holder(&self, pair: Pair) -> Option<SocketId>
        ensures { result ≡ holder_id self.now.host.sockets pair }
    {
        self.host.holds(pair)
    }

    /// The pair of the connection of the socket `id`.
    pub(super) fn pair_of(&self, id: SocketId) -> Option<Pair>
        ensures { result ≡ socket_pair self.now.host.sockets id }
    {
        self.host.pair_of(id)
    }

    /// The pair that a connect of the socket `id` to `peer` would open.
    pub(super) fn would_connect(&self, id: SocketId, peer: Endpoint) -> Option<Pair>
        ensures { result ≡ pair_to_connect self.now.host id peer }
    {
        self.host.would_connect(id, peer)
    }

    /// The pair that a frame would open, if memory were there.
    pub(super) fn would_open(&self, frame: &[u8]) -> Option<Pair>
        ensures { result ≡ foreseen self.now.host frame.now }
    {
        self.host.would_open(frame)
    }

    /// What each connection keeps of itself, for the contracts above; it changes nothing.
    pub(super) fn sound(&self)
        ensures { IsSoundHost self.now.host }
    {
        self.host.sound();
    }

    /// Hands a frame's octets to the host.
    pub(super) fn deliver(&mut self, isn: Seq, octets: &[u8]) -> Answer
        ensures octets { octets_len result ≡ 0 }
        ensures answer { MeetsFrame self.old.host self.old.clock isn.0 octets.now result self.new.host }
        ensures clock { self.new.clock ≡ self.old.clock }
    {
        match self.host.deliver(self.clock, isn, octets) {
            Ok(()) => Answer::Taken,
            Err(cause) => Answer::Dropped(cause),
        }
    }
}

/// The fields of an endpoint are of their widths, for the contracts above; it does nothing.
fn sized(endpoint: Endpoint)
    ensures { IsEndpoint endpoint }
{
    let _ = endpoint;
}

/// What a call answers: `answer` of its value, or its refusal.
fn answered<T, F: FnOnce(T) -> Answer>(outcome: Result<T, Refusal>, answer: F) -> Answer
    requires { ForOk outcome (F.pre answer) }
    ensures { MatchResult outcome (λ value. F.post answer value result) (λ refusal. result ≡ Answer.Refused refusal) }
{
    match outcome {
        Ok(value) => answer(value),
        Err(refusal) => Answer::Refused(refusal),
    }
}

/// Reads octets of the socket `id` into `buffer`.
fn received(host: &mut Host, id: SocketId, mut buffer: Vec<u8>) -> Answer
    ensures octets { octets_len result ≤ vec_len buffer }
    ensures answer { MeetsReceived host.old.sockets id (vec_len buffer) (recv_answer host.old.sockets id (vec_len buffer)) result host.new.sockets }
    ensures others { host.new ≡ record host.old { sockets = host.new.sockets } }
{
    match host.recv(id, buffer.as_mut_slice()) {
        Ok(Received::Octets(len)) => {
            buffer.truncate(len);
            Answer::Octets(buffer)
        }
        Ok(Received::EndOfStream) => Answer::EndOfStream,
        Err(refusal) => Answer::Refused(refusal),
    }
}

/// Reads the first datagram of the socket `id` into `buffer`.
fn received_from(host: &mut Host, id: SocketId, mut buffer: Vec<u8>) -> Answer
    ensures octets { octets_len result ≤ vec_len buffer }
    ensures answer { MeetsReceivedFrom host.old.sockets id (recvfrom_answer host.old.sockets id (vec_len buffer)) result host.new.sockets }
    ensures others { host.new ≡ record host.old { sockets = host.new.sockets } }
{
    match host.recvfrom(id, buffer.as_mut_slice()) {
        Ok((count, from)) => {
            buffer.truncate(count);
            Answer::Datagram {
                octets: buffer,
                from,
            }
        }
        Err(refusal) => Answer::Refused(refusal),
    }
}
