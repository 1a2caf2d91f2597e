//! A link over two sockets.

ghost use Rattle.std.specs.Prelude.{◌≡◌, ◌≤◌, None, is_err, IfOk, IfSome};
ghost use Rattle.devices.specs.Streams.{counted, one_more};
ghost use Rattle.devices.specs.Passages.{Takes, Gives};
ghost use Rattle.sides.specs.Sides.{other_side};
ghost use Rattle.udp_link.specs.Fates.{fate_by};
ghost use Rattle.udp_link.specs.Datagrams.{HandsOver, Receives, Sends, at_side};

use crate::losses::{Fate, Losses};
use crate::socket::DatagramSocket;
use clock::Moment;
use devices::{Link, LinkFault};
use ether::FRAME_MAX;
use sides::Side;

/// A link between two hosts over two sockets, each the other's peer. The frames that it takes are counted from 1 over both sides, and lost or
/// sent twice by their numbers.
#[derive(Debug, Drop)]
pub struct SocketLink<S> {
    a: S,
    b: S,
    losses: Losses,
    taken: u64,
    failures: u64,
}

impl<S> SocketLink<S> {
    /// A link over the sockets of both sides' hosts, which took nothing yet.
    pub fn new(a: S, b: S, losses: Losses) -> Self
        ensures sockets { (result.a ≡ a) × (result.b ≡ b) }
        ensures losses { result.losses ≡ losses }
        ensures fresh { (result.taken ≡ 0) × (result.failures ≡ 0) }
    {
        SocketLink {
            a,
            b,
            losses,
            taken: 0,
            failures: 0,
        }
    }
}

/// Sends a frame by a socket as often as is meant.
fn hand_over<S: DatagramSocket>(socket: &mut S, frame: &[u8], fate: Fate) -> Result<(), LinkFault>
    ensures failures { S.failures socket.new ≡ counted (is_err result) (S.failures socket.old) }
    ensures sent { HandsOver (S.sent socket.old) (S.sent socket.new) result fate frame.now }
    ensures received { S.received socket.new ≡ S.received socket.old }
{
    match fate {
        Fate::Lost => Ok(()),
        Fate::Once => sent(socket, frame),
        Fate::Twice => {
            sent(socket, frame)?;
            sent(socket, frame)
        }
    }
}

/// Sends a frame by a socket.
fn sent<S: DatagramSocket>(socket: &mut S, frame: &[u8]) -> Result<(), LinkFault>
    ensures failures { S.failures socket.new ≡ counted (is_err result) (S.failures socket.old) }
    ensures sent { Sends (S.sent socket.old) (S.sent socket.new) result frame.now }
    ensures received { S.received socket.new ≡ S.received socket.old }
{
    match socket.send(frame) {
        Ok(()) => Ok(()),
        Err(_) => Err(LinkFault),
    }
}

impl<S: DatagramSocket> Link for SocketLink<S> {
    ghost failures = { λ link. link.failures };

    ghost leads_to_itself = { λ l. tt };

    ghost leads_on = { λ l m n first second. tt };

    fn tick(&mut self, _moment: Moment) {}

    fn send(&mut self, from: Side, frame: &[u8]) -> Result<(), LinkFault>
        ensures failures { self.new.failures ≡ counted (is_err result) self.old.failures }
        ensures told { Takes {E = LinkFault} None None result from frame.now }
        ensures number { (self.new.taken ≡ one_more self.old.taken) × (self.new.losses ≡ self.old.losses) }
        ensures sent { HandsOver (S.sent (at_side from self.old.a self.old.b)) (S.sent (at_side from self.new.a self.new.b)) result (fate_by self.old.losses self.new.taken) frame.now }
        ensures received { S.received (at_side from self.new.a self.new.b) ≡ S.received (at_side from self.old.a self.old.b) }
        ensures failed { S.failures (at_side from self.new.a self.new.b) ≡ counted (is_err result) (S.failures (at_side from self.old.a self.old.b)) }
        ensures other { at_side (other_side from) self.new.a self.new.b ≡ at_side (other_side from) self.old.a self.old.b }
    {
        self.taken = self.taken.saturating_add(1);
        let fate = self.losses.fate(self.taken);
        let outcome = match from {
            Side::A => hand_over(&mut self.a, frame, fate),
            Side::B => hand_over(&mut self.b, frame, fate),
        };
        if outcome.is_err() {
            self.failures = self.failures.saturating_add(1);
        }
        outcome
    }

    fn recv(&mut self, to: Side, frame: &mut [u8; FRAME_MAX]) -> Result<Option<usize>, LinkFault>
        ensures bound { IfOk result (λ given. IfSome given (λ len. len ≤ FRAME_MAX)) }
        ensures failures { self.new.failures ≡ counted (is_err result) self.old.failures }
        ensures told { Gives {E = LinkFault} None None result to frame.new }
        ensures number { (self.new.taken ≡ self.old.taken) × (self.new.losses ≡ self.old.losses) }
        ensures received { Receives (S.received (at_side to self.old.a self.old.b)) (S.received (at_side to self.new.a self.new.b)) result frame.new }
        ensures sent { S.sent (at_side to self.new.a self.new.b) ≡ S.sent (at_side to self.old.a self.old.b) }
        ensures failed { S.failures (at_side to self.new.a self.new.b) ≡ counted (is_err result) (S.failures (at_side to self.old.a self.old.b)) }
        ensures other { at_side (other_side to) self.new.a self.new.b ≡ at_side (other_side to) self.old.a self.old.b }
    {
        let outcome = match to {
            Side::A => received(&mut self.a, frame),
            Side::B => received(&mut self.b, frame),
        };
        if outcome.is_err() {
            self.failures = self.failures.saturating_add(1);
        }
        outcome
    }

    fn failures(&self) -> u64 {
        self.failures
    }
}

/// Receives a frame by a socket.
fn received<S: DatagramSocket>(
    socket: &mut S,
    frame: &mut [u8; FRAME_MAX],
) -> Result<Option<usize>, LinkFault>
    ensures bound { IfOk result (λ given. IfSome given (λ len. len ≤ FRAME_MAX)) }
    ensures failures { S.failures socket.new ≡ counted (is_err result) (S.failures socket.old) }
    ensures sent { S.sent socket.new ≡ S.sent socket.old }
    ensures received { Receives (S.received socket.old) (S.received socket.new) result frame.new }
{
    match socket.recv(frame) {
        Ok(given) => Ok(given),
        Err(_) => Err(LinkFault),
    }
}
