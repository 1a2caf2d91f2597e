//! A UDP socket of the machine that knows its peer.

ghost use Rattle.std.specs.Prelude.{◌≡◌, ◌≤◌, None, is_err, IfOk, IfSome};
ghost use Rattle.devices.specs.Calls.{end_of};
ghost use Rattle.devices.specs.Streams.{counted};
ghost use Rattle.udp_link.specs.Datagrams.{Sends, Receives};
ghost use Rattle.udp_link.specs.Machine.{IsAsked, IsAskedLast};

use crate::machine::{self, MachineSocket};
use crate::socket::DatagramSocket;
use ether::FRAME_MAX;
use std::io::{ErrorKind, Result};
use std::net::{Ipv4Addr, Net, SocketAddr, UdpSocket};

/// The most datagrams of others that one call passes over.
const MOST_STRANGERS: u32 = 64;

/// A UDP socket of the machine that sends to its peer alone, and passes over the datagrams of others. A call that a signal interrupted is made again, 64
/// times in a row at most; then it failed.
#[derive(Debug, Drop)]
pub struct PeerSocket<S> {
    socket: S,
    peer: SocketAddr,
    failures: u64,
}

/// Two sockets on 127.0.0.1, each with the other as its peer. No call of theirs waits.
pub fn pair<N: Net>(net: &N) -> Result<(PeerSocket<UdpSocket>, PeerSocket<UdpSocket>)>
    ensures { IfOk result (λ sockets. (sockets.0.failures ≡ 0) × (sockets.1.failures ≡ 0)) }
{
    let (a, b) = (bound(net)?, bound(net)?);
    let (at_a, at_b) = (a.local_addr()?, b.local_addr()?);
    Ok((PeerSocket::new(a, at_b), PeerSocket::new(b, at_a)))
}

/// A socket at a free port of 127.0.0.1, no call of which waits.
fn bound<N: Net>(net: &N) -> Result<UdpSocket> {
    let socket = UdpSocket::bind(net, SocketAddr::from((Ipv4Addr::LOCALHOST, 0)))?;
    socket.set_nonblocking(true)?;
    Ok(socket)
}

impl<S> PeerSocket<S> {
    /// A socket whose peer is here, with no failure so far.
    pub fn new(socket: S, peer: SocketAddr) -> Self
        ensures socket { (result.socket ≡ socket) × (result.peer ≡ peer) }
        ensures failures { result.failures ≡ 0 }
    {
        PeerSocket {
            socket,
            peer,
            failures: 0,
        }
    }

    /// Where the peer is.
    pub fn peer(&self) -> SocketAddr
        ensures { result ≡ self.now.peer }
    {
        self.peer
    }
}

impl<S: MachineSocket> DatagramSocket for PeerSocket<S> {
    ghost failures = { λ socket. socket.failures };

    /// One that the machine has no room for now is lost.
    fn send(&mut self, datagram: &[u8]) -> Result<()>
        ensures failures { self.new.failures ≡ counted (is_err result) self.old.failures }
        ensures sent { Sends None None result datagram.now }
        ensures asked { IsAsked (S.ends self.old.socket) (S.ends self.new.socket) (end_of result) }
    {
        match machine::send(&mut self.socket, datagram, self.peer) {
            Ok(_) => Ok(()),
            Err(error) if error.kind() == ErrorKind::WouldBlock => Ok(()),
            Err(error) => {
                self.failures = self.failures.saturating_add(1);
                Err(error)
            }
        }
    }

    #[tactic(auto, using(crate::proofs::AskedLemmas::passes_on))]
    fn recv(&mut self, buffer: &mut [u8; FRAME_MAX]) -> Result<Option<usize>>
        ensures bound { IfOk result (λ given. IfSome given (λ len. len ≤ FRAME_MAX)) }
        ensures failures { self.new.failures ≡ counted (is_err result) self.old.failures }
        ensures received { Receives None None result buffer.new }
        ensures asked { IsAskedLast (S.ends self.old.socket) (S.ends self.new.socket) (end_of result) }
    {
        let mut strangers = 0;
        while strangers < MOST_STRANGERS {
            match machine::recv(&mut self.socket, buffer) {
                Ok((len, source)) if source == self.peer => return Ok(Some(len)),
                Ok(_) => strangers += 1,
                Err(error) if error.kind() == ErrorKind::WouldBlock => return Ok(None),
                Err(error) => {
                    self.failures = self.failures.saturating_add(1);
                    return Err(error);
                }
            }
        }
        Ok(None)
    }
}
