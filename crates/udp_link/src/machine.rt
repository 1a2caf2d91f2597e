//! A UDP socket of the machine, and what it is asked once.

ghost use Rattle.std.specs.Prelude.{◌≤◌, List, [], ◌∷◌, Option, None, IfOk};
ghost use Rattle.std.specs.declared.io.ErrorKind.{ErrorKind};
ghost use Rattle.devices.specs.Calls.{end_of, Ends, IsMadeAgain};

use devices::MOST_AGAIN;
use ether::FRAME_MAX;
use std::io::{ErrorKind, Result};
use std::net::{SocketAddr, UdpSocket};

/// What a socket with a peer stands on: a UDP socket of std, or one that makes known how each of its calls ended. A call that a signal interrupted moved
/// nothing.
pub trait MachineSocket {
    // How its calls so far ended, in order, where the socket makes it known.
    ghost ends: { Self → Option (List (Option ErrorKind)) } = { λ _. None };

    /// Sends a datagram there, once.
    fn send_once(&mut self, datagram: &[u8], to: SocketAddr) -> Result<usize>
        ensures ends { Ends (ends self.old) (ends self.new) (end_of result ∷ []) };

    /// Puts a datagram at the front of `buffer`, once, and answers its length and where it comes from.
    fn recv_once(&mut self, buffer: &mut [u8; FRAME_MAX]) -> Result<(usize, SocketAddr)>
        ensures bound { IfOk result (λ given. given.0 ≤ FRAME_MAX) }
        ensures ends { Ends (ends self.old) (ends self.new) (end_of result ∷ []) };
}

impl MachineSocket for UdpSocket {
    fn send_once(&mut self, datagram: &[u8], to: SocketAddr) -> Result<usize> {
        self.send_to(datagram, to)
    }

    fn recv_once(&mut self, buffer: &mut [u8; FRAME_MAX]) -> Result<(usize, SocketAddr)> {
        self.recv_from(buffer)
    }
}

/// Sends a datagram, and again while a signal interrupts it.
pub(crate) fn send<S: MachineSocket>(
    socket: &mut S,
    datagram: &[u8],
    to: SocketAddr,
) -> Result<usize>
    ensures ends { IsMadeAgain (S.ends socket.old) (S.ends socket.new) (end_of result) }
{
    let mut again = 0;
    while again < MOST_AGAIN {
        match socket.send_once(datagram, to) {
            Err(error) if error.kind() == ErrorKind::Interrupted => again += 1,
            outcome => return outcome,
        }
    }
    socket.send_once(datagram, to)
}

/// Receives a datagram, and again while a signal interrupts it.
pub(crate) fn recv<S: MachineSocket>(
    socket: &mut S,
    buffer: &mut [u8; FRAME_MAX],
) -> Result<(usize, SocketAddr)>
    ensures bound { IfOk result (λ given. given.0 ≤ FRAME_MAX) }
    ensures ends { IsMadeAgain (S.ends socket.old) (S.ends socket.new) (end_of result) }
{
    let mut again = 0;
    while again < MOST_AGAIN {
        match socket.recv_once(buffer) {
            Err(error) if error.kind() == ErrorKind::Interrupted => again += 1,
            outcome => return outcome,
        }
    }
    socket.recv_once(buffer)
}
