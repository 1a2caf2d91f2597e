//! A socket for datagrams, which counts its failures.

ghost use Rattle.std.specs.Prelude.{◌≡◌, ℕ, ◌≤◌, List, Option, None, is_err, IfOk, IfSome};
ghost use Rattle.devices.specs.Streams.{counted};
ghost use Rattle.udp_link.specs.Datagrams.{Sends, Receives};

use ether::FRAME_MAX;
use std::io::Result;

/// Sends datagrams to one other socket and receives those of that one. No call waits. A datagram may be lost on its way.
pub trait DatagramSocket {
    // How many calls have failed.
    ghost failures: { Self → ℕ };

    // The datagrams sent so far, in order, where the socket makes them known.
    ghost sent: { Self → Option (List (List ℕ)) } = { λ _. None };

    // The datagrams received so far, in order, where the socket makes them known.
    ghost received: { Self → Option (List (List ℕ)) } = { λ _. None };

    /// Sends a datagram. An error is a failure, and sends nothing.
    fn send(&mut self, datagram: &[u8]) -> Result<()>
        ensures failures { failures self.new ≡ counted (is_err result) (failures self.old) }
        ensures sent { Sends (sent self.old) (sent self.new) result datagram.now }
        ensures received { received self.new ≡ received self.old };

    /// Puts a datagram at the front of `buffer` and answers its length, or None where there is none now. An error is a failure, and
    /// receives nothing.
    fn recv(&mut self, buffer: &mut [u8; FRAME_MAX]) -> Result<Option<usize>>
        ensures bound { IfOk result (λ given. IfSome given (λ len. len ≤ FRAME_MAX)) }
        ensures failures { failures self.new ≡ counted (is_err result) (failures self.old) }
        ensures sent { sent self.new ≡ sent self.old }
        ensures received { Receives (received self.old) (received self.new) result buffer.new };
}
