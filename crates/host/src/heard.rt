//! What the frames that come in are to the host.

ghost use Rattle.std.specs.Prelude.{◌≡◌};
ghost use Rattle.host.specs.Heard.{heard_by, is_barred};

use crate::layers::Layers;
use frames::{DropCause, Meaning, read};

impl Layers {
    /// What a frame is to the host, or the first cause to drop it. With guards what comes from no host, or of an ARP packet from no neighbour, is dropped as
    /// what comes from no single host (RFC 1122 section 3.2.1.3).
    pub(crate) fn heard<'a>(&self, frame: &'a [u8]) -> Result<Meaning<'a>, DropCause>
        ensures { result ≡ heard_by self.now frame.now }
    {
        let heard = read(self.interface.mac(), self.interface.addr(), frame);
        if self.sockets.is_guarded() && self.is_barred(&heard) {
            Err(DropCause::OtherAddress)
        } else {
            heard
        }
    }

    /// Whether it comes from no host.
    fn is_barred(&self, heard: &Result<Meaning<'_>, DropCause>) -> bool
        ensures { result ≡ is_barred self.now.interface heard.now }
    {
        match heard {
            Ok(Meaning::Arp(packet)) => self.interface.is_no_neighbours(packet),
            Ok(Meaning::Tcp(received)) => self.interface.is_no_host(received.source),
            Ok(Meaning::Icmp(control)) => self.interface.is_no_host(control.source),
            Ok(Meaning::Udp(received)) => self.interface.is_no_host(received.carrier.source()),
            Ok(Meaning::UdpFragment(fragment)) => self.interface.is_no_host(fragment.source()),
            Ok(Meaning::Other(datagram)) => self.interface.is_no_host(datagram.source()),
            Err(_) => false,
        }
    }
}
