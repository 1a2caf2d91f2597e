//! Calls that a signal interrupts are made again, 64 times in a row at most.

use devices::{Reading, Sink, Source, Writing};
use ether::FRAME_MAX;
use std::io::{Error, ErrorKind, Read, Result, Write};
use std::net::{Ipv4Addr, SocketAddr};
use udp_link::{DatagramSocket, MachineSocket, PeerSocket};

/// A device of the machine so many of whose calls in a row are interrupted, before one that ends well.
#[derive(Drop)]
struct Interrupted {
    in_a_row: u32,
    peer: SocketAddr,
}

impl Interrupted {
    /// Such a device, as a socket with this peer.
    fn new(in_a_row: u32, peer: SocketAddr) -> Interrupted {
        Interrupted { in_a_row, peer }
    }

    /// A call that is interrupted, or moves three octets.
    fn call(&mut self) -> Result<usize> {
        if self.in_a_row == 0 {
            return Ok(3);
        }
        self.in_a_row -= 1;
        Err(Error::from(ErrorKind::Interrupted))
    }
}

impl Read for Interrupted {
    fn read(&mut self, buffer: &mut [u8]) -> Result<usize> {
        let count = self.call()?;
        Ok(count.min(buffer.len()))
    }
}

impl Write for Interrupted {
    fn write(&mut self, octets: &[u8]) -> Result<usize> {
        let count = self.call()?;
        Ok(count.min(octets.len()))
    }

    fn flush(&mut self) -> Result<()> {
        self.call()?;
        Ok(())
    }
}

impl MachineSocket for Interrupted {
    fn send_once(&mut self, _datagram: &[u8], _to: SocketAddr) -> Result<usize> {
        self.call()
    }

    fn recv_once(&mut self, _buffer: &mut [u8; FRAME_MAX]) -> Result<(usize, SocketAddr)> {
        let count = self.call()?;
        Ok((count.min(FRAME_MAX), self.peer))
    }
}

/// How many calls in a row are interrupted, and how many calls of the device then fail before one that ends well.
const ROWS: [(u32, u64); 7] = [
    (0, 0),
    (1, 0),
    (64, 0),
    (65, 1),
    (129, 1),
    (130, 2),
    (195, 3),
];

#[test]
fn interrupted_calls_are_made_again(rt: HostRuntime) {
    let peer = SocketAddr::from((Ipv4Addr::LOCALHOST, 1));
    for (in_a_row, fails) in ROWS {
        let mut source = Reading::new(Interrupted::new(in_a_row, peer));
        let mut sink = Writing::new(Interrupted::new(in_a_row, peer));
        let mut flushed = Writing::new(Interrupted::new(in_a_row, peer));
        let mut sender = PeerSocket::new(Interrupted::new(in_a_row, peer), peer);
        let mut receiver = PeerSocket::new(Interrupted::new(in_a_row, peer), peer);
        for call in 0..=fails {
            let is_well = call == fails;
            assert!(rt;
                matches!(source.read(&mut [0; 9]), Ok(3)) == is_well,
                "{in_a_row}"
            );
            assert!(rt;
                matches!(sink.write(b"octets"), Ok(3)) == is_well,
                "{in_a_row}"
            );
            assert!(rt; flushed.flush().is_ok() == is_well, "{in_a_row}");
            assert!(rt; sender.send(b"frame").is_ok() == is_well, "{in_a_row}");
            let given = receiver.recv(&mut [0; FRAME_MAX]);
            assert!(rt; matches!(given, Ok(Some(3))) == is_well, "{in_a_row}");
        }
        let failures = [source.failures(), sink.failures(), flushed.failures()];
        assert!(rt; failures == [fails; 3], "{in_a_row}");
    }
}
