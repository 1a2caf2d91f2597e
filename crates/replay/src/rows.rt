//! The rows that are played.

use crate::failure::Failure;
use wire_sim::World;

/// An event, as a line of a script has it, and what the world answers.
#[derive(Clone, Copy, Debug)]
pub struct Line(pub &'static str, pub &'static str);

/// Octets that a frame carries.
#[derive(Clone, Copy, Debug)]
pub struct Carried {
    /// The frame's index.
    pub frame: usize,
    /// Ahead of them.
    pub skipped: usize,
    /// The octets themselves.
    pub octets: &'static [u8],
}

/// Events of a world in which nothing happened yet, with their answers.
#[derive(Clone, Copy, Debug)]
pub struct Row {
    /// The events, in order.
    pub lines: &'static [Line],
    /// What one of the frames carries.
    pub carried: Carried,
}

impl Row {
    /// Looks whether the frame carries its octets.
    pub fn compare_frame(&self, world: &World) -> Result<(), Failure> {
        let Carried {
            frame,
            skipped,
            octets,
        } = self.carried;
        match world.frame(frame) {
            Some(found) if carries(found, skipped, octets) => Ok(()),
            _ => Err(Failure::Frame(frame)),
        }
    }
}

/// Whether `octets` stand in a frame behind so many.
fn carries(frame: &[u8], skipped: usize, octets: &[u8]) -> bool {
    match frame.get(skipped..) {
        Some(rest) => rest.starts_with(octets),
        None => false,
    }
}

/// Where TCP's header stands in a frame: behind those of Ethernet and IPv4.
const TCP: usize = 34;

/// b listens at port 80, a connects, learns b's MAC, the three segments of the handshake are exchanged, and b reads what a writes.
pub const GREETING: Row = Row {
    lines: &[
        Line("b socket tcp", "id 1"),
        Line("b bind 1 80", "ok"),
        Line("b listen 1 1", "ok"),
        Line("a socket tcp", "id 1"),
        Line("a connect 1 80 4294967295", "started"),
        Line("a emit", "frame 0 60"),
        Line("a emit", "none"),
        Line("b deliver 0 7", "taken"),
        Line("b emit", "frame 1 60"),
        Line("b emit", "none"),
        Line("a deliver 1 7", "taken"),
        Line("a emit", "frame 2 60"),
        Line("a emit", "none"),
        Line("b deliver 2 7", "taken"),
        Line("b emit", "frame 3 60"),
        Line("b emit", "none"),
        Line("a deliver 3 7", "taken"),
        Line("a emit", "frame 4 60"),
        Line("a emit", "none"),
        Line("b deliver 4 7", "taken"),
        Line("b emit", "none"),
        Line("b accept 1", "id 2 10.0.0.1 49152"),
        Line("a send 1 hello", "sent 5"),
        Line("a emit", "frame 5 60"),
        Line("a emit", "none"),
        Line("b deliver 5 0", "taken"),
        Line("b emit", "none"),
        Line("b recv 2 100", "octets hello"),
    ],
    carried: Carried {
        frame: 5,
        skipped: TCP,
        octets: b"\xc0\x00\x00\x50\x00\x00\x00\x00\x00\x00\x00\x08\x50\x18\xff\xff\x97\x9a\x00\x00hello",
    },
};

/// a sends 3,000 octets as a datagram, which goes out in three fragments (RFC 791 section 3.2) that come in another order; b answers, and both close.
pub const DATAGRAMS: Row = Row {
    lines: &[
        Line("b socket udp", "id 1"),
        Line("b bind 1 5001", "ok"),
        Line("a socket udp", "id 1"),
        Line("a fillto 1 5001 3000", "sent 3000"),
        Line("a emit", "frame 0 60"),
        Line("a emit", "none"),
        Line("b deliver 0 0", "taken"),
        Line("b emit", "frame 1 60"),
        Line("b emit", "none"),
        Line("a deliver 1 0", "taken"),
        Line("a emit", "frame 2 1514"),
        Line("a emit", "frame 3 1514"),
        Line("a emit", "frame 4 82"),
        Line("a emit", "none"),
        Line("b deliver 4 0", "taken"),
        Line("b deliver 3 0", "taken"),
        Line("b countfrom 1 4000", "E8 EAGAIN"),
        Line("b deliver 2 0", "taken"),
        Line("b countfrom 1 4000", "octets 3000 from 10.0.0.1 49152"),
        Line("b sendto 1 49152 back", "sent 4"),
        Line("b emit", "frame 5 60"),
        Line("b emit", "none"),
        Line("a deliver 5 0", "taken"),
        Line("a recvfrom 1 100", "octets back from 10.0.0.2 5001"),
        Line("a close 1", "ok"),
        Line("b close 1", "ok"),
    ],
    // RFC 768: the ports, 12 octets in all, and the sum.
    carried: Carried {
        frame: 5,
        skipped: TCP,
        octets: b"\x13\x89\xc0\x00\x00\x0c\x52\x7dback",
    },
};
