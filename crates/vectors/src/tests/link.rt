//! Frames of Ethernet (RFC 894).

use ether::{EtherView, FRAME_MAX, FrameFault, Head, Mac};

/// Destination, source, type and payload, or the fault.
type Read<'a> = Result<(Mac, Mac, u16, &'a [u8]), FrameFault>;

const SOURCE: Mac = Mac([2, 0, 0, 0, 0, 1]);

/// The type of a frame with an ARP packet (RFC 826).
const ARP: u16 = 0x0806;

/// The head of a request.
const HEAD: Head = Head {
    destination: Mac::BROADCAST,
    source: SOURCE,
    kind: ARP,
};

const FRAMES: [(&[u8], Read<'static>); 3] = [
    (
        b"\xff\xff\xff\xff\xff\xff\x02\0\0\0\0\x01\x08\x06",
        Ok((Mac::BROADCAST, SOURCE, ARP, b"")),
    ),
    (
        b"\x02\0\0\0\0\x02\x0a\x1b\x2c\x3d\x4e\x5f\x08\0\x61\x62",
        Ok((
            Mac([2, 0, 0, 0, 0, 2]),
            Mac([0x0a, 0x1b, 0x2c, 0x3d, 0x4e, 0x5f]),
            0x0800,
            b"ab",
        )),
    ),
    (
        b"\xff\xff\xff\xff\xff\xff\x02\0\0\0\0\x01\x08",
        Err(FrameFault::Short),
    ),
];

fn read(octets: &[u8]) -> Read<'_> {
    let frame = EtherView::parse(octets)?;
    Ok((
        frame.destination(),
        frame.source(),
        frame.kind(),
        frame.payload(),
    ))
}

#[test]
fn frames(rt: HostRuntime) {
    for (octets, want) in &FRAMES {
        assert!(rt; read(octets) == *want);
    }
}

#[test]
fn short_payloads_are_padded(rt: HostRuntime) {
    let mut want = [7; FRAME_MAX];
    want[..14].copy_from_slice(b"\xff\xff\xff\xff\xff\xff\x02\0\0\0\0\x01\x08\x06");
    for (payload_len, end) in [(1_500, 1_514), (46, 60), (28, 60)] {
        let mut out = [7; FRAME_MAX];
        want[14 + payload_len..end].fill(0);
        assert!(rt; HEAD.emit(payload_len, &mut out) == end);
        assert!(rt; out == want);
    }
}
