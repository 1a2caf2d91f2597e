//! What frames are to a host: the octets are those that the RFCs' formats give.

use arp::ArpPacket;
use ether::{FRAME_MAX, Mac};
use frames::{DropCause, FrameHead, Meaning, emit_arp, read};
use icmp::Kind;
use ipv4::{Addr, Ipv4View, Protocol};
use std::alloc::AllocError;
use udp::{Fragment, Part};

const MAC: Mac = Mac([2, 0, 0, 0, 0, 2]);

const OURS: Addr = Addr([10, 0, 0, 2]);

const OTHER_MAC: Mac = Mac([2, 0, 0, 0, 0, 1]);

const OTHER: Addr = Addr([10, 0, 0, 1]);

/// A SYN of 10.0.0.1 for 10.0.0.2, padded (RFC 9293 section 3.1).
const SYN: [u8; 60] =
    *b"\x02\0\0\0\0\x02\x02\0\0\0\0\x01\x08\0\x45\0\0\x2c\0\0\x40\0\x40\x06\x26\xca\x0a\0\0\x01\x0a\0\0\x02\xc0\0\0\x50\xff\xff\xff\xff\0\0\0\0\x60\x02\xff\xff\xc3\xd3\0\0\x02\x04\x05\xb4\0\0";

/// A request of 10.0.0.1 for 10.0.0.2, padded (RFC 826).
const REQUEST: [u8; 60] =
    *b"\xff\xff\xff\xff\xff\xff\x02\0\0\0\0\x01\x08\x06\0\x01\x08\0\x06\x04\0\x01\x02\0\0\0\0\x01\x0a\0\0\x01\0\0\0\0\0\0\x0a\0\0\x02\0\0\0\0\0\0\0\0\0\0\0\0\0\0\0\0\0\0";

/// An echo request of 10.0.0.1 for 10.0.0.2 with the data `abc`, padded (RFC 792).
const ECHO: [u8; 60] =
    *b"\x02\0\0\0\0\x02\x02\0\0\0\0\x01\x08\0\x45\0\0\x1f\0\0\x40\0\x40\x01\x26\xdc\x0a\0\0\x01\x0a\0\0\x02\x08\0\x33\x9b\0\x01\0\x01\x61\x62\x63\0\0\0\0\0\0\0\0\0\0\0\0\0\0\0";

/// A UDP datagram of 10.0.0.1 for 10.0.0.2 with the data `hi`, padded (RFC 768).
const HI: [u8; 60] =
    *b"\x02\0\0\0\0\x02\x02\0\0\0\0\x01\x08\0\x45\0\0\x1e\0\x07\0\0\x40\x11\x66\xc6\x0a\0\0\x01\x0a\0\0\x02\x13\x88\x13\x89\0\x0a\x5c\x5dhi\0\0\0\0\0\0\0\0\0\0\0\0\0\0\0\0";

/// What a frame carries.
#[derive(Clone, Copy, PartialEq, Eq)]
enum Layer {
    Arp,
    Tcp,
    Icmp,
    Udp,
    Other,
    UdpFragment,
}

/// What a frame carries, from whom, and by what it is told apart: a segment and a UDP datagram by the port that it comes from, a
/// message by its type, a datagram by its protocol, and a packet by nothing more.
type Heard = Result<(Layer, Addr, u16), DropCause>;

fn heard_as(octets: &[u8]) -> Heard {
    match read(MAC, OURS, octets)? {
        Meaning::Arp(packet) => Ok((Layer::Arp, packet.sender_addr, 0)),
        Meaning::Tcp(received) => Ok((Layer::Tcp, received.source, received.segment.source())),
        Meaning::Icmp(control) => {
            let Kind(kind) = control.message.kind();
            Ok((Layer::Icmp, control.source, u16::from(kind)))
        }
        Meaning::Udp(received) => Ok((
            Layer::Udp,
            received.carrier.source(),
            received.datagram.source(),
        )),
        Meaning::Other(datagram) => Ok((Layer::Other, datagram.source(), number_of(&datagram))),
        Meaning::UdpFragment(datagram) => Ok((
            Layer::UdpFragment,
            datagram.source(),
            number_of(&datagram),
        )),
    }
}

/// The number of a datagram's protocol.
fn number_of(datagram: &Ipv4View) -> u16 {
    let Protocol(number) = datagram.protocol();
    u16::from(number)
}

/// Octets of a frame that are others, and what it is then.
type Row = (&'static [(usize, u8)], Heard);

/// The checksum of the header is that of the changed octets, but where it is the fault.
const OF_THE_SYN: [Row; 18] = [
    (&[], Ok((Layer::Tcp, OTHER, 49_152))),
    (&[(5, 3)], Err(DropCause::OtherMac)),
    (&[(5, 3), (13, 1)], Err(DropCause::OtherMac)),
    (
        &[(0, 255), (1, 255), (2, 255), (3, 255), (4, 255), (5, 255)],
        Err(DropCause::OtherMac),
    ),
    (&[(13, 1)], Err(DropCause::OtherType)),
    (&[(14, 0x55)], Err(DropCause::IpHeader)),
    (&[(25, 0xcb)], Err(DropCause::IpSum)),
    (&[(33, 3), (25, 0xc9)], Err(DropCause::OtherAddress)),
    (&[(29, 2), (25, 0xc9)], Err(DropCause::OtherAddress)),
    (
        &[(26, 127), (24, 0xb1), (25, 0xc9)],
        Err(DropCause::OtherAddress),
    ),
    (&[(20, 0x60), (24, 0x06)], Err(DropCause::Fragment)),
    (
        &[(20, 0x60), (24, 0x06), (46, 0x40)],
        Err(DropCause::Fragment),
    ),
    (&[(21, 1), (25, 0xc9)], Err(DropCause::Fragment)),
    (&[(46, 0x40)], Err(DropCause::UpperHeader)),
    (&[(51, 0xd4)], Err(DropCause::UpperSum)),
    (&[(23, 1), (25, 0xcf)], Err(DropCause::UpperSum)),
    (&[(23, 17), (25, 0xbf)], Err(DropCause::UpperHeader)),
    (
        &[(20, 0x60), (23, 17), (24, 0x06), (25, 0xbf)],
        Ok((Layer::UdpFragment, OTHER, 17)),
    ),
];

const OF_THE_ECHO: [Row; 7] = [
    (&[], Ok((Layer::Icmp, OTHER, 8))),
    (&[(34, 0), (36, 0x3b)], Ok((Layer::Icmp, OTHER, 0))),
    (&[(44, 0x64)], Err(DropCause::UpperSum)),
    // seven octets are no message
    (&[(17, 0x1b), (25, 0xe0)], Err(DropCause::UpperHeader)),
    (&[(21, 1), (25, 0xdb)], Err(DropCause::Fragment)),
    (&[(23, 47), (25, 0xae)], Ok((Layer::Other, OTHER, 47))),
    // for all of the link
    (
        &[
            (30, 255),
            (31, 255),
            (32, 255),
            (33, 255),
            (24, 0x30),
            (25, 0xde),
        ],
        Err(DropCause::OtherAddress),
    ),
];

const OF_THE_DATAGRAM: [Row; 8] = [
    (&[], Ok((Layer::Udp, OTHER, 5_000))),
    (&[(40, 0), (41, 0)], Ok((Layer::Udp, OTHER, 5_000))),
    (&[(43, 0x6a)], Err(DropCause::UpperSum)),
    (&[(39, 11)], Err(DropCause::UpperHeader)),
    (&[(33, 3), (25, 0xc5)], Err(DropCause::OtherAddress)),
    // more fragments follow behind ten octets
    (&[(20, 0x20), (24, 0x46)], Err(DropCause::IpHeader)),
    (&[(21, 1), (25, 0xc5)], Ok((Layer::UdpFragment, OTHER, 17))),
    (&[(23, 47), (25, 0xa8)], Ok((Layer::Other, OTHER, 47))),
];

const OF_THE_REQUEST: [Row; 8] = [
    (&[], Ok((Layer::Arp, OTHER, 0))),
    (&[(41, 9)], Ok((Layer::Arp, OTHER, 0))),
    (
        &[(0, 2), (1, 0), (2, 0), (3, 0), (4, 0), (5, 2)],
        Ok((Layer::Arp, OTHER, 0)),
    ),
    (&[(5, 0xfe)], Err(DropCause::OtherMac)),
    (&[(21, 3)], Err(DropCause::UpperHeader)),
    (&[(21, 3), (31, 2)], Err(DropCause::UpperHeader)),
    (&[(31, 2)], Err(DropCause::OtherAddress)),
    (&[(28, 0)], Err(DropCause::OtherAddress)),
];

/// Each frame, and what it is where octets of it are others.
const HEARD: [(&[u8; 60], &[Row]); 4] = [
    (&SYN, &OF_THE_SYN),
    (&ECHO, &OF_THE_ECHO),
    (&HI, &OF_THE_DATAGRAM),
    (&REQUEST, &OF_THE_REQUEST),
];

/// Octets too few for a head, too many for a frame, and as many as a frame may have.
const LENGTHS: [(&[u8], Heard); 3] = [
    (
        b"\x02\0\0\0\0\x02\x02\0\0\0\0\x01\x08",
        Err(DropCause::Short),
    ),
    (&[2; FRAME_MAX + 1], Err(DropCause::Short)),
    (&[2; FRAME_MAX], Err(DropCause::OtherMac)),
];

/// The frame with these octets in the place of its own.
fn changed(frame: &[u8; 60], changes: &[(usize, u8)]) -> [u8; 60] {
    let mut frame = *frame;
    for (place, new) in changes {
        if let Some(octet) = frame.get_mut(*place) {
            *octet = *new;
        }
    }
    frame
}

#[test]
fn frames_are_heard(rt: HostRuntime) {
    for (frame, rows) in &HEARD {
        for (changes, want) in *rows {
            assert!(rt; heard_as(&changed(frame, changes)) == *want);
        }
    }
    for (octets, want) in &LENGTHS {
        assert!(rt; heard_as(octets) == *want);
    }
}

const HEAD: FrameHead = FrameHead {
    destination: MAC,
    source: OTHER_MAC,
    from: OTHER,
    to: OURS,
};

#[test]
fn frames_go_out(rt: HostRuntime) {
    let mut out = [7; FRAME_MAX];
    out[34..58].copy_from_slice(&SYN[34..58]);
    assert!(rt; HEAD.emit_tcp(24, &mut out) == 60 && out.starts_with(&SYN));
    out[34..45].copy_from_slice(&ECHO[34..45]);
    assert!(rt; HEAD.emit_icmp(11, &mut out) == 60 && out.starts_with(&ECHO));
    out[34..44].copy_from_slice(&HI[34..44]);
    let part = Part {
        identification: 7,
        fragment: Fragment::at(10, 0),
    };
    assert!(rt; HEAD.emit_udp(part, &mut out) == 60 && out.starts_with(&HI));
    let request = ArpPacket::request(OTHER_MAC, OTHER, OURS);
    assert!(rt; emit_arp(&request, &mut out) == 60 && out.starts_with(&REQUEST));
    assert!(rt; HEAD.emit_tcp(1_480, &mut out) == FRAME_MAX);
}

/// Each cause, its number and its text.
const CAUSES: [(DropCause, u8, &str); 10] = [
    (DropCause::Short, 1, "F1 Short"),
    (DropCause::OtherMac, 2, "F2 OtherMac"),
    (DropCause::OtherType, 3, "F3 OtherType"),
    (DropCause::IpHeader, 4, "F4 IpHeader"),
    (DropCause::IpSum, 5, "F5 IpSum"),
    (DropCause::OtherAddress, 6, "F6 OtherAddress"),
    (DropCause::UpperHeader, 7, "F7 UpperHeader"),
    (DropCause::UpperSum, 8, "F8 UpperSum"),
    (DropCause::NoRoom, 9, "F9 NoRoom"),
    (DropCause::Fragment, 10, "F10 Fragment"),
];

#[test]
fn causes_are_named(rt: HostRuntime) -> Result<(), AllocError> {
    for (cause, number, text) in &CAUSES {
        assert!(rt; cause.number() == *number && cause.to_string(rt.alloc())?.as_str() == *text);
    }
    Ok(())
}
