//! Datagrams of IPv4 (RFC 791 section 3.1).

use super::{A, B};
use ipv4::{Addr, Head, Ipv4Fault, Ipv4View, Protocol};

/// Octets, and the time to live and the length of the payload of the datagram that they spell, or the fault. Malformed ones
/// are so with a right checksum and with a wrong one.
const DATAGRAMS: [(&[u8], Result<(u8, usize), Ipv4Fault>); 46] = [
    // an octet less than a header
    (
        b"\x45\0\0\x14\0\0\0\0\x01\x11\xa5\xd7\x0a\0\0\x01\x0a\0\0",
        Err(Ipv4Fault::IpHeader),
    ),
    (
        b"\x45\0\0\x14\0\0\0\0\x01\x11\xa4\xd7\x0a\0\0\x01\x0a\0\0",
        Err(Ipv4Fault::IpHeader),
    ),
    // no octets
    (b"", Err(Ipv4Fault::IpHeader)),
    // other versions
    (
        b"\x55\0\0\x14\0\0\0\0\x01\x11\x95\xd7\x0a\0\0\x01\x0a\0\0\x02",
        Err(Ipv4Fault::IpHeader),
    ),
    (
        b"\x55\0\0\x14\0\0\0\0\x01\x11\x94\xd7\x0a\0\0\x01\x0a\0\0\x02",
        Err(Ipv4Fault::IpHeader),
    ),
    (
        b"\x35\0\0\x14\0\0\0\0\x01\x11\xb5\xd7\x0a\0\0\x01\x0a\0\0\x02",
        Err(Ipv4Fault::IpHeader),
    ),
    (
        b"\x35\0\0\x14\0\0\0\0\x01\x11\xb4\xd7\x0a\0\0\x01\x0a\0\0\x02",
        Err(Ipv4Fault::IpHeader),
    ),
    // a header of four words
    (
        b"\x44\0\0\x14\0\0\0\0\x01\x11\xa6\xd7\x0a\0\0\x01\x0a\0\0\x02",
        Err(Ipv4Fault::IpHeader),
    ),
    (
        b"\x44\0\0\x14\0\0\0\0\x01\x11\xa7\xd7\x0a\0\0\x01\x0a\0\0\x02",
        Err(Ipv4Fault::IpHeader),
    ),
    // a header past the total length
    (
        b"\x46\0\0\x17\0\0\0\0\x01\x11\xa4\xd4\x0a\0\0\x01\x0a\0\0\x02\0\0\0\0",
        Err(Ipv4Fault::IpHeader),
    ),
    (
        b"\x46\0\0\x17\0\0\0\0\x01\x11\xa5\xd4\x0a\0\0\x01\x0a\0\0\x02\0\0\0\0",
        Err(Ipv4Fault::IpHeader),
    ),
    (
        b"\x45\0\0\x13\0\0\0\0\x01\x11\xa5\xd8\x0a\0\0\x01\x0a\0\0\x02",
        Err(Ipv4Fault::IpHeader),
    ),
    (
        b"\x45\0\0\x13\0\0\0\0\x01\x11\xa4\xd8\x0a\0\0\x01\x0a\0\0\x02",
        Err(Ipv4Fault::IpHeader),
    ),
    // a total length past what is given
    (
        b"\x45\0\0\x15\0\0\0\0\x01\x11\xa5\xd6\x0a\0\0\x01\x0a\0\0\x02",
        Err(Ipv4Fault::IpHeader),
    ),
    (
        b"\x45\0\0\x15\0\0\0\0\x01\x11\xa4\xd6\x0a\0\0\x01\x0a\0\0\x02",
        Err(Ipv4Fault::IpHeader),
    ),
    (
        b"\x4f\0\0\x3c\0\0\0\0\x01\x11\x9b\xaf\x0a\0\0\x01\x0a\0\0\x02\0\0\0\0\0\0\0\0\0\0\0\0\0\0\0\0\0\0\0\0\0\0\0\0\0\0\0\0\0\0\0\0\0\0\0\0\0\0\0",
        Err(Ipv4Fault::IpHeader),
    ),
    (
        b"\x4f\0\0\x3c\0\0\0\0\x01\x11\x9a\xaf\x0a\0\0\x01\x0a\0\0\x02\0\0\0\0\0\0\0\0\0\0\0\0\0\0\0\0\0\0\0\0\0\0\0\0\0\0\0\0\0\0\0\0\0\0\0\0\0\0\0",
        Err(Ipv4Fault::IpHeader),
    ),
    // an empty fragment before others, and two of other than units of eight octets
    (
        b"\x45\0\0\x14\0\0\x20\0\x01\x11\x85\xd7\x0a\0\0\x01\x0a\0\0\x02",
        Err(Ipv4Fault::IpHeader),
    ),
    (
        b"\x45\0\0\x14\0\0\x20\0\x01\x11\x84\xd7\x0a\0\0\x01\x0a\0\0\x02",
        Err(Ipv4Fault::IpHeader),
    ),
    (
        b"\x45\0\0\x1b\0\0\x20\0\x01\x11\x85\xd0\x0a\0\0\x01\x0a\0\0\x02\0\0\0\0\0\0\0\0",
        Err(Ipv4Fault::IpHeader),
    ),
    (
        b"\x45\0\0\x1b\0\0\x20\0\x01\x11\x84\xd0\x0a\0\0\x01\x0a\0\0\x02\0\0\0\0\0\0\0\0",
        Err(Ipv4Fault::IpHeader),
    ),
    (
        b"\x45\0\0\x1d\0\0\x20\0\x01\x11\x85\xce\x0a\0\0\x01\x0a\0\0\x02\0\0\0\0\0\0\0\0\0\0\0\0",
        Err(Ipv4Fault::IpHeader),
    ),
    (
        b"\x45\0\0\x1d\0\0\x20\0\x01\x11\x84\xce\x0a\0\0\x01\x0a\0\0\x02\0\0\0\0\0\0\0\0\0\0\0\0",
        Err(Ipv4Fault::IpHeader),
    ),
    // payloads past octet 65,515 of the whole
    (
        b"\x45\0\0\x20\0\0\x1f\xfc\x01\x11\x85\xcf\x0a\0\0\x01\x0a\0\0\x02\0\0\0\0\0\0\0\0\0\0\0\0",
        Err(Ipv4Fault::IpHeader),
    ),
    (
        b"\x45\0\0\x20\0\0\x1f\xfc\x01\x11\x84\xcf\x0a\0\0\x01\x0a\0\0\x02\0\0\0\0\0\0\0\0\0\0\0\0",
        Err(Ipv4Fault::IpHeader),
    ),
    (
        b"\x45\0\0\x1c\0\0\x1f\xfd\x01\x11\x85\xd2\x0a\0\0\x01\x0a\0\0\x02\0\0\0\0\0\0\0\0",
        Err(Ipv4Fault::IpHeader),
    ),
    (
        b"\x45\0\0\x1c\0\0\x1f\xfd\x01\x11\x84\xd2\x0a\0\0\x01\x0a\0\0\x02\0\0\0\0\0\0\0\0",
        Err(Ipv4Fault::IpHeader),
    ),
    (
        b"\x45\0\0\x1c\0\0\x1f\xff\x01\x11\x85\xd0\x0a\0\0\x01\x0a\0\0\x02\0\0\0\0\0\0\0\0",
        Err(Ipv4Fault::IpHeader),
    ),
    (
        b"\x45\0\0\x1c\0\0\x1f\xff\x01\x11\x84\xd0\x0a\0\0\x01\x0a\0\0\x02\0\0\0\0\0\0\0\0",
        Err(Ipv4Fault::IpHeader),
    ),
    // the least one, the flag that has no meaning, padding, options, a fragment, and payloads up to octet 65,515 of the whole
    (
        b"\x45\0\0\x14\0\0\0\0\x01\x11\xa5\xd7\x0a\0\0\x01\x0a\0\0\x02",
        Ok((1, 0)),
    ),
    (
        b"\x45\0\0\x14\0\0\0\0\x01\x11\xa4\xd7\x0a\0\0\x01\x0a\0\0\x02",
        Err(Ipv4Fault::IpSum),
    ),
    (
        b"\x45\0\0\x14\0\0\x80\0\x01\x11\x25\xd7\x0a\0\0\x01\x0a\0\0\x02",
        Ok((1, 0)),
    ),
    (
        b"\x45\0\0\x14\0\0\x80\0\x01\x11\x24\xd7\x0a\0\0\x01\x0a\0\0\x02",
        Err(Ipv4Fault::IpSum),
    ),
    (
        b"\x45\0\0\x15\0\0\x40\0\x01\x11\x65\xd6\x0a\0\0\x01\x0a\0\0\x02\0\0\0\0\0\0\0\0\0\0\0\0\0\0\0\0\0\0\0\0\0\0\0\0\0\0\0\0\0\0\0\0\0\0\0\0\0\0\0\0\0\0\0\0",
        Ok((1, 1)),
    ),
    (
        b"\x45\0\0\x15\0\0\x40\0\x01\x11\x64\xd6\x0a\0\0\x01\x0a\0\0\x02\0\0\0\0\0\0\0\0\0\0\0\0\0\0\0\0\0\0\0\0\0\0\0\0\0\0\0\0\0\0\0\0\0\0\0\0\0\0\0\0\0\0\0\0",
        Err(Ipv4Fault::IpSum),
    ),
    (
        b"\x46\0\0\x18\0\0\0\0\x01\x11\xa4\xd3\x0a\0\0\x01\x0a\0\0\x02\0\0\0\0",
        Ok((1, 0)),
    ),
    (
        b"\x46\0\0\x18\0\0\0\0\x01\x11\xa5\xd3\x0a\0\0\x01\x0a\0\0\x02\0\0\0\0",
        Err(Ipv4Fault::IpSum),
    ),
    (
        b"\x4f\0\0\x3d\0\0\0\0\x01\x11\x9b\xae\x0a\0\0\x01\x0a\0\0\x02\0\0\0\0\0\0\0\0\0\0\0\0\0\0\0\0\0\0\0\0\0\0\0\0\0\0\0\0\0\0\0\0\0\0\0\0\0\0\0\0\0\0\0\0",
        Ok((1, 1)),
    ),
    (
        b"\x4f\0\0\x3d\0\0\0\0\x01\x11\x9a\xae\x0a\0\0\x01\x0a\0\0\x02\0\0\0\0\0\0\0\0\0\0\0\0\0\0\0\0\0\0\0\0\0\0\0\0\0\0\0\0\0\0\0\0\0\0\0\0\0\0\0\0\0\0\0\0",
        Err(Ipv4Fault::IpSum),
    ),
    (
        b"\x45\0\0\x1c\0\0\x20\0\x01\x11\x85\xcf\x0a\0\0\x01\x0a\0\0\x02\0\0\0\0\0\0\0\0",
        Ok((1, 8)),
    ),
    (
        b"\x45\0\0\x1c\0\0\x20\0\x01\x11\x84\xcf\x0a\0\0\x01\x0a\0\0\x02\0\0\0\0\0\0\0\0",
        Err(Ipv4Fault::IpSum),
    ),
    (
        b"\x45\0\0\x1f\0\0\x1f\xfc\x01\x11\x85\xd0\x0a\0\0\x01\x0a\0\0\x02\0\0\0\0\0\0\0\0\0\0\0",
        Ok((1, 11)),
    ),
    (
        b"\x45\0\0\x1f\0\0\x1f\xfc\x01\x11\x84\xd0\x0a\0\0\x01\x0a\0\0\x02\0\0\0\0\0\0\0\0\0\0\0",
        Err(Ipv4Fault::IpSum),
    ),
    (
        b"\x45\0\0\x17\0\0\x1f\xfd\x01\x11\x85\xd7\x0a\0\0\x01\x0a\0\0\x02\0\0\0\0\0\0\0\0\0\0\0\0\0\0\0\0\0\0\0\0\0\0\0\0\0\0\0\0\0\0\0\0\0\0\0\0\0\0\0\0\0\0\0\0",
        Ok((1, 3)),
    ),
    (
        b"\x45\0\0\x17\0\0\x1f\xfd\x01\x11\x84\xd7\x0a\0\0\x01\x0a\0\0\x02\0\0\0\0\0\0\0\0\0\0\0\0\0\0\0\0\0\0\0\0\0\0\0\0\0\0\0\0\0\0\0\0\0\0\0\0\0\0\0\0\0\0\0\0",
        Err(Ipv4Fault::IpSum),
    ),
    (
        b"\x45\0\0\x73\0\0\x40\0\x40\x11\xb8\x62\xc0\xa8\0\x01\xc0\xa8\0\xc7\0\0\0\0\0\0\0\0\0\0\0\0\0\0\0\0\0\0\0\0\0\0\0\0\0\0\0\0\0\0\0\0\0\0\0\0\0\0\0\0\0\0\0\0\0\0\0\0\0\0\0\0\0\0\0\0\0\0\0\0\0\0\0\0\0\0\0\0\0\0\0\0\0\0\0\0\0\0\0\0\0\0\0\0\0\0\0\0\0\0\0\0\0\0\0",
        Err(Ipv4Fault::IpSum),
    ),
];

fn read(octets: &[u8]) -> Result<(u8, usize), Ipv4Fault> {
    let view = Ipv4View::parse(octets)?;
    Ok((view.ttl(), view.payload().len()))
}

#[test]
fn faults(rt: HostRuntime) {
    for (octets, want) in &DATAGRAMS {
        assert!(rt; read(octets) == *want);
    }
}

/// The header of a datagram of UDP from 192.168.0.1 to 192.168.0.199.
const UDP: [u8; 20] =
    *b"\x45\x00\x00\x73\x00\x00\x40\x00\x40\x11\xb8\x61\xc0\xa8\x00\x01\xc0\xa8\x00\xc7";

/// What it says of the datagram.
const UDP_HEAD: Head = Head {
    source: Addr([192, 168, 0, 1]),
    destination: Addr([192, 168, 0, 199]),
    protocol: Protocol::UDP,
    identification: 0,
    dont_fragment: true,
    more_fragments: false,
    offset: 0,
};

/// What a header says of the datagram that it begins.
fn head_of(view: &Ipv4View) -> Head {
    Head {
        source: view.source(),
        destination: view.destination(),
        protocol: view.protocol(),
        identification: view.identification(),
        dont_fragment: view.dont_fragment(),
        more_fragments: view.more_fragments(),
        offset: view.offset(),
    }
}

/// Whether a datagram is that of UDP, and its header, its options and its payload stand in its octets.
fn is_the_one_of_udp(view: &Ipv4View, octets: &[u8; 115]) -> bool {
    head_of(view) == UDP_HEAD
        && (view.service(), view.ttl(), view.checksum()) == (0, 64, 0xb861)
        && view.total_len() == 115
        && view.header() == UDP.as_slice()
        && view.options().is_empty()
        && view.payload() == &octets[20..]
}

#[test]
fn a_datagram_is_read(rt: HostRuntime) {
    let mut octets = [0; 115];
    octets[..20].copy_from_slice(&UDP);
    match Ipv4View::parse(&octets) {
        Ok(view) => assert!(rt; is_the_one_of_udp(&view, &octets)),
        Err(_) => panic!(&rt; "the octets are a datagram"),
    }
}

/// Headers before a payload of 24 octets of 7 and two more octets of 7, and what they are with these: a segment's, and a
/// fragment's.
const SENT: [(Head, [u8; 46]); 2] = [
    (
        Head {
            source: A,
            destination: B,
            protocol: Protocol::TCP,
            identification: 0,
            dont_fragment: true,
            more_fragments: false,
            offset: 0,
        },
        *b"\x45\0\0\x2c\0\0\x40\0\x40\x06\x26\xca\x0a\0\0\x01\x0a\0\0\x02\x07\x07\x07\x07\x07\x07\x07\x07\x07\x07\x07\x07\x07\x07\x07\x07\x07\x07\x07\x07\x07\x07\x07\x07\x07\x07",
    ),
    (
        Head {
            source: A,
            destination: B,
            protocol: Protocol::UDP,
            identification: 0x1234,
            dont_fragment: false,
            more_fragments: true,
            offset: 185,
        },
        *b"\x45\0\0\x2c\x12\x34\x20\xb9\x40\x11\x33\xd2\x0a\0\0\x01\x0a\0\0\x02\x07\x07\x07\x07\x07\x07\x07\x07\x07\x07\x07\x07\x07\x07\x07\x07\x07\x07\x07\x07\x07\x07\x07\x07\x07\x07",
    ),
];

/// Whether a header is written so before 24 octets, and read again.
fn is_written_so(head: &Head, want: &[u8; 46]) -> bool {
    if head.offset >= 1_000 {
        return false;
    }
    let mut out = [7; 46];
    let len = head.emit(24, &mut out);
    let Ok(view) = Ipv4View::parse(&out) else {
        return false;
    };
    len == 44 && head_of(&view) == *head && view.payload() == [7; 24].as_slice() && out == *want
}

#[test]
fn headers_are_written_and_read_again(rt: HostRuntime) {
    for (head, want) in &SENT {
        assert!(rt; is_written_so(head, want));
    }
}
