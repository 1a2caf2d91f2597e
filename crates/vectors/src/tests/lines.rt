//! What is printed of frames. The octets and the lines are those that the RFCs' formats give.

use decode::{HexFault, Unreadable, decode, octets_of};
use std::alloc::Global;
use std::test::Fail;

/// A frame, the lines that are printed of it, and why it is dropped.
type Row = (&'static str, &'static str, Option<Unreadable>);

/// A request, padded to 60 octets, and the reply to it (RFC 826).
const ARP: [Row; 2] = [
    (
        "ffffffffffff020000000001 0806 0001080006040001 020000000001 0a000001 000000000000 0a000002 000000000000000000000000000000000000",
        "ether ff:ff:ff:ff:ff:ff 02:00:00:00:00:01 0806
arp request 02:00:00:00:00:01 10.0.0.1 00:00:00:00:00:00 10.0.0.2
",
        None,
    ),
    (
        "020000000001 0a1b2c3d4e5f 0806 0001080006040002 0a1b2c3d4e5f c0a801fe 020000000001 0a000001",
        "ether 02:00:00:00:00:01 0a:1b:2c:3d:4e:5f 0806
arp reply 0a:1b:2c:3d:4e:5f 192.168.1.254 02:00:00:00:00:01 10.0.0.1
",
        None,
    ),
];

/// A SYN with a size (RFC 793, 3.1), padded; data; every control bit; none of them; three of them and then the others; the size behind another option.
const SEGMENTS: [Row; 6] = [
    (
        "020000000002020000000001 0800 4500002c00004000400626ca0a0000010a000002 c0000050ffffffff000000006002ffffc3d30000020405b4 0000",
        "ether 02:00:00:00:00:02 02:00:00:00:00:01 0800
ipv4 10.0.0.1 10.0.0.2 proto 6 ttl 64 id 0 off 0 flags DF payload 24
tcp 49152 80 seq 4294967295 ack 0 flags S win 65535 mss 1460 data 0
",
        None,
    ),
    (
        "020000000002020000000001 0800 4500002d00004000400626c90a0000010a000002 c000005000000000000000085018ffff979a000068656c6c6f",
        "ether 02:00:00:00:00:02 02:00:00:00:00:01 0800
ipv4 10.0.0.1 10.0.0.2 proto 6 ttl 64 id 0 off 0 flags DF payload 25
tcp 49152 80 seq 0 ack 8 flags PA win 65535 mss - data 5
",
        None,
    ),
    (
        "020000000002020000000001 0800 4500002800004000400626ce0a0000010a000002 0050c0000000000100000002503f0000db4f0000",
        "ether 02:00:00:00:00:02 02:00:00:00:00:01 0800
ipv4 10.0.0.1 10.0.0.2 proto 6 ttl 64 id 0 off 0 flags DF payload 20
tcp 80 49152 seq 1 ack 2 flags FSRPAU win 0 mss - data 0
",
        None,
    ),
    (
        "020000000002020000000001 0800 4500002800004000400626ce0a0000010a000002 0050c000fffffffeffffffff50000001db910000",
        "ether 02:00:00:00:00:02 02:00:00:00:00:01 0800
ipv4 10.0.0.1 10.0.0.2 proto 6 ttl 64 id 0 off 0 flags DF payload 20
tcp 80 49152 seq 4294967294 ack 4294967295 flags - win 1 mss - data 0
",
        None,
    ),
    (
        "020000000002020000000001 0800 4500002800004000400626ce0a0000010a000002 0001ffff0000000000000000502500019bbb0000",
        "ether 02:00:00:00:00:02 02:00:00:00:00:01 0800
ipv4 10.0.0.1 10.0.0.2 proto 6 ttl 64 id 0 off 0 flags DF payload 20
tcp 1 65535 seq 0 ack 0 flags FRU win 1 mss - data 0
",
        None,
    ),
    (
        "020000000002020000000001 0800 4500003000004000400626c60a0000010a000002 0001ffff0000000700000009701a01005dab00000102040218000000",
        "ether 02:00:00:00:00:02 02:00:00:00:00:01 0800
ipv4 10.0.0.1 10.0.0.2 proto 6 ttl 64 id 0 off 0 flags DF payload 28
tcp 1 65535 seq 7 ack 9 flags SPA win 256 mss 536 data 0
",
        None,
    ),
];

/// A UDP datagram with a checksum, and one without (RFC 768), and one behind options of IPv4; an echo request and an unreachable (RFC 792).
const OTHERS: [Row; 5] = [
    (
        "020000000002020000000001 0800 4500001e00004000401126cd0a0000010a000002 13881389000a5c5d6869",
        "ether 02:00:00:00:00:02 02:00:00:00:00:01 0800
ipv4 10.0.0.1 10.0.0.2 proto 17 ttl 64 id 0 off 0 flags DF payload 10
udp 5000 5001 data 2
",
        None,
    ),
    (
        "020000000002020000000001 0800 4500001e00004000401126cd0a0000010a000002 13881389000a00006869",
        "ether 02:00:00:00:00:02 02:00:00:00:00:01 0800
ipv4 10.0.0.1 10.0.0.2 proto 17 ttl 64 id 0 off 0 flags DF payload 10
udp 5000 5001 data 2
",
        None,
    ),
    (
        "020000000002020000000001 0800 4600002200004000401123c80a0000010a00000201010100 13881389000a5c5d6869",
        "ether 02:00:00:00:00:02 02:00:00:00:00:01 0800
ipv4 10.0.0.1 10.0.0.2 proto 17 ttl 64 id 0 off 0 flags DF payload 10
udp 5000 5001 data 2
",
        None,
    ),
    (
        "020000000002020000000001 0800 4500001f00004000400126dc0a0000010a000002 0800339b00010001616263",
        "ether 02:00:00:00:00:02 02:00:00:00:00:01 0800
ipv4 10.0.0.1 10.0.0.2 proto 1 ttl 64 id 0 off 0 flags DF payload 11
icmp type 8 code 0 data 3
",
        None,
    ),
    (
        "020000000002020000000001 0800 4500001c00000000ff01a7de0a0000010a000002 0304fcfb00000000",
        "ether 02:00:00:00:00:02 02:00:00:00:00:01 0800
ipv4 10.0.0.1 10.0.0.2 proto 1 ttl 255 id 0 off 0 flags - payload 8
icmp type 3 code 4 data 0
",
        None,
    ),
];

/// Fragments (RFC 791): the first, the last, one between, and one that may not be fragmented again. And another protocol.
const PARTS: [Row; 6] = [
    (
        "020000000002020000000001 0800 4500002401022000401145c50a0000010a000002 1388138900185c416162636465666768",
        "ether 02:00:00:00:00:02 02:00:00:00:00:01 0800
ipv4 10.0.0.1 10.0.0.2 proto 17 ttl 64 id 258 off 0 flags MF payload 16
",
        None,
    ),
    (
        "020000000002020000000001 0800 45000016010200b90111a41a0a0000010a000002 6162",
        "ether 02:00:00:00:00:02 02:00:00:00:00:01 0800
ipv4 10.0.0.1 10.0.0.2 proto 17 ttl 1 id 258 off 1480 flags - payload 2
",
        None,
    ),
    (
        "020000000002020000000001 0800 4500001cffff2002000186dd0a0000010a000002 6162636465666768",
        "ether 02:00:00:00:00:02 02:00:00:00:00:01 0800
ipv4 10.0.0.1 10.0.0.2 proto 1 ttl 0 id 65535 off 16 flags MF payload 8
",
        None,
    ),
    (
        "020000000002020000000001 0800 4500001c00016001400606d80a0000010a000002 6162636465666768",
        "ether 02:00:00:00:00:02 02:00:00:00:00:01 0800
ipv4 10.0.0.1 10.0.0.2 proto 6 ttl 64 id 1 off 8 flags DF+MF payload 8
",
        None,
    ),
    (
        "020000000002020000000001 0800 4500001600001f40400147a50a0000010a000002 6162",
        "ether 02:00:00:00:00:02 02:00:00:00:00:01 0800
ipv4 10.0.0.1 10.0.0.2 proto 1 ttl 64 id 0 off 64000 flags - payload 2
",
        None,
    ),
    (
        "020000000002020000000001 0800 4500001700070000405966850a0000010a000002 616263",
        "ether 02:00:00:00:00:02 02:00:00:00:00:01 0800
ipv4 10.0.0.1 10.0.0.2 proto 89 ttl 64 id 7 off 0 flags - payload 3
",
        None,
    ),
];

/// What cannot be read, behind the lines of the layers below, which can.
const DROPS: [Row; 15] = [
    (
        "020000000002020000000001 08",
        "drop F1
",
        Some(Unreadable::Short),
    ),
    (
        "",
        "drop F1
",
        Some(Unreadable::Short),
    ),
    (
        "020000000002 020000000001 86dd 6000000000003b40",
        "ether 02:00:00:00:00:02 02:00:00:00:00:01 86dd
drop F3
",
        Some(Unreadable::OtherType),
    ),
    (
        "020000000002020000000001 0800 6500002d00004000400606c90a0000010a000002 c000005000000000000000085018ffff979a000068656c6c6f",
        "ether 02:00:00:00:00:02 02:00:00:00:00:01 0800
drop F4
",
        Some(Unreadable::IpHeader),
    ),
    (
        "020000000002020000000001 0800 4400002d00004000400627c90a0000010a000002 c000005000000000000000085018ffff979a000068656c6c6f",
        "ether 02:00:00:00:00:02 02:00:00:00:00:01 0800
drop F4
",
        Some(Unreadable::IpHeader),
    ),
    (
        "020000000002020000000001 0800",
        "ether 02:00:00:00:00:02 02:00:00:00:00:01 0800
drop F4
",
        Some(Unreadable::IpHeader),
    ),
    (
        "020000000002020000000001 0800 4500002d00004000400626ca0a0000010a000002 c000005000000000000000085018ffff979a000068656c6c6f",
        "ether 02:00:00:00:00:02 02:00:00:00:00:01 0800
drop F5
",
        Some(Unreadable::IpSum),
    ),
    (
        "ffffffffffff020000000001 0806 0002080006040001 020000000001 0a000001 000000000000 0a000002",
        "ether ff:ff:ff:ff:ff:ff 02:00:00:00:00:01 0806
drop F7
",
        Some(Unreadable::UpperHeader),
    ),
    (
        "ffffffffffff020000000001 0806 0001080006040001 020000000001 0a000001 000000000000 0a0000",
        "ether ff:ff:ff:ff:ff:ff 02:00:00:00:00:01 0806
drop F7
",
        Some(Unreadable::UpperHeader),
    ),
    (
        "020000000002020000000001 0800 4500002d00004000400626c90a0000010a000002 c000005000000000000000084018ffffa79a000068656c6c6f",
        "ether 02:00:00:00:00:02 02:00:00:00:00:01 0800
ipv4 10.0.0.1 10.0.0.2 proto 6 ttl 64 id 0 off 0 flags DF payload 25
drop F7
",
        Some(Unreadable::UpperHeader),
    ),
    (
        "020000000002020000000001 0800 4500001e00004000401126cd0a0000010a000002 1388138900075c636869",
        "ether 02:00:00:00:00:02 02:00:00:00:00:01 0800
ipv4 10.0.0.1 10.0.0.2 proto 17 ttl 64 id 0 off 0 flags DF payload 10
drop F7
",
        Some(Unreadable::UpperHeader),
    ),
    (
        "020000000002020000000001 0800 4500001b00004000400126e00a0000010a000002 0800f7fe000100",
        "ether 02:00:00:00:00:02 02:00:00:00:00:01 0800
ipv4 10.0.0.1 10.0.0.2 proto 1 ttl 64 id 0 off 0 flags DF payload 7
drop F7
",
        Some(Unreadable::UpperHeader),
    ),
    (
        "020000000002020000000001 0800 4500002d00004000400626c90a0000010a000002 c000005000000000000000085018ffff979b000068656c6c6f",
        "ether 02:00:00:00:00:02 02:00:00:00:00:01 0800
ipv4 10.0.0.1 10.0.0.2 proto 6 ttl 64 id 0 off 0 flags DF payload 25
drop F8
",
        Some(Unreadable::UpperSum),
    ),
    (
        "020000000002020000000001 0800 4500001e00004000401126cd0a0000010a000002 13881389000a5c5e6869",
        "ether 02:00:00:00:00:02 02:00:00:00:00:01 0800
ipv4 10.0.0.1 10.0.0.2 proto 17 ttl 64 id 0 off 0 flags DF payload 10
drop F8
",
        Some(Unreadable::UpperSum),
    ),
    (
        "020000000002020000000001 0800 4500001f00004000400126dc0a0000010a000002 0800339c00010001616263",
        "ether 02:00:00:00:00:02 02:00:00:00:00:01 0800
ipv4 10.0.0.1 10.0.0.2 proto 1 ttl 64 id 0 off 0 flags DF payload 11
drop F8
",
        Some(Unreadable::UpperSum),
    ),
];

/// Texts, and the octets that they spell.
const PAIRS: [(&str, &[u8]); 7] = [
    ("", b""),
    (" \t\n\r ", b""),
    ("00", b"\x00"),
    ("0aF9", b"\x0a\xf9"),
    ("AB cD\tEf\n09", b"\xab\xcd\xef\x09"),
    ("  68 656c\n\n6c6F ", b"hello"),
    (
        "0123456789abcdefABCDEF",
        b"\x01\x23\x45\x67\x89\xab\xcd\xef\xab\xcd\xef",
    ),
];

/// Texts that spell none.
const NO_PAIRS: [&str; 10] = [
    "0", "00 1", "0 0", "000", "0g", "G0", "+0", "-1", "0x00", "00,01",
];

/// Whether these lines are printed of a frame, and it is dropped so.
fn is_told_so(alloc: Global, row: &Row) -> Result<bool, Fail> {
    let (text, want, cause) = row;
    let frame = octets_of(alloc, text.as_bytes())?;
    let mut lines = String::new(alloc);
    let found = decode(frame.as_slice(), &mut lines)?;
    Ok(lines.as_str() == *want && found == *cause)
}

#[test]
fn frames_are_decoded(rt: HostRuntime) -> Result<(), Fail> {
    for table in &[ARP.as_slice(), &SEGMENTS, &OTHERS, &PARTS, &DROPS] {
        for row in *table {
            assert!(rt; is_told_so(rt.alloc(), row)?);
        }
    }
    Ok(())
}

#[test]
fn lines_are_added(rt: HostRuntime) -> Result<(), Fail> {
    let mut lines = String::new(rt.alloc());
    lines.push_str("frame 0\n")?;
    assert!(rt; decode(b"hello", &mut lines)? == Some(Unreadable::Short));
    assert!(rt; lines.as_str() == "frame 0\ndrop F1\n");
    Ok(())
}

#[test]
fn pairs_are_read(rt: HostRuntime) -> Result<(), Fail> {
    for (text, want) in &PAIRS {
        let octets = octets_of(rt.alloc(), text.as_bytes())?;
        assert!(rt; octets.as_slice() == *want);
    }
    Ok(())
}

#[test]
fn no_pairs_are_refused(rt: HostRuntime) {
    for text in &NO_PAIRS {
        assert!(rt; octets_of(rt.alloc(), text.as_bytes()).err() == Some(HexFault::NotHex));
    }
}
