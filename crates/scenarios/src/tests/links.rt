//! Frames over two real sockets, and what becomes of which frame.

use devices::Link;
use std::net::{Ipv4Addr, SocketAddr, UdpSocket};
use std::process::Abort;
use std::test::Fail;
use udp_link::{Every, Fate, Losses, PeerSocket, SocketLink, pair};
use wire_sim::Side::{self, A, B};

/// One of so many is lost and one of so many is sent twice; 0 is none.
fn losses(lose: u64, repeat: u64) -> Losses {
    Losses {
        lose: Every::new(lose),
        repeat: Every::new(repeat),
    }
}

/// Of which frames one is lost and one is sent twice, a frame's number, and what becomes of it. Steps go from two to a million.
const FATES: [(u64, u64, u64, Fate); 12] = [
    (0, 0, 1, Fate::Once),
    (7, 5, 5, Fate::Twice),
    (7, 5, 6, Fate::Once),
    (7, 5, 7, Fate::Lost),
    (7, 5, 10, Fate::Twice),
    (7, 5, 35, Fate::Lost),
    (2, 2, 1, Fate::Once),
    (2, 2, 2, Fate::Lost),
    (0, 1_000_000, 1_000_000, Fate::Twice),
    (1_000_000, 0, 999_999, Fate::Once),
    (1, 1, 1, Fate::Once),
    (1_000_001, u64::MAX, 1_000_001, Fate::Once),
];

#[test]
fn numbers_decide_what_becomes_of_frames(rt: HostRuntime) {
    for (lose, repeat, number, fate) in FATES {
        assert!(rt; losses(lose, repeat).fate(number) == fate, "{number}");
    }
}

/// A frame comes to a side, or none.
fn comes(
    rt: &impl Abort,
    link: &mut SocketLink<PeerSocket<UdpSocket>>,
    to: Side,
    want: Option<&[u8]>,
) {
    let mut frame = [0; 1514];
    let given = match link.recv(to, &mut frame) {
        Ok(Some(len)) => frame.get(..len),
        _ => None,
    };
    assert!(rt; given == want);
}

/// What goes from a and from b in turn. The third and the sixth are lost, and the fourth is sent twice.
const FRAMES: [&[u8]; 6] = [b"1", b"2", b"3", &[0xa5; 60], &[0x5a; 1514], b"6"];

/// What comes of them.
const COMES: [(Side, Option<&[u8]>); 7] = [
    (A, Some(b"2")),
    (A, Some(&[0xa5; 60])),
    (A, Some(&[0xa5; 60])),
    (A, None),
    (B, Some(b"1")),
    (B, Some(&[0x5a; 1514])),
    (B, None),
];

/// The frames of both sides are counted, and come whole and as they were.
#[test]
fn frames_go_over_sockets(rt: HostRuntime) -> Result<(), Fail> {
    let (a, b) = pair(&rt)?;
    let mut link = SocketLink::new(a, b, losses(3, 4));
    let mut from = A;
    for frame in FRAMES {
        assert!(rt; link.send(from, frame) == Ok(()));
        from = from.other();
    }
    for (to, want) in COMES {
        comes(&rt, &mut link, to, want);
    }
    assert!(rt; link.failures() == 0);
    Ok(())
}

/// A datagram of another socket is passed over.
#[test]
fn strangers_are_passed_over(rt: HostRuntime) -> Result<(), Fail> {
    let (a, b) = pair(&rt)?;
    let at_b = a.peer();
    let stranger = UdpSocket::bind(&rt, SocketAddr::from((Ipv4Addr::LOCALHOST, 0)))?;
    let mut link = SocketLink::new(a, b, losses(0, 0));
    assert!(rt; stranger.send_to(b"?", at_b)? == 1);
    assert!(rt; link.send(A, b"!") == Ok(()));
    comes(&rt, &mut link, B, Some(b"!"));
    comes(&rt, &mut link, B, None);
    Ok(())
}
