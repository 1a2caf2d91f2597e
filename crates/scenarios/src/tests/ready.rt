//! What sockets are ready for, and the sockets that frames are for, as `docs/SOCKETS.md` has it.

use super::octets::{REPLIED_BACK, REPLY};
use super::stations::{CLIENT, ONE, SERVER, Side, Station, TWO, config};
use clock::Moment;
use host::{Kind, Ready, Refusal, SocketId};
use ipv4::Endpoint;
use std::alloc::Global;
use std::process::Abort;
use tcp_segment::Seq;

/// Nothing holds.
const NOTHING: Ready = Ready {
    accept: false,
    read: false,
    write: false,
    ended: false,
    failed: false,
    opening: false,
};

const ACCEPTS: Ready = Ready {
    accept: true,
    ..NOTHING
};

const READS: Ready = Ready {
    read: true,
    ..NOTHING
};

const WRITES: Ready = Ready {
    write: true,
    ..NOTHING
};

const READS_AND_WRITES: Ready = Ready {
    read: true,
    write: true,
    ..NOTHING
};

const ENDED: Ready = Ready {
    write: true,
    ended: true,
    ..NOTHING
};

const FAILED: Ready = Ready {
    failed: true,
    ..NOTHING
};

const OPENS: Ready = Ready {
    opening: true,
    ..NOTHING
};

/// Before all ids.
const FIRST: SocketId = SocketId(0);

/// Two hosts that know each other's MAC.
fn neighbours(rt: &impl Abort, alloc: Global) -> (Station, Station) {
    let mut a = Station::new(rt, alloc, config(rt, Side::A).with_scale(false));
    let mut b = Station::new(rt, alloc, config(rt, Side::B).with_scale(false));
    assert!(rt; a.hear(0, REPLY) == Ok(()));
    assert!(rt; b.hear(0, REPLIED_BACK) == Ok(()));
    (a, b)
}

/// The frame that is due goes out and reaches the other host: the socket there that it is for.
fn pass(from: &mut Station, to: &mut Station) -> Option<SocketId> {
    from.emit()?;
    let concerned = to.host.concerns(from.sent());
    let _ = to.hear(7, from.sent());
    concerned
}

/// A listens to nothing, and opens a connection to B's listener: whom each frame is for, and what each is ready for.
fn connect(rt: &impl Abort, a: &mut Station, b: &mut Station) {
    assert!(rt; b.host.socket(Kind::Tcp) == Ok(ONE));
    assert!(rt; b.host.bind(ONE, SERVER) == Ok(()));
    assert!(rt; b.host.listen(ONE, 1) == Ok(()));
    assert!(rt; b.host.ready(ONE) == Ok(NOTHING));
    assert!(rt; a.host.socket(Kind::Tcp) == Ok(ONE));
    assert!(rt; a.host.ready(ONE) == Ok(NOTHING));
    assert!(rt; a.host.connect(Moment(0), Seq(5), ONE, SERVER) == Ok(()));
    assert!(rt; a.host.ready(ONE) == Ok(OPENS));
    assert!(rt; pass(a, b) == Some(ONE));
    assert!(rt; b.host.ready(ONE) == Ok(NOTHING));
    assert!(rt; pass(b, a) == Some(ONE));
    assert!(rt; a.host.ready(ONE) == Ok(WRITES));
    assert!(rt; pass(a, b) == Some(ONE));
    assert!(rt; b.host.ready(ONE) == Ok(ACCEPTS));
    assert!(rt; b.host.next_ready(FIRST, ACCEPTS) == Some((ONE, ACCEPTS)));
    assert!(rt; b.host.next_ready(ONE, ACCEPTS) == None);
    assert!(rt; b.host.accept(ONE) == Ok((TWO, CLIENT)));
    assert!(rt; b.host.ready(ONE) == Ok(NOTHING));
    assert!(rt; b.host.ready(TWO) == Ok(WRITES));
}

#[test]
fn sockets_are_ready_for_what_they_answer(rt: HostRuntime) {
    let (mut a, mut b) = neighbours(&rt, rt.alloc());
    connect(&rt, &mut a, &mut b);
    assert!(rt; a.host.send_room(ONE) == Ok(65_535));
    assert!(rt; a.host.send(ONE, b"hello") == Ok(5));
    assert!(rt; a.host.send_room(ONE) == Ok(65_530));
    assert!(rt; pass(&mut a, &mut b) == Some(TWO));
    assert!(rt; b.host.ready(TWO) == Ok(READS_AND_WRITES));
    assert!(rt; b.host.next_ready(FIRST, READS) == Some((TWO, READS_AND_WRITES)));
    assert!(rt; b.host.recv_len(TWO) == Ok(5));
    assert!(rt; b.host.recv(TWO, &mut [0; 9]).is_ok());
    assert!(rt; b.host.recv_len(TWO) == Ok(0));
    assert!(rt; a.host.shutdown_write(ONE) == Ok(()));
    assert!(rt; a.host.ready(ONE) == Ok(NOTHING));
    assert!(rt; a.host.send_room(ONE) == Err(Refusal::EPIPE));
    assert!(rt; pass(&mut a, &mut b) == Some(TWO));
    assert!(rt; b.host.ready(TWO) == Ok(ENDED));
    assert!(rt; b.host.recv_len(TWO) == Ok(0));
    assert!(rt; b.host.ready(SocketId(3)) == Err(Refusal::EBADF));
    assert!(rt; b.host.recv_len(ONE) == Err(Refusal::EOPNOTSUPP));
}

/// B's caller leaves octets unread, so that A's connection is reset.
#[test]
fn resets_are_told(rt: HostRuntime) {
    let (mut a, mut b) = neighbours(&rt, rt.alloc());
    connect(&rt, &mut a, &mut b);
    assert!(rt; a.host.send(ONE, b"hello") == Ok(5));
    assert!(rt; pass(&mut a, &mut b) == Some(TWO));
    assert!(rt; b.host.close(TWO) == Ok(()));
    assert!(rt; pass(&mut b, &mut a) == Some(ONE));
    assert!(rt; a.host.ready(ONE) == Ok(FAILED));
    assert!(rt; a.host.recv_len(ONE) == Err(Refusal::ECONNRESET));
    assert!(rt; a.host.send_room(ONE) == Err(Refusal::ECONNRESET));
    assert!(rt; a.host.next_ready(FIRST, FAILED) == Some((ONE, FAILED)));
}

#[test]
fn datagrams_are_read_and_written(rt: HostRuntime) {
    let (mut a, mut b) = neighbours(&rt, rt.alloc());
    let port = Endpoint {
        port: 5_001,
        ..SERVER
    };
    assert!(rt; b.host.socket(Kind::Udp) == Ok(ONE));
    assert!(rt; b.host.bind(ONE, port) == Ok(()));
    assert!(rt; b.host.ready(ONE) == Ok(WRITES));
    assert!(rt; a.host.socket(Kind::Udp) == Ok(ONE));
    assert!(rt; a.host.send_room(ONE) == Ok(65_507));
    assert!(rt; a.host.sendto(ONE, port, b"hi") == Ok(2));
    assert!(rt; a.host.send_room(ONE) == Ok(65_507));
    assert!(rt; b.host.recv_len(ONE) == Ok(0));
    assert!(rt; pass(&mut a, &mut b) == Some(ONE));
    assert!(rt; b.host.ready(ONE) == Ok(READS_AND_WRITES));
    assert!(rt; b.host.recv_len(ONE) == Ok(2));
    assert!(rt; b.host.concerns(REPLIED_BACK) == None);
}
