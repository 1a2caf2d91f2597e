//! User datagrams (RFC 768), the fragments that they go out in (RFC 791 section 3.2), and the queues in which they wait.

use super::{A, B};
use inet_sum::sum;
use ipv4::Endpoint;
use std::test::Fail;
use udp::{CAPACITY, Fragment, Head, Queue, QueueFault, UdpFault, UdpView, fragments};

/// The ports, the length, the checksum and the payload, or the fault.
type Read<'a> = Result<(u16, u16, u16, u16, &'a [u8]), UdpFault>;

/// With the payload `hi`: with two octets of padding, without a checksum, and with what is wrong.
const DATAGRAMS: [(&[u8], Read<'static>); 7] = [
    (
        b"\x13\x88\x13\x89\0\x0a\x5c\x5d\x68\x69",
        Ok((5_000, 5_001, 10, 0x5c5d, b"hi")),
    ),
    (
        b"\x13\x88\x13\x89\0\x0a\x5c\x5d\x68\x69\x07\x07",
        Ok((5_000, 5_001, 10, 0x5c5d, b"hi")),
    ),
    (
        b"\x13\x88\x13\x89\0\x0a\0\0\x68\x69",
        Ok((5_000, 5_001, 10, 0, b"hi")),
    ),
    (
        b"\x13\x88\x13\x89\0\x0a\x5c\x5e\x68\x69",
        Err(UdpFault::UpperSum),
    ),
    (
        b"\x13\x88\x13\x89\0\x0b\x5c\x5d\x68\x69",
        Err(UdpFault::UpperHeader),
    ),
    (
        b"\x13\x88\x13\x89\0\x07\x5c\x5d\x68\x69",
        Err(UdpFault::UpperHeader),
    ),
    (b"\x13\x88\x13\x89\0\x0a\x5c", Err(UdpFault::UpperHeader)),
];

fn read(octets: &[u8]) -> Read<'_> {
    let view = UdpView::parse(A, B, octets)?;
    Ok((
        view.source(),
        view.destination(),
        view.datagram_len(),
        view.checksum(),
        view.payload(),
    ))
}

#[test]
fn datagrams_are_read(rt: HostRuntime) {
    for (octets, want) in &DATAGRAMS {
        assert!(rt; read(octets) == *want);
    }
}

/// Payloads of datagrams, and what goes out with two octets of 7 behind it; the checksum of the second is 0.
const SENT: [([u8; 2], [u8; 12]); 2] = [
    (*b"hi", *b"\x13\x88\x13\x89\x00\x0a\x5c\x5dhi\x07\x07"),
    (
        *b"\xc4\xc6",
        *b"\x13\x88\x13\x89\x00\x0a\xff\xff\xc4\xc6\x07\x07",
    ),
];

const HEAD: Head = Head {
    source: 5_000,
    destination: 5_001,
};

/// Whether a datagram is written so, and its header alone.
fn is_written_so(payload: &[u8; 2], want: &[u8; 12]) -> bool {
    let mut out = [7; 12];
    out[8..10].copy_from_slice(payload);
    let payload_sum = sum(&out[8..10]);
    let len = HEAD.emit(A, B, 2, payload_sum, &mut out);
    let mut header = [7; 9];
    HEAD.emit_summed(A, B, 2, sum(payload), &mut header);
    len == 10 && out == *want && header[..8] == want[..8] && header[8] == 7
}

#[test]
fn datagrams_are_written(rt: HostRuntime) {
    for (payload, want) in &SENT {
        assert!(rt; is_written_so(payload, want));
    }
}

/// Offset, length and whether more follow, of the fragments of 3,008 octets.
const FRAGMENTS: [(u16, u16, bool); 3] = [(0, 1_480, true), (185, 1_480, true), (370, 48, false)];

#[test]
fn payloads_are_cut(rt: HostRuntime) -> Result<(), Fail> {
    let mut cut = Vec::new(rt.alloc());
    for fragment in fragments(3_008) {
        cut.push((fragment.offset, fragment.len, fragment.more_fragments))?;
    }
    assert!(rt; cut.as_slice() == FRAGMENTS.as_slice());
    let last = Fragment::at(3_008, 2);
    assert!(rt; (last.offset, last.len, last.more_fragments) == FRAGMENTS[2]);
    Ok(())
}

/// A port of `A`.
fn from(port: u16) -> Endpoint {
    Endpoint { addr: A, port }
}

/// A datagram in a queue: its port and its octets.
type Told = (u16, [u8; 3]);

/// The port and the octets of the first datagram of a queue, where it came from `A` and has three, which are copied in two parts
/// and have the queue's sum.
fn first_of(queue: &Queue) -> Option<Told> {
    let entry = queue.first()?;
    if entry.endpoint.addr != A || entry.len != 3 {
        return None;
    }
    let mut octets = [0; 3];
    queue.copy_at(2, &mut octets[2..]);
    queue.copy_at(0, &mut octets[..2]);
    if queue.sum() != sum(&octets) {
        return None;
    }
    Some((entry.endpoint.port, octets))
}

/// Whether this is the first datagram, and so many octets have room. A datagram counts 8 octets beside its own.
fn waits(queue: &Queue, first: Told, room: Option<usize>) -> bool {
    first_of(queue) == Some(first) && queue.room() == room
}

/// Whether a datagram fills the queue behind the first one, so that another is refused, and is the first once that one is taken.
fn goes_through(queue: &mut Queue, first: Told, new: Told) -> bool {
    queue.push(from(new.0), &new.1) == Ok(())
        && waits(queue, first, None)
        && queue.push(from(9), b"xyz") == Err(QueueFault::NoRoom)
        && waits(queue, first, None)
        && queue.pop().is_some()
        && waits(queue, new, Some(7))
}

/// Datagrams go through a queue for 26 octets one behind the other, often enough that they come round its end.
#[test]
fn first_in_first_out(rt: HostRuntime) -> Result<(), Fail> {
    let mut queue = Queue::with_capacity(rt.alloc(), 26)?;
    assert!(rt; queue.first().is_none() && queue.pop().is_none() && queue.room() == Some(18));
    let mut first = (1, *b"abc");
    assert!(rt; queue.push(from(1), b"abc") == Ok(()) && waits(&queue, first, Some(7)));
    for octet in 2..9 {
        let new = (u16::from(octet), [octet; 3]);
        assert!(rt; goes_through(&mut queue, first, new));
        first = new;
    }
    assert!(rt; queue.push(from(9), b"") == Ok(()) && waits(&queue, first, None));
    assert!(rt; queue.push(from(9), b"z") == Err(QueueFault::NoRoom) && waits(&queue, first, None));
    Ok(())
}

/// Datagrams that come, in their order.
const PUSHED: [Told; 3] = [(1, *b"abc"), (2, *b"def"), (3, *b"ghi")];

/// The same, with the first of them behind the others.
const TURNED: [Told; 3] = [(2, *b"def"), (3, *b"ghi"), (1, *b"abc")];

#[test]
fn the_first_goes_behind_the_others(rt: HostRuntime) -> Result<(), Fail> {
    let mut queue = Queue::with_capacity(rt.alloc(), CAPACITY)?;
    queue.requeue();
    assert!(rt; queue.first().is_none());
    for (port, octets) in &PUSHED {
        assert!(rt; queue.push(from(*port), octets) == Ok(()));
    }
    queue.requeue();
    for first in &TURNED {
        assert!(rt; first_of(&queue) == Some(*first));
        queue.pop();
    }
    assert!(rt; queue.first().is_none());
    Ok(())
}

#[test]
fn sixty_four_wait_at_most(rt: HostRuntime) -> Result<(), Fail> {
    let mut queue = Queue::with_capacity(rt.alloc(), CAPACITY)?;
    for port in 0..64 {
        assert!(rt; queue.push(from(port), b"") == Ok(()));
    }
    assert!(rt; queue.room() == None && queue.push(from(64), b"") == Err(QueueFault::NoRoom));
    Ok(())
}
