//! The buffers of a stream, call by call: which octets are held, kept ahead of a gap, and read.

use std::alloc::AllocError;
use stream_buf::{RecvBuf, SendBuf};

/// How many octets join what is readable when octets come at a distance; None where they have no room.
fn insert(buffer: &mut RecvBuf, distance: usize, octets: &[u8]) -> Option<usize> {
    if distance <= buffer.room() && octets.len() <= buffer.room() - distance {
        Some(buffer.insert_at(distance, octets))
    } else {
        None
    }
}

/// Octets ahead of a gap are kept in 32 ranges at most: distances of one octet, how many join what is readable, and how many ranges
/// are kept then, behind 32 octets with a gap before each.
const MOST_RANGES: [(usize, usize, usize); 4] = [(65, 0, 32), (2, 0, 31), (65, 0, 32), (0, 4, 31)];

/// Whether so many octets join what is readable when octets come at a distance, and so many ranges are kept then.
fn joins(
    buffer: &mut RecvBuf,
    distance: usize,
    octets: &[u8],
    joined: usize,
    ranges: usize,
) -> bool {
    insert(buffer, distance, octets) == Some(joined) && buffer.ranges() == ranges
}

#[test]
fn keeps_most_ranges(rt: HostRuntime) -> Result<(), AllocError> {
    let mut buffer = RecvBuf::with_capacity(rt.alloc(), 100)?;
    for i in 0..32 {
        assert!(rt; joins(&mut buffer, 2 * i + 1, b"x", 0, i + 1));
    }
    for (distance, joined, ranges) in &MOST_RANGES {
        assert!(rt; joins(&mut buffer, *distance, b"x", *joined, *ranges));
    }
    assert!(rt; buffer.readable_len() == 4);
    Ok(())
}

/// A call of a buffer for what comes, and what it answers.
enum Call {
    /// Octets come at a distance: how many join what is readable, and how many ranges are kept then.
    Insert(usize, &'static [u8], usize, usize),
    /// So many octets are read at most, into points: how many are, what stands there, and the room then.
    Read(usize, usize, [u8; 8], usize),
    /// What is kept is forgotten.
    Forget,
}

/// Octets that came in another order are read in theirs, and make room as they are read.
const IN_ORDER: [Call; 6] = [
    Call::Insert(4, b"ef", 0, 1),
    Call::Insert(1, b"bc", 0, 2),
    Call::Insert(0, b"a", 3, 1),
    Call::Read(2, 2, *b"ab......", 5),
    Call::Insert(0, b"d", 3, 0),
    Call::Read(5, 4, *b"cdef....", 6),
];

/// Octets in order, ahead of a gap and into it, by turns: what is kept joins what is readable, until it is forgotten.
const FORGOTTEN: [Call; 8] = [
    Call::Insert(0, b"ab", 2, 0),
    Call::Insert(1, b"d", 0, 1),
    Call::Insert(0, b"c", 2, 0),
    Call::Insert(0, b"e", 1, 0),
    Call::Insert(1, b"gh", 0, 1),
    Call::Forget,
    Call::Insert(0, b"f", 1, 0),
    Call::Read(8, 6, *b"abcdef..", 8),
];

/// Calls for buffers of 6 and 8 octets.
const RECEIVED: [(usize, &[Call]); 2] = [(6, &IN_ORDER), (8, &FORGOTTEN)];

/// Whether the call answers what it says.
fn answers(buffer: &mut RecvBuf, call: &Call) -> bool {
    match call {
        Call::Insert(distance, octets, joined, ranges) => {
            joins(buffer, *distance, octets, *joined, *ranges)
        }
        Call::Read(most, count, octets, room) => {
            let mut out = [b'.'; 8];
            let most = (*most).min(8);
            buffer.read(&mut out[..most]) == *count && out == *octets && buffer.room() == *room
        }
        Call::Forget => {
            buffer.forget_kept();
            buffer.ranges() == 0
        }
    }
}

#[test]
fn what_comes_is_read_in_order(rt: HostRuntime) -> Result<(), AllocError> {
    for (capacity, calls) in &RECEIVED {
        let mut buffer = RecvBuf::with_capacity(rt.alloc(), *capacity)?;
        assert!(rt; buffer.capacity() == *capacity);
        for call in *calls {
            assert!(rt; answers(&mut buffer, call));
        }
    }
    Ok(())
}

/// Whether these octets are held, from each place on.
fn holds(buffer: &SendBuf, held: &[u8]) -> bool {
    if buffer.len() != held.len() || held.len() > 4 {
        return false;
    }
    for offset in 0..held.len() {
        let mut out = [b'.'; 4];
        let len = held.len() - offset;
        buffer.copy_at(offset, &mut out[..len]);
        if &out[..len] != &held[offset..] {
            return false;
        }
    }
    true
}

/// Octets wait in order until they are acknowledged, which makes room for more.
#[test]
fn holds_until_acknowledged(rt: HostRuntime) -> Result<(), AllocError> {
    let mut buffer = SendBuf::with_capacity(rt.alloc(), 4)?;
    assert!(rt; buffer.is_empty() && buffer.capacity() == 4);
    assert!(rt; buffer.write(b"abcde") == 4 && holds(&buffer, b"abcd"));
    if buffer.len() >= 3 {
        buffer.acked(3);
    }
    assert!(rt; buffer.room() == 3 && holds(&buffer, b"d"));
    assert!(rt; buffer.write(b"e") == 1 && holds(&buffer, b"de"));
    Ok(())
}
