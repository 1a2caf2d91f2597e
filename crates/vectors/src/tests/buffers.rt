//! The buffers of a stream, each beside a plain one that takes the same calls: the answers and the views are the same.

use super::plain::Plain;
use std::alloc::{AllocError, Global};
use stream_buf::{RecvBuf, SendBuf};

/// How many octets a buffer holds, and how many come at once at most; how many lists of calls there are, and how many calls in each.
type Row = (usize, usize, u64, u64);

/// In the largest buffer there is room for more ranges than are kept.
const LISTS: [Row; 8] = [
    (0, 1, 10, 10),
    (1, 1, 400, 15),
    (2, 3, 600, 15),
    (7, 3, 800, 20),
    (50, 3, 100, 40),
    (50, 40, 100, 40),
    (200, 1, 10, 250),
    (200, 200, 10, 100),
];

/// More octets than any buffer holds.
pub(super) const MOST: usize = 201;

/// Numbers that look drawn by chance, the same in each run.
#[derive(Drop)]
struct Numbers(u64);

impl Numbers {
    fn step(&mut self) {
        self.0 = self
            .0
            .wrapping_mul(6_364_136_223_846_793_005)
            .wrapping_add(1_442_695_040_888_963_407);
    }

    /// The next one below a bound; 0 where there is none.
    fn below(&mut self, bound: usize) -> usize {
        self.step();
        ((self.0 >> 33) as usize).checked_rem(bound).unwrap_or(0)
    }

    /// As many octets as fill `out`.
    fn fill(&mut self, out: &mut [u8]) {
        for octet in out.iter_mut() {
            self.step();
            *octet = self.0.to_be_bytes()[0];
        }
    }
}

/// Whether both answer the same where octets are written.
fn both_write(numbers: &mut Numbers, most: usize, buffer: &mut SendBuf, plain: &mut Plain) -> bool {
    let mut space = [0; MOST];
    let len = numbers.below(most.saturating_add(1)).min(MOST);
    let octets = &mut space[..len];
    numbers.fill(octets);
    buffer.write(octets) == plain.write(octets)
}

/// Some of the octets that are held are acknowledged, for both.
fn both_acked(numbers: &mut Numbers, buffer: &mut SendBuf, plain: &mut Plain) {
    let count = numbers
        .below(buffer.len().saturating_add(1))
        .min(buffer.len());
    buffer.acked(count);
    plain.take(count);
}

/// Whether both hold the same, from any place on, and have the same room.
fn hold_the_same(numbers: &mut Numbers, buffer: &SendBuf, plain: &Plain) -> bool {
    let mut out = [0; MOST];
    let mut want = [0; MOST];
    let held = buffer.len();
    let offset = numbers.below(held.saturating_add(1)).min(held);
    let len = (held - offset).min(MOST);
    buffer.copy_at(offset, &mut out[..len]);
    let mut rest = *plain;
    rest.take(offset);
    rest.read(&mut want);
    (held, buffer.is_empty(), buffer.room()) == (plain.len(), plain.len() == 0, plain.room())
        && out == want
}

/// Whether both agree through a list of calls.
fn send_alike(alloc: Global, row: &Row, list: u64) -> Result<bool, AllocError> {
    let (capacity, most, _, calls) = *row;
    let mut numbers = Numbers(list);
    let mut buffer = SendBuf::with_capacity(alloc, capacity)?;
    let mut plain = Plain::with_capacity(capacity);
    let mut alike = true;
    for _ in 0..calls {
        if numbers.below(2) == 0 {
            alike &= both_write(&mut numbers, most, &mut buffer, &mut plain);
        } else {
            both_acked(&mut numbers, &mut buffer, &mut plain);
        }
        alike &= hold_the_same(&mut numbers, &buffer, &plain);
    }
    Ok(alike)
}

#[test]
fn send_buffers_agree(rt: HostRuntime) -> Result<(), AllocError> {
    for row in &LISTS {
        for list in 0..row.2 {
            assert!(rt; send_alike(rt.alloc(), row, list)?);
        }
    }
    Ok(())
}

/// Whether both answer the same where octets come at a distance, for which there is room.
fn both_insert(distance: usize, octets: &[u8], buffer: &mut RecvBuf, plain: &mut Plain) -> bool {
    distance <= buffer.room()
        && octets.len() <= buffer.room() - distance
        && buffer.takes(distance, octets) == plain.takes(distance, octets)
        && buffer.insert_at(distance, octets) == plain.insert_at(distance, octets)
}

/// Whether both answer the same where octets come, one time in three at RCV.NXT.
fn both_take(numbers: &mut Numbers, most: usize, buffer: &mut RecvBuf, plain: &mut Plain) -> bool {
    let mut space = [0; MOST];
    let room = buffer.room();
    let distance = if numbers.below(3) == 0 {
        0
    } else {
        numbers.below(room.saturating_add(1)).min(room)
    };
    let len = numbers.below(most.saturating_add(1)).min(room - distance);
    let octets = &mut space[..len.min(MOST)];
    numbers.fill(octets);
    both_insert(distance, octets, buffer, plain)
}

/// Whether both answer the same octets where so many are read at most.
fn both_read(len: usize, buffer: &mut RecvBuf, plain: &mut Plain) -> bool {
    let mut out = [7; MOST];
    let mut want = [7; MOST];
    let len = len.min(MOST);
    buffer.read(&mut out[..len]) == plain.read(&mut want[..len]) && out == want
}

/// Whether both have the same counts.
fn count_the_same(buffer: &RecvBuf, plain: &Plain) -> bool {
    (buffer.room(), buffer.readable_len(), buffer.ranges())
        == (plain.room(), plain.len(), plain.ranges())
}

/// Whether both keep the same, which shows as the gaps are filled one place after another, and can then be read.
fn keep_the_same(buffer: &mut RecvBuf, plain: &mut Plain) -> bool {
    for _ in 0..buffer.capacity() {
        if buffer.room() > 0 && !both_insert(0, b".", buffer, plain) {
            return false;
        }
    }
    both_read(buffer.capacity(), buffer, plain)
}

/// Whether both agree through a list of calls.
fn receive_alike(alloc: Global, row: &Row, list: u64) -> Result<bool, AllocError> {
    let (capacity, most, _, calls) = *row;
    let mut numbers = Numbers(list);
    let mut buffer = RecvBuf::with_capacity(alloc, capacity)?;
    let mut plain = Plain::with_capacity(capacity);
    let mut alike = true;
    for _ in 0..calls {
        match numbers.below(300) {
            0 => {
                buffer.forget_kept();
                plain.forget_kept();
            }
            1..30 => {
                let len = numbers.below(capacity.saturating_add(2));
                alike &= both_read(len, &mut buffer, &mut plain);
            }
            _ => alike &= both_take(&mut numbers, most, &mut buffer, &mut plain),
        }
        alike &= count_the_same(&buffer, &plain);
    }
    Ok(alike & keep_the_same(&mut buffer, &mut plain))
}

#[test]
fn receive_buffers_agree(rt: HostRuntime) -> Result<(), AllocError> {
    for row in &LISTS {
        for list in 0..row.2 {
            assert!(rt; receive_alike(rt.alloc(), row, list)?);
        }
    }
    Ok(())
}
