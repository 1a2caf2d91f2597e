//! A buffer of a stream in the plainest form, to compare the others with: a place for each octet, in a row. What is taken is moved
//! off the front.

use super::buffers::MOST;
use stream_buf::MOST_RANGES;

/// The places that it has, as many as its capacity, and behind them others that stay empty.
#[derive(Clone, Copy)]
pub(super) struct Plain {
    places: [Option<u8>; MOST],
    capacity: usize,
}

impl Plain {
    pub(super) fn with_capacity(capacity: usize) -> Plain {
        Plain {
            places: [None; MOST],
            capacity,
        }
    }

    /// How many octets stand at the front with no gap.
    pub(super) fn len(&self) -> usize {
        let mut len: usize = 0;
        for place in &self.places {
            if place.is_none() {
                break;
            }
            len = len.saturating_add(1);
        }
        len
    }

    pub(super) fn room(&self) -> usize {
        self.capacity.saturating_sub(self.len())
    }

    /// How many ranges of octets stand behind gaps.
    pub(super) fn ranges(&self) -> usize {
        let mut count: usize = 0;
        let mut is_held = true;
        for place in &self.places {
            if place.is_some() && !is_held {
                count = count.saturating_add(1);
            }
            is_held = place.is_some();
        }
        count
    }

    /// Octets at the front are taken, or else as many as fill `out`.
    pub(super) fn read(&mut self, out: &mut [u8]) -> usize {
        let count = out.len().min(self.len());
        for (octet, place) in out.iter_mut().zip(&self.places) {
            if let Some(held) = place {
                *octet = *held;
            } else {
                break;
            }
        }
        self.take(count);
        count
    }

    /// So many octets are moved off the front.
    pub(super) fn take(&mut self, count: usize) {
        let mut left = [None; MOST];
        if let Some(rest) = self.places.get(count..) {
            left[..rest.len()].copy_from_slice(rest);
        }
        self.places = left;
    }

    /// Octets behind a gap are forgotten.
    pub(super) fn forget_kept(&mut self) {
        let mut is_kept = false;
        for place in &mut self.places {
            is_kept |= place.is_none();
            if is_kept {
                *place = None;
            }
        }
    }

    /// The buffer with octets at a distance behind the front, over what stood there.
    fn laid(&self, distance: usize, octets: &[u8]) -> Plain {
        let mut laid = *self;
        let first = self.len().saturating_add(distance);
        for (place, octet) in laid.places.iter_mut().skip(first).zip(octets) {
            *place = Some(*octet);
        }
        laid
    }

    pub(super) fn takes(&self, distance: usize, octets: &[u8]) -> bool {
        distance == 0 || self.laid(distance, octets).ranges() <= MOST_RANGES
    }

    /// Octets come at a distance: how many there are more at the front.
    pub(super) fn insert_at(&mut self, distance: usize, octets: &[u8]) -> usize {
        if !self.takes(distance, octets) {
            return 0;
        }
        let before = self.len();
        *self = self.laid(distance, octets);
        self.len().saturating_sub(before)
    }

    /// As many octets as there is room for come at the front: how many.
    pub(super) fn write(&mut self, octets: &[u8]) -> usize {
        let count = octets.len().min(self.room());
        self.insert_at(0, &octets[..count])
    }
}
