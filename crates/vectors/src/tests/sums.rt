//! The Internet checksum (RFC 1071).

use inet_sum::{Pseudo, checksum, copy_sum, join, sum};

/// Octets and their sum; the first are those of RFC 1071 section 3.
const SUMS: [(&[u8], u16); 3] = [
    (&[0x00, 0x01, 0xf2, 0x03, 0xf4, 0xf5, 0xf6, 0xf7], 0xddf2),
    (&[], 0x0000),
    (&[0x01], 0x0100),
];

/// A UDP datagram from 10.0.0.1 to 10.0.0.2, and its sum with the pseudo header (RFC 768): with the right checksum, and with none.
const WITH_PSEUDO: [([u8; 10], u16); 2] = [
    (*b"\x13\x88\x13\x89\x00\x0a\x5c\x5dhi", 0xffff),
    (*b"\x13\x88\x13\x89\x00\x0a\x00\x00hi", 0xa3a2),
];

/// The sums of two lists of octets, whether the first is odd, and the sum of both: the first is that of RFC 1071 section 3 where
/// the octets are broken into two groups.
const JOINED: [(u16, u16, bool, u16); 2] = [
    (0xf201, 0xf0eb, true, 0xddf2),
    (0x0100, 0x0200, true, 0x0102),
];

const PSEUDO: Pseudo = Pseudo {
    src: [10, 0, 0, 1],
    dst: [10, 0, 0, 2],
    protocol: 17,
    length: 10,
};

#[test]
fn sums(rt: HostRuntime) {
    for (octets, want) in &SUMS {
        assert!(rt; (sum(octets), checksum(octets)) == (*want, !*want));
    }
    for (octets, want) in &WITH_PSEUDO {
        assert!(rt; PSEUDO.sum_with(octets) == *want);
    }
    for (left, right, left_odd, want) in &JOINED {
        assert!(rt; join(*left, *right, *left_odd) == *want);
    }
}

/// The most octets that are summed word by word beside `sum`.
const MOST: usize = 200;

/// A word is added, and the carry comes back (RFC 1071 section 1).
fn added(sum: u16, word: u16) -> u16 {
    let (sum, is_carried) = sum.overflowing_add(word);
    sum.wrapping_add(u16::from(is_carried))
}

/// The sum, one word after the other: what `sum` is compared with.
fn plain_sum(octets: &[u8]) -> u16 {
    let mut total = 0;
    for word in octets.chunks(2) {
        total = match word {
            [high, low] => added(total, u16::from_be_bytes([*high, *low])),
            [high] => added(total, u16::from_be_bytes([*high, 0])),
            _ => total,
        };
    }
    total
}

/// Octets of a pattern that no two neighbouring words of which are alike, and so many of one kind.
fn patterns() -> [[u8; MOST]; 4] {
    let mut mixed = [0; MOST];
    let mut octet: u8 = 1;
    for place in &mut mixed {
        *place = octet;
        octet = octet.wrapping_mul(167).wrapping_add(13);
    }
    [mixed, [0; MOST], [0xff; MOST], [0x80; MOST]]
}

/// Whether `sum` answers what the words sum to one by one, and `copy_sum` the same, with the octets copied and none behind them.
fn is_summed_alike(octets: &[u8]) -> bool {
    let mut copied = [0x55; MOST + 1];
    let len = octets.len();
    if len > MOST {
        return false;
    }
    let want = plain_sum(octets);
    sum(octets) == want
        && copy_sum(octets, &mut copied[..len]) == want
        && &copied[..len] == octets
        && copied[len] == 0x55
}

#[test]
fn sums_of_each_length(rt: HostRuntime) {
    for octets in &patterns() {
        for len in 0..=MOST {
            assert!(rt; is_summed_alike(&octets[..len]));
        }
    }
}
