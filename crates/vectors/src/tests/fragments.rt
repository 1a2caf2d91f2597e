//! Datagrams put together from their fragments (RFC 791 section 3.2), within a time (RFC 1122 section 3.3.2).

use super::A;
use clock::Moment;
use ipv4::{Ipv4Fault, Ipv4View};
use reassembly::{Assembled, Expired, Loss, Pool};
use std::test::Fail;

/// What a fragment comes to.
#[derive(Clone, Copy)]
enum Came<'a> {
    Waiting,
    Whole(&'a [u8]),
    Dropped(Loss),
}

/// A moment, a fragment, what it comes to, and the next deadline after it.
type Row = (u64, &'static [u8], Came<'static>, Option<u64>);

/// The first fragment of number 7: a UDP header with length 24 and no checksum, and `AAAAAAAA`.
const FIRST: &[u8] =
    b"\x45\0\0\x24\0\x07\x20\0\x40\x11\x46\xc0\x0a\0\0\x01\x0a\0\0\x02\x13\x88\x13\x89\0\x18\0\0\x41\x41\x41\x41\x41\x41\x41\x41";

/// The last one, from the second unit on: `BBBBBBBBCCCCCCCC`.
const LAST: &[u8] =
    b"\x45\0\0\x24\0\x07\0\x01\x40\x11\x66\xbf\x0a\0\0\x01\x0a\0\0\x02\x42\x42\x42\x42\x42\x42\x42\x42\x43\x43\x43\x43\x43\x43\x43\x43";

/// That one a unit later.
const LATER: &[u8] =
    b"\x45\0\0\x24\0\x07\0\x02\x40\x11\x66\xbe\x0a\0\0\x01\x0a\0\0\x02\x42\x42\x42\x42\x42\x42\x42\x42\x43\x43\x43\x43\x43\x43\x43\x43";

/// In whichever order they come, the octets that came last stand.
const OVERLAPS: [Row; 4] = [
    (0, FIRST, Came::Waiting, Some(60_000)),
    (
        1,
        LAST,
        Came::Whole(b"\x13\x88\x13\x89\x00\x18\x00\x00BBBBBBBBCCCCCCCC"),
        None,
    ),
    (2, LAST, Came::Waiting, Some(60_002)),
    (
        3,
        FIRST,
        Came::Whole(b"\x13\x88\x13\x89\x00\x18\x00\x00AAAAAAAACCCCCCCC"),
        None,
    ),
];

/// The end of another place, or octets past the end.
const CONTRADICTIONS: [Row; 6] = [
    (0, LATER, Came::Waiting, Some(60_000)),
    (0, LAST, Came::Dropped(Loss::GivenUp), None),
    (0, LATER, Came::Waiting, Some(60_000)),
    (
        0,
        b"\x45\0\0\x24\0\x07\0\x03\x40\x11\x66\xbd\x0a\0\0\x01\x0a\0\0\x02\x42\x42\x42\x42\x42\x42\x42\x42\x43\x43\x43\x43\x43\x43\x43\x43",
        Came::Dropped(Loss::GivenUp),
        None,
    ),
    (0, LATER, Came::Waiting, Some(60_000)),
    (
        0,
        b"\x45\0\0\x24\0\x07\x20\x03\x40\x11\x46\xbd\x0a\0\0\x01\x0a\0\0\x02\x42\x42\x42\x42\x42\x42\x42\x42\x43\x43\x43\x43\x43\x43\x43\x43",
        Came::Dropped(Loss::GivenUp),
        None,
    ),
];

/// The first fragment of number 0.
const ZERO: &[u8] =
    b"\x45\0\0\x24\0\0\x20\0\x40\x11\x46\xc7\x0a\0\0\x01\x0a\0\0\x02\x13\x88\x13\x89\0\x18\0\0\x41\x41\x41\x41\x41\x41\x41\x41";

/// That of number 4.
const FIFTH: &[u8] =
    b"\x45\0\0\x24\0\x04\x20\0\x40\x11\x46\xc3\x0a\0\0\x01\x0a\0\0\x02\x13\x88\x13\x89\0\x18\0\0\x41\x41\x41\x41\x41\x41\x41\x41";

/// Fragments of five datagrams; of the first alone it is the fragment zero.
const FIVE: [Row; 5] = [
    (0, ZERO, Came::Waiting, Some(60_000)),
    (
        10,
        b"\x45\0\0\x24\0\x01\x20\x01\x40\x11\x46\xc5\x0a\0\0\x01\x0a\0\0\x02\x13\x88\x13\x89\0\x18\0\0\x41\x41\x41\x41\x41\x41\x41\x41",
        Came::Waiting,
        Some(60_000),
    ),
    (
        20,
        b"\x45\0\0\x24\0\x02\x20\x02\x40\x11\x46\xc3\x0a\0\0\x01\x0a\0\0\x02\x13\x88\x13\x89\0\x18\0\0\x41\x41\x41\x41\x41\x41\x41\x41",
        Came::Waiting,
        Some(60_000),
    ),
    (
        30,
        b"\x45\0\0\x24\0\x03\x20\x03\x40\x11\x46\xc1\x0a\0\0\x01\x0a\0\0\x02\x13\x88\x13\x89\0\x18\0\0\x41\x41\x41\x41\x41\x41\x41\x41",
        Came::Waiting,
        Some(60_000),
    ),
    (40, FIFTH, Came::Dropped(Loss::NoRoom), Some(60_000)),
];

/// Whether a fragment comes to this.
fn comes_to(pool: &mut Pool, now: u64, octets: &[u8], want: Came) -> bool {
    let Ok(view) = Ipv4View::parse(octets) else {
        return false;
    };
    match pool.take(Moment(now), &view) {
        Assembled::Waiting => matches!(want, Came::Waiting),
        Assembled::Whole(whole) => matches!(want, Came::Whole(want) if whole.octets == want),
        Assembled::Dropped(loss) => matches!(want, Came::Dropped(want) if loss == want),
    }
}

/// Whether each row comes to what it says.
fn all_come_to(pool: &mut Pool, rows: &[Row]) -> bool {
    for (now, octets, want, deadline) in rows {
        if !comes_to(pool, *now, octets, *want) || pool.next_deadline() != deadline.map(Moment) {
            return false;
        }
    }
    true
}

#[test]
fn overlaps_and_contradictions(rt: HostRuntime) -> Result<(), Fail> {
    let mut pool = Pool::new(rt.alloc(), 4, 65_515)?;
    assert!(rt; all_come_to(&mut pool, &OVERLAPS));
    assert!(rt; all_come_to(&mut pool, &CONTRADICTIONS));
    Ok(())
}

/// Moments, the first fragments of the datagrams that are told then since their time ran out, and the next deadline after that.
const AGES: [(u64, &[&[u8]], Option<u64>); 2] = [
    (59_999, &[], Some(60_000)),
    (60_000, &[ZERO], Some(60_010)),
];

/// The fifth datagram has a place now.
const SIXTH: [Row; 1] = [(60_000, FIFTH, Came::Waiting, Some(60_010))];

/// Whether a datagram is from `A` and quotes the header and 8 octets of this fragment.
fn quotes(datagram: &Expired, fragment: &[u8]) -> bool {
    let quote = datagram.quote.octets();
    datagram.key.source == A && quote.len() == 28 && fragment.starts_with(quote)
}

/// Whether the time of these datagrams runs out, told by their first fragments.
fn expire(pool: &mut Pool, now: u64, firsts: &[&[u8]]) -> bool {
    let expired = pool.age(Moment(now));
    for (datagram, first) in expired.iter().zip(firsts) {
        if !quotes(datagram, first) {
            return false;
        }
    }
    expired.len() == firsts.len()
}

#[test]
fn a_fifth_datagram_has_no_place(rt: HostRuntime) -> Result<(), Fail> {
    let mut pool = Pool::new(rt.alloc(), 4, 65_515)?;
    assert!(rt; all_come_to(&mut pool, &FIVE));
    for (now, firsts, deadline) in &AGES {
        assert!(rt; expire(&mut pool, *now, firsts));
        assert!(rt; pool.next_deadline() == deadline.map(Moment));
    }
    assert!(rt; all_come_to(&mut pool, &SIXTH));
    assert!(rt; expire(&mut pool, 90_000, &[]));
    Ok(())
}

/// A fragment of 36 octets with another checksum.
fn with_other_sum(fragment: &[u8]) -> [u8; 36] {
    let mut octets = [0; 36];
    for (new, old) in octets.iter_mut().zip(fragment) {
        *new = *old;
    }
    octets[10] ^= 1;
    octets
}

#[test]
fn fragments_with_wrong_checksums(rt: HostRuntime) {
    for rows in [OVERLAPS.as_slice(), &CONTRADICTIONS, &FIVE] {
        for (_, octets, _, _) in rows {
            let other = with_other_sum(octets);
            assert!(rt; Ipv4View::parse(&other).err() == Some(Ipv4Fault::IpSum));
        }
    }
}
