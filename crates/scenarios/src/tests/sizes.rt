//! Hosts of other sizes than the usual ones.

use super::counted::fragment;
use super::octets::ECHO;
use super::stations::Side::B;
use super::stations::config;
use clock::Moment;
use host::{DropCause, Host, Kind, Lack, Refusal, Sizes};
use std::alloc::Global;
use std::process::Abort;
use tcp_segment::Seq;

/// The least sizes of all.
pub(super) const LEAST: Sizes = Sizes {
    entries: 1,
    buffer: 2_048,
    reassemblies: 0,
    reassembly_octets: 1_480,
    replies: 1,
    neighbours: 8,
};

/// The largest.
pub(super) const LARGEST: Sizes = Sizes {
    entries: 16_384,
    buffer: 1_048_576,
    reassemblies: 16,
    reassembly_octets: 65_515,
    replies: 64,
    neighbours: 4_096,
};

/// Sizes, one each past the least or the largest.
const REFUSED: &[Sizes] = &[
    Sizes {
        entries: 0,
        ..LEAST
    },
    Sizes {
        entries: 16_385,
        ..LEAST
    },
    Sizes {
        buffer: 2_047,
        ..LEAST
    },
    Sizes {
        buffer: 1_048_577,
        ..LEAST
    },
    Sizes {
        reassemblies: 17,
        ..LEAST
    },
    Sizes {
        reassembly_octets: 1_479,
        ..LEAST
    },
    Sizes {
        reassembly_octets: 65_516,
        ..LEAST
    },
    Sizes {
        replies: 0,
        ..LEAST
    },
    Sizes {
        replies: 65,
        ..LEAST
    },
    Sizes {
        neighbours: 7,
        ..LEAST
    },
    Sizes {
        neighbours: 4_097,
        ..LEAST
    },
];

/// The host B of these sizes.
pub(super) fn station(rt: &impl Abort, alloc: Global, sizes: Sizes) -> Host {
    let config = config(rt, B)
        .with_sizes(sizes)
        .expect(rt, "sizes in their ranges");
    Host::new(alloc, config).expect(rt, "memory for a host")
}

/// It has no room for these octets.
fn lacks(host: &mut Host, octets: &[u8], lack: Lack) -> bool {
    host.lack(octets) == Some(lack)
        && host.deliver(Moment(0), Seq(7), octets) == Err(DropCause::NoRoom)
}

/// It takes them so many times, and then no more.
pub(super) fn takes(host: &mut Host, octets: &[u8], times: usize, lack: Lack) -> bool {
    for _ in 0..times {
        if host.deliver(Moment(0), Seq(7), octets) != Ok(()) {
            return false;
        }
    }
    lacks(host, octets, lack)
}

/// It makes so many sockets, and then no more.
pub(super) fn makes(host: &mut Host, times: usize) -> bool {
    for _ in 0..times {
        if host.socket(Kind::Tcp).is_err() {
            return false;
        }
    }
    host.socket(Kind::Tcp) == Err(Refusal::EMFILE)
}

#[test]
fn sizes_have_their_ranges(rt: HostRuntime) {
    assert!(rt; config(&rt, B).with_sizes(LEAST).is_ok());
    assert!(rt; config(&rt, B).with_sizes(LARGEST).is_ok());
    assert!(rt; config(&rt, B).with_sizes(Sizes::USUAL).is_ok());
    for sizes in REFUSED {
        match config(&rt, B).with_sizes(*sizes) {
            Ok(_) => assert!(rt; false),
            Err(refusal) => assert!(rt; refusal == Refusal::EINVAL),
        }
    }
}

#[test]
fn a_host_is_full_at_its_own_size(rt: HostRuntime) {
    let mut least = station(&rt, rt.alloc(), LEAST);
    assert!(rt; makes(&mut least, 1));
    assert!(rt; takes(&mut least, ECHO, 1, Lack::Replies));
    assert!(rt; lacks(&mut least, &fragment(0), Lack::Reassembly));
    let sizes = Sizes {
        entries: 100,
        reassemblies: 1,
        replies: 64,
        ..LEAST
    };
    let mut larger = station(&rt, rt.alloc(), sizes);
    assert!(rt; makes(&mut larger, 100));
    assert!(rt; takes(&mut larger, ECHO, 64, Lack::Replies));
    assert!(rt; larger.deliver(Moment(0), Seq(7), &fragment(0)) == Ok(()));
    assert!(rt; lacks(&mut larger, &fragment(1), Lack::Reassembly));
}
