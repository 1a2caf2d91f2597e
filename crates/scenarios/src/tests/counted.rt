//! What is counted of a host, and what frames find no room at.

use super::octets::{ECHO, FRAGMENT_A, HI, SYN};
use super::stations::Side::B;
use super::stations::{ONE, SERVER, THREE, config};
use clock::Moment;
use counters::Counters;
use host::{DropCause, Host, Kind, Lack};
use ipv4::{Addr, Endpoint};
use std::alloc::Global;
use std::process::Abort;
use tcp_segment::Seq;

/// A SYN for port 80 of B from port 49152 of 192.0.2.9, to which none of B's routes leads.
const FAR_SYN: &[u8] = b"\x02\0\0\0\0\x02\x02\0\0\0\0\xfe\x08\0\
    \x45\0\0\x2c\0\0\x40\0\x40\x06\x6e\xc1\xc0\0\x02\x09\x0a\0\0\x02\
    \xc0\0\0\x50\0\0\0\x64\0\0\0\0\x60\x02\xff\xff\x0b\x67\0\0\x02\x04\x05\xb4\
    \0\0";

/// A SYN for it from port 49153 of A.
const SECOND_SYN: &[u8] = b"\x02\0\0\0\0\x02\x02\0\0\0\0\x01\x08\0\
    \x45\0\0\x2c\0\0\x40\0\x40\x06\x26\xca\x0a\0\0\x01\x0a\0\0\x02\
    \xc0\x01\0\x50\xff\xff\xff\xff\0\0\0\0\x60\x02\xff\xff\xc3\xd2\0\0\x02\x04\x05\xb4\
    \0\0";

/// An acknowledgement of what B never sent, on the connection of `SYN`, with the number that stands next there.
const WRONG_ACK: &[u8] = b"\x02\0\0\0\0\x02\x02\0\0\0\0\x01\x08\0\
    \x45\0\0\x28\0\0\x40\0\x40\x06\x26\xce\x0a\0\0\x01\x0a\0\0\x02\
    \xc0\0\0\x50\0\0\0\0\0\x01\x11\x70\x50\x10\0\x64\xc9\xac\0\0\
    \0\0\0\0\0\0";

/// The port that `HI` is for.
const WAITING: Endpoint = Endpoint {
    addr: Addr([10, 0, 0, 2]),
    port: 5_001,
};

/// The host B, and what is counted of it.
#[derive(Drop)]
struct Station {
    host: Host,
    counters: Counters,
}

impl Station {
    /// It listens at port 80, with a backlog of this size.
    fn new(rt: &impl Abort, alloc: Global, backlog: usize) -> Station {
        let mut host = Host::new(alloc, config(rt, B)).expect(rt, "memory for a host");
        assert!(rt; host.socket(Kind::Tcp) == Ok(ONE));
        assert!(rt; host.bind(ONE, SERVER) == Ok(()) && host.listen(ONE, backlog) == Ok(()));
        Station {
            host,
            counters: Counters::new(),
        }
    }

    /// Octets reach it.
    fn hear(&mut self, octets: &[u8]) -> Result<(), DropCause> {
        self.counters
            .deliver(&mut self.host, Moment(0), Seq(7), octets)
    }

    /// The frame that is due goes out of it: how many octets it has.
    fn emit(&mut self) -> Option<usize> {
        self.counters
            .next_frame(&mut self.host, Moment(0), &mut [0; 1_514])
    }

    /// It takes these octets, for which it needs nothing but memory.
    fn takes(&mut self, octets: &[u8], lack: Option<Lack>) -> bool {
        self.host.lack(octets) == lack && self.hear(octets) == Ok(())
    }

    /// It drops these octets for another cause than want of room.
    fn drops(&mut self, octets: &[u8], cause: DropCause) -> bool {
        self.host.lack(octets).is_none() && self.hear(octets) == Err(cause)
    }

    /// It has no room for these octets, and tells at what before it and after.
    fn lacks(&mut self, octets: &[u8], lack: Lack) -> bool {
        let before = self.host.lack(octets);
        let answer = self.hear(octets);
        let told = Some(lack);
        before == told && answer == Err(DropCause::NoRoom) && self.host.lack(octets) == told
    }
}

/// A fragment of the datagram with this identification, 100 at most, whose checksum is as it should be.
pub(super) fn fragment(identification: u8) -> [u8; 60] {
    let mut frame = [0; 60];
    for (octet, old) in frame.iter_mut().zip(FRAGMENT_A.iter()) {
        *octet = *old;
    }
    let number = identification.min(100);
    frame[19] = number;
    frame[25] = 0xc7_u8.wrapping_sub(number);
    frame
}

#[test]
fn what_comes_and_goes_is_counted(rt: HostRuntime) {
    let mut station = Station::new(&rt, rt.alloc(), 1);
    assert!(rt; station.drops(&[0; 13], DropCause::Short));
    assert!(rt; station.lacks(FAR_SYN, Lack::Route));
    assert!(rt; station.takes(SYN, Some(Lack::Memory)));
    assert!(rt; station.lacks(SECOND_SYN, Lack::Backlog));
    for _ in 0..16 {
        assert!(rt; station.takes(ECHO, None));
    }
    assert!(rt; station.lacks(ECHO, Lack::Replies));
    assert!(rt; station.lacks(HI, Lack::Replies));
    assert!(rt; station.lacks(WRONG_ACK, Lack::Replies));
    for identification in 0..4 {
        assert!(rt; station.takes(&fragment(identification), None));
    }
    assert!(rt; station.lacks(&fragment(4), Lack::Reassembly));
    assert!(rt; station.takes(&fragment(3), None));
    assert!(rt; station.emit() == Some(60) && station.emit().is_none());
    let counters = station.counters;
    assert!(rt; counters.frames_in == 29 && counters.octets_in == 13 + 28 * 60);
    assert!(rt; counters.frames_out == 1 && counters.octets_out == 60);
    assert!(rt;
        counters.drops.short == 1 && counters.lacks.route == 1 && counters.lacks.backlog == 1
    );
    assert!(rt; counters.lacks.replies == 3 && counters.lacks.reassembly == 1);
    assert!(rt;
        counters.lacks.table == 0 && counters.lacks.memory == 0 && counters.lacks.queue == 0
    );
}

#[test]
fn a_full_table_and_a_full_queue_are_counted(rt: HostRuntime) {
    let mut station = Station::new(&rt, rt.alloc(), 2);
    assert!(rt; station.takes(SYN, Some(Lack::Memory)));
    assert!(rt; station.host.socket(Kind::Udp) == Ok(THREE));
    assert!(rt; station.host.bind(THREE, WAITING) == Ok(()));
    for _ in 3..64 {
        assert!(rt; station.host.socket(Kind::Udp).is_ok());
    }
    assert!(rt; station.lacks(SECOND_SYN, Lack::Table));
    for _ in 0..64 {
        assert!(rt; station.takes(HI, None));
    }
    assert!(rt; station.lacks(HI, Lack::Queue));
    let counters = station.counters;
    assert!(rt; counters.frames_in == 67 && counters.octets_in == 67 * 60);
    assert!(rt;
        counters.lacks.table == 1 && counters.lacks.queue == 1 && counters.lacks.backlog == 0
    );
}

#[test]
fn a_count_holds_still_at_its_last_value(rt: HostRuntime) {
    let mut station = Station::new(&rt, rt.alloc(), 1);
    station.counters.frames_in = u64::MAX;
    station.counters.octets_in = u64::MAX - 12;
    assert!(rt; station.drops(&[0; 13], DropCause::Short));
    assert!(rt; station.counters.frames_in == u64::MAX && station.counters.octets_in == u64::MAX);
}
