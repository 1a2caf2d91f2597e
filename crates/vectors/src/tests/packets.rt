//! The Address Resolution Protocol: its packets (RFC 826), and the cache of what they tell.

use super::{A, B};
use arp::{ArpCache, ArpFault, ArpPacket, LEN, Operation};
use clock::Moment;
use ether::{EtherView, FRAME_MAX, Head, Mac};
use ipv4::Addr;
use std::test::Fail;

const MAC_A: Mac = Mac([2, 0, 0, 0, 0, 1]);

const MAC_B: Mac = Mac([2, 0, 0, 0, 0, 2]);

/// The type of a frame with a packet.
const ARP: u16 = 0x0806;

/// The request of `A` for the MAC of `B`.
const REQUEST: ArpPacket = ArpPacket {
    operation: Operation::Request,
    sender_mac: MAC_A,
    sender_addr: A,
    target_mac: Mac([0; 6]),
    target_addr: B,
};

/// The reply of `B`.
const REPLY: ArpPacket = ArpPacket {
    operation: Operation::Reply,
    sender_mac: MAC_B,
    sender_addr: B,
    target_mac: MAC_A,
    target_addr: A,
};

const PACKETS: [(&[u8], Result<ArpPacket, ArpFault>); 13] = [
    (
        b"\0\x01\x08\0\x06\x04\0\x01\x02\0\0\0\0\x01\x0a\0\0\x01\0\0\0\0\0\0\x0a\0\0\x02",
        Ok(REQUEST),
    ),
    (
        b"\0\x01\x08\0\x06\x04\0\x01\x02\0\0\0\0\x01\x0a\0\0\x01\0\0\0\0\0\0\x0a\0\0\x02\0\0\0\0\0\0\0\0\0\0\0\0\0\0\0\0\0\0",
        Ok(REQUEST),
    ),
    (
        b"\0\x01\x08\0\x06\x04\0\x02\x02\0\0\0\0\x02\x0a\0\0\x02\x02\0\0\0\0\x01\x0a\0\0\x01",
        Ok(REPLY),
    ),
    // an octet less
    (
        b"\0\x01\x08\0\x06\x04\0\x01\x02\0\0\0\0\x01\x0a\0\0\x01\0\0\0\0\0\0\x0a\0\0",
        Err(ArpFault::UpperHeader),
    ),
    // another hardware
    (
        b"\x01\x01\x08\0\x06\x04\0\x01\x02\0\0\0\0\x01\x0a\0\0\x01\0\0\0\0\0\0\x0a\0\0\x02",
        Err(ArpFault::UpperHeader),
    ),
    (
        b"\0\x06\x08\0\x06\x04\0\x01\x02\0\0\0\0\x01\x0a\0\0\x01\0\0\0\0\0\0\x0a\0\0\x02",
        Err(ArpFault::UpperHeader),
    ),
    // another protocol
    (
        b"\0\x01\x86\0\x06\x04\0\x01\x02\0\0\0\0\x01\x0a\0\0\x01\0\0\0\0\0\0\x0a\0\0\x02",
        Err(ArpFault::UpperHeader),
    ),
    (
        b"\0\x01\x08\xdd\x06\x04\0\x01\x02\0\0\0\0\x01\x0a\0\0\x01\0\0\0\0\0\0\x0a\0\0\x02",
        Err(ArpFault::UpperHeader),
    ),
    // other lengths of addresses
    (
        b"\0\x01\x08\0\x08\x04\0\x01\x02\0\0\0\0\x01\x0a\0\0\x01\0\0\0\0\0\0\x0a\0\0\x02",
        Err(ArpFault::UpperHeader),
    ),
    (
        b"\0\x01\x08\0\x06\x10\0\x01\x02\0\0\0\0\x01\x0a\0\0\x01\0\0\0\0\0\0\x0a\0\0\x02",
        Err(ArpFault::UpperHeader),
    ),
    // other operations
    (
        b"\0\x01\x08\0\x06\x04\x01\x01\x02\0\0\0\0\x01\x0a\0\0\x01\0\0\0\0\0\0\x0a\0\0\x02",
        Err(ArpFault::UpperHeader),
    ),
    (
        b"\0\x01\x08\0\x06\x04\0\0\x02\0\0\0\0\x01\x0a\0\0\x01\0\0\0\0\0\0\x0a\0\0\x02",
        Err(ArpFault::UpperHeader),
    ),
    (
        b"\0\x01\x08\0\x06\x04\0\x03\x02\0\0\0\0\x01\x0a\0\0\x01\0\0\0\0\0\0\x0a\0\0\x02",
        Err(ArpFault::UpperHeader),
    ),
];

#[test]
fn packets(rt: HostRuntime) {
    for (octets, want) in &PACKETS {
        assert!(rt; ArpPacket::parse(octets) == *want);
    }
}

/// The packet of a frame, where there is one.
fn packet_in(frame: &[u8]) -> Option<ArpPacket> {
    match EtherView::parse(frame) {
        Ok(frame) if frame.kind() == ARP => ArpPacket::parse(frame.payload()).ok(),
        _ => None,
    }
}

/// Whether this frame carries the packet, and is written of it.
fn carries(frame: &[u8; 60], packet: ArpPacket, destination: Mac) -> bool {
    let mut out = [0; FRAME_MAX];
    packet.emit(&mut out[14..]);
    let head = Head {
        destination,
        source: packet.sender_mac,
        kind: ARP,
    };
    head.emit(LEN, &mut out);
    packet_in(frame) == Some(packet) && out.starts_with(frame)
}

/// The frame of the request, padded, and that of the reply.
const FRAMES: [[u8; 60]; 2] = [
    *b"\xff\xff\xff\xff\xff\xff\x02\0\0\0\0\x01\x08\x06\0\x01\x08\0\x06\x04\0\x01\x02\0\0\0\0\x01\x0a\0\0\x01\0\0\0\0\0\0\x0a\0\0\x02\0\0\0\0\0\0\0\0\0\0\0\0\0\0\0\0\0\0",
    *b"\x02\0\0\0\0\x01\x02\0\0\0\0\x02\x08\x06\0\x01\x08\0\x06\x04\0\x02\x02\0\0\0\0\x02\x0a\0\0\x02\x02\0\0\0\0\x01\x0a\0\0\x01\0\0\0\0\0\0\0\0\0\0\0\0\0\0\0\0\0\0",
];

#[test]
fn frames_both_ways(rt: HostRuntime) {
    let [request, reply] = &FRAMES;
    assert!(rt; carries(request, ArpPacket::request(MAC_A, A, B), Mac::BROADCAST));
    assert!(rt; carries(reply, REQUEST.reply(MAC_B), MAC_A));
}

/// What happens to the cache of `A`, and what that answers.
enum Event {
    /// It hears a packet, to which it owes a reply or not.
    Hear(ArpPacket, bool),
    /// It looks an address up.
    Look(Addr, Option<Mac>),
    /// It asks for an address, and may or not.
    Ask(Addr, bool),
    /// It tells from when on it may ask for an address.
    NextAsk(Addr, Option<u64>),
    /// It forgets what is old.
    Age,
}

/// Whether the event answers what it says.
fn answers(cache: &mut ArpCache, now: u64, event: &Event) -> bool {
    let now = Moment(now);
    match event {
        Event::Hear(packet, want) => cache.hear(now, packet, A) == *want,
        Event::Look(addr, want) => cache.look(now, *addr) == *want,
        Event::Ask(addr, want) => {
            cache.may_ask(now, *addr) == *want && cache.ask(now, *addr) == *want
        }
        Event::NextAsk(addr, want) => cache.next_ask(*addr) == want.map(Moment),
        Event::Age => {
            cache.age(now);
            true
        }
    }
}

const FIRST: Addr = Addr([10, 0, 1, 1]);

const FIRST_MAC: Mac = Mac([2, 0, 0, 0, 1, 1]);

const OTHER_MAC: Mac = Mac([2, 0, 0, 0, 1, 9]);

const SECOND: Addr = Addr([10, 0, 1, 2]);

const SECOND_MAC: Mac = Mac([2, 0, 0, 0, 1, 2]);

/// `FIRST` asks for `A`.
const FOR_A: ArpPacket = ArpPacket {
    sender_mac: FIRST_MAC,
    sender_addr: FIRST,
    target_addr: A,
    ..REQUEST
};

/// `FIRST` asks for `B`.
const FOR_B: ArpPacket = ArpPacket {
    target_addr: B,
    ..FOR_A
};

/// It does so with another MAC.
const MOVED: ArpPacket = ArpPacket {
    sender_mac: OTHER_MAC,
    ..FOR_B
};

/// `A` replies to `SECOND`.
const OF_A: ArpPacket = ArpPacket {
    sender_mac: MAC_A,
    sender_addr: A,
    target_mac: SECOND_MAC,
    target_addr: SECOND,
    ..REPLY
};

/// `SECOND` replies to `A`.
const TO_A: ArpPacket = ArpPacket {
    sender_mac: SECOND_MAC,
    sender_addr: SECOND,
    ..REPLY
};

const LEARNT: [(u64, Event); 14] = [
    (0, Event::Hear(FOR_B, false)),
    (0, Event::Look(FIRST, None)),
    (5, Event::Hear(FOR_A, true)),
    (5, Event::Look(FIRST, Some(FIRST_MAC))),
    (10, Event::Hear(MOVED, false)),
    (10, Event::Look(FIRST, Some(OTHER_MAC))),
    (20, Event::Hear(OF_A, false)),
    (20, Event::Look(A, None)),
    (20, Event::Hear(TO_A, false)),
    (20, Event::Look(SECOND, Some(SECOND_MAC))),
    (1_200_010, Event::Age),
    (0, Event::Look(FIRST, None)),
    (1_200_019, Event::Look(SECOND, Some(SECOND_MAC))),
    (1_200_020, Event::Look(SECOND, None)),
];

#[test]
fn pairs_are_learnt_updated_and_forgotten(rt: HostRuntime) -> Result<(), Fail> {
    let mut cache = ArpCache::new(rt.alloc(), 64)?;
    for (now, event) in &LEARNT {
        assert!(rt; answers(&mut cache, *now, event));
    }
    Ok(())
}

fn addr_of(number: u8) -> Addr {
    Addr([10, 0, 2, number])
}

/// The packet by which the host with this number asks for `A`.
fn request_of(number: u8) -> ArpPacket {
    ArpPacket {
        sender_addr: addr_of(number),
        ..FOR_A
    }
}

/// Two by two, the later ones were heard earlier; those behind the 64th come last.
fn heard_at(number: u8) -> Moment {
    Moment(match number {
        64..=66 => u64::from(number) * 100,
        _ => u64::from(u8::MAX - number) / 2,
    })
}

#[test]
fn the_longest_unheard_gives_way(rt: HostRuntime) -> Result<(), Fail> {
    let mut cache = ArpCache::new(rt.alloc(), 64)?;
    for number in 0..67 {
        assert!(rt; cache.hear(heard_at(number), &request_of(number), A));
    }
    for number in 0..67 {
        let known = cache.look(Moment(6_600), addr_of(number)).is_some();
        assert!(rt; known == !matches!(number, 60 | 62 | 63));
    }
    Ok(())
}

const ASKED: [(u64, Event); 5] = [
    (7, Event::NextAsk(B, None)),
    (7, Event::Ask(B, true)),
    (8, Event::NextAsk(B, Some(1_007))),
    (1_006, Event::Ask(B, false)),
    (1_007, Event::Ask(B, true)),
];

/// After 63 others at 1,500.
const ASKED_LATER: [(u64, Event); 7] = [
    (1_500, Event::NextAsk(FIRST, Some(2_007))),
    (2_006, Event::Ask(FIRST, false)),
    (2_007, Event::Ask(FIRST, true)),
    (2_007, Event::NextAsk(FIRST, Some(3_007))),
    (2_007, Event::NextAsk(SECOND, Some(2_500))),
    (2_007, Event::Ask(SECOND, false)),
    (2_500, Event::Ask(SECOND, true)),
];

#[test]
fn requests_are_few(rt: HostRuntime) -> Result<(), Fail> {
    let mut cache = ArpCache::new(rt.alloc(), 64)?;
    for (now, event) in &ASKED {
        assert!(rt; answers(&mut cache, *now, event));
    }
    for number in 0..63 {
        assert!(rt; cache.ask(Moment(1_500), addr_of(number)));
    }
    for (now, event) in &ASKED_LATER {
        assert!(rt; answers(&mut cache, *now, event));
    }
    Ok(())
}
