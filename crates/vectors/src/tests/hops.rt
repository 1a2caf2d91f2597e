//! Longest-prefix match (RFC 4632 section 5.1).

use ipv4::{Addr, Prefix};
use routes::{AddFault, Hop, RemoveFault, Routes};

/// What happens to a table, and what that answers. Prefixes are told by an address and a length.
#[derive(Drop)]
enum Event {
    Add(Addr, u8, Hop, Result<(), AddFault>),
    Remove(Addr, u8, Result<(), RemoveFault>),
    Pick(Addr, Option<Hop>),
    IsLinkEnd(Addr, bool),
}

/// Whether the event answers what it says.
fn answers(routes: &mut Routes, event: &Event) -> bool {
    match event {
        Event::Add(addr, length, hop, want) => match Prefix::new(*addr, *length) {
            Ok(prefix) => routes.add(prefix, *hop) == *want,
            Err(_) => false,
        },
        Event::Remove(addr, length, want) => match Prefix::new(*addr, *length) {
            Ok(prefix) => routes.remove(prefix) == *want,
            Err(_) => false,
        },
        Event::Pick(addr, want) => routes.pick(*addr) == *want,
        Event::IsLinkEnd(addr, want) => routes.is_link_end(*addr) == *want,
    }
}

const ANY: Addr = Addr([0; 4]);

const WIDE: Addr = Addr([10, 0, 0, 0]);

const LINK: Addr = Addr([10, 1, 0, 0]);

const ON_LINK: Addr = Addr([10, 1, 2, 3]);

const BY_NINE: Hop = Hop::Gateway(Addr([10, 0, 0, 9]));

const BY_ONE: Hop = Hop::Gateway(Addr([10, 0, 0, 1]));

/// 10.0.0.0/8 by 10.0.0.9, 10.1.0.0/16 on the link, and all else by 10.0.0.1.
const FEW: [Event; 13] = [
    Event::Pick(ON_LINK, None),
    Event::Add(WIDE, 8, BY_NINE, Ok(())),
    Event::Add(LINK, 16, Hop::Direct, Ok(())),
    Event::Add(ANY, 0, BY_ONE, Ok(())),
    Event::Pick(ON_LINK, Some(Hop::Direct)),
    Event::Pick(Addr([10, 2, 0, 1]), Some(BY_NINE)),
    Event::Pick(Addr([11, 0, 0, 1]), Some(BY_ONE)),
    Event::Add(LINK, 16, Hop::Gateway(LINK), Err(AddFault::SamePrefix)),
    Event::Pick(ON_LINK, Some(Hop::Direct)),
    Event::Remove(Addr([10, 3, 0, 0]), 16, Err(RemoveFault::NoSuch)),
    Event::Pick(ON_LINK, Some(Hop::Direct)),
    Event::Remove(LINK, 16, Ok(())),
    Event::Pick(ON_LINK, Some(BY_NINE)),
];

/// In a table of 10.0.0.0/16, 10.1.0.0/16 and so on, as many as it holds.
const FULL: [Event; 4] = [
    Event::Add(ANY, 0, Hop::Direct, Err(AddFault::Full)),
    Event::Add(LINK, 16, Hop::Direct, Err(AddFault::SamePrefix)),
    Event::Remove(LINK, 16, Ok(())),
    Event::Add(ANY, 0, Hop::Direct, Ok(())),
];

/// Of 10.1.0.0/22 and 172.16.0.4/30 on the link, 192.0.2.0/31 and 192.0.2.2/32 there, and 198.51.100.0/24 by 10.0.0.9 (RFC 1122 section 3.2.1.3, RFC 3021).
const ENDS: [Event; 20] = [
    Event::Add(LINK, 22, Hop::Direct, Ok(())),
    Event::Add(Addr([172, 16, 0, 4]), 30, Hop::Direct, Ok(())),
    Event::Add(Addr([192, 0, 2, 0]), 31, Hop::Direct, Ok(())),
    Event::Add(Addr([192, 0, 2, 2]), 32, Hop::Direct, Ok(())),
    Event::Add(Addr([198, 51, 100, 0]), 24, BY_NINE, Ok(())),
    Event::IsLinkEnd(LINK, true),
    Event::IsLinkEnd(Addr([10, 1, 3, 255]), true),
    Event::IsLinkEnd(Addr([10, 1, 0, 255]), false),
    Event::IsLinkEnd(Addr([10, 1, 3, 0]), false),
    Event::IsLinkEnd(Addr([10, 1, 3, 254]), false),
    Event::IsLinkEnd(Addr([10, 1, 4, 0]), false),
    Event::IsLinkEnd(Addr([172, 16, 0, 4]), true),
    Event::IsLinkEnd(Addr([172, 16, 0, 5]), false),
    Event::IsLinkEnd(Addr([172, 16, 0, 7]), true),
    Event::IsLinkEnd(Addr([192, 0, 2, 0]), false),
    Event::IsLinkEnd(Addr([192, 0, 2, 1]), false),
    Event::IsLinkEnd(Addr([192, 0, 2, 2]), false),
    Event::IsLinkEnd(Addr([198, 51, 100, 0]), false),
    Event::IsLinkEnd(Addr([198, 51, 100, 255]), false),
    Event::IsLinkEnd(Addr([255, 255, 255, 255]), false),
];

#[test]
fn ends_of_networks_on_the_link_are_known(rt: HostRuntime) {
    let mut routes = Routes::new();
    for event in &ENDS {
        assert!(rt; answers(&mut routes, event));
    }
}

#[test]
fn the_longest_prefix_is_picked(rt: HostRuntime) {
    let mut routes = Routes::new();
    for event in &FEW {
        assert!(rt; answers(&mut routes, event));
    }
}

#[test]
fn thirty_two_routes_fill_a_table(rt: HostRuntime) {
    let mut routes = Routes::new();
    for second in 0..32 {
        let added = Event::Add(Addr([10, second, 0, 0]), 16, Hop::Direct, Ok(()));
        assert!(rt; answers(&mut routes, &added));
    }
    for event in &FULL {
        assert!(rt; answers(&mut routes, event));
    }
}
