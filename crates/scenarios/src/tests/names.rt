//! The texts of octets and refusals that no script can bring about, and how no host is set up.

use ether::Mac;
use host::{Config, Refusal};
use ipv4::Addr;
use routes::Routes;
use script::{Style, show};
use std::test::Fail;
use wire_sim::{Answer, Unfair};

#[test]
fn texts_are_those_of_the_documents(rt: HostRuntime) -> Result<(), Fail> {
    let (no_route, no_room, unfair) = (Refusal::ENETUNREACH, Refusal::ENOMEM, Unfair::NoMemory);
    let text = format!(in rt.alloc(); "{no_route}, {no_room}, {unfair}")?;
    assert!(rt; text.as_str() == "E14 ENETUNREACH, E16 ENOMEM, U5 NoMemory");
    Ok(())
}

/// A host is none by itself on the loopback network, and its MAC is no group's.
const REFUSED: [(Mac, Addr); 2] = [
    (Mac([2, 0, 0, 0, 0, 1]), Addr([127, 0, 0, 1])),
    (Mac([1, 0, 0, 0, 0, 1]), Addr([10, 0, 0, 1])),
];

#[test]
fn hosts_are_not_set_up(rt: HostRuntime) {
    for (mac, addr) in REFUSED {
        let refused = Config::new(mac, addr, Routes::new());
        assert!(rt; matches!(refused, Err(Refusal::EINVAL)));
    }
}

#[test]
fn octets_are_shown_as_text(rt: HostRuntime) -> Result<(), Fail> {
    let mut line = String::new(rt.alloc());
    let octets = [0, 0x20, 0x21, b'\\', b'z', 0x7e, 0x7f, 0xaf];
    let answer = Answer::Octets(Vec::from_slice(rt.alloc(), &octets)?);
    show(&answer, Style::Text, &mut line)?;
    assert!(rt; line.as_str() == "octets \\x00\\x20!\\x5cz~\\x7f\\xaf");
    Ok(())
}
