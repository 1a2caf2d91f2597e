//! What is printed of addresses, numbers and refusals.

use super::A;
use arp::ArpFault;
use decode::{HexFault, Unreadable};
use ether::{FrameFault, Mac};
use icmp::{IcmpFault, Kind};
use ipv4::{Addr, Ipv4Fault, Prefix, PrefixFault, Protocol};
use reassembly::{Loss, PoolFault};
use routes::{AddFault, RemoveFault};
use std::test::Fail;
use tcp_segment::SegmentFault;
use udp::{QueueFault, UdpFault};

#[test]
fn addresses_and_numbers(rt: HostRuntime) -> Result<(), Fail> {
    let text = format!(in rt.alloc();
        "{A} {} {} {} {} {}",
        Addr([192, 168, 1, 7]),
        Prefix::new(Addr([10, 0, 0, 0]), 8)?,
        Mac([2, 0, 0, 0, 0, 1]),
        Protocol::UDP,
        Kind::TIME_EXCEEDED
    )?;
    assert!(rt; text.as_str() == "10.0.0.1 192.168.1.7 10.0.0.0/8 02:00:00:00:00:01 17 11");
    Ok(())
}

#[test]
fn refusals(rt: HostRuntime) -> Result<(), Fail> {
    let text = format!(in rt.alloc();
        "{}, {}, {}, {}, {}, {}, {}, {}, {}, {}",
        FrameFault::Short,
        Ipv4Fault::IpHeader,
        Ipv4Fault::IpSum,
        ArpFault::UpperHeader,
        IcmpFault::UpperHeader,
        IcmpFault::UpperSum,
        UdpFault::UpperHeader,
        UdpFault::UpperSum,
        SegmentFault::UpperHeader,
        SegmentFault::UpperSum
    )?;
    assert!(rt;
        text.as_str()
            == "F1 Short, F4 IpHeader, F5 IpSum, F7 UpperHeader, F7 UpperHeader, F8 UpperSum, F7 UpperHeader, F8 UpperSum, F7 UpperHeader, F8 UpperSum"
    );
    let text = format!(in rt.alloc();
        "{}, {}, {}, {}, {}, {}, {}, {}, {}, {}",
        PrefixFault::EINVAL,
        PoolFault::ENOMEM,
        QueueFault::NoRoom,
        Loss::NoRoom,
        Loss::GivenUp,
        AddFault::Full,
        AddFault::SamePrefix,
        RemoveFault::NoSuch,
        HexFault::NotHex,
        HexFault::NoMemory
    )?;
    assert!(rt;
        text.as_str()
            == "E2 EINVAL, E16 ENOMEM, F9 NoRoom, F9 NoRoom, given up, G1 Full, G2 SamePrefix, G3 NoSuch, not hex, out of memory"
    );
    Ok(())
}

/// The causes of a drop by their numbers.
const CAUSES: [(Unreadable, u8, &str); 6] = [
    (Unreadable::Short, 1, "F1 Short"),
    (Unreadable::OtherType, 3, "F3 OtherType"),
    (Unreadable::IpHeader, 4, "F4 IpHeader"),
    (Unreadable::IpSum, 5, "F5 IpSum"),
    (Unreadable::UpperHeader, 7, "F7 UpperHeader"),
    (Unreadable::UpperSum, 8, "F8 UpperSum"),
];

#[test]
fn causes_are_named(rt: HostRuntime) -> Result<(), Fail> {
    for (cause, number, name) in &CAUSES {
        assert!(rt; cause.number() == *number && cause.to_string(rt.alloc())?.as_str() == *name);
    }
    Ok(())
}
