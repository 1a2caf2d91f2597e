//! Addresses, endpoints and prefixes of IPv4 (RFC 791 section 3.2, RFC 4632 section 3.1).

use super::{A, B};
use ipv4::{Addr, Endpoint, Pair, Prefix, PrefixFault};

/// An address and a length; another address, and whether it has the prefix that they make, or why they make none.
const PREFIXES: [(Addr, u8, Addr, Result<bool, PrefixFault>); 6] = [
    (Addr([10, 0, 0, 0]), 8, Addr([10, 255, 0, 1]), Ok(true)),
    (Addr([10, 0, 0, 0]), 8, Addr([11, 0, 0, 1]), Ok(false)),
    (A, 32, A, Ok(true)),
    (A, 32, B, Ok(false)),
    (Addr([10, 1, 0, 0]), 8, A, Err(PrefixFault::EINVAL)),
    (Addr([0; 4]), 33, A, Err(PrefixFault::EINVAL)),
];

/// Whether an address and a length make a prefix that says so of the other, or none.
fn say_so(addr: Addr, length: u8, other: Addr, want: Result<bool, PrefixFault>) -> bool {
    match Prefix::new(addr, length) {
        Ok(prefix) => {
            (prefix.addr(), prefix.length()) == (addr, length) && Ok(prefix.contains(other)) == want
        }
        Err(fault) => want == Err(fault),
    }
}

#[test]
fn prefixes(rt: HostRuntime) {
    for (addr, length, other, want) in &PREFIXES {
        assert!(rt; say_so(*addr, *length, *other, *want));
    }
    assert!(rt; Prefix::default().contains(B));
}

#[test]
fn endpoints(rt: HostRuntime) {
    assert!(rt; A.is_unicast() && !Addr([127, 0, 0, 1]).is_unicast());
    let low = Endpoint { addr: A, port: 80 };
    let high = Endpoint { addr: B, port: 7 };
    for pair in &[Pair::new(high, low), Pair::new(low, high)] {
        assert!(rt; (pair.first(), pair.second()) == (low, high));
    }
}
