//! ICMP messages (RFC 792, RFC 1122 section 3.2.2).

use super::{A, B};
use icmp::{IcmpFault, IcmpView, Kind, Quote, Reason, emit_echo_reply, emit_error, may_answer};
use ipv4::{Endpoint, Ipv4View, Protocol};

/// An echo request with the data `abc`.
const REQUEST: [u8; 11] = *b"\x08\x00\x33\x9b\x00\x01\x00\x01abc";

/// Its reply, with octets of 7 behind it.
const REPLY: [u8; 13] = *b"\x00\x00\x3b\x9b\x00\x01\x00\x01abc\x07\x07";

/// Whether a message is that request.
fn is_the_request(message: &IcmpView) -> bool {
    (message.kind(), message.code(), message.checksum()) == (Kind::ECHO, 0, 0x339b)
        && (message.identifier(), message.number()) == (1, 1)
        && message.payload() == b"abc".as_slice()
        && message.is_echo_request()
        && !message.kind().is_error()
        && message.reason().is_none()
        && message.quote().is_none()
}

#[test]
fn an_echo_request_is_answered(rt: HostRuntime) {
    let Ok(request) = IcmpView::parse(&REQUEST) else {
        panic!(&rt; "the octets are a message")
    };
    assert!(rt; is_the_request(&request));
    let mut out = [7; 13];
    assert!(rt; request.emit_reply(&mut out) == 11 && out == REPLY);
}

#[test]
fn an_echo_reply_is_written_from_its_parts(rt: HostRuntime) {
    let mut out = *b"\x07\x07\x07\x07\x07\x07\x07\x07abc\x07\x07";
    assert!(rt; emit_echo_reply(1, 1, 3, &mut out) == 11 && out == REPLY);
}

const FAULTS: [(&[u8], Option<IcmpFault>); 11] = [
    (b"", Some(IcmpFault::UpperHeader)),
    (b"\x08", Some(IcmpFault::UpperHeader)),
    (b"\x08\0", Some(IcmpFault::UpperHeader)),
    (b"\x08\0\x33", Some(IcmpFault::UpperHeader)),
    (b"\x08\0\x33\x9b", Some(IcmpFault::UpperHeader)),
    (b"\x08\0\x33\x9b\0", Some(IcmpFault::UpperHeader)),
    (b"\x08\0\x33\x9b\0\x01", Some(IcmpFault::UpperHeader)),
    (b"\x08\0\x33\x9b\0\x01\0", Some(IcmpFault::UpperHeader)),
    (b"\x03\0\x33\x9b\0\x01\0", Some(IcmpFault::UpperHeader)),
    (
        b"\x08\0\x33\x9b\0\x01\0\x01\x61\x62\x62",
        Some(IcmpFault::UpperSum),
    ),
    (b"\x08\0\x33\x9b\0\x01\0\x01\x61\x62\x63", None),
];

#[test]
fn faults(rt: HostRuntime) {
    for (octets, want) in &FAULTS {
        assert!(rt; IcmpView::parse(octets).err() == *want);
    }
}

/// The header of a SYN from 10.0.0.1 to 10.0.0.2.
const SYN_HEADER: [u8; 20] =
    *b"\x45\x00\x00\x2c\x00\x00\x40\x00\x40\x06\x26\xca\x0a\x00\x00\x01\x0a\x00\x00\x02";

/// Whom that SYN was between.
const SYN_QUOTE: Quote = Quote {
    protocol: Protocol::TCP,
    source: Endpoint {
        addr: A,
        port: 49_152,
    },
    destination: Endpoint { addr: B, port: 80 },
    number: 0xffff_ffff,
};

/// An error about it: the octets behind its header that are given, the error with octets of 7 behind it, its length and what it quotes.
struct AboutIt {
    reason: Reason,
    payload: &'static [u8],
    octets: [u8; 40],
    len: usize,
    quote: Option<Quote>,
}

const ERRORS: [AboutIt; 2] = [
    AboutIt {
        reason: Reason::PortUnreachable,
        payload: b"\xc0\0\0\x50\xff\xff\xff\xff\0\0\0\0",
        octets: *b"\x03\x03\x3c\xac\0\0\0\0\x45\0\0\x2c\0\0\x40\0\x40\x06\x26\xca\x0a\0\0\x01\x0a\0\0\x02\xc0\0\0\x50\xff\xff\xff\xff\x07\x07\x07\x07",
        len: 36,
        quote: Some(SYN_QUOTE),
    },
    AboutIt {
        reason: Reason::ReassemblyTimeExceeded,
        payload: b"\xc0\0\0",
        octets: *b"\x0b\x01\x34\xfe\0\0\0\0\x45\0\0\x2c\0\0\x40\0\x40\x06\x26\xca\x0a\0\0\x01\x0a\0\0\x02\xc0\0\0\x07\x07\x07\x07\x07\x07\x07\x07\x07",
        len: 31,
        quote: None,
    },
];

/// Whether the error is written so, and read again.
fn is_written_so(error: &AboutIt) -> bool {
    let mut out = [7; 40];
    let len = emit_error(error.reason, &SYN_HEADER, error.payload, &mut out);
    match IcmpView::parse(&out[..len]) {
        Ok(view) => {
            len == error.len
                && out == error.octets
                && view.reason() == Some(error.reason)
                && view.quote() == error.quote
        }
        Err(_) => false,
    }
}

#[test]
fn errors_quote_their_cause(rt: HostRuntime) {
    for error in &ERRORS {
        assert!(rt; is_written_so(error));
    }
}

/// Types and codes, and the reason that each stands for.
const REASONS: [(u8, u8, Option<Reason>); 10] = [
    (3, 0, Some(Reason::NetUnreachable)),
    (3, 1, Some(Reason::HostUnreachable)),
    (3, 2, Some(Reason::ProtocolUnreachable)),
    (3, 3, Some(Reason::PortUnreachable)),
    (3, 4, Some(Reason::FragmentationNeeded)),
    (3, 5, Some(Reason::SourceRouteFailed)),
    (11, 0, Some(Reason::TransitTimeExceeded)),
    (11, 1, Some(Reason::ReassemblyTimeExceeded)),
    (12, 0, None),
    (3, 6, None),
];

/// Whether the numbers stand for this, and it for them.
fn stand_for(kind: Kind, code: u8, want: Option<Reason>) -> bool {
    let is_read = Reason::with_numbers(kind, code) == want;
    match want {
        Some(reason) => is_read && (reason.kind(), reason.code()) == (kind, code),
        None => is_read,
    }
}

#[test]
fn reasons(rt: HostRuntime) {
    for (kind, code, want) in &REASONS {
        assert!(rt; stand_for(Kind(*kind), *code, *want));
    }
}

/// Datagrams, whether they came in a broadcast of the link, and whether they may be answered by an error.
const ANSWERED: [(&[u8], bool, bool); 20] = [
    (
        b"\x45\0\0\x1c\0\0\0\0\0\x11\xa6\xcf\x0a\0\0\x01\x0a\0\0\x02\x03\0\0\0\0\0\0\0",
        false,
        true,
    ),
    // in a link broadcast
    (
        b"\x45\0\0\x1c\0\0\0\0\0\x11\xa6\xcf\x0a\0\0\x01\x0a\0\0\x02\x03\0\0\0\0\0\0\0",
        true,
        false,
    ),
    // a later fragment
    (
        b"\x45\0\0\x1c\0\0\0\x01\0\x11\xa6\xce\x0a\0\0\x01\x0a\0\0\x02\x03\0\0\0\0\0\0\0",
        false,
        false,
    ),
    // not for a unicast address, and for the last that is one
    (
        b"\x45\0\0\x1c\0\0\0\0\0\x11\xb0\xd1\x0a\0\0\x01\xff\xff\xff\xff\x03\0\0\0\0\0\0\0",
        false,
        false,
    ),
    (
        b"\x45\0\0\x1c\0\0\0\0\0\x11\xd0\xcf\x0a\0\0\x01\xe0\0\0\x01\x03\0\0\0\0\0\0\0",
        false,
        false,
    ),
    (
        b"\x45\0\0\x1c\0\0\0\0\0\x11\xc0\xd1\x0a\0\0\x01\xef\xff\xff\xff\x03\0\0\0\0\0\0\0",
        false,
        false,
    ),
    (
        b"\x45\0\0\x1c\0\0\0\0\0\x11\xd0\xd1\x0a\0\0\x01\xdf\xff\xff\xff\x03\0\0\0\0\0\0\0",
        false,
        true,
    ),
    // not from a unicast address
    (
        b"\x45\0\0\x1c\0\0\0\0\0\x11\xb0\xd0\0\0\0\0\x0a\0\0\x02\x03\0\0\0\0\0\0\0",
        false,
        false,
    ),
    (
        b"\x45\0\0\x1c\0\0\0\0\0\x11\x31\xcf\x7f\0\0\x01\x0a\0\0\x02\x03\0\0\0\0\0\0\0",
        false,
        false,
    ),
    (
        b"\x45\0\0\x1c\0\0\0\0\0\x11\xd0\xce\xe0\0\0\x01\x0a\0\0\x02\x03\0\0\0\0\0\0\0",
        false,
        false,
    ),
    (
        b"\x45\0\0\x1c\0\0\0\0\0\x11\xc0\xce\xf0\0\0\x01\x0a\0\0\x02\x03\0\0\0\0\0\0\0",
        false,
        false,
    ),
    (
        b"\x45\0\0\x1c\0\0\0\0\0\x11\xb0\xd0\xff\xff\xff\xff\x0a\0\0\x02\x03\0\0\0\0\0\0\0",
        false,
        false,
    ),
    // ICMP messages: errors, and others
    (
        b"\x45\0\0\x1c\0\0\0\0\0\x01\xa6\xdf\x0a\0\0\x01\x0a\0\0\x02\0\0\0\0\0\0\0\0",
        false,
        true,
    ),
    (
        b"\x45\0\0\x1c\0\0\0\0\0\x01\xa6\xdf\x0a\0\0\x01\x0a\0\0\x02\x03\0\0\0\0\0\0\0",
        false,
        false,
    ),
    (
        b"\x45\0\0\x1c\0\0\0\0\0\x01\xa6\xdf\x0a\0\0\x01\x0a\0\0\x02\x04\0\0\0\0\0\0\0",
        false,
        false,
    ),
    (
        b"\x45\0\0\x1c\0\0\0\0\0\x01\xa6\xdf\x0a\0\0\x01\x0a\0\0\x02\x05\0\0\0\0\0\0\0",
        false,
        false,
    ),
    (
        b"\x45\0\0\x1c\0\0\0\0\0\x01\xa6\xdf\x0a\0\0\x01\x0a\0\0\x02\x08\0\0\0\0\0\0\0",
        false,
        true,
    ),
    (
        b"\x45\0\0\x1c\0\0\0\0\0\x01\xa6\xdf\x0a\0\0\x01\x0a\0\0\x02\x0b\0\0\0\0\0\0\0",
        false,
        false,
    ),
    (
        b"\x45\0\0\x1c\0\0\0\0\0\x01\xa6\xdf\x0a\0\0\x01\x0a\0\0\x02\x0c\0\0\0\0\0\0\0",
        false,
        false,
    ),
    (
        b"\x45\0\0\x1c\0\0\0\0\0\x01\xa6\xdf\x0a\0\0\x01\x0a\0\0\x02\x0d\0\0\0\0\0\0\0",
        false,
        true,
    ),
];

/// Whether a datagram may be answered so.
fn is_answered_so(octets: &[u8], link_broadcast: bool, want: bool) -> bool {
    match Ipv4View::parse(octets) {
        Ok(view) => may_answer(&view, link_broadcast) == want,
        Err(_) => false,
    }
}

#[test]
fn answers(rt: HostRuntime) {
    for (octets, link_broadcast, want) in &ANSWERED {
        assert!(rt; is_answered_so(octets, *link_broadcast, *want));
    }
}
