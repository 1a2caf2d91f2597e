//! What a host on its guard drops, and others take: what comes from no host (RFC 1122 section 3.2.1.3); and what its connections answer otherwise
//! (RFC 5961).

use super::octets::{
    DIGITS, ECHO, FRAGMENT_A, HI, OTHER_PROTOCOL, REPLY, REQUEST, SYN, SYN_ACK, SYN_ACKED,
};
use super::stations::Side::B;
use super::stations::{
    Act, CLIENT, FRESH, GUARDED, GUARDED_GATEWAY, LISTENING, ONE, Scenario, Step, TWO,
};
use host::{DropCause, Refusal};

/// From 10.0.0.255 and 10.0.0.0, the ends of the link's prefix, with the sums that go with them; ARP packets of these, of a group's MAC and of B's own.
const FROM_NO_HOST: &[Step] = &[
    (
        B,
        Act::HearChanged(
            SYN,
            &[(24, 0x25), (25, 0xcc), (29, 0xff), (50, 0xc2), (51, 0xd5)],
            Err(DropCause::OtherAddress),
        ),
    ),
    (
        B,
        Act::HearChanged(
            SYN,
            &[(25, 0xcb), (29, 0), (51, 0xd4)],
            Err(DropCause::OtherAddress),
        ),
    ),
    (
        B,
        Act::HearChanged(
            ECHO,
            &[(24, 0x53), (25, 0xaa), (29, 0xff)],
            Err(DropCause::OtherAddress),
        ),
    ),
    (
        B,
        Act::HearChanged(ECHO, &[(25, 0xa9), (29, 0)], Err(DropCause::OtherAddress)),
    ),
    (
        B,
        Act::HearChanged(
            HI,
            &[(24, 0x65), (25, 0xc8), (29, 0xff), (40, 0x5b), (41, 0x5f)],
            Err(DropCause::OtherAddress),
        ),
    ),
    (
        B,
        Act::HearChanged(
            HI,
            &[(25, 0xc7), (29, 0), (41, 0x5e)],
            Err(DropCause::OtherAddress),
        ),
    ),
    (
        B,
        Act::HearChanged(
            OTHER_PROTOCOL,
            &[(24, 0x65), (25, 0xa8), (29, 0xff)],
            Err(DropCause::OtherAddress),
        ),
    ),
    (
        B,
        Act::HearChanged(
            OTHER_PROTOCOL,
            &[(25, 0xa7), (29, 0)],
            Err(DropCause::OtherAddress),
        ),
    ),
    (
        B,
        Act::HearChanged(
            FRAGMENT_A,
            &[(24, 0x45), (25, 0xc2), (29, 0xff)],
            Err(DropCause::OtherAddress),
        ),
    ),
    (
        B,
        Act::HearChanged(
            FRAGMENT_A,
            &[(25, 0xc1), (29, 0)],
            Err(DropCause::OtherAddress),
        ),
    ),
    (
        B,
        Act::HearChanged(REQUEST, &[(31, 0xff)], Err(DropCause::OtherAddress)),
    ),
    (
        B,
        Act::HearChanged(REQUEST, &[(31, 0)], Err(DropCause::OtherAddress)),
    ),
    (
        B,
        Act::HearChanged(REQUEST, &[(22, 3)], Err(DropCause::OtherAddress)),
    ),
    (
        B,
        Act::HearChanged(REQUEST, &[(27, 2)], Err(DropCause::OtherAddress)),
    ),
    (B, Act::Emit(None)),
    (B, Act::Deadline(None)),
];

/// From 10.0.0.254, and an ARP packet of A.
const FROM_HOSTS: &[Step] = &[
    (B, Act::Hear(7, REQUEST, Ok(()))),
    (B, Act::Sends(REPLY)),
    (
        B,
        Act::HearChanged(ECHO, &[(24, 0x53), (25, 0xab), (29, 0xfe)], Ok(())),
    ),
    (B, Act::Emit(Some(60))),
    (B, Act::Emit(None)),
];

/// What isn't on guard answers both ends.
const TAKEN: &[Step] = &[
    (B, Act::HearChanged(REQUEST, &[(31, 0xff)], Ok(()))),
    (B, Act::Emit(Some(60))),
    (B, Act::HearChanged(ECHO, &[(25, 0xa9), (29, 0)], Ok(()))),
    (B, Act::Emit(Some(60))),
    (B, Act::Emit(None)),
];

/// Of two prefixes 10.1.0.0/16 alone is on the link: the ends of the other, 10.0.0.0/8, are its gateway's matter.
const BEHIND_A_GATEWAY: &[Step] = &[
    (
        B,
        Act::HearChanged(
            ECHO,
            &[(27, 1), (28, 0xff), (29, 0xff)],
            Err(DropCause::OtherAddress),
        ),
    ),
    (
        B,
        Act::HearChanged(ECHO, &[(27, 1), (29, 0)], Err(DropCause::OtherAddress)),
    ),
    (
        B,
        Act::HearChanged(
            ECHO,
            &[(24, 0x53), (25, 0xaa), (27, 0xff), (28, 0xff), (29, 0xff)],
            Ok(()),
        ),
    ),
    (B, Act::HearChanged(ECHO, &[(25, 0xa9), (29, 0)], Ok(()))),
];

/// B's acknowledgement of A's SYN alone, whose number is the last of 32 bits, and that of ten octets behind it.
const SYN_ACKED_BY_B: &[u8] = b"\x02\0\0\0\0\x01\x02\0\0\0\0\x02\x08\0\
    \x45\0\0\x28\0\0\x40\0\x40\x06\x26\xce\x0a\0\0\x02\x0a\0\0\x01\
    \0\x50\xc0\0\0\0\0\x08\0\0\0\0\x50\x10\xff\xff\xdb\x79\0\0\
    \0\0\0\0\0\0";

const DIGITS_ACKED: &[u8] = b"\x02\0\0\0\0\x01\x02\0\0\0\0\x02\x08\0\
    \x45\0\0\x28\0\0\x40\0\x40\x06\x26\xce\x0a\0\0\x02\x0a\0\0\x01\
    \0\x50\xc0\0\0\0\0\x08\0\0\0\x0a\x50\x10\xff\xf5\xdb\x79\0\0\
    \0\0\0\0\0\0";

/// A's SYN came, and the SYN-ACK went out.
const ANSWERED: &[Step] = &[
    (B, Act::Hear(7, REQUEST, Ok(()))),
    (B, Act::Sends(REPLY)),
    (B, Act::Hear(7, SYN, Ok(()))),
    (B, Act::Sends(SYN_ACK)),
];

/// It is confirmed, and accepted.
const CONFIRMED: &[Step] = &[
    (B, Act::Hear(7, SYN_ACKED, Ok(()))),
    (B, Act::Accept(ONE, TWO, CLIENT)),
];

/// The SYN comes again: on guard it draws the SYN-ACK again, else an acknowledgement alone.
const SYN_AGAIN: &[Step] = &[
    (B, Act::Hear(7, SYN, Ok(()))),
    (B, Act::Sends(SYN_ACK)),
    (B, Act::Emit(None)),
];

const SYN_ACKNOWLEDGED: &[Step] = &[
    (B, Act::Hear(7, SYN, Ok(()))),
    (B, Act::Sends(SYN_ACKED_BY_B)),
    (B, Act::Emit(None)),
];

/// A's octets with an acknowledgement 65,536 below SND.UNA, where the largest window that A told has 65,535 (RFC 5961 section 5.2).
const TOO_OLD: Act = Act::HearChanged(DIGITS, &[(42, 0xff), (43, 0xff)], Ok(()));

/// They bring nothing, and those with one that is 65,535 below do.
const OLD_ACKNOWLEDGEMENTS: &[Step] = &[
    (B, TOO_OLD),
    (B, Act::Recv(TWO, Err(Refusal::EAGAIN))),
    (B, Act::Sends(SYN_ACKED_BY_B)),
    (B, Act::Emit(None)),
    (
        B,
        Act::HearChanged(
            DIGITS,
            &[(42, 0xff), (43, 0xff), (45, 9), (51, 0x5c)],
            Ok(()),
        ),
    ),
    (B, Act::Reads(TWO, b"0123456789")),
];

const OLD_ACKNOWLEDGEMENTS_TAKEN: &[Step] = &[(B, TOO_OLD), (B, Act::Reads(TWO, b"0123456789"))];

/// The ten octets come, and then ten times more, which draws ten acknowledgements (RFC 5961 section 7).
const TEN_COPIES: &[Step] = &[
    (B, Act::Hear(7, DIGITS, Ok(()))),
    (B, Act::Reads(TWO, b"0123456789")),
    (B, Act::Hear(7, DIGITS, Ok(()))),
    (B, Act::Sends(DIGITS_ACKED)),
    (B, Act::Hear(7, DIGITS, Ok(()))),
    (B, Act::Sends(DIGITS_ACKED)),
    (B, Act::Hear(7, DIGITS, Ok(()))),
    (B, Act::Sends(DIGITS_ACKED)),
    (B, Act::Hear(7, DIGITS, Ok(()))),
    (B, Act::Sends(DIGITS_ACKED)),
    (B, Act::Hear(7, DIGITS, Ok(()))),
    (B, Act::Sends(DIGITS_ACKED)),
    (B, Act::Hear(7, DIGITS, Ok(()))),
    (B, Act::Sends(DIGITS_ACKED)),
    (B, Act::Hear(7, DIGITS, Ok(()))),
    (B, Act::Sends(DIGITS_ACKED)),
    (B, Act::Hear(7, DIGITS, Ok(()))),
    (B, Act::Sends(DIGITS_ACKED)),
    (B, Act::Hear(7, DIGITS, Ok(()))),
    (B, Act::Sends(DIGITS_ACKED)),
    (B, Act::Hear(7, DIGITS, Ok(()))),
    (B, Act::Sends(DIGITS_ACKED)),
];

/// Another is held back on guard, until a second after the last.
const HELD_BACK: &[Step] = &[
    (B, Act::Hear(7, DIGITS, Ok(()))),
    (B, Act::Emit(None)),
    (B, Act::Tick(999)),
    (B, Act::Hear(7, DIGITS, Ok(()))),
    (B, Act::Emit(None)),
    (B, Act::Tick(1_000)),
    (B, Act::Hear(7, DIGITS, Ok(()))),
    (B, Act::Sends(DIGITS_ACKED)),
    (B, Act::Emit(None)),
];

const ONE_MORE: &[Step] = &[
    (B, Act::Hear(7, DIGITS, Ok(()))),
    (B, Act::Sends(DIGITS_ACKED)),
];

pub(super) const SCENARIOS: &[Scenario] = &[
    Scenario {
        name: "what comes from no host is dropped on guard",
        hosts: GUARDED,
        parts: &[FROM_NO_HOST, FROM_HOSTS],
    },
    Scenario {
        name: "without guards it is taken",
        hosts: FRESH,
        parts: &[TAKEN],
    },
    Scenario {
        name: "ends of a network behind a gateway are taken",
        hosts: GUARDED_GATEWAY,
        parts: &[BEHIND_A_GATEWAY],
    },
    Scenario {
        name: "a SYN that comes again draws the SYN-ACK again on guard",
        hosts: GUARDED,
        parts: &[LISTENING, ANSWERED, SYN_AGAIN, CONFIRMED],
    },
    Scenario {
        name: "without guards it draws an acknowledgement",
        hosts: FRESH,
        parts: &[LISTENING, ANSWERED, SYN_ACKNOWLEDGED, CONFIRMED],
    },
    Scenario {
        name: "old acknowledgements bring nothing on guard",
        hosts: GUARDED,
        parts: &[LISTENING, ANSWERED, CONFIRMED, OLD_ACKNOWLEDGEMENTS],
    },
    Scenario {
        name: "without guards they do",
        hosts: FRESH,
        parts: &[LISTENING, ANSWERED, CONFIRMED, OLD_ACKNOWLEDGEMENTS_TAKEN],
    },
    Scenario {
        name: "ten are answered in a second on guard",
        hosts: GUARDED,
        parts: &[LISTENING, ANSWERED, CONFIRMED, TEN_COPIES, HELD_BACK],
    },
    Scenario {
        name: "without guards all are",
        hosts: FRESH,
        parts: &[LISTENING, ANSWERED, CONFIRMED, TEN_COPIES, ONE_MORE],
    },
];
