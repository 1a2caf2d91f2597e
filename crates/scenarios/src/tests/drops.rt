//! Frames that a host doesn't take, each by one fault of a good one, and frames that it takes and that change nothing.

use super::octets::{ECHO, HI, REQUEST, SYN};
use super::stations::Side::B;
use super::stations::{Act, FRESH, Scenario, Step};
use host::DropCause;

/// A datagram of 115 octets for 192.168.0.199, whose header has a wrong sum. The octets behind the header are zeros.
const WRONG_SUM: &[u8] = b"\x02\0\0\0\0\x02\x02\0\0\0\0\x01\x08\0\
    \x45\0\0\x73\0\0\x40\0\x40\x11\xb8\x62\xc0\xa8\0\x01\xc0\xa8\0\xc7\
    \0\0\0\0\0\0\0\0\0\0\0\0\0\0\0\0\0\0\0\0\0\0\0\0\0\0\0\0\0\0\0\0\0\0\0\0\0\0\0\0\0\0\0\0\0\0\0\0\
    \0\0\0\0\0\0\0\0\0\0\0\0\0\0\0\0\0\0\0\0\0\0\0\0\0\0\0\0\0\0\0\0\0\0\0\0\0\0\0\0\0\0\0\0\0\0\0";

/// Where an octet of the IPv4 header is another, so is its checksum, and that of a message where its type or code is.
/// Behind them all there is nothing to say.
const HEARD: &[Step] = &[
    (B, Act::Hear(7, &[0; 13], Err(DropCause::Short))),
    (B, Act::Hear(7, &[0; 1_515], Err(DropCause::Short))),
    (
        B,
        Act::HearChanged(SYN, &[(5, 3)], Err(DropCause::OtherMac)),
    ),
    (
        B,
        Act::HearChanged(
            SYN,
            &[(0, 255), (1, 255), (2, 255), (3, 255), (4, 255), (5, 255)],
            Err(DropCause::OtherMac),
        ),
    ),
    (
        B,
        Act::HearChanged(SYN, &[(13, 1)], Err(DropCause::OtherType)),
    ),
    (
        B,
        Act::HearChanged(SYN, &[(14, 0x44)], Err(DropCause::IpHeader)),
    ),
    (
        B,
        Act::HearChanged(SYN, &[(33, 3), (25, 0xc9)], Err(DropCause::OtherAddress)),
    ),
    (
        B,
        Act::HearChanged(SYN, &[(29, 2), (25, 0xc9)], Err(DropCause::OtherAddress)),
    ),
    (
        B,
        Act::HearChanged(
            SYN,
            &[(26, 224), (24, 0x50), (25, 0xc9)],
            Err(DropCause::OtherAddress),
        ),
    ),
    (
        B,
        Act::HearChanged(SYN, &[(20, 0x20), (24, 0x46)], Err(DropCause::Fragment)),
    ),
    (
        B,
        Act::HearChanged(SYN, &[(46, 0x40)], Err(DropCause::UpperHeader)),
    ),
    (
        B,
        Act::HearChanged(SYN, &[(57, 0xb5)], Err(DropCause::UpperSum)),
    ),
    (
        B,
        Act::HearChanged(REQUEST, &[(15, 2)], Err(DropCause::UpperHeader)),
    ),
    (
        B,
        Act::HearChanged(REQUEST, &[(31, 2)], Err(DropCause::OtherAddress)),
    ),
    (B, Act::HearChanged(REQUEST, &[(41, 3)], Ok(()))),
    (
        B,
        Act::HearChanged(SYN, &[(23, 1), (25, 0xcf)], Err(DropCause::UpperSum)),
    ),
    (
        B,
        Act::HearChanged(ECHO, &[(37, 0x9a)], Err(DropCause::UpperSum)),
    ),
    (
        B,
        Act::HearChanged(ECHO, &[(17, 0x1b), (25, 0xac)], Err(DropCause::UpperHeader)),
    ),
    (
        B,
        Act::HearChanged(ECHO, &[(21, 1), (25, 0xa7)], Err(DropCause::Fragment)),
    ),
    (
        B,
        Act::HearChanged(HI, &[(41, 0x5e)], Err(DropCause::UpperSum)),
    ),
    (
        B,
        Act::HearChanged(HI, &[(39, 0x0b)], Err(DropCause::UpperHeader)),
    ),
    (
        B,
        Act::HearChanged(HI, &[(39, 7)], Err(DropCause::UpperHeader)),
    ),
    (
        B,
        Act::HearChanged(HI, &[(17, 0x1b), (25, 0xc9)], Err(DropCause::UpperHeader)),
    ),
    (
        B,
        Act::HearChanged(
            ECHO,
            &[
                (30, 255),
                (31, 255),
                (32, 255),
                (33, 255),
                (24, 0x5e),
                (25, 0xaa),
            ],
            Err(DropCause::OtherAddress),
        ),
    ),
    (
        B,
        Act::HearChanged(
            ECHO,
            &[(30, 224), (24, 0x7e), (25, 0xa7)],
            Err(DropCause::OtherAddress),
        ),
    ),
    (B, Act::HearChanged(ECHO, &[(34, 0), (36, 0x3b)], Ok(()))),
    (B, Act::HearChanged(ECHO, &[(34, 13), (36, 0x2e)], Ok(()))),
    (B, Act::HearChanged(ECHO, &[(35, 1), (37, 0x9a)], Ok(()))),
    (B, Act::Hear(7, WRONG_SUM, Err(DropCause::IpSum))),
    (
        B,
        Act::HearChanged(WRONG_SUM, &[(25, 0x61)], Err(DropCause::OtherAddress)),
    ),
    (B, Act::Emit(None)),
    (B, Act::Deadline(None)),
];

pub(super) const SCENARIOS: &[Scenario] = &[Scenario {
    name: "frames are dropped",
    hosts: FRESH,
    parts: &[HEARD],
}];
