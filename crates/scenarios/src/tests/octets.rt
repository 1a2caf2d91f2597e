//! Frames, octet by octet: the Ethernet head, the ARP packet or the IPv4 header, the segment, and the zeros that pad it.

/// A asks all of the link for B's MAC (RFC 826).
pub(super) const REQUEST: &[u8] = b"\xff\xff\xff\xff\xff\xff\x02\0\0\0\0\x01\x08\x06\
    \0\x01\x08\0\x06\x04\0\x01\x02\0\0\0\0\x01\x0a\0\0\x01\0\0\0\0\0\0\x0a\0\0\x02\
    \0\0\0\0\0\0\0\0\0\0\0\0\0\0\0\0\0\0";

/// B's reply to that.
pub(super) const REPLY: &[u8] = b"\x02\0\0\0\0\x01\x02\0\0\0\0\x02\x08\x06\
    \0\x01\x08\0\x06\x04\0\x02\x02\0\0\0\0\x02\x0a\0\0\x02\x02\0\0\0\0\x01\x0a\0\0\x01\
    \0\0\0\0\0\0\0\0\0\0\0\0\0\0\0\0\0\0";

/// B asks for A's MAC.
pub(super) const ASKED_BACK: &[u8] = b"\xff\xff\xff\xff\xff\xff\x02\0\0\0\0\x02\x08\x06\
    \0\x01\x08\0\x06\x04\0\x01\x02\0\0\0\0\x02\x0a\0\0\x02\0\0\0\0\0\0\x0a\0\0\x01\
    \0\0\0\0\0\0\0\0\0\0\0\0\0\0\0\0\0\0";

/// A's reply to that.
pub(super) const REPLIED_BACK: &[u8] = b"\x02\0\0\0\0\x02\x02\0\0\0\0\x01\x08\x06\
    \0\x01\x08\0\x06\x04\0\x02\x02\0\0\0\0\x01\x0a\0\0\x01\x02\0\0\0\0\x02\x0a\0\0\x02\
    \0\0\0\0\0\0\0\0\0\0\0\0\0\0\0\0\0\0";

/// The SYN of a connection from port 49152 of A to port 80 of B, with the last number of 32 bits (RFC 9293 section 3.1).
pub(super) const SYN: &[u8] = b"\x02\0\0\0\0\x02\x02\0\0\0\0\x01\x08\0\
    \x45\0\0\x2c\0\0\x40\0\x40\x06\x26\xca\x0a\0\0\x01\x0a\0\0\x02\
    \xc0\0\0\x50\xff\xff\xff\xff\0\0\0\0\x60\x02\xff\xff\xc3\xd3\0\0\x02\x04\x05\xb4\
    \0\0";

/// The same behind four octets of IPv4 options (RFC 791 section 3.1).
pub(super) const SYN_BEHIND_OPTIONS: &[u8] = b"\x02\0\0\0\0\x02\x02\0\0\0\0\x01\x08\0\
    \x46\0\0\x30\0\0\x40\0\x40\x06\x23\xc5\x0a\0\0\x01\x0a\0\0\x02\x01\x01\x01\0\
    \xc0\0\0\x50\xff\xff\xff\xff\0\0\0\0\x60\x02\xff\xff\xc3\xd3\0\0\x02\x04\x05\xb4";

/// B's SYN-ACK to that with the number 7, and what acknowledges it.
pub(super) const SYN_ACK: &[u8] = b"\x02\0\0\0\0\x01\x02\0\0\0\0\x02\x08\0\
    \x45\0\0\x2c\0\0\x40\0\x40\x06\x26\xca\x0a\0\0\x02\x0a\0\0\x01\
    \0\x50\xc0\0\0\0\0\x07\0\0\0\0\x60\x12\xff\xff\xc3\xbc\0\0\x02\x04\x05\xb4\
    \0\0";

pub(super) const SYN_ACKED: &[u8] = b"\x02\0\0\0\0\x02\x02\0\0\0\0\x01\x08\0\
    \x45\0\0\x28\0\0\x40\0\x40\x06\x26\xce\x0a\0\0\x01\x0a\0\0\x02\
    \xc0\0\0\x50\0\0\0\0\0\0\0\x08\x50\x10\xff\xff\xdb\x79\0\0\
    \0\0\0\0\0\0";

/// A's first ten octets after that, the ten behind them, and what acknowledges both.
pub(super) const DIGITS: &[u8] = b"\x02\0\0\0\0\x02\x02\0\0\0\0\x01\x08\0\
    \x45\0\0\x32\0\0\x40\0\x40\x06\x26\xc4\x0a\0\0\x01\x0a\0\0\x02\
    \xc0\0\0\x50\0\0\0\0\0\0\0\x08\x50\x18\xff\xff\xd6\x5d\0\0\
    0123456789";

pub(super) const LETTERS: &[u8] = b"\x02\0\0\0\0\x02\x02\0\0\0\0\x01\x08\0\
    \x45\0\0\x32\0\0\x40\0\x40\x06\x26\xc4\x0a\0\0\x01\x0a\0\0\x02\
    \xc0\0\0\x50\0\0\0\x0a\0\0\0\x08\x50\x18\xff\xff\xe0\x5d\0\0\
    abcdefghij";

pub(super) const LETTERS_ACKED: &[u8] = b"\x02\0\0\0\0\x01\x02\0\0\0\0\x02\x08\0\
    \x45\0\0\x28\0\0\x40\0\x40\x06\x26\xce\x0a\0\0\x02\x0a\0\0\x01\
    \0\x50\xc0\0\0\0\0\x08\0\0\0\x14\x50\x10\xff\xeb\xdb\x79\0\0\
    \0\0\0\0\0\0";

/// A's octets after a handshake in which B's number was 7.
pub(super) const HELLO: &[u8] = b"\x02\0\0\0\0\x02\x02\0\0\0\0\x01\x08\0\
    \x45\0\0\x2d\0\0\x40\0\x40\x06\x26\xc9\x0a\0\0\x01\x0a\0\0\x02\
    \xc0\0\0\x50\0\0\0\0\0\0\0\x08\x50\x18\xff\xff\x97\x9a\0\0\x68\x65\x6c\x6c\x6f\
    \0";

/// The SYN of a host that uses the window scale option (RFC 7323 section 2.2), the SYN-ACK with the number 7, and what acknowledges that: its window is told
/// in units of 32.
pub(super) const SCALED_SYN: &[u8] = b"\x02\0\0\0\0\x02\x02\0\0\0\0\x01\x08\0\
    \x45\0\0\x30\0\0\x40\0\x40\x06\x26\xc6\x0a\0\0\x01\x0a\0\0\x02\
    \xc0\0\0\x50\xff\xff\xff\xff\0\0\0\0\x70\x02\xff\xff\xaf\xc7\0\0\x02\x04\x05\xb4\x01\x03\x03\x05";

pub(super) const SCALED_SYN_ACK: &[u8] = b"\x02\0\0\0\0\x01\x02\0\0\0\0\x02\x08\0\
    \x45\0\0\x30\0\0\x40\0\x40\x06\x26\xc6\x0a\0\0\x02\x0a\0\0\x01\
    \0\x50\xc0\0\0\0\0\x07\0\0\0\0\x70\x12\xff\xff\xaf\xb0\0\0\x02\x04\x05\xb4\x01\x03\x03\x05";

pub(super) const SCALED_ACK: &[u8] = b"\x02\0\0\0\0\x02\x02\0\0\0\0\x01\x08\0\
    \x45\0\0\x28\0\0\x40\0\x40\x06\x26\xce\x0a\0\0\x01\x0a\0\0\x02\
    \xc0\0\0\x50\0\0\0\0\0\0\0\x08\x50\x10\x80\0\x5b\x79\0\0\
    \0\0\0\0\0\0";

/// A's octets after that.
pub(super) const SCALED_HELLO: &[u8] = b"\x02\0\0\0\0\x02\x02\0\0\0\0\x01\x08\0\
    \x45\0\0\x2d\0\0\x40\0\x40\x06\x26\xc9\x0a\0\0\x01\x0a\0\0\x02\
    \xc0\0\0\x50\0\0\0\0\0\0\0\x08\x50\x18\x80\0\x17\x9a\0\0\x68\x65\x6c\x6c\x6f\
    \0";

/// The SYN without its option, and its header as long as before.
pub(super) const CUT_SYN: &[u8] = b"\x02\0\0\0\0\x02\x02\0\0\0\0\x01\x08\0\
    \x45\0\0\x28\0\0\x40\0\x40\x06\x26\xce\x0a\0\0\x01\x0a\0\0\x02\
    \xc0\0\0\x50\xff\xff\xff\xff\0\0\0\0\x60\x02\xff\xff\xc3\xd3\0\0\
    \0\0\0\0\0\0";

/// B's reset of the SYN, where nobody waits for it.
pub(super) const REFUSAL: &[u8] = b"\x02\0\0\0\0\x01\x02\0\0\0\0\x02\x08\0\
    \x45\0\0\x28\0\0\x40\0\x40\x06\x26\xce\x0a\0\0\x02\x0a\0\0\x01\
    \0\x50\xc0\0\0\0\0\0\0\0\0\0\x50\x14\0\0\xdb\x7d\0\0\
    \0\0\0\0\0\0";

/// B's reset of a SYN with the number 5.
pub(super) const REFUSAL_OF_FIVE: &[u8] = b"\x02\0\0\0\0\x01\x02\0\0\0\0\x02\x08\0\
    \x45\0\0\x28\0\0\x40\0\x40\x06\x26\xce\x0a\0\0\x02\x0a\0\0\x01\
    \0\x50\xc0\0\0\0\0\0\0\0\0\x06\x50\x14\0\0\xdb\x77\0\0\
    \0\0\0\0\0\0";

/// An acknowledgement from no connection.
pub(super) const STRAY: &[u8] = b"\x02\0\0\0\0\x02\x02\0\0\0\0\x01\x08\0\
    \x45\0\0\x28\0\0\x40\0\x40\x06\x26\xce\x0a\0\0\x01\x0a\0\0\x02\
    \xc0\0\0\x50\0\0\0\x09\0\x01\x11\x70\x50\x10\0\x64\xc9\xa3\0\0\
    \0\0\0\0\0\0";

/// A reset from no connection.
pub(super) const STRAY_RESET: &[u8] = b"\x02\0\0\0\0\x02\x02\0\0\0\0\x01\x08\0\
    \x45\0\0\x28\0\0\x40\0\x40\x06\x26\xce\x0a\0\0\x01\x0a\0\0\x02\
    \xc0\0\0\x50\0\0\0\x09\0\x01\x11\x70\x50\x14\0\x64\xc9\x9f\0\0\
    \0\0\0\0\0\0";

/// The reset at the stray's acknowledgement.
pub(super) const ANSWER: &[u8] = b"\x02\0\0\0\0\x01\x02\0\0\0\0\x02\x08\0\
    \x45\0\0\x28\0\0\x40\0\x40\x06\x26\xce\x0a\0\0\x02\x0a\0\0\x01\
    \0\x50\xc0\0\0\x01\x11\x70\0\0\0\0\x50\x04\0\0\xca\x1c\0\0\
    \0\0\0\0\0\0";

/// The reset of a connection in which B's number was 7.
pub(super) const ABORT: &[u8] = b"\x02\0\0\0\0\x01\x02\0\0\0\0\x02\x08\0\
    \x45\0\0\x28\0\0\x40\0\x40\x06\x26\xce\x0a\0\0\x02\x0a\0\0\x01\
    \0\x50\xc0\0\0\0\0\x08\0\0\0\0\x50\x04\0\0\xdb\x85\0\0\
    \0\0\0\0\0\0";

/// The same where four octets went out before it.
pub(super) const ABORT_BEHIND_OCTETS: &[u8] = b"\x02\0\0\0\0\x01\x02\0\0\0\0\x02\x08\0\
    \x45\0\0\x28\0\0\x40\0\x40\x06\x26\xce\x0a\0\0\x02\x0a\0\0\x01\
    \0\x50\xc0\0\0\0\0\x0c\0\0\0\0\x50\x04\0\0\xdb\x81\0\0\
    \0\0\0\0\0\0";

/// A asks for the MAC of the gateway 10.0.0.254.
pub(super) const GATEWAY_ASKED: &[u8] = b"\xff\xff\xff\xff\xff\xff\x02\0\0\0\0\x01\x08\x06\
    \0\x01\x08\0\x06\x04\0\x01\x02\0\0\0\0\x01\x0a\0\0\x01\0\0\0\0\0\0\x0a\0\0\xfe\
    \0\0\0\0\0\0\0\0\0\0\0\0\0\0\0\0\0\0";

/// The gateway's reply to that.
pub(super) const GATEWAY_REPLY: &[u8] = b"\x02\0\0\0\0\x01\x02\0\0\0\0\xfe\x08\x06\
    \0\x01\x08\0\x06\x04\0\x02\x02\0\0\0\0\xfe\x0a\0\0\xfe\x02\0\0\0\0\x01\x0a\0\0\x01\
    \0\0\0\0\0\0\0\0\0\0\0\0\0\0\0\0\0\0";

/// A SYN with the number 5 for 192.0.2.9, on its way to the gateway.
pub(super) const FAR_SYN: &[u8] = b"\x02\0\0\0\0\xfe\x02\0\0\0\0\x01\x08\0\
    \x45\0\0\x2c\0\0\x40\0\x40\x06\x6e\xc2\x0a\0\0\x01\xc0\0\x02\x09\
    \xc0\0\0\x50\0\0\0\x05\0\0\0\0\x60\x02\xff\xff\x0b\xc7\0\0\x02\x04\x05\xb4\
    \0\0";

/// A SYN for B from port 1024 of a third host, 10.0.0.3.
pub(super) const THIRD_SYN: &[u8] = b"\x02\0\0\0\0\x02\x02\0\0\0\0\x03\x08\0\
    \x45\0\0\x2c\0\0\x40\0\x40\x06\x26\xc8\x0a\0\0\x03\x0a\0\0\x02\
    \x04\0\0\x50\0\0\0\x05\0\0\0\0\x60\x02\xff\xff\x7f\xcd\0\0\x02\x04\x05\xb4\
    \0\0";

/// B asks for the MAC of the third host.
pub(super) const THIRD_ASKED: &[u8] = b"\xff\xff\xff\xff\xff\xff\x02\0\0\0\0\x02\x08\x06\
    \0\x01\x08\0\x06\x04\0\x01\x02\0\0\0\0\x02\x0a\0\0\x02\0\0\0\0\0\0\x0a\0\0\x03\
    \0\0\0\0\0\0\0\0\0\0\0\0\0\0\0\0\0\0";

/// A asks for the MAC of the third host.
pub(super) const THIRD_IS_ASKED_FOR: &[u8] = b"\xff\xff\xff\xff\xff\xff\x02\0\0\0\0\x01\x08\x06\
    \0\x01\x08\0\x06\x04\0\x01\x02\0\0\0\0\x01\x0a\0\0\x01\0\0\0\0\0\0\x0a\0\0\x03\
    \0\0\0\0\0\0\0\0\0\0\0\0\0\0\0\0\0\0";

/// A asks for B's echo of three octets (RFC 792).
pub(super) const ECHO: &[u8] = b"\x02\0\0\0\0\x02\x02\0\0\0\0\x01\x08\0\
    \x45\0\0\x1f\x12\x34\0\0\x40\x01\x54\xa8\x0a\0\0\x01\x0a\0\0\x02\
    \x08\0\x33\x9b\0\x01\0\x01\x61\x62\x63\
    \0\0\0\0\0\0\0\0\0\0\0\0\0\0\0";

/// B's reply to that.
pub(super) const ECHOED: &[u8] = b"\x02\0\0\0\0\x01\x02\0\0\0\0\x02\x08\0\
    \x45\0\0\x1f\0\0\x40\0\x40\x01\x26\xdc\x0a\0\0\x02\x0a\0\0\x01\
    \0\0\x3b\x9b\0\x01\0\x01\x61\x62\x63\
    \0\0\0\0\0\0\0\0\0\0\0\0\0\0\0";

/// The gateway hands on that 192.0.2.9 asks for A's echo.
pub(super) const FAR_ECHO: &[u8] = b"\x02\0\0\0\0\x01\x02\0\0\0\0\xfe\x08\0\
    \x45\0\0\x1f\0\0\x40\0\x40\x01\x6e\xd4\xc0\0\x02\x09\x0a\0\0\x01\
    \x08\0\x33\x9b\0\x01\0\x01\x61\x62\x63\
    \0\0\0\0\0\0\0\0\0\0\0\0\0\0\0";

/// A's reply to that, on its way to the gateway.
pub(super) const FAR_ECHOED: &[u8] = b"\x02\0\0\0\0\xfe\x02\0\0\0\0\x01\x08\0\
    \x45\0\0\x1f\0\0\x40\0\x40\x01\x6e\xd4\x0a\0\0\x01\xc0\0\x02\x09\
    \0\0\x3b\x9b\0\x01\0\x01\x61\x62\x63\
    \0\0\0\0\0\0\0\0\0\0\0\0\0\0\0";

/// The gateway hands on that 192.0.2.9 asks for B's echo.
pub(super) const FAR_ECHO_OF_B: &[u8] = b"\x02\0\0\0\0\x02\x02\0\0\0\0\xfe\x08\0\
    \x45\0\0\x1f\0\0\x40\0\x40\x01\x6e\xd3\xc0\0\x02\x09\x0a\0\0\x02\
    \x08\0\x33\x9b\0\x01\0\x01\x61\x62\x63\
    \0\0\0\0\0\0\0\0\0\0\0\0\0\0\0";

/// A datagram of protocol 47 from A.
pub(super) const OTHER_PROTOCOL: &[u8] = b"\x02\0\0\0\0\x02\x02\0\0\0\0\x01\x08\0\
    \x45\0\0\x20\0\x07\0\0\x40\x2f\x66\xa6\x0a\0\0\x01\x0a\0\0\x02\
    \x01\x02\x03\x04\x05\x06\x07\x08\x09\x0a\x0b\x0c\
    \0\0\0\0\0\0\0\0\0\0\0\0\0\0";

/// The same from 192.0.2.9.
pub(super) const FAR_PROTOCOL: &[u8] = b"\x02\0\0\0\0\x02\x02\0\0\0\0\xfe\x08\0\
    \x45\0\0\x20\0\x07\0\0\x40\x2f\xae\x9d\xc0\0\x02\x09\x0a\0\0\x02\
    \x01\x02\x03\x04\x05\x06\x07\x08\x09\x0a\x0b\x0c\
    \0\0\0\0\0\0\0\0\0\0\0\0\0\0";

/// B tells A that nothing there takes that protocol: the error quotes A's header and 8 octets behind it (RFC 792).
pub(super) const NOT_TAKEN: &[u8] = b"\x02\0\0\0\0\x01\x02\0\0\0\0\x02\x08\0\
    \x45\0\0\x38\0\0\x40\0\x40\x01\x26\xc3\x0a\0\0\x02\x0a\0\0\x01\
    \x03\x02\xec\xe9\0\0\0\0\x45\0\0\x20\0\x07\0\0\x40\x2f\x66\xa6\x0a\0\0\x01\x0a\0\0\x02\
    \x01\x02\x03\x04\x05\x06\x07\x08";

/// B tells A that nothing there takes what is for port 80, and quotes A's SYN.
pub(super) const UNREACHABLE: &[u8] = b"\x02\0\0\0\0\x01\x02\0\0\0\0\x02\x08\0\
    \x45\0\0\x38\0\0\x40\0\x40\x01\x26\xc3\x0a\0\0\x02\x0a\0\0\x01\
    \x03\x03\x3c\xac\0\0\0\0\x45\0\0\x2c\0\0\x40\0\x40\x06\x26\xca\x0a\0\0\x01\x0a\0\0\x02\
    \xc0\0\0\x50\xff\xff\xff\xff";

/// The same, with one octet less of the SYN.
pub(super) const CUT_QUOTE: &[u8] = b"\x02\0\0\0\0\x01\x02\0\0\0\0\x02\x08\0\
    \x45\0\0\x37\0\0\x40\0\x40\x01\x26\xc4\x0a\0\0\x02\x0a\0\0\x01\
    \x03\x03\x3d\xab\0\0\0\0\x45\0\0\x2c\0\0\x40\0\x40\x06\x26\xca\x0a\0\0\x01\x0a\0\0\x02\
    \xc0\0\0\x50\xff\xff\xff";

/// B asks for the MAC of 10.1.2.3.
pub(super) const NEIGHBOUR_ASKED: &[u8] = b"\xff\xff\xff\xff\xff\xff\x02\0\0\0\0\x02\x08\x06\
    \0\x01\x08\0\x06\x04\0\x01\x02\0\0\0\0\x02\x0a\0\0\x02\0\0\0\0\0\0\x0a\x01\x02\x03\
    \0\0\0\0\0\0\0\0\0\0\0\0\0\0\0\0\0\0";

/// B asks for the MAC of 10.0.0.9.
pub(super) const NEAR_GATEWAY_ASKED: &[u8] = b"\xff\xff\xff\xff\xff\xff\x02\0\0\0\0\x02\x08\x06\
    \0\x01\x08\0\x06\x04\0\x01\x02\0\0\0\0\x02\x0a\0\0\x02\0\0\0\0\0\0\x0a\0\0\x09\
    \0\0\0\0\0\0\0\0\0\0\0\0\0\0\0\0\0\0";

/// A datagram from port 5000 of A to port 5001 of B (RFC 768).
pub(super) const HI: &[u8] = b"\x02\0\0\0\0\x02\x02\0\0\0\0\x01\x08\0\
    \x45\0\0\x1e\0\x07\0\0\x40\x11\x66\xc6\x0a\0\0\x01\x0a\0\0\x02\
    \x13\x88\x13\x89\0\x0a\x5c\x5d\x68\x69\
    \0\0\0\0\0\0\0\0\0\0\0\0\0\0\0\0";

/// The same without a checksum.
pub(super) const HI_WITHOUT_SUM: &[u8] = b"\x02\0\0\0\0\x02\x02\0\0\0\0\x01\x08\0\
    \x45\0\0\x1e\0\x07\0\0\x40\x11\x66\xc6\x0a\0\0\x01\x0a\0\0\x02\
    \x13\x88\x13\x89\0\x0a\0\0\x68\x69\
    \0\0\0\0\0\0\0\0\0\0\0\0\0\0\0\0";

/// The gateway hands on the same from 192.0.2.9.
pub(super) const FAR_HI: &[u8] = b"\x02\0\0\0\0\x02\x02\0\0\0\0\xfe\x08\0\
    \x45\0\0\x1e\0\x07\0\0\x40\x11\xae\xbd\xc0\0\x02\x09\x0a\0\0\x02\
    \x13\x88\x13\x89\0\x0a\xa4\x54\x68\x69\
    \0\0\0\0\0\0\0\0\0\0\0\0\0\0\0\0";

/// B tells A that nobody waits at that port: the error quotes A's header and 8 octets behind it (RFC 792).
pub(super) const NO_PORT: &[u8] = b"\x02\0\0\0\0\x01\x02\0\0\0\0\x02\x08\0\
    \x45\0\0\x38\0\0\x40\0\x40\x01\x26\xc3\x0a\0\0\x02\x0a\0\0\x01\
    \x03\x03\x79\x84\0\0\0\0\x45\0\0\x1e\0\x07\0\0\x40\x11\x66\xc6\x0a\0\0\x01\x0a\0\0\x02\
    \x13\x88\x13\x89\0\x0a\x5c\x5d";

/// The first datagram of A's host, from port 49152, and the second one. They are alike but for their identification.
pub(super) const FIRST_SENT: &[u8] = b"\x02\0\0\0\0\x02\x02\0\0\0\0\x01\x08\0\
    \x45\0\0\x1e\0\0\0\0\x40\x11\x66\xcd\x0a\0\0\x01\x0a\0\0\x02\
    \xc0\0\x13\x89\0\x0a\xaf\xe4\x68\x69\
    \0\0\0\0\0\0\0\0\0\0\0\0\0\0\0\0";

pub(super) const SECOND_SENT: &[u8] = b"\x02\0\0\0\0\x02\x02\0\0\0\0\x01\x08\0\
    \x45\0\0\x1e\0\x01\0\0\x40\x11\x66\xcc\x0a\0\0\x01\x0a\0\0\x02\
    \xc0\0\x13\x89\0\x0a\xaf\xe4\x68\x69\
    \0\0\0\0\0\0\0\0\0\0\0\0\0\0\0\0";

/// A datagram from port 5000 whose sum comes out as 0, which is sent as ffff.
pub(super) const SUM_OF_ZERO: &[u8] = b"\x02\0\0\0\0\x02\x02\0\0\0\0\x01\x08\0\
    \x45\0\0\x1e\0\0\0\0\x40\x11\x66\xcd\x0a\0\0\x01\x0a\0\0\x02\
    \x13\x88\x13\x89\0\x0a\xff\xff\xc4\xc6\
    \0\0\0\0\0\0\0\0\0\0\0\0\0\0\0\0";

/// The first fragment of a datagram of 24 octets without a checksum, to port 5001: its header and `AAAAAAAA`.
pub(super) const FRAGMENT_A: &[u8] = b"\x02\0\0\0\0\x02\x02\0\0\0\0\x01\x08\0\
    \x45\0\0\x24\0\x07\x20\0\x40\x11\x46\xc0\x0a\0\0\x01\x0a\0\0\x02\
    \x13\x88\x13\x89\0\x18\0\0AAAAAAAA\
    \0\0\0\0\0\0\0\0\0\0";

/// The last one, from its eighth octet on: `BBBBBBBBCCCCCCCC`.
pub(super) const FRAGMENT_B: &[u8] = b"\x02\0\0\0\0\x02\x02\0\0\0\0\x01\x08\0\
    \x45\0\0\x24\0\x07\0\x01\x40\x11\x66\xbf\x0a\0\0\x01\x0a\0\0\x02\
    BBBBBBBBCCCCCCCC\
    \0\0\0\0\0\0\0\0\0\0";

/// B tells A that nobody waits for the datagram whose first fragment that is.
pub(super) const NO_PORT_OF_A: &[u8] = b"\x02\0\0\0\0\x01\x02\0\0\0\0\x02\x08\0\
    \x45\0\0\x38\0\0\x40\0\x40\x01\x26\xc3\x0a\0\0\x02\x0a\0\0\x01\
    \x03\x03\xd5\xd3\0\0\0\0\x45\0\0\x24\0\x07\x20\0\x40\x11\x46\xc0\x0a\0\0\x01\x0a\0\0\x02\
    \x13\x88\x13\x89\0\x18\0\0";

/// B tells A that the rest of it didn't come in time.
pub(super) const TIME_EXCEEDED: &[u8] = b"\x02\0\0\0\0\x01\x02\0\0\0\0\x02\x08\0\
    \x45\0\0\x38\0\0\x40\0\x40\x01\x26\xc3\x0a\0\0\x02\x0a\0\0\x01\
    \x0b\x01\xcd\xd5\0\0\0\0\x45\0\0\x24\0\x07\x20\0\x40\x11\x46\xc0\x0a\0\0\x01\x0a\0\0\x02\
    \x13\x88\x13\x89\0\x18\0\0";
