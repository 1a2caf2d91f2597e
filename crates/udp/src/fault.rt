//! Why octets are no UDP datagram.

use thiserror::Error;

/// What is wrong with a UDP datagram: the first fault in this order (RFC 768, RFC 1122 section 4.1.3).
#[derive(Clone, Copy, Debug, PartialEq, Eq, Error)]
pub enum UdpFault {
    /// The octets have not the form of one: the length that they tell is under 8, or more octets than are given.
    #[error("F7 UpperHeader")]
    UpperHeader,
    /// They have the form of one, there is a checksum, and it is wrong.
    #[error("F8 UpperSum")]
    UpperSum,
}
