//! Why octets are no message.

use thiserror::Error;

/// What is wrong with a message: the first fault in this order (RFC 792).
#[derive(Clone, Copy, Debug, PartialEq, Eq, Error)]
pub enum IcmpFault {
    /// There are fewer than 8 octets.
    #[error("F7 UpperHeader")]
    UpperHeader,
    /// There are enough, and the checksum is wrong.
    #[error("F8 UpperSum")]
    UpperSum,
}
