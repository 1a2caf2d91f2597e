//! Why octets are no segment.

use thiserror::Error;

/// What is wrong with a segment: the first fault in this order (RFC 9293 sections 3.1 and 3.2).
#[derive(Clone, Copy, Debug, PartialEq, Eq, Error)]
pub enum SegmentFault {
    /// The header has not the form of one.
    #[error("F7 UpperHeader")]
    UpperHeader,
    /// The header has the form of one, and the checksum is wrong.
    #[error("F8 UpperSum")]
    UpperSum,
}
