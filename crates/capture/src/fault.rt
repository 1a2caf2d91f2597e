//! Why octets are no capture, or no record of one.

use thiserror::Error;

/// Why octets are no capture that is read: the first fault in this order.
#[derive(Clone, Copy, Debug, PartialEq, Eq, Error)]
pub enum HeaderFault {
    /// They end before the header does: so many octets of its 24 are missing.
    #[error("the capture's header lacks {0} octets")]
    Short(usize),
    /// They do not begin with a magic number of the format; this is what stands there, read with the lowest octet first.
    #[error("no capture begins with {0:#010x}")]
    NotACapture(u32),
    /// The version, major and minor, is another than 2.4.
    #[error("version {0}.{1} of the format is not read")]
    Version(u16, u16),
    /// The link type, with all bits of its field, is another than 1, Ethernet.
    #[error("link type {0} is not Ethernet")]
    LinkType(u32),
}

/// Why octets behind whole records are no record. No record is read behind a fault.
#[derive(Clone, Copy, Debug, PartialEq, Eq, Error)]
pub enum RecordFault {
    /// The capture ends within a record's head: so many octets of its 16 are missing.
    #[error("the capture is cut: {0} octets of a record's head are missing")]
    CutHead(usize),
    /// The capture ends within a record's octets: so many of them are missing.
    #[error("the capture is cut: {0} octets of a record are missing")]
    CutOctets(usize),
    /// The record tells that so many octets of it are included, which is more than 262,144.
    #[error("a record of {0} octets is too long")]
    TooLong(u32),
}
