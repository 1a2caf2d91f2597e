//! How long what a datagram carries can be.

/// The octets of a payload at most: what a total length can count behind a header without options (RFC 791 section 3.1).
pub const MAX_PAYLOAD: usize = 65_515;

/// The octets of a payload at most that a frame carries behind a header without options: it has room for 1,500 (RFC 894).
pub const PAYLOAD_IN_FRAME: usize = 1_480;

/// The octets that an error quotes of a datagram at most: the longest header, of 60 octets, and 8 octets behind it (RFC 792).
pub const ERROR_QUOTE: usize = 68;
