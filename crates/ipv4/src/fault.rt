//! Why octets are no datagram.

use thiserror::Error;

/// What is wrong with a datagram: the first fault in this order (RFC 791 section 3.1, RFC 1122 section 3.2.1).
#[derive(Clone, Copy, Debug, PartialEq, Eq, Error)]
pub enum Ipv4Fault {
    /// The octets have not the form of a datagram: there are fewer than 20, the version is not 4, the header has fewer than
    /// five words or is longer than the total length, the total length is more than is given, a fragment with more behind
    /// it is empty or no multiple of eight octets, or the payload ends past octet 65,515 of the whole.
    #[error("F4 IpHeader")]
    IpHeader,
    /// They have the form of one, and the header's checksum is wrong.
    #[error("F5 IpSum")]
    IpSum,
}
