//! One UDP socket (RFC 768): the datagrams that came for it and were not read, those that are to go out of it, and what goes out,
//! fragment by fragment (RFC 791 section 3.2). It knows nothing of other sockets, of routes or of the link.
#![tactic(auto)]

mod given_up;
pub mod laws;
mod part;
mod socket;
mod tag;

pub use socket::{MOST_OCTETS, UdpSocket};
