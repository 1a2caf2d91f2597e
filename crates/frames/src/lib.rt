//! What octets are to a host with a MAC and an address (an ARP packet, a TCP segment, an ICMP message, a UDP datagram or a fragment of one, another
//! datagram, or the cause to drop them), and the frames that carry what it sends. It knows the formats alone (RFC 894, RFC 826, RFC 791, RFC 792,
//! RFC 768, RFC 9293), and no host.
#![tactic(auto)]

mod drop;
mod emission;
pub mod laws;
mod meaning;
mod pairs;
mod reading;

pub use drop::DropCause;
pub use emission::{FrameHead, HEADS, emit_arp};
pub use meaning::{Control, Meaning, ReceivedDatagram, ReceivedSegment};
pub use pairs::pair_in;
pub use reading::read;
