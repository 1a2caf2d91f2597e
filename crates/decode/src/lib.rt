//! What a frame says, as text: a line a layer, from Ethernet (RFC 894) up to ICMP, UDP or TCP.
#![tactic(auto)]

mod carried;
pub mod laws;
mod layers;
mod lines;
mod pairs;
mod unreadable;
mod words;

pub use layers::decode;
pub use lines::{push_message, push_packet, push_user};
pub use pairs::{HexFault, octets_of};
pub use unreadable::Unreadable;
pub use words::{fragment_name, push_flags};
