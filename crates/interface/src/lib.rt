//! The frame side of a host: its MAC, address and routes, what it heard of its neighbours, and its control replies, which wait
//! until a frame can carry them (RFC 826, RFC 1122 sections 2.3.2 and 3.3.1). It knows no socket and no connection.
#![tactic(auto)]

mod emission;
mod given_up;
mod hop;
mod interface;
pub mod laws;
mod queue;
mod reply;
mod room;
mod sound;
mod timing;
mod way;

pub use interface::Interface;
pub use reply::QueueFault;
pub use room::ECHO_ROOM;
pub use way::Way;
