//! One host on an Ethernet link: it takes frames and gives frames (RFC 894, RFC 826, RFC 791), and between them the sockets of its caller
//! (RFC 9293, RFC 768). The frame side and the table of sockets are crates of their own; this one joins them, event by event.
#![tactic(auto)]

mod arrival;
mod calls;
mod config;
mod datagrams;
pub mod dry;
pub mod duties;
mod emission;
mod given_up;
pub mod guards;
mod heard;
mod host;
mod info;
mod lack;
pub mod laws;
mod layers;
mod ready;
mod sizes;
mod ticks;
mod way;

pub use config::Config;
pub use frames::DropCause;
pub use given_up::GivenUp;
pub use host::Host;
pub use lack::Lack;
pub use sizes::Sizes;
pub use sockets::{Info, Kind, Ready, Refusal, SocketId, SocketState};
pub use tcp_state::Recovery;
