//! The table of sockets and connections over one address. A segment or a datagram comes to it parsed, with the address that it came from, and
//! goes out as its octets; the layer above says to whom a route leads and what may go out, and keeps what answers a segment.
#![tactic(auto)]

mod arrival;
mod calls;
mod closing;
mod concerned;
mod datagrams;
pub mod duties;
mod emission;
mod entry;
mod found;
mod given_up;
pub mod giving;
pub mod granted;
mod index;
mod info;
pub mod laws;
pub mod memory;
mod needs;
pub mod offered_laws;
mod outlook;
mod ports;
mod ready;
pub mod ready_laws;
mod refusal;
mod replies;
mod role;
mod sizes;
mod sockets;
mod state;
mod table;
mod taken;
mod unreachable;
mod way;

pub use calls::{LEAST_KEEPALIVE, MOST_BACKLOG};
pub use datagrams::Reception;
pub use emission::{Emitted, NextDue, Outgoing};
pub use entry::{Entry, Kind, SocketId};
pub use given_up::Losses;
pub use needs::Need;
pub use ready::Ready;
pub use refusal::Refusal;
pub use role::Leave;
pub use sizes::{LEAST_BUFFER, MOST_ENTRIES, Sizes};
pub use sockets::Sockets;
pub use state::SocketState;
pub use taken::Taken;
pub use tcp_state::Info;
