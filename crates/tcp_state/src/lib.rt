//! One TCP connection (RFC 9293): what a caller's octets, an arriving segment, the clock and an emission
//! make of it.
#![tactic(auto)]

mod alive;
mod arrival;
mod asking;
mod calls;
mod connection;
pub mod counting;
pub mod duties;
mod emission;
mod ending;
mod guard;
pub mod guards;
mod hop;
mod info;
pub mod late;
pub mod laws;
mod needless;
mod news;
mod plain;
pub mod probing;
pub mod progress;
pub mod recovery;
pub mod repair;
mod reporting;
pub mod reports;
mod resend;
mod selective;
pub mod silence;
mod state;
pub mod status;
mod tail;
pub mod telling;
mod timing;
mod way;

pub use alive::{KeepAlive, MOST_KEEPALIVE};
pub use calls::{Received, Refusal};
pub use congestion::{Control, Recovery};
pub use connection::{Connection, Fate};
pub use emission::{Due, MOST_SEGMENT, Stretch};
pub use guard::{Guard, MOST_DRAWN};
pub use hop::HOP_PATIENCE;
pub use info::Info;
pub use reporting::Reporting;
pub use resend::Timed;
pub use state::State;
pub use tcp_halves::{Buffers, CAPACITY, LARGEST_CAPACITY, Manner};
