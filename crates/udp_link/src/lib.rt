//! A link between two hosts of this process over two UDP sockets of the machine, one for each host. It loses frames and sends frames twice by
//! their numbers.
#![tactic(auto)]

mod every;
mod link;
mod losses;
mod machine;
mod peer;
mod socket;

pub use every::{Every, LEAST_STEP, MOST_STEP};
pub use link::SocketLink;
pub use losses::{Fate, Losses};
pub use machine::MachineSocket;
pub use peer::{PeerSocket, pair};
pub use socket::DatagramSocket;
