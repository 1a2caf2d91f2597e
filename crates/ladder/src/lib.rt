//! The ladder of a run: what was done and what that printed, a line each, and between them each frame as it goes out and each time that it is
//! brought to a host, drawn between two uprights. It knows the formats of frames (RFC 894, RFC 826, RFC 791, RFC 792, RFC 768, RFC 9293) and the
//! events of a world, and no file or device.
#![tactic(auto)]

mod arrivals;
mod happened;
pub mod laws;
mod nodes;
mod numbers;
mod passage;
mod record;
mod rung;
mod text;

pub use happened::{Happened, Line, Text};
pub use nodes::{Node, Nodes};
pub use numbers::{Direction, Numbering, Syn};
pub use passage::{Errand, Fate, Passage};
pub use record::Run;
