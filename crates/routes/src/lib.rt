//! Which hop leads to an address: a table of prefixes, and longest-prefix match (RFC 4632 section 5.1, RFC 1122 section 3.3.1).
#![tactic(auto)]

pub mod laws;
mod route;
mod table;

pub use route::{Hop, Route};
pub use table::{AddFault, MOST, RemoveFault, Routes};
