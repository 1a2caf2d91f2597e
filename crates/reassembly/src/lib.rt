//! Datagrams put together from their fragments (RFC 791 section 3.2), within a time (RFC 1122 section 3.3.2).
#![tactic(auto)]

mod assembled;
mod buffer;
mod expired;
mod fault;
mod finished;
mod fragment;
mod gathered;
mod key;
mod lately;
pub mod laws;
mod pending;
mod place;
mod pool;
mod quote;

pub use assembled::{Assembled, Loss, Whole};
pub use expired::Expired;
pub use fault::PoolFault;
pub use finished::Finished;
pub use key::Key;
pub use lately::{Lately, MOST_LATELY};
pub use pool::{MOST_PLACES, Pool};
pub use quote::Quote;
