//! The host for programs in C: each call of `host::Host` as a function on a handle, and nothing else. A handle is one pointer, which holds
//! a host or none. It is used by one thread at a time.
#![tactic(auto)]

mod calls;
mod config;
mod convert;
mod counted;
mod counts;
mod datagrams;
mod handle;
mod info;
mod link;
mod parts;
mod questions;
mod ready;
mod setup;
mod types;
mod version;

pub use config::Config;
pub use handle::Handle;
pub use types::{End, HostRoute};
