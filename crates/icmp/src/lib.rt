//! ICMP messages both ways: echo requests and their replies, and errors (RFC 792, RFC 1122 section 3.2.2).
#![tactic(auto)]

mod answer;
mod error;
mod fault;
mod head;
mod kind;
pub mod laws;
mod quote;
mod reply;
mod view;

pub use answer::may_answer;
pub use error::{QUOTED_LEN, Reason, emit_error};
pub use fault::IcmpFault;
pub use head::HEADER_LEN;
pub use kind::Kind;
pub use quote::Quote;
pub use reply::emit_echo_reply;
pub use view::IcmpView;
