//! IPv4's addresses and prefixes, its datagrams both ways, and the endpoints of what stands on it (RFC 791).
#![tactic(auto)]

mod addr;
mod fault;
mod fragment;
mod head;
pub mod laws;
mod limits;
mod prefix;
mod protocol;
mod sum;
mod view;

pub use addr::{Addr, Endpoint, Pair};
pub use fault::Ipv4Fault;
pub use head::{HEADER_LEN, Head};
pub use limits::{ERROR_QUOTE, MAX_PAYLOAD, PAYLOAD_IN_FRAME};
pub use prefix::{Prefix, PrefixFault};
pub use protocol::Protocol;
pub use sum::{pseudo_between, sum_between};
pub use view::{Ipv4View, VERSION, WORD};
