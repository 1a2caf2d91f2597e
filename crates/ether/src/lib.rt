//! Ethernet II frames (RFC 894): the head, the payload, and the padding of short ones.
#![tactic(auto)]

mod head;
pub mod laws;
mod mac;
mod view;

pub use head::{
    ETHERTYPE_ARP, ETHERTYPE_IPV4, FRAME_MAX, HEADER_LEN, Head, LEAST_PAYLOAD, MOST_PAYLOAD,
};
pub use mac::{Mac, is_whole_mac};
pub use view::{EtherView, FrameFault};
