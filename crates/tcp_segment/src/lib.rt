//! TCP's segments on the wire: sequence numbers, the header and its options, both ways (RFC 9293
//! section 3.1).
#![tactic(auto)]

mod blocks;
mod fault;
mod flags;
mod head;
pub mod laws;
mod options;
mod seq;
mod sum;
mod view;

/// The length of a header without options, in octets (RFC 9293 section 3.1).
const FIXED_LEN: usize = 20;

/// The maximum segment size that this stack sends as an option, in octets (RFC 9293 section 3.7.1).
pub const MSS: u16 = 1460;

/// The maximum segment size of a peer that sends no MSS option (RFC 9293 section 3.7.1).
pub const DEFAULT_MSS: u16 = 536;

/// A lesser MSS option counts as this.
pub const LEAST_MSS: u16 = 64;

/// The shift that this stack sends in a window scale option: its windows are told in units of 2^5 octets (RFC 7323 section 2.2).
pub const SHIFT: u8 = 5;

/// A greater shift in a window scale option counts as this (RFC 7323 section 2.3).
pub const MAX_SHIFT: u8 = 14;

/// The most blocks that an option of selective acknowledgement has room for (RFC 2018 section 3).
pub const MOST_BLOCKS: usize = 4;

pub use blocks::{Block, Blocks};
pub use fault::SegmentFault;
pub use flags::Flags;
pub use head::Head;
pub use seq::Seq;
pub use view::TcpView;
