//! Captures: the classic file format of libpcap, in which tcpdump keeps the frames of an Ethernet link. One file is written,
//! a header and then a record a frame, and files in either byte order are read.
#![tactic(auto)]

mod fault;
mod format;
mod header;
pub mod laws;
mod reader;
mod record;

pub use fault::{HeaderFault, RecordFault};
pub use format::{Format, Fraction, Order};
pub use header::{HEADER_LEN, Header, file_head};
pub use reader::Reader;
pub use record::{MOST_OCTETS, RECORD_HEAD_LEN, RecordView, record_head};
