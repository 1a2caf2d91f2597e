//! UDP datagrams on the wire both ways (RFC 768), the fragments that a long one goes out in (RFC 791 section 3.2), and the
//! queues in which datagrams wait.
#![tactic(auto)]

mod cutting;
mod fault;
mod head;
pub mod laws;
mod sum;
mod view;
mod waiting;

pub use cutting::{Fragment, FragmentIter, MOST_IN_FRAGMENT, Part, fragments};
pub use fault::UdpFault;
pub use head::{HEADER_LEN, Head};
pub use view::UdpView;
pub use waiting::{
    CAPACITY, COUNTED_BESIDE, Entry, MOST_WAITING, MakingFault, Queue, QueueFault,
    bring_range_forward,
};
