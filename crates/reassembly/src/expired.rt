//! What is left of a datagram whose time ran out.

use crate::key::Key;
use crate::quote::Quote;

/// A datagram whose time ran out after its fragment zero came: an error message is owed to its source (RFC 792, RFC 1122
/// section 3.3.2).
#[derive(Drop)]
pub struct Expired {
    /// What its fragments have in common.
    pub key: Key,
    /// What the message quotes: that of the fragment zero which came last.
    pub quote: Quote,
}

impl Default for Expired {
    /// What stands in a place that is not in use.
    fn default() -> Expired {
        Expired {
            key: Key::default(),
            quote: Quote::default(),
        }
    }
}
