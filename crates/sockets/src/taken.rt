//! What the table makes of a segment that is handed to it.

use tcp_segment::Head;

/// What the table makes of a segment. Only with `Done` may it have changed.
#[derive(Clone, Copy, PartialEq, Eq, Debug)]
pub enum Taken {
    /// The segment is taken.
    Done,
    /// It would open a connection, and there is no place in the backlog or the table, no id or no memory.
    NoRoom,
    /// It is to be answered by a reset with this header and no octets (RFC 9293 section 3.5.2), between the same two addresses.
    Answer(Head),
}
