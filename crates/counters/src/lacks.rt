//! The counts of frames that were dropped for want of room, by what there was none of.

ghost use Rattle.std.specs.Prelude.{◌≡◌};
ghost use Rattle.counters.specs.Counting.{after_lack, no_lacks};

use crate::counters::raise;
use host::Lack;

/// How many frames were dropped for want of room, NoRoom, by what there was none of.
#[derive(Clone, Copy, Default, PartialEq, Eq, Debug)]
pub struct Lacks {
    /// `Lack::Backlog`: a place at the listener.
    pub backlog: u64,
    /// `Lack::Table`: a place in the table of sockets, or an id.
    pub table: u64,
    /// `Lack::Memory`: the buffers of a connection.
    pub memory: u64,
    /// `Lack::Replies`: a place among the control replies.
    pub replies: u64,
    /// `Lack::Queue`: room in the queue of a UDP socket.
    pub queue: u64,
    /// `Lack::Reassembly`: a place for the datagram of a fragment.
    pub reassembly: u64,
    /// `Lack::Route`: a route to the source of a SYN.
    pub route: u64,
}

impl Lacks {
    /// All at 0.
    pub(crate) fn new() -> Lacks
        ensures { result ≡ no_lacks }
    {
        Lacks {
            backlog: 0,
            table: 0,
            memory: 0,
            replies: 0,
            queue: 0,
            reassembly: 0,
            route: 0,
        }
    }

    /// Counts a frame that found no room at this; nothing where there is none such.
    pub(crate) fn count(&mut self, lack: Option<Lack>)
        ensures { self.new ≡ after_lack lack self.old }
    {
        match lack {
            Some(Lack::Backlog) => raise(&mut self.backlog, 1),
            Some(Lack::Table) => raise(&mut self.table, 1),
            Some(Lack::Memory) => raise(&mut self.memory, 1),
            Some(Lack::Replies) => raise(&mut self.replies, 1),
            Some(Lack::Queue) => raise(&mut self.queue, 1),
            Some(Lack::Reassembly) => raise(&mut self.reassembly, 1),
            Some(Lack::Route) => raise(&mut self.route, 1),
            None => {}
        }
    }
}
