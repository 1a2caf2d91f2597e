//! The queue of the control replies that wait.

ghost use Rattle.std.specs.Prelude.{◌≡◌, ◌<◌, ℕ, List, [], length, remove, true, false, IfOk, OnOk};
ghost use Rattle.interface.specs.declared.reply.Reply.{Reply};
ghost use Rattle.interface.specs.Queue.{has_no_place, joined, join_answer, has_room};

use crate::reply::{QueueFault, Reply, Waiting};
use crate::room::Room;
use clock::Moment;
use fixed_vec::FixedVec;
use std::alloc::{AllocError, Global};
use std::marker::Model;

/// The control replies that wait, in order, at most so many as the queue was made for, and a room for each that may come to need one. A
/// clause sees the replies, and how many may wait.
#[derive(Drop)]
pub(crate) struct Queue {
    replies: FixedVec<Waiting>,
    spare: Vec<Room>,
}

impl Model for Queue {
    ghost use Rattle.std.specs.Prelude.{◌≡◌, ◌≤◌, ◌+◌};
    ghost use Rattle.std.specs.Vec.{vec_len, vec_capacity};
    ghost use Rattle.interface.specs.Queue.{QueueView, rooms_held};

    ghost Value = { QueueView };

    ghost view = { λ q. record { most = q.replies.most; replies = q.replies.items } };

    ghost invariant = { λ q. (vec_len q.spare + rooms_held q.replies.items ≡ q.replies.most) × (q.replies.most ≤ vec_capacity q.spare) };
}

impl Queue {
    /// A queue in which nothing waits and so many replies may, and all its rooms. Fails only where memory is refused.
    pub(crate) fn new(alloc: Global, most: usize) -> Result<Queue, AllocError>
        ensures { IfOk result (λ queue. queue ≡ record { most = most; replies = [] }) }
    {
        let mut spare = Vec::with_capacity(alloc, most)?;
        for _ in 0..most {
            spare.push(Room::new(alloc)?)?;
        }
        Ok(Queue {
            replies: FixedVec::new(alloc, most)?,
            spare,
        })
    }

    /// The replies that wait.
    pub(crate) fn as_slice(&self) -> &[Waiting]
        ensures { result.now ≡ self.now.replies }
    {
        self.replies.as_slice()
    }

    /// How many wait.
    pub(crate) fn len(&self) -> usize
        ensures { result ≡ length self.now.replies }
    {
        self.replies.len()
    }

    /// Whether as many wait as may.
    pub(crate) fn is_full(&self) -> bool
        ensures { result ≡ has_no_place self.now }
    {
        self.replies.is_full()
    }

    /// Takes a reply that needs no room. NoRoom where as many wait already as may, and then nothing has changed.
    pub(crate) fn push(&mut self, now: Moment, reply: Reply) -> Result<(), QueueFault>
        requires { has_room reply ≡ false }
        ensures after { self.new ≡ joined now reply self.old }
        ensures answer { result ≡ join_answer self.old }
    {
        self.check_place()?;
        self.replies.push(Waiting { since: now, reply });
        Ok(())
    }

    /// Takes a reply that is made in a room of its own. NoRoom where as many replies wait already as may, and then nothing has changed. It
    /// takes no memory.
    #[tactic(auto, using(crate::proofs::Rooms::some_spare))]
    pub(crate) fn push_made<F: FnOnce(Room) -> Reply>(
        &mut self,
        now: Moment,
        make: F,
    ) -> Result<(), QueueFault>
        requires callable { F.IsAlwaysCallable make }
        requires roomy { (room : List ℕ) (made : Reply) → F.post make room made → has_room made ≡ true }
        ensures after { (reply : Reply) → ((room : List ℕ) (made : Reply) → F.post make room made → made ≡ reply) → self.new ≡ joined now reply self.old }
        ensures answer { result ≡ join_answer self.old }
    {
        self.check_place()?;
        let made = make(self.spare.take_last());
        self.replies.push(Waiting {
            since: now,
            reply: made,
        });
        Ok(())
    }

    /// Refuses where as many replies wait already as may.
    fn check_place(&self) -> Result<(), QueueFault>
        ensures answer { result ≡ join_answer self.now }
        ensures room { OnOk result (length self.now.replies < self.now.most) }
    {
        if self.replies.is_full() {
            return Err(QueueFault::NoRoom);
        }
        Ok(())
    }

    /// Drops the reply at a place, whose room can be filled anew then. The others stay, in order.
    pub(crate) fn remove(&mut self, place: usize)
        requires { place < length self.old.replies }
        ensures replies { self.new.replies ≡ remove self.old.replies place }
        ensures most { self.new.most ≡ self.old.most }
    {
        let waiting = self.replies.remove(place);
        if let Some(room) = waiting.reply.into_room() {
            self.spare.push_reserved(room);
        }
    }
}
