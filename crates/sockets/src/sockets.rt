//! The table itself: what it holds, its clock, and the questions that change nothing.

ghost use Rattle.std.specs.Prelude.{◌≡◌, ◌≤◌, Some, None, Bool, IfOk};

use crate::entry::{Entry, SocketId};
use crate::index::Filed;
use crate::outlook::Outlook;
use crate::sizes::Sizes;
use crate::{ports, table};
use clock::Moment;
use fixed_vec::FixedVec;
use ipv4::{Addr, Pair};
use std::alloc::{AllocError, Global};
use std::marker::Model;
use tcp_state::Manner;

/// The table of the sockets and connections over one address.
pub struct Sockets {
    pub(crate) alloc: Global,
    pub(crate) addr: Addr,
    pub(crate) manner: Manner,
    pub(crate) kept: Moment,
    pub(crate) last_port: u16,
    pub(crate) last_id: u64,
    pub(crate) identification: u16,
    pub(crate) sizes: Sizes,
    pub(crate) entries: FixedVec<Entry>,
    pub(crate) ends: FixedVec<Filed>,
    /// Where the connection that a segment was for last was filed then, or would have been: so the next one is mostly found without a search.
    pub(crate) filed: usize,
    pub(crate) outlook: Outlook,
    pub(crate) offered: FixedVec<SocketId>,
    /// The entry that sent last.
    pub(crate) turn: SocketId,
}

impl Model for Sockets {
    ghost use Rattle.std.specs.Prelude.{◌≡◌, ◌≤◌};
    ghost use Rattle.sockets.specs.SocketsView.{SocketsView};

    ghost Value = { SocketsView };

    ghost view = { λ h. record {
      addr = h.addr;
      manner = h.manner;
      kept = h.kept;
      last_port = h.last_port;
      last_id = h.last_id;
      identification = h.identification;
      sizes = h.sizes;
      entries = h.entries.items;
      offered = h.offered.items;
      turn = h.turn;
    } };

    ghost use Rattle.sockets.specs.Ids.{AreAscending};
    ghost use Rattle.sockets.specs.Index.{index_of};
    ghost use Rattle.sockets.specs.Outlook.{IsOutlook};
    ghost use Rattle.sockets.specs.SocketsView.{HasPlaces};

    ghost invariant = { λ h. ((49152 ≤ h.last_port) × HasPlaces h.sizes h.entries.most h.ends.most h.offered.most)
        × AreAscending 0 h.last_id h.entries.items × (h.ends.items ≡ index_of h.entries.items)
        × IsOutlook h.outlook h.sizes.entries h.entries.items };
}

// Written out: the proof of what lets a table go then has one call, and not each part of it.
impl Drop for Sockets {
    fn drop(self) {
        let Sockets {
            alloc: _,
            addr: _,
            manner: _,
            kept: _,
            last_port: _,
            last_id: _,
            identification: _,
            sizes: _,
            entries: _,
            ends: _,
            filed: _,
            outlook: _,
            offered: _,
            turn: _,
        } = self;
    }
}

#[tactic(auto, using(crate::proofs::Firsts::firsts))]
impl Sockets {
    ghost use Rattle.sockets.specs.SocketsView.{IsSizes, later_moment, holder_id, new_sockets};
    ghost use Rattle.sockets.specs.Ticks.{after_tick, least_deadline};
    ghost use Rattle.sockets.specs.Lost.{after_giving_up};
    ghost use Rattle.ipv4.specs.declared.addr.Addr.{Addr};
    ghost use Rattle.sockets.specs.Pairs.{socket_pair};
    ghost use Rattle.sockets.specs.Sound.{IsSoundTable};
    ghost use Rattle.marks.specs.First.{first_from};
    ghost use Rattle.sockets.specs.Outlook.{is_busy_entry};

    /// A table of this size with no sockets, whose kept moment is 0, and whose connections behave so. Fails only where memory is refused.
    pub fn new(
        alloc: Global,
        addr: Addr,
        manner: Manner,
        sizes: Sizes,
    ) -> Result<Sockets, AllocError>
        requires { IsSizes sizes }
        ensures { IfOk result (λ table. table ≡ new_sockets addr manner sizes) }
    {
        Ok(Sockets {
            alloc,
            addr,
            manner,
            kept: Moment(0),
            last_port: ports::LAST,
            last_id: 0,
            identification: 0,
            sizes,
            entries: FixedVec::new(alloc, sizes.entries)?,
            ends: FixedVec::new(alloc, sizes.entries)?,
            filed: 0,
            outlook: Outlook::new(alloc, sizes.entries)?,
            offered: FixedVec::new(alloc, sizes.entries)?,
            turn: SocketId(0),
        })
    }

    /// The address over which the table is.
    pub fn addr(&self) -> Addr
        ensures { result ≡ self.now.addr }
    {
        self.addr
    }

    /// Whether the host is on its guard.
    pub fn is_guarded(&self) -> bool
        ensures { result ≡ self.now.manner.guards }
    {
        self.manner.guards
    }

    /// The kept moment: the latest of those of the ticks so far.
    pub fn kept(&self) -> Moment
        ensures { result ≡ self.now.kept }
    {
        self.kept
    }

    /// The entries, in order of id.
    pub fn entries(&self) -> &[Entry]
        ensures { result.now ≡ self.now.entries }
    {
        &self.entries
    }

    /// Moves the kept moment forward to `now`, and lets each timer act whose moment has come. It never goes back. A
    /// connection that its caller closed is gone once its wait is over.
    pub fn tick(&mut self, now: Moment)
        ensures { self.new ≡ after_tick self.old now }
    {
        let now = self.later_moment(now);
        self.kept = now;
        table::tick(&mut self.entries, &mut self.ends, &mut self.outlook, now);
    }

    /// The least moment at which a tick does something.
    pub fn next_deadline(&self) -> Option<Moment>
        ensures { result ≡ least_deadline self.now }
    {
        self.outlook.least_deadline(&self.entries)
    }

    /// The place of the first entry from the place `from` on that is busy: it has something to send, or waits for the hop to its peer.
    pub fn next_busy(&self, from: usize) -> Option<usize>
        ensures { result ≡ first_from is_busy_entry from self.now.entries }
    {
        self.outlook.next_busy(&self.entries, from)
    }

    /// The entry with a connection of this pair in any state but CLOSED.
    pub fn holds(&self, pair: Pair) -> Option<SocketId>
        ensures { result ≡ holder_id self.now pair }
    {
        let place = self.holder(pair)?;
        Some(self.entries[place].id)
    }

    /// The pair of the connection of the socket `id`.
    pub fn pair_of(&self, id: SocketId) -> Option<Pair>
        ensures { result ≡ socket_pair self.now id }
    {
        let place = table::socket_of(&self.entries, self.outlook.at_hand(), id)?;
        self.entries[place].role.pair()
    }

    /// Gives up each reset of an abort that is owed to a peer at a lost address, which `lost` says, and has waited for 3,000 ms or more at the
    /// later of `now` and the kept moment: its connection is taken out of the table. So does a UDP socket give up each datagram to a lost
    /// address that has waited as long. A connection to a lost address that has had something with numbers to send for 483,000 ms, or for
    /// 3,000 ms in SYN-RECEIVED of a listener, and of which nothing is outstanding, ends as at its last expiry: its caller is told ETIMEDOUT,
    /// and one that its caller closed or that waits at a listener in SYN-RECEIVED is taken out. All else stays, in order.
    pub fn give_up<F: Fn(Addr) -> bool>(&mut self, now: Moment, lost: F)
        requires { F.IsAlwaysCallable lost }
        ensures { (test : Addr → Bool) → ((addr : Addr) (answer : Bool) → F.post lost addr answer → answer ≡ test addr) → self.new ≡ after_giving_up self.old test now }
    {
        let now = self.later_moment(now);
        table::give_up(
            &mut self.entries,
            &mut self.ends,
            &mut self.outlook,
            now,
            &lost,
        );
    }

    /// What each connection keeps of itself, for the contracts above; it changes nothing.
    pub fn sound(&self)
        ensures { IsSoundTable self.now }
    {
        table::sound(&self.entries);
    }

    /// The later of `now` and the kept moment.
    pub fn later_moment(&self, now: Moment) -> Moment
        ensures { result ≡ later_moment self.now now }
    {
        if now > self.kept { now } else { self.kept }
    }
}
