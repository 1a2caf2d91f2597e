//! The openings so far, and how many octets each took from its caller.

ghost use Rattle.std.specs.Prelude.{◌≡◌, ℕ, ◌+◌, ◌<◌, ◌≤◌, ◌^◌, [], ◌∷◌, ◌++◌, length, vec_len, vec_capacity, slice_index_or, IsOk, OnOk};
ghost use Rattle.ipv4.specs.declared.addr.Pair.{Pair};
ghost use Rattle.std.specs.List.{list_any};
ghost use Rattle.wire_sim.specs.Tallies.{is_opening_of, written_by, counts_after};
ghost use Rattle.wire_sim.specs.Openings.{epoch_of};
ghost use Rattle.wire_sim.specs.Filing.{IsFiled, by_pair, by_epoch, by_socket, end_number, pair_number, epoch_number};

mod chains;

use crate::event::Opening;
use chains::Chains;
use host::SocketId;
use ipv4::{Endpoint, Pair};
use sides::Side;
use std::alloc::{AllocError, Global};

/// How many openings there is room for once there is one.
const FIRST_OPENINGS: usize = 64;

/// The openings in order, and beside each the octets that `send` accepted on its id. They are found by their pair, by their pair in an epoch,
/// and by their id.
#[derive(Drop)]
pub(super) struct Ledger {
    openings: Vec<Opening>,
    written: Vec<u128>,
    pairs: Chains,
    connections: Chains,
    sockets: Chains,
    ghost epochs: { (pair : Pair) → epoch_of openings.items pair ≤ vec_len openings },
    ghost counted: { vec_len written ≡ vec_len openings },
    ghost pairs_filed: { IsFiled by_pair openings.items pairs.numbers.items },
    ghost connections_filed: { IsFiled by_epoch openings.items connections.numbers.items },
    ghost sockets_filed: { IsFiled by_socket openings.items sockets.numbers.items },
    ghost pairs_room: { vec_capacity openings ≤ vec_capacity pairs.numbers },
    ghost connections_room: { vec_capacity openings ≤ vec_capacity connections.numbers },
    ghost sockets_room: { vec_capacity openings ≤ vec_capacity sockets.numbers },
}

impl Ledger {
    /// No openings.
    pub(super) fn new(alloc: Global) -> Ledger
        ensures openings { result.openings.items ≡ [] }
        ensures written { result.written.items ≡ [] }
    {
        Ledger {
            openings: Vec::new(alloc),
            written: Vec::new(alloc),
            pairs: Chains::new(alloc),
            connections: Chains::new(alloc),
            sockets: Chains::new(alloc),
        }
    }

    /// Makes room for `more` openings. It fails only where that room was missing.
    pub(super) fn reserve(&mut self, more: usize) -> Result<(), AllocError>
        ensures openings_room { OnOk result (vec_len self.new.openings + more ≤ vec_capacity self.new.openings) }
        ensures written_room { OnOk result (vec_len self.new.written + more ≤ vec_capacity self.new.written) }
        ensures openings { self.new.openings.items ≡ self.old.openings.items }
        ensures written { self.new.written.items ≡ self.old.written.items }
        ensures room { vec_len self.old.openings + more ≤ vec_capacity self.old.openings → vec_len self.old.written + more ≤ vec_capacity self.old.written → IsOk result }
        ensures openings_kept { vec_capacity self.old.openings ≤ vec_capacity self.new.openings }
        ensures written_kept { vec_capacity self.old.written ≤ vec_capacity self.new.written }
    {
        if self.openings.capacity() - self.openings.len() < more {
            self.grow(more)?;
        }
        self.written.reserve(more)
    }

    /// Makes room for `more` openings, or for as many as there was room for where that is more, and before that for what they are filed under.
    fn grow(&mut self, more: usize) -> Result<(), AllocError>
        ensures room { OnOk result (vec_len self.new.openings + more ≤ vec_capacity self.new.openings) }
        ensures kept { vec_capacity self.old.openings ≤ vec_capacity self.new.openings }
        ensures openings { self.new.openings.items ≡ self.old.openings.items }
        ensures written { self.new.written ≡ self.old.written }
    {
        let len = self.openings.len();
        let more = more.max(self.openings.capacity()).max(FIRST_OPENINGS);
        // More than there can be is more than there is memory for, so the growth itself refuses it.
        let room = len.saturating_add(more);
        self.pairs.reserve(room)?;
        self.connections.reserve(room)?;
        self.sockets.reserve(room)?;
        self.openings.reserve_exact(more)
    }

    /// The openings, in order.
    pub(super) fn openings(&self) -> &[Opening]
        ensures { result.now ≡ self.now.openings.items }
    {
        self.openings.as_slice()
    }

    /// Adds an opening, for which there is room.
    pub(super) fn open(&mut self, opening: Opening)
        requires openings { vec_len self.old.openings < vec_capacity self.old.openings }
        requires written { vec_len self.old.written < vec_capacity self.old.written }
        requires epoch { opening.epoch ≤ vec_len self.old.openings + 1 }
        ensures openings { self.new.openings.items ≡ self.old.openings.items ++ opening ∷ [] }
        ensures written { self.new.written.items ≡ self.old.written.items ++ 0 ∷ [] }
        ensures openings_room { vec_capacity self.new.openings ≡ vec_capacity self.old.openings }
        ensures written_room { vec_capacity self.new.written ≡ vec_capacity self.old.written }
    {
        self.pairs.push(pair_number(opening.pair));
        self.connections
            .push(connection_number(opening.pair, opening.epoch));
        self.sockets.push(opening.id.0);
        self.openings.push_reserved(opening);
        self.written.push_reserved(0);
    }

    /// The present epoch of a pair: that of its last opening, or 0 where it has none.
    pub(super) fn epoch(&self, pair: Pair) -> u64
        ensures epoch { result ≡ epoch_of self.now.openings.items pair }
        ensures bound { result ≤ vec_len self.now.openings }
    {
        let mut front = self.pairs.front(pair_number(pair));
        while front > 0 {
            let opening = &self.openings[front - 1];
            if opening.pair == pair {
                return opening.epoch;
            }
            front = self.pairs.before(front - 1);
        }
        0
    }

    /// Whether a side's host opened the pair in this epoch.
    pub(super) fn has(&self, side: Side, pair: Pair, epoch: u64) -> bool
        ensures { result ≡ list_any (is_opening_of side pair epoch) self.now.openings.items }
    {
        let mut front = self.connections.front(connection_number(pair, epoch));
        while front > 0 {
            if self.openings[front - 1].is_of(side, pair, epoch) {
                return true;
            }
            front = self.connections.before(front - 1);
        }
        false
    }

    /// Counts octets that a side's host took from the caller of `id`.
    pub(super) fn wrote(&mut self, side: Side, id: SocketId, octets: usize)
        requires { (i : ℕ) → slice_index_or self.old.written.items i 0 < 2 ^ 127 }
        ensures openings { self.new.openings.items ≡ self.old.openings.items }
        ensures written { self.new.written.items ≡ counts_after self.old.openings.items self.old.written.items side id octets }
        ensures openings_room { vec_capacity self.new.openings ≡ vec_capacity self.old.openings }
        ensures written_room { vec_capacity self.new.written ≡ vec_capacity self.old.written }
    {
        count(
            self.openings.as_slice(),
            &self.sockets,
            self.written.as_mut_slice(),
            side,
            id,
            octets,
        );
    }

    /// How many octets a side's host took for this pair in this epoch.
    pub(super) fn written(&self, side: Side, pair: Pair, epoch: u64) -> u128
        ensures { result ≡ written_by self.now.openings.items self.now.written.items side pair epoch }
    {
        let mut octets = 0;
        let mut front = self.connections.front(connection_number(pair, epoch));
        while front > 0 {
            // Of several openings the first one counts, which comes last here.
            if self.openings[front - 1].is_of(side, pair, epoch) {
                octets = self.written[front - 1];
            }
            front = self.connections.before(front - 1);
        }
        octets
    }
}

/// Counts octets beside each opening by which the host of `side` made the entry `id`.
fn count(
    openings: &[Opening],
    sockets: &Chains,
    written: &mut [u128],
    side: Side,
    id: SocketId,
    octets: usize,
)
    requires filed { IsFiled by_socket openings.now sockets.now.numbers.items }
    requires counted { length written.old ≡ length openings.now }
    requires below { (i : ℕ) → slice_index_or written.old i 0 < 2 ^ 127 }
    ensures { written.new ≡ counts_after openings.now written.old side id octets }
{
    let mut front = sockets.front(id.0);
    while front > 0 {
        let place = front - 1;
        if openings[place].is_at(side, id) {
            written[place] = grown(written[place], octets);
        }
        front = sockets.before(place);
    }
}

/// A count, once so many octets more were taken.
fn grown(count: u128, octets: usize) -> u128
    requires { count < 2 ^ 127 }
    ensures { result ≡ count + octets }
{
    count + octets as u128
}

/// What a connection is filed under: its pair and its epoch.
fn connection_number(pair: Pair, epoch: u64) -> u64
    ensures { result ≡ epoch_number pair epoch }
{
    pair_number(pair).wrapping_add(epoch)
}

/// What a pair is filed under.
fn pair_number(pair: Pair) -> u64
    ensures value { result ≡ pair_number pair }
{
    end_number(pair.first) + 28_629_151 * end_number(pair.second)
}

/// What an end of a pair is filed under, by its octets and its port.
fn end_number(end: Endpoint) -> u64
    ensures value { result ≡ end_number end }
    ensures bound { result < 2 ^ 36 }
{
    let [a, b, c, d] = end.addr.0;
    u64::from(a)
        + 31 * u64::from(b)
        + 961 * u64::from(c)
        + 29_791 * u64::from(d)
        + 923_521 * u64::from(end.port)
}
