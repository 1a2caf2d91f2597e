//! The entries of the table by their local port and their peer, so that what arrives finds its own by binary search.

ghost use Rattle.std.specs.Prelude.{◌≡◌, ◌<◌, ◌≤◌, ◌-◌, List, length, true, false};
ghost use Rattle.std.specs.List.{slice_index_or};
ghost use Rattle.std.specs.List.Sorted.{IsPartitionPoint};
ghost use Rattle.sockets.specs.Index.{key_of, filed, is_before, AreSorted, inserted, with_filed, no_peer};
ghost use Rattle.sockets.specs.declared.index.Filed.{Filed};

use crate::entry::{Entry, SocketId};
use crate::role::Role;
use fixed_vec::FixedVec;
use ipv4::{Addr, Endpoint};

/// How many ports a host has.
const PORTS: u64 = 65_536;

/// How many peers there may be: so many addresses, and at each so many ports.
pub(crate) const PEERS: u64 = 281_474_976_710_656;

/// The peer of what has none.
const NO_PEER: Endpoint = Endpoint {
    addr: Addr([0; 4]),
    port: 0,
};

/// An entry of the table that has a local port: the number of that and of its peer, by which it is found, and its id.
#[derive(Clone, Copy, PartialEq, Eq, Debug)]
pub struct Filed {
    pub(crate) key: u64,
    pub(crate) id: SocketId,
}

impl Filed {
    /// Whether this one stands before another: by the key, and at the same key by the id.
    fn is_before(&self, other: Filed) -> bool
        ensures { result ≡ is_before self.now other }
    {
        self.key < other.key || (self.key == other.key && self.id.0 < other.id.0)
    }
}

impl Role {
    ghost use Rattle.sockets.specs.Index.{port_and_peer};

    /// The local port of an entry and its peer, where it has a port: a connection in any state, a listener, or a socket that is bound.
    fn port_and_peer(&self) -> Option<(u16, Endpoint)>
        ensures { result ≡ port_and_peer self.now }
    {
        match self {
            Role::Connected { connection, .. } => {
                Some((connection.local().port, connection.peer()))
            }
            Role::Listener { local, .. } => Some((local.port, NO_PEER)),
            Role::Idle { bound, .. } | Role::Datagrams { bound, .. } => {
                bound.map(|local| (local.port, NO_PEER))
            }
        }
    }
}

/// A local port and a peer as one number, which halves compare. The local address is that of the table, so it has no part in it.
pub(crate) fn key_of(port: u16, peer: Endpoint) -> u64
    ensures { result ≡ key_of port peer }
{
    let host = u64::from(u32::from_be_bytes(peer.addr.0));
    u64::from(port) * PEERS + (host * PORTS + u64::from(peer.port))
}

/// The key of what has a local port and no peer.
pub(crate) fn key_at(port: u16) -> u64
    ensures { result ≡ key_of port no_peer }
{
    key_of(port, NO_PEER)
}

/// What an entry is filed as, where it has a local port.
pub(crate) fn filing(entry: &Entry) -> Option<Filed>
    ensures { result ≡ filed entry.now }
{
    let (port, peer) = entry.role.port_and_peer()?;
    let key = key_of(port, peer);
    Some(Filed { key, id: entry.id })
}

/// Files the entry as what it is now, where it was filed as this. Its new place is looked for at `near` first.
pub(crate) fn refile(index: &mut FixedVec<Filed>, near: usize, before: Option<Filed>, entry: &Entry)
    requires { (rest : List Filed) × AreSorted rest × (index.old.items ≡ with_filed before rest) × (length rest < index.old.most) }
    ensures most { index.new.most ≡ index.old.most }
    ensures items { (rest : List Filed) → AreSorted rest → index.old.items ≡ with_filed before rest → index.new.items ≡ with_filed (filed entry.now) rest }
{
    let after = filing(entry);
    if before == after {
        return;
    }
    unfile(index, before);
    file(index, near, after);
}

/// Files a further entry, whose place is looked for at `near` first.
fn file(index: &mut FixedVec<Filed>, near: usize, filed: Option<Filed>)
    requires sorted { AreSorted index.old.items }
    requires room { length index.old.items < index.old.most }
    ensures most { index.new.most ≡ index.old.most }
    ensures items { index.new.items ≡ with_filed filed index.old.items }
{
    let Some(filed) = filed else {
        return;
    };
    let place = place_for(index, near, filed);
    index.insert(place, filed);
}

/// Takes out an entry that is filed as this.
pub(crate) fn unfile(index: &mut FixedVec<Filed>, filed: Option<Filed>)
    requires { (rest : List Filed) × AreSorted rest × (index.old.items ≡ with_filed filed rest) }
    ensures most { index.new.most ≡ index.old.most }
    ensures items { (rest : List Filed) → AreSorted rest → index.old.items ≡ with_filed filed rest → index.new.items ≡ rest }
{
    let Some(filed) = filed else {
        return;
    };
    let place = index.partition_point(|other| other.is_before(filed));
    index.remove(place);
}

/// Where this one is filed, or would be, behind all that stand before it: in the place `near`, where that is so, and else by binary search.
#[inline(always)]
pub(crate) fn place_for(index: &[Filed], near: usize, filed: Filed) -> usize
    requires { AreSorted index.now }
    ensures place { IsPartitionPoint (λ other. is_before other filed ≡ true) (λ other. is_before other filed ≡ false) index.now result }
    ensures within { result ≤ length index.now }
{
    if belongs_at(index, near, filed) {
        return near;
    }
    index.partition_point(|other| other.is_before(filed))
}

/// Whether what is filed in front of this place stands before this one, and what is filed in it does not.
#[inline(always)]
fn belongs_at(index: &[Filed], place: usize, filed: Filed) -> bool
    ensures within { result ≡ true → place ≤ length index.now }
    ensures before { result ≡ true → (d : Filed) → 0 < place → is_before (slice_index_or index.now (place - 1) d) filed ≡ true }
    ensures here { result ≡ true → (d : Filed) → place < length index.now → is_before (slice_index_or index.now place d) filed ≡ false }
{
    place <= index.len()
        && (place == 0 || index[place - 1].is_before(filed))
        && (place == index.len() || !index[place].is_before(filed))
}
