//! What the table has at a local port or between two ends, found by the index: nothing here walks over all entries.

ghost use Rattle.std.specs.Prelude.{◌≡◌, ◌<◌, ◌≤◌, Bool, true, false, nat_lt, length, Some, IfSome, is_some, position};
ghost use Rattle.std.specs.List.{list_any};
ghost use Rattle.std.specs.List.Sorted.{IsPartitionPoint};
ghost use Rattle.sockets.specs.Entries.{is_between, is_of_pair, has_port, is_bound_at, is_datagrams_at, is_listening_at};
ghost use Rattle.sockets.specs.Ids.{AreInOrder};
ghost use Rattle.sockets.specs.Index.{key_of, index_of, is_sought_in, is_sought_as, low_key, high_key};
ghost use Rattle.sockets.specs.declared.index.Filed.{Filed};

use crate::entry::{Entry, SocketId};
use crate::index::{Filed, PEERS, key_at, key_of, place_for};
use crate::outlook::first_of;
use crate::role::Role;
use crate::sockets::Sockets;
use crate::table::place_near;
use ipv4::{Endpoint, Pair};

/// What is looked for, by the keys under which it is filed.
#[derive(Clone, Copy)]
enum Sought {
    /// The connection between two ends, in any state but CLOSED.
    Connection { local: Endpoint, peer: Endpoint },
    /// The listener at a local port.
    Listener { port: u16 },
    /// The UDP socket that is bound to a port.
    Datagrams { port: u16 },
    /// What has a local port over TCP.
    Stream { port: u16 },
    /// A TCP socket that has a local port.
    Socket { port: u16 },
}

impl Sought {
    ghost use Rattle.sockets.specs.Index.{is_sought};

    /// The least key under which it may be filed, and the greatest: the same where its peer is told or it has none, else the first and the last of its port.
    fn keys(self) -> (u64, u64)
        ensures low { result.0 ≡ low_key self }
        ensures high { result.1 ≡ high_key self }
    {
        match self {
            Sought::Connection { local, peer } => {
                let key = key_of(local.port, peer);
                (key, key)
            }
            Sought::Listener { port } | Sought::Datagrams { port } => {
                let key = key_at(port);
                (key, key)
            }
            Sought::Stream { port } | Sought::Socket { port } => {
                let low = u64::from(port) * PEERS;
                (low, low + (PEERS - 1))
            }
        }
    }

    /// Whether this role is what is looked for.
    fn is_met(self, role: &Role) -> bool
        ensures { result ≡ is_sought self role.now }
    {
        match self {
            Sought::Connection { local, peer } => role.is_live_between(local, peer),
            Sought::Listener { port } => role.listens_at(port),
            Sought::Datagrams { port } => role.uses_datagram_port(port),
            Sought::Stream { port } => role.uses_port(port),
            Sought::Socket { port } => role.has_socket() && role.uses_port(port),
        }
    }
}

impl Sockets {
    /// The place of the connection from `local` to `peer`, in any state but CLOSED.
    pub(crate) fn connection_between(&self, local: Endpoint, peer: Endpoint) -> Option<usize>
        ensures { result ≡ position (is_between local peer) self.now.entries }
    {
        self.sought(Sought::Connection { local, peer })
    }

    /// The same place; where such a connection is filed, or would be, is kept for the next time.
    pub(crate) fn find_connection(&mut self, local: Endpoint, peer: Endpoint) -> Option<usize>
        ensures found { result ≡ position (is_between local peer) self.old.entries }
        ensures same { self.new ≡ self.old }
    {
        self.filed = self.first_filed(key_of(local.port, peer));
        match self.at_hand_from(self.filed, local, peer) {
            Some(place) => Some(place),
            None => self.sought_from(self.filed, Sought::Connection { local, peer }),
        }
    }

    /// The place of the connection from `local` to `peer`, where that is the entry at hand; in `first` stands what is filed first as such connections are.
    #[inline(always)]
    fn at_hand_from(&self, first: usize, local: Endpoint, peer: Endpoint) -> Option<usize>
        requires first { IsPartitionPoint (λ filed. nat_lt filed.key (key_of local.port peer) ≡ true) (λ filed. nat_lt filed.key (key_of local.port peer) ≡ false) (index_of self.now.entries) first }
        ensures { IfSome result (λ place. position (is_between local peer) self.now.entries ≡ Some place) }
    {
        let place = self.outlook.at_hand()?;
        let is_it = is_first_between(&self.entries, &self.ends, first, place, local, peer);
        is_it.then_some(place)
    }

    /// Where what has this key or a greater one is filed first, which is looked for first where the last one was.
    fn first_filed(&self, key: u64) -> usize
        ensures first { IsPartitionPoint (λ filed. nat_lt filed.key key ≡ true) (λ filed. nat_lt filed.key key ≡ false) (index_of self.now.entries) result }
        ensures within { result ≤ length (index_of self.now.entries) }
    {
        first_filed(&self.entries, &self.ends, self.filed, key)
    }

    /// The place of the first entry that is what is looked for, which has one key, and of which the first is filed in this place.
    fn sought_from(&self, first: usize, what: Sought) -> Option<usize>
        requires first { IsPartitionPoint (λ filed. nat_lt filed.key (low_key what) ≡ true) (λ filed. nat_lt filed.key (low_key what) ≡ false) (index_of self.now.entries) first }
        requires within { first ≤ length (index_of self.now.entries) }
        requires one { low_key what ≡ high_key what }
        ensures { result ≡ position (is_sought_in what) self.now.entries }
    {
        search_from(
            &self.entries,
            &self.ends,
            first,
            self.outlook.at_hand(),
            what,
        )
    }

    /// The place of the connection of `pair`, in any state but CLOSED: from the one end or from the other, whichever stands first.
    pub(crate) fn holder(&self, pair: Pair) -> Option<usize>
        ensures { result ≡ position (is_of_pair pair) self.now.entries }
    {
        let there = self.connection_between(pair.first(), pair.second());
        let back = self.connection_between(pair.second(), pair.first());
        first_of(there, back)
    }

    /// The place of the listener at a local port.
    pub(crate) fn listener_at(&self, port: u16) -> Option<usize>
        ensures { result ≡ position (is_listening_at port) self.now.entries }
    {
        self.sought(Sought::Listener { port })
    }

    /// The place of the UDP socket at a local port.
    pub(crate) fn datagrams_at(&self, port: u16) -> Option<usize>
        ensures { result ≡ position (is_datagrams_at port) self.now.entries }
    {
        self.sought(Sought::Datagrams { port })
    }

    /// The place of the first entry that is what is looked for, which has one key. The entry at hand is looked at first.
    fn sought(&self, what: Sought) -> Option<usize>
        requires { low_key what ≡ high_key what }
        ensures { result ≡ position (is_sought_in what) self.now.entries }
    {
        let (low, _) = what.keys();
        self.sought_from(self.first_filed(low), what)
    }
}

/// Whether the entry in this place is the first connection from `local` to `peer`, in any state but CLOSED, and the first that is filed as such: in `first` stands
/// that.
#[inline(always)]
fn is_first_between(
    entries: &[Entry],
    index: &[Filed],
    first: usize,
    place: usize,
    local: Endpoint,
    peer: Endpoint,
) -> bool
    requires order { AreInOrder entries.now }
    requires index { index.now ≡ index_of entries.now }
    requires first { IsPartitionPoint (λ filed. nat_lt filed.key (key_of local.port peer) ≡ true) (λ filed. nat_lt filed.key (key_of local.port peer) ≡ false) index.now first }
    requires place { place < length entries.now }
    ensures { result ≡ true → position (is_between local peer) entries.now ≡ Some place }
{
    if first >= index.len() {
        return false;
    }
    let entry = &entries[place];
    let filed = &index[first];
    filed.id == entry.id && entry.role.is_live_between(local, peer)
}

/// Whether there is a connection from `local` to `peer`, in any state but CLOSED.
pub(crate) fn is_pair_held(
    entries: &[Entry],
    index: &[Filed],
    local: Endpoint,
    peer: Endpoint,
) -> bool
    requires order { AreInOrder entries.now }
    requires index { index.now ≡ index_of entries.now }
    ensures { result ≡ list_any (is_between local peer) entries.now }
{
    search(entries, index, Sought::Connection { local, peer }).is_some()
}

/// Whether a UDP socket is bound to this port.
pub(crate) fn is_datagram_port_taken(entries: &[Entry], index: &[Filed], port: u16) -> bool
    requires order { AreInOrder entries.now }
    requires index { index.now ≡ index_of entries.now }
    ensures { result ≡ list_any (is_datagrams_at port) entries.now }
{
    search(entries, index, Sought::Datagrams { port }).is_some()
}

/// Whether an entry has this local port over TCP.
pub(crate) fn is_port_taken(entries: &[Entry], index: &[Filed], port: u16) -> bool
    requires order { AreInOrder entries.now }
    requires index { index.now ≡ index_of entries.now }
    ensures { result ≡ list_any (has_port port) entries.now }
{
    search(entries, index, Sought::Stream { port }).is_some()
}

/// Whether a TCP socket has this local port.
pub(crate) fn is_port_bound(entries: &[Entry], index: &[Filed], port: u16) -> bool
    requires order { AreInOrder entries.now }
    requires index { index.now ≡ index_of entries.now }
    ensures { result ≡ list_any (is_bound_at port) entries.now }
{
    search(entries, index, Sought::Socket { port }).is_some()
}

/// The place of an entry that is what is looked for, and of the first where that has one key: a binary search finds what is filed first from the least key on.
fn search(entries: &[Entry], index: &[Filed], what: Sought) -> Option<usize>
    requires order { AreInOrder entries.now }
    requires index { index.now ≡ index_of entries.now }
    ensures any { is_some result ≡ list_any (is_sought_in what) entries.now }
    ensures first { low_key what ≡ high_key what → result ≡ position (is_sought_in what) entries.now }
{
    let (low, _) = what.keys();
    let first = first_filed(entries, index, 0, low);
    search_from(entries, index, first, None, what)
}

/// Where what has this key or a greater one is filed first, which is the place of the id 0 at this key: `near` is looked at first.
fn first_filed(entries: &[Entry], index: &[Filed], near: usize, key: u64) -> usize
    requires index { index.now ≡ index_of entries.now }
    ensures first { IsPartitionPoint (λ filed. nat_lt filed.key key ≡ true) (λ filed. nat_lt filed.key key ≡ false) index.now result }
    ensures within { result ≤ length index.now }
{
    let id = SocketId(0);
    place_for(index, near, Filed { key, id })
}

/// The same as `search`, where `first` is the place of what is filed first from the least key on: from there up to the greatest key each entry is tested, which
/// is looked for in the place `near` first. At one key they are filed in order of id, as they stand in the table.
fn search_from(
    entries: &[Entry],
    index: &[Filed],
    first: usize,
    near: Option<usize>,
    what: Sought,
) -> Option<usize>
    requires order { AreInOrder entries.now }
    requires index { index.now ≡ index_of entries.now }
    requires first { IsPartitionPoint (λ filed. nat_lt filed.key (low_key what) ≡ true) (λ filed. nat_lt filed.key (low_key what) ≡ false) index.now first }
    requires within { first ≤ length index.now }
    ensures any { is_some result ≡ list_any (is_sought_in what) entries.now }
    ensures first { low_key what ≡ high_key what → result ≡ position (is_sought_in what) entries.now }
{
    let (_, high) = what.keys();
    for at in first..index.len() {
        let filed = &index[at];
        if filed.key > high {
            return None;
        }
        if let Some(place) = sought_as(entries, near, filed.id, what) {
            return Some(place);
        }
    }
    None
}

/// The place of the entry that `id` names, where that is what is looked for. It is looked for in the place `near` first.
fn sought_as(entries: &[Entry], near: Option<usize>, id: SocketId, what: Sought) -> Option<usize>
    requires { AreInOrder entries.now }
    ensures { result ≡ position (is_sought_as id what) entries.now }
{
    let place = place_near(entries, near, id)?;
    what.is_met(&entries[place].role).then_some(place)
}
