//! What is looked up in the table, which stands in order of id.

ghost use Rattle.std.specs.Prelude.{◌≡◌, ◌<◌, ◌+◌, ℕ, Bool, not, if◌then◌else◌, length, filter, remove, position};
ghost use Rattle.std.specs.List.{AllByRecursion};
ghost use Rattle.sockets.specs.Entries.{is_kept, entries_after_steps, tick_fate_of, role_after_listener_close, listener_close_fate_of, is_socket, is_waiting_as, is_waiting_id, deadline_of, role_after_tick, with_role};
ghost use Rattle.sockets.specs.Arrival.{offered_with};
ghost use Rattle.clock.specs.Moments.{sooner};
ghost use Rattle.ipv4.specs.declared.addr.Addr.{Addr};
ghost use Rattle.sockets.specs.Lost.{give_up_fate_of, role_after_giving_up};
ghost use Rattle.sockets.specs.GiveWay.{is_left_since, longest_left, longest_id, first_id, gives_way};
ghost use Rattle.sockets.specs.Sound.{IsSoundRole};
ghost use Rattle.sockets.specs.Ids.{AreAscending, AreInOrder, has_id};
ghost use Rattle.sockets.specs.Index.{index_of};
ghost use Rattle.sockets.specs.Outlook.{IsOutlook};

use crate::entry::{Entry, SocketId};
use crate::index::{self, Filed};
use crate::outlook::Outlook;
use crate::role::is_kept;
use clock::{Moment, sooner};
use fixed_vec::FixedVec;
use ipv4::Addr;
use tcp_state::Fate;

/// The place of the entry of this id, by binary search: the entries stand in order of id.
pub(crate) fn place_of(entries: &[Entry], id: SocketId) -> Option<usize>
    requires { AreInOrder entries.now }
    ensures { result ≡ position (has_id id) entries.now }
{
    entries.binary_search_by_key(&id.0, |entry| entry.id.0).ok()
}

/// The same place, which is looked for in the place `near` first: the entry to which something happened last is often the next one too.
pub(crate) fn place_near(entries: &[Entry], near: Option<usize>, id: SocketId) -> Option<usize>
    requires { AreInOrder entries.now }
    ensures { result ≡ position (has_id id) entries.now }
{
    match near {
        Some(place) if place < entries.len() && entries[place].id == id => Some(place),
        _ => place_of(entries, id),
    }
}

/// The place of the socket `id`, which is looked for in the place `near` first.
pub(crate) fn socket_of(entries: &[Entry], near: Option<usize>, id: SocketId) -> Option<usize>
    requires { AreInOrder entries.now }
    ensures { result ≡ position (is_socket id) entries.now }
{
    let place = place_near(entries, near, id)?;
    entries[place].role.has_socket().then_some(place)
}

/// The place of the connection that `id` names, where it waits at `listener`, which is looked for in the place `near` first.
pub(crate) fn waiting_as(
    entries: &[Entry],
    near: Option<usize>,
    listener: SocketId,
    id: SocketId,
) -> Option<usize>
    requires { AreInOrder entries.now }
    ensures { result ≡ position (is_waiting_as listener id) entries.now }
{
    let place = place_near(entries, near, id)?;
    entries[place].role.waits_at(listener).then_some(place)
}

/// Since when it is in TIME-WAIT that is so longest, of the connections that no caller has.
fn longest_since(entries: &[Entry]) -> Option<Moment>
    ensures { result ≡ longest_left entries.now }
{
    entries.iter().fold(None, |least, entry| sooner(least, entry.role.left_since()))
}

/// The id of the first that is so since this moment.
fn left_since(entries: &[Entry], since: Moment) -> Option<SocketId>
    ensures { result ≡ first_id (λ x. is_left_since since x.role) entries.now }
{
    entries
        .iter()
        .find(|entry| entry.role.is_left_since(since))
        .map(|entry| entry.id)
}

/// The id of what has been longest in TIME-WAIT, of the connections that no caller has.
pub(crate) fn longest_left(entries: &[Entry]) -> Option<SocketId>
    ensures { result ≡ longest_id entries.now }
{
    match longest_since(entries) {
        Some(since) => left_since(entries, since),
        None => None,
    }
}

/// The place of the connection that `id` names, where it may give way.
pub(crate) fn giving_way(entries: &[Entry], id: SocketId) -> Option<usize>
    requires { AreInOrder entries.now }
    ensures { result ≡ position (gives_way (has_id id)) entries.now }
{
    let place = place_of(entries, id)?;
    entries[place].role.may_give_way().then_some(place)
}

/// Whether the connection that `id` names waits at `listener`; it is looked for in the place `near` first.
fn is_waiting_id(entries: &[Entry], near: Option<usize>, listener: SocketId, id: SocketId) -> bool
    requires { AreInOrder entries.now }
    ensures { result ≡ is_waiting_id entries.now listener id }
{
    waiting_as(entries, near, listener, id).is_some()
}

/// The place among those offered of the connection that `listener` accepts next. Each is looked for in the place `near` first: one that came just now is there.
pub(crate) fn next_offered(
    offered: &[SocketId],
    entries: &[Entry],
    near: Option<usize>,
    listener: SocketId,
) -> Option<usize>
    requires { AreInOrder entries.now }
    ensures { result ≡ position (is_waiting_id entries.now listener) offered.now }
{
    offered
        .iter()
        .position(|id| is_waiting_id(entries, near, listener, *id))
}

/// Puts the connection that `id` names behind those offered, where it is offered now.
pub(crate) fn offer(offered: &mut FixedVec<SocketId>, id: SocketId, is_offered: bool)
    ensures most { offered.new.most ≡ offered.old.most }
    ensures items { offered.new.items ≡ offered_with offered.old.most is_offered id offered.old.items }
{
    if is_offered && !offered.is_full() {
        offered.push(id);
    }
}

/// Takes the connections that wait at `listener` out of those offered.
pub(crate) fn offer_no_more(offered: &mut FixedVec<SocketId>, entries: &[Entry], listener: SocketId)
    requires { AreInOrder entries.now }
    ensures most { offered.new.most ≡ offered.old.most }
    ensures items { offered.new.items ≡ filter (λ id. not (is_waiting_id entries.now listener id)) offered.old.items }
{
    offered.retain(|id| !is_waiting_id(entries, None, listener, *id));
}

/// Lets the timers of every entry act whose moment has come, and takes out those whose connection is gone then.
pub(crate) fn tick(
    entries: &mut FixedVec<Entry>,
    ends: &mut FixedVec<Filed>,
    outlook: &mut Outlook,
    now: Moment,
)
    requires index { ends.old.items ≡ index_of entries.old.items }
    requires known { (most : ℕ) × IsOutlook outlook.old most entries.old.items }
    ensures entries { entries.new.items ≡ entries_after_steps (tick_fate_of now) (role_after_tick now) entries.old.items }
    ensures index { ends.new.items ≡ index_of entries.new.items }
    ensures known { (most : ℕ) → IsOutlook outlook.old most entries.old.items → IsOutlook outlook.new most entries.new.items }
    ensures most { (entries.new.most ≡ entries.old.most) × (ends.new.most ≡ ends.old.most) }
{
    let mut from = 0;
    while let Some(place) = outlook.next_come(entries, from, now) {
        outlook.turn_to(entries, place);
        let stays = entries[place].tick(now);
        from = beyond(entries, ends, outlook, place, stays);
    }
}

/// Aborts the connections that wait at the listener `id`, which is closed, and takes out those that are CLOSED already.
pub(crate) fn forsake(
    entries: &mut FixedVec<Entry>,
    ends: &mut FixedVec<Filed>,
    outlook: &mut Outlook,
    now: Moment,
    id: SocketId,
)
    requires index { ends.old.items ≡ index_of entries.old.items }
    requires known { (most : ℕ) × IsOutlook outlook.old most entries.old.items }
    ensures entries { entries.new.items ≡ entries_after_steps (listener_close_fate_of id) (role_after_listener_close now id) entries.old.items }
    ensures index { ends.new.items ≡ index_of entries.new.items }
    ensures known { (most : ℕ) → IsOutlook outlook.old most entries.old.items → IsOutlook outlook.new most entries.new.items }
    ensures most { (entries.new.most ≡ entries.old.most) × (ends.new.most ≡ ends.old.most) }
{
    let mut from = 0;
    while let Some(place) = outlook.next_waiting(entries, from, id) {
        outlook.turn_to(entries, place);
        let stays = entries[place].forsake(now, id);
        from = beyond(entries, ends, outlook, place, stays);
    }
}

/// Lets every entry give up what has waited too long for a lost address, and takes out the connections whose reset is given up, and those
/// that are given up themselves and that no caller has. An entry that isn't busy has nothing that waits.
pub(crate) fn give_up<F: Fn(Addr) -> bool>(
    entries: &mut FixedVec<Entry>,
    ends: &mut FixedVec<Filed>,
    outlook: &mut Outlook,
    now: Moment,
    lost: &F,
)
    requires lost { F.IsAlwaysCallable lost.now }
    requires index { ends.old.items ≡ index_of entries.old.items }
    requires known { (most : ℕ) × IsOutlook outlook.old most entries.old.items }
    ensures index { ends.new.items ≡ index_of entries.new.items }
    ensures known { (most : ℕ) → IsOutlook outlook.old most entries.old.items → IsOutlook outlook.new most entries.new.items }
    ensures most { (entries.new.most ≡ entries.old.most) × (ends.new.most ≡ ends.old.most) }
    ensures ids { (last : ℕ) → AreAscending 0 last entries.old.items → AreAscending 0 last entries.new.items }
    ensures left { (test : Addr → Bool) → ((addr : Addr) (answer : Bool) → F.post lost.now addr answer → answer ≡ test addr) → entries.new.items ≡ entries_after_steps (give_up_fate_of test now) (role_after_giving_up test now) entries.old.items }
{
    let mut from = 0;
    while let Some(place) = outlook.next_busy(entries, from) {
        outlook.turn_to(entries, place);
        let stays = entries[place].give_up(now, lost);
        from = beyond(entries, ends, outlook, place, stays);
    }
}

/// The place behind the entry in this place, which stays, or else is taken out.
fn beyond(
    entries: &mut FixedVec<Entry>,
    ends: &mut FixedVec<Filed>,
    outlook: &mut Outlook,
    place: usize,
    stays: bool,
) -> usize
    requires place { place < length entries.old.items }
    requires index { ends.old.items ≡ index_of entries.old.items }
    requires known { (most : ℕ) × IsOutlook outlook.old most entries.old.items }
    ensures result { result ≡ (if stays then place + 1 else place) }
    ensures entries { entries.new.items ≡ (if stays then entries.old.items else remove entries.old.items place) }
    ensures index { ends.new.items ≡ index_of entries.new.items }
    ensures known { (most : ℕ) → IsOutlook outlook.old most entries.old.items → IsOutlook outlook.new most entries.new.items }
    ensures most { (entries.new.most ≡ entries.old.most) × (ends.new.most ≡ ends.old.most) }
{
    let _held = entries.len();
    if stays {
        return place + 1;
    }
    take_out(entries, ends, outlook, place);
    place
}

/// What each connection keeps of itself, for the contracts above; it changes nothing.
pub(crate) fn sound(entries: &[Entry])
    ensures { AllByRecursion (λ e. IsSoundRole e.role) entries.now }
{
    for entry in entries {
        entry.role.sound();
    }
}

/// Takes an entry out of the table where its connection is gone.
pub(crate) fn settle(
    entries: &mut FixedVec<Entry>,
    ends: &mut FixedVec<Filed>,
    outlook: &mut Outlook,
    place: usize,
    fate: Fate,
)
    requires place { place < length entries.old.items }
    requires index { ends.old.items ≡ index_of entries.old.items }
    requires known { (most : ℕ) × IsOutlook outlook.old most entries.old.items }
    ensures entries { entries.new.items ≡ (if is_kept fate then entries.old.items else remove entries.old.items place) }
    ensures index { ends.new.items ≡ index_of entries.new.items }
    ensures known { (most : ℕ) → IsOutlook outlook.old most entries.old.items → IsOutlook outlook.new most entries.new.items }
    ensures most { (entries.new.most ≡ entries.old.most) × (ends.new.most ≡ ends.old.most) }
{
    if !is_kept(fate) {
        take_out(entries, ends, outlook, place);
    }
}

/// Takes out the entry in this place.
fn take_out(
    entries: &mut FixedVec<Entry>,
    ends: &mut FixedVec<Filed>,
    outlook: &mut Outlook,
    place: usize,
)
    requires place { place < length entries.old.items }
    requires index { ends.old.items ≡ index_of entries.old.items }
    requires known { (most : ℕ) × IsOutlook outlook.old most entries.old.items }
    ensures entries { entries.new.items ≡ remove entries.old.items place }
    ensures index { ends.new.items ≡ index_of entries.new.items }
    ensures known { (most : ℕ) → IsOutlook outlook.old most entries.old.items → IsOutlook outlook.new most entries.new.items }
    ensures most { (entries.new.most ≡ entries.old.most) × (ends.new.most ≡ ends.old.most) }
{
    index::unfile(ends, index::filing(&entries[place]));
    entries.remove(place);
    outlook.remove(place);
}
