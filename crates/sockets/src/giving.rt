//! Laws of what gives way to another connection (RFC 9293 section 3.6.1, RFC 1122 section 4.2.2.13).

ghost use Rattle.std.specs.Prelude.{◌≡◌, ◌≢◌, ℕ, true, false, find, Some, None};
ghost use Rattle.ipv4.specs.declared.addr.Addr.{Addr};
ghost use Rattle.tcp_segment.specs.Segment.{Segment};
ghost use Rattle.sockets.specs.declared.entry.Entry.{Entry};
ghost use Rattle.sockets.specs.declared.needs.Need.TheVariants.{Memory};
ghost use Rattle.sockets.specs.Calls.{is_table_full};
ghost use Rattle.sockets.specs.GiveWay.{after_giving_way, may_give_way, way_for, way_for_socket, IsGivenFor, IsGivenForSocket};
ghost use Rattle.sockets.specs.Ids.{has_id};
ghost use Rattle.sockets.specs.Needs.{need};
ghost use Rattle.sockets.specs.Offered.{IsReached};
ghost use Rattle.sockets.specs.Order.{IsOrdered};
ghost use Rattle.sockets.specs.SocketsView.{SocketsView};

use crate::entry::SocketId;

/// On guard one connection gives way to what a SYN opens: where its listener's backlog or the table is full, the oldest of that listener's that nobody
/// answered for a second, or else, where the backlog has a place, what has been longest in TIME-WAIT of those that no caller has; and one in
/// TIME-WAIT that no caller has to a SYN between its ends whose number lies past all that was heard on it. To a socket gives way what has been
/// longest in TIME-WAIT, where the table is full. Else nothing does, and nothing does without guards.
pub fn the_oldest_gives_way()
    ensures segment { (h : SocketsView) (source : Addr) (s : Segment) (id : SocketId) → IsOrdered h → way_for h source s ≡ Some id → (x : Entry) × (x.id ≡ id) × IsGivenFor h source s x }
    ensures socket { (h : SocketsView) (id : SocketId) → IsOrdered h → way_for_socket h ≡ Some id → (x : Entry) × (x.id ≡ id) × IsGivenForSocket h x }
    ensures without { (h : SocketsView) → h.manner.guards ≡ false → ((source : Addr) (s : Segment) → way_for h source s ≡ None) × (way_for_socket h ≡ None) }
{}

/// What gives way is gone, one that may, and no other entry moves. What it gave way to finds room then: a SYN opens its connection wherever memory is
/// there, and a socket is made.
pub fn what_it_gave_way_to_finds_room()
    ensures gone { (h : SocketsView) (x : Entry) → IsOrdered h → find (has_id x.id) h.entries ≡ Some x → may_give_way x ≡ true → find (has_id x.id) (after_giving_way h (has_id x.id)).entries ≡ None }
    ensures others { (h : SocketsView) (id other : SocketId) → other.0 ≢ id.0 → find (has_id other) (after_giving_way h (has_id id)).entries ≡ find (has_id other) h.entries }
    ensures stays { (h : SocketsView) (x : Entry) → IsOrdered h → find (has_id x.id) h.entries ≡ Some x → may_give_way x ≡ false → after_giving_way h (has_id x.id) ≡ h }
    ensures segment { (h : SocketsView) (source : Addr) (s : Segment) (id : SocketId) → IsOrdered h → IsReached h → way_for h source s ≡ Some id
        → need (after_giving_way h (has_id id)) source s ≡ Some Memory }
    ensures socket { (h : SocketsView) (id : SocketId) → IsOrdered h → way_for_socket h ≡ Some id → is_table_full (after_giving_way h (has_id id)) ≡ false }
{}
