//! How much is given up. Nothing changes.

ghost use Rattle.std.specs.Prelude.{ℕ, ◌≡◌, ◌≤◌, ◌+◌, ◌-◌, ◌^◌, min, Bool, if◌then◌else◌, length, count_by, sum_by};
ghost use Rattle.ipv4.specs.declared.addr.Addr.{Addr};
ghost use Rattle.udp_socket.specs.Waits.{is_given_up as is_datagram_given_up};
ghost use Rattle.sockets.specs.Lost.{is_given_up};
ghost use Rattle.sockets.specs.GivenUp.{outbox_of};
ghost use Rattle.sockets.specs.Outlook.{IsOutlook};

use crate::entry::Entry;
use crate::outlook::Outlook;
use crate::role::Role;
use crate::sizes::MOST_ENTRIES;
use crate::sockets::Sockets;
use clock::Moment;
use fixed_vec::FixedVec;
use ipv4::Addr;

/// How much of a table is given up at a moment.
#[derive(Clone, Copy, PartialEq, Eq, Debug)]
pub struct Losses {
    /// Resets of aborts.
    pub resets: usize,
    /// Datagrams that wait to go out.
    pub datagrams: usize,
}

impl Sockets {
    ghost use Rattle.sockets.specs.GivenUp.{resets_given_up, datagrams_given_up};

    /// How much `give_up` gives up at this moment: the resets of aborts that are owed to a peer at a lost address, which `lost` says, and the
    /// datagrams to one, that have waited for 3,000 ms or more. The timers of a tick make none of these and take none.
    pub fn given_up<F: Fn(Addr) -> bool>(&self, now: Moment, lost: &F) -> Losses
        requires { F.IsAlwaysCallable lost.now }
        ensures { (test : Addr → Bool) → ((addr : Addr) (answer : Bool) → F.post lost.now addr answer → answer ≡ test addr)
            → (result.resets ≡ resets_given_up self.now test now) × (result.datagrams ≡ datagrams_given_up self.now test now) }
    {
        let now = self.later_moment(now);
        let _held = self.entries.len();
        given_up_in(&self.entries, &self.outlook, now, lost)
    }
}

/// How much the entries give up: those that aren't busy nothing.
fn given_up_in<F: Fn(Addr) -> bool>(
    entries: &FixedVec<Entry>,
    outlook: &Outlook,
    now: Moment,
    lost: &F,
) -> Losses
    requires lost { F.IsAlwaysCallable lost.now }
    requires few { length entries.now.items ≤ MOST_ENTRIES }
    requires known { (most : ℕ) × IsOutlook outlook.now most entries.now.items }
    ensures { (test : Addr → Bool) → ((addr : Addr) (answer : Bool) → F.post lost.now addr answer → answer ≡ test addr)
        → (result.resets ≡ count_by (λ e. is_given_up test now e.role) entries.now.items) × (result.datagrams ≡ sum_by (λ e. count_by (is_datagram_given_up test now) (outbox_of e.role)) entries.now.items) }
{
    let mut sum = Losses {
        resets: 0,
        datagrams: 0,
    };
    let mut from = 0;
    while let Some(place) = outlook.next_busy(entries, from) {
        sum = sum.with(&entries[place].role, now, lost);
        from = place + 1;
    }
    sum
}

impl Losses {
    /// With what one more entry gives up. No count goes past its last value.
    fn with<F: Fn(Addr) -> bool>(mut self, role: &Role, now: Moment, lost: &F) -> Losses
        requires { F.IsAlwaysCallable lost.now }
        ensures resets { (test : Addr → Bool) → ((addr : Addr) (answer : Bool) → F.post lost.now addr answer → answer ≡ test addr) → result.resets ≡ min (self.resets + (if is_given_up test now role.now then 1 else 0)) (2 ^ 64 - 1) }
        ensures datagrams { (test : Addr → Bool) → ((addr : Addr) (answer : Bool) → F.post lost.now addr answer → answer ≡ test addr) → result.datagrams ≡ min (self.datagrams + count_by (is_datagram_given_up test now) (outbox_of role.now)) (2 ^ 64 - 1) }
        ensures most { (test : Addr → Bool) → ((addr : Addr) (answer : Bool) → F.post lost.now addr answer → answer ≡ test addr) → count_by (is_datagram_given_up test now) (outbox_of role.now) ≤ 64 }
    {
        if role.is_given_up(now, lost) {
            self.resets = self.resets.saturating_add(1);
        }
        self.datagrams = self
            .datagrams
            .saturating_add(role.datagrams_given_up(now, lost));
        self
    }
}

impl Role {
    /// How many of its datagrams are given up, 64 at most.
    fn datagrams_given_up<F: Fn(Addr) -> bool>(&self, now: Moment, lost: &F) -> usize
        requires { F.IsAlwaysCallable lost.now }
        ensures count { (test : Addr → Bool) → ((addr : Addr) (answer : Bool) → F.post lost.now addr answer → answer ≡ test addr) → result ≡ count_by (is_datagram_given_up test now) (outbox_of self.now) }
        ensures most { (test : Addr → Bool) → ((addr : Addr) (answer : Bool) → F.post lost.now addr answer → answer ≡ test addr) → result ≤ 64 }
    {
        match self {
            Role::Datagrams { socket, .. } => socket.given_up(now, lost),
            _ => 0,
        }
    }
}
