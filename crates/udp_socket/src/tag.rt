//! What is known of an outgoing datagram.

ghost use Rattle.std.specs.Prelude.{◌≡◌, Bool};
ghost use Rattle.ipv4.specs.declared.addr.Addr.{Addr};

use clock::{HOP_WAIT, Moment};
use ipv4::{Addr, Endpoint};

/// What is known of an outgoing datagram beside its octets.
#[derive(Clone, Copy, Debug, PartialEq, Eq)]
pub(crate) struct Tag {
    /// The endpoint that it is for.
    pub(crate) peer: Endpoint,
    /// The identification of its fragments (RFC 791 section 3.2).
    pub(crate) identification: u16,
    /// Since when it waits.
    pub(crate) since: Moment,
}

impl Tag {
    ghost use Rattle.udp_socket.specs.Stored.{bare};
    ghost use Rattle.udp_socket.specs.Waits.{is_given_up, deadline_of};

    /// Whether the datagram is given up: it has waited for `HOP_WAIT`, and the address that it is for is lost.
    pub(crate) fn is_given_up<F: Fn(Addr) -> bool>(&self, now: Moment, lost: &F) -> bool
        requires { F.IsAlwaysCallable lost.now }
        ensures { (test : Addr → Bool) → ((addr : Addr) (answer : Bool) → F.post lost.now addr answer → answer ≡ test addr) → result ≡ is_given_up test now (bare self.now) }
    {
        self.since.after(HOP_WAIT) <= now && lost(self.peer.addr)
    }

    /// When the datagram may be given up, where the address that it is for is lost.
    pub(crate) fn deadline<F: Fn(Addr) -> bool>(&self, lost: &F) -> Option<Moment>
        requires { F.IsAlwaysCallable lost.now }
        ensures { (test : Addr → Bool) → ((addr : Addr) (answer : Bool) → F.post lost.now addr answer → answer ≡ test addr) → result ≡ deadline_of test (bare self.now) }
    {
        if lost(self.peer.addr) {
            Some(self.since.after(HOP_WAIT))
        } else {
            None
        }
    }
}
