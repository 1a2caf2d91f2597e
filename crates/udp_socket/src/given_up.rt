//! How many datagrams are given up. Nothing changes.

ghost use Rattle.std.specs.Prelude.{◌≡◌, ◌≤◌, Bool, count_by};
ghost use Rattle.ipv4.specs.declared.addr.Addr.{Addr};

use crate::socket::UdpSocket;
use clock::Moment;
use ipv4::Addr;

impl UdpSocket {
    ghost use Rattle.udp_socket.specs.Waits.{is_given_up};

    /// How many outgoing datagrams `give_up` gives up at this moment: those for a lost address, which `lost` says, that have waited for
    /// 3,000 ms or more. 64 at most.
    pub fn given_up<F: Fn(Addr) -> bool>(&self, now: Moment, lost: &F) -> usize
        requires { F.IsAlwaysCallable lost.now }
        ensures count { (test : Addr → Bool) → ((addr : Addr) (answer : Bool) → F.post lost.now addr answer → answer ≡ test addr) → result ≡ count_by (is_given_up test now) self.now.outbox }
        ensures most { (test : Addr → Bool) → ((addr : Addr) (answer : Bool) → F.post lost.now addr answer → answer ≡ test addr) → result ≤ 64 }
    {
        if self.tags.is_empty() {
            return 0;
        }
        self.tags
            .iter()
            .filter(|tag| tag.is_given_up(now, lost))
            .count()
    }
}
