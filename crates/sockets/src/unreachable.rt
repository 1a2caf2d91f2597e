//! What an error makes of the table that tells of a segment which can't be delivered (RFC 1122 section 4.2.3.9).

ghost use Rattle.std.specs.Prelude.{◌≡◌};

use crate::sockets::Sockets;
use crate::table;
use ipv4::Endpoint;
use tcp_segment::Seq;

#[tactic(auto, using(crate::proofs::Firsts::firsts))]
impl Sockets {
    ghost use Rattle.sockets.specs.Unreachable.{after_unreachable};

    /// Takes a hard error about the segment of this number that went from our end `local` to the end `peer`: it is told to the connection of
    /// the two ends, in any state but CLOSED. Where there is none, nothing changes.
    pub fn unreachable(&mut self, local: Endpoint, peer: Endpoint, number: Seq)
        ensures { self.new ≡ after_unreachable self.old local peer number.0 }
    {
        if let Some(place) = self.connection_between(local, peer) {
            self.outlook.turn_to(&self.entries, place);
            let fate = self.entries[place].role.unreachable(number);
            table::settle(
                &mut self.entries,
                &mut self.ends,
                &mut self.outlook,
                place,
                fate,
            );
        }
    }
}
