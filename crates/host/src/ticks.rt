//! What time does to a host.

ghost use Rattle.std.specs.Prelude.{◌≡◌, fold};
ghost use Rattle.clock.specs.Moments.{sooner};
ghost use Rattle.sockets.specs.Entries.{dues_of};
ghost use Rattle.host.specs.Ticks.{all_reported};

use crate::layers::Layers;
use clock::{Moment, sooner};
use icmp::Reason;
use interface::Interface;
use reassembly::Expired;
use sockets::Entry;

impl Layers {
    ghost use Rattle.host.specs.Ticks.{after_tick, least_deadline, hop_deadline, request_deadline};

    /// Lets time pass, as `Host::tick`.
    pub(crate) fn tick(&mut self, now: Moment)
        ensures { self.new ≡ after_tick self.old now }
    {
        let now = self.sockets.later_moment(now);
        self.sockets.tick(now);
        let interface = &self.interface;
        self.sockets
            .give_up(now, |addr| !interface.knows_hop(now, addr));
        self.interface.tick(now);
        let expired = self.pool.age(now);
        report_expired(&mut self.interface, now, &expired);
    }

    /// The deadline, as `Host::next_deadline`.
    pub(crate) fn next_deadline(&self) -> Option<Moment>
        ensures { result ≡ least_deadline self.now }
    {
        let now = self.sockets.kept();
        let first = sooner(self.sockets.next_deadline(), self.interface.deadline(now));
        let first = sooner(first, self.pool.next_deadline());
        self.sooner_at_hops(first)
    }

    /// The sooner of a deadline and of what the entries wait for at the hops of what they have due. Those that aren't busy wait for nothing.
    fn sooner_at_hops(&self, first: Option<Moment>) -> Option<Moment>
        ensures { result ≡ fold (λ least e. sooner least (hop_deadline self.now e)) first self.now.sockets.entries }
    {
        let entries = self.sockets.entries();
        let mut least = first;
        let mut from = 0;
        while let Some(place) = self.sockets.next_busy(from) {
            least = sooner(least, self.hop_deadline(&entries[place]));
            from = place + 1;
        }
        least
    }

    /// What an entry waits for at the hops of what it has due.
    fn hop_deadline(&self, entry: &Entry) -> Option<Moment>
        ensures { result ≡ hop_deadline self.now entry.now }
    {
        let now = self.sockets.kept();
        sooner(
            entry.give_up_at(&|addr| !self.interface.knows_hop(now, addr)),
            self.request_deadline(entry),
        )
    }

    /// When a request for the next hop of something that an entry has due may go out, where none for it may now and its MAC isn't known.
    fn request_deadline(&self, entry: &Entry) -> Option<Moment>
        ensures { result ≡ request_deadline self.now (dues_of entry.now.role) }
    {
        let now = self.sockets.kept();
        let mut least = None;
        for number in 0..entry.due_places() {
            let Some((peer, _)) = entry.due_at(number) else {
                return least;
            };
            least = sooner(least, self.interface.asked_until(now, peer.addr));
        }
        least
    }
}

/// Tells the source of each datagram whose time ran out, where more control replies may wait.
fn report_expired(interface: &mut Interface, now: Moment, datagrams: &[Expired])
    ensures { interface.new ≡ all_reported now interface.old datagrams.now }
{
    for datagram in datagrams {
        let source = datagram.key.source;
        let quote = datagram.quote.octets();
        let _ = interface.report_quote(now, source, Reason::ReassemblyTimeExceeded, quote);
    }
}
