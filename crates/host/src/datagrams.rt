//! The UDP datagrams that come in, whole or in fragments.

ghost use Rattle.std.specs.Prelude.{◌≡◌, if◌then◌else◌, List, Option, take};
ghost use Rattle.reassembly.specs.declared.finished.Finished.{Finished};
ghost use Rattle.reassembly.specs.Fragments.{key_of};
ghost use Rattle.reassembly.specs.Lately.{noted};
ghost use Rattle.reassembly.specs.Reassembly.{PoolView};
ghost use Rattle.sockets.specs.Datagrams.{reception};
ghost use Rattle.host.specs.Arrival.{after_user_datagram, pool_for};
ghost use Rattle.host.specs.HostView.{HostView};

use crate::layers::Layers;
use clock::Moment;
use frames::{DropCause, ReceivedDatagram};
use icmp::Reason;
use interface::Interface;
use ipv4::{Addr, Ipv4View};
use reassembly::{Assembled, Key, Lately, Loss, Pool};
use sockets::{Reception, Sockets};
use udp::UdpView;

impl Layers {
    ghost use Rattle.host.specs.Arrival.{IsLaid, MeetsFragment, MeetsUserDatagram, fragment_outcome, is_late_copy};

    /// Takes a UDP datagram for us that came whole, at this moment: it goes to the socket that is bound to its port, and where none is,
    /// its source is told so (RFC 1122 section 4.1.3.1).
    pub(crate) fn receive(
        &mut self,
        now: Moment,
        received: &ReceivedDatagram<'_>,
    ) -> Result<(), DropCause>
        ensures { MeetsUserDatagram (reception self.old.sockets received.now.datagram) self.old now received.now result self.new }
    {
        let carrier = &received.carrier;
        match self.sockets.receive(carrier.source(), &received.datagram) {
            Reception::Queued => Ok(()),
            Reception::NoRoom => Err(DropCause::NoRoom),
            Reception::NoSocket => self.report(now, Reason::PortUnreachable, carrier),
        }
    }

    /// Takes a fragment of a UDP datagram for us, at this moment (RFC 791 section 3.2). Where it finds no place it is dropped. On guard it changes
    /// nothing where it is a late copy, and else finds a place that has room for it, since the oldest datagram gives way to it.
    pub(crate) fn gather(&mut self, now: Moment, fragment: &Ipv4View<'_>) -> Result<(), DropCause>
        ensures { MeetsFragment (fragment_outcome now fragment.now (pool_for self.old.sockets.manner.guards fragment.now self.old.pool)) (is_late_copy self.old now fragment.now) self.old now fragment.now result self.new }
    {
        if !self.finds_place(fragment) {
            return Err(DropCause::NoRoom);
        }
        if self.is_late_copy(now, fragment) {
            return Ok(());
        }
        make_room(&mut self.pool, self.sockets.is_guarded(), fragment);
        self.lay(now, fragment)
    }

    /// Whether a host on its guard takes a fragment for a late copy.
    fn is_late_copy(&self, now: Moment, fragment: &Ipv4View<'_>) -> bool
        ensures { result ≡ is_late_copy self.now now fragment.now }
    {
        let key = Key::of(fragment);
        self.sockets.is_guarded() && !self.pool.holds(key) && self.lately.was_whole(key, now)
    }

    /// Lays a fragment into the pool, where there is a place. Once its datagram is whole, that is noted on guard, and goes to its socket, where
    /// it is well.
    fn lay(&mut self, now: Moment, fragment: &Ipv4View<'_>) -> Result<(), DropCause>
        ensures { IsLaid (fragment_outcome now fragment.now self.old.pool) self.old now fragment.now result self.new }
    {
        match self.pool.take(now, fragment) {
            Assembled::Whole(whole) => {
                let (source, destination) = (fragment.source(), fragment.destination());
                note(&mut self.lately, self.sockets.is_guarded(), now, fragment);
                if let Ok(datagram) = UdpView::parse(source, destination, whole.octets) {
                    receive_gathered(
                        &mut self.sockets,
                        &mut self.interface,
                        now,
                        source,
                        &datagram,
                        whole.quote,
                    );
                }
                Ok(())
            }
            Assembled::Waiting | Assembled::Dropped(Loss::GivenUp) => Ok(()),
            Assembled::Dropped(Loss::NoRoom) => Err(DropCause::NoRoom),
        }
    }
}

/// On guard, lets the oldest datagram give way where a fragment finds no place.
#[tactic(auto, using(crate::proofs::Parts::room_made))]
fn make_room(pool: &mut Pool, guards: bool, fragment: &Ipv4View<'_>)
    ensures { pool.new ≡ pool_for guards fragment.now pool.old }
{
    if guards && pool.has_room_for(fragment) && !pool.has_place(fragment) {
        pool.give_way();
    }
}

/// Notes on guard that the datagram of a fragment is whole at this moment.
fn note(lately: &mut Lately, guards: bool, now: Moment, fragment: &Ipv4View<'_>)
    ensures { lately.new ≡ (if guards then noted (key_of fragment.now) now lately.old else lately.old) }
{
    if guards {
        lately.note(Key::of(fragment), now);
    }
}

/// Takes a UDP datagram that was put together of fragments, at this moment. Where no socket is bound to its port, its source is told so, with
/// 68 octets of the quote at most; where no more replies may wait, it isn't.
fn receive_gathered(
    sockets: &mut Sockets,
    interface: &mut Interface,
    now: Moment,
    source: Addr,
    datagram: &UdpView<'_>,
    quote: &[u8],
)
    ensures { (pool : PoolView) (lately : List Finished)
        → ◌≡◌ {A = HostView} (record { interface = interface.new; sockets = sockets.new; pool = pool; lately = lately })
        (after_user_datagram (reception sockets.old datagram.now) (record { interface = interface.old; sockets = sockets.old; pool = pool; lately = lately }) now source datagram.now (take 68 quote.now)) }
{
    match sockets.receive(source, datagram) {
        Reception::NoSocket => {
            let _ = interface.report_quote(now, source, Reason::PortUnreachable, quote);
        }
        Reception::Queued | Reception::NoRoom => (),
    }
}
