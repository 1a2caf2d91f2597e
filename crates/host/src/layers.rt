//! The layers of a host, and what they keep of themselves.

use interface::Interface;
use reassembly::{Lately, MOST_PLACES, Pool};
use sockets::Sockets;
use std::marker::Model;

/// The frame side of a host, its table of sockets over the same address, the pool in which fragments of datagrams are put together, and the
/// datagrams that were whole lately. What an event makes of them is said here, layer by layer; that they come from a list of events is the host's to keep.
#[derive(Drop)]
pub(crate) struct Layers {
    pub(crate) interface: Interface,
    pub(crate) sockets: Sockets,
    pub(crate) pool: Pool,
    /// Noted on guard alone.
    pub(crate) lately: Lately,
}

impl Model for Layers {
    ghost use Rattle.host.specs.HostView.{HostView};

    ghost Value = { HostView };

    ghost view = { λ h. record { interface = h.interface; sockets = h.sockets; pool = h.pool; lately = h.lately } };
}

impl Layers {
    ghost use Rattle.std.specs.Prelude.{◌≤◌, length};
    ghost use Rattle.interface.specs.Sound.{IsSound};
    ghost use Rattle.sockets.specs.Sound.{IsSoundTable};

    /// What the frame side, the table and the pool keep of themselves, for the contracts above; it changes nothing.
    pub(crate) fn sound(&self)
        ensures interface { IsSound self.now.interface }
        ensures table { IsSoundTable self.now.sockets }
        ensures pool { length self.now.pool.places ≤ MOST_PLACES }
    {
        self.interface.sound();
        self.sockets.sound();
        self.pool.sound();
    }
}
