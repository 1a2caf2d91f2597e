//! The two hosts of a script and of a copy, and how each is set up.

ghost use Rattle.std.specs.Prelude.{◌≡◌, true, [], ◌∷◌};
ghost use Rattle.routes.specs.declared.route.Route.{Route};
ghost use Rattle.wire_sim.specs.Hosts.{address_of, mac_of, IsLinkRoute, IsSetUp};

use ether::Mac;
use host::Config;
use ipv4::{Addr, Prefix};
use routes::{Hop, Routes};
use sides::Side;

/// The address of a side's host.
pub fn address(side: Side) -> Addr
    ensures { result ≡ address_of side }
{
    match side {
        Side::A => Addr([10, 0, 0, 1]),
        Side::B => Addr([10, 0, 0, 2]),
    }
}

/// The MAC of a side's host.
pub fn mac(side: Side) -> Mac
    ensures { result ≡ mac_of side }
{
    match side {
        Side::A => Mac([2, 0, 0, 0, 0, 1]),
        Side::B => Mac([2, 0, 0, 0, 0, 2]),
    }
}

/// The routes of both hosts: 10.0.0.0/24 is on the link.
fn link() -> Routes
    ensures { (route : Route) × (result ≡ route ∷ []) × IsLinkRoute route }
{
    let mut routes = Routes::new();
    let prefix = Prefix::new(Addr([10, 0, 0, 0]), 24).unwrap();
    routes.add(prefix, Hop::Direct).unwrap();
    routes
}

/// How a side's host is set up: its MAC, its address, and the one route. It uses the window scale option, and is of the usual sizes.
pub fn config(side: Side) -> Config
    ensures { IsSetUp true side result }
{
    Config::new(mac(side), address(side), link()).unwrap()
}
