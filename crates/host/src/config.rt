//! How a host is set up.

ghost use Rattle.std.specs.Prelude.{◌≡◌, ◌↔◌, true, IfOk, IfErr, IsOk, length};
ghost use Rattle.host.specs.ConfigView.{IsOfOne, usual_manner};

use crate::sizes::Sizes;
use ether::{Mac, is_whole_mac};
use ipv4::Addr;
use routes::Routes;
use sockets::Refusal;
use std::marker::Model;
use tcp_state::{Control, Manner, Recovery};

/// How a host is set up: its MAC, its address and its routes, how its connections behave, and how large it is.
#[derive(Drop)]
pub struct Config {
    mac: Mac,
    addr: Addr,
    routes: Routes,
    manner: Manner,
    sizes: Sizes,
}

impl Model for Config {
    ghost use Rattle.ipv4.specs.Addresses.{IsUnicast};
    ghost use Rattle.host.specs.ConfigView.{ConfigView, IsOfOne};

    ghost Value = { ConfigView };

    ghost view = { λ c. record { mac = c.mac; addr = c.addr; routes = c.routes; manner = c.manner; sizes = c.sizes } };

    ghost use Rattle.host.specs.Sizes.{IsSizes};

    ghost invariant = { λ c. IsUnicast c.addr × IsOfOne c.mac × IsSizes c.sizes };
}

impl Config {
    ghost use Rattle.ipv4.specs.Addresses.{IsUnicast};
    ghost use Rattle.host.specs.ConfigView.{IsConfig};
    ghost use Rattle.host.specs.Sizes.{IsSizes};

    /// A host at `addr`, whose interface has this MAC, with these routes. EINVAL where the address isn't unicast (RFC 1122
    /// section 3.2.1.3), or the MAC is that of a group, with the low bit of its first octet set.
    pub fn new(mac: Mac, addr: Addr, routes: Routes) -> Result<Config, Refusal>
        ensures valid { IsOk result ↔ (IsUnicast addr × IsOfOne mac) }
        ensures value { IfOk result (λ config. config ≡ record { mac = mac; addr = addr; routes = routes; manner = usual_manner; sizes = Sizes.USUAL }) }
        ensures refusal { IfErr result (λ refusal. refusal ≡ Refusal.EINVAL) }
    {
        if addr.is_unicast() && is_of_one(mac) {
            Ok(Config {
                mac,
                addr,
                routes,
                manner: Manner {
                    scales: true,
                    minshall: false,
                    control: Control::PLAIN,
                    least_timeout: 1_000,
                    guards: false,
                },
                sizes: Sizes::USUAL,
            })
        } else {
            Err(Refusal::EINVAL)
        }
    }

    /// The same set-up of a host of these sizes; one that `new` makes has `Sizes::USUAL`. EINVAL where one of them lies outside its range.
    pub fn with_sizes(self, sizes: Sizes) -> Result<Config, Refusal>
        ensures valid { IsOk result ↔ IsSizes sizes }
        ensures value { IfOk result (λ config. config ≡ record self { sizes = sizes }) }
        ensures refusal { IfErr result (λ refusal. refusal ≡ Refusal.EINVAL) }
    {
        if sizes.are_valid() {
            Ok(Config { sizes, ..self })
        } else {
            Err(Refusal::EINVAL)
        }
    }

    /// The same set-up of a host that uses the window scale option (RFC 7323 section 2), so that a connection with a peer that uses it holds
    /// as many octets each way as the sizes say, 1,048,576 at most, or of one that doesn't, whose connections hold 65,535 at most. One that `new` makes does.
    pub fn with_scale(self, scales: bool) -> Config
        ensures { result ≡ record self { manner = record self.manner { scales = scales } } }
    {
        let manner = Manner {
            scales,
            ..self.manner
        };
        Config { manner, ..self }
    }

    /// The same set-up of a host whose small segments wait for small ones only, and whose FINs go with the last octets (Minshall, RFC 9293 appendix A.3);
    /// or of one whose small segments wait for all that is outstanding (Nagle, section 3.7.4), and whose FINs go alone, as one that `new` makes.
    pub fn with_minshall(self, minshall: bool) -> Config
        ensures { result ≡ record self { manner = record self.manner { minshall = minshall } } }
    {
        let manner = Manner {
            minshall,
            ..self.manner
        };
        Config { manner, ..self }
    }

    /// The same set-up of a host whose connections repair losses so: by `Recovery::NewReno` with what RFC 6582, 3042 and 3465 have beside RFC 5681 section
    /// 3.2; by `Recovery::Selective` so where the peer takes no selective acknowledgements, else by what is reported of octets that are kept ahead of a gap
    /// (RFC 2018, RFC 6675); or by `Recovery::Plain` with that section alone, as one that `new` makes.
    pub fn with_recovery(self, recovery: Recovery) -> Config
        ensures { result ≡ record self { manner = record self.manner { control = record self.manner.control { recovery = recovery } } } }
    {
        let control = Control {
            recovery,
            ..self.manner.control
        };
        self.with_control(control)
    }

    /// The same set-up of a host that is on its guard, or of one that isn't, as one that `new` makes. On its guard, it drops what comes from the address of a
    /// network on its link, or of all its hosts, and ARP packets of such an address, of a group's MAC and of its own (RFC 1122 section 3.2.1.3). It takes no
    /// octets with an acknowledgement older than the largest window of the peer is wide (RFC 5961 section 5.2), answers at most ten segments a second of a
    /// connection that it doesn't use (section 7), and a SYN that comes again by the SYN-ACK again.
    pub fn with_guards(self, guards: bool) -> Config
        ensures { result ≡ record self { manner = record self.manner { guards = guards } } }
    {
        let manner = Manner {
            guards,
            ..self.manner
        };
        Config { manner, ..self }
    }

    /// The same set-up of a host whose connections begin with a slow start threshold of so many octets (RFC 5681 section 3.1): 65,535 at least and 2^30 at
    /// most, and another number counts as the nearest of these. One that `new` makes has 65,535.
    pub fn with_threshold(self, octets: u32) -> Config
        ensures { result ≡ record self { manner = record self.manner { control = record self.manner.control { first_threshold = octets } } } }
    {
        let control = Control {
            first_threshold: octets,
            ..self.manner.control
        };
        self.with_control(control)
    }

    /// The same set-up of a host whose connections begin with a congestion window of so many segments: 10 at most (RFC 6928), and a larger number counts as
    /// 10. With 0 they begin with two to four, by the size of a segment (RFC 5681 section 3.1), as those of one that `new` makes.
    pub fn with_first_segments(self, segments: u8) -> Config
        ensures { result ≡ record self { manner = record self.manner { control = record self.manner.control { first_segments = segments } } } }
    {
        let control = Control {
            first_segments: segments,
            ..self.manner.control
        };
        self.with_control(control)
    }

    /// The same set-up of a host whose retransmission timeouts are so many milliseconds at least: 200 to 1,000, and another number counts as the nearest of
    /// these. One that `new` makes has 1,000, as RFC 6298 section 2.4 asks; on a real network that is long.
    pub fn with_least_timeout(self, milliseconds: u16) -> Config
        ensures { result ≡ record self { manner = record self.manner { least_timeout = milliseconds } } }
    {
        let manner = Manner {
            least_timeout: milliseconds,
            ..self.manner
        };
        Config { manner, ..self }
    }

    /// The MAC of the host's interface.
    pub fn mac(&self) -> Mac
        ensures { result ≡ self.now.mac }
    {
        self.mac
    }

    /// The host's address.
    pub fn addr(&self) -> Addr
        ensures { result ≡ self.now.addr }
    {
        self.addr
    }

    /// What every set-up keeps of itself, for the contracts above; it changes nothing.
    pub fn sound(&self)
        ensures { IsConfig self.now }
    {
        is_whole_mac(self.mac);
    }

    /// The same set-up with this for the congestion control of its connections.
    fn with_control(self, control: Control) -> Config
        ensures { result ≡ record self { manner = record self.manner { control = control } } }
    {
        let manner = Manner {
            control,
            ..self.manner
        };
        Config { manner, ..self }
    }

    /// Its parts.
    pub(crate) fn into_parts(self) -> (Mac, Addr, Routes, Manner, Sizes)
        ensures parts { (result.0 ≡ self.mac) × (result.1 ≡ self.addr) × (result.2 ≡ self.routes) × (result.3 ≡ self.manner) × (result.4 ≡ self.sizes) }
        ensures sizes { IsSizes self.sizes }
        ensures single { IsUnicast self.addr }
    {
        (self.mac, self.addr, self.routes, self.manner, self.sizes)
    }
}

/// Whether a MAC is that of one interface, and of no group: the low bit of its first octet is not set (IEEE 802).
fn is_of_one(mac: Mac) -> bool
    ensures { (result ≡ true) ↔ IsOfOne mac }
{
    mac.0[0] % 2 == 0
}
