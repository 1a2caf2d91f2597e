//! The making of a host, and its end.

ghost use Rattle.std.specs.Prelude.{◌≡◌, ◌⊎◌, ◌↔◌, List, None, Ok, Err, IfOk, IfErr, IsOk, MatchResult};
ghost use Rattle.counters.specs.Counting.{new_counters};
ghost use Rattle.host.specs.ConfigView.{IsOfOne};
ghost use Rattle.host.specs.HostView.{new_host};
ghost use Rattle.host.specs.Sizes.{IsSizes};
ghost use Rattle.hostc.specs.Config.{usual_config};
ghost use Rattle.hostc.specs.Counters.{CountsAnew};
ghost use Rattle.hostc.specs.Setup.{IsNew, IsTold, IsValidSetup, IsValidTable, Setup, SetupBy, host_config};
ghost use Rattle.hostc.specs.Types.{addr_of};
ghost use Rattle.ipv4.specs.Addresses.{IsUnicast};
ghost use Rattle.routes.specs.declared.route.Route.{Route};

use crate::config::Config;
use crate::convert::{addr_of, hop_of, refused};
use crate::counted::Counted;
use crate::handle::Handle;
use crate::types::HostRoute;
use ether::Mac;
use host::{Host, Recovery, Refusal, Sizes};
use ipv4::Prefix;
use routes::Routes;
use std::alloc::{AllocFailed, Global};

/// Makes a host with this MAC, address and routes, which uses the window scale option (RFC 7323 section 2), and has the handle hold it. Answers 0.
///
/// EINVAL where the handle holds a host already, a route's prefix is none, two have one prefix, there are over 32 of them, the address is not
/// unicast (RFC 1122 section 3.2.1.3) or the MAC is that of a group; ENOMEM. The handle stays as it was then.
#[unsafe(no_mangle)]
pub extern "C" fn host_new(
    alloc: Global,
    handle: &mut Handle,
    mac: &[u8; 6],
    addr: u32,
    routes: &[HostRoute],
) -> i64
    ensures made { Setup (usual_config (record { 0 = mac.now }) addr) routes.now handle.old.host result handle.new.host }
    ensures counters { CountsAnew result handle.old.counters handle.new.counters }
{
    let config = Config {
        mac: Mac(*mac),
        addr,
        scales: true,
        minshall: false,
        recovery: Recovery::Plain,
        first_segments: 0,
        least_timeout: 1_000,
        first_threshold: 65_535,
        guards: false,
        sizes: Sizes::USUAL,
    };
    set_up(alloc, handle, config, routes)
}

/// `host_new` by the octets of a `struct host_config`, and its routes: it uses the window scale option where the config's own is 0, its small segments
/// wait for small ones only where that option is 1 (RFC 9293 appendix A.3), and losses are repaired by NewReno where that one is (RFC 6582, 3042, 3465), or,
/// where it is 2, by selective acknowledgements where the peer takes them (RFC 2018, RFC 6675).
/// The first window in segments (RFC 6928), the least timeout in milliseconds (RFC 6298 section 2.4) and the first slow start threshold in octets (RFC
/// 5681 section 3.1) are numbers, where 0 is the usual one.
///
/// So are its sizes, which say how large the host is; and no datagrams are put together where that option is 1.
///
/// EINVAL also where the octets are no config: not as many as its size says, fewer than 40, an option that is not one of those numbers, or another
/// octet than 0 behind the last option; and where a size lies outside its range. One of fewer than 44 octets has no first threshold, and one of fewer
/// than 60 no sizes, which are the usual ones then.
#[unsafe(no_mangle)]
pub extern "C" fn host_new_from(
    alloc: Global,
    handle: &mut Handle,
    config: &[u8],
    routes: &[HostRoute],
) -> i64
    ensures made { SetupBy config.now routes.now handle.old.host result handle.new.host }
    ensures counters { CountsAnew result handle.old.counters handle.new.counters }
{
    match Config::read(config) {
        Some(config) => set_up(alloc, handle, config, routes),
        None => refused(Refusal::EINVAL),
    }
}

/// Makes a host by this config and these routes, and has the handle hold it. Answers 0, EINVAL or ENOMEM.
fn set_up(alloc: Global, handle: &mut Handle, config: Config, routes: &[HostRoute]) -> i64
    ensures made { Setup config routes.now handle.old.host result handle.new.host }
    ensures counters { CountsAnew result handle.old.counters handle.new.counters }
{
    if let Some(kept) = handle.take(alloc) {
        handle.put(kept);
        return refused(Refusal::EINVAL);
    }
    match made(alloc, config, routes) {
        Ok(kept) => {
            handle.put(kept);
            0
        }
        Err(refusal) => refused(refusal),
    }
}

/// Ends the host that the handle holds, and gives its memory back. The handle holds none then. Does nothing where it held none.
#[unsafe(no_mangle)]
pub extern "C" fn host_free(alloc: Global, handle: &mut Handle)
    ensures host { handle.new.host ≡ None }
    ensures counters { handle.new.counters ≡ None }
{
    let _ = handle.take(alloc);
}

/// A host by this config, with these routes, on the heap. EINVAL, ENOMEM.
fn made(alloc: Global, config: Config, routes: &[HostRoute]) -> Result<Box<Counted>, Refusal>
    ensures ok { IfOk result (λ kept. IsValidSetup config routes.now × IsNew config routes.now kept.value.host) }
    ensures counters { IfOk result (λ kept. kept.value.counters ≡ new_counters) }
    ensures refusal { IfErr result (λ refusal. ((refusal ≡ Refusal.EINVAL) × ¬ IsValidSetup config routes.now) ⊎ ((refusal ≡ Refusal.ENOMEM) × IsValidSetup config routes.now)) }
{
    match told(config, routes) {
        Ok(set) => kept(alloc, set),
        Err(refusal) => Err(refusal),
    }
}

/// The set-up that this config and these routes tell. EINVAL. What it takes of the stack is free again where the host is made.
#[inline(never)]
fn told(config: Config, routes: &[HostRoute]) -> Result<host::Config, Refusal>
    ensures valid { IsOk result ↔ IsValidSetup config routes.now }
    ensures value { IfOk result (λ set. (table : List Route) × IsTold routes.now table × (set ≡ host_config config table)) }
    ensures refusal { IfErr result (λ refusal. refusal ≡ Refusal.EINVAL) }
{
    let table = table(routes)?;
    with_table(config, table)
}

/// The set-up that this config tells, with these routes. EINVAL.
fn with_table(config: Config, table: Routes) -> Result<host::Config, Refusal>
    ensures valid { IsOk result ↔ (IsOfOne config.mac × IsUnicast (addr_of config.addr) × IsSizes config.sizes) }
    ensures value { IfOk result (λ set. set ≡ host_config config table) }
    ensures refusal { IfErr result (λ refusal. refusal ≡ Refusal.EINVAL) }
{
    let set = host::Config::new(config.mac, addr_of(config.addr), table)?
        .with_scale(config.scales)
        .with_minshall(config.minshall)
        .with_recovery(config.recovery)
        .with_guards(config.guards)
        .with_threshold(config.first_threshold)
        .with_first_segments(config.first_segments)
        .with_least_timeout(config.least_timeout);
    set.with_sizes(config.sizes)
}

/// A host with this set-up, on the heap, of which nothing is counted yet. ENOMEM.
#[inline(never)]
fn kept(alloc: Global, set: host::Config) -> Result<Box<Counted>, Refusal>
    ensures ok { IfOk result (λ kept. (kept.value.host ≡ new_host set) × (kept.value.counters ≡ new_counters)) }
    ensures refusal { IfErr result (λ refusal. refusal ≡ Refusal.ENOMEM) }
{
    match Host::new(alloc, set) {
        Ok(host) => boxed(alloc, host),
        Err(refusal) => Err(refusal),
    }
}

/// A host on the heap, of which nothing is counted yet. ENOMEM.
fn boxed(alloc: Global, host: Host) -> Result<Box<Counted>, Refusal>
    ensures ok { IfOk result (λ kept. (kept.value.host ≡ host) × (kept.value.counters ≡ new_counters)) }
    ensures refusal { IfErr result (λ refusal. refusal ≡ Refusal.ENOMEM) }
{
    in_box(Box::new(alloc, Counted::new(host)))
}

/// The host in its box. ENOMEM exactly where memory was refused that.
fn in_box(given: Result<Box<Counted>, AllocFailed<Counted>>) -> Result<Box<Counted>, Refusal>
    ensures { MatchResult given (λ kept. result ≡ Ok kept) (λ refused. result ≡ Err Refusal.ENOMEM) }
{
    given.map_err(|_| Refusal::ENOMEM)
}

/// The table of these routes. EINVAL where they make none: where there are over 32 of them none is read.
fn table(given: &[HostRoute]) -> Result<Routes, Refusal>
    ensures valid { IsOk result ↔ IsValidTable given.now }
    ensures told { IfOk result (λ table. IsTold given.now table) }
    ensures refusal { IfErr result (λ refusal. refusal ≡ Refusal.EINVAL) }
{
    if given.len() > routes::MOST {
        return Err(Refusal::EINVAL);
    }
    let mut routes = Routes::new();
    for route in given {
        let Ok(prefix) = Prefix::new(addr_of(route.prefix), route.length) else {
            return Err(Refusal::EINVAL);
        };
        let Ok(()) = routes.add(prefix, hop_of(route.gateway)) else {
            return Err(Refusal::EINVAL);
        };
    }
    Ok(routes)
}
