//! A world: two hosts and all that happened to them.

ghost use Rattle.std.specs.Prelude.{◌≡◌, ◌⊎◌, ◌<◌, ◌≤◌, ◌+◌, true, false, [], ◌∷◌, ◌++◌, length, take, drop, ◌^◌, ◌↔◌, vec_len, vec_capacity, slice_get, option_map, None, IsOk, OnOk, OnErr, IfOk, IfErr, MatchOption};
ghost use Rattle.ether.specs.declared.head.TheConstants.{FRAME_MAX};
ghost use Rattle.wire_sim.specs.declared.event.Answer.{Answer};
ghost use Rattle.wire_sim.specs.Steps.{event_recv_len, is_emission};
ghost use Rattle.wire_sim.specs.WorldView.{network_view};
ghost use Rattle.wire_sim.specs.WorldRoom.{network_room, KeepsNetworkRoom};

mod bag;
mod ledger;
mod network;
mod round;
mod station;

use crate::event::{Answer, Event, Happening, Opening, Unfair, WorldFault};
use crate::room::Room;
use host::{Config, Host, Refusal};
use network::Network;
use std::alloc::{AllocError, Global};
use std::marker::Model;

/// By how many octets an end's writing has grown when a frame that went out before is stale.
const LIMIT: u64 = 1 << 30;

/// Two hosts, the frames that they emitted, and all that happened.
pub struct World {
    alloc: Global,
    network: Network,
    trace: Vec<Happening>,
}

impl Model for World {
    ghost use Rattle.std.specs.Prelude.{ℕ, ◌*◌, ◌≤◌, length, slice_index_or, vec_capacity};
    ghost use Rattle.wire_sim.specs.WorldView.{network_view};
    ghost use Rattle.wire_sim.specs.WorldRoom.{RoomyWorld, network_room};
    ghost use Rattle.tcp_halves.specs.declared.buffers.TheConstants.{LARGEST_CAPACITY};
    ghost use Rattle.wire_sim.specs.Runs.{IsReached};

    ghost Value = { RoomyWorld };

    ghost view = { λ w. record {
      seen = record { network = network_view w.network; trace = w.trace.items };
      room = record { network = network_room w.network; trace = vec_capacity w.trace };
    } };

    // One event adds at most LARGEST_CAPACITY octets to a count: no connection's buffer holds more. What stands in the fields is what
    // a run of the definitions leads to.
    ghost invariant = { λ w. ((i : ℕ) → slice_index_or w.network.ledger.written.items i 0 ≤ LARGEST_CAPACITY * length w.trace.items)
        × IsReached w.network.limit (record { network = network_view w.network; trace = w.trace.items }) };
}

// Written out: the proof of what lets a world go then has one call, and not each part of it.
impl Drop for World {
    fn drop(self) {
        let World {
            alloc: _,
            network: _,
            trace: _,
        } = self;
    }
}

impl World {
    ghost use Rattle.host.specs.Sound.{IsSoundHost};
    ghost use Rattle.wire_sim.specs.Datagrams.{DatagramLaw};
    ghost use Rattle.wire_sim.specs.RoomyRuns.{RoomyRunsTo};
    ghost use Rattle.wire_sim.specs.Runs.{unfair, IsStep, IsReached, SameEvent, IsOutcome};
    ghost use Rattle.wire_sim.specs.Trace.{StreamLaw};
    ghost use Rattle.wire_sim.specs.WorldRoom.{HasRoomFor, HasRoom, IsPlain, KeepsRoom, event_octets};
    ghost use Rattle.wire_sim.specs.WorldView.{SameAnswer, fresh_world, world_with};

    /// Two hosts on one link that have heard nothing of each other, no frames, and nothing happened. SameAddress where both have one address or one MAC;
    /// otherwise NoMemory where there is no memory for a host.
    pub fn new(alloc: Global, a: Config, b: Config) -> Result<World, WorldFault>
        ensures same { (result ≡ Err WorldFault.SameAddress) ↔ ((a.addr ≡ b.addr) ⊎ (a.mac ≡ b.mac)) }
        ensures fresh { IfOk result (λ world. world.seen ≡ fresh_world a b (2 ^ 30)) }
        ensures reached { IfOk result (λ world. IsReached (2 ^ 30) world.seen) }
        ensures lawful { IfOk result (λ world. StreamLaw world.seen.trace world.seen.network.openings) }
    {
        World::with_limit(alloc, a, b, LIMIT)
    }

    /// As `new`, where a frame is stale once an end has written `limit` octets or more since it went out.
    pub fn with_limit(alloc: Global, a: Config, b: Config, limit: u64) -> Result<World, WorldFault>
        requires { (1 ≤ limit) × (limit ≤ 2 ^ 30) }
        ensures same { (result ≡ Err WorldFault.SameAddress) ↔ ((a.addr ≡ b.addr) ⊎ (a.mac ≡ b.mac)) }
        ensures fresh { IfOk result (λ world. world.seen ≡ fresh_world a b limit) }
        ensures reached { IfOk result (λ world. IsReached limit world.seen) }
        ensures lawful { IfOk result (λ world. StreamLaw world.seen.trace world.seen.network.openings) }
    {
        if a.addr() == b.addr() || a.mac() == b.mac() {
            return Err(WorldFault::SameAddress);
        }
        a.sound();
        b.sound();
        let a = Host::new(alloc, a);
        let b = Host::new(alloc, b);
        World::of(alloc, a, b, limit)
    }

    /// The world of these two hosts. NoMemory exactly where memory was refused one.
    fn of(
        alloc: Global,
        a: Result<Host, Refusal>,
        b: Result<Host, Refusal>,
        limit: u64,
    ) -> Result<World, WorldFault>
        requires { IfOk a (λ first. IfOk b (λ second. IsReached limit (world_with first second limit))) }
        ensures had { IsOk result ↔ (IsOk a × IsOk b) }
        ensures seen { IfOk a (λ first. IfOk b (λ second. IfOk result (λ world. world.seen ≡ world_with first second limit))) }
        ensures fault { IfErr result (λ fault. fault ≡ WorldFault.NoMemory) }
        ensures reached { IfOk result (λ world. IsReached limit world.seen) }
        ensures lawful { IfOk result (λ world. StreamLaw world.seen.trace world.seen.network.openings) }
    {
        match (a, b) {
            (Ok(a), Ok(b)) => Ok(World {
                alloc,
                network: Network::new(alloc, a, b, limit),
                trace: Vec::new(alloc),
            }),
            _ => Err(WorldFault::NoMemory),
        }
    }

    /// Makes room for so many events more in each of the world's lists: as many plain ones then can't be refused for want of memory. NoMemory
    /// where there is none, and then nothing that is seen has changed.
    pub fn reserve(&mut self, events: usize) -> Result<(), WorldFault>
        ensures room { OnOk result (HasRoomFor events self.new) }
        ensures full { HasRoomFor events self.old → IsOk result }
        ensures fault { IfErr result (λ fault. fault ≡ WorldFault.NoMemory) }
        ensures seen { self.new.seen ≡ self.old.seen }
        ensures kept { KeepsRoom self.old.room self.new.room }
    {
        let _ = &self.alloc;
        if self.network.reserve(events).is_err() || self.trace.reserve(events).is_err() {
            return Err(WorldFault::NoMemory);
        }
        Ok(())
    }

    /// Gives one event to the host that it names, and answers what the host answers.
    ///
    /// NoSuchFrame, OtherEpoch, Stale, SecondOpening, NoMemory, tested in this order; the world is then as it was. NoMemory comes only where
    /// one of the world's lists has no room for one element more, or the event wants octets of its own: a receive, or an emission. No list
    /// ever has less room than it had.
    pub fn step(&mut self, event: Event) -> Result<Answer, Unfair>
        ensures unfair { MatchOption (unfair self.old.seen event)
            (IfErr result (λ refusal. refusal ≡ Unfair.NoMemory)) (λ refusal. result ≡ Err refusal) }
        ensures memory { unfair self.old.seen event ≡ None → HasRoom self.old → IsPlain event → IsOk result }
        ensures room { KeepsRoom self.old.room self.new.room }
        ensures refused { OnErr result (self.new.seen ≡ self.old.seen) }
        ensures taken { IfOk result (λ told. (answer : Answer) × SameAnswer told answer × IsStep event answer self.old.seen self.new.seen) }
        ensures reached { IsReached self.new.seen.network.limit self.new.seen }
        ensures lawful { StreamLaw self.new.seen.trace self.new.seen.network.openings }
        ensures datagrams { (run : IsReached self.new.seen.network.limit self.new.seen) → DatagramLaw self.new.seen.network.limit self.new.seen run }
    {
        self.network.sound();
        self.network.admits(&event)?;
        let Ok(room) = reserve(self.alloc, &mut self.network, &mut self.trace, &event) else {
            return Err(Unfair::NoMemory);
        };
        let Room { octets, copy } = room;
        let answer = self.network.perform(&event, self.trace.len(), octets);
        let told = answer.copied(copy);
        note(&mut self.trace, event, answer);
        Ok(told)
    }

    /// Gives each event in turn to `step`, and appends its result. NoMemory, with nothing done, where `results` has no room for them all and cannot
    /// grow. Of one event NoMemory is told only where `step` tells it, or the event owns octets, of which a copy is made.
    pub fn run(
        &mut self,
        events: &[Event],
        results: &mut Vec<Result<Answer, Unfair>>,
    ) -> Result<(), WorldFault>
        ensures kept { take (length results.old.items) results.new.items ≡ results.old.items }
        ensures one_each { OnOk result (length results.new.items ≡ length results.old.items + length events.now) }
        ensures steps { OnOk result (RoomyRunsTo events.now (drop (length results.old.items) results.new.items) self.old self.new) }
        ensures err { OnErr result ((self.new ≡ self.old) × (results.new.items ≡ results.old.items)) }
        ensures fault { IfErr result (λ fault. fault ≡ WorldFault.NoMemory) }
        ensures full { OnErr result (vec_capacity results.old < vec_len results.old + length events.now) }
        ensures reached { IsReached self.new.seen.network.limit self.new.seen }
        ensures lawful { StreamLaw self.new.seen.trace self.new.seen.network.openings }
        ensures datagrams { (run : IsReached self.new.seen.network.limit self.new.seen) → DatagramLaw self.new.seen.network.limit self.new.seen run }
    {
        let _ = &self.alloc;
        if results.reserve(events.len()).is_err() {
            return Err(WorldFault::NoMemory);
        }
        for event in events {
            let outcome = self.give(event);
            tell(results, outcome);
        }
        Ok(())
    }

    /// Gives a copy of an event to `step`. NoMemory also where there is no memory for the copy, and only octets want memory.
    fn give(&mut self, event: &Event) -> Result<Answer, Unfair>
        ensures outcome { (given : Event) × SameEvent given event.now × IsOutcome given result self.old.seen self.new.seen }
        ensures memory { unfair self.old.seen event.now ≡ None → HasRoom self.old → IsPlain event.now → event_octets event.now ≡ None → IsOk result }
        ensures room { KeepsRoom self.old.room self.new.room }
        ensures reached { IsReached self.new.seen.network.limit self.new.seen }
        ensures lawful { StreamLaw self.new.seen.trace self.new.seen.network.openings }
    {
        let _ = &self.alloc;
        match event.clone() {
            Ok(event) => self.step(event),
            // Only what is sent owns octets that take memory, and no rule refuses a send.
            Err(_) => Err(Unfair::NoMemory),
        }
    }

    /// What each of the two hosts keeps of itself, as `Host::sound` says, for the contracts above; it changes nothing. With `laws::every_host_runs` it gives the premises
    /// that laws of `host` have of a host.
    pub fn sound(&self)
        ensures a { IsSoundHost self.now.seen.network.a.host }
        ensures b { IsSoundHost self.now.seen.network.b.host }
        ensures reached { IsReached self.now.seen.network.limit self.now.seen }
    {
        self.network.sound();
    }

    /// When a host came to hold a pair, in order.
    pub fn openings(&self) -> &[Opening]
        ensures openings { result.now ≡ self.now.seen.network.openings }
        ensures reached { IsReached self.now.seen.network.limit self.now.seen }
    {
        self.network.openings()
    }

    /// The octets of the frame with this index: the frames that went out are numbered from 0 on, in order.
    pub fn frame(&self, index: usize) -> Option<&[u8]>
        ensures { option_map (λ octets. octets.now) result ≡ option_map (λ f. f.octets.items) (slice_get self.now.seen.network.frames index) }
    {
        self.network.frame(index)
    }

    /// The events that were taken, with their answers, in order.
    pub fn trace(&self) -> &[Happening]
        ensures trace { result.now ≡ self.now.seen.trace }
        ensures reached { IsReached self.now.seen.network.limit self.now.seen }
        ensures lawful { StreamLaw result.now self.now.seen.network.openings }
    {
        self.trace.as_slice()
    }
}

/// Takes all memory that `event` may need. It fails only where a list has no room for one element more, or the event wants octets of its own.
fn reserve(
    alloc: Global,
    network: &mut Network,
    trace: &mut Vec<Happening>,
    event: &Event,
) -> Result<Room, AllocError>
    ensures network { network_view network.new ≡ network_view network.old }
    ensures trace { trace.new.items ≡ trace.old.items }
    ensures bag { OnOk result (vec_len network.new.bag < vec_capacity network.new.bag) }
    ensures openings { OnOk result (vec_len network.new.ledger.openings < vec_capacity network.new.ledger.openings) }
    ensures counts { OnOk result (vec_len network.new.ledger.written < vec_capacity network.new.ledger.written) }
    ensures happening { OnOk result (vec_len trace.new < vec_capacity trace.new) }
    ensures read { IfOk result (λ room. vec_len room.octets ≡ event_recv_len event.now) }
    ensures room { IfOk result (λ room. is_emission event.now ≡ true → FRAME_MAX ≤ vec_capacity room.octets) }
    ensures memory { vec_len network.old.bag + 1 ≤ vec_capacity network.old.bag → vec_len network.old.ledger.openings + 1 ≤ vec_capacity network.old.ledger.openings
        → vec_len network.old.ledger.written + 1 ≤ vec_capacity network.old.ledger.written → vec_len trace.old + 1 ≤ vec_capacity trace.old
        → event_recv_len event.now ≡ 0 → is_emission event.now ≡ false → IsOk result }
    ensures network_room { KeepsNetworkRoom (network_room network.old) (network_room network.new) }
    ensures trace_room { vec_capacity trace.old ≤ vec_capacity trace.new }
{
    network.reserve(1)?;
    trace.reserve(1)?;
    Room::for_event(alloc, event)
}

/// Puts an event with its answer at the end of the trace, which has room for it.
fn note(trace: &mut Vec<Happening>, event: Event, answer: Answer)
    requires { vec_len trace.old < vec_capacity trace.old }
    ensures items { trace.new.items ≡ trace.old.items ++ record { event = event; answer = answer } ∷ [] }
    ensures room { vec_capacity trace.new ≡ vec_capacity trace.old }
{
    trace.push_reserved(Happening { event, answer });
}

/// Puts the outcome of an event behind the others, which have room for it.
fn tell(results: &mut Vec<Result<Answer, Unfair>>, outcome: Result<Answer, Unfair>)
    requires { vec_len results.old < vec_capacity results.old }
    ensures items { results.new.items ≡ results.old.items ++ outcome ∷ [] }
    ensures len { vec_len results.new ≡ vec_len results.old + 1 }
    ensures room { vec_capacity results.new ≡ vec_capacity results.old }
{
    results.push_reserved(outcome);
}
