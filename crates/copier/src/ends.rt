//! The two hosts of a copy, and the one connection between them.

ghost use Rattle.std.specs.Prelude.{◌≡◌, ◌≤◌, ◌+◌, ◌<◌, ◌^◌, true, false, [], length, take, min, None, Some, Ok, is_some, IfOk, IfErr, OnOk, OnErr, IfSome, IfNone};
ghost use Rattle.devices.specs.Streams.{counted};
ghost use Rattle.devices.specs.Time.{IsToldTime};
ghost use Rattle.copier.specs.Faults.{link_fails, IsOfBeginning, IsOfHosts};
ghost use Rattle.copier.specs.Moves.{copy_of, host_of, with_host, GoesOn, Emits, Hears, Writes, Closes, Reads, GivesFront, KeepsTold, Carries, Passes};
ghost use Rattle.copy_law.specs.Course.{IsCourse, holds_pair_of, MakesSocket, Listens, Connects, clock_after};
ghost use Rattle.host.specs.Sound.{IsSoundHost};
ghost use Rattle.host.specs.ConfigView.{IsConfig};
ghost use Rattle.host.specs.HostView.{HostView, new_host, with_sockets};
ghost use Rattle.sockets.specs.Calls.{recv_answer, after_recv};
ghost use Rattle.host.specs.Emission.{after_emission, emission_front, emission_len};
ghost use Rattle.host.specs.Ticks.{after_tick};
ghost use Rattle.sockets.specs.Sound.{IsEndpoint};
ghost use Rattle.wire_sim.specs.Hosts.{address_of, IsSetUp};

use crate::fault::CopyFault;
use clock::{Moment, sooner};
use devices::Link;
use ether::FRAME_MAX;
use frames::pair_in;
use host::{Host, Kind, Refusal, SocketId};
use ipv4::Endpoint;
use std::alloc::Global;
use tcp_halves::LARGEST_CAPACITY;
use tcp_segment::{MSS, Seq};
use tcp_state::Received;
use wire_sim::{Side, address, config};

/// The port of b that a connects to.
const PORT: u16 = 80;

/// The initial sequence number of a.
const ISN_OF_A: Seq = Seq(1_000);

/// The initial sequence number of b.
const ISN_OF_B: Seq = Seq(2_000);

/// The most frames that go one way in a turn.
const MOST_FRAMES: usize = 64;

/// What a receive brought.
#[derive(Clone, Copy, Debug, PartialEq, Eq)]
pub(crate) enum Arrival {
    /// Nothing yet.
    Nothing,
    /// So many octets.
    Octets(usize),
    /// The end of the stream.
    End,
}

/// Which way a frame goes between a side's host and the link.
#[derive(Clone, Copy, Debug, PartialEq, Eq)]
enum Leg {
    /// From the host into the link.
    From(Side),
    /// Out of the link, to the host.
    To(Side),
}

/// Two hosts. a opens a connection to b and writes, b accepts it and reads.
#[derive(Drop)]
pub(crate) struct Ends {
    a: Host,
    b: Host,
    clock: Moment,
    sender: SocketId,
    listener: SocketId,
    receiver: Option<SocketId>,
    // Whether b has held the pair of a frame that it took.
    opened: bool,
    // How many octets a is given at most. No connection takes more than it may hold beyond what its segments can have carried away, so this
    // never bounds what it takes; but it tells at once that no frame is old while few later ones went out.
    allowance: usize,
}

impl Ends {
    /// Two hosts that have heard nothing of each other. b listens, and a opens a connection.
    pub(crate) fn new(alloc: Global) -> Result<Ends, CopyFault>
        ensures course { IfOk result (λ ends. IsCourse (copy_of ends [] [] [] false false)) }
        ensures fault { IfErr result IsOfBeginning }
    {
        let mut a = host(alloc, Side::A)?;
        let mut b = host(alloc, Side::B)?;
        let listener = listen(&mut b)?;
        b.sound();
        let sender = connect(&mut a)?;
        Ok(Ends {
            a,
            b,
            clock: Moment(0),
            sender,
            listener,
            receiver: None,
            opened: false,
            allowance: LARGEST_CAPACITY,
        })
    }

    /// The frame that is due at a side's host. Once it is in the link, a may be given more.
    fn emit(&mut self, from: Side, frame: &mut [u8; FRAME_MAX]) -> Option<usize>
        ensures bound { IfSome result (λ len. len ≤ FRAME_MAX) }
        ensures emits { IfSome result (λ len. Emits from (take len frame.new) self.old self.new) }
        ensures none { IfNone result (self.new ≡ self.old) }
        ensures clock { self.new.clock ≡ self.old.clock }
    {
        self.sound();
        let len = self.next_frame(from, frame)?;
        self.allowance = more_allowed(self.allowance);
        Some(len)
    }

    /// The next frame of a side's host, if one is due.
    fn next_frame(&mut self, from: Side, frame: &mut [u8; FRAME_MAX]) -> Option<usize>
        ensures answer { result ≡ emission_len (host_of self.old from) self.old.clock }
        ensures bound { IfSome result (λ len. len ≤ FRAME_MAX) }
        ensures after { self.new ≡ with_host self.old from (after_emission (host_of self.old from) self.old.clock) }
        ensures frame { frame.new ≡ emission_front (host_of self.old from) self.old.clock frame.old }
        ensures allowance { self.new.allowance ≡ self.old.allowance }
        ensures clock { self.new.clock ≡ self.old.clock }
    {
        match from {
            Side::A => self.a.next_frame(self.clock, frame),
            Side::B => self.b.next_frame(self.clock, frame),
        }
    }

    /// A side's host takes a frame. One that would open a connection again is passed over.
    fn hear(&mut self, to: Side, frame: &[u8])
        ensures hears { Hears to frame.now self.old self.new }
        ensures clock { self.new.clock ≡ self.old.clock }
    {
        match to {
            Side::A => self.hear_at_a(frame),
            Side::B => self.hear_at_b(frame),
        }
    }

    /// a takes a frame. Its connection is open, so it opens none.
    fn hear_at_a(&mut self, frame: &[u8])
        ensures hears { Hears Side.A frame.now self.old self.new }
        ensures clock { self.new.clock ≡ self.old.clock }
    {
        self.sound();
        if self.a.would_open(frame).is_some() {
            return;
        }
        let _ = self.a.deliver(self.clock, ISN_OF_B, frame);
    }

    /// b takes a frame, which opens a connection once.
    fn hear_at_b(&mut self, frame: &[u8])
        ensures hears { Hears Side.B frame.now self.old self.new }
        ensures clock { self.new.clock ≡ self.old.clock }
    {
        self.sound();
        if self.opened && self.b.would_open(frame).is_some() {
            return;
        }
        let _ = self.b.deliver(self.clock, ISN_OF_B, frame);
        self.opened = self.opened || self.b_holds_pair_of(frame);
    }

    /// Whether b holds the pair of the segment in a frame.
    fn b_holds_pair_of(&self, frame: &[u8]) -> bool
        ensures { result ≡ holds_pair_of self.now.b frame.now }
    {
        match pair_in(frame) {
            Some(pair) => self.b.holds(pair).is_some(),
            None => false,
        }
    }

    /// Hands a frame of a side's host to the link, and answers whether there was one.
    fn hand_over<L: Link>(&mut self, from: Side, link: &mut L) -> Result<bool, CopyFault>
        requires { IsToldTime (L.clock link.old) self.old.clock }
        ensures time { IsToldTime (L.clock link.new) self.new.clock }
        ensures passes { Passes result (L.failures link.old) (L.failures link.new) (L.told link.old) (L.told link.new) self.old self.new }
        ensures leads { L.leads_to link.old link.new }
    {
        let mut frame = [0; FRAME_MAX];
        let Some(len) = self.emit(from, &mut frame) else {
            return Ok(false);
        };
        match link.send(from, &frame[..len]) {
            Ok(()) => Ok(true),
            Err(_) => Err(CopyFault::Link),
        }
    }

    /// Hands a frame of the link to a side's host, and answers whether there was one.
    fn take_in<L: Link>(&mut self, to: Side, link: &mut L) -> Result<bool, CopyFault>
        requires { IsToldTime (L.clock link.old) self.old.clock }
        ensures time { IsToldTime (L.clock link.new) self.new.clock }
        ensures passes { Passes result (L.failures link.old) (L.failures link.new) (L.told link.old) (L.told link.new) self.old self.new }
        ensures leads { L.leads_to link.old link.new }
    {
        let mut frame = [0; FRAME_MAX];
        match link.recv(to, &mut frame) {
            Ok(Some(len)) => {
                self.hear(to, &frame[..len]);
                Ok(true)
            }
            Ok(None) => Ok(false),
            Err(_) => Err(CopyFault::Link),
        }
    }

    /// Hands one frame over, the one way or the other, and answers whether there was one.
    fn pass<L: Link>(&mut self, leg: Leg, link: &mut L) -> Result<bool, CopyFault>
        requires { IsToldTime (L.clock link.old) self.old.clock }
        ensures time { IsToldTime (L.clock link.new) self.new.clock }
        ensures passes { Passes result (L.failures link.old) (L.failures link.new) (L.told link.old) (L.told link.new) self.old self.new }
        ensures leads { L.leads_to link.old link.new }
    {
        match leg {
            Leg::From(side) => self.hand_over(side, link),
            Leg::To(side) => self.take_in(side, link),
        }
    }

    /// Hands all frames over one way, at most 64, and answers whether there were any.
    fn pass_all<L: Link>(&mut self, leg: Leg, link: &mut L) -> Result<bool, CopyFault>
        requires { IsToldTime (L.clock link.old) self.old.clock }
        ensures time { IsToldTime (L.clock link.new) self.new.clock }
        ensures passes { Passes result (L.failures link.old) (L.failures link.new) (L.told link.old) (L.told link.new) self.old self.new }
        ensures leads { L.leads_to link.old link.new }
    {
        let mut moved = false;
        for _ in 0..MOST_FRAMES {
            match self.pass(leg, link) {
                Ok(true) => moved = true,
                Ok(false) => return Ok(moved),
                Err(fault) => return Err(fault),
            }
        }
        Ok(moved)
    }

    /// The link hears which moment it is; frames of a, then of b, go into it, and then out of it to b and to a. Answers whether any moved.
    pub(crate) fn carry<L: Link>(&mut self, link: &mut L) -> Result<bool, CopyFault>
        ensures failed { L.failures link.new ≡ counted (link_fails result) (L.failures link.old) }
        ensures fault { IfErr result (λ fault. fault ≡ CopyFault.Link) }
        ensures told { KeepsTold (L.told link.old) (L.told link.new) }
        ensures leads { L.leads_to link.old link.new }
        ensures carries { OnOk result (Carries (L.told link.old) (L.told link.new) self.old self.new) }
    {
        link.tick(self.clock);
        let from_a = self.pass_all(Leg::From(Side::A), link)?;
        let from_b = self.pass_all(Leg::From(Side::B), link)?;
        let to_b = self.pass_all(Leg::To(Side::B), link)?;
        let to_a = self.pass_all(Leg::To(Side::A), link)?;
        Ok(from_a | from_b | to_b | to_a)
    }

    /// a takes octets to send, and answers how many.
    pub(crate) fn send(&mut self, octets: &[u8]) -> Result<usize, CopyFault>
        ensures few { IfOk result (λ count. count ≤ length octets.now) }
        ensures writes { IfOk result (λ count. Writes (take count octets.now) self.old self.new) }
        ensures fault { IfErr result IsOfHosts }
    {
        self.sound();
        let most = octets.len().min(self.allowance);
        match self.a.send(self.sender, &octets[..most]) {
            Ok(count) => {
                self.allowance -= count;
                Ok(count)
            }
            Err(Refusal::EAGAIN) => Ok(0),
            Err(refusal) => Err(CopyFault::Host(refusal)),
        }
    }

    /// a closes its side, and answers whether it could; it can't while the connection is being opened.
    pub(crate) fn close(&mut self) -> Result<bool, CopyFault>
        ensures closes { IfOk result (λ does. Closes does self.old self.new) }
        ensures fault { IfErr result IsOfHosts }
    {
        self.sound();
        match self.a.shutdown_write(self.sender) {
            Ok(()) => Ok(true),
            Err(Refusal::ENOTCONN) => Ok(false),
            Err(refusal) => Err(CopyFault::Host(refusal)),
        }
    }

    /// b accepts the connection, and answers whether it did now.
    pub(crate) fn accept(&mut self) -> Result<bool, CopyFault>
        ensures course { OnOk result (GoesOn self.old self.new) }
        ensures fault { IfErr result IsOfHosts }
    {
        self.sound();
        if self.receiver.is_some() {
            return Ok(false);
        }
        match self.b.accept(self.listener) {
            Ok((id, _)) => {
                self.receiver = Some(id);
                Ok(true)
            }
            Err(Refusal::EAGAIN) => Ok(false),
            Err(refusal) => Err(CopyFault::Host(refusal)),
        }
    }

    /// b reads octets of the connection into the front of `buffer`.
    pub(crate) fn receive(&mut self, buffer: &mut [u8]) -> Result<Arrival, CopyFault>
        requires { length buffer.old ≤ LARGEST_CAPACITY }
        ensures reads { IfOk result (λ arrival. Reads arrival buffer.new self.old self.new) }
        ensures fault { IfErr result IsOfHosts }
    {
        self.sound();
        let Some(id) = self.receiver else {
            return Ok(Arrival::Nothing);
        };
        match read(&mut self.b, id, buffer) {
            Ok(Received::Octets(count)) => Ok(Arrival::Octets(count)),
            Ok(Received::EndOfStream) => Ok(Arrival::End),
            Err(Refusal::EAGAIN) => Ok(Arrival::Nothing),
            Err(refusal) => Err(CopyFault::Host(refusal)),
        }
    }

    /// Both clocks come to the first moment that a host waits for.
    pub(crate) fn advance(&mut self) -> Result<(), CopyFault>
        ensures course { OnOk result (GoesOn self.old self.new) }
        ensures fault { IfErr result IsOfHosts }
    {
        let deadline = sooner(self.a.next_deadline(), self.b.next_deadline());
        let Some(moment) = deadline else {
            return Err(CopyFault::Stalled);
        };
        self.tick(moment);
        Ok(())
    }

    /// Both clocks come to a moment.
    fn tick(&mut self, moment: Moment)
        ensures { GoesOn self.old self.new }
    {
        self.sound();
        self.clock = later(self.clock, moment);
        self.a.tick(moment);
        self.a.sound();
        self.b.tick(moment);
    }

    /// What both hosts keep of themselves, for the contracts above; it changes nothing.
    fn sound(&self)
        ensures a { IsSoundHost self.now.a }
        ensures b { IsSoundHost self.now.b }
    {
        self.a.sound();
        self.b.sound();
    }
}

/// Reads octets of a socket into the front of `buffer`.
fn read(host: &mut Host, id: SocketId, buffer: &mut [u8]) -> Result<Received, Refusal>
    ensures answer { result ≡ recv_answer host.old.sockets id (length buffer.old) }
    ensures front { IfOk result (λ told. GivesFront told buffer.new host.old.sockets id) }
    ensures ok { OnOk result (host.new ≡ with_sockets host.old (after_recv host.old.sockets id (length buffer.old))) }
    ensures err { OnErr result (host.new ≡ host.old) }
{
    host.recv(id, buffer)
}

/// What a is allowed once a frame more went out.
fn more_allowed(allowance: usize) -> usize
    ensures { result ≡ min (allowance + MSS) LARGEST_CAPACITY }
{
    allowance
        .saturating_add(usize::from(MSS))
        .min(LARGEST_CAPACITY)
}

/// A clock after a tick at a moment.
fn later(clock: Moment, moment: Moment) -> Moment
    ensures { result ≡ clock_after clock moment }
{
    if moment > clock { moment } else { clock }
}

/// The host of a side.
fn host(alloc: Global, side: Side) -> Result<Host, CopyFault>
    ensures host { IfOk result (λ host. (config : _) × IsSetUp true side config × IsConfig config × (host ≡ new_host config)) }
    ensures fault { IfErr result IsOfBeginning }
{
    let config = config(side);
    config.sound();
    match Host::new(alloc, config) {
        Ok(host) => Ok(host),
        Err(refusal) => Err(CopyFault::Host(refusal)),
    }
}

/// Where b listens.
fn peer() -> Endpoint
    ensures { IsEndpoint result }
{
    Endpoint {
        addr: address(Side::B),
        port: PORT,
    }
}

/// b listens with a socket of its own.
fn listen(b: &mut Host) -> Result<SocketId, CopyFault>
    ensures listens { IfOk result (λ id. (made : HostView) × MakesSocket b.old id made × Listens made id b.new) }
    ensures fault { IfErr result IsOfBeginning }
{
    b.sound();
    let id = b.socket(Kind::Tcp).map_err(CopyFault::Host)?;
    b.sound();
    b.bind(id, peer()).map_err(CopyFault::Host)?;
    b.sound();
    b.listen(id, 1).map_err(CopyFault::Host)?;
    Ok(id)
}

/// a opens a connection with a socket of its own.
fn connect(a: &mut Host) -> Result<SocketId, CopyFault>
    ensures connects { IfOk result (λ id. (made : HostView) × MakesSocket a.old id made × Connects made id a.new) }
    ensures fault { IfErr result IsOfBeginning }
{
    a.sound();
    let id = a.socket(Kind::Tcp).map_err(CopyFault::Host)?;
    a.sound();
    a.connect(Moment(0), ISN_OF_A, id, peer())
        .map_err(CopyFault::Host)?;
    Ok(id)
}
