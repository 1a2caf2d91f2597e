//! The capture of a run: every frame that went out, with the moment at which it did.

ghost use Rattle.std.specs.Prelude.{◌≡◌, true, OnOk, IfErr};
ghost use Rattle.std.specs.Io.KnownBytes.{Appends};
ghost use Rattle.devices.specs.Streams.{counted, TakesFront};
ghost use Rattle.commands.specs.Sim.{write_fails_in};
ghost use Rattle.recorder.specs.Captured.{record_octets};
ghost use Rattle.commands.specs.Recording.{clock_in, clocks_after, no_time, records_of, frame_out, later, TakesCapture};

use crate::fault::TextFault;
use crate::output::{flush, write_all};
use capture::file_head;
use clock::Moment;
use devices::Sink;
use wire_sim::{Answer, Event, Happening, Side, World};

/// The clocks of both sides.
#[derive(Clone, Copy)]
pub(crate) struct Clocks {
    pub(crate) a: Moment,
    pub(crate) b: Moment,
}

impl Clocks {
    /// The clocks before anything happened.
    const fn new() -> Clocks
        ensures { result ≡ no_time }
    {
        Clocks {
            a: Moment(0),
            b: Moment(0),
        }
    }

    /// The clock of a side.
    fn of(self, side: Side) -> Moment
        ensures { result ≡ clock_in self side }
    {
        match side {
            Side::A => self.a,
            Side::B => self.b,
        }
    }

    /// The clocks after an event: a tick moves its side's forward, and none back.
    fn after(self, event: &Event) -> Clocks
        ensures { result ≡ clocks_after self event.now }
    {
        match event {
            Event::Tick(Side::A, moment) => Clocks {
                a: later(self.a, *moment),
                b: self.b,
            },
            Event::Tick(Side::B, moment) => Clocks {
                a: self.a,
                b: later(self.b, *moment),
            },
            _ => self,
        }
    }
}

/// Writes the capture of every frame that went out in a world, in order, each once and with the moment that its sender's clock told then, in
/// milliseconds, and has the sink hand it on. `Write` where the sink fails, and then it took a part of the front.
pub fn record<W: Sink>(world: &World, out: &mut W) -> Result<(), TextFault>
    ensures failures { W.failures out.new ≡ counted (write_fails_in result) (W.failures out.old) }
    ensures flushed { OnOk result (W.is_flushed out.new ≡ true) }
    ensures taken { TakesCapture result world.now.seen (W.taken out.old) (W.taken out.new) }
{
    write_all(out, &file_head())?;
    let mut clocks = Clocks::new();
    for happening in world.trace() {
        record_one(world, clocks, happening, out)?;
        clocks = clocks.after(&happening.event);
    }
    flush(out)
}

/// Writes the record of the frame that went out, if one did.
fn record_one<W: Sink>(
    world: &World,
    clocks: Clocks,
    happening: &Happening,
    out: &mut W,
) -> Result<(), TextFault>
    ensures failures { W.failures out.new ≡ counted (write_fails_in result) (W.failures out.old) }
    ensures ok { OnOk result (Appends (W.taken out.old) (W.taken out.new)
        (records_of (frame_out world.now.seen.network.frames clocks happening.now.event happening.now.answer))) }
    ensures err { IfErr result (λ fault. (fault ≡ TextFault.Write) × TakesFront (W.taken out.old) (W.taken out.new)
        (records_of (frame_out world.now.seen.network.frames clocks happening.now.event happening.now.answer))) }
{
    let (Event::Emit(side), Answer::Frame { index, .. }) = (&happening.event, &happening.answer)
    else {
        return Ok(());
    };
    match world.frame(*index) {
        Some(octets) => write_record(clocks.of(*side), octets, out),
        None => Ok(()),
    }
}

/// Writes the record of a frame: its head, and its octets.
fn write_record<W: Sink>(moment: Moment, octets: &[u8], out: &mut W) -> Result<(), TextFault>
    ensures failures { W.failures out.new ≡ counted (write_fails_in result) (W.failures out.old) }
    ensures ok { OnOk result (Appends (W.taken out.old) (W.taken out.new) (record_octets moment octets.now)) }
    ensures err { IfErr result (λ fault. (fault ≡ TextFault.Write) × TakesFront (W.taken out.old) (W.taken out.new) (record_octets moment octets.now)) }
{
    match recorder::write_record(moment, octets, out) {
        Ok(()) => Ok(()),
        Err(_) => Err(TextFault::Write),
    }
}

/// The later of two moments.
fn later(first: Moment, second: Moment) -> Moment
    ensures { result ≡ later first second }
{
    if second > first { second } else { first }
}
