//! `hostd sim`: runs a script on a world of two hosts and prints what they answer.

ghost use Rattle.std.specs.Prelude.{◌≡◌, ◌⊎◌, true, false, ◌≤◌, ◌<◌, ◌^◌, length, take, string_bytes, IfOk, IfErr, IfSome, OnOk, OnErr};
ghost use Rattle.std.specs.Option.{ForSome, IsSomeAnd};
ghost use Rattle.script.specs.Words.{lines_of};
ghost use Rattle.script.specs.Script.{commands_of, first_bad_line, setting_of};
ghost use Rattle.devices.specs.Streams.{counted};
ghost use Rattle.commands.specs.Sim.{read_fails, write_fails_in, is_before_run, run_in_all, capture_in_all, first_fault, IsDue, IsFaultDue};
ghost use Rattle.script.specs.Text.{style_of};
ghost use Rattle.wire_sim.specs.Hosts.{IsSetUp};
ghost use Rattle.wire_sim.specs.RoomyRuns.{IsRoundWithRoom};
ghost use Rattle.wire_sim.specs.WorldRoom.{HasRoomFor, HasRoom};
ghost use Rattle.commands.specs.Room.{TakesUp};
ghost use Rattle.commands.specs.Play.{ComesTo, text_of_outcome, line_of_outcome, Emits, Delivers, Carries, Does, Prints, pass_text, pass_line, round_text, round_line, IsPlayed, IsCutShort, IsFirst, setting_lines, TakesRun, TakesPrinted, TakesPrintedBy, TakesBoth};

use crate::fault::TextFault;
use crate::input::whole_script;
use crate::output::{add_line, finish, is_write_fault};
use crate::recording::record;
use devices::{Sink, Source};
use host::{Config, SocketId};
use script::{Action, Command, Script, Setting, Style, event, show, show_unfair};
use std::alloc::{AllocError, Global};
use tcp_segment::Seq;
use wire_sim::{Answer, Event, Side, Unfair, World, config};

/// The most frames of one side that a `pass` moves.
pub(crate) const MOST_FRAMES: usize = 64;

/// The most events by which it moves them: it asks for so many, and brings them to the other side.
pub(crate) const MOST_EVENTS: usize = 2 * MOST_FRAMES;

/// The most events of a round before its reads: two ticks, and then as many as a `pass` has.
const MOST_BEFORE_READS: usize = 2 + 2 * MOST_EVENTS;

/// Reads the whole script, then runs it and prints a line for each command. `Line` or `TooLong` where the script is bad,
/// and then nothing is run; `Read` or `Write` where a device fails; `NoMemory` for want of memory. What was printed before
/// a fault stays printed.
///
/// Before each command the world is given room for its events, of a round for those up to its reads, and where there is no memory for that, the run ends. So `U5
/// NoMemory` is printed only of a command that reads octets, of an emission, or of a round that stopped at one of these; of all else a line says what the host answers,
/// or which rule it breaks.
pub fn sim<R: Source, W: Sink>(alloc: Global, script: &mut R, out: &mut W) -> Result<(), TextFault>
    ensures read { R.failures script.new ≡ counted (read_fails result) (R.failures script.old) }
    ensures written { W.failures out.new ≡ counted (write_fails_in result) (W.failures out.old) }
    ensures silent { IfErr result (λ fault. is_before_run fault ≡ true → out.new ≡ out.old) }
    ensures flushed { OnOk result (W.is_flushed out.new ≡ true) }
    ensures due { IfSome (R.remaining script.old) (λ octets. IsDue octets result) }
    ensures printed { IfSome (R.remaining script.old) (λ octets. TakesPrintedBy octets result (W.taken out.old) (W.taken out.new)) }
{
    let octets = whole_script(alloc, script)?;
    let Begun { script, mut world } = begin(alloc, octets.as_slice())?;
    run(alloc, &script, &mut world, out)
}

/// How a run with a capture ended.
#[derive(Clone, Copy, Debug, PartialEq, Eq)]
pub struct Ends {
    /// How the run itself did.
    pub run: Result<(), TextFault>,
    /// How the capture did.
    pub capture: Result<(), TextFault>,
}

impl Ends {
    /// The fault of the run, or else that of the capture.
    pub fn whole(self) -> Result<(), TextFault>
        ensures { result ≡ first_fault self.run self.capture }
    {
        match self.run {
            Ok(()) => self.capture,
            Err(fault) => Err(fault),
        }
    }
}

/// As `sim`, and then writes the capture of every frame that went out to `capture`, also where a fault ended the run. Of what is printed nothing
/// is changed by that. An error says that nothing was run, and that neither sink took anything.
pub fn sim_captured<R: Source, W: Sink, C: Sink>(
    alloc: Global,
    script: &mut R,
    out: &mut W,
    capture: &mut C,
) -> Result<Ends, TextFault>
    ensures read { R.failures script.new ≡ counted (read_fails result) (R.failures script.old) }
    ensures written { W.failures out.new ≡ counted (write_fails_in (run_in_all result)) (W.failures out.old) }
    ensures captured { C.failures capture.new ≡ counted (write_fails_in (capture_in_all result)) (C.failures capture.old) }
    ensures silent { IfErr result (λ fault. (out.new ≡ out.old) × (capture.new ≡ capture.old)) }
    ensures flushed { IfOk result (λ ends. OnOk ends.run (W.is_flushed out.new ≡ true) × OnOk ends.capture (C.is_flushed capture.new ≡ true)) }
    ensures due { IfSome (R.remaining script.old) (λ octets. IsDue octets (run_in_all result)) }
    ensures printed { IfSome (R.remaining script.old) (λ octets. TakesPrintedBy octets (run_in_all result) (W.taken out.old) (W.taken out.new)) }
    ensures told { IfOk result (λ ends. IfSome (R.remaining script.old)
        (λ octets. TakesBoth octets ends (W.taken out.old) (W.taken out.new) (C.taken capture.old) (C.taken capture.new))) }
{
    let octets = whole_script(alloc, script)?;
    let Begun { script, mut world } = begin(alloc, octets.as_slice())?;
    let run = run(alloc, &script, &mut world, out);
    let capture = record(&world, capture);
    Ok(Ends { run, capture })
}

/// A script, and the world in which nothing of it happened yet.
#[derive(Drop)]
pub(crate) struct Begun<'a> {
    pub(crate) script: Script<'a>,
    pub(crate) world: World,
}

/// The script that octets are, and its world. `Line` where they are none, `NoMemory` for want of memory.
pub(crate) fn begin<'a>(alloc: Global, octets: &'a [u8]) -> Result<Begun<'a>, TextFault>
    ensures good { OnOk result (first_bad_line octets.entry.now ≡ None) }
    ensures commands { IfOk result (λ begun. begun.script.commands.items ≡ commands_of (lines_of octets.entry.now)) }
    ensures setting { IfOk result (λ begun. begun.script.setting ≡ setting_of octets.entry.now) }
    ensures world { IfOk result (λ begun. IsFirst begun.script.setting begun.world.seen) }
    ensures bad { IfErr result (λ fault. (fault ≡ TextFault.NoMemory) ⊎ IsSomeAnd (first_bad_line octets.entry.now) (λ n. fault ≡ TextFault.Line n)) }
{
    let script = Script::parse(alloc, octets)?;
    let world = new_world(alloc, script.setting)?;
    Ok(Begun { script, world })
}

/// Runs a script's commands in a world in which nothing happened yet, and hands on what they print, also where a fault ends the run.
fn run<W: Sink>(
    alloc: Global,
    script: &Script<'_>,
    world: &mut World,
    out: &mut W,
) -> Result<(), TextFault>
    requires { IsFirst script.now.setting world.old.seen }
    ensures written { W.failures out.new ≡ counted (write_fails_in result) (W.failures out.old) }
    ensures faults { IfErr result (λ fault. is_before_run fault ≡ false) }
    ensures flushed { OnOk result (W.is_flushed out.new ≡ true) }
    ensures printed { TakesRun result script.now.setting script.now.commands.items world.new.seen (W.taken out.old) (W.taken out.new) }
{
    let mut lines = first_lines(alloc, script.setting)?;
    let outcome = play(alloc, script.commands.as_slice(), world, &mut lines, out);
    if is_write_fault(&outcome) {
        return outcome;
    }
    finish(&mut lines, out)?;
    outcome
}

/// What is printed before the first command: of `noscale`, and of a limit.
fn first_lines(alloc: Global, setting: Setting) -> Result<String, AllocError>
    ensures { IfOk result (λ lines. string_bytes lines ≡ setting_lines setting) }
{
    let mut lines = String::new(alloc);
    if !setting.scales {
        lines.push_str("ok\n")?;
    }
    if setting.limit.is_some() {
        lines.push_str("ok\n")?;
    }
    Ok(lines)
}

/// Runs commands in order and adds what they print to `lines`, which go to the sink whenever they are many.
fn play<W: Sink>(
    alloc: Global,
    commands: &[Command<'_>],
    world: &mut World,
    lines: &mut String,
    out: &mut W,
) -> Result<(), TextFault>
    ensures written { W.failures out.new ≡ counted (write_fails_in result) (W.failures out.old) }
    ensures faults { IfErr result (λ fault. is_before_run fault ≡ false) }
    ensures played { OnOk result (IsPlayed world.old.seen world.new.seen commands.now (W.taken out.old) (W.taken out.new) (string_bytes lines.old) (string_bytes lines.new)) }
    ensures cut { IfErr result (λ fault. IsCutShort fault world.old.seen world.new.seen commands.now (W.taken out.old) (W.taken out.new) (string_bytes lines.old) (string_bytes lines.new)) }
{
    for command in commands {
        let line = execute(alloc, command, world)?;
        add_line(line.as_str(), lines, out)?;
    }
    Ok(())
}

/// A fresh world. The two hosts differ in address and MAC, so it is made unless there is no memory.
fn new_world(alloc: Global, setting: Setting) -> Result<World, TextFault>
    requires { ForSome setting.limit (λ n. (1 ≤ n) × (n ≤ 2 ^ 30)) }
    ensures world { IfOk result (λ world. IsFirst setting world.seen) }
    ensures faults { IfErr result (λ fault. fault ≡ TextFault.NoMemory) }
{
    let a = set_up(Side::A, setting.scales);
    let b = set_up(Side::B, setting.scales);
    let made = match setting.limit {
        Some(limit) => World::with_limit(alloc, a, b, limit),
        None => World::new(alloc, a, b),
    };
    made.map_err(|_| TextFault::NoMemory)
}

/// How a side's host is set up: it uses the window scale option, or doesn't.
fn set_up(side: Side, scales: bool) -> Config
    ensures { IsSetUp scales side result }
{
    config(side).with_scale(scales)
}

/// Runs one command and answers the line that it prints.
pub fn execute(
    alloc: Global,
    command: &Command<'_>,
    world: &mut World,
) -> Result<String, AllocError>
    ensures printed { IfOk result (λ line. Prints command.now (string_bytes line) world.old.seen world.new.seen) }
    ensures left { OnErr result ((world.new.seen ≡ world.old.seen) ⊎ Does command.now world.old.seen world.new.seen) }
{
    match command {
        Command::At(side, action) => act(alloc, *side, action, world),
        Command::Round(writer, reader_id) => round(alloc, *writer, *reader_id, world),
        Command::Pass(isn) => pass(alloc, *isn, world),
    }
}

/// One host does something. Answers the line that shows what comes of it.
fn act(
    alloc: Global,
    side: Side,
    action: &Action<'_>,
    world: &mut World,
) -> Result<String, AllocError>
    ensures printed { IfOk result (λ line. Prints (Command.At side action.now) (string_bytes line) world.old.seen world.new.seen) }
    ensures left { OnErr result ((world.new.seen ≡ world.old.seen) ⊎ Does (Command.At side action.now) world.old.seen world.new.seen) }
{
    let outcome = give(world, event(alloc, side, action)?)?;
    line_of(alloc, &outcome, style(action))
}

/// Makes room in a world for an event, and gives it. Where there is no memory for the room, nothing that is seen has changed.
pub(crate) fn give(world: &mut World, event: Event) -> Result<Result<Answer, Unfair>, AllocError>
    ensures came { IfOk result (λ outcome. ComesTo event outcome world.old.seen world.new.seen) }
    ensures left { OnErr result (world.new.seen ≡ world.old.seen) }
{
    make_room(world, 1)?;
    Ok(happen(world, event))
}

/// Makes room in a world for so many events more. Where there is no memory for it, nothing that is seen has changed.
pub(crate) fn make_room(world: &mut World, events: usize) -> Result<(), AllocError>
    ensures room { OnOk result (HasRoomFor events world.new) }
    ensures seen { world.new.seen ≡ world.old.seen }
{
    world.reserve(events).map_err(|_| AllocError)
}

/// Gives an event to a world with room for it.
pub(crate) fn happen(world: &mut World, event: Event) -> Result<Answer, Unfair>
    requires { HasRoom world.old }
    ensures came { ComesTo event result world.old.seen world.new.seen }
    ensures room { TakesUp 1 world.old world.new }
{
    world.step(event)
}

/// A side writes in a round, and the other one reads. Answers the line that shows what comes of it.
fn round(
    alloc: Global,
    writer: Side,
    reader_id: SocketId,
    world: &mut World,
) -> Result<String, AllocError>
    ensures printed { IfOk result (λ line. Prints (Command.Round writer reader_id) (string_bytes line) world.old.seen world.new.seen) }
    ensures left { OnErr result ((world.new.seen ≡ world.old.seen) ⊎ Does (Command.Round writer reader_id) world.old.seen world.new.seen) }
{
    let told = go_round(world, writer, reader_id)?;
    line_of_round(alloc, &told)
}

/// Makes room in a world for the events of a round up to its reads, and goes through the round. Where there is no memory for the room, nothing that is seen has changed.
pub(crate) fn go_round(
    world: &mut World,
    writer: Side,
    reader_id: SocketId,
) -> Result<Result<u64, Unfair>, AllocError>
    ensures came { IfOk result (λ told. IsRoundWithRoom writer reader_id told world.old.seen world.new.seen) }
    ensures left { OnErr result (world.new.seen ≡ world.old.seen) }
{
    make_room(world, MOST_BEFORE_READS)?;
    Ok(world.round(writer, reader_id))
}

/// The line that shows what comes of a round.
fn line_of_round(alloc: Global, told: &Result<u64, Unfair>) -> Result<String, AllocError>
    ensures { IfOk result (λ line. string_bytes line ≡ round_line told.now) }
{
    let mut line = text_of_round(alloc, told)?;
    line.push('\n')?;
    Ok(line)
}

/// What is printed of a round, without the end of the line.
pub(crate) fn text_of_round(alloc: Global, told: &Result<u64, Unfair>) -> Result<String, AllocError>
    ensures { IfOk result (λ text. string_bytes text ≡ round_text told.now) }
{
    let mut text = String::new(alloc);
    match told {
        Ok(count) => write!(text, "octets {count}")?,
        Err(refusal) => show_unfair(*refusal, &mut text)?,
    }
    Ok(text)
}

/// Frames go from a to b, then from b to a. Answers the line that says how many.
fn pass(alloc: Global, isn: Seq, world: &mut World) -> Result<String, AllocError>
    ensures printed { IfOk result (λ line. Prints (Command.Pass isn) (string_bytes line) world.old.seen world.new.seen) }
    ensures left { OnErr result ((world.new.seen ≡ world.old.seen) ⊎ Does (Command.Pass isn) world.old.seen world.new.seen) }
{
    make_room(world, 2 * MOST_EVENTS)?;
    let from_a = carry(world, Side::A, isn);
    let from_b = carry(world, Side::B, isn);
    line_of_pass(alloc, from_a, from_b)
}

/// The line that says how many frames went from a to b, and how many from b to a.
fn line_of_pass(alloc: Global, from_a: usize, from_b: usize) -> Result<String, AllocError>
    ensures { IfOk result (λ line. string_bytes line ≡ pass_line from_a from_b) }
{
    let mut line = text_of_pass(alloc, from_a, from_b)?;
    line.push('\n')?;
    Ok(line)
}

/// What is printed of a pass, without the end of the line.
pub(crate) fn text_of_pass(
    alloc: Global,
    from_a: usize,
    from_b: usize,
) -> Result<String, AllocError>
    ensures { IfOk result (λ text. string_bytes text ≡ pass_text from_a from_b) }
{
    let mut text = String::new(alloc);
    write!(text, "a {from_a} b {from_b}")?;
    Ok(text)
}

/// The line that shows an outcome.
fn line_of(
    alloc: Global,
    outcome: &Result<Answer, Unfair>,
    style: Style,
) -> Result<String, AllocError>
    ensures { IfOk result (λ line. string_bytes line ≡ line_of_outcome style outcome.now) }
{
    let mut line = text_of(alloc, outcome, style)?;
    line.push('\n')?;
    Ok(line)
}

/// What is printed of an outcome, without the end of the line.
pub(crate) fn text_of(
    alloc: Global,
    outcome: &Result<Answer, Unfair>,
    style: Style,
) -> Result<String, AllocError>
    ensures { IfOk result (λ text. string_bytes text ≡ text_of_outcome style outcome.now) }
{
    let mut text = String::new(alloc);
    match outcome {
        Ok(answer) => show(answer, style, &mut text)?,
        Err(unfair) => show_unfair(*unfair, &mut text)?,
    }
    Ok(text)
}

/// How the octets that an action reads are printed.
pub(crate) fn style(action: &Action<'_>) -> Style
    ensures { result ≡ style_of action.now }
{
    match action {
        Action::Count { .. } | Action::CountFrom { .. } => Style::Count,
        _ => Style::Text,
    }
}

/// One side emits until it has no frame, or was asked 64 times, and the other side takes these frames in order. Answers how
/// many there were.
fn carry(world: &mut World, from: Side, isn: Seq) -> usize
    requires { HasRoomFor MOST_EVENTS world.old }
    ensures few { result ≤ MOST_FRAMES }
    ensures carried { Carries from isn result world.old.seen world.new.seen }
    ensures room { TakesUp MOST_EVENTS world.old world.new }
{
    let mut frames = [0usize; MOST_FRAMES];
    let count = emit(world, from, &mut frames);
    deliver(world, from.other(), &frames[..count], isn);
    count
}

/// One side emits until it has no frame, or was asked 64 times. A refusal is passed over. The indices of its frames go to
/// the front of `frames`, and it answers how many there are.
pub(crate) fn emit(world: &mut World, from: Side, frames: &mut [usize; MOST_FRAMES]) -> usize
    ensures few { result ≤ MOST_FRAMES }
    ensures emitted { Emits from (take result frames.new) world.old.seen world.new.seen }
    ensures room { TakesUp MOST_FRAMES world.old world.new }
{
    let mut count = 0;
    for _ in 0..MOST_FRAMES {
        match world.step(Event::Emit(from)) {
            Ok(Answer::Frame { index, .. }) => {
                frames[count] = index;
                count += 1;
            }
            Ok(_) => return count,
            Err(_) => {}
        }
    }
    count
}

/// One side takes these frames in order, whatever comes of each.
fn deliver(world: &mut World, to: Side, frames: &[usize], isn: Seq)
    requires { HasRoomFor (length frames.now) world.old }
    ensures delivered { Delivers to isn frames.now world.old.seen world.new.seen }
    ensures room { TakesUp (length frames.now) world.old world.new }
{
    for index in frames {
        let _ = happen(world, Event::Deliver(to, *index, isn));
    }
}
