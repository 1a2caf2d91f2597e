//! `hostd sim --ladder`: runs a script, and prints its lines, what each printed, and between them what happened to each frame.

ghost use Rattle.std.specs.Prelude.{◌≡◌, ◌⊎◌, ◌≤◌, true, false, [], ◌++◌, ℕ, List, Some, codes, length, map, take, drop, option_to_list, string_bytes, IfOk, IfErr, IfSome, OnOk, OnErr};
ghost use Rattle.std.specs.List.{flat_map};
ghost use Rattle.std.specs.Io.KnownBytes.{Appends};
ghost use Rattle.script.specs.Words.{lines_of};
ghost use Rattle.script.specs.Script.{item_of};
ghost use Rattle.script.specs.declared.lines.Item.TheVariants.{Do};
ghost use Rattle.script.specs.declared.lines.Command.{Command as OneCommand};
ghost use Rattle.ladder.specs.declared.passage.Passage.{Passage as OnePassage};
ghost use Rattle.ladder.specs.declared.happened.Happened.{Happened as Thing};
ghost use Rattle.ladder.specs.declared.happened.Happened.TheVariants.{Passed, Printed};
ghost use Rattle.devices.specs.Streams.{counted, TakesFront};
ghost use Rattle.commands.specs.Sim.{capture_in_all, is_before_run, read_fails, run_in_all, write_fails_in, IsDue};
ghost use Rattle.wire_sim.specs.WorldRoom.{HasRoomFor};
ghost use Rattle.commands.specs.Room.{TakesUp};
ghost use Rattle.commands.specs.Play.{Does};
ghost use Rattle.commands.specs.Laddered.{carried_by, ladder_in, node_at, passages_in, recorded, script_nodes, CarriesEach, HasBrought, HasDone, HasRun, IsCut, Tells, TakesBothOf, TakesLadder, TakesLadderOf};

use crate::fault::TextFault;
use crate::input::whole_script;
use crate::output::{flush, write_all};
use crate::recording::record;
use crate::sim::{
    Begun, Ends, MOST_EVENTS, MOST_FRAMES, begin, emit, give, go_round, happen, make_room, style,
    text_of, text_of_pass, text_of_round,
};
use devices::{Sink, Source};
use host::SocketId;
use ladder::{Errand, Happened, Line, Node, Nodes, Numbering, Passage, Run, Text};
use script::{Action, Command, Item, event, split_lines};
use std::alloc::{AllocError, Global};
use tcp_segment::Seq;
use wire_sim::{Event, Happening, Side, World, address, mac};

/// Reads the whole script, then runs it, and then prints the ladder of the run. `Line` or `TooLong` where the script is bad, and then nothing is
/// run; `Read` or `Write` where a device fails; `NoMemory` for want of memory, and then nothing is printed.
pub fn sim_ladder<R: Source, W: Sink>(
    alloc: Global,
    script: &mut R,
    numbering: Numbering,
    out: &mut W,
) -> Result<(), TextFault>
    ensures read { R.failures script.new ≡ counted (read_fails result) (R.failures script.old) }
    ensures written { W.failures out.new ≡ counted (write_fails_in result) (W.failures out.old) }
    ensures flushed { OnOk result (W.is_flushed out.new ≡ true) }
    ensures due { IfSome (R.remaining script.old) (λ octets. IsDue octets result) }
    ensures silent { IfErr result (λ fault. (fault ≡ TextFault.Write) ⊎ (out.new ≡ out.old)) }
    ensures told { IfSome (R.remaining script.old) (λ octets. TakesLadderOf octets result numbering (W.taken out.old) (W.taken out.new)) }
{
    let octets = whole_script(alloc, script)?;
    let Begun { mut world, .. } = begin(alloc, octets.as_slice())?;
    run(alloc, octets.as_slice(), numbering, &mut world, out)
}

/// As `sim_ladder`, and then writes the capture of every frame that went out to `capture`, also where a fault ended the run. An error says that
/// nothing was run, and that neither sink took anything.
pub fn sim_ladder_captured<R: Source, W: Sink, C: Sink>(
    alloc: Global,
    script: &mut R,
    numbering: Numbering,
    out: &mut W,
    capture: &mut C,
) -> Result<Ends, TextFault>
    ensures read { R.failures script.new ≡ counted (read_fails result) (R.failures script.old) }
    ensures written { W.failures out.new ≡ counted (write_fails_in (run_in_all result)) (W.failures out.old) }
    ensures captured { C.failures capture.new ≡ counted (write_fails_in (capture_in_all result)) (C.failures capture.old) }
    ensures silent { IfErr result (λ fault. (out.new ≡ out.old) × (capture.new ≡ capture.old)) }
    ensures flushed { IfOk result (λ ends. OnOk ends.run (W.is_flushed out.new ≡ true) × OnOk ends.capture (C.is_flushed capture.new ≡ true)) }
    ensures due { IfSome (R.remaining script.old) (λ octets. IsDue octets (run_in_all result)) }
    ensures told { IfOk result (λ ends. IfSome (R.remaining script.old)
        (λ octets. TakesBothOf octets ends numbering (W.taken out.old) (W.taken out.new) (C.taken capture.old) (C.taken capture.new))) }
{
    let octets = whole_script(alloc, script)?;
    let Begun { mut world, .. } = begin(alloc, octets.as_slice())?;
    let run = run(alloc, octets.as_slice(), numbering, &mut world, out);
    let capture = record(&world, capture);
    Ok(Ends { run, capture })
}

/// Runs the lines of a script in a world, and then hands on the ladder of the run.
fn run<W: Sink>(
    alloc: Global,
    octets: &[u8],
    numbering: Numbering,
    world: &mut World,
    out: &mut W,
) -> Result<(), TextFault>
    ensures written { W.failures out.new ≡ counted (write_fails_in result) (W.failures out.old) }
    ensures faults { IfErr result (λ fault. is_before_run fault ≡ false) }
    ensures silent { IfErr result (λ fault. (fault ≡ TextFault.Write) ⊎ (out.new ≡ out.old)) }
    ensures flushed { OnOk result (W.is_flushed out.new ≡ true) }
    ensures told { TakesLadder result numbering (lines_of octets.now) world.old.seen world.new.seen (W.taken out.old) (W.taken out.new) }
{
    let ladder = drawn(alloc, octets, numbering, world)?;
    hand_over(ladder.as_slice(), out)
}

/// Runs the lines of a script in a world. Answers the ladder of the run.
fn drawn(
    alloc: Global,
    octets: &[u8],
    numbering: Numbering,
    world: &mut World,
) -> Result<Vec<u8>, AllocError>
    ensures ok { IfOk result (λ ladder. (happened : List Thing) × HasRun world.old.seen (lines_of octets.now) happened world.new.seen
        × (ladder.items ≡ ladder_in numbering happened world.new.seen)) }
    ensures err { OnErr result (IsCut (lines_of octets.now) world.old.seen world.new.seen) }
{
    let lines = split_lines(alloc, octets)?;
    let mut happened = Vec::new(alloc);
    run_lines(alloc, lines.as_slice(), world, &mut happened)?;
    let run = Run {
        world,
        nodes: nodes(),
        numbering,
        happened: happened.as_slice(),
    };
    run.ladder(alloc)
}

/// Hands all of a ladder to `out` for good; `Write` where the sink fails.
fn hand_over<W: Sink>(ladder: &[u8], out: &mut W) -> Result<(), TextFault>
    ensures failures { W.failures out.new ≡ counted (write_fails_in result) (W.failures out.old) }
    ensures flushed { OnOk result (W.is_flushed out.new ≡ true) }
    ensures taken { OnOk result (Appends (W.taken out.old) (W.taken out.new) ladder.now) }
    ensures faults { IfErr result (λ fault. (fault ≡ TextFault.Write) × TakesFront (W.taken out.old) (W.taken out.new) ladder.now) }
{
    write_all(out, ladder)?;
    flush(out)
}

/// The two hosts of a script, as frames name them.
fn nodes() -> Nodes
    ensures { result ≡ script_nodes }
{
    Nodes {
        a: node(Side::A),
        b: node(Side::B),
    }
}

/// The host of a side.
fn node(side: Side) -> Node
    ensures { result ≡ node_at side }
{
    Node {
        mac: mac(side),
        addr: address(side),
    }
}

/// Does lines of a script in order, and adds what is recorded of them to `happened`.
fn run_lines<'a>(
    alloc: Global,
    lines: &[&'a [u8]],
    world: &mut World,
    happened: &mut Vec<Happened<'a>>,
) -> Result<(), AllocError>
    requires { happened.old.items ≡ [] }
    ensures ok { OnOk result (HasRun world.old.seen (map (λ line. line.now) lines.now) happened.new.items world.new.seen) }
    ensures err { OnErr result (IsCut (map (λ line. line.now) lines.now) world.old.seen world.new.seen) }
{
    for line in lines {
        run_line(alloc, line, world, happened)?;
    }
    Ok(())
}

/// Does a line of a script, and adds what is recorded of it to `happened`.
fn run_line<'a>(
    alloc: Global,
    line: &'a [u8],
    world: &mut World,
    happened: &mut Vec<Happened<'a>>,
) -> Result<(), AllocError>
    ensures ok { OnOk result ((more : List Thing) × HasDone line.entry.now more world.old.seen world.new.seen × (happened.new.items ≡ happened.old.items ++ more)) }
    ensures err { OnErr result ((world.new.seen ≡ world.old.seen)
        ⊎ ((command : OneCommand) × (item_of line.entry.now ≡ Some (Do command)) × Does command world.old.seen world.new.seen)) }
{
    match Item::parse(alloc, line)? {
        Some(Item::Do(command)) => run_said(alloc, line, &command, world, happened),
        Some(Item::NoScale) => note_ok(alloc, line, happened),
        Some(Item::Limit(_)) => note_ok(alloc, line, happened),
        Some(Item::Nothing) => Ok(()),
        None => Ok(()),
    }
}

/// Adds what is recorded of a line that says `noscale` or `limit`, which prints `ok`.
fn note_ok<'a>(
    alloc: Global,
    line: &'a [u8],
    happened: &mut Vec<Happened<'a>>,
) -> Result<(), AllocError>
    ensures { OnOk result (happened.new.items ≡ happened.old.items ++ recorded line.entry.now [] (codes "ok")) }
{
    happened.push(Happened::Said(Line::new(line)))?;
    note_printed(alloc, "ok", happened)
}

/// Does the command that a line says, and adds what is recorded of it to `happened`.
fn run_said<'a>(
    alloc: Global,
    line: &'a [u8],
    command: &Command<'_>,
    world: &mut World,
    happened: &mut Vec<Happened<'a>>,
) -> Result<(), AllocError>
    ensures ok { OnOk result ((passages : List OnePassage) × (text : List ℕ) × Tells command.now passages text world.old.seen world.new.seen
        × (happened.new.items ≡ happened.old.items ++ recorded line.entry.now passages text)) }
    ensures err { OnErr result ((world.new.seen ≡ world.old.seen) ⊎ Does command.now world.old.seen world.new.seen) }
{
    happened.push(Happened::Said(Line::new(line)))?;
    let text = run_command(alloc, command, world, happened)?;
    note_printed(alloc, text.as_str(), happened)?;
    Ok(())
}

/// Adds each line of what was printed to `happened`.
fn note_printed(
    alloc: Global,
    text: &str,
    happened: &mut Vec<Happened<'_>>,
) -> Result<(), AllocError>
    ensures { OnOk result (happened.new.items ≡ happened.old.items ++ map Printed (lines_of text.now)) }
{
    let lines = printed_lines(alloc, text)?;
    note_lines(alloc, lines.as_slice(), happened)
}

/// The lines of what was printed, in which a newline stands between one and the next.
fn printed_lines(alloc: Global, text: &str) -> Result<Vec<&str>, AllocError>
    ensures { IfOk result (λ lines. map (λ line. line.now) lines.items ≡ lines_of text.now) }
{
    text.split('\n').collect(alloc)
}

/// Adds these lines, which were printed, to `happened`.
fn note_lines(
    alloc: Global,
    lines: &[&str],
    happened: &mut Vec<Happened<'_>>,
) -> Result<(), AllocError>
    ensures { OnOk result (happened.new.items ≡ happened.old.items ++ map Printed (map (λ line. line.now) lines.now)) }
{
    for line in lines {
        let line = String::from_str(alloc, line)?;
        happened.push(Happened::Printed(Text::new(line)))?;
    }
    Ok(())
}

/// Does a command, and adds what happens to frames by it to `happened`. Answers what is printed of it.
fn run_command(
    alloc: Global,
    command: &Command<'_>,
    world: &mut World,
    happened: &mut Vec<Happened<'_>>,
) -> Result<String, AllocError>
    ensures told { IfOk result (λ text. (passages : List OnePassage) × Tells command.now passages (string_bytes text) world.old.seen world.new.seen
        × (happened.new.items ≡ happened.old.items ++ map Passed passages)) }
    ensures left { OnErr result ((world.new.seen ≡ world.old.seen) ⊎ Does command.now world.old.seen world.new.seen) }
{
    match command {
        Command::At(side, action) => act(alloc, *side, action, world, happened),
        Command::Round(writer, reader_id) => { round(alloc, *writer, *reader_id, world, happened) }
        Command::Pass(isn) => pass(alloc, *isn, world, happened),
    }
}

/// One host does something. Answers what is printed of it.
fn act(
    alloc: Global,
    side: Side,
    action: &Action<'_>,
    world: &mut World,
    happened: &mut Vec<Happened<'_>>,
) -> Result<String, AllocError>
    ensures told { IfOk result (λ text. (passages : List OnePassage)
        × Tells (Command.At side action.now) passages (string_bytes text) world.old.seen world.new.seen
        × (happened.new.items ≡ happened.old.items ++ map Passed passages)) }
    ensures left { OnErr result ((world.new.seen ≡ world.old.seen) ⊎ Does (Command.At side action.now) world.old.seen world.new.seen) }
{
    let event = event(alloc, side, action)?;
    let errand = Errand::of(&event);
    let outcome = give(world, event)?;
    note_passage(errand.passage(&outcome), happened)?;
    text_of(alloc, &outcome, style(action))
}

/// A side writes in a round, and the other one reads. Answers what is printed of that.
fn round(
    alloc: Global,
    writer: Side,
    reader_id: SocketId,
    world: &mut World,
    happened: &mut Vec<Happened<'_>>,
) -> Result<String, AllocError>
    ensures told { IfOk result (λ text. (passages : List OnePassage)
        × Tells (Command.Round writer reader_id) passages (string_bytes text) world.old.seen world.new.seen
        × (happened.new.items ≡ happened.old.items ++ map Passed passages)) }
    ensures left { OnErr result ((world.new.seen ≡ world.old.seen) ⊎ Does (Command.Round writer reader_id) world.old.seen world.new.seen) }
{
    let before = world.trace().len();
    let told = go_round(world, writer, reader_id)?;
    note_since(before, world.trace(), happened)?;
    text_of_round(alloc, &told)
}

/// Adds what a trace tells of frames behind its first so many things.
fn note_since(
    before: usize,
    trace: &[Happening],
    happened: &mut Vec<Happened<'_>>,
) -> Result<(), AllocError>
    ensures { OnOk result (happened.new.items ≡ happened.old.items ++ map Passed (passages_in (drop before trace.now))) }
{
    let start = before.min(trace.len());
    note_things(&trace[start..], happened)
}

/// Adds what things that happened in a world tell of frames.
fn note_things(things: &[Happening], happened: &mut Vec<Happened<'_>>) -> Result<(), AllocError>
    ensures { OnOk result (happened.new.items ≡ happened.old.items ++ map Passed (passages_in things.now)) }
{
    for happening in things {
        let errand = Errand::of(&happening.event);
        note_passage(errand.answered(&happening.answer), happened)?;
    }
    Ok(())
}

/// The frames of one side on their way to the other, and what each came to there.
#[derive(Drop)]
struct Carried {
    count: usize,
    frames: [usize; MOST_FRAMES],
    passages: [Option<Passage>; MOST_FRAMES],
}

/// Frames go from a to b, then from b to a. Answers what is printed of that.
fn pass(
    alloc: Global,
    isn: Seq,
    world: &mut World,
    happened: &mut Vec<Happened<'_>>,
) -> Result<String, AllocError>
    ensures told { IfOk result (λ text. (passages : List OnePassage)
        × Tells (Command.Pass isn) passages (string_bytes text) world.old.seen world.new.seen
        × (happened.new.items ≡ happened.old.items ++ map Passed passages)) }
    ensures left { OnErr result ((world.new.seen ≡ world.old.seen) ⊎ Does (Command.Pass isn) world.old.seen world.new.seen) }
{
    make_room(world, 2 * MOST_EVENTS)?;
    let of_a = carry(world, Side::A, isn);
    let of_b = carry(world, Side::B, isn);
    note(Side::A, &of_a, happened)?;
    note(Side::B, &of_b, happened)?;
    text_of_pass(alloc, of_a.count, of_b.count)
}

/// One side emits until it has no frame, or was asked 64 times, and the other side takes these frames in order.
fn carry(world: &mut World, from: Side, isn: Seq) -> Carried
    requires { HasRoomFor MOST_EVENTS world.old }
    ensures few { result.count ≤ MOST_FRAMES }
    ensures counted { length (take result.count result.frames) ≡ result.count }
    ensures carried { CarriesEach from isn (take result.count result.frames) (take result.count result.passages) world.old.seen world.new.seen }
    ensures room { TakesUp MOST_EVENTS world.old world.new }
{
    let mut frames = [0usize; MOST_FRAMES];
    let count = emit(world, from, &mut frames);
    let mut passages = [None; MOST_FRAMES];
    bring(world, from.other(), &frames[..count], isn, &mut passages);
    Carried {
        count,
        frames,
        passages,
    }
}

/// One side takes these frames in order. What each comes to goes to the front of `passages`.
fn bring(
    world: &mut World,
    to: Side,
    frames: &[usize],
    isn: Seq,
    passages: &mut [Option<Passage>; MOST_FRAMES],
)
    requires fits { length frames.now ≤ MOST_FRAMES }
    requires room { HasRoomFor (length frames.now) world.old }
    ensures brought { HasBrought to isn world.old.seen frames.now (take (length frames.now) passages.new) world.new.seen }
    ensures room { TakesUp (length frames.now) world.old world.new }
{
    for (place, index) in frames.iter().enumerate() {
        let event = Event::Deliver(to, *index, isn);
        let errand = Errand::of(&event);
        passages[place] = errand.passage(&happen(world, event));
    }
}

/// Adds what happened to the frames of one side on their way to `happened`.
fn note(from: Side, carried: &Carried, happened: &mut Vec<Happened<'_>>) -> Result<(), AllocError>
    requires { carried.now.count ≤ MOST_FRAMES }
    ensures { OnOk result (happened.new.items ≡ happened.old.items
        ++ map Passed (carried_by from (take carried.now.count carried.now.frames) (take carried.now.count carried.now.passages))) }
{
    note_sent(from, &carried.frames[..carried.count], happened)?;
    note_brought(&carried.passages[..carried.count], happened)
}

/// Adds that a side sent these frames.
fn note_sent(
    from: Side,
    frames: &[usize],
    happened: &mut Vec<Happened<'_>>,
) -> Result<(), AllocError>
    ensures { OnOk result (happened.new.items ≡ happened.old.items ++ map Passed (map (Passage.Sent from) frames.now)) }
{
    for index in frames {
        happened.push(Happened::Passed(Passage::Sent(from, *index)))?;
    }
    Ok(())
}

/// Adds what frames came to that were brought to a side.
fn note_brought(
    passages: &[Option<Passage>],
    happened: &mut Vec<Happened<'_>>,
) -> Result<(), AllocError>
    ensures { OnOk result (happened.new.items ≡ happened.old.items ++ map Passed (flat_map option_to_list passages.now)) }
{
    for passage in passages {
        note_passage(*passage, happened)?;
    }
    Ok(())
}

/// Adds what happened to a frame, if something did.
fn note_passage(
    passage: Option<Passage>,
    happened: &mut Vec<Happened<'_>>,
) -> Result<(), AllocError>
    ensures { OnOk result (happened.new.items ≡ happened.old.items ++ map Passed (option_to_list passage)) }
{
    if let Some(passage) = passage {
        happened.push(Happened::Passed(passage))?;
    }
    Ok(())
}
