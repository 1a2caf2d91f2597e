//! The command line.

ghost use Rattle.std.specs.Prelude.{◌≡◌, ◌⊎◌, false, [], ◌∷◌, Some, None, codes, map, option_map, IfOk, IfErr};
ghost use Rattle.clap.specs.declared.builder.command.Command.TheViews.{out-Command as fields_of};
ghost use Rattle.clap.specs.Words.{app_of, subcommand_rows_of};
ghost use Rattle.clap.specs.Faults.{fault_of};
ghost use Rattle.clap.specs.Kinds.{HasKind};
ghost use Rattle.command_line.specs.Line.{hostd_command, sim_command, decode_command, copy_command, file_command, with_file, with_flag, with_option, with_step, value_of, is_set, numbering_asked, step_of, step_in, step_by, sim_in, decode_in, copy_in, asked_of, asked_in, asked_by};

use crate::request::Line;
use clap::builder::ValueParser;
use clap::error::ErrorKind;
use clap::{Arg, ArgAction, ArgMatches, Command, Error};
use ladder::Numbering;
use std::alloc::{AllocError, Global};
use std::convert::AsStr;
use udp_link::{Every, LEAST_STEP, Losses, MOST_STEP};

/// Reads the words of a command line, the program's name first. An error is a usage fault or the help that was asked for,
/// with clap's text, or its kind is `OutOfMemory`.
pub fn line<'a, S: AsStr>(alloc: Global, words: &'a [S]) -> Result<Line<'a>, Error>
    ensures ok { IfOk result (λ line. asked_in (map S.text words.entry.now) ≡ Some (asked_by line)) }
    ensures sound { IfOk result (λ line. fault_of hostd_command (map S.text words.entry.now) ≡ []) }
    ensures err { IfErr result (λ error. HasKind (fault_of hostd_command (map S.text words.entry.now)) error
        ⊎ ((asked_in (map S.text words.entry.now) ≡ None) × (fault_of hostd_command (map S.text words.entry.now) ≡ [])
        × HasKind (ErrorKind.MissingSubcommand ∷ []) error)) }
{
    let mut hostd = hostd(alloc)?;
    let matches = hostd.try_get_matches_from_mut(words)?;
    match asked(&matches) {
        Some(line) => Ok(line),
        None => Err(hostd.error(ErrorKind::MissingSubcommand, "a command is missing")?),
    }
}

/// The command line that the program reads.
fn hostd<'a>(alloc: Global) -> Result<Command<'a>, AllocError>
    ensures { IfOk result (λ command. app_of command ≡ hostd_command) }
{
    let sim = sim_command(alloc)?;
    let decode = decode_command(alloc)?;
    let copy = copy_command(alloc)?;
    Command::new(alloc, "hostd")
        .about("Two IPv4 hosts with TCP sockets, joined by a bag of frames or by two UDP sockets")
        .subcommand_required(true)
        .subcommand(sim)?
        .subcommand(decode)?
        .subcommand(copy)
}

/// The command that runs a script.
fn sim_command<'a>(alloc: Global) -> Result<Command<'a>, AllocError>
    ensures words { IfOk result (λ command. app_of command ≡ sim_command) }
    ensures local { IfOk result (λ command. (fields_of command).has_globals ≡ false) }
{
    let sim = file_command(
        alloc,
        "sim",
        "Runs a script on a world of two hosts and prints what they answer",
        "SCRIPT",
        "The file of the script",
    )?;
    let sim = with_capture(alloc, sim)?;
    let sim = with_flag(
        alloc,
        sim,
        "ladder",
        "Prints the script's lines, too, and between them what happens to each frame",
    )?;
    with_flag(
        alloc,
        sim,
        "absolute",
        "Prints the ladder with sequence numbers as they are, and not relative to the initial ones",
    )
}

/// The command that prints what frames say.
fn decode_command<'a>(alloc: Global) -> Result<Command<'a>, AllocError>
    ensures words { IfOk result (λ command. app_of command ≡ decode_command) }
    ensures local { IfOk result (λ command. (fields_of command).has_globals ≡ false) }
{
    let decode = file_command(
        alloc,
        "decode",
        "Prints what a frame says, a line a layer, or what each frame of a capture says",
        "FILE",
        "The file of the frame, in hexadecimal digits, or of the capture",
    )?;
    with_flag(
        alloc,
        decode,
        "pcap",
        "The file is a capture in libpcap's classic format",
    )
}

/// The command that copies a file.
fn copy_command<'a>(alloc: Global) -> Result<Command<'a>, AllocError>
    ensures words { IfOk result (λ command. app_of command ≡ copy_command) }
    ensures local { IfOk result (λ command. (fields_of command).has_globals ≡ false) }
{
    let copy = file_command(
        alloc,
        "copy",
        "Copies a file over a connection of two hosts, whose frames go over two UDP sockets on 127.0.0.1",
        "SRC",
        "The file to copy",
    )?;
    let copy = with_file(alloc, copy, "DST", "The file to write, made anew")?;
    let copy = with_step(
        alloc,
        copy,
        "lose",
        "Every N-th frame is lost, from 2 to 1000000",
    )?;
    let copy = with_step(
        alloc,
        copy,
        "repeat",
        "Every N-th frame is sent twice, if it is not lost, from 2 to 1000000",
    )?;
    let copy = with_capture(alloc, copy)?;
    with_flag(
        alloc,
        copy,
        "progress",
        "Says on standard error how far the copy is while it runs",
    )
}

/// A command with one file, which must be given.
fn file_command<'a>(
    alloc: Global,
    name: &'a str,
    about: &'a str,
    file: &'a str,
    help: &'a str,
) -> Result<Command<'a>, AllocError>
    ensures words { IfOk result (λ command. app_of command ≡ file_command name.now file.now) }
    ensures local { IfOk result (λ command. (fields_of command).has_globals ≡ false) }
{
    let command = Command::new(alloc, name).about(about);
    with_file(alloc, command, file, help)
}

/// A command with a file more, which must be given.
fn with_file<'a>(
    alloc: Global,
    command: Command<'a>,
    file: &'a str,
    help: &'a str,
) -> Result<Command<'a>, AllocError>
    ensures words { IfOk result (λ more. app_of more ≡ with_file file.now (app_of command.entry)) }
    ensures local { IfOk result (λ more. (fields_of more).has_globals ≡ (fields_of command.entry).has_globals) }
{
    let file = Arg::new(alloc, file).required(true).help(help);
    command.arg(file)
}

/// A command with a flag more, which may be there or not.
fn with_flag<'a>(
    alloc: Global,
    command: Command<'a>,
    name: &'a str,
    help: &'a str,
) -> Result<Command<'a>, AllocError>
    ensures words { IfOk result (λ more. app_of more ≡ with_flag name.now (app_of command.entry)) }
    ensures local { IfOk result (λ more. (fields_of more).has_globals ≡ (fields_of command.entry).has_globals) }
{
    let flag = Arg::new(alloc, name)
        .long(name)
        .action(ArgAction::SetTrue)
        .help(help);
    command.arg(flag)
}

/// A command with the file of a capture more, which may be told or not.
fn with_capture<'a>(alloc: Global, command: Command<'a>) -> Result<Command<'a>, AllocError>
    ensures words { IfOk result (λ more. app_of more ≡ with_option (codes "pcap") (app_of command.entry)) }
    ensures local { IfOk result (λ more. (fields_of more).has_globals ≡ (fields_of command.entry).has_globals) }
{
    with_option(
        alloc,
        command,
        "pcap",
        "FILE",
        "Writes every frame that goes out to this file, as a capture in libpcap's classic format",
    )
}

/// A command with an option more, which may be there with one value, or not.
fn with_option<'a>(
    alloc: Global,
    command: Command<'a>,
    name: &'a str,
    value: &'a str,
    help: &'a str,
) -> Result<Command<'a>, AllocError>
    ensures words { IfOk result (λ more. app_of more ≡ with_option name.now (app_of command.entry)) }
    ensures local { IfOk result (λ more. (fields_of more).has_globals ≡ (fields_of command.entry).has_globals) }
{
    let option = Arg::new(alloc, name)
        .long(name)
        .value_name(value)
        .help(help);
    command.arg(option)
}

/// A command with an option more, which may be there with a number that a step may be, or not.
fn with_step<'a>(
    alloc: Global,
    command: Command<'a>,
    name: &'a str,
    help: &'a str,
) -> Result<Command<'a>, AllocError>
    ensures words { IfOk result (λ more. app_of more ≡ with_step name.now (app_of command.entry)) }
    ensures local { IfOk result (λ more. (fields_of more).has_globals ≡ (fields_of command.entry).has_globals) }
{
    let option = Arg::new(alloc, name)
        .long(name)
        .value_name("N")
        .value_parser(ValueParser::Unsigned(LEAST_STEP, MOST_STEP))
        .help(help);
    command.arg(option)
}

/// What the command that was met asks for.
fn asked<'a>(matches: &ArgMatches<'a>) -> Option<Line<'a>>
    ensures { option_map asked_by result ≡ asked_of (subcommand_rows_of matches.now) }
{
    if let Some(line) = asked_of_sim(matches) {
        return Some(line);
    }
    if let Some(line) = asked_of_decode(matches) {
        return Some(line);
    }
    asked_of_copy(matches)
}

/// What is asked of `sim`, where that is the command that was met.
fn asked_of_sim<'a>(matches: &ArgMatches<'a>) -> Option<Line<'a>>
    ensures { option_map asked_by result ≡ sim_in (subcommand_rows_of matches.now) }
{
    let script = value_in(matches, "sim", "SCRIPT")?;
    let capture = value_in(matches, "sim", "pcap");
    let ladder = numbering(
        is_set(value_in(matches, "sim", "ladder")),
        is_set(value_in(matches, "sim", "absolute")),
    );
    Some(Line::Sim {
        script,
        capture,
        ladder,
    })
}

/// What is asked of `decode`, where that is the command that was met.
fn asked_of_decode<'a>(matches: &ArgMatches<'a>) -> Option<Line<'a>>
    ensures { option_map asked_by result ≡ decode_in (subcommand_rows_of matches.now) }
{
    let file = value_in(matches, "decode", "FILE")?;
    if is_set(value_in(matches, "decode", "pcap")) {
        Some(Line::DecodeAll { capture: file })
    } else {
        Some(Line::Decode { hex: file })
    }
}

/// What is asked of `copy`, where that is the command that was met.
fn asked_of_copy<'a>(matches: &ArgMatches<'a>) -> Option<Line<'a>>
    ensures { option_map asked_by result ≡ copy_in (subcommand_rows_of matches.now) }
{
    let source = value_in(matches, "copy", "SRC")?;
    let destination = value_in(matches, "copy", "DST")?;
    let lose = step_in(value_in(matches, "copy", "lose"))?;
    let repeat = step_in(value_in(matches, "copy", "repeat"))?;
    let capture = value_in(matches, "copy", "pcap");
    let progress = is_set(value_in(matches, "copy", "progress"));
    let losses = Losses { lose, repeat };
    Some(Line::Copy {
        source,
        destination,
        capture,
        losses,
        progress,
    })
}

/// Of how many frames one is meant by the value of an option that may be there. None where it is no such number.
fn step_in(value: Option<&str>) -> Option<Option<Every>>
    ensures { option_map step_by result ≡ step_in (option_map (λ text. text.now) value.entry) }
{
    match value {
        Some(text) => Some(Some(step_of(text)?)),
        None => Some(None),
    }
}

/// Of how many frames one is meant by a text.
fn step_of(text: &str) -> Option<Every>
    ensures { step_by result ≡ step_of text.now }
{
    match text.parse::<u64>() {
        Ok(step) => Every::new(step),
        Err(_) => None,
    }
}

/// What an argument of a command has for its value, where that is the command that was met.
fn value_in<'a>(matches: &ArgMatches<'a>, command: &str, id: &str) -> Option<&'a str>
    ensures { option_map (λ value. value.now) result ≡ value_of command.now id.now (subcommand_rows_of matches.now) }
{
    matches.subcommand_matches(command)?.get_str(id)
}

/// Whether this is the value of a flag that is there.
fn is_set(value: Option<&str>) -> bool
    ensures { result ≡ is_set (option_map (λ text. text.now) value.entry) }
{
    match value {
        Some(text) => text == "true",
        None => false,
    }
}

/// How the numbers of a ladder are told, where one is asked for: by either flag.
fn numbering(has_ladder: bool, is_absolute: bool) -> Option<Numbering>
    ensures { result ≡ numbering_asked has_ladder is_absolute }
{
    match (has_ladder, is_absolute) {
        (_, true) => Some(Numbering::Absolute),
        (true, false) => Some(Numbering::Relative),
        (false, false) => None,
    }
}
