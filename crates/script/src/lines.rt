//! A script: its lines, read whole before any of them is run.

ghost use Rattle.std.specs.Prelude.{◌≡◌, ◌⊎◌, ◌≤◌, ◌^◌, ◌++◌, ◌&&◌, true, not, None, map, option_map, option_to_list, if◌then◌else◌, IfOk, IfErr, IfSome, IsSomeAnd, OnOk};
ghost use Rattle.std.specs.Option.{ForSome};
ghost use Rattle.script.specs.Script.{item_of, said_in, noscale_in, limit_in, pass_in, round_in, command_of, subject_of, HasLimitInRange};
ghost use Rattle.script.specs.Words.{is_ascii_line, lines_of};

use crate::action::{Action, initial, socket_id};
use crate::fault::ScriptFault;
use crate::words::{is_ascii, number, split, split_lines};
use host::SocketId;
use std::alloc::{AllocError, Global};
use tcp_segment::Seq;
use wire_sim::Side;

/// The greatest N of `limit`.
const MOST_LIMIT: u64 = 1 << 30;

/// One command of a script.
#[derive(Debug, Drop)]
pub enum Command<'a> {
    /// Something that one host does.
    At(Side, Action<'a>),
    /// A round without loss in which this side writes, and the other reads on this socket.
    Round(Side, SocketId),
    /// Frames of a to b, then of b to a, with this initial sequence number for the connections that they open.
    Pass(Seq),
}

/// What one line of a script says.
#[derive(Debug, Drop)]
pub enum Item<'a> {
    /// Nothing: an empty line or a comment.
    Nothing,
    /// The hosts don't use the window scale option.
    NoScale,
    /// How many octets an end may have written since a frame went out, for the frame to be delivered.
    Limit(u64),
    /// A command.
    Do(Command<'a>),
}

/// The first word of a line.
#[derive(Clone, Copy, Debug, PartialEq, Eq)]
pub enum Subject {
    /// `noscale`
    NoScale,
    /// `limit`
    Limit,
    /// `pass`
    Pass,
    /// `a` or `b`
    Host(Side),
}

impl Subject {
    /// What `word` is as the first of a line.
    pub fn parse(word: &[u8]) -> Option<Subject>
        ensures { result ≡ subject_of word.now }
    {
        match word {
            b"noscale" => Some(Subject::NoScale),
            b"limit" => Some(Subject::Limit),
            b"pass" => Some(Subject::Pass),
            b"a" => Some(Subject::Host(Side::A)),
            b"b" => Some(Subject::Host(Side::B)),
            _ => None,
        }
    }
}

impl<'a> Item<'a> {
    /// What `line` says, or nothing where it is bad.
    pub fn parse(alloc: Global, line: &'a [u8]) -> Result<Option<Item<'a>>, AllocError>
        ensures item { IfOk result (λ item. item ≡ item_of line.entry.now) }
        ensures limit { IfOk result HasLimitInRange }
    {
        match line {
            [] => Ok(Some(Item::Nothing)),
            [b'#', ..] => Ok(comment(line)),
            _ => Ok(from_words(split(alloc, line, b' ')?.as_slice())),
        }
    }
}

fn comment<'a>(line: &[u8]) -> Option<Item<'a>>
    ensures { result ≡ (if is_ascii_line line.now then Some Item.Nothing else None) }
{
    if is_ascii(line) {
        Some(Item::Nothing)
    } else {
        None
    }
}

fn from_words<'a>(words: &[&'a [u8]]) -> Option<Item<'a>>
    ensures item { result ≡ said_in (map (λ word. word.now) words.now) }
    ensures limit { HasLimitInRange result }
{
    let (first, rest) = words.split_first()?;
    match Subject::parse(first)? {
        Subject::NoScale => noscale(rest),
        Subject::Limit => Some(Item::Limit(limit(rest)?)),
        Subject::Pass => Some(Item::Do(pass(rest)?)),
        Subject::Host(side) => Some(Item::Do(at_host(side, rest)?)),
    }
}

fn noscale<'a>(words: &[&[u8]]) -> Option<Item<'a>>
    ensures { result ≡ noscale_in (map (λ word. word.now) words.now) }
{
    words.is_empty().then_some(Item::NoScale)
}

fn limit(words: &[&[u8]]) -> Option<u64>
    ensures value { result ≡ limit_in (map (λ word. word.now) words.now) }
    ensures in_range { IfSome result (λ n. (1 ≤ n) × (n ≤ MOST_LIMIT)) }
{
    match words {
        [word] => match number(word, MOST_LIMIT)? {
            0 => None,
            most => Some(most),
        },
        _ => None,
    }
}

fn pass<'a>(words: &[&[u8]]) -> Option<Command<'a>>
    ensures { result ≡ pass_in (map (λ word. word.now) words.now) }
{
    match words {
        [isn] => Some(Command::Pass(initial(isn)?)),
        _ => None,
    }
}

/// What the words behind a host's name say: a round, or what the host does.
fn at_host<'a>(side: Side, words: &[&'a [u8]]) -> Option<Command<'a>>
    ensures { result ≡ command_of side (map (λ word. word.now) words.now) }
{
    let (first, rest) = words.split_first()?;
    match *first {
        b"round" => round(side, rest),
        _ => Some(Command::At(side, Action::parse(words)?)),
    }
}

fn round<'a>(writer: Side, words: &[&[u8]]) -> Option<Command<'a>>
    ensures { result ≡ round_in writer (map (λ word. word.now) words.now) }
{
    match words {
        [id] => Some(Command::Round(writer, socket_id(id)?)),
        _ => None,
    }
}

/// What a script says of its world before its first command.
#[derive(Clone, Copy, Debug, PartialEq, Eq)]
pub struct Setting {
    /// Whether the hosts use the window scale option (RFC 7323 section 2): there is no `noscale`.
    pub scales: bool,
    /// The N of `limit`, if there is one.
    pub limit: Option<u64>,
}

/// A script, of which every line is good.
#[derive(Debug, Drop)]
pub struct Script<'a> {
    /// What it says of its world.
    pub setting: Setting,
    /// Its commands in order.
    pub commands: Vec<Command<'a>>,
    ghost limit_in_range: { ForSome setting.limit (λ n. (1 ≤ n) × (n ≤ 2 ^ 30)) },
}

impl<'a> Script<'a> {
    ghost use Rattle.script.specs.Script.{first_bad_line, scales_in, commands_of, limits_of, is_bad, has_begun, stage_of, stage_after, is_noscale, command_in, limit_said};

    /// The script that `octets` are; else `Line` with the number of the first bad line, or `NoMemory`.
    pub fn parse(alloc: Global, octets: &'a [u8]) -> Result<Script<'a>, ScriptFault>
        ensures good { OnOk result (first_bad_line octets.entry.now ≡ None) }
        ensures commands { IfOk result (λ script. script.commands.items ≡ commands_of (lines_of octets.entry.now)) }
        ensures scales { IfOk result (λ script. script.setting.scales ≡ scales_in (lines_of octets.entry.now)) }
        ensures limit { IfOk result (λ script. option_to_list script.setting.limit ≡ limits_of (lines_of octets.entry.now)) }
        ensures bad { IfErr result (λ fault. (fault ≡ ScriptFault.NoMemory)
            ⊎ IsSomeAnd (first_bad_line octets.entry.now) (λ n. fault ≡ ScriptFault.Line n)) }
    {
        let lines = split_lines(alloc, octets)?;
        let mut script = Script {
            setting: Setting {
                scales: true,
                limit: None,
            },
            commands: Vec::new(alloc),
        };
        for (index, line) in lines.iter().enumerate() {
            let item = Item::parse(alloc, line)?;
            if !script.add(item)? {
                return Err(ScriptFault::Line(index + 1));
            }
        }
        Ok(script)
    }

    /// Adds what one more line says, and answers whether that line is good here.
    fn add(&mut self, item: Option<Item<'a>>) -> Result<bool, AllocError>
        requires { HasLimitInRange item }
        ensures good { IfOk result (λ good. good ≡ not (is_bad (stage_of self.old.setting self.old.commands.items) item.entry)) }
        ensures commands { OnOk result (self.new.commands.items ≡ self.old.commands.items ++ option_to_list (command_in item.entry)) }
        ensures stage { IfOk result (λ good. good ≡ true → stage_of self.new.setting self.new.commands.items
            ≡ stage_after (stage_of self.old.setting self.old.commands.items) item.entry) }
        ensures scales { IfOk result (λ good. good ≡ true → self.new.setting.scales ≡ (self.old.setting.scales && not (is_noscale item.entry))) }
        ensures limit { IfOk result (λ good. good ≡ true → option_to_list self.new.setting.limit ≡ option_to_list self.old.setting.limit ++ option_to_list (limit_said item.entry)) }
    {
        match item {
            None => Ok(false),
            Some(Item::Nothing) => Ok(true),
            Some(Item::NoScale) => {
                let is_first = self.setting.scales && !self.has_begun();
                if is_first {
                    self.setting.scales = false;
                }
                Ok(is_first)
            }
            Some(Item::Limit(most)) => {
                let is_first = !self.has_begun();
                if is_first {
                    self.setting.limit = Some(most);
                }
                Ok(is_first)
            }
            Some(Item::Do(command)) => {
                self.commands.push(command)?;
                Ok(true)
            }
        }
    }

    /// Whether more than `noscale` was said.
    fn has_begun(&self) -> bool
        ensures { result ≡ has_begun self.now.setting self.now.commands.items }
    {
        self.setting.limit.is_some() || !self.commands.is_empty()
    }
}
