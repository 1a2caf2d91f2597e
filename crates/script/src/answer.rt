//! How the answers of a world are printed.

ghost use Rattle.std.specs.Prelude.{◌≡◌, ◌<◌, ◌++◌, [], ◌∷◌, OnOk, IfOk, codes, length, string_bytes};
ghost use Rattle.script.specs.Text.{hex_digit_of, escape_of, escaped_of, octets_text, peer_text, ready_text, shown_of, word_shown};
ghost use Rattle.wire_sim.specs.Names.{unfair_text};
ghost use Rattle.std.specs.Fmt.{decimal};

use crate::info::show_info;
use host::{Ready, SocketId};
use ipv4::Endpoint;
use std::alloc::AllocError;
use wire_sim::{Answer, Unfair};

/// How the octets that a host read are printed.
#[derive(Clone, Copy, Debug, PartialEq, Eq)]
pub enum Style {
    /// As a text.
    Text,
    /// As a number.
    Count,
}

/// Adds `octets` to `line`: those of text as they are, but a backslash and every other octet as `\x` and two lower case
/// hexadecimal digits.
fn escape(octets: &[u8], line: &mut String) -> Result<(), AllocError>
    ensures { OnOk result (string_bytes line.new ≡ string_bytes line.old ++ escaped_of octets.now) }
{
    for octet in octets {
        escape_octet(*octet, line)?;
    }
    Ok(())
}

fn escape_octet(octet: u8, line: &mut String) -> Result<(), AllocError>
    ensures { OnOk result (string_bytes line.new ≡ string_bytes line.old ++ escape_of octet) }
{
    if octet.is_ascii_graphic() && octet != b'\\' {
        return line.push(char::from(octet));
    }
    line.push_str("\\x")?;
    line.push(hex_digit(octet / 16))?;
    line.push(hex_digit(octet % 16))
}

fn hex_digit(value: u8) -> char
    requires { value < 16 }
    ensures { result ≡ hex_digit_of value }
{
    if value < 10 {
        char::from(b'0' + value)
    } else {
        char::from(b'a' + (value - 10))
    }
}

/// Adds what is printed of `answer` to `line`: one line, or where it is how a connection stands one for each field, with a newline between them.
pub fn show(answer: &Answer, style: Style, line: &mut String) -> Result<(), AllocError>
    ensures { OnOk result (string_bytes line.new ≡ string_bytes line.old ++ shown_of style answer.now) }
{
    match answer {
        Answer::Socket(id) => write!(line, "id {}", id.0),
        Answer::Done => line.push_str("ok"),
        Answer::Accepted(id, peer) => show_accepted(*id, *peer, line),
        Answer::Started => line.push_str("started"),
        Answer::Sent(count) => write!(line, "sent {count}"),
        Answer::Octets(octets) => show_octets(octets.as_slice(), style, line),
        Answer::Datagram { octets, from } => show_datagram(octets.as_slice(), *from, style, line),
        Answer::EndOfStream => line.push_str("end"),
        Answer::State(state) => write!(line, "{state}"),
        Answer::Ready(ready) => show_ready(*ready, line),
        Answer::Info(info) => show_info(info, line),
        Answer::Endpoint(end) => show_peer(*end, line),
        Answer::Frame { index, len } => write!(line, "frame {index} {len}"),
        Answer::NoFrame => line.push_str("none"),
        Answer::Taken => line.push_str("taken"),
        Answer::Dropped(cause) => write!(line, "drop F{}", cause.number()),
        Answer::Refused(refusal) => write!(line, "{refusal}"),
    }
}

/// What a socket is ready for: the words that hold, or `none`.
fn show_ready(ready: Ready, line: &mut String) -> Result<(), AllocError>
    ensures { OnOk result (string_bytes line.new ≡ string_bytes line.old ++ ready_text ready) }
{
    show_word(ready.accept, false, "ACCEPT", line)?;
    let others = ready.accept;
    show_word(ready.read, others, "READ", line)?;
    let others = others || ready.read;
    show_word(ready.write, others, "WRITE", line)?;
    let others = others || ready.write;
    show_word(ready.ended, others, "ENDED", line)?;
    let others = others || ready.ended;
    show_word(ready.failed, others, "FAILED", line)?;
    let others = others || ready.failed;
    show_word(ready.opening, others, "OPENING", line)?;
    show_word(!(others || ready.opening), false, "none", line)
}

/// A word where it holds, behind a blank where another stands before it.
fn show_word(holds: bool, others: bool, word: &str, line: &mut String) -> Result<(), AllocError>
    ensures { OnOk result (string_bytes line.new ≡ string_bytes line.old ++ word_shown holds others word.now) }
{
    if holds && others {
        line.push_str(" ")?;
    }
    if holds {
        line.push_str(word)?;
    }
    Ok(())
}

/// The id of an accepted connection, and its peer.
fn show_accepted(id: SocketId, peer: Endpoint, line: &mut String) -> Result<(), AllocError>
    ensures { OnOk result (string_bytes line.new ≡ string_bytes line.old
        ++ (codes "id " ++ (decimal id.0 ++ (codes " " ++ peer_text peer)))) }
{
    write!(line, "id {} ", id.0)?;
    show_peer(peer, line)
}

/// The octets of a datagram that were read, or how many they are, and where it came from.
fn show_datagram(
    octets: &[u8],
    from: Endpoint,
    style: Style,
    line: &mut String,
) -> Result<(), AllocError>
    ensures { OnOk result (string_bytes line.new ≡ string_bytes line.old ++ (octets_text style octets.now ++ (codes " from " ++ peer_text from))) }
{
    show_octets(octets, style, line)?;
    line.push_str(" from ")?;
    show_peer(from, line)
}

/// An address, and the port there.
fn show_peer(peer: Endpoint, line: &mut String) -> Result<(), AllocError>
    ensures { OnOk result (string_bytes line.new ≡ string_bytes line.old ++ peer_text peer) }
{
    let [a, b, c, d] = peer.addr.0;
    write!(line, "{a}.{b}.{c}.{d} {}", peer.port)
}

/// Adds what is printed of an event that the world refuses to `line`.
pub fn show_unfair(unfair: Unfair, line: &mut String) -> Result<(), AllocError>
    ensures { OnOk result (string_bytes line.new ≡ string_bytes line.old ++ unfair_text unfair) }
{
    write!(line, "{unfair}")
}

/// The octets that were read, or how many they are.
fn show_octets(octets: &[u8], style: Style, line: &mut String) -> Result<(), AllocError>
    ensures { OnOk result (string_bytes line.new ≡ string_bytes line.old ++ octets_text style octets.now) }
{
    match style {
        Style::Text => {
            line.push_str("octets ")?;
            escape(octets, line)
        }
        Style::Count => write!(line, "octets {}", octets.len()),
    }
}
