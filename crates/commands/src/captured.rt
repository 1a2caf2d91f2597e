//! `hostd decode --pcap`: prints what the frames of a capture say.

ghost use Rattle.std.specs.Prelude.{◌≡◌, ◌<◌, ◌^◌, ◌++◌, true, length, string_bytes, IfOk, IfErr, IfSome, OnOk};
ghost use Rattle.devices.specs.Streams.{counted};
ghost use Rattle.commands.specs.Sim.{read_fails, write_fails_in};
ghost use Rattle.commands.specs.Captured.{frame_line, is_before_print, IsTextOf, IsOnItsWay, TakesShown, TakesPrinted};

use crate::fault::TextFault;
use crate::input::whole;
use crate::output::{add_line, finish, is_write_fault};
use capture::{Reader, RecordView};
use devices::{Sink, Source};
use std::alloc::{AllocError, Global};

/// Reads a capture, of any length, and prints of each frame in it, in order, a line with its number from 0 on and its moment in milliseconds, and
/// what it says, a line a layer; where a layer of it can't be read, its last line says why. `Header` where the octets are no capture, and then
/// nothing is printed; `Record` behind the last whole record, where no record and not the capture's end stands there; `Read` or `Write` where a
/// device fails; `NoMemory` for want of memory. What was printed before a fault stays printed.
pub fn decode<R: Source, W: Sink>(
    alloc: Global,
    capture: &mut R,
    out: &mut W,
) -> Result<(), TextFault>
    ensures read { R.failures capture.new ≡ counted (read_fails result) (R.failures capture.old) }
    ensures written { W.failures out.new ≡ counted (write_fails_in result) (W.failures out.old) }
    ensures silent { IfErr result (λ fault. is_before_print fault ≡ true → out.new ≡ out.old) }
    ensures flushed { OnOk result (W.is_flushed out.new ≡ true) }
    ensures printed { IfSome (R.remaining capture.old) (λ octets. TakesPrinted octets result (W.taken out.old) (W.taken out.new)) }
{
    let octets = whole(alloc, capture)?;
    let mut reader = Reader::new(octets.as_slice())?;
    show(alloc, &mut reader, out)
}

/// Prints the frames of a capture, and hands on what was printed, also where a fault ends that.
fn show<W: Sink>(alloc: Global, capture: &mut Reader<'_>, out: &mut W) -> Result<(), TextFault>
    requires { length capture.now.octets < 2 ^ 64 }
    ensures written { W.failures out.new ≡ counted (write_fails_in result) (W.failures out.old) }
    ensures flushed { OnOk result (W.is_flushed out.new ≡ true) }
    ensures shown { TakesShown capture.old result (W.taken out.old) (W.taken out.new) }
{
    let mut lines = String::new(alloc);
    let outcome = show_all(alloc, capture, &mut lines, out);
    if is_write_fault(&outcome) {
        return outcome;
    }
    finish(&mut lines, out)?;
    outcome
}

/// Adds what is printed of the frames of a capture to `lines`, which go to the sink whenever they are many.
fn show_all<W: Sink>(
    alloc: Global,
    capture: &mut Reader<'_>,
    lines: &mut String,
    out: &mut W,
) -> Result<(), TextFault>
    requires { length capture.now.octets < 2 ^ 64 }
    ensures written { W.failures out.new ≡ counted (write_fails_in result) (W.failures out.old) }
    ensures shown { IsOnItsWay capture.old result (W.taken out.old) (W.taken out.new) (string_bytes lines.old) (string_bytes lines.new) }
{
    let mut number = 0;
    while let Some(record) = capture.next_record() {
        let text = text_of(alloc, number, &record?)?;
        add_line(text.as_str(), lines, out)?;
        number += 1;
    }
    Ok(())
}

/// What is printed of a frame: its line, and what it says.
fn text_of(alloc: Global, number: usize, view: &RecordView<'_>) -> Result<String, AllocError>
    ensures { IfOk result (λ text. IsTextOf number view.now (string_bytes text)) }
{
    let mut text = String::new(alloc);
    push_line(number, view, &mut text)?;
    decode::decode(view.octets(), &mut text)?;
    Ok(text)
}

/// Adds the line of a frame: its number, its moment, and how many octets of it were captured where these are not all.
fn push_line(number: usize, view: &RecordView<'_>, text: &mut String) -> Result<(), AllocError>
    ensures { OnOk result (string_bytes text.new ≡ string_bytes text.old ++ frame_line number view.now) }
{
    let captured = view.octets().len();
    let original = view.original();
    write!(text, "frame {number} {}", view.moment().0)?;
    if captured < original as usize {
        write!(text, " cut {captured} of {original}")?;
    }
    text.push('\n')?;
    Ok(())
}
