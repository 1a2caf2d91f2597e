//! `hostd decode`: prints what a frame says.

ghost use Rattle.std.specs.Prelude.{◌≡◌, true, false, IfOk, IfErr, IfSome, OnOk, string_bytes};
ghost use Rattle.devices.specs.Streams.{counted};
ghost use Rattle.commands.specs.Sim.{read_fails, write_fails_in};
ghost use Rattle.commands.specs.Hex.{IsPrinted, IsUnspelled, TakesPrinted};

use crate::fault::TextFault;
use crate::input::whole;
use crate::output::finish;
use decode::{Unreadable, octets_of};
use devices::{Sink, Source};
use std::alloc::Global;

/// Reads the hexadecimal digits of a frame, in a text of any length, and prints what it says, a line a layer. The answer is why a layer of it can't
/// be read, if so, which the last line says. `NotHex` where the text is none of hexadecimal digits; `Read` or `Write` where a device fails; `NoMemory`
/// for want of memory.
pub fn decode<R: Source, W: Sink>(
    alloc: Global,
    hex: &mut R,
    out: &mut W,
) -> Result<Option<Unreadable>, TextFault>
    ensures read { R.failures hex.new ≡ counted (read_fails result) (R.failures hex.old) }
    ensures written { W.failures out.new ≡ counted (write_fails_in result) (W.failures out.old) }
    ensures silent { write_fails_in result ≡ false → IfErr result (λ fault. out.new ≡ out.old) }
    ensures flushed { OnOk result (W.is_flushed out.new ≡ true) }
    ensures printed { IfSome (R.remaining hex.old) (λ text. TakesPrinted text result (W.taken out.old) (W.taken out.new)) }
{
    let text = whole(alloc, hex)?;
    let (mut lines, cause) = printed(alloc, text.as_slice())?;
    finish(&mut lines, out)?;
    Ok(cause)
}

/// What is printed of a text, and why a layer of its frame can't be read, if so.
fn printed(alloc: Global, text: &[u8]) -> Result<(String, Option<Unreadable>), TextFault>
    ensures ok { IfOk result (λ told. IsPrinted text.now told.1 (string_bytes told.0)) }
    ensures err { IfErr result (λ fault. IsUnspelled text.now fault) }
{
    let octets = octets_of(alloc, text)?;
    let mut lines = String::new(alloc);
    let cause = decode::decode(octets.as_slice(), &mut lines)?;
    Ok((lines, cause))
}
