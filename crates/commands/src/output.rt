//! Printed text on its way to a sink.

ghost use Rattle.std.specs.Prelude.{◌≡◌, ◌⊎◌, true, [], ◌++◌, Err, OnOk, IfErr, string_bytes};
ghost use Rattle.std.specs.Io.KnownBytes.{Appends, Keeps};
ghost use Rattle.devices.specs.Streams.{counted, TakesFront};
ghost use Rattle.commands.specs.Moved.{TakesAllBut};
ghost use Rattle.commands.specs.Sim.{write_fails_in};

use crate::fault::TextFault;
use devices::Sink;

/// Where so many octets of printed lines wait, they are handed to the sink.
const FULL: usize = 8192;

/// Hands all of `octets` to `out`; `Write` where the sink fails, and then it took a part of
/// the front.
pub fn write_all<W: Sink>(out: &mut W, octets: &[u8]) -> Result<(), TextFault>
    ensures failures { W.failures out.new ≡ counted (write_fails_in result) (W.failures out.old) }
    ensures ok { OnOk result (Appends (W.taken out.old) (W.taken out.new) octets.now) }
    ensures err { IfErr result (λ fault. (fault ≡ TextFault.Write) × TakesFront (W.taken out.old) (W.taken out.new) octets.now) }
{
    match devices::write_all(out, octets) {
        Ok(()) => Ok(()),
        Err(_) => Err(TextFault::Write),
    }
}

/// Hands `lines` to `out` and empties them; `Write` where the sink fails.
pub fn hand_on<W: Sink>(lines: &mut String, out: &mut W) -> Result<(), TextFault>
    ensures failures { W.failures out.new ≡ counted (write_fails_in result) (W.failures out.old) }
    ensures taken { OnOk result (Appends (W.taken out.old) (W.taken out.new) (string_bytes lines.old)) }
    ensures empty { OnOk result (string_bytes lines.new ≡ []) }
    ensures faults { IfErr result (λ fault. (fault ≡ TextFault.Write) × TakesFront (W.taken out.old) (W.taken out.new) (string_bytes lines.old)) }
{
    write_all(out, lines.as_bytes())?;
    lines.clear();
    Ok(())
}

/// Adds a line to those that wait, and hands them on where they are many.
pub fn add_line<W: Sink>(line: &str, lines: &mut String, out: &mut W) -> Result<(), TextFault>
    ensures written { W.failures out.new ≡ counted (write_fails_in result) (W.failures out.old) }
    ensures faults { IfErr result (λ fault. (fault ≡ TextFault.Write)
        ⊎ ((fault ≡ TextFault.NoMemory) × (string_bytes lines.new ≡ string_bytes lines.old) × (W.taken out.new ≡ W.taken out.old))) }
    ensures added { OnOk result (TakesAllBut (W.taken out.old) (W.taken out.new) (string_bytes lines.old ++ line.now) (string_bytes lines.new)) }
    ensures cut { result ≡ Err TextFault.Write → TakesFront (W.taken out.old) (W.taken out.new) (string_bytes lines.old ++ line.now) }
{
    lines.push_str(line)?;
    if lines.len() >= FULL {
        hand_on(lines, out)?;
    }
    Ok(())
}

/// Hands `lines` to `out` for good; `Write` where the sink fails.
pub fn finish<W: Sink>(lines: &mut String, out: &mut W) -> Result<(), TextFault>
    ensures failures { W.failures out.new ≡ counted (write_fails_in result) (W.failures out.old) }
    ensures taken { OnOk result (Appends (W.taken out.old) (W.taken out.new) (string_bytes lines.old)) }
    ensures faults { IfErr result (λ fault. (fault ≡ TextFault.Write) × TakesFront (W.taken out.old) (W.taken out.new) (string_bytes lines.old)) }
    ensures flushed { OnOk result (W.is_flushed out.new ≡ true) }
{
    hand_on(lines, out)?;
    flush(out)
}

/// Has `out` hand on all that it took; `Write` where it fails.
pub fn flush<W: Sink>(out: &mut W) -> Result<(), TextFault>
    ensures failures { W.failures out.new ≡ counted (write_fails_in result) (W.failures out.old) }
    ensures taken { Keeps (W.taken out.old) (W.taken out.new) }
    ensures flushed { OnOk result (W.is_flushed out.new ≡ true) }
    ensures fault { IfErr result (λ fault. fault ≡ TextFault.Write) }
{
    out.flush().map_err(|_| TextFault::Write)
}

/// Whether the sink failed.
pub fn is_write_fault(outcome: &Result<(), TextFault>) -> bool
    ensures { result ≡ write_fails_in outcome.now }
{
    matches!(outcome, Err(TextFault::Write))
}
