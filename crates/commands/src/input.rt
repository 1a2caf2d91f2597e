//! The octets of a text on their way from a source.

ghost use Rattle.std.specs.Prelude.{◌≡◌, ◌⊎◌, true, ◌≤◌, ◌<◌, length, vec_len, IfOk, IfErr, IfSome};
ghost use Rattle.devices.specs.Streams.{counted};
ghost use Rattle.commands.specs.Moved.{AddsRead};
ghost use Rattle.commands.specs.Sim.{read_fails, is_before_run, IsFaultDue, IsUnread, IsScriptUnread};

use crate::fault::TextFault;
use devices::Source;
use std::alloc::Global;

/// The most octets of a script.
pub const MOST_OCTETS: usize = 1_000_000;

/// The octets of one read.
const CHUNK: usize = 4096;

/// All octets of a text, however many they are. `Read` where the source fails, `NoMemory` for want of memory.
pub fn whole<R: Source>(alloc: Global, text: &mut R) -> Result<Vec<u8>, TextFault>
    ensures read { R.failures text.new ≡ counted (read_fails result) (R.failures text.old) }
    ensures all { IfOk result (λ octets. IfSome (R.remaining text.old) (λ told. octets.items ≡ told)) }
    ensures unread { IfErr result IsUnread }
{
    let mut octets = Vec::new(alloc);
    while add_read(text, &mut octets)? {}
    Ok(octets)
}

/// All octets of a script. `TooLong` where it has more than a million, `Read` where the source fails, `NoMemory` for want of memory.
pub fn whole_script<R: Source>(alloc: Global, script: &mut R) -> Result<Vec<u8>, TextFault>
    ensures read { R.failures script.new ≡ counted (read_fails result) (R.failures script.old) }
    ensures short { IfOk result (λ octets. length octets.items ≤ MOST_OCTETS) }
    ensures all { IfOk result (λ octets. IfSome (R.remaining script.old) (λ told. octets.items ≡ told)) }
    ensures faults { IfErr result (λ fault. is_before_run fault ≡ true ⊎ fault ≡ TextFault.NoMemory) }
    ensures unread { IfErr result (λ fault. IfSome (R.remaining script.old) (λ told. IsScriptUnread told fault)) }
    ensures due { IfErr result (λ fault. IfSome (R.remaining script.old) (λ told. IsFaultDue told fault)) }
{
    let mut octets = Vec::new(alloc);
    while octets.len() <= MOST_OCTETS {
        if !add_read(script, &mut octets)? {
            return Ok(octets);
        }
    }
    Err(TextFault::TooLong)
}

/// Adds what one read gives, and answers whether it gave any octet: none says that the text is at its end. `Read` where the source fails,
/// `NoMemory` for want of memory.
fn add_read<R: Source>(text: &mut R, octets: &mut Vec<u8>) -> Result<bool, TextFault>
    ensures read { R.failures text.new ≡ counted (read_fails result) (R.failures text.old) }
    ensures more { IfOk result (λ more. more ≡ true → vec_len octets.old < vec_len octets.new) }
    ensures added { IfOk result (λ more. AddsRead more (R.remaining text.old) (R.remaining text.new) octets.old.items octets.new.items) }
    ensures unread { IfErr result IsUnread }
{
    let mut chunk = [0u8; CHUNK];
    match text.read(&mut chunk) {
        Ok(0) => Ok(false),
        Ok(count) => {
            octets.extend_from_slice(&chunk[..count])?;
            Ok(true)
        }
        Err(_) => Err(TextFault::Read),
    }
}
