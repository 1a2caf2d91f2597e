//! The words of a printed line.

ghost use Rattle.std.specs.Prelude.{◌≡◌, ◌++◌, OnOk, string_bytes};
ghost use Rattle.decode.specs.Words.{hex_of, hex_of_two, three_text, mac_text, addr_text, fragment_flags, flags_text, letter, letters, mss_text};

use ether::Mac;
use ipv4::Addr;
use std::alloc::AllocError;
use tcp_segment::Flags;

/// Adds an octet as two hexadecimal digits.
#[tactic(auto, using(std::proofs::lemmas::Fmt::hex_byte), unfolding(crate::specs::Words::hex_of))]
pub(crate) fn push_hex(octet: u8, line: &mut String) -> Result<(), AllocError>
    ensures { OnOk result (string_bytes line.new ≡ string_bytes line.old ++ hex_of octet) }
{
    write!(line, "{octet:02x}")
}

/// Adds a number as four hexadecimal digits.
#[tactic(auto, unfolding(crate::specs::Words::hex_of_two))]
pub(crate) fn push_hex_of_two(number: u16, line: &mut String) -> Result<(), AllocError>
    ensures { OnOk result (string_bytes line.new ≡ string_bytes line.old ++ hex_of_two number) }
{
    let [high, low] = number.to_be_bytes();
    push_hex(high, line)?;
    push_hex(low, line)
}

/// Adds a MAC, its octets parted by colons.
#[tactic(auto, unfolding(crate::specs::Words::mac_text))]
pub(crate) fn push_mac(mac: Mac, line: &mut String) -> Result<(), AllocError>
    ensures { OnOk result (string_bytes line.new ≡ string_bytes line.old ++ mac_text mac) }
{
    let [a, b, c, d, e, f] = mac.0;
    push_three(a, b, c, line)?;
    line.push_str(":")?;
    push_three(d, e, f, line)
}

/// Adds three octets, parted by colons.
#[tactic(auto, unfolding(crate::specs::Words::three_text))]
fn push_three(a: u8, b: u8, c: u8, line: &mut String) -> Result<(), AllocError>
    ensures { OnOk result (string_bytes line.new ≡ string_bytes line.old ++ three_text a b c) }
{
    push_hex(a, line)?;
    line.push_str(":")?;
    push_hex(b, line)?;
    line.push_str(":")?;
    push_hex(c, line)
}

/// Adds an address, its numbers parted by points.
#[tactic(auto, unfolding(crate::specs::Words::addr_text))]
pub(crate) fn push_addr(addr: Addr, line: &mut String) -> Result<(), AllocError>
    ensures { OnOk result (string_bytes line.new ≡ string_bytes line.old ++ addr_text addr) }
{
    let [a, b, c, d] = addr.0;
    write!(line, "{a}.{b}.{c}.{d}")
}

/// The flags of a datagram.
#[tactic(auto, unfolding(crate::specs::Words::fragment_flags))]
pub fn fragment_name<'a>(dont_fragment: bool, more_fragments: bool) -> &'a str
    ensures { result.now ≡ fragment_flags dont_fragment more_fragments }
{
    match (dont_fragment, more_fragments) {
        (true, true) => "DF+MF",
        (true, false) => "DF",
        (false, true) => "MF",
        (false, false) => "-",
    }
}

/// Adds the letters of the control bits that are set, or a dash.
#[tactic(auto, unfolding(crate::specs::Words::flags_text))]
pub fn push_flags(flags: Flags, line: &mut String) -> Result<(), AllocError>
    ensures { OnOk result (string_bytes line.new ≡ string_bytes line.old ++ flags_text flags) }
{
    if flags == Flags::default() {
        return line.push_str("-");
    }
    push_letter(flags.fin, "F", line)?;
    push_letter(flags.syn, "S", line)?;
    push_letter(flags.rst, "R", line)?;
    push_letter(flags.psh, "P", line)?;
    push_letter(flags.ack, "A", line)?;
    push_letter(flags.urg, "U", line)
}

/// Adds a name where its bit is set.
fn push_letter(is_set: bool, name: &str, line: &mut String) -> Result<(), AllocError>
    ensures { OnOk result (string_bytes line.new ≡ string_bytes line.old ++ letter is_set name.now) }
{
    if is_set {
        return line.push_str(name);
    }
    Ok(())
}

/// Adds a number, or a dash where there is none.
#[tactic(auto, unfolding(crate::specs::Words::mss_text))]
pub(crate) fn push_mss(told: Option<u16>, line: &mut String) -> Result<(), AllocError>
    ensures { OnOk result (string_bytes line.new ≡ string_bytes line.old ++ mss_text told) }
{
    match told {
        Some(number) => write!(line, "{number}"),
        None => line.push_str("-"),
    }
}
