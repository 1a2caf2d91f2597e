//! How numbers stand for addresses, and what emits answer.

ghost use Rattle.std.specs.Prelude.{◌≡◌, ◌+◌, ◌≤◌, ◌<◌, ◌^◌, ◌↔◌, ◌++◌, length, drop, IsTrue};
ghost use Rattle.codecc.specs.Calls.{addr_of, number_of, told, emitted};

use ipv4::Addr;

/// What an emit answers where a field can't be written.
pub(crate) const UNFIT: i64 = -11;

/// What an emit answers where the buffer is too short.
pub(crate) const NO_ROOM: i64 = -12;

/// The address that a number is.
pub(crate) fn addr_of(number: u32) -> Addr
    ensures { result ≡ addr_of number }
{
    Addr(number.to_be_bytes())
}

/// An address as it is told.
pub(crate) fn number_of(addr: Addr) -> u32
    ensures { result ≡ number_of addr }
{
    u32::from_be_bytes(addr.0)
}

/// A length as it is told: the greatest number that can be told stands for one over it.
pub(crate) fn told(len: usize) -> i64
    ensures { result ≡ told len }
{
    if len <= i64::MAX as usize {
        len as i64
    } else {
        i64::MAX
    }
}

/// Whether a buffer has room for a header and a payload of so many octets.
pub(crate) fn has_room(header: usize, payload: usize, out: &[u8]) -> bool
    ensures { IsTrue result ↔ (header + payload ≤ length out.now) }
{
    header <= out.len() && payload <= out.len() - header
}

/// Writes a header of 20 octets over the first ones.
pub(crate) fn put(header: &[u8; 20], out: &mut [u8])
    requires { 20 ≤ length out.old }
    ensures { out.new ≡ header.now ++ drop 20 out.old }
{
    out[..20].copy_from_slice(header);
}
