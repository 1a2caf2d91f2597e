//! The first part of an outgoing datagram, with its header.

ghost use Rattle.std.specs.Prelude.{◌≡◌, ◌+◌, ◌-◌, ◌<◌, ◌≤◌, ◌^◌, ◌++◌, length, slice_range};
ghost use Rattle.udp.specs.Datagram.{header_octets};
ghost use Rattle.udp.specs.Sent.{sent};
ghost use Rattle.udp.specs.Waiting.{first_octets};

use ipv4::Addr;
use udp::{HEADER_LEN, Head, Queue};

/// Fills `out` with the first octets of the UDP datagram of this header whose payload is the first datagram of the queue, which has
/// `len` octets.
pub(crate) fn fill_first(
    datagrams: &Queue,
    head: Head,
    src: Addr,
    dst: Addr,
    len: usize,
    out: &mut [u8],
)
    requires len { length (first_octets datagrams.now.items) ≡ len }
    requires most { 8 + len < 2 ^ 16 }
    requires header { 8 ≤ length out.old }
    requires payload { length out.old ≤ 8 + len }
    ensures { out.new ≡ header_octets (sent src dst head (first_octets datagrams.now.items)) ++ slice_range (first_octets datagrams.now.items) 0 (length out.old - 8) }
{
    head.emit_summed(src, dst, len, datagrams.sum(), out);
    datagrams.copy_at(0, &mut out[HEADER_LEN..]);
}
