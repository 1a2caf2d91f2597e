//! Replies to echo requests.

ghost use Rattle.std.specs.Prelude.{◌≡◌, ◌+◌, ◌≤◌, ◌++◌, length, drop, slice_range};
ghost use Rattle.icmp.specs.Message.{spelling};
ghost use Rattle.icmp.specs.Sent.{echo_reply};

use crate::head::Head;
use crate::kind::Kind;

/// Writes the head of an echo reply before data of so many octets, which stand at `out[8..]` already, and answers the length
/// of the message, in octets (RFC 792). What stands behind it in `out` stays.
pub fn emit_echo_reply(identifier: u16, number: u16, data_len: usize, out: &mut [u8]) -> usize
    requires { 8 + data_len ≤ length out.old }
    ensures len { result ≡ 8 + data_len }
    ensures octets { out.new ≡ spelling (echo_reply identifier number (slice_range out.old 8 result)) ++ drop result out.old }
{
    let head = Head {
        kind: Kind::ECHO_REPLY.0,
        code: 0,
        identifier,
        number,
    };
    head.emit(data_len, out)
}
