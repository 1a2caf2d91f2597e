//! Messages that report an error.

ghost use Rattle.std.specs.Prelude.{◌≡◌, ◌+◌, ◌≤◌, ◌++◌, length, drop, min, IfSome, IfNone};
ghost use Rattle.icmp.specs.declared.error.Reason.{Reason};
ghost use Rattle.icmp.specs.Errors.{kind_of, code_of};
ghost use Rattle.icmp.specs.Message.{spelling};
ghost use Rattle.icmp.specs.Sent.{error_for};

use crate::head::{HEADER_LEN, Head};
use crate::kind::Kind;

/// The octets of a payload that an error quotes at most (RFC 792).
pub const QUOTED_LEN: usize = 8;

/// Why a datagram came to nothing: what an error says by its type and code (RFC 792).
#[derive(Clone, Copy, Debug, PartialEq, Eq)]
pub enum Reason {
    /// No way leads to its network.
    NetUnreachable,
    /// No way leads to its host.
    HostUnreachable,
    /// Its host has nothing that takes its protocol.
    ProtocolUnreachable,
    /// Its host has nothing at its port.
    PortUnreachable,
    /// It had to be cut into fragments and may not be.
    FragmentationNeeded,
    /// The way that it names did not lead on.
    SourceRouteFailed,
    /// It passed as many routers as it may.
    TransitTimeExceeded,
    /// Some of its fragments did not come in time.
    ReassemblyTimeExceeded,
}

impl Reason {
    /// The reason that a message of this type and code gives, where it gives one of these.
    pub fn with_numbers(kind: Kind, code: u8) -> Option<Reason>
        ensures some { IfSome result (λ reason. (kind_of reason ≡ kind.0) × (code_of reason ≡ code)) }
        ensures none { IfNone result ((reason : Reason) → kind_of reason ≡ kind.0 → code_of reason ≡ code → ⊥) }
    {
        match (kind.0, code) {
            (3, 0) => Some(Reason::NetUnreachable),
            (3, 1) => Some(Reason::HostUnreachable),
            (3, 2) => Some(Reason::ProtocolUnreachable),
            (3, 3) => Some(Reason::PortUnreachable),
            (3, 4) => Some(Reason::FragmentationNeeded),
            (3, 5) => Some(Reason::SourceRouteFailed),
            (11, 0) => Some(Reason::TransitTimeExceeded),
            (11, 1) => Some(Reason::ReassemblyTimeExceeded),
            _ => None,
        }
    }

    /// The type of an error for this reason.
    pub fn kind(self) -> Kind
        ensures { result.0 ≡ kind_of self }
    {
        match self {
            Reason::TransitTimeExceeded | Reason::ReassemblyTimeExceeded => Kind::TIME_EXCEEDED,
            _ => Kind::DESTINATION_UNREACHABLE,
        }
    }

    /// Its code.
    pub fn code(self) -> u8
        ensures { result ≡ code_of self }
    {
        match self {
            Reason::NetUnreachable | Reason::TransitTimeExceeded => 0,
            Reason::HostUnreachable | Reason::ReassemblyTimeExceeded => 1,
            Reason::ProtocolUnreachable => 2,
            Reason::PortUnreachable => 3,
            Reason::FragmentationNeeded => 4,
            Reason::SourceRouteFailed => 5,
        }
    }
}

/// Writes the error that tells the sender of a datagram with this header and this payload why it came to nothing, and answers
/// its length, in octets: at most 16 more than the header's. It quotes the whole header and the first 8 octets of the payload,
/// fewer where there are fewer (RFC 792). What stands behind it in `out` stays.
pub fn emit_error(reason: Reason, header: &[u8], payload: &[u8], out: &mut [u8]) -> usize
    requires { 8 + length header.now + min 8 (length payload.now) ≤ length out.old }
    ensures len { result ≡ 8 + length header.now + min 8 (length payload.now) }
    ensures octets { out.new ≡ spelling (error_for reason header.now payload.now) ++ drop result out.old }
{
    let quoted = &payload[..QUOTED_LEN.min(payload.len())];
    let end = HEADER_LEN + header.len();
    out[HEADER_LEN..end].copy_from_slice(header);
    out[end..end + quoted.len()].copy_from_slice(quoted);
    let head = Head {
        kind: reason.kind().0,
        code: reason.code(),
        identifier: 0,
        number: 0,
    };
    head.emit(header.len() + quoted.len(), out)
}
