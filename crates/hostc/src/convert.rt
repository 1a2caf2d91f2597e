//! How what is passed is read, and how what is found is told.

ghost use Rattle.std.specs.Prelude.{◌≡◌, Option, None, Some, Result, Ok, Err};
ghost use Rattle.std.specs.Result.{result_err};
ghost use Rattle.hostc.specs.Numbers.{kind_of, told, refused, answered, done, taken, numbered, state_number, received_count};
ghost use Rattle.hostc.specs.Types.{addr_of, endpoint_of, end_of, ends_of, hop_of};

use crate::types::End;
use host::{DropCause, Kind, Refusal, SocketState};
use ipv4::{Addr, Endpoint, Pair};
use routes::Hop;
use tcp_state::{Received, State};

/// The address that a number is.
pub(crate) fn addr_of(number: u32) -> Addr
    ensures { result ≡ addr_of number }
{
    Addr(number.to_be_bytes())
}

/// The endpoint of an address, as a number, and a port.
pub(crate) fn endpoint_of(addr: u32, port: u16) -> Endpoint
    ensures { result ≡ endpoint_of addr port }
{
    Endpoint {
        addr: addr_of(addr),
        port,
    }
}

/// The hop by a gateway's address, as a number, which is 0 on the link.
pub(crate) fn hop_of(gateway: u32) -> Hop
    ensures { result ≡ hop_of gateway }
{
    if gateway == 0 {
        Hop::Direct
    } else {
        Hop::Gateway(addr_of(gateway))
    }
}

/// The kind of a socket by its number: 1 is TCP, and 2 is UDP.
pub(crate) fn kind_of(number: u32) -> Option<Kind>
    ensures { result ≡ kind_of number }
{
    match number {
        1 => Some(Kind::Tcp),
        2 => Some(Kind::Udp),
        _ => None,
    }
}

/// An endpoint as it is told.
pub(crate) fn end_of(end: Endpoint) -> End
    ensures { result ≡ end_of end }
{
    End {
        addr: u32::from_be_bytes(end.addr.0),
        port: end.port,
    }
}

/// The two ends of a pair as they are told, the lesser one first.
pub(crate) fn ends_of(pair: Pair) -> [End; 2]
    ensures { result ≡ ends_of pair }
{
    [end_of(pair.first), end_of(pair.second)]
}

/// A number that isn't negative as it is told: the greatest that can be told stands for one over it.
pub(crate) fn told(number: u64) -> i64
    ensures { result ≡ told number }
{
    if number <= i64::MAX as u64 {
        number as i64
    } else {
        i64::MAX
    }
}

/// The number of a refusal, negative.
pub(crate) fn refused(refusal: Refusal) -> i64
    ensures { result ≡ refused refusal }
{
    match refusal {
        Refusal::EBADF => -1,
        Refusal::EINVAL => -2,
        Refusal::EADDRINUSE => -3,
        Refusal::EADDRNOTAVAIL => -4,
        Refusal::EISCONN => -5,
        Refusal::ENOTCONN => -6,
        Refusal::EALREADY => -7,
        Refusal::EAGAIN => -8,
        Refusal::ECONNREFUSED => -9,
        Refusal::ECONNRESET => -10,
        Refusal::ETIMEDOUT => -11,
        Refusal::EPIPE => -12,
        Refusal::EMSGSIZE => -13,
        Refusal::ENETUNREACH => -14,
        Refusal::EMFILE => -15,
        Refusal::ENOMEM => -16,
        Refusal::EOPNOTSUPP => -17,
        Refusal::EDESTADDRREQ => -18,
    }
}

/// 0, or the number of the refusal.
pub(crate) fn done(answer: Result<(), Refusal>) -> i64
    ensures { result ≡ answered (done (result_err answer)) }
{
    match answer {
        Ok(()) => 0,
        Err(refusal) => refused(refusal),
    }
}

/// How many octets, or the number of the refusal.
pub(crate) fn counted(answer: Result<usize, Refusal>) -> i64
    ensures { result ≡ answered answer }
{
    match answer {
        Ok(count) => told(count as u64),
        Err(refusal) => refused(refusal),
    }
}

/// How many octets were read, or the number of the refusal.
pub(crate) fn received(answer: Result<Received, Refusal>) -> i64
    ensures { result ≡ answered (numbered received_count answer) }
{
    match answer {
        Ok(Received::Octets(count)) => told(count as u64),
        Ok(Received::EndOfStream) => 0,
        Err(refusal) => refused(refusal),
    }
}

/// 0 where a frame was taken, or the number of the cause to drop it, negative.
pub(crate) fn taken(verdict: Result<(), DropCause>) -> i64
    ensures { result ≡ taken verdict }
{
    match verdict {
        Ok(()) => 0,
        Err(DropCause::Short) => -1,
        Err(DropCause::OtherMac) => -2,
        Err(DropCause::OtherType) => -3,
        Err(DropCause::IpHeader) => -4,
        Err(DropCause::IpSum) => -5,
        Err(DropCause::OtherAddress) => -6,
        Err(DropCause::UpperHeader) => -7,
        Err(DropCause::UpperSum) => -8,
        Err(DropCause::NoRoom) => -9,
        Err(DropCause::Fragment) => -10,
    }
}

/// The number of a state, or of the refusal.
pub(crate) fn state_told(answer: Result<SocketState, Refusal>) -> i64
    ensures { result ≡ answered (numbered state_number answer) }
{
    match answer {
        Ok(SocketState::Datagram) => 11,
        Ok(SocketState::Stream(state)) => match state {
            State::Closed => 0,
            State::Listen => 1,
            State::SynSent => 2,
            State::SynReceived => 3,
            State::Established => 4,
            State::FinWait1 => 5,
            State::FinWait2 => 6,
            State::CloseWait => 7,
            State::Closing => 8,
            State::LastAck => 9,
            State::TimeWait => 10,
        },
        Err(refusal) => refused(refusal),
    }
}
