//! What is told of a connection, as numbers.

ghost use Rattle.std.specs.Prelude.{◌≡◌, option_map};
ghost use Rattle.std.specs.Result.{result_ok};
ghost use Rattle.sockets.specs.Info.{info_answer};
ghost use Rattle.hostc.specs.Calls.{of_host};
ghost use Rattle.hostc.specs.Info.{told_or_none, moment_number, error_number, info_numbers, told_over};
ghost use Rattle.hostc.specs.Numbers.{answered, numbered};
ghost use Rattle.hostc.specs.Types.{socket_of, written};

use crate::convert::{refused, state_told, told};
use crate::handle::Handle;
use clock::Moment;
use host::{Info, Refusal, SocketId, SocketState};
use std::alloc::Global;

/// How many numbers tell what is so of a connection.
const NUMBERS: usize = 22;

/// `Host::info`, as the numbers of `struct host_info` behind its size, in their order. Answers 0, and the first of them stand at the front of
/// `numbers` then, as many as it has places; what is behind them stays. EBADF, also where the handle holds no host; else as `Host::info`.
#[unsafe(no_mangle)]
pub extern "C" fn host_info_into(
    alloc: Global,
    handle: &mut Handle,
    id: u64,
    numbers: &mut [i64],
) -> i64
    ensures answer { result ≡ answered (of_host (λ h. numbered (λ i. 0) (info_answer h.sockets (socket_of id))) handle.old.host) }
    ensures numbers { numbers.new ≡ written (λ i. told_over numbers.old (info_numbers i)) (result_ok (of_host (λ h. info_answer h.sockets (socket_of id)) handle.old.host)) numbers.old }
    ensures same { handle.new.host ≡ handle.old.host }
    ensures counters { handle.new.counters ≡ handle.old.counters }
{
    info_told(handle.ask(alloc, |host| host.info(SocketId(id))), numbers)
}

/// 0, and writes the numbers; or the number of the refusal.
fn info_told(answer: Result<Info, Refusal>, numbers: &mut [i64]) -> i64
    ensures answer { result ≡ answered (numbered (λ i. 0) answer) }
    ensures numbers { numbers.new ≡ written (λ i. told_over numbers.old (info_numbers i)) (result_ok answer) numbers.old }
{
    match answer {
        Ok(info) => {
            write_over(numbers, &info_numbers(info));
            0
        }
        Err(refusal) => refused(refusal),
    }
}

/// Writes the first of these numbers, as many as there are places.
pub(crate) fn write_over(numbers: &mut [i64], told: &[i64])
    ensures { numbers.new ≡ told_over numbers.old told.now }
{
    let count = numbers.len().min(told.len());
    numbers[..count].copy_from_slice(&told[..count]);
}

/// The numbers, in the order of `struct host_info`.
fn info_numbers(info: Info) -> [i64; NUMBERS]
    ensures { result ≡ info_numbers info }
{
    let (srtt, rttvar) = match info.estimate {
        Some(estimate) => (Some(u64::from(estimate.s8)), Some(u64::from(estimate.v4))),
        None => (None, None),
    };
    [
        state_told(Ok(SocketState::Stream(info.state))),
        told(u64::from(info.in_flight)),
        told(info.held as u64),
        told(info.unsent as u64),
        told(info.readable as u64),
        told(info.kept as u64),
        told(u64::from(info.peer_window)),
        told(u64::from(info.own_window)),
        told(info.smss as u64),
        told(u64::from(info.cwnd)),
        told(u64::from(info.ssthresh)),
        told_or_none(srtt),
        told_or_none(rttvar),
        told(u64::from(info.rto)),
        told(u64::from(info.expiries)),
        told(info.resent),
        error_number(info.error),
        moment_number(info.timers.retransmission),
        moment_number(info.timers.probe),
        moment_number(info.timers.delayed_ack),
        moment_number(info.timers.overriding),
        moment_number(info.ends_at),
    ]
}

/// A number, and -1 where there is none.
fn told_or_none(number: Option<u64>) -> i64
    ensures { result ≡ told_or_none number }
{
    match number {
        Some(number) => told(number),
        None => -1,
    }
}

/// A moment's number, and -1 where there is none.
fn moment_number(moment: Option<Moment>) -> i64
    ensures { result ≡ moment_number moment }
{
    match moment {
        Some(moment) => told(moment.0),
        None => -1,
    }
}

/// The number of a pending error, negative, and 0 where there is none.
fn error_number(error: Option<tcp_state::Refusal>) -> i64
    ensures { result ≡ error_number error }
{
    match error {
        Some(error) => refused(Refusal::from(error)),
        None => 0,
    }
}
