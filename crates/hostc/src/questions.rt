//! The questions that change nothing.

ghost use Rattle.std.specs.Prelude.{◌≡◌, Ok, option_and_then};
ghost use Rattle.interface.specs.Ways.{is_routed};
ghost use Rattle.std.specs.Result.{result_ok};
ghost use Rattle.sockets.specs.Calls.{state_answer, pair_connected, sockname_answer, peername_answer};
ghost use Rattle.host.specs.Arrival.{foreseen};
ghost use Rattle.host.specs.GiveWay.{with_way};
ghost use Rattle.hostc.specs.Calls.{of_host};
ghost use Rattle.hostc.specs.Numbers.{answered, numbered, state_number, whether};
ghost use Rattle.hostc.specs.Types.{addr_of, endpoint_of, socket_of, end_of, ends_of, written};

use crate::convert::{end_of, endpoint_of, ends_of, refused, state_told};
use crate::handle::Handle;
use crate::types::End;
use host::{Refusal, SocketId};
use ipv4::{Endpoint, Pair};
use std::alloc::Global;

/// `Host::state`, as a number: 0 CLOSED, 1 LISTEN, 2 SYN-SENT, 3 SYN-RECEIVED, 4 ESTABLISHED, 5 FIN-WAIT-1, 6 FIN-WAIT-2, 7 CLOSE-WAIT,
/// 8 CLOSING, 9 LAST-ACK, 10 TIME-WAIT, 11 DATAGRAM. EBADF, also where the handle holds no host.
#[unsafe(no_mangle)]
pub extern "C" fn host_state(alloc: Global, handle: &mut Handle, id: u64) -> i64
    ensures answer { result ≡ answered (of_host (λ h. numbered state_number (state_answer h.sockets (socket_of id))) handle.old.host) }
    ensures same { handle.new.host ≡ handle.old.host }
    ensures counters { handle.new.counters ≡ handle.old.counters }
{
    state_told(handle.ask(alloc, |host| host.state(SocketId(id))))
}

/// `Host::would_connect`. Answers 1, and `pair` is the pair that `host_connect` would open then, the lesser end first; 0 where it would be
/// refused. EBADF where the handle holds no host.
#[unsafe(no_mangle)]
pub extern "C" fn host_would_connect(
    alloc: Global,
    handle: &mut Handle,
    id: u64,
    addr: u32,
    port: u16,
    pair: &mut [End; 2],
) -> i64
    ensures answer { result ≡ answered (of_host (λ h. Ok (whether (pair_connected h.sockets (socket_of id) (endpoint_of addr port) (is_routed h.interface (addr_of addr))))) handle.old.host) }
    ensures pair { pair.new ≡ written ends_of (option_and_then (λ h. pair_connected h.sockets (socket_of id) (endpoint_of addr port) (is_routed h.interface (addr_of addr))) handle.old.host) pair.old }
    ensures same { handle.new.host ≡ handle.old.host }
    ensures counters { handle.new.counters ≡ handle.old.counters }
{
    shown(
        handle.ask(
            alloc,
            |host| Ok(host.would_connect(SocketId(id), endpoint_of(addr, port))),
        ),
        pair,
    )
}

/// `Host::would_open_by_way`. Answers 1, and `pair` is the pair that this frame would open then, the lesser end first; 0 where it would open none.
/// EBADF where the handle holds no host.
#[unsafe(no_mangle)]
pub extern "C" fn host_would_open(
    alloc: Global,
    handle: &mut Handle,
    frame: &[u8],
    pair: &mut [End; 2],
) -> i64
    ensures answer { result ≡ answered (of_host (λ h. Ok (whether (foreseen (with_way h frame.now) frame.now))) handle.old.host) }
    ensures pair { pair.new ≡ written ends_of (option_and_then (λ h. foreseen (with_way h frame.now) frame.now) handle.old.host) pair.old }
    ensures same { handle.new.host ≡ handle.old.host }
    ensures counters { handle.new.counters ≡ handle.old.counters }
{
    shown(
        handle.ask(alloc, |host| Ok(host.would_open_by_way(frame))),
        pair,
    )
}

/// `Host::sockname`. Answers 0, and `end` is the socket's own end then. EBADF, also where the handle holds no host; else as
/// `Host::sockname`.
#[unsafe(no_mangle)]
pub extern "C" fn host_sockname(alloc: Global, handle: &mut Handle, id: u64, end: &mut End) -> i64
    ensures answer { result ≡ answered (of_host (λ h. numbered (λ e. 0) (sockname_answer h.sockets (socket_of id))) handle.old.host) }
    ensures end { end.new ≡ written end_of (result_ok (of_host (λ h. sockname_answer h.sockets (socket_of id)) handle.old.host)) end.old }
    ensures same { handle.new.host ≡ handle.old.host }
    ensures counters { handle.new.counters ≡ handle.old.counters }
{
    shown_end(handle.ask(alloc, |host| host.sockname(SocketId(id))), end)
}

/// `Host::peername`. Answers 0, and `end` is the end of the connection's peer then. EBADF, also where the handle holds no host; else as
/// `Host::peername`.
#[unsafe(no_mangle)]
pub extern "C" fn host_peername(alloc: Global, handle: &mut Handle, id: u64, end: &mut End) -> i64
    ensures answer { result ≡ answered (of_host (λ h. numbered (λ e. 0) (peername_answer h.sockets (socket_of id))) handle.old.host) }
    ensures end { end.new ≡ written end_of (result_ok (of_host (λ h. peername_answer h.sockets (socket_of id)) handle.old.host)) end.old }
    ensures same { handle.new.host ≡ handle.old.host }
    ensures counters { handle.new.counters ≡ handle.old.counters }
{
    shown_end(handle.ask(alloc, |host| host.peername(SocketId(id))), end)
}

/// 0, and writes the end; or the number of the refusal.
fn shown_end(answer: Result<Endpoint, Refusal>, end: &mut End) -> i64
    ensures answer { result ≡ answered (numbered (λ e. 0) answer) }
    ensures end { end.new ≡ written end_of (result_ok answer) end.old }
{
    match answer {
        Ok(found) => {
            *end = end_of(found);
            0
        }
        Err(refusal) => refused(refusal),
    }
}

/// 1, and writes the pair; 0 where there is none; or the number of the refusal.
fn shown(found: Result<Option<Pair>, Refusal>, pair: &mut [End; 2]) -> i64
    ensures answer { result ≡ answered (numbered whether found) }
    ensures pair { pair.new ≡ written ends_of (option_and_then (λ pair. pair) (result_ok found)) pair.old }
{
    match found {
        Ok(Some(found)) => {
            *pair = ends_of(found);
            1
        }
        Ok(None) => 0,
        Err(refusal) => refused(refusal),
    }
}
