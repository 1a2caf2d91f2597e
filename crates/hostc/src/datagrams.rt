//! The calls of datagram sockets.

ghost use Rattle.std.specs.Prelude.{◌≡◌, length, option_map};
ghost use Rattle.std.specs.Result.{result_ok, result_err};
ghost use Rattle.interface.specs.Ways.{is_routed};
ghost use Rattle.sockets.specs.Datagrams.{sendto_answer, after_sendto, recvfrom_answer, recvfrom_front, after_recvfrom};
ghost use Rattle.hostc.specs.Calls.{of_host, left_in, after_call};
ghost use Rattle.hostc.specs.Numbers.{answered, numbered};
ghost use Rattle.hostc.specs.Types.{addr_of, endpoint_of, socket_of, end_of, written};

use crate::convert::{counted, end_of, endpoint_of, refused, told};
use crate::handle::Handle;
use crate::types::End;
use host::{Refusal, SocketId};
use std::alloc::Global;

/// `Host::sendto`, to an address and a port. Answers how many octets were taken: all. EBADF where the handle holds no host; else as
/// `Host::sendto`.
#[unsafe(no_mangle)]
pub extern "C" fn host_sendto(
    alloc: Global,
    handle: &mut Handle,
    id: u64,
    addr: u32,
    port: u16,
    octets: &[u8],
) -> i64
    ensures answer { result ≡ answered (of_host (λ h. sendto_answer h.sockets (socket_of id) (endpoint_of addr port) octets.now (is_routed h.interface (addr_of addr))) handle.old.host) }
    ensures after { handle.new.host ≡ option_map (λ h. after_call (result_err (sendto_answer h.sockets (socket_of id) (endpoint_of addr port) octets.now (is_routed h.interface (addr_of addr)))) h (after_sendto h.sockets (socket_of id) (endpoint_of addr port) octets.now (is_routed h.interface (addr_of addr)))) handle.old.host }
    ensures counters { handle.new.counters ≡ handle.old.counters }
{
    let peer = endpoint_of(addr, port);
    counted(handle.ask(alloc, |host| host.sendto(SocketId(id), peer, octets)))
}

/// `Host::recvfrom`. Answers how many octets were read, and `from` is where the datagram is from then. EBADF where the handle holds no
/// host; else as `Host::recvfrom`.
#[unsafe(no_mangle)]
pub extern "C" fn host_recvfrom(
    alloc: Global,
    handle: &mut Handle,
    id: u64,
    buffer: &mut [u8],
    from: &mut End,
) -> i64
    ensures answer { result ≡ answered (of_host (λ h. numbered (λ a. a.0) (recvfrom_answer h.sockets (socket_of id) (length buffer.old))) handle.old.host) }
    ensures octets { buffer.new ≡ left_in (λ h. recvfrom_front h.sockets (socket_of id) buffer.old) handle.old.host buffer.old }
    ensures from { from.new ≡ written (λ a. end_of a.1) (result_ok (of_host (λ h. recvfrom_answer h.sockets (socket_of id) (length buffer.old)) handle.old.host)) from.old }
    ensures after { handle.new.host ≡ option_map (λ h. after_call (result_err (recvfrom_answer h.sockets (socket_of id) (length buffer.old))) h (after_recvfrom h.sockets (socket_of id))) handle.old.host }
    ensures counters { handle.new.counters ≡ handle.old.counters }
{
    let Some(mut kept) = handle.take(alloc) else {
        return refused(Refusal::EBADF);
    };
    let answer = kept.host.recvfrom(SocketId(id), buffer);
    handle.put(kept);
    match answer {
        Ok((count, end)) => {
            *from = end_of(end);
            told(count as u64)
        }
        Err(refusal) => refused(refusal),
    }
}
