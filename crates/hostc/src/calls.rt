//! The calls of stream sockets.

ghost use Rattle.std.specs.Prelude.{◌≡◌, ◌==◌, not, length, option_map, Option, Result};
ghost use Rattle.std.specs.Result.{result_ok, result_err};
ghost use Rattle.interface.specs.Ways.{is_routed};
ghost use Rattle.sockets.specs.Calls.{bind_refusal, after_bind, listen_refusal, after_listen, accept_answer, after_accept, connect_refusal, after_connect, send_answer, after_send, recv_answer, recv_front, after_recv, shutdown_refusal, after_shutdown, nodelay_refusal, after_nodelay, keepalive_refusal, after_keepalive, close_refusal, after_close, after_abort};
ghost use Rattle.hostc.specs.Calls.{of_host, left_in, after_call, SocketCall};
ghost use Rattle.hostc.specs.Numbers.{answered, done, numbered, received_count, kind_of};
ghost use Rattle.hostc.specs.Types.{addr_of, endpoint_of, every_of, moment_of, socket_of, end_of, written};

use crate::convert::{counted, done, end_of, endpoint_of, kind_of, received, refused, told};
use crate::handle::Handle;
use crate::types::End;
use clock::Moment;
use host::{Refusal, SocketId};
use std::alloc::Global;
use tcp_segment::Seq;

/// Makes a socket, a stream socket where `kind` is 1 and a datagram socket where it is 2, and answers its id.
///
/// EBADF where the handle holds no host; EINVAL for another kind; else as `Host::socket`, once `Host::make_place` made a place for it.
#[unsafe(no_mangle)]
pub extern "C" fn host_socket(alloc: Global, handle: &mut Handle, kind: u32) -> i64
    ensures made { SocketCall (kind_of kind) handle.old.host result handle.new.host }
    ensures counters { handle.new.counters ≡ handle.old.counters }
{
    let answer = handle.ask(alloc, |host| match kind_of(kind) {
        Some(kind) => {
            host.make_place();
            host.socket(kind)
        }
        None => Err(Refusal::EINVAL),
    });
    match answer {
        Ok(id) => told(id.0),
        Err(refusal) => refused(refusal),
    }
}

/// `Host::bind`, to an address and a port. Answers 0. EBADF where the handle holds no host; else as `Host::bind`.
#[unsafe(no_mangle)]
pub extern "C" fn host_bind(
    alloc: Global,
    handle: &mut Handle,
    id: u64,
    addr: u32,
    port: u16,
) -> i64
    ensures answer { result ≡ answered (of_host (λ h. done (bind_refusal h.sockets (socket_of id) (endpoint_of addr port))) handle.old.host) }
    ensures after { handle.new.host ≡ option_map (λ h. after_call (bind_refusal h.sockets (socket_of id) (endpoint_of addr port)) h (after_bind h.sockets (socket_of id) (endpoint_of addr port))) handle.old.host }
    ensures counters { handle.new.counters ≡ handle.old.counters }
{
    let local = endpoint_of(addr, port);
    done(handle.ask(alloc, |host| host.bind(SocketId(id), local)))
}

/// `Host::listen`. Answers 0. EBADF where the handle holds no host; else as `Host::listen`.
#[unsafe(no_mangle)]
pub extern "C" fn host_listen(alloc: Global, handle: &mut Handle, id: u64, backlog: usize) -> i64
    ensures answer { result ≡ answered (of_host (λ h. done (listen_refusal h.sockets (socket_of id) backlog)) handle.old.host) }
    ensures after { handle.new.host ≡ option_map (λ h. after_call (listen_refusal h.sockets (socket_of id) backlog) h (after_listen h.sockets (socket_of id) backlog)) handle.old.host }
    ensures counters { handle.new.counters ≡ handle.old.counters }
{
    done(handle.ask(alloc, |host| host.listen(SocketId(id), backlog)))
}

/// `Host::accept`. Answers the id of the connection, and `peer` is its peer then. EBADF where the handle holds no host; else as
/// `Host::accept`.
#[unsafe(no_mangle)]
pub extern "C" fn host_accept(alloc: Global, handle: &mut Handle, id: u64, peer: &mut End) -> i64
    ensures answer { result ≡ answered (of_host (λ h. numbered (λ a. a.0.0) (accept_answer h.sockets (socket_of id))) handle.old.host) }
    ensures peer { peer.new ≡ written (λ a. end_of a.1) (result_ok (of_host (λ h. accept_answer h.sockets (socket_of id)) handle.old.host)) peer.old }
    ensures after { handle.new.host ≡ option_map (λ h. after_call (result_err (accept_answer h.sockets (socket_of id))) h (after_accept h.sockets (socket_of id))) handle.old.host }
    ensures counters { handle.new.counters ≡ handle.old.counters }
{
    match handle.ask(alloc, |host| host.accept(SocketId(id))) {
        Ok((id, end)) => {
            *peer = end_of(end);
            told(id.0)
        }
        Err(refusal) => refused(refusal),
    }
}

/// `Host::connect`, to an address and a port. Answers 0. EBADF where the handle holds no host; else as `Host::connect`.
#[unsafe(no_mangle)]
pub extern "C" fn host_connect(
    alloc: Global,
    handle: &mut Handle,
    now: u64,
    isn: u32,
    id: u64,
    addr: u32,
    port: u16,
) -> i64
    ensures answer { result ≡ answered (of_host (λ h. done (connect_refusal h.sockets (socket_of id) (endpoint_of addr port) (is_routed h.interface (addr_of addr)))) handle.old.host) }
    ensures after { handle.new.host ≡ option_map (λ h. after_call (connect_refusal h.sockets (socket_of id) (endpoint_of addr port) (is_routed h.interface (addr_of addr))) h (after_connect h.sockets (moment_of now) isn (socket_of id) (endpoint_of addr port) (is_routed h.interface (addr_of addr)))) handle.old.host }
    ensures counters { handle.new.counters ≡ handle.old.counters }
{
    let peer = endpoint_of(addr, port);
    done(handle.ask(alloc, |host| {
        host.connect(Moment(now), Seq(isn), SocketId(id), peer)
    }))
}

/// `Host::send`. Answers how many octets were taken. EBADF where the handle holds no host; else as `Host::send`.
#[unsafe(no_mangle)]
pub extern "C" fn host_send(alloc: Global, handle: &mut Handle, id: u64, octets: &[u8]) -> i64
    ensures answer { result ≡ answered (of_host (λ h. send_answer h.sockets (socket_of id) octets.now) handle.old.host) }
    ensures after { handle.new.host ≡ option_map (λ h. after_call (result_err (send_answer h.sockets (socket_of id) octets.now)) h (after_send h.sockets (socket_of id) octets.now)) handle.old.host }
    ensures counters { handle.new.counters ≡ handle.old.counters }
{
    counted(handle.ask(alloc, |host| host.send(SocketId(id), octets)))
}

/// `Host::recv`. Answers how many octets were read, and 0 at the end of the stream. EBADF where the handle holds no host; else as
/// `Host::recv`.
#[unsafe(no_mangle)]
pub extern "C" fn host_recv(alloc: Global, handle: &mut Handle, id: u64, buffer: &mut [u8]) -> i64
    ensures answer { result ≡ answered (of_host (λ h. numbered received_count (recv_answer h.sockets (socket_of id) (length buffer.old))) handle.old.host) }
    ensures octets { buffer.new ≡ left_in (λ h. recv_front h.sockets (socket_of id) buffer.old) handle.old.host buffer.old }
    ensures after { handle.new.host ≡ option_map (λ h. after_call (result_err (recv_answer h.sockets (socket_of id) (length buffer.old))) h (after_recv h.sockets (socket_of id) (length buffer.old))) handle.old.host }
    ensures counters { handle.new.counters ≡ handle.old.counters }
{
    let Some(mut kept) = handle.take(alloc) else {
        return refused(Refusal::EBADF);
    };
    let answer = kept.host.recv(SocketId(id), buffer);
    handle.put(kept);
    received(answer)
}

/// `Host::shutdown_write`. Answers 0. EBADF where the handle holds no host; else as `Host::shutdown_write`.
#[unsafe(no_mangle)]
pub extern "C" fn host_shutdown_write(alloc: Global, handle: &mut Handle, id: u64) -> i64
    ensures answer { result ≡ answered (of_host (λ h. done (shutdown_refusal h.sockets (socket_of id))) handle.old.host) }
    ensures after { handle.new.host ≡ option_map (λ h. after_call (shutdown_refusal h.sockets (socket_of id)) h (after_shutdown h.sockets (socket_of id))) handle.old.host }
    ensures counters { handle.new.counters ≡ handle.old.counters }
{
    done(handle.ask(alloc, |host| host.shutdown_write(SocketId(id))))
}

/// `Host::set_nodelay`: small segments don't wait where `on` is another number than 0. Answers 0. EBADF where the handle holds no host; else as
/// `Host::set_nodelay`.
#[unsafe(no_mangle)]
pub extern "C" fn host_set_nodelay(alloc: Global, handle: &mut Handle, id: u64, on: u32) -> i64
    ensures answer { result ≡ answered (of_host (λ h. done (nodelay_refusal h.sockets (socket_of id))) handle.old.host) }
    ensures after { handle.new.host ≡ option_map (λ h. after_call (nodelay_refusal h.sockets (socket_of id)) h (after_nodelay h.sockets (socket_of id) (not (on == 0)))) handle.old.host }
    ensures counters { handle.new.counters ≡ handle.old.counters }
{
    let is_on = on != 0;
    done(handle.ask(alloc, |host| host.set_nodelay(SocketId(id), is_on)))
}

/// `Host::set_keepalive`: a silent peer is asked after so many milliseconds each, and no more where that is 0. Answers 0. EBADF where the handle holds
/// no host; else as `Host::set_keepalive`.
#[unsafe(no_mangle)]
pub extern "C" fn host_set_keepalive(
    alloc: Global,
    handle: &mut Handle,
    id: u64,
    milliseconds: u64,
) -> i64
    ensures answer { result ≡ answered (of_host (λ h. done (keepalive_refusal h.sockets (socket_of id) (every_of milliseconds))) handle.old.host) }
    ensures after { handle.new.host ≡ option_map (λ h. after_call (keepalive_refusal h.sockets (socket_of id) (every_of milliseconds)) h (after_keepalive h.sockets (socket_of id) (every_of milliseconds))) handle.old.host }
    ensures counters { handle.new.counters ≡ handle.old.counters }
{
    let every = (milliseconds != 0).then_some(milliseconds);
    done(handle.ask(alloc, |host| host.set_keepalive(SocketId(id), every)))
}

/// `Host::close`. Answers 0. EBADF where the handle holds no host; else as `Host::close`.
#[unsafe(no_mangle)]
pub extern "C" fn host_close(alloc: Global, handle: &mut Handle, id: u64) -> i64
    ensures answer { result ≡ answered (of_host (λ h. done (close_refusal h.sockets (socket_of id))) handle.old.host) }
    ensures after { handle.new.host ≡ option_map (λ h. after_call (close_refusal h.sockets (socket_of id)) h (after_close h.sockets (socket_of id))) handle.old.host }
    ensures counters { handle.new.counters ≡ handle.old.counters }
{
    done(handle.ask(alloc, |host| host.close(SocketId(id))))
}

/// `Host::abort`. Answers 0. EBADF where the handle holds no host; else as `Host::abort`.
#[unsafe(no_mangle)]
pub extern "C" fn host_abort(alloc: Global, handle: &mut Handle, id: u64) -> i64
    ensures answer { result ≡ answered (of_host (λ h. done (close_refusal h.sockets (socket_of id))) handle.old.host) }
    ensures after { handle.new.host ≡ option_map (λ h. after_call (close_refusal h.sockets (socket_of id)) h (after_abort h.sockets (socket_of id))) handle.old.host }
    ensures counters { handle.new.counters ≡ handle.old.counters }
{
    done(handle.ask(alloc, |host| host.abort(SocketId(id))))
}
