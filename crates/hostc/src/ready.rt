//! What sockets are ready for, and the socket that a frame is for. Nothing changes.

ghost use Rattle.std.specs.Prelude.{◌≡◌, ◌≤◌, ◌<◌, Ok, option_and_then, option_map};
ghost use Rattle.sockets.specs.Ready.{next_ready, readiness, recv_len, send_room};
ghost use Rattle.host.specs.Concerned.{concerned};
ghost use Rattle.hostc.specs.Calls.{of_host};
ghost use Rattle.hostc.specs.Numbers.{answered, numbered};
ghost use Rattle.hostc.specs.Ready.{bit, bits_of, has_bit, id_or_none, mask_of};
ghost use Rattle.hostc.specs.Types.{socket_of, written};

use crate::convert::{counted, refused, told};
use crate::handle::Handle;
use host::{Ready, SocketId};
use std::alloc::Global;

/// `Host::ready`, as a number: the sum of 1 where it would accept, 2 where it would read, 4 where it would write, 8 where the stream has ended, 16
/// where it failed, and 32 while it opens. EBADF, also where the handle holds no host.
#[unsafe(no_mangle)]
pub extern "C" fn host_ready(alloc: Global, handle: &mut Handle, id: u64) -> i64
    ensures answer { result ≡ answered (of_host (λ h. numbered bits_of (readiness h.sockets (socket_of id))) handle.old.host) }
    ensures same { handle.new.host ≡ handle.old.host }
    ensures counters { handle.new.counters ≡ handle.old.counters }
{
    match handle.ask(alloc, |host| host.ready(SocketId(id))) {
        Ok(ready) => told(u64::from(bits_of(ready))),
        Err(refusal) => refused(refusal),
    }
}

/// `Host::next_ready`, of the bits of `mask`. Answers the id, and `bits` is all that holds of the socket then; 0 where there is none. EBADF
/// where the handle holds no host.
#[unsafe(no_mangle)]
pub extern "C" fn host_next_ready(
    alloc: Global,
    handle: &mut Handle,
    after: u64,
    mask: u32,
    bits: &mut u32,
) -> i64
    ensures answer { result ≡ answered (of_host (λ h. Ok (id_or_none (option_map (λ found. found.0) (next_ready h.sockets (socket_of after) (mask_of mask))))) handle.old.host) }
    ensures bits { bits.new ≡ written (λ found. bits_of found.1) (option_and_then (λ h. next_ready h.sockets (socket_of after) (mask_of mask)) handle.old.host) bits.old }
    ensures same { handle.new.host ≡ handle.old.host }
    ensures counters { handle.new.counters ≡ handle.old.counters }
{
    match handle.ask(
        alloc,
        |host| Ok(host.next_ready(SocketId(after), mask_of(mask))),
    ) {
        Ok(Some((id, ready))) => {
            *bits = bits_of(ready);
            told(id.0)
        }
        Ok(None) => 0,
        Err(refusal) => refused(refusal),
    }
}

/// `Host::recv_len`. Answers how many octets. EBADF where the handle holds no host; else as `Host::recv_len`.
#[unsafe(no_mangle)]
pub extern "C" fn host_recv_len(alloc: Global, handle: &mut Handle, id: u64) -> i64
    ensures answer { result ≡ answered (of_host (λ h. recv_len h.sockets (socket_of id)) handle.old.host) }
    ensures same { handle.new.host ≡ handle.old.host }
    ensures counters { handle.new.counters ≡ handle.old.counters }
{
    counted(handle.ask(alloc, |host| host.recv_len(SocketId(id))))
}

/// `Host::send_room`. Answers how many octets. EBADF where the handle holds no host; else as `Host::send_room`.
#[unsafe(no_mangle)]
pub extern "C" fn host_send_room(alloc: Global, handle: &mut Handle, id: u64) -> i64
    ensures answer { result ≡ answered (of_host (λ h. send_room h.sockets (socket_of id)) handle.old.host) }
    ensures same { handle.new.host ≡ handle.old.host }
    ensures counters { handle.new.counters ≡ handle.old.counters }
{
    counted(handle.ask(alloc, |host| host.send_room(SocketId(id))))
}

/// `Host::concerns`. Answers the id of the socket that the frame is for; 0 where it is for none. EBADF where the handle holds no host.
#[unsafe(no_mangle)]
pub extern "C" fn host_concerns(alloc: Global, handle: &mut Handle, frame: &[u8]) -> i64
    ensures answer { result ≡ answered (of_host (λ h. Ok (id_or_none (concerned h frame.now))) handle.old.host) }
    ensures same { handle.new.host ≡ handle.old.host }
    ensures counters { handle.new.counters ≡ handle.old.counters }
{
    match handle.ask(alloc, |host| Ok(host.concerns(frame))) {
        Ok(Some(id)) => told(id.0),
        Ok(None) => 0,
        Err(refusal) => refused(refusal),
    }
}

/// A bit that is set, or isn't.
fn bit(holds: bool, number: u32) -> u32
    ensures value { result ≡ bit holds number }
    ensures most { result ≤ number }
{
    if holds { number } else { 0 }
}

/// What holds, as a number.
fn bits_of(ready: Ready) -> u32
    ensures { result ≡ bits_of ready }
{
    bit(ready.accept, 1)
        + bit(ready.read, 2)
        + bit(ready.write, 4)
        + bit(ready.ended, 8)
        + bit(ready.failed, 16)
        + bit(ready.opening, 32)
}

/// Whether a number has a bit set.
fn has_bit(bits: u32, number: u32) -> bool
    requires { 0 < number }
    ensures { result ≡ has_bit bits number }
{
    bits / number % 2 == 1
}

/// What a number asks for.
fn mask_of(bits: u32) -> Ready
    ensures { result ≡ mask_of bits }
{
    Ready {
        accept: has_bit(bits, 1),
        read: has_bit(bits, 2),
        write: has_bit(bits, 4),
        ended: has_bit(bits, 8),
        failed: has_bit(bits, 16),
        opening: has_bit(bits, 32),
    }
}
