//! The link's side of a host: time, frames that come in, and frames that go out.

ghost use Rattle.std.specs.Prelude.{◌≡◌, Ok, option_map, option_and_then};
ghost use Rattle.host.specs.Emission.{emission_len, emission_front, after_emission};
ghost use Rattle.host.specs.Ticks.{after_tick, least_deadline};
ghost use Rattle.hostc.specs.Calls.{of_host, left_in, Delivery};
ghost use Rattle.hostc.specs.Counters.{CountsFrame, counters_after_emission, counters_after_tick};
ghost use Rattle.hostc.specs.Numbers.{answered, whether, length_or_none};
ghost use Rattle.hostc.specs.Types.{moment_of, written};

use crate::convert::{refused, taken, told};
use crate::handle::Handle;
use clock::Moment;
use ether::FRAME_MAX;
use host::Refusal;
use std::alloc::Global;
use tcp_segment::Seq;

/// What `host_deliver` answers where the handle holds no host: the number of no cause.
pub const NO_HOST: i64 = -11;

/// `Host::tick`, counted. Does nothing where the handle holds no host.
#[unsafe(no_mangle)]
pub extern "C" fn host_tick(alloc: Global, handle: &mut Handle, now: u64)
    ensures after { handle.new.host ≡ option_map (λ h. after_tick h (moment_of now)) handle.old.host }
    ensures counters { handle.new.counters ≡ counters_after_tick handle.old.host (moment_of now) handle.old.counters }
{
    let Some(mut kept) = handle.take(alloc) else {
        return;
    };
    kept.tick(Moment(now));
    handle.put(kept);
}

/// `Host::next_deadline`. Answers 1, and `moment` is that moment then; 0 where there is none. EBADF where the handle holds no host.
#[unsafe(no_mangle)]
pub extern "C" fn host_next_deadline(alloc: Global, handle: &mut Handle, moment: &mut u64) -> i64
    ensures answer { result ≡ answered (of_host (λ h. Ok (whether (least_deadline h))) handle.old.host) }
    ensures moment { moment.new ≡ written (λ deadline. deadline.0) (option_and_then least_deadline handle.old.host) moment.old }
    ensures same { handle.new.host ≡ handle.old.host }
    ensures counters { handle.new.counters ≡ handle.old.counters }
{
    match handle.ask(alloc, |host| Ok(host.next_deadline())) {
        Ok(Some(deadline)) => {
            *moment = deadline.0;
            1
        }
        Ok(None) => 0,
        Err(refusal) => refused(refusal),
    }
}

/// `Host::deliver_by_way`, counted. Answers 0 where the frame was taken, and else the number of the cause to drop it, negative: Short is -1, OtherMac -2,
/// OtherType -3, IpHeader -4, IpSum -5, OtherAddress -6, UpperHeader -7, UpperSum -8, NoRoom -9, Fragment -10. Answers -11 where the
/// handle holds no host.
#[unsafe(no_mangle)]
pub extern "C" fn host_deliver(
    alloc: Global,
    handle: &mut Handle,
    now: u64,
    isn: u32,
    frame: &[u8],
) -> i64
    ensures delivered { Delivery handle.old.host (moment_of now) isn frame.now result handle.new.host }
    ensures counters { CountsFrame handle.old.host frame.now result handle.old.counters handle.new.counters }
{
    let Some(mut kept) = handle.take(alloc) else {
        return NO_HOST;
    };
    let verdict = kept.deliver(Moment(now), Seq(isn), frame);
    handle.put(kept);
    taken(verdict)
}

/// `Host::next_frame`, counted. Answers the length of the frame, 60 to 1,514 octets, which stands at the front of `out` then; 0 where none can go
/// out now. EBADF where the handle holds no host.
#[unsafe(no_mangle)]
pub extern "C" fn host_next_frame(
    alloc: Global,
    handle: &mut Handle,
    now: u64,
    out: &mut [u8; FRAME_MAX],
) -> i64
    ensures answer { result ≡ answered (of_host (λ h. Ok (length_or_none (emission_len h (moment_of now)))) handle.old.host) }
    ensures frame { out.new ≡ left_in (λ h. emission_front h (moment_of now) out.old) handle.old.host out.old }
    ensures after { handle.new.host ≡ option_map (λ h. after_emission h (moment_of now)) handle.old.host }
    ensures counters { handle.new.counters ≡ counters_after_emission handle.old.host (moment_of now) handle.old.counters }
{
    let Some(mut kept) = handle.take(alloc) else {
        return refused(Refusal::EBADF);
    };
    let answer = kept.next_frame(Moment(now), out);
    handle.put(kept);
    match answer {
        Some(len) => told(len as u64),
        None => 0,
    }
}
