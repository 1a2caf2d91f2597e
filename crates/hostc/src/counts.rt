//! What is counted of a host, as numbers.

ghost use Rattle.std.specs.Prelude.{◌≡◌};
ghost use Rattle.hostc.specs.Counters.{counter_numbers, counters_answer};
ghost use Rattle.hostc.specs.Info.{told_over};
ghost use Rattle.hostc.specs.Numbers.{answered};
ghost use Rattle.hostc.specs.Types.{written};

use crate::convert::{refused, told};
use crate::handle::Handle;
use crate::info::write_over;
use counters::Counters;
use host::Refusal;
use std::alloc::Global;

/// How many numbers tell what is counted of a host.
const COUNTS: usize = 23;

/// The counters of the host, as the numbers of `struct host_counters` behind its size, in their order. Answers 0, and the first of them stand at the
/// front of `numbers` then, as many as it has places; what is behind them stays. EBADF where the handle holds no host.
#[unsafe(no_mangle)]
pub extern "C" fn host_counters_into(alloc: Global, handle: &mut Handle, numbers: &mut [i64]) -> i64
    ensures answer { result ≡ answered (counters_answer handle.old.counters) }
    ensures numbers { numbers.new ≡ written (λ c. told_over numbers.old (counter_numbers c)) handle.old.counters numbers.old }
    ensures same { handle.new.host ≡ handle.old.host }
    ensures counters { handle.new.counters ≡ handle.old.counters }
{
    let Some(kept) = handle.take(alloc) else {
        return refused(Refusal::EBADF);
    };
    write_over(numbers, &counter_numbers(&kept.counters));
    handle.put(kept);
    0
}

/// The numbers, in the order of `struct host_counters`.
fn counter_numbers(counters: &Counters) -> [i64; COUNTS]
    ensures { result ≡ counter_numbers counters.now }
{
    let (drops, lacks, given_up) = (&counters.drops, &counters.lacks, &counters.given_up);
    [
        told(counters.frames_in),
        told(counters.octets_in),
        told(counters.frames_out),
        told(counters.octets_out),
        told(drops.short),
        told(drops.other_mac),
        told(drops.other_type),
        told(drops.ip_header),
        told(drops.ip_sum),
        told(drops.other_address),
        told(drops.upper_header),
        told(drops.upper_sum),
        told(drops.fragment),
        told(lacks.backlog),
        told(lacks.table),
        told(lacks.memory),
        told(lacks.replies),
        told(lacks.queue),
        told(lacks.reassembly),
        told(lacks.route),
        told(given_up.replies),
        told(given_up.resets),
        told(given_up.datagrams),
    ]
}
