//! The handle: one pointer, to a host on the heap or to none.

ghost use Rattle.std.specs.Prelude.{◌≡◌, MatchOption, Option, None, Some, option_map};
ghost use Rattle.host.specs.HostView.{HostView};
ghost use Rattle.host.specs.Runs.{HasRunOnOctets};
ghost use Rattle.host_law.specs.History.{history};
ghost use Rattle.host_law.specs.HostLaw.{HostLaw};
ghost use Rattle.std.specs.Fn.{FnOnceReturnsAtMut};
ghost use Rattle.counters.specs.declared.counters.Counters.{Counters};
ghost use Rattle.hostc.specs.Calls.{Asks};
ghost use Rattle.hostc.specs.Held.{held};

use crate::counted::Counted;
use crate::parts::Parts;
use host::{Host, Refusal};
use host_law::laws::every_run_of_a_host;
use std::alloc::Global;
use std::marker::Model;
use std::mem::replace;
use std::ptr::null_mut;

/// A handle: `struct host`. It holds a host and its counters, or neither where its pointer is null.
#[repr(C)]
pub struct Handle {
    at: *mut u8,
    pub ghost host: { Option HostView },
    pub ghost counters: { Option Counters },
}

impl Model for Handle {
    ghost also_owns = { λ h. held h.at h.host h.counters };
}

impl Handle {
    /// A handle that holds no host.
    fn empty() -> Handle
        ensures { (result.host ≡ None) × (result.counters ≡ None) }
    {
        Handle { at: null_mut() }
    }

    /// A handle that holds the host of a box that was taken apart.
    fn of(parts: Parts<Counted, Global>) -> Handle
        ensures { (result.host ≡ Some parts.value.host) × (result.counters ≡ Some parts.value.counters) }
    {
        let Parts { ptr, alloc: _ } = parts;
        Handle { at: ptr as *mut u8 }
    }

    /// What it holds, as the parts of a box; None where that is no host.
    fn open(self, alloc: Global) -> Option<Parts<Counted, Global>>
        ensures { (option_map (λ p. p.value.host) result ≡ self.host) × (option_map (λ p. p.value.counters) result ≡ self.counters) }
    {
        let Handle { at } = self;
        if at.is_null() {
            None
        } else {
            Some(Parts {
                ptr: at as *mut Counted,
                alloc,
            })
        }
    }

    /// Takes the host out, with its counters; None where it holds none.
    pub(crate) fn take(&mut self, alloc: Global) -> Option<Box<Counted>>
        ensures held { option_map (λ b. b.value.host) result ≡ self.old.host }
        ensures counted { option_map (λ b. b.value.counters) result ≡ self.old.counters }
        ensures empty { self.new.host ≡ None }
        ensures uncounted { self.new.counters ≡ None }
    {
        let parts = replace(self, Handle::empty()).open(alloc)?;
        Some(parts.into_box())
    }

    /// What a call of the host that it holds answers. EBADF where it holds none. Nothing is counted.
    pub(crate) fn ask<A, F: FnOnce(&mut Host) -> Result<A, Refusal>>(
        &mut self,
        alloc: Global,
        call: F,
    ) -> Result<A, Refusal>
        requires { F.IsAlwaysCallable call }
        ensures asks { Asks (FnOnceReturnsAtMut F.FnOnce call) self.old.host result self.new.host }
        ensures counters { self.new.counters ≡ self.old.counters }
    {
        let Some(mut kept) = self.take(alloc) else {
            return Err(Refusal::EBADF);
        };
        let answer = call(&mut kept.host);
        self.put(kept);
        answer
    }

    /// The law of one host holds of the host that it holds (`docs/HOST_LAW.md`): a run led to that one, whose frames were of octets. It changes nothing.
    pub fn lawful(&mut self, alloc: Global)
        ensures law { MatchOption self.old.host (self.new.host ≡ None) (λ h. (self.new.host ≡ Some h) × (was : HasRunOnOctets h) × HostLaw was.run.config h (history was.run.runs)) }
        ensures counters { self.new.counters ≡ self.old.counters }
    {
        if let Some(kept) = self.take(alloc) {
            kept.host.sound();
            every_run_of_a_host();
            self.put(kept);
        }
    }

    /// Puts a host in, with its counters, where it holds none.
    pub(crate) fn put(&mut self, kept: Box<Counted>)
        requires { self.old.host ≡ None }
        ensures host { self.new.host ≡ Some kept.value.host }
        ensures counters { self.new.counters ≡ Some kept.value.counters }
    {
        let Handle { at: _ } = replace(self, Handle::of(Parts::of(kept)));
    }
}
