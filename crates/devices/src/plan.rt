//! Which call of a device in memory is to fail.

ghost use Rattle.std.specs.Prelude.{◌≡◌, ◌↔◌, IsTrue, None};
ghost use Rattle.devices.specs.Streams.{one_more};

/// Which call is to fail, and how many there were.
#[derive(Debug, Drop)]
pub(crate) struct Plan {
    fails_at: Option<u64>,
    calls: u64,
}

impl Plan {
    /// No call is to fail.
    pub(crate) fn none() -> Plan
        ensures { result ≡ record { fails_at = None; calls = 0 } }
    {
        Plan {
            fails_at: None,
            calls: 0,
        }
    }

    /// The call `n` is to fail, counted from 1.
    pub(crate) fn failing_at(n: u64) -> Plan
        ensures { result ≡ record { fails_at = Some n; calls = 0 } }
    {
        Plan {
            fails_at: Some(n),
            calls: 0,
        }
    }

    /// Counts one more call, and answers whether it is to fail.
    pub(crate) fn fails_next(&mut self) -> bool
        ensures kept { self.new.fails_at ≡ self.old.fails_at }
        ensures counted { self.new.calls ≡ one_more self.old.calls }
        ensures due { IsTrue result ↔ (self.old.fails_at ≡ Some self.new.calls) }
    {
        self.calls = self.calls.saturating_add(1);
        self.fails_at == Some(self.calls)
    }
}
