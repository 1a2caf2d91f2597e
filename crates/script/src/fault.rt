//! Why octets are no script.

ghost use Rattle.std.specs.Prelude.{◌≡◌};
ghost use Rattle.script.specs.declared.fault.ScriptFault.TheVariants.{NoMemory};

use std::alloc::AllocError;
use thiserror::Error;

/// Why octets are not read as a script.
#[derive(Clone, Copy, Debug, PartialEq, Eq, Error)]
pub enum ScriptFault {
    /// The line with this number, counted from 1 over all lines, is the first that is bad.
    #[error("line {0}")]
    Line(usize),
    /// Memory ran out.
    #[error("out of memory")]
    NoMemory,
}

impl From<AllocError> for ScriptFault {
    ghost from_gives = { λ _ fault. fault ≡ NoMemory };

    fn from(_error: AllocError) -> ScriptFault {
        ScriptFault::NoMemory
    }
}
