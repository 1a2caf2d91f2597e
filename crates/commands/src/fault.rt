//! Why a command on texts ends before its end.

ghost use Rattle.std.specs.Prelude.{◌≡◌};
ghost use Rattle.commands.specs.declared.fault.TextFault.TheVariants.{NoMemory};

use capture::{HeaderFault, RecordFault};
use decode::HexFault;
use script::ScriptFault;
use std::alloc::{AllocError, AllocFailed};
use thiserror::Error;

/// Why a script is not run, or not to its end, or a frame or a capture not read.
#[derive(Clone, Copy, Debug, PartialEq, Eq, Error)]
pub enum TextFault {
    /// The line with this number, counted from 1 over all lines, is the first that is bad.
    #[error("line {0}")]
    Line(usize),
    /// The script has more octets than one may have.
    #[error("too long")]
    TooLong,
    /// The text isn't pairs of hexadecimal digits and white space.
    #[error("not hex")]
    NotHex,
    /// The octets are no capture.
    #[error("{0}")]
    Header(HeaderFault),
    /// What stands behind the whole records of a capture is no record.
    #[error("{0}")]
    Record(RecordFault),
    /// The source failed.
    #[error("K1 Read")]
    Read,
    /// The sink failed.
    #[error("K2 Write")]
    Write,
    /// Memory ran out.
    #[error("out of memory")]
    NoMemory,
}

impl From<AllocError> for TextFault {
    ghost from_gives = { λ _ fault. fault ≡ NoMemory };

    fn from(_error: AllocError) -> TextFault {
        TextFault::NoMemory
    }
}

impl<T: Drop> From<AllocFailed<T>> for TextFault {
    ghost from_gives = { λ _ fault. fault ≡ NoMemory };

    fn from(_error: AllocFailed<T>) -> TextFault {
        TextFault::NoMemory
    }
}

impl From<ScriptFault> for TextFault {
    ghost use Rattle.commands.specs.Sim.{fault_by};

    ghost from_gives = { λ told fault. fault ≡ fault_by told };

    fn from(fault: ScriptFault) -> TextFault {
        match fault {
            ScriptFault::Line(number) => TextFault::Line(number),
            ScriptFault::NoMemory => TextFault::NoMemory,
        }
    }
}

impl From<HexFault> for TextFault {
    ghost use Rattle.commands.specs.Hex.{fault_by};

    ghost from_gives = { λ hex fault. fault ≡ fault_by hex };

    fn from(fault: HexFault) -> TextFault {
        match fault {
            HexFault::NotHex => TextFault::NotHex,
            HexFault::NoMemory => TextFault::NoMemory,
        }
    }
}

impl From<HeaderFault> for TextFault {
    ghost use Rattle.commands.specs.declared.fault.TextFault.TheVariants.{Header};

    ghost from_gives = { λ told fault. fault ≡ Header told };

    fn from(fault: HeaderFault) -> TextFault {
        TextFault::Header(fault)
    }
}

impl From<RecordFault> for TextFault {
    ghost use Rattle.commands.specs.declared.fault.TextFault.TheVariants.{Record};

    ghost from_gives = { λ told fault. fault ≡ Record told };

    fn from(fault: RecordFault) -> TextFault {
        TextFault::Record(fault)
    }
}
