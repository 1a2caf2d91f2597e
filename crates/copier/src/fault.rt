//! Why a copy ends before its end.

use host::Refusal;
use thiserror::Error;

/// Why a copy ends before its end. What was written then begins what was read.
#[derive(Clone, Copy, Debug, PartialEq, Eq, Error)]
pub enum CopyFault {
    /// The source failed.
    #[error("K1 Read")]
    Read,
    /// The sink failed.
    #[error("K2 Write")]
    Write,
    /// The link failed.
    #[error("K3 Link")]
    Link,
    /// A host refused a call.
    #[error("K4 Host {0}")]
    Host(Refusal),
    /// Memory ran out.
    #[error("K5 NoMemory")]
    NoMemory,
    /// All turns were used up, or nothing moves any more and neither host waits for a moment.
    #[error("K6 Stalled")]
    Stalled,
}
