//! Why there is no pool.

use thiserror::Error;

/// Why there is no pool.
#[derive(Clone, Copy, PartialEq, Eq, Debug, Error)]
pub enum PoolFault {
    /// There is no memory for it.
    #[error("E16 ENOMEM")]
    ENOMEM,
}
