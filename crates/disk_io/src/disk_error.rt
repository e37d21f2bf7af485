//! Why a call of a disk failed.

use std::alloc::{AllocError, AllocFailed};
use thiserror::Error;

/// Why a call of a disk failed.
#[derive(Clone, Copy, Debug, PartialEq, Eq, Error)]
pub enum DiskError {
    /// A growth was refused.
    #[error("out of memory")]
    Memory,
    /// The device failed, and counts it.
    #[error("the device failed")]
    Device,
}

impl From<AllocError> for DiskError {
    ghost use Rattle.std.specs.Prelude.{◌≡◌};
    ghost use Rattle.disk_io.specs.declared.disk_error.DiskError.TheVariants as cause;

    ghost from_gives = { λ _ e. e ≡ cause.Memory };

    fn from(_refused: AllocError) -> DiskError {
        DiskError::Memory
    }
}

impl<T: Drop> From<AllocFailed<T>> for DiskError {
    ghost use Rattle.std.specs.Prelude.{◌≡◌};
    ghost use Rattle.disk_io.specs.declared.disk_error.DiskError.TheVariants as cause;

    ghost from_gives = { λ _ e. e ≡ cause.Memory };

    fn from(_refused: AllocFailed<T>) -> DiskError {
        DiskError::Memory
    }
}
