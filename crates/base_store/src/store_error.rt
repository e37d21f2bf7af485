//! Why a call of a store failed.

use disk_io::DiskError;
use std::alloc::{AllocError, AllocFailed};
use thiserror::Error;

/// Why a call of a store failed.
#[derive(Clone, Copy, Debug, PartialEq, Eq, Error)]
pub enum StoreError {
    /// A growth was refused.
    #[error("out of memory")]
    Memory,
    /// The device failed, and counts it.
    #[error("the device failed")]
    Device,
    /// A stored message differs from the filed one.
    #[error("a message is damaged")]
    Damaged,
    /// A text that four bytes do not count, or a file that eight bytes do not.
    #[error("too many bytes")]
    TooMany,
}

impl From<AllocError> for StoreError {
    ghost use Rattle.std.specs.Prelude.{◌≡◌};
    ghost use Rattle.base_store.specs.declared.store_error.StoreError.TheVariants as error;

    ghost from_gives = { λ _ e. e ≡ error.Memory };

    fn from(_refused: AllocError) -> StoreError {
        StoreError::Memory
    }
}

impl<T: Drop> From<AllocFailed<T>> for StoreError {
    ghost use Rattle.std.specs.Prelude.{◌≡◌};
    ghost use Rattle.base_store.specs.declared.store_error.StoreError.TheVariants as error;

    ghost from_gives = { λ _ e. e ≡ error.Memory };

    fn from(_refused: AllocFailed<T>) -> StoreError {
        StoreError::Memory
    }
}

impl From<DiskError> for StoreError {
    ghost use Rattle.std.specs.Prelude.{◌≡◌};
    ghost use Rattle.base_store.specs.Store.{store_cause};

    ghost from_gives = { λ cause e. e ≡ store_cause cause };

    fn from(cause: DiskError) -> StoreError {
        match cause {
            DiskError::Memory => StoreError::Memory,
            DiskError::Device => StoreError::Device,
        }
    }
}
