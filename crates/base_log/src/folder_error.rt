//! Why work on a base folder stopped.

use disk_io::DiskError;
use std::alloc::{AllocError, AllocFailed};
use thiserror::Error;

/// Why the files of a folder hold no base, or were not judged.
#[derive(Clone, Copy, Debug, PartialEq, Eq, Error)]
pub enum FolderError {
    /// A growth was refused.
    #[error("out of memory")]
    Memory,
    /// The device failed, and counts it.
    #[error("the device failed")]
    Device,
    /// There are messages or keys, and no byte of a log.
    #[error("no log")]
    Lost,
    /// The files hold no base, though there is a log.
    #[error("not the files of a base folder")]
    Corrupt,
}

impl From<DiskError> for FolderError {
    ghost use Rattle.std.specs.Prelude.{◌≡◌};
    ghost use Rattle.base_log.specs.Opening.{folder_cause};

    ghost from_gives = { λ cause e. e ≡ folder_cause cause };

    fn from(cause: DiskError) -> FolderError {
        match cause {
            DiskError::Memory => FolderError::Memory,
            DiskError::Device => FolderError::Device,
        }
    }
}

impl From<AllocError> for FolderError {
    ghost use Rattle.std.specs.Prelude.{◌≡◌};
    ghost use Rattle.base_log.specs.declared.folder_error.FolderError.TheVariants as cause;

    ghost from_gives = { λ _ e. e ≡ cause.Memory };

    fn from(_refused: AllocError) -> FolderError {
        FolderError::Memory
    }
}

impl<T: Drop> From<AllocFailed<T>> for FolderError {
    ghost use Rattle.std.specs.Prelude.{◌≡◌};
    ghost use Rattle.base_log.specs.declared.folder_error.FolderError.TheVariants as cause;

    ghost from_gives = { λ _ e. e ≡ cause.Memory };

    fn from(_refused: AllocFailed<T>) -> FolderError {
        FolderError::Memory
    }
}
