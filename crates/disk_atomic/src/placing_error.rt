//! Why a packet did not get its name.

use disk_io::DiskError;
use std::alloc::AllocError;
use thiserror::Error;

/// Why files were not written.
#[derive(Clone, Copy, Debug, PartialEq, Eq, Error)]
pub enum PlacingError {
    /// A growth was refused.
    #[error("out of memory")]
    Memory,
    /// The device failed, and counts it.
    #[error("the device failed")]
    Device,
    /// Another file has the path of a packet.
    #[error("a path is taken")]
    Taken,
}

impl From<DiskError> for PlacingError {
    ghost use Rattle.std.specs.Prelude.{◌≡◌};
    ghost use Rattle.disk_atomic.specs.Publishing.{placing_cause};

    ghost from_gives = { λ cause e. e ≡ placing_cause cause };

    fn from(cause: DiskError) -> PlacingError {
        match cause {
            DiskError::Memory => PlacingError::Memory,
            DiskError::Device => PlacingError::Device,
        }
    }
}

impl From<AllocError> for PlacingError {
    ghost use Rattle.std.specs.Prelude.{◌≡◌};
    ghost use Rattle.disk_atomic.specs.declared.placing_error.PlacingError.TheVariants as error;

    ghost from_gives = { λ _ e. e ≡ error.Memory };

    fn from(_refused: AllocError) -> PlacingError {
        PlacingError::Memory
    }
}
