//! Why packets and a base were not written.
use base_store::StoreError;
use disk_atomic::PlacingError;
use disk_io::DiskError;
use std::alloc::AllocError;
use thiserror::Error;

/// Why packets and a base were not written.
#[derive(Clone, Copy, Debug, PartialEq, Eq, Error)]
pub enum PublishError {
    /// A packet was not written, and no staging file is left; or a packet did not get its path after the base was
    /// committed.
    #[error("{0}")]
    Packets(PlacingError),
    /// A message of the base could not be read, and no staging file is left.
    #[error("{0}")]
    Reading(StoreError),
    /// A packet was not written, and some staging files may be left.
    #[error("{0}")]
    Staging(DiskError),
    /// The base was not committed.
    #[error("{0}")]
    Base(StoreError),
}

impl From<StoreError> for PublishError {
    ghost use Rattle.std.specs.Prelude.{◌≡◌};
    ghost use Rattle.station_scan.specs.declared.publish_error.PublishError.TheVariants.{Base};

    ghost from_gives = { λ cause e. e ≡ Base cause };

    fn from(cause: StoreError) -> PublishError {
        PublishError::Base(cause)
    }
}

impl From<AllocError> for PublishError {
    ghost use Rattle.std.specs.Prelude.{◌≡◌};
    ghost use Rattle.station_scan.specs.declared.publish_error.PublishError.TheVariants.{Packets};
    ghost use Rattle.disk_atomic.specs.declared.placing_error.PlacingError.TheVariants.{Memory};

    ghost from_gives = { λ _ e. e ≡ Packets Memory };

    fn from(_refused: AllocError) -> PublishError {
        PublishError::Packets(PlacingError::Memory)
    }
}
