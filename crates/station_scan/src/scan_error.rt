//! Why a scan failed.
use crate::publish_error::PublishError;
use cmd_store::CommandError;
use disk_atomic::PlacingError;
use disk_io::DiskError;
use std::alloc::AllocError;

/// Why a scan failed.
#[derive(Debug, Drop)]
pub enum ScanError<'a> {
    /// The command's fault, or why the base was not opened or not committed.
    Command(CommandError<'a>),
    /// Packets of earlier scans were not named or removed, or new packets were not written.
    Placing(PlacingError),
    /// The packets were not written, and some staging files may be left.
    Staying(DiskError),
    /// More messages were scanned than the number in a packet's name can count.
    TooFar,
}

impl<'a> From<PublishError> for ScanError<'a> {
    ghost use Rattle.std.specs.Prelude.{◌≡◌};
    ghost use Rattle.station_scan.specs.Stops.{stop_of};

    ghost from_gives = { λ why e. e ≡ stop_of why };

    fn from(why: PublishError) -> ScanError<'a> {
        match why {
            PublishError::Packets(cause) => ScanError::Placing(cause),
            PublishError::Staging(cause) => ScanError::Staying(cause),
            PublishError::Reading(cause) => ScanError::Command(CommandError::Store(cause)),
            PublishError::Base(cause) => ScanError::Command(CommandError::Store(cause)),
        }
    }
}

impl<'a> From<PlacingError> for ScanError<'a> {
    ghost use Rattle.std.specs.Prelude.{◌≡◌};
    ghost use Rattle.station_scan.specs.declared.scan_error.ScanError.TheVariants.{Placing};

    ghost from_gives = { λ cause e. e ≡ Placing cause };

    fn from(cause: PlacingError) -> ScanError<'a> {
        ScanError::Placing(cause)
    }
}

impl<'a> From<AllocError> for ScanError<'a> {
    ghost use Rattle.std.specs.Prelude.{◌≡◌};
    ghost use Rattle.station_scan.specs.declared.scan_error.ScanError.TheVariants.{Placing};
    ghost use Rattle.disk_atomic.specs.declared.placing_error.PlacingError.TheVariants.{Memory};

    ghost from_gives = { λ _ e. e ≡ Placing Memory };

    fn from(_refused: AllocError) -> ScanError<'a> {
        ScanError::Placing(PlacingError::Memory)
    }
}
