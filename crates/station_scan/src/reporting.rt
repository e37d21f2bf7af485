//! The lines of a scan that stops before its packets are made.
ghost use Rattle.std.specs.Prelude.{◌≡◌, true};
ghost use Rattle.{cmd_status.specs.Devices.output_of, model_steps.specs.Stamps.is_stamp};
ghost use Rattle.station_scan.specs.Moved.{HasReported, left_cause, left_reported, reported_as};

use crate::pieces::ScanSource;
use crate::reported::ReportedStore;
use crate::scan_error::ScanError;
use base_store::{Store, StoreError};
use cmd_status::MessageProgress;
use cmd_store::{CommandError, print_counted};
use disk_atomic::PlacingError;
use disk_io::{DiskError, Sink};
use echo_steps::count_packets;
use std::alloc::Global;

/// Counts the packets of the messages, and prints their lines.
pub(crate) fn report<'a, S: Store, T: MessageProgress, W: Sink>(
    alloc: Global,
    source: ScanSource<'_>,
    store: &mut ReportedStore<'_, S, T>,
    out: &mut W,
) -> Result<(), CommandError<'a>>
    requires ready { (S.state store.old.store).is_ready }
    requires stamp { is_stamp source.stamp ≡ true }
    ensures { HasReported S.state source.entry (S.state store.old.store) (S.state store.new.store) (S.failures store.old.store) (S.failures store.new.store)
        (output_of W.contents W.failures W.holds out.old) (output_of W.contents W.failures W.holds out.new) result }
{
    let packets = count_packets(alloc, source.links, store, source.from)?;
    print_counted(alloc, &packets, out)
}

/// Why the scan stopped, once that was reported or could not be.
pub(crate) fn reported_as<'a>(
    why: ScanError<'a>,
    reported: Result<(), CommandError<'a>>,
) -> Result<(), ScanError<'a>>
    ensures { result ≡ reported_as why.entry reported.entry }
{
    match reported {
        Ok(()) => Err(why),
        Err(stop) => Err(ScanError::Command(stop)),
    }
}

// Why leftover packets may have staging files still.
fn left_cause(cause: PlacingError, stop: CommandError<'_>) -> DiskError
    ensures { result ≡ left_cause cause stop.entry }
{
    match cause {
        PlacingError::Device => DiskError::Device,
        PlacingError::Memory => DiskError::Memory,
        PlacingError::Taken => match stop {
            CommandError::Store(StoreError::Device) => DiskError::Device,
            CommandError::Store(_) => DiskError::Memory,
            CommandError::Met(_) => DiskError::Memory,
        },
    }
}

/// The same where leftover packets were not finished.
pub(crate) fn left_reported<'a>(
    cause: PlacingError,
    reported: Result<(), CommandError<'a>>,
) -> Result<(), ScanError<'a>>
    ensures { result ≡ left_reported cause reported.entry }
{
    match reported {
        Ok(()) => Err(ScanError::Placing(cause)),
        Err(stop) => Err(ScanError::Staying(left_cause(cause, stop))),
    }
}
