//! The path at which the packets of a scan could not be put in place.

use crate::scanning::{Outbound, StationScan};
use cmd_packets::ScanFiles;
use cmd_status::{Fault, Status};
use cmd_words::Place;
use disk_atomic::PlacingError;
use disk_io::Sink;

/// Reports why the packets of a scan were not put in place, and the noted path.
pub fn report_unplaced<E: Sink>(
    scan: StationScan<'_>,
    files: &ScanFiles<'_, '_>,
    cause: PlacingError,
    errors: &mut E,
) -> Status {
    let met = match cause {
        PlacingError::Memory => return Fault::OutOfMemory.report(errors),
        PlacingError::Taken => files.taken_path(),
        PlacingError::Device => files.failed_path().or(files.taken_path()),
    };
    match &met {
        Some(met) => {
            let path = named(scan.at.place, scan.at.path, scan.to, met);
            Fault::CannotUse(path).report(errors)
        }
        None => Fault::CannotUse(scan.to.folder).report(errors),
    }
}

// The path at which a call failed, as the operator named it: the folder of packets, the base, or a packet.
fn named<'n>(place: Place<'n>, base: &str, to: Outbound<'n>, met: &'n str) -> &'n str {
    if met == to.slashed {
        return to.folder;
    }
    if is_of_base(base, met) {
        return place.base;
    }
    let Some((packet, _)) = met.rsplit_once(".~") else {
        return met;
    };
    if packet == base { place.base } else { packet }
}

// Whether it is the base, a file of a base folder, or the folder that contains the base.
fn is_of_base(base: &str, met: &str) -> bool {
    met == base
        || met == "."
        || (base.ends_with('/') && met.starts_with(base))
        || (met.ends_with('/') && base.starts_with(met))
}
