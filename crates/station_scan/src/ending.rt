//! Packets in staging files come to their end, before a commit.
ghost use Rattle.std.specs.Prelude.{◌≡◌, true, false, All, IfErr, IfOk, OnOk};
ghost use Rattle.{disk_io.specs.{Disk.Honestly, Runs.HasCause}, disk_atomic.specs.Changes.ChangesOnly};
ghost use Rattle.{disk_atomic.specs.Outgoing.IsAtStaging, station_scan.specs.Publishing.{AreStaged, HasStageCause, IsTriedWith, IsWritten, NoneStays, ended_in}};
ghost use Rattle.station_scan.specs.Writing.{CanEnd};

use crate::pieces::Ends;
use crate::publish_error::PublishError;
use crate::staging::end_staging;
use crate::writing::{Batch, append_open};
use disk_atomic::{PlacingError, drop_staging};
use disk_io::{Disk, DiskError};
use std::alloc::Global;

// Writes the ends of the packets, syncs them, and tries whether files there can get a second path.
fn end_packets<D: Disk>(alloc: Global, disk: &mut D, batch: Batch<'_>) -> Result<bool, DiskError>
    requires { CanEnd batch (D.state disk.old) }
    ensures staged { IfOk result (λ free. free ≡ true → AreStaged batch.entry.packets.now (D.state disk.new)) }
    ensures ended { Honestly (D.state disk.new) (OnOk result (All (IsWritten (ended_in (D.state disk.old).seen) (D.state disk.new).seen) batch.entry.packets.now)) }
    ensures tried { IfOk result (λ free. free ≡ true → IsTriedWith D.state batch.entry.packets.now batch.entry.trial.now (D.state disk.old)) }
    ensures taken { Honestly (D.state disk.new) (IfOk result (λ free. free ≡ false → ⊥)) }
    ensures changes { ChangesOnly (IsAtStaging batch.entry.packets.now batch.entry.trial.now) (D.state disk.old) (D.state disk.new) }
    ensures cause { HasCause (D.failures disk.old) (D.failures disk.new) result }
{
    append_open(alloc, disk, batch, &Ends {})?;
    end_staging(disk, batch.outbound, batch.trial, batch.packets)
}

/// Writes the ends of the packets, syncs them, and tries whether files there can get a second path. If this fails, the
/// staging files are removed.
pub(crate) fn stage_packets<D: Disk>(
    alloc: Global,
    disk: &mut D,
    batch: Batch<'_>,
) -> Result<bool, PublishError>
    requires { CanEnd batch (D.state disk.old) }
    ensures staged { IfOk result (λ free. free ≡ true → AreStaged batch.entry.packets.now (D.state disk.new)) }
    ensures ended { Honestly (D.state disk.new) (OnOk result (All (IsWritten (ended_in (D.state disk.old).seen) (D.state disk.new).seen) batch.entry.packets.now)) }
    ensures tried { IfOk result (λ free. free ≡ true → IsTriedWith D.state batch.entry.packets.now batch.entry.trial.now (D.state disk.old)) }
    ensures taken { Honestly (D.state disk.new) (IfOk result (λ free. free ≡ false → ⊥)) }
    ensures gone { Honestly (D.state disk.new) (IfErr result (NoneStays batch.entry.packets.now batch.entry.trial.now (D.state disk.new))) }
    ensures changes { ChangesOnly (IsAtStaging batch.entry.packets.now batch.entry.trial.now) (D.state disk.old) (D.state disk.new) }
    ensures cause { HasStageCause (D.failures disk.old) (D.failures disk.new) result }
{
    match end_packets(alloc, disk, batch) {
        Ok(free) => Ok(free),
        Err(cause) => match drop_staging(disk, batch.outbound, batch.trial, batch.packets) {
            Ok(()) => Err(PublishError::Packets(PlacingError::from(cause))),
            Err(left) => Err(PublishError::Staging(left)),
        },
    }
}
