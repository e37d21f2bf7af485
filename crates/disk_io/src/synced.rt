//! Bytes that are written and then flushed.

ghost use Rattle.std.specs.Prelude.{◌≤◌, length, OnOk};
ghost use Rattle.disk_io.specs.{Disk.Honestly, Disk.bytes_in, Steps.IsWrittenAt, Steps.TornWrite, Steps.ChangesFile, Runs.OneStepOn, Runs.LeavesOnly, Runs.HasCause, Synced.IsOnDisk, Synced.KeepsOthers};

use crate::disk::Disk;
use crate::disk_error::DiskError;

/// Writes over old bytes, and past the end. At `Ok` it is on the disk.
pub fn write_synced<D: Disk>(
    disk: &mut D,
    path: &[u8],
    at: usize,
    bytes: &[u8],
) -> Result<(), DiskError>
    requires on_disk { Honestly (D.state disk.old) (IsOnDisk (D.state disk.old) path.now) }
    requires within { Honestly (D.state disk.old) (at ≤ length (bytes_in ((D.state disk.old).seen path.now))) }
    ensures written { OnOk result (IsWrittenAt (bytes_in ((D.state disk.old).seen path.now)) at bytes.now
        (bytes_in ((D.state disk.new).seen path.now))) }
    ensures durable { Honestly (D.state disk.new) (OnOk result (IsOnDisk (D.state disk.new) path.now)) }
    ensures others { KeepsOthers (D.state disk.old) (D.state disk.new) path.now }
    ensures any_moment { LeavesOnly (D.state disk.old) (D.state disk.new)
        (OneStepOn (ChangesFile (D.state disk.old) path.now (TornWrite at (length bytes.now))) (D.state disk.old)) }
    ensures cause { HasCause (D.failures disk.old) (D.failures disk.new) result }
{
    disk.write_at(path, at, bytes)?;
    disk.sync(path)
}
