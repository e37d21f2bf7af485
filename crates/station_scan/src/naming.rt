//! Packets in staging files get their paths, for good.
ghost use Rattle.std.specs.Prelude.{◌≡◌, true, false, All, IfOk};
ghost use Rattle.disk_io.specs.{Disk.Honestly, Runs.HasCause, Runs.LeavesOnly, Runs.OneStepOn};
ghost use Rattle.disk_atomic.specs.{Changes.ChangesOnly, Naming.HasItsPath, Naming.NamesEach, Outgoing.{ArePlaced, IsFree, IsOfOne, IsStaged, staged_in}};
ghost use Rattle.station_scan.specs.Publishing.{IsStagingOnDisk};

use disk_atomic::{Outgoing, name_packets};
use disk_io::{Disk, DiskError, sync_parent_folder};
use std::alloc::Global;

/// Gives each packet its path, and returns whether all have theirs. Then no crash brings back a staging file.
pub(crate) fn name_settled<D: Disk>(
    alloc: Global,
    disk: &mut D,
    outbound: &[u8],
    packets: &[Outgoing<'_>],
) -> Result<bool, DiskError>
    requires placed { ArePlaced outbound.now packets.now }
    requires staged { All (IsStaged (staged_in (D.state disk.old).seen) (D.state disk.old)) packets.now }
    ensures named { Honestly (D.state disk.new) (IfOk result (λ all. all ≡ true → All (HasItsPath (staged_in (D.state disk.old).seen) (D.state disk.new)) packets.now)) }
    ensures settled { Honestly (D.state disk.new) (IfOk result (λ all. all ≡ true → All (IsStagingOnDisk (D.state disk.new)) packets.now)) }
    ensures taken { Honestly (D.state disk.new) (IfOk result (λ all. all ≡ false → All (IsFree (D.state disk.old)) packets.now → ⊥)) }
    ensures any_moment { Honestly (D.state disk.new) (LeavesOnly (D.state disk.old) (D.state disk.new) (OneStepOn (NamesEach (staged_in (D.state disk.old).seen) packets.now) (D.state disk.old))) }
    ensures changes { ChangesOnly (IsOfOne packets.now) (D.state disk.old) (D.state disk.new) }
    ensures cause { HasCause (D.failures disk.old) (D.failures disk.new) result }
{
    let all = name_packets(alloc, disk, outbound, packets)?;
    // The staging paths are gone for good.
    sync_parent_folder(disk, outbound)?;
    Ok(all)
}
