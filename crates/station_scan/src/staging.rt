//! The staging files of packets at their end, before a commit.
ghost use Rattle.std.specs.Prelude.{◌≡◌, ◌≢◌, ℕ, List, true, false, All, IfOk, None, OnOk};
ghost use Rattle.disk_io.specs.{Disk.{Honestly, IsIn}, Runs.HasCause};
ghost use Rattle.disk_atomic.specs.{Changes.ChangesOnly, Outgoing.{ArePlaced, IsAtStaging, IsStaged, staged_in}};
ghost use Rattle.station_scan.specs.Publishing.{AreOpen, AreStaged, IsTrial, IsTriedWith, IsWritten};

use disk_atomic::{Outgoing, sync_packets, try_link};
use disk_io::{Disk, DiskError, sync_parent_folder};

// Gives the first of the packets, which are in staging files, the tried path, and removes that path again. Then the
// folder is synced.
fn try_first<D: Disk>(
    disk: &mut D,
    outbound: &[u8],
    trial: &[u8],
    packets: &[Outgoing<'_>],
) -> Result<bool, DiskError>
    requires placed { ArePlaced outbound.now packets.now }
    requires trial { IsTrial outbound.now packets.now trial.now × (D.state disk.old).is_named trial.now }
    requires staged { All (IsStaged (staged_in (D.state disk.old).seen) (D.state disk.old)) packets.now }
    ensures tried { IfOk result (λ tried. tried ≡ true → IsTriedWith D.state packets.now trial.now (D.state disk.old)) }
    ensures taken { Honestly (D.state disk.new) (IfOk result (λ tried. tried ≡ false → ⊥)) }
    ensures gone { IfOk result (λ tried. tried ≡ true → (m : List ℕ) → IsIn outbound.now m → m ≢ trial.now → (D.state disk.new).seen m ≡ None → (D.state disk.new).is_flushed m) }
    ensures staged { All (IsStaged (staged_in (D.state disk.old).seen) (D.state disk.new)) packets.now }
    ensures changes { ChangesOnly (IsAtStaging packets.now trial.now) (D.state disk.old) (D.state disk.new) }
    ensures cause { HasCause (D.failures disk.old) (D.failures disk.new) result }
{
    if packets.is_empty() {
        sync_parent_folder(disk, outbound)?;
        return Ok(true);
    }
    let first = &packets[0];
    try_link(disk, outbound, first.staging, trial)
}

/// Syncs the staging files, which have all their bytes, and tries whether files of the folder can get a second path.
pub(crate) fn end_staging<D: Disk>(
    disk: &mut D,
    outbound: &[u8],
    trial: &[u8],
    packets: &[Outgoing<'_>],
) -> Result<bool, DiskError>
    requires placed { ArePlaced outbound.now packets.now }
    requires trial { IsTrial outbound.now packets.now trial.now }
    requires opened { AreOpen outbound.now packets.now (D.state disk.old) }
    ensures staged { IfOk result (λ tried. tried ≡ true → AreStaged packets.now (D.state disk.new)) }
    ensures same { OnOk result (All (IsWritten (staged_in (D.state disk.old).seen) (D.state disk.new).seen) packets.now) }
    ensures tried { IfOk result (λ tried. tried ≡ true → IsTriedWith D.state packets.now trial.now (D.state disk.old)) }
    ensures taken { Honestly (D.state disk.new) (IfOk result (λ tried. tried ≡ false → ⊥)) }
    ensures changes { ChangesOnly (IsAtStaging packets.now trial.now) (D.state disk.old) (D.state disk.new) }
    ensures cause { HasCause (D.failures disk.old) (D.failures disk.new) result }
{
    sync_packets(disk, packets)?;
    try_first(disk, outbound, trial, packets)
}
