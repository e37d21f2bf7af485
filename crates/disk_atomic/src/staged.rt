//! The staging files of a scan, made.

ghost use Rattle.std.specs.Prelude.{◌≡◌, ℕ, List, true, false, All, AllPairs, IfOk, OnOk};
ghost use Rattle.disk_io.specs.{Disk.Honestly, Disk.IsIn, Runs.ChangesNothing, Runs.HasCause};
ghost use Rattle.disk_atomic.specs.{Outgoing.{AreApart, ArePlaced, IsStagingOne, IsFree, IsMade, IsStagingNamed}, Changes.ChangesOnly};

use crate::outgoing::Outgoing;
use disk_io::{Disk, DiskError, sync_parent_folder};

fn are_free<D: Disk>(disk: &mut D, packets: &[Outgoing<'_>]) -> Result<bool, DiskError>
    ensures free { Honestly (D.state disk.new) (IfOk result (λ free. free ≡ true → All (IsFree (D.state disk.old)) packets.now)) }
    ensures taken { Honestly (D.state disk.new) (IfOk result (λ free. free ≡ false → All (IsFree (D.state disk.old)) packets.now → ⊥)) }
    ensures quiet { ChangesNothing (D.state disk.old) (D.state disk.new) }
    ensures cause { HasCause (D.failures disk.old) (D.failures disk.new) result }
{
    'packets: for packet in packets {
        if disk.exists(packet.path)? {
            return Ok(false);
        }
    }
    Ok(true)
}

fn make_files<D: Disk>(disk: &mut D, packets: &[Outgoing<'_>]) -> Result<(), DiskError>
    requires apart { AllPairs AreApart packets.now }
    requires named { All (IsStagingNamed (D.state disk.old)) packets.now }
    ensures made { OnOk result (All (IsMade (D.state disk.new)) packets.now) }
    ensures changes { ChangesOnly (IsStagingOne packets.now) (D.state disk.old) (D.state disk.new) }
    ensures cause { HasCause (D.failures disk.old) (D.failures disk.new) result }
{
    'packets: for packet in packets {
        disk.create(packet.staging)?;
    }
    Ok(())
}

/// Makes an empty staging file for each packet, and syncs the folder. If a packet's path is in use: `false`, no file.
pub fn make_packets<D: Disk>(
    disk: &mut D,
    folder: &[u8],
    packets: &[Outgoing<'_>],
) -> Result<bool, DiskError>
    requires { ArePlaced folder.now packets.now }
    ensures made { IfOk result (λ free. free ≡ true → All (IsMade (D.state disk.new)) packets.now) }
    ensures named { IfOk result (λ free. free ≡ true → (m : List ℕ) → IsIn folder.now m → (D.state disk.new).is_named m) }
    ensures free { Honestly (D.state disk.new) (IfOk result (λ free. free ≡ true → All (IsFree (D.state disk.new)) packets.now)) }
    ensures taken { Honestly (D.state disk.new) (IfOk result (λ free. free ≡ false → All (IsFree (D.state disk.old)) packets.now → ⊥)) }
    ensures none { IfOk result (λ free. free ≡ false → ChangesNothing (D.state disk.old) (D.state disk.new)) }
    ensures changes { ChangesOnly (IsStagingOne packets.now) (D.state disk.old) (D.state disk.new) }
    ensures cause { HasCause (D.failures disk.old) (D.failures disk.new) result }
{
    sync_parent_folder(disk, folder)?;
    if !are_free(disk, packets)? {
        return Ok(false);
    }
    make_files(disk, packets)?;
    sync_parent_folder(disk, folder)?;
    Ok(true)
}
