//! Staging files of a scan that stopped are removed.

ghost use Rattle.std.specs.Prelude.{◌≡◌, All, AllPairs, None, OnOk};
ghost use Rattle.disk_io.specs.{Disk.Honestly, Disk.IsIn, Runs.HasCause};
ghost use Rattle.disk_atomic.specs.{Outgoing.{AreApart, ArePlaced, IsAtStaging, IsStagingOne, IsStagingGone, IsStagingNamed, IsOfOne}, Changes.ChangesOnly};

use crate::outgoing::Outgoing;
use disk_io::{Disk, DiskError, sync_parent_folder};

fn drop_one<D: Disk>(disk: &mut D, path: &[u8]) -> Result<(), DiskError>
    requires { (D.state disk.old).is_named path.now }
    ensures gone { Honestly (D.state disk.new) (OnOk result ((D.state disk.new).seen path.now ≡ None)) }
    ensures changes { ChangesOnly (λ m. m ≡ path.now) (D.state disk.old) (D.state disk.new) }
    ensures cause { HasCause (D.failures disk.old) (D.failures disk.new) result }
{
    if !disk.exists(path)? {
        return Ok(());
    }
    disk.remove(path)
}

fn drop_each<D: Disk>(disk: &mut D, packets: &[Outgoing<'_>]) -> Result<(), DiskError>
    requires apart { AllPairs AreApart packets.now }
    requires named { All (IsStagingNamed (D.state disk.old)) packets.now }
    ensures gone { Honestly (D.state disk.new) (OnOk result (All (IsStagingGone (D.state disk.new)) packets.now)) }
    ensures changes { ChangesOnly (IsStagingOne packets.now) (D.state disk.old) (D.state disk.new) }
    ensures cause { HasCause (D.failures disk.old) (D.failures disk.new) result }
{
    'packets: for packet in packets {
        drop_one(disk, packet.staging)?;
    }
    Ok(())
}

/// Removes the staging files of the packets, all in this folder, and the file at the path that was tried.
pub fn drop_staging<D: Disk>(
    disk: &mut D,
    folder: &[u8],
    trial: &[u8],
    packets: &[Outgoing<'_>],
) -> Result<(), DiskError>
    requires placed { ArePlaced folder.now packets.now }
    requires inside { IsIn folder.now trial.now }
    requires apart { IsOfOne packets.now trial.now → ⊥ }
    ensures gone { Honestly (D.state disk.new) (OnOk result (All (IsStagingGone (D.state disk.new)) packets.now)) }
    ensures trial_gone { Honestly (D.state disk.new) (OnOk result ((D.state disk.new).seen trial.now ≡ None)) }
    ensures changes { ChangesOnly (IsAtStaging packets.now trial.now) (D.state disk.old) (D.state disk.new) }
    ensures cause { HasCause (D.failures disk.old) (D.failures disk.new) result }
{
    sync_parent_folder(disk, folder)?;
    drop_one(disk, trial)?;
    drop_each(disk, packets)
}
