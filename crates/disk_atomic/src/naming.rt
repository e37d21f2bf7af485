//! Packets get their paths: each a second path by a hard link, and then its staging path goes.
ghost use Rattle.std.specs.Prelude.{◌≡◌, ◌⊎◌, ◌↔◌, ℕ, List, true, false, All, IfOk, IsTrue, None, OnOk, IsSome};
ghost use Rattle.disk_io.specs.{Disk.Honestly, Disk.IsIn, Runs.ChangesNothing, Runs.HasCause, Runs.LeavesOnly, Runs.OneStepOn};
ghost use Rattle.disk_atomic.specs.Naming.{AreBothIn, CanLink, Gives, HasItsPath, HasMoved, IsTaken, KeepsPath, Names, NamesEach, StaysThere};
ghost use Rattle.disk_atomic.specs.{Outgoing.{ArePlaced, IsFree, IsOfOne, IsStaged, staged_in}, Changes.ChangesOnly};

use crate::outgoing::Outgoing;
use disk_io::{Disk, DiskError, read_file, sync_parent_folder};
use std::alloc::Global;

fn are_same<D: Disk>(
    alloc: Global,
    disk: &mut D,
    one: &[u8],
    other: &[u8],
) -> Result<bool, DiskError>
    requires one { Honestly (D.state disk.old) (IsSome ((D.state disk.old).seen one.now)) }
    requires other { Honestly (D.state disk.old) (IsSome ((D.state disk.old).seen other.now)) }
    ensures same { Honestly (D.state disk.new) (IfOk result (λ same. (same ≡ true) ↔ ((D.state disk.old).seen one.now ≡ (D.state disk.old).seen other.now))) }
    ensures quiet { ChangesNothing (D.state disk.old) (D.state disk.new) }
    ensures cause { HasCause (D.failures disk.old) (D.failures disk.new) result }
{
    let first = read_file(alloc, disk, one)?;
    let second = read_file(alloc, disk, other)?;
    Ok(first.as_slice() == second.as_slice())
}

fn has_both<D: Disk>(
    alloc: Global,
    disk: &mut D,
    staging: &[u8],
    path: &[u8],
) -> Result<bool, DiskError>
    requires staging_there { Honestly (D.state disk.old) (IsSome ((D.state disk.old).seen staging.now)) }
    requires path_there { Honestly (D.state disk.old) (IsSome ((D.state disk.old).seen path.now)) }
    ensures same { Honestly (D.state disk.new) (IfOk result (λ both. (both ≡ true) ↔ ((D.state disk.old).seen staging.now ≡ (D.state disk.old).seen path.now))) }
    ensures durable { IfOk result (λ both. both ≡ true → (D.state disk.new).is_flushed path.now) }
    ensures quiet { ChangesNothing (D.state disk.old) (D.state disk.new) }
    ensures cause { HasCause (D.failures disk.old) (D.failures disk.new) result }
{
    if !are_same(alloc, disk, staging, path)? {
        return Ok(false);
    }
    disk.sync(path)?;
    Ok(true)
}

pub(crate) fn link_path<D: Disk>(
    disk: &mut D,
    staging: &[u8],
    path: &[u8],
) -> Result<bool, DiskError>
    requires { CanLink (D.state disk.old) staging.now path.now }
    ensures linked { IfOk result (λ linked. linked ≡ true → (D.state disk.new).seen path.now ≡ (D.state disk.old).seen staging.now) }
    ensures kept { IfOk result (λ linked. linked ≡ true → (D.state disk.new).is_flushed path.now) }
    ensures free { Honestly (D.state disk.new) (IfOk result (λ linked. IsTrue linked ↔ ((D.state disk.old).seen path.now ≡ None))) }
    ensures taken { IfOk result (λ linked. linked ≡ false → (D.state disk.new).seen path.now ≡ (D.state disk.old).seen path.now) }
    ensures gives { Gives (D.state disk.old) (D.state disk.new) path.now staging.now }
    ensures cause { HasCause (D.failures disk.old) (D.failures disk.new) result }
{
    disk.link(staging, path)
}

fn give_path<D: Disk>(
    alloc: Global,
    disk: &mut D,
    staging: &[u8],
    path: &[u8],
) -> Result<bool, DiskError>
    requires { CanLink (D.state disk.old) staging.now path.now }
    ensures given { Honestly (D.state disk.new) (IfOk result (λ given. given ≡ true → (D.state disk.new).seen path.now ≡ (D.state disk.old).seen staging.now)) }
    ensures durable { IfOk result (λ given. given ≡ true → (D.state disk.new).is_flushed path.now) }
    ensures taken { Honestly (D.state disk.new) (IfOk result (λ given. given ≡ false → IsTaken (D.state disk.old) path.now staging.now)) }
    ensures gives { Gives (D.state disk.old) (D.state disk.new) path.now staging.now }
    ensures cause { HasCause (D.failures disk.old) (D.failures disk.new) result }
{
    if link_path(disk, staging, path)? {
        return Ok(true);
    }
    has_both(alloc, disk, staging, path)
}

/// Moves a file from its staging path to the packet's path. If another file has that path, `false`; both files stay.
pub fn name_packet<D: Disk>(
    alloc: Global,
    disk: &mut D,
    folder: &[u8],
    staging: &[u8],
    path: &[u8],
) -> Result<bool, DiskError>
    requires inside { AreBothIn folder.now staging.now path.now }
    requires can { CanLink (D.state disk.old) staging.now path.now }
    ensures named { Honestly (D.state disk.new) (IfOk result (λ named. named ≡ true → HasMoved (D.state disk.old) (D.state disk.new) path.now staging.now)) }
    ensures over_none { Honestly (D.state disk.new) (IsSome ((D.state disk.old).seen path.now) → (D.state disk.new).seen path.now ≡ (D.state disk.old).seen path.now) }
    ensures taken { Honestly (D.state disk.new) (IfOk result (λ named. named ≡ false → IsTaken (D.state disk.old) path.now staging.now)) }
    ensures stays { IfOk result (λ named. named ≡ false → StaysThere (D.state disk.old) (D.state disk.new) staging.now) }

    ensures any_moment { Honestly (D.state disk.new) (LeavesOnly (D.state disk.old) (D.state disk.new) (OneStepOn (Names path.now staging.now) (D.state disk.old))) }
    ensures changes { ChangesOnly (λ m. (m ≡ staging.now) ⊎ (m ≡ path.now)) (D.state disk.old) (D.state disk.new) }
    ensures cause { HasCause (D.failures disk.old) (D.failures disk.new) result }
{
    let given = give_path(alloc, disk, staging, path)?;
    if !given {
        return Ok(false);
    }
    sync_parent_folder(disk, folder)?;
    disk.remove(staging)?;
    Ok(true)
}

/// Gives each packet its path, and returns whether all have theirs. If another file has the path of a packet, that file
/// stays, even if the disk fails. The packet keeps its staging path.
pub fn name_packets<D: Disk>(
    alloc: Global,
    disk: &mut D,
    folder: &[u8],
    packets: &[Outgoing<'_>],
) -> Result<bool, DiskError>
    requires placed { ArePlaced folder.now packets.now }
    requires staged { All (IsStaged (staged_in (D.state disk.old).seen) (D.state disk.old)) packets.now }
    ensures named { Honestly (D.state disk.new) (IfOk result (λ all. all ≡ true → All (HasItsPath (staged_in (D.state disk.old).seen) (D.state disk.new)) packets.now)) }
    ensures taken { Honestly (D.state disk.new) (IfOk result (λ all. all ≡ false → All (IsFree (D.state disk.old)) packets.now → ⊥)) }
    ensures kept { Honestly (D.state disk.new) (All (KeepsPath (D.state disk.old) (D.state disk.new)) packets.now) }
    ensures settled { OnOk result ((m : List ℕ) → IsIn folder.now m → (D.state disk.new).is_named m) }

    ensures any_moment { Honestly (D.state disk.new) (LeavesOnly (D.state disk.old) (D.state disk.new) (OneStepOn (NamesEach (staged_in (D.state disk.old).seen) packets.now) (D.state disk.old))) }
    ensures changes { ChangesOnly (IsOfOne packets.now) (D.state disk.old) (D.state disk.new) }
    ensures cause { HasCause (D.failures disk.old) (D.failures disk.new) result }
{
    let mut all = true;
    'packets: for packet in packets {
        all &= name_packet(alloc, disk, folder, packet.staging, packet.path)?;
    }
    sync_parent_folder::<D>(disk, folder)?;
    Ok(all)
}
