//! The staging files of a stopped scan are named or removed.
ghost use Rattle.std.specs.Prelude.{◌≡◌, ◌⊎◌, ℕ, List, true, false, All, IfOk, OnOk};
ghost use Rattle.disk_io.specs.{Disk.Honestly, Disk.IsIn, Runs.HasCause, Runs.LeavesOnly, Runs.OneStepOn};
ghost use Rattle.disk_atomic.specs.Finishing.{AreLeftIn, AreNamed, Finishes, FinishesEach, IsFreeOf, IsLeftIn, IsOfLeft, IsOver, IsThere, KeepsFile};
ghost use Rattle.disk_atomic.specs.Changes.{ChangesOnly};

use crate::naming::name_packet;
use disk_io::{Disk, DiskError, sync_parent_folder};
use std::alloc::Global;

/// A packet in a staging file, and how many messages were scanned before it.
#[derive(Clone, Copy)]
pub struct Left<'a> {
    pub path: &'a [u8],
    pub staging: &'a [u8],
    pub before: u32,
}

fn finish_one<D: Disk>(
    alloc: Global,
    disk: &mut D,
    folder: &[u8],
    left: &Left<'_>,
    cursor: u32,
) -> Result<bool, DiskError>
    requires placed { IsLeftIn folder.now left.now }
    requires there { Honestly (D.state disk.old) (IsThere (D.state disk.old) left.now) }
    requires named { AreNamed (D.state disk.old) left.now }
    ensures over { Honestly (D.state disk.new) (IfOk result (λ over. over ≡ true → IsOver cursor (D.state disk.old) (D.state disk.new) left.now)) }
    ensures kept { Honestly (D.state disk.new) (KeepsFile (D.state disk.old) (D.state disk.new) left.now) }
    ensures taken { Honestly (D.state disk.new) (IfOk result (λ over. over ≡ false → IsFreeOf (D.state disk.old) left.now → ⊥)) }
    ensures any_moment { Honestly (D.state disk.new) (LeavesOnly (D.state disk.old) (D.state disk.new) (OneStepOn (Finishes cursor left.now) (D.state disk.old))) }
    ensures changes { ChangesOnly (λ m. (m ≡ left.now.staging.now) ⊎ (m ≡ left.now.path.now)) (D.state disk.old) (D.state disk.new) }
    ensures cause { HasCause (D.failures disk.old) (D.failures disk.new) result }
{
    if left.before >= cursor {
        disk.remove(left.staging)?;
        return Ok(true);
    }
    disk.sync(left.staging)?;
    name_packet(alloc, disk, folder, left.staging, left.path)
}

/// Names packets whose scan was committed (the cursor is past `before`), and removes the others. Returns whether all
/// ended so: if another file has a packet's path, that packet keeps its staging file.
pub fn finish_stopped<D: Disk>(
    alloc: Global,
    disk: &mut D,
    folder: &[u8],
    found: &[Left<'_>],
    cursor: u32,
) -> Result<bool, DiskError>
    requires found { AreLeftIn folder.now found.now }
    requires there { Honestly (D.state disk.old) (All (IsThere (D.state disk.old)) found.now) }
    ensures over { Honestly (D.state disk.new) (IfOk result (λ all. all ≡ true → All (IsOver cursor (D.state disk.old) (D.state disk.new)) found.now)) }
    ensures kept { Honestly (D.state disk.new) (All (KeepsFile (D.state disk.old) (D.state disk.new)) found.now) }
    ensures taken { Honestly (D.state disk.new) (IfOk result (λ all. all ≡ false → All (IsFreeOf (D.state disk.old)) found.now → ⊥)) }
    ensures named { OnOk result ((m : List ℕ) → IsIn folder.now m → (D.state disk.new).is_named m) }

    // A crash leaves each packet of a committed scan at one of its paths at least, and no other at its path.
    ensures any_moment { Honestly (D.state disk.new) (LeavesOnly (D.state disk.old) (D.state disk.new) (OneStepOn (FinishesEach cursor found.now) (D.state disk.old))) }
    ensures changes { ChangesOnly (IsOfLeft found.now) (D.state disk.old) (D.state disk.new) }
    ensures cause { HasCause (D.failures disk.old) (D.failures disk.new) result }
{
    sync_parent_folder(disk, folder)?;
    let mut all = true;
    'found: for left in found {
        all &= finish_one(alloc, disk, folder, left, cursor)?;
    }
    sync_parent_folder(disk, folder)?;
    Ok(all)
}
