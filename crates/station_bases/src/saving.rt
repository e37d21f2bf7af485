//! A base replaces its file.
ghost use Rattle.std.specs.Prelude.{◌≡◌, ◌≢◌, All, IfErr, IfOk, IsErrOf, OnOk, Some};
ghost use Rattle.base_file.specs.BaseFile.{saved_bytes};
ghost use Rattle.{disk_io.specs.Runs.{HasCause, LeavesOnly, OneStepOn}, disk_atomic.specs.{Changes.{ChangesOnly, HasOnDisk}, Replacing.Replaces}};
ghost use Rattle.{disk_atomic.specs.StagingPaths.staging_path, cmd_status.specs.Inputs.IsBaseGiven, base_folder_store.specs.Calls.HasWriteCause};
ghost use Rattle.station_bases.specs.{Entries.IsUnsaved, InFile.{IsInFile, IsOfFile, IsUncounted, PutsBase}};

use base_file::{Base, BaseFault, saved_base_law};
use base_store::StoreError;
use disk_atomic::{replace_file, staging_path};
use disk_io::{Disk, DiskError, Watched, parent_folder};
use echo_addr::Items;
use std::alloc::Global;
use std::hash::BuildHasher;

// The bytes of a base file with this base.
fn saved<S: BuildHasher>(alloc: Global, base: &Base<S>) -> Result<Items<u8>, StoreError>
    ensures bytes { IfOk result (λ bytes. bytes ≡ saved_bytes base.now.messages base.now.cursor) }
    ensures says { IfOk result (λ bytes. IsBaseGiven (Some bytes) base.now.messages base.now.cursor) }
    ensures many { IsErrOf result StoreError.TooMany → IsUncounted base.now }
    ensures err { IfErr result IsUnsaved }
{
    saved_base_law();
    let mut file = Watched::new(Vec::new(alloc));
    match base.save(&mut file) {
        Ok(()) => Ok(Items::new(file.into_inner())),
        Err(BaseFault::TooMany) => Err(StoreError::TooMany),
        Err(_) => Err(StoreError::Memory),
    }
}

// Replaces the bytes of the file by these, through its staging path.
fn put<D: Disk>(
    alloc: Global,
    disk: &mut D,
    path: &str,
    own: &[u8],
    bytes: &[u8],
) -> Result<(), DiskError>
    requires { All (λ b. b ≢ 47) own.now }
    ensures written { OnOk result (HasOnDisk (D.state disk.new) path.now bytes.now) }
    ensures any_moment { LeavesOnly (D.state disk.old) (D.state disk.new) (OneStepOn (Replaces path.now (staging_path path.now own.now) bytes.now) (D.state disk.old)) }
    ensures changes { ChangesOnly (IsOfFile path.now own.now) (D.state disk.old) (D.state disk.new) }
    ensures cause { HasCause (D.failures disk.old) (D.failures disk.new) result }
{
    let path = path.as_bytes();
    let staging = staging_path(alloc, path, own)?;
    replace_file(disk, parent_folder(path), path, &staging, bytes)
}

/// Replaces the base in a file.
pub(crate) fn write_file<D: Disk, S: BuildHasher>(
    alloc: Global,
    disk: &mut D,
    base: &Base<S>,
    path: &str,
    own: &[u8],
) -> Result<(), StoreError>
    requires { All (λ b. b ≢ 47) own.now }
    ensures bytes { OnOk result (HasOnDisk (D.state disk.new) path.now (saved_bytes base.now.messages base.now.cursor)) }
    ensures written { OnOk result (IsInFile (D.state disk.new) path.now base.now) }
    ensures any_moment { LeavesOnly (D.state disk.old) (D.state disk.new) (OneStepOn (PutsBase path.now own.now base.now) (D.state disk.old)) }
    ensures changes { ChangesOnly (IsOfFile path.now own.now) (D.state disk.old) (D.state disk.new) }
    ensures many { IsErrOf result StoreError.TooMany → IsUncounted base.now × (disk.new ≡ disk.old) }
    ensures cause { HasWriteCause (D.failures disk.old) (D.failures disk.new) result }
{
    let bytes = saved(alloc, base)?;
    put(alloc, disk, path, own, bytes.as_slice())?;
    Ok(())
}
