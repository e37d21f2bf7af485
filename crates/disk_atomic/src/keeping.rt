//! A file is replaced by a head, a part of its old bytes, and a tail.
ghost use Rattle.std.specs.Prelude.{◌≡◌, ◌≢◌, ◌⊎◌, ◌++◌, ℕ, List, drop, take, IfOk, IsSome, OnOk};
ghost use Rattle.disk_io.specs.{Disk.Honestly, Disk.IsIn, Disk.bytes_in, Runs.HasCause, Runs.KeepsNamed, Runs.LeavesOnly, Runs.OneStepOn};
ghost use Rattle.disk_atomic.specs.{Changes.ChangesOnly, Changes.HasOnDisk, Changes.IsGrowing, Keeping.HasAllOnDisk, Keeping.HasPart, Keeping.kept_bytes, Replacing.Replaces};

use crate::filling::append;
use disk_io::{Disk, DiskError, read_part, sync_parent_folder};
use std::alloc::Global;

/// How many bytes are copied at once.
const PIECE: usize = 65_536;

/// What stays of a file: its bytes from one place up to another, between this head and this tail.
#[derive(Clone, Copy, Debug)]
pub struct KeptRange<'a> {
    pub head: &'a [u8],
    pub from: usize,
    pub to: usize,
    pub tail: &'a [u8],
}

fn copy_piece<D: Disk>(
    alloc: Global,
    disk: &mut D,
    source: &[u8],
    path: &[u8],
    at: usize,
    from: usize,
    to: usize,
) -> Result<usize, DiskError>
    requires growing { IsGrowing (D.state disk.old) path.now at }
    requires part { HasPart (D.state disk.old) source.now from to }
    ensures growing { IfOk result (IsGrowing (D.state disk.new) path.now) }
    ensures more { Honestly (D.state disk.new) (OnOk result (bytes_in ((D.state disk.new).seen path.now) ≡ bytes_in ((D.state disk.old).seen path.now) ++ drop from (take to (bytes_in ((D.state disk.old).seen source.now))))) }
    ensures named { KeepsNamed (λ m. ⊥) (D.state disk.old) (D.state disk.new) }
    ensures changes { ChangesOnly (λ m. m ≡ path.now) (D.state disk.old) (D.state disk.new) }
    ensures cause { HasCause (D.failures disk.old) (D.failures disk.new) result }
{
    let piece = read_part(alloc, disk, source, from, to)?;
    append(disk, path, at, piece.as_slice())
}

fn copy_part<D: Disk>(
    alloc: Global,
    disk: &mut D,
    source: &[u8],
    path: &[u8],
    at: usize,
    from: usize,
    to: usize,
) -> Result<usize, DiskError>
    requires growing { IsGrowing (D.state disk.old) path.now at }
    requires other { path.now ≢ source.now }
    requires part { HasPart (D.state disk.old) source.now from to }
    ensures growing { IfOk result (IsGrowing (D.state disk.new) path.now) }
    ensures more { Honestly (D.state disk.new) (OnOk result (bytes_in ((D.state disk.new).seen path.now) ≡ bytes_in ((D.state disk.old).seen path.now) ++ drop from (take to (bytes_in ((D.state disk.old).seen source.now))))) }
    ensures named { KeepsNamed (λ m. ⊥) (D.state disk.old) (D.state disk.new) }
    ensures changes { ChangesOnly (λ m. m ≡ path.now) (D.state disk.old) (D.state disk.new) }
    ensures cause { HasCause (D.failures disk.old) (D.failures disk.new) result }
{
    let mut end = at;
    let mut done = from;
    'pieces: while done < to {
        let next = done + PIECE.min(to - done);
        end = copy_piece(alloc, disk, source, path, end, done, next)?;
        done = next;
    }
    Ok(end)
}

fn write_kept<D: Disk>(
    alloc: Global,
    disk: &mut D,
    source: &[u8],
    path: &[u8],
    kept: KeptRange<'_>,
) -> Result<(), DiskError>
    requires growing { IsGrowing (D.state disk.old) path.now 0 }
    requires other { path.now ≢ source.now }
    requires part { HasPart (D.state disk.old) source.now kept.from kept.to }
    ensures there { OnOk result (IsSome ((D.state disk.new).seen path.now)) }
    ensures bytes { Honestly (D.state disk.new) (OnOk result (bytes_in ((D.state disk.new).seen path.now) ≡ kept_bytes (bytes_in ((D.state disk.old).seen source.now)) kept.entry)) }
    ensures named { KeepsNamed (λ m. ⊥) (D.state disk.old) (D.state disk.new) }
    ensures changes { ChangesOnly (λ m. m ≡ path.now) (D.state disk.old) (D.state disk.new) }
    ensures cause { HasCause (D.failures disk.old) (D.failures disk.new) result }
{
    let front = append(disk, path, 0, kept.head)?;
    let end = copy_part(alloc, disk, source, path, front, kept.from, kept.to)?;
    append(disk, path, end, kept.tail)?;
    Ok(())
}

fn fill_kept<D: Disk>(
    alloc: Global,
    disk: &mut D,
    source: &[u8],
    path: &[u8],
    kept: KeptRange<'_>,
) -> Result<(), DiskError>
    requires growing { IsGrowing (D.state disk.old) path.now 0 }
    requires other { path.now ≢ source.now }
    requires part { HasPart (D.state disk.old) source.now kept.from kept.to }
    ensures filled { OnOk result (HasAllOnDisk (D.state disk.new) path.now) }
    ensures bytes { Honestly (D.state disk.new) (OnOk result (bytes_in ((D.state disk.new).seen path.now) ≡ kept_bytes (bytes_in ((D.state disk.old).seen source.now)) kept.entry)) }
    ensures named { KeepsNamed (λ m. ⊥) (D.state disk.old) (D.state disk.new) }
    ensures changes { ChangesOnly (λ m. m ≡ path.now) (D.state disk.old) (D.state disk.new) }
    ensures cause { HasCause (D.failures disk.old) (D.failures disk.new) result }
{
    write_kept(alloc, disk, source, path, kept)?;
    disk.sync(path)
}

fn stage_kept<D: Disk>(
    alloc: Global,
    disk: &mut D,
    folder: &[u8],
    path: &[u8],
    staging: &[u8],
    kept: KeptRange<'_>,
) -> Result<(), DiskError>
    requires staging_in { IsIn folder.now staging.now }
    requires other { staging.now ≢ path.now }
    requires part { HasPart (D.state disk.old) path.now kept.from kept.to }
    ensures staged { OnOk result (HasAllOnDisk (D.state disk.new) staging.now) }
    ensures bytes { Honestly (D.state disk.new) (OnOk result (bytes_in ((D.state disk.new).seen staging.now) ≡ kept_bytes (bytes_in ((D.state disk.old).seen path.now)) kept.entry)) }
    ensures named { OnOk result ((m : List ℕ) → IsIn folder.now m → (D.state disk.new).is_named m) }
    ensures changes { ChangesOnly (λ m. m ≡ staging.now) (D.state disk.old) (D.state disk.new) }
    ensures cause { HasCause (D.failures disk.old) (D.failures disk.new) result }
{
    sync_parent_folder(disk, folder)?;
    disk.create(staging)?;
    sync_parent_folder(disk, folder)?;
    fill_kept(alloc, disk, path, staging, kept)
}

/// Replaces a file by a head, some of its old bytes and a tail, written at a staging path first. At `Ok` they are
/// synced.
pub fn replace_around<D: Disk>(
    alloc: Global,
    disk: &mut D,
    folder: &[u8],
    path: &[u8],
    staging: &[u8],
    kept: KeptRange<'_>,
) -> Result<(), DiskError>
    requires path_in { IsIn folder.now path.now }
    requires staging_in { IsIn folder.now staging.now }
    requires other { staging.now ≢ path.now }
    requires part { HasPart (D.state disk.old) path.now kept.from kept.to }
    ensures replaced { Honestly (D.state disk.new) (OnOk result (HasOnDisk (D.state disk.new) path.now (kept_bytes (bytes_in ((D.state disk.old).seen path.now)) kept.entry))) }

    // A crash leaves the old file or these bytes at the path, and changes files only at these two paths.
    ensures any_moment { Honestly (D.state disk.new) (LeavesOnly (D.state disk.old) (D.state disk.new)
        (OneStepOn (Replaces path.now staging.now (kept_bytes (bytes_in ((D.state disk.old).seen path.now)) kept.entry)) (D.state disk.old))) }
    ensures changes { ChangesOnly (λ m. (m ≡ staging.now) ⊎ (m ≡ path.now)) (D.state disk.old) (D.state disk.new) }
    ensures cause { HasCause (D.failures disk.old) (D.failures disk.new) result }
{
    stage_kept(alloc, disk, folder, path, staging, kept)?;
    disk.rename(staging, path)?;
    sync_parent_folder(disk, folder)
}
