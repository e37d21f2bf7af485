//! Bytes written at the end of a file with a known length.
ghost use Rattle.std.specs.Prelude.{◌≡◌, ◌++◌, IfOk, OnOk};
ghost use Rattle.disk_io.specs.{Disk.bytes_in, Runs.HasCause, Runs.KeepsNamed};
ghost use Rattle.disk_atomic.specs.Changes.{ChangesOnly, IsGrowing};

use disk_io::{Disk, DiskError, are_bytes};

pub(crate) fn append<D: Disk>(
    disk: &mut D,
    path: &[u8],
    at: usize,
    bytes: &[u8],
) -> Result<usize, DiskError>
    requires { IsGrowing (D.state disk.old) path.now at }
    ensures growing { IfOk result (IsGrowing (D.state disk.new) path.now) }
    ensures more { OnOk result (bytes_in ((D.state disk.new).seen path.now) ≡ bytes_in ((D.state disk.old).seen path.now) ++ bytes.now) }
    ensures named { KeepsNamed (λ m. ⊥) (D.state disk.old) (D.state disk.new) }
    ensures changes { ChangesOnly (λ m. m ≡ path.now) (D.state disk.old) (D.state disk.new) }
    ensures cause { HasCause (D.failures disk.old) (D.failures disk.new) result }
{
    are_bytes(bytes);
    disk.write_at(path, at, bytes)?;
    match at.checked_add(bytes.len()) {
        Some(end) => Ok(end),
        None => Err(DiskError::Memory),
    }
}
