//! A whole file, read from a disk.

ghost use Rattle.std.specs.Prelude.{◌≡◌, IfOk, IsSome};
ghost use Rattle.disk_io.specs.{Disk.Honestly, Disk.bytes_in, Runs.ChangesNothing, Runs.HasCause};

use crate::disk::Disk;
use crate::disk_error::DiskError;
use crate::part::read_part;
use std::alloc::Global;

/// All bytes of a file.
pub fn read_file<D: Disk>(alloc: Global, disk: &mut D, path: &[u8]) -> Result<Vec<u8>, DiskError>
    requires { Honestly (D.state disk.old) (IsSome ((D.state disk.old).seen path.now)) }
    ensures bytes { Honestly (D.state disk.new)
        (IfOk result (λ bytes. bytes.items ≡ bytes_in ((D.state disk.old).seen path.now))) }
    ensures quiet { ChangesNothing (D.state disk.old) (D.state disk.new) }
    ensures cause { HasCause (D.failures disk.old) (D.failures disk.new) result }
{
    let len = disk.len(path)?;
    read_part(alloc, disk, path, 0, len)
}
