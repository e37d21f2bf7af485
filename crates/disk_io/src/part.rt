//! Reads a part of a file.
ghost use Rattle.std.specs.Prelude.{◌≡◌, ◌≤◌, ◌<◌, length, take, drop, IfOk, OnOk, IsSome};
ghost use Rattle.disk_io.specs.{Disk.Honestly, Disk.bytes_in, Part.HasBytesAt, Runs.ChangesNothing, Runs.HasCause};

use crate::disk::Disk;
use crate::disk_error::DiskError;
use std::alloc::Global;

fn read_more<D: Disk>(
    disk: &mut D,
    path: &[u8],
    from: usize,
    part: &mut [u8],
    done: usize,
) -> Result<usize, DiskError>
    requires part { HasBytesAt (D.state disk.old) path.now from (length part.old) }
    requires open { done < length part.old }
    requires front { Honestly (D.state disk.old) (take done part.old ≡ take done (drop from (bytes_in ((D.state disk.old).seen path.now)))) }
    ensures within { IfOk result (λ now. (done ≤ now) × (now ≤ length part.new)) }
    ensures further { Honestly (D.state disk.new) (IfOk result (λ now. done < now)) }
    ensures front { Honestly (D.state disk.new) (IfOk result (λ now. take now part.new ≡ take now (drop from (bytes_in ((D.state disk.old).seen path.now))))) }
    ensures quiet { ChangesNothing (D.state disk.old) (D.state disk.new) }
    ensures cause { HasCause (D.failures disk.old) (D.failures disk.new) result }
{
    let count = disk.read_at(path, from + done, &mut part[done..])?;
    Ok(done + count)
}

fn fill_part<D: Disk>(
    disk: &mut D,
    path: &[u8],
    from: usize,
    part: &mut [u8],
) -> Result<(), DiskError>
    requires { HasBytesAt (D.state disk.old) path.now from (length part.old) }
    ensures filled { Honestly (D.state disk.new) (OnOk result (part.new ≡ take (length part.new) (drop from (bytes_in ((D.state disk.old).seen path.now))))) }
    ensures quiet { ChangesNothing (D.state disk.old) (D.state disk.new) }
    ensures cause { HasCause (D.failures disk.old) (D.failures disk.new) result }
{
    let mut done = 0;
    'reads: while done < part.len() {
        let now = read_more(disk, path, from, part, done)?;
        // Only a file that others cut ends here.
        if now == done {
            break;
        }
        done = now;
    }
    Ok(())
}

/// The bytes of a file from one place up to another.
pub fn read_part<D: Disk>(
    alloc: Global,
    disk: &mut D,
    path: &[u8],
    from: usize,
    to: usize,
) -> Result<Vec<u8>, DiskError>
    requires there { Honestly (D.state disk.old) (IsSome ((D.state disk.old).seen path.now)) }
    requires order { from ≤ to }
    requires within { Honestly (D.state disk.old) (to ≤ length (bytes_in ((D.state disk.old).seen path.now))) }
    ensures bytes { Honestly (D.state disk.new) (IfOk result (λ part. part.items ≡ drop from (take to (bytes_in ((D.state disk.old).seen path.now))))) }
    ensures quiet { ChangesNothing (D.state disk.old) (D.state disk.new) }
    ensures cause { HasCause (D.failures disk.old) (D.failures disk.new) result }
{
    let mut part = Vec::new(alloc);
    fill_with_part(disk, path, from, to, &mut part)?;
    Ok(part)
}

/// Makes these bytes the content of a vector. After a fault it may hold anything.
pub fn fill_with_part<D: Disk>(
    disk: &mut D,
    path: &[u8],
    from: usize,
    to: usize,
    part: &mut Vec<u8>,
) -> Result<(), DiskError>
    requires there { Honestly (D.state disk.old) (IsSome ((D.state disk.old).seen path.now)) }
    requires order { from ≤ to }
    requires within { Honestly (D.state disk.old) (to ≤ length (bytes_in ((D.state disk.old).seen path.now))) }
    ensures bytes { Honestly (D.state disk.new) (OnOk result (part.new.items ≡ drop from (take to (bytes_in ((D.state disk.old).seen path.now))))) }
    ensures quiet { ChangesNothing (D.state disk.old) (D.state disk.new) }
    ensures cause { HasCause (D.failures disk.old) (D.failures disk.new) result }
{
    let size = to - from;
    part.reserve_exact(size.saturating_sub(part.len()))?;
    // Old bytes are overwritten, so they are not cleared first.
    part.resize(size, 0)?;
    fill_part(disk, path, from, part)
}
