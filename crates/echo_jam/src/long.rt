//! Numbers of four bytes.
ghost use Rattle.std.specs.Prelude.{◌≡◌, ◌+◌, ◌++◌, IfOk, OnOk, length};
ghost use Rattle.echo_filed.specs.Stored.{long};

use echo_filed::long_bytes;
use std::alloc::AllocError;

pub(crate) fn push_long(bytes: &mut Vec<u8>, number: u32) -> Result<(), AllocError>
    ensures { OnOk result (bytes.new.items ≡ bytes.old.items ++ long number) }
{
    bytes.extend_from_slice(&long_bytes(number))
}

/// The number of bytes. One that four bytes do not hold is refused as out of memory.
pub(crate) fn count_of(bytes: &[u8]) -> Result<u32, AllocError>
    ensures { IfOk result (λ count. count ≡ length bytes.now) }
{
    u32::try_from(bytes.len()).map_err(|_| AllocError)
}

pub(crate) fn place_behind(start: u32, bytes: &[u8]) -> Result<u32, AllocError>
    ensures { IfOk result (λ place. place ≡ start + length bytes.now) }
{
    start.checked_add(count_of(bytes)?).ok_or(AllocError)
}
