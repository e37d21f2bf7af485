//! The fixed header of a JAM base.
ghost use Rattle.std.specs.Prelude.{◌≡◌, ◌+◌, ◌++◌, ◌%◌, ◌^◌, IfOk, OnOk};
ghost use Rattle.echo_jam.specs.Fixed.{counts, new_fixed};

use crate::long::push_long;
use crate::standing::Standing;
use echo_stored::push_bytes;
use std::alloc::{AllocError, Global};

/// The bytes after the numbers, which are kept for later standards.
const RESERVED: [u8; 1000] = [0; 1000];

/// The fixed header of a base created at this time, without messages.
pub fn new_fixed(alloc: Global, created: u32) -> Result<Vec<u8>, AllocError>
    ensures { IfOk result (λ bytes. bytes.items ≡ new_fixed created) }
{
    let mut bytes = Vec::new(alloc);
    push_fixed(&mut bytes, created)?;
    Ok(bytes)
}

fn push_fixed(bytes: &mut Vec<u8>, created: u32) -> Result<(), AllocError>
    ensures { OnOk result (bytes.new.items ≡ bytes.old.items ++ new_fixed created) }
{
    push_bytes(bytes, b"JAM\0")?;
    push_long(bytes, created)?;
    push_counts(bytes, 0, 0)?;
    push_long(bytes, u32::MAX)?;
    push_long(bytes, 1)?;
    push_bytes(bytes, &RESERVED)
}

/// The counts of a base after `added` more messages. Counts beyond four bytes are refused as out of memory.
pub fn next_counts(alloc: Global, standing: Standing, added: usize) -> Result<Vec<u8>, AllocError>
    ensures { IfOk result (λ bytes. bytes.items ≡ counts ((standing.changes + 1) % 2 ^ 32) (standing.counted + added)) }
{
    let added = u32::try_from(added).map_err(|_| AllocError)?;
    let active = standing.counted.checked_add(added).ok_or(AllocError)?;
    let mut bytes = Vec::new(alloc);
    push_counts(&mut bytes, standing.changes.wrapping_add(1), active)?;
    Ok(bytes)
}

fn push_counts(bytes: &mut Vec<u8>, changes: u32, active: u32) -> Result<(), AllocError>
    ensures { OnOk result (bytes.new.items ≡ bytes.old.items ++ counts changes active) }
{
    push_long(bytes, changes)?;
    push_long(bytes, active)
}
