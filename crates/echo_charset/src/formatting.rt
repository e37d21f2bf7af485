//! The answer of a formatted write to memory.

ghost use Rattle.std.specs.Prelude.{IsOk, OnOk};

use std::alloc::AllocError;
use std::io;

/// The answer of writing to a vector, which fails only out of memory.
pub fn written(answer: io::Result<()>) -> Result<(), AllocError>
    ensures { OnOk result (IsOk answer) }
{
    match answer {
        Ok(()) => Ok(()),
        Err(_) => Err(AllocError),
    }
}
