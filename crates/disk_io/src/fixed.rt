//! Fields of a fixed size, filled whole.
ghost use Rattle.std.specs.{Prelude.◌≡◌, Prelude.OnOk, Prelude.IfErr, Io.KnownBytes.Consumes};
ghost use Rattle.disk_io.specs.Fixed.{AreBytes, BreaksFilling, CountsBreak};

use crate::failure::Failure;
use crate::source::{Source, fill};
use std::alloc::{AllocError, AllocFailed};

/// Why a field was not read.
#[derive(Clone, Copy, Debug, PartialEq, Eq)]
pub enum Broken {
    /// The input ends inside it.
    Cut,
    Device,
    Memory,
}

impl From<Failure> for Broken {
    ghost use Rattle.std.specs.Prelude.{◌≡◌};
    ghost use Rattle.disk_io.specs.declared.fixed.Broken.TheVariants as broken;

    ghost from_gives = { λ _ e. e ≡ broken.Device };

    fn from(_failure: Failure) -> Broken {
        Broken::Device
    }
}

impl From<AllocError> for Broken {
    ghost use Rattle.std.specs.Prelude.{◌≡◌};
    ghost use Rattle.disk_io.specs.declared.fixed.Broken.TheVariants as broken;

    ghost from_gives = { λ _ e. e ≡ broken.Memory };

    fn from(_refused: AllocError) -> Broken {
        Broken::Memory
    }
}

impl<T: Drop> From<AllocFailed<T>> for Broken {
    ghost use Rattle.std.specs.Prelude.{◌≡◌};
    ghost use Rattle.disk_io.specs.declared.fixed.Broken.TheVariants as broken;

    ghost from_gives = { λ _ e. e ≡ broken.Memory };

    fn from(_refused: AllocFailed<T>) -> Broken {
        Broken::Memory
    }
}

/// Does nothing. Its contract gives the prover the fact that each byte is below 256.
pub fn are_bytes(bytes: &[u8])
    ensures { AreBytes bytes.now }
{}

/// Fills the field. `Cut`: fewer bytes are left. `Device`: the device failed. Either way the bytes that came are
/// consumed.
pub fn read_fixed<R: Source>(reader: &mut R, field: &mut [u8]) -> Result<(), Broken>
    ensures bytes { AreBytes field.new }
    ensures taken { OnOk result (Consumes (R.remaining reader.old) (R.remaining reader.new) field.new) }
    ensures broken { IfErr result (BreaksFilling field.new (R.remaining reader.old) (R.remaining reader.new)) }
    ensures device { CountsBreak result (R.failures reader.old) (R.failures reader.new) }
{
    let filled = fill(reader, field);
    are_bytes(field);
    let count = filled?;
    if count < field.len() {
        return Err(Broken::Cut);
    }
    Ok(())
}
