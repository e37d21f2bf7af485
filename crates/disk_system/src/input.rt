//! Why an input could not be read.

ghost use Rattle.std.specs.Prelude.{◌≡◌, ◌≢◌, ◌≤◌, ◌<◌, ◌++◌, length, replicate, IfErr, IfOk, IfSome, IsErrOf, OnOk};
ghost use Rattle.disk_io.specs.Device.{Failed};
ghost use Rattle.disk_system.specs.{declared.input.InputFault.TheVariants.Device, declared.input.InputFault.TheVariants.Memory, declared.input.InputFault.TheVariants.TooLarge, Input.ReadsOn};

use disk_io::{Failure, Source, fill_buffer};
use std::alloc::{AllocError, Global};

/// Why an input was not read.
#[derive(Clone, Copy, Debug, PartialEq, Eq)]
pub enum InputFault {
    /// It has more bytes than allowed.
    TooLarge,
    Device,
    Memory,
}

impl From<AllocError> for InputFault {
    ghost from_gives = { λ _ fault. fault ≡ Memory };

    fn from(_refused: AllocError) -> InputFault {
        InputFault::Memory
    }
}

impl From<Failure> for InputFault {
    ghost from_gives = { λ _ fault. fault ≡ Device };

    fn from(_failed: Failure) -> InputFault {
        InputFault::Device
    }
}

/// The size of one read.
const PIECE: usize = 65_536;

fn make_room(whole: &mut Vec<u8>) -> Result<(), InputFault>
    ensures ok { OnOk result (whole.new.items ≡ whole.old.items ++ replicate 65536 0) }
    ensures err { IfErr result (λ fault. fault ≡ Memory) }
{
    let size = whole.len() + PIECE;
    whole.resize(size, 0)?;
    Ok(())
}

fn read_piece<R: Source>(reader: &mut R, whole: &mut Vec<u8>) -> Result<usize, InputFault>
    ensures bytes { IfOk result (λ count. ReadsOn (R.remaining reader.old) (R.remaining reader.new) whole.old.items whole.new.items count 65536) }
    ensures device { IsErrOf result Device → Failed (R.failures reader.old) (R.failures reader.new) }
    ensures ok { OnOk result (R.failures reader.new ≡ R.failures reader.old) }
    ensures large { IfErr result (λ fault. fault ≢ TooLarge) }
{
    let start = whole.len();
    make_room(whole)?;
    let came = fill_buffer(reader, whole.as_mut_slice(), start)?;
    whole.truncate(start + came);
    Ok(came)
}

/// All bytes of the reader, if they are at most `most`.
pub fn read_whole<R: Source>(
    alloc: Global,
    reader: &mut R,
    most: usize,
) -> Result<Vec<u8>, InputFault>
    ensures bounded { IfOk result (λ v. length v.items ≤ most) }
    ensures all { IfOk result (λ v. IfSome (R.remaining reader.old) (λ bytes. v.items ≡ bytes)) }
    ensures large { IsErrOf result TooLarge → IfSome (R.remaining reader.old) (λ bytes. most < length bytes) }
    ensures device { IsErrOf result Device → Failed (R.failures reader.old) (R.failures reader.new) }
    ensures ok { OnOk result (R.failures reader.new ≡ R.failures reader.old) }
{
    let mut whole = Vec::new(alloc);
    'pieces: while whole.len() <= most {
        let came = read_piece(reader, &mut whole)?;
        if came < PIECE {
            break;
        }
    }
    if whole.len() > most {
        return Err(InputFault::TooLarge);
    }
    Ok(whole)
}
