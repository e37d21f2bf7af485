//! What a purge leaves of a stored message.

ghost use Rattle.std.specs.Prelude.{◌≡◌, ◌&&◌, not, false, IfOk, IsErrOf, IsTrue, OnOk};
ghost use Rattle.echo_filed.specs.{Stored.IsStored, Stored.Stored, Stored.stored_bytes, declared.stored.Version.TheVariants.Second, Stubs.is_stub, Stubs.stub_of};
ghost use Rattle.echo_filed.specs.Filed.{Filed as TheMessage};
ghost use Rattle.base_file.specs.{Alone.IsStoredAlone, Alone.MayStandAlone, Purging.is_within};
ghost use Rattle.base_folder_store.specs.{Answers.Answers, Left.IsLeftOf};

use crate::alone::{bytes_scanned, read_alone};
use base_file::{MessageRoom, PurgeRange};
use base_store::StoreError;
use echo_filed::{Filed, is_stub, leave, stub_lines};
use std::alloc::{AllocError, Global};

/// The message that is left, as it is stored, and whether it is another one than before.
#[derive(Drop)]
pub(crate) struct PurgedBytes {
    pub(crate) bytes: Vec<u8>,
    pub(crate) changed: bool,
}

fn make_stub(alloc: Global, message: &mut Filed) -> Result<bool, AllocError>
    ensures left { OnOk result (message.new ≡ stub_of message.old) }
    ensures changed { IfOk result (λ changed. changed ≡ not (is_stub message.old)) }
{
    if is_stub(message) {
        return Ok(false);
    }
    let lines = stub_lines(alloc, message)?;
    leave(alloc, message, lines);
    Ok(true)
}

fn becomes_stub(range: &PurgeRange, before: bool, message: &Filed) -> bool
    ensures { result ≡ (before && is_within range.now.area message.now) }
{
    before && range.has(message)
}

fn left_in(
    alloc: Global,
    bytes: Vec<u8>,
    range: &PurgeRange,
    before: bool,
) -> Result<PurgedBytes, StoreError>
    ensures left { (s : Stored) → IsStored Second s → MayStandAlone s → bytes.items ≡ stored_bytes Second s
        → Answers (IsLeftOf range.now.area before s) result }
    ensures read { OnOk result ((m : TheMessage) × IsStoredAlone m bytes.items) }
    ensures device { IsErrOf result StoreError.Device → ⊥ }
    ensures few { IsErrOf result StoreError.TooMany → ⊥ }
{
    let mut message = read_alone(&mut MessageRoom::new(alloc), &bytes)?;
    if !becomes_stub(range, before, &message) {
        return Ok(PurgedBytes {
            bytes,
            changed: false,
        });
    }
    let changed = make_stub(alloc, &mut message)?;
    let bytes = bytes_scanned(alloc, &message)?;
    Ok(PurgedBytes { bytes, changed })
}

/// What a purge leaves of a stored message, which stands before its end or not. It has no more bytes than before.
pub(crate) fn left_of(
    alloc: Global,
    bytes: Vec<u8>,
    range: &PurgeRange,
    scanned: bool,
    before: bool,
) -> Result<PurgedBytes, StoreError>
    requires { IsTrue before → IsTrue scanned }
    ensures left { (s : Stored) → IsStored Second s → MayStandAlone s → bytes.items ≡ stored_bytes Second s
        → Answers (IsLeftOf range.now.area before s) result }
    ensures read { IsTrue scanned → OnOk result ((m : TheMessage) × IsStoredAlone m bytes.items) }
    ensures device { IsErrOf result StoreError.Device → ⊥ }
    ensures few { IsErrOf result StoreError.TooMany → ⊥ }
{
    if scanned {
        left_in(alloc, bytes, range, before)
    } else {
        Ok(PurgedBytes {
            bytes,
            changed: false,
        })
    }
}
