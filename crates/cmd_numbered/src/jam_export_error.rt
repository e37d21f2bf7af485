//! Why messages were not added to a JAM base.

use cmd_status::Fault;
use disk_io::Failure;
use std::alloc::AllocError;

/// Why messages were not added to a JAM base. `Device`: the device that takes the texts failed.
#[derive(Debug, Drop)]
pub enum JamExportError<'a> {
    Messages(Fault<'a>),
    Device,
}

impl<'a> From<Fault<'a>> for JamExportError<'a> {
    ghost use Rattle.std.specs.Prelude.{◌≡◌};
    ghost use Rattle.cmd_numbered.specs.declared.jam_export_error.JamExportError.TheVariants as unsent;

    ghost from_gives = { λ fault e. e ≡ unsent.Messages fault };

    fn from(fault: Fault<'a>) -> JamExportError<'a> {
        JamExportError::Messages(fault)
    }
}

impl<'a> From<AllocError> for JamExportError<'a> {
    ghost use Rattle.std.specs.Prelude.{◌≡◌};
    ghost use Rattle.cmd_status.specs.declared.fault.Fault.TheVariants as fault;
    ghost use Rattle.cmd_numbered.specs.declared.jam_export_error.JamExportError.TheVariants as unsent;

    ghost from_gives = { λ _ e. e ≡ unsent.Messages fault.OutOfMemory };

    fn from(_refused: AllocError) -> JamExportError<'a> {
        JamExportError::Messages(Fault::OutOfMemory)
    }
}

impl<'a> From<Failure> for JamExportError<'a> {
    ghost use Rattle.std.specs.Prelude.{◌≡◌};
    ghost use Rattle.cmd_numbered.specs.declared.jam_export_error.JamExportError.TheVariants as unsent;

    ghost from_gives = { λ _ e. e ≡ unsent.Device };

    fn from(_failure: Failure) -> JamExportError<'a> {
        JamExportError::Device
    }
}
