//! Why the messages of a base did not go out as a base file.

use base_file::BaseFault;
use disk_io::Failure;
use std::alloc::AllocError;
use thiserror::Error;

/// Why a base file was not sent whole.
#[derive(Clone, Copy, Debug, PartialEq, Eq, Error)]
pub enum SendError {
    /// The messages have this fault, or it is want of memory.
    #[error("{0}")]
    Messages(BaseFault),
    /// The device that takes the file failed.
    #[error("the device failed")]
    Device,
}

impl From<BaseFault> for SendError {
    ghost use Rattle.std.specs.Prelude.{◌≡◌};
    ghost use Rattle.base_folder.specs.declared.send_error.SendError.TheVariants as unsent;

    ghost from_gives = { λ fault e. e ≡ unsent.Messages fault };

    fn from(fault: BaseFault) -> SendError {
        SendError::Messages(fault)
    }
}

impl From<AllocError> for SendError {
    ghost use Rattle.std.specs.Prelude.{◌≡◌};
    ghost use Rattle.base_file.specs.declared.fault.BaseFault.TheVariants.{Memory};
    ghost use Rattle.base_folder.specs.declared.send_error.SendError.TheVariants as unsent;

    ghost from_gives = { λ _ e. e ≡ unsent.Messages Memory };

    fn from(_refused: AllocError) -> SendError {
        SendError::Messages(BaseFault::Memory)
    }
}

impl From<Failure> for SendError {
    ghost use Rattle.std.specs.Prelude.{◌≡◌};
    ghost use Rattle.base_folder.specs.declared.send_error.SendError.TheVariants as unsent;

    ghost from_gives = { λ _ e. e ≡ unsent.Device };

    fn from(_failure: Failure) -> SendError {
        SendError::Device
    }
}
