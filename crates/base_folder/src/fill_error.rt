//! Why a folder could not be filled with the messages of another base.

use crate::open_error::OpenError;
use base_file::BaseFault;
use base_store::StoreError;
use thiserror::Error;

/// Why a base folder was not filled with messages.
#[derive(Clone, Copy, Debug, PartialEq, Eq, Error)]
pub enum FillError {
    /// The messages have this fault.
    #[error("{0}")]
    Messages(BaseFault),
    /// The folder has messages.
    #[error("the folder has messages")]
    Used,
    /// The folder that takes the messages has this error.
    #[error("{0}")]
    Folder(OpenError),
}

impl From<OpenError> for FillError {
    ghost use Rattle.std.specs.Prelude.{◌≡◌};
    ghost use Rattle.base_folder.specs.declared.fill_error.FillError.TheVariants as unfilled;

    ghost from_gives = { λ why e. e ≡ unfilled.Folder why };

    fn from(why: OpenError) -> FillError {
        FillError::Folder(why)
    }
}

impl From<StoreError> for FillError {
    ghost use Rattle.std.specs.Prelude.{◌≡◌};
    ghost use Rattle.base_folder.specs.Filled.{unfilled_cause};
    ghost use Rattle.base_folder.specs.declared.fill_error.FillError.TheVariants as unfilled;

    ghost from_gives = { λ cause e. e ≡ unfilled.Folder (unfilled_cause cause) };

    fn from(cause: StoreError) -> FillError {
        FillError::Folder(match cause {
            StoreError::Memory | StoreError::Damaged => OpenError::Memory,
            StoreError::Device => OpenError::Device,
            StoreError::TooMany => OpenError::Wrong(BaseFault::TooMany),
        })
    }
}
