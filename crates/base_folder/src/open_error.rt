//! Why a base folder was not opened.

ghost use Rattle.base_folder.specs.OpenError.{IsReportedAs};

use base_file::BaseFault;
use cmd_status::Fault;
use disk_io::DiskError;
use echo_addr::Address;
use std::alloc::{AllocError, AllocFailed};
use thiserror::Error;

/// Why a base folder is not read or opened.
#[derive(Clone, Copy, Debug, PartialEq, Eq, Error)]
pub enum OpenError {
    /// A growth was refused.
    #[error("out of memory")]
    Memory,
    /// The device failed, and counts it.
    #[error("the device failed")]
    Device,
    /// It is no base folder, or it is cut short.
    #[error("{0}")]
    Wrong(BaseFault),
    /// Others changed it each time that it was read.
    #[error("changed meanwhile")]
    Raced,
    /// It belongs to the system with this address.
    #[error("not the own folder, but that of {0}")]
    NotOwner(Address),
}

impl From<DiskError> for OpenError {
    ghost use Rattle.std.specs.Prelude.{◌≡◌};
    ghost use Rattle.base_folder.specs.OpenError.{unread_cause};

    ghost from_gives = { λ cause e. e ≡ unread_cause cause };

    fn from(cause: DiskError) -> OpenError {
        match cause {
            DiskError::Memory => OpenError::Memory,
            DiskError::Device => OpenError::Device,
        }
    }
}

impl From<AllocError> for OpenError {
    ghost use Rattle.std.specs.Prelude.{◌≡◌};
    ghost use Rattle.base_folder.specs.declared.open_error.OpenError.TheVariants as unread;

    ghost from_gives = { λ _ e. e ≡ unread.Memory };

    fn from(_refused: AllocError) -> OpenError {
        OpenError::Memory
    }
}

impl<T: Drop> From<AllocFailed<T>> for OpenError {
    ghost use Rattle.std.specs.Prelude.{◌≡◌};
    ghost use Rattle.base_folder.specs.declared.open_error.OpenError.TheVariants as unread;

    ghost from_gives = { λ _ e. e ≡ unread.Memory };

    fn from(_refused: AllocFailed<T>) -> OpenError {
        OpenError::Memory
    }
}

impl OpenError {
    /// The report for the base with this path.
    pub fn fault<'a>(self, base: &'a str) -> Fault<'a>
        ensures { IsReportedAs base.now self result }
    {
        match self {
            OpenError::Memory => Fault::OutOfMemory,
            OpenError::Device | OpenError::Raced => Fault::CannotUse(base),
            OpenError::Wrong(fault) => Fault::Base(fault),
            OpenError::NotOwner(address) => Fault::NotOwner(address),
        }
    }
}
