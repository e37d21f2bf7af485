//! Why a command on a store stopped.

ghost use Rattle.std.specs.Prelude.{◌≡◌};
ghost use Rattle.{cmd_status.specs.declared.fault.Fault.TheVariants.OutOfMemory, cmd_store.specs.Stops.{IsReportedAs, post_stop}};
ghost use Rattle.cmd_store.specs.declared.command_error.CommandError.TheVariants as stop;

use base_file::BaseFault;
use base_store::StoreError;
use cmd_status::Fault;
use echo_steps::PostStepError;
use std::alloc::{AllocError, AllocFailed};
use thiserror::Error;

/// Why a command on a store stopped.
#[derive(Clone, Copy, Debug, Drop, Error)]
pub enum CommandError<'a> {
    /// It met this, as on a base file.
    #[error("{0}")]
    Met(Fault<'a>),
    /// The store failed.
    #[error("{0}")]
    Store(StoreError),
}

impl<'a> From<Fault<'a>> for CommandError<'a> {
    ghost from_gives = { λ fault e. e ≡ stop.Met fault };

    fn from(fault: Fault<'a>) -> Self {
        CommandError::Met(fault)
    }
}

impl From<StoreError> for CommandError<'_> {
    ghost from_gives = { λ error e. e ≡ stop.Store error };

    fn from(error: StoreError) -> Self {
        CommandError::Store(error)
    }
}

impl From<AllocError> for CommandError<'_> {
    ghost from_gives = { λ _ e. e ≡ stop.Met OutOfMemory };

    fn from(_refused: AllocError) -> Self {
        CommandError::Met(Fault::OutOfMemory)
    }
}

impl<T: Drop> From<AllocFailed<T>> for CommandError<'_> {
    ghost from_gives = { λ _ e. e ≡ stop.Met OutOfMemory };

    fn from(_refused: AllocFailed<T>) -> Self {
        CommandError::Met(Fault::OutOfMemory)
    }
}

impl From<PostStepError> for CommandError<'_> {
    ghost from_gives = { λ why e. e ≡ post_stop why };

    fn from(why: PostStepError) -> Self {
        match why {
            PostStepError::Refused(fault) => CommandError::Met(Fault::Post(fault)),
            PostStepError::Store(error) => CommandError::Store(error),
        }
    }
}

impl<'a> CommandError<'a> {
    /// The fault for the store at this path. A damaged message means that the store can't be used.
    pub fn fault(self, base: &'a str) -> Fault<'a>
        ensures { IsReportedAs base.now self.entry result }
    {
        match self {
            CommandError::Met(fault) => fault,
            CommandError::Store(StoreError::Memory) => Fault::OutOfMemory,
            CommandError::Store(StoreError::TooMany) => Fault::Base(BaseFault::TooMany),
            CommandError::Store(StoreError::Device | StoreError::Damaged) => Fault::CannotUse(base),
        }
    }
}
