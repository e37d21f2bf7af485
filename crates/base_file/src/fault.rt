//! The faults of a base file, F1 to F7.

ghost use Rattle.std.specs.Prelude.{◌≡◌};
ghost use Rattle.base_file.specs.declared.fault.BaseFault.TheVariants as base;

use std::alloc::{AllocError, AllocFailed};
use thiserror::Error;

/// Why a base was not saved or loaded. Messages are counted from 0; `bytes` counts bytes that were
/// sent.
#[derive(Clone, Copy, Debug, PartialEq, Eq, Error)]
pub enum BaseFault {
    /// The first eight bytes are no beginning of a base, or the cursor is past the number of messages.
    #[error("F1 NotBase")]
    NotBase,
    /// The input ends after this many whole messages.
    #[error("F2 Truncated record {messages}")]
    Truncated { messages: u64 },
    /// No base has a message like the one of this number.
    #[error("F3 Damaged record {message}")]
    Damaged { message: u64 },
    /// The reader failed.
    #[error("F4 Read")]
    Read,
    /// The writer failed.
    #[error("F5 Write bytes {bytes}")]
    Write { bytes: u64 },
    /// A growth was refused.
    #[error("F6 Memory")]
    Memory,
    /// More messages, or more bytes of a text or of an id, than four bytes count.
    #[error("F7 TooMany")]
    TooMany,
}

impl From<AllocError> for BaseFault {
    ghost from_gives = { λ _ fault. fault ≡ base.Memory };

    fn from(_refused: AllocError) -> BaseFault {
        BaseFault::Memory
    }
}

impl<T: Drop> From<AllocFailed<T>> for BaseFault {
    ghost from_gives = { λ _ fault. fault ≡ base.Memory };

    fn from(_refused: AllocFailed<T>) -> BaseFault {
        BaseFault::Memory
    }
}
