//! The faults of echomail texts.

ghost use Rattle.std.specs.Prelude.{◌≡◌};
ghost use Rattle.echo_text.specs.declared.fault.TextFault.TheVariants.{Memory};

use std::alloc::{AllocError, AllocFailed};
use std::fmt;
use thiserror::Error;

/// Why bytes are no echo text, or no message id: the first of these that applies.
#[derive(Clone, Copy, Debug, PartialEq, Eq, Error)]
pub enum TextFault {
    /// The first line is no AREA line.
    #[error("X1 NotEcho")]
    NotEcho,
    /// The tag of the AREA line is not 1 to 60 bytes from `!` to `~`.
    #[error("X2 BadTag")]
    BadTag,
    /// A growth was refused.
    #[error("X3 Memory")]
    Memory,
    /// Not the form of a MSGID (FTS-0009).
    #[error("X4 BadMsgId")]
    BadMsgId,
}

impl From<AllocError> for TextFault {
    ghost from_gives = { λ _ fault. fault ≡ Memory };

    fn from(_refused: AllocError) -> TextFault {
        TextFault::Memory
    }
}

impl<T: Drop> From<AllocFailed<T>> for TextFault {
    ghost from_gives = { λ _ fault. fault ≡ Memory };

    fn from(_refused: AllocFailed<T>) -> TextFault {
        TextFault::Memory
    }
}
