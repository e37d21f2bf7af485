//! The faults of a mail.

ghost use Rattle.std.specs.Prelude.{◌≡◌};
ghost use Rattle.echo_mail.specs.declared.fault.MailFault.TheVariants.{Memory};

use std::alloc::{AllocError, AllocFailed};
use std::fmt;
use thiserror::Error;

/// Why a mail was not read.
#[derive(Clone, Copy, Debug, PartialEq, Eq, Error)]
pub enum MailFault {
    /// A line of the header neither is a field nor continues one.
    #[error("bad header field")]
    BadField,
    /// The body has several parts.
    #[error("multipart")]
    Multipart,
    /// The body is not of type text/plain.
    #[error("not text/plain")]
    NotText,
    /// The program does not know the charset of the body.
    #[error("unknown charset")]
    UnknownCharset,
    /// The standard does not have the encoding of the body.
    #[error("unknown encoding")]
    UnknownEncoding,
    /// The body is no base64.
    #[error("bad base64")]
    BadBase64,
    /// A growth was refused.
    #[error("memory")]
    Memory,
}

impl From<AllocError> for MailFault {
    ghost from_gives = { λ _ fault. fault ≡ Memory };

    fn from(_refused: AllocError) -> MailFault {
        MailFault::Memory
    }
}

impl<T: Drop> From<AllocFailed<T>> for MailFault {
    ghost from_gives = { λ _ fault. fault ≡ Memory };

    fn from(_refused: AllocFailed<T>) -> MailFault {
        MailFault::Memory
    }
}
