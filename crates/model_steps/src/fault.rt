//! The faults of postings, B1 to B7, and of scans, S1 and S2.

ghost use Rattle.std.specs.Prelude.{◌≡◌};
ghost use Rattle.model_steps.specs.declared.fault.PostFault.TheVariants as post;
ghost use Rattle.model_steps.specs.declared.fault.ScanFault.TheVariants as scan;

use std::alloc::{AllocError, AllocFailed};
use thiserror::Error;

/// Why a draft was not posted: the first of these that applies. `Memory` can replace `KnownSerial`.
#[derive(Clone, Copy, Debug, PartialEq, Eq, Error)]
pub enum PostFault {
    /// The link file has no area of the tag in upper case.
    #[error("B1 NoArea")]
    NoArea,
    /// A field of the draft holds 00.
    #[error("B2 ByteZero")]
    ByteZero,
    /// A name has over 35 bytes, or the subject over 71.
    #[error("B3 FieldTooLong")]
    FieldTooLong,
    /// A part of the stamp is out of its range.
    #[error("B5 BadStamp")]
    BadStamp,
    /// The reply is not empty, and no id that a REPLY line may name (FTS-0009).
    #[error("B6 BadReply")]
    BadReply,
    /// A message of the base, in any area, has the MSGID that this one would get.
    #[error("B4 KnownSerial")]
    KnownSerial,
    /// A growth was refused.
    #[error("B7 Memory")]
    Memory,
}

impl From<AllocError> for PostFault {
    ghost from_gives = { λ _ fault. fault ≡ post.Memory };

    fn from(_refused: AllocError) -> PostFault {
        PostFault::Memory
    }
}

impl<T: Drop> From<AllocFailed<T>> for PostFault {
    ghost from_gives = { λ _ fault. fault ≡ post.Memory };

    fn from(_refused: AllocFailed<T>) -> PostFault {
        PostFault::Memory
    }
}

/// Why nothing was scanned.
#[derive(Clone, Copy, Debug, PartialEq, Eq, Error)]
pub enum ScanFault {
    /// A part of the stamp is out of its range.
    #[error("S1 BadStamp")]
    BadStamp,
    /// A growth was refused.
    #[error("S2 Memory")]
    Memory,
}

impl From<AllocError> for ScanFault {
    ghost from_gives = { λ _ fault. fault ≡ scan.Memory };

    fn from(_refused: AllocError) -> ScanFault {
        ScanFault::Memory
    }
}

impl<T: Drop> From<AllocFailed<T>> for ScanFault {
    ghost from_gives = { λ _ fault. fault ≡ scan.Memory };

    fn from(_refused: AllocFailed<T>) -> ScanFault {
        ScanFault::Memory
    }
}
