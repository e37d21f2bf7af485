//! The faults of a link file, L1 to L9.

ghost use Rattle.std.specs.Prelude.{◌≡◌};
ghost use Rattle.echo_links.specs.declared.fault.LinkFault.TheVariants as link;

use std::alloc::{AllocError, AllocFailed};
use thiserror::Error;

/// Why bytes are no link file: of the first faulty line, counted from 1, the first that applies; after
/// all lines `NoSystem`, with line 0.
#[derive(Clone, Copy, Debug, PartialEq, Eq, Error)]
pub enum LinkFault {
    /// The first word is neither SYSTEM, NAME nor AREA, or a byte is below 20 and not 09.
    #[error("L1 UnknownWord line {line}")]
    UnknownWord { line: u64 },
    /// The one address of SYSTEM or a link of AREA is missing, bad or followed by a word.
    #[error("L2 BadAddress line {line}")]
    BadAddress { line: u64 },
    /// No line has the own address.
    #[error("L3 NoSystem line {line}")]
    NoSystem { line: u64 },
    /// A second SYSTEM or NAME line.
    #[error("L4 RepeatedSystem line {line}")]
    RepeatedSystem { line: u64 },
    /// The tag of an earlier AREA line.
    #[error("L5 RepeatedArea line {line}")]
    RepeatedArea { line: u64 },
    /// The same link a second time in the line.
    #[error("L6 RepeatedLink line {line}")]
    RepeatedLink { line: u64 },
    /// The tag is missing, or not 1 to 60 bytes from `!` to `~`.
    #[error("L7 BadTag line {line}")]
    BadTag { line: u64 },
    /// The name has over 40 bytes.
    #[error("L8 NameTooLong line {line}")]
    NameTooLong { line: u64 },
    /// A growth was refused.
    #[error("L9 Memory")]
    Memory,
}

impl From<AllocError> for LinkFault {
    ghost from_gives = { λ _ fault. fault ≡ link.Memory };

    fn from(_refused: AllocError) -> LinkFault {
        LinkFault::Memory
    }
}

impl<T: Drop> From<AllocFailed<T>> for LinkFault {
    ghost from_gives = { λ _ fault. fault ≡ link.Memory };

    fn from(_refused: AllocFailed<T>) -> LinkFault {
        LinkFault::Memory
    }
}
