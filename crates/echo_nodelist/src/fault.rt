//! The faults of a nodelist.

ghost use Rattle.std.specs.Prelude.{◌≡◌};
ghost use Rattle.echo_nodelist.specs.declared.fault.NodeFault.TheVariants.{Memory};

use std::alloc::{AllocError, AllocFailed};
use std::fmt;
use thiserror::Error;

/// Why a nodelist was not read or written. `line` is the number of the first faulty line, counted from 1. If it has
/// several faults, the first in this order is reported. `bytes` counts the bytes that were sent.
#[derive(Clone, Copy, Debug, PartialEq, Eq, Error)]
pub enum NodeFault {
    /// An entry of fewer than seven fields.
    #[error("N1 TooFewFields line {line}")]
    TooFewFields { line: usize },
    /// The first field is no keyword.
    #[error("N2 BadKeyword line {line}")]
    BadKeyword { line: usize },
    /// The second field is no number, or too great, or 0 for Zone, Region or Host.
    #[error("N3 BadNumber line {line}")]
    BadNumber { line: usize },
    /// An entry before any Zone line.
    #[error("N4 NoZone line {line}")]
    NoZone { line: usize },
    /// A growth was refused.
    #[error("N5 Memory")]
    Memory,
    /// The writer failed.
    #[error("N6 Write bytes {bytes}")]
    Write { bytes: u64 },
}

impl From<AllocError> for NodeFault {
    ghost from_gives = { λ _ fault. fault ≡ Memory };

    fn from(_refused: AllocError) -> NodeFault {
        NodeFault::Memory
    }
}

impl<T: Drop> From<AllocFailed<T>> for NodeFault {
    ghost from_gives = { λ _ fault. fault ≡ Memory };

    fn from(_refused: AllocFailed<T>) -> NodeFault {
        NodeFault::Memory
    }
}
