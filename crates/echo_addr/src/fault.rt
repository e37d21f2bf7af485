//! The faults of addresses, A1 to A4.

use std::fmt;
use thiserror::Error;

/// Why bytes are no address: the first of these that applies.
#[derive(Clone, Copy, Debug, PartialEq, Eq, Error)]
pub enum AddrFault {
    /// No byte.
    #[error("A1 Empty")]
    Empty,
    /// Not exactly one `:` and one `/`, the colon first.
    #[error("A2 Shape")]
    Shape,
    /// A part is empty or has a byte that is not a digit.
    #[error("A3 NotDigits")]
    NotDigits,
    /// Zone or net not 1 to 32,767, or node not 0 to 32,767.
    #[error("A4 OutOfRange")]
    OutOfRange,
}
