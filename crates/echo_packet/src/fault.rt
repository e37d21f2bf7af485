//! The faults of packets, P1 to P10.

use std::alloc::{AllocError, AllocFailed};
use thiserror::Error;

/// A field of a packed message that `Packed` refuses.
#[derive(Clone, Copy, Debug, PartialEq, Eq)]
pub enum Field {
    ToName,
    FromName,
    Subject,
    Text,
}

/// Why a packet was not read or written. `at` is the place of the faulty field in bytes from the
/// start of the packet; `bytes` counts bytes that were sent.
#[derive(Clone, Copy, Debug, PartialEq, Eq, Error)]
pub enum PacketFault {
    /// The input ends inside the field, or where a message or 00 00 should begin.
    #[error("P1 Truncated at {at}")]
    Truncated { at: u64 },
    /// The packet type is not 2. The place is 18.
    #[error("P2 NotType2 at {at}")]
    NotType2 { at: u64 },
    /// A message begins with a number other than 2 and 0.
    #[error("P3 NotMessage at {at}")]
    NotMessage { at: u64 },
    /// 36 bytes of a name, or 72 of a subject, without 00.
    #[error("P4 FieldTooLong at {at}")]
    FieldTooLong { at: u64 },
    /// More bytes than the caller's limit before the 00 of a text.
    #[error("P5 TextTooLong at {at}")]
    TextTooLong { at: u64 },
    /// The reader failed while it read the field.
    #[error("P6 Read at {at}")]
    Read { at: u64 },
    /// A growth was refused.
    #[error("P7 Memory")]
    Memory,
    /// An earlier call of this reader or writer answered an error.
    #[error("P8 Stopped")]
    Stopped,
    /// The writer failed.
    #[error("P9 Write bytes {bytes}")]
    Write { bytes: u64 },
    /// A message begins after as many as the caller allows.
    #[error("P10 TooManyMessages at {at}")]
    TooManyMessages { at: u64 },
    /// This field is the first that holds 00 or is too long.
    #[error("P11 BadField")]
    BadField(Field),
}

impl From<AllocError> for PacketFault {
    ghost use Rattle.std.specs.Prelude.{◌≡◌};
    ghost use Rattle.echo_packet.specs.declared.fault.PacketFault.TheVariants as fault;

    ghost from_gives = { λ _ e. e ≡ fault.Memory };

    fn from(_error: AllocError) -> PacketFault {
        PacketFault::Memory
    }
}

impl<T: Drop> From<AllocFailed<T>> for PacketFault {
    ghost use Rattle.std.specs.Prelude.{◌≡◌};
    ghost use Rattle.echo_packet.specs.declared.fault.PacketFault.TheVariants as fault;

    ghost from_gives = { λ _ e. e ≡ fault.Memory };

    fn from(_failed: AllocFailed<T>) -> PacketFault {
        PacketFault::Memory
    }
}
