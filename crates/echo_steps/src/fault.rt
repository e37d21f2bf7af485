//! Why a packet was not tossed whole, C1 and C2.

use crate::step_error::{StoppedToss, TossStepError};
use crate::tally::Tally;
use echo_addr::Address;
use echo_packet::PacketFault;
use thiserror::Error;

/// Why the toss of a packet stopped.
#[derive(Clone, Copy, Debug, PartialEq, Eq, Error)]
pub enum TossCause {
    /// The packet is for this other system, and its messages were not read.
    #[error("C1 NotForUs {0}")]
    NotForUs(Address),
    /// A growth was refused.
    #[error("C2 Memory")]
    Memory,
    /// The packet is faulty, or the reader failed.
    #[error("{0}")]
    Packet(PacketFault),
}

impl From<PacketFault> for TossCause {
    ghost use Rattle.std.specs.Prelude.{◌≡◌};
    ghost use Rattle.echo_steps.specs.PacketSteps.{cause_of};

    ghost from_gives = { λ fault cause. cause ≡ cause_of fault };

    fn from(fault: PacketFault) -> TossCause {
        match fault {
            PacketFault::Memory => TossCause::Memory,
            other => TossCause::Packet(other),
        }
    }
}

/// A toss of a packet that stopped, and the outcomes of the messages before. These stay tossed.
#[derive(Clone, Copy, Debug, PartialEq, Eq, Error)]
#[error("{cause}")]
pub struct TossFault {
    pub tally: Tally,
    pub cause: TossCause,
}

impl From<StoppedToss> for TossFault {
    ghost use Rattle.std.specs.Prelude.{◌≡◌};
    ghost use Rattle.echo_steps.specs.PacketsIn.{cause_in};

    ghost from_gives = { λ stopped fault. fault ≡ record { tally = stopped.tally; cause = cause_in stopped.stop } };

    fn from(stopped: StoppedToss) -> TossFault {
        let cause = match stopped.stop {
            TossStepError::Packet(cause) => cause,
            TossStepError::Store(_) => TossCause::Memory,
        };
        TossFault {
            tally: stopped.tally,
            cause,
        }
    }
}
