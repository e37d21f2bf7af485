//! Why a step on a store stopped.

ghost use Rattle.std.specs.Prelude.{◌≡◌};
ghost use Rattle.base_store.specs.declared.store_error.StoreError.TheVariants as error;

use crate::fault::TossCause;
use crate::tally::Tally;
use base_store::StoreError;
use echo_packet::PacketFault;
use model_steps::PostFault;
use std::alloc::AllocError;

/// Why a draft was not posted.
#[derive(Clone, Copy)]
pub enum PostStepError {
    /// The draft is refused, perhaps because of a filed message.
    Refused(PostFault),
    /// The store failed.
    Store(StoreError),
}

impl From<PostFault> for PostStepError {
    ghost use Rattle.echo_steps.specs.declared.step_error.PostStepError.TheVariants as post;

    ghost from_gives = { λ refusal stop. stop ≡ post.Refused refusal };

    fn from(refusal: PostFault) -> PostStepError {
        PostStepError::Refused(refusal)
    }
}

impl From<StoreError> for PostStepError {
    ghost use Rattle.echo_steps.specs.declared.step_error.PostStepError.TheVariants as post;

    ghost from_gives = { λ cause stop. stop ≡ post.Store cause };

    fn from(cause: StoreError) -> PostStepError {
        PostStepError::Store(cause)
    }
}

impl From<AllocError> for PostStepError {
    ghost use Rattle.echo_steps.specs.declared.step_error.PostStepError.TheVariants as post;

    ghost from_gives = { λ _ stop. stop ≡ post.Store error.Memory };

    fn from(_refused: AllocError) -> PostStepError {
        PostStepError::Store(StoreError::Memory)
    }
}

/// Why nothing was scanned.
#[derive(Clone, Copy)]
pub enum ScanStepError {
    /// A part of the stamp is out of its range.
    BadStamp,
    /// The store failed.
    Store(StoreError),
}

impl From<StoreError> for ScanStepError {
    ghost use Rattle.echo_steps.specs.declared.step_error.ScanStepError.TheVariants as scan;

    ghost from_gives = { λ cause stop. stop ≡ scan.Store cause };

    fn from(cause: StoreError) -> ScanStepError {
        ScanStepError::Store(cause)
    }
}

/// Why the toss of a packet into a store stopped.
#[derive(Clone, Copy)]
pub enum TossStepError {
    /// The packet stopped it: it is for another system, it is faulty, or memory to read it was refused.
    Packet(TossCause),
    /// The store failed, or memory for the current message was refused.
    Store(StoreError),
}

impl From<PacketFault> for TossStepError {
    ghost use Rattle.echo_steps.specs.PacketSteps.{cause_of};
    ghost use Rattle.echo_steps.specs.declared.step_error.TossStepError.TheVariants as toss;

    ghost from_gives = { λ fault stop. stop ≡ toss.Packet (cause_of fault) };

    fn from(fault: PacketFault) -> TossStepError {
        TossStepError::Packet(TossCause::from(fault))
    }
}

impl From<StoreError> for TossStepError {
    ghost use Rattle.echo_steps.specs.declared.step_error.TossStepError.TheVariants as toss;

    ghost from_gives = { λ cause stop. stop ≡ toss.Store cause };

    fn from(cause: StoreError) -> TossStepError {
        TossStepError::Store(cause)
    }
}

/// A toss of a packet into a store that stopped, and the outcomes of the messages before.
#[derive(Clone, Copy)]
pub struct StoppedToss {
    pub tally: Tally,
    pub stop: TossStepError,
}
