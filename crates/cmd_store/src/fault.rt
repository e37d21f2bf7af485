//! The faults of a mail that is posted.

ghost use Rattle.std.specs.Prelude.{◌≡◌};
ghost use Rattle.cmd_store.specs.{declared.fault.LetterFault.TheVariants.Memory, Fault.{letter_fault, letter_status}};

use cmd_status::Status;
use disk_io::Sink;
use echo_mail::MailFault;
use std::alloc::{AllocError, AllocFailed};
use std::io::Write;
use thiserror::Error;

/// Why a mail is not posted. The text is that of the line on standard error, after `echonet: `.
#[derive(Clone, Copy, Debug, PartialEq, Eq, Error)]
pub enum LetterFault {
    /// The mail cannot be read.
    #[error("bad message: {0}")]
    Mail(MailFault),
    /// Neither the mail nor a word names an area.
    #[error("bad message: no area")]
    NoArea,
    /// Nor to whom it is.
    #[error("bad message: no To")]
    NoTo,
    /// Nor from whom.
    #[error("bad message: no From")]
    NoFrom,
    /// Nor a subject.
    #[error("bad message: no Subject")]
    NoSubject,
    /// The charset lacks one of its characters.
    #[error("bad message: not in the charset")]
    NotInCharset,
    /// The charset is none that the program knows.
    #[error("bad charset")]
    BadCharset,
    /// A growth was refused.
    #[error("out of memory")]
    Memory,
}

impl From<MailFault> for LetterFault {
    ghost from_gives = { λ why fault. fault ≡ letter_fault why };

    fn from(why: MailFault) -> LetterFault {
        match why {
            MailFault::Memory => LetterFault::Memory,
            other => LetterFault::Mail(other),
        }
    }
}

impl From<AllocError> for LetterFault {
    ghost from_gives = { λ _ fault. fault ≡ Memory };

    fn from(_refused: AllocError) -> LetterFault {
        LetterFault::Memory
    }
}

impl<T: Drop> From<AllocFailed<T>> for LetterFault {
    ghost from_gives = { λ _ fault. fault ≡ Memory };

    fn from(_refused: AllocFailed<T>) -> LetterFault {
        LetterFault::Memory
    }
}

impl LetterFault {
    /// Writes the fault's line and returns its status, which also holds if the line can't be written.
    pub fn report<E: Sink>(self, errors: &mut E) -> Status
        ensures { result ≡ letter_status self }
    {
        let _ = writeln!(errors, "echonet: {self}");
        match self {
            LetterFault::Memory => Status::Device,
            _ => Status::Refused,
        }
    }
}
