//! The statuses with which the program ends.

ghost use Rattle.std.specs.Prelude.{◌≡◌, IfOk};
ghost use Rattle.cmd_status.specs.{Devices.output_of, Ended.status_at};

use crate::fault::Fault;
use disk_io::Sink;

/// How a command ended, and the status with which the program exits.
#[derive(Clone, Copy, Debug, PartialEq, Eq)]
pub enum Status {
    /// 0.
    Good,
    /// 1: a verdict No, or a checksum other than the stated one.
    Differs,
    /// 2: an input was refused.
    Refused,
    /// 3: a device failed, or memory was out.
    Device,
    /// 4: the command line was refused.
    CommandLine,
}

impl Status {
    ghost use Rattle.cmd_status.specs.Status.{code_of};

    /// The number with which the process exits.
    pub fn code(self) -> u8
        ensures { result ≡ code_of self }
    {
        match self {
            Status::Good => 0,
            Status::Differs => 1,
            Status::Refused => 2,
            Status::Device => 3,
            Status::CommandLine => 4,
        }
    }
}

/// The status of a command's answer. A fault is reported to `errors`; without one nothing is written there.
pub fn ended<E: Sink>(answer: Result<Status, Fault<'_>>, errors: &mut E) -> Status
    ensures status { result ≡ status_at answer.entry }
    ensures quiet { IfOk answer.entry (λ _. output_of E.contents E.failures E.holds errors.new ≡ output_of E.contents E.failures E.holds errors.old) }
{
    match answer {
        Ok(status) => status,
        Err(fault) => fault.report(errors),
    }
}
