//! Why a packet of a repair was not made.

use cmd_status::Fault;
use disk_io::Failure;
use std::alloc::AllocError;

/// Why a packet was not sent: a message was not read, there was no memory, or the device that takes the packet failed.
#[derive(Debug, Drop)]
pub enum SendFault<'a> {
    Messages(Fault<'a>),
    Device,
}

impl<'a> From<Fault<'a>> for SendFault<'a> {
    ghost use Rattle.std.specs.Prelude.{◌≡◌};
    ghost use Rattle.cmd_repair.specs.declared.send_fault.SendFault.TheVariants as unsent;

    ghost from_gives = { λ fault e. e ≡ unsent.Messages fault };

    fn from(fault: Fault<'a>) -> SendFault<'a> {
        SendFault::Messages(fault)
    }
}

impl<'a> From<AllocError> for SendFault<'a> {
    ghost use Rattle.std.specs.Prelude.{◌≡◌};
    ghost use Rattle.cmd_status.specs.declared.fault.Fault.TheVariants as fault;
    ghost use Rattle.cmd_repair.specs.declared.send_fault.SendFault.TheVariants as unsent;

    ghost from_gives = { λ _ e. e ≡ unsent.Messages fault.OutOfMemory };

    fn from(_refused: AllocError) -> SendFault<'a> {
        SendFault::Messages(Fault::OutOfMemory)
    }
}

impl<'a> From<Failure> for SendFault<'a> {
    ghost use Rattle.std.specs.Prelude.{◌≡◌};
    ghost use Rattle.cmd_repair.specs.declared.send_fault.SendFault.TheVariants as unsent;

    ghost from_gives = { λ _ e. e ≡ unsent.Device };

    fn from(_failure: Failure) -> SendFault<'a> {
        SendFault::Device
    }
}
