//! Why a packet was not tossed whole, as it is reported.

ghost use Rattle.std.specs.Prelude.{◌≡◌};
ghost use Rattle.cmd_store.specs.TossedPacket.{fault_of};

use cmd_status::Fault;
use echo_steps::TossCause;

/// Why a packet was not tossed whole, as it is reported.
pub fn toss_fault<'a>(cause: TossCause) -> Fault<'a>
    ensures { result ≡ fault_of cause }
{
    match cause {
        TossCause::NotForUs(address) => Fault::NotForUs(address),
        TossCause::Memory => Fault::TossMemory,
        TossCause::Packet(fault) => Fault::Packet(fault),
    }
}
