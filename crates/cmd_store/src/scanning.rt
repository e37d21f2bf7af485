//! The lines that a scan prints.

ghost use Rattle.std.specs.{Prelude.{◌≡◌, Ok}, List.flat_map};
ghost use Rattle.{cmd_status.specs.Devices.output_of, cmd_store.specs.PacketLines.counted_line};
ghost use Rattle.cmd_store.specs.{Answered.{AnswersOn, AreLines, RefusesNone}, Stops.store_answer};

use crate::command_error::CommandError;
use crate::packet_lines::push_counted;
use cmd_status::print_rest;
use disk_io::Sink;
use echo_steps::CountedPacket;
use std::alloc::Global;

/// Prints a line for each counted packet.
#[tactic(auto, using(std::proofs::lemmas::Result::err_from_is_err_and, cmd_status::proofs::Lines::alone))]
pub fn print_counted<'a, W: Sink>(
    alloc: Global,
    packets: &[CountedPacket],
    out: &mut W,
) -> Result<(), CommandError<'a>>
    ensures answers { AnswersOn (AreLines (flat_map counted_line packets.now)) RefusesNone (output_of W.contents W.failures W.holds out.old) (output_of W.contents W.failures W.holds out.new) result }
    ensures met { store_answer result ≡ Ok tt }
{
    let mut lines = Vec::new(alloc);
    push_counted(&mut lines, packets)?;
    print_rest(&mut lines, out)?;
    Ok(())
}
