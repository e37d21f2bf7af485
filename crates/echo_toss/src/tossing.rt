//! The calls of a tosser that take received messages.

ghost use Rattle.echo_steps.specs.PacketSteps.{CountsToss, PacketStep};
ghost use Rattle.echo_toss.specs.Steps.{TossStep};

use crate::tosser::Tosser;
use disk_io::Source;
use echo_addr::Address;
use echo_packet::{Limits, Packed};
use echo_steps::{Tally, TossFault, toss_packet, toss_step};
use model_steps::Outcome;
use std::alloc::AllocError;
use std::hash::BuildHasher;

impl<S: BuildHasher> Tosser<S> {
    /// Files a received message, or answers the first outcome that applies.
    pub fn toss_message(&mut self, sender: Address, packed: &Packed) -> Result<Outcome, AllocError>
        ensures { TossStep self.old sender packed.now result self.new }
    {
        match toss_step(self.alloc, &self.links, &mut self.store, sender, packed) {
            Ok(outcome) => Ok(outcome),
            // A base in memory fails only where a growth is refused.
            Err(_) => Err(AllocError),
        }
    }

    /// Tosses the messages of the packet at the front of the reader, in order. Their sender is the origin in the
    /// packet's header, where a zone 0 means the own zone. `NotForUs`: the destination is not the own address. Messages
    /// before a fault stay tossed and counted. A message that was refused memory is not counted.
    pub fn toss<R: Source>(&mut self, reader: &mut R, limits: Limits) -> Result<Tally, TossFault>
        ensures tossed { PacketStep limits self.old (R.remaining reader.old) (R.remaining reader.new) result self.new }
        ensures device { CountsToss result (R.failures reader.old) (R.failures reader.new) }
    {
        match toss_packet(self.alloc, &self.links, &mut self.store, reader, limits) {
            Ok(tally) => Ok(tally),
            Err(stopped) => Err(TossFault::from(stopped)),
        }
    }
}
