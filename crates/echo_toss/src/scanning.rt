//! The call of a tosser that scans.

ghost use Rattle.echo_toss.specs.Steps.{ScanStep, listed};

use crate::tosser::Tosser;
use echo_steps::{ScanStepError, scan_step};
use model_steps::{Packet, ScanFault, Stamp};
use std::hash::BuildHasher;

impl<S: BuildHasher> Tosser<S> {
    /// Makes the packets of the waiting messages: one for each address that gets some of them, ascending, with its
    /// messages in order of filing. Then no message waits. `BadStamp` is found before any growth.
    pub fn scan(&mut self, stamp: Stamp) -> Result<Vec<Packet>, ScanFault>
        ensures { ScanStep self.old stamp (listed result) self.new }
    {
        match scan_step(self.alloc, &self.links, &mut self.store, stamp) {
            Ok(packets) => Ok(packets),
            Err(ScanStepError::BadStamp) => Err(ScanFault::BadStamp),
            // A base in memory fails only where a growth is refused.
            Err(ScanStepError::Store(_)) => Err(ScanFault::Memory),
        }
    }
}
