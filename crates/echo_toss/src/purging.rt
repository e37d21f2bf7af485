//! The call of a tosser that purges.

ghost use Rattle.echo_toss.specs.Steps.{PurgeStep};

use crate::tosser::Tosser;
use base_file::PurgeRange;
use base_store::PurgedStore;
use std::alloc::AllocError;
use std::hash::BuildHasher;

impl<S: BuildHasher> Tosser<S> {
    /// Reduces each scanned message with an id to that id, so that it stays known. Answers how many changed.
    pub fn purge(&mut self) -> Result<u64, AllocError>
        ensures { PurgeStep self.old result self.new }
    {
        match self.store.purge(&PurgeRange::whole()) {
            Ok(count) => Ok(count),
            // A base in memory fails only where a growth is refused.
            Err(_) => Err(AllocError),
        }
    }
}
