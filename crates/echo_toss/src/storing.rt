//! The calls of a tosser that save and load its base.

ghost use Rattle.std.specs.Prelude.{◌≡◌, IfErr, IfOk, IfSome, Result};
ghost use Rattle.echo_packet.specs.Header.{AreBytes};
ghost use Rattle.base_file.specs.{declared.fault.BaseFault.BaseFault as Fault, Base.IsBase, BaseFile.LoadOf, BaseFile.Loaded, BaseFile.is_countable, BaseFile.saved_bytes};
ghost use Rattle.base_file.specs.{Loading.AnswersLoad, Loading.CountsLoad, Loading.FailsToLoad, Loading.TakesBase, Saving.CountsSaved, Saving.Saves, Saving.ReportsTooMany};
ghost use Rattle.echo_toss.specs.Loaded.{base_in};

use crate::tosser::Tosser;
use base_file::{Base, BaseFault};
use base_store::MemoryStore;
use disk_io::{Sink, Source};
use echo_links::LinkFile;
use std::alloc::Global;
use std::hash::BuildHasher;

impl<S: BuildHasher> Tosser<S> {
    /// Writes the base; the owner of the writer flushes it. Faults: `TooMany` if there are more than 2^32 - 1
    /// messages, or bytes of a text or an id; `Write` with the number of bytes that were sent.
    pub fn save<W: Sink>(&self, writer: &mut W) -> Result<(), BaseFault>
        ensures base { IsBase self.now.base self.now.cursor }
        ensures bytes { Saves (W.contents writer.old) (W.contents writer.new) result (saved_bytes self.now.base self.now.cursor) }
        ensures device { CountsSaved result (W.failures writer.old) (W.failures writer.new) }
        ensures too_many { ReportsTooMany (is_countable self.now.base self.now.cursor) result }
    {
        self.store.base().save(writer)
    }

    /// The system of the link file with the base at the front of the reader. No byte after it is read.
    pub fn load<R: Source>(
        alloc: Global,
        links: LinkFile,
        reader: &mut R,
        hasher: S,
    ) -> Result<Tosser<S>, BaseFault>
    where
        S: Drop,
        ensures links { IfOk result (λ system. system.file ≡ links) }
        ensures taken { IfOk result (λ system. TakesBase system.base system.cursor (R.remaining reader.old) (R.remaining reader.new)) }
        ensures fault { IfErr result (FailsToLoad (R.remaining reader.old) (R.remaining reader.new)) }
        ensures only { (other : Result Loaded Fault) → IfSome (R.remaining reader.old) (λ bytes. AreBytes bytes → LoadOf bytes other → AnswersLoad (base_in result) other) }
        ensures device { CountsLoad result (R.failures reader.old) (R.failures reader.new) }
    {
        let base = Base::load(alloc, reader, hasher)?;
        Ok(Tosser {
            alloc,
            links,
            store: MemoryStore::new(base),
        })
    }
}
