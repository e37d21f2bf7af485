//! A tosser, and the calls that look at it.

ghost use Rattle.std.specs.Prelude.{◌≡◌, ◌-◌, length, slice_get, option_copied};
ghost use Rattle.base_file.specs.Base.{IsBase};
ghost use Rattle.model_steps.specs.SystemState.{state_at_first};

use base_file::Base;
use base_store::MemoryStore;
use echo_filed::Filed;
use echo_links::LinkFile;
use std::alloc::Global;
use std::hash::BuildHasher;
use std::marker::Model;

/// A system that posts, tosses, scans and purges: its link file and its base. The base has its messages in
/// order of filing; those before the cursor were scanned. `S` hashes keys for look-ups.
#[derive(Drop)]
pub struct Tosser<S: BuildHasher> {
    pub(crate) alloc: Global,
    pub(crate) links: LinkFile,
    pub(crate) store: MemoryStore<S>,
}

impl<S: BuildHasher> Model for Tosser<S> {
    ghost use Rattle.model_steps.specs.SystemState.{SystemState};

    ghost Value = { SystemState };

    ghost view = { λ t. record { file = t.links; base = t.store.base.messages; cursor = t.store.base.cursor } };
}

impl<S: BuildHasher> Tosser<S> {
    /// A system that has filed nothing. Takes no memory.
    pub fn new(alloc: Global, links: LinkFile, hasher: S) -> Tosser<S>
        ensures { result ≡ state_at_first links }
    {
        Tosser {
            alloc,
            links,
            store: MemoryStore::new(Base::new(alloc, hasher)),
        }
    }

    /// The link file.
    pub fn links(&self) -> &LinkFile
        ensures { result.now ≡ self.now.file }
    {
        &self.links
    }

    /// How many messages the base has.
    pub fn filed(&self) -> usize
        ensures count { result ≡ length self.now.base }
        ensures base { IsBase self.now.base self.now.cursor }
    {
        self.store.base().len()
    }

    /// The number of messages that were not scanned yet.
    pub fn waiting(&self) -> usize
        ensures { result ≡ length self.now.base - self.now.cursor }
    {
        let base = self.store.base();
        base.len() - base.cursor()
    }

    /// The message of this number, counted from 0 in order of filing.
    pub fn message(&self, i: usize) -> Option<&Filed>
        ensures { option_copied result ≡ slice_get self.now.base i }
    {
        self.store.base().message(i)
    }
}
