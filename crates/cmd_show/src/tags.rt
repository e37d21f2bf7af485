//! The tags of the lines so far.

ghost use Rattle.std.specs.{Prelude.{◌≡◌, [], OnOk, bytes_eq}, List.list_any};
ghost use Rattle.cmd_show.specs.Before.{HasTagAdded};

use std::alloc::{AllocError, Global};
use std::collections::BTreeSet;
use std::marker::Model;

/// Tags. A look-up does not go through the others.
#[derive(Drop)]
pub(crate) struct Tags {
    sorted: BTreeSet<Vec<u8>>,
}

impl Model for Tags {
    ghost use Rattle.std.specs.Prelude.{ℕ, List, map};

    ghost Value = { List (List ℕ) };

    ghost view = { λ t. map (λ tag. tag.items) t.sorted.keys };
}

impl Tags {
    pub(crate) fn new(alloc: Global) -> Tags
        ensures { result ≡ [] }
    {
        Tags {
            sorted: BTreeSet::new(alloc),
        }
    }

    pub(crate) fn has(&self, tag: &[u8]) -> bool
        ensures { result ≡ list_any (bytes_eq tag.now) self.now }
    {
        self.sorted.contains(tag)
    }

    pub(crate) fn add(&mut self, tag: Vec<u8>) -> Result<(), AllocError>
        ensures { OnOk result (HasTagAdded self.old tag.items self.new) }
    {
        self.sorted.insert(tag)?;
        Ok(())
    }
}
