//! The tags that a base has messages of, each once, in order of coming.

ghost use Rattle.std.specs.Prelude.{◌≡◌, List, ℕ, [], true, map, bytes_eq, OnOk};
ghost use Rattle.std.specs.List.{list_any};

use std::alloc::{AllocError, Global};
use std::collections::BTreeSet;
use std::marker::Model;

/// Tags, each once. A look-up does not go through the others, whatever tags there are.
#[derive(Drop)]
pub(crate) struct Tags {
    all: Vec<Vec<u8>>,
    sorted: BTreeSet<Vec<u8>>,
}

impl Model for Tags {
    ghost use Rattle.std.specs.Prelude.{List, ℕ, map};
    ghost use Rattle.base_file.specs.Entries.{AreAmong};

    ghost Value = { List (List ℕ) };

    ghost view = { λ t. map (λ tag. tag.items) t.all.items };

    ghost invariant = { λ t. AreAmong (λ tag. tag.items) t.sorted.keys t.all.items };
}

impl Tags {
    pub(crate) fn new(alloc: Global) -> Tags
        ensures { result ≡ [] }
    {
        Tags {
            all: Vec::new(alloc),
            sorted: BTreeSet::new(alloc),
        }
    }

    /// The tags in order of coming.
    pub(crate) fn as_slice(&self) -> &[Vec<u8>]
        ensures { map (λ tag. tag.items) result.now ≡ self.now }
    {
        self.all.as_slice()
    }

    pub(crate) fn note(&mut self, alloc: Global, tag: &[u8]) -> Result<(), AllocError>
        ensures found { OnOk result (list_any (bytes_eq tag.now) self.new ≡ true) }
        ensures kept { (other : List ℕ) → list_any (bytes_eq other) self.old ≡ true → list_any (bytes_eq other) self.new ≡ true }
    {
        if self.sorted.contains(tag) {
            return Ok(());
        }
        self.all.push(Vec::from_slice(alloc, tag)?)?;
        self.sorted.insert(Vec::from_slice(alloc, tag)?)?;
        Ok(())
    }
}
