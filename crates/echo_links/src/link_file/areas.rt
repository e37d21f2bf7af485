//! The areas of a link file, in its order.

ghost use Rattle.std.specs.Prelude.{◌≡◌, [], ◌∷◌, ◌++◌, None, length, slice_get, option_copied, option_map, is_some, find, bytes_eq, OnOk};

use super::links::Links;
use std::alloc::{AllocError, Global};
use std::collections::BTreeMap;
use std::marker::Model;

#[derive(Debug, Drop)]
struct Area {
    tag: Vec<u8>,
    links: Links,
}

impl Model for Area {
    ghost use Rattle.echo_links.specs.Links as model;

    ghost Value = { model.Area };

    ghost view = { λ a. record { tag = a.tag.items; links = a.links } };
}

/// An area is found by its tag without going through the others, whatever tags there are.
#[derive(Debug, Drop)]
pub(crate) struct Areas {
    all: Vec<Area>,
    numbers: BTreeMap<Vec<u8>, usize>,
}

impl Model for Areas {
    ghost use Rattle.std.specs.Prelude.{List};
    ghost use Rattle.echo_links.specs.Links as model;
    ghost use Rattle.echo_links.specs.Found.{LeadToAreas};

    ghost Value = { List model.Area };

    ghost view = { λ a. a.all.items };

    ghost invariant = { λ a. LeadToAreas (λ key. key.items) a.numbers.entries a.all.items };
}

impl Areas {
    pub(crate) fn new(alloc: Global) -> Areas
        ensures { result ≡ [] }
    {
        Areas {
            all: Vec::new(alloc),
            numbers: BTreeMap::new(alloc),
        }
    }

    pub(crate) fn len(&self) -> usize
        ensures { result ≡ length self.now }
    {
        self.all.len()
    }

    pub(crate) fn tag(&self, i: usize) -> Option<&[u8]>
        ensures { option_copied result ≡ option_map (λ area. area.tag) (slice_get self.now i) }
    {
        let area = self.all.get(i)?;
        Some(area.tag.as_slice())
    }

    pub(crate) fn links(&self, tag: &[u8]) -> Option<&Links>
        ensures { option_copied result ≡ option_map (λ area. area.links) (find (λ area. bytes_eq area.tag tag.now) self.now) }
    {
        let number = *self.numbers.get(tag)?;
        self.links_at(number)
    }

    fn links_at(&self, i: usize) -> Option<&Links>
        ensures { option_copied result ≡ option_map (λ area. area.links) (slice_get self.now i) }
    {
        let area = self.all.get(i)?;
        Some(&area.links)
    }

    pub(crate) fn has(&self, tag: &[u8]) -> bool
        ensures { result ≡ is_some (find (λ area. bytes_eq area.tag tag.now) self.now) }
    {
        self.numbers.contains_key(tag)
    }

    pub(crate) fn push(&mut self, tag: Vec<u8>, links: Links) -> Result<(), AllocError>
        requires { find (λ area. bytes_eq area.tag tag.items) self.old ≡ None }
        ensures { OnOk result (self.new ≡ self.old ++ record { tag = tag.items; links = links } ∷ []) }
    {
        let key = Vec::from_slice(*tag.allocator(), &tag)?;
        let number = self.all.len();
        self.all.push(Area { tag, links })?;
        match self.numbers.insert(key, number) {
            Ok(_) => Ok(()),
            Err(_) => {
                self.all.pop();
                Err(AllocError)
            }
        }
    }
}
