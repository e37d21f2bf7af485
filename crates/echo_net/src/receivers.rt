//! The systems of a net by their addresses.

ghost use Rattle.std.specs.Prelude.{◌≡◌, ◌++◌, ◌∷◌, [], List, IfOk, OnOk, map, length};
ghost use Rattle.echo_addr.specs.declared.address.Address.{Address};
ghost use Rattle.echo_links.specs.Links.{same_address};
ghost use Rattle.echo_net.specs.Worlds.{IsFirst, LeadsToFirst};

use echo_addr::Address;
use echo_links::LinkFile;
use indexmap::IndexMap;
use std::alloc::{AllocError, Global};
use std::hash::{BuildHasher, RandomState};

/// The index of the first system of each address. `S` hashes addresses.
#[derive(Drop)]
pub struct Receivers<S: BuildHasher = RandomState> {
    first: IndexMap<Address, usize, S>,
}

impl<S: BuildHasher> Receivers<S> {
    /// The systems of these files, found by the hasher.
    pub fn new(alloc: Global, files: &[LinkFile], hasher: S) -> Result<Receivers<S>, AllocError>
    where
        S: Drop,
        ensures { IfOk result (λ r. LeadsToFirst r.first.entries (map (λ f. f.system) files.now)) }
    {
        let mut first = IndexMap::with_hasher(alloc, hasher);
        for (i, file) in files.iter().enumerate() {
            note_system(&mut first, file.system(), i)?;
        }
        Ok(Receivers { first })
    }

    /// The first system of the address.
    pub fn of(&self, to: Address) -> Option<usize>
        ensures { (systems : List Address) → LeadsToFirst self.now.first.entries systems → IsFirst result (λ b. same_address b to) systems }
    {
        self.first.get(&to).copied()
    }
}

fn note_system<S: BuildHasher>(
    first: &mut IndexMap<Address, usize, S>,
    system: Address,
    i: usize,
) -> Result<(), AllocError>
    ensures { OnOk result ((earlier : List Address) → length earlier ≡ i → LeadsToFirst first.old.entries earlier → LeadsToFirst first.new.entries (earlier ++ system ∷ [])) }
{
    if first.contains_key(&system) {
        return Ok(());
    }
    first.insert(system, i)?;
    Ok(())
}
