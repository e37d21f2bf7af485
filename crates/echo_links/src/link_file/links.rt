//! The links of an area.

ghost use Rattle.std.specs.{Prelude.◌≡◌, List.list_any};
ghost use Rattle.echo_links.specs.Links.{same_address};

use echo_addr::Address;
use std::collections::BTreeSet;
use std::marker::Model;

/// A look-up does not go through the others, whatever addresses there are.
#[derive(Debug, Drop)]
pub(crate) struct Links {
    pub(super) all: Vec<Address>,
    // These links in ascending order.
    pub(super) sorted: BTreeSet<Address>,
}

impl Model for Links {
    ghost use Rattle.std.specs.Prelude.{List};
    ghost use Rattle.echo_addr.specs.declared.address.Address.{Address};
    ghost use Rattle.echo_links.specs.Found.{HaveTheSame};

    ghost Value = { List Address };

    ghost view = { λ l. l.all.items };

    ghost invariant = { λ l. HaveTheSame l.sorted.keys l.all.items };
}

impl Links {
    pub(crate) fn as_slice(&self) -> &[Address]
        ensures { result.now ≡ self.now }
    {
        self.all.as_slice()
    }

    pub(crate) fn contains(&self, address: Address) -> bool
        ensures { result ≡ list_any (same_address address) self.now }
    {
        self.sorted.contains(&address)
    }
}
