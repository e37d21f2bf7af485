//! The net that a plan is for.

use echo_addr::Address;
use echo_links::LinkFile;
use echo_net::Receivers;
use std::alloc::{AllocError, Global};

#[derive(Clone, Copy)]
pub(crate) struct PlanArea<'a> {
    pub(crate) alloc: Global,
    pub(crate) files: &'a [LinkFile],
    pub(crate) tag: &'a [u8],
    pub(crate) receivers: &'a Receivers,
}

impl<'a> PlanArea<'a> {
    pub(crate) fn found(self, systems: &[Address]) -> Result<Vec<usize>, AllocError> {
        let mut all = Vec::new(self.alloc);
        for address in systems {
            if let Some(i) = self.receivers.of(*address) {
                all.push(i)?;
            }
        }
        Ok(all)
    }

    pub(crate) fn links_of(self, system: usize) -> &'a [Address] {
        match self.files.get(system) {
            Some(file) => match file.links(self.tag) {
                Some(links) => links,
                None => &[],
            },
            None => &[],
        }
    }

    pub(crate) fn carries(self, system: usize) -> bool {
        match self.files.get(system) {
            Some(file) => file.has_area(self.tag),
            None => false,
        }
    }

    pub(crate) fn address(self, system: usize) -> Option<Address> {
        Some(self.files.get(system)?.system())
    }
}
