//! The lines of a link file, read one after another.

ghost use Rattle.std.specs.Prelude.{◌≡◌, ◌⊎◌, ◌++◌, ◌∷◌, [], List, ℕ, Some, None, is_some, map, MatchResult};
ghost use Rattle.echo_addr.specs.{Address.address_in, Entries.tokens};
ghost use Rattle.echo_text.specs.Lines.{trimmed};
ghost use Rattle.echo_links.specs.declared.fault.LinkFault.TheVariants as link;
ghost use Rattle.echo_links.specs.LinkReading.{Knows, ReadsLinkFile, TakesLine, area_refusal, name_refusal, system_refusal};
ghost use Rattle.echo_links.specs.{Links.upper, LinkLines.after_first_of, LinkLines.first_of};

use super::addresses::{links_in, system_in};
use super::areas::Areas;
use super::lines::{has_control_byte, is_skipped, split_line};
use crate::fault::LinkFault;
use echo_addr::{Address, Items, next_token};
use echo_text::{is_tag, trimmed};
use std::alloc::Global;

const SYSTEM: &[u8] = b"SYSTEM";

const NAME: &[u8] = b"NAME";

const AREA: &[u8] = b"AREA";

/// The most bytes of a name.
const MOST: usize = 40;

#[derive(Drop)]
pub(super) struct LinkFileParts {
    pub(super) system: Option<Address>,
    pub(super) name: Option<Items<u8>>,
    pub(super) areas: Areas,
}

impl LinkFileParts {
    fn take(&mut self, alloc: Global, number: u64, line: &[u8]) -> Result<(), LinkFault>
        ensures { (earlier : List (List ℕ)) → Knows earlier self.old → TakesLine earlier number line.now self.old self.new result }
    {
        if is_skipped(line) {
            return Ok(());
        }
        let unknown = LinkFault::UnknownWord { line: number };
        if has_control_byte(line) {
            return Err(unknown);
        }
        let Some((word, rest)) = next_token(line) else {
            return Err(unknown);
        };
        if word == SYSTEM {
            self.take_system(number, rest)
        } else if word == NAME {
            self.take_name(alloc, number, rest)
        } else if word == AREA {
            self.take_area(alloc, number, rest)
        } else {
            Err(unknown)
        }
    }

    fn take_system(&mut self, number: u64, rest: &[u8]) -> Result<(), LinkFault>
        ensures { MatchResult result
            (λ _. (system_refusal (is_some self.old.system) number (tokens rest.now) ≡ None)
            × (self.new ≡ record self.old { system = Some (address_in (first_of (tokens rest.now))) }))
            (λ fault. system_refusal (is_some self.old.system) number (tokens rest.now) ≡ Some fault) }
    {
        if self.system.is_some() {
            return Err(LinkFault::RepeatedSystem { line: number });
        }
        self.system = Some(system_in(number, rest)?);
        Ok(())
    }

    fn take_name(&mut self, alloc: Global, number: u64, rest: &[u8]) -> Result<(), LinkFault>
        ensures { MatchResult result
            (λ _. (name_refusal (is_some self.old.name) number (trimmed rest.now) ≡ None)
            × (self.new ≡ record self.old { name = Some (trimmed rest.now) }))
            (λ fault. (fault ≡ link.Memory) ⊎ (name_refusal (is_some self.old.name) number (trimmed rest.now) ≡ Some fault)) }
    {
        if self.name.is_some() {
            return Err(LinkFault::RepeatedSystem { line: number });
        }
        let name = trimmed(rest);
        if name.len() > MOST {
            return Err(LinkFault::NameTooLong { line: number });
        }
        self.name = Some(Items::new(Vec::from_slice(alloc, name)?));
        Ok(())
    }

    fn take_area(&mut self, alloc: Global, number: u64, rest: &[u8]) -> Result<(), LinkFault>
        ensures { let words = tokens rest.now in MatchResult result
            (λ _. (area_refusal self.old.areas number words ≡ None)
            × (self.new ≡ record self.old {
              areas = self.old.areas
                  ++ record { tag = upper (first_of words); links = map address_in (after_first_of words) } ∷ [];
            }))
            (λ fault. (fault ≡ link.Memory) ⊎ (area_refusal self.old.areas number words ≡ Some fault)) }
    {
        let bad = LinkFault::BadTag { line: number };
        let Some((word, after)) = next_token(rest) else {
            return Err(bad);
        };
        if !is_tag(word) {
            return Err(bad);
        }
        let tag = word.to_ascii_uppercase(alloc)?;
        if self.areas.has(&tag) {
            return Err(LinkFault::RepeatedArea { line: number });
        }
        let links = links_in(alloc, number, after)?;
        self.areas.push(tag, links)?;
        Ok(())
    }
}

pub(super) fn read_lines(alloc: Global, bytes: &[u8]) -> Result<LinkFileParts, LinkFault>
    ensures { ReadsLinkFile bytes.now result }
{
    let mut reading = LinkFileParts {
        system: None,
        name: None,
        areas: Areas::new(alloc),
    };
    let mut rest = bytes;
    let mut number = 0;
    'lines: while !rest.is_empty() {
        let (line, after) = split_line(rest);
        number += 1;
        reading.take(alloc, number, line)?;
        rest = after;
    }
    Ok(reading)
}
