//! Where the systems of a net stand: their files, and the line of an area in a file.

use crate::note_words::Place;
use cmd_input::PathName;
use echo_addr::{Address, Items, next_token};
use echo_links::{LinkFile, is_skipped, split_line};
use std::alloc::{AllocError, Global};

const AREA: &[u8] = b"AREA";

/// A file of this system, by its number.
#[derive(Clone, Copy, PartialEq, Eq, PartialOrd, Ord)]
pub(crate) struct Numbered {
    system: Address,
    number: usize,
}

/// Link files as they were given: their paths, and their texts up to the first that was not read.
#[derive(Clone, Copy)]
pub(crate) struct Given<'n> {
    pub(crate) names: &'n [PathName],
    pub(crate) texts: &'n [Items<u8>],
}

/// The link files of a net, and their numbers by address. A file after the last path is that of an assumed system.
#[derive(Clone, Copy)]
pub(crate) struct NotedNet<'n> {
    pub(crate) given: Given<'n>,
    pub(crate) files: &'n [LinkFile],
    pub(crate) numbers: &'n [Numbered],
}

/// The numbers of the files, by address.
pub(crate) fn by_address(alloc: Global, files: &[LinkFile]) -> Result<Vec<Numbered>, AllocError> {
    let mut numbers = Vec::new(alloc);
    for (number, file) in files.iter().enumerate() {
        let system = file.system();
        numbers.push(Numbered { system, number })?;
    }
    numbers.sort_unstable();
    Ok(numbers)
}

impl<'n> NotedNet<'n> {
    /// The places of the first two files of the system.
    pub(crate) fn both(&self, system: Address) -> Option<(Place<'n>, Place<'n>)> {
        let own = self.numbers_of(system);
        let one = own.first()?;
        let other = own.get(1)?;
        Some((
            self.file_at(one.number, system),
            self.file_at(other.number, system),
        ))
    }

    /// Where the first system lists the second in the area.
    pub(crate) fn listing(&self, tag: &[u8], from: Address, to: Address) -> Place<'n> {
        for one in self.numbers_of(from) {
            if self.lists_at(one.number, tag, to) {
                return self.line_at(one.number, tag, from);
            }
        }
        Place::Assumed(from)
    }

    /// Where the system has the area.
    pub(crate) fn carrying(&self, tag: &[u8], system: Address) -> Place<'n> {
        for one in self.numbers_of(system) {
            if self.has_at(one.number, tag) {
                return self.line_at(one.number, tag, system);
            }
        }
        Place::Assumed(system)
    }

    /// Whether each of the two systems lists the other in the area.
    pub(crate) fn is_linked(&self, tag: &[u8], one: Address, other: Address) -> bool {
        self.lists(tag, one, other) && self.lists(tag, other, one)
    }

    fn lists(&self, tag: &[u8], from: Address, to: Address) -> bool {
        for one in self.numbers_of(from) {
            if self.lists_at(one.number, tag, to) {
                return true;
            }
        }
        false
    }

    fn lists_at(&self, number: usize, tag: &[u8], to: Address) -> bool {
        match self.files.get(number) {
            Some(file) => file.is_link(tag, to),
            None => false,
        }
    }

    fn has_at(&self, number: usize, tag: &[u8]) -> bool {
        match self.files.get(number) {
            Some(file) => file.has_area(tag),
            None => false,
        }
    }

    // The files of the system, in order.
    fn numbers_of(&self, system: Address) -> &'n [Numbered] {
        let start = self.numbers.partition_point(|one| one.system < system);
        let (_, rest) = self.numbers.split_at(start);
        let count = rest.partition_point(|one| one.system == system);
        let (own, _) = rest.split_at(count);
        own
    }

    fn file_at(&self, number: usize, system: Address) -> Place<'n> {
        match self.given.names.get(number) {
            Some(name) => Place::File(name.shown()),
            None => Place::Assumed(system),
        }
    }

    fn line_at(&self, number: usize, tag: &[u8], system: Address) -> Place<'n> {
        let (Some(name), Some(text)) = (self.given.names.get(number), self.given.texts.get(number))
        else {
            return Place::Assumed(system);
        };
        match area_line(text.as_slice(), tag) {
            Some(line) => Place::Line(name.shown(), line),
            None => Place::File(name.shown()),
        }
    }
}

/// The number of the line that has the area, counted from 1.
fn area_line(text: &[u8], tag: &[u8]) -> Option<u64> {
    let mut rest = text;
    let mut number = 0u64;
    'lines: while !rest.is_empty() {
        let (line, after) = split_line(rest);
        number = number.saturating_add(1);
        if is_area_line(line, tag) {
            return Some(number);
        }
        rest = after;
    }
    None
}

fn is_area_line(line: &[u8], tag: &[u8]) -> bool {
    if is_skipped(line) {
        return false;
    }
    let Some((word, rest)) = next_token(line) else {
        return false;
    };
    match next_token(rest) {
        Some((name, _)) => word == AREA && name.eq_ignore_ascii_case(tag),
        None => false,
    }
}
