//! One line of a nodelist.

ghost use Rattle.std.specs.{Prelude.◌≡◌, Prelude.IfOk, List.slice_split};
ghost use Rattle.echo_nodelist.specs.{Raw.is_comma, Line.entry_in, Line.is_note, Line.line_in, Line.number_of, Nodelist.Gives};

use crate::cutting::cut;
use crate::fault::NodeFault;
use crate::keyword::Keyword;
use echo_addr::{Items, number};
use std::alloc::{AllocError, Global};

/// A line of a nodelist (FTS-5000), without its line end.
#[derive(Debug, Drop, PartialEq, Eq, Hash)]
pub enum Line {
    /// An empty line, or one that begins with `;`.
    Note(Items<u8>),
    /// A system: the number is at most 32,767, and at least 1 for Zone, Region and Host. `fields`
    /// are the five or more after the number: name, location, sysop, phone, baud rate and flags.
    Entry {
        keyword: Keyword,
        number: u16,
        fields: Items<Items<u8>>,
    },
}

/// How many fields follow the number, at least.
const LEAST_FIELDS: usize = 5;

/// The greatest number of an entry.
const MOST: u32 = 32767;

pub(crate) fn read_line(alloc: Global, line: usize, bytes: &[u8]) -> Result<Line, NodeFault>
    ensures { Gives result (line_in line bytes.now) }
{
    if is_note(bytes) {
        let text = Vec::from_slice(alloc, bytes)?;
        return Ok(Line::Note(Items::new(text)));
    }
    read_entry(alloc, line, bytes)
}

fn is_note(bytes: &[u8]) -> bool
    ensures { result ≡ is_note bytes.now }
{
    bytes.is_empty() || bytes[0] == b';'
}

fn read_entry(alloc: Global, line: usize, bytes: &[u8]) -> Result<Line, NodeFault>
    ensures { Gives result (entry_in line (slice_split is_comma bytes.now)) }
{
    let Some((word, rest)) = cut(b',', bytes) else {
        return Err(NodeFault::TooFewFields { line });
    };
    let Some((digits, rest)) = cut(b',', rest) else {
        return Err(NodeFault::TooFewFields { line });
    };
    let fields = fields_of(alloc, rest)?;
    if fields.len() < LEAST_FIELDS {
        return Err(NodeFault::TooFewFields { line });
    }
    let Some(keyword) = Keyword::of(word) else {
        return Err(NodeFault::BadKeyword { line });
    };
    let Some(number) = number_of(keyword, digits) else {
        return Err(NodeFault::BadNumber { line });
    };
    Ok(Line::Entry {
        keyword,
        number,
        fields: Items::new(fields),
    })
}

fn fields_of(alloc: Global, text: &[u8]) -> Result<Vec<Items<u8>>, AllocError>
    ensures { IfOk result (λ v. v.items ≡ slice_split is_comma text.now) }
{
    let mut fields = Vec::new(alloc);
    let mut rest = text;
    'fields: while let Some((field, after)) = cut(b',', rest) {
        fields.push(Items::new(Vec::from_slice(alloc, field)?))?;
        rest = after;
    }
    fields.push(Items::new(Vec::from_slice(alloc, rest)?))?;
    Ok(fields)
}

fn number_of(keyword: Keyword, digits: &[u8]) -> Option<u16>
    ensures { result ≡ number_of keyword digits.now }
{
    let value = number(MOST + 1, digits)?;
    let least = u32::from(keyword.begins_net());
    if value < least || value > MOST {
        return None;
    }
    Some(value as u16)
}
