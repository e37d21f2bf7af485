//! A nodelist in memory.

ghost use Rattle.std.specs.Prelude.{◌≡◌, ◌≢◌, ◌↔◌, ◌<◌, ℕ, Some, None, IsTrue, MatchOption, slice_index_or};

use crate::cutting::before_end;
use crate::fault::NodeFault;
use crate::hub::hub_at;
use crate::line::Line;
use crate::reading::read_lines;
use crate::writing::nodelist_text;
use disk_io::{Failure, Sink, send};
use echo_addr::Address;
use std::alloc::Global;
use std::marker::Model;

/// A nodelist (FTS-5000): its lines, and the address of each line.
#[derive(Debug, Drop)]
pub struct Nodelist {
    lines: Vec<Line>,
    addresses: Vec<Option<Address>>,
}

impl Model for Nodelist {
    ghost use Rattle.std.specs.Prelude.{List};
    ghost use Rattle.echo_nodelist.specs.{declared.line.Line.Line, Nodelist.IsIndexed};

    ghost Value = { List Line };

    ghost view = { λ list. list.lines.items };

    ghost invariant = { λ list. IsIndexed list.lines.items list.addresses.items };
}

impl Nodelist {
    ghost use Rattle.std.specs.Prelude.{◌≡◌};
    ghost use Rattle.echo_nodelist.specs.{Back.Finds, Back.address_at, Back.hub_at, Nodelist.NodelistAnswered, Nodelist.IsNodelist, Written.WritesOut, Written.nodelist_text};

    /// The nodelist in the bytes up to the first 1A, the fault of the first faulty line, or `Memory`.
    pub fn read(alloc: Global, bytes: &[u8]) -> Result<Nodelist, NodeFault>
        ensures { NodelistAnswered bytes.now result }
    {
        let reading = read_lines(alloc, before_end(bytes))?;
        Ok(Nodelist {
            lines: reading.lines,
            addresses: reading.addresses,
        })
    }

    /// Writes each line with 0D 0A, then 1A, and does not flush. Faults: `Write` with the number of bytes that were
    /// sent, or `Memory` before any was sent.
    pub fn write<W: Sink>(&self, alloc: Global, writer: &mut W) -> Result<(), NodeFault>
        ensures { WritesOut (W.contents writer.old) (W.contents writer.new) (W.failures writer.old) (W.failures writer.new) (nodelist_text self.now) result }
    {
        let text = nodelist_text(alloc, &self.lines)?;
        let mut sent = 0;
        match send(writer, &text, &mut sent) {
            Ok(()) => Ok(()),
            Err(Failure) => Err(NodeFault::Write { bytes: sent }),
        }
    }

    /// The lines in order.
    pub fn lines(&self) -> &[Line]
        ensures lines { result.now ≡ self.now }
        ensures whole { IsNodelist self.now }
    {
        self.lines.as_slice()
    }

    /// The address of the line at an index, from 0; none for a Note, and past the last line.
    pub fn address_of(&self, i: usize) -> Option<Address>
        ensures { result ≡ address_at self.now i }
    {
        kept_at(&self.addresses, i)
    }

    /// The address of the Hub over the line at an index, from 0. Only entries Pvt, Hold, Down or without keyword have
    /// one: the nearest Hub line before them in their net. The search goes back to the start of the net.
    pub fn hub_of(&self, i: usize) -> Option<Address>
        ensures { result ≡ hub_at self.now i }
    {
        hub_at(&self.lines, &self.addresses, i)
    }

    /// The index of the first line with the address. It searches only the addresses, eight bytes a line.
    pub fn find(&self, address: Address) -> Option<usize>
        ensures { Finds self.now address result }
    {
        first_at(&self.addresses, address)
    }
}

fn kept_at(kept: &[Option<Address>], i: usize) -> Option<Address>
    ensures { result ≡ slice_index_or kept.now i None }
{
    match kept.get(i) {
        Some(address) => *address,
        None => None,
    }
}

fn first_at(addresses: &[Option<Address>], wanted: Address) -> Option<usize>
    ensures { MatchOption result
        ((i : ℕ) → slice_index_or addresses.now i None ≢ Some wanted)
        (λ i. (slice_index_or addresses.now i None ≡ Some wanted) × ((j : ℕ) → j < i → slice_index_or addresses.now j None ≢ Some wanted)) }
{
    'addresses: for (i, found) in addresses.iter().enumerate() {
        if is_at(*found, wanted) {
            return Some(i);
        }
    }
    None
}

fn is_at(found: Option<Address>, wanted: Address) -> bool
    ensures { IsTrue result ↔ (found ≡ Some wanted) }
{
    found == Some(wanted)
}
