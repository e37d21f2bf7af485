//! The lines of a nodelist, read with their addresses.

ghost use Rattle.std.specs.Prelude.{◌≡◌, ◌+◌, ◌⊎◌, [], ◌∷◌, ◌++◌, reverse, OnOk, IfErr, Ok, Err};
ghost use Rattle.echo_nodelist.specs.{declared.fault.NodeFault.TheVariants.Memory, Raw.lines_of, Nodelist.placed, Reading.IsInStep, Reading.ReadsLines};

use crate::cutting::split_line;
use crate::fault::NodeFault;
use crate::line::{Line, read_line};
use crate::place::{ZoneNet, locate};
use echo_addr::Address;
use std::alloc::Global;

#[derive(Drop)]
pub(crate) struct LocatedLines {
    pub(crate) lines: Vec<Line>,
    pub(crate) addresses: Vec<Option<Address>>,
    place: Option<ZoneNet>,
}

impl LocatedLines {
    fn push(&mut self, number: usize, line: Line) -> Result<(), NodeFault>
        requires { IsInStep self.old }
        ensures step { OnOk result (IsInStep self.new) }
        ensures lines { OnOk result (self.new.lines.items ≡ self.old.lines.items ++ line ∷ []) }
        ensures good { OnOk result (placed number (reverse self.old.lines.items) (Ok line) ≡ Ok line) }
        ensures fault { IfErr result (λ fault. (fault ≡ Memory) ⊎ (placed number (reverse self.old.lines.items) (Ok line) ≡ Err fault)) }
    {
        let located = locate(self.place, number, &line)?;
        self.addresses.push(located.address)?;
        self.lines.push(line)?;
        self.place = located.place;
        Ok(())
    }
}

pub(crate) fn read_lines(alloc: Global, text: &[u8]) -> Result<LocatedLines, NodeFault>
    ensures { ReadsLines (lines_of text.now) result }
{
    let mut reading = LocatedLines {
        lines: Vec::new(alloc),
        addresses: Vec::new(alloc),
        place: None,
    };
    let mut rest = text;
    'lines: while !rest.is_empty() {
        let number = reading.lines.len() + 1;
        let (raw, after) = split_line(rest);
        let line = read_line(alloc, number, raw)?;
        reading.push(number, line)?;
        rest = after;
    }
    Ok(reading)
}
