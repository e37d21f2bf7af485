//! Which carriers a nodelist does not hold.

ghost use Rattle.std.specs.Prelude.{◌≡◌, ◌↔◌, ◌++◌, true, IfOk, OnOk, Contains, AllPairs};
ghost use Rattle.echo_addr.specs.declared.address.Address.{Address};
ghost use Rattle.echo_filed.specs.Sets.{address_before};
ghost use Rattle.model_run.specs.Tidy.{Carries};
ghost use Rattle.echo_verdict.specs.{declared.presence.Absence.Absence, Absent.IsAbsent, Absent.IsReasonOfAbsence, Absent.absent_as, Absent.is_down_line};

use crate::area_lists::carriers;
use echo_addr::Address;
use echo_links::LinkFile;
use echo_nodelist::{Keyword, Line, Nodelist};
use std::alloc::{AllocError, Global};

/// Why a nodelist does not hold a system.
#[derive(Clone, Copy)]
pub enum Absence {
    /// No line has its address.
    Missing,
    /// The first line with its address has the keyword Down.
    Down,
}

/// The carriers of the area that the nodelist (FTS-5000) does not hold, ascending, each once. Fails only
/// when out of memory.
pub fn listed(
    alloc: Global,
    files: &[LinkFile],
    nodelist: &Nodelist,
    tag: &[u8],
) -> Result<Vec<(Address, Absence)>, AllocError>
    ensures ascending { IfOk result (λ all. AllPairs (λ one later. address_before one.0 later.0 ≡ true) all.items) }
    ensures members { IfOk result (λ all. (a : Address) (why : Absence) → Contains all.items (a, why) ↔
        (Carries files.now tag.now a × IsAbsent nodelist.now a why)) }
{
    let carriers = carriers(alloc, files, tag)?;
    let mut all = Vec::new(alloc);
    'carriers: for place in 0..carriers.len() {
        let system = carriers[place];
        let found = why_absent(nodelist, system);
        push_absent(&mut all, system, found)?;
    }
    Ok(all)
}

/// Appends the system, if there is a reason for its absence.
fn push_absent(
    all: &mut Vec<(Address, Absence)>,
    system: Address,
    found: Option<Absence>,
) -> Result<(), AllocError>
    ensures { OnOk result (all.new.items ≡ all.old.items ++ absent_as system found) }
{
    match found {
        Some(why) => {
            all.push((system, why))?;
            Ok(())
        }
        None => Ok(()),
    }
}

/// Why the nodelist does not hold the system.
fn why_absent(nodelist: &Nodelist, system: Address) -> Option<Absence>
    ensures { IsReasonOfAbsence nodelist.now system result }
{
    let Some(line) = nodelist.find(system) else {
        return Some(Absence::Missing);
    };
    if is_down(&nodelist.lines()[line]) {
        return Some(Absence::Down);
    }
    None
}

/// Has the line the keyword Down?
fn is_down(line: &Line) -> bool
    ensures { result ≡ is_down_line line.now }
{
    match line {
        Line::Entry { keyword, .. } => *keyword == Keyword::Down,
        Line::Note(_) => false,
    }
}
