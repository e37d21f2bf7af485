//! The lines of `check --more`: the faults that a verdict does not name, and how many areas have a yes.
ghost use Rattle.std.specs.{Prelude.{◌≡◌, ◌≤◌, ◌++◌, OnOk}, List.flat_map};
ghost use Rattle.{echo_verdict.specs.Faults.{IfNo, IsFirstFault}, cmd_print.specs.Pushed.Pushes};
ghost use Rattle.cmd_check.specs.Further.{FurtherShown, also_line, areas_line};

use echo_charset::written;
use echo_links::LinkFile;
use echo_verdict::{NetFault, Verdict, all_faults, further};
use std::alloc::{AllocError, Global};
use std::io::Write;

/// Adds a line for each fault of the area that the verdict does not name, if they are asked for.
pub(crate) fn push_further(
    alloc: Global,
    lines: &mut Vec<u8>,
    more: bool,
    links: &[LinkFile],
    tag: &[u8],
    verdict: &Verdict,
) -> Result<(), AllocError>
    requires { IfNo verdict.now (IsFirstFault links.now tag.now) }
    ensures { OnOk result (Pushes (FurtherShown links.now tag.now more verdict.now) lines.old.items lines.new.items) }
{
    if !more {
        return Ok(());
    }
    let all = all_faults(alloc, links, tag)?;
    push_each(lines, further(&all, verdict))
}

// Adds the line of each of these faults.
fn push_each(lines: &mut Vec<u8>, faults: &[NetFault]) -> Result<(), AllocError>
    ensures { OnOk result (lines.new.items ≡ lines.old.items ++ flat_map also_line faults.now) }
{
    'faults: for fault in faults {
        push_also(lines, fault)?;
    }
    Ok(())
}

// Adds the line of a fault.
fn push_also(lines: &mut Vec<u8>, fault: &NetFault) -> Result<(), AllocError>
    ensures { OnOk result (lines.new.items ≡ lines.old.items ++ also_line fault.now) }
{
    written(writeln!(lines, "also {fault}"))
}

/// Adds how many areas there are, and how many of them have a yes and a no, if that is asked for.
pub(crate) fn push_areas_line(
    lines: &mut Vec<u8>,
    more: bool,
    areas: usize,
    noes: usize,
) -> Result<(), AllocError>
    requires { noes ≤ areas }
    ensures { OnOk result (lines.new.items ≡ lines.old.items ++ areas_line more areas noes) }
{
    if !more {
        return Ok(());
    }
    let yes = areas - noes;
    written(writeln!(lines, "areas {areas} yes {yes} no {noes}"))
}
