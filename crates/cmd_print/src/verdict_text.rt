//! The lines of a verdict.

ghost use Rattle.std.specs.{Prelude.◌≡◌, Prelude.◌++◌, Prelude.OnOk, Prelude.option_copied, List.flat_map};
ghost use Rattle.cmd_print.specs.{Checked.AbsencesShown, Checked.absence_line, Checked.absence_word, Checked.verdict_line, Checked.verdict_text, Checked.yes_text, Pushed.Pushes};

use echo_addr::Address;
use echo_charset::{push_word, written};
use echo_links::LinkFile;
use echo_nodelist::Nodelist;
use echo_verdict::{Absence, Verdict, listed};
use std::alloc::{AllocError, Global};
use std::io::Write;

/// Adds the line of the verdict on the area with this tag, which is printed as a word is.
pub fn push_verdict(lines: &mut Vec<u8>, tag: &[u8], verdict: &Verdict) -> Result<(), AllocError>
    ensures { OnOk result (lines.new.items ≡ lines.old.items ++ verdict_line tag.now verdict.now) }
{
    push_verdict_text(lines, tag, verdict)?;
    lines.push(b'\n')?;
    Ok(())
}

pub(crate) fn push_verdict_text(
    lines: &mut Vec<u8>,
    tag: &[u8],
    verdict: &Verdict,
) -> Result<(), AllocError>
    ensures { OnOk result (lines.new.items ≡ lines.old.items ++ verdict_text tag.now verdict.now) }
{
    match verdict {
        Verdict::Yes { systems, links } => push_yes(lines, tag, *systems, *links),
        Verdict::No(fault) => {
            lines.extend_from_slice(b"no ")?;
            push_word(lines, tag)?;
            written(write!(lines, " {fault}"))
        }
    }
}

fn push_yes(lines: &mut Vec<u8>, tag: &[u8], systems: usize, links: u128) -> Result<(), AllocError>
    ensures { OnOk result (lines.new.items ≡ lines.old.items ++ yes_text tag.now systems links) }
{
    lines.extend_from_slice(b"yes ")?;
    push_word(lines, tag)?;
    written(write!(lines, " {systems} systems {links} links"))
}

/// Adds a line for each carrier that the nodelist does not hold, by ascending address, where one was given.
pub fn push_absences(
    alloc: Global,
    lines: &mut Vec<u8>,
    nodelist: Option<&Nodelist>,
    files: &[LinkFile],
    tag: &[u8],
) -> Result<(), AllocError>
    ensures { OnOk result (Pushes (AbsencesShown files.now tag.now (option_copied nodelist.entry)) lines.old.items lines.new.items) }
{
    match nodelist {
        Some(list) => push_each(lines, &listed(alloc, files, list, tag)?),
        None => Ok(()),
    }
}

fn push_each(lines: &mut Vec<u8>, absent: &[(Address, Absence)]) -> Result<(), AllocError>
    ensures { OnOk result (lines.new.items ≡ lines.old.items ++ flat_map absence_line absent.now) }
{
    'absent: for one in absent {
        push_absence(lines, one.0, one.1)?;
    }
    Ok(())
}

fn push_absence(lines: &mut Vec<u8>, system: Address, why: Absence) -> Result<(), AllocError>
    ensures { OnOk result (lines.new.items ≡ lines.old.items ++ absence_line (system, why)) }
{
    lines.extend_from_slice(word_of(why))?;
    written(writeln!(lines, "{system}"))
}

fn word_of(why: Absence) -> &'static [u8]
    ensures { result.now ≡ absence_word why }
{
    match why {
        Absence::Missing => b"unlisted ",
        Absence::Down => b"down ",
    }
}
