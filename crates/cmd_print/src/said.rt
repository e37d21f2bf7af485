//! The lines of an echomail text.

ghost use Rattle.std.specs.Prelude.{◌≡◌, ◌++◌, option_copied, OnOk};
ghost use Rattle.cmd_print.specs.Said.{area_line, counts_line, echo_lines, found_line, found_lines};

use echo_charset::{push_escaped, written};
use echo_text::{EchoView, KeptView};
use std::alloc::AllocError;
use std::io::Write;

/// Adds the lines of an echomail text. `dropped` tokens of its SEEN-BY and PATH lines are no entries.
pub fn push_echo(lines: &mut Vec<u8>, echo: &EchoView, dropped: usize) -> Result<(), AllocError>
    ensures { OnOk result (lines.new.items ≡ lines.old.items ++ echo_lines echo.now dropped) }
{
    push_area(lines, echo.tag.as_slice())?;
    push_found_lines(lines, &echo.kept)?;
    push_counts(lines, echo.seen.len(), echo.path.len(), dropped)
}

fn push_area(lines: &mut Vec<u8>, tag: &[u8]) -> Result<(), AllocError>
    ensures { OnOk result (lines.new.items ≡ lines.old.items ++ area_line tag.now) }
{
    lines.extend_from_slice(b"area ")?;
    lines.extend_from_slice(tag)?;
    lines.push(b'\n')?;
    Ok(())
}

fn push_found_lines(lines: &mut Vec<u8>, kept: &KeptView) -> Result<(), AllocError>
    ensures { OnOk result (lines.new.items ≡ lines.old.items ++ found_lines kept.now) }
{
    push_found(lines, b"msgid", kept.msgid())?;
    push_found(lines, b"reply", kept.reply())?;
    push_found(lines, b"tear", kept.tear())?;
    push_found(lines, b"origin", kept.origin())?;
    Ok(())
}

fn push_found(lines: &mut Vec<u8>, word: &[u8], found: Option<&[u8]>) -> Result<(), AllocError>
    ensures { OnOk result (lines.new.items ≡ lines.old.items ++ found_line word.now (option_copied found.entry)) }
{
    match found {
        Some(bytes) => push_escaped(lines, word, bytes),
        None => Ok(()),
    }
}

fn push_counts(
    lines: &mut Vec<u8>,
    seen: usize,
    path: usize,
    dropped: usize,
) -> Result<(), AllocError>
    ensures { OnOk result (lines.new.items ≡ lines.old.items ++ counts_line seen path dropped) }
{
    written(writeln!(lines, "seen {seen} path {path} dropped {dropped}"))
}
