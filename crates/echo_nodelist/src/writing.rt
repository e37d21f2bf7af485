//! Writes a nodelist (FTS-5000).

ghost use Rattle.std.specs.Prelude.{◌≡◌, ◌∷◌, ◌++◌, decimal, OnOk, IfOk};
ghost use Rattle.std.specs.List.{flat_map};
ghost use Rattle.echo_nodelist.specs.Written.{line_text, nodelist_text};

use crate::line::Line;
use echo_addr::Items;
use std::alloc::{AllocError, Global};

/// Each line with 0D 0A, then 1A.
pub(crate) fn nodelist_text(alloc: Global, lines: &[Line]) -> Result<Vec<u8>, AllocError>
    ensures { IfOk result (λ text. text.items ≡ nodelist_text lines.now) }
{
    let mut text = Vec::new(alloc);
    'lines: for line in lines {
        push_line(alloc, &mut text, line)?;
        text.extend_from_slice(b"\r\n")?;
    }
    text.push(0x1a)?;
    Ok(text)
}

fn push_line(alloc: Global, text: &mut Vec<u8>, line: &Line) -> Result<(), AllocError>
    ensures { OnOk result (text.new.items ≡ text.old.items ++ line_text line.now) }
{
    match line {
        Line::Note(note) => text.extend_from_slice(note.as_slice()),
        Line::Entry {
            keyword,
            number,
            fields,
        } => {
            text.extend_from_slice(keyword.text())?;
            text.push(b',')?;
            push_number(alloc, text, *number)?;
            push_fields(text, fields.as_slice())
        }
    }
}

fn push_number(alloc: Global, text: &mut Vec<u8>, number: u16) -> Result<(), AllocError>
    ensures { OnOk result (text.new.items ≡ text.old.items ++ decimal number) }
{
    let digits = format!(in alloc; "{number}")?;
    text.extend_from_slice(digits.as_bytes())
}

/// Writes fields, each after a comma.
fn push_fields(text: &mut Vec<u8>, fields: &[Items<u8>]) -> Result<(), AllocError>
    ensures { OnOk result (text.new.items ≡ text.old.items ++ flat_map (λ field. 44 ∷ field) fields.now) }
{
    'fields: for field in fields {
        text.push(b',')?;
        text.extend_from_slice(field.as_slice())?;
    }
    Ok(())
}
