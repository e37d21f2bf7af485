//! The subfields of a header, read one after another.
ghost use Rattle.std.specs.Prelude.{◌≡◌, ◌++◌, ◌≤◌, IfOk, OnOk, length, option_copied};
ghost use Rattle.echo_jam.specs.Subfields as subfields;
ghost use Rattle.echo_jam.specs.Subfields.{behind_field, control_line, controls_of, field_content, field_kind, first_field};

use crate::content::front;
use crate::standing::{long_at, number_at};
use std::alloc::{AllocError, Global};

/// The content of the first subfield of this kind, or no bytes.
pub(crate) fn field_or_none(fields: &[u8], kind: u32) -> &[u8]
    ensures { result.now ≡ subfields.field_or_none kind fields.now }
{
    match first_field(fields, kind) {
        Some(content) => content,
        None => &[],
    }
}

fn first_field(fields: &[u8], kind: u32) -> Option<&[u8]>
    ensures { option_copied result ≡ first_field kind fields.now }
{
    let mut rest = fields;
    let mut most = fields.len();
    'fields: while most > 0 && rest.len() >= 8 {
        if field_kind(rest) == kind {
            return Some(field_content(rest));
        }
        rest = behind_field(rest);
        most -= 1;
    }
    None
}

pub(crate) fn controls_of(alloc: Global, fields: &[u8]) -> Result<Vec<u8>, AllocError>
    ensures { IfOk result (λ lines. lines.items ≡ controls_of fields.now) }
{
    let mut lines = Vec::new(alloc);
    let mut rest = fields;
    let mut most = fields.len();
    'fields: while most > 0 && rest.len() >= 8 {
        push_control(&mut lines, field_kind(rest), field_content(rest))?;
        rest = behind_field(rest);
        most -= 1;
    }
    Ok(lines)
}

fn push_control(lines: &mut Vec<u8>, kind: u32, content: &[u8]) -> Result<(), AllocError>
    ensures { OnOk result (lines.new.items ≡ lines.old.items ++ control_line kind content.now) }
{
    if kind == 7 {
        push_begun(lines, b"\x01PID: ", content)
    } else if kind == 2004 {
        push_begun(lines, b"\x01TZUTC: ", content)
    } else if kind == 2000 {
        push_begun(lines, b"\x01", content)
    } else {
        Ok(())
    }
}

fn push_begun(lines: &mut Vec<u8>, begin: &[u8], content: &[u8]) -> Result<(), AllocError>
    ensures { OnOk result (lines.new.items ≡ lines.old.items ++ subfields.begun begin.now content.now) }
{
    lines.extend_from_slice(begin)?;
    lines.extend_from_slice(content)?;
    lines.extend_from_slice(b"\r")
}

fn field_kind(fields: &[u8]) -> u32
    requires { 8 ≤ length fields.now }
    ensures { result ≡ field_kind fields.now }
{
    number_at(fields, 0)
}

fn field_content(fields: &[u8]) -> &[u8]
    requires { 8 ≤ length fields.now }
    ensures { result.now ≡ field_content fields.now }
{
    front(&fields[8..], long_at(fields, 4) as usize)
}

fn behind_field(fields: &[u8]) -> &[u8]
    requires { 8 ≤ length fields.now }
    ensures { result.now ≡ behind_field fields.now }
{
    let end = 8 + long_at(fields, 4) as usize;
    &fields[end.min(fields.len())..]
}
