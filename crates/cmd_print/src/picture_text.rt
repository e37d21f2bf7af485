//! The drawing of `picture` in the language DOT.

ghost use Rattle.std.specs.{Prelude.◌≡◌, Prelude.◌++◌, Prelude.IfOk, Prelude.OnOk, List.flat_map};
ghost use Rattle.cmd_print.specs.Pictured.{carrier_marks, ends_text, head_lines, is_at, later_step, link_line, loop_marks, picture_lines, quoted, quoted_byte, side_marks, steps_at, steps_label, system_line, system_marks};

use crate::verdict_text::push_verdict_text;
use echo_charset::{push_word, written};
use echo_verdict::{Crossing, Drawing, DrawnLink, DrawnSystem, Mark, Sides, Verdict};
use std::alloc::{AllocError, Global};
use std::io::Write;

/// Adds all lines of a drawing in the language DOT, with the tag as its name and the verdict as its label. A
/// link has the steps at which a message crosses it as its label.
pub fn push_picture(
    alloc: Global,
    lines: &mut Vec<u8>,
    tag: &[u8],
    verdict: &Verdict,
    drawing: &Drawing,
    crossings: &[Crossing],
) -> Result<(), AllocError>
    ensures { OnOk result (lines.new.items ≡ lines.old.items ++ picture_lines tag.now verdict.now drawing.now crossings.now) }
{
    push_head(alloc, lines, tag, verdict)?;
    push_systems(lines, drawing.systems.as_slice())?;
    push_links(alloc, lines, drawing.links.as_slice(), crossings)?;
    lines.extend_from_slice(b"}\n")
}

fn push_head(
    alloc: Global,
    lines: &mut Vec<u8>,
    tag: &[u8],
    verdict: &Verdict,
) -> Result<(), AllocError>
    ensures { OnOk result (lines.new.items ≡ lines.old.items ++ head_lines tag.now verdict.now) }
{
    let mut name = Vec::new(alloc);
    push_word(&mut name, tag)?;
    let mut label = Vec::new(alloc);
    push_verdict_text(&mut label, tag, verdict)?;
    lines.extend_from_slice(b"graph ")?;
    push_quoted(lines, &name)?;
    lines.extend_from_slice(b" {\nlabel=")?;
    push_quoted(lines, &label)?;
    lines.extend_from_slice(b";\n")
}

fn push_quoted(lines: &mut Vec<u8>, bytes: &[u8]) -> Result<(), AllocError>
    ensures { OnOk result (lines.new.items ≡ lines.old.items ++ quoted bytes.now) }
{
    lines.push(b'"')?;
    push_quoted_bytes(lines, bytes)?;
    lines.push(b'"')?;
    Ok(())
}

fn push_quoted_bytes(lines: &mut Vec<u8>, bytes: &[u8]) -> Result<(), AllocError>
    ensures { OnOk result (lines.new.items ≡ lines.old.items ++ flat_map quoted_byte bytes.now) }
{
    'bytes: for byte in bytes {
        push_quoted_byte(lines, *byte)?;
    }
    Ok(())
}

fn push_quoted_byte(lines: &mut Vec<u8>, byte: u8) -> Result<(), AllocError>
    ensures { OnOk result (lines.new.items ≡ lines.old.items ++ quoted_byte byte) }
{
    if byte == b'"' || byte == b'\\' {
        lines.push(b'\\')?;
    }
    lines.push(byte)?;
    Ok(())
}

fn push_systems(lines: &mut Vec<u8>, systems: &[DrawnSystem]) -> Result<(), AllocError>
    ensures { OnOk result (lines.new.items ≡ lines.old.items ++ flat_map system_line systems.now) }
{
    'systems: for system in systems {
        push_system(lines, *system)?;
    }
    Ok(())
}

fn push_system(lines: &mut Vec<u8>, drawn: DrawnSystem) -> Result<(), AllocError>
    ensures { OnOk result (lines.new.items ≡ lines.old.items ++ system_line drawn) }
{
    let system = drawn.system;
    written(write!(lines, "\"{system}\""))?;
    lines.extend_from_slice(carrier_marks(drawn.carries))?;
    lines.extend_from_slice(system_marks(drawn.mark))?;
    lines.extend_from_slice(b";\n")
}

fn carrier_marks(carries: bool) -> &'static [u8]
    ensures { result.now ≡ carrier_marks carries }
{
    if carries { b"" } else { b" [style=dotted]" }
}

fn system_marks(mark: Mark) -> &'static [u8]
    ensures { result.now ≡ system_marks mark }
{
    match mark {
        Mark::Plain => b"",
        Mark::Named => b" [color=red]",
        Mark::OnLoop => b" [color=red, penwidth=3]",
    }
}

fn push_links(
    alloc: Global,
    lines: &mut Vec<u8>,
    links: &[DrawnLink],
    crossings: &[Crossing],
) -> Result<(), AllocError>
    ensures { OnOk result (lines.new.items ≡ lines.old.items ++ flat_map (link_line crossings.now) links.now) }
{
    'links: for link in links {
        push_link(alloc, lines, *link, crossings)?;
    }
    Ok(())
}

fn push_link(
    alloc: Global,
    lines: &mut Vec<u8>,
    link: DrawnLink,
    crossings: &[Crossing],
) -> Result<(), AllocError>
    ensures { OnOk result (lines.new.items ≡ lines.old.items ++ link_line crossings.now link) }
{
    let steps = steps_at(alloc, link, crossings)?;
    push_ends(lines, link)?;
    lines.extend_from_slice(side_marks(link.sides))?;
    lines.extend_from_slice(loop_marks(link.on_loop))?;
    push_label(lines, &steps)?;
    lines.extend_from_slice(b";\n")
}

fn push_ends(lines: &mut Vec<u8>, link: DrawnLink) -> Result<(), AllocError>
    ensures { OnOk result (lines.new.items ≡ lines.old.items ++ ends_text link) }
{
    let one = link.one;
    let other = link.other;
    written(write!(lines, "\"{one}\" -- \"{other}\""))
}

fn side_marks(sides: Sides) -> &'static [u8]
    ensures { result.now ≡ side_marks sides }
{
    match sides {
        Sides::Both => b"",
        Sides::First => b" [color=red, style=dashed, dir=forward]",
        Sides::Second => b" [color=red, style=dashed, dir=back]",
    }
}

fn loop_marks(on_loop: bool) -> &'static [u8]
    ensures { result.now ≡ loop_marks on_loop }
{
    if on_loop {
        b" [color=red, penwidth=3]"
    } else {
        b""
    }
}

fn steps_at(
    alloc: Global,
    link: DrawnLink,
    crossings: &[Crossing],
) -> Result<Vec<usize>, AllocError>
    ensures { IfOk result (λ steps. steps.items ≡ steps_at link crossings.now) }
{
    let mut steps = Vec::new(alloc);
    'crossings: for crossing in crossings {
        if is_at(link, *crossing) {
            steps.push(crossing.step)?;
        }
    }
    Ok(steps)
}

fn is_at(link: DrawnLink, crossing: Crossing) -> bool
    ensures { result ≡ is_at link crossing }
{
    let forth = crossing.from == link.one && crossing.to == link.other;
    let back = crossing.from == link.other && crossing.to == link.one;
    forth || back
}

fn push_label(lines: &mut Vec<u8>, steps: &[usize]) -> Result<(), AllocError>
    ensures { OnOk result (lines.new.items ≡ lines.old.items ++ steps_label steps.now) }
{
    match steps.split_first() {
        None => Ok(()),
        Some((first, later)) => {
            written(write!(lines, " [label=\"{first}"))?;
            push_later(lines, later)?;
            lines.extend_from_slice(b"\"]")
        }
    }
}

fn push_later(lines: &mut Vec<u8>, steps: &[usize]) -> Result<(), AllocError>
    ensures { OnOk result (lines.new.items ≡ lines.old.items ++ flat_map later_step steps.now) }
{
    'steps: for step in steps {
        written(write!(lines, ",{step}"))?;
    }
    Ok(())
}
