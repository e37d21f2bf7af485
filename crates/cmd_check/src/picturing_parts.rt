//! What `picture --without` answers.
ghost use Rattle.std.specs.{Prelude.{◌≡◌, ◌++◌, IfOk, OnOk}, List.flat_map};
ghost use Rattle.{cmd_status.specs.{Devices.output_of, Ended.Answers}, cmd_print.specs.Pushed.Pushes};
ghost use Rattle.cmd_check.specs.{JudgedAreas.is_alone, PicturingParts.{IsLeftDrawn, IsPartsDrawn, PictureWithoutAnswers, filled_line, filled_lines, picture_front}};

use crate::checking::check_status;
use crate::supposed_areas::{is_alone, push_alone};
use cmd_print::push_picture;
use cmd_status::{Fault, Status, link_files, print_rest};
use cmd_suppose::{cut_parts, files_left};
use disk_io::Sink;
use echo_addr::{Address, Items};
use echo_charset::written;
use echo_links::LinkFile;
use echo_verdict::{Drawing, Verdict};
use std::alloc::{AllocError, Global};
use std::io::Write;

/// `picture --without ADDRESS.. TAG LINKS...`: prints the graph that `picture` prints of what is left of these files. The
/// systems of each part that is cut off have a colour. The status is that of `check`.
pub fn picture_remaining<'a, W: Sink>(
    alloc: Global,
    tag: &[u8],
    files: &[Items<u8>],
    without: &[Address],
    out: &mut W,
) -> Result<Status, Fault<'a>>
    ensures { PictureWithoutAnswers tag.now files.now without.now (output_of W.contents W.failures W.holds out.old) (output_of W.contents W.failures W.holds out.new) result }
{
    let whole = link_files(alloc, files)?;
    let left = files_left(alloc, &whole, without)?;
    let tag = tag.to_ascii_uppercase(alloc)?;
    picture_left(alloc, &tag, &whole, &left, out)
}

// The same of files that are read, and of the tag in upper case.
fn picture_left<'a, W: Sink>(
    alloc: Global,
    tag: &[u8],
    whole: &[LinkFile],
    left: &[LinkFile],
    out: &mut W,
) -> Result<Status, Fault<'a>>
    ensures { Answers (IsLeftDrawn (is_alone whole.now left.now tag.now) left.now tag.now) (λ fault. ⊥) (output_of W.contents W.failures W.holds out.old) (output_of W.contents W.failures W.holds out.new) result }
{
    let mut lines = Vec::new(alloc);
    let status = push_left(alloc, &mut lines, tag, whole, left)?;
    print_rest(&mut lines, out)?;
    Ok(status)
}

// Adds the lines of what is left. Returns the status.
fn push_left(
    alloc: Global,
    lines: &mut Vec<u8>,
    tag: &[u8],
    whole: &[LinkFile],
    left: &[LinkFile],
) -> Result<Status, AllocError>
    ensures { IfOk result (λ status. Pushes (λ all. IsLeftDrawn (is_alone whole.now left.now tag.now) left.now tag.now all status) lines.old.items lines.new.items) }
{
    if is_alone(whole, left, tag) {
        lines.extend_from_slice(b"graph {\n}\n// ")?;
        push_alone(lines, tag)?;
        Ok(Status::Good)
    } else {
        let status = push_parts_picture(alloc, lines, tag, left)?;
        Ok(status)
    }
}

// Adds the lines of a drawing, with those of the parts before the last one. Returns the status.
fn push_parts_picture(
    alloc: Global,
    lines: &mut Vec<u8>,
    tag: &[u8],
    left: &[LinkFile],
) -> Result<Status, AllocError>
    ensures { IfOk result (λ status. Pushes (λ all. IsPartsDrawn left.now tag.now all status) lines.old.items lines.new.items) }
{
    let verdict = echo_verdict::check(alloc, left, tag)?;
    let drawing = echo_verdict::draw(alloc, left, tag, &verdict)?;
    let cut = cut_parts(alloc, left, tag)?;
    let front = picture_front(alloc, tag, &verdict, &drawing)?;
    lines.extend_from_slice(&front)?;
    push_filled(lines, &cut)?;
    lines.extend_from_slice(b"}\n")?;
    Ok(check_status(&verdict))
}

// The lines of a drawing but the last one.
fn picture_front(
    alloc: Global,
    tag: &[u8],
    verdict: &Verdict,
    drawing: &Drawing,
) -> Result<Vec<u8>, AllocError>
    ensures { IfOk result (λ front. front.items ≡ picture_front tag.now verdict.now drawing.now) }
{
    let mut drawn = Vec::new(alloc);
    push_picture(alloc, &mut drawn, tag, verdict, drawing, &[])?;
    let count = drawn.len().saturating_sub(2);
    drawn.truncate(count);
    Ok(drawn)
}

// Adds the lines of the systems of each part.
fn push_filled(lines: &mut Vec<u8>, cut: &[Items<Address>]) -> Result<(), AllocError>
    ensures { OnOk result (lines.new.items ≡ lines.old.items ++ filled_lines 0 cut.now) }
{
    'parts: for place in 0..cut.len() {
        push_filled_part(lines, place % 9 + 1, cut[place].as_slice())?;
    }
    Ok(())
}

// Adds the line of each of these systems, filled with the colour of this number.
fn push_filled_part(lines: &mut Vec<u8>, colour: usize, part: &[Address]) -> Result<(), AllocError>
    ensures { OnOk result (lines.new.items ≡ lines.old.items ++ flat_map (filled_line colour) part.now) }
{
    'part: for system in part {
        push_filled_system(lines, colour, *system)?;
    }
    Ok(())
}

fn push_filled_system(lines: &mut Vec<u8>, colour: usize, system: Address) -> Result<(), AllocError>
    ensures { OnOk result (lines.new.items ≡ lines.old.items ++ filled_line colour system) }
{
    written(writeln!(
        lines,
        "\"{system}\" [style=filled, fillcolor=\"/pastel19/{colour}\"];"
    ))
}
