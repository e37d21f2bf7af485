//! What `picture` answers.
ghost use Rattle.std.specs.Prelude.{◌≡◌, ℕ, List, None};
ghost use Rattle.{echo_links.specs.Links.upper, cmd_status.specs.{Devices.output_of, Inputs.AreLinkFiles}};
ghost use Rattle.cmd_check.specs.Picturing.{PictureAnswers, PrintsPicture};

use crate::checking::check_status;
use cmd_print::push_picture;
use cmd_status::{Fault, Status, link_files, print_rest};
use disk_io::Sink;
use echo_addr::Items;
use echo_links::LinkFile;
use echo_verdict::{Crossing, Drawing, Verdict};
use std::alloc::Global;

/// `picture TAG LINKS...`: prints the systems and links of the area of the tag, its letters made upper case, as a
/// graph in the language DOT of Graphviz. The faults that `check` finds are marked. The status is that of `check`.
/// For a faulty file nothing is printed. The first fault is returned. `stopped` is why no further file was read, and
/// comes last.
pub fn picture<'a, W: Sink>(
    alloc: Global,
    tag: &[u8],
    files: &[Items<u8>],
    stopped: Option<Fault<'a>>,
    out: &mut W,
) -> Result<Status, Fault<'a>>
    ensures { PictureAnswers tag.now files.now stopped.entry (output_of W.contents W.failures W.holds out.old) (output_of W.contents W.failures W.holds out.new) result }
{
    let links = link_files(alloc, files)?;
    if let Some(fault) = stopped {
        return Err(fault);
    }
    let tag = tag.to_ascii_uppercase(alloc)?;
    picture_read(alloc, &tag, &links, out)
}

// The same of link files that are read, and of the tag in upper case.
fn picture_read<'a, W: Sink>(
    alloc: Global,
    tag: &[u8],
    links: &[LinkFile],
    out: &mut W,
) -> Result<Status, Fault<'a>>
    ensures { (given : List ℕ) → (inputs : List (List ℕ)) → AreLinkFiles inputs links.now → tag.now ≡ upper given
        → PictureAnswers given inputs None (output_of W.contents W.failures W.holds out.old) (output_of W.contents W.failures W.holds out.new) result }
{
    let verdict = echo_verdict::check(alloc, links, tag)?;
    let drawing = echo_verdict::draw(alloc, links, tag, &verdict)?;
    print_picture(alloc, tag, &verdict, &drawing, &[], out)
}

/// Prints the area as it is drawn. It has the status of the verdict.
pub fn print_picture<'a, W: Sink>(
    alloc: Global,
    tag: &[u8],
    verdict: &Verdict,
    drawing: &Drawing,
    crossings: &[Crossing],
    out: &mut W,
) -> Result<Status, Fault<'a>>
    ensures { PrintsPicture tag.now verdict.now drawing.now crossings.now (output_of W.contents W.failures W.holds out.old) (output_of W.contents W.failures W.holds out.new) result }
{
    let mut lines = Vec::new(alloc);
    push_picture(alloc, &mut lines, tag, verdict, drawing, crossings)?;
    print_rest(&mut lines, out)?;
    Ok(check_status(verdict))
}
