//! What `picture --why` answers.
ghost use Rattle.std.specs.Prelude.{◌≡◌, ℕ, IfOk, List, None};
ghost use Rattle.{echo_links.specs.Links.upper, cmd_status.specs.{Devices.output_of, Inputs.AreLinkFiles}};
ghost use Rattle.cmd_why.specs.PicturingWhy.{AreCrossings, PictureWhyAnswers};

use crate::carrying::crossings;
use crate::explaining::explain;
use cmd_check::print_picture;
use cmd_status::{Fault, Status, link_files};
use disk_io::Sink;
use echo_addr::Items;
use echo_links::LinkFile;
use echo_verdict::{Crossing, Verdict};
use std::alloc::{AllocError, Global};
use std::hash::RandomState;

/// `picture --why TAG LINKS...`: prints the graph that `picture` prints, with the run that `why` finds shown on it. A
/// link by which the message reaches the system of the harm is labelled with the numbers of the events that send it.
/// The posting is the first of these. The status is that of `check`. For a faulty file nothing is printed. The first
/// fault is returned. `stopped` is why no further file was read, and comes last. Look-ups go by the hasher.
pub fn picture_why<'a, W: Sink>(
    alloc: Global,
    tag: &[u8],
    files: &[Items<u8>],
    stopped: Option<Fault<'a>>,
    hasher: RandomState,
    out: &mut W,
) -> Result<Status, Fault<'a>>
    ensures { PictureWhyAnswers tag.now files.now stopped.entry (output_of W.contents W.failures W.holds out.old) (output_of W.contents W.failures W.holds out.new) result }
{
    let links = link_files(alloc, files)?;
    if let Some(fault) = stopped {
        return Err(fault);
    }
    let tag = tag.to_ascii_uppercase(alloc)?;
    picture_why_read(alloc, &tag, files, &links, hasher, out)
}

// The same of link files that are read, and of the tag in upper case.
fn picture_why_read<'a, W: Sink>(
    alloc: Global,
    tag: &[u8],
    files: &[Items<u8>],
    links: &[LinkFile],
    hasher: RandomState,
    out: &mut W,
) -> Result<Status, Fault<'a>>
    ensures { (given : List ℕ) → AreLinkFiles files.now links.now → tag.now ≡ upper given
        → PictureWhyAnswers given files.now None (output_of W.contents W.failures W.holds out.old) (output_of W.contents W.failures W.holds out.new) result }
{
    let verdict = echo_verdict::check(alloc, links, tag)?;
    let drawing = echo_verdict::draw(alloc, links, tag, &verdict)?;
    let crossings = crossings_found(alloc, tag, files, &verdict, hasher)?;
    print_picture(alloc, tag, &verdict, &drawing, &crossings, out)
}

// The links by which the message of the run of `why` reaches the system of the harm.
fn crossings_found(
    alloc: Global,
    tag: &[u8],
    files: &[Items<u8>],
    verdict: &Verdict,
    hasher: RandomState,
) -> Result<Vec<Crossing>, AllocError>
    ensures { IfOk result (λ all. AreCrossings files.now tag.now all.items) }
{
    let found = explain(alloc, files, tag, verdict, 0, hasher)?;
    crossings(alloc, files, tag, found.as_ref(), hasher)
}
