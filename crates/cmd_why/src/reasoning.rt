//! What `why` answers.
ghost use Rattle.std.specs.Prelude.{◌≡◌, ℕ, List, None, option_copied};
ghost use Rattle.{echo_links.specs.Links.upper, cmd_status.specs.{Devices.output_of, Inputs.AreLinkFiles}};
ghost use Rattle.cmd_why.specs.Reasoning.{PrintsWhy, WhyAnswers};

use crate::explaining::explain;
use crate::shown::Shown;
use crate::why_text::push_why;
use cmd_check::check_status;
use cmd_status::{Fault, Status, link_files, print_rest};
use disk_io::Sink;
use echo_addr::Items;
use echo_links::LinkFile;
use echo_verdict::Verdict;
use std::alloc::Global;
use std::hash::RandomState;

/// Which run `why` looks for, and the names of the files.
#[derive(Clone, Copy)]
pub struct Wanted<'p> {
    /// The path of each file. A file after the last path has none.
    pub paths: &'p [Items<u8>],
    /// The number of the fault: 0 is the one that the verdict names, then come those that `check --more` prints.
    pub fault: usize,
}

/// `why [--fault N] TAG LINKS...`: prints the verdict of `check` on the area of the tag, its letters made upper case, as a note.
/// After a no it looks for a run on these link files that does harm. If there is one, it prints the harm and the
/// events. They are a script for `replay`. Before the events a note for each system in them has its address and the path of
/// its file.
///
/// The status is that of `check`. For a faulty file nothing is printed. The first fault is returned. `stopped` is why
/// no further file was read, and comes last. Look-ups go by the hasher.
pub fn why<'a, W: Sink>(
    alloc: Global,
    tag: &[u8],
    files: &[Items<u8>],
    wanted: Wanted<'_>,
    stopped: Option<Fault<'a>>,
    hasher: RandomState,
    out: &mut W,
) -> Result<Status, Fault<'a>>
    ensures { WhyAnswers tag.now files.now wanted.entry.paths.now stopped.entry (output_of W.contents W.failures W.holds out.old) (output_of W.contents W.failures W.holds out.new) result }
{
    let links = link_files(alloc, files)?;
    if let Some(fault) = stopped {
        return Err(fault);
    }
    let tag = tag.to_ascii_uppercase(alloc)?;
    why_read(alloc, &tag, files, &links, wanted, hasher, out)
}

// The same of link files that are read, and of the tag in upper case.
fn why_read<'a, W: Sink>(
    alloc: Global,
    tag: &[u8],
    files: &[Items<u8>],
    links: &[LinkFile],
    wanted: Wanted<'_>,
    hasher: RandomState,
    out: &mut W,
) -> Result<Status, Fault<'a>>
    ensures { (given : List ℕ) → AreLinkFiles files.now links.now → tag.now ≡ upper given
        → WhyAnswers given files.now wanted.entry.paths.now None (output_of W.contents W.failures W.holds out.old) (output_of W.contents W.failures W.holds out.new) result }
{
    let verdict = echo_verdict::check(alloc, links, tag)?;
    let found = explain(alloc, files, tag, &verdict, wanted.fault, hasher)?;
    print_why(
        alloc,
        links,
        wanted.paths,
        tag,
        &verdict,
        found.as_ref(),
        out,
    )
}

// Prints the verdict and the run that was found. The status is that of the verdict.
fn print_why<'a, W: Sink>(
    alloc: Global,
    links: &[LinkFile],
    paths: &[Items<u8>],
    tag: &[u8],
    verdict: &Verdict,
    found: Option<&Shown>,
    out: &mut W,
) -> Result<Status, Fault<'a>>
    ensures { PrintsWhy links.now paths.now tag.now verdict.now (option_copied found.entry) (output_of W.contents W.failures W.holds out.old) (output_of W.contents W.failures W.holds out.new) result }
{
    let mut lines = Vec::new(alloc);
    push_why(alloc, &mut lines, links, paths, tag, verdict, found)?;
    print_rest(&mut lines, out)?;
    Ok(check_status(verdict))
}
