//! What `check --all` answers.
ghost use Rattle.std.specs.Prelude.{◌≡◌, ◌≤◌, List, Ok, IfOk, None, Option, ℕ, length, map, option_copied};
ghost use Rattle.cmd_status.specs.Devices.{output_of};
ghost use Rattle.{cmd_status.specs.{declared.status.Status.TheVariants.Good, Inputs.{AreLinkFiles, IsNodelistGiven}}, echo_links.specs.Links.LinkFile};
ghost use Rattle.{model_run.specs.{Tidy.Tidy, AnyState.NewMessagesAreInOrder}, echo_verdict.specs.Faults.{IsCarried, IsSharedSystem}, cmd_print.specs.Pushed.Pushes};
ghost use Rattle.cmd_check.specs.CheckingAll.{AreAreasChecked, CheckAllAnswers, IsAreaChecked, no_count, verdicts_status};

use crate::area_tags::area_tags;
use crate::checking::{Besides, push_check};
use crate::further_text::push_areas_line;
use cmd_status::{Fault, Status, link_files, nodelist_given, print_rest};
use disk_io::Sink;
use echo_addr::{Address, Items};
use echo_links::LinkFile;
use echo_nodelist::Nodelist;
use echo_verdict::Verdict;
use std::alloc::{AllocError, Global};

/// `check --all [--nodelist LIST] [--more] LINKS...`: prints for each area that a file has what `check` prints,
/// ascending by tag, and with `--more` how many areas have a yes. The status is 1 if one verdict is a no. For a
/// faulty file nothing is printed. The first fault is returned, that of the nodelist before those of link files.
/// `stopped` is why no further file was read, and comes last.
pub fn check_all<'a, W: Sink>(
    alloc: Global,
    besides: Besides<'_>,
    files: &[Items<u8>],
    stopped: Option<Fault<'a>>,
    out: &mut W,
) -> Result<Status, Fault<'a>>
    ensures answer { CheckAllAnswers (option_copied besides.entry.nodelist) besides.entry.more files.now stopped.entry (output_of W.contents W.failures W.holds out.old) (output_of W.contents W.failures W.holds out.new) result }
    // What a 0 promises: each area is tidy, and each new message of it is in order, from any state on.
    ensures headline { result ≡ Ok Good → (links : List LinkFile) → AreLinkFiles files.now links → (tag : List ℕ) → IsCarried links tag → Tidy links tag × NewMessagesAreInOrder links tag }
{
    check_areas(alloc, besides, files, stopped, out)
}

fn check_areas<'a, W: Sink>(
    alloc: Global,
    besides: Besides<'_>,
    files: &[Items<u8>],
    stopped: Option<Fault<'a>>,
    out: &mut W,
) -> Result<Status, Fault<'a>>
    ensures { CheckAllAnswers (option_copied besides.entry.nodelist) besides.entry.more files.now stopped.entry (output_of W.contents W.failures W.holds out.old) (output_of W.contents W.failures W.holds out.new) result }
{
    let list = nodelist_given(alloc, besides.nodelist)?;
    let links = link_files(alloc, files)?;
    if let Some(fault) = stopped {
        return Err(fault);
    }
    check_areas_read(alloc, list.as_ref(), besides.more, &links, out)
}

// The same of inputs that are read.
fn check_areas_read<'a, W: Sink>(
    alloc: Global,
    list: Option<&Nodelist>,
    more: bool,
    links: &[LinkFile],
    out: &mut W,
) -> Result<Status, Fault<'a>>
    ensures { (nodelist : Option (List ℕ)) → (inputs : List (List ℕ)) → IsNodelistGiven nodelist (option_copied list.entry) → AreLinkFiles inputs links.now
        → CheckAllAnswers nodelist more inputs None (output_of W.contents W.failures W.holds out.old) (output_of W.contents W.failures W.holds out.new) result }
{
    let tags = area_tags(alloc, links)?;
    let mut lines = Vec::new(alloc);
    let noes = push_areas(alloc, &mut lines, list, more, links, &tags)?;
    push_areas_line(&mut lines, more, tags.len(), noes)?;
    print_rest(&mut lines, out)?;
    Ok(status_of_verdicts(noes))
}

// Adds the lines of each of these areas. Returns how many verdicts are a no.
fn push_areas(
    alloc: Global,
    lines: &mut Vec<u8>,
    list: Option<&Nodelist>,
    more: bool,
    links: &[LinkFile],
    tags: &[Vec<u8>],
) -> Result<usize, AllocError>
    ensures lines { IfOk result (λ noes. Pushes (AreAreasChecked links.now (option_copied list.entry) more (map (λ tag. tag.items) tags.now) noes) lines.old.items lines.new.items) }
    ensures within { IfOk result (λ noes. noes ≤ length tags.now) }
{
    let shared = echo_verdict::shared_system(alloc, links)?;
    let mut noes = 0;
    'tags: for tag in tags {
        let one = push_area(alloc, lines, list, more, links, shared, tag)?;
        noes += one;
    }
    Ok(noes)
}

// Adds the lines of the area. Returns 1 if its verdict is a no. Two of the files have the address `shared`.
fn push_area(
    alloc: Global,
    lines: &mut Vec<u8>,
    list: Option<&Nodelist>,
    more: bool,
    links: &[LinkFile],
    shared: Option<Address>,
    tag: &[u8],
) -> Result<usize, AllocError>
    requires { IsSharedSystem links.now shared }
    ensures lines { IfOk result (λ noes. Pushes (IsAreaChecked links.now (option_copied list.entry) more tag.now noes) lines.old.items lines.new.items) }
    ensures small { IfOk result (λ noes. noes ≤ 1) }
{
    let verdict = echo_verdict::check_area(alloc, links, shared, tag)?;
    push_check(alloc, lines, list, more, links, tag, &verdict)?;
    Ok(no_count(&verdict))
}

/// 1 for a no.
pub(crate) fn no_count(verdict: &Verdict) -> usize
    ensures value { result ≡ no_count verdict.now }
    ensures small { result ≤ 1 }
{
    match verdict {
        Verdict::Yes { .. } => 0,
        Verdict::No(_) => 1,
    }
}

/// The status, by how many verdicts are a no.
pub(crate) fn status_of_verdicts(noes: usize) -> Status
    ensures { result ≡ verdicts_status noes }
{
    if noes == 0 {
        Status::Good
    } else {
        Status::Differs
    }
}
