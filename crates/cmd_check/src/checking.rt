//! What `check` answers.
ghost use Rattle.std.specs.Prelude.{◌≡◌, ℕ, List, None, Ok, OnOk, Option, option_copied};
ghost use Rattle.cmd_status.specs.Devices.{output_of};
ghost use Rattle.{cmd_status.specs.{declared.status.Status.TheVariants.Good, Inputs.{AreLinkFiles, IsNodelistGiven}}, echo_links.specs.Links.{LinkFile, upper}};
ghost use Rattle.{model_run.specs.{Tidy.Tidy, AnyState.NewMessagesAreInOrder}, echo_verdict.specs.Faults.{IfNo, IsFirstFault}};
ghost use Rattle.{cmd_check.specs.{Checking.{CheckAnswers, verdict_status}, Further.IsVerdictShown}, cmd_print.specs.Pushed.Pushes};

use crate::further_text::push_further;
use cmd_print::{push_absences, push_verdict};
use cmd_status::{Fault, Status, link_files, nodelist_given, print_rest};
use disk_io::Sink;
use echo_addr::Items;
use echo_links::LinkFile;
use echo_nodelist::Nodelist;
use echo_verdict::Verdict;
use std::alloc::{AllocError, Global};

/// What `check` prints in addition to its verdicts.
#[derive(Clone, Copy)]
pub struct Besides<'n> {
    /// Which systems of the area this nodelist lacks.
    pub nodelist: Option<&'n [u8]>,
    /// The faults that a verdict does not name.
    pub more: bool,
}

/// `check [--nodelist LIST] [--more] TAG LINKS...`: prints whether the area of the tag, its letters made upper case,
/// is in order on the net of these link files. With `--more` it prints each further fault. Then it prints which of
/// its systems the nodelist lacks. For a faulty file nothing is printed. The first fault is returned, that of the
/// nodelist before those of link files. `stopped` is why no further file was read, and comes last.
pub fn check<'a, W: Sink>(
    alloc: Global,
    besides: Besides<'_>,
    tag: &[u8],
    files: &[Items<u8>],
    stopped: Option<Fault<'a>>,
    out: &mut W,
) -> Result<Status, Fault<'a>>
    ensures answer { CheckAnswers (option_copied besides.entry.nodelist) besides.entry.more tag.now files.now stopped.entry (output_of W.contents W.failures W.holds out.old) (output_of W.contents W.failures W.holds out.new) result }
    // What a 0 promises: the area is tidy, and each new message of it is in order, from any state on.
    ensures headline { result ≡ Ok Good → (links : List LinkFile) → AreLinkFiles files.now links → Tidy links (upper tag.now) × NewMessagesAreInOrder links (upper tag.now) }
{
    check_given(alloc, besides, tag, files, stopped, out)
}

fn check_given<'a, W: Sink>(
    alloc: Global,
    besides: Besides<'_>,
    tag: &[u8],
    files: &[Items<u8>],
    stopped: Option<Fault<'a>>,
    out: &mut W,
) -> Result<Status, Fault<'a>>
    ensures { CheckAnswers (option_copied besides.entry.nodelist) besides.entry.more tag.now files.now stopped.entry (output_of W.contents W.failures W.holds out.old) (output_of W.contents W.failures W.holds out.new) result }
{
    let list = nodelist_given(alloc, besides.nodelist)?;
    let links = link_files(alloc, files)?;
    if let Some(fault) = stopped {
        return Err(fault);
    }
    let tag = tag.to_ascii_uppercase(alloc)?;
    check_read(alloc, list.as_ref(), besides.more, &tag, &links, out)
}

// The same of inputs that are read, and of the tag in upper case.
fn check_read<'a, W: Sink>(
    alloc: Global,
    list: Option<&Nodelist>,
    more: bool,
    tag: &[u8],
    links: &[LinkFile],
    out: &mut W,
) -> Result<Status, Fault<'a>>
    ensures { (nodelist : Option (List ℕ)) → (given : List ℕ) → (inputs : List (List ℕ)) → IsNodelistGiven nodelist (option_copied list.entry)
        → AreLinkFiles inputs links.now → tag.now ≡ upper given
        → CheckAnswers nodelist more given inputs None (output_of W.contents W.failures W.holds out.old) (output_of W.contents W.failures W.holds out.new) result }
{
    let verdict = echo_verdict::check(alloc, links, tag)?;
    let mut lines = Vec::new(alloc);
    push_check(alloc, &mut lines, list, more, links, tag, &verdict)?;
    print_rest(&mut lines, out)?;
    Ok(check_status(&verdict))
}

/// Adds the lines of the verdict, of further faults if they are asked for, and of the systems that the nodelist
/// lacks.
pub(crate) fn push_check(
    alloc: Global,
    lines: &mut Vec<u8>,
    list: Option<&Nodelist>,
    more: bool,
    links: &[LinkFile],
    tag: &[u8],
    verdict: &Verdict,
) -> Result<(), AllocError>
    requires { IfNo verdict.now (IsFirstFault links.now tag.now) }
    ensures { OnOk result (Pushes (IsVerdictShown links.now tag.now (option_copied list.entry) more verdict.now) lines.old.items lines.new.items) }
{
    push_verdict(lines, tag, verdict)?;
    push_further(alloc, lines, more, links, tag, verdict)?;
    push_absences(alloc, lines, list, links, tag)
}

/// The status of a verdict: 0 for a yes, else 1.
pub fn check_status(verdict: &Verdict) -> Status
    ensures { result ≡ verdict_status verdict.now }
{
    match verdict {
        Verdict::Yes { .. } => Status::Good,
        Verdict::No(_) => Status::Differs,
    }
}
