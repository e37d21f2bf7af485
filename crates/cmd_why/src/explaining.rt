//! A run that shows the harm of a fault.

ghost use Rattle.std.specs.Prelude.{IfOk, IfSome};
ghost use Rattle.cmd_why.specs.{Found.IsShown, Sources.files_of};

use crate::confirming::confirmed;
use crate::shown::Shown;
use crate::sources::read_files;
use echo_addr::Items;
use echo_links::LinkFile;
use echo_verdict::{NetFault, Verdict, all_faults, further};
use model_plan::{find_any_plan, find_plan};
use std::alloc::{AllocError, Global};
use std::hash::RandomState;

/// A run on the net of these link files that does harm in the area of the tag, by the fault of this number: 0 is the one that
/// the verdict names, then come those that `check --more` prints. If no run is found for a further fault, the systems post
/// in turn. There is none if the verdict on the area is yes, or no run is found. It was tried on real packets. Look-ups go by
/// the hasher. Fails if some bytes are no link file, and when out of memory.
pub fn explain(
    alloc: Global,
    sources: &[Items<u8>],
    tag: &[u8],
    verdict: &Verdict,
    fault: usize,
    hasher: RandomState,
) -> Result<Option<Shown>, AllocError>
    ensures { IfOk result (λ found. IfSome found (IsShown (files_of sources.now) tag.now)) }
{
    let Verdict::No(first) = verdict else {
        return Ok(None);
    };
    if fault == 0 {
        return explain_fault(alloc, sources, tag, first, hasher);
    }
    explain_further(alloc, sources, tag, verdict, fault - 1, hasher)
}

// The run of a fault.
fn explain_fault(
    alloc: Global,
    sources: &[Items<u8>],
    tag: &[u8],
    fault: &NetFault,
    hasher: RandomState,
) -> Result<Option<Shown>, AllocError>
    ensures { IfOk result (λ found. IfSome found (IsShown (files_of sources.now) tag.now)) }
{
    let files = read_files(alloc, sources)?;
    match find_plan(alloc, &files, tag, fault, hasher)? {
        Some(plan) => confirmed(alloc, files, tag, plan, hasher),
        None => Ok(None),
    }
}

// The run of a further fault, or of any posting.
fn explain_further(
    alloc: Global,
    sources: &[Items<u8>],
    tag: &[u8],
    verdict: &Verdict,
    place: usize,
    hasher: RandomState,
) -> Result<Option<Shown>, AllocError>
    ensures { IfOk result (λ found. IfSome found (IsShown (files_of sources.now) tag.now)) }
{
    let files = read_files(alloc, sources)?;
    let all = all_faults(alloc, &files, tag)?;
    let Some(fault) = further(&all, verdict).get(place) else {
        return Ok(None);
    };
    match explain_fault(alloc, sources, tag, fault, hasher)? {
        Some(shown) => Ok(Some(shown)),
        None => explain_any(alloc, files, tag, hasher),
    }
}

// The run of any posting that does harm.
fn explain_any(
    alloc: Global,
    files: Vec<LinkFile>,
    tag: &[u8],
    hasher: RandomState,
) -> Result<Option<Shown>, AllocError>
    ensures { IfOk result (λ found. IfSome found (IsShown files.items tag.now)) }
{
    match find_any_plan(alloc, &files, tag, hasher)? {
        Some(plan) => confirmed(alloc, files, tag, plan, hasher),
        None => Ok(None),
    }
}
