//! The lines of `check` with `--assume`, `--assume-missing` and `--without`.
ghost use Rattle.std.specs.{Prelude.{◌≡◌, ◌≤◌, ◌++◌, ◌&&◌, List, IfOk, OnOk, length, option_copied}, List.{AllZip, count_by, flat_map}};
ghost use Rattle.{echo_links.specs.Links.LinkFile, cmd_status.specs.Devices.output_of, cmd_print.specs.Pushed.Pushes, cmd_check.specs.CheckingAll.IsAreaChecked};
ghost use Rattle.cmd_check.specs.JudgedAreas.{AreAreasJudged, AreNetLines, AreTailLines, CutsShown, IsAreaJudged, IsVerdictLeft, PrintsSupposed, alone_line, cut_line, judged_areas_line, judged_net, supposed_notes, without_line, without_note};
ghost use Rattle.cmd_suppose.specs.{Listings.IsListing, SupposedFiles.unseen_note};
ghost use Rattle.cmd_check.specs.JudgedAreas as judged;

use crate::checking::push_check;
use crate::checking_all::no_count;
use cmd_status::{Fault, print_rest};
use cmd_suppose::{
    Listing, SupposedAreas, SupposedHere, cut_parts, is_carried, push_assumed_lines, push_links,
    push_notes, push_unseen_line, supposed_here, unseen,
};
use disk_io::Sink;
use echo_addr::{Address, Items};
use echo_charset::{push_word, written};
use echo_links::LinkFile;
use echo_nodelist::Nodelist;
use std::alloc::{AllocError, Global};
use std::io::Write;

/// The files of a net with those of the assumed systems, what is left of them, and these systems and the left out ones.
#[derive(Clone, Copy)]
pub(crate) struct Net<'n> {
    pub whole: &'n [LinkFile],
    pub left: &'n [LinkFile],
    pub assumed: &'n [Address],
    pub out: &'n [Address],
}

/// How a net is judged: the nodelist, whether further faults are printed, and whether an assumed system has only areas in
/// which a given file lists it.
#[derive(Clone, Copy)]
pub(crate) struct Judging<'l> {
    pub list: Option<&'l Nodelist>,
    pub more: bool,
    pub listed: bool,
}

/// Adds the lines of each of the areas, and how many there are if that is asked for. Returns how many verdicts are a no.
pub(crate) fn push_net(
    alloc: Global,
    lines: &mut Vec<u8>,
    judging: Judging<'_>,
    areas: SupposedAreas<'_>,
    net: Net<'_>,
) -> Result<usize, AllocError>
    requires { length areas.listings.now ≡ length areas.tags.now }
    ensures { (given : List LinkFile) → AllZip (IsListing given) areas.entry.tags.now areas.entry.listings.now → IfOk result (λ noes.
        Pushes (AreNetLines (judged_net given net.entry.whole.now net.entry.left.now net.entry.assumed.now net.entry.out.now) (option_copied judging.entry.list) judging.entry.more judging.entry.listed areas.entry.tags.now noes) lines.old.items lines.new.items) }
{
    let noes = push_areas(alloc, lines, judging, areas, net)?;
    let alone = count_alone(net, areas.tags);
    let count = areas.tags.len();
    push_count(lines, is_counted(judging), count, alone, noes)?;
    Ok(noes)
}

// Whether it is asked for how many areas there are.
fn is_counted(judging: Judging<'_>) -> bool
    ensures { result ≡ (judging.entry.listed && judging.entry.more) }
{
    judging.listed && judging.more
}

// Adds how many areas there are, and how many of them have a yes and a no, if that is asked for.
fn push_count(
    lines: &mut Vec<u8>,
    asked: bool,
    areas: usize,
    alone: usize,
    noes: usize,
) -> Result<(), AllocError>
    ensures { OnOk result (lines.new.items ≡ lines.old.items ++ judged_areas_line asked areas alone noes) }
{
    if !asked {
        return Ok(());
    }
    let yes = areas.saturating_sub(alone).saturating_sub(noes);
    written(writeln!(lines, "areas {areas} yes {yes} no {noes}"))
}

// How many areas only left out systems have.
fn count_alone(net: Net<'_>, tags: &[Items<u8>]) -> usize
    ensures { result ≡ count_by (judged.is_alone net.entry.whole.now net.entry.left.now) tags.now }
{
    tags.iter()
        .filter(|tag| is_alone(net.whole, net.left, tag.as_slice()))
        .count()
}

/// Whether only left out systems have the area.
pub(crate) fn is_alone(whole: &[LinkFile], left: &[LinkFile], tag: &[u8]) -> bool
    ensures { result ≡ judged.is_alone whole.now left.now tag.now }
{
    is_carried(whole, tag) && !is_carried(left, tag)
}

// Adds the lines of each of the areas. Returns how many verdicts are a no.
fn push_areas(
    alloc: Global,
    lines: &mut Vec<u8>,
    judging: Judging<'_>,
    areas: SupposedAreas<'_>,
    net: Net<'_>,
) -> Result<usize, AllocError>
    requires { length areas.listings.now ≡ length areas.tags.now }
    ensures lines { (given : List LinkFile) → AllZip (IsListing given) areas.entry.tags.now areas.entry.listings.now → IfOk result (λ noes.
        Pushes (AreAreasJudged (judged_net given net.entry.whole.now net.entry.left.now net.entry.assumed.now net.entry.out.now) (option_copied judging.entry.list) judging.entry.more judging.entry.listed areas.entry.tags.now noes) lines.old.items lines.new.items) }
    ensures within { IfOk result (λ noes. noes ≤ length areas.entry.tags.now) }
{
    let SupposedAreas { tags, listings } = areas;
    let mut noes = 0usize;
    'areas: for place in 0..tags.len() {
        let tag = tags[place].as_slice();
        let one = push_area(alloc, lines, judging, net, &listings[place], tag)?;
        noes += one;
    }
    Ok(noes)
}

// Adds the lines of an area. Returns 1 if its verdict is a no.
fn push_area(
    alloc: Global,
    lines: &mut Vec<u8>,
    judging: Judging<'_>,
    net: Net<'_>,
    listing: &Listing,
    tag: &[u8],
) -> Result<usize, AllocError>
    ensures lines { (given : List LinkFile) → IsListing given tag.now listing.now → IfOk result (λ noes.
        Pushes (IsAreaJudged (judged_net given net.entry.whole.now net.entry.left.now net.entry.assumed.now net.entry.out.now) (option_copied judging.entry.list) judging.entry.more judging.entry.listed tag.now noes) lines.old.items lines.new.items) }
    ensures small { IfOk result (λ noes. noes ≤ 1) }
{
    let noes = push_head(alloc, lines, judging, net, tag)?;
    push_tail(alloc, lines, judging.listed, net, listing, tag)?;
    Ok(noes)
}

// Adds the lines of `check` on the files that are left. Returns 1 if the verdict is a no.
fn push_head(
    alloc: Global,
    lines: &mut Vec<u8>,
    judging: Judging<'_>,
    net: Net<'_>,
    tag: &[u8],
) -> Result<usize, AllocError>
    ensures lines { IfOk result (λ noes. Pushes (IsVerdictLeft (judged.is_alone net.entry.whole.now net.entry.left.now tag.now) net.entry.left.now (option_copied judging.entry.list) judging.entry.more tag.now noes) lines.old.items lines.new.items) }
    ensures small { IfOk result (λ noes. noes ≤ 1) }
{
    if is_alone(net.whole, net.left, tag) {
        push_alone(lines, tag)?;
        Ok(0)
    } else {
        let noes = push_verdict_left(alloc, lines, judging, net.left, tag)?;
        Ok(noes)
    }
}

// Adds the lines of `check`. Returns 1 if the verdict is a no.
fn push_verdict_left(
    alloc: Global,
    lines: &mut Vec<u8>,
    judging: Judging<'_>,
    left: &[LinkFile],
    tag: &[u8],
) -> Result<usize, AllocError>
    ensures lines { IfOk result (λ noes. Pushes (IsAreaChecked left.now (option_copied judging.entry.list) judging.entry.more tag.now noes) lines.old.items lines.new.items) }
    ensures small { IfOk result (λ noes. noes ≤ 1) }
{
    let Judging { list, more, .. } = judging;
    let verdict = echo_verdict::check(alloc, left, tag)?;
    push_check(alloc, lines, list, more, left, tag, &verdict)?;
    Ok(no_count(&verdict))
}

/// Adds that only left out systems have the area.
pub(crate) fn push_alone(lines: &mut Vec<u8>, tag: &[u8]) -> Result<(), AllocError>
    ensures { OnOk result (lines.new.items ≡ lines.old.items ++ alone_line tag.now) }
{
    lines.extend_from_slice(b"alone ")?;
    push_word(lines, tag)?;
    lines.push(b'\n')?;
    Ok(())
}

// Adds the lines after these.
fn push_tail(
    alloc: Global,
    lines: &mut Vec<u8>,
    listed: bool,
    net: Net<'_>,
    listing: &Listing,
    tag: &[u8],
) -> Result<(), AllocError>
    ensures { (given : List LinkFile) → IsListing given tag.now listing.now → OnOk result
        (Pushes (AreTailLines (judged_net given net.entry.whole.now net.entry.left.now net.entry.assumed.now net.entry.out.now) listed tag.now) lines.old.items lines.new.items) }
{
    let here = supposed_here(alloc, listing, listed, net.assumed)?;
    let unseen = unseen(alloc, net.whole, tag, net.out, &here)?;
    push_assumed_lines(lines, &here)?;
    push_unseen_line(lines, &unseen)?;
    push_cut(alloc, lines, net.left, tag, net.out)?;
    push_without(lines, net.out)?;
    Ok(())
}

// Adds a line for each part that is cut off, if systems are left out.
fn push_cut(
    alloc: Global,
    lines: &mut Vec<u8>,
    left: &[LinkFile],
    tag: &[u8],
    out: &[Address],
) -> Result<(), AllocError>
    ensures { OnOk result (Pushes (CutsShown out.now left.now tag.now) lines.old.items lines.new.items) }
{
    if out.is_empty() {
        Ok(())
    } else {
        let cut = cut_parts(alloc, left, tag)?;
        push_parts(lines, &cut)?;
        Ok(())
    }
}

fn push_parts(lines: &mut Vec<u8>, cut: &[Items<Address>]) -> Result<(), AllocError>
    ensures { OnOk result (lines.new.items ≡ lines.old.items ++ flat_map cut_line cut.now) }
{
    'cut: for part in cut {
        push_part(lines, part.as_slice())?;
    }
    Ok(())
}

fn push_part(lines: &mut Vec<u8>, part: &[Address]) -> Result<(), AllocError>
    ensures { OnOk result (lines.new.items ≡ lines.old.items ++ cut_line part.now) }
{
    lines.extend_from_slice(b"cut")?;
    push_links(lines, part)?;
    lines.push(b'\n')?;
    Ok(())
}

// Adds a line for each left out system.
fn push_without(lines: &mut Vec<u8>, out: &[Address]) -> Result<(), AllocError>
    ensures { OnOk result (lines.new.items ≡ lines.old.items ++ flat_map without_line out.now) }
{
    'out: for address in out {
        push_left_out(lines, *address)?;
    }
    Ok(())
}

fn push_left_out(lines: &mut Vec<u8>, address: Address) -> Result<(), AllocError>
    ensures { OnOk result (lines.new.items ≡ lines.old.items ++ without_line address) }
{
    written(writeln!(lines, "without {address}"))
}

/// Prints a line for each assumed system, one for those behind which nothing was seen, and one for each left out system, as
/// notes that begin so.
pub fn print_supposed<'a, W: Sink>(
    alloc: Global,
    begin: &[u8],
    here: &SupposedHere,
    without: &[Address],
    out: &mut W,
) -> Result<(), Fault<'a>>
    ensures { PrintsSupposed begin.now here.now.systems.items here.now.unseen.items without.now (output_of W.contents W.failures W.holds out.old) (output_of W.contents W.failures W.holds out.new) result }
{
    let mut lines = Vec::new(alloc);
    push_supposed_notes(&mut lines, begin, here, without)?;
    print_rest(&mut lines, out)?;
    Ok(())
}

fn push_supposed_notes(
    lines: &mut Vec<u8>,
    begin: &[u8],
    here: &SupposedHere,
    out: &[Address],
) -> Result<(), AllocError>
    ensures { OnOk result (lines.new.items ≡ lines.old.items ++ supposed_notes begin.now here.now.systems.items here.now.unseen.items out.now) }
{
    push_notes(lines, begin, &here.systems)?;
    push_unseen_note(lines, begin, &here.unseen)?;
    push_without_notes(lines, begin, out)
}

// Adds the note on the systems behind which nothing was seen.
fn push_unseen_note(lines: &mut Vec<u8>, begin: &[u8], unseen: &[Address]) -> Result<(), AllocError>
    ensures { OnOk result (lines.new.items ≡ lines.old.items ++ unseen_note begin.now unseen.now) }
{
    if unseen.len() < 2 {
        return Ok(());
    }
    lines.extend_from_slice(begin)?;
    push_unseen_line(lines, unseen)
}

// Adds a note on each left out system.
fn push_without_notes(lines: &mut Vec<u8>, begin: &[u8], out: &[Address]) -> Result<(), AllocError>
    ensures { OnOk result (lines.new.items ≡ lines.old.items ++ flat_map (without_note begin.now) out.now) }
{
    'out: for address in out {
        push_without_note(lines, begin, *address)?;
    }
    Ok(())
}

fn push_without_note(lines: &mut Vec<u8>, begin: &[u8], address: Address) -> Result<(), AllocError>
    ensures { OnOk result (lines.new.items ≡ lines.old.items ++ without_note begin.now address) }
{
    lines.extend_from_slice(begin)?;
    push_left_out(lines, address)
}
