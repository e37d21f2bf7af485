//! What `check` answers with several assumed systems, and with `--without`.
ghost use Rattle.std.specs.{Prelude.{◌≡◌, ◌∷◌, [], List, None, Ok, IfOk, filter, is_none, length, map, option_copied}, List.AllZip};
ghost use Rattle.{echo_links.specs.Links.{LinkFile, upper}, cmd_status.specs.{Devices.output_of, declared.status.Status.TheVariants.Good, Ended.Answers}};
ghost use Rattle.{cmd_status.specs.Inputs.{AreLinkFiles, IsLinkFault}, cmd_check.specs.{JudgedAreas.judged_net, declared.supposing.Judged.TheVariants.Ended}};
ghost use Rattle.cmd_check.specs.Supposing.{AreJudgedTags, IsJudged, IsJudgingFault, IsKnownFault, IsKnownJudged, IsLeftShown, IsNetShown, IsPromisedSupposing, SupposingAnswers, ended_as};
ghost use Rattle.cmd_suppose.specs.{Leaving.{is_judged, texts_left}, Listings.IsListing};

use crate::area_tags::area_tags;
use crate::checking::Besides;
use crate::checking_all::status_of_verdicts;
use crate::supposed_areas::{Judging, Net, push_net};
use cmd_status::{Fault, Status, link_files, nodelist_given, print_rest};
use cmd_suppose::{
    Supposed, SupposedAreas, files_left, first_unknown, is_judged, listings, one_tag,
    read_supposed, supposed_systems,
};
use disk_io::Sink;
use echo_addr::{Address, Items};
use echo_links::LinkFile;
use echo_nodelist::Nodelist;
use std::alloc::{AllocError, Global};

/// The answer of `check`, or the first left out address that no file is of or lists.
#[derive(Clone, Copy, Debug, PartialEq, Eq)]
pub enum Judged {
    Ended(Status),
    Unknown(Address),
}

/// `check [--assume ADDRESS].. [--assume-missing] [--without ADDRESS].. [--nodelist LIST] [--more] TAG LINKS...`, and with
/// `--all` and without a tag: prints what `check` prints for the given files followed by those of the assumed systems,
/// and as if no file were of the left out systems or listed them. After the lines of an area it prints a line for each
/// assumed system of it, one for those behind which nothing was seen, one for each part that is cut off, and one for each
/// left out system. An assumed system is judged as if it listed exactly those who list it.
pub fn check_supposing<'a, W: Sink>(
    alloc: Global,
    besides: Besides<'_>,
    tag: Option<&[u8]>,
    files: &[Items<u8>],
    supposed: Supposed<'_>,
    stopped: Option<Fault<'a>>,
    out: &mut W,
) -> Result<Judged, Fault<'a>>
    ensures answer { SupposingAnswers (option_copied besides.entry.nodelist) besides.entry.more (option_copied tag.entry) files.now supposed.entry.named.now supposed.entry.missing supposed.entry.without.now stopped.entry (output_of W.contents W.failures W.holds out.old) (output_of W.contents W.failures W.holds out.new) result }
    // What a 0 promises: each judged area that has a verdict is tidy in what is left, and each new message of it is in order.
    ensures headline { result ≡ Ok (Ended Good) → (links : List LinkFile) → AreLinkFiles files.now links → IsPromisedSupposing links (option_copied tag.entry) supposed.entry.named.now supposed.entry.missing supposed.entry.without.now }
{
    check_given(alloc, besides, tag, files, supposed, stopped, out)
}

fn check_given<'a, W: Sink>(
    alloc: Global,
    besides: Besides<'_>,
    tag: Option<&[u8]>,
    files: &[Items<u8>],
    supposed: Supposed<'_>,
    stopped: Option<Fault<'a>>,
    out: &mut W,
) -> Result<Judged, Fault<'a>>
    ensures { SupposingAnswers (option_copied besides.entry.nodelist) besides.entry.more (option_copied tag.entry) files.now supposed.entry.named.now supposed.entry.missing supposed.entry.without.now stopped.entry (output_of W.contents W.failures W.holds out.old) (output_of W.contents W.failures W.holds out.new) result }
{
    let list = nodelist_given(alloc, besides.nodelist)?;
    let mut links = link_files(alloc, files)?;
    if let Some(fault) = stopped {
        return Err(fault);
    }
    match first_unknown(&links, supposed.without) {
        Some(address) => Ok(Judged::Unknown(address)),
        None => ended(check_known(
            alloc,
            list.as_ref(),
            besides.more,
            tag,
            links,
            supposed,
            out,
        )),
    }
}

// The answer without an unknown address.
fn ended(answer: Result<Status, Fault<'_>>) -> Result<Judged, Fault<'_>>
    ensures { result ≡ ended_as answer.entry }
{
    match answer {
        Ok(status) => Ok(Judged::Ended(status)),
        Err(fault) => Err(fault),
    }
}

// The same of inputs that are read.
fn check_known<'a, W: Sink>(
    alloc: Global,
    list: Option<&Nodelist>,
    more: bool,
    tag: Option<&[u8]>,
    links: Vec<LinkFile>,
    supposed: Supposed<'_>,
    out: &mut W,
) -> Result<Status, Fault<'a>>
    ensures { Answers (IsKnownJudged links.items (option_copied list.entry) more (option_copied tag.entry) supposed.entry.named.now supposed.entry.missing supposed.entry.without.now)
        (IsKnownFault links.items (option_copied tag.entry) supposed.entry.named.now supposed.entry.missing supposed.entry.without.now)
        (output_of W.contents W.failures W.holds out.old) (output_of W.contents W.failures W.holds out.new) result }
{
    let tags = judged_tags(alloc, &links, tag, supposed.without)?;
    let judging = Judging {
        list,
        more,
        listed: is_all(tag),
    };
    let mut links = links;
    check_read(alloc, judging, supposed, &tags, &mut links, out)
}

// Whether all areas are judged.
fn is_all(tag: Option<&[u8]>) -> bool
    ensures { result ≡ is_none (option_copied tag.entry) }
{
    match tag {
        Some(_) => false,
        None => true,
    }
}

// The judged areas: that of the tag in upper case, or all areas. With left out systems these are the areas of their
// files, and those in which a file lists one of them.
fn judged_tags(
    alloc: Global,
    files: &[LinkFile],
    tag: Option<&[u8]>,
    out: &[Address],
) -> Result<Vec<Items<u8>>, AllocError>
    ensures { IfOk result (λ tags. AreJudgedTags files.now (option_copied tag.entry) out.now tags.items) }
{
    match tag {
        Some(tag) => one_upper(alloc, tag),
        None => judged_areas(alloc, files, out),
    }
}

// The tag in upper case alone.
fn one_upper(alloc: Global, tag: &[u8]) -> Result<Vec<Items<u8>>, AllocError>
    ensures { IfOk result (λ tags. tags.items ≡ upper tag.now ∷ []) }
{
    let tag = tag.to_ascii_uppercase(alloc)?;
    one_tag(alloc, &tag)
}

// The same of all areas.
fn judged_areas(
    alloc: Global,
    files: &[LinkFile],
    out: &[Address],
) -> Result<Vec<Items<u8>>, AllocError>
    ensures { IfOk result (λ tags. AreJudgedTags files.now None out.now tags.items) }
{
    let all = area_tags(alloc, files)?;
    judged_of(alloc, files, out, &all)
}

// Those of these areas that are judged.
fn judged_of(
    alloc: Global,
    files: &[LinkFile],
    out: &[Address],
    all: &[Vec<u8>],
) -> Result<Vec<Items<u8>>, AllocError>
    ensures { IfOk result (λ tags. tags.items ≡ filter (is_judged files.now out.now) (map (λ tag. tag.items) all.now)) }
{
    let mut tags = Vec::new(alloc);
    'all: for tag in all {
        if is_judged(files, out, tag) {
            tags.push(Items::new(Vec::from_slice(alloc, tag)?))?;
        }
    }
    Ok(tags)
}

// The answer on files that are read, to which those of the assumed systems are added.
fn check_read<'a, W: Sink>(
    alloc: Global,
    judging: Judging<'_>,
    supposed: Supposed<'_>,
    tags: &[Items<u8>],
    links: &mut Vec<LinkFile>,
    out: &mut W,
) -> Result<Status, Fault<'a>>
    ensures { Answers (IsJudged links.old.items (option_copied judging.entry.list) judging.entry.more judging.entry.listed tags.now supposed.entry.named.now supposed.entry.missing supposed.entry.without.now)
        (IsJudgingFault links.old.items tags.now supposed.entry.named.now supposed.entry.missing judging.entry.listed supposed.entry.without.now)
        (output_of W.contents W.failures W.holds out.old) (output_of W.contents W.failures W.holds out.new) result }
{
    let listings = listings(alloc, links.as_slice(), tags)?;
    let assumed = supposed_systems(
        alloc,
        links.as_slice(),
        &listings,
        supposed.named,
        supposed.missing,
    )?;
    let areas = SupposedAreas {
        tags,
        listings: &listings,
    };
    read_supposed(alloc, links, areas, judging.listed, &assumed)?;
    check_whole(
        alloc,
        judging,
        areas,
        links.as_slice(),
        &assumed,
        supposed.without,
        out,
    )
}

// The answer on these files and those of the assumed systems.
fn check_whole<'a, W: Sink>(
    alloc: Global,
    judging: Judging<'_>,
    areas: SupposedAreas<'_>,
    whole: &[LinkFile],
    assumed: &[Address],
    without: &[Address],
    out: &mut W,
) -> Result<Status, Fault<'a>>
    requires { length areas.listings.now ≡ length areas.tags.now }
    ensures { (given : List LinkFile) → AllZip (IsListing given) areas.entry.tags.now areas.entry.listings.now
        → Answers (IsLeftShown given whole.now assumed.now without.now (option_copied judging.entry.list) judging.entry.more judging.entry.listed areas.entry.tags.now)
        (IsLinkFault (texts_left without.now whole.now)) (output_of W.contents W.failures W.holds out.old) (output_of W.contents W.failures W.holds out.new) result }
{
    if without.is_empty() {
        let net = Net {
            whole,
            left: whole,
            assumed,
            out: without,
        };
        print_net(alloc, judging, areas, net, out)
    } else {
        let left = files_left(alloc, whole, without)?;
        let net = Net {
            whole,
            left: &left,
            assumed,
            out: without,
        };
        print_net(alloc, judging, areas, net, out)
    }
}

// Prints the lines of a net.
fn print_net<'a, W: Sink>(
    alloc: Global,
    judging: Judging<'_>,
    areas: SupposedAreas<'_>,
    net: Net<'_>,
    out: &mut W,
) -> Result<Status, Fault<'a>>
    requires { length areas.listings.now ≡ length areas.tags.now }
    ensures { (given : List LinkFile) → AllZip (IsListing given) areas.entry.tags.now areas.entry.listings.now
        → Answers (IsNetShown (judged_net given net.entry.whole.now net.entry.left.now net.entry.assumed.now net.entry.out.now) (option_copied judging.entry.list) judging.entry.more judging.entry.listed areas.entry.tags.now)
        (λ fault. ⊥) (output_of W.contents W.failures W.holds out.old) (output_of W.contents W.failures W.holds out.new) result }
{
    let mut lines = Vec::new(alloc);
    let noes = push_net(alloc, &mut lines, judging, areas, net)?;
    print_rest(&mut lines, out)?;
    Ok(status_of_verdicts(noes))
}
