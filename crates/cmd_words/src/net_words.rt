//! The words of the commands on link files.

use crate::words::{CheckWords, Paths, PictureWords, WhyWords, Words};
use clap::ArgMatches;
use std::alloc::{AllocError, Global};

// The paths: words of this name, or the lines of a list.
pub(crate) fn paths_in<'a>(
    alloc: Global,
    matches: &ArgMatches<'a>,
    id: &str,
    from: &str,
) -> Result<Paths<'a>, AllocError> {
    Ok(Paths {
        words: values(alloc, matches, id)?,
        from: matches.get_str(from),
    })
}

pub(crate) fn links<'a>(alloc: Global, matches: &ArgMatches<'a>) -> Result<Paths<'a>, AllocError> {
    paths_in(alloc, matches, "LINKS", "links-from")
}

fn values<'a>(
    alloc: Global,
    matches: &ArgMatches<'a>,
    id: &str,
) -> Result<Vec<&'a str>, AllocError> {
    Vec::from_slice(alloc, matches.get_strs(id).unwrap_or(&[]))
}

// Each of these is of one command's own type. A function of type `Words` has all commands in each step of its proof.
pub(crate) fn check_words<'a>(
    alloc: Global,
    matches: &ArgMatches<'a>,
) -> Result<Option<CheckWords<'a>>, AllocError> {
    let first = matches.get_str("TAG");
    if matches.get_flag("all") {
        let links = links_after(alloc, matches, first)?;
        return check_with(alloc, matches, None, links);
    }
    match first {
        Some(tag) => {
            let links = links(alloc, matches)?;
            check_with(alloc, matches, Some(tag), links)
        }
        None => Ok(None),
    }
}

// With `--all` the first word is a link file too.
fn links_after<'a>(
    alloc: Global,
    matches: &ArgMatches<'a>,
    first: Option<&'a str>,
) -> Result<Paths<'a>, AllocError> {
    let mut links = links(alloc, matches)?;
    if let Some(path) = first {
        links.words.insert(0, path)?;
    }
    Ok(links)
}

fn check_with<'a>(
    alloc: Global,
    matches: &ArgMatches<'a>,
    tag: Option<&'a str>,
    links: Paths<'a>,
) -> Result<Option<CheckWords<'a>>, AllocError> {
    let assume = values(alloc, matches, "assume")?;
    match values(alloc, matches, "without") {
        Ok(without) => Ok(Some(CheckWords {
            nodelist: matches.get_str("nodelist"),
            more: matches.get_flag("more"),
            assume,
            assume_missing: matches.get_flag("assume-missing"),
            without,
            tag,
            links,
        })),
        Err(refused) => Err(refused),
    }
}

pub(crate) fn picture_words<'a>(
    alloc: Global,
    matches: &ArgMatches<'a>,
    tag: &'a str,
) -> Result<PictureWords<'a>, AllocError> {
    let assume = values(alloc, matches, "assume")?;
    let without = values(alloc, matches, "without")?;
    match links(alloc, matches) {
        Ok(links) => Ok(PictureWords {
            why: matches.get_flag("why"),
            assume,
            assume_missing: matches.get_flag("assume-missing"),
            without,
            tag,
            links,
        }),
        Err(refused) => Err(refused),
    }
}

pub(crate) fn why_words<'a>(
    alloc: Global,
    matches: &ArgMatches<'a>,
    tag: &'a str,
) -> Result<WhyWords<'a>, AllocError> {
    let assume = values(alloc, matches, "assume")?;
    match links(alloc, matches) {
        Ok(links) => Ok(WhyWords {
            fault: matches.get_str("fault"),
            assume,
            assume_missing: matches.get_flag("assume-missing"),
            tag,
            links,
        }),
        Err(refused) => Err(refused),
    }
}
