//! The commands `picture`, `why` and `replay`: they read their files and call the functions of values.

use crate::answer_notes::{ShownArea, report_noted, tell_shown};
use crate::noting::Shown;
use crate::placing::Given;
use crate::supposing::{add_supposed, addresses_in, status_of, supposed};
use cmd_check::{Judged, picture, picture_remaining, print_supposed};
use cmd_input::{MAX_TEXT_FILE, PathNames, Progress, read_file, read_links};
use cmd_status::{Fault, Status, parse_number};
use cmd_suppose::{Supposed, SupposedHere, first_unknown_address, suppose};
use cmd_why::{Wanted, picture_why, replay, why};
use cmd_words::{PictureWords, WhyWords};
use disk_io::Sink;
use echo_addr::{Address, Items};
use echo_net::ReplayProgress;
use std::alloc::{AllocError, Global};
use std::collections::hash_map::RandomState;

// The hasher. If no seed for it is available, that is a failed read of the first link file.
fn hasher_for<'a>(rt: &HostRuntime, links: &'a PathNames<'a>) -> Result<RandomState, Fault<'a>> {
    let first = match links.names.first() {
        Some(name) => name.shown(),
        None => "-",
    };
    RandomState::new(rt).map_err(|_| Fault::CannotUse(first))
}

fn noted<'a, W: Sink>(
    alloc: Global,
    begin: &[u8],
    here: &SupposedHere,
    status: Status,
    out: &mut W,
) -> Result<Status, Fault<'a>> {
    if !here.systems.is_empty() {
        print_supposed(alloc, begin, here, &[], out)?;
    }
    Ok(status)
}

fn paths_of(rt: &HostRuntime, links: &PathNames<'_>) -> Result<Vec<Items<u8>>, AllocError> {
    let mut paths = Vec::new(rt.alloc());
    for name in &links.names {
        let path = Vec::from_slice(rt.alloc(), name.shown().as_bytes())?;
        paths.push(Items::new(path))?;
    }
    Ok(paths)
}

// The number of the fault that `why` is to show. One that is too great is that of no fault.
fn fault_in<'a>(word: Option<&str>) -> Result<usize, Fault<'a>> {
    match word {
        Some(word) => Ok(usize::try_from(parse_number(word)?).unwrap_or(usize::MAX)),
        None => Ok(0),
    }
}

// The systems that the words of `why` assume, and the number of the fault.
#[derive(Drop)]
struct WhyAsked {
    assumed: Vec<Address>,
    fault: usize,
}

fn why_asked<'a>(rt: &HostRuntime, words: &WhyWords<'a>) -> Result<WhyAsked, Fault<'a>> {
    let assumed = addresses_in(rt, &words.assume)?;
    match fault_in(words.fault) {
        Ok(fault) => Ok(WhyAsked { assumed, fault }),
        Err(fault) => Err(fault),
    }
}

/// `why [--fault N] [--assume ADDRESS].. [--assume-missing] TAG LINKS...`
pub(crate) fn run_why<W: Sink, E: Sink>(
    rt: &HostRuntime,
    words: &WhyWords<'_>,
    links: &PathNames<'_>,
    notes: bool,
    out: &mut W,
    errors: &mut E,
) -> Status {
    match why_asked(rt, words) {
        Ok(asked) => why_read(rt, words, &asked, links, notes, out, errors),
        Err(fault) => fault.report(errors),
    }
}

fn why_read<W: Sink, E: Sink>(
    rt: &HostRuntime,
    words: &WhyWords<'_>,
    asked: &WhyAsked,
    links: &PathNames<'_>,
    notes: bool,
    out: &mut W,
    errors: &mut E,
) -> Status {
    let (files, stopped) = read_links(rt, links);
    let mut files = files;
    let answer = why_shown(rt, words, asked, links, &mut files, stopped, out);
    let area = ShownArea {
        tag: words.tag.as_bytes(),
        without: &[],
        shown: Shown::One(asked.fault),
    };
    let given = Given {
        names: &links.names,
        texts: &files,
    };
    end_shown(rt.alloc(), answer, area, given, notes, errors)
}

fn why_shown<'a, W: Sink>(
    rt: &HostRuntime,
    words: &WhyWords<'a>,
    asked: &WhyAsked,
    links: &'a PathNames<'a>,
    files: &mut Vec<Items<u8>>,
    stopped: Option<Fault<'a>>,
    out: &mut W,
) -> Result<Judged, Fault<'a>> {
    let hasher = hasher_for(rt, links)?;
    let paths = paths_of(rt, links)?;
    let supposed = supposed(&asked.assumed, words.assume_missing, &[]);
    let here = add_supposed(rt.alloc(), words.tag, files, supposed, stopped.is_none())?;
    let wanted = Wanted {
        paths: &paths,
        fault: asked.fault,
    };
    let tag = words.tag.as_bytes();
    let status = why(
        rt.alloc(),
        tag,
        files.as_slice(),
        wanted,
        stopped,
        hasher,
        out,
    )?;
    let status = noted(rt.alloc(), b"; ", &here, status, out)?;
    Ok(Judged::Ended(status))
}

// Ends a command that showed an area, with its notes. An unknown address is reported.
fn end_shown<E: Sink>(
    alloc: Global,
    answer: Result<Judged, Fault<'_>>,
    area: ShownArea<'_>,
    given: Given<'_>,
    notes: bool,
    errors: &mut E,
) -> Status {
    match answer {
        Ok(judged) => {
            let status = status_of(judged, errors);
            if notes && status == Status::Differs {
                tell_shown(alloc, area, given, errors);
            }
            status
        }
        Err(fault) => report_noted(alloc, fault, given, notes, errors),
    }
}

// The systems that the words of `picture` assume and leave out.
#[derive(Drop)]
struct PictureAsked {
    assumed: Vec<Address>,
    without: Vec<Address>,
}

fn picture_asked<'a>(
    rt: &HostRuntime,
    words: &PictureWords<'a>,
) -> Result<PictureAsked, Fault<'a>> {
    let assumed = addresses_in(rt, &words.assume)?;
    match addresses_in(rt, &words.without) {
        Ok(without) => Ok(PictureAsked { assumed, without }),
        Err(fault) => Err(fault),
    }
}

/// `picture [--why] [--assume ADDRESS].. [--assume-missing] [--without ADDRESS].. TAG LINKS...`
pub(crate) fn run_picture<W: Sink, E: Sink>(
    rt: &HostRuntime,
    words: &PictureWords<'_>,
    links: &PathNames<'_>,
    notes: bool,
    out: &mut W,
    errors: &mut E,
) -> Status {
    match picture_asked(rt, words) {
        Ok(asked) => picture_read(rt, words, &asked, links, notes, out, errors),
        Err(fault) => fault.report(errors),
    }
}

fn picture_read<W: Sink, E: Sink>(
    rt: &HostRuntime,
    words: &PictureWords<'_>,
    asked: &PictureAsked,
    links: &PathNames<'_>,
    notes: bool,
    out: &mut W,
    errors: &mut E,
) -> Status {
    let (files, stopped) = read_links(rt, links);
    let mut files = files;
    let supposed = supposed(&asked.assumed, words.assume_missing, &asked.without);
    let answer = pictured(rt, words, supposed, links, &mut files, stopped, out);
    let area = ShownArea {
        tag: words.tag.as_bytes(),
        without: &asked.without,
        shown: Shown::Each,
    };
    let given = Given {
        names: &links.names,
        texts: &files,
    };
    end_shown(rt.alloc(), answer, area, given, notes, errors)
}

fn pictured<'a, W: Sink>(
    rt: &HostRuntime,
    words: &PictureWords<'a>,
    supposed: Supposed<'_>,
    links: &'a PathNames<'a>,
    files: &mut Vec<Items<u8>>,
    stopped: Option<Fault<'a>>,
    out: &mut W,
) -> Result<Judged, Fault<'a>> {
    if !supposed.without.is_empty() {
        return pictured_without(rt.alloc(), words.tag, files, stopped, supposed, out);
    }
    let status = if words.why {
        let hasher = hasher_for(rt, links)?;
        pictured_why(rt.alloc(), words.tag, files, stopped, supposed, hasher, out)?
    } else {
        pictured_alone(rt.alloc(), words.tag, files, stopped, supposed, out)?
    };
    Ok(Judged::Ended(status))
}

fn pictured_why<'a, W: Sink>(
    alloc: Global,
    tag: &str,
    files: &mut Vec<Items<u8>>,
    stopped: Option<Fault<'a>>,
    supposed: Supposed<'_>,
    hasher: RandomState,
    out: &mut W,
) -> Result<Status, Fault<'a>> {
    let here = add_supposed(alloc, tag, files, supposed, stopped.is_none())?;
    let status = picture_why(
        alloc,
        tag.as_bytes(),
        files.as_slice(),
        stopped,
        hasher,
        out,
    )?;
    noted(alloc, b"// ", &here, status, out)
}

fn pictured_alone<'a, W: Sink>(
    alloc: Global,
    tag: &str,
    files: &mut Vec<Items<u8>>,
    stopped: Option<Fault<'a>>,
    supposed: Supposed<'_>,
    out: &mut W,
) -> Result<Status, Fault<'a>> {
    let here = add_supposed(alloc, tag, files, supposed, stopped.is_none())?;
    let status = picture(alloc, tag.as_bytes(), files.as_slice(), stopped, out)?;
    noted(alloc, b"// ", &here, status, out)
}

fn pictured_without<'a, W: Sink>(
    alloc: Global,
    tag: &str,
    files: &mut Vec<Items<u8>>,
    stopped: Option<Fault<'a>>,
    supposed: Supposed<'_>,
    out: &mut W,
) -> Result<Judged, Fault<'a>> {
    let unknown = first_unknown_address(alloc, files.as_slice(), supposed.without)?;
    if let Some(fault) = stopped {
        return Err(fault);
    }
    if let Some(address) = unknown {
        return Ok(Judged::Unknown(address));
    }
    let here = suppose(alloc, tag.as_bytes(), files, supposed)?;
    let status = picture_remaining(
        alloc,
        tag.as_bytes(),
        files.as_slice(),
        supposed.without,
        out,
    )?;
    print_supposed(alloc, b"// ", &here, supposed.without, out)?;
    Ok(Judged::Ended(status))
}

// The first input of `replay`: the script. If no seed for the hasher is available, that is a failed read.
fn replay_input<'a>(
    rt: &HostRuntime,
    script: &'a str,
) -> Result<(Vec<u8>, RandomState), Fault<'a>> {
    let bytes = read_file(rt, script, MAX_TEXT_FILE)?;
    let hasher = RandomState::new(rt).map_err(|_| Fault::CannotUse(script))?;
    Ok((bytes, hasher))
}

#[derive(Drop)]
struct Events<'p, 'r> {
    progress: &'p Progress<'r>,
}

impl ReplayProgress for Events<'_, '_> {
    fn tell(&self, happened: usize, events: usize) {
        if self.progress.is_due() {
            self.progress.tell_event(happened, events);
        }
    }
}

/// `replay SCRIPT LINKS...`
pub(crate) fn run_replay<W: Sink, E: Sink>(
    rt: &HostRuntime,
    script: &str,
    links: &PathNames<'_>,
    notes: bool,
    progress: &Progress<'_>,
    out: &mut W,
    errors: &mut E,
) -> Status {
    match replay_input(rt, script) {
        Ok((bytes, hasher)) => {
            let asked = Replayed {
                script: &bytes,
                links,
                notes,
                reported: Events { progress },
            };
            replay_read(rt, &asked, hasher, out, errors)
        }
        Err(fault) => fault.report(errors),
    }
}

// What is replayed, and on which files.
#[derive(Drop)]
struct Replayed<'p, 'r, 'n> {
    script: &'n [u8],
    links: &'n PathNames<'n>,
    notes: bool,
    reported: Events<'p, 'r>,
}

fn replay_read<W: Sink, E: Sink>(
    rt: &HostRuntime,
    asked: &Replayed<'_, '_, '_>,
    hasher: RandomState,
    out: &mut W,
    errors: &mut E,
) -> Status {
    let (files, stopped) = read_links(rt, asked.links);
    let given = Given {
        names: &asked.links.names,
        texts: &files,
    };
    match replay(
        rt.alloc(),
        asked.script,
        &files,
        stopped,
        hasher,
        &asked.reported,
        out,
    ) {
        Ok(status) => status,
        Err(fault) => report_noted(rt.alloc(), fault, given, asked.notes, errors),
    }
}
