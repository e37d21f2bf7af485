//! The command `check`: it reads its files, and calls the functions of values. Its status is that of their answer for the files
//! that it read, and none is left out (`run_check`).
ghost use Rattle.std.specs.Prelude.{◌≡◌, ◌⊎◌, IfOk, Option, is_some, length, option_copied, option_map, vec_len};
ghost use Rattle.cmd_status.specs.Devices.{output_of};
ghost use Rattle.cmd_net.specs.Answered.{CheckedSo, ChecksFiles, EndsChecked, IsCheckRun, IsRefused, PlainAnswers};

use crate::answer_notes::report_noted;
use crate::checked_notes::tell_checked;
use crate::placing::Given;
use crate::supposing::{addresses_in, status_of, supposed, supposes};
use cmd_check::{Besides, Judged, check, check_all, check_supposing};
use cmd_input::{MAX_INPUT, PathNames, read_if_given, read_links};
use cmd_status::{Fault, Status};
use cmd_suppose::Supposed;
use cmd_words::CheckWords;
use disk_io::Sink;
use echo_addr::{Address, Items};
use std::alloc::Global;

/// What `check` is asked: which area, or all of them, and as if which systems had no file.
#[derive(Clone, Copy)]
pub(crate) struct Asked<'n> {
    pub(crate) besides: Besides<'n>,
    pub(crate) tag: Option<&'n [u8]>,
    pub(crate) supposed: Supposed<'n>,
}

// The systems that the words name, and the nodelist.
#[derive(Drop)]
struct Named {
    assumed: Vec<Address>,
    without: Vec<Address>,
    list: Option<Vec<u8>>,
}

/// `check [--nodelist LIST] [--more] [--assume ADDRESS].. [--assume-missing] [--without ADDRESS].. TAG LINKS...`, and
/// `check --all` without a tag
pub(crate) fn run_check<W: Sink, E: Sink>(
    rt: &HostRuntime,
    words: &CheckWords<'_>,
    links: &PathNames<'_>,
    notes: bool,
    out: &mut W,
    errors: &mut E,
) -> Status
    ensures { IsCheckRun (length links.now.names.items) (is_some words.now.nodelist) (length words.now.assume.items) (length words.now.without.items) words.now.more (option_copied words.now.tag) words.now.assume_missing
        (output_of W.contents W.failures W.holds out.old) (output_of W.contents W.failures W.holds out.new) result
        ⊎ IsRefused (output_of W.contents W.failures W.holds out.old) (output_of W.contents W.failures W.holds out.new) result }
{
    match named_in(rt, words) {
        Ok(named) => check_named(rt, words, &named, links, notes, out, errors),
        Err(fault) => fault.report(errors),
    }
}

fn named_in<'a>(rt: &HostRuntime, words: &CheckWords<'a>) -> Result<Named, Fault<'a>>
    ensures assumed { IfOk result (λ named. length named.assumed.items ≡ length words.now.assume.items) }
    ensures without { IfOk result (λ named. length named.without.items ≡ length words.now.without.items) }
    ensures listed { IfOk result (λ named. is_some named.list ≡ is_some words.now.nodelist) }
{
    let assumed = addresses_in(rt, &words.assume)?;
    let without = addresses_in(rt, &words.without)?;
    match read_if_given(rt, words.nodelist, MAX_INPUT) {
        Ok(list) => Ok(Named {
            assumed,
            without,
            list,
        }),
        Err(fault) => Err(fault),
    }
}

// The nodelist, if one is given.
fn list_in(named: &Named) -> Option<&[u8]>
    ensures { option_copied result ≡ option_map (λ bytes. bytes.items) named.now.list }
{
    match &named.list {
        Some(bytes) => Some(bytes.as_slice()),
        None => None,
    }
}

fn tag_in<'a>(words: &CheckWords<'a>) -> Option<&'a [u8]>
    ensures { option_copied result ≡ option_copied words.now.tag }
{
    match words.tag {
        Some(tag) => Some(tag.as_bytes()),
        None => None,
    }
}

fn check_named<W: Sink, E: Sink>(
    rt: &HostRuntime,
    words: &CheckWords<'_>,
    named: &Named,
    links: &PathNames<'_>,
    notes: bool,
    out: &mut W,
    errors: &mut E,
) -> Status
    ensures { ChecksFiles (length links.now.names.items) (option_map (λ bytes. bytes.items) named.now.list) words.now.more (option_copied words.now.tag) named.now.assumed.items words.now.assume_missing named.now.without.items
        (output_of W.contents W.failures W.holds out.old) (output_of W.contents W.failures W.holds out.new) result }
{
    let asked = Asked {
        besides: Besides {
            nodelist: list_in(named),
            more: words.more,
        },
        tag: tag_in(words),
        supposed: supposed(&named.assumed, words.assume_missing, &named.without),
    };
    let (texts, stopped) = read_links(rt, links);
    let given = Given {
        names: &links.names,
        texts: &texts,
    };
    check_given(rt.alloc(), asked, given, stopped, notes, out, errors)
}

fn check_given<W: Sink, E: Sink>(
    alloc: Global,
    asked: Asked<'_>,
    given: Given<'_>,
    stopped: Option<Fault<'_>>,
    notes: bool,
    out: &mut W,
    errors: &mut E,
) -> Status
    ensures { EndsChecked (option_copied asked.entry.besides.nodelist) asked.entry.besides.more (option_copied asked.entry.tag) given.entry.texts.now asked.entry.supposed.named.now asked.entry.supposed.missing asked.entry.supposed.without.now stopped.entry
        (output_of W.contents W.failures W.holds out.old) (output_of W.contents W.failures W.holds out.new) result }
{
    match answered(alloc, asked, given.texts, stopped, out) {
        Ok(judged) => {
            let status = status_of(judged, errors);
            if notes && has_notes(judged, asked.supposed) {
                tell_checked(alloc, asked, given, errors);
            }
            status
        }
        Err(fault) => report_noted(alloc, fault, given, notes, errors),
    }
}

// A no has notes, and what was not seen behind assumed systems.
fn has_notes(judged: Judged, supposed: Supposed<'_>) -> bool {
    match judged {
        Judged::Ended(Status::Differs) => true,
        Judged::Ended(_) => supposes(supposed),
        Judged::Unknown(_) => false,
    }
}

fn answered<'a, W: Sink>(
    alloc: Global,
    asked: Asked<'_>,
    files: &[Items<u8>],
    stopped: Option<Fault<'a>>,
    out: &mut W,
) -> Result<Judged, Fault<'a>>
    ensures { CheckedSo (option_copied asked.entry.besides.nodelist) asked.entry.besides.more (option_copied asked.entry.tag) files.now asked.entry.supposed.named.now asked.entry.supposed.missing asked.entry.supposed.without.now stopped.entry
        (output_of W.contents W.failures W.holds out.old) (output_of W.contents W.failures W.holds out.new) result }
{
    let Asked {
        besides,
        tag,
        supposed,
    } = asked;
    if supposes(supposed) {
        return check_supposing(alloc, besides, tag, files, supposed, stopped, out);
    }
    match plainly_answered(alloc, besides, tag, files, stopped, out) {
        Ok(status) => Ok(Judged::Ended(status)),
        Err(fault) => Err(fault),
    }
}

// Without supposed systems.
fn plainly_answered<'a, W: Sink>(
    alloc: Global,
    besides: Besides<'_>,
    tag: Option<&[u8]>,
    files: &[Items<u8>],
    stopped: Option<Fault<'a>>,
    out: &mut W,
) -> Result<Status, Fault<'a>>
    ensures { PlainAnswers (option_copied besides.entry.nodelist) besides.entry.more (option_copied tag.entry) files.now stopped.entry (output_of W.contents W.failures W.holds out.old) (output_of W.contents W.failures W.holds out.new) result }
{
    match tag {
        Some(tag) => check(alloc, besides, tag, files, stopped, out),
        None => check_all(alloc, besides, files, stopped, out),
    }
}
