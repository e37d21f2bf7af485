//! The commands `list` and `export`, on a base that they open.

use base_folder::MessageSource;
use cmd_door::{UseMessages, with_base, with_reported};
use cmd_input::Progress;
use cmd_print::ListForm;
use cmd_repair::list_ids;
use cmd_show::{ExportQuery, ListQuery, export, list, list_areas, tell_lost};
use cmd_status::{Fault, Status, parse_number};
use cmd_words::{ExportWords, ListWords};
use disk_io::Sink;
use echo_export::Form;

/// The number of this word, or that of the first message.
pub(crate) fn first_number<'a>(word: Option<&str>) -> Result<u64, Fault<'a>> {
    match word {
        Some(word) => parse_number(word),
        None => Ok(0),
    }
}

/// `list [--short | --areas | --ids] [--area TAG] [--from I] BASE`: it judges the number first, then the base. Of a folder it
/// reads only the messages asked for.
pub(crate) fn run_list<'a, W: Sink>(
    rt: &HostRuntime,
    words: &ListWords<'a>,
    progress: &Progress<'_>,
    out: &mut W,
) -> Result<Status, Fault<'a>> {
    let first = first_number(words.from)?;
    // `list_ids` judges each message before it prints, so that it is read once.
    let looked = if words.ids { u64::MAX } else { first };
    let mut listing = Listing {
        rt,
        words,
        first,
        out,
    };
    with_reported(rt, words.base, looked, progress, &mut listing)
}

#[derive(Drop)]
struct Listing<'q, 'a, W> {
    rt: &'q HostRuntime,
    words: &'q ListWords<'a>,
    first: u64,
    out: &'q mut W,
}

impl<'a, W: Sink> UseMessages<'a> for Listing<'_, 'a, W> {
    type Answer = Status;

    fn run<M: MessageSource>(&mut self, messages: &mut M) -> Result<Status, Fault<'a>> {
        list_opened(self.rt, self.words, self.first, messages, self.out)
    }
}

fn list_opened<'a, M: MessageSource, W: Sink>(
    rt: &HostRuntime,
    words: &ListWords<'a>,
    first: u64,
    messages: &mut M,
    out: &mut W,
) -> Result<Status, Fault<'a>>
    requires { (M.state messages.old).is_ready }
{
    let area = words.area.map(|tag| tag.as_bytes());
    if words.ids {
        return list_ids(rt.alloc(), area.unwrap_or(&[]), words.base, messages, out);
    }
    if words.areas {
        return list_areas(rt.alloc(), words.base, messages, out);
    }
    let form = if words.short {
        ListForm::Short
    } else {
        ListForm::Whole
    };
    let asked = ListQuery { form, area, first };
    list(rt.alloc(), &asked, words.base, messages, out)
}

// `export [--area TAG] [--from I] [--purged] [--mbox | --json] BASE`, judged as `list` is.
fn export_given<'a, W: Sink>(
    rt: &HostRuntime,
    words: &ExportWords<'a>,
    out: &mut W,
) -> Result<u128, Fault<'a>> {
    let asked = ExportQuery {
        form: if words.json {
            Form::Json
        } else {
            Form::Mailbox
        },
        area: words.area.map(|tag| tag.as_bytes()),
        first: first_number(words.from)?,
        purged: words.purged,
    };
    export_asked(rt, words.base, &asked, out)
}

fn export_asked<'a, W: Sink>(
    rt: &HostRuntime,
    base: &'a str,
    asked: &ExportQuery<'_>,
    out: &mut W,
) -> Result<u128, Fault<'a>> {
    let mut exporting = Exporting {
        rt,
        base,
        asked,
        out,
    };
    with_base(rt, base, asked.first, &mut exporting)
}

#[derive(Drop)]
struct Exporting<'q, 'a, W> {
    rt: &'q HostRuntime,
    base: &'a str,
    asked: &'q ExportQuery<'q>,
    out: &'q mut W,
}

impl<'a, W: Sink> UseMessages<'a> for Exporting<'_, 'a, W> {
    type Answer = u128;

    fn run<M: MessageSource>(&mut self, messages: &mut M) -> Result<u128, Fault<'a>> {
        export(self.rt.alloc(), self.asked, self.base, messages, self.out)
    }
}

/// `export`, and on standard error how many characters were lost.
pub(crate) fn run_export<W: Sink, E: Sink>(
    rt: &HostRuntime,
    words: &ExportWords<'_>,
    out: &mut W,
    errors: &mut E,
) -> Status {
    match export_given(rt, words, out) {
        Ok(count) => {
            tell_lost(rt.alloc(), count, errors);
            Status::Good
        }
        Err(fault) => fault.report(errors),
    }
}
