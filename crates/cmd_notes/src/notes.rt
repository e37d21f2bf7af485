//! Notes on the faults that a command printed. The program looks at the files of the command again, but for those of a
//! net. A reason counts if its fault has the printed line, so a file that has changed since gets no note.

use crate::file_notes::{
    explain_files, explain_links, explain_outbound, explain_path, explain_paths,
};
use crate::packets::explain_packets;
use crate::reasons::{PathState, Reason, State, WordForm, push_note};
use crate::states::Usage;
use crate::word_notes::{
    explain_area, explain_fields, explain_index, explain_moment, explain_word, has_none_of,
};
use cmd_input::{MAX_TEXT_FILE, path_names, read_file};
use cmd_status::{Fault, print_rest};
use cmd_words::{
    BaseWords, CheckWords, NetWords, ParsedLine, PostStoredWords, PostWords, PurgeWords,
    ReplyWords, ResendWords, StationWords, TossWords, Words,
};
use disk_io::Sink;
use echo_stored::read_stored;
use std::fs;
use std::io::IsTerminal;

/// A command to be explained, and the base that it makes, if there is none before it.
#[derive(Clone, Copy)]
pub struct ExplainedCommand<'a> {
    rt: &'a HostRuntime,
    words: &'a Words<'a>,
    new_base: Option<&'a str>,
}

/// A printed fault line without its end.
#[derive(Clone, Copy)]
pub(crate) struct FaultLine<'a> {
    pub(crate) rt: &'a HostRuntime,
    line: &'a [u8],
}

impl FaultLine<'_> {
    pub(crate) fn is(&self, fault: Fault<'_>) -> bool {
        match format!(in self.rt.alloc(); "echonet: {fault}") {
            Ok(line) => line.as_bytes() == self.line,
            Err(_) => false,
        }
    }

    pub(crate) fn is_of_links(&self) -> bool {
        self.line.starts_with(b"echonet: L")
    }

    fn is_of_packet(&self) -> bool {
        self.line.starts_with(b"echonet: P") || self.line.starts_with(b"echonet: C1 ")
    }
}

pub(crate) fn tell<E: Sink>(rt: &HostRuntime, why: Reason<'_>, errors: &mut E) {
    let mut line = Vec::new(rt.alloc());
    if push_note(&mut line, why).is_ok() {
        let _ = print_rest(&mut line, errors);
    }
}

fn tell_state<E: Sink>(rt: &HostRuntime, path: &str, state: State, errors: &mut E) {
    tell(rt, Reason::Path(PathState { path, state }), errors);
}

impl<'a> ExplainedCommand<'a> {
    /// The command of these words, before it runs. None if notes are off: no `--explain`, and no terminal.
    pub fn of(rt: &'a HostRuntime, asked: &'a ParsedLine<'a>) -> Option<ExplainedCommand<'a>> {
        if !asked.explain && !rt.stderr().is_terminal() {
            return None;
        }
        let base = match &asked.words {
            Words::Station(StationWords::Toss(words)) => Some(words.place.base),
            Words::Station(StationWords::Scan(words)) => Some(words.place.base),
            _ => None,
        };
        Some(ExplainedCommand {
            rt,
            words: &asked.words,
            new_base: missing(rt, base),
        })
    }

    /// Prints a note on each of these fault lines with a known reason, and on what the command made.
    pub fn tell<E: Sink>(&self, printed: &[u8], errors: &mut E) {
        for line in printed.split(|byte| *byte == b'\n') {
            if !line.is_empty() {
                let met = FaultLine { rt: self.rt, line };
                explain(met, self.words, errors);
            }
        }
        if let Some(path) = self.new_base {
            if is_there(self.rt, path) {
                tell_state(self.rt, path, State::NewBase, errors);
            }
        }
        if printed.is_empty() {
            self.tell_no_folder(errors);
            tell_none_of_area(self.rt, self.words, errors);
        }
    }

    // Says that a scan found no folder: one without packets needs none.
    fn tell_no_folder<E: Sink>(&self, errors: &mut E) {
        if let Words::Station(StationWords::Scan(words)) = self.words {
            if !is_there(self.rt, words.folder) {
                tell_state(self.rt, words.folder, State::NoFolder, errors);
            }
        }
    }
}

pub(crate) fn is_there(rt: &HostRuntime, path: &str) -> bool {
    matches!(fs::exists(rt, path), Ok(true))
}

// Says that a command that ended well had no message of its area to print.
fn tell_none_of_area<E: Sink>(rt: &HostRuntime, words: &Words<'_>, errors: &mut E) {
    let (area, base) = match words {
        Words::Base(BaseWords::List(words)) => (words.area, words.base),
        Words::Base(BaseWords::Export(words)) => (words.area, words.base),
        Words::Base(BaseWords::ExportStored(words)) => (Some(words.area), words.base),
        Words::ExportJam(words) => (Some(words.area), words.base),
        _ => return,
    };
    if let Some(tag) = area {
        if has_none_of(rt, base, tag) {
            tell(rt, Reason::NoneOfArea(tag, base), errors);
        }
    }
}

fn missing<'a>(rt: &HostRuntime, path: Option<&'a str>) -> Option<&'a str> {
    match path {
        Some(path) if !is_there(rt, path) => Some(path),
        _ => None,
    }
}

fn explain<E: Sink>(met: FaultLine<'_>, words: &Words<'_>, errors: &mut E) {
    match words {
        Words::Net(words) => explain_net_words(met, words, errors),
        Words::Base(words) => explain_base_words(met, words, errors),
        Words::ExportJam(words) => explain_read(met, words.from, words.base, errors),
        Words::Station(words) => explain_station_words(met, words, errors),
    }
}

fn explain_net_words<E: Sink>(met: FaultLine<'_>, words: &NetWords<'_>, errors: &mut E) {
    match words {
        NetWords::Show { packet, .. } => explain_path(met, *packet, Usage::File, errors),
        NetWords::Nodelist { find, file } => {
            explain_word(met, Fault::BadAddress, WordForm::NodeAddress, *find, errors);
            explain_path(met, *file, Usage::File, errors);
        }
        NetWords::Check(words) => explain_check(met, words, errors),
        NetWords::Links { links, .. } => explain_paths(met, links, errors),
        NetWords::Why(words) => explain_paths(met, &words.links, errors),
        NetWords::Picture(words) => explain_paths(met, &words.links, errors),
        NetWords::Replay { script, links } => {
            explain_path(met, *script, Usage::File, errors);
            explain_paths(met, links, errors);
        }
    }
}

fn explain_base_words<E: Sink>(met: FaultLine<'_>, words: &BaseWords<'_>, errors: &mut E) {
    match words {
        BaseWords::List(words) => explain_read(met, words.from, words.base, errors),
        BaseWords::Export(words) => explain_read(met, words.from, words.base, errors),
        BaseWords::ExportStored(words) => {
            explain_read(met, words.from, words.base, errors);
            explain_path(met, words.folder, Usage::Folder, errors);
        }
        BaseWords::Convert { from, to } => {
            explain_path(met, *from, Usage::Base, errors);
            explain_path(met, *to, Usage::New, errors);
        }
        BaseWords::Resend(words) => explain_resend(met, words, errors),
    }
}

fn explain_station_words<E: Sink>(met: FaultLine<'_>, words: &StationWords<'_>, errors: &mut E) {
    match words {
        StationWords::Post(words) => explain_post(met, words, errors),
        StationWords::PostMail(words) => {
            explain_moment(met, words.at, Some(words.serial), errors);
            explain_files(met, words.place, errors);
        }
        StationWords::PostStored(words) => explain_stored(met, words, errors),
        StationWords::PostJam(words) => {
            explain_moment(met, words.at, Some(words.serial), errors);
            explain_files(met, words.place, errors);
            explain_area(met, words.area, words.place.links, errors);
        }
        StationWords::Reply(words) => explain_reply(met, words, errors),
        StationWords::Toss(words) => explain_toss(met, words, errors),
        StationWords::Scan(words) => {
            explain_moment(met, words.at, None, errors);
            explain_files(met, words.place, errors);
            explain_path(met, words.folder, Usage::Folder, errors);
            explain_outbound(met, words.place.base, words.folder, errors);
        }
        StationWords::Purge(words) => explain_purge(met, *words, errors),
    }
}

fn explain_purge<E: Sink>(met: FaultLine<'_>, words: PurgeWords<'_>, errors: &mut E) {
    explain_word(met, Fault::BadNumber, WordForm::Number, words.to, errors);
    explain_files(met, words.place, errors);
    if let Some(tag) = words.area {
        explain_area(met, tag, words.place.links, errors);
    }
}

fn explain_check<E: Sink>(met: FaultLine<'_>, words: &CheckWords<'_>, errors: &mut E) {
    if let Some(list) = words.nodelist {
        explain_path(met, list, Usage::File, errors);
    }
    explain_paths(met, &words.links, errors);
}

fn explain_read<E: Sink>(met: FaultLine<'_>, from: Option<&str>, base: &str, errors: &mut E) {
    explain_word(met, Fault::BadNumber, WordForm::Number, from, errors);
    explain_path(met, base, Usage::Base, errors);
}

fn explain_post<E: Sink>(met: FaultLine<'_>, words: &PostWords<'_>, errors: &mut E) {
    explain_moment(met, words.at, Some(words.serial), errors);
    explain_files(met, words.place, errors);
    explain_area(met, words.area, words.place.links, errors);
    let (to, from) = (words.to.len(), words.from.len());
    explain_fields(met, to, from, words.subject.len(), errors);
}

fn explain_stored<E: Sink>(met: FaultLine<'_>, words: &PostStoredWords<'_>, errors: &mut E) {
    explain_moment(met, words.at, Some(words.serial), errors);
    explain_path(met, words.message, Usage::File, errors);
    explain_files(met, words.place, errors);
    explain_area(met, words.area, words.place.links, errors);
    let Ok(bytes) = read_file(met.rt, words.message, MAX_TEXT_FILE) else {
        return;
    };
    if let Ok(draft) = read_stored(met.rt.alloc(), &bytes) {
        let (to, from) = (draft.to_name.len(), draft.from_name.len());
        explain_fields(met, to, from, draft.subject.len(), errors);
    }
}

fn explain_reply<E: Sink>(met: FaultLine<'_>, words: &ReplyWords<'_>, errors: &mut E) {
    explain_moment(met, words.at, Some(words.serial), errors);
    explain_files(met, words.place, errors);
    explain_fields(met, 0, words.from.len(), 0, errors);
    explain_index(met, words, errors);
}

fn explain_resend<E: Sink>(met: FaultLine<'_>, words: &ResendWords<'_>, errors: &mut E) {
    let form = WordForm::NodeAddress;
    explain_word(met, Fault::BadAddress, form, Some(words.to), errors);
    explain_word(met, Fault::BadNumber, WordForm::Number, words.from, errors);
    explain_moment(met, words.at, None, errors);
    if let Some(list) = words.has {
        explain_path(met, list, Usage::File, errors);
    }
    let _ = explain_links(met, words.place.links, errors);
    explain_path(met, words.place.base, Usage::Base, errors);
    explain_path(met, words.folder, Usage::Folder, errors);
}

fn explain_toss<E: Sink>(met: FaultLine<'_>, words: &TossWords<'_>, errors: &mut E) {
    explain_word(
        met,
        Fault::BadNumber,
        WordForm::Limit,
        words.text_limit,
        errors,
    );
    if explain_links(met, words.place.links, errors) {
        return;
    }
    explain_path(met, words.place.base, Usage::Changed, errors);
    explain_paths(met, &words.packets, errors);
    if met.is_of_packet() {
        let found = path_names(met.rt, &words.packets);
        explain_packets(met, words, &found.names, errors);
    }
}
