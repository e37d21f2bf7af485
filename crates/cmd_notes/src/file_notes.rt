//! The notes on faults of files that are read again.

use crate::notes::{FaultLine, tell};
use crate::reasons::{PathState, Reason, State, WrongLine, push_note};
use crate::states::{Usage, state_at};
use cmd_base::is_folder;
use cmd_input::{MAX_TEXT_FILE, folder_path, lead_to_one, path_names, read_file};
use cmd_show::{FaultyLine, Judged, judge};
use cmd_status::Fault;
use cmd_words::{Paths, Place};
use disk_io::Sink;
use echo_links::LinkFault;
use std::alloc::AllocError;
use std::{fs, str};

/// The most bytes of a path.
const MAX_PATH: usize = 4_096;

pub(crate) fn explain_path<E: Sink>(met: FaultLine<'_>, path: &str, usage: Usage, errors: &mut E) {
    if met.is(Fault::CannotUse(path)) {
        if let Some(found) = state_at(met.rt, path, usage) {
            tell(met.rt, Reason::Path(found), errors);
        }
    }
}

pub(crate) fn explain_files<E: Sink>(met: FaultLine<'_>, place: Place<'_>, errors: &mut E) {
    let _ = explain_links(met, place.links, errors);
    explain_path(met, place.base, Usage::Changed, errors);
}

/// A link file. The answer is whether it has a line that is explained.
pub(crate) fn explain_links<E: Sink>(met: FaultLine<'_>, path: &str, errors: &mut E) -> bool {
    explain_path(met, path, Usage::File, errors);
    if !met.is_of_links() {
        return false;
    }
    let Ok(bytes) = read_file(met.rt, path, MAX_TEXT_FILE) else {
        return false;
    };
    match judge(met.rt.alloc(), &bytes) {
        Ok(Judged::Faulty(lines)) => {
            if let Some(line) = lines.as_slice().first() {
                explain_line(met, path, line, errors);
            }
            true
        }
        _ => false,
    }
}

fn explain_line<E: Sink>(met: FaultLine<'_>, path: &str, line: &FaultyLine, errors: &mut E) {
    if met.is(Fault::Link(line.fault)) {
        tell(met.rt, reason_of(path, line), errors);
    }
}

/// Adds the note on a faulty line of the link file with this path.
pub fn push_line_note(
    lines: &mut Vec<u8>,
    path: &str,
    line: &FaultyLine,
) -> Result<(), AllocError> {
    push_note(lines, reason_of(path, line))
}

fn reason_of<'a>(path: &'a str, line: &'a FaultyLine) -> Reason<'a> {
    match line.fault {
        LinkFault::NoSystem { .. } => Reason::Path(PathState {
            path,
            state: State::NoSystem,
        }),
        fault => Reason::Line(WrongLine {
            path,
            fault,
            word: line.word.as_slice(),
        }),
    }
}

pub(crate) fn explain_paths<E: Sink>(met: FaultLine<'_>, paths: &Paths<'_>, errors: &mut E) {
    let found = path_names(met.rt, paths);
    for name in &found.names {
        if let Ok(path) = name.path() {
            explain_path(met, path, Usage::File, errors);
        }
    }
}

/// A packet of a scan with a name in use, or another folder with unfinished ones.
pub(crate) fn explain_outbound<E: Sink>(
    met: FaultLine<'_>,
    base: &str,
    folder: &str,
    errors: &mut E,
) {
    if met.is(Fault::CannotUse(folder)) {
        explain_noted(met, base, folder, errors);
    }
    let Ok(slashed) = folder_path(met.rt, folder) else {
        return;
    };
    let Ok(entries) = fs::read_dir(met.rt, folder) else {
        return;
    };
    for entry in entries {
        if let Ok(entry) = entry {
            explain_entry(met, slashed.as_str(), entry.file_name(), errors);
        }
    }
}

// The folder that the note of a base folder names, if a stopped scan left packets there, or if it cannot be read.
fn explain_noted<E: Sink>(met: FaultLine<'_>, base: &str, folder: &str, errors: &mut E) {
    let Ok(note) = format!(in met.rt.alloc(); "{base}/outbound") else {
        return;
    };
    let Ok(noted) = read_file(met.rt, note.as_str(), MAX_PATH) else {
        return;
    };
    let Ok(path) = str::from_utf8(&noted) else {
        return;
    };
    if !is_folder(met.rt, folder) || lead_to_one(met.rt, path, folder) {
        return;
    }
    let found = if has_staging(met.rt, path) {
        let state = State::Unfinished;
        Some(PathState { path, state })
    } else {
        state_at(met.rt, path, Usage::Folder)
    };
    if let Some(found) = found {
        tell(met.rt, Reason::Path(found), errors);
    }
}

fn has_staging(rt: &HostRuntime, folder: &str) -> bool {
    let Ok(entries) = fs::read_dir(rt, folder) else {
        return false;
    };
    for entry in entries {
        if let Ok(entry) = entry {
            if entry.file_name().ends_with("~.new") {
                return true;
            }
        }
    }
    false
}

fn explain_entry<E: Sink>(met: FaultLine<'_>, slashed: &str, name: &str, errors: &mut E) {
    if !name.ends_with(".pkt") {
        return;
    }
    if let Ok(path) = format!(in met.rt.alloc(); "{slashed}{name}") {
        explain_path(met, path.as_str(), Usage::New, errors);
    }
}
