//! The notes on the answers of `picture` and `why`, and on the fault of a link file.
ghost use Rattle.std.specs.Prelude.{◌≡◌};
ghost use Rattle.cmd_status.specs.Status.{status_of};

use crate::noting::{Notes, Shown};
use crate::placing::{Given, NotedNet, by_address};
use cmd_notes::push_line_note;
use cmd_show::{FaultyLine, Judged, judge};
use cmd_status::{Fault, Status, link_files, print_rest};
use cmd_suppose::files_left;
use disk_io::Sink;
use echo_addr::Address;
use echo_links::LinkFile;
use std::alloc::{AllocError, Global};

/// Reports the fault. With notes the first faulty line of the files follows a fault of a link file.
pub(crate) fn report_noted<E: Sink>(
    alloc: Global,
    fault: Fault<'_>,
    given: Given<'_>,
    notes: bool,
    errors: &mut E,
) -> Status
    ensures { result ≡ status_of fault.entry }
{
    let status = fault.report(errors);
    if notes && matches!(fault, Fault::Link(_)) {
        tell_first_line(alloc, given, errors);
    }
    status
}

fn tell_first_line<E: Sink>(alloc: Global, given: Given<'_>, errors: &mut E) {
    for (number, text) in given.texts.iter().enumerate() {
        match judge(alloc, text.as_slice()) {
            Ok(Judged::Good(_)) => {}
            Ok(Judged::Faulty(lines)) => {
                if let Some(name) = given.names.get(number) {
                    tell_first(alloc, name.shown(), lines.as_slice(), errors);
                }
                return;
            }
            Err(_) => return,
        }
    }
}

fn tell_first<E: Sink>(alloc: Global, path: &str, lines: &[FaultyLine], errors: &mut E) {
    if let Some(line) = lines.first() {
        let mut note = Vec::new(alloc);
        if push_line_note(&mut note, path, line).is_ok() {
            let _ = print_rest(&mut note, errors);
        }
    }
}

/// An area that `picture` or `why` showed: its tag in letters of either case, the systems that were left out, and the faults
/// that it showed.
#[derive(Clone, Copy)]
pub(crate) struct ShownArea<'n> {
    pub tag: &'n [u8],
    pub without: &'n [Address],
    pub shown: Shown,
}

/// Prints the notes on the faults of the area. The texts of assumed systems come after those of the given files.
pub(crate) fn tell_shown<E: Sink>(
    alloc: Global,
    area: ShownArea<'_>,
    given: Given<'_>,
    errors: &mut E,
) {
    let mut notes = Notes::new(alloc);
    if let Ok(files) = link_files(alloc, given.texts) {
        if add_shown(&mut notes, area, given, &files).is_ok() {
            notes.print(errors);
        }
    }
}

fn add_shown(
    notes: &mut Notes,
    area: ShownArea<'_>,
    given: Given<'_>,
    files: &[LinkFile],
) -> Result<(), AllocError> {
    let tag = area.tag.to_ascii_uppercase(notes.alloc)?;
    let numbers = by_address(notes.alloc, files)?;
    let net = NotedNet {
        given,
        files,
        numbers: &numbers,
    };
    if area.without.is_empty() {
        notes.add_area(&net, files, &tag, area.shown)?;
        return Ok(());
    }
    match files_left(notes.alloc, files, area.without) {
        Ok(left) => {
            notes.add_area(&net, &left, &tag, area.shown)?;
            Ok(())
        }
        Err(_) => Ok(()),
    }
}
