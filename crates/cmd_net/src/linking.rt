//! The command `links`, which goes on if a file cannot be used.

use cmd_input::{PathNames, read_link_file};
use cmd_show::{NamedFile, links};
use cmd_status::{Fault, Status};
use disk_io::Sink;
use echo_addr::Items;

#[derive(Drop)]
struct Files<'a> {
    read: Vec<NamedFile>,
    faults: Vec<Fault<'a>>,
}

/// `links [--areas] LINKS...`: the files that cannot be used are reported after the lines of the others. The
/// status is the greatest of all files.
pub(crate) fn run_links<W: Sink, E: Sink>(
    rt: &HostRuntime,
    areas: bool,
    paths: &PathNames<'_>,
    out: &mut W,
    errors: &mut E,
) -> Status {
    let Files { read, faults } = match read_each(rt, paths) {
        Ok(files) => files,
        Err(fault) => return fault.report(errors),
    };
    let mut status = match links(rt.alloc(), areas, &read, out) {
        Ok(status) => status,
        Err(fault) => return fault.report(errors),
    };
    for fault in &faults {
        status = worse(status, fault.report(errors));
    }
    status
}

fn worse(one: Status, other: Status) -> Status {
    if one.code() < other.code() {
        other
    } else {
        one
    }
}

fn read_each<'a>(rt: &HostRuntime, paths: &'a PathNames<'a>) -> Result<Files<'a>, Fault<'a>> {
    let mut read = Vec::new(rt.alloc());
    let mut faults = Vec::new(rt.alloc());
    for name in &paths.names {
        match read_link_file(rt, name) {
            Ok(bytes) => read.push(NamedFile {
                path: Items::new(Vec::from_slice(rt.alloc(), name.shown().as_bytes())?),
                bytes: Items::new(bytes),
            })?,
            Err(fault) => faults.push(fault)?,
        }
    }
    if let Some(fault) = paths.stopped {
        faults.push(fault)?;
    }
    Ok(Files { read, faults })
}
