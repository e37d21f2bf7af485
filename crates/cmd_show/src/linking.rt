//! The command `links`: link files one by one, and all that is wrong with each.
ghost use Rattle.std.specs.{Prelude.{◌≡◌, IfOk}, List.list_all};
ghost use Rattle.cmd_status.specs.Devices.{output_of};
ghost use Rattle.cmd_show.specs.Linking.{LinksAnswers, is_good_file, links_status};

use crate::links_text::{push_fault, push_good};
use crate::{Judged, judge};
use cmd_status::{Fault, Status, print_rest};
use disk_io::Sink;
use echo_addr::Items;
use std::alloc::{AllocError, Global};

/// A link file with its path.
#[derive(Debug, Drop)]
pub struct NamedFile {
    pub path: Items<u8>,
    pub bytes: Items<u8>,
}

/// `links [--areas] LINKS...`: prints each file's system and its counts of areas and links, with `areas` the links of
/// each area too; or each faulty line. The status is that of refused input if a file has a fault.
pub fn links<'a, W: Sink>(
    alloc: Global,
    areas: bool,
    files: &[NamedFile],
    out: &mut W,
) -> Result<Status, Fault<'a>>
    ensures { LinksAnswers files.now (output_of W.contents W.failures W.holds out.old) (output_of W.contents W.failures W.holds out.new) result }
{
    let mut lines = Vec::new(alloc);
    let good = push_files(alloc, &mut lines, areas, files)?;
    print_rest(&mut lines, out)?;
    Ok(status_of_files(good))
}

fn push_files(
    alloc: Global,
    lines: &mut Vec<u8>,
    areas: bool,
    files: &[NamedFile],
) -> Result<bool, AllocError>
    ensures { IfOk result (λ good. good ≡ list_all is_good_file files.now) }
{
    let mut good = true;
    'files: for file in files {
        let fine = push_file(alloc, lines, areas, file)?;
        good = good && fine;
    }
    Ok(good)
}

fn push_file(
    alloc: Global,
    lines: &mut Vec<u8>,
    areas: bool,
    file: &NamedFile,
) -> Result<bool, AllocError>
    ensures { IfOk result (λ good. good ≡ is_good_file file.now) }
{
    let path = file.path.as_slice();
    match judge(alloc, file.bytes.as_slice())? {
        Judged::Good(links) => {
            push_good(lines, areas, path, &links)?;
            Ok(true)
        }
        Judged::Faulty(faults) => {
            for fault in faults.as_slice() {
                push_fault(alloc, lines, path, fault)?;
            }
            Ok(false)
        }
    }
}

fn status_of_files(good: bool) -> Status
    ensures { result ≡ links_status good }
{
    if good { Status::Good } else { Status::Refused }
}
