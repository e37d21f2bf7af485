//! The lines of a link file by itself.
use crate::FaultyLine;
use echo_charset::{push_escaped, push_word, written};
use echo_links::{LinkFault, LinkFile};
use std::alloc::{AllocError, Global};
use std::io::Write;

/// Adds the line of a file: its path, and its numbers of areas and links; with `areas` a line for each area too.
pub(crate) fn push_good(
    lines: &mut Vec<u8>,
    areas: bool,
    path: &[u8],
    file: &LinkFile,
) -> Result<(), AllocError> {
    let mut total: u128 = 0;
    for k in 0..file.areas() {
        total = total.saturating_add(u128::from(count_links(file, k)));
    }
    let system = file.system();
    let count = file.areas();
    push_word(lines, path)?;
    written(writeln!(lines, ": {system} {count} areas {total} links"))?;
    if areas {
        push_areas(lines, path, file)
    } else {
        Ok(())
    }
}

fn count_links(file: &LinkFile, k: usize) -> u64 {
    let Some(tag) = file.area(k) else {
        return 0;
    };
    match file.links(tag) {
        Some(links) => links.len() as u64,
        None => 0,
    }
}

fn push_areas(lines: &mut Vec<u8>, path: &[u8], file: &LinkFile) -> Result<(), AllocError> {
    for k in 0..file.areas() {
        let Some(tag) = file.area(k) else {
            return Ok(());
        };
        let links = count_links(file, k);
        push_word(lines, path)?;
        lines.extend_from_slice(b": area ")?;
        lines.extend_from_slice(tag)?;
        written(writeln!(lines, " {links} links"))?;
    }
    Ok(())
}

/// Adds the line of a faulty line: path, number, code and name, and the wrong word.
pub(crate) fn push_fault(
    alloc: Global,
    lines: &mut Vec<u8>,
    path: &[u8],
    line: &FaultyLine,
) -> Result<(), AllocError> {
    let mut word = Vec::new(alloc);
    word.push(b'\'')?;
    word.extend_from_slice(line.word.as_slice())?;
    word.push(b'\'')?;
    push_word(lines, path)?;
    push_number(lines, fault_number(line.fault))?;
    push_escaped(lines, fault_code(line.fault), &word)
}

/// Adds the number of a line.
pub fn push_number(lines: &mut Vec<u8>, number: u64) -> Result<(), AllocError> {
    written(write!(lines, ":{number}: "))
}

fn fault_code(fault: LinkFault) -> &'static [u8] {
    match fault {
        LinkFault::UnknownWord { .. } => b"L1 UnknownWord",
        LinkFault::BadAddress { .. } => b"L2 BadAddress",
        LinkFault::NoSystem { .. } => b"L3 NoSystem",
        LinkFault::RepeatedSystem { .. } => b"L4 RepeatedSystem",
        LinkFault::RepeatedArea { .. } => b"L5 RepeatedArea",
        LinkFault::RepeatedLink { .. } => b"L6 RepeatedLink",
        LinkFault::BadTag { .. } => b"L7 BadTag",
        LinkFault::NameTooLong { .. } => b"L8 NameTooLong",
        LinkFault::Memory => b"L9 Memory",
    }
}

/// The number of the faulty line.
pub fn fault_number(fault: LinkFault) -> u64 {
    match fault {
        LinkFault::UnknownWord { line }
        | LinkFault::BadAddress { line }
        | LinkFault::NoSystem { line }
        | LinkFault::RepeatedSystem { line }
        | LinkFault::RepeatedArea { line }
        | LinkFault::RepeatedLink { line }
        | LinkFault::BadTag { line }
        | LinkFault::NameTooLong { line } => line,
        LinkFault::Memory => 0,
    }
}
