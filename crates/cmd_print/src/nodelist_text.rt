//! The lines of a nodelist.

use echo_addr::Address;
use echo_charset::{push_escaped, written};
use echo_nodelist::{CrcLine, Keyword, Line, Nodelist};
use std::alloc::AllocError;
use std::io::Write;

/// Adds the line on the checksum, its numbers in decimal with five digits or more.
pub fn push_crc(lines: &mut Vec<u8>, line: CrcLine) -> Result<(), AllocError> {
    match line {
        CrcLine::Absent => lines.extend_from_slice(b"crc absent\n"),
        CrcLine::Match(number) => written(writeln!(lines, "crc match {number:05}")),
        CrcLine::Mismatch { stated, computed } => written(writeln!(
            lines,
            "crc mismatch stated {stated:05} computed {computed:05}"
        )),
    }
}

/// Adds the line of how many entries a nodelist has, Notes not counted.
pub fn push_list_total(lines: &mut Vec<u8>, list: &Nodelist) -> Result<(), AllocError> {
    let entries = list
        .lines()
        .iter()
        .filter(|line| matches!(line, Line::Entry { .. }))
        .count();
    written(writeln!(lines, "entries {entries}"))
}

/// Adds the line of the first entry with the address, after its line number, or that none has it.
pub fn push_found(lines: &mut Vec<u8>, list: &Nodelist, wanted: Address) -> Result<(), AllocError> {
    match list.find(wanted) {
        Some(i) => {
            let number = i as u128 + 1;
            written(write!(lines, "line {number} "))?;
            push_entry(lines, wanted, &list.lines()[i])
        }
        None => written(writeln!(lines, "not listed {wanted}")),
    }
}

/// Adds the line of an entry: its address, keyword and name. A Note has none.
pub fn push_entry(lines: &mut Vec<u8>, address: Address, line: &Line) -> Result<(), AllocError> {
    let Line::Entry {
        keyword,
        fields,
        ..
    } = line
    else {
        return Ok(());
    };
    let word: &[u8] = match keyword {
        Keyword::Node => b"Node",
        other => other.text(),
    };
    let name: &[u8] = match fields.as_slice().first() {
        Some(name) => name.as_slice(),
        None => b"",
    };
    written(write!(lines, "{address} "))?;
    push_escaped(lines, word, name)
}
