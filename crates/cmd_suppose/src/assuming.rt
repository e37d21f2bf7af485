//! The lines of assumed systems and of links, and whether a file has an area.
ghost use Rattle.std.specs.{Prelude.{◌≡◌, ◌++◌, OnOk}, List.{flat_map, list_any}};
ghost use Rattle.echo_links.specs.Links.{has_area};
ghost use Rattle.cmd_suppose.specs.Assuming.{assumed_line, assumed_note, link_word};

use echo_addr::Address;
use echo_charset::written;
use echo_links::LinkFile;
use std::alloc::AllocError;
use std::io::Write;

/// Whether some file has the area.
pub fn is_carried(files: &[LinkFile], tag: &[u8]) -> bool
    ensures { result ≡ list_any (λ file. has_area file tag.now) files.now }
{
    files.iter().any(|file| file.has_area(tag))
}

/// Adds each link as a word.
pub fn push_links(text: &mut Vec<u8>, links: &[Address]) -> Result<(), AllocError>
    ensures { OnOk result (text.new.items ≡ text.old.items ++ flat_map link_word links.now) }
{
    'links: for link in links {
        push_link(text, *link)?;
    }
    Ok(())
}

fn push_link(text: &mut Vec<u8>, link: Address) -> Result<(), AllocError>
    ensures { OnOk result (text.new.items ≡ text.old.items ++ link_word link) }
{
    written(write!(text, " {link}"))
}

/// Adds a line for each assumed system.
pub fn push_assumed_lines(lines: &mut Vec<u8>, assumed: &[Address]) -> Result<(), AllocError>
    ensures { OnOk result (lines.new.items ≡ lines.old.items ++ flat_map assumed_line assumed.now) }
{
    'assumed: for address in assumed {
        push_assumed_line(lines, *address)?;
    }
    Ok(())
}

fn push_assumed_line(lines: &mut Vec<u8>, address: Address) -> Result<(), AllocError>
    ensures { OnOk result (lines.new.items ≡ lines.old.items ++ assumed_line address) }
{
    written(writeln!(lines, "assumed {address}"))
}

/// Adds a note that begins so for each assumed system.
pub fn push_notes(lines: &mut Vec<u8>, begin: &[u8], assumed: &[Address]) -> Result<(), AllocError>
    ensures { OnOk result (lines.new.items ≡ lines.old.items ++ flat_map (assumed_note begin.now) assumed.now) }
{
    'assumed: for address in assumed {
        push_note(lines, begin, *address)?;
    }
    Ok(())
}

fn push_note(lines: &mut Vec<u8>, begin: &[u8], address: Address) -> Result<(), AllocError>
    ensures { OnOk result (lines.new.items ≡ lines.old.items ++ assumed_note begin.now address) }
{
    lines.extend_from_slice(begin)?;
    push_assumed_line(lines, address)
}
