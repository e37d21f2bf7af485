//! The lines of a run that does harm. They are a script.
ghost use Rattle.std.specs.{Prelude.{◌≡◌, ◌++◌, codes, OnOk, option_copied}, List.flat_map};
ghost use Rattle.echo_addr.specs.Address.{address_text};
ghost use Rattle.cmd_why.specs.declared.shown.Harm.TheVariants.{NeverSettles, SentAgain};
ghost use Rattle.{cmd_why.specs.Whys.{AreWhyLines, found_lines, harm_line, move_line, post_line, shown_lines}, cmd_print.specs.{Checked.verdict_line, Pushed.Pushes}};

use crate::shown::{Harm, Shown};
use crate::who_text::{named, push_systems};
use cmd_print::push_verdict;
use echo_addr::{Address, Items};
use echo_charset::written;
use echo_links::LinkFile;
use echo_verdict::Verdict;
use model_plan::Move;
use std::alloc::{AllocError, Global};
use std::io::Write;

/// Adds the verdict on the area with this tag, as a note. If that is no, it adds the notes on the systems in the
/// found run, its events and its harm.
pub(crate) fn push_why(
    alloc: Global,
    lines: &mut Vec<u8>,
    files: &[LinkFile],
    paths: &[Items<u8>],
    tag: &[u8],
    verdict: &Verdict,
    found: Option<&Shown>,
) -> Result<(), AllocError>
    ensures { OnOk result (Pushes (AreWhyLines files.now paths.now tag.now verdict.now (option_copied found.entry)) lines.old.items lines.new.items) }
{
    push_note(lines, tag, verdict)?;
    let systems = named(alloc, verdict, found)?;
    push_systems(lines, files, paths, &systems)?;
    push_found(lines, tag, verdict, found)
}

// Adds the verdict as a note.
fn push_note(lines: &mut Vec<u8>, tag: &[u8], verdict: &Verdict) -> Result<(), AllocError>
    ensures { OnOk result (lines.new.items ≡ lines.old.items ++ (codes "; " ++ verdict_line tag.now verdict.now)) }
{
    lines.extend_from_slice(b"; ")?;
    push_verdict(lines, tag, verdict)
}

// Adds the lines after that of the verdict.
fn push_found(
    lines: &mut Vec<u8>,
    tag: &[u8],
    verdict: &Verdict,
    found: Option<&Shown>,
) -> Result<(), AllocError>
    ensures { OnOk result (lines.new.items ≡ lines.old.items ++ found_lines tag.now verdict.now (option_copied found.entry)) }
{
    match (verdict, found) {
        (Verdict::Yes { .. }, _) => Ok(()),
        (Verdict::No(_), None) => lines.extend_from_slice(b"; no harm found\n"),
        (Verdict::No(_), Some(shown)) => push_shown(lines, tag, shown),
    }
}

// Adds the lines of the run.
fn push_shown(lines: &mut Vec<u8>, tag: &[u8], shown: &Shown) -> Result<(), AllocError>
    ensures { OnOk result (lines.new.items ≡ lines.old.items ++ shown_lines tag.now shown.now) }
{
    push_post(lines, shown.poster, tag)?;
    push_moves(lines, shown.moves.as_slice())?;
    push_harm(lines, shown.id.as_slice(), shown.harm)
}

// Adds the line of the posting.
fn push_post(lines: &mut Vec<u8>, poster: usize, tag: &[u8]) -> Result<(), AllocError>
    ensures { OnOk result (lines.new.items ≡ lines.old.items ++ post_line poster tag.now) }
{
    written(write!(lines, "POST {poster} "))?;
    lines.extend_from_slice(tag)?;
    lines.extend_from_slice(b" 00000001\n")?;
    Ok(())
}

// Adds the line of each move.
fn push_moves(lines: &mut Vec<u8>, moves: &[Move]) -> Result<(), AllocError>
    ensures { OnOk result (lines.new.items ≡ lines.old.items ++ flat_map move_line moves.now) }
{
    'moves: for one in moves {
        push_move(lines, *one)?;
    }
    Ok(())
}

// Adds the line of a move.
fn push_move(lines: &mut Vec<u8>, one: Move) -> Result<(), AllocError>
    ensures { OnOk result (lines.new.items ≡ lines.old.items ++ move_line one) }
{
    match one {
        Move::Scan(system) => written(writeln!(lines, "SCAN {system}")),
        Move::Deliver(packet) => written(writeln!(lines, "DELIVER {packet}")),
    }
}

// Adds the line of the harm.
fn push_harm(lines: &mut Vec<u8>, id: &[u8], harm: Harm) -> Result<(), AllocError>
    ensures { OnOk result (lines.new.items ≡ lines.old.items ++ harm_line id.now harm) }
{
    match harm {
        Harm::SentAgain(address, times) => push_again(lines, address, id, times),
        Harm::SentOwn(address) => push_of_system(lines, address, b" is sent its own ", id),
        Harm::NeverGets(address) => push_of_system(lines, address, b" never gets ", id),
        Harm::NeverSettles => push_restless(lines, id),
    }
}

// Adds the line of a system that is sent the message more than once.
fn push_again(
    lines: &mut Vec<u8>,
    address: Address,
    id: &[u8],
    times: usize,
) -> Result<(), AllocError>
    ensures { OnOk result (lines.new.items ≡ lines.old.items ++ harm_line id.now (SentAgain address times)) }
{
    written(write!(lines, "; {address} is sent "))?;
    lines.extend_from_slice(id)?;
    written(writeln!(lines, " {times} times"))
}

// Adds the line of a system. These words say what happens to it with the message.
fn push_of_system(
    lines: &mut Vec<u8>,
    address: Address,
    words: &[u8],
    id: &[u8],
) -> Result<(), AllocError>
    ensures { OnOk result (lines.new.items ≡ lines.old.items ++ (codes "; " ++ (address_text address ++ (words.now ++ (id.now ++ codes "\n"))))) }
{
    written(write!(lines, "; {address}"))?;
    lines.extend_from_slice(words)?;
    lines.extend_from_slice(id)?;
    lines.push(b'\n')?;
    Ok(())
}

// Adds the line of a message that never comes to rest.
fn push_restless(lines: &mut Vec<u8>, id: &[u8]) -> Result<(), AllocError>
    ensures { OnOk result (lines.new.items ≡ lines.old.items ++ harm_line id.now NeverSettles) }
{
    lines.extend_from_slice(b"; ")?;
    lines.extend_from_slice(id)?;
    lines.extend_from_slice(b" never comes to rest\n")
}
