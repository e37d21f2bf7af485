//! The lines for the systems that a run names by numbers.
ghost use Rattle.std.specs.{Prelude.{◌≡◌, ◌++◌, IfOk, OnOk, option_copied}, List.flat_map};
ghost use Rattle.cmd_why.specs.Whys.{AreNamed, named_in, named_line, path_text, scanning, who_line};

use crate::shown::Shown;
use echo_addr::{Address, Items, put_in_order};
use echo_charset::{push_word, written};
use echo_links::LinkFile;
use echo_verdict::Verdict;
use model_plan::Move;
use std::alloc::{AllocError, Global};
use std::io::Write;

/// The systems that the script of a no names by numbers, ascending, each once.
pub(crate) fn named(
    alloc: Global,
    verdict: &Verdict,
    found: Option<&Shown>,
) -> Result<Vec<usize>, AllocError>
    ensures { IfOk result (λ systems. AreNamed verdict.now (option_copied found.entry) systems.items) }
{
    let mut systems = named_in(alloc, verdict, found)?;
    put_in_order(&mut systems);
    Ok(systems)
}

// The same in order of the script.
fn named_in(
    alloc: Global,
    verdict: &Verdict,
    found: Option<&Shown>,
) -> Result<Vec<usize>, AllocError>
    ensures { IfOk result (λ systems. systems.items ≡ named_in verdict.now (option_copied found.entry)) }
{
    match (verdict, found) {
        (Verdict::Yes { .. }, _) => Ok(Vec::new(alloc)),
        (Verdict::No(_), None) => Ok(Vec::new(alloc)),
        (Verdict::No(_), Some(shown)) => {
            let mut systems = Vec::new(alloc);
            systems.push(shown.poster)?;
            push_scanning(&mut systems, shown.moves.as_slice())?;
            Ok(systems)
        }
    }
}

// Adds the system of each scan.
fn push_scanning(systems: &mut Vec<usize>, moves: &[Move]) -> Result<(), AllocError>
    ensures { OnOk result (systems.new.items ≡ systems.old.items ++ flat_map scanning moves.now) }
{
    'moves: for one in moves {
        push_of_move(systems, *one)?;
    }
    Ok(())
}

fn push_of_move(systems: &mut Vec<usize>, one: Move) -> Result<(), AllocError>
    ensures { OnOk result (systems.new.items ≡ systems.old.items ++ scanning one) }
{
    match one {
        Move::Scan(system) => {
            systems.push(system)?;
            Ok(())
        }
        Move::Deliver(_) => Ok(()),
    }
}

/// Adds the line of each of these systems.
pub(crate) fn push_systems(
    lines: &mut Vec<u8>,
    files: &[LinkFile],
    paths: &[Items<u8>],
    systems: &[usize],
) -> Result<(), AllocError>
    ensures { OnOk result (lines.new.items ≡ lines.old.items ++ flat_map (who_line files.now paths.now) systems.now) }
{
    'systems: for system in systems {
        push_system(lines, files, paths, *system)?;
    }
    Ok(())
}

// Adds the line of the system of this number.
fn push_system(
    lines: &mut Vec<u8>,
    files: &[LinkFile],
    paths: &[Items<u8>],
    system: usize,
) -> Result<(), AllocError>
    ensures { OnOk result (lines.new.items ≡ lines.old.items ++ who_line files.now paths.now system) }
{
    match files.get(system) {
        None => Ok(()),
        Some(file) => push_who(lines, system, file.system(), paths.get(system)),
    }
}

// Adds the line of a system by its number, its address and the path of its file.
fn push_who(
    lines: &mut Vec<u8>,
    system: usize,
    address: Address,
    path: Option<&Items<u8>>,
) -> Result<(), AllocError>
    ensures { OnOk result (lines.new.items ≡ lines.old.items ++ named_line system address (option_copied path.entry)) }
{
    written(write!(lines, "; {system} is {address}"))?;
    push_file_path(lines, path)?;
    lines.push(b'\n')?;
    Ok(())
}

// Adds the path after an address.
fn push_file_path(lines: &mut Vec<u8>, path: Option<&Items<u8>>) -> Result<(), AllocError>
    ensures { OnOk result (lines.new.items ≡ lines.old.items ++ path_text (option_copied path.entry)) }
{
    match path {
        None => Ok(()),
        Some(bytes) => {
            lines.push(b' ')?;
            push_word(lines, bytes.as_slice())
        }
    }
}
