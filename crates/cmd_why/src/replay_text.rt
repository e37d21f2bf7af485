//! The lines of a replayed net.
ghost use Rattle.std.specs.{Prelude.{◌≡◌, ◌++◌, OnOk, Some, length, map, slice_get}, List.flat_map};
ghost use Rattle.echo_links.specs.Links.{Area};
ghost use Rattle.{model_run.specs.Run.{Run, System, nth}, echo_net.specs.Worlds.IsWorldOf};
ghost use Rattle.cmd_why.specs.Replayed.{area_state_line, area_counts_line, packets_line, replay_lines, settled_line, systems_from};

use echo_addr::Address;
use echo_charset::written;
use echo_links::LinkFile;
use echo_net::World;
use std::alloc::AllocError;
use std::hash::RandomState;
use std::io::Write;

/// Adds the lines of a net of so many systems: for each area of each, how many messages are filed and wait there; how
/// many packets were made and not delivered; and whether the net has settled.
pub(crate) fn push_world(
    lines: &mut Vec<u8>,
    systems: usize,
    world: &World<RandomState>,
) -> Result<(), AllocError>
    ensures { OnOk result ((run : Run) → IsWorldOf world.now run → length run.systems ≡ systems →
        lines.new.items ≡ lines.old.items ++ replay_lines (map (λ s. s.file) run.systems) run) }
{
    push_systems(lines, systems, world)?;
    push_packets(lines, world.packets(), world.undelivered())?;
    lines.extend_from_slice(settled_text(world.settled()))?;
    Ok(())
}

// Adds the lines of the areas of the systems.
fn push_systems(
    lines: &mut Vec<u8>,
    systems: usize,
    world: &World<RandomState>,
) -> Result<(), AllocError>
    ensures { OnOk result ((run : Run) → IsWorldOf world.now run → length run.systems ≡ systems →
        lines.new.items ≡ lines.old.items ++ systems_from run 0 (map (λ s. s.file) run.systems)) }
{
    'systems: for i in 0..systems {
        push_system(lines, i, world)?;
    }
    Ok(())
}

// Adds the lines of the areas of the system of this index.
fn push_system(lines: &mut Vec<u8>, i: usize, world: &World<RandomState>) -> Result<(), AllocError>
    ensures { OnOk result ((run : Run) → IsWorldOf world.now run → (s : System) → nth i run.systems ≡ Some s →
        lines.new.items ≡ lines.old.items ++ flat_map (area_state_line run i s.file.system) s.file.areas) }
{
    match world.links(i) {
        Some(file) => push_areas(lines, i, file, world),
        None => Ok(()),
    }
}

// Adds the lines of the areas of this file, which is that of the system of this index.
fn push_areas(
    lines: &mut Vec<u8>,
    i: usize,
    file: &LinkFile,
    world: &World<RandomState>,
) -> Result<(), AllocError>
    ensures { OnOk result ((run : Run) → IsWorldOf world.now run →
        lines.new.items ≡ lines.old.items ++ flat_map (area_state_line run i file.now.system) file.now.areas) }
{
    'areas: for k in 0..file.areas() {
        push_area(lines, i, k, file, world)?;
    }
    Ok(())
}

// Adds the line of the area of this number.
fn push_area(
    lines: &mut Vec<u8>,
    i: usize,
    k: usize,
    file: &LinkFile,
    world: &World<RandomState>,
) -> Result<(), AllocError>
    ensures { OnOk result ((run : Run) → IsWorldOf world.now run → (area : Area) → slice_get file.now.areas k ≡ Some area →
        lines.new.items ≡ lines.old.items ++ area_state_line run i file.now.system area) }
{
    let Some(tag) = file.area(k) else {
        return Ok(());
    };
    let filed = world.filed(i, tag);
    let waiting = world.waiting(i, tag);
    push_counts(lines, file.system(), tag, filed, waiting)
}

// Adds the line of an area.
fn push_counts(
    lines: &mut Vec<u8>,
    system: Address,
    tag: &[u8],
    filed: usize,
    waiting: usize,
) -> Result<(), AllocError>
    ensures { OnOk result (lines.new.items ≡ lines.old.items ++ area_counts_line system tag.now filed waiting) }
{
    written(write!(lines, "system {system} "))?;
    lines.extend_from_slice(tag)?;
    written(writeln!(lines, " filed {filed} waiting {waiting}"))
}

// Adds the line of the packets.
fn push_packets(lines: &mut Vec<u8>, packets: usize, missing: usize) -> Result<(), AllocError>
    ensures { OnOk result (lines.new.items ≡ lines.old.items ++ packets_line packets missing) }
{
    written(writeln!(lines, "packets {packets} undelivered {missing}"))
}

// The line that says whether the net has settled.
fn settled_text(settled: bool) -> &'static [u8]
    ensures { result.now ≡ settled_line settled }
{
    if settled {
        b"settled yes\n"
    } else {
        b"settled no\n"
    }
}
