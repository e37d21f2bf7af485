//! A replay: what becomes of a net on which events happen.

ghost use Rattle.std.specs.Prelude.{◌≡◌, IfOk, map};
ghost use Rattle.model_run.specs.{Event.run_event, Run.run_of, Run.start};
ghost use Rattle.echo_net.specs.{Counts.packet_counts, Worlds.IsWorldOf};
ghost use Rattle.model_steps.specs.SystemState.{state_at_first};

use crate::happening::happen;
use crate::receivers::Receivers;
use crate::replay_progress::{ReplayProgress, Unreported};
use crate::world::World;
use echo_links::LinkFile;
use echo_toss::Tosser;
use model_run::Event;
use std::alloc::{AllocError, Global};
use std::hash::{BuildHasher, BuildHasherDefault, FoldHasher};

/// What becomes of a net on which these events happen in order. Each system begins with an empty base. A packet
/// travels as its bytes, and arrives at the first system with its destination. An event that names nothing does
/// nothing, and so does a refused posting or scan. Fails only when out of memory. The seed of the hasher is fixed: on
/// keys made for it the replay takes time in the square of their number, and `replay_with` does not.
pub fn replay(alloc: Global, files: Vec<LinkFile>, events: &[Event]) -> Result<World, AllocError>
    ensures { IfOk result (λ world. IsWorldOf world (run_of files.items (map run_event events.now))) }
{
    let hasher: BuildHasherDefault<FoldHasher> = BuildHasherDefault::new();
    replay_with(alloc, files, events, hasher)
}

/// Replays, and each system finds its messages by this hasher.
pub fn replay_with<S: BuildHasher + Copy>(
    alloc: Global,
    files: Vec<LinkFile>,
    events: &[Event],
    hasher: S,
) -> Result<World<S>, AllocError>
    ensures { IfOk result (λ world. IsWorldOf world (run_of files.items (map run_event events.now))) }
{
    replay_reported(alloc, files, events, hasher, &Unreported)
}

/// Replays, and `reported` hears of each event once it happened.
pub fn replay_reported<S: BuildHasher + Copy, T: ReplayProgress>(
    alloc: Global,
    files: Vec<LinkFile>,
    events: &[Event],
    hasher: S,
    reported: &T,
) -> Result<World<S>, AllocError>
    ensures { IfOk result (λ world. IsWorldOf world (run_of files.items (map run_event events.now))) }
{
    let (world, _) = replayed(alloc, files, events, hasher, reported)?;
    Ok(world)
}

/// What becomes of the net, and how many packets were there after each event.
pub fn replay_counted<S: BuildHasher + Copy>(
    alloc: Global,
    files: Vec<LinkFile>,
    events: &[Event],
    hasher: S,
) -> Result<(World<S>, Vec<usize>), AllocError>
    ensures world { IfOk result (λ found. IsWorldOf found.0 (run_of files.items (map run_event events.now))) }
    ensures counts { IfOk result (λ found. found.1.items ≡ packet_counts (start files.items) (map run_event events.now)) }
{
    replayed(alloc, files, events, hasher, &Unreported)
}

fn replayed<S: BuildHasher + Copy, T: ReplayProgress>(
    alloc: Global,
    files: Vec<LinkFile>,
    events: &[Event],
    hasher: S,
    reported: &T,
) -> Result<(World<S>, Vec<usize>), AllocError>
    ensures world { IfOk result (λ found. IsWorldOf found.0 (run_of files.items (map run_event events.now))) }
    ensures counts { IfOk result (λ found. found.1.items ≡ packet_counts (start files.items) (map run_event events.now)) }
{
    let receivers = Receivers::new(alloc, &files, hasher)?;
    let mut counts = Vec::new(alloc);
    let mut world = World {
        systems: systems(alloc, files, hasher)?,
        packets: Vec::new(alloc),
    };
    'events: for event in events {
        happen(alloc, &receivers, &mut world, event)?;
        counts.push(world.packets())?;
        reported.tell(counts.len(), events.len());
    }
    Ok((world, counts))
}

fn systems<S: BuildHasher + Copy>(
    alloc: Global,
    files: Vec<LinkFile>,
    hasher: S,
) -> Result<Vec<Tosser<S>>, AllocError>
    ensures { IfOk result (λ all. all.items ≡ map state_at_first files.items) }
{
    let mut all = Vec::with_capacity(alloc, files.len())?;
    'files: for file in files {
        all.push(Tosser::new(alloc, file, hasher))?;
    }
    Ok(all)
}
