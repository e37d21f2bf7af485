//! What `replay` answers.
ghost use Rattle.std.specs.Prelude.{◌⊎◌, ℕ, List, None, Ok, IfErr, IfOk};
ghost use Rattle.cmd_status.specs.{Devices.output_of, Ended.IsOutOfMemory, Inputs.AreLinkFiles};
ghost use Rattle.{cmd_why.specs.Replaying.{IsScriptFault, PrintsWorld, ReplayAnswers}, echo_net.specs.Script.ScriptOf};

use crate::replay_text::push_world;
use cmd_status::{Fault, Status, link_files, print_rest};
use disk_io::Sink;
use echo_addr::Items;
use echo_links::LinkFile;
use echo_net::{ReplayProgress, ScriptFault, World, read_script, replay_reported};
use model_run::Event;
use std::alloc::Global;
use std::hash::RandomState;

/// `replay SCRIPT LINKS...`: replays the events of the script. Then it prints how many messages each system of the net
/// has filed in each of its areas, and how many wait there; how many packets were made and not delivered; and
/// whether the net has settled. For a faulty input nothing is printed. The first fault is returned, that of the
/// script before those of link files. `stopped` is why no further file was read, and comes last. Look-ups go by the
/// hasher, and `reported` receives each event after it happened.
pub fn replay<'a, T: ReplayProgress, W: Sink>(
    alloc: Global,
    script: &[u8],
    files: &[Items<u8>],
    stopped: Option<Fault<'a>>,
    hasher: RandomState,
    reported: &T,
    out: &mut W,
) -> Result<Status, Fault<'a>>
    ensures { ReplayAnswers script.now files.now stopped.entry (output_of W.contents W.failures W.holds out.old) (output_of W.contents W.failures W.holds out.new) result }
{
    let events = script_given(alloc, script)?;
    let links = link_files(alloc, files)?;
    if let Some(fault) = stopped {
        return Err(fault);
    }
    replay_read(alloc, links, &events, hasher, reported, out)
}

// The same of inputs that are read.
fn replay_read<'a, T: ReplayProgress, W: Sink>(
    alloc: Global,
    links: Vec<LinkFile>,
    events: &[Event],
    hasher: RandomState,
    reported: &T,
    out: &mut W,
) -> Result<Status, Fault<'a>>
    ensures { (script : List ℕ) → (inputs : List (List ℕ)) → ScriptOf script (Ok events.now) → AreLinkFiles inputs links.items
        → ReplayAnswers script inputs None (output_of W.contents W.failures W.holds out.old) (output_of W.contents W.failures W.holds out.new) result }
{
    let systems = links.len();
    let world = replay_reported(alloc, links, events, hasher, reported)?;
    print_world(alloc, systems, &world, out)
}

// Prints the lines of a net of so many systems.
fn print_world<'a, W: Sink>(
    alloc: Global,
    systems: usize,
    world: &World<RandomState>,
    out: &mut W,
) -> Result<Status, Fault<'a>>
    ensures { PrintsWorld systems world.now (output_of W.contents W.failures W.holds out.old) (output_of W.contents W.failures W.holds out.new) result }
{
    let mut lines = Vec::new(alloc);
    push_world(&mut lines, systems, world)?;
    print_rest(&mut lines, out)?;
    Ok(Status::Good)
}

/// The events of the script.
fn script_given<'a>(alloc: Global, script: &[u8]) -> Result<Vec<Event>, Fault<'a>>
    ensures ok { IfOk result (λ events. ScriptOf script.now (Ok events.items)) }
    ensures err { IfErr result (λ fault. IsOutOfMemory fault ⊎ IsScriptFault script.now fault) }
{
    match read_script(alloc, script) {
        Ok(events) => Ok(events),
        Err(ScriptFault::Line(line)) => Err(Fault::ScriptLine(line)),
        Err(ScriptFault::Memory) => Err(Fault::OutOfMemory),
    }
}
