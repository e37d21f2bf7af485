//! The harm that a run did.

ghost use Rattle.std.specs.Prelude.{◌≡◌, ◌≢◌, IfOk, IfSome, IsTrue, Some};
ghost use Rattle.{model_graph.specs.Walk.Among, echo_links.specs.Links.same_address};
ghost use Rattle.{model_run.specs.Run.{Run, System, nth}, echo_net.specs.Worlds.IsWorldOf, cmd_why.specs.Found.{CarriesAt, HasHarm, PostedAt}};

use crate::copies::{is_posting, sent_times};
use crate::shown::Harm;
use echo_addr::Address;
use echo_net::World;
use model_plan::Guess;
use model_run::settled_runs_settle_each_area;
use std::alloc::{AllocError, Global};
use std::hash::RandomState;

/// The harm that the guess names, if it is right for the net. `poster` is the system that posted the message.
pub(crate) fn judge(
    alloc: Global,
    world: &World<RandomState>,
    poster: usize,
    tag: &[u8],
    id: &[u8],
    guess: Guess,
) -> Result<Option<Harm>, AllocError>
    ensures { IfOk result (λ found. IfSome found (λ harm. (run : Run) → IsWorldOf world.now run → HasHarm run tag.now id.now harm)) }
{
    match guess {
        Guess::Again(system) => sent_again(alloc, world, system, tag, id),
        Guess::Own => sent_own(alloc, world, poster, tag, id),
        Guess::Lacking(system) => Ok(never_got(world, poster, system, tag, id)),
        Guess::Nobody(to) => gone_to_nobody(alloc, world, to, tag, id),
    }
}

fn sent_again(
    alloc: Global,
    world: &World<RandomState>,
    system: usize,
    tag: &[u8],
    id: &[u8],
) -> Result<Option<Harm>, AllocError>
    ensures { IfOk result (λ found. IfSome found (λ harm. (run : Run) → IsWorldOf world.now run → HasHarm run tag.now id.now harm)) }
{
    let Some(address) = carrier_at(world, system, tag) else {
        return Ok(None);
    };
    let times = sent_times(alloc, world, address, tag, id)?;
    if times < 2 {
        return Ok(None);
    }
    Ok(Some(Harm::SentAgain(address, times)))
}

fn sent_own(
    alloc: Global,
    world: &World<RandomState>,
    poster: usize,
    tag: &[u8],
    id: &[u8],
) -> Result<Option<Harm>, AllocError>
    ensures { IfOk result (λ found. IfSome found (λ harm. (run : Run) → IsWorldOf world.now run → HasHarm run tag.now id.now harm)) }
{
    let Some(address) = poster_at(world, poster, tag, id) else {
        return Ok(None);
    };
    let times = sent_times(alloc, world, address, tag, id)?;
    if times < 1 {
        return Ok(None);
    }
    Ok(Some(Harm::SentOwn(address)))
}

fn never_got(
    world: &World<RandomState>,
    poster: usize,
    system: usize,
    tag: &[u8],
    id: &[u8],
) -> Option<Harm>
    ensures { IfSome result (λ harm. (run : Run) → IsWorldOf world.now run → HasHarm run tag.now id.now harm) }
{
    poster_at(world, poster, tag, id)?;
    let address = carrier_at(world, system, tag)?;
    settled_runs_settle_each_area();
    if !world.settled() {
        return None;
    }
    if world.filed(system, tag) > 0 {
        return None;
    }
    Some(Harm::NeverGets(address))
}

fn gone_to_nobody(
    alloc: Global,
    world: &World<RandomState>,
    to: Address,
    tag: &[u8],
    id: &[u8],
) -> Result<Option<Harm>, AllocError>
    ensures { IfOk result (λ found. IfSome found (λ harm. (run : Run) → IsWorldOf world.now run → HasHarm run tag.now id.now harm)) }
{
    if !is_nobody(world, to) {
        return Ok(None);
    }
    let times = sent_times(alloc, world, to, tag, id)?;
    if times < 1 {
        return Ok(None);
    }
    Ok(Some(Harm::NeverSettles))
}

fn is_nobody(world: &World<RandomState>, to: Address) -> bool
    ensures { IsTrue result → (run : Run) → IsWorldOf world.now run → (s : System) → Among s run.systems → s.file.system ≢ to }
{
    'systems: for i in 0..world.systems() {
        if has_address(world, i, to) {
            return false;
        }
    }
    true
}

fn has_address(world: &World<RandomState>, i: usize, to: Address) -> bool
    ensures { (run : Run) → IsWorldOf world.now run → (s : System) → nth i run.systems ≡ Some s → result ≡ same_address s.file.system to }
{
    match world.links(i) {
        Some(file) => file.system() == to,
        None => false,
    }
}

fn carrier_at(world: &World<RandomState>, i: usize, tag: &[u8]) -> Option<Address>
    ensures { IfSome result (λ a. (run : Run) → IsWorldOf world.now run → CarriesAt run i tag.now a) }
{
    let file = world.links(i)?;
    if !file.has_area(tag) {
        return None;
    }
    Some(file.system())
}

fn poster_at(world: &World<RandomState>, i: usize, tag: &[u8], id: &[u8]) -> Option<Address>
    ensures { IfSome result (λ a. (run : Run) → IsWorldOf world.now run → PostedAt run i tag.now id.now a) }
{
    let address = carrier_at(world, i, tag)?;
    let message = world.message(i, 0)?;
    if !is_posting(message, tag, id) {
        return None;
    }
    Some(address)
}
