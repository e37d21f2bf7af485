//! Whether the run of a plan does the harm that was guessed.

ghost use Rattle.std.specs.Prelude.{IfOk, IfSome};
ghost use Rattle.cmd_why.specs.Found.{IsShown};

use crate::events::{SERIAL, events_of};
use crate::judging::judge;
use crate::shown::Shown;
use echo_addr::Items;
use echo_links::LinkFile;
use echo_net::replay_with;
use echo_text::MsgId;
use model_plan::Plan;
use std::alloc::{AllocError, Global};
use std::hash::RandomState;

/// The run of the plan, if its guess is right for what these events do to the net of these link files.
pub(crate) fn confirmed(
    alloc: Global,
    files: Vec<LinkFile>,
    tag: &[u8],
    plan: Plan,
    hasher: RandomState,
) -> Result<Option<Shown>, AllocError>
    ensures { IfOk result (λ found. IfSome found (IsShown files.items tag.now)) }
{
    let Plan {
        poster,
        moves,
        guess,
    } = plan;
    let Some(file) = files.get(poster) else {
        return Ok(None);
    };
    let id = MsgId::write(alloc, file.system(), SERIAL)?;
    let events = events_of(alloc, poster, tag, &moves)?;
    let world = replay_with(alloc, files, &events, hasher)?;
    let found = judge(alloc, &world, poster, tag, &id, guess)?;
    match found {
        Some(harm) => Ok(Some(Shown {
            poster,
            id: Items::new(id),
            moves: Items::new(moves),
            harm,
        })),
        None => Ok(None),
    }
}
