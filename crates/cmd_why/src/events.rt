//! The events of a plan: one posting, then scans and deliveries.

ghost use Rattle.std.specs.Prelude.{◌≡◌, IfOk, map};
ghost use Rattle.model_run.specs.{Event.run_event, Postings.{trial_draft, trial_posting}};
ghost use Rattle.cmd_why.specs.Shown.{posting_and_moves, run_move};

use echo_addr::Items;
use model_plan::Move;
use model_run::Event;
use model_steps::{Draft, Stamp};
use std::alloc::{AllocError, Global};

/// The serial of the posting.
pub(crate) const SERIAL: u32 = 1;

/// The timestamp of the posting and of each scan.
const MOMENT: Stamp = Stamp {
    year: 2000,
    month: 1,
    day: 1,
    hour: 0,
    minute: 0,
    second: 0,
};

/// The system of index `poster` posts in the area of the tag, and the moves follow.
pub(crate) fn events_of(
    alloc: Global,
    poster: usize,
    tag: &[u8],
    moves: &[Move],
) -> Result<Vec<Event>, AllocError>
    ensures { IfOk result (λ events. map run_event events.items ≡ posting_and_moves poster tag.now moves.now) }
{
    let mut events = Vec::new(alloc);
    events.push(posting(alloc, poster, tag)?)?;
    'moves: for one in moves {
        events.push(event_of(*one))?;
    }
    Ok(events)
}

fn posting(alloc: Global, poster: usize, tag: &[u8]) -> Result<Event, AllocError>
    ensures { IfOk result (λ event. run_event event ≡ trial_posting poster tag.now) }
{
    Ok(Event::Post {
        system: poster,
        tag: Items::new(Vec::from_slice(alloc, tag)?),
        draft: draft(alloc)?,
        serial: SERIAL,
        stamp: MOMENT,
    })
}

fn draft(alloc: Global) -> Result<Draft, AllocError>
    ensures { IfOk result (λ draft. draft ≡ trial_draft) }
{
    Ok(Draft {
        to_name: Items::new(Vec::from_slice(alloc, b"All")?),
        from_name: Items::new(Vec::from_slice(alloc, b"Sysop")?),
        subject: Items::new(Vec::from_slice(alloc, b"00000001")?),
        reply: Items::new(Vec::new(alloc)),
        body: Items::new(Vec::new(alloc)),
    })
}

fn event_of(one: Move) -> Event
    ensures { run_event result ≡ run_move one }
{
    match one {
        Move::Scan(system) => Event::Scan {
            system,
            stamp: MOMENT,
        },
        Move::Deliver(packet) => Event::Deliver { packet },
    }
}
