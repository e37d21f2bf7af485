//! An echomail text, written (FTS-0004).

ghost use Rattle.std.specs.Prelude.{IfOk, OnOk};
ghost use Rattle.echo_text.specs.Echo.{TextOf};

use crate::echo::Echo;
use crate::lines::push_line;
use crate::words::AREA;
use echo_addr::{push_path, push_seen};
use std::alloc::{AllocError, Global};

/// The text of an echo (FTS-0004): the AREA line, the kept lines, SEEN-BY and PATH lines, each with its 0D.
pub fn write_text(alloc: Global, echo: &Echo) -> Result<Vec<u8>, AllocError>
    ensures { IfOk result (λ text. TextOf echo.now text.items) }
{
    let mut text = Vec::new(alloc);
    overwrite_text(&mut text, echo)?;
    Ok(text)
}

/// Writes the text into a vector, and replaces the old content.
pub fn overwrite_text(text: &mut Vec<u8>, echo: &Echo) -> Result<(), AllocError>
    ensures { OnOk result (TextOf echo.now text.new.items) }
{
    let tag = echo.tag.as_slice();
    let kept = echo.kept.as_text();
    let seen = echo.seen.as_slice();
    let path = echo.path.as_slice();
    let entries = seen.len().saturating_add(path.len());
    text.clear();
    text.reserve_exact(room_of(kept, entries))?;
    text.extend_from_slice(AREA)?;
    push_line(text, tag)?;
    text.extend_from_slice(kept)?;
    push_seen(text, seen)?;
    push_path(text, path)?;
    Ok(())
}

/// How many bytes most lines of SEEN-BY and PATH have at most, and how many an entry has there.
const LINE_ROOM: usize = 80;

const ENTRY_ROOM: usize = 6;

fn room_of(kept: &[u8], entries: usize) -> usize {
    let room = entries.saturating_mul(ENTRY_ROOM);
    room.saturating_add(3 * LINE_ROOM)
        .saturating_add(kept.len())
}
