//! The line of a message that was not filed.
ghost use Rattle.std.specs.Prelude.{◌≡◌, ◌++◌, codes, option_copied, OnOk, IfOk};
ghost use Rattle.echo_text.specs.Echo.{HasNoZero};
ghost use Rattle.cmd_store.specs.Notes.{area_said, id_said, note_line, outcome_word, text_said};

use echo_charset::{push_escaped, written};
use echo_packet::Packed;
use echo_text::{EchoView, TextFault, view_text};
use model_steps::Outcome;
use std::alloc::{AllocError, Global};
use std::io::Write;

pub(crate) fn note_line(
    alloc: Global,
    number: u64,
    place: u64,
    outcome: Outcome,
    message: &Packed,
) -> Result<Vec<u8>, AllocError>
    ensures { IfOk result (λ line. line.items ≡ note_line number place outcome message.now) }
{
    let mut line = Vec::new(alloc);
    written(write!(&mut line, "message {number} at {place} "))?;
    line.extend_from_slice(outcome_word(outcome))?;
    push_said(alloc, &mut line, message.text())?;
    Ok(line)
}

fn outcome_word(outcome: Outcome) -> &'static [u8]
    ensures { result.now ≡ outcome_word outcome }
{
    match outcome {
        Outcome::NotEcho => b"notecho",
        Outcome::BadTag => b"badtag",
        Outcome::NoArea => b"noarea",
        Outcome::NotLinked => b"notlinked",
        Outcome::Known => b"known",
        Outcome::Filed => b"filed",
    }
}

fn push_said(alloc: Global, line: &mut Vec<u8>, text: &[u8]) -> Result<(), AllocError>
    requires { HasNoZero text.now }
    ensures { OnOk result (line.new.items ≡ line.old.items ++ text_said text.now) }
{
    match view_text(alloc, text) {
        Ok((echo, _)) => push_area(line, &echo),
        Err(TextFault::NotEcho) => push_end(line),
        Err(TextFault::BadTag) => push_end(line),
        Err(_) => Err(AllocError),
    }
}

fn push_area(line: &mut Vec<u8>, echo: &EchoView) -> Result<(), AllocError>
    ensures { OnOk result (line.new.items ≡ line.old.items ++ area_said echo.now) }
{
    line.extend_from_slice(b" area ")?;
    line.extend_from_slice(echo.tag.as_slice())?;
    push_id(line, echo.msgid())
}

fn push_id(line: &mut Vec<u8>, id: Option<&[u8]>) -> Result<(), AllocError>
    ensures { OnOk result (line.new.items ≡ line.old.items ++ id_said (option_copied id.entry)) }
{
    match id {
        Some(id) => push_escaped(line, b" msgid", id),
        None => push_end(line),
    }
}

fn push_end(line: &mut Vec<u8>) -> Result<(), AllocError>
    ensures { OnOk result (line.new.items ≡ line.old.items ++ codes "\n") }
{
    line.push(b'\n')?;
    Ok(())
}
