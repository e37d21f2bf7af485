//! The stub that a purge leaves of a message.
ghost use Rattle.std.specs.Prelude.{◌≡◌, ◌==◌, ◌&&◌, length, false, [], ◌∷◌, Some, bytes_eq, IfOk};
ghost use Rattle.std.specs.Cmp.Lexicographic.{pointwise};
ghost use Rattle.echo_text.specs.{Lines.msgid_word, Echo.IsLine};
ghost use Rattle.echo_filed.specs.{Filed.id_line, Stubs.is_stub, Stubs.stub_of};

use crate::filed::Filed;
use echo_addr::{Items, NetNode};
use echo_text::{Lines, push_line, split_line};
use std::alloc::{AllocError, Global};

// The beginning of an id's line (FTS-0009).
const ID_LINE: &[u8] = b"\x01MSGID: ";

fn is_id_line(line: &[u8], id: &[u8]) -> bool
    ensures { result ≡ bytes_eq line.now (id_line msgid_word id.now) }
{
    line.strip_prefix(ID_LINE) == Some(id)
}

fn is_alone(kept: &Lines, id: &[u8]) -> bool
    ensures { result ≡ pointwise bytes_eq kept.now (id_line msgid_word id.now ∷ []) }
{
    let text = kept.as_text();
    if text.is_empty() {
        return false;
    }
    let (line, rest) = split_line(text);
    if !rest.is_empty() {
        return false;
    }
    is_id_line(line, id)
}

fn is_bare(id: &[u8], kept: &Lines, seen: &[NetNode], path: &[NetNode]) -> bool
    ensures { result ≡ (pointwise bytes_eq kept.now (id_line msgid_word id.now ∷ [])
        && ((length seen.now == 0) && (length path.now == 0))) }
{
    is_alone(kept, id) && seen.is_empty() && path.is_empty()
}

/// Whether a purge leaves the message unchanged.
pub fn is_stub(message: &Filed) -> bool
    ensures { result ≡ is_stub message.now }
{
    let echo = &message.echo;
    match echo.msgid() {
        None => true,
        Some(id) => is_bare(id, &echo.kept, echo.seen.as_slice(), echo.path.as_slice()),
    }
}

/// The one line that carries the id, in a vector, which may hold anything.
pub fn lines_of_id(mut text: Vec<u8>, id: &[u8]) -> Result<Lines, AllocError>
    requires { IsLine (id_line msgid_word id.now) }
    ensures { IfOk result (λ lines. lines ≡ id_line msgid_word id.now ∷ []) }
{
    text.clear();
    text.reserve_exact(ID_LINE.len() + id.len() + 1)?;
    text.extend_from_slice(ID_LINE)?;
    push_line(&mut text, id)?;
    Ok(Lines::of_text(text))
}

/// The kept lines of the stub of a message with an id.
pub fn stub_lines(alloc: Global, message: &Filed) -> Result<Lines, AllocError>
    requires { is_stub message.now ≡ false }
    ensures { IfOk result (λ lines. lines ≡ (stub_of message.now).echo.kept) }
{
    lines_of_id(Vec::new(alloc), message.echo.msgid().unwrap_or(&[]))
}

/// Leaves of a message these lines alone, those that a purge leaves.
pub fn leave(alloc: Global, message: &mut Filed, lines: Lines)
    requires changed { is_stub message.old ≡ false }
    requires own { lines ≡ (stub_of message.old).echo.kept }
    ensures { message.new ≡ stub_of message.old }
{
    let echo = &mut message.echo;
    echo.kept = lines;
    echo.seen = Items::new(Vec::new(alloc));
    echo.path = Items::new(Vec::new(alloc));
}
