//! Lines on their way to standard output, buffered up to a piece.
ghost use Rattle.std.specs.{Prelude.◌≡◌, Prelude.[], Prelude.false, Prelude.OnOk, Prelude.OnErr, Prelude.IfErr, Io.KnownBytes.Appends};
ghost use Rattle.cmd_status.specs.{Ended.CannotPrint, Lines.PassesOn, Lines.WritesFront};

use crate::fault::Fault;
use disk_io::{Sink, send};

/// How many bytes are kept back at most before they are passed on.
const PIECE: usize = 65_536;

fn send_lines<'a, W: Sink>(lines: &mut Vec<u8>, out: &mut W) -> Result<(), Fault<'a>>
    ensures bytes { OnOk result (Appends (W.contents out.old) (W.contents out.new) lines.old.items) }
    ensures begun { OnErr result (WritesFront lines.old.items (W.contents out.old) (W.contents out.new)) }
    ensures empty { lines.new.items ≡ [] }
    ensures ok { OnOk result (W.failures out.new ≡ W.failures out.old) }
    ensures err { IfErr result (CannotPrint (W.failures out.old) (W.failures out.new)) }
{
    let mut sent = 0;
    let went = send(out, lines, &mut sent);
    lines.clear();
    match went {
        Ok(()) => Ok(()),
        Err(_) => Err(Fault::CannotUse("-")),
    }
}

/// Writes the lines, if they are a piece or more. Lines that could not be written are dropped.
pub fn flush_piece<'a, W: Sink>(lines: &mut Vec<u8>, out: &mut W) -> Result<(), Fault<'a>>
    ensures bytes { OnOk result (PassesOn lines.old.items lines.new.items (W.contents out.old) (W.contents out.new)) }
    ensures begun { OnErr result (WritesFront lines.old.items (W.contents out.old) (W.contents out.new)) }
    ensures dropped { OnErr result (lines.new.items ≡ []) }
    ensures ok { OnOk result (W.failures out.new ≡ W.failures out.old) }
    ensures err { IfErr result (CannotPrint (W.failures out.old) (W.failures out.new)) }
{
    if lines.len() < PIECE {
        return Ok(());
    }
    send_lines(lines, out)
}

/// Writes the lines and flushes.
pub fn print_rest<'a, W: Sink>(lines: &mut Vec<u8>, out: &mut W) -> Result<(), Fault<'a>>
    ensures bytes { OnOk result (Appends (W.contents out.old) (W.contents out.new) lines.old.items) }
    ensures passed { OnOk result (W.holds out.new ≡ false) }
    ensures begun { OnErr result (WritesFront lines.old.items (W.contents out.old) (W.contents out.new)) }
    ensures ok { OnOk result (W.failures out.new ≡ W.failures out.old) }
    ensures err { IfErr result (CannotPrint (W.failures out.old) (W.failures out.new)) }
{
    send_lines(lines, out)?;
    match out.flush_all() {
        Ok(()) => Ok(()),
        Err(_) => Err(Fault::CannotUse("-")),
    }
}
