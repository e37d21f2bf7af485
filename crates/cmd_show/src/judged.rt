//! A link file, judged as a whole.

ghost use Rattle.std.specs.Prelude.{◌≡◌, false, IfOk, Some};
ghost use Rattle.cmd_show.specs.{FaultyLines.{is_homeless, reported_lines}, Judging.{IsJudged, is_memory}};

use crate::before::faulty_lines;
use crate::faulty::FaultyLine;
use echo_addr::Items;
use echo_links::{LinkFault, LinkFile};
use std::alloc::{AllocError, Global};

/// A link file, or its faults.
#[derive(Debug, Drop)]
pub enum Judged {
    Good(LinkFile),
    /// Its faulty lines in order. If each line is good but no line has the own address, that alone.
    Faulty(Items<FaultyLine>),
}

/// A link file, or all of its faults; each line is judged by the good lines before it. Fails only when out of memory.
pub fn judge(alloc: Global, bytes: &[u8]) -> Result<Judged, AllocError>
    ensures { IfOk result (IsJudged bytes.now) }
{
    match LinkFile::read(alloc, bytes) {
        Ok(file) => Ok(Judged::Good(file)),
        Err(why) => Ok(Judged::Faulty(Items::new(reported_lines(alloc, bytes, why)?))),
    }
}

fn reported_lines(
    alloc: Global,
    bytes: &[u8],
    why: LinkFault,
) -> Result<Vec<FaultyLine>, AllocError>
    ensures reported { IfOk result (λ reported. reported.items ≡ reported_lines bytes.now (Some why)) }
    ensures memory { IfOk result (λ reported. is_memory why ≡ false) }
{
    if is_memory(why) {
        return Err(AllocError);
    }
    if !is_homeless(why) {
        return faulty_lines(alloc, bytes);
    }
    let mut reported = Vec::new(alloc);
    reported.push(FaultyLine::new(alloc, why, b"")?)?;
    Ok(reported)
}

fn is_memory(why: LinkFault) -> bool
    ensures { result ≡ is_memory why }
{
    matches!(why, LinkFault::Memory)
}

fn is_homeless(why: LinkFault) -> bool
    ensures { result ≡ is_homeless why }
{
    matches!(why, LinkFault::NoSystem { .. })
}
