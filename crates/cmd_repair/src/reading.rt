//! A list of ids is read, as `list --ids` prints it.
ghost use Rattle.std.specs.Prelude.{◌≡◌, ◌++◌, ◌∷◌, [], IfOk, List, OnOk, ℕ, map};
ghost use Rattle.cmd_repair.specs.IdList.{ReadsIds, id_words, is_wrong, stage_after};
ghost use Rattle.cmd_repair.specs.Words.{area_words, is_id_line};

use crate::known::KnownIds;
use crate::words::{id_word, is_end_line, is_id_line, push_area};
use cmd_status::Fault;
use echo_links::split_line;
use std::alloc::{AllocError, Global};

/// How far a list was read: to its front, to the ids, behind its last line, or to a wrong line.
#[derive(Clone, Copy, Debug, PartialEq, Eq)]
pub enum Stage {
    Start,
    Ids,
    Ended,
    Wrong,
}

/// The ids that a list of the area names; the tag is in upper case. The fault is the first wrong line, or the one after
/// the last if the list is cut.
pub fn read_ids<'a, 'b>(
    alloc: Global,
    area: &[u8],
    bytes: &'a [u8],
) -> Result<KnownIds<'a>, Fault<'b>>
    ensures { ReadsIds area.now bytes.now result }
{
    let mut first = Vec::new(alloc);
    push_area(&mut first, area)?;
    let mut words = Vec::new(alloc);
    let mut rest = bytes;
    let mut number: u64 = 1;
    let mut stage = Stage::Start;
    'lines: while !rest.is_empty() {
        let (line, after) = split_line(rest);
        let is_id = is_id_line(alloc, line)?;
        let ids = number.saturating_sub(2);
        stage = stage_after(alloc, &first, ids, stage, line, is_id)?;
        if is_wrong(stage) {
            return Err(Fault::ListLine(number));
        }
        take_word(&mut words, line, is_id)?;
        number = number.checked_add(1).ok_or(AllocError)?;
        rest = after;
    }
    match stage {
        Stage::Ended => Ok(KnownIds::of(words)),
        _ => Err(Fault::ListLine(number)),
    }
}

fn take_word<'a>(words: &mut Vec<&'a [u8]>, line: &'a [u8], is_id: bool) -> Result<(), AllocError>
    requires { is_id ≡ is_id_line line.now }
    ensures { OnOk result (map (λ word. word.now) words.new.items ≡ map (λ word. word.now) words.old.items ++ id_words (line.now ∷ [])) }
{
    if is_id {
        words.push(id_word(line))?;
    }
    Ok(())
}

fn is_wrong(stage: Stage) -> bool
    ensures { result ≡ is_wrong stage }
{
    match stage {
        Stage::Wrong => true,
        _ => false,
    }
}

fn stage_after(
    alloc: Global,
    first: &[u8],
    ids: u64,
    stage: Stage,
    line: &[u8],
    is_id: bool,
) -> Result<Stage, AllocError>
    requires { is_id ≡ is_id_line line.now }
    ensures { (area : List ℕ) → first.now ≡ area_words area → IfOk result (λ next. next ≡ stage_after area ids stage line.now) }
{
    match stage {
        Stage::Start if first == line => Ok(Stage::Ids),
        Stage::Ids if is_id => Ok(Stage::Ids),
        Stage::Ids if is_end_line(alloc, ids, line)? => Ok(Stage::Ended),
        _ => Ok(Stage::Wrong),
    }
}
