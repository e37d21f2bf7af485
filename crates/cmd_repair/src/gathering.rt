//! The ids of an area, gathered in one run of bytes, so that a million of them take little memory.
ghost use Rattle.std.specs.{Prelude.{◌≡◌, ◌++◌, ◌+◌, ◌<◌, ◌^◌, ◌∷◌, [], IfErr, IfOk, List, ℕ, OnOk, length, map, option_copied, slice_get, take}, List.flat_map};
ghost use Rattle.{base_folder.specs.{Fetching.IsUnread, Source.AreLegible}, cmd_repair.specs.IdsListed.{Gathers, area_ids, area_messages, ids_at, messages_at}};
ghost use Rattle.base_file.specs.Base as model;
ghost use Rattle.echo_filed.specs.Filed as filed;

use base_folder::{MessageSource, fetch_message};
use cmd_status::Fault;
use echo_filed::Filed;
use std::alloc::{AllocError, Global};

/// The ids of an area one behind the other, how many bytes each has, and how many messages the area has.
#[derive(Drop)]
pub(crate) struct GatheredIds {
    pub(crate) bytes: Vec<u8>,
    pub(crate) lengths: Vec<usize>,
    pub(crate) messages: u64,
}

pub(crate) fn gather_ids<'a, M: MessageSource>(
    alloc: Global,
    area: &[u8],
    path: &'a str,
    messages: &mut M,
) -> Result<GatheredIds, Fault<'a>>
    requires { (M.state messages.old).is_ready }
    ensures ids { (M.state messages.new).is_honest → (base : model.Base) → (M.state messages.old).holds base
        → IfOk result (λ gathered. Gathers (area_ids area.now base.messages) (length (area_messages area.now base.messages)) gathered.bytes.items gathered.lengths.items gathered.messages) }
    ensures fault { (M.state messages.new).is_honest → (base : model.Base) → (M.state messages.old).holds base
        → IfErr result (IsUnread path.now (M.state messages.old).failures (M.state messages.new).failures) }
    ensures whole { (M.state messages.new).is_honest → OnOk result (AreLegible (M.state messages.old)) }
{
    let count = messages.count();
    let mut gathered = GatheredIds {
        bytes: Vec::new(alloc),
        lengths: Vec::new(alloc),
        messages: 0,
    };
    'messages: for i in 0..count {
        fetch_message(messages, path, i)?;
        gather_id(&mut gathered, area, messages.at_hand())?;
    }
    Ok(gathered)
}

fn gather_id(
    gathered: &mut GatheredIds,
    area: &[u8],
    message: Option<&Filed>,
) -> Result<(), AllocError>
    ensures { (ids : List (List ℕ)) (many : ℕ) → Gathers ids many gathered.old.bytes.items gathered.old.lengths.items gathered.old.messages
        → OnOk result (Gathers (ids ++ ids_at area.now (option_copied message.entry)) (many + length (messages_at area.now (option_copied message.entry))) gathered.new.bytes.items gathered.new.lengths.items gathered.new.messages) }
{
    let Some(message) = message else {
        return Ok(());
    };
    if message.echo.tag.as_slice() != area {
        return Ok(());
    }
    gathered.messages = gathered.messages.checked_add(1).ok_or(AllocError)?;
    match message.echo.msgid() {
        Some(id) => add_id(gathered, id),
        None => Ok(()),
    }
}

fn add_id(gathered: &mut GatheredIds, id: &[u8]) -> Result<(), AllocError>
    ensures { (ids : List (List ℕ)) (many : ℕ) → Gathers ids many gathered.old.bytes.items gathered.old.lengths.items gathered.old.messages
        → OnOk result (Gathers (ids ++ id.now ∷ []) many gathered.new.bytes.items gathered.new.lengths.items gathered.new.messages) }
{
    gathered.bytes.extend_from_slice(id)?;
    gathered.lengths.push(id.len())?;
    Ok(())
}

pub(crate) fn ids_of<'g>(
    alloc: Global,
    gathered: &'g GatheredIds,
) -> Result<Vec<&'g [u8]>, AllocError>
    ensures { (ids : List (List ℕ)) (many : ℕ) → Gathers ids many gathered.now.bytes.items gathered.now.lengths.items gathered.now.messages
        → IfOk result (λ all. map (λ id. id.now) all.items ≡ ids) }
{
    let mut all = Vec::with_capacity(alloc, gathered.lengths.len())?;
    let mut rest = gathered.bytes.as_slice();
    'ids: for size in &gathered.lengths {
        let (id, behind) = rest.split_at((*size).min(rest.len()));
        all.push(id)?;
        rest = behind;
    }
    Ok(all)
}
