//! A fetch whose fault a command reports.

ghost use Rattle.std.specs.Prelude.{◌≡◌, ◌≤◌, ◌<◌, slice_get, IfErr, OnOk};
ghost use Rattle.{base_file.specs.Base.Base, base_folder.specs.Source.{LooksAt, ReadsLegibly}};
ghost use Rattle.base_folder.specs.Fetching.{IsUnread};

use crate::source::MessageSource;
use base_file::BaseFault;
use base_store::StoreError;
use cmd_status::Fault;

/// Makes the message of this number the current one, of the base with this path. A damaged one is F3.
pub fn fetch_message<'a, M: MessageSource>(
    messages: &mut M,
    path: &'a str,
    i: usize,
) -> Result<(), Fault<'a>>
    requires ready { (M.state messages.old).is_ready }
    requires within { i < (M.state messages.old).count }
    ensures fetched { (M.state messages.new).is_honest → (base : Base) → (M.state messages.old).holds base → OnOk result ((M.state messages.new).at_hand ≡ slice_get base.messages i) }
    ensures fault { (M.state messages.new).is_honest → (base : Base) → (M.state messages.old).holds base
        → IfErr result (IsUnread path.now (M.state messages.old).failures (M.state messages.new).failures) }
    ensures legible { ReadsLegibly (M.state messages.old) (M.state messages.new) i result }
    ensures looks { LooksAt (M.state messages.old) (M.state messages.new) }
    ensures later { (M.state messages.old).failures ≤ (M.state messages.new).failures }
{
    match messages.fetch(i) {
        Ok(()) => Ok(()),
        Err(StoreError::Damaged) => Err(Fault::Base(BaseFault::Damaged { message: i as u64 })),
        Err(StoreError::Device) => Err(Fault::CannotUse(path)),
        Err(_) => Err(Fault::OutOfMemory),
    }
}
