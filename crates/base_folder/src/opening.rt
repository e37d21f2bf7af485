//! A base folder opened to be changed.
ghost use Rattle.std.specs.Prelude.{ℕ, List, IfErr, IfOk, OnOk};
ghost use Rattle.{base_file.specs.Base.Base, disk_io.specs.Disk.Honestly};
ghost use Rattle.{echo_addr.specs.declared.address.Address.Address, base_log.specs.Opening.AreAlone, base_folder_store.specs.Held.{HoldsBase, RepresentsBase}};
ghost use Rattle.{base_folder_store.specs.Opened.{IsFresh, IsOpen, held_by}, base_folder.specs.Ours.{IsLeftAlone, IsNotOurs, IsOfOther}};
ghost use Rattle.base_folder.specs.{Unopened.{HasOpened, HaveRoom, IsOpenedFor, OpensOnly}, OpenError.{HasUnreadCause, IsWrong}, Wrong.{IsSoundBy, NeedsSound}};

use crate::judging::judged;
use crate::open_error::OpenError;
use crate::owning::{claim_for, judge_owner};
use base_folder_store::Folder;
use disk_io::Disk;
use echo_addr::Address;
use std::alloc::Global;

/// Opens the base folder of this path, which ends in a slash. `strange`: it has foreign files. `Wrong`: it is no base
/// folder (F1), or its log or a file is cut short (F2); then nothing is changed.
pub fn open_base<D: Disk>(
    alloc: Global,
    disk: &mut D,
    path: &[u8],
    strange: bool,
) -> Result<Folder, OpenError>
    requires { Honestly (D.state disk.old) (AreAlone path.now (D.state disk.old)) }
    ensures opened { Honestly (D.state disk.new) (IfOk result (IsOpen (D.state disk.new))) }
    ensures fresh { IfOk result (IsFresh path.now) }
    ensures same { Honestly (D.state disk.new) ((keyed : ℕ → ℕ → List ℕ → ℕ) (base : Base) → RepresentsBase keyed path.now base (D.state disk.old).seen
        → IfOk result (λ folder. HoldsBase keyed (held_by (D.state disk.new) folder) base)) }
    ensures run { OpensOnly path.now (D.state disk.old) (D.state disk.new) }
    ensures sound { Honestly (D.state disk.new) (IfOk result (λ folder. IsSoundBy strange path.now (D.state disk.old).seen folder.recorded)) }
    ensures wrong { Honestly (D.state disk.new) (IfErr result (IsWrong strange path.now (D.state disk.old).seen)) }
    ensures left { IfErr result (IsLeftAlone (D.state disk.old) (D.state disk.new)) }
    ensures cause { HasUnreadCause (D.failures disk.old) (D.failures disk.new) result }
{
    let log = judged(alloc, disk, path, strange)?;
    let folder = Folder::open(alloc, disk, path, &log)?;
    Ok(folder)
}

/// Opens the base folder for the system with this address. A folder without owner is claimed, from the next commit on;
/// one without messages also gets the key of these two halves. `NotOwner`: it belongs to another system, and then
/// nothing is changed.
pub fn open_own<D: Disk>(
    alloc: Global,
    disk: &mut D,
    path: &[u8],
    strange: bool,
    own: Address,
    key: (u64, u64),
) -> Result<Folder, OpenError>
    requires { Honestly (D.state disk.old) (AreAlone path.now (D.state disk.old)) }
    ensures own { IfOk result (IsOpenedFor path.now own key.0 key.1 (D.state disk.new)) }
    ensures same { Honestly (D.state disk.new) ((keyed : ℕ → ℕ → List ℕ → ℕ) (base : Base) → HaveRoom keyed → RepresentsBase keyed path.now base (D.state disk.old).seen
        → IfOk result (HasOpened keyed (D.state disk.new) base)) }
    ensures run { OpensOnly path.now (D.state disk.old) (D.state disk.new) }
    ensures sound { Honestly (D.state disk.new) (NeedsSound strange path.now (D.state disk.old) (D.state disk.new) result) }

    ensures other { Honestly (D.state disk.new) ((address : Address) → IsOfOther own strange path.now (D.state disk.old).seen address → OnOk result ⊥) }
    ensures refused { Honestly (D.state disk.new) (IfErr result (IsLeftAlone (D.state disk.old) (D.state disk.new))) }
    ensures wrong { Honestly (D.state disk.new) (IfErr result (IsNotOurs own strange path.now (D.state disk.old).seen)) }
    ensures cause { HasUnreadCause (D.failures disk.old) (D.failures disk.new) result }
{
    let log = judged(alloc, disk, path, strange)?;
    judge_owner(log.end.recorded.mark, own)?;
    let mut folder = Folder::open(alloc, disk, path, &log)?;
    claim_for(&mut folder, own, key.0, key.1);
    Ok(folder)
}
