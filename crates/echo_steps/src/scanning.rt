//! The step of a scan that holds its packets in memory.

ghost use Rattle.std.specs.Prelude.{◌≡◌, true, IfOk, IsErrOf, MatchResult, OnOk};
ghost use Rattle.disk_io.specs.{Disk.Honestly, Runs.ChangesNothing};
ghost use Rattle.base_file.specs.Base.{Base};
ghost use Rattle.base_store.specs.Store.{CommitsNothing, HasStoreCause, LooksOn, all_scanned};
ghost use Rattle.model_steps.specs.{Scanning.scanned, Stamps.is_stamp};
ghost use Rattle.echo_steps.specs.{Bounds.IsFullWhenRead, Stores.GoesOnOrUndoes, Stores.IsScanStop, Stores.scan_answer};

use crate::outgoing::waiting;
use crate::packing::packets;
use crate::step_error::ScanStepError;
use base_store::{Store, StoreError};
use echo_links::LinkFile;
use model_steps::{Packet, Stamp, is_stamp};
use std::alloc::Global;

/// Makes the packets of the store's waiting messages: one for each address that gets some of them, ascending,
/// with its messages in order of filing. Then no message waits. Nothing is committed.
pub fn scan_step<T: Store>(
    alloc: Global,
    links: &LinkFile,
    store: &mut T,
    stamp: Stamp,
) -> Result<Vec<Packet>, ScanStepError>
    requires { (T.state store.old).is_ready }
    ensures packets { Honestly (T.state store.new).disk ((base : Base) → (T.state store.old).keeps base
        → IfOk result (λ all. all.items ≡ scanned links.now base.messages base.cursor stamp)) }
    ensures moved { Honestly (T.state store.new).disk ((base : Base) → (T.state store.old).keeps base → OnOk result ((T.state store.new).keeps (all_scanned base))) }
    ensures stamp { MatchResult result (λ _. is_stamp stamp ≡ true) (IsScanStop stamp (T.state store.old) (T.state store.new)) }
    ensures ends { GoesOnOrUndoes (T.state store.old) (T.state store.new) result }
    ensures quiet { ChangesNothing (T.state store.old).disk (T.state store.new).disk }
    ensures commits { CommitsNothing (T.state store.old) (T.state store.new) }
    ensures many { IsErrOf (scan_answer result) StoreError.TooMany → IsFullWhenRead T.state (T.state store.old) }
    ensures cause { HasStoreCause (T.state store.old) (T.state store.new) (T.failures store.old) (T.failures store.new) (scan_answer result) }
{
    if !is_stamp(stamp) {
        return Err(ScanStepError::BadStamp);
    }
    let packets = scanned(alloc, links, store, stamp)?;
    store.move_to_end()?;
    Ok(packets)
}

fn scanned<T: Store>(
    alloc: Global,
    links: &LinkFile,
    store: &mut T,
    stamp: Stamp,
) -> Result<Vec<Packet>, StoreError>
    requires ready { (T.state store.old).is_ready }
    requires stamp { is_stamp stamp ≡ true }
    ensures packets { Honestly (T.state store.new).disk ((base : Base) → (T.state store.old).keeps base
        → IfOk result (λ all. all.items ≡ scanned links.now base.messages base.cursor stamp)) }
    ensures looks { LooksOn (T.state store.old) (T.state store.new) }
    ensures many { IsErrOf result StoreError.TooMany → IsFullWhenRead T.state (T.state store.old) }
    ensures cause { HasStoreCause (T.state store.old) (T.state store.new) (T.failures store.old) (T.failures store.new) result }
{
    let outgoing = waiting(alloc, links, store)?;
    Ok(packets(alloc, links, stamp, &outgoing)?)
}
