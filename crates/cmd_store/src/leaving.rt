//! The end of a command: its lines are printed, and what the store holds is committed.
ghost use Rattle.std.specs.Prelude.{IfErr, IsErrOf, OnOk};
ghost use Rattle.{cmd_status.specs.Devices.output_of, base_store.specs.Store.{Commits, HasStoreCause, MayCommit}};
ghost use Rattle.{base_store.specs.declared.store_error.StoreError.TheVariants.TooMany, cmd_store.specs.{Answered.{LooksWhereMet, PrintsAll}, Bounded.IsUncommitted}};
ghost use Rattle.cmd_store.specs.Stops.{IsOfStore, store_answer};

use crate::command_error::CommandError;
use base_store::Store;
use cmd_status::print_rest;
use disk_io::Sink;

/// Commits what the store holds.
pub fn commit_store<'a, T: Store>(store: &mut T) -> Result<(), CommandError<'a>>
    requires { (T.state store.old).is_ready }
    ensures committed { OnOk result (Commits (T.state store.old) (T.state store.new)) }
    ensures either { MayCommit (T.state store.old) (T.state store.new) }
    ensures of_store { IfErr result IsOfStore }
    ensures many { IsErrOf (store_answer result) TooMany → IsUncommitted (T.state store.old) (T.state store.new) }
    ensures cause { HasStoreCause (T.state store.old) (T.state store.new) (T.failures store.old) (T.failures store.new) (store_answer result) }
{
    store.commit()?;
    Ok(())
}

pub(crate) fn leave<'a, T: Store, W: Sink>(
    lines: &mut Vec<u8>,
    store: &mut T,
    out: &mut W,
) -> Result<(), CommandError<'a>>
    requires { (T.state store.old).is_ready }
    ensures printed { PrintsAll lines.old.items (output_of W.contents W.failures W.holds out.old) (output_of W.contents W.failures W.holds out.new) result }
    ensures committed { OnOk result (Commits (T.state store.old) (T.state store.new)) }
    ensures met { IfErr result (LooksWhereMet (T.state store.old) (T.state store.new)) }
    ensures either { MayCommit (T.state store.old) (T.state store.new) }
    ensures many { IsErrOf (store_answer result) TooMany → IsUncommitted (T.state store.old) (T.state store.new) }
    ensures cause { HasStoreCause (T.state store.old) (T.state store.new) (T.failures store.old) (T.failures store.new) (store_answer result) }
{
    print_rest(lines, out)?;
    commit_store(store)
}
