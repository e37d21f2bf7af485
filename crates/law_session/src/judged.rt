//! `check` of the two link files, before a session.
ghost use Rattle.std.specs.Prelude.{◌∷◌, [], OnOk};
ghost use Rattle.law_session.specs.InOrder.{WasJudged};

use cmd_check::{Besides, check};
use cmd_status::Status;
use disk_io::{Failure, Sink};
use echo_addr::Items;
use std::alloc::Global;

/// Whether `check` ends with 0.
pub fn judge<W: Sink>(
    alloc: Global,
    tag: &[u8],
    one: &[u8],
    two: &[u8],
    out: &mut W,
) -> Result<(), Failure>
    ensures { OnOk result (WasJudged tag.now (one.now ∷ (two.now ∷ []))) }
{
    let Ok(first) = one.to_vec(alloc) else {
        return Err(Failure);
    };
    let Ok(second) = two.to_vec(alloc) else {
        return Err(Failure);
    };
    let files = [Items::new(first), Items::new(second)];
    let besides = Besides {
        nodelist: None,
        more: false,
    };
    let Ok(status) = check(alloc, besides, tag, &files, None, out) else {
        return Err(Failure);
    };
    let Status::Good = status else {
        return Err(Failure);
    };
    Ok(())
}
