//! The step of one received message: here a duplicate is decided.

ghost use Rattle.std.specs.Prelude.{◌≡◌, IfOk, IsErrOf, OnErr, OnOk};
ghost use Rattle.disk_io.specs.Disk.{Honestly};
ghost use Rattle.base_file.specs.Base.{Base};
ghost use Rattle.base_store.specs.Store.{CommitsNothing, GoesOn, HasStoreCause, LooksOn, Undoes};
ghost use Rattle.model_steps.specs.Tossing.{toss_outcome, tossing};
ghost use Rattle.echo_steps.specs.{Bounds.AddsTossed, Bounds.IsPastBound, Stores.LooksUnlessFiled, Stores.and_filed, Wanted.HasOwnKey, Wanted.IsVerdict};

use crate::receiving::{Reading, key_in, read, received};
use base_store::{Store, StoreError};
use echo_addr::Address;
use echo_filed::{Filed, Key};
use echo_links::LinkFile;
use echo_packet::Packed;
use model_steps::Outcome;
use std::alloc::{AllocError, Global};

/// Files a received message in the store, or answers the first outcome that applies. Nothing is committed.
pub fn toss_step<T: Store>(
    alloc: Global,
    links: &LinkFile,
    store: &mut T,
    sender: Address,
    packed: &Packed,
) -> Result<Outcome, StoreError>
    requires { (T.state store.old).is_ready }
    ensures outcome { Honestly (T.state store.new).disk ((base : Base) → (T.state store.old).keeps base
        → IfOk result (λ outcome. outcome ≡ toss_outcome links.now base.messages sender packed.now)) }
    ensures filed { Honestly (T.state store.new).disk ((base : Base) → (T.state store.old).keeps base
        → OnOk result ((T.state store.new).keeps (and_filed base (tossing links.now base.messages sender packed.now)))) }
    ensures looks { IfOk result (LooksUnlessFiled (T.state store.old) (T.state store.new)) }
    ensures goes_on { OnOk result (GoesOn (T.state store.old) (T.state store.new)) }
    ensures undone { OnErr result (Undoes (T.state store.old) (T.state store.new)) }
    ensures commits { CommitsNothing (T.state store.old) (T.state store.new) }
    ensures many { IsErrOf result StoreError.TooMany → IsPastBound T.state (AddsTossed links.now sender packed.now) (T.state store.old) }
    ensures cause { HasStoreCause (T.state store.old) (T.state store.new) (T.failures store.old) (T.failures store.new) result }
{
    let verdict = judged(alloc, links, store, sender, packed)?;
    match verdict {
        Decision::New(key, message) => {
            store.file(key, message)?;
            Ok(Outcome::Filed)
        }
        Decision::Left(outcome) => Ok(outcome),
    }
}

#[derive(Drop)]
enum Decision {
    New(Key, Filed),
    Left(Outcome),
}

fn judged<T: Store>(
    alloc: Global,
    links: &LinkFile,
    store: &mut T,
    sender: Address,
    packed: &Packed,
) -> Result<Decision, StoreError>
    requires { (T.state store.old).is_ready }
    ensures verdict { Honestly (T.state store.new).disk ((base : Base) → (T.state store.old).keeps base
        → IfOk result (IsVerdict links.now base.messages sender packed.now)) }
    ensures key { IfOk result HasOwnKey }
    ensures looks { LooksOn (T.state store.old) (T.state store.new) }
    ensures many { IsErrOf result StoreError.TooMany → (T.state store.old).is_full }
    ensures cause { HasStoreCause (T.state store.old) (T.state store.new) (T.failures store.old) (T.failures store.new) result }
{
    let reading = read(alloc, links, sender, packed)?;
    match reading {
        Reading::Unwanted(outcome) => Ok(Decision::Left(outcome)),
        Reading::Wanted(front) => {
            let key = key_in(alloc, packed, &front)?;
            if store.knows(&key)? {
                return Ok(Decision::Left(Outcome::Known));
            }
            let message = received(alloc, sender, packed, front)?;
            Ok(Decision::New(key, message))
        }
    }
}
