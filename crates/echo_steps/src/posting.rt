//! The step of a posting.

ghost use Rattle.std.specs.{Prelude.◌≡◌, Prelude.None, Prelude.IfErr, Prelude.IfOk, Prelude.IsErrOf, Prelude.MatchResult, Prelude.OnOk, List.list_any};
ghost use Rattle.echo_text.specs.Ids.{id_of};
ghost use Rattle.echo_filed.specs.Filed.{has_id, key_of};
ghost use Rattle.disk_io.specs.Disk.{Honestly};
ghost use Rattle.base_file.specs.Base.{Base};
ghost use Rattle.base_store.specs.Store.{CommitsNothing, HasStoreCause, LooksOn, with_message};
ghost use Rattle.model_steps.specs.Posting.{post_refusal, posted};
ghost use Rattle.echo_steps.specs.{Bounds.IsPastBound, Refusals.IsPrepared, Refusals.draft_refusal, Stores.GoesOnOrUndoes, Stores.IsPostStop, Stores.LooksWhereRefused, Stores.post_answer};

use crate::drafting::posted;
use crate::refusing::{ReplyRule, judge_draft};
use crate::step_error::PostStepError;
use base_store::{Store, StoreError};
use echo_addr::Address;
use echo_filed::{Filed, Key};
use echo_links::LinkFile;
use echo_text::MsgId;
use model_steps::{Draft, PostFault, Stamp};
use std::alloc::{AllocError, Global};

/// Files in the store a message of the area with this tag, whatever the case of its letters. Its id is the own address
/// and the serial (FTS-0009), which no message of the store may have. Nothing is committed.
pub fn post_step<T: Store>(
    alloc: Global,
    links: &LinkFile,
    store: &mut T,
    tag: &[u8],
    draft: &Draft,
    serial: u32,
    stamp: Stamp,
) -> Result<(), PostStepError>
    requires { (T.state store.old).is_ready }
    ensures allowed { Honestly (T.state store.new).disk ((base : Base) → (T.state store.old).keeps base
        → OnOk result (post_refusal links.now base.messages tag.now draft.now serial stamp ≡ None)) }
    ensures filed { Honestly (T.state store.new).disk ((base : Base) → (T.state store.old).keeps base
        → OnOk result ((T.state store.new).keeps (with_message base (posted links.now tag.now draft.now serial stamp)))) }
    ensures stop { Honestly (T.state store.new).disk ((base : Base) → (T.state store.old).keeps base
        → IfErr result (IsPostStop links.now base.messages tag.now draft.now serial stamp)) }
    ensures looks { IfErr result (LooksWhereRefused (T.state store.old) (T.state store.new)) }
    ensures ends { GoesOnOrUndoes (T.state store.old) (T.state store.new) result }
    ensures commits { CommitsNothing (T.state store.old) (T.state store.new) }
    ensures many { IsErrOf (post_answer result) StoreError.TooMany → IsPastBound T.state (λ base m. m ≡ posted links.now tag.now draft.now serial stamp) (T.state store.old) }
    ensures cause { HasStoreCause (T.state store.old) (T.state store.new) (T.failures store.old) (T.failures store.new) (post_answer result) }
{
    let new = prepared(alloc, links, store, tag, draft, serial, stamp)?;
    let (key, message) = new;
    store.file(key, message)?;
    Ok(())
}

fn prepared<T: Store>(
    alloc: Global,
    links: &LinkFile,
    store: &mut T,
    tag: &[u8],
    draft: &Draft,
    serial: u32,
    stamp: Stamp,
) -> Result<(Key, Filed), PostStepError>
    requires { (T.state store.old).is_ready }
    ensures prepared { Honestly (T.state store.new).disk ((base : Base) → (T.state store.old).keeps base
        → MatchResult result (λ new. IsPrepared links.now base.messages tag.now draft.now serial stamp new.0 new.1) (IsPostStop links.now base.messages tag.now draft.now serial stamp)) }
    ensures key { IfOk result (λ new. new.0 ≡ key_of new.1) }
    ensures looks { LooksOn (T.state store.old) (T.state store.new) }
    ensures many { IsErrOf (post_answer result) StoreError.TooMany → (T.state store.old).is_full }
    ensures cause { HasStoreCause (T.state store.old) (T.state store.new) (T.failures store.old) (T.failures store.new) (post_answer result) }
{
    judge_draft(links, tag, draft, stamp, ReplyRule::AnyForm)?;
    if is_known(alloc, store, links.system(), serial)? {
        return Err(PostStepError::Refused(PostFault::KnownSerial));
    }
    Ok(made(alloc, links, tag, draft, serial, stamp)?)
}

fn is_known<T: Store>(
    alloc: Global,
    store: &mut T,
    system: Address,
    serial: u32,
) -> Result<bool, StoreError>
    requires { (T.state store.old).is_ready }
    ensures known { Honestly (T.state store.new).disk ((base : Base) → (T.state store.old).keeps base
        → IfOk result (λ known. known ≡ list_any (has_id (id_of system serial)) base.messages)) }
    ensures looks { LooksOn (T.state store.old) (T.state store.new) }
    ensures many { IsErrOf result StoreError.TooMany → (T.state store.old).is_full }
    ensures cause { HasStoreCause (T.state store.old) (T.state store.new) (T.failures store.old) (T.failures store.new) result }
{
    let id = MsgId::write(alloc, system, serial)?;
    store.has_id(&id)
}

fn made(
    alloc: Global,
    links: &LinkFile,
    tag: &[u8],
    draft: &Draft,
    serial: u32,
    stamp: Stamp,
) -> Result<(Key, Filed), AllocError>
    requires { draft_refusal links.now tag.now draft.now stamp ≡ None }
    ensures key { IfOk result (λ new. new.0 ≡ key_of new.1) }
    ensures message { IfOk result (λ new. new.1 ≡ posted links.now tag.now draft.now serial stamp) }
{
    let message = posted(alloc, links, tag, draft, serial, stamp)?;
    let key = Key::of_message(alloc, &message)?;
    Ok((key, message))
}
