//! The serial with which a message is posted.
ghost use Rattle.std.specs.Prelude.{◌≡◌, ◌↔◌, true, IfErr, IsErrOf, IsTrue, OnOk};
ghost use Rattle.{disk_io.specs.Disk.Honestly, base_file.specs.Base.Base};
ghost use Rattle.{model_steps.specs.declared.fault.PostFault.TheVariants.KnownSerial, base_store.specs.Store.{CommitsNothing, GoesOn, HasStoreCause}};
ghost use Rattle.{base_store.specs.declared.store_error.StoreError.TheVariants.TooMany, echo_steps.specs.declared.step_error.PostStepError.TheVariants.Refused};
ghost use Rattle.{echo_steps.specs.{Stores.{LooksWhereRefused, post_answer}, Bounds.IsPastBound}, cmd_store.specs.{Bounded.AddsDraft, FreeSerial.FilesAs}};

use crate::drafting::NewMessage;
use base_store::Store;
use echo_links::LinkFile;
use echo_steps::{PostStepError, post_step};
use model_steps::{Draft, PostFault};
use std::alloc::Global;

/// Files with the serial of the words or, with `free`, the first free one from there. After the greatest comes 0.
pub(crate) fn file_as<T: Store>(
    alloc: Global,
    free: bool,
    words: NewMessage<'_>,
    links: &LinkFile,
    store: &mut T,
    draft: &Draft,
) -> Result<u32, PostStepError>
    requires { (T.state store.old).is_ready }
    ensures filed { Honestly (T.state store.new).disk ((base : Base) → (T.state store.old).keeps base
        → FilesAs free links.now base words.entry draft.now result (T.state store.new)) }
    ensures looks { IfErr result (LooksWhereRefused (T.state store.old) (T.state store.new)) }
    ensures goes_on { OnOk result (GoesOn (T.state store.old) (T.state store.new)) }
    ensures commits { CommitsNothing (T.state store.old) (T.state store.new) }
    ensures many { IsErrOf (post_answer result) TooMany → IsPastBound T.state (AddsDraft links.now words.entry draft.now) (T.state store.old) }
    ensures cause { HasStoreCause (T.state store.old) (T.state store.new) (T.failures store.old) (T.failures store.new) (post_answer result) }
{
    if free {
        return file_free(alloc, words, links, store, draft);
    }
    let (tag, serial, stamp) = (words.tag, words.serial, words.stamp);
    post_step(alloc, links, store, tag, draft, serial, stamp)?;
    Ok(serial)
}

fn file_free<T: Store>(
    alloc: Global,
    words: NewMessage<'_>,
    links: &LinkFile,
    store: &mut T,
    draft: &Draft,
) -> Result<u32, PostStepError>
    requires { (T.state store.old).is_ready }
    ensures filed { Honestly (T.state store.new).disk ((base : Base) → (T.state store.old).keeps base
        → FilesAs true links.now base words.entry draft.now result (T.state store.new)) }
    ensures looks { IfErr result (LooksWhereRefused (T.state store.old) (T.state store.new)) }
    ensures goes_on { OnOk result (GoesOn (T.state store.old) (T.state store.new)) }
    ensures commits { CommitsNothing (T.state store.old) (T.state store.new) }
    ensures many { IsErrOf (post_answer result) TooMany → IsPastBound T.state (AddsDraft links.now words.entry draft.now) (T.state store.old) }
    ensures cause { HasStoreCause (T.state store.old) (T.state store.new) (T.failures store.old) (T.failures store.new) (post_answer result) }
{
    let (tag, start, stamp) = (words.tag, words.serial, words.stamp);
    let mut serial = start;
    'serials: for _steps in 0..u32::MAX {
        match post_step(alloc, links, store, tag, draft, serial, stamp) {
            Ok(()) => return Ok(serial),
            Err(stop) if !is_of_serial(stop) => return Err(stop),
            Err(_) => serial = serial.wrapping_add(1),
        }
    }
    post_step(alloc, links, store, tag, draft, serial, stamp)?;
    Ok(serial)
}

fn is_of_serial(stop: PostStepError) -> bool
    ensures { IsTrue result ↔ (stop ≡ Refused KnownSerial) }
{
    matches!(stop, PostStepError::Refused(PostFault::KnownSerial))
}
