//! The command `reply` on a store.

ghost use Rattle.std.specs.Prelude.{false, IfErr, IsErrOf, OnOk, slice_get};
ghost use Rattle.{disk_io.specs.Disk.Honestly, base_file.specs.Base.Base};
ghost use Rattle.{cmd_status.specs.Devices.output_of, base_store.specs.Store.{HasStoreCause, LooksOn}, echo_steps.specs.PacketsIn.state_in};
ghost use Rattle.cmd_store.specs.{Answered.{CommitsNoneWhereMet, HasCommitted, MayMake}, Bounded.{AddsReply, IsStoppedFull}, Replied.{FindsOn, Replies, RepliesOn}};
ghost use Rattle.cmd_store.specs.Stops.{store_answer};

use crate::answering::{Answer, ReplyFields, reply_fields};
use crate::command::StoreCommand;
use crate::command_error::CommandError;
use crate::drafting::NewMessage;
use crate::posting::post_as;
use base_store::{PurgedStore, Store, StoreError};
use cmd_status::Fault;
use disk_io::Sink;
use echo_links::LinkFile;
use std::alloc::Global;

/// `reply`: an answer with this body to the message of this number, in its area and to its author.
#[derive(Clone, Copy, Debug)]
pub struct Reply<'w> {
    pub index: u64,
    pub answer: Answer<'w>,
    pub body: &'w [u8],
}

impl<'a> StoreCommand<'a> for Reply<'_> {
    type Answer = ();

    ghost answers = { λ old new file base before after result. RepliesOn (slice_get base.messages old.index) old.answer (state_in file base) old.body.now before after result };

    ghost makes = { λ old new file base before after result. Replies file old.index old.answer old.body.now base };

    ghost may = { λ self _ file. Replies file self.index self.answer self.body.now };

    ghost commits_held = { λ self. false };

    ghost adds = { λ self file. AddsReply file self.answer self.body.now };

    fn run<T: PurgedStore, W: Sink>(
        &mut self,
        alloc: Global,
        links: &LinkFile,
        store: &mut T,
        out: &mut W,
    ) -> Result<(), CommandError<'a>> {
        reply_on(alloc, self.index, self.answer, links, store, self.body, out)
    }
}

fn reply_on<'a, T: Store, W: Sink>(
    alloc: Global,
    index: u64,
    answer: Answer<'_>,
    links: &LinkFile,
    store: &mut T,
    body: &[u8],
    out: &mut W,
) -> Result<(), CommandError<'a>>
    requires { (T.state store.old).is_ready }
    ensures answers { Honestly (T.state store.new).disk ((base : Base) → (T.state store.old).keeps base
        → RepliesOn (slice_get base.messages index) answer.entry (state_in links.now base) body.now (output_of W.contents W.failures W.holds out.old) (output_of W.contents W.failures W.holds out.new) result) }
    ensures committed { Honestly (T.state store.new).disk ((base : Base) → (T.state store.old).keeps base
        → OnOk result (HasCommitted (Replies links.now index answer.entry body.now base) (T.state store.new))) }
    ensures ready { OnOk result (T.state store.new).is_ready }
    ensures met { IfErr result (CommitsNoneWhereMet (T.state store.old) (T.state store.new)) }
    ensures crash { MayMake (Replies links.now index answer.entry body.now) (T.state store.old) (T.state store.new) }
    ensures many { IsErrOf (store_answer result) StoreError.TooMany → IsStoppedFull T.state (AddsReply links.now answer.entry body.now) (T.state store.old) (T.state store.new) }
    ensures cause { HasStoreCause (T.state store.old) (T.state store.new) (T.failures store.old) (T.failures store.new) (store_answer result) }
{
    let found = found_on(alloc, index, store)?;
    let words = NewMessage {
        tag: found.tag.as_slice(),
        to_name: found.to_name.as_slice(),
        from_name: answer.from_name,
        subject: found.subject.as_slice(),
        reply: found.reply.as_slice(),
        serial: answer.serial,
        stamp: answer.stamp,
    };
    post_as(alloc, answer.free, words, links, store, body, out)
}

fn found_on<'a, T: Store>(
    alloc: Global,
    index: u64,
    store: &mut T,
) -> Result<ReplyFields, CommandError<'a>>
    requires { (T.state store.old).is_ready }
    ensures found { Honestly (T.state store.new).disk ((base : Base) → (T.state store.old).keeps base → FindsOn (slice_get base.messages index) result) }
    ensures looks { LooksOn (T.state store.old) (T.state store.new) }
    ensures many { IsErrOf (store_answer result) StoreError.TooMany → (T.state store.old).is_full }
    ensures cause { HasStoreCause (T.state store.old) (T.state store.new) (T.failures store.old) (T.failures store.new) (store_answer result) }
{
    if index >= store.len() as u64 {
        return Err(CommandError::Met(Fault::BadNumber));
    }
    store.fetch(index as usize)?;
    match store.at_hand() {
        Some(message) => Ok(reply_fields(alloc, message)?),
        None => Err(CommandError::Store(StoreError::Damaged)),
    }
}
