//! The command `post` on a store.

ghost use Rattle.std.specs.Prelude.{false, IfErr, IsErrOf, OnOk};
ghost use Rattle.{disk_io.specs.Disk.Honestly, base_file.specs.Base.Base, cmd_status.specs.Devices.output_of};
ghost use Rattle.{base_store.specs.{Store.{Commits, HasStoreCause, MayCommit}, declared.store_error.StoreError.TheVariants.TooMany}, echo_text.specs.Ids.id_of};
ghost use Rattle.{echo_steps.specs.PacketsIn.state_in, cmd_store.specs.Answered.{CommitsNoneWhereMet, HasCommitted, LooksWhereMet, MayMake, PrintsAll}};
ghost use Rattle.cmd_store.specs.{Lines.posted_line, Bounded.{AddsPosted, IsStoppedFull, IsUncommitted}, FreeSerial.{PostsAs, PostsAsOn}, Stops.store_answer};

use crate::command::StoreCommand;
use crate::command_error::CommandError;
use crate::drafting::{NewMessage, make_draft};
use crate::leaving::leave;
use crate::lines::push_posted;
use crate::serials::file_as;
use base_store::{PurgedStore, Store};
use disk_io::Sink;
use echo_links::LinkFile;
use std::alloc::Global;

/// `post`: a message of these words and this body. With `free`, its serial is the first, from that of the words on, that no
/// message of this system in the store has.
#[derive(Clone, Copy, Debug)]
pub struct Post<'w> {
    pub words: NewMessage<'w>,
    pub free: bool,
    pub body: &'w [u8],
}

impl<'a> StoreCommand<'a> for Post<'_> {
    type Answer = ();

    ghost answers = { λ old new file base before after result. PostsAsOn old.free old.words (state_in file base) old.body.now before after result };

    ghost makes = { λ old new file base before after result. PostsAs old.free file old.words old.body.now base };

    ghost may = { λ self _ file. PostsAs self.free file self.words self.body.now };

    ghost commits_held = { λ self. false };

    ghost adds = { λ self file. AddsPosted file self.words self.body.now };

    fn run<T: PurgedStore, W: Sink>(
        &mut self,
        alloc: Global,
        links: &LinkFile,
        store: &mut T,
        out: &mut W,
    ) -> Result<(), CommandError<'a>> {
        post_as(alloc, self.free, self.words, links, store, self.body, out)
    }
}

pub(crate) fn post_as<'a, T: Store, W: Sink>(
    alloc: Global,
    free: bool,
    words: NewMessage<'_>,
    links: &LinkFile,
    store: &mut T,
    body: &[u8],
    out: &mut W,
) -> Result<(), CommandError<'a>>
    requires { (T.state store.old).is_ready }
    ensures answers { Honestly (T.state store.new).disk ((base : Base) → (T.state store.old).keeps base
        → PostsAsOn free words.entry (state_in links.now base) body.now (output_of W.contents W.failures W.holds out.old) (output_of W.contents W.failures W.holds out.new) result) }
    ensures committed { Honestly (T.state store.new).disk ((base : Base) → (T.state store.old).keeps base
        → OnOk result (HasCommitted (PostsAs free links.now words.entry body.now base) (T.state store.new))) }
    ensures ready { OnOk result (T.state store.new).is_ready }
    ensures met { IfErr result (CommitsNoneWhereMet (T.state store.old) (T.state store.new)) }
    ensures crash { MayMake (PostsAs free links.now words.entry body.now) (T.state store.old) (T.state store.new) }
    ensures many { IsErrOf (store_answer result) TooMany → IsStoppedFull T.state (AddsPosted links.now words.entry body.now) (T.state store.old) (T.state store.new) }
    ensures cause { HasStoreCause (T.state store.old) (T.state store.new) (T.failures store.old) (T.failures store.new) (store_answer result) }
{
    let draft = make_draft(alloc, words, body)?;
    let serial = file_as(alloc, free, words, links, store, &draft)?;
    leave_posted(alloc, words.tag, serial, links, store, out)
}

#[tactic(auto, using(std::proofs::lemmas::Result::err_from_is_err_and, cmd_status::proofs::Lines::alone, base_store::proofs::Runs::no_look, crate::proofs::Commits::looks_may, crate::proofs::Printed::prints_same))]
fn leave_posted<'a, T: Store, W: Sink>(
    alloc: Global,
    tag: &[u8],
    serial: u32,
    links: &LinkFile,
    store: &mut T,
    out: &mut W,
) -> Result<(), CommandError<'a>>
    requires { (T.state store.old).is_ready }
    ensures printed { PrintsAll (posted_line tag.now (id_of links.now.system serial)) (output_of W.contents W.failures W.holds out.old) (output_of W.contents W.failures W.holds out.new) result }
    ensures committed { OnOk result (Commits (T.state store.old) (T.state store.new)) }
    ensures met { IfErr result (LooksWhereMet (T.state store.old) (T.state store.new)) }
    ensures either { MayCommit (T.state store.old) (T.state store.new) }
    ensures many { IsErrOf (store_answer result) TooMany → IsUncommitted (T.state store.old) (T.state store.new) }
    ensures cause { HasStoreCause (T.state store.old) (T.state store.new) (T.failures store.old) (T.failures store.new) (store_answer result) }
{
    let mut lines = Vec::new(alloc);
    push_posted(alloc, &mut lines, tag, links.system(), serial)?;
    leave(&mut lines, store, out)
}
