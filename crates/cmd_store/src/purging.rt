//! The command `purge` on a store.
ghost use Rattle.std.specs.Prelude.{◌≡◌, true, IfErr, IsErrOf, OnOk};
ghost use Rattle.{disk_io.specs.Disk.Honestly, base_file.specs.Base.Base, cmd_status.specs.Devices.output_of};
ghost use Rattle.base_store.specs.{Store.HasStoreCause, declared.store_error.StoreError.TheVariants.TooMany};
ghost use Rattle.cmd_store.specs.{Answered.{HasCommitted, MayCommitWhereMet, MayMake}, Bounded.IsStoppedHeld, Purged.{HoldsOrPurges, Purges, PurgesIn, PurgesOn, is_purge_of}};
ghost use Rattle.{cmd_store.specs.Stops.store_answer, echo_steps.specs.Bounds.AddsNone};

use crate::command::StoreCommand;
use crate::command_error::CommandError;
use crate::leaving::leave;
use crate::lines::push_purged;
use base_file::PurgeRange;
use base_store::PurgedStore;
use cmd_status::Fault;
use disk_io::Sink;
use echo_links::LinkFile;
use std::alloc::Global;

/// `purge`: reduces each scanned message of a range with an id to that id. An area of the range has to be in the link
/// file; `area` is the word for it.
#[derive(Debug, Drop)]
pub struct Purge<'a> {
    pub range: PurgeRange,
    pub area: &'a str,
}

impl<'a, 'w: 'a> StoreCommand<'a> for Purge<'w> {
    type Answer = ();

    ghost answers = { λ old new file base before after result. PurgesIn old.area.now old.range file base before after result };

    ghost makes = { λ old new file base before after result. Purges old.range base };

    ghost may = { λ self _ file. HoldsOrPurges self.range };

    ghost commits_held = { λ self. true };

    ghost adds = { λ self file. AddsNone };

    fn run<T: PurgedStore, W: Sink>(
        &mut self,
        alloc: Global,
        links: &LinkFile,
        store: &mut T,
        out: &mut W,
    ) -> Result<(), CommandError<'a>> {
        purge_in(alloc, self.area, &self.range, links, store, out)
    }
}

// Whether the link file has the area of a purge, or it is one of all areas.
fn is_purge_of(links: &LinkFile, range: &PurgeRange) -> bool
    ensures { result ≡ is_purge_of links.now range.now.area }
{
    match &range.area {
        Some(area) => links.has_area(area.as_slice()),
        None => true,
    }
}

#[tactic(auto, using(crate::proofs::Purges::allowed_in, crate::proofs::Purges::refused_in, crate::proofs::Purges::met_before, crate::proofs::Purges::none_made))]
fn purge_in<'a, T: PurgedStore, W: Sink>(
    alloc: Global,
    word: &'a str,
    range: &PurgeRange,
    links: &LinkFile,
    store: &mut T,
    out: &mut W,
) -> Result<(), CommandError<'a>>
    requires { (T.state store.old).is_ready }
    ensures answers { Honestly (T.state store.new).disk ((base : Base) → (T.state store.old).keeps base
        → PurgesIn word.now range.now links.now base (output_of W.contents W.failures W.holds out.old) (output_of W.contents W.failures W.holds out.new) result) }
    ensures committed { Honestly (T.state store.new).disk ((base : Base) → (T.state store.old).keeps base
        → OnOk result (HasCommitted (Purges range.now base) (T.state store.new))) }
    ensures ready { OnOk result (T.state store.new).is_ready }
    ensures met { IfErr result (MayCommitWhereMet (T.state store.old) (T.state store.new)) }
    ensures crash { MayMake (HoldsOrPurges range.now) (T.state store.old) (T.state store.new) }
    ensures many { IsErrOf (store_answer result) TooMany → IsStoppedHeld T.state (HoldsOrPurges range.now) (T.state store.old) (T.state store.new) }
    ensures cause { HasStoreCause (T.state store.old) (T.state store.new) (T.failures store.old) (T.failures store.new) (store_answer result) }
{
    if !is_purge_of(links, range) {
        return Err(CommandError::Met(Fault::NoArea(word)));
    }
    purge_on(alloc, range, store, out)
}

#[tactic(auto, using(std::proofs::lemmas::Result::err_from_is_err_and, base_store::proofs::Runs::no_look, echo_steps::proofs::Bounds::handed_many, crate::proofs::Commits::caused_after, crate::proofs::Commits::committed_where, crate::proofs::Commits::looks_may, crate::proofs::Commits::ready_where, crate::proofs::Bounded::may_then_nothing, crate::proofs::Purges::purge_may, crate::proofs::Purges::purge_printed))]
fn purge_on<'a, T: PurgedStore, W: Sink>(
    alloc: Global,
    range: &PurgeRange,
    store: &mut T,
    out: &mut W,
) -> Result<(), CommandError<'a>>
    requires { (T.state store.old).is_ready }
    ensures answers { Honestly (T.state store.new).disk ((base : Base) → (T.state store.old).keeps base
        → PurgesOn range.now base (output_of W.contents W.failures W.holds out.old) (output_of W.contents W.failures W.holds out.new) result) }
    ensures committed { Honestly (T.state store.new).disk ((base : Base) → (T.state store.old).keeps base
        → OnOk result (HasCommitted (Purges range.now base) (T.state store.new))) }
    ensures ready { OnOk result (T.state store.new).is_ready }
    ensures met { IfErr result (MayCommitWhereMet (T.state store.old) (T.state store.new)) }
    ensures crash { MayMake (HoldsOrPurges range.now) (T.state store.old) (T.state store.new) }
    ensures many { IsErrOf (store_answer result) TooMany → IsStoppedHeld T.state (HoldsOrPurges range.now) (T.state store.old) (T.state store.new) }
    ensures cause { HasStoreCause (T.state store.old) (T.state store.new) (T.failures store.old) (T.failures store.new) (store_answer result) }
{
    let count = store.purge(range)?;
    let mut lines = Vec::new(alloc);
    push_purged(&mut lines, count)?;
    leave(&mut lines, store, out)
}
