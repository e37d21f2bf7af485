//! What a command on a store owes, whichever command and whichever store that is.
ghost use Rattle.std.specs.Prelude.{Bool, Result, IfErr, IsErrOf, OnOk};
ghost use Rattle.{base_file.specs.Base.Base, disk_io.specs.Disk.Honestly};
ghost use Rattle.{echo_links.specs.Links.LinkFile as TheLinks, cmd_status.specs.Devices.{Output, output_of}, base_store.specs.Store.HasStoreCause};
ghost use Rattle.{base_store.specs.declared.store_error.StoreError.TheVariants.TooMany, cmd_store.specs.Answered.{HasCommitted, MayMake, StaysWhereMet}};
ghost use Rattle.cmd_store.specs.{Bounded.StaysTooMany, Stops.store_answer, declared.command_error.CommandError.CommandError as TheStop};
ghost use Rattle.echo_filed.specs.Filed.{Filed as TheMessage};

use crate::command_error::CommandError;
use base_store::PurgedStore;
use disk_io::Sink;
use echo_links::LinkFile;
use std::alloc::Global;

/// A command that changes a base of any kind.
pub trait StoreCommand<'a> {
    /// Its answer if it ends well.
    type Answer;

    // What it prints and answers where the store holds this base. Each pair is from before and after.
    ghost answers: { Self → Self → TheLinks → Base → Output → Output → Result Self.Answer TheStop → Type 0 };

    // Which base it makes of this one, where it prints and answers this.
    ghost makes: { Self → Self → TheLinks → Base → Output → Output → Result Self.Answer TheStop → Base → Type 0 };

    // Which base a crash may leave, if not the one that was committed before. The commands are that from before and after.
    ghost may: { Self → Self → TheLinks → Base → Base → Type 0 };

    // Whether what the store held before may be committed where the command meets a fault.
    ghost commits_held: { Self → Bool };

    // Which message it may add to this base.
    ghost adds: { Self → TheLinks → Base → TheMessage → Type 0 };

    /// Runs it with this link file on the store, prints its lines, and commits.
    fn run<T: PurgedStore, W: Sink>(
        &mut self,
        alloc: Global,
        links: &LinkFile,
        store: &mut T,
        out: &mut W,
    ) -> Result<Self::Answer, CommandError<'a>>
        requires { (T.state store.old).is_ready }
        ensures answers { Honestly (T.state store.new).disk ((base : Base) → (T.state store.old).keeps base
            → answers self.old self.new links.now base (output_of W.contents W.failures W.holds out.old) (output_of W.contents W.failures W.holds out.new) result) }
        ensures committed { Honestly (T.state store.new).disk ((base : Base) → (T.state store.old).keeps base
            → OnOk result (HasCommitted (makes self.old self.new links.now base (output_of W.contents W.failures W.holds out.old) (output_of W.contents W.failures W.holds out.new) result) (T.state store.new))) }
        ensures ready { OnOk result (T.state store.new).is_ready }
        ensures met { IfErr result (StaysWhereMet (commits_held self.old) (T.state store.old) (T.state store.new)) }
        ensures crash { MayMake (may self.old self.new links.now) (T.state store.old) (T.state store.new) }
        ensures many { IsErrOf (store_answer result) TooMany → StaysTooMany (commits_held self.old) T.state (adds self.old links.now) (may self.old self.new links.now) (T.state store.old) (T.state store.new) }
        ensures cause { HasStoreCause (T.state store.old) (T.state store.new) (T.failures store.old) (T.failures store.new) (store_answer result) };
}
