//! What a program does with the store of a station before the command.
ghost use Rattle.std.specs.Prelude.{◌≡◌, ◌≤◌, ◌⊎◌, None, Some, IfErr, OnOk};
ghost use Rattle.{cmd_status.specs.declared.fault.Fault.Fault as TheFault, base_store.specs.Store.LooksOn};

use base_store::Store;
use cmd_status::Fault;

/// Work of a program on an open store before the command: it may look at the store, and stop the command.
pub trait BeforeCommand<'a, S: Store> {
    // Why it stopped a command, from before and after.
    ghost stops: { Self → Self → TheFault → Type 0 };

    // Whether it lets the command run, from before.
    ghost lets: { Self → Type 0 };

    /// Gets the store, under the locks of the command.
    fn prepare(&mut self, store: &mut S) -> Result<(), Fault<'a>>
        requires { (S.state store.old).is_ready }
        ensures looks { LooksOn (S.state store.old) (S.state store.new) }
        ensures later { S.failures store.old ≤ S.failures store.new }
        ensures undamaged { OnOk result ((S.state store.old).is_sound → (S.state store.new).is_sound) }
        ensures stopped { IfErr result (stops self.old self.new) }
        ensures passed { OnOk result (lets self.old) };
}

/// Does nothing before the command.
#[derive(Drop)]
pub struct Nothing;

impl<'a, S: Store> BeforeCommand<'a, S> for Nothing {
    ghost stops = { λ _ _ fault. ⊥ };

    ghost lets = { λ _. Unit {0} };

    fn prepare(&mut self, _store: &mut S) -> Result<(), Fault<'a>> {
        Ok(())
    }
}

/// Stops the command by the fault of an input that was not read, unless the first work stops it.
#[derive(Drop)]
pub struct Unread<'a, Q> {
    pub first: Q,
    pub fault: Option<Fault<'a>>,
}

impl<'a, S: Store, Q: BeforeCommand<'a, S>> BeforeCommand<'a, S> for Unread<'a, Q> {
    ghost stops = { λ old new fault. Q.stops old.first new.first fault ⊎ (old.fault ≡ Some fault) };

    ghost lets = { λ unread. Q.lets unread.first × (unread.fault ≡ None) };

    fn prepare(&mut self, store: &mut S) -> Result<(), Fault<'a>> {
        self.first.prepare(store)?;
        match self.fault {
            Some(fault) => Err(fault),
            None => Ok(()),
        }
    }
}
