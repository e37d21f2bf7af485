//! The calls and their answers, for clauses only: at run time it is empty.
ghost use Rattle.std.specs.Prelude.{◌≡◌, ℕ, List, [], ◌∷◌};
ghost use Rattle.std.specs.Borrow.{ftrue};

use std::marker::Model;

/// A call on files, and its answer.
#[derive(Clone, Copy)]
pub struct Call<'a> {
    pub(crate) what: u64,
    pub(crate) at: u64,
    pub(crate) asked: u64,
    pub(crate) answer: u64,
    pub(crate) path: &'a [u8],
    pub(crate) other: &'a [u8],
    pub(crate) bytes: &'a [u8],
}

/// The calls so far, the newest first: the numbers of each, its path, another path, and bytes.
#[derive(Drop)]
pub struct Trace {
    pub ghost calls: { List (List ℕ × (List ℕ × (List ℕ × List ℕ))) },
}

impl Model for Trace {
    ghost also_owns = { λ _. ftrue };
}

impl Trace {
    ghost use Rattle.disk_system.specs.Noted.{note_of};

    pub(crate) fn empty() -> Trace
        ensures { result.calls ≡ [] }
    {
        Trace {}
    }

    pub(crate) fn with(&self, _call: &Call<'_>) -> Trace
        ensures { result.calls ≡ note_of _call.now ∷ self.now.calls }
    {
        Trace {}
    }
}
