//! Items that many holders share.

ghost use Rattle.std.specs.Cmp.Lexicographic.{bytes_decides, pointwise, pointwise_decides, lists_per, lists_equiv};
ghost use Rattle.std.specs.{Prelude.◌≡◌, Prelude.List, Prelude.IfOk, Cmp.nat_eq_equiv, Cmp.partial_equiv_from_equiv, Hash.items_Alike, Hash.same_Alike};
ghost use Rattle.std.specs.Hash as fed;

use echo_text::Lines;
use std::alloc::{AllocError, Global};
use std::fmt;
use std::fmt::Debug;
use std::hash::{Hash, Hasher};
use std::marker::Model;

/// A list behind one pointer; contracts see the list of its items. A value that holds it stays small.
#[derive(Drop)]
pub struct Boxed<T> {
    all: Box<Vec<T>>,
}

impl<T> Model for Boxed<T> {
    ghost Value = { List T };

    ghost view = { λ s. s.all.value.items };
}

impl<T: Drop> Boxed<T> {
    /// The items of the `Vec`.
    pub fn new(alloc: Global, all: Vec<T>) -> Result<Boxed<T>, AllocError>
        ensures { IfOk result (λ boxed. boxed ≡ all.items) }
    {
        let all = Box::new(alloc, all)?;
        Ok(Boxed { all })
    }
}

impl<T> Boxed<T> {
    /// The items in order.
    pub fn as_slice(&self) -> &[T]
        ensures { result.now ≡ self.now }
    {
        self.all.as_slice()
    }
}

impl<T: PartialEq> PartialEq for Boxed<T> {
    ghost eq = { λ a b. pointwise T.eq a b };

    ghost laws = { lists_per T.laws };

    fn eq(&self, other: &Self) -> bool {
        self.as_slice() == other.as_slice()
    }
}

impl<T: Eq> Eq for Boxed<T> {
    ghost laws = { lists_equiv T.Eq.laws };
}

impl<T: Hash> Hash for Boxed<T> {
    ghost hash_input = { λ items. fed.slice T.hash_input items };

    ghost respects_eq = { (items_Alike (record { fed = T.respects_eq })).fed };

    fn hash<H: Hasher>(&self, state: &mut H) {
        self.as_slice().hash(state);
    }
}

impl<T: Debug> Debug for Boxed<T> {
    fn fmt<W: fmt::Write>(&self, f: &mut fmt::Formatter<W>) -> fmt::Result {
        f.debug_list().entries(self.as_slice()).finish()
    }
}

/// The lines of a text behind one pointer; contracts see the list of the lines.
#[derive(Drop)]
pub struct BoxedLines {
    lines: Box<Lines>,
}

impl Model for BoxedLines {
    ghost use Rattle.std.specs.Prelude.{ℕ, List};

    ghost Value = { List (List ℕ) };

    ghost view = { λ s. s.lines.value };
}

impl BoxedLines {
    /// The lines.
    pub fn new(alloc: Global, lines: Lines) -> Result<BoxedLines, AllocError>
        ensures { IfOk result (λ boxed. boxed ≡ lines) }
    {
        let lines = Box::new(alloc, lines)?;
        Ok(BoxedLines { lines })
    }

    /// The lines one after another, as `Lines` has them.
    pub fn lines(&self) -> &Lines
        ensures { result.now ≡ self.now }
    {
        &self.lines
    }
}

impl PartialEq for BoxedLines {
    ghost eq = { ⟦<Lines as PartialEq>⟧.eq };

    ghost laws = { lists_per (lists_per (partial_equiv_from_equiv nat_eq_equiv)) };

    fn eq(&self, other: &Self) -> bool {
        self.lines() == other.lines()
    }
}

impl Eq for BoxedLines {
    ghost laws = { lists_equiv (lists_equiv nat_eq_equiv) };
}

impl Hash for BoxedLines {
    ghost hash_input = { ⟦<Lines as Hash>⟧.hash_input };

    ghost respects_eq = { (same_Alike ⟦<Lines as Hash>⟧.hash_input (pointwise_decides bytes_decides)).fed };

    fn hash<H: Hasher>(&self, state: &mut H) {
        self.lines().hash(state);
    }
}

impl Debug for BoxedLines {
    fn fmt<W: fmt::Write>(&self, f: &mut fmt::Formatter<W>) -> fmt::Result {
        self.lines().fmt(f)
    }
}
