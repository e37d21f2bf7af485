//! A `Vec` that no later call grows.

ghost use Rattle.std.specs.Prelude.{◌≡◌, ◌↔◌, List, [], IsTrue, length};
ghost use Rattle.std.specs.{Cmp.Lexicographic.pointwise, Cmp.Lexicographic.lists_per, Cmp.Lexicographic.lists_equiv, Hash.items_Alike};
ghost use Rattle.std.specs.Hash as fed;

use std::convert::AsSlice;
use std::fmt;
use std::fmt::Debug;
use std::hash::{Hash, Hasher};
use std::marker::Model;
use std::ops::DerefSlice;

/// A list that no later call grows; contracts see the list of its items. It gives its `Vec` back without taking
/// memory.
#[derive(Drop)]
pub struct Items<T> {
    all: Vec<T>,
}

impl<T> Model for Items<T> {
    ghost Value = { List T };

    ghost view = { λ s. s.all.items };
}

impl<T> Items<T> {
    /// The items of the `Vec`.
    pub fn new(all: Vec<T>) -> Items<T>
        ensures { result ≡ all.items }
    {
        Items { all }
    }

    /// The `Vec` with these items.
    pub fn into_vec(self) -> Vec<T>
        ensures { result.items ≡ self }
    {
        self.all
    }

    /// The items in order.
    pub fn as_slice(&self) -> &[T]
        ensures { result.now ≡ self.now }
    {
        self.all.as_slice()
    }

    /// How many items there are.
    pub fn len(&self) -> usize
        ensures { result ≡ length self.now }
    {
        self.all.len()
    }

    /// Whether there are none.
    pub fn is_empty(&self) -> bool
        ensures { IsTrue result ↔ (self.now ≡ []) }
    {
        self.all.is_empty()
    }
}

impl<T> AsSlice<T> for Items<T> {
    ghost items = { λ s. s };

    fn as_slice(&self) -> &[T] {
        self.as_slice()
    }
}

impl<T> DerefSlice for Items<T> {
    type Elem = T;

    ghost deref_gives = { λ items slice. slice ≡ items };

    fn deref(&self) -> &[T] {
        self.as_slice()
    }
}

impl<T: PartialEq> PartialEq for Items<T> {
    ghost eq = { λ a b. pointwise T.eq a b };

    ghost laws = { lists_per T.laws };

    fn eq(&self, other: &Self) -> bool {
        self.as_slice() == other.as_slice()
    }
}

impl<T: Eq> Eq for Items<T> {
    ghost laws = { lists_equiv T.Eq.laws };
}

impl<T: Hash> Hash for Items<T> {
    ghost hash_input = { λ items. fed.slice T.hash_input items };

    ghost respects_eq = { (items_Alike (record { fed = T.respects_eq })).fed };

    fn hash<H: Hasher>(&self, state: &mut H) {
        self.as_slice().hash(state);
    }
}

impl<T: Debug> Debug for Items<T> {
    fn fmt<W: fmt::Write>(&self, f: &mut fmt::Formatter<W>) -> fmt::Result {
        f.debug_list().entries(self.as_slice()).finish()
    }
}
