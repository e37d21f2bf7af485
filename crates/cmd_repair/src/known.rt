//! The ids that a link already has, as a list names them.

ghost use Rattle.std.specs.{Prelude.{◌≡◌, List, ℕ, bytes_eq, map}, List.list_any};

use std::marker::Model;

/// The ids that a list names, each as the word that is printed for it. A look-up does not go through the others.
#[derive(Drop)]
pub struct KnownIds<'a> {
    sorted: Vec<&'a [u8]>,
}

impl<'a> Model for KnownIds<'a> {
    ghost use Rattle.std.specs.Prelude.{ℕ, List, map};
    ghost use Rattle.std.specs.{Cmp.Lexicographic.slice_cmp, List.Sorted.IsSorted, Ordering.nat_cmp};

    ghost Value = { List (List ℕ) };

    ghost view = { λ known. map (λ word. word.now) known.sorted.items };

    ghost invariant = { λ known. IsSorted (slice_cmp nat_cmp) (map (λ word. word.now) known.sorted.items) };
}

impl<'a> KnownIds<'a> {
    pub(crate) fn of(words: Vec<&'a [u8]>) -> KnownIds<'a>
        ensures { (word : List ℕ) → list_any (bytes_eq word) result ≡ list_any (bytes_eq word) (map (λ one. one.now) words.entry.items) }
    {
        let mut sorted = words;
        sorted.sort_unstable();
        KnownIds { sorted }
    }

    /// Whether the word is one of them.
    pub fn has(&self, word: &[u8]) -> bool
        ensures { result ≡ list_any (bytes_eq word.now) self.now }
    {
        self.sorted.as_slice().binary_search(&word).is_ok()
    }
}
