//! The place of a value among ascending values.

ghost use Rattle.std.specs.{Prelude.{◌≡◌, ◌<◌, ◌↔◌, true, IsTrue, MatchOption, Contains, length, slice_index_or}, List.Sorted.IsStrictlySortedBy};

/// The index of the value among these, which ascend.
pub fn place<T: Ord>(values: &[T], value: &T) -> Option<usize>
    requires exact { (x y : T) → T.eq x y ≡ true → x ≡ y }
    requires ascending { IsStrictlySortedBy T.cmp values.now }
    ensures { MatchOption result
        (¬ Contains values.now value.now)
        (λ i. (i < length values.now) × (slice_index_or values.now i value.now ≡ value.now)) }
{
    values.binary_search(value).ok()
}

/// The same, looked for first at the place `guess`.
pub fn place_near<T: Ord>(values: &[T], guess: usize, value: &T) -> Option<usize>
    requires exact { (x y : T) → T.eq x y ≡ true → x ≡ y }
    requires ascending { IsStrictlySortedBy T.cmp values.now }
    ensures { MatchOption result
        (¬ Contains values.now value.now)
        (λ i. (i < length values.now) × (slice_index_or values.now i value.now ≡ value.now)) }
{
    if guess < values.len() && values[guess] == *value {
        return Some(guess);
    }
    place(values, value)
}

/// Is the value among these, which ascend?
pub fn holds<T: Ord>(values: &[T], value: &T) -> bool
    requires exact { (x y : T) → T.eq x y ≡ true → x ≡ y }
    requires ascending { IsStrictlySortedBy T.cmp values.now }
    ensures { IsTrue result ↔ Contains values.now value.now }
{
    place(values, value).is_some()
}
