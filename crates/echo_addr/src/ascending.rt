//! Values in ascending order, each once.

ghost use Rattle.std.specs.{Prelude.◌≡◌, Prelude.◌↔◌, Prelude.true, Prelude.Contains, List.Sorted.IsStrictlySortedBy};

/// Puts the values in ascending order and leaves out repeats. Takes no memory.
pub fn put_in_order<T: Ord + Drop>(values: &mut Vec<T>)
    requires { (x y : T) → T.eq x y ≡ true → x ≡ y }
    ensures ascending { IsStrictlySortedBy T.cmp values.new.items }
    ensures members { (x : T) → Contains values.new.items x ↔ Contains values.old.items x }
{
    values.sort_unstable();
    values.dedup();
}
